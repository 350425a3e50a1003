//! The slots of a signature: what each is for, and the magic of its blob (`cs_blobs.h`).

ghost use Rattle.std.specs.Prelude.{◌≡◌};
ghost use Rattle.mach_signature.specs.Slots as defined;

/// The magic of a signature (`CSMAGIC_EMBEDDED_SIGNATURE`).
pub const MAGIC_SIGNATURE: u32 = 0xfade_0cc0;

/// The magic of a code directory (`CSMAGIC_CODEDIRECTORY`).
pub const MAGIC_DIRECTORY: u32 = 0xfade_0c02;

/// The slot of the requirements.
pub const SLOT_REQUIREMENTS: u32 = 2;

/// The slot of the entitlements, in XML.
pub const SLOT_ENTITLEMENTS: u32 = 5;

/// The slot of the entitlements, in DER.
pub const SLOT_DER_ENTITLEMENTS: u32 = 7;

/// The slot of the CMS message, which says who signed.
pub const SLOT_CMS: u32 = 0x10000;

/// Whether a slot is one of a code directory: the first or an alternate one.
pub fn is_directory_slot(slot: u32) -> bool
    ensures { result ≡ defined.is_directory_slot slot }
{
    slot == 0 || (0x1000 <= slot && slot <= 0x1004)
}

/// The blobs that a slot may have.
#[derive(Clone, Copy, Debug, PartialEq)]
pub enum SlotMagic {
    /// A blob of this magic.
    Only(u32),
    /// None: what the slot seals is no blob.
    NoBlob,
    /// A blob of any magic.
    Any,
}

/// Returns which blobs a slot may have.
pub fn slot_magic(slot: u32) -> SlotMagic
    ensures { result ≡ defined.slot_magic slot }
{
    if is_directory_slot(slot) {
        return SlotMagic::Only(MAGIC_DIRECTORY);
    }
    match slot {
        1 | 3 | 4 | 6 => SlotMagic::NoBlob,
        2 => SlotMagic::Only(0xfade_0c01),
        5 => SlotMagic::Only(0xfade_7171),
        7 => SlotMagic::Only(0xfade_7172),
        8..=11 => SlotMagic::Only(0xfade_8181),
        0x10000 => SlotMagic::Only(0xfade_0b01),
        _ => SlotMagic::Any,
    }
}

/// Whether a slot may have a blob of the given magic.
pub fn has_magic(slot: u32, magic: u32) -> bool
    ensures { result ≡ defined.has_magic slot magic }
{
    match slot_magic(slot) {
        SlotMagic::Only(only) => magic == only,
        SlotMagic::NoBlob => false,
        SlotMagic::Any => true,
    }
}

/// Whether a slot may seal something outside of the image, for example the resources of a bundle.
pub fn is_outside(slot: u32) -> bool
    ensures { result ≡ defined.is_outside slot }
{
    slot == 1 || slot == 3 || slot == 4 || slot == 6
}
