//! What the first bytes of a file say about its kind.

ghost use Rattle.std.specs.Prelude.{◌≡◌, Option, Some, None, option_map, length, take, nat_le, if◌then◌else◌};

/// What the magic number of an image says.
#[derive(Clone, Copy, Debug)]
pub struct HintData {
    /// Whether the lowest byte comes first.
    pub is_lsb: bool,
    /// Whether the image has 64 bits, if the magic number says so.
    pub is_64: Option<bool>,
}

/// The kind of a file, by its first bytes.
#[derive(Clone, Copy, Debug)]
pub enum Hint {
    /// A Mach-O image.
    Mach(HintData),
    /// A fat file, with its number of entries.
    MachFat(usize),
    /// An archive.
    Archive,
    /// None of these: the first eight bytes as a little-endian number.
    Unknown(u64),
}

/// Returns the first 16 bytes, which suffice to recognize the kind of a file. `None` if there are fewer.
pub fn take_hint_bytes(bytes: &[u8]) -> Option<&[u8; 16]>
    ensures { option_map (λ front. front.now) result ≡ (if nat_le 16 (length bytes.now) then Some (take 16 bytes.now) else None) }
{
    bytes.get(..16)?.try_into().ok()
}
