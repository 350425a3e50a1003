//! What kind of signature it is: the flags of the code directory that is used, and the CMS message.

ghost use Rattle.std.specs.Prelude.{◌≡◌};
ghost use Rattle.mach_base.specs.Items.{read_as};
ghost use Rattle.mach_signature.specs.DirectoryViews.{directory_view, slot_read};
ghost use Rattle.mach_signature.specs.FaultViews.{signed_view};
ghost use Rattle.mach_signature.specs.Kinds as defined;

use crate::directory::CodeDirectory;
use crate::faults::SignedBytes;
use mach_base::Result;

/// The CMS message of a signature, which says who signed.
#[derive(Clone, Copy)]
pub enum Cms {
    /// There is none, or an empty one.
    Lacking,
    /// It has so many bytes.
    Long(usize),
    /// It can't be read.
    Unreadable,
}

impl Cms {
    // Returns which message it is, by its content.
    fn of(content: Result<Option<&[u8]>>) -> Cms
        ensures { result ≡ defined.cms_by (read_as slot_read content.entry) }
    {
        match content {
            Ok(Some(bytes)) if !bytes.is_empty() => Cms::Long(bytes.len()),
            Ok(_) => Cms::Lacking,
            Err(_) => Cms::Unreadable,
        }
    }

    /// Whether there is a message that can be read.
    pub fn is_there(self) -> bool
        ensures { result ≡ defined.has_cms self }
    {
        match self {
            Cms::Lacking => false,
            Cms::Long(_) => true,
            Cms::Unreadable => false,
        }
    }
}

/// The kind of a signature.
#[derive(Clone, Copy)]
pub struct Kind {
    /// The flags of the code directory that is used.
    pub flags: u32,
    /// The CMS message.
    pub cms: Cms,
}

impl Kind {
    /// Returns the kind of a signature of which a code directory is used.
    pub fn of(signed: &SignedBytes<'_>, directory: &CodeDirectory<'_>) -> Kind
        ensures { result ≡ defined.kind_of (signed_view signed.now) (directory_view directory.now) }
    {
        Kind {
            flags: directory.head.flags,
            cms: cms_of(signed),
        }
    }

    // Whether a flag is set.
    fn has_flag(self, bit: u32) -> bool
        ensures { result ≡ defined.has_flag self.flags bit }
    {
        self.flags & bit != 0
    }

    /// Whether no one signed: the signature only seals (`CS_ADHOC`).
    pub fn is_ad_hoc(self) -> bool
        ensures { result ≡ defined.is_ad_hoc self }
    {
        self.has_flag(0x2)
    }

    /// Whether a linker signed (`CS_LINKER_SIGNED`).
    pub fn is_linker_signed(self) -> bool
        ensures { result ≡ defined.is_linker_signed self }
    {
        self.has_flag(0x20000)
    }

    /// Whether the program is to run hardened (`CS_RUNTIME`).
    pub fn has_hardened_runtime(self) -> bool
        ensures { result ≡ defined.has_hardened_runtime self }
    {
        self.has_flag(0x10000)
    }

    /// Whether the signature itself requires that libraries are validated (`CS_REQUIRE_LV`).
    pub fn has_library_validation(self) -> bool
        ensures { result ≡ defined.has_library_validation self }
    {
        self.has_flag(0x2000)
    }
}

/// Returns the CMS message of a signature.
pub fn cms_of(signed: &SignedBytes<'_>) -> Cms
    ensures { result ≡ defined.cms_of (signed_view signed.now) }
{
    Cms::of(signed.signature.cms())
}
