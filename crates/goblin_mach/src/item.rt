//! The items in a file: images, and what isn't one.

ghost use Rattle.std.specs.Prelude.{◌≡◌, IfOk, IfErr};
ghost use Rattle.mach_base.specs.Answer.{ErrorMeets, IsOkUnlessMemory};
ghost use Rattle.goblin_mach.specs.Image.{Opens, ImageFault};
ghost use Rattle.goblin_mach.specs.OpenImage.{IsImage};
ghost use Rattle.goblin_mach.specs.Items.{content_bytes, content_view};

use crate::macho::MachO;
use mach_archive::Member;
use mach_base::Result;
use std::alloc::Allocator;

/// The cpu that an entry of a fat file is for, by its record.
#[derive(Clone, Copy, Debug, PartialEq)]
pub struct EntryCpu {
    /// The cpu, one of the `CPU_TYPE_` constants.
    pub cputype: u32,
    /// The subtype of this cpu, with its capabilities in the top 8 bits.
    pub cpusubtype: u32,
}

/// The place of an item. Programs build its label from this.
#[derive(Clone, Copy, Debug)]
pub struct ItemPlace {
    /// The index of its entry, in a fat file.
    pub entry: Option<usize>,
    /// The cpu of its entry, if the record can be read.
    pub cpu: Option<EntryCpu>,
    /// The place in the file where its bytes begin; for a member, where its archive begins.
    pub offset: u64,
}

/// The content of an item.
#[derive(Clone, Copy, Debug)]
pub enum Content<'a> {
    /// The file itself or an entry of it: an image, or anything else except an archive.
    File(&'a [u8]),
    /// A member of the archive at that place: an image, or anything else.
    Member(Member<'a>),
    /// An archive that has no member.
    NoMember,
}

impl<'a> Content<'a> {
    /// Returns the bytes that may be an image; none for an archive without members.
    pub fn bytes(&self) -> &'a [u8]
        ensures { result.now ≡ content_bytes (content_view self.now) }
    {
        match self {
            Content::File(bytes) => bytes,
            Content::Member(member) => member.bytes,
            Content::NoMember => &[],
        }
    }

    /// Opens the image in it, strictly. Each error except `Error::Memory` is a fault in its bytes.
    pub fn open<A: Allocator + Clone>(&self, alloc: A) -> Result<MachO<'a, A>>
        ensures opened { IfOk result (IsImage (content_bytes (content_view self.now)) 0) }
        ensures only { Opens (content_bytes (content_view self.now)) 0 → IsOkUnlessMemory result }
        ensures refused { IfErr result (ErrorMeets (ImageFault (content_bytes (content_view self.now)) 0)) }
    {
        MachO::parse(alloc, self.bytes(), 0)
    }
}

/// An item of a file.
#[derive(Debug, Drop)]
pub struct InputItem<'a> {
    /// The place of the item.
    pub place: ItemPlace,
    /// Its content, or the error if it can't be read.
    pub content: Result<Content<'a>>,
}
