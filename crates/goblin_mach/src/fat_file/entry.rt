//! The entries of a fat file.

ghost use Rattle.goblin_mach.specs.FatEntry.{OpensEntry, fat_entry_of};

use crate::macho::MachO;
use mach_base::{ByteCount, Error, Hint, Result, take_hint_bytes};
use mach_parts::magic::peek_bytes;
use std::alloc::{Allocator, Global};
use std::fmt;
use std::fmt::{Debug, Formatter, Write};

/// An entry of a fat file.
#[derive(Drop)]
pub enum SingleArch<'a, A: Allocator = Global> {
    /// An image.
    MachO(MachO<'a, A>),
    /// An archive: its bytes, of which only the first eight were read.
    Archive(&'a [u8]),
}

impl<'a, A: Allocator + Clone> SingleArch<'a, A> {
    /// Opens the entry in these bytes. An image is opened strictly.
    pub(crate) fn open(alloc: &A, bytes: &'a [u8]) -> Result<SingleArch<'a, A>>
        ensures { OpensEntry (fat_entry_of bytes.now) result }
    {
        let Some(front) = take_hint_bytes(bytes) else {
            return Err(Error::Malformed("an entry is shorter than 16 bytes"));
        };
        match peek_bytes(front)? {
            Hint::Archive => Ok(SingleArch::Archive(bytes)),
            Hint::Mach(_) => Ok(SingleArch::MachO(MachO::parse(alloc.clone()?, bytes, 0)?)),
            Hint::MachFat(_) | Hint::Unknown(_) => {
                Err(Error::Malformed("an entry is neither an image nor an archive"))
            }
        }
    }
}

impl<'a, A: Allocator> Debug for SingleArch<'a, A> {
    /// Formats the image, or, for an archive, only its number of bytes.
    fn fmt<W: Write>(&self, f: &mut Formatter<W>) -> fmt::Result {
        match self {
            SingleArch::MachO(image) => f.debug_tuple("MachO").field(image).finish(),
            SingleArch::Archive(bytes) => {
                f.debug_tuple("Archive").field(&ByteCount(bytes)).finish()
            }
        }
    }
}
