//! The kind of a file, including archives and fat files of 64 bits.

ghost use Rattle.std.specs.Prelude.{◌≡◌, ◌↔◌, IfOk, IfErr, IsOk, IsTrue, true};
ghost use Rattle.mach_base.specs.Answer.{ErrorMeets, IsOkUnlessMemory};
ghost use Rattle.mach_archive.specs.Archives.{archive_in};
ghost use Rattle.goblin_mach.specs.File.{IsFat};
ghost use Rattle.mach_parts.specs.FatRecords.{HasFat64Magic};
ghost use Rattle.goblin_mach.specs.Inputs.{begins_any_archive, IsFat64, IsNeither, InputOpens, InputFault};

use crate::fat_file::table::{MultiArch, MultiArch64};
use crate::mach::Mach;
use crate::macho::MachO;
use mach_archive::Archive;
use mach_base::Result;
use mach_parts::FAT_MAGIC_64;
use mach_parts::magic::peek;
use std::alloc::{Allocator, Global};

/// A file of any kind that can hold images.
#[derive(Drop)]
#[derive_where(Debug)]
pub enum Input<'a, A: Allocator = Global> {
    /// One image.
    Image(MachO<'a, A>),
    /// Images and archives for several cpus.
    Fat(MultiArch<'a, A>),
    /// Images and archives for several cpus, in a table whose offsets and sizes have 64 bits.
    Fat64(MultiArch64<'a, A>),
    /// A static library: files, and possibly an index of their symbols.
    Archive(Archive<'a>),
}

/// Whether the bytes begin like an archive, or like a thin archive, whose members are other files.
pub fn begins_archive(bytes: &[u8]) -> bool
    ensures { result ≡ begins_any_archive bytes.now }
{
    bytes.starts_with(b"!<arch>\n") || bytes.starts_with(b"!<thin>\n")
}

// Whether the bytes begin with the magic of a fat file of 64 bits.
fn has_fat_64_magic(bytes: &[u8]) -> bool
    ensures { IsTrue result ↔ HasFat64Magic bytes.now }
{
    match peek(bytes, 0) {
        Ok(magic) => magic == FAT_MAGIC_64,
        Err(_) => false,
    }
}

impl<'a, A: Allocator + Clone> Input<'a, A> {
    ghost use Rattle.goblin_mach.specs.Inputs.{IsInput};

    /// Opens a file: an archive or a fat file if its magic says so, which takes no memory, else an image, strictly. Each
    /// error except `Error::Memory` is a fault in the file. For all bytes except archives and fat files of 64 bits, the
    /// result is that of `Mach::parse`.
    pub fn parse(alloc: A, bytes: &'a [u8]) -> Result<Input<'a, A>>
        ensures opened { IfOk result (IsInput bytes.now) }
        ensures only { InputOpens bytes.now → IsOkUnlessMemory result }
        ensures archive { begins_any_archive bytes.now ≡ true → IsOk (archive_in bytes.now) → IsOk result }
        ensures fat { IsNeither bytes.now → IsFat bytes.now → IsOk result }
        ensures fat_64 { IsFat64 bytes.now → IsOk result }
        ensures refused { IfErr result (ErrorMeets (InputFault bytes.now)) }
    {
        if begins_archive(bytes) {
            return Ok(Input::Archive(Archive::parse(bytes)?));
        }
        if has_fat_64_magic(bytes) {
            return Ok(Input::Fat64(MultiArch64::new(alloc, bytes)?));
        }
        match Mach::parse(alloc, bytes)? {
            Mach::Binary(image) => Ok(Input::Image(image)),
            Mach::Fat(container) => Ok(Input::Fat(container)),
        }
    }
}
