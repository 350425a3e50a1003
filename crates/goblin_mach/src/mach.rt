//! The kind of a file: an image or a fat file.

ghost use Rattle.std.specs.Prelude.{IfOk, IfErr, IsOk};
ghost use Rattle.mach_base.specs.Answer.{ErrorMeets, IsOkUnlessMemory};
ghost use Rattle.goblin_mach.specs.Image.{Opens, LossyOpens, ImageFault, LossyFault};
ghost use Rattle.goblin_mach.specs.File.{IsFat, MachOpens, MachFault};

use crate::fat_file::table::MultiArch;
use crate::macho::MachO;
use mach_base::{Endian, Error, Result};
use mach_parts::fat::FAT_MAGIC;
use std::alloc::{Allocator, Global};

/// A file: an image or a fat file.
#[derive(Drop)]
#[derive_where(Debug)]
pub enum Mach<'a, A: Allocator = Global> {
    /// Images and archives for several cpus.
    Fat(MultiArch<'a, A>),
    /// One image.
    Binary(MachO<'a, A>),
}

impl<'a, A: Allocator + Clone> Mach<'a, A> {
    ghost use Rattle.goblin_mach.specs.OpenImage.{IsImage, IsLossyImage};
    ghost use Rattle.goblin_mach.specs.File.{IsMach};

    /// Opens a file: a fat file if its magic says so, which takes no memory, else an image. Each error except
    /// `Error::Memory` is a fault in the file.
    pub fn parse(alloc: A, bytes: &'a [u8]) -> Result<Mach<'a, A>>
        ensures opened { IfOk result (IsMach IsImage bytes.now) }
        ensures only { MachOpens Opens bytes.now → IsOkUnlessMemory result }
        ensures fat { IsFat bytes.now → IsOk result }
        ensures refused { IfErr result (ErrorMeets (MachFault ImageFault bytes.now)) }
    {
        if bytes.len() < 4 {
            return Err(Error::Malformed("the file ends in its magic"));
        }
        if Endian::Big.u32_at(bytes, 0) == FAT_MAGIC {
            return Ok(Mach::Fat(MultiArch::new(alloc, bytes)?));
        }
        Ok(Mach::Binary(MachO::parse(alloc, bytes, 0)?))
    }

    /// Opens a file, and skips what can't be read of its image, as `MachO::parse_lossy` does. The images of a fat file are
    /// still opened strictly.
    pub fn parse_lossy(alloc: A, bytes: &'a [u8]) -> Result<Mach<'a, A>>
        ensures opened { IfOk result (IsMach IsLossyImage bytes.now) }
        ensures only { MachOpens LossyOpens bytes.now → IsOkUnlessMemory result }
        ensures fat { IsFat bytes.now → IsOk result }
        ensures refused { IfErr result (ErrorMeets (MachFault LossyFault bytes.now)) }
    {
        if bytes.len() < 4 {
            return Err(Error::Malformed("the file ends in its magic"));
        }
        if Endian::Big.u32_at(bytes, 0) == FAT_MAGIC {
            return Ok(Mach::Fat(MultiArch::new(alloc, bytes)?));
        }
        Ok(Mach::Binary(MachO::parse_lossy(alloc, bytes, 0)?))
    }
}
