//! The entries that a fat file is built from.

ghost use Rattle.std.specs.Prelude.{◌≡◌};
ghost use Rattle.mach_base.specs.Answer.{Reads};
ghost use Rattle.mach_fat_writer.specs.CreatedEntries.{created_entry};
ghost use Rattle.mach_fat_writer.specs.Entries.{fat_entry_view};

use crate::cpu::Cpu;
use mach_base::{ByteCount, Error, Result};
use mach_parts::magic::parse_magic_and_ctx;
use std::fmt;

/// An entry for a fat file to be written: an image or an archive for one cpu.
#[derive(Clone, Copy)]
pub struct FatEntry<'a> {
    /// The cpu, one of the `CPU_TYPE_` constants.
    pub cputype: u32,
    /// The kind of this cpu, and its capabilities in the top 8 bits.
    pub cpusubtype: u32,
    /// Its offset in the file is a multiple of 2 to this power.
    pub align: u32,
    /// Its bytes. Nothing is required of them.
    pub bytes: &'a [u8],
}

impl<'a> FatEntry<'a> {
    /// Returns the entry that a file becomes. An image has the cpu of its header, of which only 28 bytes are read. An archive has
    /// the cpu of all its members, which must be images. Any other file is `BadMagic` with its first four bytes.
    pub fn of(bytes: &'a [u8]) -> Result<FatEntry<'a>>
        ensures { Reads fat_entry_view result (created_entry bytes.now) }
    {
        let (magic, ctx) = parse_magic_and_ctx(bytes, 0)?;
        if let Some(ctx) = ctx {
            let cpu = Cpu::of_image(bytes, ctx)?;
            return Ok(FatEntry::of_cpu(cpu, cpu.image_align(), bytes));
        }
        if bytes.starts_with(b"!<arch>\n") {
            let cpu = Cpu::of_archive(bytes)?;
            return Ok(FatEntry::of_cpu(cpu, cpu.archive_align(), bytes));
        }
        Err(Error::BadMagic(u64::from(magic)))
    }

    // Returns an entry of some bytes for a cpu.
    fn of_cpu(cpu: Cpu, align: u32, bytes: &'a [u8]) -> FatEntry<'a>
        ensures { fat_entry_view result ≡ record { cputype = cpu.cputype; cpusubtype = cpu.cpusubtype; align = align; bytes = bytes.now } }
    {
        FatEntry {
            cputype: cpu.cputype,
            cpusubtype: cpu.cpusubtype,
            align,
            bytes,
        }
    }
}

impl fmt::Debug for FatEntry<'_> {
    /// Prints the cpu, the alignment, and how many bytes the entry has.
    fn fmt<W: fmt::Write>(&self, f: &mut fmt::Formatter<W>) -> fmt::Result {
        f.debug_struct("FatEntry")
            .field("cputype", &self.cputype)
            .field("cpusubtype", &self.cpusubtype)
            .field("align", &self.align)
            .field("bytes", &ByteCount(self.bytes))
            .finish()
    }
}
