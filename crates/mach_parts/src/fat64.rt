//! The record of an entry in a 64-bit fat file, which is big-endian (`mach-o/fat.h`).

ghost use Rattle.std.specs.Prelude.{◌≡◌, ◌↔◌, IsTrue};
ghost use Rattle.mach_base.specs.declared.context.Endian.TheVariants.{Big};
ghost use Rattle.mach_base.specs.Answer.{Reads};
ghost use Rattle.mach_base.specs.Record.{record_at};
ghost use Rattle.mach_parts.specs.Cpu.{kind_of_cpu, caps_of_cpu, HasAbi64};
ghost use Rattle.mach_parts.specs.Fat.{part_of};
ghost use Rattle.mach_parts.specs.FatRecords.{fat_arch_64_fields, fat_arch_64_values};

use mach_base::{Endian, Record, RecordBytes, Result};
use mach_records::cputype::{CPU_ARCH_ABI64, CPU_SUBTYPE_MASK, CpuSubType, CpuType};

/// The magic of a 64-bit fat file.
pub const FAT_MAGIC_64: u32 = 0xcafe_babf;

/// The size of a `FatArch64` in bytes.
pub const SIZEOF_FAT_ARCH_64: usize = 32;

/// One entry of a 64-bit fat file: an image or an archive for one CPU (struct fat_arch_64).
#[derive(Clone, Copy, Debug, Default)]
pub struct FatArch64 {
    /// The CPU type, one of the `CPU_TYPE_` constants.
    pub cputype: u32,
    /// The CPU subtype, with capabilities in the top 8 bits.
    pub cpusubtype: u32,
    /// Its file offset.
    pub offset: u64,
    /// Its size in bytes.
    pub size: u64,
    /// The alignment of its offset: 2 to this power, in bytes.
    pub align: u32,
    /// Unused.
    pub reserved: u32,
}

impl Record for FatArch64 {
    const SIZE: usize = SIZEOF_FAT_ARCH_64;

    ghost SIZE = { 32 };

    ghost use Rattle.std.proofs.Common.{rules};

    ghost fields = { fat_arch_64_fields };

    ghost values = { fat_arch_64_values };

    ghost lawful = { Prim.search rules };

    fn load(bytes: &[u8], le: Endian) -> Self {
        FatArch64 {
            cputype: le.u32_at(bytes, 0),
            cpusubtype: le.u32_at(bytes, 4),
            offset: le.u64_at(bytes, 8),
            size: le.u64_at(bytes, 16),
            align: le.u32_at(bytes, 24),
            reserved: le.u32_at(bytes, 28),
        }
    }

    fn store(self, le: Endian) -> RecordBytes {
        RecordBytes::new()
            .u32(le, self.cputype)
            .u32(le, self.cpusubtype)
            .u64(le, self.offset)
            .u64(le, self.size)
            .u32(le, self.align)
            .u32(le, self.reserved)
    }
}

impl FatArch64 {
    /// Returns the entry's bytes if they lie in the file, or else none.
    pub fn slice<'a>(&self, bytes: &'a [u8]) -> &'a [u8]
        ensures { result.now ≡ part_of bytes.now self.now.offset self.now.size }
    {
        match self.offset.checked_add(self.size) {
            Some(end) => bytes.get(self.offset as usize..end as usize).unwrap_or(&[]),
            None => &[],
        }
    }

    /// Returns the CPU type.
    pub fn cputype(&self) -> CpuType
        ensures { result ≡ self.now.cputype }
    {
        self.cputype
    }

    /// Returns the CPU subtype without its capabilities.
    pub fn cpusubtype(&self) -> CpuSubType
        ensures { result ≡ kind_of_cpu self.now.cpusubtype }
    {
        self.cpusubtype & !CPU_SUBTYPE_MASK
    }

    /// Returns the CPU's capabilities, below 256.
    pub fn cpu_caps(&self) -> u32
        ensures { result ≡ caps_of_cpu self.now.cpusubtype }
    {
        (self.cpusubtype & CPU_SUBTYPE_MASK) >> 24
    }

    /// Whether the CPU's addresses have 64 bits.
    pub fn is_64(&self) -> bool
        ensures { IsTrue result ↔ HasAbi64 self.now.cputype }
    {
        self.cputype & CPU_ARCH_ABI64 != 0
    }

    /// Reads the entry at an offset of the table.
    pub fn parse(bytes: &[u8], offset: usize) -> Result<Self>
        ensures { Reads fat_arch_64_values result (record_at Big fat_arch_64_fields bytes.now offset) }
    {
        FatArch64::read(bytes, offset, Endian::Big)
    }
}
