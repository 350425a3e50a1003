//! The table at the start of a fat file, which is big-endian (`mach-o/fat.h`).

ghost use Rattle.std.specs.Prelude.{◌≡◌, ◌↔◌, IsTrue};
ghost use Rattle.mach_base.specs.declared.context.Endian.TheVariants.{Big};
ghost use Rattle.mach_base.specs.Answer.{Reads};
ghost use Rattle.mach_base.specs.Record.{record_at, values_in};
ghost use Rattle.mach_parts.specs.Cpu.{kind_of_cpu, caps_of_cpu, HasAbi64};
ghost use Rattle.mach_parts.specs.Fat.{fat_header_fields, fat_header_values, fat_arch_fields, fat_arch_values, part_of};

use crate::cpu::{caps_of, kind_of};
use mach_base::{Endian, Record, RecordBytes, Result};
use mach_records::cputype::{CPU_ARCH_ABI64, CpuSubType, CpuType};

/// The magic of a fat file.
pub const FAT_MAGIC: u32 = 0xcafe_babe;

/// The magic of a fat file, with its bytes reversed.
pub const FAT_CIGAM: u32 = 0xbeba_feca;

/// The size of a `FatHeader` in bytes.
pub const SIZEOF_FAT_HEADER: usize = 8;

/// The size of a `FatArch` in bytes.
pub const SIZEOF_FAT_ARCH: usize = 20;

/// The header of a fat file (struct fat_header).
#[derive(Clone, Copy, Debug, Default)]
pub struct FatHeader {
    /// The magic number.
    pub magic: u32,
    /// How many entries follow.
    pub nfat_arch: u32,
}

impl Record for FatHeader {
    const SIZE: usize = SIZEOF_FAT_HEADER;

    ghost SIZE = { 8 };

    ghost use Rattle.std.proofs.Common.{rules};

    ghost fields = { fat_header_fields };

    ghost values = { fat_header_values };

    ghost lawful = { Prim.search rules };

    fn load(bytes: &[u8], le: Endian) -> Self {
        FatHeader {
            magic: le.u32_at(bytes, 0),
            nfat_arch: le.u32_at(bytes, 4),
        }
    }

    fn store(self, le: Endian) -> RecordBytes {
        RecordBytes::new()
            .u32(le, self.magic)
            .u32(le, self.nfat_arch)
    }
}

impl FatHeader {
    /// Reads the header from its bytes.
    pub fn from_bytes(bytes: [u8; SIZEOF_FAT_HEADER]) -> FatHeader
        ensures { fat_header_values result ≡ values_in Big fat_header_fields 0 bytes }
    {
        FatHeader::load(&bytes, Endian::Big)
    }

    /// Reads the header at the start of the bytes. Its magic is not tested.
    pub fn parse(bytes: &[u8]) -> Result<FatHeader>
        ensures { Reads fat_header_values result (record_at Big fat_header_fields bytes.now 0) }
    {
        FatHeader::read(bytes, 0, Endian::Big)
    }
}

/// One entry of a fat file: an image or an archive for one CPU (struct fat_arch).
#[derive(Clone, Copy, Debug, Default)]
pub struct FatArch {
    /// The CPU type, one of the `CPU_TYPE_` constants.
    pub cputype: u32,
    /// The CPU subtype, with capabilities in the top 8 bits.
    pub cpusubtype: u32,
    /// Its file offset.
    pub offset: u32,
    /// Its size in bytes.
    pub size: u32,
    /// The alignment of its offset: 2 to this power, in bytes.
    pub align: u32,
}

impl Record for FatArch {
    const SIZE: usize = SIZEOF_FAT_ARCH;

    ghost SIZE = { 20 };

    ghost use Rattle.std.proofs.Common.{rules};

    ghost fields = { fat_arch_fields };

    ghost values = { fat_arch_values };

    ghost lawful = { Prim.search rules };

    fn load(bytes: &[u8], le: Endian) -> Self {
        FatArch {
            cputype: le.u32_at(bytes, 0),
            cpusubtype: le.u32_at(bytes, 4),
            offset: le.u32_at(bytes, 8),
            size: le.u32_at(bytes, 12),
            align: le.u32_at(bytes, 16),
        }
    }

    fn store(self, le: Endian) -> RecordBytes {
        RecordBytes::new()
            .u32(le, self.cputype)
            .u32(le, self.cpusubtype)
            .u32(le, self.offset)
            .u32(le, self.size)
            .u32(le, self.align)
    }
}

impl FatArch {
    /// Returns the entry's bytes if they lie in the file, or else none.
    pub fn slice<'a>(&self, bytes: &'a [u8]) -> &'a [u8]
        ensures { result.now ≡ part_of bytes.now self.now.offset self.now.size }
    {
        let start = self.offset as usize;
        bytes.get(start..start + self.size as usize).unwrap_or(&[])
    }

    /// Returns the CPU type.
    pub fn cputype(&self) -> CpuType
        ensures { result ≡ self.now.cputype }
    {
        self.cputype
    }

    /// Returns the CPU subtype without its capabilities.
    pub fn cpusubtype(&self) -> CpuSubType
        ensures { result ≡ kind_of_cpu self.now.cpusubtype }
    {
        kind_of(self.cpusubtype)
    }

    /// Returns the CPU's capabilities, below 256.
    pub fn cpu_caps(&self) -> u32
        ensures { result ≡ caps_of_cpu self.now.cpusubtype }
    {
        caps_of(self.cpusubtype)
    }

    /// Whether the CPU's addresses have 64 bits.
    pub fn is_64(&self) -> bool
        ensures { IsTrue result ↔ HasAbi64 self.now.cputype }
    {
        self.cputype & CPU_ARCH_ABI64 != 0
    }

    /// Reads the entry at an offset of the table.
    pub fn parse(bytes: &[u8], offset: usize) -> Result<Self>
        ensures { Reads fat_arch_values result (record_at Big fat_arch_fields bytes.now offset) }
    {
        FatArch::read(bytes, offset, Endian::Big)
    }
}
