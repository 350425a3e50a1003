//! The common interface of the records of fat tables, 32-bit and 64-bit.

ghost use Rattle.std.specs.Prelude.{◌≡◌, ◌/◌, length, nat_le};
ghost use Rattle.mach_base.specs.Answer.{Reads};
ghost use Rattle.mach_parts.specs.Fat.{part_of};
ghost use Rattle.mach_parts.specs.ArchForms.{ArchForm, IsArchForm, arch_form_32, arch_form_64, arch_place_in, arch_in};

use crate::fat::{FatArch, SIZEOF_FAT_HEADER};
use crate::fat64::FatArch64;
use mach_base::{Endian, Record, Result};
use mach_records::cputype::CpuType;

/// A record of a fat file's table: the CPU of an entry, and its place.
pub trait ArchRecord: Record {
    // How such records are read.
    ghost arch_form: { ArchForm Self };

    /// Returns the CPU type of the entry.
    fn entry_cpu(&self) -> CpuType
        ensures { result ≡ arch_form.cputype self.now };

    /// Returns the CPU subtype, with capabilities in the top 8 bits.
    fn entry_cpu_kind(&self) -> u32
        ensures { result ≡ arch_form.cpusubtype self.now };

    /// Returns the entry's file offset.
    fn entry_offset(&self) -> u64
        ensures { result ≡ arch_form.offset self.now };

    /// Returns the entry's size in bytes.
    fn entry_size(&self) -> u64
        ensures { result ≡ arch_form.size self.now };

    /// Returns the alignment of the offset, as an exponent of 2.
    fn entry_align(&self) -> u32
        ensures { result ≡ arch_form.align self.now };

    /// Returns the entry's bytes if they lie in the file, or else none.
    fn entry_slice<'a>(&self, bytes: &'a [u8]) -> &'a [u8]
        ensures { result.now ≡ part_of bytes.now (arch_form.offset self.now) (arch_form.size self.now) };

    ghost has_form: { IsArchForm Self.SIZE Self.fields Self.values arch_form };
}

impl ArchRecord for FatArch {
    ghost use Rattle.std.proofs.Common.{rules};

    ghost arch_form = { arch_form_32 };

    ghost has_form = { Prim.search rules };

    fn entry_cpu(&self) -> CpuType {
        self.cputype
    }

    fn entry_cpu_kind(&self) -> u32 {
        self.cpusubtype
    }

    fn entry_offset(&self) -> u64 {
        u64::from(self.offset)
    }

    fn entry_size(&self) -> u64 {
        u64::from(self.size)
    }

    fn entry_align(&self) -> u32 {
        self.align
    }

    fn entry_slice<'a>(&self, bytes: &'a [u8]) -> &'a [u8] {
        self.slice(bytes)
    }
}

impl ArchRecord for FatArch64 {
    ghost use Rattle.std.proofs.Common.{rules};

    ghost arch_form = { arch_form_64 };

    ghost has_form = { Prim.search rules };

    fn entry_cpu(&self) -> CpuType {
        self.cputype
    }

    fn entry_cpu_kind(&self) -> u32 {
        self.cpusubtype
    }

    fn entry_offset(&self) -> u64 {
        self.offset
    }

    fn entry_size(&self) -> u64 {
        self.size
    }

    fn entry_align(&self) -> u32 {
        self.align
    }

    fn entry_slice<'a>(&self, bytes: &'a [u8]) -> &'a [u8] {
        self.slice(bytes)
    }
}

/// Returns the offset of an entry's record, after the records of the entries before it. It is at most 2^64 - 1.
pub fn place_of<R: ArchRecord>(index: usize) -> usize
    ensures { result ≡ arch_place_in R.arch_form index }
{
    let before = index.saturating_mul(R::SIZE);
    before.saturating_add(SIZEOF_FAT_HEADER)
}

/// Reads the record of an entry of a fat file. The table is big-endian.
pub fn read_arch<R: ArchRecord>(bytes: &[u8], index: usize) -> Result<R>
    ensures { Reads (λ arch. arch) result (arch_in R.arch_form bytes.now index) }
{
    R::read(bytes, place_of::<R>(index), Endian::Big)
}

/// Whether the bytes could hold so many records.
pub fn has_room_for<R: ArchRecord>(bytes: &[u8], narches: usize) -> bool
    ensures { result ≡ nat_le narches (length bytes.now / R.arch_form.stride) }
{
    narches <= bytes.len() / R::SIZE
}
