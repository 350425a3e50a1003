//! A record of a fat file's table, in either form.

ghost use Rattle.std.specs.Prelude.{◌≡◌, option_map};
ghost use Rattle.mach_parts.specs.Fat.{fat_arch_values};
ghost use Rattle.mach_parts.specs.FatRecords.{fat_arch_64_values};
ghost use Rattle.mach_fat_writer.specs.Entries.{fat_entry_view};
ghost use Rattle.mach_fat_writer.specs.FatTables.{record_of_values};
ghost use Rattle.mach_fat_writer.specs.EntriesRead.{slice_of, entry_with};

use crate::entry::FatEntry;
use mach_parts::FatArch64;
use mach_parts::fat::FatArch;

/// The values of a record in a fat file's table, from numbers of 32 or 64 bits.
#[derive(Clone, Copy, Debug)]
pub struct EntryRecord {
    /// The cpu, one of the `CPU_TYPE_` constants.
    pub cputype: u32,
    /// The kind of this cpu, and its capabilities in the top 8 bits.
    pub cpusubtype: u32,
    /// The entry's offset in the file.
    pub offset: u64,
    /// How many bytes it has.
    pub size: u64,
    /// Its offset is a multiple of 2 to this power.
    pub align: u32,
}

impl EntryRecord {
    /// Converts a record of 32 bits.
    pub(crate) fn of_32(arch: FatArch) -> EntryRecord
        ensures { result ≡ record_of_values (fat_arch_values arch) }
    {
        EntryRecord {
            cputype: arch.cputype,
            cpusubtype: arch.cpusubtype,
            offset: u64::from(arch.offset),
            size: u64::from(arch.size),
            align: arch.align,
        }
    }

    /// Converts a record of 64 bits.
    pub(crate) fn of_64(arch: FatArch64) -> EntryRecord
        ensures { result ≡ record_of_values (fat_arch_64_values arch) }
    {
        EntryRecord {
            cputype: arch.cputype,
            cpusubtype: arch.cpusubtype,
            offset: arch.offset,
            size: arch.size,
            align: arch.align,
        }
    }

    /// Returns the entry's bytes if they lie in the file.
    pub fn slice<'a>(&self, bytes: &'a [u8]) -> Option<&'a [u8]>
        ensures { option_map (λ slice. slice.now) result ≡ slice_of bytes.now self.now }
    {
        let end = self.offset.checked_add(self.size)?;
        bytes.get(self.offset as usize..end as usize)
    }

    /// Returns the entry of this record with the given bytes.
    pub(crate) fn entry<'a>(&self, bytes: &'a [u8]) -> FatEntry<'a>
        ensures { fat_entry_view result ≡ entry_with self.now bytes.now }
    {
        FatEntry {
            cputype: self.cputype,
            cpusubtype: self.cpusubtype,
            align: self.align,
            bytes,
        }
    }
}
