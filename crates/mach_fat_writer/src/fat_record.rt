//! The two forms of fat files, by the records of their tables.

ghost use Rattle.std.specs.Prelude.{◌≡◌, ◌≤◌, ◌+◌, ◌*◌, ◌<◌, ◌^◌, ℕ, length};
ghost use Rattle.mach_fat_writer.specs.Entries.{fat_entry_view};
ghost use Rattle.mach_fat_writer.specs.FatForms.{FatForm, fat_form_32, fat_form_64};

use crate::entry::FatEntry;
use mach_base::Record;
use mach_parts::fat::{FAT_MAGIC, FatArch};
use mach_parts::{FAT_MAGIC_64, FatArch64};

/// A record of a fat file's table.
pub(crate) trait FatRecord: Record {
    /// The magic of a file with such records.
    const MAGIC: u32;

    ghost MAGIC: { ℕ };

    /// The largest offset, and the largest length, that the record can hold.
    const MOST: usize;

    ghost MOST: { ℕ };

    // The form of a file with such records.
    ghost form: { FatForm };

    /// Returns the record of an entry at the given place.
    fn of(entry: &FatEntry<'_>, place: usize) -> Self
        requires place { place ≤ form.most }
        requires len { length entry.now.bytes.now ≤ form.most }
        ensures { Self.values result ≡ form.values (fat_entry_view entry.now) place };

    ghost has_form: { (Self.fields ≡ form.fields) × (MAGIC ≡ form.magic) × (MOST ≡ form.most) × (Self.SIZE ≤ 32) };
}

impl FatRecord for FatArch {
    const MAGIC: u32 = FAT_MAGIC;

    ghost MAGIC = { 0xcafe_babe };

    const MOST: usize = u32::MAX as usize;

    ghost MOST = { 0xffff_ffff };

    ghost use Rattle.std.proofs.Common.{rules};

    ghost form = { fat_form_32 };

    ghost has_form = { Prim.search rules };

    fn of(entry: &FatEntry<'_>, place: usize) -> Self {
        FatArch {
            cputype: entry.cputype,
            cpusubtype: entry.cpusubtype,
            offset: place as u32,
            size: entry.bytes.len() as u32,
            align: entry.align,
        }
    }
}

impl FatRecord for FatArch64 {
    const MAGIC: u32 = FAT_MAGIC_64;

    ghost MAGIC = { 0xcafe_babf };

    const MOST: usize = usize::MAX;

    ghost MOST = { 0xffff_ffff_ffff_ffff };

    ghost use Rattle.std.proofs.Common.{rules};

    ghost form = { fat_form_64 };

    ghost has_form = { Prim.search rules };

    fn of(entry: &FatEntry<'_>, place: usize) -> Self {
        FatArch64 {
            cputype: entry.cputype,
            cpusubtype: entry.cpusubtype,
            offset: place as u64,
            size: entry.bytes.len() as u64,
            align: entry.align,
            reserved: 0,
        }
    }
}
