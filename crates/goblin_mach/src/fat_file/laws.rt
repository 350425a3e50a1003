//! Laws of a fat file.

ghost use Rattle.std.specs.Prelude.{◌≡◌, ◌<◌, ◌≤◌, ℕ, List, Result, Some, Ok, length, drop, slice_get};
ghost use Rattle.mach_base.specs.declared.context.Endian.TheVariants.{Big};
ghost use Rattle.mach_base.specs.Fault.{Fault};
ghost use Rattle.mach_base.specs.Number.{number};
ghost use Rattle.mach_parts.specs.declared.fat.FatArch.{FatArch};
ghost use Rattle.mach_parts.specs.ArchForms.{arch_in};
ghost use Rattle.goblin_mach.specs.FatEntry.{FatEntry, entry_at, entries_of, arch_entry_in, entries_in};
ghost use Rattle.goblin_mach.specs.FatFile.{FatFile, fat_file_in, arch_at, archs_of, archs_in};

use mach_parts::ArchRecord;

/// The records of a fat file are numbered: there are as many as the header states, and record k is the one at its own place,
/// whatever the others are.
pub fn records_by_number()
    ensures count { (file : FatFile) → length (archs_of file) ≡ file.narches }
    ensures item { (file : FatFile) (k : ℕ) → k < file.narches → slice_get (archs_of file) k ≡ Some (arch_at file.bytes k) }
    ensures only { (file : FatFile) (k : ℕ) (arch : Result FatArch Fault) → slice_get (archs_of file) k ≡ Some arch
        → (k < file.narches) × (arch_at file.bytes k ≡ arch) }
{}

/// The entries of a fat file are numbered in the same way.
pub fn entries_by_number()
    ensures count { (file : FatFile) → length (entries_of file) ≡ file.narches }
    ensures item { (file : FatFile) (k : ℕ) → k < file.narches → slice_get (entries_of file) k ≡ Some (entry_at file k) }
    ensures only { (file : FatFile) (k : ℕ) (entry : Result FatEntry Fault) → slice_get (entries_of file) k ≡ Some entry
        → (k < file.narches) × (entry_at file k ≡ entry) }
{}

/// Both hold of the table of any form of records, such as that of 64 bits.
pub fn tables_by_number<R: ArchRecord>()
    ensures records { (file : FatFile) → length (archs_in R.arch_form file) ≡ file.narches }
    ensures record_item { (file : FatFile) (k : ℕ) → k < file.narches → slice_get (archs_in R.arch_form file) k ≡ Some (arch_in R.arch_form file.bytes k) }
    ensures entries { (file : FatFile) → length (entries_in R.arch_form file) ≡ file.narches }
    ensures entry_item { (file : FatFile) (k : ℕ) → k < file.narches → slice_get (entries_in R.arch_form file) k ≡ Some (arch_entry_in R.arch_form file k) }
{}

/// The fat file in some bytes is those bytes with the count in their header, which has 8 bytes.
pub fn fat_file_of_bytes()
    ensures same { (bytes : List ℕ) (file : FatFile) → fat_file_in bytes ≡ Ok file → file.bytes ≡ bytes }
    ensures count { (bytes : List ℕ) (file : FatFile) → fat_file_in bytes ≡ Ok file → file.narches ≡ number Big 4 (drop 4 bytes) }
    ensures header { (bytes : List ℕ) (file : FatFile) → fat_file_in bytes ≡ Ok file → 8 ≤ length bytes }
{}
