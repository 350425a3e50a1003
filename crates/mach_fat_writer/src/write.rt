//! Writing a fat file.

ghost use Rattle.std.specs.Prelude.{◌≡◌, MatchResult, MatchOption, IfOk, OnOk, Ok, length, true, false};
ghost use Rattle.std.specs.List.{list_any};
ghost use Rattle.mach_fat_writer.specs.Entries.{entry_views, fat_entry_view};
ghost use Rattle.mach_base.specs.Answer.{IsOkUnlessMemory};
ghost use Rattle.mach_fat_writer.specs.FatForms.{fat_form_32, fat_form_64, table_end, fat_end, fat_bytes};
ghost use Rattle.mach_fat_writer.specs.FatWrites.{is_far_aligned, is_encodable, fat_file_of, RefusesFat};

use crate::cpus::any_two_of_one_cpu;
use crate::entry::FatEntry;
use crate::fat_record::FatRecord;
use crate::put::{end_of, put_contents, put_front, put_records};
use mach_base::{Error, Result};
use mach_parts::FatArch64;
use mach_parts::fat::FatArch;
use std::alloc::Allocator;

/// The largest alignment, as a power of two.
const MOST_ALIGN: u32 = 15;

// Whether any entry's alignment is too large.
fn any_far_aligned(entries: &[FatEntry<'_>]) -> bool
    ensures { result ≡ list_any (λ e. is_far_aligned (fat_entry_view e)) entries.now }
{
    entries.iter().any(|entry| entry.align > MOST_ALIGN)
}

/// Builds a fat file of the given entries, in their order. It is `Malformed` if an alignment is above 2^15, if two entries are
/// for one cpu, whatever its capabilities, or if an offset or a length is 2^32 or more. The first of these that applies is the
/// error.
pub fn write_fat<A: Allocator>(alloc: A, entries: &[FatEntry<'_>]) -> Result<Vec<u8, A>>
    ensures { MatchResult result (λ file. fat_file_of fat_form_32 (entry_views entries.now) ≡ Ok file.items)
        (λ e. RefusesFat e (fat_file_of fat_form_32 (entry_views entries.now))) }
{
    write_by::<FatArch, A>(alloc, entries)
}

/// Builds a fat file of 64 bits of the given entries, in their order. It is refused as one of 32 bits, except that offsets and
/// lengths may have 64 bits, and the count 32.
pub fn write_fat64<A: Allocator>(alloc: A, entries: &[FatEntry<'_>]) -> Result<Vec<u8, A>>
    ensures { MatchResult result (λ file. fat_file_of fat_form_64 (entry_views entries.now) ≡ Ok file.items)
        (λ e. RefusesFat e (fat_file_of fat_form_64 (entry_views entries.now))) }
{
    write_by::<FatArch64, A>(alloc, entries)
}

// Builds a fat file of entries, in either form.
fn write_by<R: FatRecord, A: Allocator>(alloc: A, entries: &[FatEntry<'_>]) -> Result<Vec<u8, A>>
    ensures { MatchResult result (λ file. fat_file_of R.form (entry_views entries.now) ≡ Ok file.items)
        (λ e. RefusesFat e (fat_file_of R.form (entry_views entries.now))) }
{
    let (from, end) = declared_ends::<R, &A>(&alloc, entries)?;
    write_all::<R, A>(alloc, from, end, entries)
}

/// Returns where the table and the file of some entries end, or why there is no such file.
pub(crate) fn declared_ends<R: FatRecord, A: Allocator>(
    alloc: A,
    entries: &[FatEntry<'_>],
) -> Result<(usize, usize)>
    ensures aligned { OnOk result (list_any is_far_aligned (entry_views entries.now) ≡ false) }
    ensures encodable { OnOk result (is_encodable R.form (entry_views entries.now) ≡ true) }
    ensures ends { IfOk result (λ ends. (ends.0 ≡ table_end R.form (length (entry_views entries.now)))
        × (ends.1 ≡ fat_end ends.0 (entry_views entries.now))) }
    ensures there { MatchResult result (λ ends. fat_file_of R.form (entry_views entries.now) ≡ Ok (fat_bytes R.form (entry_views entries.now)))
        (λ e. RefusesFat e (fat_file_of R.form (entry_views entries.now))) }
{
    if any_far_aligned(entries) {
        return Err(Error::Malformed("an entry is aligned to more than 2^15"));
    }
    if any_two_of_one_cpu(&alloc, entries)? {
        return Err(Error::Malformed("two entries are for one cpu"));
    }
    match ends_of::<R>(entries) {
        Some(ends) => Ok(ends),
        None => Err(Error::Malformed("an entry's place or length does not fit in its record")),
    }
}

// Returns where the table and the file end, if records can hold all offsets and lengths, and the header the count.
fn ends_of<R: FatRecord>(entries: &[FatEntry<'_>]) -> Option<(usize, usize)>
    requires { list_any is_far_aligned (entry_views entries.now) ≡ false }
    ensures { MatchOption result (is_encodable R.form (entry_views entries.now) ≡ false)
        (λ ends. (is_encodable R.form (entry_views entries.now) ≡ true) × (ends.0 ≡ table_end R.form (length (entry_views entries.now)))
        × (ends.1 ≡ fat_end ends.0 (entry_views entries.now))) }
{
    if entries.len() > u32::MAX as usize {
        return None;
    }
    let from = 8 + R::SIZE * entries.len();
    Some((from, end_of::<R>(from, entries)?))
}

// Writes a fat file, given where its table and its last entry end.
fn write_all<R: FatRecord, A: Allocator>(
    alloc: A,
    from: usize,
    end: usize,
    entries: &[FatEntry<'_>],
) -> Result<Vec<u8, A>>
    requires aligned { list_any is_far_aligned (entry_views entries.now) ≡ false }
    requires encodable { is_encodable R.form (entry_views entries.now) ≡ true }
    requires table { from ≡ table_end R.form (length (entry_views entries.now)) }
    ensures written { IfOk result (λ file. file.items ≡ fat_bytes R.form (entry_views entries.now)) }
    ensures only { IsOkUnlessMemory result }
{
    let mut out = Vec::with_capacity(alloc, end)?;
    put_front::<R, A>(&mut out, entries.len())?;
    put_records::<R, A>(&mut out, from, entries)?;
    put_contents::<R, A>(&mut out, from, entries)?;
    Ok(out)
}
