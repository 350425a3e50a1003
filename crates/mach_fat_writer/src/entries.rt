//! The entries of a file.

ghost use Rattle.std.specs.Prelude.{◌≡◌, nat_lt};
ghost use Rattle.mach_fat_writer.specs.Entries.{entry_views, fat_entry_view};
ghost use Rattle.mach_fat_writer.specs.EntriesRead.{entries_by, fat_entries_in, file_entries, entries_len};
ghost use Rattle.mach_fat_writer.specs.Unfit.{AnswersAs};
ghost use Rattle.mach_fat_writer.specs.FatTables.{form_of};

use crate::entry::FatEntry;
use crate::entry_record::EntryRecord;
use crate::form::Form;
use crate::refusal::EntryRefusal;
use std::alloc::Allocator;

// Returns the entries of some records, in order.
fn entries_of<'a, A: Allocator>(
    alloc: A,
    bytes: &'a [u8],
    records: &[EntryRecord],
) -> Result<Vec<FatEntry<'a>, A>, EntryRefusal>
    ensures { AnswersAs (λ entries. entry_views entries.items) result (entries_by bytes.now 0 records.now) }
{
    let mut entries = Vec::with_capacity(alloc, records.len())?;
    for (index, record) in records.iter().enumerate() {
        match record.slice(bytes) {
            Some(slice) => entries.push(record.entry(slice))?,
            None => return Err(EntryRefusal::OutOfFile(index)),
        }
    }
    Ok(entries)
}

// Whether the entries have more than `most` bytes together.
fn is_larger(entries: &[FatEntry<'_>], most: usize) -> bool
    ensures { result ≡ nat_lt most (entries_len (entry_views entries.now)) }
{
    let mut left = most;
    for entry in entries {
        if entry.bytes.len() > left {
            return true;
        }
        left -= entry.bytes.len();
    }
    false
}

/// Returns the entries of a fat file of this form, in order, each with the alignment of its record. If an entry isn't in the
/// file, the first such entry refuses them all. Else they are refused if they have more bytes than the file.
pub fn fat_entries<'a, 'b, A: Allocator>(
    alloc: &'b A,
    form: Form,
    bytes: &'a [u8],
) -> Result<Vec<FatEntry<'a>, &'b A>, EntryRefusal>
    ensures { AnswersAs (λ entries. entry_views entries.items) result (fat_entries_in (form_of form) bytes.now) }
{
    let records = form.records(alloc, bytes)?;
    let entries = entries_of(alloc, bytes, records.as_slice())?;
    if is_larger(entries.as_slice(), bytes.len()) {
        return Err(EntryRefusal::Overlap);
    }
    Ok(entries)
}

/// Returns the entries that a file contributes to one that is created: all those of a fat file, or the one that it becomes.
pub fn file_entries<'a, 'b, A: Allocator>(
    alloc: &'b A,
    bytes: &'a [u8],
) -> Result<Vec<FatEntry<'a>, &'b A>, EntryRefusal>
    ensures { AnswersAs (λ entries. entry_views entries.items) result (file_entries bytes.now) }
{
    match Form::of(bytes) {
        Some(form) => fat_entries(alloc, form, bytes),
        None => {
            let entry = FatEntry::of(bytes)?;
            let mut entries = Vec::new(alloc);
            entries.push(entry)?;
            Ok(entries)
        }
    }
}
