//! The records of a fat file, and an entry selected by its cpu or its index.

ghost use Rattle.mach_fat_writer.specs.Changes.{fat_records_in, first_for_cpu, indexed_entry_in, slice_or_out, thin_entry_in};
ghost use Rattle.mach_fat_writer.specs.EntriesRead.{slice_of};
ghost use Rattle.mach_fat_writer.specs.Unfit.{AnswersAs};

use crate::entry_record::EntryRecord;
use crate::form::Form;
use crate::refusal::EntryRefusal;
use std::alloc::Allocator;

/// Returns the records of a fat file of either form, in order.
pub fn fat_records<A: Allocator>(
    alloc: A,
    bytes: &[u8],
) -> Result<Vec<EntryRecord, A>, EntryRefusal>
    ensures { AnswersAs (λ records. records.items) result (fat_records_in bytes.now) }
{
    let form = Form::of_fat(bytes)?;
    let records = form.records(alloc, bytes)?;
    Ok(records)
}

// Returns the bytes of the entry of a record and its index, or a refusal if they aren't in the file.
fn slice_or_out<'a>(
    bytes: &'a [u8],
    index: usize,
    entry: &EntryRecord,
) -> Result<&'a [u8], EntryRefusal>
    ensures { AnswersAs (λ slice. slice.now) result (slice_or_out index (slice_of bytes.now entry.now)) }
{
    match entry.slice(bytes) {
        Some(slice) => Ok(slice),
        None => Err(EntryRefusal::OutOfFile(index)),
    }
}

// Returns the bytes of the first entry of a cputype among records.
fn first_for_cpu<'a>(
    bytes: &'a [u8],
    cputype: u32,
    records: &[EntryRecord],
) -> Result<&'a [u8], EntryRefusal>
    ensures { AnswersAs (λ slice. slice.now) result (first_for_cpu bytes.now cputype 0 records.now) }
{
    for (index, record) in records.iter().enumerate() {
        if record.cputype == cputype {
            return slice_or_out(bytes, index, record);
        }
    }
    Err(EntryRefusal::NoCpu(cputype))
}

/// Returns the bytes of the first entry of a cputype in a fat file of either form.
pub fn thin_entry<'a, A: Allocator>(
    alloc: A,
    bytes: &'a [u8],
    cputype: u32,
) -> Result<&'a [u8], EntryRefusal>
    ensures { AnswersAs (λ slice. slice.now) result (thin_entry_in bytes.now cputype) }
{
    let records = fat_records(alloc, bytes)?;
    first_for_cpu(bytes, cputype, records.as_slice())
}

/// Returns the bytes of the entry at an index in a fat file of either form. The whole table is read.
pub fn indexed_entry<'a, A: Allocator>(
    alloc: A,
    bytes: &'a [u8],
    index: usize,
) -> Result<&'a [u8], EntryRefusal>
    ensures { AnswersAs (λ slice. slice.now) result (indexed_entry_in bytes.now index) }
{
    let records = fat_records(alloc, bytes)?;
    match records.as_slice().get(index) {
        Some(record) => slice_or_out(bytes, index, record),
        None => Err(EntryRefusal::NoEntry(index)),
    }
}
