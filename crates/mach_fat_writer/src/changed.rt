//! Fat files built from another one: with an entry replaced, or without an entry.

ghost use Rattle.std.specs.Prelude.{◌≡◌, Ok, IfOk, IfErr};
ghost use Rattle.std.specs.List.{list_any};
ghost use Rattle.mach_parts.specs.Cpu.{kind_of_cpu};
ghost use Rattle.mach_fat_writer.specs.CreatedEntries.{created_entry};
ghost use Rattle.mach_fat_writer.specs.Entries.{are_of_one_cpu, entry_views, fat_entry_view};
ghost use Rattle.mach_fat_writer.specs.Changes.{fat_form_in, of_file, others_in, replaced_among, replaced_entry, replaced_in};
ghost use Rattle.mach_fat_writer.specs.Changes.{IsReplaced, IsWithout, RefusesReplace, RefusesRemove};
ghost use Rattle.mach_fat_writer.specs.Creates.{RefusesFiles};
ghost use Rattle.mach_fat_writer.specs.FatTables.{form_of};
ghost use Rattle.mach_fat_writer.specs.Unfit.{AnswersAs, if_read};

use crate::created::write_in_order;
use crate::entries::fat_entries;
use crate::entry::FatEntry;
use crate::form::Form;
use crate::refusal::{EntryRefusal, FileRefusal, MakeRefusal};
use mach_records::cputype::CPU_SUBTYPE_MASK;
use std::alloc::Allocator;

// Returns the form of a fat file, which is file 0 of those given.
fn fat_form(bytes: &[u8]) -> Result<Form, FileRefusal>
    ensures form { IfOk result (λ form. fat_form_in bytes.now ≡ Ok (form_of form)) }
    ensures refused { IfErr result (λ refusal. RefusesFiles refusal (of_file 0 (fat_form_in bytes.now))) }
{
    match Form::of_fat(bytes) {
        Ok(form) => Ok(form),
        Err(why) => Err(FileRefusal { file: 0, why }),
    }
}

// Returns the entry that a file becomes.
fn entry_of(bytes: &[u8]) -> Result<FatEntry<'_>, EntryRefusal>
    ensures { AnswersAs fat_entry_view result (if_read (created_entry bytes.now)) }
{
    let entry = FatEntry::of(bytes)?;
    Ok(entry)
}

// Returns the kind of an entry's cpu, without its capabilities.
fn kind_of(entry: &FatEntry<'_>) -> u32
    ensures { result ≡ kind_of_cpu entry.now.cpusubtype }
{
    entry.cpusubtype & !CPU_SUBTYPE_MASK
}

// Whether two entries are for one cpu, whatever its capabilities.
fn are_of_one_cpu(entry: &FatEntry<'_>, other: &FatEntry<'_>) -> bool
    ensures { result ≡ are_of_one_cpu (fat_entry_view entry.now) (fat_entry_view other.now) }
{
    entry.cputype == other.cputype && kind_of(entry) == kind_of(other)
}

// Whether any of the entries is for the cpu of another one.
fn has_cpu_of(entries: &[FatEntry<'_>], new: &FatEntry<'_>) -> bool
    ensures { result ≡ list_any (λ e. are_of_one_cpu (fat_entry_view e) (fat_entry_view new.now)) entries.now }
{
    entries.iter().any(|entry| are_of_one_cpu(entry, new))
}

// Returns `new` if both are for one cpu, else the entry itself.
fn in_place_of<'a>(entry: &FatEntry<'a>, new: &FatEntry<'a>) -> FatEntry<'a>
    ensures { fat_entry_view result ≡ replaced_entry (fat_entry_view new.now) (fat_entry_view entry.now) }
{
    if are_of_one_cpu(entry, new) {
        *new
    } else {
        *entry
    }
}

// Returns the entries with `new` instead of each that is for its cpu. There must be at least one.
fn replaced_among<'a, 'b, A: Allocator>(
    alloc: &'b A,
    entries: &[FatEntry<'a>],
    new: &FatEntry<'a>,
) -> Result<Vec<FatEntry<'a>, &'b A>, EntryRefusal>
    ensures { AnswersAs (λ replaced. entry_views replaced.items) result (replaced_among (entry_views entries.now) (fat_entry_view new.now)) }
{
    if !has_cpu_of(entries, new) {
        return Err(EntryRefusal::NoCpu(new.cputype));
    }
    let mut replaced = Vec::with_capacity(alloc, entries.len())?;
    for entry in entries {
        replaced.push(in_place_of(entry, new))?;
    }
    Ok(replaced)
}

// Returns the entries of a fat file (file 0), with the entry of file 1 instead of each for its cpu.
fn replaced_in<'a, 'b, A: Allocator>(
    alloc: &'b A,
    form: Form,
    bytes: &'a [u8],
    new: &'a [u8],
) -> Result<Vec<FatEntry<'a>, &'b A>, FileRefusal>
    ensures entries { IfOk result (λ entries. replaced_in bytes.now new.now (form_of form) ≡ Ok (entry_views entries.items)) }
    ensures refused { IfErr result (λ refusal. RefusesFiles refusal (replaced_in bytes.now new.now (form_of form))) }
{
    let entries = match fat_entries(alloc, form, bytes) {
        Ok(entries) => entries,
        Err(why) => return Err(FileRefusal { file: 0, why }),
    };
    let entry = match entry_of(new) {
        Ok(entry) => entry,
        Err(why) => return Err(FileRefusal { file: 1, why }),
    };
    match replaced_among(alloc, entries.as_slice(), &entry) {
        Ok(replaced) => Ok(replaced),
        Err(why) => Err(FileRefusal { file: 0, why }),
    }
}

/// Builds a fat file from another one: a file replaces each entry for its cpu, whatever its capabilities.
/// The form stays; the entries have the order of a file that is created.
/// Refusals come in this order: the fat file (file 0), the other file (file 1), no entry for its cpu, the entries together.
pub fn replace<'b, A: Allocator>(
    alloc: &'b A,
    bytes: &[u8],
    new: &[u8],
) -> Result<Vec<u8, &'b A>, MakeRefusal>
    ensures replaced { IfOk result (λ file. IsReplaced bytes.now new.now file.items) }
    ensures refused { IfErr result (RefusesReplace bytes.now new.now) }
{
    let form = fat_form(bytes)?;
    let mut entries = replaced_in(alloc, form, bytes, new)?;
    let file = write_in_order(alloc, form, entries.as_mut_slice())?;
    Ok(file)
}

// Returns the entries of a fat file without the one at an index.
fn others_in<'a, 'b, A: Allocator>(
    alloc: &'b A,
    form: Form,
    bytes: &'a [u8],
    index: usize,
) -> Result<Vec<FatEntry<'a>, &'b A>, EntryRefusal>
    ensures { AnswersAs (λ others. entry_views others.items) result (others_in bytes.now index (form_of form)) }
{
    let mut entries = fat_entries(alloc, form, bytes)?;
    if index >= entries.len() {
        return Err(EntryRefusal::NoEntry(index));
    }
    entries.remove(index);
    Ok(entries)
}

/// Builds a fat file from another one, without the entry at an index. The form and the order of the other entries stay.
pub fn remove<'b, A: Allocator>(
    alloc: &'b A,
    bytes: &[u8],
    index: usize,
) -> Result<Vec<u8, &'b A>, MakeRefusal>
    ensures removed { IfOk result (λ file. IsWithout bytes.now index file.items) }
    ensures refused { IfErr result (RefusesRemove bytes.now index) }
{
    let form = fat_form(bytes)?;
    let others = match others_in(alloc, form, bytes, index) {
        Ok(others) => others,
        Err(why) => return Err(MakeRefusal::OfFile(FileRefusal { file: 0, why })),
    };
    let file = form.write(alloc, others.as_slice())?;
    Ok(file)
}
