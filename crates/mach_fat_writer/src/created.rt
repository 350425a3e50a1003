//! A fat file built from files.

ghost use Rattle.std.specs.Prelude.{◌≡◌, ◌++◌, List, Ok, OnOk, IfOk, IfErr};
ghost use Rattle.mach_fat_writer.specs.Entries.{FatEntryView, entry_views};
ghost use Rattle.mach_fat_writer.specs.Creates.{IsFileInOrder, RefusesInOrder, IsCreated, RefusesCreate, RefusesFiles, entries_of_files, texts_now};
ghost use Rattle.mach_fat_writer.specs.EntriesRead.{file_entries};
ghost use Rattle.mach_fat_writer.specs.FatTables.{form_of};
ghost use Rattle.mach_fat_writer.specs.Unfit.{RefusesAs};

use crate::entries::file_entries;
use crate::entry::FatEntry;
use crate::form::Form;
use crate::order::fat_order;
use crate::refusal::{EntryRefusal, FileRefusal, MakeRefusal};
use mach_base::{Error, Result};
use std::alloc::Allocator;

// Adds the entries of a file to those of the files before it.
fn add_entries<'a, 'b, A: Allocator>(
    alloc: &'b A,
    entries: &mut Vec<FatEntry<'a>, &'b A>,
    bytes: &'a [u8],
) -> std::result::Result<(), EntryRefusal>
    ensures added { OnOk result ((es : List FatEntryView) × (file_entries bytes.now ≡ Ok es)
        × (entry_views entries.new.items ≡ entry_views entries.old.items ++ es)) }
    ensures refused { IfErr result (λ refusal. RefusesAs refusal (file_entries bytes.now)) }
{
    let mut more = file_entries(alloc, bytes)?;
    entries.append(&mut more)?;
    Ok(())
}

// Returns the entries of some files, one file after the other.
fn entries_of_files<'a, 'b, A: Allocator>(
    alloc: &'b A,
    files: &[&'a [u8]],
) -> std::result::Result<Vec<FatEntry<'a>, &'b A>, FileRefusal>
    ensures entries { IfOk result (λ entries. entries_of_files 0 (texts_now files.now) ≡ Ok (entry_views entries.items)) }
    ensures refused { IfErr result (λ refusal. RefusesFiles refusal (entries_of_files 0 (texts_now files.now))) }
{
    let mut entries = Vec::new(alloc);
    for (file, bytes) in files.iter().enumerate() {
        if let Err(why) = add_entries(alloc, &mut entries, bytes) {
            return Err(FileRefusal { file, why });
        }
    }
    Ok(entries)
}

/// Builds a fat file of entries, in the order of a file that is created.
pub(crate) fn write_in_order<'b, A: Allocator>(
    alloc: &'b A,
    form: Form,
    entries: &mut [FatEntry<'_>],
) -> Result<Vec<u8, &'b A>>
    ensures written { IfOk result (λ file. IsFileInOrder (form_of form) entries.old file.items) }
    ensures refused { IfErr result (RefusesInOrder (form_of form) entries.old) }
{
    fat_order(alloc, entries)?;
    form.write(alloc, entries)
}

/// Builds a fat file from files, given in this order. A fat file contributes its entries in order; any other file becomes one
/// entry. The first file that is refused refuses it; then the entries together.
pub fn create<'b, A: Allocator>(
    alloc: &'b A,
    form: Form,
    files: &[&[u8]],
) -> std::result::Result<Vec<u8, &'b A>, MakeRefusal>
    ensures created { IfOk result (λ file. IsCreated (form_of form) (texts_now files.now) file.items) }
    ensures refused { IfErr result (RefusesCreate (form_of form) (texts_now files.now)) }
{
    let mut entries = entries_of_files(alloc, files)?;
    let file = write_in_order(alloc, form, entries.as_mut_slice())?;
    Ok(file)
}
