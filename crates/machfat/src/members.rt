//! The members and the symbols of archives, and what the entries of a fat file are.

ghost use Rattle.std.specs.Prelude.{◌≡◌, ◌≤◌, ◌⊎◌, [], true, false, Ok, Some, IfOk, IfErr};
ghost use Rattle.std.specs.Io.Buffered.{writer_buffer, writer_contents};
ghost use Rattle.std.specs.Io.KnownBytes.{Appends};
ghost use Rattle.mach_fat_writer.specs.FatTables.{fat_table_in, form_in, form_of};
ghost use Rattle.mach_cli.specs.Bounds.{most_items};
ghost use Rattle.mach_cli.specs.Foreigners.{refused_kind};
ghost use Rattle.mach_cli.specs.Statuses.{IsStatus};
ghost use Rattle.machfat.specs.Members.{AreContentLines, AreEntryLines, AreFileLines};
ghost use Rattle.machfat.specs.Outside.{refused_entries, refused_entries_words};
ghost use Rattle.machfat.specs.Refusals.{but_archive, refused_by, RefusesFile, RefusesMembers, RefusesUnwritten};
ghost use Rattle.machfat.specs.Written.{WritesAs};

use crate::archive::{print_archive, print_refused};
use crate::commands::reported;
use crate::outside::refused_entries;
use crate::refusal::{Refusal, WriteFailure, refused_by};
use goblin_mach::Foreign;
use goblin_mach::first_bytes::begins_image;
use mach_archive::Archive;
use mach_base::Error;
use mach_cli::{Outcome, most_items, refused_kind};
use mach_fat_writer::{EntryRecord, EntryRefusal, Form};
use std::alloc::{Allocator, Global};
use std::io;
use std::io::{BufWriter, Write};

/// Prints a line for each member of an archive and each symbol of its index, also of those that are entries of a fat file, no
/// more than a limit in all.
///
/// Returns the exit status. It is 0 if all were printed. It is 1 if a line says that something is refused, or that there are
/// more; or if the file or an allocation is refused, and then `err` has a line that says why, and `out` nothing. It is 2 or 141
/// if a write fails. Unless a write fails, nothing is left in the buffer.
pub fn run_members<W: Write + Drop, B: Allocator, E: Write>(
    alloc: Global,
    limit: usize,
    file: &str,
    bytes: &[u8],
    out: &mut BufWriter<W, B>,
    err: &mut E,
) -> u8
    ensures status { IsStatus result }
    ensures whole { result ≡ 0 → WritesAs (AreFileLines (most_items limit bytes.now) bytes.now) true (writer_contents W.contents out.old)
        (writer_contents W.contents out.new) }
    ensures refused { result ≡ 1 → WritesAs (AreFileLines (most_items limit bytes.now) bytes.now) false (writer_contents W.contents out.old)
        (writer_contents W.contents out.new)
        ⊎ RefusesFile (RefusesMembers bytes.now) file.now (writer_contents W.contents out.old) (writer_contents W.contents out.new)
        (E.contents err.old) (E.contents err.new) }
    ensures flushed { result ≤ 1 → writer_buffer out.new ≡ [] }
{
    let answer = print_file(alloc, most_items(limit, bytes), bytes, out);
    reported(answer, file, out, err)
}

// Prints the lines of a file, no more than a limit. Returns whether it is whole.
fn print_file<O: Write>(
    alloc: Global,
    limit: usize,
    bytes: &[u8],
    out: &mut O,
) -> Result<bool, WriteFailure>
    ensures reported { IfOk result (λ whole. WritesAs (AreFileLines limit bytes.now) whole (O.contents out.old) (O.contents out.new)) }
    ensures refused { IfErr result (RefusesUnwritten (RefusesMembers bytes.now) (O.contents out.old) (O.contents out.new)) }
{
    match Form::of(bytes) {
        Some(form) => {
            let records = table(alloc, form, bytes)?;
            Ok(print_entries(limit, bytes, &records, out)?.whole)
        }
        None => match Archive::parse(bytes) {
            Ok(archive) => Ok(print_archive(&archive, limit, limit, out)?.whole),
            Err(error) => Err(WriteFailure::Refused(refused(bytes, error))),
        },
    }
}

// Returns the records of a fat file of this form.
fn table(alloc: Global, form: Form, bytes: &[u8]) -> Result<Vec<EntryRecord>, Refusal>
    ensures records { IfOk result (λ v. fat_table_in (form_of form) bytes.now ≡ Ok v.items) }
    ensures refused { IfErr result (λ refusal. form_in bytes.now ≡ Some (form_of form) → RefusesMembers bytes.now refusal) }
{
    match form.records(alloc, bytes) {
        Ok(records) => Ok(records),
        Err(error) => Err(refused(bytes, error)),
    }
}

// Returns the refusal of a file for an error: by its kind, if its first bytes show one that is no archive.
fn refused(bytes: &[u8], error: Error) -> Refusal
    ensures { result ≡ refused_by (but_archive (refused_kind bytes.now error)) error }
{
    let kind = match refused_kind(bytes, &error) {
        Some(Foreign::Archive) => None,
        kind => kind,
    };
    refused_by(kind, error)
}

// Prints the lines of the entries of some records, in order, no more than a limit.
fn print_entries<O: Write>(
    limit: usize,
    bytes: &[u8],
    records: &[EntryRecord],
    out: &mut O,
) -> io::Result<Outcome>
    ensures { IfOk result (λ outcome. WritesAs (AreEntryLines limit bytes.now records.now) outcome (O.contents out.old) (O.contents out.new)) }
{
    let mut outcome = Outcome {
        whole: true,
        left: limit,
    };
    'records: for (index, arch) in records.iter().enumerate() {
        writeln!(out, "arch {index}")?;
        let one = print_content(limit, outcome.left, bytes, index, arch, out)?;
        outcome = Outcome {
            whole: outcome.whole & one.whole,
            left: one.left,
        };
    }
    Ok(outcome)
}

// Prints the lines of the entry of a record, no more than are left of a limit.
fn print_content<O: Write>(
    limit: usize,
    left: usize,
    bytes: &[u8],
    index: usize,
    arch: &EntryRecord,
    out: &mut O,
) -> io::Result<Outcome>
    ensures { IfOk result (λ outcome. WritesAs (AreContentLines limit left bytes.now index arch.now) outcome (O.contents out.old) (O.contents out.new)) }
{
    let Some(entry) = arch.slice(bytes) else {
        let refused = refused_entries(bytes, EntryRefusal::OutOfFile(index));
        writeln!(out, "refused: {refused}")?;
        return Ok(Outcome { whole: false, left });
    };
    if begins_image(entry) {
        writeln!(out, "image")?;
        return Ok(Outcome { whole: true, left });
    }
    match Archive::parse(entry) {
        Ok(archive) => print_archive(&archive, limit, left, out),
        Err(error) => {
            let whole = print_refused("refused", &error, out)?;
            Ok(Outcome { whole, left })
        }
    }
}
