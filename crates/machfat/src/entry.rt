//! The records and the entries of a fat file.

ghost use Rattle.std.specs.Prelude.{◌≡◌, length, nat_lt, not, take, Ok, IfOk, IfErr, OnOk};
ghost use Rattle.std.specs.Io.KnownBytes.{Appends};
ghost use Rattle.mach_fat_writer.specs.Changes.{indexed_entry_in};
ghost use Rattle.machfat.specs.Lines.{image_line, list_text, next_object, record_as, record_line, records_from, records_text, ReportsList};
ghost use Rattle.machfat.specs.ListedFiles.{has_at_most, listed_file_in, listed_view};
ghost use Rattle.machfat.specs.Refusals.{Refuses, RefusesUnwritten, kind_by_front, said_in};

use crate::listed::{Listed, list_of};
use crate::outside::refused_entries;
use crate::refusal::{Refusal, WriteFailure};
use crate::text::{CpuText, EndText, write_record};
use goblin_mach::Foreign;
use mach_cli::{Escaped, Line, Object, print_cut, refused_kind};
use mach_fat_writer::{EntryRecord, EntryRefusal, indexed_entry};
use std::alloc::{Allocator, Global};
use std::io;
use std::io::Write;

// Returns the kind of a file whose entries are refused, if its first bytes show it.
fn kind_by_front(bytes: &[u8], why: &EntryRefusal) -> Option<Foreign>
    ensures { result ≡ kind_by_front bytes.now why.now }
{
    match why {
        EntryRefusal::Unread(error) => refused_kind(bytes, error),
        _ => None,
    }
}

/// Returns an answer about a file's entries, or the refusal of the file.
pub fn said<T>(bytes: &[u8], answer: Result<T, EntryRefusal>) -> Result<T, Refusal>
    ensures { result ≡ said_in bytes.now answer }
{
    match answer {
        Ok(found) => Ok(found),
        Err(why) => match kind_by_front(bytes, &why) {
            Some(kind) => Err(Refusal::Foreign(kind)),
            None => Err(Refusal::Entries(refused_entries(bytes, why))),
        },
    }
}

/// The form of a list.
#[derive(Clone, Copy)]
pub enum ListForm {
    /// A line for each record.
    Lines,
    /// An object for each record, with commas between them.
    Objects,
}

/// Prints some records of a fat file in a form, each with the kind of its entry.
pub fn print_records<O: Write>(
    form: ListForm,
    bytes: &[u8],
    records: &[EntryRecord],
    out: &mut O,
) -> io::Result<()>
    ensures { OnOk result (Appends (O.contents out.old) (O.contents out.new) (records_from form bytes.now 0 records.now)) }
{
    'records: for (index, arch) in records.iter().enumerate() {
        print_record(form, bytes, index, *arch, out)?;
    }
    Ok(())
}

// Prints a record in a form.
fn print_record<O: Write>(
    form: ListForm,
    bytes: &[u8],
    index: usize,
    arch: EntryRecord,
    out: &mut O,
) -> io::Result<()>
    ensures { OnOk result (Appends (O.contents out.old) (O.contents out.new) (record_as form bytes.now index arch)) }
{
    match form {
        ListForm::Lines => print_line(bytes, index, arch, out),
        ListForm::Objects => print_object(bytes, index, arch, out),
    }
}

// Prints the line of a record.
fn print_line<O: Write>(
    bytes: &[u8],
    index: usize,
    arch: EntryRecord,
    out: &mut O,
) -> io::Result<()>
    ensures { OnOk result (Appends (O.contents out.old) (O.contents out.new) (record_line bytes.now index arch)) }
{
    write!(out, "arch {index}: ")?;
    write_record::<Line, O>(bytes, arch, out)?;
    let EntryRecord { size, align, .. } = arch;
    let end = EndText { size, align };
    writeln!(out, "{end}")
}

// Prints the object of a record, after a comma unless it is the first.
fn print_object<O: Write>(
    bytes: &[u8],
    index: usize,
    arch: EntryRecord,
    out: &mut O,
) -> io::Result<()>
    ensures { OnOk result (Appends (O.contents out.old) (O.contents out.new) (next_object bytes.now index arch)) }
{
    let comma = if index == 0 { "" } else { "," };
    write!(out, "{comma}")?;
    write_record::<Object, O>(bytes, arch, out)
}

/// Returns the first of some items, no more than a limit.
pub fn first_of<T>(items: &[T], limit: usize) -> &[T]
    ensures { result.now ≡ take limit items.now }
{
    items.get(..limit).unwrap_or(items)
}

/// Prints what is shown of a file: of a fat file a line for each of its first records, in order, no more than a limit, and a line
/// if there are more; of one image a line. Returns whether there are no more.
pub fn list<A: Allocator, O: Write>(
    alloc: A,
    limit: usize,
    file: &str,
    bytes: &[u8],
    out: &mut O,
) -> Result<bool, WriteFailure>
    ensures listed { IfOk result (λ whole. ReportsList limit file.now bytes.now whole (O.contents out.old) (O.contents out.new)) }
    ensures refused { IfErr result (RefusesUnwritten (Refuses bytes.now (listed_file_in bytes.now)) (O.contents out.old) (O.contents out.new)) }
{
    let found = list_of(alloc, bytes)?;
    Ok(print_listed(limit, file, bytes, &found, out)?)
}

// Prints what is shown of a file. Returns whether there is no more.
fn print_listed<A: Allocator, O: Write>(
    limit: usize,
    file: &str,
    bytes: &[u8],
    found: &Listed<A>,
    out: &mut O,
) -> io::Result<bool>
    ensures whole { IfOk result (λ whole. whole ≡ has_at_most limit (listed_view found.now)) }
    ensures written { OnOk result (Appends (O.contents out.old) (O.contents out.new) (list_text limit file.now bytes.now (listed_view found.now))) }
{
    match found {
        Listed::Records(records) => print_first(limit, bytes, records, out),
        Listed::Image {
            cputype,
            cpusubtype,
        } => {
            print_image(file, *cputype, *cpusubtype, out)?;
            Ok(true)
        }
    }
}

// Prints the lines of the first of some records, no more than a limit, and a line if there are more. Returns whether there are no
// more.
fn print_first<O: Write>(
    limit: usize,
    bytes: &[u8],
    records: &[EntryRecord],
    out: &mut O,
) -> io::Result<bool>
    ensures whole { IfOk result (λ whole. whole ≡ not (nat_lt limit (length records.now))) }
    ensures written { OnOk result (Appends (O.contents out.old) (O.contents out.new) (records_text limit bytes.now records.now)) }
{
    let more = records.len() > limit;
    print_records(ListForm::Lines, bytes, first_of(records, limit), out)?;
    print_cut(limit, more, out)?;
    Ok(!more)
}

// Prints the line that a file is one image.
fn print_image<O: Write>(file: &str, cputype: u32, cpusubtype: u32, out: &mut O) -> io::Result<()>
    ensures { OnOk result (Appends (O.contents out.old) (O.contents out.new) (image_line file.now cputype cpusubtype)) }
{
    let file = Escaped(file);
    let cpu = CpuText {
        cputype,
        cpusubtype,
    };
    writeln!(out, "{file}: not a fat file; one image for {cpu}")
}

/// Returns the bytes of an entry of a fat file of 32 or of 64 bits.
#[tactic(auto, using(crate::proofs::Reported::reports_of))]
pub fn entry_bytes(alloc: Global, bytes: &[u8], index: usize) -> Result<&[u8], Refusal>
    ensures found { IfOk result (λ entry. indexed_entry_in bytes.now index ≡ Ok entry.now) }
    ensures refused { IfErr result (Refuses bytes.now (indexed_entry_in bytes.now index)) }
{
    said(bytes, indexed_entry(alloc, bytes, index))
}
