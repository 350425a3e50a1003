//! What the program writes of a file as JSON, and its exit status.

ghost use Rattle.std.specs.Prelude.{◌≡◌, ◌≤◌, ◌⊎◌, [], true, false, length, nat_lt, not, IfOk, OnOk};
ghost use Rattle.std.specs.Io.Buffered.{writer_buffer, writer_contents};
ghost use Rattle.std.specs.Io.KnownBytes.{Appends};
ghost use Rattle.mach_cli.specs.Bounds.{most_items};
ghost use Rattle.mach_cli.specs.Fields.{optional_text, value_in_object};
ghost use Rattle.mach_cli.specs.Statuses.{IsStatus};
ghost use Rattle.machfat.specs.Lines.{cpu_of_numbers, document_text, records_document, refusal_document, document_tail, image_document, ReportsDocument};
ghost use Rattle.machfat.specs.ListedFiles.{has_at_most, listed_file_in, listed_view};
ghost use Rattle.machfat.specs.Refusals.{Refuses, refusal_line, refusal_words};
ghost use Rattle.machfat.specs.declared.refusal.Refusal.{Refusal};

use crate::commands::{NAME, refused};
use crate::entry::{ListForm, first_of, print_records};
use crate::listed::{Listed, list_of};
use crate::refusal::Refusal;
use crate::text::cpu_of;
use mach_cli::output::failed;
use mach_cli::{JsonString, most_items};
use mach_fat_writer::EntryRecord;
use std::alloc::Allocator;
use std::io;
use std::io::{BufWriter, Write};

/// Writes the object of a file with this name on a line: of a fat file with an object for each of its first records, in order, no
/// more than a limit; of one image with its cpu.
///
/// Returns the exit status. It is 0 if all were written. It is 1 if there are more; or if the file or an allocation is refused,
/// and then the object has a member `error`, and `err` a line that says why. It is 2 or 141 if a write fails. Unless a write
/// fails, nothing is left in the buffer.
pub fn run_list_json<A: Allocator, W: Write + Drop, B: Allocator, E: Write>(
    alloc: A,
    limit: usize,
    file: &str,
    bytes: &[u8],
    out: &mut BufWriter<W, B>,
    err: &mut E,
) -> u8
    ensures status { IsStatus result }
    ensures listed { result ≡ 0
        → ReportsDocument (most_items limit bytes.now) file.now bytes.now true (writer_contents W.contents out.old) (writer_contents W.contents out.new) }
    ensures refused { result ≡ 1
        → ReportsDocument (most_items limit bytes.now) file.now bytes.now false (writer_contents W.contents out.old) (writer_contents W.contents out.new)
        ⊎ ((refusal : Refusal) × Refuses bytes.now (listed_file_in bytes.now) refusal
        × Appends (writer_contents W.contents out.old) (writer_contents W.contents out.new) (refusal_document file.now (refusal_words refusal))
        × Appends (E.contents err.old) (E.contents err.new) (refusal_line file.now refusal)) }
    ensures flushed { result ≤ 1 → writer_buffer out.new ≡ [] }
{
    match list_of(alloc, bytes) {
        Ok(found) => list_as(most_items(limit, bytes), file, bytes, &found, out, err),
        Err(refusal) => refuse(file, &refusal, out, err),
    }
}

// Writes the object of a file of which this is shown, and returns the status.
fn list_as<A: Allocator, W: Write + Drop, B: Allocator, E: Write>(
    limit: usize,
    file: &str,
    bytes: &[u8],
    found: &Listed<A>,
    out: &mut BufWriter<W, B>,
    err: &mut E,
) -> u8
    ensures status { IsStatus result }
    ensures listed { result ≤ 1 → Appends (writer_contents W.contents out.old) (writer_contents W.contents out.new)
        (document_text limit file.now bytes.now (listed_view found.now)) }
    ensures whole { result ≡ 0 → true ≡ has_at_most limit (listed_view found.now) }
    ensures more { result ≡ 1 → false ≡ has_at_most limit (listed_view found.now) }
    ensures flushed { result ≤ 1 → writer_buffer out.new ≡ [] }
{
    match write_document(limit, file, bytes, found, out) {
        Ok(true) => 0,
        Ok(false) => 1,
        Err(error) => failed(NAME, "", error, err),
    }
}

// Reports a refused file, writes its object, and returns the status.
fn refuse<W: Write + Drop, B: Allocator, E: Write>(
    file: &str,
    refusal: &Refusal,
    out: &mut BufWriter<W, B>,
    err: &mut E,
) -> u8
    ensures status { IsStatus result }
    ensures not_zero { 1 ≤ result }
    ensures written { result ≡ 1 → Appends (writer_contents W.contents out.old) (writer_contents W.contents out.new)
        (refusal_document file.now (refusal_words refusal.now)) }
    ensures reported { result ≡ 1 → Appends (E.contents err.old) (E.contents err.new) (refusal_line file.now refusal.now) }
    ensures flushed { result ≡ 1 → writer_buffer out.new ≡ [] }
{
    match write_refusal(file, refusal, out) {
        Ok(()) => refused(file, refusal, err),
        Err(error) => failed(NAME, "", error, err),
    }
}

// Writes the object of a file of which this is shown, and flushes it. Returns whether there are no more records than the limit.
fn write_document<A: Allocator, W: Write + Drop, B: Allocator>(
    limit: usize,
    file: &str,
    bytes: &[u8],
    found: &Listed<A>,
    out: &mut BufWriter<W, B>,
) -> io::Result<bool>
    ensures written { OnOk result (Appends (writer_contents W.contents out.old) (writer_contents W.contents out.new)
        (document_text limit file.now bytes.now (listed_view found.now))) }
    ensures whole { IfOk result (λ whole. whole ≡ has_at_most limit (listed_view found.now)) }
    ensures flushed { OnOk result (writer_buffer out.new ≡ []) }
{
    let whole = print_object(limit, file, bytes, found, out)?;
    out.flush()?;
    Ok(whole)
}

// Writes the object of a file of which this is shown. Returns whether there are no more records than the limit.
fn print_object<A: Allocator, O: Write>(
    limit: usize,
    file: &str,
    bytes: &[u8],
    found: &Listed<A>,
    out: &mut O,
) -> io::Result<bool>
    ensures written { OnOk result (Appends (O.contents out.old) (O.contents out.new) (document_text limit file.now bytes.now (listed_view found.now))) }
    ensures whole { IfOk result (λ whole. whole ≡ has_at_most limit (listed_view found.now)) }
{
    match found {
        Listed::Records(records) => {
            print_document(limit, file, bytes, records, out)?;
            Ok(records.len() <= limit)
        }
        Listed::Image {
            cputype,
            cpusubtype,
        } => {
            print_image(file, *cputype, *cpusubtype, out)?;
            Ok(true)
        }
    }
}

// Writes the object of an image.
fn print_image<O: Write>(file: &str, cputype: u32, cpusubtype: u32, out: &mut O) -> io::Result<()>
    ensures { OnOk result (Appends (O.contents out.old) (O.contents out.new) (image_document file.now cputype cpusubtype)) }
{
    write!(out, "{{\"cpu\":")?;
    print_cpu(cputype, cpusubtype, out)?;
    let name = JsonString(file);
    writeln!(
        out,
        ",\"cpusubtype\":{cpusubtype},\"cputype\":{cputype},\"entries\":[],\"kind\":\"image\",\"limit_met\":false,\"name\":{name}}}"
    )
}

// Writes the name of a cpu, or null if it has none.
fn print_cpu<O: Write>(cputype: u32, cpusubtype: u32, out: &mut O) -> io::Result<()>
    ensures { OnOk result (Appends (O.contents out.old) (O.contents out.new)
        (value_in_object (optional_text (cpu_of_numbers cputype cpusubtype)))) }
{
    match cpu_of(cputype, cpusubtype) {
        Some(name) => {
            let name = JsonString(name);
            write!(out, "{name}")
        }
        None => write!(out, "null"),
    }
}

// Writes the object of a fat file with the first of these records, no more than the limit.
fn print_document<O: Write>(
    limit: usize,
    file: &str,
    bytes: &[u8],
    records: &[EntryRecord],
    out: &mut O,
) -> io::Result<()>
    ensures { OnOk result (Appends (O.contents out.old) (O.contents out.new) (records_document limit file.now bytes.now records.now)) }
{
    write!(out, "{{\"entries\":[")?;
    print_records(ListForm::Objects, bytes, first_of(records, limit), out)?;
    print_end(records.len() > limit, file, out)
}

// Writes the end of that object.
fn print_end<O: Write>(more: bool, file: &str, out: &mut O) -> io::Result<()>
    ensures { OnOk result (Appends (O.contents out.old) (O.contents out.new) (document_tail more file.now)) }
{
    let name = JsonString(file);
    writeln!(
        out,
        "],\"kind\":\"fat file\",\"limit_met\":{more},\"name\":{name}}}"
    )
}

// Writes the object of a refused file and flushes it.
fn write_refusal<W: Write + Drop, B: Allocator>(
    file: &str,
    refusal: &Refusal,
    out: &mut BufWriter<W, B>,
) -> io::Result<()>
    ensures written { OnOk result (Appends (writer_contents W.contents out.old) (writer_contents W.contents out.new)
        (refusal_document file.now (refusal_words refusal.now))) }
    ensures flushed { OnOk result (writer_buffer out.new ≡ []) }
{
    let name = JsonString(file);
    writeln!(
        out,
        "{{\"entries\":[],\"error\":\"{refusal}\",\"name\":{name}}}"
    )?;
    out.flush()
}
