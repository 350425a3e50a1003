//! What the program's commands do, and its exit status.

ghost use Rattle.std.specs.Prelude.{◌≡◌, ◌≤◌, ◌⊎◌, [], ℕ, List, true, false, IsOk, IfOk, IfErr, Ok, Err};
ghost use Rattle.std.specs.Io.Buffered.{writer_buffer, writer_contents};
ghost use Rattle.std.specs.Io.KnownBytes.{Appends, Keeps};
ghost use Rattle.mach_fat_writer.specs.Changes.{indexed_entry_in};
ghost use Rattle.mach_cli.specs.Bounds.{most_items};
ghost use Rattle.mach_cli.specs.Statuses.{IsStatus};
ghost use Rattle.machfat.specs.Entry.{TookInAll, WasWritten};
ghost use Rattle.machfat.specs.Lines.{ReportsList};
ghost use Rattle.machfat.specs.ListedFiles.{listed_file_in};
ghost use Rattle.machfat.specs.Refusals.{Refuses, RefusesFile, IsRefusal, refusal_line};
ghost use Rattle.machfat.specs.Same.{IsOther};
ghost use Rattle.machfat.specs.declared.refusal.WriteFailure.TheVariants as failures;
ghost use Rattle.machfat.specs.declared.refusal.Refusal.{Refusal};

use crate::created::WholeFile;
use crate::entry::{entry_bytes, list};
use crate::made::one_file;
use crate::new_file::{is_same_file, place_file};
use crate::permissions::NewMode;
use crate::refusal::{Refusal, WriteFailure};
use mach_cli::output::failed;
use mach_cli::{Names, most_items};
use std::alloc::{Allocator, Global};
use std::io::{BufWriter, Write};
use std::rt::Files;

/// The program's name.
pub const NAME: &str = "machfat";

/// Prints the records of a fat file, no more than a limit, or that the file is one image.
///
/// Returns the exit status. It is 0 if all were printed. It is 1 if there are more; or if the file or an allocation is refused,
/// and then `err` has a line that says why, and `out` nothing. It is 2 or 141 if a write fails. Unless a write fails, nothing is
/// left in the buffer.
pub fn run_list<A: Allocator, W: Write + Drop, B: Allocator, E: Write>(
    alloc: A,
    limit: usize,
    file: &str,
    bytes: &[u8],
    out: &mut BufWriter<W, B>,
    err: &mut E,
) -> u8
    ensures status { IsStatus result }
    ensures listed { result ≡ 0
        → ReportsList (most_items limit bytes.now) file.now bytes.now true (writer_contents W.contents out.old) (writer_contents W.contents out.new) }
    ensures refused { result ≡ 1
        → ReportsList (most_items limit bytes.now) file.now bytes.now false (writer_contents W.contents out.old) (writer_contents W.contents out.new)
        ⊎ RefusesFile (Refuses bytes.now (listed_file_in bytes.now)) file.now (writer_contents W.contents out.old) (writer_contents W.contents out.new)
        (E.contents err.old) (E.contents err.new) }
    ensures flushed { result ≤ 1 → writer_buffer out.new ≡ [] }
{
    let answer = list(alloc, most_items(limit, bytes), file, bytes, out);
    reported(answer, file, out, err)
}

/// Flushes the output, reports a refusal on `err`, and returns the exit status of a file's lines, which are whole or not.
pub fn reported<W: Write + Drop, B: Allocator, E: Write>(
    answer: Result<bool, WriteFailure>,
    file: &str,
    out: &mut BufWriter<W, B>,
    err: &mut E,
) -> u8
    ensures bound { IsStatus result }
    ensures whole { result ≡ 0 → answer ≡ Ok true }
    ensures refused { result ≡ 1 → (answer ≡ Ok false) ⊎ ((refusal : Refusal) × (answer ≡ Err (failures.Refused refusal))
        × Appends (E.contents err.old) (E.contents err.new) (refusal_line file.now refusal)) }
    ensures kept { result ≤ 1 → Keeps (writer_contents W.contents out.old) (writer_contents W.contents out.new) }
    ensures flushed { result ≤ 1 → writer_buffer out.new ≡ [] }
{
    if let Err(error) = out.flush() {
        return failed(NAME, "", error, err);
    }
    match answer {
        Ok(true) => 0,
        Ok(false) => 1,
        Err(WriteFailure::Refused(refusal)) => refused(file, &refusal, err),
        Err(WriteFailure::Unwritten(error)) => failed(NAME, "", error, err),
    }
}

/// Writes an entry to a file.
///
/// Returns the exit status. It is 0 if the file was written. It is 1 if there is no such entry, or an allocation is refused, and
/// then `err` has a line that says why. It is 2 if the fat file is the target. It is 2 or 141 if the target can't be written. The
/// target is written whole, or unchanged.
pub fn run_extract<R: Files, E: Write>(
    files: &R,
    alloc: Global,
    file: &str,
    bytes: &[u8],
    index: usize,
    target: &str,
    err: &mut E,
) -> u8
    ensures status { IsStatus result }
    ensures extracted { result ≡ 0 → (entry : List ℕ) × (indexed_entry_in bytes.now index ≡ Ok entry) × WasWritten R.File.contents entry }
    ensures apart { result ≡ 0 → IsOther file.now target.now }
    ensures refused { result ≡ 1 → (refusal : Refusal) × Refuses bytes.now (indexed_entry_in bytes.now index) refusal
        × Appends (E.contents err.old) (E.contents err.new) (refusal_line file.now refusal) }
{
    if is_same_file(files, file, target) {
        return one_file(file, target, err);
    }
    let mode = NewMode::as_file(files, file);
    status(
        extract(files, alloc, mode, bytes, index, target),
        file,
        target,
        err,
    )
}

// Writes an entry to a file with some permissions, and returns the file. Nothing is written if there is no such entry.
fn extract<R: Files>(
    files: &R,
    alloc: Global,
    mode: NewMode,
    bytes: &[u8],
    index: usize,
    target: &str,
) -> Result<WholeFile<R::File>, WriteFailure>
    ensures extracted { IfOk result (λ whole. (entry : List ℕ) × (indexed_entry_in bytes.now index ≡ Ok entry)
        × TookInAll R.File.contents whole entry) }
    ensures refused { IfErr result (IsRefusal (Refuses bytes.now (indexed_entry_in bytes.now index))) }
{
    let entry = entry_bytes(alloc, bytes, index)?;
    place_file(files, alloc, mode, entry, target)
}

/// Returns the exit status of a file that was written, or reports on `err` why it wasn't: a failed write with the name of the
/// target.
pub fn status<F: Drop, E: Write>(
    answer: Result<F, WriteFailure>,
    file: &str,
    target: &str,
    err: &mut E,
) -> u8
    ensures bound { IsStatus result }
    ensures only { result ≡ 0 → IsOk answer }
    ensures refused { result ≡ 1 → (refusal : Refusal) × (answer ≡ Err (failures.Refused refusal))
        × Appends (E.contents err.old) (E.contents err.new) (refusal_line file.now refusal) }
{
    match answer {
        Ok(_) => 0,
        Err(WriteFailure::Refused(refusal)) => refused(file, &refusal, err),
        Err(WriteFailure::Unwritten(error)) => failed(NAME, target, error, err),
    }
}

/// Reports a refusal, and returns the status.
pub fn refused<E: Write>(file: &str, refusal: &Refusal, err: &mut E) -> u8
    ensures bound { IsStatus result }
    ensures not_zero { 1 ≤ result }
    ensures reported { result ≡ 1 → Appends (E.contents err.old) (E.contents err.new) (refusal_line file.now refusal.now) }
{
    let names = Names {
        program: NAME,
        file,
    };
    match writeln!(err, "{names}: {refusal}") {
        Ok(()) => 1,
        Err(error) => failed(NAME, "", error, err),
    }
}
