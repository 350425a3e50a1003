//! What the program prints, and its exit status.

ghost use Rattle.std.specs.Prelude.{◌≡◌, ◌≤◌, ◌++◌, [], codes, false, map, IfOk, OnOk};
ghost use Rattle.std.specs.Io.Buffered.{writer_buffer, writer_contents};
ghost use Rattle.std.specs.Io.KnownBytes.{Appends};
ghost use Rattle.machresolve.specs.Lines.{lines_of, more_text, resolved_text, entry_text, entry_heading, entries_text, one_text, printed, notes_in};
ghost use Rattle.machresolve.specs.Lines.{all_notes, refusal_message, first_message, message_line, message_lines, messages_of_report, notes_of};
ghost use Rattle.mach_resolve.specs.Note.{all_noted};
ghost use Rattle.mach_resolve.specs.Opened.{given_view};
ghost use Rattle.machresolve.specs.CallViews.{call_view_of};
ghost use Rattle.mach_cli.specs.Bounds.{most_items};
ghost use Rattle.mach_cli.specs.Statuses.{IsStatus};
ghost use Rattle.machresolve.specs.Runs.{run_status, IsRun};
ghost use Rattle.mach_resolve.specs.ResolveViews.{answer_view, note_view_of};
ghost use Rattle.machresolve.specs.ReportViews.{outcome_view, report_view};

use crate::call::Call;
use crate::lines::{AnswerText, NoteText, NothingText};
use crate::refusal::RefusalText;
use crate::report::{Outcome, Report, report_on};
use indexmap::IndexSet;
use mach_cli::output::failed;
use mach_cli::{Cpu, most_items};
use mach_resolve::{Answer, Given, Note, Notes, Resolved, note_all};
use std::alloc::{AllocFailed, Allocator};
use std::io;
use std::io::{BufWriter, Write};

/// The program's name.
pub const NAME: &str = "machresolve";

/// Resolves a program, or what it has for a selected cpu: the first `limit` bindings of all its images together, no more than the
/// program has bytes.
///
/// Returns the exit status. It is 0 if each binding is settled. It is 1 if one is not, or there are more, or a file or an
/// allocation is refused. It is 2 or 141 if a write fails. Unless a write fails, nothing is left in the buffer. The lines of one
/// image are written whole or not at all. Notes, and the reason if nothing is printed, go to `err`.
pub fn run<'a, A: Allocator + Copy, W: Write + Drop, B: Allocator, E: Write>(
    alloc: A,
    wanted: Option<Cpu>,
    limit: usize,
    program: Given<'a>,
    libraries: &[Given<'a>],
    out: &mut BufWriter<W, B>,
    err: &mut E,
) -> u8
    ensures status { IsStatus result }
    ensures runs { result ≤ 1 → IsRun wanted (most_items limit program.entry.bytes.now) (given_view program.entry) (map given_view libraries.now) result
        (writer_contents W.contents out.old) (writer_contents W.contents out.new) (E.contents err.old) (E.contents err.new) }
    ensures flushed { result ≤ 1 → writer_buffer out.new ≡ [] }
{
    let limit = most_items(limit, program.bytes);
    match print_result(alloc, wanted, limit, program, libraries, out, err) {
        Ok(whole) => status(whole),
        Err(error) => failed(NAME, "", error, err),
    }
}

// Returns the status, by whether all is settled and nothing was refused.
fn status(whole: bool) -> u8
    ensures { result ≡ run_status whole }
{
    if whole { 0 } else { 1 }
}

// Writes the report of a program, or that an allocation was refused. Returns whether all is settled and nothing was refused.
fn print_result<'a, A: Allocator + Copy, W: Write + Drop, B: Allocator, E: Write>(
    alloc: A,
    wanted: Option<Cpu>,
    limit: usize,
    program: Given<'a>,
    libraries: &[Given<'a>],
    out: &mut BufWriter<W, B>,
    err: &mut E,
) -> io::Result<bool>
    ensures runs { IfOk result (λ whole. IsRun wanted limit (given_view program.entry) (map given_view libraries.now) (run_status whole)
        (writer_contents W.contents out.old) (writer_contents W.contents out.new) (E.contents err.old) (E.contents err.new)) }
    ensures flushed { OnOk result (writer_buffer out.new ≡ []) }
{
    let call = Call {
        limit,
        program,
        libraries,
    };
    let Ok(report) = report_on(alloc, wanted, limit, program, libraries) else {
        return say_memory(out, err);
    };
    let Ok(notes) = notes_in(alloc, &report) else {
        return say_memory(out, err);
    };
    print_report(&call, &report, out)?;
    say(&call, &report, &notes, err)?;
    Ok(report.is_whole())
}

// Prints the report of a program and flushes it.
fn print_report<A: Allocator, W: Write + Drop, B: Allocator>(
    call: &Call<'_, '_>,
    report: &Report<'_, A>,
    out: &mut BufWriter<W, B>,
) -> io::Result<()>
    ensures printed { OnOk result (Appends (writer_contents W.contents out.old) (writer_contents W.contents out.new)
        (printed (call_view_of call.now) (report_view report.now))) }
    ensures flushed { OnOk result (writer_buffer out.new ≡ []) }
{
    print_whole(call, report, out)?;
    out.flush()
}

// Prints the report of a program.
fn print_whole<A: Allocator, O: Write>(
    call: &Call<'_, '_>,
    report: &Report<'_, A>,
    out: &mut O,
) -> io::Result<()>
    ensures { OnOk result (Appends (O.contents out.old) (O.contents out.new) (printed (call_view_of call.now) (report_view report.now))) }
{
    match report {
        Report::One(outcome) => print_one(call, outcome, out),
        Report::Entries(outcomes) => print_entries(call, outcomes, out),
        Report::Nothing(_) => Ok(()),
    }
}

// Prints the outcome for one program; nothing if it is refused.
fn print_one<A: Allocator, O: Write>(
    call: &Call<'_, '_>,
    outcome: &Outcome<'_, A>,
    out: &mut O,
) -> io::Result<()>
    ensures { OnOk result (Appends (O.contents out.old) (O.contents out.new) (one_text (call_view_of call.now) (outcome_view outcome.now))) }
{
    match outcome {
        Outcome::Answered(resolved) => print_resolved(call.limit, resolved, out),
        Outcome::Archive => writeln!(out, "archive"),
        Outcome::Refused { .. } => Ok(()),
    }
}

// Prints the outcomes for the entries of a fat program, each after its line.
fn print_entries<A: Allocator, O: Write>(
    call: &Call<'_, '_>,
    outcomes: &[Outcome<'_, A>],
    out: &mut O,
) -> io::Result<()>
    ensures { OnOk result (Appends (O.contents out.old) (O.contents out.new) (entries_text (call_view_of call.now) 0 (map outcome_view outcomes.now))) }
{
    'outcomes: for (index, outcome) in outcomes.iter().enumerate() {
        print_entry(call, index, outcome, out)?;
    }
    Ok(())
}

// Prints the outcome for an entry, after its line.
fn print_entry<A: Allocator, O: Write>(
    call: &Call<'_, '_>,
    index: usize,
    outcome: &Outcome<'_, A>,
    out: &mut O,
) -> io::Result<()>
    ensures { OnOk result (Appends (O.contents out.old) (O.contents out.new)
        (entry_heading index ++ entry_text (call_view_of call.now) (outcome_view outcome.now))) }
{
    writeln!(out, "arch {index}")?;
    print_outcome(call, outcome, out)
}

// Prints the outcome for one program.
fn print_outcome<A: Allocator, O: Write>(
    call: &Call<'_, '_>,
    outcome: &Outcome<'_, A>,
    out: &mut O,
) -> io::Result<()>
    ensures { OnOk result (Appends (O.contents out.old) (O.contents out.new) (entry_text (call_view_of call.now) (outcome_view outcome.now))) }
{
    match outcome {
        Outcome::Answered(resolved) => print_resolved(call.limit, resolved, out),
        Outcome::Archive => writeln!(out, "archive"),
        Outcome::Refused { file, error } => {
            let refusal = RefusalText {
                file: call.file_at(*file),
                error,
            };
            writeln!(out, "refused: {refusal}")
        }
    }
}

// Prints the heading, a line for each answer, in order, and a line after them if there are more bindings.
fn print_resolved<A: Allocator, O: Write>(
    limit: usize,
    resolved: &Resolved<'_, A>,
    out: &mut O,
) -> io::Result<()>
    ensures { OnOk result (Appends (O.contents out.old) (O.contents out.new)
        (resolved_text limit (map answer_view resolved.now.answers.items) resolved.now.more)) }
{
    writeln!(out, "NAME PROVIDER RESULT")?;
    print_answers(&resolved.answers, out)?;
    print_more(limit, resolved.more, out)
}

// Prints that there are more bindings than the limit, if there are.
fn print_more<O: Write>(limit: usize, more: bool, out: &mut O) -> io::Result<()>
    ensures { OnOk result (Appends (O.contents out.old) (O.contents out.new) (more_text limit more)) }
{
    if more {
        writeln!(out, "limit: {limit} shown, and there are more")
    } else {
        Ok(())
    }
}

// Prints a line for each answer, in order.
fn print_answers<O: Write>(answers: &[Answer<'_>], out: &mut O) -> io::Result<()>
    ensures { OnOk result (Appends (O.contents out.old) (O.contents out.new) (lines_of (map answer_view answers.now))) }
{
    'answers: for answer in answers {
        let text = AnswerText(*answer);
        writeln!(out, "{text}")?;
    }
    Ok(())
}

// Returns the notes of a program, each once.
fn notes_in<'a, A: Allocator + Copy>(
    alloc: A,
    report: &Report<'a, A>,
) -> Result<Notes<'a, A>, AllocFailed<Note<'a>>>
    ensures { IfOk result (λ s. map note_view_of s.keys ≡ notes_in (report_view report.now)) }
{
    let mut notes = IndexSet::new(alloc);
    match report {
        Report::One(outcome) => note_outcome(&mut notes, outcome)?,
        Report::Entries(outcomes) => note_entries(&mut notes, outcomes)?,
        Report::Nothing(_) => {}
    }
    Ok(notes)
}

// Adds the notes of some entries, but for those that are there already.
fn note_entries<'a, A: Allocator + Copy>(
    notes: &mut Notes<'a, A>,
    outcomes: &[Outcome<'a, A>],
) -> Result<(), AllocFailed<Note<'a>>>
    ensures { OnOk result (map note_view_of notes.new.keys ≡ all_notes (map note_view_of notes.old.keys) (map outcome_view outcomes.now)) }
{
    'outcomes: for outcome in outcomes {
        note_outcome(notes, outcome)?;
    }
    Ok(())
}

// Adds the notes of one program, but for those that are there already.
fn note_outcome<'a, A: Allocator + Copy>(
    notes: &mut Notes<'a, A>,
    outcome: &Outcome<'a, A>,
) -> Result<(), AllocFailed<Note<'a>>>
    ensures { OnOk result (map note_view_of notes.new.keys ≡ all_noted (map note_view_of notes.old.keys) (notes_of (outcome_view outcome.now))) }
{
    match outcome {
        Outcome::Answered(resolved) => note_all(notes, &resolved.notes),
        Outcome::Archive | Outcome::Refused { .. } => Ok(()),
    }
}

// Writes the messages of a report: why nothing is printed, and the notes.
fn say<'a, A: Allocator, E: Write>(
    call: &Call<'a, '_>,
    report: &Report<'a, A>,
    notes: &Notes<'a, A>,
    err: &mut E,
) -> io::Result<()>
    ensures { map note_view_of notes.now.keys ≡ notes_in (report_view report.now)
        → OnOk result (Appends (E.contents err.old) (E.contents err.new) (messages_of_report (call_view_of call.now) (report_view report.now))) }
{
    say_first(call, report, err)?;
    say_notes(call, notes.as_slice(), err)
}

// Writes why nothing is printed, if so.
fn say_first<A: Allocator, E: Write>(
    call: &Call<'_, '_>,
    report: &Report<'_, A>,
    err: &mut E,
) -> io::Result<()>
    ensures { OnOk result (Appends (E.contents err.old) (E.contents err.new) (first_message (call_view_of call.now) (report_view report.now))) }
{
    match report {
        Report::One(outcome) => say_refusal(call, outcome, err),
        Report::Entries(_) => Ok(()),
        Report::Nothing(cpu) => {
            let nothing = NothingText {
                file: call.program,
                cpu: *cpu,
            };
            writeln!(err, "machresolve: {nothing}")
        }
    }
}

// Writes why one program is refused, if it is.
fn say_refusal<A: Allocator, E: Write>(
    call: &Call<'_, '_>,
    outcome: &Outcome<'_, A>,
    err: &mut E,
) -> io::Result<()>
    ensures { OnOk result (Appends (E.contents err.old) (E.contents err.new) (refusal_message (call_view_of call.now) (outcome_view outcome.now))) }
{
    match outcome {
        Outcome::Answered(_) => Ok(()),
        Outcome::Archive => Ok(()),
        Outcome::Refused { file, error } => {
            let refusal = RefusalText {
                file: call.file_at(*file),
                error,
            };
            writeln!(err, "machresolve: {refusal}")
        }
    }
}

// Writes some notes, a line each.
fn say_notes<'a, E: Write>(call: &Call<'a, '_>, notes: &[Note<'a>], err: &mut E) -> io::Result<()>
    ensures { OnOk result (Appends (E.contents err.old) (E.contents err.new) (message_lines (call_view_of call.now) (map note_view_of notes.now))) }
{
    'notes: for note in notes {
        let text = NoteText {
            call: *call,
            note: *note,
        };
        writeln!(err, "machresolve: {text}")?;
    }
    Ok(())
}

// Reports a refused allocation, if nothing is printed.
fn say_memory<W: Write + Drop, B: Allocator, E: Write>(
    out: &mut BufWriter<W, B>,
    err: &mut E,
) -> io::Result<bool>
    ensures refused { IfOk result (λ whole. whole ≡ false) }
    ensures nothing { OnOk result (Appends (writer_contents W.contents out.old) (writer_contents W.contents out.new) []) }
    ensures message { OnOk result (Appends (E.contents err.old) (E.contents err.new) (message_line (codes "out of memory"))) }
    ensures flushed { OnOk result (writer_buffer out.new ≡ []) }
{
    out.flush()?;
    writeln!(err, "machresolve: out of memory")?;
    Ok(false)
}
