//! What the program prints, and its exit status.

ghost use Rattle.std.specs.Prelude.{◌≡◌, ◌≤◌, ◌⊎◌, [], codes, IfErr, IfOk, OnOk};
ghost use Rattle.std.specs.Io.Buffered.{writer_buffer, writer_contents};
ghost use Rattle.std.specs.Io.KnownBytes.{Appends};
ghost use Rattle.mach_audit.specs.Sound.{IsSound, IsLong};
ghost use Rattle.mach_cli.specs.Failures.{IfMemory};
ghost use Rattle.mach_cli.specs.Foreigners.{refused_kind};
ghost use Rattle.mach_audit.specs.Report.{refusal_in};
ghost use Rattle.machaudit.specs.Audited.{AuditsFile};
ghost use Rattle.machaudit.specs.Foreign.{SaysForeign, foreign_message, kind_message, message_about};
ghost use Rattle.machaudit.specs.Quiet.{quiet_line, status_of};
ghost use Rattle.mach_audit.specs.Verdicts.{verdict_of_report};
ghost use Rattle.mach_cli.specs.declared.options.Format.TheVariants as formats;

use crate::json::print_object;
use crate::options::Options;
use crate::source::Source;
use crate::text::print_report;
use goblin_mach::Error;
use mach_audit::{Report, Soundness, audit_mach};
use mach_cli::entries::OutOfFile;
use mach_cli::{Escaped, Format, Label, Names, Refusal, ShowFailure, complain, refused_kind};
use std::alloc::Allocator;
use std::io;
use std::io::{BufWriter, Write};

/// The program's name.
pub const NAME: &str = "machaudit";

/// How a file is reported.
#[derive(Clone, Copy)]
pub struct Call<'a> {
    /// The options.
    pub options: Options,
    /// The file's name.
    pub name: &'a str,
    /// Whether the name is printed before the lines.
    pub heading: bool,
    /// If it is an entry that isn't all in its fat file: where both end.
    pub outside: Option<OutOfFile>,
}

/// Audits the bytes of a file, prints the report, and returns the exit status.
///
/// It is 0 if the file is sound and none of its lists is longer than the limit, else 1. All that is printed has left the buffer
/// then. With `--quiet` it is one line, which says the same as the status. If the file doesn't open and is not Mach-O, `err` has
/// a line with its kind, unless it is an entry that is out of its fat file. If memory runs out nothing is printed.
pub fn run<A: Allocator + Clone, W: Write + Drop, B: Allocator, E: Write>(
    alloc: &A,
    call: Call<'_>,
    bytes: &[u8],
    out: &mut BufWriter<W, B>,
    err: &mut E,
) -> Result<u8, ShowFailure>
    ensures bounds { IfOk result (λ status. status ≤ 1) }
    ensures sound { IfOk result (λ status. status ≡ 0 → IsSound bytes.now) }
    ensures whole { IfOk result (λ status. status ≡ 0 → IsLong call.entry.options.limit bytes.now → ⊥) }
    ensures faulty { IfOk result (λ status. status ≡ 1 → (IsSound bytes.now → ⊥) ⊎ IsLong call.entry.options.limit bytes.now) }
    ensures audited { IfOk result (AuditsFile W.contents call.entry.options call.entry.name.now bytes.now out.old out.new) }
    ensures memory { IfErr result (IfMemory (out.new ≡ out.old)) }
    ensures message { OnOk result (SaysForeign call.entry.outside call.entry.name.now bytes.now (E.contents err.old) (E.contents err.new)) }
{
    let Ok(report) = audit_mach(alloc, bytes, call.options.limit) else {
        return Err(ShowFailure::Memory);
    };
    write_report(call, bytes, &report, out)?;
    say_unless_outside(call, bytes, &report, err)?;
    Ok(status(report.verdict()))
}

// Prints the kind of a file as `say_refusal` does, but nothing of an entry that is out of its fat file.
fn say_unless_outside<A: Allocator, E: Write>(
    call: Call<'_>,
    bytes: &[u8],
    report: &Report<'_, A>,
    err: &mut E,
) -> io::Result<()>
    ensures { OnOk result (Appends (E.contents err.old) (E.contents err.new)
        (message_about call.entry.outside call.entry.name.now bytes.now (refusal_in report.now))) }
{
    match call.outside {
        Some(_) => Ok(()),
        None => say_refusal(call.name, bytes, report, err),
    }
}

// Prints the kind of a file, if it is refused as a whole and is not Mach-O.
fn say_refusal<A: Allocator, E: Write>(
    file: &str,
    bytes: &[u8],
    report: &Report<'_, A>,
    err: &mut E,
) -> io::Result<()>
    ensures { OnOk result (Appends (E.contents err.old) (E.contents err.new) (foreign_message file.now bytes.now (refusal_in report.now))) }
{
    match report.refusal() {
        Some(error) => say_foreign(file, bytes, error, err),
        None => Ok(()),
    }
}

// Prints the kind of a file that is refused for an error, if it is not Mach-O.
fn say_foreign<E: Write>(file: &str, bytes: &[u8], error: &Error, err: &mut E) -> io::Result<()>
    ensures { OnOk result (Appends (E.contents err.old) (E.contents err.new) (kind_message file.now (refused_kind bytes.now error.now))) }
{
    let Some(kind) = refused_kind(bytes, error) else {
        return Ok(());
    };
    complain(names_of(file), Label::None, Refusal::Kind(kind), err)
}

// Returns the names with which complaints about a file begin.
fn names_of(file: &str) -> Names<'_>
    ensures program { result.program.now ≡ codes "machaudit" }
    ensures file { result.file.now ≡ file.now }
{
    Names {
        program: NAME,
        file,
    }
}

/// Reports that a file is refused, and returns the exit status.
pub fn refuse<E: Write>(file: &str, refusal: Refusal<'_>, err: &mut E) -> u8
    ensures { result ≡ 1 }
{
    let _ = complain(names_of(file), Label::None, refusal, err);
    1
}

// Returns the exit status of a verdict.
fn status(verdict: Soundness) -> u8
    ensures { result ≡ status_of verdict }
{
    match verdict {
        Soundness::Sound => 0,
        Soundness::Unended | Soundness::Faulty => 1,
    }
}

// Prints the report of a file and flushes it.
fn write_report<A: Allocator, W: Write + Drop, B: Allocator>(
    call: Call<'_>,
    bytes: &[u8],
    report: &Report<'_, A>,
    out: &mut BufWriter<W, B>,
) -> io::Result<()>
    ensures quiet { OnOk result (call.entry.options.format ≡ formats.Quiet
        → Appends (writer_contents W.contents out.old) (writer_contents W.contents out.new) (quiet_line call.entry.name.now (verdict_of_report report.now))) }
    ensures flushed { OnOk result (writer_buffer out.new ≡ []) }
{
    print(call, bytes, report, out)?;
    out.flush()
}

// Prints the report of a file.
fn print<A: Allocator, O: Write>(
    call: Call<'_>,
    bytes: &[u8],
    report: &Report<'_, A>,
    out: &mut O,
) -> io::Result<()>
    ensures { OnOk result (call.entry.options.format ≡ formats.Quiet
        → Appends (O.contents out.old) (O.contents out.new) (quiet_line call.entry.name.now (verdict_of_report report.now))) }
{
    let source = Source {
        bytes,
        outside: call.outside,
    };
    match call.options.format {
        Format::Text => {
            if call.heading {
                let name = Escaped(call.name);
                writeln!(out, "{name}:")?;
            }
            print_report(source, report, out)
        }
        Format::Quiet => print_verdict(call.name, report.verdict(), out),
        Format::Json => print_object(call.name, source, report, out),
    }
}

// Prints the line of a file: whether it is sound.
fn print_verdict<O: Write>(name: &str, verdict: Soundness, out: &mut O) -> io::Result<()>
    ensures { OnOk result (Appends (O.contents out.old) (O.contents out.new) (quiet_line name.now verdict)) }
{
    let name = Escaped(name);
    writeln!(out, "{name}: {verdict}")
}
