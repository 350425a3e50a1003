//! The progress of a call over many files.

ghost use Rattle.std.specs.Prelude.{◌≡◌, ◌≤◌, ◌+◌, ◌-◌, ◌*◌, ◌^◌, ◌++◌, codes, None, Some, IfSome, false, true, min};
ghost use Rattle.std.specs.Duration.{as_nanos};
ghost use Rattle.std.specs.Io.KnownBytes.{Appends};
ghost use Rattle.mach_cli.specs.Steps.{step_text};

use crate::escaped::Escaped;
use std::fmt;
use std::fmt::{Display, Formatter};
use std::io::Write;
use std::time::{Clock, Duration};

// For this many seconds nothing is reported.
const QUIET: u64 = 2;

// The report that a file of many begins.
#[derive(Clone, Copy)]
struct Step<'a> {
    program: &'a str,
    number: usize,
    file: &'a str,
}

impl Display for Step<'_> {
    ghost output = { λ step. Some (step_text step.program.now step.number step.file.now) };

    fn fmt<W: fmt::Write>(&self, f: &mut Formatter<W>) -> fmt::Result {
        let (program, number, file) = (self.program, self.number, Escaped(self.file));
        write!(f, "{program}: file {number}: {file}")
    }
}

/// The progress of a call over many files. It is reported only on a terminal: when a file begins two seconds or more after the
/// call began or after the last report.
#[derive(Clone, Copy)]
pub struct Progress {
    /// The time of the next report, by the clock; None if there is never one.
    pub due: Option<Duration>,
    /// How many files have begun.
    pub started: usize,
}

impl Progress {
    /// Starts with a call that begins now. If the error output is no terminal, or the clock can't be read, nothing is ever reported.
    pub fn new<C: Clock>(clock: &C, is_terminal: bool) -> Progress
        ensures never { is_terminal ≡ false → result.due ≡ None }
        ensures started { result.started ≡ 0 }
    {
        let due = match clock.monotonic() {
            Ok(now) if is_terminal => now.checked_add(Duration::from_secs(QUIET)),
            _ => None,
        };
        Progress { due, started: 0 }
    }

    /// Counts a file of this name that begins, and reports it if that is due. It returns whether the report was written.
    pub fn begin<C: Clock, E: Write>(
        &mut self,
        clock: &C,
        program: &str,
        file: &str,
        err: &mut E,
    ) -> bool
        ensures never { self.old.due ≡ None → (self.new.due ≡ None) × (E.contents err.new ≡ E.contents err.old) }
        ensures counted { self.new.started ≡ min (self.old.started + 1) (2 ^ 64 - 1) }
        ensures reported { result ≡ true → Appends (E.contents err.old) (E.contents err.new) (step_text program.now self.new.started file.now ++ codes "\n") }
        // The next report comes two seconds later at the earliest.
        ensures later { result ≡ true → IfSome self.old.due (λ old. IfSome self.new.due (λ new. as_nanos old + 2 * 10 ^ 9 ≤ as_nanos new)) }
    {
        self.started = self.started.saturating_add(1);
        let Some(due) = self.due else {
            return false;
        };
        match clock.monotonic() {
            Ok(now) if now >= due => {
                self.due = now.checked_add(Duration::from_secs(QUIET));
                let step = Step {
                    program,
                    number: self.started,
                    file,
                };
                writeln!(err, "{step}").is_ok()
            }
            _ => false,
        }
    }
}
