//! Whether an image is encrypted and stripped, and how many symbols it has, as lines.

ghost use Rattle.std.specs.Prelude.{◌≡◌, OnOk};
ghost use Rattle.std.specs.Io.KnownBytes.{Appends};
ghost use Rattle.machinfo.specs.StateLines.{state_lines, yes_or_no};

use crate::counts::PastText;
use mach_audit::State;
use std::io;
use std::io::Write;

/// Prints a state.
pub fn print_state<O: Write>(state: State, out: &mut O) -> io::Result<()>
    ensures { OnOk result (Appends (O.contents out.old) (O.contents out.new) (state_lines state)) }
{
    let encrypted = yes_or_no(state.is_encrypted);
    let stripped = yes_or_no(state.is_stripped);
    let symbols = state.symbols;
    let past = PastText(state.past);
    writeln!(out, "encrypted: {encrypted}")?;
    writeln!(out, "stripped: {stripped}")?;
    writeln!(out, "symbols: {symbols}{past}")
}

// Returns `yes` or `no`.
fn yes_or_no(is_so: bool) -> &'static str
    ensures { result.now ≡ yes_or_no is_so }
{
    if is_so { "yes" } else { "no" }
}
