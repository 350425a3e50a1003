//! What a program says about itself, and the status of a failed write.

ghost use Rattle.std.specs.Prelude.{◌≡◌, ◌≢◌, ◌≤◌, OnOk};
ghost use Rattle.std.specs.Io.KnownBytes.{Appends};
ghost use Rattle.std.specs.IoError.{error_kind};
ghost use Rattle.mach_cli.specs.Statuses.{IsUnwritten};

use crate::complaint::{Complaint, Trouble};
use std::io;
use std::io::{ErrorKind, Write};

// The status if the reader of a pipe has closed it. It is what a shell reports for a program that SIGPIPE ends.
const CLOSED: u8 = 141;

/// Prints a text, and returns the exit status: 0, or that of a failed write of the program of this name.
pub fn say<O: Write, E: Write>(name: &str, text: &str, out: &mut O, err: &mut E) -> u8
    ensures status { result ≢ 0 → IsUnwritten result }
    ensures message { result ≡ 0 → Appends (O.contents out.old) (O.contents out.new) text.now }
{
    match put(text, out) {
        Ok(()) => 0,
        Err(error) => failed(name, "", error, err),
    }
}

// Writes a text, and flushes the buffer.
fn put<O: Write>(text: &str, out: &mut O) -> io::Result<()>
    ensures { OnOk result (Appends (O.contents out.old) (O.contents out.new) text.now) }
{
    out.write_all(text.as_bytes())?;
    out.flush()
}

/// Returns the status of a write that failed with this error. If the reader of a pipe has closed it, nothing is reported. Any
/// other failure is reported on `err`, if possible, with the name of the file, if it has one.
pub fn failed<E: Write>(name: &str, file: &str, error: io::Error, err: &mut E) -> u8
    ensures closed { error_kind error ≡ ErrorKind.BrokenPipe → result ≡ 141 }
    ensures other { error_kind error ≢ ErrorKind.BrokenPipe → result ≡ 2 }
    ensures status { IsUnwritten result }
    ensures least { 2 ≤ result }
{
    match error.kind() {
        ErrorKind::BrokenPipe => CLOSED,
        _ => unwritten(name, file, err),
    }
}

// Reports a failed write on `err`, if possible, with the name of the file, if it has one; and returns the status.
fn unwritten<E: Write>(name: &str, file: &str, err: &mut E) -> u8
    ensures { result ≡ 2 }
{
    let complaint = Complaint {
        program: name,
        trouble: Trouble::Unwritten(file),
    };
    let _ = writeln!(err, "{complaint}");
    2
}
