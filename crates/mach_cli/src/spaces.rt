//! The spaces that fill up a column.

ghost use Rattle.std.specs.Prelude.{Some, OnOk};
ghost use Rattle.std.specs.Io.KnownBytes.{Appends};
ghost use Rattle.mach_cli.specs.Fields.{spaces};

use std::fmt::{Display, Formatter};
use std::io::Write;
use std::{fmt, io};

// The most spaces that are written at once.
const BLANKS: &str = "                                                                ";

// So many spaces.
#[derive(Clone, Copy)]
pub(crate) struct Spaces(pub usize);

impl Display for Spaces {
    ghost output = { λ t. Some (spaces t.0) };

    fn fmt<W: fmt::Write>(&self, f: &mut Formatter<W>) -> fmt::Result {
        match BLANKS.get(..self.0) {
            Some(blanks) => f.write_str(blanks),
            None => {
                let (nothing, width) = ("", self.0);
                write!(f, "{nothing:width$}")
            }
        }
    }
}

// Prints so many spaces.
pub(crate) fn print_spaces<O: Write>(count: usize, out: &mut O) -> io::Result<()>
    ensures { OnOk result (Appends (O.contents out.old) (O.contents out.new) (spaces count)) }
{
    if count == 0 {
        return Ok(());
    }
    match BLANKS.get(..count) {
        Some(blanks) => out.write_all(blanks.as_bytes()),
        None => {
            let spaces = Spaces(count);
            write!(out, "{spaces}")
        }
    }
}
