//! The prefix of a file's complaints.

use crate::escaped::Escaped;
use std::fmt;
use std::fmt::{Display, Formatter, Write};

/// The names with which a file's complaints begin.
#[derive(Clone, Copy)]
pub struct Names<'a> {
    /// The program's name.
    pub program: &'a str,
    /// The file's name.
    pub file: &'a str,
}

impl Display for Names<'_> {
    ghost use Rattle.std.specs.Prelude.{Some};
    ghost use Rattle.mach_cli.specs.Names.{names_text};

    ghost output = { λ names. Some (names_text names.program.now names.file.now) };

    fn fmt<W: Write>(&self, f: &mut Formatter<W>) -> fmt::Result {
        let (program, file) = (self.program, Escaped(self.file));
        write!(f, "{program}: {file}")
    }
}
