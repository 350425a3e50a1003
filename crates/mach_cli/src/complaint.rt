//! What a program complains about, except faults in a file's bytes.

use crate::escaped::Escaped;
use crate::misuse::Misuse;
use std::fmt;
use std::fmt::{Display, Formatter, Write};

/// What is wrong.
#[derive(Clone, Copy)]
pub enum Trouble<'a> {
    /// Memory ran out.
    Memory,
    /// A write to the file of this name failed; an empty name is standard output.
    Unwritten(&'a str),
    /// The arguments request nothing; with the word that was probably meant.
    Misused(Misuse<'a>, Option<&'static str>),
}

/// A line in which the program of this name reports what is wrong.
#[derive(Clone, Copy)]
pub struct Complaint<'a> {
    pub program: &'a str,
    pub trouble: Trouble<'a>,
}

impl Display for Trouble<'_> {
    ghost use Rattle.std.specs.Prelude.{Some};
    ghost use Rattle.mach_cli.specs.Complaints.{trouble_words};

    ghost output = { λ trouble. Some (trouble_words trouble) };

    fn fmt<W: Write>(&self, f: &mut Formatter<W>) -> fmt::Result {
        match self {
            Trouble::Memory => write!(f, "out of memory"),
            Trouble::Unwritten(file) => {
                if file.is_empty() {
                    write!(f, "cannot write")
                } else {
                    write!(f, "cannot write {}", Escaped(file))
                }
            }
            Trouble::Misused(misuse, None) => write!(f, "{misuse}"),
            Trouble::Misused(misuse, Some(word)) => write!(f, "{misuse}; did you mean '{word}'?"),
        }
    }
}

impl Display for Complaint<'_> {
    ghost use Rattle.std.specs.Prelude.{Some};
    ghost use Rattle.mach_cli.specs.Complaints.{complaint_text};

    ghost output = { λ complaint. Some (complaint_text complaint) };

    fn fmt<W: Write>(&self, f: &mut Formatter<W>) -> fmt::Result {
        let Complaint { program, trouble } = self;
        write!(f, "{program}: {trouble}")
    }
}
