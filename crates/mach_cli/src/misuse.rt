//! What is wrong with the arguments of a call.

ghost use Rattle.std.specs.Prelude.{◌≡◌};
ghost use Rattle.mach_cli.specs.Misuses.{unknown_in};
ghost use Rattle.mach_dyld.specs.Exports.{text_in};

use crate::escaped::{Escaped, EscapedBytes};
use crate::word::NoText;
use std::fmt;
use std::fmt::{Display, Formatter, Write};

/// What is wrong with the arguments of a call.
#[derive(Clone, Copy)]
pub enum Misuse<'a> {
    /// An option that the program doesn't have.
    UnknownOption(&'a str),
    /// An unknown word instead of a command.
    UnknownWord(&'a str),
    /// The word of a list that the program doesn't have, and what has it.
    NoList {
        word: &'a str,
        instead: &'static str,
    },
    /// What should be a number isn't one.
    NoNumber(&'a str),
    /// What should be a cpu isn't a known one.
    NoCpu(&'a str),
    /// What should be a name of a segment or a section has more than 16 bytes.
    NoName(&'a str),
    /// What should be an address isn't one.
    NoAddress(&'a str),
    /// A line of standard input that should be an address isn't one.
    NoAddressLine(NoText<'a>),
    /// Standard input is named twice.
    InputTwice,
    /// What should say when output is coloured doesn't.
    NoColor(&'a str),
    /// These options can't be given together.
    Together(&'static str),
    /// An argument is missing: this one.
    Missing(&'static str),
    /// An argument isn't text.
    NoText(NoText<'a>),
}

impl Display for Misuse<'_> {
    ghost use Rattle.std.specs.Prelude.{Some};
    ghost use Rattle.mach_cli.specs.Misuses.{misuse_words};

    ghost output = { λ misuse. Some (misuse_words misuse) };

    fn fmt<W: Write>(&self, f: &mut Formatter<W>) -> fmt::Result {
        match self {
            Misuse::UnknownOption(word) => write!(f, "unknown option '{}'", Escaped(word)),
            Misuse::UnknownWord(word) => write!(f, "unknown word '{}'", Escaped(word)),
            Misuse::NoList { word, instead } => {
                write!(f, "no list '{}'; {instead}", Escaped(word))
            }
            Misuse::NoNumber(word) => write!(f, "'{}' is not a number", Escaped(word)),
            Misuse::NoCpu(word) => write!(f, "'{}' is not a cpu", Escaped(word)),
            Misuse::NoName(word) => {
                write!(f, "'{}' is not a name of at most 16 bytes", Escaped(word))
            }
            Misuse::NoAddress(word) => write!(f, "'{}' is not an address", Escaped(word)),
            Misuse::NoAddressLine(line) => {
                let (what, number, shown) = (line.what, line.number, EscapedBytes(line.bytes));
                write!(f, "{what} {number}, '{shown}', is not an address")
            }
            Misuse::InputTwice => write!(f, "standard input can't be read twice"),
            Misuse::NoColor(word) => {
                write!(f, "'{}' is not auto, always or never", Escaped(word))
            }
            Misuse::Together(options) => write!(f, "{options} can't be given together"),
            Misuse::NoText(word) => write!(f, "{word}"),
            Misuse::Missing(what) => write!(f, "no {what} is given"),
        }
    }
}

impl<'a> Misuse<'a> {
    /// Returns the unknown word, if that is the misuse.
    pub fn unknown(&self) -> Option<&'a str>
        ensures { text_in result ≡ unknown_in self.now }
    {
        match self {
            Misuse::UnknownOption(word) | Misuse::UnknownWord(word) => Some(word),
            _ => None,
        }
    }
}
