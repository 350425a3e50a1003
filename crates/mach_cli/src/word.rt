//! The arguments of a call as the system gives them: bytes that may not be text.

ghost use Rattle.std.specs.Prelude.{◌≡◌};
ghost use Rattle.mach_cli.specs.CallWords.{word_text, ReadsAs};

use crate::escaped::EscapedBytes;
use std::alloc::AllocError;
use std::env::{Env, FillError};
use std::fmt;
use std::fmt::{Display, Formatter, Write};

/// An argument of a call.
#[derive(Drop)]
pub enum Word {
    /// Text.
    Text(String),
    /// Bytes that aren't UTF-8, and the number of the argument. The first one after the program's name is number 1.
    Bytes(usize, Vec<u8>),
}

impl Word {
    /// Returns the text; empty if the argument isn't text.
    pub fn as_str(&self) -> &str
        ensures { result.now ≡ word_text self.now }
    {
        match self {
            Word::Text(text) => text.as_str(),
            Word::Bytes(..) => "",
        }
    }
}

/// The report that an argument of a call, or a name in a list, isn't text.
#[derive(Clone, Copy)]
pub struct NoText<'a> {
    /// What it is: an argument or a name.
    pub what: &'static str,
    /// Its number, counted from 1.
    pub number: usize,
    /// Its bytes.
    pub bytes: &'a [u8],
}

impl Display for NoText<'_> {
    ghost use Rattle.std.specs.Prelude.{Some};
    ghost use Rattle.mach_cli.specs.CallWords.{no_text_words};

    ghost output = { λ t. Some (no_text_words t.what.now t.number t.bytes.now) };

    fn fmt<W: Write>(&self, f: &mut Formatter<W>) -> fmt::Result {
        let (what, number, shown) = (self.what, self.number, EscapedBytes(self.bytes));
        write!(
            f,
            "{what} {number}, '{shown}', is no UTF-8: give such a file on standard input, as '-'"
        )
    }
}

/// Returns the arguments of a call; the first is the program's name.
pub fn call_words(rt: &HostRuntime) -> Result<Vec<Word>, AllocError> {
    let mut words = Vec::new(rt.alloc());
    for number in 0..usize::MAX {
        let Some(bytes) = argument(rt, number)? else {
            break;
        };
        words.push(word_of(number, bytes))?;
    }
    Ok(words)
}

// Returns the argument of this number with these bytes.
fn word_of(number: usize, bytes: Vec<u8>) -> Word
    ensures { ReadsAs number bytes.items result }
{
    match String::from_utf8(bytes) {
        Ok(text) => Word::Text(text),
        Err(error) => Word::Bytes(number, error.into_bytes()),
    }
}

// Returns the bytes of the argument of this number, if there is one. The buffer is doubled until they fit.
fn argument(rt: &HostRuntime, number: usize) -> Result<Option<Vec<u8>>, AllocError> {
    let mut capacity = 256usize;
    for _ in 0..usize::BITS {
        let mut bytes = Vec::new(rt.alloc());
        bytes.resize(capacity, 0u8)?;
        match rt.arg(number, bytes.as_mut_slice()) {
            Ok(count) => {
                bytes.truncate(count);
                return Ok(Some(bytes));
            }
            Err(FillError::NotPresent) => return Ok(None),
            Err(FillError::TooLong) => capacity = capacity.saturating_add(capacity),
        }
    }
    Err(AllocError)
}
