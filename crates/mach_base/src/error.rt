//! Why bytes could not be read.

ghost use Rattle.std.specs.Prelude.{◌≡◌};
ghost use Rattle.mach_base.specs.declared.error.Error.TheVariants as errors;
ghost use Rattle.mach_base.specs.Words.{described};

use std::alloc::{AllocError, AllocFailed};
use std::fmt;

/// A read or a write that failed at an offset.
#[derive(Debug, Drop)]
pub enum ScrollError {
    /// The offset is at or past the end of the bytes.
    BadOffset(usize),
    /// `size` bytes were requested, but only `len` are left.
    TooBig {
        /// How many bytes were requested.
        size: usize,
        /// How many are left.
        len: usize,
    },
    /// The remaining bytes, `size` of them, do not begin with such a value.
    BadInput {
        /// How many bytes remain.
        size: usize,
        /// What is wrong with them.
        msg: &'static str,
    },
}

/// Why a file, or a part of one, was refused.
#[derive(Debug, Drop)]
pub enum Error {
    /// The bytes break a rule of the format.
    Malformed(&'static str),
    /// The magic number is none of the supported ones.
    BadMagic(u64),
    /// A read or a write failed at an offset.
    Scroll(ScrollError),
    /// The bytes cannot hold that many of the named things.
    BufferTooShort(usize, &'static str),
    /// An allocation was refused.
    Memory(AllocError),
}

/// An answer of the library, or why there is none.
pub type Result<T> = std::result::Result<T, Error>;

impl From<ScrollError> for Error {
    ghost from_gives = { λ s e. e ≡ errors.Scroll s };

    fn from(e: ScrollError) -> Error {
        Error::Scroll(e)
    }
}

impl From<AllocError> for Error {
    ghost from_gives = { λ a e. e ≡ errors.Memory a };

    fn from(e: AllocError) -> Error {
        Error::Memory(e)
    }
}

impl<T: Drop> From<AllocFailed<T>> for Error {
    ghost from_gives = { λ _ e. e ≡ errors.Memory alloc_error };

    ghost use Rattle.std.specs.Prelude.{alloc_error};

    fn from(e: AllocFailed<T>) -> Error {
        Error::Memory(AllocError::from(e))
    }
}

/// An error that `{}` prints as a message.
#[derive(Clone, Copy, Debug)]
pub struct Description<'a> {
    error: &'a Error,
}

/// Describes an error in one line, with its offset and numbers. Print it by `{}`.
pub fn describe(error: &Error) -> Description<'_>
    ensures { described result ≡ error.now }
{
    Description { error }
}

impl fmt::Display for Description<'_> {
    ghost use Rattle.std.specs.Prelude.{Some};
    ghost use Rattle.mach_base.specs.Words.{words_of};

    ghost output = { λ d. Some (words_of (described d)) };

    fn fmt<W: fmt::Write>(&self, f: &mut fmt::Formatter<W>) -> fmt::Result {
        match self.error {
            Error::Malformed(msg) => write!(f, "malformed: {msg}"),
            Error::BadMagic(magic) => write!(f, "bad magic 0x{magic:x}"),
            Error::Scroll(ScrollError::BadOffset(place)) => {
                write!(f, "offset {place} is past the end")
            }
            Error::Scroll(ScrollError::TooBig { size, len }) => {
                write!(f, "{size} bytes are needed and {len} are left")
            }
            Error::Scroll(ScrollError::BadInput { size, msg }) => {
                write!(f, "{msg}, {size} bytes left")
            }
            Error::BufferTooShort(count, what) => write!(f, "{count} {what} do not fit the file"),
            Error::Memory(_) => f.write_str("out of memory"),
        }
    }
}
