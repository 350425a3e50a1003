//! Why the entries of a file are refused, and why no fat file is built.

ghost use Rattle.std.specs.Prelude.{◌≡◌};
ghost use Rattle.mach_fat_writer.specs.declared.refusal.EntryRefusal.TheVariants as refusals;

use mach_base::{Error, describe};
use std::alloc::{AllocError, AllocFailed};
use std::fmt;
use std::fmt::{Display, Formatter, Write};

/// Why the entries of a file are refused, or a requested one isn't there.
#[derive(Debug, Drop)]
pub enum EntryRefusal {
    /// They can't be read, or memory ran out.
    Unread(Error),
    /// The file is one image.
    NotFat,
    /// There is no entry at this index.
    NoEntry(usize),
    /// The entry at this index is not in the file.
    OutOfFile(usize),
    /// The entries have more bytes than the file.
    Overlap,
    /// There is no entry of this cputype.
    NoCpu(u32),
}

impl From<Error> for EntryRefusal {
    ghost from_gives = { λ error refusal. refusal ≡ refusals.Unread error };

    fn from(error: Error) -> EntryRefusal {
        EntryRefusal::Unread(error)
    }
}

impl From<AllocError> for EntryRefusal {
    ghost use Rattle.mach_base.specs.declared.error.Error.TheVariants as errors;

    ghost from_gives = { λ error refusal. refusal ≡ refusals.Unread (errors.Memory error) };

    fn from(error: AllocError) -> EntryRefusal {
        EntryRefusal::Unread(Error::Memory(error))
    }
}

impl<T: Drop> From<AllocFailed<T>> for EntryRefusal {
    ghost from_gives = { λ _ refusal. refusal ≡ refusals.Unread (errors.Memory alloc_error) };

    ghost use Rattle.std.specs.Prelude.{alloc_error};
    ghost use Rattle.mach_base.specs.declared.error.Error.TheVariants as errors;

    fn from(error: AllocFailed<T>) -> EntryRefusal {
        EntryRefusal::Unread(Error::from(error))
    }
}

impl Display for EntryRefusal {
    ghost use Rattle.std.specs.Prelude.{Some};
    ghost use Rattle.mach_fat_writer.specs.Unfit.{entry_refusal_words};

    ghost output = { λ refusal. Some (entry_refusal_words refusal) };

    fn fmt<W: Write>(&self, f: &mut Formatter<W>) -> fmt::Result {
        match self {
            EntryRefusal::Unread(error) => write!(f, "{}", describe(error)),
            EntryRefusal::NotFat => write!(f, "not a fat file"),
            EntryRefusal::NoEntry(index) => write!(f, "no entry {index}"),
            EntryRefusal::OutOfFile(index) => write!(f, "entry {index} is out of the file"),
            EntryRefusal::Overlap => write!(f, "entries overlap"),
            EntryRefusal::NoCpu(cputype) => write!(f, "no entry of cputype 0x{cputype:x}"),
        }
    }
}

/// A refused file.
#[derive(Debug, Drop)]
pub struct FileRefusal {
    /// Its index among the files.
    pub file: usize,
    /// Why it is refused.
    pub why: EntryRefusal,
}

/// Why no fat file is built from some files.
#[derive(Debug, Drop)]
pub enum MakeRefusal {
    /// One of the files is refused.
    OfFile(FileRefusal),
    /// The entries together are refused, or memory ran out.
    OfAll(Error),
}

impl From<FileRefusal> for MakeRefusal {
    ghost from_gives = { λ file refusal. refusal ≡ made.OfFile file };

    ghost use Rattle.mach_fat_writer.specs.declared.refusal.MakeRefusal.TheVariants as made;

    fn from(file: FileRefusal) -> MakeRefusal {
        MakeRefusal::OfFile(file)
    }
}

impl From<Error> for MakeRefusal {
    ghost from_gives = { λ error refusal. refusal ≡ made.OfAll error };

    ghost use Rattle.mach_fat_writer.specs.declared.refusal.MakeRefusal.TheVariants as made;

    fn from(error: Error) -> MakeRefusal {
        MakeRefusal::OfAll(error)
    }
}
