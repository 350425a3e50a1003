//! Why the program refuses a file or an entry.

ghost use Rattle.std.specs.Prelude.{◌≡◌};
ghost use Rattle.machfat.specs.Refusals.{refused_by};
ghost use Rattle.machfat.specs.declared.refusal.Refusal.TheVariants as refusals;
ghost use Rattle.machfat.specs.declared.refusal.WriteFailure.TheVariants as failures;

use crate::outside::RefusedEntries;
use goblin_mach::{Error, Foreign, describe};
use mach_cli::Cpu;
use std::alloc::AllocError;
use std::fmt::{Display, Formatter, Write};
use std::{fmt, io};

/// Why a file has no such list or entry.
#[derive(Drop)]
pub enum Refusal {
    /// The library refuses it.
    Refused(Error),
    /// The library refuses it, and its first bytes show its kind.
    Foreign(Foreign),
    /// It is one image.
    NotFat,
    /// Its entries are refused, or it doesn't have the selected one.
    Entries(RefusedEntries),
    /// It has no entry for this cpu.
    NoEntryOf(Cpu),
}

impl From<Error> for Refusal {
    ghost from_gives = { λ error refusal. refusal ≡ refusals.Refused error };

    fn from(error: Error) -> Refusal {
        Refusal::Refused(error)
    }
}

impl Display for Refusal {
    ghost use Rattle.std.specs.Prelude.{Some};
    ghost use Rattle.machfat.specs.Refusals.{refusal_words};

    ghost output = { λ refusal. Some (refusal_words refusal) };

    fn fmt<W: Write>(&self, f: &mut Formatter<W>) -> fmt::Result {
        match self {
            Refusal::Refused(error) => write!(f, "{}", describe(error)),
            Refusal::Foreign(kind) => write!(f, "{kind}"),
            Refusal::NotFat => write!(f, "not a fat file"),
            Refusal::Entries(refusal) => write!(f, "{refusal}"),
            Refusal::NoEntryOf(cpu) => write!(f, "no entry of {cpu}"),
        }
    }
}

/// Returns the refusal of a file for an error: by its kind, if that is known.
pub fn refused_by(kind: Option<Foreign>, error: Error) -> Refusal
    ensures { result ≡ refused_by kind error }
{
    match kind {
        Some(kind) => Refusal::Foreign(kind),
        None => Refusal::Refused(error),
    }
}

/// Why something was not written.
#[derive(Drop)]
pub enum WriteFailure {
    /// There is nothing to write.
    Refused(Refusal),
    /// A write failed.
    Unwritten(io::Error),
}

impl From<Refusal> for WriteFailure {
    ghost from_gives = { λ refusal failure. failure ≡ failures.Refused refusal };

    fn from(refusal: Refusal) -> WriteFailure {
        WriteFailure::Refused(refusal)
    }
}

impl From<AllocError> for WriteFailure {
    ghost use Rattle.mach_base.specs.declared.error.Error.TheVariants as errors;

    ghost from_gives = { λ error failure. failure ≡ failures.Refused (refusals.Refused (errors.Memory error)) };

    fn from(error: AllocError) -> WriteFailure {
        WriteFailure::Refused(Refusal::from(Error::from(error)))
    }
}

impl From<io::Error> for WriteFailure {
    ghost from_gives = { λ error failure. failure ≡ failures.Unwritten error };

    fn from(error: io::Error) -> WriteFailure {
        WriteFailure::Unwritten(error)
    }
}
