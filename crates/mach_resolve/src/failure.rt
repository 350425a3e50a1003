//! Why a program could not be resolved.

ghost use Rattle.std.specs.Prelude.{◌≡◌};
ghost use Rattle.mach_resolve.specs.Failures.{reported_as};
ghost use Rattle.mach_resolve.specs.declared.failure.ResolveFailure.TheVariants as failures;

use goblin_mach::Error;
use std::alloc::{AllocError, AllocFailed};

/// Why a program could not be resolved.
#[derive(Debug, Drop)]
pub enum ResolveFailure {
    /// A file was refused: the program, which is file 0, or a library by its number.
    Refused {
        /// The file's number: 0 for the program, 1 for the first library.
        file: usize,
        /// The error.
        error: Error,
    },
    /// An allocation was refused.
    Memory,
}

impl ResolveFailure {
    /// Returns the failure for a file's error, which may be a refused allocation.
    pub fn refused(file: usize, error: Error) -> ResolveFailure
        ensures { result ≡ reported_as file error }
    {
        match error {
            Error::Memory(_) => ResolveFailure::Memory,
            other => ResolveFailure::Refused { file, error: other },
        }
    }
}

impl From<AllocError> for ResolveFailure {
    ghost from_gives = { λ _ failure. failure ≡ failures.Memory };

    fn from(_error: AllocError) -> ResolveFailure {
        ResolveFailure::Memory
    }
}

impl<T: Drop> From<AllocFailed<T>> for ResolveFailure {
    ghost from_gives = { λ _ failure. failure ≡ failures.Memory };

    fn from(_error: AllocFailed<T>) -> ResolveFailure {
        ResolveFailure::Memory
    }
}
