//! Why an image is not shown.

ghost use Rattle.std.specs.Prelude.{◌≡◌};
ghost use Rattle.mach_cli.specs.declared.failure.ShowFailure.TheVariants as failures;

use std::alloc::AllocError;
use std::io;

/// Why an image is not shown.
#[derive(Drop)]
pub enum ShowFailure {
    /// Memory ran out, and nothing is written.
    Memory,
    /// A write failed.
    Unwritten(io::Error),
}

impl From<AllocError> for ShowFailure {
    ghost from_gives = { λ _ failure. failure ≡ failures.Memory };

    fn from(_error: AllocError) -> ShowFailure {
        ShowFailure::Memory
    }
}

impl From<io::Error> for ShowFailure {
    ghost from_gives = { λ error failure. failure ≡ failures.Unwritten error };

    fn from(error: io::Error) -> ShowFailure {
        ShowFailure::Unwritten(error)
    }
}
