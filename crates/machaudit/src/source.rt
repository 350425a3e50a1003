//! What a report is of, and why it doesn't open.

ghost use Rattle.std.specs.Prelude.{◌≡◌};
ghost use Rattle.mach_cli.specs.Refusals.{refusal_reason};
ghost use Rattle.machaudit.specs.Unopened.{image_reason};

use goblin_mach::{Error, describe};
use mach_cli::Refusal;
use mach_cli::entries::OutOfFile;

/// What a report is of.
#[derive(Clone, Copy)]
pub struct Source<'a> {
    /// The bytes of the file.
    pub bytes: &'a [u8],
    /// If it is an entry that isn't all in its fat file: where both end.
    pub outside: Option<OutOfFile>,
}

/// Returns why an image doesn't open: it is an entry that is out of the file, or it has this error.
pub fn refusal_of_image(outside: Option<OutOfFile>, error: &Error) -> Refusal<'_>
    ensures { refusal_reason result ≡ image_reason outside error.now }
{
    match outside {
        Some(outside) => Refusal::OutOfFile(outside),
        None => Refusal::Fault(describe(error)),
    }
}
