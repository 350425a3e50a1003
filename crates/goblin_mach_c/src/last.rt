//! The value of the last command about a subject, read in place.

ghost use Rattle.std.specs.Prelude.{◌≡◌, option_map};
ghost use Rattle.goblin_mach.specs.Readings.{last_of, read_of};
ghost use Rattle.goblin_mach_c.specs.CommandRows.{gm_commands_view};

use crate::commands::Commands;
use crate::images::gm_image;
use goblin_mach::readings::{Subject, put_readable};

/// Returns the value of the last readable command about a subject in an image.
pub fn last_value<S: Subject>(bytes: &[u8], image: &gm_image, subject: &S) -> Option<S::Value>
    ensures { option_map S.seen result ≡ last_of (read_of (S.reading subject.now) (gm_commands_view bytes.now image.now)) }
{
    let mut commands = Commands::of(bytes, image);
    let mut last = None;
    'said: while let Some(command) = commands.next_in_place() {
        put_readable(&mut last, subject, &command);
    }
    last
}
