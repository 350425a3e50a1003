//! The place that the commands of an image give its signature.

ghost use Rattle.std.specs.Prelude.{◌≡◌, ℕ, map, option_map};
ghost use Rattle.mach_load.specs.Variants.{command_of};
ghost use Rattle.mach_signature.specs.SignedImages.{signature_place_by, signature_place_in};

use goblin_mach::readings::{Subject, first_readable};
use mach_base::Result;
use mach_load::{CommandVariant, LoadCommand};
use mach_records::LinkeditDataCommand;

// The commands that place a signature.
#[derive(Clone, Copy)]
pub struct SignaturePlaces;

impl Subject for SignaturePlaces {
    type Value = LinkeditDataCommand;

    ghost Seen = { ℕ × ℕ };

    ghost seen = { λ c. (c.dataoff, c.datasize) };

    ghost reading = { λ _. signature_place_by };

    /// Reading it never fails.
    fn read(&self, command: &LoadCommand) -> Option<Result<LinkeditDataCommand>> {
        match &command.command {
            CommandVariant::CodeSignature(c) => Some(Ok(*c)),
            _ => None,
        }
    }
}

/// Returns the offset and the size that the first `LC_CODE_SIGNATURE` gives the signature, if there is such a command.
pub fn signature_place(commands: &[LoadCommand]) -> Option<(u32, u32)>
    ensures { result ≡ signature_place_in (map command_of commands.now) }
{
    let place = first_readable(&SignaturePlaces, commands)?;
    Some((place.dataoff, place.datasize))
}
