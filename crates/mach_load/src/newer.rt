//! The load commands that only later headers have, which goblin's table lacks.

ghost use Rattle.std.specs.Prelude.{◌≡◌, option_map};
ghost use Rattle.std.specs.Result.{result_ok};
ghost use Rattle.mach_base.specs.Record.{record_at};
ghost use Rattle.mach_load.specs.Newer.{newer_at, newer_record_at};
ghost use Rattle.mach_load.specs.NewerViews.{newer_view};
ghost use Rattle.mach_load.specs.Variants.{command_of};

use crate::load_command::LoadCommand;
use crate::variant::CommandVariant;
use mach_base::{Endian, Record};
use mach_records::{
    LC_ATOM_INFO, LC_FUNCTION_VARIANT_FIXUPS, LC_FUNCTION_VARIANTS, LC_TARGET_TRIPLE,
    LinkeditDataCommand, TargetTripleCommand,
};

/// The record of a load command that goblin's table lacks: in a `CommandVariant` it is `Unimplemented`.
#[derive(Clone, Copy, Debug)]
pub enum NewerCommand {
    /// The place of what the linker knows of each atom.
    AtomInfo(LinkeditDataCommand),
    /// The place of the variants of functions.
    FunctionVariants(LinkeditDataCommand),
    /// The place of the pointers to such functions.
    FunctionVariantFixups(LinkeditDataCommand),
    /// The target triple that the image was compiled for.
    TargetTriple(TargetTripleCommand),
}

impl NewerCommand {
    /// Reads the record of such a command of the image `bytes`. As with other commands it is read in full, whatever
    /// `cmdsize` is. Returns `None` for any other command, and if the bytes end before the record does.
    pub fn of(bytes: &[u8], le: Endian, command: &LoadCommand) -> Option<NewerCommand>
        ensures { option_map newer_view result ≡ newer_at le bytes.now (command_of command.now) }
    {
        let CommandVariant::Unimplemented(header) = &command.command else {
            return None;
        };
        NewerCommand::read(bytes, command.offset, le, header.cmd)
    }

    // Reads the record at a place, by the number of the command.
    fn read(bytes: &[u8], place: usize, le: Endian, cmd: u32) -> Option<NewerCommand>
        ensures { option_map newer_view result ≡ newer_record_at le bytes.now place cmd }
    {
        match cmd {
            LC_ATOM_INFO => Some(NewerCommand::AtomInfo(record(bytes, place, le)?)),
            LC_FUNCTION_VARIANTS => Some(NewerCommand::FunctionVariants(record(bytes, place, le)?)),
            LC_FUNCTION_VARIANT_FIXUPS => Some(NewerCommand::FunctionVariantFixups(record(
                bytes, place, le,
            )?)),
            LC_TARGET_TRIPLE => Some(NewerCommand::TargetTriple(record(bytes, place, le)?)),
            _ => None,
        }
    }
}

// Reads the record at a place, if the bytes have it.
fn record<R: Record>(bytes: &[u8], place: usize, le: Endian) -> Option<R>
    ensures { option_map R.values result ≡ result_ok (record_at le R.fields bytes.now place) }
{
    R::read(bytes, place, le).ok()
}
