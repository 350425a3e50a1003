//! The commands that place function starts, and those that place a data-in-code table.

ghost use Rattle.std.specs.Prelude.{ℕ};
ghost use Rattle.goblin_mach.specs.Tables.{data_place_by, starts_place_by};

use crate::readings::Subject;
use mach_base::Result;
use mach_load::{CommandVariant, LoadCommand};
use mach_records::LinkeditDataCommand;

/// The commands that place function starts.
#[derive(Clone, Copy)]
pub struct StartPlaces;

impl Subject for StartPlaces {
    type Value = LinkeditDataCommand;

    ghost Seen = { ℕ × ℕ };

    ghost seen = { λ c. (c.dataoff, c.datasize) };

    ghost reading = { λ _. starts_place_by };

    /// Reads the command. It never fails.
    fn read(&self, command: &LoadCommand) -> Option<Result<LinkeditDataCommand>> {
        match &command.command {
            CommandVariant::FunctionStarts(c) => Some(Ok(*c)),
            _ => None,
        }
    }
}

/// The commands that place a data-in-code table.
#[derive(Clone, Copy)]
pub struct DataPlaces;

impl Subject for DataPlaces {
    type Value = LinkeditDataCommand;

    ghost Seen = { ℕ × ℕ };

    ghost seen = { λ c. (c.dataoff, c.datasize) };

    ghost reading = { λ _. data_place_by };

    /// Reads the command. It never fails.
    fn read(&self, command: &LoadCommand) -> Option<Result<LinkeditDataCommand>> {
        match &command.command {
            CommandVariant::DataInCode(c) => Some(Ok(*c)),
            _ => None,
        }
    }
}
