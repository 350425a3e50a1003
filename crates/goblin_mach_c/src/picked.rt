//! The rows of the commands that have one.

ghost use Rattle.std.specs.Prelude.{◌≡◌, Option};
ghost use Rattle.mach_load.specs.Command.{Command};
ghost use Rattle.mach_load.specs.Variants.{command_of};
ghost use Rattle.goblin_mach_c.specs.CommandRows.{readable_commands_left};
ghost use Rattle.goblin_mach_c.specs.PartRows.{rows_of};

use crate::commands::Commands;
use crate::rows::Rows;
use mach_load::LoadCommand;

/// Which commands have a row.
pub trait Pick {
    type Row: Copy;

    // The row of a command, if it has one.
    ghost picked: { Self → Command → Option Self.Row };

    /// Returns the row of a command, if it has one.
    fn pick(&self, command: &LoadCommand) -> Option<Self::Row>
        ensures { result ≡ picked self.now (command_of command.now) };
}

/// The rows of the commands that have one, in order.
#[derive(Drop)]
pub struct Picked<'a, P: Pick + Drop> {
    pub commands: Commands<'a>,
    pub what: P,
}

impl<'a, P: Pick + Drop> Rows for Picked<'a, P> {
    type Row = P::Row;

    ghost left = { λ it. rows_of (P.picked it.what) (readable_commands_left it.commands) };

    fn next(&mut self) -> Option<P::Row> {
        'commands: loop {
            match self.commands.next_in_place() {
                None => return None,
                Some(command) => {
                    if let Some(row) = self.what.pick(&command) {
                        return Some(row);
                    }
                }
            }
        }
    }
}
