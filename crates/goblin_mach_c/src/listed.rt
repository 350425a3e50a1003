//! The rows of what load commands list: several for one command, up to the first that can't be read.

ghost use Rattle.std.specs.Prelude.{◌≡◌, List, Result, map};
ghost use Rattle.mach_base.specs.Fault.{Fault};
ghost use Rattle.mach_load.specs.Command.{Command};
ghost use Rattle.mach_load.specs.Variants.{command_of};
ghost use Rattle.goblin_mach_c.specs.CommandRows.{gm_commands_view, readable_commands_left};
ghost use Rattle.goblin_mach_c.specs.Listed.{GivesFirst, listed_in, listed_left, part_left};

use crate::commands::Commands;
use crate::images::gm_image;
use crate::rows::Rows;
use mach_load::LoadCommand;

/// The position in the list of one command.
#[derive(Clone, Copy)]
pub struct CommandItems {
    /// The offset of the command.
    pub command: usize,
    /// The offset of the next item, or that of the command.
    pub place: usize,
    /// The end of the command, or its size.
    pub end: usize,
    /// How many items were returned, if they go by their index.
    pub index: u32,
    /// How many items there are, or are left.
    pub count: u32,
}

/// What commands list.
pub trait Lists {
    type Row: Copy;

    ghost use Rattle.goblin_mach_c.specs.declared.listed.CommandItems.{CommandItems};

    // What an item is.
    ghost Item: { Type 0 };

    // The items of a command.
    ghost lists: { Self → Command → List (Result Item Fault) };

    // The items left of a command.
    ghost left: { Self → CommandItems → List (Result Item Fault) };

    // The row of an item, or of the fault that ends the items.
    ghost shown: { Result Item Fault → Self.Row };

    /// Returns the list of a command.
    fn open(&self, command: &LoadCommand) -> CommandItems
        ensures { left self.now result ≡ lists self.now (command_of command.now) };

    /// Returns the row of the next item, or of the fault that ends all lists.
    fn next(&self, part: &mut CommandItems) -> Option<std::result::Result<Self::Row, Self::Row>>
        ensures { GivesFirst shown (left self.now part.old) result (left self.now part.new) };
}

/// The rows of what an image's commands list, up to the first fault and its row.
#[derive(Drop)]
pub struct Listed<'a, L: Lists + Drop> {
    commands: Commands<'a>,
    what: L,
    part: Option<CommandItems>,
    ended: bool,
}

/// Returns the rows of an image.
pub fn list_rows<'a, L: Lists + Drop>(bytes: &'a [u8], image: &gm_image, what: L) -> Listed<'a, L>
    ensures { listed_left (L.shown) result.ended (part_left (L.left result.what) result.part)
        (listed_in (L.lists result.what) (readable_commands_left result.commands))
        ≡ map (L.shown) (listed_in (L.lists what) (gm_commands_view bytes.now image.now)) }
{
    Listed {
        commands: Commands::of(bytes, image),
        what,
        part: None,
        ended: false,
    }
}

impl<'a, L: Lists + Drop> Rows for Listed<'a, L> {
    type Row = L::Row;

    ghost left = { λ it. listed_left (L.shown) it.ended (part_left (L.left it.what) it.part)
        (listed_in (L.lists it.what) (readable_commands_left it.commands)) };

    fn next(&mut self) -> Option<L::Row> {
        if self.ended {
            return None;
        }
        'commands: loop {
            if let Some(part) = &mut self.part {
                match self.what.next(part) {
                    None => {}
                    Some(Ok(row)) => return Some(row),
                    Some(Err(row)) => {
                        self.ended = true;
                        return Some(row);
                    }
                }
            }
            self.part = None;
            match self.commands.next_in_place() {
                None => return None,
                Some(command) => self.part = Some(self.what.open(&command)),
            }
        }
    }
}
