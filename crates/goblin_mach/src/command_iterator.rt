//! Load commands one at a time, without memory.

ghost use Rattle.std.specs.Prelude.{◌≡◌, ℕ, List, map, length, Ok};
ghost use Rattle.mach_base.specs.declared.context.Endian as order;
ghost use Rattle.mach_load.specs.Command.{Command};
ghost use Rattle.goblin_mach.specs.Chain.{IsChain};
ghost use Rattle.goblin_mach.specs.CommandItems.{commands_from, commands_left, command_read};

use mach_base::{Endian, Result};
use mach_load::LoadCommand;

/// An iterator over load commands. The first that can't be read ends it with an error. It allocates nothing. It is built
/// from numbers, and its fields are these numbers: an iterator with the same numbers returns the same items.
#[derive(Clone, Copy)]
pub struct CommandIterator<'a> {
    /// The bytes that hold the commands.
    pub bytes: &'a [u8],
    /// The place of the next command.
    pub place: usize,
    /// The number of commands left.
    pub left: usize,
    /// The byte order of the commands.
    pub le: Endian,
}

impl<'a> CommandIterator<'a> {
    /// Returns an iterator over `count` commands from a place on.
    pub fn at(bytes: &'a [u8], place: usize, count: usize, le: Endian) -> Self
        ensures { commands_left result ≡ commands_from le bytes.now place count }
    {
        CommandIterator {
            bytes,
            place,
            left: count,
            le,
        }
    }
}

impl<'a> Iterator for CommandIterator<'a> {
    type Item = Result<LoadCommand>;

    ghost use Rattle.std.specs.Iterator.{YieldsFirstBy, item_count};

    ghost next_gives = { YieldsFirstBy command_read commands_left };

    ghost remaining = { item_count commands_left };

    #[tactic(auto, unfolding(crate::specs::CommandItems::commands_from))]
    fn next(&mut self) -> Option<Result<LoadCommand>> {
        if self.left == 0 {
            return None;
        }
        match LoadCommand::parse(self.bytes, &mut self.place, self.le) {
            Ok(command) => {
                self.left -= 1;
                Some(Ok(command))
            }
            Err(e) => {
                self.left = 0;
                Some(Err(e))
            }
        }
    }
}

/// Each command of a chain is returned, in order.
#[tactic(auto, using(crate::proofs::CommandItems::one_by_one))]
pub fn commands_one_by_one()
    ensures { (le : order.Endian) (bytes : List ℕ) (s : ℕ) (cs : List Command) → IsChain le bytes s cs → commands_from le bytes s (length cs) ≡ map Ok cs }
{}
