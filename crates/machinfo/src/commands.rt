//! The load commands of an image with their numbers.

ghost use Rattle.std.specs.Prelude.{◌≡◌};
ghost use Rattle.std.specs.Iterator.{YieldsFirstBy};
ghost use Rattle.goblin_mach.specs.OpenImage.{bytes_view, commands_view, ctx_view};
ghost use Rattle.machinfo.specs.NumberedCommands.{numbered_command_view, numbered_commands_from, numbered_commands_left};

use goblin_mach::load_command::LoadCommand;
use goblin_mach::{Endian, MachO};
use std::alloc::Allocator;

/// A load command, and its number.
#[derive(Clone, Copy)]
pub struct NumberedCommand<'a, 'b> {
    /// The bytes that hold it.
    pub bytes: &'a [u8],
    /// Their order.
    pub le: Endian,
    /// Its number.
    pub number: usize,
    /// The command itself.
    pub command: &'b LoadCommand,
}

/// The commands from a number on.
#[derive(Clone, Copy)]
pub struct NumberedCommands<'a, 'b> {
    /// The bytes that hold the commands.
    pub bytes: &'a [u8],
    /// Their order.
    pub le: Endian,
    /// The commands.
    pub commands: &'b [LoadCommand],
    /// The number of the next one.
    pub number: usize,
}

impl<'a, 'b> NumberedCommands<'a, 'b> {
    /// Returns the commands of an image.
    pub fn of<A: Allocator>(image: &'b MachO<'a, A>) -> Self
        ensures { numbered_commands_left result
            ≡ numbered_commands_from (ctx_view image.now).le (bytes_view image.now) 0 (commands_view image.now) }
    {
        NumberedCommands {
            bytes: image.bytes(),
            le: image.ctx().le,
            commands: image.load_commands.as_slice(),
            number: 0,
        }
    }

    /// Returns the next command.
    pub fn take_next(&mut self) -> Option<NumberedCommand<'a, 'b>>
        ensures { YieldsFirstBy numbered_command_view numbered_commands_left self.old result self.new }
    {
        let (bytes, le, number) = (self.bytes, self.le, self.number);
        let command = self.commands.get(number)?;
        self.number = number + 1;
        Some(NumberedCommand {
            bytes,
            le,
            number,
            command,
        })
    }
}
