//! The rows of load commands: each command, and then what it holds.

ghost use Rattle.std.specs.Prelude.{◌≡◌};
ghost use Rattle.std.specs.Iterator.{YieldsFirstBy};
ghost use Rattle.goblin_mach.specs.OpenImage.{bytes_view, commands_view, ctx_view};
ghost use Rattle.machinfo.specs.CommandRows as defined;
ghost use Rattle.machinfo.specs.NumberedCommands.{numbered_command_view, numbered_commands_from};

use crate::command_sections::{CommandSection, CommandSections};
use crate::commands::{NumberedCommand, NumberedCommands};
use crate::registers::{Register, Registers};
use goblin_mach::load_command::CommandVariant;
use goblin_mach::{Container, MachO};
use std::alloc::Allocator;

/// A row: a command, or one of what the command before it holds.
#[derive(Clone, Copy)]
pub enum CommandRow<'a, 'b> {
    /// A command.
    Itself(NumberedCommand<'a, 'b>),
    /// A section of a segment's command.
    Section(CommandSection),
    /// A register in a thread's command.
    Register(Register),
}

/// What is left of what a command holds.
#[derive(Clone, Copy)]
pub enum CommandParts<'a, 'b> {
    Sections(CommandSections<'a>),
    Registers(Registers<'b>),
    None,
}

/// What is left of the rows of commands.
#[derive(Clone, Copy)]
pub struct CommandRows<'a, 'b> {
    /// What is left of the last command.
    pub below: CommandParts<'a, 'b>,
    /// The commands after it.
    pub commands: NumberedCommands<'a, 'b>,
    /// The cpu's type.
    pub cputype: u32,
}

impl<'a, 'b> CommandParts<'a, 'b> {
    // Returns what a command holds.
    fn of(cputype: u32, numbered: &NumberedCommand<'a, 'b>) -> Self
        ensures { defined.rows_below_left result ≡ defined.rows_below cputype (numbered_command_view numbered.now) }
    {
        match &numbered.command.command {
            CommandVariant::Segment32(c) => CommandParts::Sections(CommandSections::of(
                Container::Little,
                numbered,
                c.nsects,
            )),
            CommandVariant::Segment64(c) => CommandParts::Sections(CommandSections::of(
                Container::Big,
                numbered,
                c.nsects,
            )),
            CommandVariant::Thread(c) | CommandVariant::Unixthread(c) => CommandParts::Registers(
                Registers::of(numbered.le, cputype, numbered.number, c),
            ),
            _ => CommandParts::None,
        }
    }

    // Returns the next row of what a command holds.
    fn take_next(&mut self) -> Option<CommandRow<'a, 'b>>
        ensures { YieldsFirstBy defined.command_row_view defined.rows_below_left self.old result self.new }
    {
        match self {
            CommandParts::Sections(list) => Some(CommandRow::Section(list.take_next()?)),
            CommandParts::Registers(list) => Some(CommandRow::Register(list.take_next()?)),
            CommandParts::None => None,
        }
    }
}

impl<'a, 'b> CommandRows<'a, 'b> {
    /// Returns the rows of an image's commands.
    pub fn of<A: Allocator>(image: &'b MachO<'a, A>) -> Self
        ensures { defined.command_rows_left result
            ≡ defined.rows_of_commands image.now.header.cputype
            (numbered_commands_from (ctx_view image.now).le (bytes_view image.now) 0 (commands_view image.now)) }
    {
        CommandRows {
            below: CommandParts::None,
            commands: NumberedCommands::of(image),
            cputype: image.header.cputype,
        }
    }

    /// Returns the next row.
    pub fn take_next(&mut self) -> Option<CommandRow<'a, 'b>>
        ensures { YieldsFirstBy defined.command_row_view defined.command_rows_left self.old result self.new }
    {
        if let Some(row) = self.below.take_next() {
            return Some(row);
        }
        let command = self.commands.take_next()?;
        self.below = CommandParts::of(self.cputype, &command);
        Some(CommandRow::Itself(command))
    }
}
