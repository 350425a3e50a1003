//! The sections that the command of a segment holds.

ghost use Rattle.std.specs.Prelude.{◌≡◌, ◌∷◌, ◌+◌, ◌<◌, ◌^◌, [], IfOk, IfSome, MatchOption};
ghost use Rattle.std.specs.Iterator.{YieldsFirstBy};
ghost use Rattle.mach_base.specs.Answer.{Reads};
ghost use Rattle.mach_base.specs.Record.{record_at};
ghost use Rattle.machinfo.specs.CommandFields.{bytes_of_command};
ghost use Rattle.machinfo.specs.CommandRows as defined;
ghost use Rattle.machinfo.specs.NumberedCommands.{numbered_command_view};

use crate::command_fields::bytes_of_command;
use crate::commands::NumberedCommand;
use goblin_mach::load_command::{Section32, Section64};
use goblin_mach::segment::place_of;
use goblin_mach::{Container, Ctx, Record, Result};

/// The record of a section, of a 32-bit or a 64-bit segment.
#[derive(Clone, Copy)]
pub enum SectionRecord {
    Narrow(Section32),
    Wide(Section64),
}

/// A section that a command holds.
#[derive(Clone, Copy)]
pub struct CommandSection {
    /// The number of the command.
    pub command: usize,
    /// The number of the section in its command, from 0.
    pub number: u32,
    /// Its record.
    pub record: SectionRecord,
}

/// The sections of a command from a number on.
#[derive(Clone, Copy)]
pub struct CommandSections<'a> {
    /// The number of the command.
    pub command: usize,
    /// Its width, and the byte order.
    pub ctx: Ctx,
    /// Its bytes.
    pub own: &'a [u8],
    /// How many sections it counts.
    pub count: u32,
    /// The number of the next one.
    pub number: u32,
}

// Reads the record of a section.
fn record_in(own: &[u8], ctx: Ctx, place: usize) -> Result<SectionRecord>
    ensures values { Reads defined.values_of_record result (record_at ctx.le (defined.section_record_fields ctx.container) own.now place) }
    ensures width { IfOk result (λ found. defined.width_of_record found ≡ ctx.container) }
{
    match ctx.container {
        Container::Little => Ok(SectionRecord::Narrow(Section32::read(own, place, ctx.le)?)),
        Container::Big => Ok(SectionRecord::Wide(Section64::read(own, place, ctx.le)?)),
    }
}

// Reads a section of a command with these bytes.
fn section_in(own: &[u8], ctx: Ctx, command: usize, number: u32) -> Result<CommandSection>
    ensures { Reads defined.command_section_view result (defined.command_section_at ctx own.now command number) }
{
    let record = record_in(own, ctx, place_of(ctx, 0, number))?;
    Ok(CommandSection {
        command,
        number,
        record,
    })
}

impl<'a> CommandSections<'a> {
    /// Returns the sections of a segment's command of this width, which counts so many.
    pub fn of(width: Container, numbered: &NumberedCommand<'a, '_>, count: u32) -> Self
        ensures { let it = numbered_command_view numbered.now in defined.command_sections_left result
            ≡ defined.command_sections_from (record { container = width; le = it.le }) (bytes_of_command it.bytes it.command) it.number count 0 }
    {
        CommandSections {
            command: numbered.number,
            ctx: Ctx {
                container: width,
                le: numbered.le,
            },
            own: bytes_of_command(numbered.bytes, numbered.command),
            count,
            number: 0,
        }
    }

    // Reads the next section, if there is one.
    fn following(&self) -> Option<CommandSection>
        ensures more { let s = self.now in MatchOption result (defined.command_sections_after s s.number ≡ [])
            (λ found. defined.command_sections_after s s.number ≡ defined.command_section_view found ∷ defined.command_sections_after s (s.number + 1)) }
        ensures few { IfSome result (λ _. self.now.number + 1 < 2 ^ 32) }
    {
        if self.number >= self.count {
            return None;
        }
        section_in(self.own, self.ctx, self.command, self.number).ok()
    }

    /// Returns the next section. Sections that do not lie in the command's bytes are left out.
    pub fn take_next(&mut self) -> Option<CommandSection>
        ensures { YieldsFirstBy defined.command_section_view defined.command_sections_left self.old result self.new }
    {
        let section = self.following()?;
        self.number += 1;
        Some(section)
    }
}
