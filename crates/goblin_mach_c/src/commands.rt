//! The load commands, one after the other, without an allocation.

ghost use Rattle.std.specs.Prelude.{◌≡◌, drop, map, min};
ghost use Rattle.std.specs.Iterator.{YieldsFirst, YieldsFirstBy};
ghost use Rattle.mach_load.specs.Variants.{command_of};
ghost use Rattle.goblin_mach_c.specs.CommandRows.{command_row, gm_command_rows_view, readable_commands_left, gm_commands_view};
ghost use Rattle.goblin_mach_c.specs.Fill.{Fills};

use crate::images::{ctx_of, gm_image};
use crate::rows::{Rows, fill, skip};
use mach_base::Endian;
use mach_load::LoadCommand;

/// The commands from a place on: `count` of them, or those before the first that can't be read.
#[derive(Clone, Copy)]
pub struct Commands<'a> {
    bytes: &'a [u8],
    place: usize,
    count: usize,
    le: Endian,
}

// Returns the smaller of two numbers.
fn no_more_than(count: usize, most: usize) -> usize
    ensures { result ≡ min count most }
{
    if count < most { count } else { most }
}

impl<'a> Commands<'a> {
    /// Returns the commands of an image: no more than could lie in the bytes.
    pub fn of(bytes: &'a [u8], image: &gm_image) -> Self
        ensures { readable_commands_left result ≡ gm_commands_view bytes.now image.now }
    {
        Commands {
            bytes,
            place: image.first_command,
            count: no_more_than(image.commands, bytes.len() / 8),
            le: ctx_of(image).le,
        }
    }

    /// Returns the next command.
    #[inline(always)]
    pub fn next_command(&mut self) -> Option<LoadCommand>
        ensures { YieldsFirstBy command_of readable_commands_left self.old result self.new }
    {
        if self.count == 0 {
            return None;
        }
        match LoadCommand::parse(self.bytes, &mut self.place, self.le) {
            Ok(command) => {
                self.count -= 1;
                Some(command)
            }
            Err(_) => {
                self.count = 0;
                None
            }
        }
    }

    /// The same for callers that read its fields: most commands are read in place.
    #[inline(always)]
    pub fn next_in_place(&mut self) -> Option<LoadCommand>
        ensures { YieldsFirstBy command_of readable_commands_left self.old result self.new }
    {
        if self.count == 0 {
            return None;
        }
        match LoadCommand::quick(self.bytes, &mut self.place, self.le) {
            Some(command) => {
                self.count -= 1;
                Some(command)
            }
            None => self.next_command(),
        }
    }
}

/// A load command: its record is `size` bytes at `offset`.
#[derive(Clone, Copy)]
#[repr(C)]
pub struct gm_command {
    pub offset: usize,
    pub size: usize,
    pub cmd: u32,
    pub reserved: u32,
}

impl<'a> Rows for Commands<'a> {
    type Row = gm_command;

    ghost left = { λ it. map command_row (readable_commands_left it) };

    fn next(&mut self) -> Option<gm_command> {
        let command = self.next_command()?;
        Some(gm_command {
            offset: command.offset,
            size: command.command.cmdsize(),
            cmd: command.command.cmd(),
            reserved: 0,
        })
    }
}

/// Writes the commands of an image from index `first` on, as many as there are and fit, and returns how many. None follows the
/// first that can't be read.
#[unsafe(no_mangle)]
pub extern "C" fn gmr_commands(
    bytes: &[u8],
    image: &gm_image,
    first: usize,
    out: &mut [gm_command],
) -> usize
    ensures { Fills (drop first (gm_command_rows_view bytes.now image.now)) out.old out.new result }
{
    let mut commands = Commands::of(bytes, image);
    skip(&mut commands, first);
    fill(&mut commands, out)
}
