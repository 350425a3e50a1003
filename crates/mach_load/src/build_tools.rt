//! The tools that an image was built with (`LC_BUILD_VERSION`).

ghost use Rattle.std.specs.Prelude.{◌≡◌, ◌≤◌, [], map};
ghost use Rattle.mach_base.specs.Answer.{Reads};
ghost use Rattle.mach_load.specs.Variants.{command_of};
ghost use Rattle.mach_load.specs.BuildTools as defined;
ghost use Rattle.mach_load.specs.BuildTools.{tool_count, tool_table, build_tools_in};
ghost use Rattle.mach_load.specs.TablesLeft.{tools_view, build_tool_read, build_tools_left};

use crate::load_command::LoadCommand;
use crate::variant::CommandVariant;
use mach_base::{ByteCount, Endian, Error, LE, Record, Result};
use mach_records::{BuildToolVersion, BuildVersionCommand};
use std::fmt;

// The tools of one command, and how many of them were already returned.
#[derive(Clone, Copy, Default)]
struct Tools {
    // The place and the size of the command.
    place: usize,
    size: usize,
    index: u32,
    count: u32,
}

// Returns how many tools a command claims to have.
#[inline(always)]
fn tool_count(command: &LoadCommand) -> u32
    ensures { let c = command_of command.now in result ≡ tool_count c.kind c.values }
{
    match &command.command {
        CommandVariant::BuildVersion(c) => c.ntools,
        _ => 0,
    }
}

impl Tools {
    // Returns the tools of a command. A command of another kind has none.
    fn of(command: &LoadCommand) -> Self
        ensures table { tools_view result ≡ tool_table (command_of command.now) }
        ensures first { result.index ≡ 0 }
    {
        Tools {
            place: command.offset,
            size: command.command.cmdsize(),
            index: 0,
            count: tool_count(command),
        }
    }

    // Reads the next tool.
    #[tactic(auto, unfolding(crate::specs::BuildTools::tool_at))]
    #[inline(always)]
    fn read(self, bytes: &[u8], le: Endian) -> Result<BuildToolVersion>
        ensures { Reads (λ tool. tool) result (defined.tool_at le bytes.now (tools_view self) self.index) }
    {
        let following = BuildVersionCommand::SIZE + self.index as usize * BuildToolVersion::SIZE;
        if following + BuildToolVersion::SIZE > self.size {
            return Err(Error::Malformed("a build tool runs past its command"));
        }
        BuildToolVersion::read(bytes, self.place.saturating_add(following), le)
    }
}

/// An iterator over the tools of some commands, in order, each with the number of its
/// command. It ends at the first tool that does not lie inside its command, after that error.
#[derive(Clone, Copy)]
pub struct BuildToolIterator<'a, 'b> {
    bytes: &'a [u8],
    le: Endian,
    commands: &'b [LoadCommand],
    // The number of the next command.
    next: usize,
    // The tools of the command before it, and its number.
    tools: Tools,
    number: usize,
}

impl<'a, 'b> BuildToolIterator<'a, 'b> {
    /// Builds an iterator over the tools of these commands of the image `bytes`. Commands other than `LC_BUILD_VERSION` have none.
    pub fn new(bytes: &'a [u8], commands: &'b [LoadCommand], le: Endian) -> Self
        ensures { build_tools_left result ≡ build_tools_in le bytes.now (map command_of commands.now) }
    {
        BuildToolIterator {
            bytes,
            le,
            commands,
            next: 0,
            tools: Tools::default(),
            number: 0,
        }
    }

    // Goes on to the next command that has tools if the current one has none left.
    fn seek(&mut self)
        ensures same { build_tools_left self.new ≡ build_tools_left self.old }
        ensures ended { self.new.tools.count ≤ self.new.tools.index → build_tools_left self.new ≡ [] }
    {
        'commands: while self.tools.index >= self.tools.count && self.next < self.commands.len() {
            self.tools = Tools::of(&self.commands[self.next]);
            self.number = self.next;
            self.next += 1;
        }
    }
}

impl<'a, 'b> Iterator for BuildToolIterator<'a, 'b> {
    type Item = Result<(usize, BuildToolVersion)>;

    ghost use Rattle.std.specs.Iterator.{YieldsFirstBy, item_count};

    ghost next_gives = { YieldsFirstBy build_tool_read build_tools_left };

    ghost remaining = { item_count build_tools_left };

    fn next(&mut self) -> Option<Result<(usize, BuildToolVersion)>> {
        self.seek();
        if self.tools.index >= self.tools.count {
            return None;
        }
        match self.tools.read(self.bytes, self.le) {
            Ok(tool) => {
                self.tools.index += 1;
                Some(Ok((self.number, tool)))
            }
            Err(e) => {
                self.tools.count = 0;
                self.next = self.commands.len();
                Some(Err(e))
            }
        }
    }
}

impl<'a, 'b> Default for BuildToolIterator<'a, 'b> {
    ghost is_default = { λ it. build_tools_left it ≡ [] };

    /// Returns an iterator without tools.
    fn default() -> Self {
        BuildToolIterator::new(&[], &[], LE)
    }
}

impl fmt::Debug for BuildToolIterator<'_, '_> {
    /// Prints how far it has come, with the number of bytes instead of the bytes.
    fn fmt<W: fmt::Write>(&self, f: &mut fmt::Formatter<W>) -> fmt::Result {
        f.debug_struct("BuildToolIterator")
            .field("bytes", &ByteCount(self.bytes))
            .field("commands", &self.commands.len())
            .field("next", &self.next)
            .field("index", &self.tools.index)
            .field("count", &self.tools.count)
            .finish()
    }
}
