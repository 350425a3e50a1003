//! The tools that an image was built with, read in place.

ghost use Rattle.std.specs.Prelude.{◌≡◌, ◌-◌, ℕ, drop};
ghost use Rattle.mach_base.specs.Answer.{Reads};
ghost use Rattle.mach_load.specs.Variants.{command_of};
ghost use Rattle.mach_records.specs.declared.versions.BuildToolVersion.{BuildToolVersion};
ghost use Rattle.mach_load.specs.BuildTools as defined;
ghost use Rattle.mach_load.specs.BuildTools.{tool_count, tool_table};
ghost use Rattle.goblin_mach_c.specs.Fill.{Fills};
ghost use Rattle.goblin_mach_c.specs.TableRows.{build_tool_row, build_tool_rows, tools_in_part, tools_of_command, tools_of_part};

use crate::errors::{GM_OK, code_of};
use crate::images::{ctx_of, gm_image};
use crate::listed::{CommandItems, Lists, list_rows};
use crate::rows::{fill, skip};
use mach_base::{Endian, Error, Record, Result};
use mach_load::{CommandVariant, LoadCommand};
use mach_records::{BuildToolVersion, BuildVersionCommand};

/// A tool that an image was built with (struct build_tool_version). If `code` isn't `GM_OK` it can't be read, none follows it,
/// and the rest is 0.
#[derive(Clone, Copy)]
#[repr(C)]
pub struct gm_build_tool {
    /// The offset of its command.
    pub command: usize,
    pub tool: u32,
    pub version: u32,
    pub code: u32,
    pub reserved: u32,
}

// Returns how many tools a command claims.
#[inline(always)]
fn tool_count(command: &LoadCommand) -> u32
    ensures { let c = command_of command.now in result ≡ tool_count c.kind c.values }
{
    match &command.command {
        CommandVariant::BuildVersion(c) => c.ntools,
        _ => 0,
    }
}

// Returns the next tool of a command.
#[tactic(auto, unfolding(mach_load::specs::BuildTools::tool_at))]
#[inline(always)]
fn tool_in(bytes: &[u8], le: Endian, part: CommandItems) -> Result<BuildToolVersion>
    ensures { Reads (λ tool. tool) result (defined.tool_at le bytes.now (tools_in_part part) part.index) }
{
    let following = BuildVersionCommand::SIZE + part.index as usize * BuildToolVersion::SIZE;
    if following + BuildToolVersion::SIZE > part.end {
        return Err(Error::Malformed("a build tool runs past its command"));
    }
    BuildToolVersion::read(bytes, part.place.saturating_add(following), le)
}

// The tools in some bytes.
#[derive(Clone, Copy)]
struct Tools<'a> {
    bytes: &'a [u8],
    le: Endian,
}

impl<'a> Lists for Tools<'a> {
    type Row = gm_build_tool;

    ghost Item = { ℕ × BuildToolVersion };

    ghost lists = { λ s c. tools_of_command s.le s.bytes.now c };

    ghost left = { λ s part. tools_of_part s.le s.bytes.now part };

    ghost shown = { build_tool_row };

    #[inline(always)]
    fn open(&self, command: &LoadCommand) -> CommandItems {
        CommandItems {
            command: command.offset,
            place: command.offset,
            end: command.command.cmdsize(),
            index: 0,
            count: tool_count(command),
        }
    }

    fn next(
        &self,
        part: &mut CommandItems,
    ) -> Option<std::result::Result<gm_build_tool, gm_build_tool>> {
        if part.index >= part.count {
            return None;
        }
        match tool_in(self.bytes, self.le, *part) {
            Ok(found) => {
                part.index += 1;
                Some(Ok(gm_build_tool {
                    command: part.command,
                    tool: found.tool,
                    version: found.version,
                    code: GM_OK,
                    reserved: 0,
                }))
            }
            Err(why) => Some(Err(gm_build_tool {
                command: 0,
                tool: 0,
                version: 0,
                code: code_of(&why),
                reserved: 0,
            })),
        }
    }
}

/// Writes the tools that an image was built with from index `first` on, as many as there are and fit, and returns how many.
#[unsafe(no_mangle)]
pub extern "C" fn gmr_build_tools(
    bytes: &[u8],
    image: &gm_image,
    first: usize,
    out: &mut [gm_build_tool],
) -> usize
    ensures { Fills (drop first (build_tool_rows bytes.now image.now)) out.old out.new result }
{
    let tools = Tools {
        bytes,
        le: ctx_of(image).le,
    };
    let mut rows = list_rows(bytes, image, tools);
    skip(&mut rows, first);
    fill(&mut rows, out)
}
