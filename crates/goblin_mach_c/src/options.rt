//! The linker options in an image, read in place.

ghost use Rattle.std.specs.Prelude.{◌≡◌, ◌+◌, ◌<◌, ℕ, List, drop, length, take, IfOk};
ghost use Rattle.mach_base.specs.Answer.{Reads};
ghost use Rattle.mach_base.specs.Text.{run_at};
ghost use Rattle.mach_load.specs.Variants.{command_of};
ghost use Rattle.mach_load.specs.LinkerOptions as defined;
ghost use Rattle.mach_load.specs.LinkerOptions.{option_count};
ghost use Rattle.goblin_mach_c.specs.Fill.{Fills};
ghost use Rattle.goblin_mach_c.specs.TableRows.{linker_option_row, linker_option_rows, options_of_command, options_of_part};

use crate::errors::{GM_OK, code_of};
use crate::images::gm_image;
use crate::listed::{CommandItems, Lists, list_rows};
use crate::rows::{fill, skip};
use mach_base::{Error, Result, read_text};
use mach_load::{CommandVariant, LoadCommand};
use mach_records::SIZEOF_LINKER_OPTION_COMMAND;

/// A linker option (struct linker_option_command): `text_len` bytes at `text`. If `code` isn't `GM_OK` it can't be read, none
/// follows it, and the rest is 0.
#[derive(Clone, Copy)]
#[repr(C)]
pub struct gm_linker_option {
    /// The offset of its command.
    pub command: usize,
    pub text: usize,
    pub text_len: usize,
    pub code: u32,
    pub reserved: u32,
}

// Returns how many texts a command has.
#[inline(always)]
fn option_count(command: &LoadCommand) -> u32
    ensures { let c = command_of command.now in result ≡ option_count c.kind c.values }
{
    match &command.command {
        // The count of texts is where other commands of this size have the offset of their data.
        CommandVariant::LinkerOption(c) => c.dataoff,
        _ => 0,
    }
}

// Returns the bytes before a place; all of them if there are no more.
#[inline(always)]
fn front(bytes: &[u8], end: usize) -> &[u8]
    ensures { result.now ≡ take end bytes.now }
{
    &bytes[..end.min(bytes.len())]
}

// Returns the text at a place. A zero byte must end it before the bytes end.
#[tactic(auto, unfolding(mach_load::specs::LinkerOptions::option_at))]
#[inline(always)]
fn option_at(bytes: &[u8], place: usize) -> Result<&str>
    ensures text { Reads (λ text. text.now) result (defined.option_at bytes.now place) }
    ensures run { IfOk result (λ text. text.now ≡ run_at bytes.now place) }
    ensures within { IfOk result (λ text. place + length text.now < length bytes.now) }
{
    if place < bytes.len() {
        let text = read_text(bytes, place)?;
        if text.len() < bytes.len() - place {
            return Ok(text);
        }
    }
    Err(Error::Malformed("a linker option runs past its command"))
}

// The options in some bytes.
#[derive(Clone, Copy)]
struct Options<'a> {
    bytes: &'a [u8],
}

impl<'a> Lists for Options<'a> {
    type Row = gm_linker_option;

    ghost Item = { ℕ × ℕ × List ℕ };

    ghost lists = { λ s c. options_of_command s.bytes.now c };

    ghost left = { λ s part. options_of_part s.bytes.now part };

    ghost shown = { linker_option_row };

    #[inline(always)]
    fn open(&self, command: &LoadCommand) -> CommandItems {
        CommandItems {
            command: command.offset,
            place: command.offset.saturating_add(SIZEOF_LINKER_OPTION_COMMAND),
            end: command.offset.saturating_add(command.command.cmdsize()),
            index: 0,
            count: option_count(command),
        }
    }

    fn next(
        &self,
        part: &mut CommandItems,
    ) -> Option<std::result::Result<gm_linker_option, gm_linker_option>> {
        if part.count == 0 {
            return None;
        }
        match option_at(front(self.bytes, part.end), part.place) {
            Ok(found) => {
                let (text, text_len) = (part.place, found.len());
                part.place += text_len + 1;
                part.count -= 1;
                Some(Ok(gm_linker_option {
                    command: part.command,
                    text,
                    text_len,
                    code: GM_OK,
                    reserved: 0,
                }))
            }
            Err(why) => Some(Err(gm_linker_option {
                command: 0,
                text: 0,
                text_len: 0,
                code: code_of(&why),
                reserved: 0,
            })),
        }
    }
}

/// Writes the linker options in an image from index `first` on, as many as there are and fit, and returns how many.
#[unsafe(no_mangle)]
pub extern "C" fn gmr_linker_options(
    bytes: &[u8],
    image: &gm_image,
    first: usize,
    out: &mut [gm_linker_option],
) -> usize
    ensures { Fills (drop first (linker_option_rows bytes.now image.now)) out.old out.new result }
{
    let mut rows = list_rows(bytes, image, Options { bytes });
    skip(&mut rows, first);
    fill(&mut rows, out)
}
