//! The notes of an image, read in place.

ghost use Rattle.std.specs.Prelude.{◌≡◌, drop};
ghost use Rattle.mach_base.specs.Answer.{Reads};
ghost use Rattle.mach_load.specs.Variants.{command_of};
ghost use Rattle.mach_load.specs.Notes as defined;
ghost use Rattle.mach_load.specs.Notes.{note_bytes, note_owner_at, note_range};
ghost use Rattle.mach_load.specs.TablesLeft.{note_read, note_view};
ghost use Rattle.goblin_mach_c.specs.Fill.{Fills};
ghost use Rattle.goblin_mach_c.specs.TableRows.{note_row, note_row_by, note_rows};

use crate::commands::Commands;
use crate::errors::{GM_OK, code_of};
use crate::images::gm_image;
use crate::picked::{Pick, Picked};
use crate::rows::{fill, skip};
use mach_base::{Result, bytes_at, read_text};
use mach_load::{CommandVariant, LoadCommand, Note};

/// Data of some tool (struct note_command): its owner is `owner_len` bytes at `owner`, and the note is `size` bytes at `place`.
/// If `code` isn't `GM_OK` one of them can't be read, and all but `command` is 0.
#[derive(Clone, Copy)]
#[repr(C)]
pub struct gm_note {
    /// The offset of its command.
    pub command: usize,
    pub owner: usize,
    pub owner_len: usize,
    pub place: u64,
    pub size: usize,
    pub code: u32,
    pub reserved: u32,
}

// Returns the offset and the size of the data that a command places, if it is a note.
#[inline(always)]
fn range_of(command: &LoadCommand) -> Option<(u64, u64)>
    ensures { let c = command_of command.now in result ≡ note_range c.kind c.values }
{
    match &command.command {
        CommandVariant::Note(c) => Some((c.offset, c.size)),
        _ => None,
    }
}

// Reads the owner's name from the 16 bytes at a place.
fn owner_at(bytes: &[u8], place: usize) -> Result<&str>
    ensures { Reads (λ text. text.now) result (note_owner_at bytes.now place) }
{
    read_text(bytes_at(bytes, place, 16)?, 0)
}

// Returns the bytes of a note. An empty one may be placed anywhere.
fn bytes_of(bytes: &[u8], offset: u64, size: u64) -> Result<&[u8]>
    ensures { Reads (λ found. found.now) result (note_bytes bytes.now offset size) }
{
    if size == 0 {
        return Ok(&[]);
    }
    bytes_at(bytes, offset as usize, size as usize)
}

// Reads the note of the command at a place.
#[tactic(auto, unfolding(mach_load::specs::Notes::note_at))]
fn note_at(bytes: &[u8], place: usize, offset: u64, size: u64) -> Result<Note<'_>>
    ensures { Reads note_view result (defined.note_at bytes.now place offset size) }
{
    let owner = owner_at(bytes, place.saturating_add(8))?;
    let data = bytes_of(bytes, offset, size)?;
    Ok(Note { owner, data })
}

// Returns the note of the command at `command`, which gives its data at `place`, or why it can't be read.
fn row_of(command: usize, place: u64, found: &Result<Note<'_>>) -> gm_note
    ensures { result ≡ note_row command place (note_read found.now) }
{
    match found {
        Ok(note) => gm_note {
            command,
            owner: command.saturating_add(8),
            owner_len: note.owner.len(),
            place,
            size: note.data.len(),
            code: GM_OK,
            reserved: 0,
        },
        Err(why) => gm_note {
            command,
            owner: 0,
            owner_len: 0,
            place: 0,
            size: 0,
            code: code_of(why),
            reserved: 0,
        },
    }
}

// The notes in some bytes.
#[derive(Clone, Copy)]
struct Notes<'a> {
    bytes: &'a [u8],
}

impl<'a> Pick for Notes<'a> {
    type Row = gm_note;

    ghost picked = { λ s c. note_row_by s.bytes.now c };

    #[inline(always)]
    fn pick(&self, command: &LoadCommand) -> Option<gm_note> {
        let (offset, size) = range_of(command)?;
        let found = note_at(self.bytes, command.offset, offset, size);
        Some(row_of(command.offset, offset, &found))
    }
}

/// Writes the notes of an image from index `first` on, as many as there are and fit, and returns how many.
#[unsafe(no_mangle)]
pub extern "C" fn gmr_notes(
    bytes: &[u8],
    image: &gm_image,
    first: usize,
    out: &mut [gm_note],
) -> usize
    ensures { Fills (drop first (note_rows bytes.now image.now)) out.old out.new result }
{
    let mut rows = Picked {
        commands: Commands::of(bytes, image),
        what: Notes { bytes },
    };
    skip(&mut rows, first);
    fill(&mut rows, out)
}
