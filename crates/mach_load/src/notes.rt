//! Notes: bytes that belong to some tool (`LC_NOTE`).

ghost use Rattle.std.specs.Prelude.{◌≡◌, ◌∷◌, [], map, option_map};
ghost use Rattle.mach_base.specs.Answer.{Reads};
ghost use Rattle.mach_load.specs.Variants.{command_of};
ghost use Rattle.mach_load.specs.Notes as defined;
ghost use Rattle.mach_load.specs.Notes.{note_owner_at, note_bytes, note_range, notes_of_commands};
ghost use Rattle.mach_load.specs.TablesLeft.{note_view, note_read, notes_left};

use crate::load_command::LoadCommand;
use crate::variant::CommandVariant;
use mach_base::{ByteCount, Result, bytes_at, read_text};
use std::fmt;
use std::slice::Iter;

/// Data that a tool has added to the file (struct note_command).
#[derive(Clone, Copy, Debug)]
pub struct Note<'a> {
    /// The tool's name.
    pub owner: &'a str,
    /// Its bytes.
    pub data: &'a [u8],
}

// Returns the place and the size of a command's bytes if it is a note.
#[inline(always)]
fn range_of(command: &LoadCommand) -> Option<(u64, u64)>
    ensures { let c = command_of command.now in result ≡ note_range c.kind c.values }
{
    match &command.command {
        CommandVariant::Note(c) => Some((c.offset, c.size)),
        _ => None,
    }
}

// Reads the owner's name from its 16 bytes.
fn owner_at(bytes: &[u8], place: usize) -> Result<&str>
    ensures { Reads (λ text. text.now) result (note_owner_at bytes.now place) }
{
    read_text(bytes_at(bytes, place, 16)?, 0)
}

// Returns the bytes of a note. The place of an empty one is not tested.
fn bytes_of(bytes: &[u8], offset: u64, size: u64) -> Result<&[u8]>
    ensures { Reads (λ found. found.now) result (note_bytes bytes.now offset size) }
{
    if size == 0 {
        return Ok(&[]);
    }
    bytes_at(bytes, offset as usize, size as usize)
}

// Reads the note of the command at `place`.
#[tactic(auto, unfolding(crate::specs::Notes::note_at))]
fn note_at(bytes: &[u8], place: usize, offset: u64, size: u64) -> Result<Note<'_>>
    ensures { Reads note_view result (defined.note_at bytes.now place offset size) }
{
    let owner = owner_at(bytes, place.saturating_add(8))?;
    let data = bytes_of(bytes, offset, size)?;
    Ok(Note { owner, data })
}

/// An iterator over the notes of some commands, in order. A note that cannot be read is an error, and the iterator goes on.
#[derive(Clone, Drop)]
pub struct NoteIterator<'a, 'b> {
    bytes: &'a [u8],
    commands: Iter<'b, LoadCommand>,
}

impl<'a, 'b> NoteIterator<'a, 'b> {
    /// Builds an iterator over the notes of these commands of the image `bytes`. Commands other than `LC_NOTE` have none.
    pub fn new(bytes: &'a [u8], commands: &'b [LoadCommand]) -> Self
        ensures { notes_left result ≡ notes_of_commands bytes.now (map command_of commands.now) }
    {
        NoteIterator {
            bytes,
            commands: commands.iter(),
        }
    }
}

impl<'a, 'b> Iterator for NoteIterator<'a, 'b> {
    type Item = Result<Note<'a>>;

    ghost use Rattle.std.specs.Iterator.{YieldsFirstBy, item_count};

    ghost next_gives = { YieldsFirstBy note_read notes_left };

    ghost remaining = { item_count notes_left };

    fn next(&mut self) -> Option<Result<Note<'a>>> {
        'commands: loop {
            match self.commands.next() {
                None => return None,
                Some(command) => {
                    if let Some((offset, size)) = range_of(command) {
                        return Some(note_at(self.bytes, command.offset, offset, size));
                    }
                }
            }
        }
    }
}

impl<'a, 'b> Default for NoteIterator<'a, 'b> {
    ghost is_default = { λ it. notes_left it ≡ [] };

    /// Returns an iterator without notes.
    fn default() -> Self {
        NoteIterator::new(&[], &[])
    }
}

impl fmt::Debug for NoteIterator<'_, '_> {
    /// Prints how many commands are left, with the number of bytes instead of the bytes.
    fn fmt<W: fmt::Write>(&self, f: &mut fmt::Formatter<W>) -> fmt::Result {
        f.debug_struct("NoteIterator")
            .field("bytes", &ByteCount(self.bytes))
            .field("commands", &self.commands.len())
            .finish()
    }
}
