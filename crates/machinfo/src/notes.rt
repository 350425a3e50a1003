//! The notes of an image with the numbers of their commands.

ghost use Rattle.std.specs.Prelude.{◌≡◌, option_map};
ghost use Rattle.std.specs.Iterator.{YieldsFirstBy};
ghost use Rattle.goblin_mach.specs.OpenImage.{bytes_view, commands_view};
ghost use Rattle.mach_load.specs.Variants.{command_of};
ghost use Rattle.machinfo.specs.NumberedNotes as defined;
ghost use Rattle.machinfo.specs.NumberedNotes.{note_place_of, numbered_notes_from, notes_numbered_left, numbered_note_read};

use goblin_mach::load_command::{CommandVariant, LoadCommand};
use goblin_mach::{MachO, Note, NoteIterator, Result};
use std::alloc::Allocator;

/// A note, and where it comes from.
#[derive(Clone, Copy)]
pub struct NumberedNote<'a> {
    /// The number of its command.
    pub number: usize,
    /// The offset of its bytes in the file.
    pub place: u64,
    /// The note itself.
    pub note: Note<'a>,
}

/// The notes of the commands from a number on.
#[derive(Clone, Copy)]
pub struct NumberedNotes<'a, 'b> {
    /// The bytes that hold the commands.
    pub bytes: &'a [u8],
    /// The commands.
    pub commands: &'b [LoadCommand],
    /// The number of the next one.
    pub number: usize,
}

// Returns the offset of the bytes of a command's note, 0 if it is no note.
fn place_of(command: &LoadCommand) -> u64
    ensures { result ≡ note_place_of (command_of command.now) }
{
    match &command.command {
        CommandVariant::Note(c) => c.offset,
        _ => 0,
    }
}

// Returns the note of the command with this number, if it is one.
fn noted_by<'a>(
    bytes: &'a [u8],
    number: usize,
    command: &LoadCommand,
) -> Option<Result<NumberedNote<'a>>>
    ensures { option_map numbered_note_read result ≡ defined.noted_by bytes.now number (command_of command.now) }
{
    match NoteIterator::new(bytes, &[*command]).next()? {
        Ok(note) => {
            let place = place_of(command);
            Some(Ok(NumberedNote {
                number,
                place,
                note,
            }))
        }
        Err(error) => Some(Err(error)),
    }
}

impl<'a, 'b> NumberedNotes<'a, 'b> {
    /// Returns the notes of an image.
    pub fn of<A: Allocator>(image: &'b MachO<'a, A>) -> Self
        ensures { notes_numbered_left result ≡ numbered_notes_from (bytes_view image.now) 0 (commands_view image.now) }
    {
        NumberedNotes {
            bytes: image.bytes(),
            commands: image.load_commands.as_slice(),
            number: 0,
        }
    }

    /// Returns the next note, or the error if it can't be read.
    pub fn take_next(&mut self) -> Option<Result<NumberedNote<'a>>>
        ensures { YieldsFirstBy numbered_note_read notes_numbered_left self.old result self.new }
    {
        'commands: while let Some(command) = self.commands.get(self.number) {
            let number = self.number;
            self.number = number + 1;
            if let Some(note) = noted_by(self.bytes, number, command) {
                return Some(note);
            }
        }
        None
    }
}
