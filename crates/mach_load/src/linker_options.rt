//! Options for the linker (`LC_LINKER_OPTION`).

ghost use Rattle.std.specs.Prelude.{◌≡◌, ◌+◌, ◌<◌, [], length, map, IfOk};
ghost use Rattle.mach_base.specs.Answer.{Reads};
ghost use Rattle.mach_base.specs.Text.{run_at};
ghost use Rattle.mach_load.specs.Variants.{command_of};
ghost use Rattle.mach_load.specs.LinkerOptions as defined;
ghost use Rattle.mach_load.specs.LinkerOptions.{option_count, option_texts, linker_options_in};
ghost use Rattle.mach_load.specs.TablesLeft.{texts_view, option_read, options_left};

use crate::load_command::LoadCommand;
use crate::prefix::front;
use crate::variant::CommandVariant;
use mach_base::{ByteCount, Error, Result, read_text};
use mach_records::SIZEOF_LINKER_OPTION_COMMAND;
use std::fmt;

// The remaining texts of one command.
#[derive(Clone, Copy)]
struct Texts<'a> {
    // The bytes before the command's end.
    bytes: &'a [u8],
    place: usize,
    count: u32,
}

// Returns how many texts a command claims to have.
#[inline(always)]
fn option_count(command: &LoadCommand) -> u32
    ensures { let c = command_of command.now in result ≡ option_count c.kind c.values }
{
    match &command.command {
        // The number of texts is at the place where other commands of this size hold the place of their data.
        CommandVariant::LinkerOption(c) => c.dataoff,
        _ => 0,
    }
}

// Reads the text at a place. A zero byte must end it before the bytes end.
#[tactic(auto, unfolding(crate::specs::LinkerOptions::option_at))]
#[inline(always)]
fn option_at(bytes: &[u8], place: usize) -> Result<&str>
    ensures text { Reads (λ text. text.now) result (defined.option_at bytes.now place) }
    ensures run { IfOk result (λ text. text.now ≡ run_at bytes.now place) }
    ensures within { IfOk result (λ text. place + length text.now < length bytes.now) }
{
    if place < bytes.len() {
        let text = read_text(bytes, place)?;
        if text.len() < bytes.len() - place {
            return Ok(text);
        }
    }
    Err(Error::Malformed("a linker option runs past its command"))
}

impl<'a> Texts<'a> {
    // Returns the texts of a command. A command of another kind has none.
    fn of(bytes: &'a [u8], command: &LoadCommand) -> Self
        ensures { texts_view result ≡ option_texts bytes.now (command_of command.now) }
    {
        let end = command.offset.saturating_add(command.command.cmdsize());
        Texts {
            bytes: front(bytes, end),
            place: command.offset.saturating_add(SIZEOF_LINKER_OPTION_COMMAND),
            count: option_count(command),
        }
    }
}

/// An iterator over the linker options of some commands, in order, each with the number of its
/// command. It ends at the first option that does not end inside its command, after that error.
#[derive(Clone, Copy)]
pub struct LinkerOptionIterator<'a, 'b> {
    bytes: &'a [u8],
    commands: &'b [LoadCommand],
    // The number of the next command.
    next: usize,
    // The remaining texts of the command before it, and its number.
    texts: Texts<'a>,
    number: usize,
}

impl<'a, 'b> LinkerOptionIterator<'a, 'b> {
    /// Builds an iterator over the options of these commands of the image `bytes`. Commands other than `LC_LINKER_OPTION` have none.
    pub fn new(bytes: &'a [u8], commands: &'b [LoadCommand]) -> Self
        ensures { options_left result ≡ linker_options_in bytes.now (map command_of commands.now) }
    {
        LinkerOptionIterator {
            bytes,
            commands,
            next: 0,
            texts: Texts {
                bytes,
                place: 0,
                count: 0,
            },
            number: 0,
        }
    }

    // Goes on to the next command that has texts if the current one has none left.
    fn seek(&mut self)
        ensures same { options_left self.new ≡ options_left self.old }
        ensures ended { self.new.texts.count ≡ 0 → options_left self.new ≡ [] }
    {
        'commands: while self.texts.count == 0 && self.next < self.commands.len() {
            self.texts = Texts::of(self.bytes, &self.commands[self.next]);
            self.number = self.next;
            self.next += 1;
        }
    }
}

impl<'a, 'b> Iterator for LinkerOptionIterator<'a, 'b> {
    type Item = Result<(usize, &'a str)>;

    ghost use Rattle.std.specs.Iterator.{YieldsFirstBy, item_count};

    ghost next_gives = { YieldsFirstBy option_read options_left };

    ghost remaining = { item_count options_left };

    fn next(&mut self) -> Option<Result<(usize, &'a str)>> {
        self.seek();
        if self.texts.count == 0 {
            return None;
        }
        match option_at(self.texts.bytes, self.texts.place) {
            Ok(text) => {
                self.texts.place += text.len() + 1;
                self.texts.count -= 1;
                Some(Ok((self.number, text)))
            }
            Err(e) => {
                self.texts.count = 0;
                self.next = self.commands.len();
                Some(Err(e))
            }
        }
    }
}

impl<'a, 'b> Default for LinkerOptionIterator<'a, 'b> {
    ghost is_default = { λ it. options_left it ≡ [] };

    /// Returns an iterator without options.
    fn default() -> Self {
        LinkerOptionIterator::new(&[], &[])
    }
}

impl fmt::Debug for LinkerOptionIterator<'_, '_> {
    /// Prints how far it has come, with the number of bytes instead of the bytes.
    fn fmt<W: fmt::Write>(&self, f: &mut fmt::Formatter<W>) -> fmt::Result {
        f.debug_struct("LinkerOptionIterator")
            .field("bytes", &ByteCount(self.bytes))
            .field("commands", &self.commands.len())
            .field("next", &self.next)
            .field("texts", &self.texts.count)
            .finish()
    }
}
