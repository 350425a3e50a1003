//! The chained fixups of an image: the place that its commands give, their base address, and the fixups one at a time.

ghost use Rattle.std.specs.Prelude.{◌≡◌, ◌∷◌, ℕ, [], Err, map, option_map};
ghost use Rattle.std.specs.Iterator.{YieldsFirstBy};
ghost use Rattle.mach_base.specs.Answer.{Reads};
ghost use Rattle.mach_base.specs.Fault.{fault_of};
ghost use Rattle.mach_load.specs.Variants.{command_of};
ghost use Rattle.mach_parts.specs.Segment.{segment_view};
ghost use Rattle.mach_chained.specs.FixupsLeft as walk;
ghost use Rattle.mach_chained.specs.WalkViews.{fixup_read};
ghost use Rattle.goblin_mach.specs.Fixups as defined;
ghost use Rattle.goblin_mach.specs.Fixups.{chained_place_by, chained_place_in, chained_at, chained_option_view};
ghost use Rattle.goblin_mach.specs.FixupsLeft.{image_fixups_left};
ghost use Rattle.goblin_mach.specs.Readings.{read_of, last_of};

use crate::entry::is_text;
use crate::readings::{Subject, put_readable};
use mach_base::{Endian, Error, Result};
use mach_chained::{ChainedFixups, Fixup};
use mach_load::{CommandVariant, LoadCommand};
use mach_parts::segment::Segment;
use mach_records::LinkeditDataCommand;

/// The commands that place the data of chained fixups.
#[derive(Clone, Copy)]
pub struct ChainedPlaces;

impl Subject for ChainedPlaces {
    type Value = LinkeditDataCommand;

    ghost Seen = { ℕ × ℕ };

    ghost seen = { λ c. (c.dataoff, c.datasize) };

    ghost reading = { λ _. chained_place_by };

    /// Reads the command. It never fails.
    fn read(&self, command: &LoadCommand) -> Option<Result<LinkeditDataCommand>> {
        match &command.command {
            CommandVariant::DyldChainedFixups(c) => Some(Ok(*c)),
            _ => None,
        }
    }
}

/// Returns what the last readable command on a subject says.
pub fn last_readable<S: Subject>(subject: &S, commands: &[LoadCommand]) -> Option<S::Value>
    ensures { option_map S.seen result ≡ last_of (read_of (S.reading subject.now) (map command_of commands.now)) }
{
    let mut last = None;
    for command in commands {
        put_readable(&mut last, subject, command);
    }
    last
}

/// Returns the place and the size of the data that the last such command names, if there is one.
pub fn chained_place(commands: &[LoadCommand]) -> Option<(u32, u32)>
    ensures { result ≡ chained_place_in (map command_of commands.now) }
{
    let place = last_readable(&ChainedPlaces, commands)?;
    Some((place.dataoff, place.datasize))
}

/// Returns the chained fixups that the last such command names, if there is one.
pub fn chained_fixups<'a>(
    bytes: &'a [u8],
    le: Endian,
    commands: &[LoadCommand],
) -> Result<Option<ChainedFixups<'a>>>
    ensures { Reads chained_option_view result (chained_at le bytes.now (chained_place_in (map command_of commands.now))) }
{
    let Some(command) = last_readable(&ChainedPlaces, commands) else {
        return Ok(None);
    };
    let found = ChainedFixups::parse(bytes, &command, le)?;
    Ok(Some(found))
}

/// Returns the address of an image's first byte in memory: that of its first segment named `__TEXT`, or 0.
pub fn base_of(segments: &[Segment<'_>]) -> u64
    ensures { result ≡ defined.base_of (map segment_view segments.now) }
{
    for segment in segments {
        if is_text(&segment.segname) {
            return segment.vmaddr;
        }
    }
    0
}

/// An iterator over the fixups of an image: by segments, by pages and along the chains. The first fault is its last item. It
/// allocates nothing.
#[derive(Drop)]
pub struct FixupIterator<'a, 'b> {
    // The error of the fixups' header, until it is returned.
    refusal: Option<Error>,
    chains: mach_chained::FixupIterator<'a, 'b>,
}

impl<'a, 'b> FixupIterator<'a, 'b> {
    /// Returns the fixups of the chains.
    #[tactic(auto, unfolding(crate::specs::FixupsLeft::image_fixups_left))]
    pub(crate) fn over(chains: mach_chained::FixupIterator<'a, 'b>) -> Self
        ensures { image_fixups_left result ≡ walk.fixups_left chains.entry }
    {
        FixupIterator {
            refusal: None,
            chains,
        }
    }

    /// Returns an iterator with only an error.
    #[tactic(auto, unfolding(crate::specs::FixupsLeft::image_fixups_left))]
    pub(crate) fn refused(error: Error) -> Self
        ensures { image_fixups_left result ≡ Err (fault_of error) ∷ [] }
    {
        FixupIterator {
            refusal: Some(error),
            chains: mach_chained::FixupIterator::default(),
        }
    }

    // Returns the next fixup, or an error.
    #[tactic(auto, unfolding(crate::specs::FixupsLeft::image_fixups_left))]
    #[inline(always)]
    fn step(&mut self) -> Option<Result<Fixup>>
        ensures { YieldsFirstBy fixup_read image_fixups_left self.old result self.new }
    {
        if let Some(error) = self.refusal.take() {
            return Some(Err(error));
        }
        self.chains.next()
    }
}

impl<'a, 'b> Iterator for FixupIterator<'a, 'b> {
    type Item = Result<Fixup>;

    ghost use Rattle.std.specs.Iterator.{item_count};

    ghost next_gives = { YieldsFirstBy fixup_read image_fixups_left };

    ghost remaining = { item_count image_fixups_left };

    #[inline(always)]
    fn next(&mut self) -> Option<Result<Fixup>> {
        self.step()
    }
}

impl<'a, 'b> Default for FixupIterator<'a, 'b> {
    ghost is_default = { λ it. image_fixups_left it ≡ [] };

    /// Returns an iterator without fixups.
    fn default() -> Self {
        FixupIterator::over(mach_chained::FixupIterator::default())
    }
}
