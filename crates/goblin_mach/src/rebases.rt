//! What dyld rebases in an image, one rebase at a time.

ghost use Rattle.std.specs.Prelude.{◌≡◌, ◌++◌, [], option_map};
ghost use Rattle.std.specs.Iterator.{YieldsFirstBy};
ghost use Rattle.mach_dyld.specs.Bindings.{upto_fault};
ghost use Rattle.mach_chained.specs.WalkViews.{fixup_view};
ghost use Rattle.mach_dyld.specs.RebasesLeft.{opcode_rebases_left, rebase_read, rebase_view};
ghost use Rattle.goblin_mach.specs.FixupsLeft.{image_fixups_left};
ghost use Rattle.goblin_mach.specs.ImageStreams.{rebase_in, rebase_stream_by, rebases_among};
ghost use Rattle.goblin_mach.specs.RebasesLeft.{chain_rebases_left, all_rebases_left, rebases_left};

use crate::fixups::FixupIterator;
use crate::readings::Subject;
use mach_base::Result;
use mach_chained::{Fixup, FixupKind};
use mach_dyld::{OpcodeRebaseIterator, Rebase, RebaseKind, RebaseStream};
use mach_load::{CommandVariant, LoadCommand};

/// The stream of rebases of the image.
#[derive(Clone, Copy)]
pub struct RebaseStreams<'a> {
    pub bytes: &'a [u8],
}

impl<'a> Subject for RebaseStreams<'a> {
    type Value = RebaseStream<'a>;

    ghost use Rattle.mach_dyld.specs.Cut.{CutStream};

    ghost Seen = { CutStream };

    ghost seen = { λ stream. stream };

    ghost reading = { λ s. rebase_stream_by s.bytes.now };

    /// Reads the command. It never fails.
    fn read(&self, command: &LoadCommand) -> Option<Result<RebaseStream<'a>>> {
        match &command.command {
            CommandVariant::DyldInfo(c) | CommandVariant::DyldInfoOnly(c) => {
                Some(Ok(RebaseStream::new(self.bytes, c)))
            }
            _ => None,
        }
    }
}

// Returns the rebase that a fixup is, if it is one.
#[inline(always)]
fn rebase_of(fixup: &Fixup) -> Option<Rebase>
    ensures { option_map rebase_view result ≡ rebase_in (fixup_view fixup.now) }
{
    match fixup.kind {
        FixupKind::Rebase { target } => Some(Rebase {
            segment: fixup.segment,
            offset: fixup.offset,
            address: fixup.address,
            target,
            kind: RebaseKind::Pointer,
            auth: fixup.auth,
        }),
        FixupKind::Bind { .. } => None,
        FixupKind::Value { .. } => None,
    }
}

/// The rebases among the fixups of an image's chains.
#[derive(Drop)]
pub struct ChainRebases<'a, 'b> {
    fixups: FixupIterator<'a, 'b>,
}

impl<'a, 'b> ChainRebases<'a, 'b> {
    // Returns the next rebase, or an error.
    #[tactic(auto, unfolding(crate::specs::RebasesLeft::chain_rebases_left))]
    #[inline(always)]
    fn step(&mut self) -> Option<Result<Rebase>>
        ensures { YieldsFirstBy rebase_read chain_rebases_left self.old result self.new }
    {
        'fixups: loop {
            let fixup = match self.fixups.next() {
                None => return None,
                Some(Ok(fixup)) => fixup,
                Some(Err(e)) => return Some(Err(e)),
            };
            match rebase_of(&fixup) {
                None => {}
                Some(rebase) => return Some(Ok(rebase)),
            }
        }
    }
}

/// An iterator over the rebases of an image: those of its opcodes, then those of its chains. The first fault is its last
/// item. It allocates nothing.
#[derive(Drop)]
pub struct RebaseIterator<'a, 'b> {
    opcodes: OpcodeRebaseIterator<'a, 'b>,
    chains: ChainRebases<'a, 'b>,
    ended: bool,
}

impl<'a, 'b> RebaseIterator<'a, 'b> {
    /// Returns the rebases of the opcodes, then those among the fixups.
    #[tactic(auto, unfolding(crate::specs::RebasesLeft::rebases_left, crate::specs::RebasesLeft::all_rebases_left, crate::specs::RebasesLeft::chain_rebases_left))]
    pub(crate) fn over(opcodes: OpcodeRebaseIterator<'a, 'b>, fixups: FixupIterator<'a, 'b>) -> Self
        ensures { rebases_left result ≡ upto_fault (opcode_rebases_left opcodes.entry ++ rebases_among (image_fixups_left fixups.entry)) }
    {
        RebaseIterator {
            opcodes,
            chains: ChainRebases { fixups },
            ended: false,
        }
    }

    // Returns the next item, whether or not a fault came before.
    #[tactic(auto, unfolding(crate::specs::RebasesLeft::all_rebases_left))]
    #[inline(always)]
    fn any(&mut self) -> Option<Result<Rebase>>
        ensures items { YieldsFirstBy rebase_read all_rebases_left self.old result self.new }
        ensures ended { self.new.ended ≡ self.old.ended }
    {
        match self.opcodes.next() {
            Some(item) => Some(item),
            None => self.chains.step(),
        }
    }

    // Returns the next item, up to the first fault.
    #[tactic(auto, unfolding(crate::specs::RebasesLeft::rebases_left))]
    #[inline(always)]
    fn step(&mut self) -> Option<Result<Rebase>>
        ensures { YieldsFirstBy rebase_read rebases_left self.old result self.new }
    {
        if self.ended {
            return None;
        }
        match self.any() {
            Some(Ok(rebase)) => Some(Ok(rebase)),
            Some(Err(error)) => {
                self.ended = true;
                Some(Err(error))
            }
            None => None,
        }
    }
}

impl<'a, 'b> Iterator for RebaseIterator<'a, 'b> {
    type Item = Result<Rebase>;

    ghost use Rattle.std.specs.Iterator.{item_count};

    ghost next_gives = { YieldsFirstBy rebase_read rebases_left };

    ghost remaining = { item_count rebases_left };

    #[inline(always)]
    fn next(&mut self) -> Option<Result<Rebase>> {
        self.step()
    }
}

impl<'a, 'b> Default for RebaseIterator<'a, 'b> {
    ghost is_default = { λ it. rebases_left it ≡ [] };

    /// Returns an iterator without rebases.
    #[tactic(auto, unfolding(crate::specs::RebasesLeft::rebases_left))]
    fn default() -> Self {
        RebaseIterator {
            opcodes: OpcodeRebaseIterator::default(),
            chains: ChainRebases {
                fixups: FixupIterator::default(),
            },
            ended: true,
        }
    }
}
