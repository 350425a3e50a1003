//! The exports of a trie one at a time.

ghost use Rattle.std.specs.Prelude.{◌≡◌, ℕ, List, [], IsNone};
ghost use Rattle.mach_dyld.specs.Trie.{Entry};
ghost use Rattle.mach_dyld.specs.Lists.{ListBegins};
ghost use Rattle.mach_dyld.specs.TrieRange.{TrieRange, trie_there};
ghost use Rattle.mach_dyld.specs.WalkState.{IsWalk};

use crate::export_info::ExportInfo;
use crate::trie::walk::Walker;
use mach_base::{Result, Steps};
use std::alloc::{Allocator, Global};

/// A walk over the exports of a trie, depth first: each node's own export before those of its children. Its memory is one
/// bit for each byte of the trie, a stack of the open nodes, and one name. When it meets the first list of branches that all
/// lead nowhere, it also takes four bytes for each byte of the trie, and from then on skips the lists that it knows. No
/// known linker writes such a list.
#[derive(Drop)]
pub struct ExportWalk<'a, 'b, A: Allocator = Global> {
    pub(crate) walker: Walker<'a, 'b, A>,
    ghost is_walk: { IsWalk walker },
}

impl<'a, 'b, A: Allocator> ExportWalk<'a, 'b, A> {
    ghost use Rattle.std.specs.Prelude.{⊤};
    ghost use Rattle.std.specs.Borrow.{sem};
    ghost use Rattle.mach_dyld.specs.contracts.export_walk.ExportWalk.{the_row};
    ghost use Rattle.mach_dyld.specs.Walks.{HasGiven, GivesNoMore, SaysOfTrie, SaysWhereItEnds, GoesOn, GoesOnCounted};
    ghost use mathlib.Core.Option.{none};
    ghost use denote.Follow.{follows_so};
    ghost use mir.Syntax.{named};

    /// Returns the next export: its name, lent until the next call, and its meaning. If the trie has no list of exports, an
    /// error ends the walk. After the end it returns None.
    #[inline(always)]
    pub fn next(&mut self) -> Option<Result<(&str, ExportInfo<'a>)>>
        ensures says { (t : TrieRange) (libs : List (List ℕ)) (found : List Entry) → HasGiven t libs found self.old
            → SaysOfTrie t libs found result }
        ensures cut { (t : TrieRange) (libs : List (List ℕ)) (found : List Entry) → HasGiven t libs found self.old
            → SaysWhereItEnds t libs found result }
        ensures started { (t : TrieRange) (libs : List (List ℕ)) (found : List Entry) → HasGiven t libs found self.old
            → ListBegins (trie_there t libs) t.from [] found }
        ensures over { GivesNoMore self.old → IsNone result }
        ensures* goes_on { sem 𝓛 (follows_so
            (the_row (record { mir = named 1; lft = [] }) (record { mir = named 2; lft = [] }) A.row A.Allocator)
            (the_row (record { mir = named 1; lft = [] }) (record { mir = named 2; lft = [] }) A.row A.Allocator)
            self.entry.ghost_name none (λ _ _. ⊤) (GoesOn self.old result)) }
    {
        self.next_counted(&mut Steps::new())
    }

    /// Like `next`, and adds the number of nodes visited to `steps`: over all calls at most one for each byte of the trie.
    #[inline(always)]
    pub fn next_counted(&mut self, steps: &mut Steps) -> Option<Result<(&str, ExportInfo<'a>)>>
        ensures says { (t : TrieRange) (libs : List (List ℕ)) (found : List Entry) → HasGiven t libs found self.old
            → SaysOfTrie t libs found result }
        ensures cut { (t : TrieRange) (libs : List (List ℕ)) (found : List Entry) → HasGiven t libs found self.old
            → SaysWhereItEnds t libs found result }
        ensures started { (t : TrieRange) (libs : List (List ℕ)) (found : List Entry) → HasGiven t libs found self.old
            → ListBegins (trie_there t libs) t.from [] found }
        ensures over { GivesNoMore self.old → IsNone result }
        ensures* goes_on { sem 𝓛 (follows_so
            (the_row (record { mir = named 1; lft = [] }) (record { mir = named 2; lft = [] }) A.row A.Allocator)
            (the_row (record { mir = named 1; lft = [] }) (record { mir = named 2; lft = [] }) A.row A.Allocator)
            self.entry.ghost_name none (λ _ _. ⊤) (GoesOnCounted self.old result steps.old steps.new)) }
    {
        match self.walker.step(steps) {
            None => None,
            Some(Err(e)) => Some(Err(e)),
            Some(Ok(info)) => Some(Ok((self.walker.name(), info))),
        }
    }
}
