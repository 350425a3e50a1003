//! Branches that lead nowhere: for each place, a number of them that certainly follow each other from there.
//!
//! No known linker writes a list of such branches. When the first one is met, the whole trie is scanned once, backwards.
//! Each further list is then known by its count and the place of its first branch, and isn't read. That holds too if nodes
//! share a list, or lists begin within each other.

ghost use Rattle.std.specs.Prelude.{◌≡◌, ◌≢◌, ◌≤◌, ◌<◌, ◌+◌, ◌^◌, ℕ, max, true, List, length, get_or, nat_le, [], IfSome, OnOk};
ghost use Rattle.mach_dyld.specs.Nodes.{branches_at};
ghost use Rattle.mach_dyld.specs.Nowhere.{is_barren, AreBarren, HaveRoom, AreKept, LeadsNowhere};
ghost use Rattle.mach_dyld.specs.Tails.{IsTail};

use crate::trie::node::BranchRun;
use crate::trie::walk::Source;
use mach_base::quick_uleb;
use std::alloc::{AllocError, Allocator, Global};
use std::marker::Model;

/// For each place of some bytes, a number of branches that lead nowhere and follow each other from there; for no place until
/// the first such list is recorded.
#[derive(Drop)]
pub struct Runs<A: Allocator = Global> {
    known: Vec<u32, A>,
}

/// The number at each place.
impl<A: Allocator> Model for Runs<A> {
    ghost Value = { List ℕ };

    ghost view = { λ r. r.known.items };
}

// What follows a place, as far as the backward scan knows it.
#[derive(Clone, Copy)]
struct Tail {
    /// The first zero byte, where a label ends, or the end of the bytes.
    end: usize,
    /// The first place from which on the bytes up to `end` are UTF-8.
    low: usize,
    /// The place after the child's number there, if that child leads nowhere.
    after: Option<usize>,
}

// Returns the place after a branch whose label ends at a place, if the branch leads nowhere.
fn after_label(source: &Source<'_, '_>, end: usize) -> Option<usize>
    requires { end < length source.now.bytes.now }
    ensures { IfSome result (LeadsNowhere source.now end) }
{
    let (offset, after) = quick_uleb(source.bytes, end + 1)?;
    let start = source.from.checked_add(offset as usize)?;
    if start < source.upto {
        return None;
    }
    Some(after)
}

impl Tail {
    // Returns the tail of the place before.
    fn back(self, source: &Source<'_, '_>, place: usize) -> Tail
        requires inside { place < length source.now.bytes.now }
        requires tail { IsTail source.now (place + 1) self }
        ensures { IsTail source.now place result }
    {
        if source.bytes[place] == 0 {
            return Tail {
                end: place,
                low: place,
                after: after_label(source, place),
            };
        }
        if self.low - place <= 4 && str::from_utf8(&source.bytes[place..self.low]).is_ok() {
            return Tail { low: place, ..self };
        }
        self
    }
}

impl<A: Allocator> Runs<A> {
    /// Returns the state in which nothing is known.
    pub fn new(alloc: A) -> Self
        ensures { result ≡ [] }
    {
        Runs {
            known: Vec::new(alloc),
        }
    }

    // Returns how many are known at a place.
    #[inline(always)]
    fn at(&self, place: usize) -> usize
        ensures value { result ≡ get_or self.now place 0 }
        ensures small { result < 2 ^ 32 }
    {
        if place < self.known.len() {
            self.known[place] as usize
        } else {
            0
        }
    }

    /// Whether all branches of the run are known to lead nowhere.
    #[inline(always)]
    pub fn know(&self, run: BranchRun) -> bool
        ensures { result ≡ nat_le run.left (get_or self.now run.place 0) }
    {
        run.left <= self.at(run.place)
    }

    // Returns how many branches lead nowhere from a place on, by what follows it and what is known of that.
    fn count_at(&self, source: &Source<'_, '_>, tail: Tail, place: usize) -> usize
        requires tail { IsTail source.now place tail }
        requires barren { AreBarren source.now self.now }
        ensures { is_barren source.now.upto (branches_at source.now.bytes.now source.now.from result place) ≡ true }
    {
        if tail.low != place {
            return 0;
        }
        match tail.after {
            Some(after) => self.at(after).saturating_add(1),
            None => 0,
        }
    }

    // Records that `count` branches lead nowhere from a place on.
    fn raise(&mut self, place: usize, count: usize)
        ensures kept { AreKept self.old self.new }
        ensures raised { place < length self.old → count < 2 ^ 32 → count ≤ get_or self.new place 0 }
        ensures here { get_or self.new place 0 ≤ max count (get_or self.old place 0) }
        ensures others { (other : ℕ) → other ≢ place → get_or self.new other 0 ≡ get_or self.old other 0 }
        ensures len { length self.new ≡ length self.old }
    {
        if place < self.known.len() && self.at(place) < count {
            self.known[place] = count.min(u32::MAX as usize) as u32;
        }
    }

    // Scans all places of a trie backwards, if nothing is known yet.
    fn fill(&mut self, source: &Source<'_, '_>) -> Result<(), AllocError>
        requires barren { AreBarren source.now self.old }
        requires room { HaveRoom source.now self.old }
        ensures barren { OnOk result (AreBarren source.now self.new) }
        ensures room { OnOk result (length self.new ≡ length source.now.bytes.now) }
        ensures kept { OnOk result (AreKept self.old self.new) }
    {
        if !self.known.is_empty() {
            return Ok(());
        }
        let len = source.bytes.len();
        self.known.resize(len, 0)?;
        let mut tail = Tail {
            end: len,
            low: len,
            after: None,
        };
        for done in 0..len.saturating_sub(source.from) {
            let place = len - done - 1;
            tail = tail.back(source, place);
            let count = self.count_at(source, tail, place);
            self.raise(place, count);
        }
        Ok(())
    }

    /// Records branches that lead nowhere. The first time, it scans all places of the trie.
    #[cold]
    #[inline(never)]
    pub fn learn(&mut self, source: &Source<'_, '_>, run: BranchRun) -> Result<(), AllocError>
        requires barren { AreBarren source.now self.old }
        requires room { HaveRoom source.now self.old }
        requires nowhere { is_barren source.now.upto (branches_at source.now.bytes.now source.now.from run.left run.place) ≡ true }
        requires few { run.left ≤ length source.now.bytes.now }
        ensures barren { OnOk result (AreBarren source.now self.new) }
        ensures room { OnOk result (HaveRoom source.now self.new) }
        ensures kept { OnOk result (AreKept self.old self.new) }
        ensures learned { OnOk result (length source.now.bytes.now < 2 ^ 32 → run.left ≤ get_or self.new run.place 0) }
    {
        self.fill(source)?;
        self.raise(run.place, run.left);
        Ok(())
    }
}
