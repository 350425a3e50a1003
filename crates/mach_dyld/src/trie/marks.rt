//! Marks of places, one bit each.

ghost use Rattle.std.specs.Prelude.{◌≡◌, ◌≤◌, ◌<◌, ◌*◌, Bool, false, true, List, length, get_or, set, replicate, IfOk, OnOk};
ghost use Rattle.mach_dyld.specs.Marks.{marks_of};

use std::alloc::{AllocError, Allocator, Global};
use std::marker::Model;

/// The set of marked places: place p is bit p % 64 of word p / 64.
#[derive(Drop)]
pub struct Marks<A: Allocator = Global> {
    words: Vec<u64, A>,
    len: usize,
}

/// For each place, whether it is marked.
impl<A: Allocator> Model for Marks<A> {
    ghost Value = { List Bool };

    ghost view = { λ m. marks_of m.words.items m.len };

    ghost invariant = { λ m. m.len ≤ 64 * length m.words.items };
}

impl<A: Allocator> Marks<A> {
    /// Returns marks for `len` places, none of which is marked.
    pub fn new(alloc: A, len: usize) -> Result<Self, AllocError>
        ensures { IfOk result (λ m. m ≡ replicate len false) }
    {
        let words = vec![in alloc; 0; len.div_ceil(64)]?;
        Ok(Marks { words, len })
    }

    /// Whether a place is marked.
    #[inline(always)]
    pub fn is_marked(&self, at: usize) -> bool
        requires { at < length self.now }
        ensures { result ≡ get_or self.now at false }
    {
        self.words[at / 64] & (1 << (at % 64)) != 0
    }

    /// Marks one place.
    #[inline(always)]
    pub fn mark(&mut self, at: usize)
        requires { at < length self.old }
        ensures { self.new ≡ set self.old at true }
    {
        self.words[at / 64] |= 1 << (at % 64);
    }
}
