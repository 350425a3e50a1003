//! What was looked up already, so that nothing is looked up twice.

ghost use Rattle.std.specs.Prelude.{List};
ghost use Rattle.mach_resolve.specs.Files.{File};
ghost use Rattle.mach_resolve.specs.Kept.{KeepsAnswers};

use crate::follow::{NamePlace, Symbol};
use crate::reexports::Met;
use indexmap::IndexMap;
use std::alloc::Allocator;
use std::hash::{BuildHasherDefault, FoldHasher};

/// What was looked up already.
#[derive(Drop)]
pub struct Kept<'a, A: Allocator> {
    /// The closures of libraries, by their names.
    pub closures: IndexMap<&'a str, Met<'a, A>, BuildHasherDefault<FoldHasher>, A>,
    /// The places of symbols.
    pub places: IndexMap<Symbol<'a>, NamePlace<'a>, BuildHasherDefault<FoldHasher>, A>,
    /// The places of names that any file may provide.
    pub flat: IndexMap<&'a str, NamePlace<'a>, BuildHasherDefault<FoldHasher>, A>,
    /// The places of names that any file may define, by weak lookups.
    pub weak: IndexMap<&'a str, NamePlace<'a>, BuildHasherDefault<FoldHasher>, A>,
}

impl<'a, A: Allocator + Copy> Kept<'a, A> {
    /// Returns what is known before anything was looked up: nothing.
    pub fn nothing(alloc: A) -> Kept<'a, A>
        ensures { (files : List File) → KeepsAnswers files result }
    {
        Kept {
            closures: IndexMap::new(alloc),
            places: IndexMap::new(alloc),
            flat: IndexMap::new(alloc),
            weak: IndexMap::new(alloc),
        }
    }
}
