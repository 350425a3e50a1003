//! The files that are searched for names.

ghost use Rattle.std.specs.Prelude.{◌≡◌, map};

use goblin_mach::MachO;
use indexmap::IndexSet;
use std::alloc::Allocator;
use std::hash::{BuildHasherDefault, FoldHasher};

/// A file: an image, under the name by which others refer to it.
#[derive(Drop)]
pub struct File<'a, A: Allocator> {
    /// Its number among the given files, 0 for the program.
    pub number: usize,
    /// Its own name, or its path if it has none.
    pub name: &'a str,
    /// Whether it is a main executable.
    pub is_main: bool,
    /// The libraries that it re-exports as a whole, in order.
    pub reexports: Vec<&'a str, A>,
    pub image: MachO<'a, A>,
}

/// The files, in order, with their names.
#[derive(Drop)]
pub struct Files<'a, A: Allocator> {
    pub items: Vec<File<'a, A>, A>,
    pub names: IndexSet<&'a str, BuildHasherDefault<FoldHasher>, A>,
    ghost named: { map (λ f. f.name.now) items.items ≡ map (λ k. k.now) names.keys },
}
