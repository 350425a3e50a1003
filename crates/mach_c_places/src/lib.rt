//! Offsets and lengths for C, which gets no texts: those of the texts of a signature; and positions in weak binds and rebases, as
//! numbers from which the next call goes on.
#![tactic(auto)]

// Positions in an image's streams of opcodes.
pub mod opcode_ranges;
pub mod rebases;
mod walk_numbers;
pub mod weak_binds;

// The offsets of the texts of an image's signature.
mod signature;

// Laws.
pub mod laws;

pub use crate::rebases::RebaseWalk;
pub use crate::signature::{SignedDirectory, signed_directory};
pub use crate::weak_binds::{PlacedWeakBind, WeakBindWalk};
