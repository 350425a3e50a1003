//! Finds for each binding of a program in which of some libraries its name is found, and at which address: for the binds of its
//! opcodes, and for those of its chains (`resolve`).
//!
//! A program is an image. Of a fat library the first entry for the program's cpu is used. The name of a library is its own
//! (LC_ID_DYLIB), or the name under which it is given if it has none; of several with one name the first is used. Names are
//! compared as texts.
#![tactic(auto)]

// The given files.
mod file;
mod files;
mod inputs;
mod note;

// The place of a name.
mod follow;
mod kept;
mod reexports;
mod special;

// The answers.
mod answers;
mod failure;
mod resolved;

pub use crate::answers::{Answer, all_settled};
pub use crate::failure::ResolveFailure;
pub use crate::follow::NamePlace;
pub use crate::inputs::{Given, archive_error};
pub use crate::note::{Note, Notes, note_all};
pub use crate::resolved::{Resolved, resolve};
