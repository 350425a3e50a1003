//! Libraries that are not used, and why.

ghost use Rattle.std.specs.Prelude.{◌≡◌, map, OnOk};
ghost use Rattle.mach_resolve.specs.Note.{all_noted};
ghost use Rattle.mach_resolve.specs.ResolveViews.{note_view_of};

use indexmap::IndexSet;
use std::alloc::{AllocFailed, Allocator};
use std::hash::{BuildHasherDefault, FoldHasher};

/// Why a library, by its number, is not used.
#[derive(Clone, Copy, Debug, PartialEq, Eq, Hash)]
pub enum Note<'a> {
    /// A file with its name was given before it.
    GivenBefore {
        /// The library's number: the first that is given is 1.
        library: usize,
        /// The name of both.
        name: &'a str,
    },
    /// It has nothing for a cpu.
    NothingFor {
        /// The library's number: the first that is given is 1.
        library: usize,
        /// The number of the cpu (`CPU_TYPE_`).
        cputype: u32,
    },
}

/// Notes, each once, in the order in which they were first made.
pub type Notes<'a, A> = IndexSet<Note<'a>, BuildHasherDefault<FoldHasher>, A>;

/// Adds some notes, but for those that are there already.
pub fn note_all<'a, A: Allocator + Copy>(
    noted: &mut Notes<'a, A>,
    notes: &[Note<'a>],
) -> Result<(), AllocFailed<Note<'a>>>
    ensures { OnOk result (map note_view_of noted.new.keys ≡ all_noted (map note_view_of noted.old.keys) (map note_view_of notes.now)) }
{
    'notes: for note in notes {
        noted.insert(*note)?;
    }
    Ok(())
}
