//! The answers for the bindings of a program: the file in which each name is found, and its address.

ghost use Rattle.std.specs.Prelude.{◌≡◌, ◌≢◌, length, map, IfOk, IfErr};
ghost use Rattle.mach_resolve.specs.Failures.{IsFailure};
ghost use Rattle.mach_resolve.specs.ResolveViews.{answer_view, note_view_of, place_view_of};
ghost use Rattle.goblin_mach_c.specs.Codes.{IsRefusalCode};
ghost use Rattle.goblin_mach_c.specs.ResolveRows.{answer_row, found_address, found_file, is_found_absolute, place_number, refused_in, unused_row};
ghost use Rattle.goblin_mach_c.specs.ResolveRows.{answer_rows_left, unused_rows_left};
ghost use Rattle.goblin_mach_c.specs.ResolveRows.{HasResolved, IsFailureCode, RefusesGiven, WritesAnswers, WritesResolved};

use crate::bindings::numbers_of;
use crate::errors::{GM_OK, gm_error, refuse};
use crate::given_files::{all_given, gm_given_file};
use crate::open::flag;
use crate::rows::{Rows, fill};
use mach_base::Error;
use mach_resolve::{Answer, NamePlace, Note, ResolveFailure, Resolved, all_settled, resolve};
use std::alloc::{AllocError, Allocator, Global};

/// The name is in a file, at an address.
pub const GM_PLACE_FOUND: u32 = 0;

/// Re-exports lead back to a name that was looked up before.
pub const GM_PLACE_LEADS_BACK: u32 = 1;

/// The library isn't among the files.
pub const GM_PLACE_NO_LIBRARY: u32 = 2;

/// Neither the library nor what it re-exports has the name.
pub const GM_PLACE_MISSING: u32 = 3;

/// The same, but one of them re-exports a library that isn't among the files.
pub const GM_PLACE_NOT_GIVEN: u32 = 4;

/// No file has the name.
pub const GM_PLACE_NOT_FOUND: u32 = 5;

/// No file is a main program.
pub const GM_PLACE_NO_MAIN: u32 = 6;

/// A file with its name was given before it.
pub const GM_UNUSED_GIVEN_BEFORE: u32 = 0;

/// It has nothing for the program's cpu.
pub const GM_UNUSED_NOTHING_FOR_CPU: u32 = 1;

/// The answer for a binding.
#[derive(Clone, Copy)]
#[repr(C)]
pub struct gm_answer {
    /// The address of the name: relative to the start of its file, or absolute. It is 0 if the name isn't found.
    pub address: u64,
    /// The number of the file in which it is found, or 0.
    pub file: usize,
    /// The ordinal of the library that provides the name, 0 for other providers.
    pub library: u64,
    /// The provider, by the numbers of a binding.
    pub provider: u32,
    /// The place of the name, or why it has none, by one of the numbers above.
    pub place: u32,
    /// Whether the address is absolute, whether the name may be missing, and whether the binding is settled: 0 or 1 each.
    pub is_absolute: u32,
    pub is_weak: u32,
    pub is_settled: u32,
    pub reserved: u32,
}

/// A file that isn't used.
#[derive(Clone, Copy)]
#[repr(C)]
pub struct gm_unused_file {
    /// The number of the file.
    pub file: usize,
    /// Why, by one of the numbers above.
    pub why: u32,
    /// The program's cpu, if the file has nothing for it, or 0.
    pub cputype: u32,
}

/// What was written for a program, or in which file it was refused.
#[derive(Clone, Copy)]
#[repr(C)]
pub struct gm_resolution {
    /// How many answers were written.
    pub answers: usize,
    /// How many files that aren't used were written, and how many there are.
    pub unused: usize,
    pub all_unused: usize,
    /// The number of the file that was refused, or 0.
    pub file: usize,
    /// Whether there are more bindings, and whether all that were answered are settled: 0 or 1 each.
    pub more: u32,
    pub is_settled: u32,
}

// Returns the number of a place.
fn number_of(place: NamePlace<'_>) -> u32
    ensures { result ≡ place_number (place_view_of place.entry) }
{
    match place {
        NamePlace::Found { .. } => GM_PLACE_FOUND,
        NamePlace::LeadsBack { .. } => GM_PLACE_LEADS_BACK,
        NamePlace::NoLibrary { .. } => GM_PLACE_NO_LIBRARY,
        NamePlace::Missing { .. } => GM_PLACE_MISSING,
        NamePlace::NotGiven { .. } => GM_PLACE_NOT_GIVEN,
        NamePlace::NotFound => GM_PLACE_NOT_FOUND,
        NamePlace::NoMain => GM_PLACE_NO_MAIN,
    }
}

// Returns the file and the address of a place, and whether the address is absolute.
fn found_at(place: NamePlace<'_>) -> (usize, u64, bool)
    ensures file { result.0 ≡ found_file (place_view_of place.entry) }
    ensures address { result.1 ≡ found_address (place_view_of place.entry) }
    ensures absolute { result.2 ≡ is_found_absolute (place_view_of place.entry) }
{
    match place {
        NamePlace::Found {
            number,
            address,
            is_absolute,
            ..
        } => (number, address, is_absolute),
        _ => (0, 0, false),
    }
}

// Returns an answer as C sees it.
fn row_of(answer: &Answer<'_>) -> gm_answer
    ensures { result ≡ answer_row (answer_view answer.now) }
{
    let (provider, library) = numbers_of(answer.provider);
    let (file, address, is_absolute) = found_at(answer.place);
    gm_answer {
        address,
        file,
        library,
        provider,
        place: number_of(answer.place),
        is_absolute: flag(is_absolute),
        is_weak: flag(answer.is_weak),
        is_settled: flag(answer.is_settled()),
        reserved: 0,
    }
}

// Returns a note about a file that isn't used as C sees it.
fn unused_row_of(note: &Note<'_>) -> gm_unused_file
    ensures { result ≡ unused_row (note_view_of note.now) }
{
    match *note {
        Note::GivenBefore { library, .. } => gm_unused_file {
            file: library,
            why: GM_UNUSED_GIVEN_BEFORE,
            cputype: 0,
        },
        Note::NothingFor { library, cputype } => gm_unused_file {
            file: library,
            why: GM_UNUSED_NOTHING_FOR_CPU,
            cputype,
        },
    }
}

// The answers from an index on.
#[derive(Clone, Copy)]
struct AnswerRows<'a, 'b> {
    answers: &'b [Answer<'a>],
    next: usize,
}

impl<'a, 'b> Rows for AnswerRows<'a, 'b> {
    type Row = gm_answer;

    ghost left = { answer_rows_left };

    fn next(&mut self) -> Option<gm_answer> {
        if self.next >= self.answers.len() {
            return None;
        }
        let row = row_of(&self.answers[self.next]);
        self.next += 1;
        Some(row)
    }
}

// The notes from an index on.
#[derive(Clone, Copy)]
struct UnusedRows<'a, 'b> {
    notes: &'b [Note<'a>],
    next: usize,
}

impl<'a, 'b> Rows for UnusedRows<'a, 'b> {
    type Row = gm_unused_file;

    ghost left = { unused_rows_left };

    fn next(&mut self) -> Option<gm_unused_file> {
        if self.next >= self.notes.len() {
            return None;
        }
        let row = unused_row_of(&self.notes[self.next]);
        self.next += 1;
        Some(row)
    }
}

// Writes what a program was resolved to.
fn write<A: Allocator>(
    resolved: &Resolved<'_, A>,
    out: &mut [gm_answer],
    unused: &mut [gm_unused_file],
) -> gm_resolution
    ensures { WritesAnswers (map answer_view resolved.now.answers.items) (map note_view_of resolved.now.notes.items) resolved.now.more
        out.old out.new unused.old unused.new result }
{
    let answers = resolved.answers.as_slice();
    let notes = resolved.notes.as_slice();
    let mut rows = AnswerRows { answers, next: 0 };
    let mut unused_rows = UnusedRows { notes, next: 0 };
    gm_resolution {
        answers: fill(&mut rows, out),
        unused: fill(&mut unused_rows, unused),
        all_unused: notes.len(),
        file: 0,
        more: flag(resolved.more),
        is_settled: flag(all_settled(answers)),
    }
}

// Resolves the first of some files with the others.
fn resolve_given<'a, A: Allocator + Copy>(
    alloc: A,
    limit: usize,
    bytes: &'a [u8],
    files: &[gm_given_file],
) -> Result<Resolved<'a, A>, ResolveFailure>
    ensures resolved { IfOk result (λ r. HasResolved limit bytes.now files.now (map answer_view r.answers.items)
        (map note_view_of r.notes.items) r.more) }
    ensures refused { IfErr result (IsFailure (RefusesGiven limit bytes.now files.now)) }
{
    let all = match all_given(alloc, bytes, files) {
        Ok(all) => all,
        Err(failure) => return Err(failure),
    };
    match all.as_slice().split_first() {
        Some((program, libraries)) => match resolve(alloc, limit, *program, libraries) {
            Ok(resolved) => Ok(resolved),
            Err(failure) => Err(failure),
        },
        None => Err(ResolveFailure::refused(0, Error::Malformed("no program is given"))),
    }
}

// Reports a failure, and returns its code and the number of its file.
fn refuse_failure(failure: &ResolveFailure, error: &mut gm_error) -> (u32, usize)
    ensures code { IsFailureCode failure.now result.0 result.1 }
    ensures some { result.0 ≢ 0 }
    ensures reported { error.new.code ≡ result.0 }
{
    match failure {
        ResolveFailure::Refused { file, error: why } => (refuse(why, error), *file),
        ResolveFailure::Memory => (refuse(&Error::Memory(AllocError), error), 0),
    }
}

/// Writes the answers for the first bindings of a program, in the order in which `gm_bindings` has them, as many as there are and fit.
/// The program is the first of the files, and the others are libraries. Writes which of these aren't used, as many as there are and
/// fit; and how many were written to `found`. It allocates memory while it runs. It is refused for a fault of opening a file, of one
/// of these bindings, or of a trie on the way of a name; if a part isn't in the bytes; and as malformed if there is no file, or if a path
/// isn't UTF-8. A refused call leaves the arrays unchanged, and writes the number of the file to `found`.
#[unsafe(no_mangle)]
pub extern "C" fn gmr_resolve(
    alloc: Global,
    bytes: &[u8],
    files: &[gm_given_file],
    out: &mut [gm_answer],
    unused: &mut [gm_unused_file],
    found: &mut gm_resolution,
    error: &mut gm_error,
) -> u32
    ensures written { result ≡ 0 → WritesResolved bytes.now files.now out.old out.new unused.old unused.new found.new }
    ensures refused { result ≢ 0 → IsRefusalCode (RefusesGiven (length out.old) bytes.now files.now found.new.file) result }
    ensures numbers { result ≢ 0 → found.new ≡ refused_in found.new.file }
    ensures answers { result ≢ 0 → out.new ≡ out.old }
    ensures unused { result ≢ 0 → unused.new ≡ unused.old }
    ensures reported { result ≢ 0 → error.new.code ≡ result }
    ensures quiet { result ≡ 0 → error.new ≡ error.old }
{
    match resolve_given(&alloc, out.len(), bytes, files) {
        Ok(resolved) => {
            *found = write(&resolved, out, unused);
            GM_OK
        }
        Err(failure) => {
            let (code, file) = refuse_failure(&failure, error);
            *found = refused_numbers(file);
            code
        }
    }
}

// Returns the numbers of a call that was refused for a file.
fn refused_numbers(file: usize) -> gm_resolution
    ensures { result ≡ refused_in file }
{
    gm_resolution {
        answers: 0,
        unused: 0,
        all_unused: 0,
        file,
        more: 0,
        is_settled: 0,
    }
}
