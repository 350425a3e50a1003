//! Resolves a program: finds the answers for its bindings.

ghost use Rattle.std.specs.Prelude.{◌≡◌, List, map, IfOk, IfErr};
ghost use Rattle.mach_parts.specs.Bindings.{Binding};
ghost use Rattle.mach_resolve.specs.Following.{Met, IsAfterAll};
ghost use Rattle.mach_resolve.specs.Answers as answered;
ghost use Rattle.mach_resolve.specs.Answers.{AreAnswers};
ghost use Rattle.mach_resolve.specs.Failures.{IsFailure};
ghost use Rattle.mach_resolve.specs.Resolved.{HoldsFirst, IsResolved, ResolveFault, AnswerFault};
ghost use Rattle.mach_resolve.specs.ResolveViews.{input_views, program_view, answer_view, note_view_of};
ghost use Rattle.mach_resolve.specs.Opened.{given_view};

use crate::answers::{Answer, Program, answer_for};
use crate::failure::ResolveFailure;
use crate::file::Files;
use crate::inputs::{Gathered, Given, absences_of, gather};
use crate::kept::Kept;
use crate::note::Note;
use crate::reexports::following_all;
use goblin_mach::{MachO, laws};
use std::alloc::Allocator;

// Returns an answer for each of the first `limit` bindings of an image, in order, and whether there are more.
fn answer_all<'a, A: Allocator + Copy>(
    alloc: A,
    limit: usize,
    files: &Files<'a, A>,
    all: &[usize],
    program: &Program<'a, A>,
    image: &MachO<'a, A>,
) -> Result<(Vec<Answer<'a>, A>, bool), ResolveFailure>
    ensures answered { (met : Met) → IsAfterAll (input_views files.now) met → met.places ≡ all.now
        → IfOk result (λ v. (bindings : List Binding) × HoldsFirst limit image.now bindings v.1
        × AreAnswers (input_views files.now) (program_view program.now) bindings (map answer_view v.0.items)) }
    ensures refused { IfErr result (IsFailure (AnswerFault limit (input_views files.now) image.now)) }
{
    let mut answers = Vec::new(alloc);
    let mut kept = Kept::nothing(alloc);
    'bindings: for item in image.bindings() {
        if answers.len() >= limit {
            return Ok((answers, true));
        }
        match item {
            Ok(binding) => match answer_for(alloc, files, all, &mut kept, program, binding) {
                Ok(answer) => answers.push(answer)?,
                Err(failure) => return Err(failure),
            },
            Err(error) => return Err(ResolveFailure::refused(0, error)),
        }
    }
    Ok((answers, false))
}

/// A program, resolved.
#[derive(Debug, Drop)]
pub struct Resolved<'a, A: Allocator> {
    /// The answers for its bindings, in order.
    pub answers: Vec<Answer<'a>, A>,
    /// Whether it has more bindings.
    pub more: bool,
    /// Notes about the libraries that are not used.
    pub notes: Vec<Note<'a>, A>,
}

/// Returns the answers for the first `limit` bindings of a program, in order, found in the program and some libraries. An error
/// is a refused allocation, or a fault that holds: of opening a file, of one of these bindings, or of a trie on the way of a
/// name.
pub fn resolve<'a, A: Allocator + Copy>(
    alloc: A,
    limit: usize,
    program: Given<'a>,
    libraries: &[Given<'a>],
) -> Result<Resolved<'a, A>, ResolveFailure>
    ensures resolved { IfOk result
        (λ r. IsResolved limit (given_view program.entry) (map given_view libraries.now) (map answer_view r.answers.items)
        (map note_view_of r.notes.items) r.more) }
    ensures refused { IfErr result (IsFailure (ResolveFault limit (given_view program.entry) (map given_view libraries.now))) }
{
    let image = match MachO::parse(alloc, program.bytes, 0) {
        Ok(image) => image,
        Err(error) => return Err(ResolveFailure::refused(0, error)),
    };
    let gathered = match gather(alloc, image.header.cputype, program, libraries) {
        Ok(gathered) => gathered,
        Err(failure) => return Err(failure),
    };
    let Gathered { files, notes } = gathered;
    let all = following_all(alloc, &files)?;
    let known = Program {
        name: image.name.unwrap_or(program.path),
        may_be_absent: absences_of(alloc, &image)?,
    };
    laws::name_of_image(&image);
    laws::libraries_by_kind_of_image(&image);
    laws::bindings_of_image(&image);
    match answer_all(alloc, limit, &files, all.places.as_slice(), &known, &image) {
        Ok((answers, more)) => Ok(Resolved {
            answers,
            more,
            notes,
        }),
        Err(failure) => Err(failure),
    }
}
