//! The answers for the bindings of a program.

ghost use Rattle.std.specs.Prelude.{◌≡◌, ◌||◌, map, IfOk, IfErr, OnOk};
ghost use Rattle.std.specs.List.{list_all};
ghost use Rattle.mach_parts.specs.Bindings.{provider_view, binding_view};
ghost use Rattle.mach_resolve.specs.Files.{TrieFaultAt};
ghost use Rattle.mach_resolve.specs.Following.{Met, IsAfterAll};
ghost use Rattle.mach_resolve.specs.Answers.{IsProvided, IsAnswer, is_absent_weak, is_settled};
ghost use Rattle.mach_resolve.specs.Failures.{IsFailure};
ghost use Rattle.mach_resolve.specs.Kept.{KeepsAnswers};
ghost use Rattle.mach_resolve.specs.ResolveViews.{input_views, place_view_of, program_view, answer_view};

use crate::failure::ResolveFailure;
use crate::file::Files;
use crate::follow::{NamePlace, Symbol, follow};
use crate::kept::Kept;
use crate::special::{flat, in_main, weak_lookup};
use goblin_mach::{Binding, Provider};
use std::alloc::Allocator;

/// The program whose bindings are answered.
#[derive(Drop)]
pub struct Program<'a, A: Allocator> {
    /// Its name.
    pub name: &'a str,
    /// Whether each library may be absent, by ordinal, the program itself first.
    pub may_be_absent: Vec<bool, A>,
}

/// The answer for a binding.
#[derive(Clone, Copy, Debug)]
pub struct Answer<'a> {
    /// The name that is looked up.
    pub name: &'a str,
    /// The provider of the name.
    pub provider: Provider<'a>,
    /// The place of the name.
    pub place: NamePlace<'a>,
    /// Whether the name may be missing.
    pub is_weak: bool,
}

impl<'a> Answer<'a> {
    /// Whether the binding is settled: the name is found, or may be missing.
    pub fn is_settled(&self) -> bool
        ensures { result ≡ is_settled (answer_view self.now) }
    {
        match self.place {
            NamePlace::Found { .. } => true,
            NamePlace::LeadsBack { .. } => false,
            NamePlace::NoLibrary { .. }
            | NamePlace::Missing { .. }
            | NamePlace::NotGiven { .. }
            | NamePlace::NotFound
            | NamePlace::NoMain => self.is_weak,
        }
    }
}

// Whether a provider is a library that is absent here, and may be.
fn is_missed<A: Allocator>(
    program: &Program<'_, A>,
    provider: Provider<'_>,
    place: NamePlace<'_>,
) -> bool
    ensures { result ≡ is_absent_weak (program_view program.now) (provider_view provider.entry) (place_view_of place.entry) }
{
    match (provider, place) {
        (Provider::Library { ordinal, name }, NamePlace::NoLibrary { library }) => {
            name == library
                && program
                    .may_be_absent
                    .get(ordinal as usize)
                    .copied()
                    .unwrap_or(false)
        }
        _ => false,
    }
}

// Returns the place of a name that a provider is to provide.
fn provided<'a, A: Allocator + Copy>(
    alloc: A,
    files: &Files<'a, A>,
    all: &[usize],
    kept: &mut Kept<'a, A>,
    program: &Program<'a, A>,
    provider: Provider<'a>,
    name: &'a str,
) -> Result<NamePlace<'a>, ResolveFailure>
    ensures provided { (met : Met) → IsAfterAll (input_views files.now) met → met.places ≡ all.now → KeepsAnswers (input_views files.now) kept.old
        → IfOk result (λ place. IsProvided (input_views files.now) (program_view program.now) (provider_view provider.entry) name.now (place_view_of place)) }
    ensures kept { (met : Met) → IsAfterAll (input_views files.now) met → met.places ≡ all.now → KeepsAnswers (input_views files.now) kept.old
        → OnOk result (KeepsAnswers (input_views files.now) kept.new) }
    ensures refused { IfErr result (IsFailure (TrieFaultAt (input_views files.now))) }
{
    match provider {
        Provider::Library { name: library, .. } => {
            follow(alloc, files, kept, Symbol { library, name })
        }
        Provider::Itself => {
            let library = program.name;
            follow(alloc, files, kept, Symbol { library, name })
        }
        Provider::MainExecutable => in_main(alloc, files, kept, name),
        Provider::Flat => flat(alloc, files, all, kept, name),
        Provider::WeakLookup => weak_lookup(alloc, files, kept, name),
    }
}

/// Returns the answer for a binding of a program.
pub fn answer_for<'a, A: Allocator + Copy>(
    alloc: A,
    files: &Files<'a, A>,
    all: &[usize],
    kept: &mut Kept<'a, A>,
    program: &Program<'a, A>,
    binding: Binding<'a>,
) -> Result<Answer<'a>, ResolveFailure>
    ensures answered { (met : Met) → IsAfterAll (input_views files.now) met → met.places ≡ all.now → KeepsAnswers (input_views files.now) kept.old
        → IfOk result (λ a. IsAnswer (input_views files.now) (program_view program.now) (binding_view binding.entry) (answer_view a)) }
    ensures kept { (met : Met) → IsAfterAll (input_views files.now) met → met.places ≡ all.now → KeepsAnswers (input_views files.now) kept.old
        → OnOk result (KeepsAnswers (input_views files.now) kept.new) }
    ensures refused { IfErr result (IsFailure (TrieFaultAt (input_views files.now))) }
{
    let Binding {
        name,
        provider,
        is_weak,
        ..
    } = binding;
    let place = provided(alloc, files, all, kept, program, provider, name)?;
    Ok(Answer {
        name,
        provider,
        place,
        is_weak: is_weak || is_missed(program, provider, place),
    })
}

/// Whether all bindings are settled.
pub fn all_settled(answers: &[Answer<'_>]) -> bool
    ensures { result ≡ list_all is_settled (map answer_view answers.now) }
{
    let mut settled = true;
    for answer in answers {
        settled &= answer.is_settled();
    }
    settled
}
