//! Looks up names in any file, and in the main executable.

ghost use Rattle.std.specs.Prelude.{◌≡◌, slice_get, Some, IfOk, IfErr, OnOk, IfSome, IfNone};
ghost use Rattle.mach_dyld.specs.Exports.{info_of};
ghost use Rattle.mach_resolve.specs.Files.{File, TrieFaultAt};
ghost use Rattle.mach_resolve.specs.Follow.{flags_of_export};
ghost use Rattle.mach_resolve.specs.Following.{Met, IsAfterAll};
ghost use Rattle.mach_resolve.specs.Special.{IsFlat, DefinesNot, IsWeakLookup, IsInMain};
ghost use Rattle.mach_resolve.specs.Failures.{IsFailure};
ghost use Rattle.mach_resolve.specs.Kept.{KeepsAnswers};
ghost use Rattle.mach_resolve.specs.ResolveViews.{input_views, place_view_of, IsDefinition, strong_place, first_place};

use crate::failure::ResolveFailure;
use crate::file::Files;
use crate::follow::{NamePlace, Step, Symbol, follow, lead};
use crate::kept::Kept;
use goblin_mach::exports::{EXPORT_SYMBOL_FLAGS_WEAK_DEFINITION, ExportInfo};
use std::alloc::Allocator;

// Returns the place of a name that any file may provide: in the first of the files at these places, which are all, whose own
// trie has it.
fn flat_anew<'a, A: Allocator + Copy>(
    alloc: A,
    files: &Files<'a, A>,
    all: &[usize],
    kept: &mut Kept<'a, A>,
    name: &'a str,
) -> Result<NamePlace<'a>, ResolveFailure>
    ensures flat { (met : Met) → IsAfterAll (input_views files.now) met → met.places ≡ all.now → KeepsAnswers (input_views files.now) kept.old
        → IfOk result (λ place. IsFlat (input_views files.now) name.now (place_view_of place)) }
    ensures kept { KeepsAnswers (input_views files.now) kept.old → OnOk result (KeepsAnswers (input_views files.now) kept.new) }
    ensures refused { IfErr result (IsFailure (TrieFaultAt (input_views files.now))) }
{
    match files.first_having(alloc, all, name) {
        Ok(Some((file, info))) => match lead(file, info, name) {
            Step::Leads(next) => follow(alloc, files, kept, next),
            Step::Ends(place) => Ok(place),
        },
        Ok(None) => Ok(NamePlace::NotFound),
        Err(failure) => Err(failure),
    }
}

/// Returns the place of a name that any file may provide: in the first of the files at these places, which are all, whose own
/// trie has it. Each name is looked up once.
pub fn flat<'a, A: Allocator + Copy>(
    alloc: A,
    files: &Files<'a, A>,
    all: &[usize],
    kept: &mut Kept<'a, A>,
    name: &'a str,
) -> Result<NamePlace<'a>, ResolveFailure>
    ensures flat { (met : Met) → IsAfterAll (input_views files.now) met → met.places ≡ all.now → KeepsAnswers (input_views files.now) kept.old
        → IfOk result (λ place. IsFlat (input_views files.now) name.now (place_view_of place)) }
    ensures kept { (met : Met) → IsAfterAll (input_views files.now) met → met.places ≡ all.now → KeepsAnswers (input_views files.now) kept.old
        → OnOk result (KeepsAnswers (input_views files.now) kept.new) }
    ensures refused { IfErr result (IsFailure (TrieFaultAt (input_views files.now))) }
{
    if let Some(place) = kept.flat.get(name) {
        return Ok(*place);
    }
    let place = match flat_anew(alloc, files, all, kept, name) {
        Ok(place) => place,
        Err(failure) => return Err(failure),
    };
    kept.flat.insert(name, place)?;
    Ok(place)
}

// A definition of a name, and whether it is weak.
#[derive(Clone, Copy)]
struct Definition<'a> {
    place: NamePlace<'a>,
    is_weak: bool,
}

// Returns the flags of an export.
fn flags_of(info: &ExportInfo<'_>) -> u64
    ensures { result ≡ flags_of_export (info_of info.now) }
{
    match info {
        ExportInfo::Regular { flags, .. }
        | ExportInfo::Reexport { flags, .. }
        | ExportInfo::Stub { flags, .. } => *flags,
    }
}

// Returns the definition of a name in the file at a place, if it has one.
fn define<'a, A: Allocator + Copy>(
    alloc: A,
    files: &Files<'a, A>,
    place: usize,
    name: &'a str,
) -> Result<Option<Definition<'a>>, ResolveFailure>
    ensures some { IfOk result (λ o. IfSome o (IsDefinition (input_views files.now) place name.now)) }
    ensures none { IfOk result (λ o. IfNone o ((g : File) → slice_get (input_views files.now) place ≡ Some g → DefinesNot g name.now)) }
    ensures refused { IfErr result (IsFailure (TrieFaultAt (input_views files.now))) }
{
    match files.find(alloc, place, name) {
        Ok(Some((file, info))) => {
            let is_weak = flags_of(&info) & EXPORT_SYMBOL_FLAGS_WEAK_DEFINITION != 0;
            match lead(file, info, name) {
                Step::Leads(_) => Ok(None),
                Step::Ends(place) => Ok(Some(Definition { place, is_weak })),
            }
        }
        Ok(None) => Ok(None),
        Err(failure) => Err(failure),
    }
}

// Returns the place of a name that any file may define: the first definition that isn't weak, or if there is none, the first.
fn weak_lookup_anew<'a, A: Allocator + Copy>(
    alloc: A,
    files: &Files<'a, A>,
    name: &'a str,
) -> Result<NamePlace<'a>, ResolveFailure>
    ensures target { IfOk result (λ place. IsWeakLookup (input_views files.now) name.now (place_view_of place)) }
    ensures refused { IfErr result (IsFailure (TrieFaultAt (input_views files.now))) }
{
    let mut weak: Option<NamePlace<'a>> = None;
    for place in 0..files.items.len() {
        let found = match define(alloc, files, place, name) {
            Ok(found) => found,
            Err(failure) => return Err(failure),
        };
        match strong(found) {
            Some(place) => return Ok(place),
            None => weak = first_place(weak, found),
        }
    }
    match weak {
        Some(place) => Ok(place),
        None => Ok(NamePlace::NotFound),
    }
}

/// Returns the place of a name that any file may define: the first definition that isn't weak, or if there is none, the first.
/// Each name is looked up once.
pub fn weak_lookup<'a, A: Allocator + Copy>(
    alloc: A,
    files: &Files<'a, A>,
    kept: &mut Kept<'a, A>,
    name: &'a str,
) -> Result<NamePlace<'a>, ResolveFailure>
    ensures target { KeepsAnswers (input_views files.now) kept.old
        → IfOk result (λ place. IsWeakLookup (input_views files.now) name.now (place_view_of place)) }
    ensures kept { KeepsAnswers (input_views files.now) kept.old → OnOk result (KeepsAnswers (input_views files.now) kept.new) }
    ensures refused { IfErr result (IsFailure (TrieFaultAt (input_views files.now))) }
{
    if let Some(place) = kept.weak.get(name) {
        return Ok(*place);
    }
    let place = match weak_lookup_anew(alloc, files, name) {
        Ok(place) => place,
        Err(failure) => return Err(failure),
    };
    kept.weak.insert(name, place)?;
    Ok(place)
}

// Returns the place of a definition, unless it is weak.
fn strong<'a>(found: Option<Definition<'a>>) -> Option<NamePlace<'a>>
    ensures { result ≡ strong_place found.entry }
{
    match found {
        Some(definition) if !definition.is_weak => Some(definition.place),
        _ => None,
    }
}

// Returns the first place, if there is one, else that of this definition.
fn first_place<'a>(
    first: Option<NamePlace<'a>>,
    found: Option<Definition<'a>>,
) -> Option<NamePlace<'a>>
    ensures { result ≡ first_place first.entry found.entry }
{
    match first {
        Some(place) => Some(place),
        None => match found {
            Some(definition) => Some(definition.place),
            None => None,
        },
    }
}

/// Returns the place of a name that the main executable is to provide: the first of the files that is one.
pub fn in_main<'a, A: Allocator + Copy>(
    alloc: A,
    files: &Files<'a, A>,
    kept: &mut Kept<'a, A>,
    name: &'a str,
) -> Result<NamePlace<'a>, ResolveFailure>
    ensures target { KeepsAnswers (input_views files.now) kept.old
        → IfOk result (λ place. IsInMain (input_views files.now) name.now (place_view_of place)) }
    ensures kept { KeepsAnswers (input_views files.now) kept.old → OnOk result (KeepsAnswers (input_views files.now) kept.new) }
    ensures refused { IfErr result (IsFailure (TrieFaultAt (input_views files.now))) }
{
    for file in &files.items {
        if file.is_main {
            let start = Symbol {
                library: file.name,
                name,
            };
            return follow(alloc, files, kept, start);
        }
    }
    Ok(NamePlace::NoMain)
}
