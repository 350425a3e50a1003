//! Follows a name through re-exports, from library to library.

ghost use Rattle.std.specs.Prelude.{◌≡◌, ◌==◌, ◌<◌, ◌^◌, ◌+◌, ◌∷◌, ◌++◌, [], length, map, option_map, bit_and, true, false, Ok, IfOk, IfErr, OnOk};
ghost use Rattle.mach_base.specs.Among.{IsAmong};
ghost use Rattle.mach_dyld.specs.Exports.{info_of};
ghost use Rattle.mach_resolve.specs.Files.{TrieFaultAt};
ghost use Rattle.mach_resolve.specs.Follow.{FollowsTo, IsGiven, found, nowhere};
ghost use Rattle.mach_resolve.specs.Kept.{KeepsAnswers};
ghost use Rattle.mach_resolve.specs.Failures.{IsFailure};
ghost use Rattle.mach_resolve.specs.ResolveViews.{input_view, input_views, edge_view, met_view, symbol_view_of, place_view_of, LeadsToStep, IsStep};

use crate::failure::ResolveFailure;
use crate::file::{File, Files};
use crate::kept::Kept;
use crate::reexports::{Edge, Met, following};
use goblin_mach::exports::{
    EXPORT_SYMBOL_FLAGS_KIND_ABSOLUTE, EXPORT_SYMBOL_FLAGS_KIND_MASK, ExportInfo,
};
use indexmap::IndexSet;
use std::alloc::{AllocFailed, Allocator};
use std::hash::{BuildHasherDefault, FoldHasher};

/// A name, and the name of the library in which it is looked up.
#[derive(Clone, Copy, PartialEq, Eq, Hash)]
pub struct Symbol<'a> {
    pub library: &'a str,
    pub name: &'a str,
}

/// The place of a name, or why it has none. The library is the last one that re-exports of tries lead to.
#[derive(Clone, Copy, Debug)]
pub enum NamePlace<'a> {
    /// In a file, at this address: relative to the file's start, or absolute.
    Found {
        /// The file's number: 0 for the program, 1 for the first library.
        number: usize,
        /// The file's name.
        file: &'a str,
        /// The address.
        address: u64,
        /// Whether the address is absolute.
        is_absolute: bool,
    },
    /// The re-exports lead back to this library, to a name that was looked up there before.
    LeadsBack {
        /// The library's name.
        library: &'a str,
    },
    /// None of the files has this name.
    NoLibrary {
        /// The library's name.
        library: &'a str,
    },
    /// Neither the library nor its closure has the name.
    Missing {
        /// The library's name.
        library: &'a str,
    },
    /// The same, but this library re-exports another one, which is not given.
    NotGiven {
        /// The library's name.
        library: &'a str,
        /// The name of the library that it re-exports.
        reexported: &'a str,
    },
    /// None of the files has the name.
    NotFound,
    /// None of the files is a main executable.
    NoMain,
}

/// What a symbol leads to in its library.
#[derive(Clone, Copy)]
pub enum Step<'a> {
    /// To another symbol.
    Leads(Symbol<'a>),
    /// It leads no further.
    Ends(NamePlace<'a>),
}

/// Returns what an export of a file leads to, given the name that was looked up.
pub fn lead<'a, A: Allocator>(file: &File<'a, A>, info: ExportInfo<'a>, name: &'a str) -> Step<'a>
    ensures { LeadsToStep (input_view file.now) (info_of info.entry) name.now result }
{
    match info {
        ExportInfo::Regular { address, flags } => Step::Ends(found(file, address, flags)),
        ExportInfo::Stub {
            stub_offset,
            flags,
            ..
        } => Step::Ends(found(file, u64::from(stub_offset), flags)),
        ExportInfo::Reexport {
            lib,
            lib_symbol_name,
            ..
        } => Step::Leads(Symbol {
            library: lib,
            name: lib_symbol_name.unwrap_or(name),
        }),
    }
}

// Returns the place at an address of a file.
fn found<'a, A: Allocator>(file: &File<'a, A>, address: u64, flags: u64) -> NamePlace<'a>
    ensures { place_view_of result ≡ found file.now.number file.now.name.now address (bit_and flags 3 == 2) }
{
    NamePlace::Found {
        number: file.number,
        file: file.name,
        address,
        is_absolute: flags & EXPORT_SYMBOL_FLAGS_KIND_MASK == EXPORT_SYMBOL_FLAGS_KIND_ABSOLUTE,
    }
}

// Adds a symbol to those on the way, and returns whether it is new.
fn note<'a, A: Allocator + Copy>(
    met: &mut IndexSet<Symbol<'a>, BuildHasherDefault<FoldHasher>, A>,
    symbol: Symbol<'a>,
) -> Result<bool, AllocFailed<Symbol<'a>>>
    ensures few { result ≡ Ok true → (length met.old.keys < 2 ^ 63) × (length met.new.keys ≡ length met.old.keys + 1) }
    ensures fresh { result ≡ Ok true → (map symbol_view_of met.new.keys ≡ map symbol_view_of met.old.keys ++ symbol_view_of symbol.entry ∷ [])
        × (IsAmong (symbol_view_of symbol.entry) (map symbol_view_of met.old.keys) → ⊥) }
    ensures again { result ≡ Ok false → IsAmong (symbol_view_of symbol.entry) (map symbol_view_of met.old.keys) }
{
    let before = met.len();
    met.insert(symbol)?;
    Ok(met.len() > before)
}

// Returns what a symbol leads to in its library, whose closure is kept.
fn turn<'a, A: Allocator + Copy>(
    alloc: A,
    files: &Files<'a, A>,
    kept: &mut Kept<'a, A>,
    symbol: Symbol<'a>,
) -> Result<Step<'a>, ResolveFailure>
    ensures step { KeepsAnswers (input_views files.now) kept.old → IfOk result (IsStep (input_views files.now) (symbol_view_of symbol.entry)) }
    ensures kept { KeepsAnswers (input_views files.now) kept.old → OnOk result (KeepsAnswers (input_views files.now) kept.new) }
    ensures refused { IfErr result (IsFailure (TrieFaultAt (input_views files.now))) }
{
    let Symbol { library, .. } = symbol;
    let Some(_) = files.place_of(library) else {
        return Ok(Step::Ends(NamePlace::NoLibrary { library }));
    };
    if let Some(closure) = kept.closures.get(library) {
        return step_in(alloc, files, closure, symbol);
    }
    let closure = following(alloc, files, library)?;
    let step = match step_in(alloc, files, &closure, symbol) {
        Ok(step) => step,
        Err(failure) => return Err(failure),
    };
    kept.closures.insert(library, closure)?;
    Ok(step)
}

// Returns what a symbol leads to in the closure of its library: by the first file there whose own trie has the name.
fn step_in<'a, A: Allocator + Copy>(
    alloc: A,
    files: &Files<'a, A>,
    closure: &Met<'a, A>,
    symbol: Symbol<'a>,
) -> Result<Step<'a>, ResolveFailure>
    ensures step { IsGiven (input_views files.now) (symbol_view_of symbol.entry) (met_view closure.now)
        → IfOk result (IsStep (input_views files.now) (symbol_view_of symbol.entry)) }
    ensures refused { IfErr result (IsFailure (TrieFaultAt (input_views files.now))) }
{
    let Symbol { library, name } = symbol;
    match files.first_having(alloc, closure.places.as_slice(), name) {
        Ok(Some((file, info))) => Ok(lead(file, info, name)),
        Ok(None) => Ok(Step::Ends(nowhere(library, closure.gap))),
        Err(failure) => Err(failure),
    }
}

// Returns the end of a name that no file in the closure of a library has.
fn nowhere<'a>(library: &'a str, gap: Option<Edge<'a>>) -> NamePlace<'a>
    ensures { place_view_of result ≡ nowhere library.now (option_map edge_view gap.entry) }
{
    match gap {
        Some(Edge { from, to }) => NamePlace::NotGiven {
            library: from,
            reexported: to,
        },
        None => NamePlace::Missing { library },
    }
}

// Returns the place that a symbol leads to: its end, or back to a symbol that it met on the way.
fn follow_anew<'a, A: Allocator + Copy>(
    alloc: A,
    files: &Files<'a, A>,
    kept: &mut Kept<'a, A>,
    start: Symbol<'a>,
) -> Result<NamePlace<'a>, ResolveFailure>
    ensures followed { KeepsAnswers (input_views files.now) kept.old
        → IfOk result (λ place. FollowsTo (input_views files.now) [] (symbol_view_of start.entry) (place_view_of place)) }
    ensures kept { KeepsAnswers (input_views files.now) kept.old → OnOk result (KeepsAnswers (input_views files.now) kept.new) }
    ensures refused { IfErr result (IsFailure (TrieFaultAt (input_views files.now))) }
{
    let mut met = IndexSet::new(alloc);
    let mut target = start;
    'turns: loop {
        if !note(&mut met, target)? {
            return Ok(NamePlace::LeadsBack {
                library: target.library,
            });
        }
        match turn(alloc, files, kept, target) {
            Ok(Step::Leads(next)) => target = next,
            Ok(Step::Ends(place)) => return Ok(place),
            Err(failure) => return Err(failure),
        }
    }
}

/// Returns the place that a symbol leads to: its end, or back to a symbol that it met on the way. Each symbol is followed once.
pub fn follow<'a, A: Allocator + Copy>(
    alloc: A,
    files: &Files<'a, A>,
    kept: &mut Kept<'a, A>,
    start: Symbol<'a>,
) -> Result<NamePlace<'a>, ResolveFailure>
    ensures followed { KeepsAnswers (input_views files.now) kept.old
        → IfOk result (λ place. FollowsTo (input_views files.now) [] (symbol_view_of start.entry) (place_view_of place)) }
    ensures kept { KeepsAnswers (input_views files.now) kept.old → OnOk result (KeepsAnswers (input_views files.now) kept.new) }
    ensures refused { IfErr result (IsFailure (TrieFaultAt (input_views files.now))) }
{
    if let Some(place) = kept.places.get(&start) {
        return Ok(*place);
    }
    let place = match follow_anew(alloc, files, kept, start) {
        Ok(place) => place,
        Err(failure) => return Err(failure),
    };
    kept.places.insert(start, place)?;
    Ok(place)
}
