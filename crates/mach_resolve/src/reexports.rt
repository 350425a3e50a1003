//! The closure of a library: the library itself, and the files that it re-exports as a whole.

ghost use Rattle.std.specs.Prelude.{◌≡◌, ◌++◌, map, reverse, option_map, IfOk, OnOk};
ghost use Rattle.mach_resolve.specs.Following.{Walks, none_met, edges_of, first_gap, met_first, IsAfter, IsAfterAll};
ghost use Rattle.mach_resolve.specs.ResolveViews.{input_view, input_views, edge_view, met_view};

use crate::file::{File, Files};
use std::alloc::{AllocError, Allocator};

/// A library re-exports another as a whole.
#[derive(Clone, Copy)]
pub struct Edge<'a> {
    pub from: &'a str,
    pub to: &'a str,
}

/// What is met in the closure of a library.
#[derive(Drop)]
pub struct Met<'a, A: Allocator> {
    /// The files, by their places, in the order in which they are met.
    pub places: Vec<usize, A>,
    /// The first re-export that is met of a library that is not given.
    pub gap: Option<Edge<'a>>,
}

impl<'a> Edge<'a> {
    // Returns the edge that starts at a library.
    fn start_at(name: &'a str) -> Edge<'a>
        ensures { edge_view result ≡ met_first name.now }
    {
        Edge {
            from: name,
            to: name,
        }
    }
}

// Pushes the libraries that a file re-exports on the edges that are left, the first of them last.
fn push_edges<'a, A: Allocator>(
    file: &File<'a, A>,
    left: &mut Vec<Edge<'a>, A>,
) -> Result<(), AllocError>
    ensures { OnOk result (reverse (map edge_view left.new.items) ≡ edges_of (input_view file.now) ++ reverse (map edge_view left.old.items)) }
{
    let count = file.reexports.len();
    for done in 0..count {
        left.push(Edge {
            from: file.name,
            to: file.reexports[count - 1 - done],
        })?;
    }
    Ok(())
}

// Walks along some edges, the last one first. Each file is entered once, and each of its re-exports is visited once.
fn walk<'a, A: Allocator + Copy>(
    alloc: A,
    files: &Files<'a, A>,
    starts: Vec<Edge<'a>, A>,
) -> Result<Met<'a, A>, AllocError>
    ensures { IfOk result (λ m. Walks (input_views files.now) (reverse (map edge_view starts.entry.items)) none_met (met_view m)) }
{
    let mut is_met = vec![in alloc; false; files.items.len()]?;
    let mut places = Vec::new(alloc);
    let mut gap = None;
    let mut left = starts;
    'edges: loop {
        let Some(edge) = left.pop() else {
            return Ok(Met { places, gap });
        };
        match files.place_of(edge.to) {
            None => gap = keep(gap, edge),
            Some(place) => {
                if !is_met[place] {
                    is_met[place] = true;
                    places.push(place)?;
                    push_edges(&files.items[place], &mut left)?;
                }
            }
        }
    }
}

// Returns the first gap, if there is one, else this one.
fn keep<'a>(gap: Option<Edge<'a>>, edge: Edge<'a>) -> Option<Edge<'a>>
    ensures { option_map edge_view result ≡ first_gap (option_map edge_view gap.entry) (edge_view edge.entry) }
{
    match gap {
        Some(first) => Some(first),
        None => Some(edge),
    }
}

/// Returns the closure of the library with a name, itself first: depth first, each file once. It takes time in the number of
/// re-exports of the files that it meets.
pub fn following<'a, A: Allocator + Copy>(
    alloc: A,
    files: &Files<'a, A>,
    name: &'a str,
) -> Result<Met<'a, A>, AllocError>
    ensures { IfOk result (λ m. IsAfter (input_views files.now) name.now (met_view m)) }
{
    let mut starts = Vec::new(alloc);
    starts.push(Edge::start_at(name))?;
    walk(alloc, files, starts)
}

/// Returns the closure of all files, one after the other, each file once.
pub fn following_all<'a, A: Allocator + Copy>(
    alloc: A,
    files: &Files<'a, A>,
) -> Result<Met<'a, A>, AllocError>
    ensures { IfOk result (λ m. IsAfterAll (input_views files.now) (met_view m)) }
{
    let count = files.items.len();
    let mut starts = Vec::new(alloc);
    for done in 0..count {
        starts.push(Edge::start_at(files.items[count - 1 - done].name))?;
    }
    walk(alloc, files, starts)
}
