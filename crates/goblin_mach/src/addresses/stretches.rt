//! Ranges of memory that may overlap, and the first of them that holds an address.

ghost use Rattle.std.specs.Prelude.{◌≡◌, ◌+◌, ◌<◌, ◌≤◌, ◌^◌, ℕ, List, [], ◌∷◌, length, take, Option, None, IfOk};
ghost use Rattle.std.specs.List.{All};
ghost use Rattle.std.specs.Option.{option_or};
ghost use Rattle.goblin_mach.specs.Stretches.{first_holder, holder_from, AreByAddress, PassesNext, ReportHolders};

use std::alloc::{AllocError, Allocator};

/// A range of memory with a name: a segment, or a section.
#[derive(Clone, Copy, Debug)]
pub struct Stretch {
    /// The name, with zeros after it.
    pub name: [u8; 16],
    /// The address.
    pub start: u64,
    /// The size in bytes.
    pub size: u64,
}

/// From an address on: the number of the first range that holds it, if one does.
#[derive(Clone, Copy)]
pub struct Change {
    start: u64,
    holder: Option<usize>,
}

/// Ranges in order, with a table of the addresses from which on another range is the first to hold them.
#[derive(Drop)]
pub struct Stretches<A: Allocator> {
    pub items: Vec<Stretch, A>,
    changes: Vec<Change, A>,
    ghost ordered: { AreByAddress changes.items },
    ghost reported: { ReportHolders 0 items.items changes.items },
}

impl<A: Allocator + Clone> Stretches<A> {
    /// Returns some ranges with their table, in n log n steps.
    pub fn of(alloc: &A, items: Vec<Stretch, A>) -> Result<Self, AllocError>
        ensures { IfOk result (λ s. s.items.items ≡ items.items) }
    {
        let changes = changes_of(alloc, &items, 0)?;
        Ok(Stretches { items, changes })
    }
}

impl<A: Allocator> Stretches<A> {
    /// Returns the number of the first range that holds an address, if one does, in log n steps.
    pub fn first_with(&self, address: u64) -> Option<usize>
        ensures { result ≡ first_holder address 0 self.now.items.items }
    {
        let passed = passed_at(&self.changes, address);
        holder_after(&self.changes, passed)
    }
}

// Returns how many changes there are up to an address.
fn passed_at(changes: &[Change], address: u64) -> usize
    requires { AreByAddress changes.now }
    ensures inside { result ≤ length changes.now }
    ensures up_to { All (λ c. c.start ≤ address) (take result changes.now) }
    ensures reported { holder_from None changes.now address ≡ holder_from None (take result changes.now) address }
{
    changes.partition_point(|change| change.start <= address)
}

// Returns the holder after the first `passed` changes.
fn holder_after(changes: &[Change], passed: usize) -> Option<usize>
    requires { passed ≤ length changes.now }
    ensures { (address : ℕ) → All (λ c. c.start ≤ address) (take passed changes.now) → result ≡ holder_from None (take passed changes.now) address }
{
    match passed.checked_sub(1) {
        Some(last) => changes[last].holder,
        None => None,
    }
}

// Returns the changes of some ranges, which are numbered from a number on.
fn changes_of<A: Allocator + Clone>(
    alloc: &A,
    stretches: &[Stretch],
    number: usize,
) -> Result<Vec<Change, A>, AllocError>
    requires { number + length stretches.now < 2 ^ 64 }
    ensures ordered { IfOk result (λ v. AreByAddress v.items) }
    ensures reported { IfOk result (λ v. ReportHolders number stretches.now v.items) }
{
    match stretches {
        [] => Ok(Vec::new(alloc.clone()?)),
        [one] => changes_of_one(alloc.clone()?, *one, number),
        _ => {
            let half = stretches.len() / 2;
            let (front, back) = stretches.split_at(half);
            let first = changes_of(alloc, front, number)?;
            let second = changes_of(alloc, back, number + half)?;
            merged(alloc.clone()?, &first, &second)
        }
    }
}

// Returns the changes of one range: its start, and its end, if that is an address.
fn changes_of_one<A: Allocator>(
    alloc: A,
    one: Stretch,
    number: usize,
) -> Result<Vec<Change, A>, AllocError>
    ensures ordered { IfOk result (λ v. AreByAddress v.items) }
    ensures reported { IfOk result (λ v. ReportHolders number (one ∷ []) v.items) }
{
    let mut changes = Vec::new(alloc);
    changes.push(Change {
        start: one.start,
        holder: Some(number),
    })?;
    if let Some(start) = one.start.checked_add(one.size) {
        changes.push(Change {
            start,
            holder: None,
        })?;
    }
    Ok(changes)
}

// Returns the changes of two tables together: if the first has no holder, the second decides.
fn merged<A: Allocator>(
    alloc: A,
    first: &[Change],
    second: &[Change],
) -> Result<Vec<Change, A>, AllocError>
    requires first { AreByAddress first.now }
    requires second { AreByAddress second.now }
    ensures ordered { IfOk result (λ v. AreByAddress v.items) }
    ensures reported { IfOk result (λ v. (address : ℕ)
        → holder_from None v.items address ≡ option_or (holder_from None first.now address) (holder_from None second.now address)) }
{
    let mut changes = Vec::new(alloc);
    let (mut i, mut j) = (0, 0);
    'changes: while let Some((more, others, start)) = pass_next(first, i, second, j) {
        (i, j) = (more, others);
        let holder = holder_after(first, i).or(holder_after(second, j));
        changes.push(Change { start, holder })?;
    }
    Ok(changes)
}

// Returns how many changes of two tables are passed together with the one at the next address; and that address.
fn pass_next(first: &[Change], i: usize, second: &[Change], j: usize) -> Option<(usize, usize, u64)>
    requires first { i ≤ length first.now }
    requires second { j ≤ length second.now }
    ensures { PassesNext first.now i second.now j result }
{
    match (first.get(i), second.get(j)) {
        (Some(x), Some(y)) if y.start < x.start => Some((i, j + 1, y.start)),
        (Some(x), _) => Some((i + 1, j, x.start)),
        (None, Some(y)) => Some((i, j + 1, y.start)),
        (None, None) => None,
    }
}
