//! Finds ranges that share a place, by one sweep over them.

ghost use Rattle.std.specs.Prelude.{◌≡◌, ◌++◌, [], List, OnOk};
ghost use Rattle.mach_base.specs.Answer.{IsOkUnlessMemory};
ghost use Rattle.mach_layout.specs.Sweep as defined;
ghost use Rattle.mach_layout.specs.Sweep.{AreShared, IsByStart};
ghost use Rattle.mach_layout.specs.declared.fault.LayoutFault as declared;

use crate::claim::Claim;
use crate::fault::{LayoutFault, Rule};
use crate::rules::add;
use mach_base::Result;
use std::alloc::Allocator;

// Returns the one of two ranges that ends later, or the first if both end at one place.
fn further(first: Option<Claim>, range: Claim) -> Claim
    ensures { result ≡ defined.further first range }
{
    match first {
        Some(first) if first.end() >= range.end() => first,
        _ => range,
    }
}

// Returns the fault of a range that begins before the end of the furthest of those before it.
fn shared(rule: Rule, furthest: Option<Claim>, range: &Claim) -> Option<LayoutFault>
    ensures { result ≡ defined.shared rule furthest range.now }
{
    let other = furthest?;
    if u128::from(range.start) >= other.end() {
        return None;
    }
    Some(LayoutFault {
        rule,
        owner: range.owner,
        other: Some(other.owner),
        found: range.start,
        limit: other.start.saturating_add(other.len),
    })
}

// Adds the faults of ranges that are sorted by their starts.
fn report_shared<A: Allocator>(
    faults: &mut Vec<LayoutFault, A>,
    rule: Rule,
    sorted: &[Claim],
) -> Result<()>
    ensures reported { OnOk result (faults.new.items ≡ faults.old.items ++ defined.shared_after rule [] sorted.now) }
    ensures only { IsOkUnlessMemory result }
{
    let mut furthest = None;
    for range in sorted {
        add(faults, shared(rule, furthest, range))?;
        furthest = Some(further(furthest, *range));
    }
    Ok(())
}

/// Adds the faults of some ranges, each compared with those before it in the order of their starts. It sorts them.
pub fn report_ranges<A: Allocator>(
    faults: &mut Vec<LayoutFault, A>,
    rule: Rule,
    ranges: &mut Vec<Claim, A>,
) -> Result<()>
    ensures reported { OnOk result ((reported : List declared.LayoutFault) × AreShared rule ranges.old.items reported
        × (faults.new.items ≡ faults.old.items ++ reported)) }
    ensures only { IsOkUnlessMemory result }
{
    ranges.sort_by_key(|range| range.start)?;
    report_shared(faults, rule, ranges.as_slice())?;
    Ok(())
}
