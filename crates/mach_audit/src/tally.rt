//! A count of the items of a list that can't be read.

ghost use Rattle.std.specs.Prelude.{◌≡◌, ◌<◌, ◌≤◌, ◌+◌, ◌^◌, ◌++◌, ◌∷◌, ℕ, List, [], length, IsTrue, false, true, IfOk, OnOk, Option, option_map};
ghost use Rattle.mach_base.specs.Fault.{fault_of};
ghost use Rattle.mach_audit.specs.Reported.{FaultAt, ReportsFirstFaults, ReportsOf, HasMet, placed_fault};

use crate::report::{FaultPlace, ItemFault, PartReport};
use goblin_mach::Error;
use std::alloc::{AllocError, Allocator};

/// How many faults of one part, or of one rule, are reported; the others are only counted.
pub const MOST_REPORTED: usize = 10;

/// What was met so far in the lists of one part.
#[derive(Drop)]
pub struct Tally<A: Allocator> {
    part: PartReport<A>,
    left: usize,
}

impl<A: Allocator> Tally<A> {
    /// Returns an empty count, of at most `limit` items.
    pub fn new(alloc: A, limit: usize) -> Tally<A>
        ensures { HasMet limit [] result }
    {
        Tally {
            part: PartReport {
                reported: Vec::new(alloc),
                faults: 0,
                cut: false,
            },
            left: limit,
        }
    }

    /// Counts one more item, with its error if it can't be read. Returns whether to go on: false if this is one item more than
    /// the limit. A refused allocation is no fault of an item.
    pub fn take(&mut self, place: FaultPlace, error: Option<Error>) -> Result<bool, AllocError>
        ensures met { OnOk result ((limit : ℕ) (items : List (Option FaultAt)) → HasMet limit items self.old
            → HasMet limit (items ++ placed_fault place (option_map fault_of error) ∷ []) self.new) }
        ensures over { IfOk result (λ more. more ≡ false → IsTrue self.new.part.cut) }
        ensures on { IfOk result (λ more. more ≡ true → 1 ≤ self.old.left) }
    {
        let Some(left) = self.left.checked_sub(1) else {
            self.part.cut = true;
            return Ok(false);
        };
        self.left = left;
        if let Some(error) = error {
            note(&mut self.part, place, error)?;
        }
        Ok(true)
    }

    /// Returns the report of the part.
    pub fn part(self) -> PartReport<A>
        ensures { result ≡ self.part }
    {
        self.part
    }
}

// Counts a fault, and keeps it if it is one of the first ten.
fn note<A: Allocator>(
    part: &mut PartReport<A>,
    place: FaultPlace,
    error: Error,
) -> Result<(), AllocError>
    ensures reported { OnOk result ((faults : List FaultAt) → length faults + 1 < 2 ^ 64 → ReportsFirstFaults faults part.old
        → ReportsFirstFaults (faults ++ (place, fault_of error) ∷ []) part.new) }
    ensures kept { OnOk result (part.new.cut ≡ part.old.cut) }
{
    if let Error::Memory(refused) = error {
        return Err(refused);
    }
    part.faults = part.faults.saturating_add(1);
    if part.reported.len() < MOST_REPORTED {
        part.reported.push(ItemFault { place, error })?;
    }
    Ok(())
}
