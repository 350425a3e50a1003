//! What a rule sees in an item, and the fault that it reports: rules are applied to items one after the other.

ghost use Rattle.std.specs.Prelude.{◌≡◌, ◌++◌, ◌-◌, List, OnOk, option_to_list};
ghost use Rattle.std.specs.Iterator.{YieldsFirst};
ghost use Rattle.std.specs.List.{range_with_len};
ghost use Rattle.mach_layout.specs.Rules as defined;

use crate::fault::{LayoutFault, Owner, Part, Rule};
use std::alloc::{AllocError, Allocator};

/// What a rule sees in an item.
#[derive(Clone, Copy)]
pub struct RuleOutcome {
    /// Whether the rule holds.
    pub holds: bool,
    /// The other owner, if two conflict.
    pub other: Option<Owner>,
    /// The number that was found.
    pub found: u64,
    /// The number with which it is compared.
    pub limit: u64,
}

/// Returns what a rule sees that compares two numbers.
pub fn measured(holds: bool, found: u64, limit: u64) -> RuleOutcome
    ensures { result ≡ defined.measured holds found limit }
{
    RuleOutcome {
        holds,
        other: None,
        found,
        limit,
    }
}

/// Returns what a rule sees that has nothing to check.
pub fn sound() -> RuleOutcome
    ensures { result ≡ defined.sound }
{
    measured(true, 0, 0)
}

impl RuleOutcome {
    /// Adds the other owner with which the item conflicts.
    pub fn against(self, other: Owner) -> RuleOutcome
        ensures { result ≡ defined.against other self }
    {
        RuleOutcome {
            other: Some(other),
            ..self
        }
    }

    /// Returns this if it doesn't hold, else the next.
    pub fn then(self, next: RuleOutcome) -> RuleOutcome
        ensures { result ≡ defined.then_outcome self next }
    {
        if self.holds { next } else { self }
    }
}

/// Returns a part of the command at a place, with its number there.
pub fn owner_at(part: Part, command: usize, index: u64) -> Owner
    ensures { result ≡ defined.owner_at part command index }
{
    Owner {
        part,
        command: command as u64,
        index,
    }
}

/// The checks of items of a kind.
pub trait Judges<T> {
    ghost use Rattle.mach_layout.specs.declared.fault.Owner.{Owner};
    ghost use Rattle.mach_layout.specs.declared.fault.Rule.{Rule};
    ghost use Rattle.mach_layout.specs.declared.rules.RuleOutcome.{RuleOutcome};

    // The owner of a fault, and what each rule sees.
    ghost owner: { Self → Rule → T → Owner };

    ghost sees: { Self → Rule → T → RuleOutcome };

    /// Returns the owner of a fault of a rule.
    fn owner(&self, rule: Rule, item: &T) -> Owner
        ensures { result ≡ owner self.now rule item.now };

    /// Returns what a rule sees in an item.
    fn see(&self, rule: Rule, item: &T) -> RuleOutcome
        ensures { result ≡ sees self.now rule item.now };
}

/// Adds a fault, if there is one.
pub fn add<A: Allocator>(
    faults: &mut Vec<LayoutFault, A>,
    reported: Option<LayoutFault>,
) -> Result<(), AllocError>
    ensures reported { OnOk result (faults.new.items ≡ faults.old.items ++ option_to_list reported) }
{
    if let Some(fault) = reported {
        faults.push(fault)?;
    }
    Ok(())
}

/// Returns the fault that a rule reports for what it sees, if it doesn't hold.
pub fn reported(rule: Rule, owner: Owner, outcome: RuleOutcome) -> Option<LayoutFault>
    ensures { result ≡ defined.reported rule owner outcome }
{
    if outcome.holds {
        return None;
    }
    Some(LayoutFault {
        rule,
        owner,
        other: outcome.other,
        found: outcome.found,
        limit: outcome.limit,
    })
}

/// Adds the fault that a rule reports for what it sees.
pub fn report<A: Allocator>(
    faults: &mut Vec<LayoutFault, A>,
    rule: Rule,
    owner: Owner,
    outcome: RuleOutcome,
) -> Result<(), AllocError>
    ensures reported { OnOk result (faults.new.items ≡ faults.old.items ++ option_to_list (defined.reported rule owner outcome)) }
{
    add(faults, reported(rule, owner, outcome))
}

/// Adds the faults that the rules report for each of the items, rule by rule.
pub fn report_each<T, J: Judges<T>, A: Allocator>(
    faults: &mut Vec<LayoutFault, A>,
    judge: &J,
    rules: &[Rule],
    items: &[T],
) -> Result<(), AllocError>
    ensures reported { OnOk result (faults.new.items
        ≡ faults.old.items ++ defined.reported_over rules.now (J.owner judge.now) (J.sees judge.now) items.now) }
{
    for rule in rules {
        for item in items {
            report(
                faults,
                *rule,
                judge.owner(*rule, item),
                judge.see(*rule, item),
            )?;
        }
    }
    Ok(())
}

/// Items that come one at a time, and that can be iterated again.
pub trait Items: Drop {
    /// An item.
    type Item: Drop;

    // The items that are left.
    ghost left: { Self → List Self.Item };

    /// Returns the same items, from here on.
    fn again(&self) -> Self
        ensures { left result ≡ left self.now };

    /// Returns the next item, if there is one.
    fn take_next(&mut self) -> Option<Self::Item>
        ensures { YieldsFirst left self.old result self.new };
}

/// Adds the faults that the rules report for each of those items, rule by rule.
pub fn report_over<I: Items, J: Judges<I::Item>, A: Allocator>(
    faults: &mut Vec<LayoutFault, A>,
    judge: &J,
    rules: &[Rule],
    items: &I,
) -> Result<(), AllocError>
    ensures reported { OnOk result (faults.new.items
        ≡ faults.old.items ++ defined.reported_over rules.now (J.owner judge.now) (J.sees judge.now) (I.left items.now)) }
{
    for rule in rules {
        let mut left = items.again();
        'items: while let Some(item) = left.take_next() {
            report(
                faults,
                *rule,
                judge.owner(*rule, &item),
                judge.see(*rule, &item),
            )?;
        }
    }
    Ok(())
}

/// The numbers from one number up to another, without the latter.
#[derive(Clone, Copy)]
pub struct Numbers {
    /// The first number.
    pub from: u32,
    /// The number after the last one.
    pub upto: u32,
}

impl Numbers {
    /// Returns `count` numbers, from 0.
    pub fn of(count: u32) -> Numbers
        ensures { defined.numbers_left result ≡ range_with_len 0 count }
    {
        Numbers {
            from: 0,
            upto: count,
        }
    }
}

impl Items for Numbers {
    type Item = u32;

    ghost use Rattle.mach_layout.specs.Rules.{numbers_left};

    ghost left = { numbers_left };

    fn again(&self) -> Numbers {
        *self
    }

    fn take_next(&mut self) -> Option<u32> {
        if self.from >= self.upto {
            return None;
        }
        let number = self.from;
        self.from += 1;
        Some(number)
    }
}
