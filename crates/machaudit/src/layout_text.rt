//! Faults of layout, the first ten of each rule.

ghost use Rattle.std.specs.Prelude.{◌≡◌, ◌+◌, ◌-◌, ◌^◌, min, nat_lt};

use mach_audit::MOST_REPORTED;
use mach_layout::{LayoutFault, Rule};
use std::io;
use std::io::Write;

/// How many faults of each rule were met.
#[derive(Clone, Copy)]
pub struct Counts {
    counts: [usize; 64],
}

impl Counts {
    /// Returns counts of zero.
    pub fn new() -> Counts {
        Counts { counts: [0; 64] }
    }

    /// Counts one more fault of a rule, and returns whether it is one of the first ten.
    pub fn is_reported(&mut self, rule: Rule) -> bool {
        match self.counts.get_mut(rule as usize) {
            Some(count) => is_among_first(count),
            None => true,
        }
    }

    /// Returns how many faults of a rule were not printed; call it once for each rule.
    pub fn more(&mut self, rule: Rule) -> usize {
        let Some(count) = self.counts.get_mut(rule as usize) else {
            return 0;
        };
        let more = count.saturating_sub(MOST_REPORTED);
        *count = 0;
        more
    }
}

// Counts one more fault, and returns whether it is one of the first ten.
fn is_among_first(count: &mut usize) -> bool
    ensures counted { count.new ≡ min (count.old + 1) (2 ^ 64 - 1) }
    ensures first { result ≡ nat_lt count.old 10 }
{
    let before = *count;
    *count = before.saturating_add(1);
    before < MOST_REPORTED
}

/// Prints faults of layout, the first ten of each rule.
pub fn print_layout<O: Write>(name: &str, faults: &[LayoutFault], out: &mut O) -> io::Result<()> {
    let mut counts = Counts::new();
    'faults: for fault in faults {
        if counts.is_reported(fault.rule) {
            writeln!(out, "  {name}: {fault}")?;
        }
    }
    'rules: for fault in faults {
        let rule = fault.rule;
        let more = counts.more(rule);
        if more > 0 {
            writeln!(out, "  {name}: {rule}: and {more} more")?;
        }
    }
    if faults.is_empty() {
        writeln!(out, "  {name}: ok")?;
    }
    Ok(())
}
