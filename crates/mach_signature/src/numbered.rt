//! Reports on numbered things: in order, for those that have something to report.

ghost use Rattle.std.specs.Prelude.{◌≡◌, ◌<◌, ℕ, Option};
ghost use Rattle.std.specs.Option.{option_map};
ghost use Rattle.std.specs.Iterator.{YieldsFirstBy};
ghost use Rattle.mach_signature.specs.Numbered.{reported_left};

/// Numbered things, and the report on each.
pub trait Numbered: Drop {
    /// What is reported.
    type Item: Drop;

    // What contracts see of a report.
    ghost View: { Type 0 };

    ghost view: { Self.Item → View };

    // How many things there are, and the report on each.
    ghost count: { Self → ℕ };

    ghost reports: { Self → ℕ → Option View };

    /// Returns how many things there are.
    fn count(&self) -> u32
        ensures { result ≡ count self.now };

    /// Returns the report on one thing, if there is one.
    fn report(&self, number: u32) -> Option<Self::Item>
        requires { number < count self.now }
        ensures { option_map view result ≡ reports self.now number };
}

/// An iterator over the reports, from a number on.
#[derive(Clone, Copy, Drop)]
pub struct NumberedFaults<T> {
    pub things: T,
    pub next: u32,
}

impl<T: Numbered> NumberedFaults<T> {
    /// Returns the reports on all things.
    pub fn of(things: T) -> NumberedFaults<T>
        ensures { result ≡ record { things = things; next = 0 } }
    {
        NumberedFaults { things, next: 0 }
    }

    /// Returns the next report.
    #[tactic(auto, using(crate::proofs::NumberedLists::reported_first, crate::proofs::NumberedLists::reported_none))]
    #[inline(always)]
    pub fn take_next(&mut self) -> Option<T::Item>
        ensures { YieldsFirstBy T.view (reported_left T.count T.reports) self.old result self.new }
    {
        while self.next < self.things.count() {
            let number = self.next;
            self.next += 1;
            if let Some(reported) = self.things.report(number) {
                return Some(reported);
            }
        }
        None
    }
}
