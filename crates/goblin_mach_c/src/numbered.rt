//! Rows by their index.

ghost use Rattle.std.specs.Prelude.{◌≡◌, ◌-◌, ℕ, drop};
ghost use Rattle.mach_base.specs.Items.{items_from};

use crate::rows::Rows;

/// Rows by their index.
pub trait Numbered {
    type Row: Copy;

    // The row at an index.
    ghost item: { Self → ℕ → Self.Row };

    /// Returns the row at an index.
    fn at(&self, number: u32) -> Self::Row
        ensures { result ≡ item self.now number };
}

/// The rows from one index on, up to another.
#[derive(Drop)]
pub struct Numbers<S: Numbered + Drop> {
    source: S,
    next: u32,
    end: u32,
}

/// Returns the rows of a source from index `first` on, of `count` rows in all.
pub fn rows_from<S: Numbered + Drop>(source: S, first: usize, count: u32) -> Numbers<S>
    ensures { items_from (S.item result.source) result.next (result.end - result.next) ≡ drop first (items_from (S.item source) 0 count) }
{
    let next = if first < count as usize {
        first as u32
    } else {
        count
    };
    Numbers {
        source,
        next,
        end: count,
    }
}

impl<S: Numbered + Drop> Rows for Numbers<S> {
    type Row = S::Row;

    ghost left = { λ it. items_from (S.item it.source) it.next (it.end - it.next) };

    fn next(&mut self) -> Option<S::Row> {
        if self.next >= self.end {
            return None;
        }
        let row = self.source.at(self.next);
        self.next += 1;
        Some(row)
    }
}
