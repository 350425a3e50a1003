//! Rows for the items of a list, one after the other. A row may say more than its item, such as the offset of a name.

ghost use Rattle.std.specs.Prelude.{◌≡◌, List, drop};
ghost use Rattle.goblin_mach_c.specs.Say.{FillsBy, SaysFirst};

/// Rows for items, one at a time.
pub trait ItemRows {
    type Row: Copy;

    // What items are read from, and what an item is.
    ghost Source: { Type 0 };

    ghost Item: { Type 0 };

    // The items that are left.
    ghost left: { Self → List Item };

    // The rows are read from this source.
    ghost IsOver: { Source → Self → Type 0 };

    // A row is that of an item from this source.
    ghost Says: { Source → Item → Self.Row → Type 0 };

    /// Returns the row of the next item, if there is one.
    fn next(&mut self) -> Option<Self::Row>
        ensures says { (x : Source) → IsOver x self.old → SaysFirst (Says x) (left self.old) result (left self.new) }
        ensures over { (x : Source) → IsOver x self.old → IsOver x self.new };
}

/// Writes rows to the start of an array, as many as there are items and fit, and returns how many.
#[inline(always)]
pub fn fill_items<R: ItemRows>(rows: &mut R, out: &mut [R::Row]) -> usize
    ensures filled { (x : R.Source) → R.IsOver x rows.old → FillsBy (R.Says x) (R.left rows.old) out.old out.new result }
    ensures rest { (x : R.Source) → R.IsOver x rows.old → R.left rows.new ≡ drop result (R.left rows.old) }
    ensures over { (x : R.Source) → R.IsOver x rows.old → R.IsOver x rows.new }
{
    for k in 0..out.len() {
        let Some(row) = rows.next() else {
            return k;
        };
        out[k] = row;
    }
    out.len()
}
