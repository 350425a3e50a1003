//! Rows one after the other, and the caller's array that they are written to.

ghost use Rattle.std.specs.Prelude.{◌≡◌, ◌<◌, ◌^◌, List, [], ◌∷◌, drop, length, option_to_list};
ghost use Rattle.std.specs.Iterator.{YieldsFirst};
ghost use Rattle.goblin_mach_c.specs.Fill.{Fills, WritesFound};

/// Rows, one at a time.
pub trait Rows {
    type Row: Copy;

    // The rows that are left.
    ghost left: { Self → List Self.Row };

    /// Returns the next row, if there is one.
    fn next(&mut self) -> Option<Self::Row>
        ensures { YieldsFirst left self.old result self.new };
}

/// Writes rows to the start of an array, as many as there are and fit, and returns how many.
#[inline(always)]
pub fn fill<R: Rows>(rows: &mut R, out: &mut [R::Row]) -> usize
    ensures filled { Fills (R.left rows.old) out.old out.new result }
    ensures rest { R.left rows.new ≡ drop result (R.left rows.old) }
{
    for k in 0..out.len() {
        let Some(row) = rows.next() else {
            return k;
        };
        out[k] = row;
    }
    out.len()
}

/// Skips `count` rows, or all if there are fewer.
pub fn skip<R: Rows>(rows: &mut R, count: usize)
    ensures { R.left rows.new ≡ drop count (R.left rows.old) }
{
    for _ in 0..count {
        let Some(_) = rows.next() else {
            return;
        };
    }
}

impl<T: Copy> Rows for Option<T> {
    type Row = T;

    ghost left = { option_to_list };

    fn next(&mut self) -> Option<T> {
        self.take()
    }
}

/// Writes the only row of a list from index `first` on, if it is there and fits, and returns how many.
pub fn fill_one<T: Copy>(row: T, first: usize, out: &mut [T]) -> usize
    ensures { Fills (drop first (row ∷ [])) out.old out.new result }
{
    let mut rows = Some(row);
    skip(&mut rows, first);
    fill(&mut rows, out)
}

/// Returns how many rows are left, and leaves none.
pub fn count_rows<R: Rows>(rows: &mut R) -> usize
    requires { length (R.left rows.old) < 2 ^ 64 }
    ensures { result ≡ length (R.left rows.old) }
{
    let mut count = 0;
    'rows: loop {
        match rows.next() {
            None => return count,
            Some(_) => count += 1,
        }
    }
}

/// Writes a row that was found and returns 1, or leaves `place` unchanged and returns 0.
pub fn put_found<T: Copy>(row: Option<T>, place: &mut T) -> u32
    ensures { WritesFound row place.old place.new result }
{
    match row {
        Some(row) => {
            *place = row;
            1
        }
        None => 0,
    }
}
