//! Lists whose rows are printed one line each, up to a limit.

ghost use Rattle.std.specs.Prelude.{◌≡◌, IfOk, OnOk};
ghost use Rattle.std.specs.Io.KnownBytes.{Appends};
ghost use Rattle.std.specs.Result.{is_ok};
ghost use Rattle.mach_cli.specs.Listings.{cut_line, past_line, text_answer, reported_line, CountsRows, WritesFirstLines, WritesRows};

use crate::image_view::Outcome;
use goblin_mach::describe;
use std::io;
use std::io::Write;

/// A list of rows, read one after the other.
pub trait Listing {
    type Row: Drop;

    ghost use Rattle.std.specs.Prelude.{◌≡◌, ◌∷◌, [], List, ℕ, Result, MatchOption, OnOk};
    ghost use Rattle.std.specs.Io.KnownBytes.{Appends};
    ghost use Rattle.mach_base.specs.Fault.{Fault};
    ghost use Rattle.mach_base.specs.Items.{read_as};

    // The text of a row; and the texts of the rows that are left, or why one can't be read.
    ghost text: { Self.Row → List ℕ };

    ghost left: { Self → List (Result (List ℕ) Fault) };

    // How many more items the whole list claims, with records that begin past the end of the bytes; and what its items are called.
    ghost past: { Self → ℕ } = { λ _. 0 };

    ghost past_name: { Self → List ℕ } = { λ _. [] };

    /// Returns the next row, or why it can't be read.
    fn next_row(&mut self) -> Option<goblin_mach::Result<Self::Row>>
        ensures { MatchOption result (left self.old ≡ []) (λ row. left self.old ≡ read_as text row ∷ left self.new) };

    /// Returns how many more items the whole list claims, with records that begin past the end of the bytes.
    fn past(&self) -> usize
        ensures { result ≡ past self.now };

    /// Returns the plural name of its items, for the line about those past the end.
    fn past_name(&self) -> &'static str
        ensures { result.now ≡ past_name self.now };

    /// Writes a row.
    fn write_row<O: Write>(row: &Self::Row, out: &mut O) -> io::Result<()>
        ensures { OnOk result (Appends (O.contents out.old) (O.contents out.new) (text row.now)) };
}

/// The state after the rows of a list up to a limit.
#[derive(Clone, Copy, Drop)]
pub struct ListProgress {
    /// How many more lines may be printed.
    pub left: usize,
    /// Whether all rows up to there could be read.
    pub whole: bool,
    /// Whether the list has more rows.
    pub more: bool,
}

/// Prints exactly one line for each row of a list, in order, up to `left` rows. For a row that can't be read the line is `word`
/// and the reason.
/// If there are more rows, a line says that `limit` rows are printed. If the list claims more items past the end of the bytes, a
/// line says how many.
/// The outcome is whole if all rows were printed and could be read and none is past the end. It also says how many lines are left.
pub fn print_listing<L: Listing, O: Write>(
    list: &mut L,
    word: &str,
    limit: usize,
    left: usize,
    out: &mut O,
) -> io::Result<Outcome>
    ensures { IfOk result (λ outcome. WritesFirstLines word.now limit left (L.left list.old) (L.past_name list.old) (L.past list.old) outcome.whole
        outcome.left (O.contents out.old) (O.contents out.new)) }
{
    let (name, past) = (list.past_name(), list.past());
    let reported = print_rows(list, word, left, out)?;
    print_cut(limit, reported.more, out)?;
    print_past(name, past, out)?;
    Ok(Outcome {
        whole: reported.whole & !reported.more & (past == 0),
        left: reported.left,
    })
}

/// Prints how many more items of this name a list claims, with records that begin past the end of the bytes, if there are some.
pub fn print_past<O: Write>(name: &str, past: usize, out: &mut O) -> io::Result<()>
    ensures { OnOk result (Appends (O.contents out.old) (O.contents out.new) (past_line name.now past)) }
{
    if past > 0 {
        writeln!(out, "{past} more {name} past the end")?;
    }
    Ok(())
}

/// Prints that there are more rows than the limit, if so.
pub fn print_cut<O: Write>(limit: usize, more: bool, out: &mut O) -> io::Result<()>
    ensures { OnOk result (Appends (O.contents out.old) (O.contents out.new) (cut_line limit more)) }
{
    if more {
        writeln!(out, "limit: {limit} shown, and there are more")?;
    }
    Ok(())
}

/// Prints a line for each of the first rows of a list, up to a limit.
pub fn print_rows<L: Listing, O: Write>(
    list: &mut L,
    word: &str,
    limit: usize,
    out: &mut O,
) -> io::Result<ListProgress>
    ensures { IfOk result (WritesRows word.now limit (L.left list.old) (O.contents out.old) (O.contents out.new)) }
{
    let mut left = limit;
    let mut whole = true;
    'rows: while let Some(row) = list.next_row() {
        let Some(rest) = left.checked_sub(1) else {
            return Ok(ListProgress {
                left: 0,
                whole,
                more: true,
            });
        };
        left = rest;
        whole &= print_row::<L, O>(&row, word, out)?;
    }
    Ok(ListProgress {
        left,
        whole,
        more: false,
    })
}

/// Visits the first rows of a list, up to a limit, and prints nothing.
pub fn count_rows<L: Listing>(list: &mut L, limit: usize) -> ListProgress
    ensures { CountsRows limit (L.left list.old) result }
{
    let mut left = limit;
    let mut whole = true;
    'rows: while let Some(row) = list.next_row() {
        let Some(rest) = left.checked_sub(1) else {
            return ListProgress {
                left: 0,
                whole,
                more: true,
            };
        };
        left = rest;
        whole &= row.is_ok();
    }
    ListProgress {
        left,
        whole,
        more: false,
    }
}

// Prints the line of a row, and returns whether it could be read.
fn print_row<L: Listing, O: Write>(
    answer: &goblin_mach::Result<L::Row>,
    word: &str,
    out: &mut O,
) -> io::Result<bool>
    ensures { IfOk result (λ whole. (whole ≡ is_ok answer.now) × Appends (O.contents out.old) (O.contents out.new)
        (reported_line word.now (text_answer L.text answer.now))) }
{
    match answer {
        Ok(row) => {
            L::write_row(row, out)?;
            out.write_all(b"\n")?;
            Ok(true)
        }
        Err(error) => {
            let words = describe(error);
            writeln!(out, "{word}: {words}")?;
            Ok(false)
        }
    }
}
