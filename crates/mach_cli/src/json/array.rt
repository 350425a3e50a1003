//! JSON arrays of the rows of lists.

ghost use Rattle.std.specs.Prelude.{◌≡◌, ◌==◌, ◌++◌, ◌&&◌, ◌||◌, [], not, IfOk};
ghost use Rattle.std.specs.Io.KnownBytes.{Appends};
ghost use Rattle.std.specs.Result.{is_ok};
ghost use Rattle.mach_cli.specs.Listings.{text_answer};
ghost use Rattle.mach_cli.specs.JsonArrays.{comma_before, lists_end, lists_end_past, row_object, WritesArray, WritesMember, WritesObjects};

use crate::image_view::Outcome;
use crate::listing::{ListProgress, Listing};
use goblin_mach::describe;
use std::io;
use std::io::Write;

/// Writes an array as a member of this name, with a comma after it: exactly an object for each of the first rows of a list, up to a limit.
pub fn print_member<L: Listing, O: Write>(
    name: &str,
    list: &mut L,
    limit: usize,
    out: &mut O,
) -> io::Result<ListProgress>
    ensures { IfOk result (WritesMember name.now limit (L.left list.old) (O.contents out.old) (O.contents out.new)) }
{
    write!(out, "\"{name}\":")?;
    let reported = print_array(list, limit, out)?;
    write!(out, ",")?;
    Ok(reported)
}

/// Writes an empty array as a member of this name, with a comma after it: the array of a list that isn't printed.
pub fn print_empty<O: Write>(name: &str, limit: usize, out: &mut O) -> io::Result<ListProgress>
    ensures { IfOk result (WritesMember name.now limit [] (O.contents out.old) (O.contents out.new)) }
{
    write!(out, "\"{name}\":")?;
    write!(out, "[]")?;
    write!(out, ",")?;
    Ok(ListProgress {
        left: limit,
        whole: true,
        more: false,
    })
}

/// Writes what follows the members of an image's lists, and returns their outcome.
pub fn print_end<O: Write>(reported: ListProgress, out: &mut O) -> io::Result<Outcome>
    ensures { IfOk result (λ outcome. (outcome.whole ≡ (reported.whole && not reported.more)) × (outcome.left ≡ reported.left)
        × Appends (O.contents out.old) (O.contents out.new) (lists_end reported.more)) }
{
    let more = reported.more;
    write!(out, "\"kind\":\"image\",\"limit_met\":{more}")?;
    Ok(Outcome {
        whole: reported.whole & !reported.more,
        left: reported.left,
    })
}

/// Writes what follows the members of an image's lists, with how many more items they claim past the end of the bytes, and
/// returns their outcome.
pub fn print_end_past<O: Write>(
    reported: ListProgress,
    past: usize,
    out: &mut O,
) -> io::Result<Outcome>
    ensures { IfOk result (λ outcome. (outcome.whole ≡ ((reported.whole && not reported.more) && (past == 0))) × (outcome.left ≡ reported.left)
        × Appends (O.contents out.old) (O.contents out.new) (lists_end_past reported.more past)) }
{
    let outcome = print_end(reported, out)?;
    write!(out, ",\"past_the_end\":{past}")?;
    Ok(Outcome {
        whole: outcome.whole & (past == 0),
        left: outcome.left,
    })
}

/// Writes an array: exactly an object for each of the first rows of a list, up to a limit, in order. For a row that can't be read
/// the object gives the reason.
pub fn print_array<L: Listing, O: Write>(
    list: &mut L,
    limit: usize,
    out: &mut O,
) -> io::Result<ListProgress>
    ensures { IfOk result (WritesArray limit (L.left list.old) (O.contents out.old) (O.contents out.new)) }
{
    write!(out, "[")?;
    let reported = print_objects(list, limit, out)?;
    write!(out, "]")?;
    Ok(reported)
}

// Writes an object for each of the first rows of a list, up to a limit.
fn print_objects<L: Listing, O: Write>(
    list: &mut L,
    limit: usize,
    out: &mut O,
) -> io::Result<ListProgress>
    ensures { IfOk result (WritesObjects limit (L.left list.old) (O.contents out.old) (O.contents out.new)) }
{
    let mut left = limit;
    let mut whole = true;
    let mut is_first = true;
    'rows: while let Some(row) = list.next_row() {
        let Some(rest) = left.checked_sub(1) else {
            return Ok(ListProgress {
                left: 0,
                whole,
                more: true,
            });
        };
        left = rest;
        whole &= print_object::<L, O>(&row, is_first, out)?;
        is_first = false;
    }
    Ok(ListProgress {
        left,
        whole,
        more: false,
    })
}

// Writes the object of a row, after a comma unless it is the first, and returns whether the row could be read.
fn print_object<L: Listing, O: Write>(
    answer: &goblin_mach::Result<L::Row>,
    is_first: bool,
    out: &mut O,
) -> io::Result<bool>
    ensures { IfOk result (λ whole. (whole ≡ is_ok answer.now) × Appends (O.contents out.old) (O.contents out.new)
        (comma_before is_first ++ row_object (text_answer L.text answer.now))) }
{
    out.write_all(comma_before(is_first).as_bytes())?;
    match answer {
        Ok(row) => {
            L::write_row(row, out)?;
            Ok(true)
        }
        Err(error) => {
            let words = describe(error);
            write!(out, "{{\"error\":\"{words}\"}}")?;
            Ok(false)
        }
    }
}

/// Returns the separator before the next element.
pub fn comma_before(is_first: bool) -> &'static str
    ensures { result.now ≡ comma_before is_first }
{
    if is_first { "" } else { "," }
}

/// Returns the state after two lists, given the state after each; the second started with what the first left.
pub fn then(first: ListProgress, next: ListProgress) -> ListProgress
    ensures { (result.left ≡ next.left) × (result.whole ≡ (first.whole && next.whole)) × (result.more ≡ (first.more || next.more)) }
{
    ListProgress {
        left: next.left,
        whole: first.whole & next.whole,
        more: first.more | next.more,
    }
}
