//! The members of an image's object: its rebases, binds and fixups.

ghost use Rattle.std.specs.Prelude.{IfOk};
ghost use Rattle.mach_cli.specs.Fields.{fields_object};
ghost use Rattle.mach_cli.specs.JsonArrays.{WritesListMembers, WritesMember};
ghost use Rattle.machfixups.specs.JsonImages.{pointer_members};
ghost use Rattle.machfixups.specs.RowFields.{texts_reported};
ghost use Rattle.machfixups.specs.RowsLeft.{image_rows_left, rows_left};

use crate::lists::ImageRows;
use crate::rows::Rows;
use mach_cli::{InForm, ListProgress, Object, Outcome, print_end, print_member, then};
use std::alloc::Allocator;
use std::io;
use std::io::Write;

/// Writes the members of an image with these rows: exactly one object for each row of each list. The object of an item that can't
/// be read has the error.
///
/// Of all objects it writes the first `left`, and whether there are more; the rest is not read then. Each object uses up one of
/// the limit for the images after it.
pub fn write_members<A: Allocator, O: Write>(
    rows: ImageRows<'_, '_, '_, A>,
    left: usize,
    out: &mut O,
) -> io::Result<Outcome>
    ensures { IfOk result (λ outcome. WritesListMembers left (pointer_members (image_rows_left rows.entry)) outcome.whole outcome.left
        (O.contents out.old) (O.contents out.new)) }
{
    let rebases = write_list("rebases", rows.rebases, left, out)?;
    let binds = write_list("binds", rows.binds, rebases.left, out)?;
    let weak = write_list("weak", rows.weak, binds.left, out)?;
    let chains = write_list("chains", rows.chains, weak.left, out)?;
    let last = then(weak, chains);
    let rest = then(binds, last);
    let reported = then(rebases, rest);
    print_end(reported, out)
}

// Writes an object for each row of a list, up to the limit.
fn write_list<A: Allocator, O: Write>(
    name: &str,
    list: Rows<'_, '_, '_, A>,
    limit: usize,
    out: &mut O,
) -> io::Result<ListProgress>
    ensures { IfOk result (WritesMember name.now limit (texts_reported fields_object (rows_left list.entry)) (O.contents out.old) (O.contents out.new)) }
{
    let mut objects = InForm {
        list,
        form: Object,
        past: 0,
        past_name: "",
    };
    print_member(name, &mut objects, limit, out)
}
