//! The members of the object of an image: its symbols.

ghost use Rattle.std.specs.Prelude.{Some, None, option_map, IfOk};
ghost use Rattle.mach_parts.specs.SymbolViews.{table_of};
ghost use Rattle.machsyms.specs.JsonSymbols.{symbol_members, WritesSymbolMembers};
ghost use Rattle.machsyms.specs.Lines.{past_the_end, symbols_over};
ghost use Rattle.machsyms.specs.Order.{gone_over};

use crate::listed::RequestedSymbols;
use crate::order::SortKey;
use crate::selection::Request;
use goblin_mach::symbols::Symbols;
use mach_cli::{Outcome, print_empty, print_end_past, print_member};
use std::io;
use std::io::Write;

/// Writes the members of an image with the symbols of its table, if it has one. They have exactly one object for each selected
/// symbol, also for one that can't be read, in table order or by the keys: the first `left`; whether there are more; and how many
/// begin past the end. Returns whether all were written and can be read, and how many more may be.
pub fn write_members<'a, O: Write>(
    request: &Request<'_>,
    keys: &[SortKey<'a>],
    table: &Option<Symbols<'a>>,
    left: usize,
    out: &mut O,
) -> io::Result<Outcome>
    ensures { IfOk result (λ outcome. WritesSymbolMembers left
        (symbol_members request.now (symbols_over (gone_over request.now.sorting keys.now) (option_map table_of table.now)))
        (past_the_end (option_map table_of table.now)) outcome.whole outcome.left (O.contents out.old) (O.contents out.new)) }
{
    match table {
        Some(table) => write_table(request, keys, table, left, out),
        None => write_none(request, keys, left, out),
    }
}

// Writes the members of a table.
fn write_table<'a, O: Write>(
    request: &Request<'_>,
    keys: &[SortKey<'a>],
    table: &Symbols<'a>,
    left: usize,
    out: &mut O,
) -> io::Result<Outcome>
    ensures { IfOk result (λ outcome. WritesSymbolMembers left
        (symbol_members request.now (symbols_over (gone_over request.now.sorting keys.now) (Some (table_of table.now))))
        (past_the_end (Some (table_of table.now))) outcome.whole outcome.left (O.contents out.old) (O.contents out.new)) }
{
    let in_bounds = table.in_bounds();
    let past = table.len() - in_bounds.len();
    let mut symbols = RequestedSymbols::of(*request, keys, &in_bounds);
    let reported = print_member("symbols", &mut symbols, left, out)?;
    print_end_past(reported, past, out)
}

// Writes the members of an image without a table.
fn write_none<O: Write>(
    request: &Request<'_>,
    keys: &[SortKey<'_>],
    left: usize,
    out: &mut O,
) -> io::Result<Outcome>
    ensures { IfOk result (λ outcome. WritesSymbolMembers left (symbol_members request.now (symbols_over (gone_over request.now.sorting keys.now) None))
        (past_the_end None) outcome.whole outcome.left (O.contents out.old) (O.contents out.new)) }
{
    let reported = print_empty("symbols", left, out)?;
    print_end_past(reported, 0, out)
}
