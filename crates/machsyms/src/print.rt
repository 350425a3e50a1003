//! The lines of an image's symbols.

ghost use Rattle.std.specs.Prelude.{◌≡◌, Some, codes, option_map, string_bytes, IfOk};
ghost use Rattle.mach_parts.specs.SymbolViews.{table_of};
ghost use Rattle.mach_cli.specs.Listings.{WritesFirstLines};
ghost use Rattle.machsyms.specs.Lines.{selected_lines, past_the_end, symbols_over, unreadable_word};
ghost use Rattle.machsyms.specs.Order.{gone_over};
ghost use Rattle.machsyms.specs.Setting.{setting_view};

use crate::lines::SymbolLines;
use crate::order::SortKey;
use crate::selection::Request;
use crate::setting::Setting;
use goblin_mach::symbols::Symbols;
use mach_cli::{FileText, Outcome, print_listing};
use std::alloc::{AllocError, Allocator};
use std::io;
use std::io::Write;

/// Returns the word before the error of a symbol that can't be read.
pub fn unreadable_word<A: Allocator>(
    alloc: A,
    request: &Request<'_>,
) -> Result<String<A>, AllocError>
    ensures { IfOk result (λ word. string_bytes word ≡ unreadable_word request.now) }
{
    let file = FileText {
        file: request.file,
        is_raw: request.is_raw,
    };
    format!(in alloc; "{file}unreadable")
}

/// Prints the symbols of a table, if there is one: exactly a line for each selected symbol, in table order or by the keys; one
/// that can't be read has a line with the error, after a word.
///
/// It prints the first `left` of them; if there are more, a line that says that `limit` are printed; and one line for all whose
/// records begin past the end. Returns whether there are none of these and all were printed and can be read, and how many lines
/// are left.
pub fn print_symbols<A: Allocator, O: Write>(
    request: &Request<'_>,
    setting: &Setting<'_, '_, A>,
    keys: &[SortKey<'_>],
    table: &Option<Symbols<'_>>,
    word: &str,
    limit: usize,
    left: usize,
    out: &mut O,
) -> io::Result<Outcome>
    ensures { IfOk result (λ outcome. WritesFirstLines word.now limit left
        (selected_lines request.now (setting_view setting.now) (symbols_over (gone_over request.now.sorting keys.now) (option_map table_of table.now)))
        (codes "symbols") (past_the_end (option_map table_of table.now)) outcome.whole outcome.left (O.contents out.old) (O.contents out.new)) }
{
    match table {
        Some(table) => print_table(request, setting, keys, table, word, limit, left, out),
        None => Ok(Outcome { whole: true, left }),
    }
}

// Prints the symbols of a table.
fn print_table<A: Allocator, O: Write>(
    request: &Request<'_>,
    setting: &Setting<'_, '_, A>,
    keys: &[SortKey<'_>],
    table: &Symbols<'_>,
    word: &str,
    limit: usize,
    left: usize,
    out: &mut O,
) -> io::Result<Outcome>
    ensures { IfOk result (λ outcome. WritesFirstLines word.now limit left
        (selected_lines request.now (setting_view setting.now) (symbols_over (gone_over request.now.sorting keys.now) (Some (table_of table.now))))
        (codes "symbols") (past_the_end (Some (table_of table.now))) outcome.whole outcome.left (O.contents out.old) (O.contents out.new)) }
{
    let in_bounds = table.in_bounds();
    let past = table.len() - in_bounds.len();
    let mut lines = SymbolLines::of(*request, setting, keys, &in_bounds, past);
    print_listing(&mut lines, word, limit, left, out)
}
