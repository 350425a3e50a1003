//! The lines of the selected symbols, one at a time.

ghost use Rattle.std.specs.Prelude.{◌≡◌, codes, OnOk};
ghost use Rattle.std.specs.Io.KnownBytes.{Appends};
ghost use Rattle.mach_parts.specs.SymbolViews.{table_of};
ghost use Rattle.machsyms.specs.Listed.{lines_left, lines_past, symbol_line_text};
ghost use Rattle.machsyms.specs.Lines.{selected_lines};
ghost use Rattle.machsyms.specs.Order.{gone_over};
ghost use Rattle.machsyms.specs.Setting.{setting_view};

use crate::listed::RequestedSymbols;
use crate::order::SortKey;
use crate::selection::Request;
use crate::setting::Setting;
use crate::text::SymbolText;
use goblin_mach::symbols::Symbols;
use mach_cli::Listing;
use std::alloc::Allocator;
use std::io;
use std::io::Write;

/// The lines of a table's selected symbols, from one on.
#[derive(Drop)]
pub struct SymbolLines<'c, 's, 'k, 'b, 'a, A: Allocator> {
    request: Request<'s>,
    setting: &'c Setting<'b, 'a, A>,
    symbols: RequestedSymbols<'s, 'k, 'a>,
    past: usize,
}

impl<'c, 's, 'k, 'b, 'a, A: Allocator> SymbolLines<'c, 's, 'k, 'b, 'a, A> {
    /// Returns the lines of a table, in table order or by the keys; `past` more symbols begin past the end of the bytes.
    pub fn of(
        request: Request<'s>,
        setting: &'c Setting<'b, 'a, A>,
        keys: &'k [SortKey<'a>],
        table: &'k Symbols<'a>,
        past: usize,
    ) -> Self
        ensures lines { lines_left result ≡ selected_lines request.entry (setting_view setting.now) (gone_over request.entry.sorting keys.now
            (table_of table.now)) }
        ensures past { lines_past result ≡ past }
    {
        SymbolLines {
            request,
            setting,
            symbols: RequestedSymbols::of(request, keys, table),
            past,
        }
    }
}

impl<'c, 's, 'k, 'b, 'a, A: Allocator> Listing for SymbolLines<'c, 's, 'k, 'b, 'a, A> {
    type Row = SymbolText<'c, 's, 'b, 'a, A>;

    ghost text = { symbol_line_text };

    ghost left = { lines_left };

    ghost past = { lines_past };

    ghost past_name = { λ _. codes "symbols" };

    fn next_row(&mut self) -> Option<goblin_mach::Result<SymbolText<'c, 's, 'b, 'a, A>>> {
        let (request, setting) = (self.request, self.setting);
        match self.symbols.take_next()? {
            Ok((name, symbol)) => Some(Ok(SymbolText {
                request,
                setting,
                name,
                symbol,
            })),
            Err(error) => Some(Err(error)),
        }
    }

    fn past(&self) -> usize {
        self.past
    }

    fn past_name(&self) -> &'static str {
        "symbols"
    }

    fn write_row<O: Write>(row: &SymbolText<'c, 's, 'b, 'a, A>, out: &mut O) -> io::Result<()>
        ensures { OnOk result (Appends (O.contents out.old) (O.contents out.new) (symbol_line_text row.now)) }
    {
        write!(out, "{row}")
    }
}
