//! The selected symbols, one at a time.

ghost use Rattle.std.specs.Prelude.{◌≡◌, Some, OnOk};
ghost use Rattle.std.specs.Io.KnownBytes.{Appends};
ghost use Rattle.std.specs.Iterator.{YieldsFirstBy};
ghost use Rattle.std.specs.List.{filter};
ghost use Rattle.mach_base.specs.Items.{read_as};
ghost use Rattle.mach_parts.specs.SymbolViews.{symbol_read, table_of};
ghost use Rattle.machsyms.specs.Request.{takes};
ghost use Rattle.machsyms.specs.JsonSymbols.{symbol_reported};
ghost use Rattle.machsyms.specs.Listed.{selected_left, keyed_left, symbol_objects_left, source_left, symbol_row_text};
ghost use Rattle.machsyms.specs.Order.{gone_over};

use crate::order::SortKey;
use crate::selection::{Request, Sorting};
use goblin_mach::symbols::{Nlist, SymbolIterator, Symbols};
use mach_cli::{JsonString, Listing};
use std::fmt::{Display, Formatter};
use std::io::Write;
use std::{fmt, io};

// The symbols of a table by their keys, from one on.
#[derive(Clone, Copy)]
struct KeyedSymbols<'k, 'a> {
    keys: &'k [SortKey<'a>],
    table: &'k Symbols<'a>,
    index: usize,
}

impl<'a> KeyedSymbols<'_, 'a> {
    // Returns the next symbol.
    fn take_next(&mut self) -> Option<goblin_mach::Result<(&'a str, Nlist)>>
        ensures { YieldsFirstBy symbol_read keyed_left self.old result self.new }
    {
        let index = self.index;
        match self.keys.get(index) {
            Some(key) => {
                self.index = index + 1;
                Some(self.table.get(key.index))
            }
            None => None,
        }
    }
}

// The symbols of a table, in table order or by their keys.
#[derive(Drop)]
enum Source<'k, 'a> {
    Table(SymbolIterator<'a>),
    Keys(KeyedSymbols<'k, 'a>),
}

impl<'k, 'a> Source<'k, 'a> {
    // Returns the symbols of a table in the selected order.
    fn of(sorting: Option<Sorting>, keys: &'k [SortKey<'a>], table: &'k Symbols<'a>) -> Self
        ensures { source_left result ≡ gone_over sorting keys.now (table_of table.now) }
    {
        match sorting {
            None => Source::Table(table.iter()),
            Some(_) => Source::Keys(KeyedSymbols {
                keys,
                table,
                index: 0,
            }),
        }
    }

    // Returns the next symbol.
    fn take_next(&mut self) -> Option<goblin_mach::Result<(&'a str, Nlist)>>
        ensures { YieldsFirstBy symbol_read source_left self.old result self.new }
    {
        match self {
            Source::Table(symbols) => symbols.next(),
            Source::Keys(symbols) => symbols.take_next(),
        }
    }
}

/// A symbol with its name.
#[derive(Drop)]
pub struct SymbolRow<'a> {
    pub name: &'a str,
    pub symbol: Nlist,
}

impl Display for SymbolRow<'_> {
    ghost output = { λ row. Some (symbol_row_text row) };

    fn fmt<W: fmt::Write>(&self, f: &mut Formatter<W>) -> fmt::Result {
        let name = JsonString(self.name);
        let Nlist {
            n_type,
            n_sect,
            n_desc,
            n_value,
            ..
        } = &self.symbol;
        write!(
            f,
            "{{\"desc\":{n_desc},\"n_type\":{n_type},\"name\":{name},\"section\":{n_sect},\"value\":{n_value}}}"
        )
    }
}

// Returns a symbol with its name, or its error.
fn row_of<'a>(answer: goblin_mach::Result<(&'a str, Nlist)>) -> goblin_mach::Result<SymbolRow<'a>>
    ensures { read_as symbol_row_text result ≡ symbol_reported (symbol_read answer.entry) }
{
    match answer {
        Ok((name, symbol)) => Ok(SymbolRow { name, symbol }),
        Err(error) => Err(error),
    }
}

/// The selected symbols of a table, from one on.
#[derive(Drop)]
pub struct RequestedSymbols<'s, 'k, 'a> {
    request: Request<'s>,
    source: Source<'k, 'a>,
}

impl<'s, 'k, 'a> RequestedSymbols<'s, 'k, 'a> {
    /// Returns the symbols of a table, in table order or by the keys.
    pub fn of(request: Request<'s>, keys: &'k [SortKey<'a>], table: &'k Symbols<'a>) -> Self
        ensures { selected_left result ≡ filter (takes request.entry) (gone_over request.entry.sorting keys.now (table_of table.now)) }
    {
        RequestedSymbols {
            request,
            source: Source::of(request.sorting, keys, table),
        }
    }

    /// Returns the next selected symbol.
    pub fn take_next(&mut self) -> Option<goblin_mach::Result<(&'a str, Nlist)>>
        ensures { YieldsFirstBy symbol_read selected_left self.old result self.new }
    {
        'symbols: while let Some(answer) = self.source.take_next() {
            if self.request.takes(&answer) {
                return Some(answer);
            }
        }
        None
    }
}

impl<'a> Listing for RequestedSymbols<'_, '_, 'a> {
    type Row = SymbolRow<'a>;

    ghost text = { symbol_row_text };

    ghost left = { symbol_objects_left };

    fn next_row(&mut self) -> Option<goblin_mach::Result<SymbolRow<'a>>> {
        match self.take_next() {
            Some(answer) => Some(row_of(answer)),
            None => None,
        }
    }

    fn past(&self) -> usize {
        0
    }

    fn past_name(&self) -> &'static str {
        ""
    }

    fn write_row<O: Write>(row: &SymbolRow<'a>, out: &mut O) -> io::Result<()>
        ensures { OnOk result (Appends (O.contents out.old) (O.contents out.new) (symbol_row_text row.now)) }
    {
        write!(out, "{row}")
    }
}
