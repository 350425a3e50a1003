//! Reads symbols one after another.

ghost use Rattle.std.specs.Prelude.{◌≡◌, ◌<◌, ◌^◌, [], Ok, length, drop, IfSome};
ghost use Rattle.mach_base.specs.Answer.{Reads};
ghost use Rattle.mach_base.specs.KeptText.{kept_bytes};
ghost use Rattle.mach_base.specs.Text.{text_at};

use crate::symbols::Table;
use crate::symbols::nlist::Nlist;
use mach_base::{Ctx, KeptText, Result, quick_text};

// The number of bytes in which the end of a name is searched first.
const FRONT: usize = 256;

// Returns the text at a place if it ends within `FRONT` bytes. The fixed number makes the search fast.
#[inline(always)]
fn short_text(bytes: &[u8], place: usize) -> Option<&str>
    ensures { IfSome result (λ text. text_at bytes.now place ≡ Ok text.now) }
{
    if bytes.len() < FRONT || place > bytes.len() - FRONT {
        return None;
    }
    let front = &bytes[place..place + FRONT];
    let text = quick_text(front, 0)?;
    if text.len() >= FRONT {
        return None;
    }
    Some(text)
}

// Reads the text at a place, of any length. Few names need it.
#[cold]
#[inline(never)]
fn long_text<'a>(names: &mut KeptText<'a>, place: usize) -> Result<&'a str>
    ensures text { Reads (λ text. text.now) result (text_at (kept_bytes names.old) place) }
    ensures bytes { kept_bytes names.new ≡ kept_bytes names.old }
{
    names.read(place)
}

// A table whose names are read one after another.
#[derive(Clone, Copy)]
struct NamedTable<'a> {
    table: Table<'a>,
    // Reads the long names. The common end of several is searched once.
    names: KeptText<'a>,
    ghost same_bytes: { kept_bytes names ≡ table.bytes.now },
}

impl<'a> NamedTable<'a> {
    ghost use Rattle.mach_parts.specs.Symbols.{symbol_at};
    ghost use Rattle.mach_parts.specs.SymbolViews.{table_view, symbol_read};

    // Reads a symbol with its name.
    #[tactic(auto, unfolding(crate::specs::Symbols::symbol_at))]
    #[inline(always)]
    fn symbol(&mut self, index: usize) -> Result<(&'a str, Nlist)>
        ensures symbol { symbol_read result ≡ symbol_at (table_view self.old.table) index }
        ensures table { self.new.table ≡ self.old.table }
    {
        let table = self.table;
        let symbol = Nlist::read(table.bytes, table.place(index), table.ctx)?;
        let place = table.strtab.saturating_add(symbol.n_strx);
        if let Some(name) = short_text(table.bytes, place) {
            return Ok((name, symbol));
        }
        // A copy: with a reference the loop of a caller would keep the iterator in memory.
        let mut names = self.names;
        let name = long_text(&mut names, place);
        self.names = names;
        Ok((name?, symbol))
    }
}

/// An iterator over symbols. Each item is what `get` returns.
#[derive(Clone, Drop)]
pub struct SymbolIterator<'a> {
    source: NamedTable<'a>,
    index: usize,
}

impl<'a> SymbolIterator<'a> {
    ghost use Rattle.mach_parts.specs.Symbols.{symbols_of};
    ghost use Rattle.mach_parts.specs.SymbolViews.{table_view, symbols_left};

    // Builds an iterator over all symbols of a table.
    pub(super) fn new(table: Table<'a>) -> Self
        ensures items { symbols_left result ≡ symbols_of (table_view table.entry) }
        ensures bounded { length (symbols_left result) < 2 ^ 64 }
    {
        SymbolIterator {
            source: NamedTable {
                table,
                names: KeptText::new(table.bytes),
            },
            index: 0,
        }
    }

    // Builds an iterator over the symbols of a table from a number on.
    pub(super) fn from_number(table: Table<'a>, first: usize) -> Self
        ensures { symbols_left result ≡ drop first (symbols_of (table_view table.entry)) }
    {
        SymbolIterator {
            source: NamedTable {
                table,
                names: KeptText::new(table.bytes),
            },
            index: first,
        }
    }
}

impl<'a> Default for SymbolIterator<'a> {
    ghost use Rattle.mach_parts.specs.SymbolViews.{symbols_left};

    ghost is_default = { λ i. symbols_left i ≡ [] };

    /// Returns an iterator without symbols.
    fn default() -> Self {
        SymbolIterator::new(Table {
            bytes: &[],
            start: 0,
            nsyms: 0,
            strtab: 0,
            ctx: Ctx::default(),
        })
    }
}

impl<'a> Iterator for SymbolIterator<'a> {
    type Item = Result<(&'a str, Nlist)>;

    ghost use Rattle.std.specs.Prelude.{Some, IfSome};
    ghost use Rattle.std.specs.Iterator.{YieldsFirstBy, UpTo, item_count};
    ghost use Rattle.std.specs.Iterator.SizeHint.{IsWithinCount};
    ghost use Rattle.mach_parts.specs.SymbolViews.{symbol_read, symbols_left};

    ghost next_gives = { YieldsFirstBy symbol_read symbols_left };

    ghost remaining = { item_count symbols_left };

    #[inline(always)]
    fn next(&mut self) -> Option<Result<(&'a str, Nlist)>> {
        if self.index >= self.source.table.nsyms {
            return None;
        }
        let index = self.index;
        self.index += 1;
        Some(self.source.symbol(index))
    }

    /// Returns the exact number of items left, as both bounds.
    fn size_hint(&self) -> (usize, Option<usize>)
        ensures lower { IsWithinCount result.0 (item_count symbols_left self.now) }
        ensures upper { IfSome result.1 (UpTo (item_count symbols_left self.now)) }
        ensures exact { result ≡ (length (symbols_left self.now), Some (length (symbols_left self.now))) }
    {
        let left = self.len();
        (left, Some(left))
    }
}

impl<'a> ExactSizeIterator for SymbolIterator<'a> {
    /// Returns the number of items left.
    fn len(&self) -> usize {
        self.source.table.nsyms.saturating_sub(self.index)
    }
}
