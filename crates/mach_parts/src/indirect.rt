//! Indirect symbols (`mach-o/loader.h`, struct dysymtab_command).

ghost use Rattle.std.specs.Prelude.{◌≡◌, ◌+◌, ◌*◌, ◌<◌, ◌≤◌, ◌^◌, [], Err, IfSome, drop, length};
ghost use Rattle.mach_base.specs.Items.{items_in_bounds};
ghost use Rattle.mach_base.specs.Answer.{Reads};
ghost use Rattle.mach_base.specs.Fault.{fault_of};
ghost use Rattle.mach_base.specs.Number.{number, number_at};
ghost use Rattle.mach_parts.specs.IndirectSymbols.{indirect_in_bounds, indirect_symbol, indirect_symbol_at, indirect_symbols_of};
ghost use Rattle.mach_parts.specs.SlotViews.{indirect_table_of, indirect_read, indirect_left};

use mach_base::{ByteCount, Endian, Error, Result, read_u32, records_in_bounds, rest_at};
use std::fmt;

const INDIRECT_SYMBOL_LOCAL: u32 = 0x8000_0000;

const INDIRECT_SYMBOL_ABS: u32 = 0x4000_0000;

const INDIRECT_SYMBOL_LOCAL_ABS: u32 = INDIRECT_SYMBOL_LOCAL | INDIRECT_SYMBOL_ABS;

/// An entry of the indirect symbol table.
#[derive(Clone, Copy, Debug)]
pub enum IndirectSymbol {
    /// The number of a symbol.
    Symbol(u32),
    /// The pointer is local to the image. No symbol names it.
    Local,
    /// The pointer is an absolute value.
    Absolute,
    /// The pointer is local to the image and an absolute value.
    LocalAbsolute,
}

impl IndirectSymbol {
    /// Decodes the number of an entry.
    #[inline(always)]
    pub fn of(number: u32) -> IndirectSymbol
        ensures { result ≡ indirect_symbol number }
    {
        match number {
            INDIRECT_SYMBOL_LOCAL => IndirectSymbol::Local,
            INDIRECT_SYMBOL_ABS => IndirectSymbol::Absolute,
            INDIRECT_SYMBOL_LOCAL_ABS => IndirectSymbol::LocalAbsolute,
            _ => IndirectSymbol::Symbol(number),
        }
    }
}

/// An indirect symbol table: a number of four-byte entries at a place of the bytes.
#[derive(Clone, Copy)]
pub struct IndirectSymbols<'a> {
    bytes: &'a [u8],
    start: u32,
    count: u32,
    le: Endian,
}

// Returns the reason why no entry lies at a place.
#[cold]
#[inline(never)]
fn beyond(bytes: &[u8], place: usize, le: Endian) -> Error
    requires { length bytes.now < place + 4 }
    ensures { number_at le 4 bytes.now place ≡ Err (fault_of result) }
{
    match read_u32(bytes, place, le) {
        Err(e) => e,
        Ok(_) => unreachable!(),
    }
}

impl<'a> IndirectSymbols<'a> {
    /// Builds the table of `count` entries from `start` on. Nothing is tested.
    pub fn new(bytes: &'a [u8], start: u32, count: u32, le: Endian) -> IndirectSymbols<'a>
        ensures { indirect_table_of result ≡ record { bytes = bytes.now; start = start; count = count; le = le } }
    {
        IndirectSymbols {
            bytes,
            start,
            count,
            le,
        }
    }

    /// Returns the claimed number of entries.
    pub fn len(&self) -> u32
        ensures { result ≡ (indirect_table_of self.now).count }
    {
        self.count
    }

    /// Returns the same table restricted to the entries that begin within the bytes. No byte of any later entry can be read.
    pub fn in_bounds(&self) -> IndirectSymbols<'a>
        ensures { indirect_table_of result ≡ indirect_in_bounds (indirect_table_of self.now) }
    {
        let in_bounds = records_in_bounds(self.bytes, self.start as usize, 4);
        IndirectSymbols {
            count: (self.count as usize).min(in_bounds) as u32,
            ..*self
        }
    }

    /// Reads entry `number`. Whether it is below the claimed number of entries is not tested.
    #[inline(always)]
    pub fn get(&self, number: u32) -> Result<IndirectSymbol>
        ensures { Reads (λ s. s) result (indirect_symbol_at (indirect_table_of self.now) number) }
    {
        let place = self.start as usize + 4 * number as usize;
        if self.bytes.len() < place + 4 {
            return Err(beyond(self.bytes, place, self.le));
        }
        Ok(IndirectSymbol::of(self.le.u32_at(self.bytes, place)))
    }

    // Returns the bytes from an entry's place on, if that is in the bytes or at their end.
    pub(crate) fn entries_from(&self, number: u32) -> Option<&'a [u8]>
        ensures there { IfSome result (λ _. (indirect_table_of self.now).start + 4 * number ≤ length (indirect_table_of self.now).bytes) }
        ensures bytes { IfSome result (λ rest. rest.now ≡ drop ((indirect_table_of self.now).start + 4 * number) (indirect_table_of self.now).bytes) }
    {
        let from = self.start as usize + 4 * number as usize;
        if self.bytes.len() < from {
            return None;
        }
        Some(rest_at(self.bytes, from))
    }

    // Decodes the entry with which some bytes begin.
    #[inline(always)]
    pub(crate) fn first_of(&self, entries: &[u8]) -> IndirectSymbol
        requires { 4 ≤ length entries.now }
        ensures { result ≡ indirect_symbol (number (indirect_table_of self.now).le 4 entries.now) }
    {
        IndirectSymbol::of(self.le.u32_at(entries, 0))
    }

    /// Returns an iterator over the entries in order. It has exactly the claimed number of items, including unreadable ones.
    pub fn iter(&self) -> IndirectSymbolIterator<'a>
        ensures { indirect_left result ≡ indirect_symbols_of (indirect_table_of self.now) }
    {
        IndirectSymbolIterator {
            table: *self,
            next_item: 0,
        }
    }
}

impl fmt::Debug for IndirectSymbols<'_> {
    /// Prints where the entries lie, with the number of bytes instead of the bytes.
    fn fmt<W: fmt::Write>(&self, f: &mut fmt::Formatter<W>) -> fmt::Result {
        f.debug_struct("IndirectSymbols")
            .field("bytes", &ByteCount(self.bytes))
            .field("start", &self.start)
            .field("count", &self.count)
            .field("le", &self.le)
            .finish()
    }
}

/// An iterator over indirect symbols. Each item is what `get` returns, so an entry
/// that cannot be read is an error and the iterator goes on. It allocates no memory.
#[derive(Clone, Copy, Debug)]
pub struct IndirectSymbolIterator<'a> {
    table: IndirectSymbols<'a>,
    next_item: u32,
}

impl IndirectSymbolIterator<'_> {
    /// Returns the same iterator restricted to the entries that begin within the bytes. No byte of any later entry can be read.
    pub fn in_bounds(&self) -> Self
        ensures { indirect_left result ≡ items_in_bounds (indirect_left self.now) }
    {
        IndirectSymbolIterator {
            table: self.table.in_bounds(),
            next_item: self.next_item,
        }
    }
}

impl Default for IndirectSymbolIterator<'_> {
    ghost is_default = { λ it. indirect_left it ≡ [] };

    /// Returns an iterator without entries.
    fn default() -> Self {
        IndirectSymbols::new(&[], 0, 0, Endian::Little).iter()
    }
}

impl<'a> Iterator for IndirectSymbolIterator<'a> {
    type Item = Result<IndirectSymbol>;

    ghost use Rattle.std.specs.Prelude.{Some, IfSome};
    ghost use Rattle.std.specs.Iterator.{YieldsFirstBy, UpTo, item_count};
    ghost use Rattle.std.specs.Iterator.SizeHint.{IsWithinCount};

    ghost next_gives = { YieldsFirstBy indirect_read indirect_left };

    ghost remaining = { item_count indirect_left };

    #[inline(always)]
    fn next(&mut self) -> Option<Result<IndirectSymbol>> {
        if self.next_item >= self.table.count {
            return None;
        }
        let number = self.next_item;
        self.next_item += 1;
        Some(self.table.get(number))
    }

    /// Returns the exact number of items left, as both bounds.
    fn size_hint(&self) -> (usize, Option<usize>)
        ensures lower { IsWithinCount result.0 (item_count indirect_left self.now) }
        ensures upper { IfSome result.1 (UpTo (item_count indirect_left self.now)) }
        ensures exact { result ≡ (length (indirect_left self.now), Some (length (indirect_left self.now))) }
    {
        let left = self.len();
        (left, Some(left))
    }
}

impl<'a> ExactSizeIterator for IndirectSymbolIterator<'a> {
    /// Returns the number of items left.
    fn len(&self) -> usize {
        self.table.count.saturating_sub(self.next_item) as usize
    }
}
