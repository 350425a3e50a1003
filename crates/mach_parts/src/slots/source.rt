//! The tables from which slots are read.

ghost use Rattle.std.specs.Prelude.{◌≡◌, IfSome, Ok};
ghost use Rattle.mach_base.specs.Answer.{Reads};
ghost use Rattle.mach_parts.specs.SlotViews.{held_tables_of, slot_tables_of, slot_symbol_view, slot_view};
ghost use Rattle.mach_parts.specs.Slots.{slot_entry, named_symbol, slot_symbol, slot_of_entry};

use crate::indirect::{IndirectSymbol, IndirectSymbols};
use crate::slot::{SlotEntry, SlotSymbol, SymbolSlot};
use crate::slots::kind::SlotRun;
use crate::symbols::{CopiedSymbols, Symbols};
use mach_base::{Ctx, Error, Result};

/// The tables from which slots are read: the indirect symbol table and the symbols, if there are any. `ctx` has the width of a pointer.
#[derive(Clone, Copy)]
pub struct SlotSource<'a, 'b> {
    /// The indirect symbol table.
    pub indirect: IndirectSymbols<'a>,
    /// The symbols, if there are any.
    pub symbols: Option<&'b Symbols<'a>>,
    /// The width and the byte order.
    pub ctx: Ctx,
}

impl<'a, 'b> SlotSource<'a, 'b> {
    /// Returns the same tables, with the symbols by value.
    pub(crate) fn held(&self) -> HeldSource<'a>
        ensures { held_tables_of result ≡ slot_tables_of self.now }
    {
        HeldSource {
            indirect: self.indirect,
            symbols: match self.symbols {
                Some(symbols) => Some(symbols.copied()),
                None => None,
            },
            ctx: self.ctx,
        }
    }
}

/// The tables from which slots are read, with the symbols by value.
#[derive(Clone, Copy)]
pub struct HeldSource<'a> {
    pub indirect: IndirectSymbols<'a>,
    pub symbols: Option<CopiedSymbols<'a>>,
    pub ctx: Ctx,
}

impl<'a> HeldSource<'a> {
    /// Returns the entry of slot `j`. Fails if this slot and all later ones have none.
    #[inline(always)]
    pub(crate) fn entry(&self, run: &SlotRun, j: u64) -> Result<SlotEntry>
        ensures { Reads (λ e. e) result (slot_entry (held_tables_of self.now) run.now j) }
    {
        let Some(address) = run.address_of(j) else {
            return Err(Error::Malformed("a slot's address does not fit in 64 bits"));
        };
        let Some(index) = run.entry_of(j, self.indirect.len()) else {
            return Err(Error::Malformed("a slot's entry is past the table of indirect symbols"));
        };
        let says = self.indirect.get(index)?;
        Ok(SlotEntry {
            address,
            index,
            says,
        })
    }

    // Reads the symbol of a number, with its name.
    #[inline(always)]
    fn named(&self, index: u32) -> Result<SlotSymbol<'a>>
        ensures { Reads slot_symbol_view result (named_symbol (held_tables_of self.now).symbols index) }
    {
        match self.symbols {
            Some(symbols) if (index as usize) < symbols.len() => match symbols.get(index as usize) {
                Ok((name, _)) => Ok(SlotSymbol::Named { index, name }),
                Err(e) => Err(e),
            },
            _ => Err(Error::Malformed("an indirect symbol is past the table of symbols")),
        }
    }

    // Returns what a slot refers to, by its entry.
    #[inline(always)]
    fn symbol(&self, says: IndirectSymbol) -> Result<SlotSymbol<'a>>
        ensures { Reads slot_symbol_view result (slot_symbol (held_tables_of self.now).symbols says) }
    {
        match says {
            IndirectSymbol::Symbol(index) => self.named(index),
            IndirectSymbol::Local => Ok(SlotSymbol::Local),
            IndirectSymbol::Absolute => Ok(SlotSymbol::Absolute),
            IndirectSymbol::LocalAbsolute => Ok(SlotSymbol::LocalAbsolute),
        }
    }

    // Reads the symbol of a number, with its name, if the fast path finds it.
    #[inline(always)]
    fn quick_named(&self, index: u32) -> Option<SlotSymbol<'a>>
        ensures { IfSome result (λ s. named_symbol (held_tables_of self.now).symbols index ≡ Ok (slot_symbol_view s)) }
    {
        let Some(symbols) = self.symbols else {
            return None;
        };
        if index as usize >= symbols.len() {
            return None;
        }
        let name = symbols.quick_name(index as usize)?;
        Some(SlotSymbol::Named { index, name })
    }

    // Returns what a slot refers to, if the fast path finds it.
    #[inline(always)]
    fn quick_symbol(&self, says: IndirectSymbol) -> Option<SlotSymbol<'a>>
        ensures { IfSome result (λ s. slot_symbol (held_tables_of self.now).symbols says ≡ Ok (slot_symbol_view s)) }
    {
        match says {
            IndirectSymbol::Symbol(index) => self.quick_named(index),
            IndirectSymbol::Local => Some(SlotSymbol::Local),
            IndirectSymbol::Absolute => Some(SlotSymbol::Absolute),
            IndirectSymbol::LocalAbsolute => Some(SlotSymbol::LocalAbsolute),
        }
    }

    /// Returns the slot of an entry. For `None` the caller tries `slot`.
    #[inline(always)]
    pub(crate) fn quick_slot(&self, run: &SlotRun, entry: &SlotEntry) -> Option<SymbolSlot<'a>>
        ensures { IfSome result (λ s. slot_of_entry (held_tables_of self.now) run.now entry.now ≡ Ok (slot_view s)) }
    {
        let symbol = self.quick_symbol(entry.says)?;
        Some(SymbolSlot {
            segment: run.segment,
            section: run.section,
            address: entry.address,
            len: run.len,
            kind: run.kind,
            index: entry.index,
            symbol,
        })
    }

    /// Returns the slot of an entry. Fails if its symbol cannot be read.
    #[inline(always)]
    pub(crate) fn slot(&self, run: &SlotRun, entry: &SlotEntry) -> Result<SymbolSlot<'a>>
        ensures { Reads slot_view result (slot_of_entry (held_tables_of self.now) run.now entry.now) }
    {
        match self.symbol(entry.says) {
            Ok(symbol) => Ok(SymbolSlot {
                segment: run.segment,
                section: run.section,
                address: entry.address,
                len: run.len,
                kind: run.kind,
                index: entry.index,
                symbol,
            }),
            Err(e) => Err(e),
        }
    }
}
