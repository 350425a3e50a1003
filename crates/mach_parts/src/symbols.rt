//! Symbols and their names (`mach-o/nlist.h`).

ghost use Rattle.std.specs.Prelude.{◌≡◌, ◌<◌, ◌^◌, ◌↔◌, [], Ok, length, drop, IfSome, IsTrue};
ghost use Rattle.mach_base.specs.declared.context.Endian.TheVariants.{Little};
ghost use Rattle.mach_base.specs.declared.context.Container.TheVariants.{Big};
ghost use Rattle.mach_base.specs.Answer.{Reads};
ghost use Rattle.mach_base.specs.Number.{place_after};
ghost use Rattle.mach_parts.specs.Symbols.{table_in_bounds, symbol_place, symbol_record_at, symbol_at, symbol_name_at, symbols_of, table_at};
ghost use Rattle.mach_parts.specs.SymbolViews.{copied_table, table_of, table_view, symbol_read, symbols_left};

mod iterator;
pub mod laws;
mod names;
mod nlist;

pub use crate::symbols::iterator::SymbolIterator;
pub use crate::symbols::names::{
    MAX_SECT, N_ABS, N_AST, N_BCOMM, N_BINCL, N_BNSYM, N_DESC_DISCARDED, N_ECOML, N_ECOMM, N_EINCL,
    N_ENSYM, N_ENTRY, N_EXCL, N_EXT, N_FNAME, N_FUN, N_GSYM, N_INDR, N_LBRAC, N_LCSYM, N_LENG,
    N_LSYM, N_NO_DEAD_STRIP, N_OLEVEL, N_OPT, N_OSO, N_PARAMS, N_PBUD, N_PC, N_PEXT, N_PSYM,
    N_RBRAC, N_RSYM, N_SECT, N_SLINE, N_SO, N_SOL, N_SSYM, N_STAB, N_STSYM, N_TYPE, N_UNDF,
    N_VERSION, N_WEAK_DEF, N_WEAK_REF, NLIST_TYPE_GLOBAL, NLIST_TYPE_LOCAL, NLIST_TYPE_MASK,
    NO_SECT, REFERENCE_FLAG_DEFINED, REFERENCE_FLAG_PRIVATE_DEFINED,
    REFERENCE_FLAG_PRIVATE_UNDEFINED_LAZY, REFERENCE_FLAG_PRIVATE_UNDEFINED_NON_LAZY,
    REFERENCE_FLAG_UNDEFINED_LAZY, REFERENCE_FLAG_UNDEFINED_NON_LAZY, REFERENCE_TYPE,
    REFERENCED_DYNAMICALLY, n_type_to_str,
};
pub use crate::symbols::nlist::{Nlist, Nlist32, Nlist64, SIZEOF_NLIST_32, SIZEOF_NLIST_64};
use mach_base::{
    ByteCount, Ctx, Error, Result, ScrollError, SizeWith, TryFromCtx, quick_text, read_text,
    records_in_bounds,
};
use mach_records::SymtabCommand;
use std::fmt;

/// How the symbols in some bytes are read.
#[derive(Clone, Copy, Debug, Default)]
pub struct SymbolsCtx {
    /// The number of symbols.
    pub nsyms: usize,
    /// Where the string table begins.
    pub strtab: usize,
    /// The width of a record, and the byte order.
    pub ctx: Ctx,
}

// Symbol records from one place on, and names from another.
#[derive(Clone, Copy)]
struct Table<'a> {
    bytes: &'a [u8],
    start: usize,
    nsyms: usize,
    strtab: usize,
    ctx: Ctx,
}

impl<'a> Table<'a> {
    // Returns the place of a symbol's record, at most 2^64 - 1.
    #[inline(always)]
    fn place(self, index: usize) -> usize
        ensures { result ≡ symbol_place (table_view self.entry) index }
    {
        let before = index.saturating_mul(Nlist::size_with(&self.ctx));
        self.start.saturating_add(before)
    }

    // Reads a symbol with its name.
    #[tactic(auto, unfolding(crate::specs::Symbols::symbol_at))]
    #[inline(always)]
    fn symbol(self, index: usize) -> Result<(&'a str, Nlist)>
        ensures { symbol_read result ≡ symbol_at (table_view self.entry) index }
    {
        let symbol = Nlist::read(self.bytes, self.place(index), self.ctx)?;
        let name = read_text(self.bytes, self.strtab.saturating_add(symbol.n_strx))?;
        Ok((name, symbol))
    }
}

impl<'a> Table<'a> {
    // Like `symbol`, but returns only the name. Returns `None` if there is none or if a place exceeds 64 bits.
    #[tactic(auto, unfolding(crate::specs::Symbols::symbol_at))]
    #[inline(always)]
    fn quick_name(self, index: usize) -> Option<&'a str>
        ensures { IfSome result (λ name. symbol_name_at (table_view self.entry) index ≡ Ok name.now) }
    {
        let before = index.checked_mul(Nlist::size_with(&self.ctx))?;
        let place = self.start.checked_add(before)?;
        let Ok(symbol) = Nlist::read(self.bytes, place, self.ctx) else {
            return None;
        };
        quick_text(self.bytes, self.strtab.checked_add(symbol.n_strx)?)
    }
}

/// The symbols of an image with their names, which are slices of its bytes.
#[derive(Drop)]
pub struct Symbols<'a> {
    table: Table<'a>,
}

impl fmt::Debug for Symbols<'_> {
    /// Prints where the symbols lie, with the number of bytes instead of the bytes.
    fn fmt<W: fmt::Write>(&self, f: &mut fmt::Formatter<W>) -> fmt::Result {
        f.debug_struct("Symbols")
            .field("bytes", &ByteCount(self.table.bytes))
            .field("start", &self.table.start)
            .field("nsyms", &self.table.nsyms)
            .field("strtab", &self.table.strtab)
            .field("ctx", &self.table.ctx)
            .finish()
    }
}

impl<'a> Symbols<'a> {
    /// Builds the table of `count` records from `start` on, with names from `strtab`
    /// on, for a 64-bit little-endian image. Nothing is tested; it is always `Ok`.
    pub fn new(bytes: &'a [u8], start: usize, count: usize, strtab: usize) -> Result<Symbols<'a>>
        ensures { Reads table_of result
            (Ok (record { bytes = bytes.now; start = start; nsyms = count; strtab = strtab; ctx = record { container = Big; le = Little } })) }
    {
        Ok(Symbols {
            table: Table {
                bytes,
                start,
                nsyms: count,
                strtab,
                ctx: Ctx::default(),
            },
        })
    }

    /// Builds the table that a `LC_SYMTAB` command describes. Fails as `Malformed` if the string table lies
    /// before the records, and as `BadOffset` if the records begin at or past the end, even if there are none.
    pub fn parse(bytes: &'a [u8], symtab: &SymtabCommand, ctx: Ctx) -> Result<Symbols<'a>>
        ensures { Reads table_of result (table_at ctx bytes.now symtab.now) }
    {
        if symtab.stroff < symtab.symoff {
            return Err(Error::Malformed("the names of symbols begin before the symbols"));
        }
        let start = symtab.symoff as usize;
        if start >= bytes.len() {
            return Err(Error::Scroll(ScrollError::BadOffset(start)));
        }
        Ok(Symbols {
            table: Table {
                bytes,
                start,
                nsyms: symtab.nsyms as usize,
                strtab: symtab.stroff as usize,
                ctx,
            },
        })
    }

    /// Returns an iterator over the symbols in order. It has exactly the claimed number of items, including unreadable ones.
    pub fn iter(&self) -> SymbolIterator<'a>
        ensures items { symbols_left result ≡ symbols_of (table_of self.now) }
        ensures bounded { length (symbols_left result) < 2 ^ 64 }
    {
        SymbolIterator::new(self.table)
    }

    /// Builds the table of `count` records from `start` on, with names from
    /// `strtab` on, in the width and byte order of `ctx`. Nothing is tested.
    pub fn at(bytes: &'a [u8], start: usize, count: usize, strtab: usize, ctx: Ctx) -> Symbols<'a>
        ensures { table_of result ≡ record { bytes = bytes.now; start = start; nsyms = count; strtab = strtab; ctx = ctx } }
    {
        Symbols {
            table: Table {
                bytes,
                start,
                nsyms: count,
                strtab,
                ctx,
            },
        }
    }

    /// Returns the place of the first record.
    pub fn start(&self) -> usize
        ensures { result ≡ (table_of self.now).start }
    {
        self.table.start
    }

    /// Returns the claimed number of symbols.
    pub fn len(&self) -> usize
        ensures { result ≡ (table_of self.now).nsyms }
    {
        self.table.nsyms
    }

    /// Whether the claimed number of symbols is 0.
    pub fn is_empty(&self) -> bool
        ensures { IsTrue result ↔ ((table_of self.now).nsyms ≡ 0) }
    {
        self.table.nsyms == 0
    }

    /// Returns where the string table begins. The places of names count from there.
    pub fn strtab(&self) -> usize
        ensures { result ≡ (table_of self.now).strtab }
    {
        self.table.strtab
    }

    /// Returns the width of a record, and the byte order.
    pub fn ctx(&self) -> Ctx
        ensures { result ≡ (table_of self.now).ctx }
    {
        self.table.ctx
    }

    /// Returns the same table restricted to the symbols whose records begin within the bytes. No byte of any later symbol can be read.
    pub fn in_bounds(&self) -> Symbols<'a>
        ensures { table_of result ≡ table_in_bounds (table_of self.now) }
    {
        let size = Nlist::size_with(&self.table.ctx);
        let in_bounds = records_in_bounds(self.table.bytes, self.table.start, size);
        Symbols {
            table: Table {
                nsyms: self.table.nsyms.min(in_bounds),
                ..self.table
            },
        }
    }

    /// Returns the place of a symbol's name, at most 2^64 - 1.
    #[inline(always)]
    pub fn name_place(&self, symbol: &Nlist) -> usize
        ensures { result ≡ place_after (table_of self.now).strtab symbol.now.n_strx }
    {
        self.table.strtab.saturating_add(symbol.n_strx)
    }

    /// Returns an iterator over the symbols from number `first` on.
    pub fn iter_from(&self, first: usize) -> SymbolIterator<'a>
        ensures { symbols_left result ≡ drop first (symbols_of (table_of self.now)) }
    {
        SymbolIterator::from_number(self.table, first)
    }

    /// Returns the same symbols as a copyable value.
    pub fn copied(&self) -> CopiedSymbols<'a>
        ensures { copied_table result ≡ table_of self.now }
    {
        CopiedSymbols { copy: self.table }
    }

    /// Returns the bytes in which records and names are read.
    pub fn bytes(&self) -> &'a [u8]
        ensures { result.now ≡ (table_of self.now).bytes }
    {
        self.table.bytes
    }

    /// Reads the record of a symbol, and not its name. Whether `index` is below the claimed number of symbols is not tested.
    #[inline(always)]
    pub fn record(&self, index: usize) -> Result<Nlist>
        ensures { Reads (λ s. s) result (symbol_record_at (table_of self.now) index) }
    {
        Nlist::read(self.table.bytes, self.table.place(index), self.table.ctx)
    }

    /// Reads a symbol with its name. Whether `index` is below the claimed number of symbols is not tested.
    #[inline(always)]
    pub fn get(&self, index: usize) -> Result<(&'a str, Nlist)>
        ensures { symbol_read result ≡ symbol_at (table_of self.now) index }
    {
        self.table.symbol(index)
    }
}

/// Symbols as a copyable value. A holder of such a value can keep its fields in registers.
#[derive(Clone, Copy)]
pub struct CopiedSymbols<'a> {
    copy: Table<'a>,
}

impl<'a> CopiedSymbols<'a> {
    /// Returns the claimed number of symbols.
    #[inline(always)]
    pub fn len(&self) -> usize
        ensures { result ≡ (copied_table self.now).nsyms }
    {
        self.copy.nsyms
    }

    /// Reads a symbol with its name. Whether `index` is below the claimed number of symbols is not tested.
    #[inline(always)]
    pub fn get(&self, index: usize) -> Result<(&'a str, Nlist)>
        ensures { symbol_read result ≡ symbol_at (copied_table self.now) index }
    {
        self.copy.symbol(index)
    }

    /// Reads the name of a symbol by a fast path. For `None` the caller tries
    /// `get`. Whether `index` is below the claimed number of symbols is not tested.
    #[inline(always)]
    pub fn quick_name(&self, index: usize) -> Option<&'a str>
        ensures { IfSome result (λ name. symbol_name_at (copied_table self.now) index ≡ Ok name.now) }
    {
        self.copy.quick_name(index)
    }
}

impl<'a, 'b> IntoIterator for &'b Symbols<'a> {
    type Item = Result<(&'a str, Nlist)>;

    type IntoIter = SymbolIterator<'a>;

    ghost into_iter_gives = { λ symbols it. symbols_left it ≡ symbols_of (table_of symbols.now) };

    fn into_iter(self) -> SymbolIterator<'a> {
        self.iter()
    }
}

impl<'a> TryFromCtx<'a, SymbolsCtx> for Symbols<'a> {
    type Error = Error;

    ghost use Rattle.mach_base.specs.Fault.{fault_of};
    ghost use Rattle.mach_base.specs.Front.{same_fault};
    ghost use Rattle.mach_parts.specs.Symbols.{SymbolTable};
    ghost use Rattle.mach_parts.specs.SymbolViews.{symbols_front};

    ghost fault = { fault_of };

    ghost keeps_fault = { same_fault };

    ghost View = { SymbolTable };

    ghost view = { table_of };

    ghost front = { symbols_front };

    /// Takes all bytes as symbols, with the records from 0 on. It is always `Ok`.
    fn try_from_ctx(bytes: &'a [u8], ctx: SymbolsCtx) -> Result<(Symbols<'a>, usize)> {
        let table = Table {
            bytes,
            start: 0,
            nsyms: ctx.nsyms,
            strtab: ctx.strtab,
            ctx: ctx.ctx,
        };
        Ok((Symbols { table }, bytes.len()))
    }
}
