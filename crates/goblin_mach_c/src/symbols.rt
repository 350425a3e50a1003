//! Symbols, read in place.

ghost use Rattle.std.specs.Prelude.{◌≡◌, drop, length};
ghost use Rattle.mach_base.specs.Answer.{Reads};
ghost use Rattle.mach_base.specs.Fault.{fault_of};
ghost use Rattle.mach_base.specs.Text.{run_at, text_at};
ghost use Rattle.mach_parts.specs.Symbols.{nlist_at, symbol_place};
ghost use Rattle.goblin_mach_c.specs.Fill.{Fills};
ghost use Rattle.goblin_mach_c.specs.SymbolRows.{named_row, symbol_row, symbol_rows, symbol_rows_left, symbol_table_in, gm_table_view, text_code, unread_row};

use crate::errors::{GM_OK, code_of};
use crate::images::{ctx_of, gm_image};
use crate::layout::from;
use crate::rows::{Rows, fill};
use mach_base::{Container, Ctx, Error, Record, Result, SizeWith, read_text};
use mach_command_fields::before_zero;
use mach_parts::symbols::{Nlist, Nlist32, Nlist64, Symbols};

/// A symbol. Its name is `name_len` bytes at `name`, up to a zero byte.
/// If `code` isn't `GM_OK` there are three cases: the name isn't text; it begins past the end, and both numbers are 0; or the
/// record can't be read, and everything else is 0.
#[derive(Clone, Copy)]
#[repr(C)]
pub struct gm_symbol {
    pub value: u64,
    pub name: usize,
    pub name_len: usize,
    pub section: usize,
    pub code: u32,
    pub desc: u16,
    pub n_type: u8,
    pub reserved: u8,
}

// The table that the numbers of an image describe: the count of symbols, their offset, and that of their names.
#[derive(Clone, Copy)]
struct Table<'a> {
    bytes: &'a [u8],
    start: usize,
    count: usize,
    strtab: usize,
    ctx: Ctx,
}

/// The symbols of an image as C sees them, one at a time.
#[derive(Clone, Copy)]
pub struct SymbolRows<'a> {
    table: Table<'a>,
    next: usize,
}

// Reads the record of a symbol at a place.
fn record_at(bytes: &[u8], place: usize, ctx: Ctx) -> Result<Nlist>
    ensures { Reads (λ symbol. symbol) result (nlist_at ctx bytes.now place) }
{
    match ctx.container {
        Container::Little => Ok(Nlist::from(Nlist32::read(bytes, place, ctx.le)?)),
        Container::Big => Ok(Nlist::from(Nlist64::read(bytes, place, ctx.le)?)),
    }
}

// Returns how many bytes come before the first zero from a place on.
fn run_len(bytes: &[u8], place: usize) -> usize
    ensures { result ≡ length (run_at bytes.now place) }
{
    before_zero(from(bytes, place)).len()
}

// Returns 0 if there is text at a place, else why there is none.
fn text_code(bytes: &[u8], place: usize) -> u32
    ensures { result ≡ text_code (text_at bytes.now place) }
{
    match read_text(bytes, place) {
        Ok(_) => GM_OK,
        Err(why) => code_of(&why),
    }
}

// Returns the row that says why the record of a symbol can't be read.
fn refused_row(why: &Error) -> gm_symbol
    ensures { result ≡ unread_row (fault_of why.now) }
{
    gm_symbol {
        value: 0,
        name: 0,
        name_len: 0,
        section: 0,
        code: code_of(why),
        desc: 0,
        n_type: 0,
        reserved: 0,
    }
}

// Returns a symbol whose name at a place may not be text.
fn row_of(bytes: &[u8], place: usize, symbol: &Nlist) -> gm_symbol
    ensures { result ≡ named_row bytes.now place symbol.now }
{
    gm_symbol {
        value: symbol.n_value,
        name: if place < bytes.len() { place } else { 0 },
        name_len: run_len(bytes, place),
        section: symbol.n_sect,
        code: text_code(bytes, place),
        desc: symbol.n_desc,
        n_type: symbol.n_type,
        reserved: 0,
    }
}

impl<'a> Table<'a> {
    // Returns the offset of a symbol's record.
    fn place(&self, index: usize) -> usize
        ensures { result ≡ symbol_place (symbol_table_in self.now) index }
    {
        let before = index.saturating_mul(Nlist::size_with(&self.ctx));
        self.start.saturating_add(before)
    }

    // Returns a symbol whose name, or even its record, can't be read.
    #[cold]
    #[inline(never)]
    fn unnamed_row(&self, index: usize) -> gm_symbol
        ensures { result ≡ symbol_row (symbol_table_in self.now) index }
    {
        match record_at(self.bytes, self.place(index), self.ctx) {
            Ok(symbol) => row_of(
                self.bytes,
                self.strtab.saturating_add(symbol.n_strx),
                &symbol,
            ),
            Err(why) => refused_row(&why),
        }
    }

    // Returns a symbol as C sees it. The rare row is built apart, so that no other row goes through memory.
    #[inline(always)]
    fn row(&self, index: usize) -> gm_symbol
        ensures { result ≡ symbol_row (symbol_table_in self.now) index }
    {
        let symbols = Symbols::at(self.bytes, self.start, self.count, self.strtab, self.ctx);
        match symbols.get(index) {
            Ok((name, symbol)) => gm_symbol {
                value: symbol.n_value,
                name: self.strtab.saturating_add(symbol.n_strx),
                name_len: name.len(),
                section: symbol.n_sect,
                code: GM_OK,
                desc: symbol.n_desc,
                n_type: symbol.n_type,
                reserved: 0,
            },
            Err(_) => {
                let row = self.unnamed_row(index);
                gm_symbol {
                    value: row.value,
                    name: row.name,
                    name_len: row.name_len,
                    section: row.section,
                    code: row.code,
                    desc: row.desc,
                    n_type: row.n_type,
                    reserved: row.reserved,
                }
            }
        }
    }
}

impl<'a> Rows for SymbolRows<'a> {
    type Row = gm_symbol;

    ghost left = { symbol_rows_left };

    #[inline(always)]
    fn next(&mut self) -> Option<gm_symbol> {
        if self.next >= self.table.count {
            return None;
        }
        let row = self.table.row(self.next);
        self.next += 1;
        Some(row)
    }
}

// Returns the symbols of an image from a number on.
#[inline(always)]
fn rows_from<'a>(bytes: &'a [u8], image: &gm_image, first: usize) -> SymbolRows<'a>
    ensures { symbol_rows_left result ≡ drop first (symbol_rows bytes.now image.now) }
{
    let table = Table {
        bytes,
        start: image.symbols_at,
        count: image.symbols,
        strtab: image.names_at,
        ctx: ctx_of(image),
    };
    SymbolRows { table, next: first }
}

/// Writes the symbols of an image from index `first` on, as many as there are and fit, and returns how many.
#[unsafe(no_mangle)]
pub extern "C" fn gmr_symbols(
    bytes: &[u8],
    image: &gm_image,
    first: usize,
    out: &mut [gm_symbol],
) -> usize
    ensures { Fills (drop first (symbol_rows bytes.now image.now)) out.old out.new result }
{
    let mut rows = rows_from(bytes, image, first);
    fill(&mut rows, out)
}

/// Returns a symbol of an image by its number, as C sees it. Whether the image has that many isn't checked.
pub fn symbol_of(bytes: &[u8], image: &gm_image, index: usize) -> gm_symbol
    ensures { result ≡ symbol_row (gm_table_view bytes.now image.now) index }
{
    let table = Table {
        bytes,
        start: image.symbols_at,
        count: image.symbols,
        strtab: image.names_at,
        ctx: ctx_of(image),
    };
    table.row(index)
}
