//! The indirect symbols of an image, read in place.

ghost use Rattle.std.specs.Prelude.{◌≡◌, ℕ, drop};
ghost use Rattle.mach_parts.specs.IndirectSymbols.{indirect_symbol_at};
ghost use Rattle.mach_parts.specs.SlotViews.{indirect_read, indirect_table_of};
ghost use Rattle.goblin_mach.specs.ImageSlots.{indirect_place_by};
ghost use Rattle.goblin_mach_c.specs.Fill.{Fills};
ghost use Rattle.goblin_mach_c.specs.TableRows.{indirect_row, indirect_rows};

use crate::errors::{GM_OK, code_of};
use crate::images::{ctx_of, gm_image};
use crate::last::last_value;
use crate::numbered::{Numbered, rows_from};
use crate::rows::fill;
use goblin_mach::readings::Subject;
use mach_base::Result;
use mach_load::{CommandVariant, LoadCommand};
use mach_parts::{IndirectSymbol, IndirectSymbols};
use mach_records::DysymtabCommand;

/// The entry is the number of a symbol.
pub const GM_INDIRECT_SYMBOL: u32 = 0;

/// The pointer is the image's own: no symbol names its target.
pub const GM_INDIRECT_LOCAL: u32 = 1;

/// The pointer is an absolute number.
pub const GM_INDIRECT_ABSOLUTE: u32 = 2;

/// The pointer is the image's own, and an absolute number.
pub const GM_INDIRECT_LOCAL_ABSOLUTE: u32 = 3;

/// An entry of the table of indirect symbols: its kind, and the number of its symbol, or 0. If `code` isn't `GM_OK` it can't be
/// read, and the rest is 0.
#[derive(Clone, Copy)]
#[repr(C)]
pub struct gm_indirect_symbol {
    /// `GM_INDIRECT_SYMBOL` to `GM_INDIRECT_LOCAL_ABSOLUTE`.
    pub kind: u32,
    pub symbol: u32,
    pub code: u32,
}

/// The commands that place indirect symbols.
#[derive(Clone, Copy)]
pub struct IndirectTables;

impl Subject for IndirectTables {
    type Value = DysymtabCommand;

    ghost Seen = { ℕ × ℕ };

    ghost seen = { λ c. (c.indirectsymoff, c.nindirectsyms) };

    ghost reading = { λ _. indirect_place_by };

    /// Reading it never fails.
    fn read(&self, command: &LoadCommand) -> Option<Result<DysymtabCommand>> {
        match &command.command {
            CommandVariant::Dysymtab(c) => Some(Ok(*c)),
            _ => None,
        }
    }
}

// Returns an entry, or why it can't be read.
fn row_of(found: &Result<IndirectSymbol>) -> gm_indirect_symbol
    ensures { result ≡ indirect_row (indirect_read found.now) }
{
    let (kind, symbol, code) = match found {
        Ok(IndirectSymbol::Symbol(number)) => (GM_INDIRECT_SYMBOL, *number, GM_OK),
        Ok(IndirectSymbol::Local) => (GM_INDIRECT_LOCAL, 0, GM_OK),
        Ok(IndirectSymbol::Absolute) => (GM_INDIRECT_ABSOLUTE, 0, GM_OK),
        Ok(IndirectSymbol::LocalAbsolute) => (GM_INDIRECT_LOCAL_ABSOLUTE, 0, GM_OK),
        Err(why) => (0, 0, code_of(why)),
    };
    gm_indirect_symbol { kind, symbol, code }
}

impl<'a> Numbered for IndirectSymbols<'a> {
    type Row = gm_indirect_symbol;

    ghost item = { λ t k. indirect_row (indirect_symbol_at (indirect_table_of t) k) };

    fn at(&self, number: u32) -> gm_indirect_symbol {
        row_of(&self.get(number))
    }
}

/// Writes the indirect symbols of an image from index `first` on, as many as there are and fit, and returns how many.
#[unsafe(no_mangle)]
pub extern "C" fn gmr_indirect_symbols(
    bytes: &[u8],
    image: &gm_image,
    first: usize,
    out: &mut [gm_indirect_symbol],
) -> usize
    ensures { Fills (drop first (indirect_rows bytes.now image.now)) out.old out.new result }
{
    let Some(command) = last_value(bytes, image, &IndirectTables) else {
        return 0;
    };
    let le = ctx_of(image).le;
    let table = IndirectSymbols::new(bytes, command.indirectsymoff, command.nindirectsyms, le);
    let mut rows = rows_from(table, first, command.nindirectsyms);
    fill(&mut rows, out)
}
