//! The numbers of the symbols that are defined in sections.

ghost use Rattle.std.specs.Prelude.{◌≡◌, ◌<◌, ◌+◌, ◌^◌, length};
ghost use Rattle.mach_parts.specs.SymbolViews.{symbol_read, symbols_left};
ghost use Rattle.goblin_mach.specs.MappedSymbols.{is_defined_symbol};

use crate::rows::Rows;
use mach_base::Result;
use mach_parts::symbols::{N_SECT, Nlist, SymbolIterator};

/// The numbers of the symbols that are left, of those that are defined in a section and can be read, without debugging entries.
#[derive(Drop)]
pub struct DefinedNumbers<'a> {
    /// The symbols that are left.
    pub symbols: SymbolIterator<'a>,
    /// The number of the next one.
    pub index: usize,
    ghost few: { index + length (symbols_left symbols) < 2 ^ 64 },
}

// Whether a symbol is defined in a section, and is no debugging entry. One that can't be read is none.
fn is_defined(item: &Result<(&str, Nlist)>) -> bool
    ensures { result ≡ is_defined_symbol (symbol_read item.now) }
{
    match item {
        Ok((_, symbol)) => symbol.get_type() == N_SECT && !symbol.is_stab(),
        Err(_) => false,
    }
}

impl<'a> Rows for DefinedNumbers<'a> {
    type Row = usize;

    ghost use Rattle.goblin_mach_c.specs.SymbolMaps.{defined_left};

    ghost left = { defined_left };

    fn next(&mut self) -> Option<usize> {
        'symbols: loop {
            match self.symbols.next() {
                None => return None,
                Some(item) => {
                    let index = self.index;
                    self.index += 1;
                    if is_defined(&item) {
                        return Some(index);
                    }
                }
            }
        }
    }
}
