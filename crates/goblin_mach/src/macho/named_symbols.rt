//! The symbols of one name, one after another.

ghost use Rattle.std.specs.Prelude.{◌≡◌, ◌<◌, ◌+◌, ◌^◌, length};
ghost use Rattle.mach_parts.specs.SymbolViews.{symbol_read, symbols_left};
ghost use Rattle.goblin_mach.specs.NamedParts.{numbered_if_named, symbols_of_name};

use mach_base::Result;
use mach_parts::symbols::{Nlist, SymbolIterator};

/// An iterator over the symbols of one name, debugging entries among them, each with its number in the table. Symbols that
/// can't be read are skipped. It allocates nothing.
#[derive(Drop)]
pub struct NamedSymbols<'a, 'b> {
    symbols: SymbolIterator<'a>,
    // The number of the next symbol.
    index: usize,
    name: &'b str,
    ghost few: { index + length (symbols_left symbols) < 2 ^ 64 },
}

// Returns a symbol with its number, if it can be read and has this name.
fn numbered_if_named(
    name: &str,
    index: usize,
    item: Result<(&str, Nlist)>,
) -> Option<(usize, Nlist)>
    ensures { result ≡ numbered_if_named name.now index (symbol_read item.entry) }
{
    let Ok((found, symbol)) = item else {
        return None;
    };
    if found == name {
        Some((index, symbol))
    } else {
        None
    }
}

impl<'a, 'b> NamedSymbols<'a, 'b> {
    ghost use Rattle.goblin_mach.specs.NamedLeft.{named_left};

    // Returns those of some symbols, of which the first has number 0, that have this name.
    pub(super) fn new(symbols: SymbolIterator<'a>, name: &'b str) -> Self
        requires { length (symbols_left symbols) < 2 ^ 64 }
        ensures { named_left result ≡ symbols_of_name name.now 0 (symbols_left symbols.entry) }
    {
        NamedSymbols {
            symbols,
            index: 0,
            name,
        }
    }
}

impl<'a, 'b> Iterator for NamedSymbols<'a, 'b> {
    type Item = (usize, Nlist);

    ghost use Rattle.std.specs.Iterator.{YieldsFirst, item_count};
    ghost use Rattle.goblin_mach.specs.NamedLeft.{named_left};

    ghost next_gives = { YieldsFirst named_left };

    ghost remaining = { item_count named_left };

    fn next(&mut self) -> Option<(usize, Nlist)> {
        'symbols: loop {
            match self.symbols.next() {
                None => return None,
                Some(item) => {
                    let index = self.index;
                    self.index += 1;
                    if let Some(found) = numbered_if_named(self.name, index, item) {
                        return Some(found);
                    }
                }
            }
        }
    }
}
