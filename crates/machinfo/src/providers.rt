//! The providers of an image's undefined symbols.

ghost use Rattle.std.specs.Prelude.{◌≡◌};
ghost use Rattle.std.specs.Iterator.{YieldsFirstBy};
ghost use Rattle.mach_base.specs.Text.{texts};
ghost use Rattle.goblin_mach.specs.ImageSlots.{symbol_table_view};
ghost use Rattle.machinfo.specs.ProvidedSymbols.{provided_in, provided_left, provided_read, symbols_past_in};

use goblin_mach::symbols::SymbolIterator;
use goblin_mach::{MachO, Provider, Result};
use std::alloc::Allocator;

/// A symbol, and its provider.
#[derive(Clone, Copy)]
pub struct Provided<'a> {
    pub name: &'a str,
    pub provider: Provider<'a>,
}

/// The symbols of an image whose provider the linker recorded, from one on; only those whose records begin within the bytes.
#[derive(Drop)]
pub struct ProvidedSymbols<'a, 'b, A: Allocator> {
    pub image: &'b MachO<'a, A>,
    pub symbols: SymbolIterator<'a>,
}

impl<'a, 'b, A: Allocator> ProvidedSymbols<'a, 'b, A> {
    /// Returns the symbols of an image that have a provider, and how many more symbols its table claims past the end of the bytes.
    pub fn of(image: &'b MachO<'a, A>) -> (Self, usize)
        ensures left { provided_left result.0 ≡ provided_in image.now.header.flags (texts image.now.libs.items) (symbol_table_view image.now) }
        ensures past { result.1 ≡ symbols_past_in (symbol_table_view image.now) }
    {
        let Some(table) = &image.symbols else {
            let symbols = SymbolIterator::default();
            return (ProvidedSymbols { image, symbols }, 0);
        };
        let in_bounds = table.in_bounds();
        let symbols = in_bounds.iter();
        let past = table.len() - in_bounds.len();
        (ProvidedSymbols { image, symbols }, past)
    }

    /// Returns the next symbol with its provider, or the error if either can't be read.
    pub fn take_next(&mut self) -> Option<Result<Provided<'a>>>
        ensures { YieldsFirstBy provided_read provided_left self.old result self.new }
    {
        'symbols: loop {
            let (name, symbol) = match self.symbols.next() {
                None => return None,
                Some(Ok(found)) => found,
                Some(Err(error)) => return Some(Err(error)),
            };
            match self.image.symbol_provider(&symbol) {
                None => {}
                Some(Ok(provider)) => return Some(Ok(Provided { name, provider })),
                Some(Err(error)) => return Some(Err(error)),
            }
        }
    }
}
