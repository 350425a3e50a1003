//! The symbols at the targets of rebases.

ghost use Rattle.std.specs.Prelude.{◌≡◌, true, option_map, IfOk};
ghost use Rattle.goblin_mach.specs.SymbolAtAddress.{image_symbol_at, symbol_below};
ghost use Rattle.machfixups.specs.TargetSymbols.{symbols_seen, target_symbol_option_view};

use goblin_mach::{AddressMap, MachO, SymbolAt};
use std::alloc::{AllocError, Allocator};

/// A symbol, and how far an address is above its value.
#[derive(Clone, Copy)]
pub struct TargetSymbol<'a> {
    pub name: &'a str,
    pub distance: u64,
}

/// Returns what is shown of a symbol, if there is one.
pub fn symbol_to_show<'a>(found: Option<SymbolAt<'a>>) -> Option<TargetSymbol<'a>>
    ensures { target_symbol_option_view result ≡ option_map symbol_below found.entry }
{
    match found {
        Some(found) => Some(TargetSymbol {
            name: found.name,
            distance: found.distance,
        }),
        None => None,
    }
}

/// Returns the symbols of an image by address, if they are shown. It is refused only if memory runs out.
pub fn target_symbols<'a, 'b, A: Allocator + Clone>(
    alloc: &A,
    image: &'b MachO<'a, A>,
    is_shown: bool,
) -> Result<Option<AddressMap<'a, 'b, A, A>>, AllocError>
    ensures { IfOk result (λ found. is_shown ≡ true → symbols_seen found ≡ image_symbol_at image.now) }
{
    if !is_shown {
        return Ok(None);
    }
    match AddressMap::new(alloc, image) {
        Ok(symbols) => Ok(Some(symbols)),
        Err(_) => Err(AllocError),
    }
}
