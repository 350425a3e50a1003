//! The symbol of a name or an address, and the function at an address.

ghost use Rattle.std.specs.Prelude.{◌≡◌, ◌≢◌, option_map};
ghost use Rattle.goblin_mach_c.specs.Codes.{IsRefusalCode};
ghost use Rattle.goblin_mach_c.specs.Opened.{FaultIn, lossy_mode};
ghost use Rattle.goblin_mach_c.specs.SectionFinds.{NameFaultIn};
ghost use Rattle.goblin_mach_c.specs.SymbolFinds.{FindsFunctionAt, FindsSymbolAt, FindsSymbolNamed, found_function_row, found_symbol_row};

use crate::errors::{GM_OK, gm_error, refuse};
use crate::images::gm_image;
use crate::open::open;
use crate::symbols::{gm_symbol, symbol_of};
use goblin_mach::laws::{function_at_of_image, named_symbol_of_image, symbol_at_of_image};
use goblin_mach::{Function, SymbolAt};
use mach_base::Error;
use mach_parts::symbols::Nlist;
use std::alloc::Global;

/// A symbol that was looked up, with its index; `distance` is how far the address is above its value, or 0. If `is_found` is 0
/// there is none, and everything is 0.
#[derive(Clone, Copy)]
#[repr(C)]
pub struct gm_found_symbol {
    pub symbol: gm_symbol,
    pub index: usize,
    pub distance: u64,
    pub is_found: u32,
    pub reserved: u32,
}

/// Returns a symbol that was looked up, by its index and its distance, as C sees it.
pub fn row_of(bytes: &[u8], image: &gm_image, found: Option<(usize, u64)>) -> gm_found_symbol
    ensures { result ≡ found_symbol_row bytes.now image.now found }
{
    match found {
        Some((index, distance)) => gm_found_symbol {
            symbol: symbol_of(bytes, image, index),
            index,
            distance,
            is_found: 1,
            reserved: 0,
        },
        None => gm_found_symbol {
            symbol: gm_symbol {
                value: 0,
                name: 0,
                name_len: 0,
                section: 0,
                code: GM_OK,
                desc: 0,
                n_type: 0,
                reserved: 0,
            },
            index: 0,
            distance: 0,
            is_found: 0,
            reserved: 0,
        },
    }
}

// Returns the index of a symbol that was looked up by its name, at no distance.
fn place_of_named(found: &Option<(usize, Nlist)>) -> Option<(usize, u64)>
    ensures { result ≡ option_map (λ x. (x.0, 0)) found.now }
{
    match found {
        Some((index, _)) => Some((*index, 0)),
        None => None,
    }
}

/// Returns the index and the distance of a symbol that was looked up by an address.
pub fn place_of_nearest(found: &Option<SymbolAt<'_>>) -> Option<(usize, u64)>
    ensures { result ≡ option_map (λ x. (x.index, x.distance)) found.now }
{
    match found {
        Some(it) => Some((it.index, it.distance)),
        None => None,
    }
}

/// Writes the first symbol of an image with a name to `symbol`. Symbols whose names can't be read are skipped. It opens the image
/// again, and allocates memory for its commands while it runs. It is also refused if the name isn't UTF-8. A refused call leaves
/// `symbol` unchanged.
#[unsafe(no_mangle)]
pub extern "C" fn gmr_symbol_named(
    alloc: Global,
    bytes: &[u8],
    image: &gm_image,
    name: &[u8],
    symbol: &mut gm_found_symbol,
    error: &mut gm_error,
) -> u32
    ensures found { result ≡ 0 → FindsSymbolNamed bytes.now image.now name.now symbol.new }
    ensures refused { result ≢ 0 → IsRefusalCode (NameFaultIn bytes.now image.now name.now) result }
    ensures kept { result ≢ 0 → symbol.new ≡ symbol.old }
    ensures reported { result ≢ 0 → error.new.code ≡ result }
    ensures quiet { result ≡ 0 → error.new ≡ error.old }
{
    let Ok(name) = str::from_utf8(name) else {
        return refuse(&Error::Malformed("a name is not UTF-8"), error);
    };
    match open(alloc, bytes, image.offset, image.is_lossy != 0) {
        Ok(found) => {
            named_symbol_of_image(&found);
            let place = place_of_named(&found.symbol_named(name));
            *symbol = row_of(bytes, image, place);
            GM_OK
        }
        Err(why) => refuse(&why, error),
    }
}

/// Writes the symbol of an image at an address to `symbol`: of the defined ones of the section that holds the address, at or
/// below it, that of the greatest value, and of several the last. It opens the image again, and allocates memory for its commands
/// while it runs. A refused call leaves `symbol` unchanged.
#[unsafe(no_mangle)]
pub extern "C" fn gmr_symbol_at(
    alloc: Global,
    bytes: &[u8],
    image: &gm_image,
    address: u64,
    symbol: &mut gm_found_symbol,
    error: &mut gm_error,
) -> u32
    ensures found { result ≡ 0 → FindsSymbolAt bytes.now image.now address symbol.new }
    ensures refused { result ≢ 0 → IsRefusalCode (FaultIn (lossy_mode image.now.is_lossy) bytes.now image.now.offset) result }
    ensures kept { result ≢ 0 → symbol.new ≡ symbol.old }
    ensures reported { result ≢ 0 → error.new.code ≡ result }
    ensures quiet { result ≡ 0 → error.new ≡ error.old }
{
    match open(alloc, bytes, image.offset, image.is_lossy != 0) {
        Ok(found) => {
            symbol_at_of_image(&found);
            let place = place_of_nearest(&found.symbol_at(address));
            *symbol = row_of(bytes, image, place);
            GM_OK
        }
        Err(why) => refuse(&why, error),
    }
}

/// A function that was looked up, from `start` to before `end`. If `is_found` is 0 there is none, and everything is 0.
#[derive(Clone, Copy)]
#[repr(C)]
pub struct gm_found_function {
    pub start: u64,
    pub end: u64,
    pub is_found: u32,
    pub reserved: u32,
}

// Returns a function that was looked up, as C sees it.
fn function_row(found: &Option<Function>) -> gm_found_function
    ensures { result ≡ found_function_row found.now }
{
    match found {
        Some(it) => gm_found_function {
            start: it.start,
            end: it.end,
            is_found: 1,
            reserved: 0,
        },
        None => gm_found_function {
            start: 0,
            end: 0,
            is_found: 0,
            reserved: 0,
        },
    }
}

/// Writes the function of an image that holds an address to `function`, by the starts of functions. It opens the image again, and
/// allocates memory for its commands while it runs. A refused call leaves `function` unchanged.
#[unsafe(no_mangle)]
pub extern "C" fn gmr_function_at(
    alloc: Global,
    bytes: &[u8],
    image: &gm_image,
    address: u64,
    function: &mut gm_found_function,
    error: &mut gm_error,
) -> u32
    ensures found { result ≡ 0 → FindsFunctionAt bytes.now image.now.offset address function.new }
    ensures refused { result ≢ 0 → IsRefusalCode (FaultIn (lossy_mode image.now.is_lossy) bytes.now image.now.offset) result }
    ensures kept { result ≢ 0 → function.new ≡ function.old }
    ensures reported { result ≢ 0 → error.new.code ≡ result }
    ensures quiet { result ≡ 0 → error.new ≡ error.old }
{
    match open(alloc, bytes, image.offset, image.is_lossy != 0) {
        Ok(found) => {
            function_at_of_image(&found);
            *function = function_row(&found.function_at(address));
            GM_OK
        }
        Err(why) => refuse(&why, error),
    }
}
