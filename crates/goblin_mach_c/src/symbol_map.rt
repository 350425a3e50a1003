//! The symbols of an image by address, in an array of the caller's, and look-ups in it.

ghost use Rattle.std.specs.Prelude.{◌≡◌, ◌≢◌, ◌<◌, length, map, option_map, IfSome};
ghost use Rattle.mach_parts.specs.Symbols.{symbols_of};
ghost use Rattle.mach_parts.specs.SymbolViews.{table_of};
ghost use Rattle.mach_parts.specs.SectionRecord.{section_holding};
ghost use Rattle.goblin_mach.specs.ImageSlots.{symbol_table_view};
ghost use Rattle.goblin_mach.specs.MappedSymbols.{AreSortedSymbols, IsLastUpTo, is_up_to};
ghost use Rattle.goblin_mach.specs.NamedParts.{symbols_within};
ghost use Rattle.goblin_mach.specs.NearestSymbol.{IsNearestIn, IsSymbolAt};
ghost use Rattle.goblin_mach.specs.OpenImage.{segments_view};
ghost use Rattle.goblin_mach_c.specs.Codes.{IsRefusalCode};
ghost use Rattle.goblin_mach_c.specs.Opened.{FaultIn, lossy_mode};
ghost use Rattle.goblin_mach_c.specs.SymbolFinds.{FindsSymbolAt};
ghost use Rattle.goblin_mach_c.specs.SymbolMaps.{IsOrderOf, IsRowOfSymbol, IsSymbolMap, IsSymbolOrder, WritesOrder, WritesOrderOf, WritesSymbolMap};
ghost use Rattle.goblin_mach_c.specs.SymbolMaps.{defined_from, numbered_symbol};

use crate::errors::{GM_OK, gm_error, refuse};
use crate::images::gm_image;
use crate::open::open;
use crate::rows::{count_rows, fill};
use crate::symbol_finds::{gm_found_symbol, place_of_nearest, row_of};
use crate::symbol_numbers::DefinedNumbers;
use goblin_mach::laws::symbol_at_of_image;
use goblin_mach::{MachO, SymbolAt};
use mach_parts::symbols::Symbols;
use std::alloc::Global;

// Returns by what a symbol is sorted: its section, its value, and its number. One whose record can't be read has section 0.
fn key_of(table: &Symbols<'_>, number: usize) -> (usize, u64, usize)
    ensures { let m = numbered_symbol (table_of table.now) number in result ≡ (m.section, m.value, m.index) }
{
    match table.record(number) {
        Ok(symbol) => (symbol.n_sect, symbol.n_value, number),
        Err(_) => (0, 0, number),
    }
}

// Sorts the numbers of the symbols of a table.
fn sort_numbers(table: &Symbols<'_>, numbers: &mut [usize])
    requires { numbers.old ≡ defined_from 0 (symbols_of (table_of table.now)) }
    ensures order { IsOrderOf (table_of table.now) numbers.new }
    ensures len { length numbers.new ≡ length numbers.old }
{
    numbers.sort_unstable_by_key(|number| key_of(table, *number));
}

// Writes the map of a table to an array if it fits, and returns how many numbers it has.
fn write_order(table: &Symbols<'_>, out: &mut [usize]) -> usize
    ensures { WritesOrderOf (table_of table.now) out.old out.new result }
{
    let mut rows = DefinedNumbers {
        symbols: table.iter(),
        index: 0,
    };
    let written = fill(&mut rows, out);
    let count = written + count_rows(&mut rows);
    if count <= out.len() {
        sort_numbers(table, &mut out[..count]);
    }
    count
}

// Writes the map of the table of an image to an array if it fits, and returns how many numbers it has.
fn write_map(table: &Option<Symbols<'_>>, out: &mut [usize]) -> usize
    ensures { WritesOrder (option_map table_of table.now) out.old out.new result }
{
    match table {
        Some(table) => write_order(&table.in_bounds(), out),
        None => 0,
    }
}

/// Writes the map of an image's symbols to an array if it fits, and how many numbers it has to `count`. They are the numbers of
/// the symbols that are defined in sections and can be read, without debugging entries, sorted by section, value and number. If
/// the map doesn't fit, the array holds the first of them in the table's order. It opens the image again, and allocates memory for
/// its commands while it runs. A refused call leaves the array and the count unchanged.
#[unsafe(no_mangle)]
pub extern "C" fn gmr_symbol_map(
    alloc: Global,
    bytes: &[u8],
    image: &gm_image,
    order: &mut [usize],
    count: &mut usize,
    error: &mut gm_error,
) -> u32
    ensures written { result ≡ 0 → WritesSymbolMap bytes.now image.now.offset order.old order.new count.new }
    ensures refused { result ≢ 0 → IsRefusalCode (FaultIn (lossy_mode image.now.is_lossy) bytes.now image.now.offset) result }
    ensures array { result ≢ 0 → order.new ≡ order.old }
    ensures count { result ≢ 0 → count.new ≡ count.old }
    ensures reported { result ≢ 0 → error.new.code ≡ result }
    ensures quiet { result ≡ 0 → error.new ≡ error.old }
{
    match open(alloc, bytes, image.offset, image.is_lossy != 0) {
        Ok(found) => {
            *count = write_map(&found.symbols, order);
            GM_OK
        }
        Err(why) => refuse(&why, error),
    }
}

// Whether a symbol is one of an earlier section, or one of this section at or below an address.
fn is_up_to(table: &Symbols<'_>, number: usize, section: usize, address: u64) -> bool
    ensures { result ≡ is_up_to section address (numbered_symbol (table_of table.now) number) }
{
    let (held, value, _) = key_of(table, number);
    held < section || held == section && value <= address
}

// Returns the number of the last symbol of a map up to an address of a section, if there is one.
fn last_up_to(table: &Symbols<'_>, order: &[usize], section: usize, address: u64) -> Option<usize>
    ensures { let t = table_of table.now in AreSortedSymbols (map (numbered_symbol t) order.now)
        → IsLastUpTo (map (numbered_symbol t) order.now) section address (option_map (numbered_symbol t) result) }
{
    let passed = order.partition_point(|number| is_up_to(table, *number, section, address));
    let last = passed.checked_sub(1)?;
    Some(order[last])
}

// Returns the symbol of a section that is nearest to an address, by a map of the table. With other numbers it is some symbol of the
// table, or none.
fn nearest_in<'a>(
    table: &Symbols<'a>,
    order: &[usize],
    section: usize,
    address: u64,
) -> Option<SymbolAt<'a>>
    ensures nearest { IsOrderOf (table_of table.now) order.now → IsNearestIn (symbols_of (table_of table.now)) section address result }
    ensures within { IfSome result (λ x. x.index < (table_of table.now).nsyms) }
{
    let last = last_up_to(table, order, section, address)?;
    if last >= table.len() {
        return None;
    }
    let Ok((name, symbol)) = table.get(last) else {
        return None;
    };
    if symbol.n_sect != section {
        return None;
    }
    let distance = address.checked_sub(symbol.n_value)?;
    Some(SymbolAt {
        index: last,
        name,
        symbol,
        distance,
    })
}

// Returns the symbol at an address, by a map of the image.
fn symbol_in_map<'a>(
    image: &MachO<'a, Global>,
    order: &[usize],
    address: u64,
) -> Option<SymbolAt<'a>>
    ensures nearest { IsSymbolOrder (symbol_table_view image.now) order.now
        → IsSymbolAt (segments_view image.now) (symbols_within (symbol_table_view image.now))
        (section_holding (segments_view image.now) address) address result }
    ensures within { IfSome result (λ x. x.index < length (symbols_within (symbol_table_view image.now))) }
{
    let section = image.section_at(address)?;
    let table = image.symbols.as_ref()?;
    nearest_in(
        &table.in_bounds(),
        order,
        image.section_number(&section),
        address,
    )
}

/// Writes the symbol of an image at an address to `symbol`, as `gmr_symbol_at` does, by the numbers that `gmr_symbol_map` wrote.
/// With other numbers it writes some symbol of the image or none. It opens the image again, allocates memory for its commands
/// while it runs, and reads log n symbols. A refused call leaves `symbol` unchanged.
#[unsafe(no_mangle)]
pub extern "C" fn gmr_symbol_in_map(
    alloc: Global,
    bytes: &[u8],
    image: &gm_image,
    order: &[usize],
    address: u64,
    symbol: &mut gm_found_symbol,
    error: &mut gm_error,
) -> u32
    ensures found { result ≡ 0 → IsSymbolMap bytes.now image.now.offset order.now → FindsSymbolAt bytes.now image.now address symbol.new }
    ensures some { result ≡ 0 → IsRowOfSymbol bytes.now image.now symbol.new }
    ensures refused { result ≢ 0 → IsRefusalCode (FaultIn (lossy_mode image.now.is_lossy) bytes.now image.now.offset) result }
    ensures kept { result ≢ 0 → symbol.new ≡ symbol.old }
    ensures reported { result ≢ 0 → error.new.code ≡ result }
    ensures quiet { result ≡ 0 → error.new ≡ error.old }
{
    match open(alloc, bytes, image.offset, image.is_lossy != 0) {
        Ok(found) => {
            symbol_at_of_image(&found);
            let place = place_of_nearest(&symbol_in_map(&found, order, address));
            *symbol = row_of(bytes, image, place);
            GM_OK
        }
        Err(why) => refuse(&why, error),
    }
}
