//! The kinds and the order of the ranges of symbols.

ghost use Rattle.std.specs.Prelude.{◌≡◌, ◌++◌, OnOk};
ghost use Rattle.mach_base.specs.Answer.{IsOkUnlessMemory};
ghost use Rattle.mach_layout.specs.Laid.{laid_of};
ghost use Rattle.mach_layout.specs.Symbols as defined;

use crate::fault::{LayoutFault, Part, Rule};
use crate::layout::Layout;
use crate::rules::{add, measured, owner_at, reported};
use crate::symbols::indirect::{is_range_out, ranges_of};
use crate::symbols::{
    PlacedDysymtab, PlacedSymtab, SymbolRange, fault_at, is_stab, symbol_in, symbols_there,
};
use mach_base::Result;
use mach_parts::symbols::{N_EXT, N_PBUD, N_PEXT, N_TYPE, N_UNDF, Nlist};
use std::alloc::Allocator;

// Whether a symbol is external: known outside the image.
fn is_external(symbol: &Nlist) -> bool
    ensures { result ≡ defined.is_external symbol.now }
{
    symbol.n_type & N_EXT != 0
}

// Whether a symbol is undefined or prebound.
fn is_of_other(symbol: &Nlist) -> bool
    ensures { result ≡ defined.is_of_other symbol.now }
{
    let kind = symbol.n_type & N_TYPE;
    kind == N_UNDF || kind == N_PBUD
}

// Whether a symbol belongs to the range with a number.
fn is_of_range(number: u64, symbol: &Nlist) -> bool
    ensures { result ≡ defined.is_of_range number symbol.now }
{
    match number {
        0 => !is_external(symbol) || is_stab(symbol) || symbol.n_type & N_PEXT != 0,
        1 => is_external(symbol) && (is_stab(symbol) || !is_of_other(symbol)),
        _ => is_external(symbol) && !is_stab(symbol) && is_of_other(symbol),
    }
}

// Returns the fault of a symbol of a range, if its record lies in the bytes.
fn symbol_kind(
    layout: &Layout<'_, '_>,
    table: &PlacedSymtab,
    number: u64,
    k: u32,
) -> Option<LayoutFault>
    ensures { result ≡ defined.if_there (defined.symbol_in layout.now.ctx layout.now.bytes.now table.now k) (defined.symbol_kind_fault table.now number k) }
{
    let symbol = symbol_in(layout.bytes, layout.ctx, table, k)?;
    let owner = owner_at(Part::Symbols, table.place, u64::from(k));
    let outcome = measured(is_of_range(number, &symbol), symbol.n_type as u64, 0);
    reported(Rule::SymbolRangeKind, owner, outcome)
}

// Returns the fault of the first symbol of a range that isn't of its kind.
fn range_kind(
    layout: &Layout<'_, '_>,
    table: &PlacedSymtab,
    range: &SymbolRange,
) -> Option<LayoutFault>
    ensures { result ≡ defined.range_kind (laid_of layout.now) table.now range.now }
{
    let left = symbols_there(layout, table).saturating_sub(range.first);
    let end = range.first + range.count.min(left);
    'symbols: for k in range.first..end {
        if let Some(fault) = symbol_kind(layout, table, range.number, k) {
            return Some(fault);
        }
    }
    None
}

/// Adds the faults of the kinds of symbols: for each range, that of the first symbol that isn't of its kind.
pub fn symbol_kind_faults<A: Allocator>(
    faults: &mut Vec<LayoutFault, A>,
    layout: &Layout<'_, '_>,
    table: Option<PlacedSymtab>,
    dynamic: Option<PlacedDysymtab>,
) -> Result<()>
    ensures reported { OnOk result (faults.new.items ≡ faults.old.items ++ defined.symbol_kind_faults (laid_of layout.now) table dynamic) }
    ensures only { IsOkUnlessMemory result }
{
    let (Some(symbols), Some(table)) = (table, dynamic) else {
        return Ok(());
    };
    let ranges = ranges_of(&table.command);
    'each: for range in &ranges {
        if let Some(fault) = range_kind(layout, &symbols, range) {
            faults.push(fault)?;
        }
    }
    Ok(())
}

// Whether a range ends past the table.
fn any_range_out(nsyms: u32, ranges: &[SymbolRange]) -> bool
    ensures { result ≡ defined.any_range_out nsyms ranges.now }
{
    for range in ranges {
        if is_range_out(nsyms, range) {
            return true;
        }
    }
    false
}

// Returns the fault of the order of some ranges.
fn order_of(nsyms: u32, table: &PlacedDysymtab, ranges: &[SymbolRange]) -> Option<LayoutFault>
    ensures { result ≡ defined.order_from nsyms table.now 0 ranges.now }
{
    let (rule, part) = (Rule::SymbolRangeOrder, Part::SymbolRanges);
    let mut at = 0u64;
    for range in ranges {
        let first = u64::from(range.first);
        if range.count > 0 {
            if first != at {
                return Some(fault_at(rule, part, table.place, range.number, first, at));
            }
            at += u64::from(range.count);
        }
    }
    if at != u64::from(nsyms) {
        return Some(fault_at(rule, part, table.place, 3, u64::from(nsyms), at));
    }
    None
}

// Returns the fault of the order of the ranges, if none of them ends past the table.
fn range_order(nsyms: u32, table: &PlacedDysymtab) -> Option<LayoutFault>
    ensures { result ≡ defined.range_order nsyms table.now }
{
    let ranges = ranges_of(&table.command);
    if any_range_out(nsyms, &ranges) {
        return None;
    }
    order_of(nsyms, table, &ranges)
}

/// Adds the fault of the order of the ranges of symbols.
pub fn symbol_order_faults<A: Allocator>(
    faults: &mut Vec<LayoutFault, A>,
    table: Option<PlacedSymtab>,
    dynamic: Option<PlacedDysymtab>,
) -> Result<()>
    ensures reported { OnOk result (faults.new.items ≡ faults.old.items ++ defined.symbol_order_faults table dynamic) }
    ensures only { IsOkUnlessMemory result }
{
    let (Some(symbols), Some(table)) = (table, dynamic) else {
        return Ok(());
    };
    add(faults, range_order(symbols.command.nsyms, &table))?;
    Ok(())
}
