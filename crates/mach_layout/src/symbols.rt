//! Rules of symbols.

ghost use Rattle.std.specs.Prelude.{◌≡◌, ◌++◌, OnOk};
ghost use Rattle.mach_base.specs.Answer.{IsOkUnlessMemory, Reads};
ghost use Rattle.mach_parts.specs.Symbols as entries;
ghost use Rattle.mach_parts.specs.Symbols.{nlist_at};
ghost use Rattle.mach_layout.specs.Laid.{laid_of};
ghost use Rattle.mach_layout.specs.Symbols as defined;
ghost use Rattle.mach_layout.specs.declared.fault.Rule.TheVariants as rules_named;

mod counts;
mod indirect;
mod ranges;

use crate::fault::{LayoutFault, Owner, Part, Rule};
use crate::last_command::{Wanted, last_wanted};
use crate::layout::{Layout, ends_past};
use crate::rules::{Judges, Numbers, RuleOutcome, measured, owner_at, report_over, sound};
use crate::symbols::counts::{section_count, whole_records};
pub use crate::symbols::counts::{library_count, texts_end};
use crate::symbols::indirect::{indirect_faults, symbol_range_faults};
use crate::symbols::ranges::{symbol_kind_faults, symbol_order_faults};
use mach_base::{Container, Ctx, Record, Result, SizeWith};
use mach_load::{CommandVariant, LoadCommand};
use mach_parts::header::MH_TWOLEVEL;
use mach_parts::symbols::{
    N_BNSYM, N_ENSYM, N_ENTRY, N_EXT, N_FUN, N_INDR, N_LBRAC, N_LCSYM, N_PBUD, N_RBRAC, N_SECT,
    N_SLINE, N_SO, N_STAB, N_STSYM, N_TYPE, N_UNDF, Nlist, Nlist32, Nlist64,
};
use mach_records::{DysymtabCommand, SymtabCommand};
use std::alloc::Allocator;

/// An `LC_SYMTAB` command, and its place.
#[derive(Clone, Copy)]
pub struct PlacedSymtab {
    pub place: usize,
    pub command: SymtabCommand,
}

impl Wanted for PlacedSymtab {
    ghost use Rattle.mach_layout.specs.Symbols.{symtab_of};

    ghost wanted = { symtab_of };

    fn of(command: &LoadCommand) -> Option<PlacedSymtab> {
        let place = command.offset;
        match &command.command {
            CommandVariant::Symtab(c) => Some(PlacedSymtab { place, command: *c }),
            _ => None,
        }
    }
}

/// An `LC_DYSYMTAB` command, and its place.
#[derive(Clone, Copy)]
pub struct PlacedDysymtab {
    pub place: usize,
    pub command: DysymtabCommand,
}

impl Wanted for PlacedDysymtab {
    ghost use Rattle.mach_layout.specs.Symbols.{dysymtab_of};

    ghost wanted = { dysymtab_of };

    fn of(command: &LoadCommand) -> Option<PlacedDysymtab> {
        let place = command.offset;
        match &command.command {
            CommandVariant::Dysymtab(c) => Some(PlacedDysymtab { place, command: *c }),
            _ => None,
        }
    }
}

/// A range of symbols: its number among the three, its first symbol and its length.
#[derive(Clone, Copy)]
pub struct SymbolRange {
    pub number: u64,
    pub first: u32,
    pub count: u32,
}

/// Returns a fault without another owner.
pub fn fault_at(
    rule: Rule,
    part: Part,
    command: usize,
    index: u64,
    found: u64,
    limit: u64,
) -> LayoutFault
    ensures { result ≡ defined.fault_at rule part command index found limit }
{
    LayoutFault {
        rule,
        owner: owner_at(part, command, index),
        other: None,
        found,
        limit,
    }
}

// Reads the record of a symbol at a place.
fn read_symbol(bytes: &[u8], place: usize, ctx: Ctx) -> Result<Nlist>
    ensures { Reads (λ symbol. symbol) result (nlist_at ctx bytes.now place) }
{
    match ctx.container {
        Container::Little => Ok(Nlist::from(Nlist32::read(bytes, place, ctx.le)?)),
        Container::Big => Ok(Nlist::from(Nlist64::read(bytes, place, ctx.le)?)),
    }
}

/// Returns symbol k of a table, if its record lies in the bytes.
pub fn symbol_in(bytes: &[u8], ctx: Ctx, table: &PlacedSymtab, k: u32) -> Option<Nlist>
    ensures { result ≡ defined.symbol_in ctx bytes.now table.now k }
{
    let place = table.command.symoff as usize + k as usize * Nlist::size_with(&ctx);
    read_symbol(bytes, place, ctx).ok()
}

/// Returns the number of symbols of a table that lie in the bytes.
pub fn symbols_there(layout: &Layout<'_, '_>, table: &PlacedSymtab) -> u32
    ensures { result ≡ defined.symbols_there (laid_of layout.now) table.now }
{
    let size = Nlist::size_with(&layout.ctx);
    whole_records(
        layout.bytes,
        table.command.symoff,
        size,
        table.command.nsyms,
    )
}

/// Whether a symbol is a debugging entry.
pub fn is_stab(symbol: &Nlist) -> bool
    ensures { result ≡ entries.is_stab symbol.now }
{
    symbol.n_type & N_STAB != 0
}

// Whether `n_sect` is a section's number in debugging entries of this type (`mach-o/stab.h`).
fn has_section_number(kind: u8) -> bool
    ensures { result ≡ defined.has_section_number kind }
{
    kind == N_FUN
        || kind == N_STSYM
        || kind == N_LCSYM
        || kind == N_BNSYM
        || kind == N_SLINE
        || kind == N_ENSYM
        || kind == N_SO
        || kind == N_ENTRY
        || kind == N_LBRAC
        || kind == N_RBRAC
}

// Whether a symbol names a section that doesn't exist, or names none although it must.
fn is_section_wrong(sections: u64, symbol: &Nlist) -> bool
    ensures { result ≡ defined.is_section_wrong sections symbol.now }
{
    let is_past = symbol.n_sect as u64 > sections;
    if is_stab(symbol) {
        has_section_number(symbol.n_type) && is_past
    } else {
        symbol.n_type & N_TYPE == N_SECT && (symbol.n_sect == 0 || is_past)
    }
}

// Returns the place where the names in the strings of a table end.
fn names_end(layout: &Layout<'_, '_>, table: &PlacedSymtab) -> u64
    ensures { result ≡ defined.names_end (laid_of layout.now) table.now }
{
    let (start, size) = (table.command.stroff, table.command.strsize);
    if ends_past(layout.size(), u64::from(start), u64::from(size)) {
        return u64::from(size);
    }
    let strings = &layout.bytes[start as usize..start as usize + size as usize];
    texts_end(strings) as u64
}

// Whether another image defines a symbol.
fn is_imported(symbol: &Nlist) -> bool
    ensures { result ≡ defined.is_imported symbol.now }
{
    let kind = symbol.n_type & N_TYPE;
    symbol.n_type & N_EXT != 0 && (kind == N_UNDF && symbol.n_value == 0 || kind == N_PBUD)
}

// The first special number of a symbol's library.
const DYNAMIC_LOOKUP_ORDINAL: u64 = 0xfe;

/// What the checks of a table's symbols use.
#[derive(Clone, Copy)]
pub struct SymbolBounds {
    /// The number of sections.
    pub sections: u64,
    /// The place where the names end.
    pub names_end: u64,
    /// The number of libraries.
    pub libraries: u64,
}

// Checks a symbol's name.
fn name_outcome(table: &PlacedSymtab, bounds: &SymbolBounds, symbol: &Nlist) -> RuleOutcome
    ensures { result ≡ defined.symbol_sees table.now bounds.now rules_named.SymbolName symbol.now }
{
    let size = u64::from(table.command.strsize);
    let name = symbol.n_strx as u64;
    let is_other = symbol.n_type & (N_STAB | N_TYPE) == N_INDR;
    let other = measured(!is_other || symbol.n_value < size, symbol.n_value, size);
    measured(name == 0 || name < bounds.names_end, name, size).then(other)
}

// Returns what a rule sees in a symbol.
fn symbol_view_of(
    rule: Rule,
    table: &PlacedSymtab,
    bounds: &SymbolBounds,
    symbol: &Nlist,
) -> RuleOutcome
    ensures { result ≡ defined.symbol_sees table.now bounds.now rule symbol.now }
{
    match rule {
        Rule::SymbolSection => {
            let holds = !is_section_wrong(bounds.sections, symbol);
            measured(holds, symbol.n_sect as u64, bounds.sections)
        }
        Rule::SymbolName => name_outcome(table, bounds, symbol),
        Rule::SymbolLibrary => {
            let library = u64::from(symbol.n_desc / 256);
            let holds = is_stab(symbol)
                || !is_imported(symbol)
                || library <= bounds.libraries
                || library >= DYNAMIC_LOOKUP_ORDINAL;
            measured(holds, library, bounds.libraries)
        }
        _ => sound(),
    }
}

/// The checks of a table's symbols, by their numbers.
#[derive(Clone, Copy)]
pub struct SymbolsJudged<'a> {
    pub bytes: &'a [u8],
    pub ctx: Ctx,
    pub table: PlacedSymtab,
    pub bounds: SymbolBounds,
}

impl Judges<u32> for SymbolsJudged<'_> {
    ghost use Rattle.mach_layout.specs.Symbols.{symbol_owner};
    ghost use Rattle.mach_layout.specs.SymbolViews.{symbols_judged};

    ghost owner = { λ judge rule. symbol_owner judge.table };

    ghost sees = { symbols_judged };

    fn owner(&self, _rule: Rule, k: &u32) -> Owner {
        owner_at(Part::Symbols, self.table.place, u64::from(*k))
    }

    fn see(&self, rule: Rule, k: &u32) -> RuleOutcome {
        match symbol_in(self.bytes, self.ctx, &self.table, *k) {
            Some(symbol) => symbol_view_of(rule, &self.table, &self.bounds, &symbol),
            None => sound(),
        }
    }
}

// Returns what the checks of a table's symbols use.
fn bounds_of(layout: &Layout<'_, '_>, table: &PlacedSymtab) -> SymbolBounds
    ensures { result ≡ defined.bounds_of (laid_of layout.now) table.now }
{
    SymbolBounds {
        sections: section_count(layout),
        names_end: names_end(layout, table),
        libraries: library_count(layout),
    }
}

// Adds the faults that some rules find in the symbols of a table, if there is one.
fn report_symbols<A: Allocator>(
    faults: &mut Vec<LayoutFault, A>,
    layout: &Layout<'_, '_>,
    table: Option<PlacedSymtab>,
    rules: &[Rule],
) -> Result<()>
    ensures reported { OnOk result (faults.new.items ≡ faults.old.items ++ defined.symbols_reported (laid_of layout.now) table rules.now) }
    ensures only { IsOkUnlessMemory result }
{
    let Some(table) = table else {
        return Ok(());
    };
    let judge = SymbolsJudged {
        bytes: layout.bytes,
        ctx: layout.ctx,
        table,
        bounds: bounds_of(layout, &table),
    };
    let numbers = Numbers::of(symbols_there(layout, &table));
    report_over(faults, &judge, rules, &numbers)?;
    Ok(())
}

// Whether the libraries of symbols are checked.
fn has_libraries(layout: &Layout<'_, '_>) -> bool
    ensures { result ≡ defined.has_libraries (laid_of layout.now) }
{
    layout.is_final() && layout.header.flags & MH_TWOLEVEL != 0
}

// Adds the faults of the libraries of symbols.
fn symbol_library_faults<A: Allocator>(
    faults: &mut Vec<LayoutFault, A>,
    layout: &Layout<'_, '_>,
    table: Option<PlacedSymtab>,
) -> Result<()>
    ensures reported { OnOk result (faults.new.items ≡ faults.old.items ++ defined.symbol_library_faults (laid_of layout.now) table) }
    ensures only { IsOkUnlessMemory result }
{
    if !has_libraries(layout) {
        return Ok(());
    }
    report_symbols(faults, layout, table, &[Rule::SymbolLibrary])
}

// Adds the faults of a table of symbols, and of what `LC_DYSYMTAB` says of it.
fn table_faults<A: Allocator>(
    faults: &mut Vec<LayoutFault, A>,
    layout: &Layout<'_, '_>,
    table: Option<PlacedSymtab>,
    dynamic: Option<PlacedDysymtab>,
) -> Result<()>
    ensures reported { OnOk result (faults.new.items ≡ faults.old.items ++ defined.table_faults (laid_of layout.now) table dynamic) }
    ensures only { IsOkUnlessMemory result }
{
    let rules = [Rule::SymbolSection, Rule::SymbolName];
    report_symbols(faults, layout, table, &rules)?;
    symbol_range_faults(faults, table, dynamic)?;
    symbol_kind_faults(faults, layout, table, dynamic)?;
    symbol_library_faults(faults, layout, table)?;
    indirect_faults(faults, layout, table, dynamic)?;
    symbol_order_faults(faults, table, dynamic)
}

/// Adds the faults of symbols and of indirect symbols.
pub fn symbol_faults<A: Allocator>(
    faults: &mut Vec<LayoutFault, A>,
    layout: &Layout<'_, '_>,
) -> Result<()>
    ensures reported { OnOk result (faults.new.items ≡ faults.old.items ++ defined.symbol_faults (laid_of layout.now)) }
    ensures only { IsOkUnlessMemory result }
{
    let table = last_wanted::<PlacedSymtab>(layout.commands);
    let dynamic = last_wanted::<PlacedDysymtab>(layout.commands);
    table_faults(faults, layout, table, dynamic)
}
