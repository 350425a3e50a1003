//! Rules of ranges of symbols and of indirect symbols.

ghost use Rattle.std.specs.Prelude.{◌≡◌, ◌++◌, OnOk};
ghost use Rattle.mach_base.specs.Answer.{IsOkUnlessMemory};
ghost use Rattle.mach_layout.specs.Laid.{laid_of};
ghost use Rattle.mach_layout.specs.Symbols as defined;

use crate::fault::{LayoutFault, Owner, Part, Rule};
use crate::layout::{Layout, ends_past, range_end};
use crate::placed_sections::PlacedSection;
use crate::rules::{
    Judges, Numbers, RuleOutcome, measured, owner_at, report_each, report_over, sound,
};
use crate::sections::section_owner;
use crate::symbols::{PlacedDysymtab, PlacedSymtab, SymbolRange};
use mach_base::{Container, Ctx, Result, read_u32};
use mach_records::DysymtabCommand;
use mach_records::constants::SECTION_TYPE;
use std::alloc::Allocator;

const S_NON_LAZY_SYMBOL_POINTERS: u32 = 0x6;

const S_LAZY_SYMBOL_POINTERS: u32 = 0x7;

const S_SYMBOL_STUBS: u32 = 0x8;

const S_LAZY_DYLIB_SYMBOL_POINTERS: u32 = 0x10;

const S_THREAD_LOCAL_VARIABLE_POINTERS: u32 = 0x14;

// The bits of an indirect symbol that mean local or absolute.
const INDIRECT_SYMBOL_LOCAL_OR_ABS: u32 = 0xc000_0000;

/// Returns the three ranges of symbols.
pub fn ranges_of(command: &DysymtabCommand) -> [SymbolRange; 3]
    ensures { result ≡ defined.ranges_of command.now }
{
    [
        SymbolRange {
            number: 0,
            first: command.ilocalsym,
            count: command.nlocalsym,
        },
        SymbolRange {
            number: 1,
            first: command.iextdefsym,
            count: command.nextdefsym,
        },
        SymbolRange {
            number: 2,
            first: command.iundefsym,
            count: command.nundefsym,
        },
    ]
}

/// Whether a range that isn't empty ends past the table.
pub fn is_range_out(nsyms: u32, range: &SymbolRange) -> bool
    ensures { result ≡ defined.is_range_out nsyms range.now }
{
    let end = u64::from(range.first) + u64::from(range.count);
    range.count > 0 && end > u64::from(nsyms)
}

// The checks of the ranges of a table of symbols.
#[derive(Clone, Copy)]
struct Ranges {
    place: usize,
    nsyms: u32,
}

impl Judges<SymbolRange> for Ranges {
    ghost use Rattle.mach_layout.specs.SymbolViews.{range_owner, ranges_judged};

    ghost owner = { range_owner };

    ghost sees = { ranges_judged };

    fn owner(&self, _rule: Rule, range: &SymbolRange) -> Owner {
        owner_at(Part::SymbolRanges, self.place, range.number)
    }

    fn see(&self, _rule: Rule, range: &SymbolRange) -> RuleOutcome {
        let end = u64::from(range.first) + u64::from(range.count);
        let holds = !is_range_out(self.nsyms, range);
        measured(holds, end, u64::from(self.nsyms))
    }
}

/// Adds the faults of the ranges of symbols.
pub fn symbol_range_faults<A: Allocator>(
    faults: &mut Vec<LayoutFault, A>,
    table: Option<PlacedSymtab>,
    dynamic: Option<PlacedDysymtab>,
) -> Result<()>
    ensures reported { OnOk result (faults.new.items ≡ faults.old.items ++ defined.symbol_range_faults table dynamic) }
    ensures only { IsOkUnlessMemory result }
{
    let (Some(symbols), Some(table)) = (table, dynamic) else {
        return Ok(());
    };
    let judge = Ranges {
        place: table.place,
        nsyms: symbols.command.nsyms,
    };
    let ranges = ranges_of(&table.command);
    report_each(faults, &judge, &[Rule::SymbolRange], &ranges)?;
    Ok(())
}

// Returns the number of symbols that a table states.
fn symbol_count(table: Option<PlacedSymtab>) -> u32
    ensures { result ≡ defined.symbol_count table }
{
    match table {
        Some(table) => table.command.nsyms,
        None => 0,
    }
}

// Returns the number of indirect symbols, if their table lies in the file.
fn indirect_count(layout: &Layout<'_, '_>, table: &PlacedDysymtab) -> u32
    ensures { result ≡ defined.indirect_count (laid_of layout.now) table.now }
{
    let count = table.command.nindirectsyms;
    let start = u64::from(table.command.indirectsymoff);
    if ends_past(layout.size(), start, 4 * u64::from(count)) {
        0
    } else {
        count
    }
}

// Whether a section with these flags holds pointers or stubs with indirect symbols.
fn has_indirect(flags: u32) -> bool
    ensures { result ≡ defined.has_indirect flags }
{
    let kind = flags & SECTION_TYPE;
    kind == S_NON_LAZY_SYMBOL_POINTERS
        || kind == S_LAZY_SYMBOL_POINTERS
        || kind == S_SYMBOL_STUBS
        || kind == S_LAZY_DYLIB_SYMBOL_POINTERS
        || kind == S_THREAD_LOCAL_VARIABLE_POINTERS
}

// Returns the number of bytes in each entry of such a section.
fn entry_size(width: Container, section: &PlacedSection) -> u64
    ensures { result ≡ defined.entry_size width section.now }
{
    if section.section.flags & SECTION_TYPE == S_SYMBOL_STUBS {
        u64::from(section.section.reserved2)
    } else {
        match width {
            Container::Little => 4,
            Container::Big => 8,
        }
    }
}

// Checks a section with indirect symbols.
fn section_option_view(
    width: Container,
    table: &PlacedDysymtab,
    section: &PlacedSection,
) -> RuleOutcome
    ensures { result ≡ defined.indirect_section_sees width table.now section.now }
{
    let size = section.section.size;
    if !has_indirect(section.section.flags) || size == 0 {
        return sound();
    }
    let unit = entry_size(width, section);
    if unit == 0 || size % unit != 0 {
        return measured(false, size, unit);
    }
    let (first, count) = (u64::from(section.section.reserved1), size / unit);
    let there = u64::from(table.command.nindirectsyms);
    measured(
        !ends_past(there, first, count),
        range_end(first, count),
        there,
    )
}

// The checks of the indirect symbols of an image with symbols, by their numbers, and of the sections that have some.
#[derive(Clone, Copy)]
struct Indirect<'a> {
    bytes: &'a [u8],
    ctx: Ctx,
    table: PlacedDysymtab,
    nsyms: u32,
}

impl Judges<u32> for Indirect<'_> {
    ghost use Rattle.mach_layout.specs.SymbolViews.{owner_of_indirect, indirect_judged};

    ghost owner = { owner_of_indirect };

    ghost sees = { indirect_judged };

    fn owner(&self, _rule: Rule, k: &u32) -> Owner {
        owner_at(Part::IndirectSymbols, self.table.place, u64::from(*k))
    }

    fn see(&self, _rule: Rule, k: &u32) -> RuleOutcome {
        let place = self.table.command.indirectsymoff as usize + *k as usize * 4;
        match read_u32(self.bytes, place, self.ctx.le) {
            Ok(entry) => {
                let holds = entry & INDIRECT_SYMBOL_LOCAL_OR_ABS != 0 || entry < self.nsyms;
                measured(holds, u64::from(entry), u64::from(self.nsyms))
            }
            Err(_) => sound(),
        }
    }
}

impl Judges<PlacedSection> for Indirect<'_> {
    ghost use Rattle.mach_layout.specs.Sections.{section_owner};
    ghost use Rattle.mach_layout.specs.SymbolViews.{indirect_sections_judged};

    ghost owner = { λ judge rule. section_owner };

    ghost sees = { indirect_sections_judged };

    fn owner(&self, _rule: Rule, section: &PlacedSection) -> Owner {
        section_owner(section)
    }

    fn see(&self, _rule: Rule, section: &PlacedSection) -> RuleOutcome {
        section_option_view(self.ctx.container, &self.table, section)
    }
}

/// Adds the faults of indirect symbols, and of the sections that have some.
pub fn indirect_faults<A: Allocator>(
    faults: &mut Vec<LayoutFault, A>,
    layout: &Layout<'_, '_>,
    symbols: Option<PlacedSymtab>,
    dynamic: Option<PlacedDysymtab>,
) -> Result<()>
    ensures reported { OnOk result (faults.new.items ≡ faults.old.items ++ defined.indirect_faults (laid_of layout.now) symbols dynamic) }
    ensures only { IsOkUnlessMemory result }
{
    let Some(table) = dynamic else {
        return Ok(());
    };
    let judge = Indirect {
        bytes: layout.bytes,
        ctx: layout.ctx,
        table,
        nsyms: symbol_count(symbols),
    };
    let numbers = Numbers::of(indirect_count(layout, &table));
    report_over(faults, &judge, &[Rule::IndirectSymbol], &numbers)?;
    report_over(faults, &judge, &[Rule::IndirectSection], &layout.sections())?;
    Ok(())
}
