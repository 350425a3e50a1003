//! Rules of data in code.

ghost use Rattle.std.specs.Prelude.{◌≡◌, ◌++◌, ◌+◌, ◌<◌, option_map, OnOk};
ghost use Rattle.mach_base.specs.Answer.{IsOkUnlessMemory};
ghost use Rattle.mach_layout.specs.DataInCode as defined;
ghost use Rattle.mach_layout.specs.FixupViews.{data_view};
ghost use Rattle.mach_layout.specs.Laid.{laid_of};

use crate::entry::is_code;
use crate::fault::{LayoutFault, Owner, Part, Rule};
use crate::fixups::starts::text_address;
use crate::fixups::{FixupData, PlacedFixups, data_of};
use crate::last_command::{Wanted, last_wanted};
use crate::layout::Layout;
use crate::placed_sections::PlacedSegment;
use crate::rules::{Judges, Numbers, RuleOutcome, measured, owner_at, report_over, sound};
use mach_base::{Record, Result};
use mach_load::{CommandVariant, LoadCommand};
use mach_records::DataInCodeEntry;
use std::alloc::Allocator;

/// The place and size of the data-in-code table of a command, and the place of the command.
#[derive(Clone, Copy)]
pub struct PlacedData {
    pub place: usize,
    pub dataoff: u32,
    pub datasize: u32,
}

impl Wanted for PlacedData {
    ghost use Rattle.mach_layout.specs.DataInCode.{placed_data_of};

    ghost wanted = { placed_data_of };

    fn of(command: &LoadCommand) -> Option<PlacedData> {
        let place = command.offset;
        match &command.command {
            CommandVariant::DataInCode(c) => {
                let (dataoff, datasize) = (c.dataoff, c.datasize);
                Some(PlacedData {
                    place,
                    dataoff,
                    datasize,
                })
            }
            _ => None,
        }
    }
}

/// The range from the first to the last executable address.
#[derive(Clone, Copy)]
pub struct CodeSpan {
    pub start: u64,
    /// The address after the last one.
    pub end: u128,
}

// Returns the span of a segment and of those before it.
fn spanning(found: Option<CodeSpan>, segment: &PlacedSegment) -> CodeSpan
    ensures { result ≡ defined.spanning found segment.now }
{
    let start = segment.command.vmaddr;
    let end = u128::from(start) + u128::from(segment.command.vmsize);
    match found {
        None => CodeSpan { start, end },
        Some(before) => CodeSpan {
            start: before.start.min(start),
            end: before.end.max(end),
        },
    }
}

// Whether a segment has executable addresses.
fn has_code(segment: &PlacedSegment) -> bool
    ensures { result ≡ defined.has_code segment.now }
{
    is_code(segment) && segment.command.vmsize > 0
}

// Returns the range from the first to the last executable address, if there is one.
fn code_span(layout: &Layout<'_, '_>) -> Option<CodeSpan>
    ensures { result ≡ defined.code_span (laid_of layout.now) }
{
    let mut found = None;
    for segment in layout.segments() {
        if has_code(&segment) {
            found = Some(spanning(found, &segment));
        }
    }
    found
}

/// What the checks of data-in-code entries use.
#[derive(Clone, Copy)]
pub struct DataJudge<'a> {
    pub table: FixupData<'a>,
    /// The address from which offsets are counted.
    pub base: u64,
    pub span: Option<CodeSpan>,
}

// Returns entry k of a table.
fn entry_in(table: &FixupData<'_>, k: u32) -> Option<DataInCodeEntry>
    ensures { result ≡ defined.entry_in (data_view table.now) k }
{
    DataInCodeEntry::read(table.payload, k as usize * 8, table.le).ok()
}

// Returns the entry before entry k.
fn entry_before(table: &FixupData<'_>, k: u32) -> Option<DataInCodeEntry>
    ensures { result ≡ defined.entry_before (data_view table.now) k }
{
    if k == 0 {
        return None;
    }
    entry_in(table, k - 1)
}

// Returns the end of an entry, as an offset.
fn entry_end(entry: &DataInCodeEntry) -> u64
    ensures { result ≡ entry.now.offset + entry.now.length }
{
    u64::from(entry.offset) + u64::from(entry.length)
}

// Returns the end of the executable range, or 0 if there is none.
fn span_end(span: Option<CodeSpan>) -> u64
    ensures { result ≡ defined.span_end span }
{
    match span {
        None => 0,
        Some(span) => span.end.min(u128::from(u64::MAX)) as u64,
    }
}

// Whether an entry lies in a span.
fn is_within(base: u64, span: Option<CodeSpan>, entry: &DataInCodeEntry) -> bool
    ensures { result ≡ defined.is_within base span entry.now }
{
    let start = u128::from(base) + u128::from(entry.offset);
    let end = u128::from(base) + u128::from(entry_end(entry));
    match span {
        None => false,
        Some(span) => u128::from(span.start) <= start && end <= span.end,
    }
}

// Whether two entries share a byte.
fn share_bytes(first: &DataInCodeEntry, second: &DataInCodeEntry) -> bool
    ensures { result ≡ defined.share_bytes first.now second.now }
{
    let start = u64::from(first.offset).max(u64::from(second.offset));
    start < entry_end(first).min(entry_end(second))
}

impl DataJudge<'_> {
    // Checks where an entry lies.
    fn place_view_of(&self, entry: &DataInCodeEntry) -> RuleOutcome
        ensures { result ≡ defined.place_of_data_sees self.now.base self.now.span entry.now }
    {
        let holds = entry.length == 0 || is_within(self.base, self.span, entry);
        let found = self.base.saturating_add(u64::from(entry.offset));
        measured(holds, found, span_end(self.span))
    }

    // Compares an entry with the one before it, which is entry k - 1.
    fn share_outcome(
        &self,
        k: u32,
        before: &DataInCodeEntry,
        entry: &DataInCodeEntry,
    ) -> RuleOutcome
        requires { 0 < k }
        ensures { result ≡ defined.shared_data_sees (data_view self.now.table) k before.now entry.now }
    {
        let other = self.data_owner(k - 1);
        let holds = !share_bytes(before, entry);
        measured(holds, u64::from(entry.offset), entry_end(before)).against(other)
    }

    // Returns entry k as the owner of a fault.
    fn data_owner(&self, k: u32) -> Owner
        ensures { result ≡ defined.data_entry_owner (data_view self.now.table) k }
    {
        owner_at(Part::DataInCode, self.table.place, u64::from(k))
    }
}

impl Judges<u32> for DataJudge<'_> {
    ghost use Rattle.mach_layout.specs.DataViews.{data_judge_owner, data_judged};

    ghost owner = { data_judge_owner };

    ghost sees = { data_judged };

    fn owner(&self, _rule: Rule, k: &u32) -> Owner {
        self.data_owner(*k)
    }

    fn see(&self, rule: Rule, k: &u32) -> RuleOutcome {
        let Some(entry) = entry_in(&self.table, *k) else {
            return sound();
        };
        match rule {
            Rule::DataOutOfCode => self.place_view_of(&entry),
            Rule::DataShared => match entry_before(&self.table, *k) {
                Some(before) => self.share_outcome(*k, &before, &entry),
                None => sound(),
            },
            _ => sound(),
        }
    }
}

// Returns the table that a command places, if it lies in the file.
fn data_table<'a>(layout: &Layout<'a, '_>, placed: &PlacedData) -> Option<FixupData<'a>>
    ensures { option_map data_view result ≡ defined.data_table (laid_of layout.now) placed.now }
{
    let (place, dataoff, datasize) = (placed.place, placed.dataoff, placed.datasize);
    data_of(
        layout,
        &PlacedFixups {
            place,
            dataoff,
            datasize,
        },
    )
}

// Adds the faults of a table with `count` entries.
fn report_data<A: Allocator>(
    faults: &mut Vec<LayoutFault, A>,
    layout: &Layout<'_, '_>,
    table: FixupData<'_>,
    count: u32,
) -> Result<()>
    ensures reported { OnOk result (faults.new.items ≡ faults.old.items ++ defined.data_table_faults (laid_of layout.now) count (data_view table.entry)) }
    ensures only { IsOkUnlessMemory result }
{
    let judge = DataJudge {
        table,
        base: text_address(layout),
        span: code_span(layout),
    };
    let rules = [Rule::DataOutOfCode, Rule::DataShared];
    report_over(faults, &judge, &rules, &Numbers::of(count))?;
    Ok(())
}

/// Adds the faults of the data-in-code table.
pub fn data_faults<A: Allocator>(
    faults: &mut Vec<LayoutFault, A>,
    layout: &Layout<'_, '_>,
) -> Result<()>
    ensures reported { OnOk result (faults.new.items ≡ faults.old.items ++ defined.data_faults (laid_of layout.now)) }
    ensures only { IsOkUnlessMemory result }
{
    let Some(placed) = last_wanted::<PlacedData>(layout.commands) else {
        return Ok(());
    };
    let Some(table) = data_table(layout, &placed) else {
        return Ok(());
    };
    report_data(faults, layout, table, placed.datasize / 8)
}
