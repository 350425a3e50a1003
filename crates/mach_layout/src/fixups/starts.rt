//! The starts of the chains of segments.

ghost use Rattle.std.specs.Prelude.{◌≡◌, ◌++◌, ◌+◌, ◌==◌, ◌<◌, ◌^◌, OnOk};
ghost use Rattle.mach_base.specs.Answer.{IsOkUnlessMemory};
ghost use Rattle.mach_base.specs.Record.{record_at};
ghost use Rattle.mach_records.specs.FixupChains.{starts_fields};
ghost use Rattle.mach_layout.specs.Laid.{laid_of};
ghost use Rattle.mach_layout.specs.Fixups as defined;
ghost use Rattle.mach_layout.specs.FixupViews.{data_view};

use crate::fault::{LayoutFault, Rule};
use crate::fixups::{FixupData, Front};
use crate::layout::Layout;
use crate::placed_sections::PlacedSegment;
use crate::rules::{RuleOutcome, measured, reported, sound};
use mach_base::{Record, Result, read_u32};
use mach_records::ChainedStartsInSegment;
use std::alloc::Allocator;

// Checks the pages and the pointers of some starts.
fn page_outcome(chained: &FixupData<'_>, place: u64, starts: &ChainedStartsInSegment) -> RuleOutcome
    requires { place < 2 ^ 33 }
    ensures { result ≡ defined.page_sees (data_view chained.now) place starts.now }
{
    let (page, format) = (starts.page_size, starts.pointer_format);
    let end = place + 22 + 2 * u64::from(starts.page_count);
    let is_known = format != 0 && format <= 13;
    measured(page == 0x1000 || page == 0x4000, u64::from(page), 0x4000)
        .then(measured(is_known, u64::from(format), 13))
        .then(measured(end <= chained.size(), end, chained.size()))
}

// Whether the sum of two numbers is a third.
fn adds_up(a: u64, b: u64, sum: u64) -> bool
    ensures { result ≡ (a + b == sum) }
{
    match a.checked_add(b) {
        Some(n) => n == sum,
        None => false,
    }
}

// Returns the offset at which the last page begins.
fn last_page(starts: &ChainedStartsInSegment) -> u64
    ensures { result ≡ defined.last_page starts.now }
{
    u64::from(starts.page_count.saturating_sub(1)) * u64::from(starts.page_size)
}

// Checks where a segment begins, and its number of pages.
fn extent_outcome(
    text: u64,
    segment: &PlacedSegment,
    starts: &ChainedStartsInSegment,
) -> RuleOutcome
    ensures { result ≡ defined.extent_sees text segment.now starts.now }
{
    let (address, size) = (segment.command.vmaddr, segment.command.vmsize);
    let offset = starts.segment_offset;
    let last = last_page(starts);
    let pages = measured(starts.page_count == 0 || last < size, last, size);
    measured(
        adds_up(offset, text, address),
        offset,
        address.saturating_sub(text),
    )
    .then(pages)
}

// Checks the starts at a place, which are those of a segment.
fn record_outcome(
    chained: &FixupData<'_>,
    text: u64,
    place: u64,
    segment: &PlacedSegment,
) -> RuleOutcome
    requires { place < 2 ^ 33 }
    ensures { result ≡ defined.record_sees (data_view chained.now) text place segment.now
        (record_at chained.now.le starts_fields chained.now.payload.now place) }
{
    match ChainedStartsInSegment::read(chained.payload, place as usize, chained.le) {
        Ok(starts) => {
            page_outcome(chained, place, &starts).then(extent_outcome(text, segment, &starts))
        }
        Err(_) => measured(false, place + 22, chained.size()),
    }
}

// Checks the starts of a segment, if the image has that segment.
fn segment_seen(
    chained: &FixupData<'_>,
    text: u64,
    starts: u32,
    info: u32,
    segment: Option<PlacedSegment>,
) -> RuleOutcome
    ensures { result ≡ defined.segment_starts_sees (data_view chained.now) text starts info segment }
{
    match segment {
        Some(segment) => {
            let place = u64::from(starts) + u64::from(info);
            record_outcome(chained, text, place, &segment)
        }
        None => measured(false, u64::from(info), 0),
    }
}

// Checks starts k.
fn starts_option_view(
    chained: &FixupData<'_>,
    front: &Front,
    text: u64,
    k: u32,
    segment: Option<PlacedSegment>,
) -> RuleOutcome
    ensures { result ≡ defined.starts_sees (data_view chained.now) front.now text k segment }
{
    let first = front.header.starts_offset;
    let place = first as usize + 4 + k as usize * 4;
    match read_u32(chained.payload, place, chained.le) {
        Ok(0) | Err(_) => sound(),
        Ok(info) => segment_seen(chained, text, first, info, segment),
    }
}

// Returns the fault of starts k.
fn starts_fault(
    chained: &FixupData<'_>,
    front: &Front,
    text: u64,
    k: u32,
    segment: Option<PlacedSegment>,
) -> Option<LayoutFault>
    ensures { result ≡ defined.starts_fault (data_view chained.now) front.now text k segment }
{
    let outcome = starts_option_view(chained, front, text, k, segment);
    reported(Rule::ChainedFixups, chained.owner(k), outcome)
}

// Whether a segment's name is `__TEXT`, whatever follows its first zero byte.
fn is_text(segment: &PlacedSegment) -> bool
    ensures { result ≡ defined.is_text segment.now }
{
    segment.command.segname.starts_with(b"__TEXT\0")
}

/// Returns the address from which offsets of segments are counted: that of the first segment named `__TEXT`.
pub fn text_address(layout: &Layout<'_, '_>) -> u64
    ensures { result ≡ defined.text_address (laid_of layout.now) }
{
    'segments: for segment in layout.segments() {
        if is_text(&segment) {
            return segment.command.vmaddr;
        }
    }
    0
}

/// Adds the faults of the starts, in order.
pub fn starts_faults<A: Allocator>(
    faults: &mut Vec<LayoutFault, A>,
    layout: &Layout<'_, '_>,
    chained: &FixupData<'_>,
    front: &Front,
) -> Result<()>
    ensures reported { OnOk result (faults.new.items ≡ faults.old.items ++ defined.starts_faults (laid_of layout.now) (data_view chained.now) front.now) }
    ensures only { IsOkUnlessMemory result }
{
    let text = text_address(layout);
    let mut segments = layout.segments();
    'starts: for k in 0..front.count {
        let segment = segments.next();
        if let Some(fault) = starts_fault(chained, front, text, k, segment) {
            faults.push(fault)?;
        }
    }
    Ok(())
}
