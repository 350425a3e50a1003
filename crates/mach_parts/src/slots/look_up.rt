//! Finds the slot at an address.

ghost use Rattle.std.specs.Prelude.{◌≡◌, ◌<◌, find, map, option_map};
ghost use Rattle.mach_base.specs.Answer.{Reads};
ghost use Rattle.mach_parts.specs.Segment.{segment_view};
ghost use Rattle.mach_parts.specs.SectionRecord.{readable_sections};
ghost use Rattle.mach_parts.specs.SlotLookUp.{holds_slots_at, slot_in_run, slot_in_section, slot_of_address};
ghost use Rattle.mach_parts.specs.SlotViews.{held_tables_of, slot_tables_of, slot_view};

use crate::segment::{NumberedSection, ReadableSections, Segment};
use crate::slot::SymbolSlot;
use crate::slots::kind::{SlotKind, SlotRun};
use crate::slots::source::{HeldSource, SlotSource};
use mach_base::Result;

// Whether a section has slots and holds an address.
fn holds_slots(section: &NumberedSection, address: u64) -> bool
    ensures { result ≡ holds_slots_at address section.now }
{
    SlotKind::of(section.section.flags).is_some() && section.holds(address)
}

// Finds the first section of an image that has slots and holds an address.
fn section_of_slots(segments: &[Segment<'_>], address: u64) -> Option<NumberedSection>
    ensures { result ≡ find (holds_slots_at address) (readable_sections (map segment_view segments.now)) }
{
    'sections: for section in ReadableSections::new(segments) {
        if holds_slots(&section, address) {
            return Some(section);
        }
    }
    None
}

// Returns the slot of a section that holds an address, if the slot is a whole one.
fn slot_in<'a>(
    source: &HeldSource<'a>,
    run: &SlotRun,
    address: u64,
) -> Result<Option<SymbolSlot<'a>>>
    requires { 0 < run.now.len }
    ensures { Reads (option_map slot_view) result (slot_in_run (held_tables_of source.now) address run.now) }
{
    let j = address.saturating_sub(run.address) / run.len;
    if j >= run.count {
        return Ok(None);
    }
    match source.entry(run, j) {
        Ok(entry) => match source.slot(run, &entry) {
            Ok(slot) => Ok(Some(slot)),
            Err(e) => Err(e),
        },
        Err(e) => Err(e),
    }
}

/// Finds the stub or pointer that holds an address, in the first section that has slots and holds the
/// address. Fails if that section's slots have the size 0, or if the slot has no entry or no symbol.
pub fn symbol_slot_at<'a>(
    source: SlotSource<'a, '_>,
    segments: &[Segment<'a>],
    address: u64,
) -> Result<Option<SymbolSlot<'a>>>
    ensures { Reads (option_map slot_view) result (slot_of_address (slot_tables_of source.entry) (map segment_view segments.now) address) }
{
    let Some(section) = section_of_slots(segments, address) else {
        return Ok(None);
    };
    match SlotRun::of(source.ctx, &section) {
        Ok(Some(run)) => slot_in(&source.held(), &run, address),
        Ok(None) => Ok(None),
        Err(e) => Err(e),
    }
}
