//! Rules of sections.

ghost use Rattle.std.specs.Prelude.{◌≡◌, ◌++◌, OnOk};
ghost use Rattle.mach_base.specs.Answer.{IsOkUnlessMemory};
ghost use Rattle.std.specs.List.{before_first};
ghost use Rattle.std.specs.Str.{bytes_eq};
ghost use Rattle.mach_base.specs.Text.{is_zero};
ghost use Rattle.mach_layout.specs.Laid.{laid_of};
ghost use Rattle.mach_layout.specs.Segments.{segment_name};
ghost use Rattle.mach_layout.specs.Sections as defined;
ghost use Rattle.mach_layout.specs.declared.fault.Rule.TheVariants as rules_named;

use crate::claiming::has_bytes;
use crate::fault::{LayoutFault, Owner, Part, Rule};
use crate::layout::{Layout, ends_past, range_end};
use crate::placed_sections::PlacedSection;
use crate::rules::{Judges, RuleOutcome, measured, owner_at, report_over, sound};
use crate::segments::{before_zero, range_holds, segment_owner};
use mach_base::Result;
use std::alloc::Allocator;

// The greatest alignment that linkers allow, as a power of 2.
const MAX_ALIGN: u32 = 15;

/// Returns the section as the owner of a fault.
pub fn section_owner(section: &PlacedSection) -> Owner
    ensures { result ≡ defined.section_owner section.now }
{
    owner_at(Part::Section, section.segment.place, section.number)
}

// Whether a section has bytes and they are in the file.
fn has_bytes_there(layout: &Layout<'_, '_>, placed: &PlacedSection) -> bool
    ensures { result ≡ defined.has_bytes_there (laid_of layout.now) placed.now }
{
    let start = u64::from(placed.section.offset);
    has_bytes(layout, placed) && !ends_past(layout.size(), start, placed.section.size)
}

// Whether the addresses of a section lie in those of its segment.
fn in_memory_of_segment(placed: &PlacedSection) -> bool
    ensures { result ≡ defined.in_memory_of_segment placed.now }
{
    let command = &placed.segment.command;
    let section = &placed.section;
    range_holds(command.vmaddr, command.vmsize, section.addr, section.size)
}

// Whether the bytes of a section lie in those of its segment.
fn in_bytes_of_segment(placed: &PlacedSection) -> bool
    ensures { result ≡ defined.in_bytes_of_segment placed.now }
{
    let command = &placed.segment.command;
    let start = u64::from(placed.section.offset);
    range_holds(
        command.fileoff,
        command.filesize,
        start,
        placed.section.size,
    )
}

// Whether a section states the name of its own segment.
fn names_its_segment(placed: &PlacedSection) -> bool
    ensures { result ≡ bytes_eq (before_first is_zero placed.now.section.segname) (segment_name placed.now.segment) }
{
    before_zero(&placed.section.segname) == before_zero(&placed.segment.command.segname)
}

// Checks the place of a section's bytes.
fn place_view_of(layout: &Layout<'_, '_>, placed: &PlacedSection) -> RuleOutcome
    ensures { result ≡ defined.section_sees (laid_of layout.now) rules_named.SectionElsewhere placed.now }
{
    let (command, section) = (&placed.segment.command, &placed.section);
    let bytes_after = u64::from(section.offset).saturating_sub(command.fileoff);
    let memory_after = section.addr.saturating_sub(command.vmaddr);
    let judged = layout.is_final()
        && has_bytes_there(layout, placed)
        && in_memory_of_segment(placed)
        && in_bytes_of_segment(placed);
    measured(
        !judged || bytes_after == memory_after,
        bytes_after,
        memory_after,
    )
    .against(segment_owner(&placed.segment))
}

// Checks the address of a section.
fn address_outcome(layout: &Layout<'_, '_>, placed: &PlacedSection) -> RuleOutcome
    ensures { result ≡ defined.section_sees (laid_of layout.now) rules_named.SectionUnaligned placed.now }
{
    let section = &placed.section;
    if section.size == 0 || !in_memory_of_segment(placed) || section.align > MAX_ALIGN {
        return sound();
    }
    let unit = 1 << section.align;
    measured(section.addr % unit == 0, section.addr, unit)
}

impl Judges<PlacedSection> for Layout<'_, '_> {
    ghost use Rattle.mach_layout.specs.Sections.{section_owner, section_sees};

    ghost owner = { λ layout rule. section_owner };

    ghost sees = { λ layout. section_sees (laid_of layout) };

    fn owner(&self, _rule: Rule, placed: &PlacedSection) -> Owner {
        section_owner(placed)
    }

    fn see(&self, rule: Rule, placed: &PlacedSection) -> RuleOutcome {
        let (command, section) = (&placed.segment.command, &placed.section);
        let segment = segment_owner(&placed.segment);
        match rule {
            Rule::SectionOutOfMemory => {
                let holds = !placed.has_addresses() || in_memory_of_segment(placed);
                let limit = range_end(command.vmaddr, command.vmsize);
                measured(holds, range_end(section.addr, section.size), limit).against(segment)
            }
            Rule::SectionOutOfBytes => {
                let holds = !has_bytes_there(self, placed) || in_bytes_of_segment(placed);
                let end = range_end(u64::from(section.offset), section.size);
                let limit = range_end(command.fileoff, command.filesize);
                measured(holds, end, limit).against(segment)
            }
            Rule::SectionElsewhere => place_view_of(self, placed),
            Rule::SectionAlignment => {
                let align = section.align;
                measured(align <= MAX_ALIGN, u64::from(align), u64::from(MAX_ALIGN))
            }
            Rule::SectionUnaligned => address_outcome(self, placed),
            Rule::SectionOfOther => {
                measured(self.is_object() || names_its_segment(placed), 0, 0).against(segment)
            }
            _ => sound(),
        }
    }
}

/// Adds the faults of the sections.
pub fn section_faults<A: Allocator>(
    faults: &mut Vec<LayoutFault, A>,
    layout: &Layout<'_, '_>,
) -> Result<()>
    ensures reported { OnOk result (faults.new.items ≡ faults.old.items ++ defined.section_faults (laid_of layout.now)) }
    ensures only { IsOkUnlessMemory result }
{
    let rules = [
        Rule::SectionOutOfMemory,
        Rule::SectionOutOfBytes,
        Rule::SectionElsewhere,
        Rule::SectionAlignment,
        Rule::SectionUnaligned,
        Rule::SectionOfOther,
    ];
    report_over(faults, layout, &rules, &layout.sections())?;
    Ok(())
}
