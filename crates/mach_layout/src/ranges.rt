//! Rules of ranges: those outside the file, those that share an address or a byte, and those outside `__LINKEDIT`.

ghost use Rattle.std.specs.Prelude.{◌≡◌, ◌++◌, List, IfOk, OnOk};
ghost use Rattle.mach_base.specs.Answer.{IsOkUnlessMemory};
ghost use Rattle.mach_layout.specs.Laid.{laid_of};
ghost use Rattle.mach_layout.specs.Ranges as defined;
ghost use Rattle.mach_layout.specs.Sweep.{AreShared};
ghost use Rattle.mach_layout.specs.declared.fault.LayoutFault as declared;
ghost use Rattle.mach_layout.specs.declared.fault.Rule.TheVariants as rules_named;

use crate::claim::Claim;
use crate::claiming::segment_claim;
use crate::fault::{LayoutFault, Owner, Part, Rule};
use crate::layout::{Layout, ends_past, range_end};
use crate::placed_sections::{PlacedSection, PlacedSegment};
use crate::rules::{Judges, RuleOutcome, measured, report_over, sound};
use crate::sections::section_owner;
use crate::segments::segment_owner;
use crate::sweep::report_ranges;
use mach_base::Result;
use std::alloc::Allocator;

// Whether the claim's bytes lie in the file.
fn lies_in_file(layout: &Layout<'_, '_>, claim: &Claim) -> bool
    ensures { result ≡ defined.lies_in_file (laid_of layout.now) claim.now }
{
    !ends_past(layout.size(), claim.start, claim.len)
}

// Returns the addresses of a segment, if it has any.
fn segment_memory(layout: &Layout<'_, '_>, segment: &PlacedSegment) -> Option<Claim>
    ensures { result ≡ defined.segment_memory (laid_of layout.now) segment.now }
{
    let c = &segment.command;
    if !layout.is_judged() || c.vmsize == 0 {
        return None;
    }
    Some(Claim {
        owner: segment_owner(segment),
        start: c.vmaddr,
        len: c.vmsize,
    })
}

// Returns the bytes of a segment in the file, if it has any.
fn segment_bytes(layout: &Layout<'_, '_>, segment: &PlacedSegment) -> Option<Claim>
    ensures { result ≡ defined.segment_bytes (laid_of layout.now) segment.now }
{
    if !layout.is_judged() || segment.command.filesize == 0 {
        return None;
    }
    Some(segment_claim(segment))
}

// Returns the addresses of a section, if it has any.
fn section_memory(placed: &PlacedSection) -> Option<Claim>
    ensures { result ≡ defined.section_memory placed.now }
{
    if !placed.has_addresses() {
        return None;
    }
    Some(Claim {
        owner: section_owner(placed),
        start: placed.section.addr,
        len: placed.section.size,
    })
}

// Whether the claim's bytes are in the file and no other claim may share them.
fn is_lone_claim(layout: &Layout<'_, '_>, claim: &Claim) -> bool
    ensures { result ≡ defined.is_lone_claim (laid_of layout.now) claim.now }
{
    let alone = !matches!(claim.owner.part, Part::Segment | Part::Encrypted);
    alone && claim.len != 0 && lies_in_file(layout, claim)
}

// Returns the addresses of all segments.
fn memory_ranges<A: Allocator>(alloc: A, layout: &Layout<'_, '_>) -> Result<Vec<Claim, A>>
    ensures listed { IfOk result (λ v. v.items ≡ defined.memory_ranges (laid_of layout.now)) }
    ensures only { IsOkUnlessMemory result }
{
    let found = layout
        .segments()
        .filter_map(|s| segment_memory(layout, &s))
        .collect(alloc)?;
    Ok(found)
}

// Returns the bytes of all segments.
fn file_ranges<A: Allocator>(alloc: A, layout: &Layout<'_, '_>) -> Result<Vec<Claim, A>>
    ensures listed { IfOk result (λ v. v.items ≡ defined.file_ranges (laid_of layout.now)) }
    ensures only { IsOkUnlessMemory result }
{
    let found = layout
        .segments()
        .filter_map(|s| segment_bytes(layout, &s))
        .collect(alloc)?;
    Ok(found)
}

// Returns the addresses of all sections.
fn section_ranges<A: Allocator>(alloc: A, layout: &Layout<'_, '_>) -> Result<Vec<Claim, A>>
    ensures listed { IfOk result (λ v. v.items ≡ defined.section_ranges (laid_of layout.now)) }
    ensures only { IsOkUnlessMemory result }
{
    let found = layout
        .sections()
        .filter_map(|s| section_memory(&s))
        .collect(alloc)?;
    Ok(found)
}

// Returns the claims of which no two may share a byte.
fn lone_claims<A: Allocator>(alloc: A, layout: &Layout<'_, '_>) -> Result<Vec<Claim, A>>
    ensures listed { IfOk result (λ v. v.items ≡ defined.lone_claims (laid_of layout.now)) }
    ensures only { IsOkUnlessMemory result }
{
    let found = layout
        .claims()
        .filter(|c| is_lone_claim(layout, c))
        .collect(alloc)?;
    Ok(found)
}

/// Adds the faults of segments that share an address.
pub fn memory_shared<A: Allocator>(
    faults: &mut Vec<LayoutFault, A>,
    alloc: A,
    layout: &Layout<'_, '_>,
) -> Result<()>
    ensures reported { OnOk result ((reported : List declared.LayoutFault)
        × AreShared rules_named.SegmentsShareMemory (defined.memory_ranges (laid_of layout.now)) reported
        × (faults.new.items ≡ faults.old.items ++ reported)) }
    ensures only { IsOkUnlessMemory result }
{
    let mut ranges = memory_ranges(alloc, layout)?;
    report_ranges(faults, Rule::SegmentsShareMemory, &mut ranges)
}

/// Adds the faults of segments that share a byte of the file.
pub fn files_shared<A: Allocator>(
    faults: &mut Vec<LayoutFault, A>,
    alloc: A,
    layout: &Layout<'_, '_>,
) -> Result<()>
    ensures reported { OnOk result ((reported : List declared.LayoutFault)
        × AreShared rules_named.SegmentsShareFile (defined.file_ranges (laid_of layout.now)) reported
        × (faults.new.items ≡ faults.old.items ++ reported)) }
    ensures only { IsOkUnlessMemory result }
{
    let mut ranges = file_ranges(alloc, layout)?;
    report_ranges(faults, Rule::SegmentsShareFile, &mut ranges)
}

/// Adds the faults of sections that share an address.
pub fn sections_shared<A: Allocator>(
    faults: &mut Vec<LayoutFault, A>,
    alloc: A,
    layout: &Layout<'_, '_>,
) -> Result<()>
    ensures reported { OnOk result ((reported : List declared.LayoutFault)
        × AreShared rules_named.SectionsShareMemory (defined.section_ranges (laid_of layout.now)) reported
        × (faults.new.items ≡ faults.old.items ++ reported)) }
    ensures only { IsOkUnlessMemory result }
{
    let mut ranges = section_ranges(alloc, layout)?;
    report_ranges(faults, Rule::SectionsShareMemory, &mut ranges)
}

/// Adds the faults of claims that share a byte.
pub fn claims_shared<A: Allocator>(
    faults: &mut Vec<LayoutFault, A>,
    alloc: A,
    layout: &Layout<'_, '_>,
) -> Result<()>
    ensures reported { OnOk result ((reported : List declared.LayoutFault)
        × AreShared rules_named.ClaimsShare (defined.lone_claims (laid_of layout.now)) reported
        × (faults.new.items ≡ faults.old.items ++ reported)) }
    ensures only { IsOkUnlessMemory result }
{
    let mut ranges = lone_claims(alloc, layout)?;
    report_ranges(faults, Rule::ClaimsShare, &mut ranges)
}

// Whether a part begins within the header and the commands although it may not.
fn begins_in_header(layout: &Layout<'_, '_>, part: Part, start: u64) -> bool
    ensures { result ≡ defined.begins_in_header (laid_of layout.now) part start }
{
    match part {
        Part::Segment => 0 < start && start < layout.used_end(),
        Part::Encrypted => start < layout.used_end(),
        _ => false,
    }
}

// Whether a part is a table that belongs in `__LINKEDIT`.
fn is_linkedit(part: Part) -> bool
    ensures { result ≡ defined.is_linkedit part }
{
    !matches!(
        part,
        Part::Header
            | Part::Segment
            | Part::Section
            | Part::Relocations
            | Part::Encrypted
            | Part::Note
    )
}

// Whether the name of a segment is `__LINKEDIT`.
fn is_linkedit_segment(segment: &PlacedSegment) -> bool
    ensures { result ≡ defined.is_linkedit_segment segment.now }
{
    segment.command.segname.starts_with(b"__LINKEDIT\0")
}

// Returns the first segment of this name.
fn linkedit_of(layout: &Layout<'_, '_>) -> Option<PlacedSegment>
    ensures { result ≡ defined.linkedit_of (laid_of layout.now) }
{
    layout
        .segments()
        .find(|segment| is_linkedit_segment(segment))
}

// Whether the claim's bytes lie in those of a segment, if there is one.
fn lies_in(segment: Option<PlacedSegment>, claim: &Claim) -> bool
    ensures { result ≡ defined.lies_in segment claim.now }
{
    match segment {
        None => false,
        Some(s) => {
            let end = u128::from(s.command.fileoff) + u128::from(s.command.filesize);
            s.command.fileoff <= claim.start && claim.end() <= end
        }
    }
}

// Returns the place where the bytes of a segment end, or 0 if there is none.
fn end_of_segment(segment: Option<PlacedSegment>) -> u64
    ensures { result ≡ defined.end_of_segment segment }
{
    match segment {
        None => 0,
        Some(s) => range_end(s.command.fileoff, s.command.filesize),
    }
}

// What the checks of an image's claims use: the image, and the segment `__LINKEDIT`, if it has one.
#[derive(Clone, Copy)]
struct Claimed<'l, 'a, 'b> {
    layout: &'l Layout<'a, 'b>,
    linkedit: Option<PlacedSegment>,
}

impl Judges<Claim> for Claimed<'_, '_, '_> {
    ghost use Rattle.mach_layout.specs.Ranges.{claim_sees};

    ghost owner = { λ judge rule c. c.owner };

    ghost sees = { λ judge. claim_sees (laid_of judge.layout.now) judge.linkedit };

    fn owner(&self, _rule: Rule, claim: &Claim) -> Owner {
        claim.owner
    }

    fn see(&self, rule: Rule, claim: &Claim) -> RuleOutcome {
        let layout = self.layout;
        let (part, start, len) = (claim.owner.part, claim.start, claim.len);
        match rule {
            Rule::OutOfFile => {
                let holds = matches!(part, Part::Header) || len == 0 || lies_in_file(layout, claim);
                measured(holds, range_end(start, len), layout.size())
            }
            Rule::HeaderShared => {
                let holds = len == 0 || !begins_in_header(layout, part, start);
                measured(holds, start, layout.used_end())
            }
            Rule::OutOfLinkedit => {
                let judged = layout.is_final()
                    && is_linkedit(part)
                    && len != 0
                    && lies_in_file(layout, claim);
                let limit = end_of_segment(self.linkedit);
                let holds = !judged || lies_in(self.linkedit, claim);
                measured(holds, range_end(start, len), limit)
            }
            _ => sound(),
        }
    }
}

/// Adds the faults that some rules find in the claims.
pub fn report_claims<A: Allocator>(
    faults: &mut Vec<LayoutFault, A>,
    layout: &Layout<'_, '_>,
    rules: &[Rule],
) -> Result<()>
    ensures reported { OnOk result (faults.new.items ≡ faults.old.items ++ defined.claims_reported (laid_of layout.now) rules.now) }
    ensures only { IsOkUnlessMemory result }
{
    let judge = Claimed {
        layout,
        linkedit: linkedit_of(layout),
    };
    report_over(faults, &judge, rules, &layout.claims())?;
    Ok(())
}
