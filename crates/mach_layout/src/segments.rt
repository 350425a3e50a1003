//! Rules of segments.

ghost use Rattle.std.specs.Prelude.{◌≡◌, ◌++◌, ◌==◌, ℕ, List, OnOk, option_map, bit_and};
ghost use Rattle.std.specs.List.{before_first, list_any};
ghost use Rattle.mach_base.specs.Answer.{IsOkUnlessMemory};
ghost use Rattle.mach_base.specs.Text.{is_zero};
ghost use Rattle.mach_load.specs.Variants.{command_of};
ghost use Rattle.mach_layout.specs.Laid.{laid_of, placed_segment_of, segments_of};
ghost use Rattle.mach_layout.specs.NamesMet.{place_met, first_place_kept, name_again, seen_name, name_and_place};
ghost use Rattle.mach_layout.specs.Segments as defined;
ghost use Rattle.mach_layout.specs.declared.fault.Rule.TheVariants as rules_named;

use crate::fault::{LayoutFault, Owner, Part, Rule};
use crate::layout::{Layout, range_end};
use crate::placed_sections::PlacedSegment;
use crate::rules::{Judges, RuleOutcome, measured, owner_at, report, report_over, sound};
use mach_base::{Container, Result};
use mach_load::{CommandVariant, LoadCommand};
use std::alloc::Allocator;
use std::collections::BTreeMap;

// The bit of a segment's protection that makes it executable (`mach/vm_prot.h`).
const VM_PROT_EXECUTE: u32 = 4;

// The bits for reading, writing and execution (`mach/vm_prot.h`).
const VM_PROT_ALL: u32 = 7;

/// Returns the segment as the owner of a fault.
pub fn segment_owner(segment: &PlacedSegment) -> Owner
    ensures { result ≡ defined.segment_owner segment.now }
{
    owner_at(Part::Segment, segment.place, 0)
}

/// Whether `len` bytes or addresses from `start` on hold `inner_len` others from `inner` on.
pub fn range_holds(start: u64, len: u64, inner: u64, inner_len: u64) -> bool
    ensures { result ≡ defined.range_holds start len inner inner_len }
{
    let end = u128::from(start) + u128::from(len);
    let inner_end = u128::from(inner) + u128::from(inner_len);
    start <= inner && inner_end <= end
}

// Returns the number of addresses of an image of a width.
fn address_count(width: Container) -> u128
    ensures { result ≡ defined.address_count width }
{
    match width {
        Container::Little => 1 << 32,
        Container::Big => 1 << 64,
    }
}

// Whether the initial protection allows no more than the maximum.
fn is_allowed(segment: &PlacedSegment) -> bool
    ensures { let c = segment.now.command in result ≡ (bit_and (bit_and c.initprot c.maxprot) 7 == bit_and c.initprot 7) }
{
    let (initprot, maxprot) = (segment.command.initprot, segment.command.maxprot);
    initprot & maxprot & VM_PROT_ALL == initprot & VM_PROT_ALL
}

// Checks that a segment ends at the last address or before it.
fn ends_in_memory(layout: &Layout<'_, '_>, segment: &PlacedSegment) -> RuleOutcome
    ensures { result ≡ defined.segment_sees (laid_of layout.now) rules_named.SegmentBeyondAddresses segment.now }
{
    let command = &segment.command;
    let count = address_count(layout.ctx.container);
    let end = u128::from(command.vmaddr) + u128::from(command.vmsize);
    let limit = count.min(u128::from(u64::MAX)) as u64;
    measured(
        end <= count,
        range_end(command.vmaddr, command.vmsize),
        limit,
    )
}

impl Judges<PlacedSegment> for Layout<'_, '_> {
    ghost use Rattle.mach_layout.specs.Segments.{segment_owner, segment_sees};

    ghost owner = { λ layout rule. segment_owner };

    ghost sees = { λ layout. segment_sees (laid_of layout) };

    fn owner(&self, _rule: Rule, segment: &PlacedSegment) -> Owner {
        segment_owner(segment)
    }

    fn see(&self, rule: Rule, segment: &PlacedSegment) -> RuleOutcome {
        let c = &segment.command;
        let page = self.page();
        match rule {
            Rule::SegmentBeyondAddresses => ends_in_memory(self, segment),
            Rule::SegmentFileLarger => {
                measured(
                    c.vmsize == 0 || c.filesize <= c.vmsize,
                    c.filesize,
                    c.vmsize,
                )
            }
            Rule::SegmentAddressUnaligned => {
                let holds = !self.is_final() || c.vmsize == 0 || c.vmaddr % page == 0;
                measured(holds, c.vmaddr, page)
            }
            Rule::SegmentPlaceUnaligned => {
                let holds = !self.is_final() || c.filesize == 0 || c.fileoff % page == 0;
                measured(holds, c.fileoff, page)
            }
            Rule::SegmentRights => {
                let holds = !self.is_final() || is_allowed(segment);
                measured(holds, u64::from(c.initprot), u64::from(c.maxprot))
            }
            _ => sound(),
        }
    }
}

// Whether this segment holds the header and the commands.
fn holds_header(layout: &Layout<'_, '_>, segment: &PlacedSegment) -> bool
    ensures { result ≡ defined.holds_header (laid_of layout.now) segment.now }
{
    segment.command.fileoff == 0 && layout.used_end() <= segment.command.filesize
}

/// Whether some segment holds the header and the commands.
pub fn has_segment_of_header(layout: &Layout<'_, '_>) -> bool
    ensures { result ≡ defined.has_segment_of_header (laid_of layout.now) }
{
    layout.segments().any(|s| holds_header(layout, &s))
}

/// A range of the file that a command states to be encrypted.
#[derive(Clone, Copy)]
pub struct EncryptedRange {
    /// The place of the command.
    pub place: usize,
    pub start: u32,
    pub len: u32,
}

// Returns the range that a command states to be encrypted.
fn encrypted_by(command: &LoadCommand) -> Option<EncryptedRange>
    ensures { result ≡ defined.encrypted_by (command_of command.now) }
{
    let (start, len) = match &command.command {
        CommandVariant::EncryptionInfo32(c) => (c.cryptoff, c.cryptsize),
        CommandVariant::EncryptionInfo64(c) => (c.cryptoff, c.cryptsize),
        _ => return None,
    };
    Some(EncryptedRange {
        place: command.offset,
        start,
        len,
    })
}

// Returns the range of the first command that states one.
fn first_encrypted(layout: &Layout<'_, '_>) -> Option<EncryptedRange>
    ensures { result ≡ defined.first_encrypted (laid_of layout.now) }
{
    let commands = layout.commands;
    for command in commands {
        let Some(range) = encrypted_by(command) else {
            continue;
        };
        return Some(range);
    }
    None
}

// Whether a segment is executable and holds a range.
fn holds_code(range: &EncryptedRange, segment: &PlacedSegment) -> bool
    ensures { result ≡ defined.holds_code range.now segment.now }
{
    let command = &segment.command;
    let (start, len) = (u64::from(range.start), u64::from(range.len));
    command.initprot & VM_PROT_EXECUTE != 0
        && range_holds(command.fileoff, command.filesize, start, len)
}

// Whether an executable segment holds a range.
fn is_in_code(layout: &Layout<'_, '_>, range: &EncryptedRange) -> bool
    ensures { result ≡ list_any (defined.holds_code range.now) (segments_of (laid_of layout.now)) }
{
    layout.segments().any(|s| holds_code(range, &s))
}

// Checks an encrypted range.
fn encrypted_outcome(layout: &Layout<'_, '_>, range: &EncryptedRange) -> RuleOutcome
    ensures { result ≡ defined.encrypted_sees (laid_of layout.now) range.now }
{
    let holds = !layout.is_final() || range.len == 0 || is_in_code(layout, range);
    measured(
        holds,
        range_end(u64::from(range.start), u64::from(range.len)),
        0,
    )
}

/// Adds the fault of the encrypted range.
pub fn encrypted_faults<A: Allocator>(
    faults: &mut Vec<LayoutFault, A>,
    layout: &Layout<'_, '_>,
) -> Result<()>
    ensures reported { OnOk result (faults.new.items ≡ faults.old.items ++ defined.encrypted_faults (laid_of layout.now)) }
    ensures only { IsOkUnlessMemory result }
{
    let Some(range) = first_encrypted(layout) else {
        return Ok(());
    };
    let owner = owner_at(Part::Encrypted, range.place, 0);
    let outcome = encrypted_outcome(layout, &range);
    report(faults, Rule::EncryptedNotExecutable, owner, outcome)?;
    Ok(())
}

/// Returns the bytes up to the first 0.
pub fn before_zero(name: &[u8]) -> &[u8]
    ensures { result.now ≡ before_first is_zero name.now }
{
    let len = name.iter().position(|b| *b == 0).unwrap_or(name.len());
    &name[..len]
}

// Returns the segment name in a command and the place of the command, if it is a segment command.
fn named_segment(command: &LoadCommand) -> Option<(&[u8], usize)>
    ensures { option_map seen_name result ≡ option_map name_and_place (placed_segment_of (command_of command.now)) }
{
    match &command.command {
        CommandVariant::Segment32(c) => Some((before_zero(&c.segname), command.offset)),
        CommandVariant::Segment64(c) => Some((before_zero(&c.segname), command.offset)),
        _ => None,
    }
}

// Returns the fault of a segment, by the place of its command, that has the name of an earlier one.
fn same_name(place: usize, earlier: usize) -> LayoutFault
    ensures { result ≡ defined.same_name place earlier }
{
    LayoutFault {
        rule: Rule::SegmentNameAgain,
        owner: owner_at(Part::Segment, place, 0),
        other: Some(owner_at(Part::Segment, earlier, 0)),
        found: 0,
        limit: 0,
    }
}

// Adds the fault of a segment that has the name of an earlier one; otherwise adds the name to those met.
fn add_name<'b, A: Allocator, B: Allocator + Clone>(
    faults: &mut Vec<LayoutFault, A>,
    met: &mut BTreeMap<&'b [u8], usize, B>,
    name: &'b [u8],
    place: usize,
) -> Result<()>
    ensures reported { OnOk result (faults.new.items ≡ faults.old.items ++ name_again (place_met met.old name.now) place) }
    ensures met { OnOk result ((q : List ℕ) → place_met met.new q ≡ first_place_kept (place_met met.old q) name.now place q) }
    ensures only { IsOkUnlessMemory result }
{
    if let Some(earlier) = met.get(name) {
        faults.push(same_name(place, *earlier))?;
        return Ok(());
    }
    met.insert(name, place)?;
    Ok(())
}

// Adds the faults of the segments that have the name of an earlier one.
fn name_faults<A: Allocator, B: Allocator + Clone>(
    alloc: B,
    faults: &mut Vec<LayoutFault, A>,
    layout: &Layout<'_, '_>,
) -> Result<()>
    ensures reported { OnOk result (faults.new.items ≡ faults.old.items ++ defined.segment_names_again (laid_of layout.now)) }
    ensures only { IsOkUnlessMemory result }
{
    if !layout.is_final() {
        return Ok(());
    }
    let commands = layout.commands;
    let mut met = BTreeMap::new(alloc);
    for command in commands {
        let Some((name, place)) = named_segment(command) else {
            continue;
        };
        add_name(faults, &mut met, name, place)?;
    }
    Ok(())
}

/// Adds the faults of each segment, of their names and of their protections.
pub fn segment_faults<A: Allocator, B: Allocator + Clone>(
    alloc: B,
    faults: &mut Vec<LayoutFault, A>,
    layout: &Layout<'_, '_>,
) -> Result<()>
    ensures reported { OnOk result (faults.new.items ≡ faults.old.items ++ defined.segment_faults (laid_of layout.now)) }
    ensures only { IsOkUnlessMemory result }
{
    let rules = [
        Rule::SegmentBeyondAddresses,
        Rule::SegmentFileLarger,
        Rule::SegmentAddressUnaligned,
        Rule::SegmentPlaceUnaligned,
    ];
    report_over(faults, layout, &rules, &layout.segments())?;
    name_faults(alloc, faults, layout)?;
    report_over(faults, layout, &[Rule::SegmentRights], &layout.segments())?;
    Ok(())
}
