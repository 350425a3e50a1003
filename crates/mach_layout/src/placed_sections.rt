//! The segments and the sections of an image with the places of their commands, one at a time.

ghost use Rattle.std.specs.Prelude.{◌≡◌, ◌+◌, ◌<◌, ◌^◌, IfSome, filter_map, flat_map, map};
ghost use Rattle.mach_base.specs.Answer.{Reads};
ghost use Rattle.mach_load.specs.Variants.{command_of};
ghost use Rattle.mach_parts.specs.Segment.{widened};
ghost use Rattle.mach_layout.specs.Laid as defined;
ghost use Rattle.mach_layout.specs.PartsLeft.{placed_segments_left, placed_sections_left, TakesSection};

use crate::rules::Items;
use mach_base::{Ctx, Result};
use mach_load::{CommandVariant, LoadCommand};
use mach_parts::segment::{own_sections, place_of, section_at};
use mach_records::{Section64, SegmentCommand32, SegmentCommand64};
use std::slice::Iter;

/// A segment's command in its 64-bit form, and its place.
#[derive(Clone, Copy)]
pub struct PlacedSegment {
    /// The place of the command in the bytes.
    pub place: usize,
    /// The command.
    pub command: SegmentCommand64,
}

/// A section in its 64-bit form, with its segment and its number there, from 1.
#[derive(Clone, Copy)]
pub struct PlacedSection {
    /// Its segment.
    pub segment: PlacedSegment,
    /// Its number in the segment, from 1.
    pub number: u64,
    /// The section.
    pub section: Section64,
}

// Converts the command of a 32-bit image to the 64-bit form.
fn widen(c: &SegmentCommand32) -> SegmentCommand64
    ensures { result ≡ widened c.now }
{
    SegmentCommand64 {
        cmd: c.cmd,
        cmdsize: c.cmdsize,
        segname: c.segname,
        vmaddr: u64::from(c.vmaddr),
        vmsize: u64::from(c.vmsize),
        fileoff: u64::from(c.fileoff),
        filesize: u64::from(c.filesize),
        maxprot: c.maxprot,
        initprot: c.initprot,
        nsects: c.nsects,
        flags: c.flags,
    }
}

impl PlacedSection {
    /// Whether the section has addresses: it has a size, and something of its segment is mapped.
    pub fn has_addresses(&self) -> bool
        ensures { result ≡ defined.has_addresses self.now }
    {
        self.segment.command.vmsize != 0 && self.section.size != 0
    }
}

/// Returns the segment of a command, if it is a segment command.
pub fn segment_of(command: &LoadCommand) -> Option<PlacedSegment>
    ensures { result ≡ defined.placed_segment_of (command_of command.now) }
{
    let place = command.offset;
    match &command.command {
        CommandVariant::Segment32(c) => Some(PlacedSegment {
            place,
            command: widen(c),
        }),
        CommandVariant::Segment64(c) => Some(PlacedSegment { place, command: *c }),
        _ => None,
    }
}

/// An iterator over the segments of some commands, in order.
#[derive(Clone, Drop)]
pub struct SegmentIterator<'b> {
    commands: Iter<'b, LoadCommand>,
}

impl<'b> SegmentIterator<'b> {
    pub(crate) fn new(commands: &'b [LoadCommand]) -> Self
        ensures { placed_segments_left result ≡ filter_map defined.placed_segment_of (map command_of commands.now) }
    {
        SegmentIterator {
            commands: commands.iter(),
        }
    }
}

impl<'b> Iterator for SegmentIterator<'b> {
    type Item = PlacedSegment;

    ghost use Rattle.std.specs.Iterator.{YieldsFirst, item_count};

    ghost next_gives = { YieldsFirst placed_segments_left };

    ghost remaining = { item_count placed_segments_left };

    fn next(&mut self) -> Option<PlacedSegment> {
        'commands: loop {
            match self.commands.next() {
                None => return None,
                Some(command) => {
                    if let Some(segment) = segment_of(command) {
                        return Some(segment);
                    }
                }
            }
        }
    }
}

impl<'b> Items for SegmentIterator<'b> {
    type Item = PlacedSegment;

    ghost left = { placed_segments_left };

    fn again(&self) -> SegmentIterator<'b> {
        SegmentIterator {
            commands: self.commands.as_slice().iter(),
        }
    }

    fn take_next(&mut self) -> Option<PlacedSegment> {
        self.next()
    }
}

// Returns section k of a segment.
fn placed_section_at(
    bytes: &[u8],
    ctx: Ctx,
    segment: PlacedSegment,
    k: u32,
) -> Result<PlacedSection>
    ensures { Reads (λ s. s) result (defined.placed_section_at ctx bytes.now segment k) }
{
    let section = section_at(bytes, ctx, place_of(ctx, segment.place, k))?;
    Ok(PlacedSection {
        segment,
        number: u64::from(k) + 1,
        section,
    })
}

/// An iterator over the sections of some commands, in order. Of each segment it returns those whose record lies in the
/// segment's command, up to the first that isn't in the bytes.
#[derive(Clone, Drop)]
pub struct SectionIterator<'a, 'b> {
    bytes: &'a [u8],
    ctx: Ctx,
    commands: Iter<'b, LoadCommand>,
    // The segment whose sections are returned now; the next field is the number of those already returned.
    segment: Option<PlacedSegment>,
    taken: u32,
}

impl<'a, 'b> SectionIterator<'a, 'b> {
    pub(crate) fn new(bytes: &'a [u8], ctx: Ctx, commands: &'b [LoadCommand]) -> Self
        ensures { placed_sections_left result ≡ flat_map (defined.sections_by ctx bytes.now) (map command_of commands.now) }
    {
        SectionIterator {
            bytes,
            ctx,
            commands: commands.iter(),
            segment: None,
            taken: 0,
        }
    }
}

/// Returns the next section of a segment after the first `taken`, if there is one.
pub(crate) fn take_section(
    bytes: &[u8],
    ctx: Ctx,
    segment: Option<PlacedSegment>,
    taken: u32,
) -> Option<PlacedSection>
    ensures more { TakesSection ctx bytes.now segment taken result }
    ensures few { IfSome result (λ _. taken + 1 < 2 ^ 32) }
{
    let segment = segment?;
    let command = &segment.command;
    if taken >= own_sections(ctx.container, command.cmdsize, command.nsects) {
        return None;
    }
    placed_section_at(bytes, ctx, segment, taken).ok()
}

impl<'a, 'b> Iterator for SectionIterator<'a, 'b> {
    type Item = PlacedSection;

    ghost use Rattle.std.specs.Iterator.{YieldsFirst, item_count};

    ghost next_gives = { YieldsFirst placed_sections_left };

    ghost remaining = { item_count placed_sections_left };

    fn next(&mut self) -> Option<PlacedSection> {
        'commands: loop {
            if let Some(section) = take_section(self.bytes, self.ctx, self.segment, self.taken) {
                self.taken += 1;
                return Some(section);
            }
            self.segment = None;
            match self.commands.next() {
                None => return None,
                Some(command) => {
                    self.segment = segment_of(command);
                    self.taken = 0;
                }
            }
        }
    }
}

impl<'a, 'b> Items for SectionIterator<'a, 'b> {
    type Item = PlacedSection;

    ghost left = { placed_sections_left };

    fn again(&self) -> SectionIterator<'a, 'b> {
        SectionIterator {
            bytes: self.bytes,
            ctx: self.ctx,
            commands: self.commands.as_slice().iter(),
            segment: self.segment,
            taken: self.taken,
        }
    }

    fn take_next(&mut self) -> Option<PlacedSection> {
        self.next()
    }
}
