//! Sections in their 64-bit form, numbered over all segments of an image.

ghost use Rattle.std.specs.Prelude.{◌≡◌, map, option_map, slice_get};
ghost use Rattle.mach_base.specs.Answer.{Reads};
ghost use Rattle.mach_base.specs.Text.{text_at};
ghost use Rattle.mach_parts.specs.Section.{section_place};
ghost use Rattle.mach_parts.specs.Segment.{segment_view};
ghost use Rattle.mach_parts.specs.SectionRecord.{wider_section, section_record_at, numbered_section, numbered_sections, holds_address};
ghost use Rattle.mach_parts.specs.SectionRecord.{bytes_of_section, section_by_number};
ghost use Rattle.mach_parts.specs.NumberedLeft.{numbered_read, numbered_left};

use crate::segment::Segment;
use crate::segment::section::is_of_zeros;
use crate::segment::sections::place_of;
use mach_base::{Container, Ctx, Record, Result, bytes_at, read_text};
use mach_records::{Section32, Section64};

/// A section in its 64-bit form, with its position among the sections of an image.
#[derive(Clone, Copy, Debug)]
pub struct NumberedSection {
    /// The number of its segment, from 0.
    pub segment: usize,
    /// Its number in its segment, from 0.
    pub number: u32,
    /// The section itself, including the reserved fields.
    pub section: Section64,
}

impl NumberedSection {
    /// Whether an address lies within the section.
    pub fn holds(&self, address: u64) -> bool
        ensures { result ≡ holds_address address self.now }
    {
        let section = &self.section;
        section.addr <= address && address - section.addr < section.size
    }

    /// Returns the section's name: the text with which `sectname` begins.
    pub fn name(&self) -> Result<&str>
        ensures { Reads (λ name. name.now) result (text_at self.now.section.sectname 0) }
    {
        read_text(&self.section.sectname, 0)
    }

    /// Returns the name of the section's segment: the text with which `segname` begins.
    pub fn segname(&self) -> Result<&str>
        ensures { Reads (λ name. name.now) result (text_at self.now.section.segname 0) }
    {
        read_text(&self.section.segname, 0)
    }

    /// Returns the section's bytes among those of its image; none if it is zero-filled. Fails if they don't lie in the bytes.
    pub fn data_in<'a>(&self, bytes: &'a [u8]) -> Result<&'a [u8]>
        ensures { Reads (λ found. found.now) result (bytes_of_section bytes.now self.now.section) }
    {
        let Section64 {
            flags,
            offset,
            size,
            ..
        } = self.section;
        if is_of_zeros(flags) {
            return Ok(&[]);
        }
        bytes_at(bytes, offset as usize, size as usize)
    }
}

/// Converts a section of a 32-bit image to the 64-bit form.
pub fn widen_section(s: &Section32) -> Section64
    ensures { result ≡ wider_section s.now }
{
    Section64 {
        sectname: s.sectname,
        segname: s.segname,
        addr: u64::from(s.addr),
        size: u64::from(s.size),
        offset: s.offset,
        align: s.align,
        reloff: s.reloff,
        nreloc: s.nreloc,
        flags: s.flags,
        reserved1: s.reserved1,
        reserved2: s.reserved2,
        reserved3: 0,
    }
}

/// Reads the section at `place`, in its 64-bit form.
pub fn section_at(bytes: &[u8], ctx: Ctx, place: usize) -> Result<Section64>
    ensures { Reads (λ s. s) result (section_record_at ctx.container ctx.le bytes.now place) }
{
    match ctx.container {
        Container::Little => Ok(widen_section(&Section32::read(bytes, place, ctx.le)?)),
        Container::Big => Section64::read(bytes, place, ctx.le),
    }
}

impl Segment<'_> {
    /// Reads section `number` of this segment, which is number `segment`
    /// itself. Whether `number` is below the segment's count is not tested.
    pub fn numbered(&self, segment: usize, number: u32) -> Result<NumberedSection>
        ensures { Reads (λ n. n) result (numbered_section segment (segment_view self.now) number) }
    {
        let place = place_of(self.ctx, self.offset, number);
        let section = section_at(self.file, self.ctx, place)?;
        Ok(NumberedSection {
            segment,
            number,
            section,
        })
    }
}

/// An iterator over the sections of an image's segments, in order. It has exactly as many items as the
/// segments claim. Each is the section at its own place, or the error of that read. It allocates no memory.
#[derive(Clone, Copy)]
pub struct NumberedSections<'a, 'b> {
    segments: &'b [Segment<'a>],
    // The current segment, and the number of its next section.
    segment: usize,
    number: u32,
}

impl<'a, 'b> NumberedSections<'a, 'b> {
    /// Builds an iterator over the sections of these segments.
    pub fn new(segments: &'b [Segment<'a>]) -> Self
        ensures { numbered_left result ≡ numbered_sections (map segment_view segments.now) }
    {
        NumberedSections {
            segments,
            segment: 0,
            number: 0,
        }
    }
}

impl<'a, 'b> Iterator for NumberedSections<'a, 'b> {
    type Item = Result<NumberedSection>;

    ghost use Rattle.std.specs.Iterator.{YieldsFirstBy, item_count};

    ghost next_gives = { YieldsFirstBy numbered_read numbered_left };

    ghost remaining = { item_count numbered_left };

    fn next(&mut self) -> Option<Result<NumberedSection>> {
        'segments: loop {
            if self.segment >= self.segments.len() {
                return None;
            }
            let segment = &self.segments[self.segment];
            if self.number < segment.nsects {
                let item = segment.numbered(self.segment, self.number);
                self.number += 1;
                return Some(item);
            }
            self.segment += 1;
            self.number = 0;
        }
    }
}

// Reads section `number` of an image, counted from 0 over all segments.
// It is the error of that read if the section does not lie in the bytes.
fn counted_section(segments: &[Segment<'_>], number: usize) -> Option<Result<NumberedSection>>
    ensures { option_map numbered_read result ≡ slice_get (numbered_sections (map segment_view segments.now)) number }
{
    let mut before = number;
    'segments: for (k, segment) in segments.iter().enumerate() {
        let count = segment.nsects as usize;
        if before < count {
            return Some(segment.numbered(k, before as u32));
        }
        before -= count;
    }
    None
}

/// Reads the section that a symbol's `n_sect` names, if there is one. Sections
/// are counted from 1 over all segments. Fails if it does not lie in the bytes.
pub fn section_of(segments: &[Segment<'_>], n_sect: usize) -> Result<Option<NumberedSection>>
    ensures { Reads (λ found. found) result (section_by_number (map segment_view segments.now) n_sect) }
{
    if n_sect == 0 {
        return Ok(None);
    }
    match counted_section(segments, n_sect - 1) {
        None => Ok(None),
        Some(Ok(section)) => Ok(Some(section)),
        Some(Err(e)) => Err(e),
    }
}
