//! The sections of a segment, one at a time.

ghost use Rattle.std.specs.Prelude.{◌≡◌, ◌<◌, ◌^◌};
ghost use Rattle.mach_base.specs.Answer.{Reads};
ghost use Rattle.mach_parts.specs.Section.{own_sections, section_place, section_with_data};

use crate::segment::conversions::command_len;
use crate::segment::section::{Section, SectionData};
use mach_base::{Container, Ctx, Result, SizeWith, records_in_bounds};
use mach_records::{
    SIZEOF_SECTION_32, SIZEOF_SECTION_64, SIZEOF_SEGMENT_COMMAND_32, SIZEOF_SEGMENT_COMMAND_64,
};

/// An iterator over the sections of a segment with their data. It has exactly as many items
/// as the segment claims. Each is the section at its own place, or the error of that read.
#[derive(Clone, Drop)]
pub struct SectionIterator<'a> {
    bytes: &'a [u8],
    offset: usize,
    next_item: u32,
    count: u32,
    ctx: Ctx,
}

/// Returns the place of section `number` of the command at `offset`.
pub fn place_of(ctx: Ctx, offset: usize, number: u32) -> usize
    ensures { result ≡ section_place ctx.container offset number }
{
    let following = command_len(ctx.container) + number as usize * Section::size_with(&ctx);
    offset.saturating_add(following)
}

/// Returns how many of `nsects` sections have their record in their segment's command of `cmdsize` bytes.
pub fn own_sections(width: Container, cmdsize: u32, nsects: u32) -> u32
    ensures { result ≡ own_sections width cmdsize nsects }
{
    let (head, each) = match width {
        Container::Little => (SIZEOF_SEGMENT_COMMAND_32, SIZEOF_SECTION_32),
        Container::Big => (SIZEOF_SEGMENT_COMMAND_64, SIZEOF_SECTION_64),
    };
    let room = cmdsize.saturating_sub(head as u32) / each as u32;
    nsects.min(room)
}

// Reads the section at `place`, with its data.
fn read_at<'a>(bytes: &'a [u8], place: usize, ctx: Ctx) -> Result<(Section, SectionData<'a>)>
    ensures { Reads (λ found. (found.0, found.1.now)) result (section_with_data ctx bytes.now place) }
{
    let section = Section::read(bytes, place, ctx)?;
    let found = section.data_in(bytes);
    Ok((section, found))
}

impl<'a> SectionIterator<'a> {
    ghost use Rattle.mach_base.specs.Items.{items_in_bounds};
    ghost use Rattle.mach_parts.specs.Section.{sections_at};
    ghost use Rattle.mach_parts.specs.SectionItems.{sections_left};

    // Builds an iterator over `count` sections of the command at `offset`.
    pub(crate) fn new(bytes: &'a [u8], offset: usize, count: u32, ctx: Ctx) -> Self
        ensures { sections_left result ≡ sections_at ctx bytes.now offset count }
    {
        SectionIterator {
            bytes,
            offset,
            next_item: 0,
            count,
            ctx,
        }
    }

    /// Returns the same iterator restricted to the sections whose record begins within the bytes. No byte of any later section can be read.
    pub fn in_bounds(&self) -> Self
        ensures { sections_left result ≡ items_in_bounds (sections_left self.now) }
    {
        let first = place_of(self.ctx, self.offset, 0);
        let in_bounds = records_in_bounds(self.bytes, first, Section::size_with(&self.ctx));
        SectionIterator {
            count: (self.count as usize).min(in_bounds) as u32,
            ..*self
        }
    }
}

impl<'a> Iterator for SectionIterator<'a> {
    type Item = Result<(Section, SectionData<'a>)>;

    ghost use Rattle.std.specs.Prelude.{Some, IfSome, length};
    ghost use Rattle.std.specs.Iterator.{YieldsFirstBy, UpTo, item_count};
    ghost use Rattle.std.specs.Iterator.SizeHint.{IsWithinCount};
    ghost use Rattle.mach_parts.specs.SectionItems.{section_read, sections_left};

    ghost next_gives = { YieldsFirstBy section_read sections_left };

    ghost remaining = { item_count sections_left };

    fn next(&mut self) -> Option<Result<(Section, SectionData<'a>)>> {
        if self.next_item >= self.count {
            return None;
        }
        let place = place_of(self.ctx, self.offset, self.next_item);
        self.next_item += 1;
        Some(read_at(self.bytes, place, self.ctx))
    }

    /// Returns the exact number of items left, as both bounds.
    fn size_hint(&self) -> (usize, Option<usize>)
        ensures lower { IsWithinCount result.0 (item_count sections_left self.now) }
        ensures upper { IfSome result.1 (UpTo (item_count sections_left self.now)) }
        ensures exact { result ≡ (length (sections_left self.now), Some (length (sections_left self.now))) }
    {
        let left = self.len();
        (left, Some(left))
    }
}

impl<'a> ExactSizeIterator for SectionIterator<'a> {
    /// Returns the number of items left.
    fn len(&self) -> usize {
        self.count.saturating_sub(self.next_item) as usize
    }
}
