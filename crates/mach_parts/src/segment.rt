//! Segments and their sections (`mach-o/loader.h`).

ghost use Rattle.std.specs.Prelude.{◌≡◌, ◌+◌, ◌<◌, ◌^◌, ◌↔◌, IsTrue, length};
ghost use Rattle.mach_base.specs.Answer.{Reads};
ghost use Rattle.mach_base.specs.Text.{text_at};
ghost use Rattle.mach_parts.specs.Section.{command_size};
ghost use Rattle.mach_parts.specs.Segment.{segment_data, segment_at, lossy_segment_at, segment_view, widened, new_segment, with_data};

mod conversions;
mod debug;
pub mod laws;
mod list;
mod numbered;
mod readable;
mod relocations;
mod section;
mod sections;

use crate::segment::conversions::{command_len, widen};
pub use crate::segment::list::SegmentSections;
pub use crate::segment::numbered::{
    NumberedSection, NumberedSections, section_at, section_of, widen_section,
};
pub use crate::segment::readable::{ReadableSections, section_holding};
pub use crate::segment::relocations::RelocationIterator;
pub use crate::segment::section::{Section, SectionData, is_of_zeros};
pub use crate::segment::sections::{SectionIterator, own_sections, place_of};
use mach_base::{Container, Ctx, Result, bytes_at, read_text};
use mach_records::{LC_SEGMENT, LC_SEGMENT_64, SegmentCommand32, SegmentCommand64};
use std::alloc::{Allocator, Global};

/// The segments of an image, in order.
pub type Segments<'a, A = Global> = list::Segments<Segment<'a>, A>;

/// A part of an image that is mapped into memory as a whole, with its bytes in the file (struct segment_command).
#[derive(Drop)]
pub struct Segment<'a> {
    /// The number of the command.
    pub cmd: u32,
    /// The size of the command and its sections, in bytes.
    pub cmdsize: u32,
    /// The name, padded with zeros.
    pub segname: [u8; 16],
    /// The address in memory.
    pub vmaddr: u64,
    /// The size in memory, in bytes.
    pub vmsize: u64,
    /// The file offset.
    pub fileoff: u64,
    /// The size in the file, in bytes.
    pub filesize: u64,
    /// The maximum protection.
    pub maxprot: u32,
    /// The initial protection.
    pub initprot: u32,
    /// How many sections there are.
    pub nsects: u32,
    /// The flags of the segment.
    pub flags: u32,
    /// The data: the bytes at `fileoff`, or the sections that were passed to `new`.
    pub bytes: &'a [u8],
    // What the sections are read from: the file, the place of the command, and the context.
    file: &'a [u8],
    offset: usize,
    ctx: Ctx,
}

// Returns the data of a segment: `size` bytes at a place of the file, or none if `size` is 0.
fn data_at(bytes: &[u8], place: u64, size: u64) -> Result<&[u8]>
    ensures { Reads (λ found. found.now) result (segment_data bytes.now place size) }
{
    if size == 0 {
        return Ok(&[]);
    }
    bytes_at(bytes, place as usize, size as usize)
}

impl<'a> Segment<'a> {
    /// Builds a segment to be written. Its command number follows from the context, its size includes `sections`, and its
    /// data is `sections`, which will be written after it. Everything else is 0, and it has no sections to iterate over.
    pub fn new(ctx: Ctx, sections: &'a [u8]) -> Self
        requires { command_size ctx.container + length sections.now < 2 ^ 32 }
        ensures { segment_view result ≡ new_segment ctx sections.now }
    {
        let cmd = match ctx.container {
            Container::Little => LC_SEGMENT,
            Container::Big => LC_SEGMENT_64,
        };
        Segment {
            cmd,
            cmdsize: (command_len(ctx.container) + sections.len()) as u32,
            segname: [0; 16],
            vmaddr: 0,
            vmsize: 0,
            fileoff: 0,
            filesize: 0,
            maxprot: 0,
            initprot: 0,
            nsects: 0,
            flags: 0,
            bytes: sections,
            file: &[],
            offset: 0,
            ctx,
        }
    }

    /// Builds the segment of a 32-bit image's command, which is at `offset` of the bytes. Fails if its data does not lie in the bytes.
    pub fn from_32(
        bytes: &'a [u8],
        segment: &SegmentCommand32,
        offset: usize,
        ctx: Ctx,
    ) -> Result<Self>
        ensures { Reads segment_view result (segment_at ctx bytes.now offset (widened segment.now)) }
    {
        Segment::from_64(bytes, &widen(segment), offset, ctx)
    }

    /// Builds the segment of a 64-bit image's command, which is at `offset` of the bytes. Fails if its data does not lie in the bytes.
    pub fn from_64(
        bytes: &'a [u8],
        segment: &SegmentCommand64,
        offset: usize,
        ctx: Ctx,
    ) -> Result<Self>
        ensures { Reads segment_view result (segment_at ctx bytes.now offset segment.now) }
    {
        let data = data_at(bytes, segment.fileoff, segment.filesize)?;
        Ok(Segment::of(bytes, segment, offset, ctx, data))
    }

    /// Like `from_32`, but data that does not lie in the bytes is empty. It is always `Ok`.
    pub fn from_32_lossy(
        bytes: &'a [u8],
        segment: &SegmentCommand32,
        offset: usize,
        ctx: Ctx,
    ) -> Result<Self>
        ensures { Reads segment_view result (lossy_segment_at ctx bytes.now offset (widened segment.now)) }
    {
        Segment::from_64_lossy(bytes, &widen(segment), offset, ctx)
    }

    /// Like `from_64`, but data that does not lie in the bytes is empty. It is always `Ok`.
    pub fn from_64_lossy(
        bytes: &'a [u8],
        segment: &SegmentCommand64,
        offset: usize,
        ctx: Ctx,
    ) -> Result<Self>
        ensures { Reads segment_view result (lossy_segment_at ctx bytes.now offset segment.now) }
    {
        let found = data_at(bytes, segment.fileoff, segment.filesize);
        Ok(Segment::of(bytes, segment, offset, ctx, found.unwrap_or(&[])))
    }

    // Builds the segment of a command and its data.
    fn of(
        file: &'a [u8],
        segment: &SegmentCommand64,
        offset: usize,
        ctx: Ctx,
        bytes: &'a [u8],
    ) -> Self
        ensures { segment_view result ≡ with_data ctx file.now offset segment.now bytes.now }
    {
        Segment {
            cmd: segment.cmd,
            cmdsize: segment.cmdsize,
            segname: segment.segname,
            vmaddr: segment.vmaddr,
            vmsize: segment.vmsize,
            fileoff: segment.fileoff,
            filesize: segment.filesize,
            maxprot: segment.maxprot,
            initprot: segment.initprot,
            nsects: segment.nsects,
            flags: segment.flags,
            bytes,
            file,
            offset,
            ctx,
        }
    }

    /// Returns the segment's name: the text with which `segname` begins.
    pub fn name(&self) -> Result<&str>
        ensures { Reads (λ name. name.now) result (text_at self.now.segname 0) }
    {
        read_text(&self.segname, 0)
    }

    /// Whether an offset from the segment's start lies within the segment's memory.
    pub fn holds(&self, seg_offset: u64) -> bool
        ensures { IsTrue result ↔ (seg_offset < self.now.vmsize) }
    {
        seg_offset < self.vmsize
    }

    ghost use Rattle.mach_parts.specs.SectionRecord.{sections_held};

    /// Returns how many of the segment's sections have their record in its command. It is `nsects` unless the command is too small.
    pub fn sections_held(&self) -> u32
        ensures { result ≡ sections_held (segment_view self.now) }
    {
        own_sections(self.ctx.container, self.cmdsize, self.nsects)
    }

    ghost use Rattle.std.specs.Prelude.{map};
    ghost use Rattle.mach_base.specs.Answer.{Gives};
    ghost use Rattle.mach_base.specs.Items.{all_read};
    ghost use Rattle.mach_parts.specs.Segment.{sections_of};
    ghost use Rattle.mach_parts.specs.SectionItems.{section_and_bytes};

    /// Returns the segment's sections with their data. Fails if the record of any section does not lie in the bytes, or if memory runs out.
    pub fn sections<A: Allocator>(&self, alloc: A) -> Result<Vec<(Section, SectionData<'a>), A>>
        ensures { Gives (λ v. map section_and_bytes v.items) result (all_read (sections_of (segment_view self.now))) }
    {
        let mut sections = Vec::new(alloc);
        'sections: for section in self {
            sections.push(section?)?;
        }
        Ok(sections)
    }
}

impl<'a, 'b> IntoIterator for &'b Segment<'a> {
    type Item = Result<(Section, SectionData<'a>)>;

    type IntoIter = SectionIterator<'a>;

    ghost use Rattle.mach_parts.specs.Segment.{sections_of};
    ghost use Rattle.mach_parts.specs.SectionItems.{sections_left};

    ghost into_iter_gives = { λ s it. sections_left it ≡ sections_of (segment_view s.now) };

    fn into_iter(self) -> SectionIterator<'a> {
        SectionIterator::new(self.file, self.offset, self.nsects, self.ctx)
    }
}
