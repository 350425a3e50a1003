//! The sections of a segment, read in place.

ghost use Rattle.std.specs.Prelude.{◌≡◌, drop};
ghost use Rattle.mach_parts.specs.Section.{section_item};
ghost use Rattle.mach_parts.specs.SectionItems.{section_read};
ghost use Rattle.goblin_mach_c.specs.Fill.{Fills};
ghost use Rattle.goblin_mach_c.specs.SectionRows.{section_row, section_rows};

use crate::errors::{GM_OK, code_of};
use crate::images::{ctx_of, gm_image};
use crate::numbered::{Numbered, rows_from};
use crate::rows::fill;
use mach_base::{Ctx, Error, Result, SizeWith};
use mach_parts::segment::{Section, SectionData, Segment};
use mach_records::SegmentCommand64;

/// A section. Its data are `data_len` bytes of the file at `offset`: none if it is filled with zeros, or lies outside of the
/// file. If `code` isn't `GM_OK` it can't be read, and the rest is 0.
#[derive(Clone, Copy)]
#[repr(C)]
pub struct gm_section {
    pub name: [u8; 16],
    pub segment: [u8; 16],
    pub addr: u64,
    pub size: u64,
    pub data_len: usize,
    pub offset: u32,
    pub align: u32,
    pub reloff: u32,
    pub nreloc: u32,
    pub flags: u32,
    pub code: u32,
}

/// The sections after the command at a place.
#[derive(Clone, Copy)]
pub struct Sections<'a> {
    pub bytes: &'a [u8],
    pub command: usize,
    pub ctx: Ctx,
}

// The command of a segment with one section.
const ONE_SECTION: SegmentCommand64 = SegmentCommand64 {
    cmd: 0,
    cmdsize: 0,
    segname: [0; 16],
    vmaddr: 0,
    vmsize: 0,
    fileoff: 0,
    filesize: 0,
    maxprot: 0,
    initprot: 0,
    nsects: 1,
    flags: 0,
};

impl<'a> Sections<'a> {
    /// Reads the section of a number, with its data.
    pub fn read(&self, number: u32) -> Result<(Section, SectionData<'a>)>
        ensures { section_read result ≡ section_item self.now.ctx self.now.bytes.now self.now.command number }
    {
        let following = number as usize * Section::size_with(&self.ctx);
        let place = self.command.saturating_add(following);
        let segment = Segment::from_64_lossy(self.bytes, &ONE_SECTION, place, self.ctx)?;
        let mut sections = (&segment).into_iter();
        match sections.next() {
            Some(found) => found,
            None => Err(Error::Malformed("the segment has no such section")),
        }
    }
}

/// Returns the row of a section with its data, or of why it can't be read.
pub fn section_row(found: &Result<(Section, SectionData<'_>)>) -> gm_section
    ensures { result ≡ section_row (section_read found.now) }
{
    match found {
        Ok((section, bytes)) => gm_section {
            name: section.sectname,
            segment: section.segname,
            addr: section.addr,
            size: section.size,
            data_len: bytes.len(),
            offset: section.offset,
            align: section.align,
            reloff: section.reloff,
            nreloc: section.nreloc,
            flags: section.flags,
            code: GM_OK,
        },
        Err(why) => gm_section {
            name: [0; 16],
            segment: [0; 16],
            addr: 0,
            size: 0,
            data_len: 0,
            offset: 0,
            align: 0,
            reloff: 0,
            nreloc: 0,
            flags: 0,
            code: code_of(why),
        },
    }
}

impl<'a> Numbered for Sections<'a> {
    type Row = gm_section;

    ghost item = { λ s k. section_row (section_item s.ctx s.bytes.now s.command k) };

    fn at(&self, number: u32) -> gm_section {
        section_row(&self.read(number))
    }
}

/// Writes the sections of a segment from index `first` on, as many as there are and fit, and returns how many. The segment is
/// given by the offset of its command and its count of sections.
#[unsafe(no_mangle)]
pub extern "C" fn gmr_sections(
    bytes: &[u8],
    image: &gm_image,
    command: usize,
    sections: u32,
    first: usize,
    out: &mut [gm_section],
) -> usize
    ensures { Fills (drop first (section_rows bytes.now image.now command sections)) out.old out.new result }
{
    let source = Sections {
        bytes,
        command,
        ctx: ctx_of(image),
    };
    let mut rows = rows_from(source, first, sections);
    fill(&mut rows, out)
}
