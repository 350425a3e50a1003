//! Sections (`mach-o/loader.h`).

ghost use Rattle.std.specs.Prelude.{◌≡◌, ◌<◌, length, Ok, OnErr, OnOk};
ghost use Rattle.mach_base.specs.Answer.{Reads};
ghost use Rattle.mach_base.specs.Number.{room_at};
ghost use Rattle.mach_base.specs.Record.{spelling, record_at, IsWritten};
ghost use Rattle.mach_base.specs.Text.{text_at};
ghost use Rattle.mach_parts.specs.Section.{is_zero_fill, section_at, section_data};

use crate::segment::relocations::RelocationIterator;
use mach_base::{
    Container, Ctx, Endian, Error, IntoCtx, Record, Result, SizeWith, TryFromCtx, TryIntoCtx,
    bytes_at, low_bits, read_text,
};
use mach_records::constants::{S_GB_ZEROFILL, S_THREAD_LOCAL_ZEROFILL, S_ZEROFILL, SECTION_TYPE};
use mach_records::{Section32, Section64};

/// The data of a section: bytes of the file.
pub type SectionData<'a> = &'a [u8];

/// A part of a segment, for images of either width (struct section, struct section_64).
#[derive(Debug, Drop)]
pub struct Section {
    /// The name, padded with zeros.
    pub sectname: [u8; 16],
    /// The name of the segment, padded with zeros.
    pub segname: [u8; 16],
    /// The address in memory.
    pub addr: u64,
    /// The size in bytes.
    pub size: u64,
    /// The file offset.
    pub offset: u32,
    /// The alignment of the address: 2 to this power, in bytes.
    pub align: u32,
    /// The file offset of the relocations.
    pub reloff: u32,
    /// How many relocations there are.
    pub nreloc: u32,
    /// The type in the low 8 bits, attributes in the others.
    pub flags: u32,
}

impl Section {
    /// Returns the section's name: the text with which `sectname` begins.
    pub fn name(&self) -> Result<&str>
        ensures { Reads (λ name. name.now) result (text_at self.now.sectname 0) }
    {
        read_text(&self.sectname, 0)
    }

    /// Returns the name of the section's segment: the text with which `segname` begins.
    pub fn segname(&self) -> Result<&str>
        ensures { Reads (λ name. name.now) result (text_at self.now.segname 0) }
    {
        read_text(&self.segname, 0)
    }

    ghost use Rattle.mach_parts.specs.Relocation.{relocations_at};
    ghost use Rattle.mach_parts.specs.RelocationItems.{relocations_left};

    /// Returns an iterator over the section's relocations in the bytes of the file.
    pub fn iter_relocations<'b>(&self, bytes: &'b [u8], ctx: Ctx) -> RelocationIterator<'b>
        ensures { relocations_left result ≡ relocations_at ctx.le bytes.now self.now.reloff self.now.nreloc }
    {
        RelocationIterator::new(bytes, self.reloff, self.nreloc, ctx.le)
    }

    // Reads the section at `place`.
    pub(crate) fn read(bytes: &[u8], place: usize, ctx: Ctx) -> Result<Section>
        ensures { Reads (λ s. s) result (section_at ctx.container ctx.le bytes.now place) }
    {
        Ok(match ctx.container {
            Container::Little => Section::from(Section32::read(bytes, place, ctx.le)?),
            Container::Big => Section::from(Section64::read(bytes, place, ctx.le)?),
        })
    }

    // Returns the data of the section.
    pub(crate) fn data_in<'a>(&self, file: &'a [u8]) -> SectionData<'a>
        ensures { result.now ≡ section_data file.now self.now }
    {
        if is_of_zeros(self.flags) {
            return &[];
        }
        bytes_at(file, self.offset as usize, self.size as usize).unwrap_or(&[])
    }
}

/// Whether a section with these flags consists of zeros that take no bytes of the file.
pub fn is_of_zeros(flags: u32) -> bool
    ensures { result ≡ is_zero_fill flags }
{
    let kind = flags & SECTION_TYPE;
    kind == S_ZEROFILL || kind == S_GB_ZEROFILL || kind == S_THREAD_LOCAL_ZEROFILL
}

impl Default for Section {
    ghost use Rattle.mach_parts.specs.Section.{blank_section};

    ghost is_default = { λ s. s ≡ blank_section };

    /// Returns a section without names. Every number is 0.
    fn default() -> Self {
        Section {
            sectname: [0; 16],
            segname: [0; 16],
            addr: 0,
            size: 0,
            offset: 0,
            align: 0,
            reloff: 0,
            nreloc: 0,
            flags: 0,
        }
    }
}

impl From<Section32> for Section {
    ghost use Rattle.mach_parts.specs.Section.{section_of_32};

    ghost from_gives = { λ held s. s ≡ section_of_32 held };

    fn from(held: Section32) -> Section {
        let sectname = held.sectname;
        let segname = held.segname;
        Section {
            sectname,
            segname,
            addr: u64::from(held.addr),
            size: u64::from(held.size),
            offset: held.offset,
            align: held.align,
            reloff: held.reloff,
            nreloc: held.nreloc,
            flags: held.flags,
        }
    }
}

impl From<Section64> for Section {
    ghost use Rattle.mach_parts.specs.Section.{section_of_64};

    ghost from_gives = { λ held s. s ≡ section_of_64 held };

    fn from(held: Section64) -> Section {
        let sectname = held.sectname;
        let segname = held.segname;
        Section {
            sectname,
            segname,
            addr: held.addr,
            size: held.size,
            offset: held.offset,
            align: held.align,
            reloff: held.reloff,
            nreloc: held.nreloc,
            flags: held.flags,
        }
    }
}

impl From<Section> for Section32 {
    ghost use Rattle.mach_parts.specs.Section.{section32_of};

    ghost from_gives = { λ s held. held ≡ section32_of s };

    /// Keeps the low 32 bits of address and size. The reserved fields are 0.
    fn from(section: Section) -> Section32 {
        let sectname = section.sectname;
        let segname = section.segname;
        Section32 {
            sectname,
            segname,
            addr: low_bits(section.addr),
            size: low_bits(section.size),
            offset: section.offset,
            align: section.align,
            reloff: section.reloff,
            nreloc: section.nreloc,
            flags: section.flags,
            reserved1: 0,
            reserved2: 0,
        }
    }
}

impl From<Section> for Section64 {
    ghost use Rattle.mach_parts.specs.Section.{section64_of};

    ghost from_gives = { λ s held. held ≡ section64_of s };

    /// Sets the reserved fields to 0.
    fn from(section: Section) -> Section64 {
        let sectname = section.sectname;
        let segname = section.segname;
        Section64 {
            sectname,
            segname,
            addr: section.addr,
            size: section.size,
            offset: section.offset,
            align: section.align,
            reloff: section.reloff,
            nreloc: section.nreloc,
            flags: section.flags,
            reserved1: 0,
            reserved2: 0,
            reserved3: 0,
        }
    }
}

impl<'a> TryFromCtx<'a, Ctx> for Section {
    type Error = Error;

    ghost use Rattle.mach_base.specs.Fault.{fault_of};
    ghost use Rattle.mach_base.specs.Front.{same_fault};
    ghost use Rattle.mach_parts.specs.Section.{section_front};
    ghost use Rattle.mach_parts.specs.declared.segment.section.Section.{Section};

    ghost fault = { fault_of };

    ghost keeps_fault = { same_fault };

    ghost View = { Section };

    ghost view = { λ s. s };

    ghost front = { section_front };

    fn try_from_ctx(bytes: &'a [u8], ctx: Ctx) -> Result<(Section, usize)> {
        Ok((Section::read(bytes, 0, ctx)?, Section::size_with(&ctx)))
    }
}

impl TryIntoCtx<Ctx> for Section {
    ghost use Rattle.mach_parts.specs.Section.{kept, section_bytes, section_size};
    ghost use Rattle.std.proofs.Common.{zero-lt-suc};
    ghost use Rattle.mach_base.specs.declared.context.Container.TheVariants.{Little, Big};

    ghost spelled = { λ ctx s. section_bytes ctx.container ctx.le s };

    ghost width = { λ ctx _. section_size ctx.container };

    ghost not_empty = { λ ctx _. elim ctx.container as (λ w. 0 < section_size w) [ Little ↦ zero-lt-suc _ | Big ↦ zero-lt-suc _ ] };

    /// Writes the section in the context's width.
    fn try_into_ctx(self, bytes: &mut [u8], ctx: Ctx) -> Result<usize>
        ensures answer { Reads (λ n. n) result (room_at (section_size ctx.container) bytes.old 0) }
        ensures written { OnOk result (IsWritten bytes.old bytes.new 0 (section_bytes ctx.container ctx.le self)) }
        ensures sized { OnOk result (length (section_bytes ctx.container ctx.le self) ≡ section_size ctx.container) }
        ensures refused { OnErr result (bytes.new ≡ bytes.old) }
        ensures read_back { OnOk result (section_at ctx.container ctx.le bytes.new 0 ≡ Ok (kept ctx.container self)) }
    {
        match ctx.container {
            Container::Little => put(Section32::from(self), bytes, ctx.le),
            Container::Big => put(Section64::from(self), bytes, ctx.le),
        }
    }
}

// Writes a record at the start of the bytes, so that it can be read back.
fn put<R: Record>(held: R, bytes: &mut [u8], le: Endian) -> Result<usize>
    ensures answer { Reads (λ n. n) result (room_at R.SIZE bytes.old 0) }
    ensures written { OnOk result (IsWritten bytes.old bytes.new 0 (spelling le R.fields (R.values held))) }
    ensures sized { OnOk result (length (spelling le R.fields (R.values held)) ≡ R.SIZE) }
    ensures refused { OnErr result (bytes.new ≡ bytes.old) }
    ensures read_back { OnOk result (record_at le R.fields bytes.new 0 ≡ Ok (R.values held)) }
{
    held.write(bytes, 0, le)
}

impl IntoCtx<Ctx> for Section {}

impl SizeWith<Ctx> for Section {
    ghost use Rattle.mach_parts.specs.Section.{section_size};

    ghost size = { λ ctx. section_size ctx.container };

    /// Returns 68 or 80, by the context's width.
    fn size_with(ctx: &Ctx) -> usize {
        match ctx.container {
            Container::Little => Section32::SIZE,
            Container::Big => Section64::SIZE,
        }
    }
}
