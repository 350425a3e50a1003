//! The relocations of the sections of an image, as rows.

ghost use Rattle.std.specs.Prelude.{◌≡◌, ◌∷◌, [], MatchOption, map, option_map};
ghost use Rattle.std.specs.Iterator.{YieldsFirstBy};
ghost use Rattle.mach_base.specs.Answer.{Reads};
ghost use Rattle.mach_parts.specs.RelocationItems.{relocations_left};
ghost use Rattle.mach_parts.specs.Segment.{segment_view};
ghost use Rattle.mach_parts.specs.SymbolViews.{table_of};
ghost use Rattle.goblin_mach.specs.ImageFacts.{facts_view};
ghost use Rattle.machinfo.specs.Relocations as defined;

use goblin_mach::cputype::{CPU_TYPE_ARM64, CPU_TYPE_ARM64_32};
use goblin_mach::relocation::{ARM64_RELOC_ADDEND, Relocation, RelocationInfo};
use goblin_mach::segment::{
    NumberedSection, ReadableSections, RelocationIterator, Section, Segment, section_of,
};
use goblin_mach::symbols::Symbols;
use goblin_mach::{Error, MachO, Result};
use std::alloc::Allocator;

// How many segments are searched for the section of a number. An object has one segment; a file may have a million, and a relocation
// for each.
const SEARCHED: usize = 16;

/// What a relocation refers to.
#[derive(Clone, Copy)]
pub enum Target<'a> {
    /// A symbol, by its number and its name.
    Symbol(u32, &'a str),
    /// A section, by its number, and that section if it is known.
    Section(u32, Option<NumberedSection>),
    /// Nothing, since the value is absolute.
    Absolute,
    /// What the next relocation adds.
    Addend(i32),
    /// The address of a scattered relocation.
    Value(u32),
}

/// A relocation of a section.
#[derive(Clone, Copy)]
pub struct RelocationRow<'a> {
    /// The section.
    pub section: NumberedSection,
    /// The type of the cpu.
    pub cputype: u32,
    /// The address of the corrected value in the section.
    pub address: u32,
    /// The type of the relocation.
    pub kind: u8,
    /// Whether the value is relative to its place.
    pub is_pcrel: bool,
    /// The length of the value: 2 to this power, in bytes.
    pub length: u8,
    /// What the relocation refers to.
    pub target: Target<'a>,
}

/// The relocations that are left of a section, only those whose records begin within the bytes.
#[derive(Drop)]
pub struct SectionRelocations<'a> {
    pub section: NumberedSection,
    pub relocations: RelocationIterator<'a>,
}

/// The relocations of an image: those that are left of a section, and those of the sections after it.
#[derive(Drop)]
pub struct RelocationRows<'a, 'b, A: Allocator> {
    pub image: &'b MachO<'a, A>,
    pub current: Option<SectionRelocations<'a>>,
    pub sections: ReadableSections<'a, 'b>,
}

// Returns the symbol of a number, which must be one of the table.
fn target_symbol<'a>(symbols: &Option<Symbols<'a>>, number: u32) -> Result<Target<'a>>
    ensures { Reads defined.target_view result (defined.target_symbol (option_map table_of symbols.now) number) }
{
    match symbols {
        Some(table) if (number as usize) < table.len() => match table.get(number as usize) {
            Ok((name, _)) => Ok(Target::Symbol(number, name)),
            Err(error) => Err(error),
        },
        _ => Err(Error::Malformed("a relocation's symbol is past the table of symbols")),
    }
}

// Finds the section of a number in the first segments. Sections are counted from 1 over all segments.
fn section_among_first(segments: &[Segment<'_>], number: u32) -> Option<NumberedSection>
    ensures { result ≡ defined.section_among_first (map segment_view segments.now) number }
{
    let first = &segments[..SEARCHED.min(segments.len())];
    section_of(first, number as usize).unwrap_or(None)
}

// Returns what the number of a section refers to: 0 is that of none.
fn target_section<'a>(segments: &[Segment<'_>], number: u32) -> Target<'a>
    ensures { defined.target_view result ≡ defined.section_by_its_number (map segment_view segments.now) number }
{
    if number == 0 {
        Target::Absolute
    } else {
        Target::Section(number, section_among_first(segments, number))
    }
}

// Returns a number of 24 bits as a signed one.
fn signed_of_24(number: u32) -> i32
    ensures { result ≡ defined.signed_of_24 number }
{
    if number < 0x80_0000 {
        number as i32
    } else {
        -1 - 0xff_ffff_u32.saturating_sub(number) as i32
    }
}

// Whether the number of a relocation of this type is an addend.
fn has_addend(cputype: u32, kind: u8) -> bool
    ensures { result ≡ defined.has_addend cputype kind }
{
    (cputype == CPU_TYPE_ARM64 || cputype == CPU_TYPE_ARM64_32) && kind == ARM64_RELOC_ADDEND
}

// Returns what a plain relocation refers to, by its number.
fn target_of<'a, A: Allocator>(
    image: &MachO<'a, A>,
    number: u32,
    is_extern: bool,
    kind: u8,
) -> Result<Target<'a>>
    ensures { Reads defined.target_view result (defined.target_by_number (facts_view image.now) number is_extern kind) }
{
    if has_addend(image.header.cputype, kind) {
        return Ok(Target::Addend(signed_of_24(number)));
    }
    if is_extern {
        target_symbol(&image.symbols, number)
    } else {
        Ok(target_section(image.segments.as_slice(), number))
    }
}

// Returns the row of a relocation of a section.
fn row_of<'a, A: Allocator>(
    image: &MachO<'a, A>,
    section: NumberedSection,
    relocation: RelocationInfo,
) -> Result<RelocationRow<'a>>
    ensures { Reads defined.relocation_view result (defined.row_of_relocation (facts_view image.now) section relocation) }
{
    let cputype = image.header.cputype;
    match relocation.read_as(cputype, image.ctx().le) {
        Relocation::Plain {
            address,
            symbol,
            is_pcrel,
            length,
            is_extern,
            kind,
        } => {
            let target = target_of(image, symbol, is_extern, kind)?;
            Ok(RelocationRow {
                section,
                cputype,
                address,
                kind,
                is_pcrel,
                length,
                target,
            })
        }
        Relocation::Scattered {
            address,
            value,
            is_pcrel,
            length,
            kind,
        } => Ok(RelocationRow {
            section,
            cputype,
            address,
            kind,
            is_pcrel,
            length,
            target: Target::Value(value),
        }),
    }
}

// Returns all relocations that a section claims.
fn claimed_by<'a, A: Allocator>(
    image: &MachO<'a, A>,
    section: &NumberedSection,
) -> RelocationIterator<'a>
    ensures { relocations_left result ≡ defined.relocations_claimed (facts_view image.now) section.now }
{
    Section::from(section.section).iter_relocations(image.bytes(), image.ctx())
}

// Returns how many of them begin past the end of the bytes.
fn past_of<A: Allocator>(image: &MachO<'_, A>, section: &NumberedSection) -> usize
    ensures { result ≡ defined.section_relocations_past (facts_view image.now) section.now }
{
    let all = claimed_by(image, section);
    all.len() - all.in_bounds().len()
}

// Returns how many relocations the sections of an image claim past the end of the bytes, at most the last number of 64 bits.
fn past_in<A: Allocator>(image: &MachO<'_, A>) -> usize
    ensures { result ≡ defined.image_relocations_past (facts_view image.now) }
{
    let mut past = 0usize;
    'sections: for section in ReadableSections::new(image.segments.as_slice()) {
        past = past.saturating_add(past_of(image, &section));
    }
    past
}

impl<'a, 'b, A: Allocator> RelocationRows<'a, 'b, A> {
    /// Returns the relocations of an image, and how many more its sections claim past the end of the bytes.
    pub fn of(image: &'b MachO<'a, A>) -> (Self, usize)
        ensures left { defined.relocation_rows_left result.0 ≡ defined.image_relocations (facts_view image.now) }
        ensures past { result.1 ≡ defined.image_relocations_past (facts_view image.now) }
    {
        let rows = RelocationRows {
            image,
            current: None,
            sections: ReadableSections::new(image.segments.as_slice()),
        };
        (rows, past_in(image))
    }

    // Returns the next row of the current section.
    fn next_of_current(&mut self) -> Option<Result<RelocationRow<'a>>>
        ensures row { MatchOption result ((defined.current_rows_left (facts_view self.old.image.now) self.old.current ≡ [])
            × (defined.current_rows_left (facts_view self.old.image.now) self.new.current ≡ []))
            (λ row. defined.current_rows_left (facts_view self.old.image.now) self.old.current
            ≡ defined.relocation_row_read row ∷ defined.current_rows_left (facts_view self.old.image.now) self.new.current) }
        ensures image { self.new.image ≡ self.old.image }
        ensures sections { self.new.sections ≡ self.old.sections }
    {
        let image = self.image;
        match &mut self.current {
            None => None,
            Some(current) => match current.relocations.next()? {
                Ok(relocation) => Some(row_of(image, current.section, relocation)),
                Err(error) => Some(Err(error)),
            },
        }
    }

    /// Returns the next row, or the error if it can't be read.
    pub fn take_next(&mut self) -> Option<Result<RelocationRow<'a>>>
        ensures { YieldsFirstBy defined.relocation_row_read defined.relocation_rows_left self.old result self.new }
    {
        'sections: loop {
            if let Some(row) = self.next_of_current() {
                return Some(row);
            }
            let section = self.sections.next()?;
            let relocations = claimed_by(self.image, &section).in_bounds();
            self.current = Some(SectionRelocations {
                section,
                relocations,
            });
        }
    }
}
