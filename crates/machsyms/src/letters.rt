//! The letters that `nm` prints for what a symbol is.

ghost use Rattle.std.specs.Prelude.{◌≡◌, ◌++◌, ◌≤◌, length, take, map, OnOk, IfOk};
ghost use Rattle.mach_base.specs.Items.{read_as};
ghost use Rattle.mach_parts.specs.SectionItems.{section_read};
ghost use Rattle.mach_parts.specs.Segment.{segment_view, sections_of};
ghost use Rattle.goblin_mach.specs.OpenImage.{segments_view};
ghost use Rattle.machsyms.specs.SymbolWords.{section_option_view};
ghost use Rattle.machsyms.specs.Letters.{section_letter, item_section, named_sections, section_by, symbol_letter, type_letter};
ghost use Rattle.machsyms.specs.Letters.{is_called, is_name, letter_at, letter_of};

use goblin_mach::MachO;
use goblin_mach::segment::{Section, SectionData, Segment};
use goblin_mach::symbols::{MAX_SECT, N_ABS, N_EXT, N_INDR, N_SECT, N_UNDF, Nlist};
use std::alloc::{AllocError, Allocator};

/// Returns the sections of all segments of the image in order, as many as a symbol can name; `None` is one that can't be read.
pub fn named_sections<A: Allocator, B: Allocator>(
    alloc: B,
    image: &MachO<'_, A>,
) -> Result<Vec<Option<Section>, B>, AllocError>
    ensures { IfOk result (λ v. v.items ≡ named_sections (segments_view image.now)) }
{
    sections_held(alloc, image.segments.as_slice())
}

// Returns the sections of some segments.
fn sections_held<B: Allocator>(
    alloc: B,
    segments: &[Segment<'_>],
) -> Result<Vec<Option<Section>, B>, AllocError>
    ensures { IfOk result (λ v. v.items ≡ named_sections (map segment_view segments.now)) }
{
    let mut sections = Vec::new(alloc);
    'segments: for segment in segments {
        add_sections(&mut sections, segment)?;
    }
    Ok(sections)
}

// Adds the sections of a segment, up to the number that a symbol can name.
fn add_sections<B: Allocator>(
    sections: &mut Vec<Option<Section>, B>,
    segment: &Segment<'_>,
) -> Result<(), AllocError>
    requires { length sections.old.items ≤ 255 }
    ensures { OnOk result (sections.new.items ≡ take 255 (sections.old.items ++ map item_section (sections_of (segment_view segment.now)))) }
{
    'sections: for item in segment {
        if sections.len() >= usize::from(MAX_SECT) {
            return Ok(());
        }
        sections.push(item_section(item))?;
    }
    Ok(())
}

// Returns a section, if it can be read.
fn item_section(item: goblin_mach::Result<(Section, SectionData<'_>)>) -> Option<Section>
    ensures { result ≡ item_section (section_read item.entry) }
{
    match item {
        Ok((section, _)) => Some(section),
        Err(_) => None,
    }
}

/// Returns a letter for each section.
pub fn section_letters<B: Allocator>(
    alloc: B,
    sections: &[Option<Section>],
) -> Result<Vec<char, B>, AllocError>
    ensures { IfOk result (λ v. v.items ≡ map letter_of sections.now) }
{
    let mut letters = Vec::new(alloc);
    'sections: for section in sections {
        letters.push(letter_of(section))?;
    }
    Ok(letters)
}

// Returns the letter of a section that may be unreadable.
fn letter_of(section: &Option<Section>) -> char
    ensures { result ≡ letter_of section.now }
{
    match section {
        Some(section) => section_letter(section),
        None => 's',
    }
}

/// Returns the section with a number, counted from 1, if it is among these and can be read.
pub fn section_by(number: usize, sections: &[Option<Section>]) -> Option<&Section>
    ensures { section_option_view result ≡ section_by sections.now number }
{
    match number.checked_sub(1) {
        Some(index) => match sections.get(index) {
            Some(Some(section)) => Some(section),
            _ => None,
        },
        None => None,
    }
}

// Returns the letter of a section.
fn section_letter(section: &Section) -> char
    ensures { result ≡ section_letter section.now }
{
    if is_called(section, "__TEXT", "__text") {
        't'
    } else if is_called(section, "__DATA", "__data") {
        'd'
    } else if is_called(section, "__DATA", "__bss") {
        'b'
    } else {
        's'
    }
}

// Whether these are the names of the section's segment and of the section.
fn is_called(section: &Section, segment: &str, name: &str) -> bool
    ensures { result ≡ is_called segment.now name.now section.now }
{
    is_name(section.segname(), segment) && is_name(section.name(), name)
}

// Whether a name is this one.
fn is_name(name: goblin_mach::Result<&str>, wanted: &str) -> bool
    ensures { result ≡ is_name wanted.now (read_as (λ text. text.now) name.entry) }
{
    match name {
        Ok(text) => text == wanted,
        Err(_) => false,
    }
}

/// Returns the letter of a symbol, given the letters of the image's sections.
pub fn symbol_letter(symbol: &Nlist, sections: &[char]) -> char
    ensures { result ≡ symbol_letter sections.now symbol.now }
{
    let letter = type_letter(symbol, sections);
    if symbol.n_type & N_EXT == 0 {
        letter
    } else {
        letter.to_ascii_uppercase()
    }
}

// Returns the letter of a symbol's type.
fn type_letter(symbol: &Nlist, sections: &[char]) -> char
    ensures { result ≡ type_letter sections.now symbol.now }
{
    match symbol.get_type() {
        N_UNDF if symbol.n_type & N_EXT == 0 => '?',
        N_UNDF if symbol.n_value == 0 => 'u',
        N_UNDF => 'c',
        N_ABS => 'a',
        N_INDR => 'i',
        N_SECT => letter_at(symbol.n_sect, sections),
        _ => '?',
    }
}

// Returns the letter of a section by its number, counted from 1.
fn letter_at(number: usize, sections: &[char]) -> char
    ensures { result ≡ letter_at sections.now number }
{
    match number.checked_sub(1) {
        Some(index) => sections.get(index).copied().unwrap_or('s'),
        None => 's',
    }
}
