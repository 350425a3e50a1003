//! The segments, sections and symbols of an image by their names.

ghost use Rattle.std.specs.Prelude.{◌≡◌, option_map};
ghost use Rattle.mach_base.specs.Items.{read_as};
ghost use Rattle.mach_parts.specs.NumberedLeft.{numbered_left};
ghost use Rattle.mach_parts.specs.SectionRecord.{numbered_sections};
ghost use Rattle.mach_parts.specs.Segment.{segment_view};
ghost use Rattle.goblin_mach.specs.ImageSlots.{symbol_table_view};
ghost use Rattle.goblin_mach.specs.NamedLeft.{named_left};
ghost use Rattle.goblin_mach.specs.NamedParts.{reads_as, is_section, section_of_name, segment_of_name, symbol_of_name, symbols_of_name, symbols_within};
ghost use Rattle.goblin_mach.specs.OpenImage.{segments_view};

use crate::macho::MachO;
use crate::macho::named_symbols::NamedSymbols;
use mach_base::{Result, read_text};
use mach_parts::segment::{NumberedSection, NumberedSections, ReadableSections, Segment};
use mach_parts::symbols::{Nlist, SymbolIterator};
use std::alloc::Allocator;

// Whether what was read is this name.
fn reads_as(found: Result<&str>, name: &str) -> bool
    ensures { result ≡ reads_as name.now (read_as (λ text. text.now) found.entry) }
{
    match found {
        Ok(found) => found == name,
        Err(_) => false,
    }
}

// Whether a section has these names of its own.
fn is_section(found: &NumberedSection, segment: &str, section: &str) -> bool
    ensures { result ≡ is_section segment.now section.now found.now }
{
    let record = &found.section;
    reads_as(read_text(&record.segname, 0), segment)
        && reads_as(read_text(&record.sectname, 0), section)
}

impl<'a, A: Allocator> MachO<'a, A> {
    /// Returns the first segment with this name, of the segments that the image holds, if there is one.
    pub fn segment_named<'b>(&'b self, name: &str) -> Option<&'b Segment<'a>>
        ensures { option_map (λ s. segment_view s.now) result ≡ segment_of_name name.now (segments_view self.now) }
    {
        'segments: for segment in self.segments.as_slice() {
            if reads_as(segment.name(), name) {
                return Some(segment);
            }
        }
        None
    }

    /// Returns the sections of the segments that the image holds, each with the number of its segment and its number there. An
    /// unreadable section is its error. There are as many items as the segments claim.
    pub fn sections<'b>(&'b self) -> NumberedSections<'a, 'b>
        ensures { numbered_left result ≡ numbered_sections (segments_view self.now) }
    {
        NumberedSections::new(self.segments.as_slice())
    }

    /// Returns the first section with these names of its own, of the segments that the image holds, if there is one. Sections
    /// that aren't in the bytes are skipped. In an object file, a section's own name of its segment isn't that of the segment
    /// that holds it.
    pub fn section_named(&self, segment: &str, section: &str) -> Option<NumberedSection>
        ensures { result ≡ section_of_name segment.now section.now (segments_view self.now) }
    {
        'sections: for found in ReadableSections::new(self.segments.as_slice()) {
            if is_section(&found, segment, section) {
                return Some(found);
            }
        }
        None
    }

    /// Returns all symbols with this name, of the table that the image holds, each with its number in the table, in their
    /// order. Debugging entries are among them. Symbols that can't be read are skipped. It allocates nothing.
    pub fn symbols_named<'b>(&self, name: &'b str) -> NamedSymbols<'a, 'b>
        ensures { named_left result ≡ symbols_of_name name.now 0 (symbols_within (symbol_table_view self.now)) }
    {
        match &self.symbols {
            Some(table) => NamedSymbols::new(table.in_bounds().iter(), name),
            None => NamedSymbols::new(SymbolIterator::default(), name),
        }
    }

    /// Returns the first symbol with this name that is no debugging entry, of the table that the image holds, and its number in
    /// the table. There is none exactly if no symbol that can be read is such a one.
    pub fn symbol_named(&self, name: &str) -> Option<(usize, Nlist)>
        ensures { result ≡ symbol_of_name name.now (symbols_within (symbol_table_view self.now)) }
    {
        'symbols: for (index, symbol) in self.symbols_named(name) {
            if !symbol.is_stab() {
                return Some((index, symbol));
            }
        }
        None
    }
}
