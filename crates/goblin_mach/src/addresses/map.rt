//! What an image has at many addresses.

ghost use Rattle.std.specs.Prelude.{◌≡◌, ◌≤◌, ℕ, List, Result, Ok, map, option_map, slice_get, IfOk};
ghost use Rattle.std.specs.List.Sorted.{IsNonDecreasingBy};
ghost use Rattle.mach_base.specs.Answer.{IsOkUnlessMemory};
ghost use Rattle.mach_base.specs.Fault.{Fault};
ghost use Rattle.mach_load.specs.TablesLeft.{starts_left};
ghost use Rattle.mach_parts.specs.SectionRecord.{readable_sections, section_holding};
ghost use Rattle.mach_parts.specs.Segment.{segment_view};
ghost use Rattle.goblin_mach.specs.AddressMaps.{claimed_before, mapped_section, memory_of_mapped, starts_in, AreStartsOf};
ghost use Rattle.goblin_mach.specs.NearestSymbol.{IsFunctionIn, IsStartAfter, IsStartBelow};
ghost use Rattle.goblin_mach.specs.OpenImage.{segments_view};

use crate::addresses::FoundAt;
use crate::addresses::stretches::{Stretch, Stretches};
use crate::macho::{Function, MachO, SymbolAt, claimed_before};
use crate::symbol_map::SymbolMap;
use mach_base::Error;
use mach_load::FunctionStartIterator;
use mach_parts::segment::{NumberedSection, ReadableSections, Segment};
use mach_records::Section64;
use std::alloc::{AllocError, Allocator, Global};

// A section, with the number by which symbols name it.
#[derive(Clone, Copy)]
struct MappedSection {
    section: NumberedSection,
    n_sect: usize,
}

/// What an image has at addresses, for many look-ups: its sections with a table of their addresses, its symbols sorted, and the
/// starts of its functions. It holds 24 bytes for each symbol, 8 for each function, and some 200 for each section.
#[derive(Drop)]
pub struct AddressMap<'a, 'b, A: Allocator = Global, B: Allocator = Global> {
    symbols: SymbolMap<'a, 'b, A, B>,
    sections: Vec<MappedSection, B>,
    memory: Stretches<B>,
    starts: Vec<u64, B>,
    ghost listed: { let ss = segments_view symbols.image.now in sections.items ≡ map (mapped_section ss) (readable_sections ss) },
    ghost placed: { memory.items.items ≡ map memory_of_mapped sections.items },
    ghost begun: { AreStartsOf symbols.image.now starts.items },
}

// Returns the sections of some segments that lie in their segment's command and in the bytes, each with its number.
fn mapped_sections<B: Allocator>(
    alloc: B,
    segments: &[Segment<'_>],
) -> Result<Vec<MappedSection, B>, AllocError>
    ensures { let ss = map segment_view segments.now in IfOk result (λ v. v.items ≡ map (mapped_section ss) (readable_sections ss)) }
{
    let mut sections = Vec::new(alloc);
    let (mut segment, mut before) = (0, 0);
    'sections: for section in ReadableSections::new(segments) {
        before = claimed_before(segments, segment, before, section.segment);
        segment = section.segment;
        let n_sect = before.saturating_add(section.number as usize + 1);
        sections.push(MappedSection { section, n_sect })?;
    }
    Ok(sections)
}

// Returns the memory of some sections.
fn memory_of<B: Allocator + Clone>(
    alloc: &B,
    sections: &[MappedSection],
) -> Result<Stretches<B>, AllocError>
    ensures { IfOk result (λ s. s.items.items ≡ map memory_of_mapped sections.now) }
{
    let mut stretches = Vec::new(alloc.clone()?);
    'sections: for mapped in sections {
        let section = &mapped.section.section;
        stretches.push(Stretch {
            name: section.sectname,
            start: section.addr,
            size: section.size,
        })?;
    }
    Stretches::of(alloc, stretches)
}

// Returns the function starts that can be read, in order.
fn readable_starts<B: Allocator>(
    alloc: B,
    starts: FunctionStartIterator<'_>,
) -> Result<Vec<u64, B>, AllocError>
    ensures { IfOk result (λ v. v.items ≡ starts_in (starts_left starts.entry)) }
{
    let mut found = Vec::new(alloc);
    'starts: for item in starts {
        let Ok(start) = item else {
            continue;
        };
        found.push(start)?;
    }
    Ok(found)
}

// Returns the function starts of an image that can be read, in order.
fn starts_of<A: Allocator, B: Allocator>(
    alloc: B,
    image: &MachO<'_, A>,
) -> Result<Vec<u64, B>, AllocError>
    ensures { IfOk result (λ v. AreStartsOf image.now v.items) }
{
    readable_starts(alloc, image.function_starts())
}

// Returns the item with a number, if there is one.
fn item_at<T: Copy>(items: &[T], number: usize) -> Option<T>
    ensures { result ≡ slice_get items.now number }
{
    items.get(number).copied()
}

// Returns the last of some sorted starts at or below an address, if there is one.
fn start_below(starts: &[u64], address: u64) -> Option<u64>
    requires { IsNonDecreasingBy (λ start. start) starts.now }
    ensures { IsStartBelow (map Ok starts.now) address result }
{
    let passed = starts.partition_point(|start| *start <= address);
    let last = passed.checked_sub(1)?;
    Some(starts[last])
}

// Returns the first of some sorted starts after an address, if there is one.
fn start_after(starts: &[u64], address: u64) -> Option<u64>
    requires { IsNonDecreasingBy (λ start. start) starts.now }
    ensures { IsStartAfter (map Ok starts.now) address result }
{
    let passed = starts.partition_point(|start| *start <= address);
    item_at(starts, passed)
}

// Returns the function of a section at an address, by sorted starts.
fn function_by(starts: &[u64], section: &Section64, address: u64) -> Option<Function>
    requires { IsNonDecreasingBy (λ start. start) starts.now }
    ensures { IsFunctionIn (map Ok starts.now) section.now address result }
{
    let start = start_below(starts, address)?;
    if start < section.addr {
        return None;
    }
    let limit = section.addr.saturating_add(section.size);
    let end = match start_after(starts, address) {
        Some(next) => limit.min(next),
        None => limit,
    };
    Some(Function { start, end })
}

impl<'a, 'b, A: Allocator, B: Allocator + Clone> AddressMap<'a, 'b, A, B> {
    ghost use Rattle.goblin_mach.specs.SymbolMaps.{image_of_addresses};

    /// Builds the map of an image, in n log n steps. It is refused only if memory runs out.
    pub fn new(alloc: &B, image: &'b MachO<'a, A>) -> Result<AddressMap<'a, 'b, A, B>, Error>
        ensures mapped { IfOk result (λ m. image_of_addresses m ≡ image.now) }
        ensures memory { IsOkUnlessMemory result }
    {
        let symbols = SymbolMap::new(alloc.clone()?, image)?;
        let sections = mapped_sections(alloc.clone()?, image.segments.as_slice())?;
        let memory = memory_of(alloc, &sections)?;
        let starts = starts_of(alloc.clone()?, image)?;
        Ok(AddressMap {
            symbols,
            sections,
            memory,
            starts,
        })
    }
}

impl<'a, 'b, A: Allocator, B: Allocator> AddressMap<'a, 'b, A, B> {
    ghost use Rattle.goblin_mach.specs.AddressFound.{IsFoundAt};
    ghost use Rattle.goblin_mach.specs.NearestSymbol.{IsSymbolAt};
    ghost use Rattle.goblin_mach.specs.OpenImage.{IsLossyImage};
    ghost use Rattle.goblin_mach.specs.SymbolAtAddress.{image_symbol_at, symbol_below};
    ghost use Rattle.goblin_mach.specs.SymbolMaps.{image_of_addresses, image_symbols};

    /// Returns the image.
    pub fn image(&self) -> &'b MachO<'a, A>
        ensures { result.now ≡ image_of_addresses self.now }
    {
        self.symbols.image()
    }

    // Returns the first section that holds an address, if one does, with its number.
    fn section_with(&self, address: u64) -> Option<MappedSection>
        ensures { let ss = segments_view (image_of_addresses self.now) in result ≡ option_map (mapped_section ss) (section_holding ss address) }
    {
        let number = self.memory.first_with(address)?;
        item_at(self.sections.as_slice(), number)
    }

    /// Returns the symbol at an address, before sliding, as `MachO::symbol_at` does: in log n steps and the reading of one name.
    pub fn symbol_at(&self, address: u64) -> Option<SymbolAt<'a>>
        ensures nearest { let image = image_of_addresses self.now in
            IsSymbolAt (segments_view image) (image_symbols image) (section_holding (segments_view image) address) address result }
        ensures determined { option_map symbol_below result ≡ image_symbol_at (image_of_addresses self.now) address }
    {
        match self.section_with(address) {
            Some(mapped) => self.symbols.symbol_in_section(mapped.n_sect, address),
            None => None,
        }
    }

    /// Looks up an address in the image, in log n steps and the reading of one name.
    pub fn look_up(&self, address: u64) -> FoundAt<'a>
        ensures { (bytes : List ℕ) → IsLossyImage bytes 0 (image_of_addresses self.now) → IsFoundAt bytes address result }
    {
        match self.section_with(address) {
            Some(MappedSection { section, n_sect }) => FoundAt {
                section: Some(section),
                symbol: self.symbols.symbol_in_section(n_sect, address),
                function: function_by(self.starts.as_slice(), &section.section, address),
            },
            None => FoundAt {
                section: None,
                symbol: None,
                function: None,
            },
        }
    }
}
