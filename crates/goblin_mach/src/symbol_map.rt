//! The symbols of an image sorted by section and value, for many look-ups by address.

ghost use Rattle.std.specs.Prelude.{◌≡◌, option_map, IfOk};
ghost use Rattle.mach_base.specs.Answer.{IsOkUnlessMemory};
ghost use Rattle.mach_parts.specs.Symbols.{symbols_of, table_in_bounds};
ghost use Rattle.mach_parts.specs.SymbolViews.{symbol_read, table_of};
ghost use Rattle.goblin_mach.specs.ImageSlots.{symbol_table_view};
ghost use Rattle.goblin_mach.specs.MappedSymbols.{mapped_symbol, mapped_from, is_up_to, AreMapped, AreSortedSymbols, IsLastUpTo};
ghost use Rattle.goblin_mach.specs.NamedParts.{symbols_within};
ghost use Rattle.goblin_mach.specs.NearestSymbol.{IsNearestIn};

use crate::macho::{MachO, SymbolAt, distance_above, section_number};
use mach_base::Result;
use mach_parts::symbols::{N_SECT, Nlist, Symbols};
use std::alloc::{Allocator, Global};

// A symbol that is defined in a section.
#[derive(Clone, Copy)]
struct MappedSymbol {
    section: usize,
    value: u64,
    // Its number in the table.
    index: usize,
}

/// The symbols of an image, sorted for many look-ups by address. It holds those that are defined in a section and can be read,
/// without debugging entries: 24 bytes for each.
#[derive(Drop)]
pub struct SymbolMap<'a, 'b, A: Allocator = Global, B: Allocator = Global> {
    image: &'b MachO<'a, A>,
    symbols: Vec<MappedSymbol, B>,
    ghost mapped: { AreMapped (symbols_within (symbol_table_view image.now)) symbols.items },
}

// Returns the symbol with a number as a map holds it, if it is defined in a section and can be read.
fn mapped_symbol(index: usize, item: Result<(&str, Nlist)>) -> Option<MappedSymbol>
    ensures { result ≡ mapped_symbol index (symbol_read item.entry) }
{
    let Ok((_, symbol)) = item else {
        return None;
    };
    if symbol.get_type() != N_SECT || symbol.is_stab() {
        return None;
    }
    Some(MappedSymbol {
        section: symbol.n_sect,
        value: symbol.n_value,
        index,
    })
}

// Returns the symbols of a table that a map holds, in table order.
fn mapped_symbols<B: Allocator>(alloc: B, table: &Symbols<'_>) -> Result<Vec<MappedSymbol, B>>
    ensures mapped { IfOk result (λ v. v.items ≡ mapped_from 0 (symbols_of (table_in_bounds (table_of table.now)))) }
    ensures memory { IsOkUnlessMemory result }
{
    let mut symbols = Vec::new(alloc);
    'symbols: for (index, item) in table.in_bounds().iter().enumerate() {
        let Some(symbol) = mapped_symbol(index, item) else {
            continue;
        };
        symbols.push(symbol)?;
    }
    Ok(symbols)
}

// Returns the symbols of a table that a map holds, sorted.
fn sorted_symbols<B: Allocator>(alloc: B, table: &Symbols<'_>) -> Result<Vec<MappedSymbol, B>>
    ensures mapped { IfOk result (λ v. AreMapped (symbols_of (table_in_bounds (table_of table.now))) v.items) }
    ensures memory { IsOkUnlessMemory result }
{
    let mut symbols = mapped_symbols(alloc, table)?;
    symbols.sort_by_key(|symbol| (symbol.section, symbol.value, symbol.index))?;
    Ok(symbols)
}

// Returns the symbols that a map holds of the table of an image, sorted; none if it has no table.
fn symbols_of_map<B: Allocator>(
    alloc: B,
    table: &Option<Symbols<'_>>,
) -> Result<Vec<MappedSymbol, B>>
    ensures mapped { IfOk result (λ v. AreMapped (symbols_within (option_map table_of table.now)) v.items) }
    ensures memory { IsOkUnlessMemory result }
{
    match table {
        Some(table) => sorted_symbols(alloc, table),
        None => Ok(Vec::new(alloc)),
    }
}

// Whether a symbol is one of an earlier section, or one of this section at or below an address.
fn is_up_to(symbol: &MappedSymbol, section: usize, address: u64) -> bool
    ensures { result ≡ is_up_to section address symbol.now }
{
    symbol.section < section || symbol.section == section && symbol.value <= address
}

// Returns the last of some sorted symbols up to an address of a section, if there is one.
fn last_up_to(symbols: &[MappedSymbol], section: usize, address: u64) -> Option<MappedSymbol>
    requires { AreSortedSymbols symbols.now }
    ensures { IsLastUpTo symbols.now section address result }
{
    let passed = symbols.partition_point(|symbol| is_up_to(symbol, section, address));
    let last = passed.checked_sub(1)?;
    Some(symbols[last])
}

// Returns the symbol of a section that is nearest to an address, of those at or below it, by the sorted symbols of its table. Of
// several the last counts.
fn nearest_by<'a>(
    symbols: &[MappedSymbol],
    table: &Symbols<'a>,
    section: usize,
    address: u64,
) -> Option<SymbolAt<'a>>
    requires { AreMapped (symbols_of (table_in_bounds (table_of table.now))) symbols.now }
    ensures { IsNearestIn (symbols_of (table_in_bounds (table_of table.now))) section address result }
{
    let last = last_up_to(symbols, section, address)?;
    let Ok((name, symbol)) = table.in_bounds().get(last.index) else {
        return None;
    };
    let distance = distance_above(&symbol, section, address)?;
    Some(SymbolAt {
        index: last.index,
        name,
        symbol,
        distance,
    })
}

impl<'a, 'b, A: Allocator, B: Allocator> SymbolMap<'a, 'b, A, B> {
    ghost use Rattle.goblin_mach.specs.SymbolMaps.{image_of_map, image_symbols};

    /// Builds the map of the symbols of the table that an image holds, in n log n steps. It is refused only if memory runs out.
    pub fn new(alloc: B, image: &'b MachO<'a, A>) -> Result<SymbolMap<'a, 'b, A, B>>
        ensures mapped { IfOk result (λ m. image_of_map m ≡ image.now) }
        ensures memory { IsOkUnlessMemory result }
    {
        let symbols = symbols_of_map(alloc, &image.symbols)?;
        Ok(SymbolMap { image, symbols })
    }
}

impl<'a, 'b, A: Allocator, B: Allocator> SymbolMap<'a, 'b, A, B> {
    ghost use Rattle.std.specs.Prelude.{◌==◌, count_by};
    ghost use Rattle.mach_parts.specs.SectionRecord.{section_holding};
    ghost use Rattle.goblin_mach.specs.MappedSymbols.{is_defined_symbol};
    ghost use Rattle.goblin_mach.specs.NearestSymbol.{IsSymbolAt};
    ghost use Rattle.goblin_mach.specs.OpenImage.{segments_view};
    ghost use Rattle.goblin_mach.specs.SymbolMaps.{image_of_map, image_symbols};

    /// Returns the image whose symbols the map holds.
    pub fn image(&self) -> &'b MachO<'a, A>
        ensures { result.now ≡ image_of_map self.now }
    {
        self.image
    }

    /// Returns the number of symbols that the map holds.
    pub fn len(&self) -> usize
        ensures { result ≡ count_by is_defined_symbol (image_symbols (image_of_map self.now)) }
    {
        self.symbols.len()
    }

    /// Whether the map holds no symbol.
    pub fn is_empty(&self) -> bool
        ensures { result ≡ (count_by is_defined_symbol (image_symbols (image_of_map self.now)) == 0) }
    {
        self.symbols.is_empty()
    }

    /// Returns the symbol that is nearest to an address, before sliding, of the symbols at or below it whose `n_sect` is the given
    /// number. Of several with its value the last of the table counts. It takes log n steps, and no section is read.
    pub fn symbol_in_section(&self, n_sect: usize, address: u64) -> Option<SymbolAt<'a>>
        ensures { IsNearestIn (image_symbols (image_of_map self.now)) n_sect address result }
    {
        let table = self.image.symbols.as_ref()?;
        nearest_by(self.symbols.as_slice(), table, n_sect, address)
    }

    /// Returns the symbol at an address, before sliding, as `MachO::symbol_at` does. After the section is found, as `section_at`
    /// finds it, it takes log n steps.
    pub fn symbol_at(&self, address: u64) -> Option<SymbolAt<'a>>
        ensures { IsSymbolAt (segments_view (image_of_map self.now)) (image_symbols (image_of_map self.now))
            (section_holding (segments_view (image_of_map self.now)) address) address result }
    {
        let section = self.image.section_at(address)?;
        let number = section_number(self.image.segments.as_slice(), &section);
        self.symbol_in_section(number, address)
    }
}
