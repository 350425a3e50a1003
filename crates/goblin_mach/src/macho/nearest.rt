//! The symbol and the function at an address.

ghost use Rattle.std.specs.Prelude.{◌≡◌, ◌-◌, ℕ, List, Result, Some, None, if◌then◌else◌, map};
ghost use Rattle.mach_base.specs.Answer.{Reads};
ghost use Rattle.mach_base.specs.Fault.{Fault};
ghost use Rattle.mach_base.specs.KeptText.{kept_bytes};
ghost use Rattle.mach_load.specs.TablesLeft.{starts_left};
ghost use Rattle.mach_parts.specs.SectionRecord.{section_holding};
ghost use Rattle.mach_parts.specs.Segment.{segment_view};
ghost use Rattle.mach_parts.specs.Symbols.{symbols_of, table_in_bounds};
ghost use Rattle.mach_parts.specs.SymbolViews.{table_of};
ghost use Rattle.goblin_mach.specs.AddressMaps.{claimed_before};
ghost use Rattle.goblin_mach.specs.Fixups.{base_view};
ghost use Rattle.goblin_mach.specs.ImageSlots.{symbol_table_view};
ghost use Rattle.goblin_mach.specs.NamedParts.{symbols_within};
ghost use Rattle.goblin_mach.specs.NearestSymbol.{section_number, is_below, is_nearer, IsNearestIn, IsSymbolAt, IsAscending, IsAround, IsFunctionIn};
ghost use Rattle.goblin_mach.specs.NearestSymbol.{name_if, symbols_if, IsFunctionAt};
ghost use Rattle.goblin_mach.specs.OpenImage.{bytes_view, commands_view, segments_view};
ghost use Rattle.goblin_mach.specs.Tables.{AreStartsAt, starts_place_in};

use crate::macho::MachO;
use mach_base::{KeptText, Result};
use mach_load::FunctionStartIterator;
use mach_parts::segment::{NumberedSection, Segment};
use mach_parts::symbols::{N_SECT, Nlist, Symbols};
use mach_records::Section64;
use std::alloc::Allocator;

/// The symbol at or below an address that is nearest to it.
#[derive(Clone, Debug, Drop)]
pub struct SymbolAt<'a> {
    /// Its number in the table, from 0.
    pub index: usize,
    /// Its name.
    pub name: &'a str,
    /// Its record.
    pub symbol: Nlist,
    /// How far the address is above its value.
    pub distance: u64,
}

/// The addresses of a function, before sliding.
#[derive(Clone, Copy, Debug)]
pub struct Function {
    /// The address of its first byte.
    pub start: u64,
    /// The address after its last byte.
    pub end: u64,
}

// Returns how many sections the segments before number `upto` claim, by how many those before number `from` do.
pub(crate) fn claimed_before(
    segments: &[Segment<'_>],
    from: usize,
    before: usize,
    upto: usize,
) -> usize
    requires { before ≡ claimed_before (map segment_view segments.now) from }
    ensures { result ≡ claimed_before (map segment_view segments.now) upto }
{
    let (mut number, mut claimed) = if from <= upto { (from, before) } else { (0, 0) };
    'segments: while number < upto && number < segments.len() {
        claimed = claimed.saturating_add(segments[number].nsects as usize);
        number += 1;
    }
    claimed
}

// Returns the number by which symbols name a section: counted from 1 over all segments.
pub(crate) fn section_number(segments: &[Segment<'_>], section: &NumberedSection) -> usize
    ensures { result ≡ section_number (map segment_view segments.now) section.now }
{
    let before = claimed_before(segments, 0, 0, section.segment);
    before.saturating_add(section.number as usize + 1)
}

// Returns how far an address is above a symbol, if the symbol is defined in the section with this number, is no debugging entry,
// and lies at or below the address.
pub(crate) fn distance_above(symbol: &Nlist, section: usize, address: u64) -> Option<u64>
    ensures { result ≡ (if is_below section address symbol.now then Some (address - symbol.now.n_value) else None) }
{
    if symbol.get_type() != N_SECT || symbol.is_stab() || symbol.n_sect != section {
        return None;
    }
    address.checked_sub(symbol.n_value)
}

// Whether a symbol was found that is nearer to the address than this.
fn is_nearer(found: &Option<SymbolAt<'_>>, distance: u64) -> bool
    ensures { result ≡ is_nearer found.now distance }
{
    match found {
        Some(found) => found.distance < distance,
        None => false,
    }
}

// Returns the name at a place if names are read, and else an empty one.
fn name_if<'a>(is_named: bool, names: &mut KeptText<'a>, place: usize) -> Result<&'a str>
    ensures name { Reads (λ name. name.now) result (name_if is_named (kept_bytes names.old) place) }
    ensures bytes { kept_bytes names.new ≡ kept_bytes names.old }
{
    if is_named { names.read(place) } else { Ok("") }
}

// Returns the symbol of a section that is nearest to an address, of those at or below it. Of several the last counts. Without
// `is_named` no name is read. With it a symbol's name is read only if the symbol is as near as all before it whose names can be
// read, and symbols whose names can't be read are skipped.
fn nearest_of<'a>(
    table: &Symbols<'a>,
    is_named: bool,
    section: usize,
    address: u64,
) -> Option<SymbolAt<'a>>
    ensures { IsNearestIn (symbols_if is_named (table_of table.now)) section address result }
{
    let mut names = KeptText::new(table.bytes());
    let mut best: Option<SymbolAt<'a>> = None;
    'symbols: for index in 0..table.len() {
        let Ok(symbol) = table.record(index) else {
            continue;
        };
        let Some(distance) = distance_above(&symbol, section, address) else {
            continue;
        };
        if is_nearer(&best, distance) {
            continue;
        }
        let Ok(name) = name_if(is_named, &mut names, table.name_place(&symbol)) else {
            continue;
        };
        best = Some(SymbolAt {
            index,
            name,
            symbol,
            distance,
        });
    }
    best
}

// Returns the symbol of a section that is nearest to an address, of those at or below it that can be read. Of several the last
// counts. It goes over the records, and reads one name. Only if that can't be read it goes over them again with their names.
fn nearest<'a>(table: &Symbols<'a>, section: usize, address: u64) -> Option<SymbolAt<'a>>
    ensures { IsNearestIn (symbols_of (table_in_bounds (table_of table.now))) section address result }
{
    let table = table.in_bounds();
    let found = nearest_of(&table, false, section, address)?;
    match table.get(found.index) {
        Ok((name, _)) => Some(SymbolAt { name, ..found }),
        Err(_) => nearest_of(&table, true, section, address),
    }
}

// Returns the greatest start at or below an address, if there is one, and the next start after the address, at most `limit`.
fn starts_around(starts: FunctionStartIterator<'_>, address: u64, limit: u64) -> (Option<u64>, u64)
    requires { IsAscending (starts_left starts) }
    ensures { IsAround (starts_left starts.entry) address limit result.0 result.1 }
{
    let mut begin: Option<u64> = None;
    'starts: for item in starts {
        let Ok(start) = item else {
            continue;
        };
        if start > address {
            return (begin, limit.min(start));
        }
        begin = Some(start);
    }
    (begin, limit)
}

// Returns the function of a section at an address.
fn function_in(
    starts: FunctionStartIterator<'_>,
    section: &Section64,
    address: u64,
) -> Option<Function>
    requires { IsAscending (starts_left starts) }
    ensures { IsFunctionIn (starts_left starts.entry) section.now address result }
{
    let limit = section.addr.saturating_add(section.size);
    let (begin, end) = starts_around(starts, address, limit);
    let start = begin?;
    if start < section.addr {
        return None;
    }
    Some(Function { start, end })
}

impl<'a, A: Allocator> MachO<'a, A> {
    /// Returns the symbol at an address, before sliding, of the table that the image holds: of the symbols at or below it in the
    /// section that holds it, the one of the greatest value. Of several with this value the last of the table counts, so that an
    /// external symbol counts before a local one. Debugging entries and symbols that can't be read are skipped.
    pub fn symbol_at(&self, address: u64) -> Option<SymbolAt<'a>>
        ensures { IsSymbolAt (segments_view self.now) (symbols_within (symbol_table_view self.now))
            (section_holding (segments_view self.now) address) address result }
    {
        let section = self.section_at(address)?;
        let table = self.symbols.as_ref()?;
        let number = section_number(self.segments.as_slice(), &section);
        nearest(table, number, address)
    }

    /// Returns the function at an address, before sliding, by the image's function starts: it begins at the greatest start at or
    /// below the address, in the section that holds it. It ends at the next start, or at the end of that section if that is
    /// before. There is none if no section holds the address or no function begins in it at or below the address. Starts after
    /// the first that can't be read don't count.
    pub fn function_at(&self, address: u64) -> Option<Function>
        ensures { (items : List (Result ℕ Fault)) → AreStartsAt (bytes_view self.now) (starts_place_in (commands_view self.now)) (base_view self.now) items
            → IsFunctionAt items (section_holding (segments_view self.now) address) address result }
    {
        let found = self.section_at(address)?;
        function_in(self.function_starts(), &found.section, address)
    }
}
