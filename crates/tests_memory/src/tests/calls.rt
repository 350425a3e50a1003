//! The calls that take memory of an allocator, on files of few bytes, and their answers as texts.

use goblin_mach::fat::FatArch;
use goblin_mach::segment::{Section, SectionData};
use goblin_mach::{
    Error, Mach, MachO, MultiArch, Result as Read, SingleArch, SymbolMap, link_view,
};
use mach_fat_writer::{FatEntry, fat_order, write_fat};
use mach_samples::files::FILE_B;
use std::alloc::{AllocError, Allocator, Global};
use std::fmt::Debug;

/// A call that takes memory.
#[derive(Clone, Copy, Debug)]
pub enum Call {
    Parse,
    Exports,
    Imports,
    Relocations,
    Sections,
    SymbolMap,
    Arches,
    Get,
    Find,
    View,
    WriteFat,
    FatOrder,
}

/// All calls, each with its number of growths.
pub const CALLS: &[(Call, u64)] = &[
    (Call::Parse, 4),
    (Call::Exports, 4),
    (Call::Imports, 1),
    (Call::Relocations, 1),
    (Call::Sections, 1),
    (Call::SymbolMap, 1),
    (Call::Arches, 1),
    (Call::Get, 4),
    (Call::Find, 4),
    (Call::View, 11),
    (Call::WriteFat, 2),
    (Call::FatOrder, 4),
];

/// What a call answers if a growth is refused.
pub const REFUSED: &str = "Err(Memory(AllocError))";

/// What the calls are made on, and an allocator for texts.
#[derive(Drop)]
pub struct Subjects<'a> {
    pub image: MachO<'a>,
    pub fat: &'a [u8],
    pub alloc: Global,
}

impl<'a> Subjects<'a> {
    /// Returns file B's image, and a fat file.
    pub fn of(alloc: Global, fat: &'a [u8]) -> Read<Subjects<'a>> {
        let image = MachO::parse(alloc, &FILE_B, 0)?;
        Ok(Subjects { image, fat, alloc })
    }

    /// Returns the answer of a call as a text.
    pub fn answer<A: Allocator + Clone>(&self, call: Call, heap: A) -> Result<String, AllocError> {
        let alloc = self.alloc;
        match call {
            Call::Parse => shown(alloc, &Mach::parse(heap, &FILE_B)),
            Call::Exports => shown(alloc, &self.image.exports(heap)),
            Call::Imports => shown(alloc, &self.image.imports(heap)),
            Call::Relocations => shown(alloc, &relocation_count(&self.image, heap)),
            Call::Sections => shown(alloc, &sections(&self.image, heap)),
            Call::SymbolMap => shown(alloc, &symbol_count(&self.image, heap)),
            Call::Arches => shown(alloc, &arches(heap, self.fat)),
            Call::Get => shown(alloc, &got(heap, self.fat)),
            Call::Find => shown(alloc, &found(heap, self.fat)),
            Call::View => shown(alloc, &link_view(heap, self.fat)),
            Call::WriteFat => shown(alloc, &written(alloc, heap)),
            Call::FatOrder => shown(alloc, &ordered(alloc, heap)),
        }
    }
}

// Returns an answer as a text.
fn shown<T: Debug>(alloc: Global, answer: &T) -> Result<String, AllocError> {
    format!(in alloc; "{answer:?}")
}

// Returns how many sections of an image have relocations.
fn relocation_count<A: Allocator>(image: &MachO<'_>, heap: A) -> Read<usize> {
    Ok(image.relocations(heap)?.len())
}

// Returns how many symbols the map of an image has.
fn symbol_count<A: Allocator>(image: &MachO<'_>, heap: A) -> Read<usize> {
    Ok(SymbolMap::new(heap, image)?.len())
}

// Returns the sections of an image's first segment.
fn sections<'a, A: Allocator>(
    image: &MachO<'a>,
    heap: A,
) -> Read<Vec<(Section, SectionData<'a>), A>> {
    match image.segments.as_slice().first() {
        Some(segment) => segment.sections(heap),
        None => Err(Error::Malformed("no segment")),
    }
}

fn arches<A: Allocator + Clone>(heap: A, fat: &[u8]) -> Read<Vec<FatArch, A>> {
    MultiArch::new(heap, fat)?.arches()
}

fn got<A: Allocator + Clone>(heap: A, fat: &[u8]) -> Read<SingleArch<'_, A>> {
    MultiArch::new(heap, fat)?.get(0)
}

fn found<A: Allocator + Clone>(heap: A, fat: &[u8]) -> Read<SingleArch<'_, A>> {
    match MultiArch::new(heap, fat)?.find(|arch: Read<FatArch>| arch.is_ok()) {
        Some(entry) => entry,
        None => Err(Error::Malformed("no entry")),
    }
}

// Returns thirty entries for three cputypes, with falling cpusubtypes.
fn entries(alloc: Global) -> Result<Vec<FatEntry<'static>>, AllocError> {
    let mut entries = Vec::new(alloc);
    for i in 0..30u32 {
        entries.push(FatEntry {
            cputype: i % 3,
            cpusubtype: 30u32.saturating_sub(i),
            align: 2,
            bytes: b"abcd",
        })?;
    }
    Ok(entries)
}

fn written<A: Allocator>(alloc: Global, heap: A) -> Read<Vec<u8, A>> {
    write_fat(heap, &entries(alloc)?)
}

// Returns the cpusubtype of the first entry in order. If the order is refused, the entries are unchanged.
fn ordered<A: Allocator>(alloc: Global, heap: A) -> Read<u32> {
    let mut entries = entries(alloc)?;
    let refused = fat_order(heap, &mut entries);
    let first = entries
        .as_slice()
        .first()
        .map_or(0, |entry| entry.cpusubtype);
    match refused {
        Ok(()) => Ok(first),
        Err(error) if first == 30 => Err(error),
        Err(_) => Err(Error::Malformed("the order has changed")),
    }
}
