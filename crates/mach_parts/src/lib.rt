//! The parts of an image: magics, headers and fat records; segments with their sections and relocations; symbols; and
//! the stubs and pointers that use symbols (`mach-o/loader.h`, `mach-o/fat.h`, `mach-o/reloc.h`, `mach-o/nlist.h`).
#![tactic(auto)]

// Headers of images and of fat files, CPU subtypes and magics.
mod arch_record;
mod cpu;
pub mod fat;
mod fat64;
pub mod header;
pub mod magic;

// Segments, sections and relocations, and the binding of a pointer in a segment.
pub mod binding;
pub mod relocation;
pub mod segment;

// Symbols.
pub mod symbols;

// Indirect symbols, and the slots that use them: stubs and symbol pointers.
mod indirect;
mod slot;
mod slots;

// Laws.
pub mod laws;

pub use crate::arch_record::{ArchRecord, has_room_for, place_of, read_arch};
pub use crate::fat64::{FAT_MAGIC_64, FatArch64, SIZEOF_FAT_ARCH_64};
pub use crate::indirect::{IndirectSymbol, IndirectSymbolIterator, IndirectSymbols};
pub use crate::slot::{SlotSymbol, SymbolSlot};
pub use crate::slots::SlotIterator;
pub use crate::slots::kind::SlotKind;
pub use crate::slots::look_up::symbol_slot_at;
pub use crate::slots::source::SlotSource;
