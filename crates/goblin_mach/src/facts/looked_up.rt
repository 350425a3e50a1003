//! Laws between an opened image and its bytes: on the segments, sections, symbols, functions and offsets that are looked up.

ghost use Rattle.std.specs.Prelude.{ℕ, List, Result};
ghost use Rattle.mach_base.specs.Fault.{Fault};
ghost use Rattle.mach_parts.specs.SectionRecord.{section_holding};
ghost use Rattle.goblin_mach.specs.FileOffsets.{address_at_offset, offset_at_address};
ghost use Rattle.goblin_mach.specs.Fixups.{base_view};
ghost use Rattle.goblin_mach.specs.ImageSlots.{symbol_table_view};
ghost use Rattle.goblin_mach.specs.LookedUpFacts.{HasSegmentNamed, HasSectionNamed, HasSymbolNamed, HasSymbolsNamed, HasSymbolAt, HasFunctionAt};
ghost use Rattle.goblin_mach.specs.LookedUpFacts.{HasAddressOf, HasOffsetOf};
ghost use Rattle.goblin_mach.specs.Modes.{Agrees, HoldsAs};
ghost use Rattle.goblin_mach.specs.NamedParts.{section_of_name, segment_of_name, symbol_of_name, symbols_of_name, symbols_within};
ghost use Rattle.goblin_mach.specs.NearestSymbol.{IsFunctionAt, IsSymbolAt};
ghost use Rattle.goblin_mach.specs.OpenImage.{bytes_view, commands_view, segments_view};
ghost use Rattle.goblin_mach.specs.Tables.{AreStartsAt, starts_place_in};

use crate::macho::MachO;
use std::alloc::Allocator;

/// The segment that `MachO::segment_named` returns is that of the bytes.
pub fn named_segment_of_image<A: Allocator>(image: &MachO<'_, A>)
    ensures { (name : List ℕ) → HoldsAs image.now (λ bytes o. HasSegmentNamed bytes o name) (segment_of_name name (segments_view image.now)) }
{}

/// The section that `MachO::section_named` returns is that of the bytes.
pub fn named_section_of_image<A: Allocator>(image: &MachO<'_, A>)
    ensures { (segment : List ℕ) (section : List ℕ) → HoldsAs image.now (λ bytes o. HasSectionNamed bytes o segment section)
        (section_of_name segment section (segments_view image.now)) }
{}

/// The symbol that `MachO::symbol_named` returns is that of the bytes.
pub fn named_symbol_of_image<A: Allocator>(image: &MachO<'_, A>)
    ensures { (name : List ℕ) → HoldsAs image.now (λ bytes o. HasSymbolNamed bytes o name)
        (symbol_of_name name (symbols_within (symbol_table_view image.now))) }
{}

/// The symbols that `MachO::symbols_named` returns are those of the bytes.
pub fn named_symbols_of_image<A: Allocator>(image: &MachO<'_, A>)
    ensures { (name : List ℕ) → HoldsAs image.now (λ bytes o. HasSymbolsNamed bytes o name)
        (symbols_of_name name 0 (symbols_within (symbol_table_view image.now))) }
{}

/// The symbol that `MachO::symbol_at` returns is that of the bytes.
pub fn symbol_at_of_image<A: Allocator>(image: &MachO<'_, A>)
    ensures { (a : ℕ) → Agrees image.now (λ bytes o. HasSymbolAt bytes o a)
        (IsSymbolAt (segments_view image.now) (symbols_within (symbol_table_view image.now)) (section_holding (segments_view image.now) a) a) }
{}

/// The function that `MachO::function_at` returns is that of the bytes.
pub fn function_at_of_image<A: Allocator>(image: &MachO<'_, A>)
    ensures { (a : ℕ) → Agrees image.now (λ bytes o. HasFunctionAt bytes o a)
        (λ found. (items : List (Result ℕ Fault)) → AreStartsAt (bytes_view image.now) (starts_place_in (commands_view image.now)) (base_view image.now) items
        → IsFunctionAt items (section_holding (segments_view image.now) a) a found) }
{}

/// The address that `MachO::address_of_offset` returns is that of the bytes.
pub fn address_of_image<A: Allocator>(image: &MachO<'_, A>)
    ensures { (offset : ℕ) → HoldsAs image.now (λ bytes o. HasAddressOf bytes o offset) (address_at_offset (segments_view image.now) offset) }
{}

/// The offset that `MachO::offset_of_address` returns is that of the bytes.
pub fn offset_of_image<A: Allocator>(image: &MachO<'_, A>)
    ensures { (address : ℕ) → HoldsAs image.now (λ bytes o. HasOffsetOf bytes o address) (offset_at_address (segments_view image.now) address) }
{}
