//! Laws between an opened image and its bytes: on its slots, the providers of its symbols, and its sections by address and by number,
//! with their bytes and strings, and its initializers.

ghost use Rattle.std.specs.Prelude.{ℕ};
ghost use Rattle.mach_base.specs.Text.{texts};
ghost use Rattle.mach_parts.specs.SectionRecord.{section_holding, section_by_number, bytes_of_section};
ghost use Rattle.mach_records.specs.declared.segments.Section64.{Section64};
ghost use Rattle.mach_parts.specs.declared.symbols.nlist.Nlist.{Nlist};
ghost use Rattle.goblin_mach.specs.ImageSlots.{indirect_symbols_in, indirect_table_view, symbol_table_view, image_slots, image_slot_at, symbol_provider_of};
ghost use Rattle.goblin_mach.specs.Fixups.{chained_view};
ghost use Rattle.goblin_mach.specs.Initializers.{AreImageInitializers};
ghost use Rattle.goblin_mach.specs.Modes.{Agrees, HoldsAs};
ghost use Rattle.goblin_mach.specs.OpenImage.{bytes_view, ctx_view, segments_view};
ghost use Rattle.goblin_mach.specs.SlotFacts.{HasIndirectSymbols, HasSymbolSlots, HasSymbolSlotAt, HasProviderOf, HasSectionAt, HasSectionOf};
ghost use Rattle.goblin_mach.specs.SlotFacts.{HasSectionData, HasStringsOf, HasInitializers};
ghost use Rattle.goblin_mach.specs.Strings.{strings_of_section};

use crate::macho::MachO;
use std::alloc::Allocator;

/// The indirect symbols that `MachO::indirect_symbols` returns are those of the bytes.
pub fn indirect_symbols_of_image<A: Allocator>(image: &MachO<'_, A>)
    ensures { HoldsAs image.now HasIndirectSymbols (indirect_symbols_in (indirect_table_view image.now)) }
{}

/// The slots that `MachO::symbol_slots` returns are those of the bytes.
pub fn slots_of_image<A: Allocator>(image: &MachO<'_, A>)
    ensures { HoldsAs image.now HasSymbolSlots
        (image_slots (ctx_view image.now) (indirect_table_view image.now) (symbol_table_view image.now) (segments_view image.now)) }
{}

/// The slot that `MachO::symbol_slot_at` returns is that of the bytes.
pub fn slot_at_of_image<A: Allocator>(image: &MachO<'_, A>)
    ensures { (a : ℕ) → HoldsAs image.now (λ bytes o. HasSymbolSlotAt bytes o a)
        (image_slot_at (ctx_view image.now) (indirect_table_view image.now) (symbol_table_view image.now) (segments_view image.now) a) }
{}

/// The provider that `MachO::symbol_provider` returns is that of the bytes.
pub fn provider_of_image<A: Allocator>(image: &MachO<'_, A>)
    ensures { (s : Nlist) → HoldsAs image.now (λ bytes o. HasProviderOf bytes o s)
        (symbol_provider_of image.now.header.flags (texts image.now.libs.items) s) }
{}

/// The section that `MachO::section_at` returns is that of the bytes.
pub fn section_at_of_image<A: Allocator>(image: &MachO<'_, A>)
    ensures { (a : ℕ) → HoldsAs image.now (λ bytes o. HasSectionAt bytes o a) (section_holding (segments_view image.now) a) }
{}

/// The section that `MachO::section_of` returns is that of the bytes.
pub fn numbered_section_of_image<A: Allocator>(image: &MachO<'_, A>)
    ensures { (n : ℕ) → HoldsAs image.now (λ bytes o. HasSectionOf bytes o n) (section_by_number (segments_view image.now) n) }
{}

/// The bytes that `MachO::section_data` returns are those of the section among the bytes.
pub fn section_data_of_image<A: Allocator>(image: &MachO<'_, A>)
    ensures { (s : Section64) → HoldsAs image.now (λ bytes o. HasSectionData bytes o s) (bytes_of_section (bytes_view image.now) s) }
{}

/// The strings that `MachO::strings_of` returns are those of the section's bytes.
pub fn strings_of_image<A: Allocator>(image: &MachO<'_, A>)
    ensures { (s : Section64) → HoldsAs image.now (λ bytes o. HasStringsOf bytes o s) (strings_of_section (bytes_view image.now) s) }
{}

/// The initializers that `MachO::initializers` returns are those of the bytes.
pub fn initializers_of_image<A: Allocator>(image: &MachO<'_, A>)
    ensures { Agrees image.now HasInitializers
        (AreImageInitializers (ctx_view image.now) (bytes_view image.now) (chained_view image.now) (segments_view image.now)) }
{}
