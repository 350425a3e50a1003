//! Laws of what is looked up by names, addresses and offsets.

ghost use Rattle.std.specs.Prelude.{◌≡◌, ◌<◌, ◌^◌, ℕ, List, Option, Result, Some, option_map};
ghost use Rattle.mach_base.specs.Fault.{Fault};
ghost use Rattle.mach_parts.specs.Segment.{SegmentView};
ghost use Rattle.mach_parts.specs.declared.segment.numbered.NumberedSection.{NumberedSection};
ghost use Rattle.mach_parts.specs.declared.symbols.nlist.Nlist.{Nlist};
ghost use Rattle.goblin_mach.specs.FileOffsets.{address_at_offset, offset_at_address, maps_address, maps_offset, AtMostOne};
ghost use Rattle.goblin_mach.specs.NamedParts.{symbol_of_name, IsFirstNamed};
ghost use Rattle.goblin_mach.specs.NearestSymbol.{found_symbol_view, IsSymbolAt};
ghost use Rattle.goblin_mach.specs.declared.macho.nearest.SymbolAt.{SymbolAt};

/// The symbol that `MachO::symbol_named` returns is the first with the name that can be read and is no debugging entry. There
/// is none exactly if no symbol is such a one.
#[tactic(auto, using(crate::proofs::NamedItems::first_named))]
pub fn first_symbol_of_a_name()
    ensures { (items : List (Result (List ℕ × Nlist) Fault)) (name : List ℕ) → IsFirstNamed items name (symbol_of_name name items) }
{}

/// An address has one symbol or none. So `SymbolMap::symbol_at` and `MachO::symbol_at` return the same.
#[tactic(auto, using(crate::proofs::LookUpLaws::one_symbol))]
pub fn one_symbol_at_address()
    ensures { (segments : List SegmentView) (items : List (Result (List ℕ × Nlist) Fault)) (held : Option NumberedSection) (address : ℕ) (x y : Option SymbolAt)
        → IsSymbolAt segments items held address x → IsSymbolAt segments items held address y
        → option_map found_symbol_view x ≡ option_map found_symbol_view y }
{}

/// The address of an offset leads back to the offset, if no other segment has a byte of the file at that address.
#[tactic(auto, using(crate::proofs::LookUpLaws::address_back))]
pub fn address_leads_back_to_offset()
    ensures { (segments : List SegmentView) (offset address : ℕ) → offset < 2 ^ 64 → address_at_offset segments offset ≡ Some address
        → AtMostOne (maps_address address) segments → offset_at_address segments address ≡ Some offset }
{}

/// The offset of an address leads back to the address, if no other segment has that offset in memory.
#[tactic(auto, using(crate::proofs::LookUpLaws::offset_back))]
pub fn offset_leads_back_to_address()
    ensures { (segments : List SegmentView) (offset address : ℕ) → address < 2 ^ 64 → offset_at_address segments address ≡ Some offset
        → AtMostOne (maps_offset offset) segments → address_at_offset segments offset ≡ Some address }
{}
