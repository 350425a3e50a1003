//! Laws of slots.

ghost use Rattle.std.specs.Prelude.{◌≡◌, ◌+◌, ◌<◌, ◌≤◌, ℕ, List, ◌∷◌, ◌++◌, All, Some, Ok, false, length, slice_get};
ghost use Rattle.mach_parts.specs.SectionRecord.{readable_sections};
ghost use Rattle.mach_parts.specs.Segment.{SegmentView};
ghost use Rattle.mach_parts.specs.declared.segment.numbered.NumberedSection.{NumberedSection};
ghost use Rattle.mach_parts.specs.IndirectSymbols.{IndirectTable, indirect_symbol_at, indirect_symbols_of};
ghost use Rattle.mach_parts.specs.SlotLookUp.{holds_slots_at, slot_of_address};
ghost use Rattle.mach_parts.specs.SlotPlaces.{IsSlotOfSection};
ghost use Rattle.mach_parts.specs.Slots.{SlotTables, Slot, read_slots};

/// Indirect symbols are addressed by number. There are as many as the table
/// claims, and entry k is the one that `get` returns, whatever the others are.
#[tactic(auto, using(crate::proofs::SlotLaws::entries_counted, crate::proofs::SlotLaws::entry_by_number))]
pub fn indirect_symbols_by_number()
    ensures count { (t : IndirectTable) → length (indirect_symbols_of t) ≡ t.count }
    ensures item { (t : IndirectTable) (k : ℕ) → k < t.count → slice_get (indirect_symbols_of t) k ≡ Some (indirect_symbol_at t k) }
{}

/// The slots of a section lie in it one after another. If item k is a slot, it begins k slot sizes after the section's start.
pub fn slots_lie_in_their_section()
    ensures { (t : SlotTables) (n : NumberedSection) (k : ℕ) (s : Slot) → slice_get (read_slots t n) k ≡ Some (Ok s)
        → IsSlotOfSection t.container n k s }
{}

/// A lookup of any address inside a slot finds that slot, unless an earlier section has slots and also holds the address.
#[tactic(auto, using(crate::proofs::SlotLaws::found_at_its_address))]
pub fn slots_are_found_at_their_addresses()
    ensures { (t : SlotTables) (ss : List SegmentView) (before : List NumberedSection) (n : NumberedSection) (following : List NumberedSection)
        (k : ℕ) (s : Slot) (a : ℕ) → readable_sections ss ≡ before ++ n ∷ following → All (λ m. holds_slots_at a m ≡ false) before
        → slice_get (read_slots t n) k ≡ Some (Ok s) → s.address ≤ a → a < s.address + s.len → slot_of_address t ss a ≡ Ok (Some s) }
{}

/// A section has at most one item more than the indirect symbol table has entries.
#[tactic(auto, using(crate::proofs::SlotLaws::no_more_than_entries))]
pub fn slots_are_no_more_than_entries()
    ensures { (t : SlotTables) (n : NumberedSection) → length (read_slots t n) ≤ t.indirect.count + 1 }
{}
