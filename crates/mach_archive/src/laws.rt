//! Laws about the members and symbols of archives.

ghost use Rattle.std.specs.Prelude.{◌≡◌, ◌+◌, ◌*◌, ◌<◌, ◌≤◌, ℕ, List, ◌∷◌, Result, Ok, Option, Some, length, map};
ghost use Rattle.mach_base.specs.Among.{IsAmong};
ghost use Rattle.mach_base.specs.Fault.{Fault};
ghost use Rattle.mach_archive.specs.Archives.{ArchiveView, archive_in, archive_member_at};
ghost use Rattle.mach_archive.specs.FoundSymbols.{FindsFirst};
ghost use Rattle.mach_archive.specs.IndexSymbols.{IndexSymbol, AreIndexSymbols, first_named};
ghost use Rattle.mach_archive.specs.IndexTables.{IndexTable, archive_table};
ghost use Rattle.mach_archive.specs.MemberNames.{NameIsThere};
ghost use Rattle.mach_archive.specs.Members.{LongNames, MemberView, AreMembers, IsMembers};
ghost use Rattle.mach_archive.specs.Places.{IsTextAt};

/// From a place on there is only one list of members.
#[tactic(auto, using(crate::proofs::MemberLaws::one_list))]
pub fn members_are_one_list()
    ensures { (bytes : List ℕ) (names : LongNames) (from : ℕ) (xs ys : List (Result MemberView Fault))
        → AreMembers bytes names from xs → AreMembers bytes names from ys → xs ≡ ys }
{}

/// Without a fault the members are those of all headers, one after another up to the end. For all such headers there are members.
#[tactic(auto, using(crate::proofs::MemberLaws::places_of_members, crate::proofs::MemberLaws::members_at_places))]
pub fn members_by_places()
    ensures places { (bytes : List ℕ) (names : LongNames) (from : ℕ) (ms : List MemberView)
        → AreMembers bytes names from (map Ok ms) → IsMembers bytes from (map (λ m. m.offset) ms) }
    ensures all { (bytes : List ℕ) (names : LongNames) (from : ℕ) (places : List ℕ) → IsMembers bytes from places
        → (ms : List MemberView) × AreMembers bytes names from (map Ok ms) × (map (λ m. m.offset) ms ≡ places) }
{}

/// There are at most as many members as headers of 60 bytes fit. If the last item is a fault, there is at most one item more.
#[tactic(auto, using(crate::proofs::MemberLaws::members_fit, crate::proofs::MemberLaws::no_more_than_fit))]
pub fn members_fit_the_bytes()
    ensures members { (bytes : List ℕ) (from : ℕ) (places : List ℕ) → IsMembers bytes from places → 60 * length places ≤ length bytes }
    ensures items { (bytes : List ℕ) (names : LongNames) (from : ℕ) (items : List (Result MemberView Fault))
        → AreMembers bytes names from items → from < length bytes → from + 60 * length items < length bytes + 60 }
{}

/// A member's bytes end before the next header begins.
#[tactic(auto, using(crate::proofs::MemberLaws::one_after_another))]
pub fn members_occur_one_after_another()
    ensures { (bytes : List ℕ) (names : LongNames) (from : ℕ) (m n : MemberView) (items : List (Result MemberView Fault))
        → AreMembers bytes names from (Ok m ∷ Ok n ∷ items) → m.start + length m.bytes ≤ n.offset }
{}

/// An archive's view holds the bytes that were read, and its members begin after
/// the magic. `member_at` returns each listed member at the place of its header.
pub fn members_are_at_their_places()
    ensures begin { (bytes : List ℕ) (a : ArchiveView) → archive_in bytes ≡ Ok a → (a.bytes ≡ bytes) × (8 ≤ a.begin) }
    ensures found { (a : ArchiveView) (from : ℕ) (items : List (Result MemberView Fault)) (m : MemberView) → 8 ≤ from
        → AreMembers a.bytes a.names from items → IsAmong (Ok m) items → archive_member_at a m.offset ≡ Ok m }
{}

/// The names of members and symbols that can be read are in the archive's bytes, at their places.
pub fn names_are_at_their_places()
    ensures members { (bytes : List ℕ) (a : ArchiveView) (from : ℕ) (items : List (Result MemberView Fault)) (m : MemberView) → archive_in bytes ≡ Ok a
        → AreMembers a.bytes a.names from items → IsAmong (Ok m) items → NameIsThere bytes m }
    ensures member { (bytes : List ℕ) (a : ArchiveView) (place : ℕ) (m : MemberView) → archive_in bytes ≡ Ok a → archive_member_at a place ≡ Ok m
        → NameIsThere bytes m }
    ensures symbols { (bytes : List ℕ) (a : ArchiveView) (t : IndexTable) (items : List (Result IndexSymbol Fault)) (s : IndexSymbol)
        → archive_in bytes ≡ Ok a → archive_table a ≡ Ok (Some t) → AreIndexSymbols t 0 items → IsAmong (Ok s) items → IsTextAt s.name bytes s.place }
{}

/// From a number on there is only one list of a table's symbols.
#[tactic(auto, using(crate::proofs::SymbolLaws::one_symbol_list))]
pub fn symbols_are_one_list()
    ensures { (t : IndexTable) (k : ℕ) (xs ys : List (Result IndexSymbol Fault)) → AreIndexSymbols t k xs → AreIndexSymbols t k ys → xs ≡ ys }
{}

/// A search by name returns the first symbol of that name if no fault comes before it. It
/// returns a fault that comes before any such symbol, and nothing if there is neither.
#[tactic(auto, using(crate::proofs::SymbolLaws::finds_first))]
pub fn a_name_finds_the_first()
    ensures { (name : List ℕ) (items : List (Result IndexSymbol Fault)) → FindsFirst name items (first_named name items) }
{}
