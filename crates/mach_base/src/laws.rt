//! Laws about the readers.

ghost use Rattle.std.specs.Prelude.{◌≡◌, ◌+◌, ℕ, ℤ, List, length, Ok};
ghost use Rattle.mach_base.specs.declared.context.Endian.{Endian};
ghost use Rattle.mach_base.specs.Front.{front_at, value_of, record_front};
ghost use Rattle.mach_base.specs.Leb128.{Spells, SpellsSigned, uleb_at, sleb_at};
ghost use Rattle.mach_base.specs.Record.{Field, record_at};

/// At most one ULEB128 spelling begins at a place. It is the one that the readers read there.
pub fn one_spelling()
    ensures unique { (bytes : List ℕ) (s : ℕ) (xs ys : List ℕ) (m n : ℕ) → Spells bytes s xs m → Spells bytes s ys n → (xs ≡ ys) × (m ≡ n) }
    ensures read { (bytes : List ℕ) (s : ℕ) (spelled : List ℕ) (n : ℕ) → Spells bytes s spelled n → uleb_at bytes s ≡ Ok (n, s + length spelled) }
    ensures only { (bytes : List ℕ) (s n after : ℕ) → uleb_at bytes s ≡ Ok (n, after) → (spelled : List ℕ) × Spells bytes s spelled n
        × (after ≡ s + length spelled) }
{}

/// At most one SLEB128 spelling begins at a place. It is the one that the readers read there.
pub fn one_signed_spelling()
    ensures unique { (bytes : List ℕ) (s : ℕ) (xs ys : List ℕ) (y z : ℤ) → SpellsSigned bytes s xs y → SpellsSigned bytes s ys z → (xs ≡ ys) × (y ≡ z) }
    ensures read { (bytes : List ℕ) (s : ℕ) (spelled : List ℕ) (z : ℤ) → SpellsSigned bytes s spelled z → sleb_at bytes s ≡ Ok (z, s + length spelled) }
    ensures only { (bytes : List ℕ) (s : ℕ) (z : ℤ) (after : ℕ) → sleb_at bytes s ≡ Ok (z, after) → (spelled : List ℕ) × SpellsSigned bytes s spelled z
        × (after ≡ s + length spelled) }
{}

/// The record at an offset is the record with which the bytes from there on begin.
pub fn record_at_an_offset()
    ensures { (le : Endian) (fields : List Field) (bytes : List ℕ) (s : ℕ)
        → value_of (front_at (record_front le fields) bytes s) ≡ record_at le fields bytes s }
{}
