//! Laws of relocations.

ghost use Rattle.std.specs.Prelude.{◌≡◌, ◌<◌, ℕ, List, Some, length, slice_get};
ghost use Rattle.mach_base.specs.declared.context.Endian.{Endian};
ghost use Rattle.mach_parts.specs.Relocation.{relocations_at, relocation_item};

use crate::relocation::RelocationInfo;

/// The five parts of `r_info`, each at its own bits, add up to `r_info`.
pub fn bits_together(r: RelocationInfo) -> u32
    ensures { result ≡ r.r_info }
{
    r.r_symbolnum() as u32
        + u32::from(r.r_pcrel()) * (1 << 24)
        + u32::from(r.r_length()) * (1 << 25)
        + u32::from(r.r_extern()) * (1 << 27)
        + u32::from(r.r_type()) * (1 << 28)
}

/// Relocations are addressed by number. There are `count`, and relocation k is the one at its own place, whatever the others are.
pub fn relocations_by_number()
    ensures count { (le : Endian) (bytes : List ℕ) (reloff count : ℕ) → length (relocations_at le bytes reloff count) ≡ count }
    ensures item { (le : Endian) (bytes : List ℕ) (reloff count k : ℕ) → k < count
        → slice_get (relocations_at le bytes reloff count) k ≡ Some (relocation_item le bytes reloff k) }
{}
