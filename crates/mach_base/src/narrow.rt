//! The low bits of a number, for a field that is narrower.

ghost use Rattle.std.specs.Prelude.{◌≡◌, ◌%◌, ◌^◌};

/// Returns the low 32 bits of a number.
pub fn low_bits(x: u64) -> u32
    ensures { result ≡ x % 2 ^ 32 }
{
    (x % (1 << 32)) as u32
}
