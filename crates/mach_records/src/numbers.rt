//! Four-byte numbers, one after another.

ghost use Rattle.std.specs.Prelude.{◌≡◌, ◌≤◌, ◌+◌, ◌*◌, length, map};
ghost use Rattle.mach_base.specs.Record.{num, number_is, spelled_after, AllFit};

use mach_base::{Endian, RecordBytes};

/// Appends the four-byte numbers `xs`.
pub fn u32s(front: RecordBytes, le: Endian, xs: &[u32]) -> RecordBytes
    requires { length front + 4 * length xs.now ≤ 80 }
    ensures spelled { result ≡ spelled_after le front (map (λ _. num 4) xs.now) (map number_is xs.now) }
    ensures fits { AllFit (map (λ _. num 4) xs.now) (map number_is xs.now) }
{
    let mut bytes = front;
    for x in xs {
        bytes = bytes.u32(le, *x);
    }
    bytes
}
