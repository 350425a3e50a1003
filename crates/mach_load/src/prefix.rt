//! A prefix of some bytes.

ghost use Rattle.std.specs.Prelude.{◌≡◌, take};

/// Returns the bytes before `end`, or all of them if there are not that many.
#[inline(always)]
pub fn front(bytes: &[u8], end: usize) -> &[u8]
    ensures { result.now ≡ take end bytes.now }
{
    &bytes[..end.min(bytes.len())]
}
