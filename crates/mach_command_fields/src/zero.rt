//! Bytes up to a zero.

ghost use Rattle.std.specs.Prelude.{◌≡◌, ◌≤◌, length};
ghost use Rattle.std.specs.List.{before_first, position_or_len};
ghost use Rattle.mach_base.specs.Text.{is_zero};

use memchr::memchr;

// Returns the number of bytes before the first zero.
fn len_before_zero(bytes: &[u8]) -> usize
    ensures value { result ≡ position_or_len is_zero bytes.now }
    ensures within { result ≤ length bytes.now }
{
    memchr(0, bytes).unwrap_or(bytes.len())
}

/// Returns the bytes before the first zero.
pub fn before_zero(bytes: &[u8]) -> &[u8]
    ensures { result.now ≡ before_first is_zero bytes.now }
{
    &bytes[..len_before_zero(bytes)]
}
