//! Bounded reads, and numbers at an offset.

ghost use Rattle.std.specs.Prelude.{◌≡◌, ◌≤◌, ◌+◌, length, drop, take};
ghost use Rattle.mach_base.specs.Number.{number_at, slice_at, rest_from};
ghost use Rattle.mach_base.specs.Answer.{Reads};

use crate::context::Endian;
use crate::error::{Error, Result, ScrollError};

/// Returns the bytes from `offset` on.
pub fn rest_at(bytes: &[u8], offset: usize) -> &[u8]
    requires { offset ≤ length bytes.now }
    ensures { result.now ≡ drop offset bytes.now }
{
    &bytes[offset..]
}

/// Returns the bytes from `offset` on. Fails if the offset is at or past the end.
pub fn try_rest_at(bytes: &[u8], offset: usize) -> Result<&[u8]>
    ensures { Reads (λ rest. rest.now) result (rest_from bytes.now offset) }
{
    if offset >= bytes.len() {
        return Err(Error::Scroll(ScrollError::BadOffset(offset)));
    }
    Ok(rest_at(bytes, offset))
}

/// Returns the `n` bytes at `offset`.
pub fn bytes_at(bytes: &[u8], offset: usize, n: usize) -> Result<&[u8]>
    ensures { Reads (λ found. found.now) result (slice_at n bytes.now offset) }
{
    let rest = try_rest_at(bytes, offset)?;
    if rest.len() < n {
        return Err(Error::Scroll(ScrollError::TooBig {
            size: n,
            len: rest.len(),
        }));
    }
    Ok(&rest[..n])
}

/// Reads the four-byte number at `offset`.
pub fn read_u32(bytes: &[u8], offset: usize, le: Endian) -> Result<u32>
    ensures { Reads (λ n. n) result (number_at le 4 bytes.now offset) }
{
    Ok(le.u32_at(bytes_at(bytes, offset, 4)?, 0))
}

/// Copies the `N` bytes at `place`.
pub fn array_at<const N: usize>(bytes: &[u8], place: usize) -> [u8; N]
    requires { place + N ≤ length bytes.now }
    ensures { result ≡ take N (drop place bytes.now) }
{
    let mut array = [0; N];
    array.copy_from_slice(&bytes[place..place + N]);
    array
}
