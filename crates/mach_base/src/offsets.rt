//! Reads and writes values at an offset.

ghost use Rattle.std.specs.Prelude.{◌≡◌, length, OnErr, OnOk};
ghost use Rattle.mach_base.specs.Answer.{Reads, ReadsBy};
ghost use Rattle.mach_base.specs.Front.{front_at, value_of, value_and_next};
ghost use Rattle.mach_base.specs.Number.{room_at};
ghost use Rattle.mach_base.specs.Record.{IsWritten};

use crate::error::{Error, Result, ScrollError};
use crate::numbers::try_rest_at;
use crate::traits::{TryFromCtx, TryIntoCtx};

/// Reads the value at an offset.
pub fn pread_with<'a, T: TryFromCtx<'a, C>, C: Drop>(
    bytes: &'a [u8],
    offset: usize,
    ctx: C,
) -> std::result::Result<T, T::Error>
    ensures { ReadsBy T.fault T.view result (value_of (front_at (T.front ctx) bytes.now offset)) }
{
    let rest = try_rest_at(bytes, offset)?;
    let (value, _) = T::try_from_ctx(rest, ctx)?;
    Ok(value)
}

/// Reads the value at the offset and moves the offset past it. On an error the
/// offset is unchanged. Fails as `Malformed` if the new offset would exceed 64 bits.
pub fn gread_with<'a, T: TryFromCtx<'a, C> + Drop, C: Drop>(
    bytes: &'a [u8],
    offset: &mut usize,
    ctx: C,
) -> std::result::Result<T, T::Error>
    ensures value { ReadsBy T.fault (λ value. (T.view value, offset.new)) result
        (value_and_next offset.old (front_at (T.front ctx) bytes.now offset.old)) }
    ensures refused { OnErr result (offset.new ≡ offset.old) }
{
    let rest = try_rest_at(bytes, *offset)?;
    let (value, width) = T::try_from_ctx(rest, ctx)?;
    let Some(next) = offset.checked_add(width) else {
        return Err(Error::Malformed("an offset does not fit in 64 bits").into());
    };
    *offset = next;
    Ok(value)
}

/// Writes a value at an offset and returns its number of bytes. On an error the bytes are unchanged.
pub fn pwrite_with<T: TryIntoCtx<C> + Drop, C: Drop>(
    bytes: &mut [u8],
    value: T,
    offset: usize,
    ctx: C,
) -> Result<usize>
    ensures answer { Reads (λ n. n) result (room_at (T.width ctx value) bytes.old offset) }
    ensures written { OnOk result (IsWritten bytes.old bytes.new offset (T.spelled ctx value)) }
    ensures sized { OnOk result (length (T.spelled ctx value) ≡ T.width ctx value) }
    ensures refused { OnErr result (bytes.new ≡ bytes.old) }
{
    if offset >= bytes.len() {
        return Err(Error::Scroll(ScrollError::BadOffset(offset)));
    }
    value.try_into_ctx(&mut bytes[offset..], ctx)
}
