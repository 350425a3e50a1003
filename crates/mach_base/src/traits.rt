//! Traits of values that are read and written in a context: a byte order, a width, or both.

ghost use Rattle.std.specs.Prelude.{◌≡◌, ◌<◌, ◌≤◌, ℕ, List, length, OnErr, OnOk};
ghost use Rattle.mach_base.specs.Answer.{Reads, ReadsBy};
ghost use Rattle.mach_base.specs.Fault.{Fault, fault_of};
ghost use Rattle.mach_base.specs.Front.{Found, record_front, KeepsFault, same_fault};
ghost use Rattle.mach_base.specs.Number.{room_at};
ghost use Rattle.mach_base.specs.Record.{Value, spelling, IsWritten};

use crate::context::Endian;
use crate::error::{Error, Result};
use crate::record::Record;

/// A value that is read from the start of some bytes, and may borrow them.
pub trait TryFromCtx<'a, C>: Sized {
    /// The reason why there is no value: `Error` for each type of these crates.
    type Error: From<Error>;

    // The fault that an error reports.
    ghost fault: { Self.Error → Fault };

    // What contracts see of a value.
    ghost View: { Type 0 };

    ghost view: { Self → View };

    // The value at the start of some bytes and its width in bytes, or the reason why there is none.
    ghost front: { C → List ℕ → Found View };

    /// Reads the value at the start of the bytes, and returns it with its width in bytes.
    fn try_from_ctx(bytes: &'a [u8], ctx: C) -> std::result::Result<(Self, usize), Self::Error>
        ensures { ReadsBy fault (λ found. (view found.0, found.1)) result (front ctx bytes.now) };

    // An error that is converted from an `Error` reports the same fault.
    ghost keeps_fault: { KeepsFault Self.Error.from_gives fault };
}

/// A value that can be written at the start of some bytes if it fits.
pub trait TryIntoCtx<C>: Sized {
    // The bytes of a value, and their number.
    ghost spelled: { C → Self → List ℕ };

    ghost width: { C → Self → ℕ };

    /// Writes the value at the start of the bytes and returns its number of bytes. On an error the bytes are unchanged.
    fn try_into_ctx(self, bytes: &mut [u8], ctx: C) -> Result<usize>
        ensures answer { Reads (λ n. n) result (room_at (width ctx self) bytes.old 0) }
        ensures written { OnOk result (IsWritten bytes.old bytes.new 0 (spelled ctx self)) }
        ensures sized { OnOk result (length (spelled ctx self) ≡ width ctx self) }
        ensures refused { OnErr result (bytes.new ≡ bytes.old) };

    // No value is empty.
    ghost not_empty: { (ctx : C) (value : Self) → 0 < width ctx value };
}

/// A value that is written into bytes that are known to hold it. `try_into_ctx` tests that.
pub trait IntoCtx<C>: TryIntoCtx<C> {
    /// Writes the value at the start of the bytes.
    fn into_ctx(self, bytes: &mut [u8], ctx: C)
        requires { Self.width ctx self ≤ length bytes.old }
        ensures { IsWritten bytes.old bytes.new 0 (Self.spelled ctx self) }
    {
        let _ = self.try_into_ctx(bytes, ctx);
    }
}

/// A type whose values all have the same width in a context.
pub trait SizeWith<C> {
    ghost size: { C → ℕ };

    /// Returns the width of a value in bytes.
    fn size_with(ctx: &C) -> usize
        ensures { result ≡ size ctx.now };
}

impl<'a, R: Record> TryFromCtx<'a, Endian> for R {
    type Error = Error;

    ghost fault = { fault_of };

    ghost keeps_fault = { same_fault };

    ghost View = { List Value };

    ghost view = { R.values };

    ghost front = { λ le bytes. record_front le R.fields bytes };

    fn try_from_ctx(bytes: &'a [u8], le: Endian) -> Result<(R, usize)> {
        Ok((R::read(bytes, 0, le)?, R::SIZE))
    }
}

impl<R: Record> TryIntoCtx<Endian> for R {
    ghost spelled = { λ le held. spelling le R.fields (R.values held) };

    ghost width = { λ _ _. R.SIZE };

    ghost not_empty = { λ _ _. R.lawful.some };

    fn try_into_ctx(self, bytes: &mut [u8], le: Endian) -> Result<usize> {
        self.write(bytes, 0, le)
    }
}

impl<R: Record> IntoCtx<Endian> for R {}

impl<R: Record> SizeWith<Endian> for R {
    ghost size = { λ _. R.SIZE };

    fn size_with(_le: &Endian) -> usize {
        R::SIZE
    }
}
