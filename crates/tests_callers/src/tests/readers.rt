//! Each generic reader and writer at a type of its own.

ghost use Rattle.std.specs.Prelude.{◌∷◌, [], ◌≤◌, ℕ, List, Ok};
ghost use Rattle.std.proofs.Common.{rules};
ghost use Rattle.mach_base.specs.Fault.{fault_of};
ghost use Rattle.mach_base.specs.Front.{same_fault};
ghost use Rattle.mach_base.specs.Record.{num, number_is};

use crate::tests::same::same;
use mach_base::{
    BE, Endian, Error, IntoCtx, LE, Record, RecordBytes, Result, SizeWith, TryFromCtx, gread_with,
    pread_with, pwrite_with, written_and_read,
};

// Two numbers, one after the other.
#[derive(Clone, Copy, Debug, PartialEq)]
struct Pair {
    first: u32,
    second: u16,
}

impl Record for Pair {
    const SIZE: usize = 6;

    ghost SIZE = { 6 };

    ghost fields = { num 4 ∷ num 2 ∷ [] };

    ghost values = { λ x. number_is x.first ∷ number_is x.second ∷ [] };

    fn load(bytes: &[u8], le: Endian) -> Self {
        Pair {
            first: le.u32_at(bytes, 0),
            second: le.u16_at(bytes, 4),
        }
    }

    fn store(self, le: Endian) -> RecordBytes {
        RecordBytes::new().u32(le, self.first).u16(le, self.second)
    }

    ghost lawful = { Prim.search rules };
}

// Bytes that hold their own width.
#[derive(Clone, Copy, Debug)]
struct Held<'a> {
    bytes: &'a [u8],
}

impl<'a> TryFromCtx<'a, usize> for Held<'a> {
    type Error = Error;

    ghost fault = { fault_of };

    ghost keeps_fault = { same_fault };

    ghost View = { List ℕ };

    ghost view = { λ held. held.bytes.now };

    ghost front = { λ width bytes. Ok (bytes, width) };

    fn try_from_ctx(bytes: &'a [u8], width: usize) -> Result<(Held<'a>, usize)> {
        Ok((Held { bytes }, width))
    }
}

const BYTES: [u8; 8] = [0xff, 1, 2, 3, 4, 5, 6, 7];

const LITTLE: Pair = Pair {
    first: 0x0403_0201,
    second: 0x0605,
};

const BIG: Pair = Pair {
    first: 0x0102_0304,
    second: 0x0506,
};

#[test]
fn reads_at_an_offset(rt: HostRuntime) -> Result<()> {
    same(&rt, pread_with::<Pair, Endian>(&BYTES, 1, LE)?, LITTLE);
    same(&rt, pread_with::<Pair, Endian>(&BYTES, 1, BE)?, BIG);
    for offset in [8, 3] {
        let mut place = offset;
        assert!(rt; pread_with::<Pair, Endian>(&BYTES, offset, LE).is_err());
        assert!(rt; gread_with::<Pair, Endian>(&BYTES, &mut place, LE).is_err());
        same(&rt, place, offset);
    }
    Ok(())
}

#[test]
fn reads_on(rt: HostRuntime) -> Result<()> {
    let mut offset = 1;
    same(
        &rt,
        gread_with::<Pair, Endian>(&BYTES, &mut offset, LE)?,
        LITTLE,
    );
    same(&rt, offset, 7);
    let held: Held<'_> = gread_with(&BYTES, &mut offset, usize::MAX - 7)?;
    same(&rt, held.bytes, [7].as_slice());
    same(&rt, offset, usize::MAX);
    offset = 7;
    let past: Result<Held<'_>> = gread_with(&BYTES, &mut offset, usize::MAX - 6);
    assert!(rt; matches!(past, Err(Error::Malformed(_))));
    same(&rt, offset, 7);
    Ok(())
}

#[test]
fn writes_at_an_offset(rt: HostRuntime) -> Result<()> {
    let mut bytes = [0xff; 8];
    same(&rt, pwrite_with(&mut bytes, BIG, 1, BE)?, 6);
    same(&rt, bytes, [0xff, 1, 2, 3, 4, 5, 6, 0xff]);
    for offset in [8, 3] {
        assert!(rt; pwrite_with(&mut bytes, BIG, offset, LE).is_err());
        same(&rt, bytes, [0xff, 1, 2, 3, 4, 5, 6, 0xff]);
    }
    same(&rt, written_and_read(LITTLE, &mut bytes, 2, LE)?, LITTLE);
    Ok(())
}

// Returns the bytes of a value, written into a second buffer after a write into the first has shown that it fits.
fn written_again<T: IntoCtx<C> + SizeWith<C> + Copy, C: Copy>(
    value: T,
    ctx: C,
) -> Result<([u8; 8], usize)> {
    let mut bytes = [0; 8];
    value.try_into_ctx(&mut bytes, ctx)?;
    let mut again = [0; 8];
    value.into_ctx(&mut again, ctx);
    Ok((again, T::size_with(&ctx)))
}

#[test]
fn writes_by_bounds(rt: HostRuntime) -> Result<()> {
    same(&rt, written_again(BIG, BE)?, ([1, 2, 3, 4, 5, 6, 0, 0], 6));
    Ok(())
}
