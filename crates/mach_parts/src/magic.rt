//! Recognizes a file by its first four bytes.

ghost use Rattle.std.specs.Prelude.{◌≡◌, Ok};
ghost use Rattle.mach_base.specs.declared.context.Endian.TheVariants.{Big};
ghost use Rattle.mach_base.specs.Answer.{Reads};
ghost use Rattle.mach_base.specs.Number.{number_at};
ghost use Rattle.mach_parts.specs.Magic.{magic_at, ctx_of, hint_in};

use crate::fat::FAT_MAGIC;
use crate::header::{MH_CIGAM, MH_CIGAM_64, MH_MAGIC, MH_MAGIC_64};
use mach_base::{Container, Ctx, Endian, Hint, HintData, Result, read_u32};

/// Reads the four-byte number at `offset`, as big-endian.
pub fn peek(bytes: &[u8], offset: usize) -> Result<u32>
    ensures { Reads (λ magic. magic) result (number_at Big 4 bytes.now offset) }
{
    read_u32(bytes, offset, Endian::Big)
}

// Returns the context of an image with this magic, if it is the magic of an image.
fn ctx_of_magic(magic: u32) -> Option<Ctx>
    ensures { result ≡ ctx_of magic }
{
    match magic {
        MH_MAGIC => Some(Ctx::new(Container::Little, Endian::Big)),
        MH_CIGAM => Some(Ctx::new(Container::Little, Endian::Little)),
        MH_MAGIC_64 => Some(Ctx::new(Container::Big, Endian::Big)),
        MH_CIGAM_64 => Some(Ctx::new(Container::Big, Endian::Little)),
        _ => None,
    }
}

/// Reads the magic at `offset`, and returns it with the context of the image if it is the magic of an image.
pub fn parse_magic_and_ctx(bytes: &[u8], offset: usize) -> Result<(u32, Option<Ctx>)>
    ensures { Reads (λ found. found) result (magic_at bytes.now offset) }
{
    let magic = peek(bytes, offset)?;
    Ok((magic, ctx_of_magic(magic)))
}

/// Recognizes the kind of a file by its first 16 bytes. It is always `Ok`.
pub fn peek_bytes(bytes: &[u8; 16]) -> Result<Hint>
    ensures { result ≡ Ok (hint_in bytes.now) }
{
    if bytes.starts_with(b"!<arch>\n") {
        return Ok(Hint::Archive);
    }
    let magic = Endian::Big.u32_at(bytes, 0);
    if let Some(ctx) = ctx_of_magic(magic) {
        return Ok(Hint::Mach(HintData {
            is_lsb: ctx.le.is_little(),
            is_64: Some(ctx.is_big()),
        }));
    }
    if magic == FAT_MAGIC {
        Ok(Hint::MachFat(Endian::Big.u32_at(bytes, 4) as usize))
    } else {
        Ok(Hint::Unknown(Endian::Little.u64_at(bytes, 0)))
    }
}
