//! Numbers in a segment's memory: its data, followed by zeros.

ghost use Rattle.std.specs.Prelude.{◌≡◌, ◌⊎◌, ◌<◌, ◌+◌, length};
ghost use Rattle.mach_base.specs.Number.{number};
ghost use Rattle.mach_dyld.specs.Rebases as defined;
ghost use Rattle.mach_dyld.specs.Rebases.{memory_word};

use mach_base::{Endian, array_at};

// Returns the eight bytes at a place of a segment whose data end before the eighth. Zeros follow the data.
fn padded(bytes: &[u8], offset: u64) -> [u8; 8]
    requires { length bytes.now < offset + 8 }
    ensures { result ≡ memory_word bytes.now offset }
{
    let mut word = [0; 8];
    if offset >= bytes.len() as u64 {
        return word;
    }
    let rest = &bytes[offset as usize..];
    word[..rest.len()].copy_from_slice(rest);
    word
}

// Returns the number in the first `width` of eight bytes.
#[inline(always)]
fn number_of(le: Endian, width: u8, word: [u8; 8]) -> u64
    requires { (width ≡ 4) ⊎ (width ≡ 8) }
    ensures { result ≡ number le width word }
{
    if width == 4 {
        u64::from(le.u32_at(&word, 0))
    } else {
        le.u64_at(&word, 0)
    }
}

// Returns the number if the data end before its eighth byte.
#[cold]
#[inline(never)]
fn padded_number(le: Endian, width: u8, bytes: &[u8], offset: u64) -> u64
    requires width { (width ≡ 4) ⊎ (width ≡ 8) }
    requires few { length bytes.now < offset + 8 }
    ensures { result ≡ defined.memory_number le width bytes.now offset }
{
    number_of(le, width, padded(bytes, offset))
}

/// Returns the number of `width` bytes, 4 or 8, at a place of a segment with these data. Zeros follow the data.
#[inline(always)]
pub fn memory_number(le: Endian, width: u8, bytes: &[u8], offset: u64) -> u64
    requires { (width ≡ 4) ⊎ (width ≡ 8) }
    ensures { result ≡ defined.memory_number le width bytes.now offset }
{
    if bytes.len() < 8 || offset > (bytes.len() - 8) as u64 {
        return padded_number(le, width, bytes, offset);
    }
    number_of(le, width, array_at(bytes, offset as usize))
}
