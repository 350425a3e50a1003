//! LEB128: numbers in groups of seven bits, the lowest group first.

ghost use Rattle.std.specs.Prelude.{◌≡◌, ◌<◌, ◌≤◌, ◌+◌, ◌^◌, ◌-ℤ◌, ℕ, ℤ, pos, length, take, Ok, IfOk, IfSome, IfNone, OnErr, IsErr, MatchOption, if◌then◌else◌};
ghost use Rattle.mach_base.specs.Leb128.{IsUleb, IsSleb, uleb_at, sleb_at, uleb_number, uleb_size, sleb_number, sleb_size};
ghost use Rattle.mach_base.specs.FrontGroups.{GoOn, AreFront};
ghost use Rattle.mach_base.specs.Answer.{Reads};

use crate::error::{Error, Result, ScrollError};
use crate::numbers::{rest_at, try_rest_at};

/// An unsigned number and the length of its spelling.
#[derive(Clone, Copy, Debug, PartialEq)]
pub struct Uleb128 {
    value: u64,
    size: usize,
}

impl Uleb128 {
    /// Reads the number at the offset and moves the offset past its one to ten bytes. On an error the offset is unchanged.
    pub fn read(bytes: &[u8], offset: &mut usize) -> Result<u64>
        ensures value { Reads (λ n. (n, offset.new)) result (uleb_at bytes.now offset.old) }
        ensures refused { OnErr result (offset.new ≡ offset.old) }
    {
        let (value, after) = uleb(bytes, *offset)?;
        *offset = after;
        Ok(value)
    }

    /// Reads the number at the offset.
    pub fn parse(bytes: &[u8], offset: usize) -> Result<Self>
        ensures { Reads (λ u. (uleb_number u, offset + uleb_size u)) result (uleb_at bytes.now offset) }
    {
        let (value, after) = uleb(bytes, offset)?;
        Ok(Uleb128 {
            value,
            size: after - offset,
        })
    }

    /// Returns how many bytes spell the number.
    pub fn size(&self) -> usize
        ensures { result ≡ uleb_size self.now }
    {
        self.size
    }
}

impl From<Uleb128> for u64 {
    ghost from_gives = { λ u n. n ≡ uleb_number u };

    fn from(spelled: Uleb128) -> u64 {
        spelled.value
    }
}

/// A signed number and the length of its spelling.
#[derive(Clone, Copy, Debug, PartialEq)]
pub struct Sleb128 {
    value: i64,
    size: usize,
}

impl Sleb128 {
    /// Reads the signed number at the offset and moves the offset past its one to ten bytes. On an error the offset is unchanged.
    pub fn read(bytes: &[u8], offset: &mut usize) -> Result<i64>
        ensures value { Reads (λ z. (z, offset.new)) result (sleb_at bytes.now offset.old) }
        ensures refused { OnErr result (offset.new ≡ offset.old) }
    {
        let (value, after) = sleb(bytes, *offset)?;
        *offset = after;
        Ok(value)
    }

    /// Reads the signed number at the offset.
    pub fn parse(bytes: &[u8], offset: usize) -> Result<Self>
        ensures { Reads (λ u. (sleb_number u, offset + sleb_size u)) result (sleb_at bytes.now offset) }
    {
        let (value, after) = sleb(bytes, offset)?;
        Ok(Sleb128 {
            value,
            size: after - offset,
        })
    }

    /// Returns how many bytes spell the number.
    pub fn size(&self) -> usize
        ensures { result ≡ sleb_size self.now }
    {
        self.size
    }
}

impl From<Sleb128> for i64 {
    ghost from_gives = { λ u z. z ≡ sleb_number u };

    fn from(spelled: Sleb128) -> i64 {
        spelled.value
    }
}

// The leading groups of some bytes: up to the last group of the number, at most nine.
#[derive(Clone, Copy)]
struct Groups {
    value: u64,
    // 128 to the power of the number of groups
    weight: u64,
    // the place of the last group, and its byte
    index: usize,
    last: u8,
}

impl Groups {
    // Returns the number of the groups. If it is negative, their weight is subtracted.
    fn signed(self, negative: bool) -> i64
        requires below { self.value < self.weight }
        requires fits { self.weight ≤ 2 ^ 63 }
        ensures { result ≡ (if negative then pos self.value -ℤ pos self.weight else pos self.value) }
    {
        if negative {
            -1 - (self.weight - 1 - self.value) as i64
        } else {
            self.value as i64
        }
    }
}

// Reads the leading groups of the bytes. `None` if the bytes end before the number and before the ninth group.
fn front_groups(bytes: &[u8]) -> Option<Groups>
    ensures found { IfSome result (AreFront bytes.now) }
    ensures cut { IfNone result (length bytes.now < 9) }
    ensures go_on { IfNone result (GoOn bytes.now (length bytes.now)) }
{
    let mut value = 0u64;
    let mut weight = 1u64;
    'groups: for index in 0..9 {
        if index >= bytes.len() {
            return None;
        }
        let last = bytes[index];
        value += u64::from(last % 128) * weight;
        weight *= 128;
        if last < 128 {
            return Some(Groups {
                value,
                weight,
                index,
                last,
            });
        }
    }
    Some(Groups {
        value,
        weight,
        index: 8,
        last: bytes[8],
    })
}

// Reads the number with which the bytes begin, and its length in bytes.
fn uleb_front(bytes: &[u8]) -> Option<(u64, usize)>
    ensures found { IfSome result (λ found. IsUleb (take found.1 bytes.now) found.0) }
    ensures within { IfSome result (λ found. found.1 ≤ length bytes.now) }
    ensures none { IfNone result ((k n : ℕ) → IsUleb (take k bytes.now) n → ⊥) }
{
    let groups = front_groups(bytes)?;
    if groups.last < 128 {
        return Some((groups.value, groups.index + 1));
    }
    if bytes.len() < 10 || bytes[9] > 1 {
        return None;
    }
    Some((groups.value + u64::from(bytes[9]) * groups.weight, 10))
}

// Reads the number with which the bytes begin, and its length in bytes, if it has at most four.
#[inline(always)]
fn short_front(bytes: &[u8]) -> Option<(u64, usize)>
    ensures found { IfSome result (λ found. IsUleb (take found.1 bytes.now) found.0) }
    ensures within { IfSome result (λ found. found.1 ≤ length bytes.now) }
{
    if bytes.is_empty() {
        return None;
    }
    let one = u64::from(bytes[0] % 128);
    if bytes[0] < 128 {
        return Some((one, 1));
    }
    if bytes.len() < 2 {
        return None;
    }
    let two = one + u64::from(bytes[1] % 128) * 128;
    if bytes[1] < 128 {
        return Some((two, 2));
    }
    if bytes.len() < 3 {
        return None;
    }
    let three = two + u64::from(bytes[2] % 128) * 16_384;
    if bytes[2] < 128 {
        return Some((three, 3));
    }
    if bytes.len() < 4 || bytes[3] >= 128 {
        return None;
    }
    Some((three + u64::from(bytes[3]) * 2_097_152, 4))
}

// Reads the signed number with which the bytes begin, and its length in bytes.
fn sleb_front(bytes: &[u8]) -> Option<(i64, usize)>
    ensures found { IfSome result (λ found. IsSleb (take found.1 bytes.now) found.0) }
    ensures within { IfSome result (λ found. found.1 ≤ length bytes.now) }
    ensures none { IfNone result ((k : ℕ) (z : ℤ) → IsSleb (take k bytes.now) z → ⊥) }
{
    let groups = front_groups(bytes)?;
    if groups.last < 128 {
        return Some((groups.signed(groups.last >= 64), groups.index + 1));
    }
    if bytes.len() < 10 {
        return None;
    }
    match bytes[9] {
        0 => Some((groups.signed(false), 10)),
        0x7f => Some((groups.signed(true), 10)),
        _ => None,
    }
}

/// Reads the ULEB128 number at `place`, and returns it with the place after its one to ten bytes.
#[tactic(auto, unfolding(crate::specs::Leb128::uleb_at))]
pub fn uleb(bytes: &[u8], place: usize) -> Result<(u64, usize)>
    ensures value { Reads (λ found. found) result (uleb_at bytes.now place) }
    ensures after { IfOk result (λ found. place ≤ found.1) }
    ensures within { IfOk result (λ found. found.1 ≤ length bytes.now) }
{
    let rest = try_rest_at(bytes, place)?;
    match uleb_front(rest) {
        Some((value, len)) => Ok((value, place + len)),
        None => Err(Error::Scroll(ScrollError::BadInput {
            size: rest.len(),
            msg: "a ULEB128 number has no end, or does not fit in 64 bits",
        })),
    }
}

// Like `uleb`, but returns 0 as the place after if there is no number. Two numbers are returned in registers.
#[cold]
#[inline(never)]
fn long_uleb(bytes: &[u8], place: usize) -> (u64, usize)
    ensures found { 0 < result.1 → uleb_at bytes.now place ≡ Ok result }
    ensures after { 0 < result.1 → place < result.1 }
    ensures within { result.1 ≤ length bytes.now }
    ensures none { result.1 ≡ 0 → IsErr (uleb_at bytes.now place) }
{
    match uleb(bytes, place) {
        Ok(found) => found,
        Err(_) => (0, 0),
    }
}

/// Like `uleb`, but returns `None` if there is no number. A number of at most four bytes is read without a call.
#[inline(always)]
pub fn quick_uleb(bytes: &[u8], place: usize) -> Option<(u64, usize)>
    ensures value { MatchOption result (IsErr (uleb_at bytes.now place)) (λ found. uleb_at bytes.now place ≡ Ok found) }
    ensures after { IfSome result (λ found. place < found.1) }
    ensures within { IfSome result (λ found. found.1 ≤ length bytes.now) }
{
    if place >= bytes.len() {
        return None;
    }
    if let Some((value, len)) = short_front(rest_at(bytes, place)) {
        return Some((value, place + len));
    }
    let (value, after) = long_uleb(bytes, place);
    if after == 0 {
        return None;
    }
    Some((value, after))
}

/// Reads the SLEB128 number at `place`, and returns it with the place after its one to ten bytes.
#[tactic(auto, unfolding(crate::specs::Leb128::sleb_at))]
pub fn sleb(bytes: &[u8], place: usize) -> Result<(i64, usize)>
    ensures value { Reads (λ found. found) result (sleb_at bytes.now place) }
    ensures after { IfOk result (λ found. place ≤ found.1) }
    ensures within { IfOk result (λ found. found.1 ≤ length bytes.now) }
{
    let rest = try_rest_at(bytes, place)?;
    match sleb_front(rest) {
        Some((value, len)) => Ok((value, place + len)),
        None => Err(Error::Scroll(ScrollError::BadInput {
            size: rest.len(),
            msg: "an SLEB128 number has no end, or does not fit in 64 bits",
        })),
    }
}
