//! Reads texts at an offset.

ghost use Rattle.std.specs.Prelude.{◌≡◌, ◌≤◌, ◌+◌, length, map, Ok, IfOk, IfSome, IsErr, MatchOption};
ghost use Rattle.std.specs.Str.{IsUtf8, IsAscii};
ghost use Rattle.std.specs.List.{before_first, position_or_len};
ghost use Rattle.std.specs.Simd.Lanes.{chunk, mask_l};
ghost use Rattle.mach_base.specs.Text.{text_at, run_at, is_zero, is_stop};
ghost use Rattle.mach_base.specs.Answer.{Reads};

use crate::error::{Error, Result, ScrollError};
use crate::numbers::{rest_at, try_rest_at};
use memchr::memchr;
use std::simd::prelude::*;

// How many bytes are tested at once.
const LANES: usize = 32;

// Returns the number of bytes before the first zero byte.
fn len_before_zero(bytes: &[u8]) -> usize
    ensures value { result ≡ position_or_len is_zero bytes.now }
    ensures within { result ≤ length bytes.now }
{
    memchr(0, bytes).unwrap_or(bytes.len())
}

// Returns the bytes before the first zero byte.
fn run_at_front(bytes: &[u8]) -> &[u8]
    ensures run { result.now ≡ before_first is_zero bytes.now }
    ensures within { length result.now ≤ length bytes.now }
{
    &bytes[..len_before_zero(bytes)]
}

// Returns ASCII bytes as a text.
fn ascii_text(bytes: &[u8]) -> &str
    requires { IsAscii bytes.now }
    ensures { result.now ≡ bytes.now }
{
    unsafe { str::from_utf8_unchecked(bytes) }
}

// Returns the text with which the bytes begin if it is UTF-8, ASCII or not.
#[cold]
#[inline(never)]
fn utf8_at_front(bytes: &[u8]) -> Option<&str>
    ensures text { MatchOption result (¬ (IsUtf8 (before_first is_zero bytes.now)))
        (λ text. (text.now ≡ before_first is_zero bytes.now) × IsUtf8 (before_first is_zero bytes.now)) }
    ensures within { IfSome result (λ text. length text.now ≤ length bytes.now) }
{
    match str::from_utf8(run_at_front(bytes)) {
        Ok(text) => Some(text),
        Err(_) => None,
    }
}

// Whether a byte is zero or not ASCII.
#[inline(always)]
fn is_stop(byte: u8) -> bool
    ensures { result ≡ is_stop byte }
{
    byte == 0 || byte >= 0x80
}

// Tests `LANES` bytes at `place`. Bit k is set if the byte k places further on is zero or not ASCII.
#[inline(always)]
fn stops_at(bytes: &[u8], place: usize) -> u64
    requires { place + LANES ≤ length bytes.now }
    ensures { result ≡ mask_l (map is_stop (chunk place LANES bytes.now)) }
{
    let lanes = u8x32::from_slice(&bytes[place..]);
    (lanes.simd_eq(u8x32::splat(0)) | lanes.simd_ge(u8x32::splat(0x80))).to_bitmask()
}

// Returns the number of bytes before the first that is zero or not ASCII.
#[inline(always)]
fn plain_len(bytes: &[u8]) -> usize
    ensures value { result ≡ position_or_len is_stop bytes.now }
    ensures within { result ≤ length bytes.now }
{
    let mut len = 0;
    while bytes.len() - len >= LANES {
        let stops = stops_at(bytes, len);
        if stops != 0 {
            return len + stops.trailing_zeros() as usize;
        }
        len += LANES;
    }
    while len < bytes.len() && !is_stop(bytes[len]) {
        len += 1;
    }
    len
}

// Returns the text with which the bytes begin, if it is UTF-8. Most texts are ASCII and need only one search.
#[inline(always)]
fn text_at_front(bytes: &[u8]) -> Option<&str>
    ensures text { MatchOption result (¬ (IsUtf8 (before_first is_zero bytes.now)))
        (λ text. (text.now ≡ before_first is_zero bytes.now) × IsUtf8 (before_first is_zero bytes.now)) }
    ensures within { IfSome result (λ text. length text.now ≤ length bytes.now) }
{
    let len = plain_len(bytes);
    if len < bytes.len() && bytes[len] != 0 {
        return utf8_at_front(bytes);
    }
    Some(ascii_text(&bytes[..len]))
}

/// Like `read_text`, but returns `None` if there is no text.
#[tactic(auto, unfolding(crate::specs::Text::text_at))]
#[inline(always)]
pub fn quick_text(bytes: &[u8], place: usize) -> Option<&str>
    ensures text { MatchOption result (IsErr (text_at bytes.now place)) (λ text. text_at bytes.now place ≡ Ok text.now) }
    ensures within { IfSome result (λ text. place + length text.now ≤ length bytes.now) }
{
    if place >= bytes.len() {
        return None;
    }
    text_at_front(rest_at(bytes, place))
}

/// Reads the text at `offset`. It runs to the first zero byte, or to the end, and is UTF-8.
#[tactic(auto, unfolding(crate::specs::Text::text_at))]
#[inline(always)]
pub fn read_text(bytes: &[u8], offset: usize) -> Result<&str>
    ensures text { Reads (λ text. text.now) result (text_at bytes.now offset) }
    ensures within { IfOk result (λ text. offset + length text.now ≤ length bytes.now) }
{
    let rest = try_rest_at(bytes, offset)?;
    match text_at_front(rest) {
        Some(text) => Ok(text),
        None => Err(Error::Scroll(ScrollError::BadInput {
            size: rest.len(),
            msg: "a text is not UTF-8",
        })),
    }
}
