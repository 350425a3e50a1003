//! Function starts (`LC_FUNCTION_STARTS`).

ghost use Rattle.std.specs.Prelude.{◌≡◌, ◌<◌, [], Ok, IfOk, IfSome};
ghost use Rattle.mach_base.specs.Answer.{Reads};
ghost use Rattle.mach_base.specs.Leb128.{uleb_at};
ghost use Rattle.mach_load.specs.FunctionStarts.{function_start_at, start_range_at, AreFunctionStarts};
ghost use Rattle.mach_load.specs.TablesLeft.{start_range_of, start_read, starts_left};

use crate::prefix::front;
use mach_base::{ByteCount, Error, Result, quick_uleb, uleb};
use mach_records::LinkeditDataCommand;
use std::fmt;

/// The numbers from which the starts of functions are computed: a range of some bytes.
#[derive(Clone, Copy)]
pub struct FunctionStarts<'a> {
    // The bytes before the range's end.
    bytes: &'a [u8],
    start: usize,
    end: usize,
}

impl<'a> FunctionStarts<'a> {
    /// Selects the range that `command` places (`LC_FUNCTION_STARTS`). Nothing is tested.
    pub fn new(bytes: &'a [u8], command: &LinkeditDataCommand) -> Self
        ensures { start_range_of result ≡ start_range_at bytes.now command.now.dataoff command.now.datasize }
    {
        let start = command.dataoff as usize;
        let end = start + command.datasize as usize;
        FunctionStarts {
            bytes: front(bytes, end),
            start,
            end,
        }
    }

    /// Returns an iterator over the addresses of the functions, for an image whose first byte has the address `base`.
    pub fn iter(&self, base: u64) -> FunctionStartIterator<'a>
        ensures { AreFunctionStarts (start_range_of self.now) base (starts_left result) }
    {
        FunctionStartIterator {
            bytes: self.bytes,
            place: self.start,
            upto: self.end,
            address: base,
        }
    }
}

impl fmt::Debug for FunctionStarts<'_> {
    /// Prints the range, with the number of bytes instead of the bytes.
    fn fmt<W: fmt::Write>(&self, f: &mut fmt::Formatter<W>) -> fmt::Result {
        f.debug_struct("FunctionStarts")
            .field("bytes", &ByteCount(self.bytes))
            .field("start", &self.start)
            .field("end", &self.end)
            .finish()
    }
}

/// An iterator over the addresses of functions, before sliding. It ends at the first faulty number,
/// after its error. Its fields determine it: one with the same fields returns the same items.
#[derive(Clone, Copy)]
pub struct FunctionStartIterator<'a> {
    /// The bytes that hold the numbers.
    pub bytes: &'a [u8],
    /// The place of the next number.
    pub place: usize,
    /// Where the numbers end.
    pub upto: usize,
    /// The address to which the next number is added.
    pub address: u64,
}

// Reads the number at a place, and returns it with the place after it.
#[inline(always)]
fn number_at(bytes: &[u8], place: usize) -> Result<(u64, usize)>
    ensures { Reads (λ found. found) result (uleb_at bytes.now place) }
{
    match quick_uleb(bytes, place) {
        Some(found) => Ok(found),
        None => rare_number(bytes, place),
    }
}

// Does the same for a number that is long or cannot be read.
#[inline(always)]
fn rare_number(bytes: &[u8], place: usize) -> Result<(u64, usize)>
    ensures { Reads (λ found. found) result (uleb_at bytes.now place) }
{
    uleb(bytes, place)
}

// Reads the number at `place` and returns the function that lies so far after
// `address`, with the place after the number. Returns `None` if the number is 0.
#[tactic(auto, unfolding(crate::specs::FunctionStarts::function_start_at))]
#[inline(always)]
fn start_at(bytes: &[u8], place: usize, address: u64) -> Result<Option<(u64, usize)>>
    ensures { Reads (λ start. start) result (function_start_at bytes.now place address) }
{
    let (number, next) = number_at(bytes, place)?;
    if number == 0 {
        return Ok(None);
    }
    let Some(start) = address.checked_add(number) else {
        return Err(Error::Malformed("a function's address does not fit in 64 bits"));
    };
    Ok(Some((start, next)))
}

impl<'a> Iterator for FunctionStartIterator<'a> {
    type Item = Result<u64>;

    ghost use Rattle.std.specs.Iterator.{YieldsFirstBy, item_count};

    ghost next_gives = { YieldsFirstBy start_read starts_left };

    ghost remaining = { item_count starts_left };

    #[inline(always)]
    fn next(&mut self) -> Option<Result<u64>> {
        if self.place >= self.upto {
            return None;
        }
        match start_at(self.bytes, self.place, self.address) {
            Ok(Some((start, next))) => {
                self.place = next;
                self.address = start;
                Some(Ok(start))
            }
            Ok(None) => {
                self.place = self.upto;
                None
            }
            Err(e) => {
                self.place = self.upto;
                Some(Err(e))
            }
        }
    }
}

impl<'a> Default for FunctionStartIterator<'a> {
    ghost is_default = { λ it. starts_left it ≡ [] };

    /// Returns an iterator without functions.
    fn default() -> Self {
        FunctionStartIterator {
            bytes: &[],
            place: 0,
            upto: 0,
            address: 0,
        }
    }
}

impl fmt::Debug for FunctionStartIterator<'_> {
    /// Prints how far it has come, with the number of bytes instead of the bytes.
    fn fmt<W: fmt::Write>(&self, f: &mut fmt::Formatter<W>) -> fmt::Result {
        f.debug_struct("FunctionStartIterator")
            .field("bytes", &ByteCount(self.bytes))
            .field("place", &self.place)
            .field("upto", &self.upto)
            .field("address", &self.address)
            .finish()
    }
}
