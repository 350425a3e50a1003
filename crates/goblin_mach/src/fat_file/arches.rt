//! The records of a fat file, one at a time.

ghost use Rattle.std.specs.Prelude.{◌≡◌, ◌<◌, ◌^◌, length};

use mach_base::{ByteCount, Result};
use mach_parts::fat::FatArch;
use mach_parts::{ArchRecord, FatArch64, read_arch};
use std::fmt;
use std::fmt::{Debug, Formatter, Write};
use std::marker::PhantomData;

/// An iterator over the records of a fat file, of type `R`. It has exactly as many items as the header states entries. Each
/// is the record at its own place, or the error of reading it.
#[derive_where(Clone)]
#[derive(Drop)]
pub struct ArchIterator<'a, R> {
    bytes: &'a [u8],
    index: usize,
    narches: usize,
    rows: PhantomData<R>,
}

/// The records of a fat file.
pub type FatArchIterator<'a> = ArchIterator<'a, FatArch>;

/// The records of a fat file of 64 bits.
pub type FatArch64Iterator<'a> = ArchIterator<'a, FatArch64>;

impl<'a, R: ArchRecord> ArchIterator<'a, R> {
    ghost use Rattle.goblin_mach.specs.FatFile.{archs_in, archs_left_in};

    // Returns an iterator over `narches` records of these bytes.
    pub(crate) fn new(bytes: &'a [u8], narches: usize) -> Self
        ensures items { archs_left_in R.arch_form result ≡ archs_in R.arch_form (record { bytes = bytes.now; narches = narches }) }
        ensures bounded { length (archs_left_in R.arch_form result) < 2 ^ 64 }
    {
        ArchIterator {
            bytes,
            index: 0,
            narches,
            rows: PhantomData,
        }
    }
}

impl<'a, R: ArchRecord> Iterator for ArchIterator<'a, R> {
    type Item = Result<R>;

    ghost use Rattle.std.specs.Prelude.{Some, IfSome};
    ghost use Rattle.std.specs.Iterator.{YieldsFirstBy, UpTo, item_count};
    ghost use Rattle.std.specs.Iterator.SizeHint.{IsWithinCount};
    ghost use Rattle.goblin_mach.specs.FatFile.{arch_read, archs_left_in};

    ghost next_gives = { YieldsFirstBy arch_read (archs_left_in R.arch_form) };

    ghost remaining = { item_count (archs_left_in R.arch_form) };

    fn next(&mut self) -> Option<Result<R>> {
        if self.index >= self.narches {
            return None;
        }
        let item = read_arch::<R>(self.bytes, self.index);
        self.index += 1;
        Some(item)
    }

    /// Returns the exact number of records left.
    fn size_hint(&self) -> (usize, Option<usize>)
        ensures lower { IsWithinCount result.0 (item_count (archs_left_in R.arch_form) self.now) }
        ensures upper { IfSome result.1 (UpTo (item_count (archs_left_in R.arch_form) self.now)) }
        ensures exact { result ≡ (length (archs_left_in R.arch_form self.now), Some (length (archs_left_in R.arch_form self.now))) }
    {
        let left = self.len();
        (left, Some(left))
    }
}

impl<'a, R: ArchRecord> ExactSizeIterator for ArchIterator<'a, R> {
    /// Returns the number of records left.
    fn len(&self) -> usize {
        self.narches.saturating_sub(self.index)
    }
}

impl<R> ArchIterator<'_, R> {
    // Formats it under a name.
    fn fmt_as<W: Write>(&self, name: &'static str, f: &mut Formatter<W>) -> fmt::Result {
        f.debug_struct(name)
            .field("bytes", &ByteCount(self.bytes))
            .field("index", &self.index)
            .field("narches", &self.narches)
            .finish()
    }
}

impl Debug for ArchIterator<'_, FatArch> {
    /// Formats its position and, of the bytes, only their number.
    fn fmt<W: Write>(&self, f: &mut Formatter<W>) -> fmt::Result {
        self.fmt_as("FatArchIterator", f)
    }
}

impl Debug for ArchIterator<'_, FatArch64> {
    /// Formats its position and, of the bytes, only their number.
    fn fmt<W: Write>(&self, f: &mut Formatter<W>) -> fmt::Result {
        self.fmt_as("FatArch64Iterator", f)
    }
}
