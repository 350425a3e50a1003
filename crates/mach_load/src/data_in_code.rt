//! Data in code (`LC_DATA_IN_CODE`).

ghost use Rattle.std.specs.Prelude.{◌≡◌, []};
ghost use Rattle.mach_base.specs.Items.{items_in_bounds};
ghost use Rattle.mach_base.specs.Answer.{Reads};
ghost use Rattle.mach_load.specs.DataInCode.{data_in_code_at, data_in_code_in};
ghost use Rattle.mach_load.specs.TablesLeft.{data_in_code_read, data_in_code_left};

use mach_base::{ByteCount, Endian, LE, Record, Result, records_in_bounds};
use mach_records::{DataInCodeEntry, LinkeditDataCommand};
use std::fmt;

/// An iterator over the entries of a data-in-code table. It has exactly as many items as the table has room for. Each
/// is the entry at its own place, or the error of that read. Whether an entry's range lies in the image is not tested.
#[derive(Clone, Copy)]
pub struct DataInCodeIterator<'a> {
    bytes: &'a [u8],
    le: Endian,
    start: u32,
    index: u32,
    count: u32,
}

// Reads the entry at a place.
#[inline(always)]
fn entry_at(bytes: &[u8], place: usize, le: Endian) -> Result<DataInCodeEntry>
    ensures { Reads (λ entry. entry) result (data_in_code_at le bytes.now place) }
{
    DataInCodeEntry::read(bytes, place, le)
}

impl<'a> DataInCodeIterator<'a> {
    /// Builds an iterator over the entries of the table that `command` places (`LC_DATA_IN_CODE`).
    pub fn new(bytes: &'a [u8], command: &LinkeditDataCommand, le: Endian) -> Self
        ensures { data_in_code_left result ≡ data_in_code_in le bytes.now command.now.dataoff command.now.datasize }
    {
        DataInCodeIterator {
            bytes,
            le,
            start: command.dataoff,
            index: 0,
            count: command.datasize / 8,
        }
    }

    /// Returns the same iterator restricted to the entries that begin within the bytes. No byte of any later entry can be read.
    pub fn in_bounds(&self) -> Self
        ensures { data_in_code_left result ≡ items_in_bounds (data_in_code_left self.now) }
    {
        let in_bounds = records_in_bounds(self.bytes, self.start as usize, DataInCodeEntry::SIZE);
        DataInCodeIterator {
            count: (self.count as usize).min(in_bounds) as u32,
            ..*self
        }
    }
}

impl<'a> Iterator for DataInCodeIterator<'a> {
    type Item = Result<DataInCodeEntry>;

    ghost use Rattle.std.specs.Prelude.{Some, IfSome, length};
    ghost use Rattle.std.specs.Iterator.{YieldsFirstBy, UpTo, item_count};
    ghost use Rattle.std.specs.Iterator.SizeHint.{IsWithinCount};

    ghost next_gives = { YieldsFirstBy data_in_code_read data_in_code_left };

    ghost remaining = { item_count data_in_code_left };

    #[inline(always)]
    fn next(&mut self) -> Option<Result<DataInCodeEntry>> {
        if self.index >= self.count {
            return None;
        }
        let place = self.start as usize + self.index as usize * DataInCodeEntry::SIZE;
        self.index += 1;
        Some(entry_at(self.bytes, place, self.le))
    }

    /// Returns the exact number of items left, as both bounds.
    fn size_hint(&self) -> (usize, Option<usize>)
        ensures lower { IsWithinCount result.0 (item_count data_in_code_left self.now) }
        ensures upper { IfSome result.1 (UpTo (item_count data_in_code_left self.now)) }
        ensures exact { result ≡ (length (data_in_code_left self.now), Some (length (data_in_code_left self.now))) }
    {
        let left = self.len();
        (left, Some(left))
    }
}

impl<'a> ExactSizeIterator for DataInCodeIterator<'a> {
    /// Returns the number of items left.
    fn len(&self) -> usize {
        self.count.saturating_sub(self.index) as usize
    }
}

impl<'a> Default for DataInCodeIterator<'a> {
    ghost is_default = { λ it. data_in_code_left it ≡ [] };

    /// Returns an iterator without entries.
    fn default() -> Self {
        DataInCodeIterator {
            bytes: &[],
            le: LE,
            start: 0,
            index: 0,
            count: 0,
        }
    }
}

impl fmt::Debug for DataInCodeIterator<'_> {
    /// Prints where the entries begin and how far it has come, with the number of bytes instead of the bytes.
    fn fmt<W: fmt::Write>(&self, f: &mut fmt::Formatter<W>) -> fmt::Result {
        f.debug_struct("DataInCodeIterator")
            .field("bytes", &ByteCount(self.bytes))
            .field("start", &self.start)
            .field("index", &self.index)
            .field("count", &self.count)
            .finish()
    }
}
