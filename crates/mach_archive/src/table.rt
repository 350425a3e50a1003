//! The table of an index (`ranlib.h`; GNU's `/` and `/SYM64/`).

ghost use Rattle.std.specs.Prelude.{◌≡◌, ◌≤◌, ◌<◌, ◌*◌, ◌+◌, ◌-◌, ◌^◌, length};
ghost use Rattle.mach_base.specs.Answer.{Reads};
ghost use Rattle.mach_base.specs.Number.{number, number_at};
ghost use Rattle.mach_archive.specs.PlacedViews.{placed_view};
ghost use Rattle.mach_archive.specs.Widths.{number_width, record_width};

use crate::archive::ArchiveKind;
use crate::placed::Placed;
use mach_base::{Endian, Error, Result, ScrollError, bytes_at, read_u32};

/// The width of an index's numbers.
#[derive(Clone, Copy)]
pub enum Width {
    Four,
    Eight,
}

impl Width {
    #[inline(always)]
    pub(crate) fn bytes(self) -> usize
        ensures { result ≡ number_width self }
    {
        match self {
            Width::Four => 4,
            Width::Eight => 8,
        }
    }
}

/// An index: the width of its numbers, and its bytes.
#[derive(Clone, Copy)]
pub struct Index<'a> {
    pub(crate) width: Width,
    pub(crate) table: Placed<'a>,
}

/// A table, or the remaining part of it.
#[derive(Clone, Copy)]
pub struct Table<'a> {
    pub(crate) kind: ArchiveKind,
    pub(crate) le: Endian,
    pub(crate) width: Width,
    /// The number of symbols.
    pub(crate) count: usize,
    /// The bytes from the first symbol's record on.
    pub(crate) records: &'a [u8],
    /// The names. In GNU's form they begin with the first symbol's name.
    pub(crate) names: Placed<'a>,
    ghost room: { count * record_width kind width ≤ length records.now },
}

// Reads the number at a place of bytes that hold it.
#[inline(always)]
fn number_in(bytes: &[u8], place: usize, width: Width, le: Endian) -> u64
    requires { place + number_width width ≤ length bytes.now }
    ensures { result ≡ number le (number_width width) (drop place bytes.now) }
{
    match width {
        Width::Four => u64::from(le.u32_at(bytes, place)),
        Width::Eight => le.u64_at(bytes, place),
    }
}

// Reads the number with which a table begins.
fn first_number(table: &[u8], width: Width, le: Endian) -> Result<u64>
    ensures number { Reads (λ n. n) result (number_at le (number_width width) table.now 0) }
    ensures room { OnOk result (number_width width ≤ length table.now) }
{
    match width {
        Width::Four => Ok(u64::from(read_u32(table, 0, le)?)),
        Width::Eight => Ok(le.u64_at(bytes_at(table, 0, 8)?, 0)),
    }
}

impl<'a> Table<'a> {
    ghost use Rattle.mach_archive.specs.IndexTables.{index_table, gnu_table, bsd_table, bsd_table_in};
    ghost use Rattle.mach_archive.specs.IndexSymbols.{record_number, symbol_name_place, symbol_member};
    ghost use Rattle.mach_archive.specs.TableViews.{index_table_view, index_view};

    /// Reads the table of an index in the archive's form.
    #[tactic(auto, unfolding(crate::specs::IndexTables::index_table))]
    pub(crate) fn read(kind: ArchiveKind, index: &Index<'a>) -> Result<Table<'a>>
        ensures { Reads index_table_view result (index_table kind (index_view index.now)) }
    {
        match kind {
            ArchiveKind::Gnu => Table::gnu(index.table, index.width),
            ArchiveKind::Bsd => Table::bsd(index.table, index.width),
        }
    }

    // Returns number `k` of the records.
    #[inline(always)]
    fn number(&self, k: usize) -> u64
        requires { number_width self.now.width * k + number_width self.now.width ≤ length self.now.records.now }
        ensures { result ≡ record_number (index_table_view self.now) k }
    {
        number_in(self.records, self.width.bytes() * k, self.width, self.le)
    }

    /// Returns the place of the first symbol's name among the names.
    #[tactic(auto, unfolding(crate::specs::IndexSymbols::gnu_name_place))]
    #[inline(always)]
    pub(crate) fn name_place(&self) -> usize
        requires { 0 < self.now.count }
        ensures { result ≡ symbol_name_place self.now.kind (index_table_view self.now) 0 }
    {
        match self.kind {
            ArchiveKind::Gnu => 0,
            ArchiveKind::Bsd => self.number(0) as usize,
        }
    }

    /// Returns the place of the header of the first symbol's member.
    #[inline(always)]
    pub(crate) fn member(&self) -> u64
        requires { 0 < self.now.count }
        ensures { result ≡ symbol_member self.now.kind (index_table_view self.now) 0 }
    {
        match self.kind {
            ArchiveKind::Gnu => self.number(0),
            ArchiveKind::Bsd => self.number(1),
        }
    }

    /// Returns this table with no symbols.
    pub(crate) fn none(self) -> Table<'a>
        ensures { result.count ≡ 0 }
    {
        Table {
            kind: self.kind,
            le: self.le,
            width: self.width,
            count: 0,
            records: self.records,
            names: self.names,
        }
    }

    // Reads GNU's form: a count, as many places of headers, and the names up to the end.
    fn gnu(table: Placed<'a>, width: Width) -> Result<Table<'a>>
        ensures { Reads index_table_view result (gnu_table (number_width width) (placed_view table.entry)) }
    {
        let size = width.bytes();
        let count = first_number(table.bytes, width, Endian::Big)? as usize;
        let room = (table.bytes.len() - size) / size;
        if count > room {
            return Err(Error::BufferTooShort(count, "symbols"));
        }
        Ok(Table {
            kind: ArchiveKind::Gnu,
            le: Endian::Big,
            width,
            count,
            records: &table.bytes[size..],
            names: table.after(size + size * count),
        })
    }

    // Reads BSD's form as little-endian, or else as big-endian. If both fail, returns the first error.
    fn bsd(table: Placed<'a>, width: Width) -> Result<Table<'a>>
        ensures { Reads index_table_view result (bsd_table (number_width width) (placed_view table.entry)) }
    {
        match Table::bsd_in(table, width, Endian::Little) {
            Ok(read) => Ok(read),
            Err(fault) => match Table::bsd_in(table, width, Endian::Big) {
                Ok(read) => Ok(read),
                Err(_) => Err(fault),
            },
        }
    }

    // Reads BSD's form in one byte order: the size of the records, the records, the size of the names, and the names.
    fn bsd_in(table: Placed<'a>, width: Width, le: Endian) -> Result<Table<'a>>
        ensures { Reads index_table_view result (bsd_table_in le (number_width width) (placed_view table.entry)) }
    {
        let size = width.bytes();
        let records = first_number(table.bytes, width, le)? as usize;
        if records % (2 * size) != 0 {
            return Err(Error::Malformed("the index ends in a record"));
        }
        let count = records / (2 * size);
        if table.bytes.len() < 2 * size || records > table.bytes.len() - 2 * size {
            return Err(Error::BufferTooShort(count, "symbols"));
        }
        let len = number_in(table.bytes, size + records, width, le) as usize;
        let names = table.after(size + records + size);
        if len > names.bytes.len() {
            return Err(Error::Scroll(ScrollError::TooBig {
                size: len,
                len: names.bytes.len(),
            }));
        }
        Ok(Table {
            kind: ArchiveKind::Bsd,
            le,
            width,
            count,
            records: &table.bytes[size..],
            names: names.cut(&names.bytes[..len]),
        })
    }
}

ghost use Rattle.std.specs.Prelude.{drop, OnOk};
