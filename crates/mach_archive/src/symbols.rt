//! The symbols of an index, one at a time.

ghost use Rattle.std.specs.Prelude.{◌≡◌, ◌<◌, ◌+◌, ◌-◌, Ok, Err, IfOk, OnOk, IfErr, option_map, length};
ghost use Rattle.mach_base.specs.Answer.{Reads};
ghost use Rattle.mach_archive.specs.ArchiveViews.{archive_symbol_read, archive_symbol_view, archive_symbols_left, table_left};
ghost use Rattle.mach_archive.specs.IndexSymbols.{AreIndexSymbols, ended_text, first_named, index_symbol_at, after_symbol, symbol_name_place, symbol_member};
ghost use Rattle.mach_archive.specs.IndexTables.{index_table};
ghost use Rattle.mach_archive.specs.TableViews.{index_table_view, index_view};
ghost use Rattle.mach_archive.specs.Widths.{number_width};

use crate::archive::ArchiveKind;
use crate::field::up_to;
use crate::table::{Index, Table};
use mach_base::{ByteCount, Error, Result};
use std::fmt;

/// A symbol of an index, and the member that defines it.
#[derive(Clone, Copy, Debug)]
pub struct ArchiveSymbol<'a> {
    /// The symbol's name.
    pub name: &'a [u8],
    /// The place of its name in the archive.
    pub name_at: usize,
    /// The place of the member's header. Whether there is one is not tested.
    pub member: u64,
}

/// An iterator over the symbols of an index, in the table's order. It ends at the
/// first symbol with a faulty name, after that error. It allocates no memory.
#[derive(Clone, Copy)]
pub struct ArchiveSymbols<'a> {
    // The remaining part of the table.
    pub(crate) table: Table<'a>,
}

// Returns the text from a place on. A zero byte must end it.
#[inline(always)]
fn ended_text(names: &[u8], place: usize) -> Result<&[u8]>
    ensures text { Reads (λ text. text.now) result (ended_text names.now place) }
    ensures within { IfOk result (λ text. place + length text.now < length names.now) }
{
    if place < names.len() {
        let rest = &names[place..];
        let text = up_to(rest, 0);
        if text.len() < rest.len() {
            return Ok(text);
        }
    }
    Err(Error::Malformed("a symbol's name does not end with a zero"))
}

// Reads the first symbol of a table.
#[tactic(auto, unfolding(crate::specs::IndexSymbols::index_symbol_at))]
#[inline(always)]
fn first<'a>(table: &Table<'a>) -> Result<ArchiveSymbol<'a>>
    requires { 0 < table.now.count }
    ensures symbol { archive_symbol_read result ≡ index_symbol_at (index_table_view table.now) 0 }
    ensures within { IfOk result (λ s. table.now.kind ≡ Gnu → length s.name.now < length table.now.names.bytes.now) }
{
    let place = table.name_place();
    let name = ended_text(table.names.bytes, place)?;
    Ok(ArchiveSymbol {
        name,
        name_at: table.names.at + place,
        member: table.member(),
    })
}

// Returns the remaining part of a table after its first symbol.
#[inline(always)]
fn following<'a>(table: &Table<'a>, name: &[u8]) -> Table<'a>
    requires some { 0 < table.now.count }
    requires within { table.now.kind ≡ Gnu → length name.now < length table.now.names.bytes.now }
    ensures { index_table_view result ≡ after_symbol (index_table_view table.now) name.now }
{
    let size = table.width.bytes();
    let (records, names) = match table.kind {
        ArchiveKind::Gnu => (&table.records[size..], table.names.after(name.len() + 1)),
        ArchiveKind::Bsd => (&table.records[2 * size..], table.names),
    };
    Table {
        kind: table.kind,
        le: table.le,
        width: table.width,
        count: table.count - 1,
        records,
        names,
    }
}

impl<'a> ArchiveSymbols<'a> {
    /// Builds an iterator over the symbols of an index in the archive's form.
    pub(crate) fn new(kind: ArchiveKind, index: &Index<'a>) -> Result<ArchiveSymbols<'a>>
        ensures table { Reads table_left result (index_table kind (index_view index.now)) }
        ensures items { IfOk result (λ it. AreIndexSymbols (table_left it) 0 (archive_symbols_left it)) }
    {
        Ok(ArchiveSymbols {
            table: Table::read(kind, index)?,
        })
    }

    /// Finds the first symbol of a name. Fails with a fault that comes before it.
    pub(crate) fn find(mut self, name: &[u8]) -> Result<Option<ArchiveSymbol<'a>>>
        ensures { Reads (option_map archive_symbol_view) result (first_named name.now (archive_symbols_left self.entry)) }
    {
        'symbols: loop {
            match self.next() {
                None => return Ok(None),
                Some(Ok(symbol)) => {
                    if symbol.name == name {
                        return Ok(Some(symbol));
                    }
                }
                Some(Err(e)) => return Err(e),
            }
        }
    }
}

impl<'a> Iterator for ArchiveSymbols<'a> {
    type Item = Result<ArchiveSymbol<'a>>;

    ghost use Rattle.std.specs.Iterator.{YieldsFirstBy, item_count};

    ghost next_gives = { YieldsFirstBy archive_symbol_read archive_symbols_left };

    ghost remaining = { item_count archive_symbols_left };

    #[inline(always)]
    fn next(&mut self) -> Option<Result<ArchiveSymbol<'a>>> {
        if self.table.count == 0 {
            return None;
        }
        match first(&self.table) {
            Ok(symbol) => {
                self.table = following(&self.table, symbol.name);
                Some(Ok(symbol))
            }
            Err(e) => {
                self.table = self.table.none();
                Some(Err(e))
            }
        }
    }
}

impl fmt::Debug for ArchiveSymbols<'_> {
    /// Prints how many symbols are left, with the number of bytes instead of the names.
    fn fmt<W: fmt::Write>(&self, f: &mut fmt::Formatter<W>) -> fmt::Result {
        f.debug_struct("ArchiveSymbols")
            .field("kind", &self.table.kind)
            .field("left", &self.table.count)
            .field("names", &ByteCount(self.table.names.bytes))
            .finish()
    }
}

ghost use Rattle.mach_archive.specs.declared.archive.ArchiveKind.TheVariants.{Gnu};
