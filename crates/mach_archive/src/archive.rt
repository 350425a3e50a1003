//! An archive: its form, its index, its list of names and its members.

ghost use Rattle.std.specs.Prelude.{◌≡◌, ◌≤◌, ◌<◌, ◌+◌, ◌-◌, ◌^◌, ℕ, List, Ok, Err, Some, None, Option, Result, IfOk, IfSome, length, option_map, unwrap_or};
ghost use Rattle.mach_base.specs.Answer.{Reads};
ghost use Rattle.mach_base.specs.Fault.{Fault};
ghost use Rattle.mach_archive.specs.TableViews.{index_view};
ghost use Rattle.mach_archive.specs.Widths.{number_width};
ghost use Rattle.mach_archive.specs.ArchiveViews.{header_view, names_view, member_view, archive_of, members_left, archive_symbols_left, table_left};
ghost use Rattle.mach_archive.specs.Archives.{archive_in, archive_by, archive_after_magic, archive_by_magic, bsd_archive, bsd_width, gnu_archive};
ghost use Rattle.mach_archive.specs.Archives.{gnu_width, index_name, index_of, after_index, names_at, no_names, archive_kind, archive_member_at};
ghost use Rattle.mach_archive.specs.IndexSymbols.{IndexSymbol, AreIndexSymbols, found_by_name};
ghost use Rattle.mach_archive.specs.IndexTables.{IndexTable, archive_table};
ghost use Rattle.mach_archive.specs.Members.{AreMembers};
ghost use Rattle.mach_archive.specs.PlacedViews.{placed_view};

use crate::field::{trimmed, word};
use crate::header::Header;
use crate::member::Member;
use crate::members::Members;
use crate::placed::Placed;
use crate::symbols::ArchiveSymbols;
use crate::table::{Index, Width};
use mach_base::{ByteCount, Endian, Error, Result, bytes_at};
use std::fmt;

/// The magic of an archive (ARMAG).
const MAGIC: &[u8] = b"!<arch>\n";

/// The magic of a thin archive, whose members are other files.
const THIN_MAGIC: &[u8] = b"!<thin>\n";

/// How the short names of an archive are written.
#[derive(Clone, Copy, Debug, PartialEq)]
pub enum ArchiveKind {
    /// GNU: a short name ends with a slash, and long names are in a list of names.
    Gnu,
    /// BSD: a short name ends with a space, and a long name follows its header.
    Bsd,
}

/// An archive (`ar.h`): members, each of which is a file, and possibly an index of their symbols (`ranlib.h`). It allocates no memory.
#[derive(Clone, Copy)]
pub struct Archive<'a> {
    pub(crate) bytes: &'a [u8],
    pub(crate) index: Option<Index<'a>>,
    // The list of long names in GNU's form; `None` in BSD's.
    pub(crate) names: Option<Placed<'a>>,
    // The place of the first member's header.
    pub(crate) begin: usize,
}

impl<'a> Archive<'a> {
    /// Opens an archive. Reads its magic, and then the index and the list of names, if they are there,
    /// or else the first member's header. Fails with the fault of a header that is read, as `BadMagic`
    /// of the first four bytes if it is no archive, and as `Malformed` if it is a thin archive.
    #[tactic(auto, unfolding(crate::specs::Archives::archive_in))]
    pub fn parse(bytes: &'a [u8]) -> Result<Archive<'a>>
        ensures { Reads archive_of result (archive_in bytes.now) }
    {
        let magic = bytes_at(bytes, 0, 8)?;
        if magic == THIN_MAGIC {
            return Err(Error::Malformed("a thin archive has its members in other files"));
        }
        if magic != MAGIC {
            return Err(Error::BadMagic(u64::from(Endian::Big.u32_at(magic, 0))));
        }
        if bytes.len() == 8 {
            return Ok(Archive {
                bytes,
                index: None,
                names: Some(no_names()),
                begin: 8,
            });
        }
        let first = Header::read(bytes, 8)?;
        let width = bsd_width(index_name(bytes, &first));
        if first.long.is_some() || width.is_some() {
            return Ok(Archive {
                bytes,
                index: index_of(bytes, &first, width),
                names: None,
                begin: after_index(&first, width),
            });
        }
        Archive::gnu(bytes, &first)
    }

    // Builds an archive in GNU's form, by its first header.
    fn gnu(bytes: &'a [u8], first: &Header<'a>) -> Result<Archive<'a>>
        requires room { first.now.place + 60 + first.now.size ≤ length bytes.now }
        requires long { unwrap_or first.now.long 0 ≤ first.now.size }
        ensures { Reads archive_of result (gnu_archive bytes.now (header_view first.now)) }
    {
        let width = gnu_width(word(first.name_field()));
        let (names, begin) = names_at(bytes, after_index(first, width))?;
        Ok(Archive {
            bytes,
            index: index_of(bytes, first, width),
            names: Some(names),
            begin,
        })
    }

    /// Returns how short names are written.
    pub fn kind(&self) -> ArchiveKind
        ensures { result ≡ archive_kind (archive_of self.now).names }
    {
        match self.names {
            Some(_) => ArchiveKind::Gnu,
            None => ArchiveKind::Bsd,
        }
    }

    /// Returns an iterator over the members in order, after the index and the list of names. It ends after the first fault.
    pub fn members(&self) -> Members<'a>
        ensures { let a = archive_of self.now in AreMembers a.bytes a.names a.begin (members_left result) }
    {
        Members::new(self.bytes, self.names, self.begin)
    }

    /// Reads the member whose header is at `place`. The other members do not matter.
    /// Fails as `Malformed` if the place is below 8, or else with the header's fault.
    pub fn member_at(&self, place: usize) -> Result<Member<'a>>
        ensures { Reads member_view result (archive_member_at (archive_of self.now) place) }
    {
        if place < 8 {
            return Err(Error::Malformed("a member begins in the magic"));
        }
        let header = Header::read(self.bytes, place)?;
        Ok(Member::of(self.bytes, self.names, &header))
    }

    /// Returns an iterator over the symbols of the index, if there is one. Fails with a fault of the table itself; a
    /// fault of a name is reported at its symbol. Whether a symbol's member exists is not tested: `member_at` does that.
    pub fn symbols(&self) -> Result<Option<ArchiveSymbols<'a>>>
        ensures table { Reads (λ symbols. option_map table_left symbols) result (archive_table (archive_of self.now)) }
        ensures items { IfOk result (λ symbols. IfSome symbols (λ it. AreIndexSymbols (table_left it) 0 (archive_symbols_left it))) }
    {
        match &self.index {
            Some(index) => Ok(Some(ArchiveSymbols::new(self.kind(), index)?)),
            None => Ok(None),
        }
    }

    /// Finds the member that defines `name`: the member of the first symbol of that name in the index, if there is one.
    /// An error before that symbol is returned; later symbols are not read. Also fails with the error of `member_at`.
    pub fn find_symbol(&self, name: &str) -> Result<Option<Member<'a>>>
        ensures found { (t : IndexTable) (items : List (Result IndexSymbol Fault)) → archive_table (archive_of self.now) ≡ Ok (Some t)
            → AreIndexSymbols t 0 items
            → Reads (option_map member_view) result (found_by_name (archive_of self.now) name.now items) }
        ensures without { archive_table (archive_of self.now) ≡ Ok None → Reads (option_map member_view) result (Ok None) }
        ensures refused { (f : Fault) → archive_table (archive_of self.now) ≡ Err f → Reads (option_map member_view) result (Err f) }
    {
        match self.symbols() {
            Ok(Some(symbols)) => self.find_among(symbols, name),
            Ok(None) => Ok(None),
            Err(e) => Err(e),
        }
    }

    // Finds the member of the first of some symbols with this name.
    fn find_among(&self, symbols: ArchiveSymbols<'a>, name: &str) -> Result<Option<Member<'a>>>
        ensures { Reads (option_map member_view) result (found_by_name (archive_of self.now) name.now (archive_symbols_left symbols.entry)) }
    {
        match symbols.find(name.as_bytes())? {
            Some(symbol) => Ok(Some(self.member_at(symbol.member as usize)?)),
            None => Ok(None),
        }
    }
}

impl fmt::Debug for Archive<'_> {
    /// Prints its form and where members begin, with the number of bytes instead of the bytes.
    fn fmt<W: fmt::Write>(&self, f: &mut fmt::Formatter<W>) -> fmt::Result {
        f.debug_struct("Archive")
            .field("bytes", &ByteCount(self.bytes))
            .field("kind", &self.kind())
            .field("begin", &self.begin)
            .finish()
    }
}

// Returns the long name without the zeros at its end, or else the name field without its trailing spaces.
fn index_name<'a>(bytes: &'a [u8], header: &Header<'a>) -> &'a [u8]
    requires room { header.now.place + 60 + header.now.size ≤ length bytes.now }
    requires long { unwrap_or header.now.long 0 ≤ header.now.size }
    ensures { result.now ≡ index_name bytes.now (header_view header.now) }
{
    match header.long_name(bytes) {
        Some(long) => trimmed(long.bytes, 0),
        None => trimmed(header.name_field(), b' '),
    }
}

// Returns the width of the numbers in an index with this name, in BSD's form. `None` if the name is none of an index.
fn bsd_width(name: &[u8]) -> Option<Width>
    ensures { option_map number_width result ≡ bsd_width name.now }
{
    if name == b"__.SYMDEF".as_slice() || name == b"__.SYMDEF SORTED".as_slice() {
        Some(Width::Four)
    } else if name == b"__.SYMDEF_64".as_slice() || name == b"__.SYMDEF_64 SORTED".as_slice() {
        Some(Width::Eight)
    } else {
        None
    }
}

// Returns the width of the numbers in an index with this name, in GNU's form. `None` if the name is none of an index.
fn gnu_width(word: &[u8]) -> Option<Width>
    ensures { option_map number_width result ≡ gnu_width word.now }
{
    if word == b"/".as_slice() {
        Some(Width::Four)
    } else if word == b"/SYM64/".as_slice() {
        Some(Width::Eight)
    } else {
        None
    }
}

// Returns the index, if the member is one: then its numbers have a width.
fn index_of<'a>(bytes: &'a [u8], header: &Header<'a>, width: Option<Width>) -> Option<Index<'a>>
    requires room { header.now.place + 60 + header.now.size ≤ length bytes.now }
    requires long { unwrap_or header.now.long 0 ≤ header.now.size }
    ensures { option_map index_view result ≡ index_of bytes.now (header_view header.now) (option_map number_width width) }
{
    match width {
        Some(width) => Some(Index {
            width,
            table: header.body(bytes),
        }),
        None => None,
    }
}

// Returns the place after the member if it is an index, or else the member's place.
fn after_index(header: &Header<'_>, width: Option<Width>) -> usize
    requires { header.now.place + 60 + header.now.size < 2 ^ 64 - 1 }
    ensures { result ≡ after_index (header_view header.now) (option_map number_width width) }
{
    match width {
        Some(_) => header.next(),
        None => header.place,
    }
}

// Returns an empty list of names.
fn no_names<'a>() -> Placed<'a>
    ensures { placed_view result ≡ no_names }
{
    Placed { at: 0, bytes: &[] }
}

// Reads the list of names at a place, and returns it with the place after it. If none is there, returns an empty list and the same place.
fn names_at(bytes: &[u8], from: usize) -> Result<(Placed<'_>, usize)>
    ensures { Reads (λ found. (placed_view found.0, found.1)) result (names_at bytes.now from) }
{
    if from >= bytes.len() {
        return Ok((no_names(), from));
    }
    let header = Header::read(bytes, from)?;
    if word(header.name_field()) == b"//".as_slice() {
        Ok((header.body(bytes), header.next()))
    } else {
        Ok((no_names(), header.place))
    }
}
