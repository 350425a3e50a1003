//! The members and the symbols of an archive, and which kind of archive some bytes are.

ghost use Rattle.std.specs.Prelude.{◌≡◌, ◌≢◌, drop, map};
ghost use Rattle.mach_base.specs.Answer.{Reads};
ghost use Rattle.mach_base.specs.Items.{read_as};
ghost use Rattle.mach_archive.specs.ArchiveViews.{archive_symbol_view, archive_symbols_left, member_read, member_view, members_left};
ghost use Rattle.goblin_mach_c.specs.ArchiveItems.{archive_form, archive_members, archive_symbols, form_of_kind, index_symbols_in, index_symbols_left};
ghost use Rattle.goblin_mach_c.specs.ArchiveItems.{members_in, AreNamesThere, AreSymbolNamesThere};
ghost use Rattle.goblin_mach_c.specs.ArchiveRows as rows;
ghost use Rattle.goblin_mach_c.specs.Fill.{Fills};

use crate::errors::{GM_OK, code_of, gm_error, refuse};
use crate::rows::{Rows, fill, fill_one, skip};
use mach_archive::{Archive, ArchiveKind, ArchiveSymbol, ArchiveSymbols, Member, Members};
use mach_base::Result;

/// A member of an archive: the offsets of its header, its bytes and its name, and the numbers of the header, each `GM_NO_NUMBER`
/// if its field is no number.
#[derive(Clone, Copy)]
#[repr(C)]
pub struct gm_archive_member {
    /// Seconds from 1970.
    pub date: u64,
    pub uid: u64,
    pub gid: u64,
    pub mode: u64,
    pub header: usize,
    /// The offset of its bytes, after a long name.
    pub data: usize,
    pub data_len: usize,
    pub name: usize,
    pub name_len: usize,
    /// Why its name can't be read: its place and length are 0 then, but the member's bytes can be read.
    pub name_code: u32,
    /// Why there is no member: everything else is 0 then, and no member follows.
    pub code: u32,
}

/// A symbol of an archive's index: its name, and the offset of a member's header. Whether a header is there isn't checked.
#[derive(Clone, Copy)]
#[repr(C)]
pub struct gm_archive_symbol {
    pub member: u64,
    pub name: usize,
    pub name_len: usize,
    /// Why there is no symbol: everything else is 0 then, and no symbol follows.
    pub code: u32,
    pub reserved: u32,
}

// Returns the offset of a name, its length, and its code.
fn name_numbers(reported: &Result<(usize, usize)>) -> (usize, usize, u32)
    ensures { result ≡ rows.name_numbers (read_as (λ reported. reported) reported.now) }
{
    match reported {
        Ok((place, len)) => (*place, *len, GM_OK),
        Err(why) => (0, 0, code_of(why)),
    }
}

/// Returns a member as C sees it.
pub fn member_row(member: &Member<'_>) -> gm_archive_member
    ensures { result ≡ rows.member_row (member_view member.now) }
{
    let (name, name_len, name_code) = name_numbers(&member.name_at());
    gm_archive_member {
        date: member.date().unwrap_or(u64::MAX),
        uid: member.uid().unwrap_or(u64::MAX),
        gid: member.gid().unwrap_or(u64::MAX),
        mode: member.mode().unwrap_or(u64::MAX),
        header: member.offset,
        data: member.start,
        data_len: member.bytes.len(),
        name,
        name_len,
        name_code,
        code: GM_OK,
    }
}

/// Returns the row for no member: its code says why, or is `GM_OK`.
pub fn no_member(code: u32) -> gm_archive_member
    ensures { result ≡ rows.no_member code }
{
    gm_archive_member {
        date: 0,
        uid: 0,
        gid: 0,
        mode: 0,
        header: 0,
        data: 0,
        data_len: 0,
        name: 0,
        name_len: 0,
        name_code: GM_OK,
        code,
    }
}

// Returns a symbol as C sees it.
fn symbol_row(symbol: &ArchiveSymbol<'_>) -> gm_archive_symbol
    ensures { result ≡ rows.archive_symbol_row (archive_symbol_view symbol.now) }
{
    gm_archive_symbol {
        member: symbol.member,
        name: symbol.name_at,
        name_len: symbol.name.len(),
        code: GM_OK,
        reserved: 0,
    }
}

// Returns the row for no symbol.
fn no_symbol(code: u32) -> gm_archive_symbol
    ensures { result ≡ rows.no_archive_symbol code }
{
    gm_archive_symbol {
        member: 0,
        name: 0,
        name_len: 0,
        code,
        reserved: 0,
    }
}

// The members of an archive that are left.
#[derive(Clone, Copy)]
struct MemberRows<'a> {
    members: Members<'a>,
}

impl Rows for MemberRows<'_> {
    type Row = gm_archive_member;

    ghost left = { λ it. map rows.row_of_member (members_left it.members) };

    fn next(&mut self) -> Option<gm_archive_member> {
        match self.members.next()? {
            Ok(member) => Some(member_row(&member)),
            Err(why) => Some(no_member(code_of(&why))),
        }
    }
}

// The symbols of an archive's index that are left; none without an index.
#[derive(Clone, Copy)]
struct SymbolRows<'a> {
    symbols: Option<ArchiveSymbols<'a>>,
}

impl Rows for SymbolRows<'_> {
    type Row = gm_archive_symbol;

    ghost left = { λ it. map rows.row_of_symbol (index_symbols_left it.symbols) };

    fn next(&mut self) -> Option<gm_archive_symbol> {
        match &mut self.symbols {
            Some(symbols) => match symbols.next()? {
                Ok(symbol) => Some(symbol_row(&symbol)),
                Err(why) => Some(no_symbol(code_of(&why))),
            },
            None => None,
        }
    }
}

// Returns the rows of the members of the archive in these bytes.
fn members_of(bytes: &[u8]) -> Result<MemberRows<'_>>
    ensures { Reads (λ it. members_left it.members) result (members_in bytes.now) }
{
    Ok(MemberRows {
        members: Archive::parse(bytes)?.members(),
    })
}

// Returns the rows of the symbols of the archive in these bytes.
fn symbols_of(bytes: &[u8]) -> Result<SymbolRows<'_>>
    ensures { Reads (λ it. index_symbols_left it.symbols) result (index_symbols_in bytes.now) }
{
    Ok(SymbolRows {
        symbols: Archive::parse(bytes)?.symbols()?,
    })
}

/// Writes the members of an archive from index `first` on, as many as there are and fit, and returns how many. If a header has a
/// fault, the last row says why there are no more. If the bytes are no archive, the only row says why.
#[unsafe(no_mangle)]
pub extern "C" fn gmr_archive_members(
    bytes: &[u8],
    first: usize,
    out: &mut [gm_archive_member],
) -> usize
    ensures rows { Fills (drop first (map rows.row_of_member (archive_members bytes.now))) out.old out.new result }
    ensures names { AreNamesThere bytes.now (archive_members bytes.now) }
{
    match members_of(bytes) {
        Ok(mut rows) => {
            skip(&mut rows, first);
            fill(&mut rows, out)
        }
        Err(why) => fill_one(no_member(code_of(&why)), first, out),
    }
}

/// Writes the symbols of an archive's index from index `first` on, in the order of its table, as many as there are and fit, and
/// returns how many. Without an index there are none. If a name has a fault, the last row says why there are no more. If the
/// index can't be read, the only row says why.
#[unsafe(no_mangle)]
pub extern "C" fn gmr_archive_symbols(
    bytes: &[u8],
    first: usize,
    out: &mut [gm_archive_symbol],
) -> usize
    ensures rows { Fills (drop first (map rows.row_of_symbol (archive_symbols bytes.now))) out.old out.new result }
    ensures names { AreSymbolNamesThere bytes.now (archive_symbols bytes.now) }
{
    match symbols_of(bytes) {
        Ok(mut rows) => {
            skip(&mut rows, first);
            fill(&mut rows, out)
        }
        Err(why) => fill_one(no_symbol(code_of(&why)), first, out),
    }
}

/// Which archive some bytes are.
#[derive(Clone, Copy, Debug, PartialEq)]
enum ArchiveForm {
    /// They don't begin as an archive.
    NoArchive,
    /// Short names end with a slash; long ones are in a list of names.
    Gnu,
    /// Short names end with a space; long ones come after their headers.
    Bsd,
    /// Its members are other files, and aren't read.
    Thin,
}

// Returns the form of a kind of archive.
fn form_of_kind(kind: ArchiveKind) -> ArchiveForm
    ensures { result ≡ form_of_kind kind }
{
    match kind {
        ArchiveKind::Gnu => ArchiveForm::Gnu,
        ArchiveKind::Bsd => ArchiveForm::Bsd,
    }
}

// Returns which archive some bytes are, by their first 8 bytes and the members at the start. It is refused if they begin as an
// archive whose start can't be read.
fn form_of(bytes: &[u8]) -> Result<ArchiveForm>
    ensures { Reads (λ form. form) result (archive_form bytes.now) }
{
    if bytes.starts_with(b"!<thin>\n") {
        return Ok(ArchiveForm::Thin);
    }
    if !bytes.starts_with(b"!<arch>\n") {
        return Ok(ArchiveForm::NoArchive);
    }
    Ok(form_of_kind(Archive::parse(bytes)?.kind()))
}

// Returns the number of a form.
fn number_of(form: ArchiveForm) -> u32
    ensures { result ≡ rows.form_number form }
{
    match form {
        ArchiveForm::NoArchive => 0,
        ArchiveForm::Gnu => 1,
        ArchiveForm::Bsd => 2,
        ArchiveForm::Thin => 3,
    }
}

/// Writes to `kind` which archive some bytes are. It is refused if they begin as an archive whose start can't be read; then
/// `kind` is unchanged.
#[unsafe(no_mangle)]
pub extern "C" fn gmr_archive_kind(bytes: &[u8], kind: &mut u32, error: &mut gm_error) -> u32
    ensures found { result ≡ 0 → rows.IsFormNumber bytes.now kind.new }
    ensures refused { result ≢ 0 → rows.IsCodeOf (archive_form bytes.now) result }
    ensures kept { result ≢ 0 → kind.new ≡ kind.old }
    ensures reported { result ≢ 0 → error.new.code ≡ result }
    ensures quiet { result ≡ 0 → error.new ≡ error.old }
{
    match form_of(bytes) {
        Ok(form) => {
            *kind = number_of(form);
            GM_OK
        }
        Err(why) => refuse(&why, error),
    }
}
