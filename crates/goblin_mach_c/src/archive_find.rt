//! One member of an archive: the one that defines a symbol, or the first of a name.

ghost use Rattle.std.specs.Prelude.{◌≡◌, ◌≢◌, Ok, Some, option_map};
ghost use Rattle.std.specs.Str.{IsUtf8};
ghost use Rattle.mach_base.specs.Answer.{Reads};
ghost use Rattle.mach_archive.specs.ArchiveViews.{archive_of, member_view, members_left};
ghost use Rattle.mach_archive.specs.MemberNames.{member_name_bytes, NameIsThere};
ghost use Rattle.mach_archive.specs.Members.{MemberView};
ghost use Rattle.goblin_mach.specs.Items.{members_within};
ghost use Rattle.goblin_mach_c.specs.ArchiveFinds.{first_of_name, found_by_symbol, has_name, member_by_name, member_by_symbol};
ghost use Rattle.goblin_mach_c.specs.ArchiveRows as rows;
ghost use Rattle.goblin_mach_c.specs.ArchiveRows.{FindsMember, IsCodeOf};

use crate::archive::{gm_archive_member, member_row, no_member};
use crate::errors::{GM_OK, gm_error, refuse};
use mach_archive::{Archive, Member, Members};
use mach_base::{Error, Result};

// Returns the member that defines a symbol, by the index of an archive.
fn found_by_symbol<'a>(archive: &Archive<'a>, name: &str) -> Result<Option<Member<'a>>>
    ensures { Reads (option_map member_view) result (found_by_symbol (archive_of archive.now) name.now) }
{
    archive.find_symbol(name)
}

// Returns the member that defines a symbol, by the index of the archive in these bytes.
fn member_of_symbol<'a>(bytes: &'a [u8], name: &str) -> Result<Option<Member<'a>>>
    ensures { Reads (option_map member_view) result (member_by_symbol bytes.now name.now) }
{
    let archive = Archive::parse(bytes)?;
    found_by_symbol(&archive, name)
}

// Whether a member has this name. A member whose name can't be read doesn't.
fn has_name(member: &Member<'_>, name: &[u8]) -> bool
    ensures { result ≡ has_name name.now (member_name_bytes (member_view member.now)) }
{
    match member.name_bytes() {
        Ok(own) => own == name,
        Err(_) => false,
    }
}

// Returns the first of some members with a name, or the fault before it.
fn first_of_name<'a>(mut members: Members<'a>, name: &[u8]) -> Result<Option<Member<'a>>>
    ensures { Reads (option_map member_view) result (first_of_name name.now (members_left members.entry)) }
{
    'members: loop {
        match members.next() {
            None => return Ok(None),
            Some(Ok(member)) => {
                if has_name(&member, name) {
                    return Ok(Some(member));
                }
            }
            Some(Err(why)) => return Err(why),
        }
    }
}

// Returns the first member of an archive with a name, or the fault before it.
fn first_of<'a>(archive: &Archive<'a>, name: &[u8]) -> Result<Option<Member<'a>>>
    ensures { Reads (option_map member_view) result (first_of_name name.now (members_within (archive_of archive.now))) }
{
    first_of_name(archive.members(), name)
}

// Returns the first member of the archive in these bytes with a name. If a header before it has a fault, that is the error.
fn member_named<'a>(bytes: &'a [u8], name: &[u8]) -> Result<Option<Member<'a>>>
    ensures { Reads (option_map member_view) result (member_by_name bytes.now name.now) }
{
    let archive = Archive::parse(bytes)?;
    first_of(&archive, name)
}

// Returns the row of a member that was looked up, if it was found.
fn found_row(found: &Option<Member<'_>>) -> gm_archive_member
    ensures { result ≡ rows.found_row (option_map member_view found.now) }
{
    match found {
        Some(member) => member_row(member),
        None => no_member(GM_OK),
    }
}

/// Writes the member that defines a symbol to `member`, by the index of an archive. If the index has no symbol of this name,
/// `header` is 0. It is refused if the archive, its index, a name before that symbol's or the member's header can't be read, and
/// as malformed if the name isn't UTF-8. A refused call leaves `member` unchanged.
#[unsafe(no_mangle)]
pub extern "C" fn gmr_archive_find(
    bytes: &[u8],
    symbol: &[u8],
    member: &mut gm_archive_member,
    error: &mut gm_error,
) -> u32
    ensures found { result ≡ 0 → FindsMember (member_by_symbol bytes.now symbol.now) member.new }
    ensures name { (m : MemberView) → member_by_symbol bytes.now symbol.now ≡ Ok (Some m) → NameIsThere bytes.now m }
    ensures refused { result ≢ 0 → IsUtf8 symbol.now → IsCodeOf (member_by_symbol bytes.now symbol.now) result }
    ensures no_text { (IsUtf8 symbol.now → ⊥) → result ≡ 1 }
    ensures kept { result ≢ 0 → member.new ≡ member.old }
    ensures reported { result ≢ 0 → error.new.code ≡ result }
    ensures quiet { result ≡ 0 → error.new ≡ error.old }
{
    let Ok(symbol) = str::from_utf8(symbol) else {
        return refuse(&Error::Malformed("a symbol's name is not UTF-8"), error);
    };
    match member_of_symbol(bytes, symbol) {
        Ok(found) => {
            *member = found_row(&found);
            GM_OK
        }
        Err(why) => refuse(&why, error),
    }
}

/// Writes the first member of a name to `member`. If no member has the name, `header` is 0. It is refused if the archive or a
/// header before that member's can't be read. A refused call leaves `member` unchanged.
#[unsafe(no_mangle)]
pub extern "C" fn gmr_archive_member_named(
    bytes: &[u8],
    name: &[u8],
    member: &mut gm_archive_member,
    error: &mut gm_error,
) -> u32
    ensures found { result ≡ 0 → FindsMember (member_by_name bytes.now name.now) member.new }
    ensures name { (m : MemberView) → member_by_name bytes.now name.now ≡ Ok (Some m) → NameIsThere bytes.now m }
    ensures refused { result ≢ 0 → IsCodeOf (member_by_name bytes.now name.now) result }
    ensures kept { result ≢ 0 → member.new ≡ member.old }
    ensures reported { result ≢ 0 → error.new.code ≡ result }
    ensures quiet { result ≡ 0 → error.new ≡ error.old }
{
    match member_named(bytes, name) {
        Ok(found) => {
            *member = found_row(&found);
            GM_OK
        }
        Err(why) => refuse(&why, error),
    }
}
