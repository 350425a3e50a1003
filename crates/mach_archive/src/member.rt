//! A member of an archive, and its name.

ghost use Rattle.std.specs.Prelude.{◌≡◌, ◌≤◌, ◌<◌, ◌+◌, ◌^◌, IfOk, unwrap_or, length};
ghost use Rattle.mach_base.specs.Answer.{Reads};
ghost use Rattle.mach_archive.specs.Fields.{field_number};
ghost use Rattle.mach_archive.specs.MemberHeaders.{name_field, date_field, uid_field, gid_field, mode_field};
ghost use Rattle.mach_archive.specs.MemberNames.{gnu_name, gnu_place, line_at, before_slash, name_by, member_name};
ghost use Rattle.mach_archive.specs.MemberNames.{member_name_at, member_name_bytes, member_name_place};
ghost use Rattle.mach_archive.specs.Members.{member_of};

use crate::field::{number_in, number_of, trimmed, up_to, word};
use crate::header::{Header, SIZE};
use crate::placed::Placed;
use mach_base::{ByteCount, Error, Result, ScrollError};
use std::fmt;

/// A member of an archive, which is a file.
#[derive(Clone, Copy)]
pub struct Member<'a> {
    /// The place of its header in the archive.
    pub offset: usize,
    /// The place of its bytes, after the header and a long name.
    pub start: usize,
    /// Its bytes, without a long name.
    pub bytes: &'a [u8],
    // The header, the long name if there is one, and the archive's list of names if that has GNU's form.
    fields: &'a [u8; SIZE],
    long: Option<Placed<'a>>,
    names: Option<Placed<'a>>,
    ghost room: { offset + 60 < 2 ^ 64 },
}

impl<'a> Member<'a> {
    ghost use Rattle.mach_archive.specs.ArchiveViews.{header_view, member_view, names_view};

    /// Builds the member of a header that was read from these bytes.
    pub(crate) fn of(bytes: &'a [u8], names: Option<Placed<'a>>, header: &Header<'a>) -> Member<'a>
        requires room { header.now.place + 60 + header.now.size ≤ length bytes.now }
        requires long { unwrap_or header.now.long 0 ≤ header.now.size }
        ensures { member_view result ≡ member_of bytes.now (names_view names.entry) (header_view header.now) }
    {
        Member {
            offset: header.place,
            start: header.start(),
            bytes: header.body(bytes).bytes,
            fields: header.fields,
            long: header.long_name(bytes),
            names,
        }
    }

    /// Returns its name. Fails as `Malformed` if a header in GNU's form refers
    /// to a long name that is not there. The member's bytes can still be read.
    pub fn name_bytes(&self) -> Result<&'a [u8]>
        ensures { Reads (λ name. name.now) result (member_name_bytes (member_view self.now)) }
    {
        Ok(self.placed_name()?.bytes)
    }

    /// Returns where its name is in the archive: the place of the name, and how many bytes that has. Fails like `name_bytes`.
    pub fn name_at(&self) -> Result<(usize, usize)>
        ensures { Reads (λ at. at) result (member_name_at (member_view self.now)) }
    {
        let name = self.placed_name()?;
        Ok((name.at, name.bytes.len()))
    }

    // Returns its name with the place of this.
    fn placed_name(&self) -> Result<Placed<'a>>
        ensures name { Reads (λ name. name.bytes.now) result (member_name_bytes (member_view self.now)) }
        ensures place { IfOk result (λ name. name.at ≡ member_name_place (member_view self.now)) }
    {
        let fields = self.fields;
        let field = Placed {
            at: self.offset,
            bytes: &fields[..16],
        };
        match (self.long, self.names) {
            (Some(long), _) => Ok(long.cut(trimmed(long.bytes, 0))),
            (None, None) => Ok(field.cut(word(field.bytes))),
            (None, Some(names)) => gnu_name(names, field),
        }
    }

    /// Returns its name as a text. Fails like `name_bytes`, or as `BadInput` of the name's length if the name is not UTF-8.
    pub fn name(&self) -> Result<&'a str>
        ensures { Reads (λ name. name.now) result (member_name (member_view self.now)) }
    {
        let name = self.name_bytes()?;
        match str::from_utf8(name) {
            Ok(text) => Ok(text),
            Err(_) => Err(Error::Scroll(ScrollError::BadInput {
                size: name.len(),
                msg: "a member's name is not UTF-8",
            })),
        }
    }

    /// Returns when the file was changed, in seconds since 1970, if the field is a number.
    pub fn date(&self) -> Option<u64>
        ensures { result ≡ field_number 10 (date_field (member_view self.now).fields) }
    {
        let fields = self.fields;
        number_in(&fields[16..28], 10)
    }

    /// Returns the user id of the file's owner, if the field is a number.
    pub fn uid(&self) -> Option<u64>
        ensures { result ≡ field_number 10 (uid_field (member_view self.now).fields) }
    {
        let fields = self.fields;
        number_in(&fields[28..34], 10)
    }

    /// Returns the id of the file's group, if the field is a number.
    pub fn gid(&self) -> Option<u64>
        ensures { result ≡ field_number 10 (gid_field (member_view self.now).fields) }
    {
        let fields = self.fields;
        number_in(&fields[34..40], 10)
    }

    /// Returns the file's type and permissions, if the field is an octal number.
    pub fn mode(&self) -> Option<u64>
        ensures { result ≡ field_number 8 (mode_field (member_view self.now).fields) }
    {
        let fields = self.fields;
        number_in(&fields[40..48], 8)
    }
}

impl fmt::Debug for Member<'_> {
    /// Prints its places, with the number of bytes instead of the bytes.
    fn fmt<W: fmt::Write>(&self, f: &mut fmt::Formatter<W>) -> fmt::Result {
        f.debug_struct("Member")
            .field("offset", &self.offset)
            .field("start", &self.start)
            .field("bytes", &ByteCount(self.bytes))
            .finish()
    }
}

// Decodes a name field in GNU's form, of at most 16 bytes.
fn gnu_name<'a>(names: Placed<'a>, field: Placed<'a>) -> Result<Placed<'a>>
    requires { length field.bytes.now ≤ 16 }
    ensures name { Reads (λ name. name.bytes.now) result (gnu_name names.entry.bytes.now field.entry.bytes.now) }
    ensures place { IfOk result (λ name. name.at ≡ gnu_place names.entry.at field.entry.at field.entry.bytes.now) }
{
    let word = word(field.bytes);
    if word == b"/".as_slice() || word == b"//".as_slice() {
        return Ok(field.cut(word));
    }
    if !field.bytes.starts_with(b"/") {
        return Ok(field.cut(trimmed(up_to(field.bytes, b'/'), b' ')));
    }
    let Some(place) = number_of(digits_of(word), 10) else {
        return Err(Error::Malformed("the place of a long name is not a number"));
    };
    before_slash(line_at(names, place as usize)?)
}

// Returns a word without its first byte.
fn digits_of(word: &[u8]) -> &[u8]
    ensures digits { result.now ≡ drop 1 word.now }
    ensures within { length result.now ≤ length word.now }
{
    match word {
        [_, digits @ ..] => digits,
        [] => word,
    }
}

// Returns the line at a place of the list of names.
fn line_at<'a>(names: Placed<'a>, place: usize) -> Result<Placed<'a>>
    ensures line { Reads (λ line. line.bytes.now) result (line_at names.entry.bytes.now place) }
    ensures place { IfOk result (λ line. line.at ≡ names.entry.at + place) }
{
    if place < names.bytes.len() {
        let rest = names.after(place);
        let line = up_to(rest.bytes, b'\n');
        if line.len() < rest.bytes.len() {
            return Ok(rest.cut(line));
        }
    }
    Err(Error::Malformed("a long name has no whole line in the list of names"))
}

// Returns a line without the slash that must end it.
fn before_slash<'a>(line: Placed<'a>) -> Result<Placed<'a>>
    ensures name { Reads (λ name. name.bytes.now) result (before_slash line.entry.bytes.now) }
    ensures place { IfOk result (λ name. name.at ≡ line.entry.at) }
{
    match line.bytes.strip_suffix(b"/") {
        Some(name) => Ok(line.cut(name)),
        None => Err(Error::Malformed("a long name does not end with a slash")),
    }
}

ghost use Rattle.std.specs.Prelude.{drop};
