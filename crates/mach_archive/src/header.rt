//! The header of a member (`ar.h`, struct ar_hdr).

ghost use Rattle.std.specs.Prelude.{◌≡◌, ◌≤◌, ◌<◌, ◌+◌, ◌^◌, ◌∷◌, [], Ok, Err, IsOk, OnOk, IfErr, IfOk, IfSome, length, slice_range, option_map};
ghost use Rattle.std.specs.Prelude.{unwrap_or, ◌-◌};
ghost use Rattle.std.specs.Str.{bytes_eq};
ghost use Rattle.mach_base.specs.Answer.{Reads};
ghost use Rattle.mach_base.specs.Number.{slice_at};
ghost use Rattle.mach_base.specs.Sums.{found_or_malformed};
ghost use Rattle.mach_archive.specs.ArchiveViews.{header_view};
ghost use Rattle.mach_archive.specs.Fields.{field_number};
ghost use Rattle.mach_base.specs.Fault.{fault_of};
ghost use Rattle.mach_archive.specs.MemberHeaders.{member_header_at, header_by_fields, header_by_size, room_following, next_header, long_name_len};
ghost use Rattle.mach_archive.specs.MemberHeaders.{name_field, size_field, has_long_name};
ghost use Rattle.mach_archive.specs.Members.{body_place, long_name_of, placed_body};
ghost use Rattle.mach_archive.specs.PlacedViews.{placed_view};

use crate::field::{number_in, number_of, word};
use crate::placed::Placed;
use mach_base::{Error, Result, bytes_at};

/// The size of a header in bytes.
pub(crate) const SIZE: usize = 60;

/// The two bytes that end every header (ARFMAG).
const END: &[u8] = b"`\n";

/// A header that was read at its place.
#[derive(Clone, Copy)]
pub(crate) struct Header<'a> {
    pub(crate) place: usize,
    pub(crate) fields: &'a [u8; SIZE],
    /// How many bytes follow the header, including the long name.
    pub(crate) size: usize,
    /// How many of these are the long name, if there is one.
    pub(crate) long: Option<usize>,
}

impl<'a> Header<'a> {
    /// Reads the header at `place`.
    #[tactic(auto, unfolding(crate::specs::MemberHeaders::member_header_at))]
    pub(crate) fn read(bytes: &'a [u8], place: usize) -> Result<Header<'a>>
        ensures header { Reads header_view result (member_header_at bytes.now place) }
        ensures room { IfOk result (λ h. h.place + 60 + h.size ≤ length bytes.now) }
        ensures long { IfOk result (λ h. unwrap_or h.long 0 ≤ h.size) }
    {
        let fields = fields_at(bytes, place)?;
        Header::of_fields(bytes, place, fields)
    }

    // Decodes the header from its bytes.
    fn of_fields(bytes: &'a [u8], place: usize, fields: &'a [u8; SIZE]) -> Result<Header<'a>>
        requires { place + 60 ≤ length bytes.now }
        ensures header { Reads header_view result (header_by_fields bytes.now place fields.now) }
        ensures room { IfOk result (λ h. h.place + 60 + h.size ≤ length bytes.now) }
        ensures long { IfOk result (λ h. unwrap_or h.long 0 ≤ h.size) }
    {
        if &fields[58..60] != END {
            return Err(Error::Malformed("a member's header does not end with its two bytes"));
        }
        let size = size_of(fields)?;
        Header::of_size(bytes, place, fields, size)
    }

    // Decodes the rest of the header, after its size.
    fn of_size(
        bytes: &'a [u8],
        place: usize,
        fields: &'a [u8; SIZE],
        size: usize,
    ) -> Result<Header<'a>>
        requires { place + 60 ≤ length bytes.now }
        ensures header { Reads header_view result (header_by_size bytes.now place fields.now size) }
        ensures room { IfOk result (λ h. h.place + 60 + h.size ≤ length bytes.now) }
        ensures long { IfOk result (λ h. unwrap_or h.long 0 ≤ h.size) }
    {
        test_room(bytes, place, size)?;
        let long = long_len(fields, size)?;
        Ok(Header {
            place,
            fields,
            size,
            long,
        })
    }

    /// Returns the place of the next header.
    pub(crate) fn next(&self) -> usize
        requires { self.now.place + 60 + self.now.size < 2 ^ 64 - 1 }
        ensures { result ≡ next_header (header_view self.now) }
    {
        self.place + SIZE + self.size + self.size % 2
    }

    /// Returns the name field.
    pub(crate) fn name_field(&self) -> &'a [u8]
        ensures field { result.now ≡ name_field self.now.fields.now }
        ensures len { length result.now ≡ 16 }
    {
        let fields = self.fields;
        &fields[..16]
    }

    /// Returns the long name, if there is one.
    pub(crate) fn long_name(&self, bytes: &'a [u8]) -> Option<Placed<'a>>
        requires room { self.now.place + 60 + self.now.size ≤ length bytes.now }
        requires long { unwrap_or self.now.long 0 ≤ self.now.size }
        ensures { option_map placed_view result ≡ long_name_of bytes.now (header_view self.now) }
    {
        let start = self.place + SIZE;
        match self.long {
            Some(len) => Some(Placed {
                at: start,
                bytes: &bytes[start..start + len],
            }),
            None => None,
        }
    }

    /// Returns the place of the member's bytes.
    pub(crate) fn start(&self) -> usize
        requires { self.now.place + 60 + unwrap_or self.now.long 0 < 2 ^ 64 }
        ensures { result ≡ body_place (header_view self.now) }
    {
        self.place + SIZE + self.long.unwrap_or(0)
    }

    /// Returns the member's bytes.
    pub(crate) fn body(&self, bytes: &'a [u8]) -> Placed<'a>
        requires room { self.now.place + 60 + self.now.size ≤ length bytes.now }
        requires long { unwrap_or self.now.long 0 ≤ self.now.size }
        ensures { placed_view result ≡ placed_body bytes.now (header_view self.now) }
    {
        let start = self.start();
        let len = self.size - self.long.unwrap_or(0);
        Placed {
            at: start,
            bytes: &bytes[start..start + len],
        }
    }
}

// Reads the bytes of a header.
fn fields_at(bytes: &[u8], place: usize) -> Result<&[u8; SIZE]>
    ensures fields { Reads (λ fields. fields.now) result (slice_at 60 bytes.now place) }
    ensures room { OnOk result (place + 60 ≤ length bytes.now) }
{
    let fields = bytes_at(bytes, place, SIZE)?;
    match fields.try_into() {
        Ok(fields) => Ok(fields),
        Err(_) => unreachable!(),
    }
}

// Tests whether `size` bytes follow a header. A size of 0 is always accepted.
fn test_room(bytes: &[u8], place: usize, size: usize) -> Result<()>
    requires { place + 60 ≤ length bytes.now }
    ensures room { IfErr result (λ e. room_following bytes.now place size ≡ Err (fault_of e)) }
    ensures there { OnOk result (IsOk (room_following bytes.now place size)) }
    ensures inside { OnOk result (place + 60 + size ≤ length bytes.now) }
{
    if size != 0 {
        bytes_at(bytes, place + SIZE, size)?;
    }
    Ok(())
}

// Decodes the size field of a header.
fn size_of(fields: &[u8; SIZE]) -> Result<usize>
    ensures size { Reads (λ n. n) result (found_or_malformed (field_number 10 (size_field fields.now))) }
    ensures small { IfOk result (λ n. n < 10 ^ 16) }
{
    match number_in(&fields[48..58], 10) {
        Some(size) => Ok(size as usize),
        None => Err(Error::Malformed("a member's size is not a number")),
    }
}

// Decodes the length of the long name, if there is one.
fn long_len(fields: &[u8; SIZE], size: usize) -> Result<Option<usize>>
    ensures len { Reads (λ long. long) result (long_name_len fields.now size) }
    ensures inside { IfOk result (λ long. unwrap_or long 0 ≤ size) }
{
    if !fields.starts_with(b"#1/") {
        return Ok(None);
    }
    match number_of(word(&fields[3..16]), 10) {
        Some(len) if len as usize <= size => Ok(Some(len as usize)),
        _ => Err(Error::Malformed(
            "the length of a long name is no number, or is past its member's size",
        )),
    }
}
