//! The strings of a section.

ghost use Rattle.std.specs.Prelude.{◌≡◌, ◌≤◌, length};
ghost use Rattle.std.specs.List.{position_or_len};
ghost use Rattle.mach_base.specs.Text.{is_zero};
ghost use Rattle.goblin_mach.specs.Strings.{strings_from, string_read, strings_left};

use mach_base::rest_at;
use memchr::memchr;

/// A string of a section.
#[derive(Clone, Copy, Debug, PartialEq)]
pub struct SectionString<'a> {
    /// Its place, counted from the section's first byte.
    pub place: usize,
    /// Its bytes, without the zero that ends it.
    pub bytes: &'a [u8],
}

/// An iterator over the strings of a section, in order. A zero byte ends each, and the last may lack it. It allocates nothing.
#[derive(Clone, Copy)]
pub struct StringIterator<'a> {
    // The section's bytes, and the place of the next string.
    held: &'a [u8],
    place: usize,
}

// Returns the number of bytes before the first zero.
fn len_before_zero(bytes: &[u8]) -> usize
    ensures value { result ≡ position_or_len is_zero bytes.now }
    ensures within { result ≤ length bytes.now }
{
    memchr(0, bytes).unwrap_or(bytes.len())
}

impl<'a> StringIterator<'a> {
    /// Returns the strings of these bytes.
    pub fn over(held: &'a [u8]) -> Self
        ensures { strings_left result ≡ strings_from 0 held.now }
    {
        StringIterator { held, place: 0 }
    }
}

impl<'a> Iterator for StringIterator<'a> {
    type Item = SectionString<'a>;

    ghost use Rattle.std.specs.Iterator.{YieldsFirstBy, item_count};

    ghost next_gives = { YieldsFirstBy string_read strings_left };

    ghost remaining = { item_count strings_left };

    fn next(&mut self) -> Option<SectionString<'a>> {
        if self.place >= self.held.len() {
            return None;
        }
        let place = self.place;
        let rest = rest_at(self.held, place);
        let len = len_before_zero(rest);
        self.place += len + 1;
        let bytes = &rest[..len];
        Some(SectionString { place, bytes })
    }
}
