//! The members of an archive, one at a time.

ghost use Rattle.std.specs.Prelude.{◌≡◌};
ghost use Rattle.mach_archive.specs.ArchiveViews.{member_read, members_left, names_view};
ghost use Rattle.mach_archive.specs.Members.{AreMembers};

use crate::header::Header;
use crate::member::Member;
use crate::placed::Placed;
use mach_base::{ByteCount, Result};
use std::fmt;

/// An iterator over the members of an archive, in order. It ends at the first faulty header, after that error. It allocates no memory.
#[derive(Clone, Copy)]
pub struct Members<'a> {
    bytes: &'a [u8],
    names: Option<Placed<'a>>,
    // The place of the next header. If there is none, it is at or past the end of the bytes.
    place: usize,
}

impl<'a> Members<'a> {
    /// Builds an iterator over the members from a place on.
    pub(crate) fn new(bytes: &'a [u8], names: Option<Placed<'a>>, place: usize) -> Members<'a>
        ensures { AreMembers bytes.now (names_view names.entry) place (members_left result) }
    {
        Members {
            bytes,
            names,
            place,
        }
    }
}

impl<'a> Iterator for Members<'a> {
    type Item = Result<Member<'a>>;

    ghost use Rattle.std.specs.Iterator.{YieldsFirstBy, item_count};

    ghost next_gives = { YieldsFirstBy member_read members_left };

    ghost remaining = { item_count members_left };

    #[inline(always)]
    fn next(&mut self) -> Option<Result<Member<'a>>> {
        if self.place >= self.bytes.len() {
            return None;
        }
        match Header::read(self.bytes, self.place) {
            Ok(header) => {
                self.place = header.next();
                Some(Ok(Member::of(self.bytes, self.names, &header)))
            }
            Err(e) => {
                self.place = self.bytes.len();
                Some(Err(e))
            }
        }
    }
}

impl fmt::Debug for Members<'_> {
    /// Prints the place of the next header, with the number of bytes instead of the bytes.
    fn fmt<W: fmt::Write>(&self, f: &mut fmt::Formatter<W>) -> fmt::Result {
        f.debug_struct("Members")
            .field("bytes", &ByteCount(self.bytes))
            .field("place", &self.place)
            .finish()
    }
}
