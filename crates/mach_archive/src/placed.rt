//! Bytes of an archive that know their place in it.

ghost use Rattle.std.specs.Prelude.{◌≡◌, ◌≤◌, ◌<◌, ◌+◌, ◌^◌, length};
ghost use Rattle.mach_archive.specs.Places.{rest_of_text};

/// Some bytes of an archive, and their place in it.
#[derive(Clone, Copy)]
pub struct Placed<'a> {
    pub(crate) at: usize,
    pub(crate) bytes: &'a [u8],
    ghost room: { at + length bytes.now < 2 ^ 64 },
}

impl<'a> Placed<'a> {
    ghost use Rattle.mach_archive.specs.PlacedViews.{placed_view};

    /// Returns the bytes after the first `count`.
    pub(crate) fn after(self, count: usize) -> Placed<'a>
        requires { count ≤ length self.bytes.now }
        ensures { placed_view result ≡ rest_of_text count (placed_view self.entry) }
    {
        Placed {
            at: self.at + count,
            bytes: &self.bytes[count..],
        }
    }

    /// Returns the first of these bytes, which are no more than all.
    pub(crate) fn cut(self, first: &'a [u8]) -> Placed<'a>
        requires { length first.now ≤ length self.bytes.now }
        ensures { placed_view result ≡ record { place = self.entry.at; text = first.now } }
    {
        Placed {
            at: self.at,
            bytes: first,
        }
    }
}
