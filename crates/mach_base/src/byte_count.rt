//! Byte strings as `Debug` prints them.

use std::fmt;

/// Bytes of which `Debug` prints only the number.
#[derive(Clone, Copy)]
pub struct ByteCount<'a>(pub &'a [u8]);

impl fmt::Debug for ByteCount<'_> {
    fn fmt<W: fmt::Write>(&self, f: &mut fmt::Formatter<W>) -> fmt::Result {
        let count = self.0.len();
        write!(f, "{count} bytes")
    }
}
