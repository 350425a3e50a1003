//! The first segment of an image that a test takes, read in place.

ghost use Rattle.std.specs.Prelude.{◌≡◌, Bool};
ghost use Rattle.std.specs.List.{find};
ghost use Rattle.goblin_mach_c.specs.PartRows.{segment_rows};

use crate::images::gm_image;
use crate::rows::Rows;
use crate::segments::{gm_segment, segment_list};

/// Which segments are looked for.
pub trait SegmentTest {
    ghost use Rattle.goblin_mach_c.specs.declared.segments.gm_segment.{gm_segment};

    // Whether a segment is one of them.
    ghost test: { Self → gm_segment → Bool };

    /// Whether a segment is one of them.
    fn holds(&self, row: &gm_segment) -> bool
        ensures { result ≡ test self.now row.now };
}

/// Returns the first segment of an image that a test takes.
pub fn find_segment<T: SegmentTest>(bytes: &[u8], image: &gm_image, what: &T) -> Option<gm_segment>
    ensures { result ≡ find (T.test what.now) (segment_rows bytes.now image.now) }
{
    let mut rows = segment_list(bytes, image);
    'segments: while let Some(row) = rows.next() {
        if what.holds(&row) {
            return Some(row);
        }
    }
    None
}
