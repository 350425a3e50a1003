//! The segment of a name, an address or a file offset, read in place.

ghost use Rattle.std.specs.Prelude.{◌≡◌};
ghost use Rattle.std.specs.List.{find};
ghost use Rattle.mach_layout.specs.Entry.{is_among};
ghost use Rattle.goblin_mach.specs.FileOffsets.{as_far_after};
ghost use Rattle.goblin_mach_c.specs.Fill.{WritesFound};
ghost use Rattle.goblin_mach_c.specs.PartRows.{segment_rows};
ghost use Rattle.goblin_mach_c.specs.SegmentFinds.{address_by_row, mapped_size_of_row, offset_by_row, row_has_name, row_holds_address, row_holds_offset};

use crate::images::gm_image;
use crate::rows::put_found;
use crate::segment_tests::{SegmentTest, find_segment};
use crate::segments::gm_segment;
use mach_base::read_text;

// The segments of a name.
#[derive(Clone, Copy)]
struct Named<'a> {
    name: &'a [u8],
}

impl<'a> SegmentTest for Named<'a> {
    ghost test = { λ s. row_has_name s.name.now };

    fn holds(&self, row: &gm_segment) -> bool {
        match read_text(&row.name, 0) {
            Ok(text) => text.as_bytes() == self.name,
            Err(_) => false,
        }
    }
}

/// Writes the first segment of an image with a name to `found`, and returns 1. If there is none, it returns 0 and leaves `found`
/// unchanged.
#[unsafe(no_mangle)]
pub extern "C" fn gmr_segment_named(
    bytes: &[u8],
    image: &gm_image,
    name: &[u8],
    found: &mut gm_segment,
) -> u32
    ensures { WritesFound (find (row_has_name name.now) (segment_rows bytes.now image.now)) found.old found.new result }
{
    put_found(find_segment(bytes, image, &Named { name }), found)
}

// Whether a number lies among the bytes of a segment that are in the file and in memory, from a first one on.
fn is_mapped(row: &gm_segment, first: u64, number: u64) -> bool
    ensures { result ≡ is_among first (mapped_size_of_row row.now) number }
{
    first <= number && number - first < row.filesize.min(row.vmsize)
}

// Returns the number that lies as far after `to` as `number` lies after `from`, if it has 64 bits.
fn as_far_after(from: u64, to: u64, number: u64) -> Option<u64>
    ensures { result ≡ as_far_after from to number }
{
    to.checked_add(number.saturating_sub(from))
}

// The segments that hold a file offset.
#[derive(Clone, Copy)]
struct HoldingOffset {
    offset: u64,
}

impl SegmentTest for HoldingOffset {
    ghost test = { λ s. row_holds_offset s.offset };

    fn holds(&self, row: &gm_segment) -> bool {
        is_mapped(row, row.fileoff, self.offset)
    }
}

/// Writes the address of a file offset to `found`, by the first segment that holds it, and returns 1. If there is none, it returns
/// 0 and leaves `found` unchanged. The offset counts from the image's first byte.
#[unsafe(no_mangle)]
pub extern "C" fn gmr_address_of_offset(
    bytes: &[u8],
    image: &gm_image,
    offset: u64,
    found: &mut u64,
) -> u32
    ensures { WritesFound (address_by_row offset (find (row_holds_offset offset) (segment_rows bytes.now image.now))) found.old found.new result }
{
    match find_segment(bytes, image, &HoldingOffset { offset }) {
        Some(row) => put_found(as_far_after(row.fileoff, row.vmaddr, offset), found),
        None => 0,
    }
}

// The segments that hold an address.
#[derive(Clone, Copy)]
struct HoldingAddress {
    address: u64,
}

impl SegmentTest for HoldingAddress {
    ghost test = { λ s. row_holds_address s.address };

    fn holds(&self, row: &gm_segment) -> bool {
        is_mapped(row, row.vmaddr, self.address)
    }
}

/// Writes the file offset of an address to `found`, by the first segment that holds it, and returns 1. If there is none, it
/// returns 0 and leaves `found` unchanged. The offset counts from the image's first byte.
#[unsafe(no_mangle)]
pub extern "C" fn gmr_offset_of_address(
    bytes: &[u8],
    image: &gm_image,
    address: u64,
    found: &mut u64,
) -> u32
    ensures { WritesFound (offset_by_row address (find (row_holds_address address) (segment_rows bytes.now image.now))) found.old found.new result }
{
    match find_segment(bytes, image, &HoldingAddress { address }) {
        Some(row) => put_found(as_far_after(row.vmaddr, row.fileoff, address), found),
        None => 0,
    }
}
