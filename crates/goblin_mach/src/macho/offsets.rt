//! The addresses of file offsets, by the segments of an image.

ghost use Rattle.std.specs.Prelude.{◌≡◌};
ghost use Rattle.mach_parts.specs.Segment.{segment_view};
ghost use Rattle.mach_layout.specs.Entry.{is_among};
ghost use Rattle.goblin_mach.specs.FileOffsets.{address_at_offset, mapped_size, offset_at_address};
ghost use Rattle.goblin_mach.specs.OpenImage.{segments_view};

use crate::macho::MachO;
use mach_parts::segment::Segment;
use std::alloc::Allocator;

// Returns how many bytes of a segment are in the file and in memory.
fn mapped_size(segment: &Segment<'_>) -> u64
    ensures { result ≡ mapped_size (segment_view segment.now) }
{
    segment.filesize.min(segment.vmsize)
}

// Whether a number lies among `count` from `first` on.
fn is_among(first: u64, count: u64, number: u64) -> bool
    ensures { result ≡ is_among first count number }
{
    first <= number && number - first < count
}

impl<'a, A: Allocator> MachO<'a, A> {
    /// Returns the address of a file offset, before sliding, by the first segment whose bytes in the file hold it. The offset
    /// counts from the image's first byte, also in a fat file. Bytes of a segment past its size in memory don't count. There is
    /// no address if no segment holds the offset, or if the address has more than 64 bits.
    pub fn address_of_offset(&self, offset: u64) -> Option<u64>
        ensures { result ≡ address_at_offset (segments_view self.now) offset }
    {
        'segments: for segment in self.segments.as_slice() {
            if is_among(segment.fileoff, mapped_size(segment), offset) {
                return segment.vmaddr.checked_add(offset - segment.fileoff);
            }
        }
        None
    }

    /// Returns the file offset of an address, before sliding, by the first segment that holds the address with a byte in the
    /// file. The offset counts from the image's first byte, also in a fat file. There is none if no such segment holds the
    /// address, or if the offset has more than 64 bits.
    pub fn offset_of_address(&self, address: u64) -> Option<u64>
        ensures { result ≡ offset_at_address (segments_view self.now) address }
    {
        'segments: for segment in self.segments.as_slice() {
            if is_among(segment.vmaddr, mapped_size(segment), address) {
                return segment.fileoff.checked_add(address - segment.vmaddr);
            }
        }
        None
    }
}
