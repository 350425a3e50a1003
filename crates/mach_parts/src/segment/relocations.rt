//! The relocations of a section, one at a time.

ghost use Rattle.std.specs.Prelude.{◌≡◌};
ghost use Rattle.mach_base.specs.Answer.{Reads};
ghost use Rattle.mach_parts.specs.Relocation.{relocation_at};

use crate::relocation::{RelocationInfo, SIZEOF_RELOCATION_INFO};
use mach_base::{Endian, Record, Result, records_in_bounds};

/// An iterator over the relocations of a section. It has exactly as many items as the
/// section claims. Each is the relocation at its own place, or the error of that read.
#[derive(Clone, Drop)]
pub struct RelocationIterator<'a> {
    bytes: &'a [u8],
    reloff: u32,
    next_item: u32,
    count: u32,
    le: Endian,
}

impl<'a> RelocationIterator<'a> {
    ghost use Rattle.mach_base.specs.Items.{items_in_bounds};
    ghost use Rattle.mach_parts.specs.Relocation.{relocations_at};
    ghost use Rattle.mach_parts.specs.RelocationItems.{relocations_left};

    // Builds an iterator over `count` relocations from `reloff` on.
    pub(crate) fn new(bytes: &'a [u8], reloff: u32, count: u32, le: Endian) -> Self
        ensures { relocations_left result ≡ relocations_at le bytes.now reloff count }
    {
        RelocationIterator {
            bytes,
            reloff,
            next_item: 0,
            count,
            le,
        }
    }

    /// Returns the same iterator restricted to the relocations whose record begins within the bytes. No byte of any later relocation can be read.
    pub fn in_bounds(&self) -> Self
        ensures { relocations_left result ≡ items_in_bounds (relocations_left self.now) }
    {
        let in_bounds = records_in_bounds(self.bytes, self.reloff as usize, SIZEOF_RELOCATION_INFO);
        RelocationIterator {
            count: (self.count as usize).min(in_bounds) as u32,
            ..*self
        }
    }
}

impl<'a> Iterator for RelocationIterator<'a> {
    type Item = Result<RelocationInfo>;

    ghost use Rattle.std.specs.Prelude.{Some, IfSome, length};
    ghost use Rattle.std.specs.Iterator.{YieldsFirstBy, UpTo, item_count};
    ghost use Rattle.std.specs.Iterator.SizeHint.{IsWithinCount};
    ghost use Rattle.mach_parts.specs.RelocationItems.{relocation_read, relocations_left};

    ghost next_gives = { YieldsFirstBy relocation_read relocations_left };

    ghost remaining = { item_count relocations_left };

    fn next(&mut self) -> Option<Result<RelocationInfo>> {
        if self.next_item >= self.count {
            return None;
        }
        let place = self.reloff as usize + self.next_item as usize * SIZEOF_RELOCATION_INFO;
        self.next_item += 1;
        Some(read_at(self.bytes, place, self.le))
    }

    /// Returns the exact number of items left, as both bounds.
    fn size_hint(&self) -> (usize, Option<usize>)
        ensures lower { IsWithinCount result.0 (item_count relocations_left self.now) }
        ensures upper { IfSome result.1 (UpTo (item_count relocations_left self.now)) }
        ensures exact { result ≡ (length (relocations_left self.now), Some (length (relocations_left self.now))) }
    {
        let left = self.len();
        (left, Some(left))
    }
}

impl<'a> ExactSizeIterator for RelocationIterator<'a> {
    /// Returns the number of items left.
    fn len(&self) -> usize {
        self.count.saturating_sub(self.next_item) as usize
    }
}

// Reads the relocation at a place.
fn read_at(bytes: &[u8], place: usize, le: Endian) -> Result<RelocationInfo>
    ensures { Reads (λ r. r) result (relocation_at le bytes.now place) }
{
    RelocationInfo::read(bytes, place, le)
}
