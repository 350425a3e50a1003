//! The segments of an image with their sections, and those of them that hold an address.

ghost use Rattle.std.specs.Prelude.{◌≡◌, map};

use crate::addresses::memory::{room_after, sections_within};
use crate::addresses::stretches::{Stretch, Stretches};
use crate::laws;
use crate::macho::MachO;
use mach_parts::segment::Segment;
use std::alloc::{AllocError, Allocator};

/// A segment with its sections.
#[derive(Drop)]
pub struct SegmentStretches<A: Allocator> {
    /// The memory of the segment.
    pub memory: Stretch,
    /// The memory of its sections, in order: none if one of them can't be read, or if there is no room for them.
    pub sections: Stretches<A>,
}

/// The segments of an image with their sections, in order.
#[derive(Drop)]
pub struct AllStretches<A: Allocator> {
    items: Vec<SegmentStretches<A>, A>,
    memory: Stretches<A>,
    ghost same: { map (λ p. p.memory) items.items ≡ memory.items.items },
}

impl<A: Allocator + Clone> SegmentStretches<A> {
    ghost use Rattle.std.specs.Prelude.{IfOk};
    ghost use Rattle.mach_parts.specs.Segment.{segment_view};
    ghost use Rattle.goblin_mach.specs.AllStretches.{memory_of_segment, sections_within};

    // Returns a segment with its sections, if there is room for them.
    fn of(alloc: &A, segment: &Segment<'_>, room: usize) -> Result<Self, AllocError>
        ensures memory { IfOk result (λ p. p.memory ≡ memory_of_segment (segment_view segment.now)) }
        ensures sections { IfOk result (λ p. p.sections.items.items ≡ sections_within room (segment_view segment.now)) }
    {
        let sections = sections_within(alloc, segment, room)?;
        Ok(SegmentStretches {
            memory: Stretch {
                name: segment.segname,
                start: segment.vmaddr,
                size: segment.vmsize,
            },
            sections: Stretches::of(alloc, sections)?,
        })
    }
}

impl<A: Allocator> SegmentStretches<A> {
    ghost use Rattle.std.specs.Prelude.{option_map};
    ghost use Rattle.goblin_mach.specs.AllStretches.{part_view, section_with};

    /// Returns the memory of the first section that holds an address, if one does.
    pub fn section_with(&self, address: u64) -> Option<&Stretch>
        ensures { option_map (λ s. s.now) result ≡ section_with address (part_view self.now).sections }
    {
        let number = self.sections.first_with(address)?;
        self.sections.items.get(number)
    }
}

impl<B: Allocator + Clone> AllStretches<B> {
    ghost use Rattle.std.specs.Prelude.{ℕ, List, length, IfOk};
    ghost use Rattle.mach_parts.specs.Segment.{SegmentView, segment_view};
    ghost use Rattle.goblin_mach.specs.Facts.{HasSegments};
    ghost use Rattle.goblin_mach.specs.OpenImage.{IsLossyImage};
    ghost use Rattle.goblin_mach.specs.AllStretches.{parts_of, parts_view};

    /// Returns the segments of an image with their sections, in order. Of these there are no more than the image has bytes.
    pub fn of_image<A: Allocator>(alloc: &B, image: &MachO<'_, A>) -> Result<Self, AllocError>
        ensures { (bytes : List ℕ) (o : ℕ) → IsLossyImage bytes o image.now → IfOk result (λ parts. (segments : List SegmentView)
            × HasSegments bytes o segments × (parts_view parts ≡ parts_of (length bytes) segments)) }
    {
        laws::segments_of_image(image);
        let room = image.bytes().len();
        Self::of_segments(alloc, image.segments.as_slice(), room)
    }

    // Returns some segments with their sections, in order.
    fn of_segments(alloc: &B, segments: &[Segment<'_>], room: usize) -> Result<Self, AllocError>
        ensures { IfOk result (λ parts. parts_view parts ≡ parts_of room (map segment_view segments.now)) }
    {
        let mut items = Vec::new(alloc.clone()?);
        let mut memory = Vec::new(alloc.clone()?);
        let mut left = room;
        'segments: for segment in segments {
            let part = SegmentStretches::of(alloc, segment, left)?;
            memory.push(part.memory)?;
            items.push(part)?;
            left = room_after(left, segment);
        }
        let memory = Stretches::of(alloc, memory)?;
        Ok(AllStretches { items, memory })
    }
}

impl<A: Allocator> AllStretches<A> {
    ghost use Rattle.std.specs.Prelude.{option_map, slice_get};
    ghost use Rattle.goblin_mach.specs.AllStretches.{part_view, part_with, parts_view};

    /// Returns the segment with a number.
    pub fn get(&self, number: usize) -> Option<&SegmentStretches<A>>
        ensures { option_map (λ p. part_view p.now) result ≡ slice_get (parts_view self.now) number }
    {
        self.items.get(number)
    }

    /// Returns the first segment that holds an address, if one does.
    pub fn first_with(&self, address: u64) -> Option<&SegmentStretches<A>>
        ensures { option_map (λ p. part_view p.now) result ≡ part_with address (parts_view self.now) }
    {
        match self.memory.first_with(address) {
            Some(number) => self.get(number),
            None => None,
        }
    }
}
