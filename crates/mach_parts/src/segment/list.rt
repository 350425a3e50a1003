//! The segments of an image.

ghost use Rattle.std.specs.Prelude.{◌≡◌, ◌∷◌, ◌++◌, [], map, OnErr, OnOk};
ghost use Rattle.mach_parts.specs.Segment.{segment_view, sections_of};

use crate::segment::{SectionIterator, Segment};
use mach_base::{Ctx, Result};
use std::alloc::Allocator;
use std::slice::Iter;

/// The segments of an image, in order: a list of `S`, which is `Segment<'a>`.
// `S` is a parameter because of `get_mut`. The value of a list after an
// element was lent can be proved only if the element's type names no lifetime.
#[derive(Drop)]
#[derive_where(Debug; S)]
pub struct Segments<S, A: Allocator> {
    segments: Vec<S, A>,
}

impl<S, A: Allocator> Segments<S, A> {
    ghost use Rattle.std.specs.Prelude.{slice_get};
    ghost use Rattle.std.specs.Borrow.{sem};
    ghost use Rattle.std.specs.Option.{option_copied_mut};
    ghost use Rattle.mach_parts.specs.Segments.{segments_in};
    ghost use Rattle.mach_parts.specs.SegmentLending.{LendsSegment};

    /// Returns the segment at an index for changes in place, if there is one. The others are unchanged.
    pub fn get_mut(&mut self, index: usize) -> Option<&mut S>
        ensures* writes_back { sem 𝓛 (LendsSegment S.row A.row A.Allocator self.entry index result) }
        ensures lent { option_copied_mut result ≡ slice_get (segments_in self.old) index }
    {
        self.segments.get_mut(index)
    }
}

impl<'a, A: Allocator> Segments<Segment<'a>, A> {
    ghost use Rattle.mach_base.specs.Answer.{IsOkUnlessMemory};
    ghost use Rattle.mach_parts.specs.Segments.{segments_in, sections_in};

    /// Builds an empty list. The context has no effect.
    pub fn new(alloc: A, _ctx: Ctx) -> Self
        ensures { segments_in result ≡ [] }
    {
        Segments {
            segments: Vec::new(alloc),
        }
    }

    /// Appends a segment. If memory runs out, the segment is dropped and the list is unchanged.
    pub fn push(&mut self, segment: Segment<'a>) -> Result<()>
        ensures ok { OnOk result (segments_in self.new ≡ segments_in self.old ++ segment.entry ∷ []) }
        ensures only { IsOkUnlessMemory result }
        ensures refused { OnErr result (segments_in self.new ≡ segments_in self.old) }
    {
        self.segments.push(segment)?;
        Ok(())
    }

    /// Returns the segments as a slice.
    pub fn as_slice(&self) -> &[Segment<'a>]
        ensures { result.now ≡ segments_in self.now }
    {
        self.segments.as_slice()
    }

    ghost use Rattle.std.specs.Iterator.Adapters.{IterYieldsInOrder};
    ghost use Rattle.std.specs.Slice.Iter.{iter_rest};
    ghost use Rattle.mach_parts.specs.declared.segment.Segment.{Segment};

    /// Returns an iterator over the segments.
    pub fn iter(&self) -> Iter<'_, Segment<'a>>
        ensures items { iter_rest result ≡ segments_in self.now }
        ensures runs { IterYieldsInOrder Segment }
    {
        self.segments.as_slice().iter()
    }

    /// Returns an iterator over the segments' section iterators.
    pub fn sections(&self) -> SegmentSections<'_, 'a>
        ensures { sections_in result ≡ map (λ s. sections_of (segment_view s)) (segments_in self.now) }
    {
        SegmentSections {
            segments: self.iter(),
        }
    }
}

impl<'a, A: Allocator> From<Vec<Segment<'a>, A>> for Segments<Segment<'a>, A> {
    ghost use Rattle.mach_parts.specs.Segments.{segments_in};

    ghost from_gives = { λ list segments. segments_in segments ≡ list.items };

    fn from(segments: Vec<Segment<'a>, A>) -> Segments<Segment<'a>, A> {
        Segments { segments }
    }
}

impl<'a, 'b, A: Allocator> IntoIterator for &'b Segments<Segment<'a>, A> {
    type Item = &'b Segment<'a>;

    type IntoIter = Iter<'b, Segment<'a>>;

    ghost use Rattle.std.specs.Iterator.Adapters.{IterYieldsInOrder};
    ghost use Rattle.std.specs.Slice.Iter.{iter_rest};
    ghost use Rattle.mach_parts.specs.Segments.{segments_in};
    ghost use Rattle.mach_parts.specs.declared.segment.Segment.{Segment};

    ghost into_iter_gives = { λ s it. (iter_rest it ≡ segments_in s.now) × IterYieldsInOrder Segment };

    fn into_iter(self) -> Iter<'b, Segment<'a>> {
        self.iter()
    }
}

/// An iterator over the segments' section iterators, in order.
#[derive(Clone, Drop)]
pub struct SegmentSections<'b, 'a> {
    segments: Iter<'b, Segment<'a>>,
}

impl<'b, 'a> Iterator for SegmentSections<'b, 'a> {
    type Item = SectionIterator<'a>;

    ghost use Rattle.std.specs.Iterator.{YieldsFirstBy, item_count};
    ghost use Rattle.mach_parts.specs.SectionItems.{sections_left};
    ghost use Rattle.mach_parts.specs.Segments.{sections_in};

    ghost next_gives = { YieldsFirstBy sections_left sections_in };

    ghost remaining = { item_count sections_in };

    fn next(&mut self) -> Option<SectionIterator<'a>> {
        let segment = self.segments.next()?;
        Some(segment.into_iter())
    }
}
