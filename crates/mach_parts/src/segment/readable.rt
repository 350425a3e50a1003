//! The sections whose records lie in their segment's command and in the bytes, and the section that holds an address.

ghost use Rattle.std.specs.Prelude.{◌≡◌, ◌∷◌, ◌+◌, ◌<◌, ◌^◌, [], MatchOption, IfSome, map};
ghost use Rattle.mach_parts.specs.Segment.{segment_view};
ghost use Rattle.mach_parts.specs.SectionRecord.{held_from, in_front, readable_sections, section_holding};
ghost use Rattle.mach_parts.specs.NumberedLeft.{readable_left};

use crate::segment::Segment;
use crate::segment::numbered::NumberedSection;

/// An iterator over the sections of an image's segments, in order. Of each segment it returns those whose record lies in the
/// segment's command, up to the first that isn't in the bytes. So segments can't claim the same record, and all of them together
/// have at most as many sections as the bytes have records. It allocates no memory.
#[derive(Clone, Copy)]
pub struct ReadableSections<'a, 'b> {
    segments: &'b [Segment<'a>],
    // The current segment, and the number of its next section.
    segment: usize,
    number: u32,
}

impl<'a, 'b> ReadableSections<'a, 'b> {
    /// Builds an iterator over the sections of these segments.
    pub fn new(segments: &'b [Segment<'a>]) -> Self
        ensures { readable_left result ≡ readable_sections (map segment_view segments.now) }
    {
        ReadableSections {
            segments,
            segment: 0,
            number: 0,
        }
    }
}

// Reads the next section of a segment after the first `taken`, if there is one.
fn take_numbered(segment: &Segment<'_>, n: usize, taken: u32) -> Option<NumberedSection>
    ensures more { MatchOption result (in_front (held_from n (segment_view segment.now) taken) ≡ [])
        (λ found. in_front (held_from n (segment_view segment.now) taken) ≡ found ∷ in_front (held_from n (segment_view segment.now) (taken + 1))) }
    ensures few { IfSome result (λ _. taken + 1 < 2 ^ 32) }
{
    if taken >= segment.sections_held() {
        return None;
    }
    segment.numbered(n, taken).ok()
}

impl<'a, 'b> Iterator for ReadableSections<'a, 'b> {
    type Item = NumberedSection;

    ghost use Rattle.std.specs.Iterator.{YieldsFirst, item_count};

    ghost next_gives = { YieldsFirst readable_left };

    ghost remaining = { item_count readable_left };

    fn next(&mut self) -> Option<NumberedSection> {
        'segments: loop {
            if self.segment >= self.segments.len() {
                return None;
            }
            let segment = &self.segments[self.segment];
            if let Some(section) = take_numbered(segment, self.segment, self.number) {
                self.number += 1;
                return Some(section);
            }
            self.segment += 1;
            self.number = 0;
        }
    }
}

/// Finds the first section that holds an address, among those in their segment's command and in the bytes.
pub fn section_holding(segments: &[Segment<'_>], address: u64) -> Option<NumberedSection>
    ensures { result ≡ section_holding (map segment_view segments.now) address }
{
    'sections: for section in ReadableSections::new(segments) {
        if section.holds(address) {
            return Some(section);
        }
    }
    None
}
