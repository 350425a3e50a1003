//! The position of the walk along chains, as plain numbers.

ghost use Rattle.std.specs.Prelude.{◌≡◌};
ghost use Rattle.mach_chained.specs.FixupCursors.{next_place_said, span_in, fixups_after, IsOverFixups};
ghost use Rattle.mach_base.specs.Number.{says_yes};
ghost use Rattle.mach_chained.specs.Fixups.{FixupInput, no_ends, span_at};
ghost use Rattle.mach_chained.specs.FixupsLeft.{fixups_left};
ghost use Rattle.mach_chained.specs.Opened.{IsKnown, span_or_nothing};
ghost use Rattle.mach_chained.specs.WalkViews.{fixup_input_of, fixup_input_in, span_view};

use crate::fixups::FixupIterator;
use crate::header::ChainedFixups;
use crate::source::{NextPlace, PagePlace, Source, Span};
use mach_parts::segment::Segment;

/// The position of the walk along chains. It consists of numbers only, and belongs to the bytes and the
/// chained fixups. Whatever the numbers are, going on from them returns fixups, an error, or nothing.
#[derive(Clone, Copy, Debug)]
#[repr(C)]
pub struct FixupCursor {
    /// The number of the segment to open next.
    pub segment: u32,
    /// The number of the current segment.
    pub number: u32,
    /// The place of the next fixup in its page, or a lower bound for it.
    pub at: usize,
    /// The number of one of the page's starts.
    pub index: u32,
    /// The page to look at next.
    pub next_page: u16,
    /// The current page.
    pub page: u16,
    /// 1 if the next fixup is at `at`, 2 if it is at the start `index`; otherwise it is in another page.
    pub next: u8,
    /// Whether the start `index` follows the chain, whether there is a current segment, and whether everything was returned: 0 means no.
    pub has_more: u8,
    /// Whether there is a current segment: 0 means no.
    pub opened: u8,
    /// Whether everything was returned: 0 means no.
    pub ended: u8,
}

// Returns 1 for yes and 0 for no.
fn flag(yes: bool) -> u8
    ensures { says_yes result ≡ yes }
{
    if yes { 1 } else { 0 }
}

// Returns the numbers of a place: its kind, the place in the page, whether a start follows the chain, and that start's number.
fn numbers_of(next: NextPlace) -> (u8, usize, u8, u32)
    ensures { next_place_said result.0 result.1 result.2 result.3 ≡ next }
{
    match next {
        NextPlace::Nothing => (0, 0, 0, 0),
        NextPlace::Start { index, least } => (2, least, 0, index),
        NextPlace::Fixup(place) => match place.more {
            None => (1, place.at, 0, 0),
            Some(index) => (1, place.at, 1, index),
        },
    }
}

impl FixupCursor {
    // Decodes the place from its numbers.
    fn next_place(&self) -> NextPlace
        ensures { result ≡ next_place_said self.now.next self.now.at self.now.has_more self.now.index }
    {
        match self.next {
            1 => {
                let more = if self.has_more == 0 {
                    None
                } else {
                    Some(self.index)
                };
                NextPlace::Fixup(PagePlace { at: self.at, more })
            }
            2 => NextPlace::Start {
                index: self.index,
                least: self.at,
            },
            _ => NextPlace::Nothing,
        }
    }
}

impl<'a, 'b> Source<'a, 'b> {
    // Opens the segment of a number, and returns whether there is one with chains.
    fn span_again(&self, number: u32) -> (Span<'a>, bool)
        ensures span { span_view result.0 ≡ span_or_nothing (span_at (fixup_input_of self.now) no_ends number) }
        ensures known { IsKnown (fixup_input_of self.now) result.1 (span_view result.0) }
    {
        match self.span(&Span::before_all(), number) {
            Ok(Some(span)) => (span, true),
            Ok(None) => (Span::before_all(), false),
            Err(_) => (Span::before_all(), false),
        }
    }

    // Opens the current segment of a cursor, and returns whether there is one.
    fn span_of(&self, cursor: &FixupCursor) -> (Span<'a>, bool)
        ensures span { span_view result.0 ≡ span_in (fixup_input_of self.now) cursor.now }
        ensures known { IsKnown (fixup_input_of self.now) result.1 (span_view result.0) }
    {
        if cursor.opened == 0 {
            return (Span::before_all(), false);
        }
        self.span_again(cursor.number)
    }
}

impl<'a> ChainedFixups<'a> {
    /// Returns an iterator over the fixups that follow a cursor of such an iterator.
    pub fn fixups_from<'b>(
        &self,
        segments: &'b [Segment<'a>],
        base: u64,
        cursor: &FixupCursor,
    ) -> FixupIterator<'a, 'b>
        ensures items { fixups_left result ≡ fixups_after (fixup_input_in self.now segments.now base) cursor.now }
        ensures over { IsOverFixups (fixup_input_in self.now segments.now base) result }
    {
        let source = Source {
            fixups: *self,
            segments,
            base,
        };
        let (span, opened) = source.span_of(cursor);
        FixupIterator {
            source,
            segment: cursor.segment,
            span,
            opened,
            next_page: cursor.next_page,
            page: cursor.page,
            next: cursor.next_place(),
            ended: cursor.ended != 0,
        }
    }
}

impl FixupIterator<'_, '_> {
    /// Returns a cursor for the remaining fixups.
    pub fn cursor(&self) -> FixupCursor
        ensures { (x : FixupInput) → IsOverFixups x self.now → fixups_after x result ≡ fixups_left self.now }
    {
        let (next, at, has_more, index) = numbers_of(self.next);
        FixupCursor {
            segment: self.segment,
            number: self.span.number,
            at,
            index,
            next_page: self.next_page,
            page: self.page,
            next,
            has_more,
            opened: flag(self.opened),
            ended: flag(self.ended),
        }
    }
}
