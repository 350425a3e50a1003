//! The sources of fixups: segments with their chains, the starts of pages, and pointers.

ghost use Rattle.std.specs.Prelude.{◌≡◌, ◌+◌, ◌<◌, ◌≤◌, ◌^◌, length, drop, Some, Ok, Err, IfSome, MatchOption};
ghost use Rattle.mach_base.specs.Answer.{Reads};
ghost use Rattle.mach_base.specs.Fault.{malformed};
ghost use Rattle.mach_base.specs.Number.{number, number_at};
ghost use Rattle.mach_base.specs.Sums.{found_or_malformed};
ghost use Rattle.mach_chained.specs.Pointers.{pointer_width};
ghost use Rattle.mach_chained.specs.Fixups.{FixupInput, span_at, no_ends, ends_of, in_memory, following, start_at, spot_by_start, spot_by, start_among};
ghost use Rattle.mach_chained.specs.Fixups.{first_in_page};
ghost use Rattle.mach_chained.specs.Fixups.{next_in_page, fixup_at};
ghost use Rattle.mach_chained.specs.WalkViews.{fixup_input_of, chains_view, span_view, span_option_view, spot_view, spot_option_view, fixup_pair_view};
ghost use Rattle.mach_chained.specs.FixupsLeft.{next_spot};
ghost use Rattle.mach_chained.specs.Opened.{nothing_opened};
ghost use Rattle.std.specs.Prelude.{map, slice_get};
ghost use Rattle.mach_parts.specs.Segment.{segment_view};

use crate::format::PointerFormat;
use crate::header::ChainedFixups;
use crate::pointer::{FixupKind, pointer_len, read_pointer};
use crate::starts::Chains;
use mach_base::{Endian, Error, Result, Steps, bytes_at};
use mach_parts::binding::PointerAuth;
use mach_parts::segment::Segment;
use mach_records::SIZEOF_CHAINED_STARTS_IN_SEGMENT;

/// The start of a page that has no chain.
pub const DYLD_CHAINED_PTR_START_NONE: u16 = 0xffff;

/// The bit of a page's start that means that the page has several. These follow the starts of all pages.
pub const DYLD_CHAINED_PTR_START_MULTI: u16 = 0x8000;

/// The bit of the last of several starts.
pub const DYLD_CHAINED_PTR_START_LAST: u16 = 0x8000;

/// A pointer that dyld fixes up.
#[derive(Clone, Copy, Debug)]
pub struct Fixup {
    /// The number of the segment.
    pub segment: u32,
    /// The offset in the segment.
    pub offset: u64,
    /// The address in memory.
    pub address: u64,
    /// What the pointer represents.
    pub kind: FixupKind,
    /// How the pointer is signed, if it is.
    pub auth: Option<PointerAuth>,
}

// What fixups are read from.
#[derive(Clone, Copy)]
pub struct Source<'a, 'b> {
    pub fixups: ChainedFixups<'a>,
    pub segments: &'b [Segment<'a>],
    pub base: u64,
}

// A segment that has chains.
#[derive(Clone, Copy)]
pub struct Span<'a> {
    pub number: u32,
    pub vmaddr: u64,
    pub fileoff: u64,
    pub bytes: &'a [u8],
    pub chains: Chains,
}

// A place in a page. If its chain is not the last of the page, `more` is the number of the next chain's start.
#[derive(Clone, Copy)]
pub struct PagePlace {
    pub at: usize,
    pub more: Option<u32>,
}

// The place of the next fixup of a page: none, a known place, or one of several starts, which must not lie before `least`.
#[derive(Clone, Copy)]
pub enum NextPlace {
    Nothing,
    Fixup(PagePlace),
    Start { index: u32, least: usize },
}

/// Returns the segment with this number.
#[tactic(auto, using(mach_parts::proofs::SegmentViews::segment_seen))]
#[inline(always)]
pub fn nth_segment<'b, 'a>(segments: &'b [Segment<'a>], number: u32) -> Result<&'b Segment<'a>>
    ensures { Reads (λ s. segment_view s.now) result (found_or_malformed (slice_get (map segment_view segments.now) number)) }
{
    match segments.get(number as usize) {
        Some(segment) => Ok(segment),
        None => Err(Error::Malformed("a chain's segment is past the list of segments")),
    }
}

// Reads the number at a place of a segment's data, if it lies there. This is the read of a pointer that is counted.
#[inline(always)]
fn raw_at(
    le: Endian,
    format: PointerFormat,
    bytes: &[u8],
    place: usize,
    steps: &mut Steps,
) -> Option<u64>
    requires { place < 2 ^ 60 }
    ensures value { MatchOption result (length bytes.now < place + pointer_width format)
        (λ raw. (place + pointer_width format ≤ length bytes.now) × (raw ≡ number le (pointer_width format) (drop place bytes.now))) }
    ensures reads { steps.new ≡ steps.old + 1 }
{
    steps.tick();
    if place + pointer_len(format) > bytes.len() {
        return None;
    }
    match format {
        PointerFormat::Generic32 => Some(u64::from(le.u32_at(bytes, place))),
        _ => Some(le.u64_at(bytes, place)),
    }
}

// Reads the two-byte number at a place.
fn read_u16(bytes: &[u8], place: usize, le: Endian) -> Result<u16>
    ensures { Reads (λ n. n) result (number_at le 2 bytes.now place) }
{
    Ok(le.u16_at(bytes_at(bytes, place, 2)?, 0))
}

// Decodes one of several starts, which must not lie before `least`.
fn start_place(index: u32, least: usize, start: u16) -> Result<PagePlace>
    requires { index + 1 < 2 ^ 32 }
    ensures { Reads (λ p. Some (spot_view p)) result (spot_by_start index least start) }
{
    let at = usize::from(start % DYLD_CHAINED_PTR_START_LAST);
    if at < least {
        return Err(Error::Malformed("a chain starts before the end of an earlier one"));
    }
    let more = if start < DYLD_CHAINED_PTR_START_LAST {
        Some(index + 1)
    } else {
        None
    };
    Ok(PagePlace { at, more })
}

impl<'a> Span<'a> {
    // Returns a placeholder for the segment before the first. It has no pages and ends at 0.
    pub fn before_all() -> Self
        ensures ends { ends_of (span_view result) ≡ no_ends }
        ensures pages { result.chains.page_count ≡ 0 }
        ensures whole { span_view result ≡ nothing_opened }
    {
        Span {
            number: 0,
            vmaddr: 0,
            fileoff: 0,
            bytes: &[],
            chains: Chains {
                page_size: 0,
                format: PointerFormat::Generic64,
                segment_offset: 0,
                greatest: 0,
                page_count: 0,
                place: 0,
                upto: 0,
                room: 0,
            },
        }
    }

    // Returns the place of the next fixup: `skip` bytes further, or at the next start if the chain ends.
    #[inline(always)]
    pub fn next_place(&self, place: PagePlace, skip: u32) -> NextPlace
        requires { place.at < 2 ^ 16 }
        ensures { (x : FixupInput) → next_spot x (span_view self.now) result ≡ next_in_page x (span_view self.now) (spot_view place) skip }
    {
        if skip != 0 {
            return NextPlace::Fixup(PagePlace {
                at: place.at + skip as usize,
                more: place.more,
            });
        }
        match place.more {
            None => NextPlace::Nothing,
            Some(index) => NextPlace::Start {
                index,
                least: place.at + pointer_len(self.chains.format),
            },
        }
    }
}

impl<'a, 'b> Source<'a, 'b> {
    // Tests whether the chains give the segment's address correctly.
    fn in_memory(&self, chains: &Chains, segment: &'b Segment<'a>) -> Result<&'b Segment<'a>>
        ensures { Reads (λ s. segment_view s.now) result (in_memory (fixup_input_of self.now) (chains_view chains.now) (segment_view segment.now)) }
    {
        let address = u128::from(self.base) + u128::from(chains.segment_offset);
        if address != u128::from(segment.vmaddr) {
            return Err(Error::Malformed("chains give another address for their segment"));
        }
        Ok(segment)
    }

    // Tests whether the segment's starts and its data lie after those of the segment before.
    fn following(
        &self,
        before: &Span<'a>,
        chains: &Chains,
        segment: &'b Segment<'a>,
    ) -> Result<&'b Segment<'a>>
        ensures { Reads (λ s. segment_view s.now) result (following (ends_of (span_view before.now)) (chains_view chains.now) (segment_view segment.now)) }
    {
        if chains.place < before.chains.upto {
            return Err(Error::Malformed(
                "starts of a segment begin before the end of earlier ones",
            ));
        }
        let end = u128::from(before.fileoff) + before.bytes.len() as u128;
        if u128::from(segment.fileoff) < end {
            return Err(Error::Malformed(
                "a segment with chains begins before the end of an earlier one",
            ));
        }
        Ok(segment)
    }

    // Opens a segment with its chains, if it has any. It must lie after the one before.
    #[tactic(auto, unfolding(crate::specs::Fixups::span_at))]
    pub fn span(&self, before: &Span<'a>, number: u32) -> Result<Option<Span<'a>>>
        ensures { Reads span_option_view result (span_at (fixup_input_of self.now) (ends_of (span_view before.now)) number) }
    {
        let Some((starts, place)) = self.fixups.starts(number)? else {
            return Ok(None);
        };
        let chains = Chains::of(&starts, place)?;
        let segment = nth_segment(self.segments, number)?;
        let there = self.in_memory(&chains, segment)?;
        let next = self.following(before, &chains, there)?;
        Ok(Some(Span {
            number,
            vmaddr: next.vmaddr,
            fileoff: next.fileoff,
            bytes: next.bytes,
            chains,
        }))
    }

    // Reads a start of a segment. The starts of its pages come first.
    fn start(&self, span: &Span<'a>, index: u32) -> Result<u16>
        ensures { Reads (λ n. n) result (start_at (fixup_input_of self.now) (span_view span.now) index) }
    {
        let offset = SIZEOF_CHAINED_STARTS_IN_SEGMENT + index as usize * 2;
        let place = span.chains.place.saturating_add(offset);
        read_u16(self.fixups.payload, place, self.fixups.le)
    }

    // Reads one of several starts, which must not lie before `least`.
    pub fn start_among(&self, span: &Span<'a>, index: u32, least: usize) -> Result<PagePlace>
        ensures { Reads (λ p. Some (spot_view p)) result (start_among (fixup_input_of self.now) (span_view span.now) index least) }
    {
        if index >= span.chains.room {
            return Err(Error::Malformed("the starts of a page are past those of its segment"));
        }
        let start = self.start(span, index)?;
        start_place(index, least, start)
    }

    // Returns the first place of a page, if it has one.
    #[tactic(auto, unfolding(crate::specs::Fixups::first_in_page))]
    pub fn first_in_page(&self, span: &Span<'a>, page: u16) -> Result<Option<PagePlace>>
        ensures { Reads spot_option_view result (first_in_page (fixup_input_of self.now) (span_view span.now) page) }
    {
        let start = self.start(span, u32::from(page))?;
        if start == DYLD_CHAINED_PTR_START_NONE {
            return Ok(None);
        }
        if start < DYLD_CHAINED_PTR_START_MULTI {
            return Ok(Some(PagePlace {
                at: usize::from(start),
                more: None,
            }));
        }
        let index = u32::from(start - DYLD_CHAINED_PTR_START_MULTI);
        let place = self.start_among(span, index, 0)?;
        Ok(Some(place))
    }

    // Reads the fixup at a place of a page, and the distance to the next one, or
    // 0 for the last. Returns `None` if it is faulty. Its pointer is read once.
    #[tactic(auto, unfolding(crate::specs::Fixups::fixup_at))]
    #[inline(always)]
    pub fn fixup(
        &self,
        span: &Span<'a>,
        page: u16,
        at: usize,
        steps: &mut Steps,
    ) -> Option<(Fixup, u32)>
        ensures value { MatchOption result (fixup_at (fixup_input_of self.now) (span_view span.now) page at ≡ Err malformed)
            (λ found. fixup_at (fixup_input_of self.now) (span_view span.now) page at ≡ Ok (fixup_pair_view found)) }
        ensures within { IfSome result (λ _. at < 2 ^ 16) }
        ensures reads { IfSome result (λ _. steps.new ≡ steps.old + 1) }
        ensures bounded { steps.new ≤ steps.old + 1 }
        ensures kept { steps.old ≤ steps.new }
    {
        if at >= usize::from(span.chains.page_size) {
            return None;
        }
        let offset = usize::from(page) * usize::from(span.chains.page_size) + at;
        let Some(raw) = raw_at(
            self.fixups.le,
            span.chains.format,
            span.bytes,
            offset,
            steps,
        ) else {
            return None;
        };
        let Some(address) = span.vmaddr.checked_add(offset as u64) else {
            return None;
        };
        let pointer = read_pointer(span.chains.format, self.base, span.chains.greatest, raw);
        if let FixupKind::Bind { import, .. } = pointer.kind
            && import >= self.fixups.header.imports_count
        {
            return None;
        }
        let fixup = Fixup {
            segment: span.number,
            offset: offset as u64,
            address,
            kind: pointer.kind,
            auth: pointer.auth,
        };
        Some((fixup, pointer.skip))
    }

    // Returns the reason why there is no fixup at a place of a page. The pointer is not read again.
    pub fn reason(&self, span: &Span<'a>, page: u16, at: usize) -> &'static str {
        let size = usize::from(span.chains.page_size);
        if size <= at {
            return "a chain leaves its page";
        }
        let offset = usize::from(page) * size + at;
        if span.bytes.len() < offset + pointer_len(span.chains.format) {
            return "a fixup is past its segment's data";
        }
        match span.vmaddr.checked_add(offset as u64) {
            None => "a fixup's address does not fit in 64 bits",
            Some(_) => "a bind's import is past the table",
        }
    }
}
