//! The sections of all segments of an image, as rows.

ghost use Rattle.std.specs.Prelude.{◌≡◌, map};
ghost use Rattle.std.specs.Iterator.{YieldsFirstBy};
ghost use Rattle.mach_base.specs.Answer.{Reads};
ghost use Rattle.mach_parts.specs.Segment.{segment_view};
ghost use Rattle.goblin_mach.specs.OpenImage.{segments_view};
ghost use Rattle.machinfo.specs.PartFields.{section_part_fields};
ghost use Rattle.machinfo.specs.RowFields.{fields_read};
ghost use Rattle.machinfo.specs.SectionRows.{section_row_at, section_row_read, section_rows_in, sections_counted_left, sections_begun, sections_past};

use crate::part_fields::{section_fields, stub_fields};
use crate::segments::SectionList;
use goblin_mach::segment::{NumberedSection, Segment};
use goblin_mach::{MachO, Result};
use mach_cli::{FieldsForm, ItemList};
use std::alloc::Allocator;
use std::io;
use std::io::Write;

/// A section, and its number among those of all segments, counted from 1.
#[derive(Clone, Copy)]
pub struct SectionRow {
    /// The number, at most the last one of 64 bits.
    pub number: u64,
    /// The section itself.
    pub section: NumberedSection,
}

/// The sections of segments, from one of them on. Of each segment they are those whose records begin within the bytes.
#[derive(Clone, Copy)]
pub struct CountedSections<'a, 'b> {
    /// The segments.
    pub segments: &'b [Segment<'a>],
    /// The number of the next section's segment.
    pub segment: usize,
    /// How many sections of that segment were taken.
    pub taken: u32,
    /// How many sections the segments before it claim, at most the last number of 64 bits.
    pub before: u64,
}

// Returns how many sections of a segment begin within the bytes.
fn begun(segment: &Segment<'_>) -> u32
    ensures { result ≡ sections_begun (segment_view segment.now) }
{
    let in_bounds = SectionList::of(segment).sections.len();
    (segment.nsects as usize).min(in_bounds) as u32
}

// Returns how many sections some segments claim past the end of the bytes, at most the last number of 64 bits.
fn sections_past(segments: &[Segment<'_>]) -> usize
    ensures { result ≡ sections_past (map segment_view segments.now) }
{
    let mut past = 0usize;
    for segment in segments {
        past = past.saturating_add(SectionList::of(segment).past);
    }
    past
}

// Reads section `taken` of the segment with number `n` as a row; `before` sections are in the segments before it.
fn row_at(segment: &Segment<'_>, n: usize, taken: u32, before: u64) -> Result<SectionRow>
    ensures { Reads (λ row. row) result (section_row_at before n (segment_view segment.now) taken) }
{
    let section = segment.numbered(n, taken)?;
    let number = before.saturating_add(u64::from(taken) + 1);
    Ok(SectionRow { number, section })
}

impl<'a, 'b> CountedSections<'a, 'b> {
    /// Returns the sections of an image, and how many more its segments claim past the end of the bytes.
    pub fn of<A: Allocator>(image: &'b MachO<'a, A>) -> (Self, usize)
        ensures left { sections_counted_left result.0 ≡ section_rows_in 0 0 (segments_view image.now) }
        ensures past { result.1 ≡ sections_past (segments_view image.now) }
    {
        let segments = image.segments.as_slice();
        let past = sections_past(segments);
        let sections = CountedSections {
            segments,
            segment: 0,
            taken: 0,
            before: 0,
        };
        (sections, past)
    }

    /// Returns the next section, or the error if it can't be read.
    pub fn take_next(&mut self) -> Option<Result<SectionRow>>
        ensures { YieldsFirstBy section_row_read sections_counted_left self.old result self.new }
    {
        'segments: loop {
            if self.segment >= self.segments.len() {
                return None;
            }
            let segment = &self.segments[self.segment];
            if self.taken < begun(segment) {
                let row = row_at(segment, self.segment, self.taken, self.before);
                self.taken += 1;
                return Some(row);
            }
            self.before = self.before.saturating_add(u64::from(segment.nsects));
            self.segment += 1;
            self.taken = 0;
        }
    }
}

impl<'a, 'b> ItemList for CountedSections<'a, 'b> {
    type Item = SectionRow;

    ghost fields = { section_part_fields };

    ghost items_left = { λ s. fields_read section_part_fields (sections_counted_left s) };

    #[tactic(auto, using(crate::proofs::ListRows::next_fields))]
    fn next_item(&mut self) -> Option<Result<SectionRow>> {
        self.take_next()
    }

    fn write_item<F: FieldsForm, O: Write>(row: &SectionRow, out: &mut O) -> io::Result<()> {
        let stubs = stub_fields(&row.section.section);
        F::write_both(&section_fields(row), &stubs, out)
    }
}
