//! The segments of an image and their sections.

ghost use Rattle.std.specs.Prelude.{◌≡◌, Some, codes, map, IfOk, OnOk};
ghost use Rattle.std.specs.Io.KnownBytes.{Appends};
ghost use Rattle.std.specs.Iterator.{YieldsFirstBy};
ghost use Rattle.mach_base.specs.Items.{items_in_bounds, read_as};
ghost use Rattle.mach_parts.specs.Segment.{sections_of, segment_view};
ghost use Rattle.mach_parts.specs.SectionItems.{sections_left};
ghost use Rattle.machinfo.specs.Segments.{section_object, section_objects_left};
ghost use Rattle.machinfo.specs.SegmentStatus.{IsAfterSections, IsAfterSegments};
ghost use Rattle.machinfo.specs.Summary.{WritesSome};
ghost use Rattle.machinfo.specs.Segments.{sections_named, sections_past_the_end};

use goblin_mach::Result;
use goblin_mach::names::rights_name;
use goblin_mach::segment::{Section, SectionIterator, Segment};
use mach_cli::{
    ListProgress, Listing, StringOrNull, comma_before, name_in_field, print_array, then,
};
use std::io;
use std::io::Write;

// The sections that are left of a segment, those whose records begin within the bytes, and how many more it claims.
#[derive(Drop)]
pub struct SectionList<'a> {
    /// The sections that begin within the bytes.
    pub sections: SectionIterator<'a>,
    /// How many more are claimed.
    pub past: usize,
}

impl<'a> SectionList<'a> {
    /// Returns the sections of a segment.
    pub fn of(segment: &Segment<'a>) -> Self
        ensures left { sections_left result.sections ≡ items_in_bounds (sections_of (segment_view segment.now)) }
        ensures past { result.past ≡ sections_past_the_end (segment_view segment.now) }
    {
        let all = segment.into_iter();
        let sections = all.in_bounds();
        let past = all.len() - sections.len();
        SectionList { sections, past }
    }

    // Returns the next section, or the error if it can't be read.
    fn take_next(&mut self) -> Option<Result<Section>>
        ensures { YieldsFirstBy (read_as (λ s. s)) sections_named self.old result self.new }
    {
        match self.sections.next()? {
            Ok((section, _)) => Some(Ok(section)),
            Err(error) => Some(Err(error)),
        }
    }
}

// The same sections as objects.
#[derive(Drop)]
struct SectionObjects<'a>(SectionList<'a>);

impl Listing for SectionObjects<'_> {
    type Row = Section;

    ghost text = { section_object };

    ghost left = { section_objects_left };

    ghost past = { λ list. list.0.past };

    ghost past_name = { λ _. codes "sections" };

    fn next_row(&mut self) -> Option<Result<Section>> {
        match self.0.take_next()? {
            Ok(section) => Some(Ok(section)),
            Err(error) => Some(Err(error)),
        }
    }

    fn past(&self) -> usize {
        self.0.past
    }

    fn past_name(&self) -> &'static str {
        "sections"
    }

    fn write_row<O: Write>(row: &Section, out: &mut O) -> io::Result<()>
        ensures { OnOk result (Appends (O.contents out.old) (O.contents out.new) (section_object row.now)) }
    {
        let name = StringOrNull(name_in_field(&row.sectname));
        let (address, size) = (row.addr, row.size);
        write!(
            out,
            "{{\"address\":{address},\"name\":{name},\"size\":{size}}}"
        )
    }
}

/// Writes segments as a member that others follow: at most `limit`, each with its sections, of which it writes at most `limit` in all.
pub fn write_segments<O: Write>(
    segments: &[Segment<'_>],
    limit: usize,
    out: &mut O,
) -> io::Result<ListProgress>
    ensures written { OnOk result (WritesSome (O.contents out.old) (O.contents out.new)) }
    ensures status { IfOk result (IsAfterSegments limit (map segment_view segments.now)) }
{
    let first = &segments[..limit.min(segments.len())];
    let mut reported = ListProgress {
        left: limit,
        whole: true,
        more: limit < segments.len(),
    };
    let mut is_first = true;
    write!(out, "\"segments\":[")?;
    'segments: for segment in first {
        let next = write_segment(segment, is_first, reported.left, out)?;
        reported = then(reported, next);
        is_first = false;
    }
    write!(out, "],")?;
    Ok(reported)
}

// Writes the object of a segment with its sections, up to the limit.
fn write_segment<O: Write>(
    segment: &Segment<'_>,
    is_first: bool,
    limit: usize,
    out: &mut O,
) -> io::Result<ListProgress>
    ensures written { OnOk result (WritesSome (O.contents out.old) (O.contents out.new)) }
    ensures status { IfOk result (IsAfterSections limit (segment_view segment.now)) }
{
    let comma = comma_before(is_first);
    let name = StringOrNull(name_in_field(&segment.segname));
    let (address, size) = (segment.vmaddr, segment.vmsize);
    let rights = rights_name(segment.initprot);
    write!(
        out,
        "{comma}{{\"address\":{address},\"name\":{name},\"rights\":\"{rights}\",\"size\":{size},\"sections\":"
    )?;
    let mut sections = SectionObjects(SectionList::of(segment));
    let past = sections.0.past;
    let reported = print_array(&mut sections, limit, out)?;
    write!(out, ",\"past_the_end\":{past}}}")?;
    Ok(ListProgress {
        left: reported.left,
        whole: reported.whole & (past == 0),
        more: reported.more,
    })
}
