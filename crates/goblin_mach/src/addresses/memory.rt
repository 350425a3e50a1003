//! The ranges of memory of the sections of a segment.

ghost use Rattle.std.specs.Prelude.{◌≡◌, map, IfOk, OnOk};
ghost use Rattle.mach_parts.specs.Segment.{segment_view};
ghost use Rattle.mach_parts.specs.SectionItems.{section_and_bytes};
ghost use Rattle.goblin_mach.specs.View.{IsReported};
ghost use Rattle.goblin_mach.specs.AllStretches.{memory_of_section, room_after, sections_within};

use crate::addresses::stretches::Stretch;
use mach_base::Error;
use mach_parts::segment::{Section, SectionData, Segment};
use std::alloc::{AllocError, Allocator};

/// Returns the room that the sections of a segment leave.
pub fn room_after(room: usize, segment: &Segment<'_>) -> usize
    ensures { result ≡ room_after room (segment_view segment.now) }
{
    let count = segment.nsects as usize;
    if count <= room { room - count } else { room }
}

/// Returns the ranges of memory of a segment's sections, if there is room for them.
pub fn sections_within<A: Allocator + Clone>(
    alloc: &A,
    segment: &Segment<'_>,
    room: usize,
) -> Result<Vec<Stretch, A>, AllocError>
    ensures { IfOk result (λ v. v.items ≡ sections_within room (segment_view segment.now)) }
{
    if segment.nsects as usize > room {
        return Ok(Vec::new(alloc.clone()?));
    }
    match segment.sections(alloc.clone()?) {
        Ok(sections) => stretches_of(alloc.clone()?, &sections),
        Err(error) => {
            unless_memory(error)?;
            Ok(Vec::new(alloc.clone()?))
        }
    }
}

// Returns nothing, or a refused allocation if the error is one.
fn unless_memory(error: Error) -> Result<(), AllocError>
    ensures { OnOk result (IsReported error) }
{
    match error {
        Error::Memory(refused) => Err(refused),
        _ => Ok(()),
    }
}

// Returns the ranges of memory of some sections.
fn stretches_of<A: Allocator>(
    alloc: A,
    sections: &[(Section, SectionData<'_>)],
) -> Result<Vec<Stretch, A>, AllocError>
    ensures { IfOk result (λ v. v.items ≡ map memory_of_section (map section_and_bytes sections.now)) }
{
    let mut stretches = Vec::new(alloc);
    'sections: for (section, _) in sections {
        stretches.push(Stretch {
            name: section.sectname,
            start: section.addr,
            size: section.size,
        })?;
    }
    Ok(stretches)
}
