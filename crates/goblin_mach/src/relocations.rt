//! The relocations of the sections of some segments.

ghost use Rattle.std.specs.Prelude.{map};
ghost use Rattle.mach_base.specs.Answer.{Gives};
ghost use Rattle.mach_parts.specs.Segment.{segment_view};
ghost use Rattle.goblin_mach.specs.Relocations.{relocated_view, with_front, relocated_sections_of, relocated_sections_in};

use mach_base::{Ctx, Result};
use mach_parts::segment::{RelocationIterator, Section, Segment};
use std::alloc::Allocator;

/// A section with its number in its segment, counted from 0, and the iterator over its relocations.
pub type RelocatedSection<'a> = (usize, RelocationIterator<'a>, Section);

/// Returns the sections that have relocations, segment by segment in order, each with its number in its segment, counted
/// from 0. The first section of all that isn't in the bytes is the error of the whole.
pub fn relocations<'a, A: Allocator>(
    alloc: A,
    bytes: &'a [u8],
    segments: &[Segment<'a>],
    ctx: Ctx,
) -> Result<Vec<RelocatedSection<'a>, A>>
    ensures { Gives (λ v. map relocated_view v.items) result (relocated_sections_in ctx bytes.now (map segment_view segments.now)) }
{
    let mut found = Vec::new(alloc);
    for segment in segments {
        add_relocations(&mut found, bytes, segment, ctx)?;
    }
    Ok(found)
}

// Adds the sections of a segment that have relocations, each with its number.
fn add_relocations<'a, A: Allocator>(
    found: &mut Vec<RelocatedSection<'a>, A>,
    bytes: &'a [u8],
    segment: &Segment<'a>,
    ctx: Ctx,
) -> Result<()>
    ensures { Gives (λ _. map relocated_view found.new.items) result
        (with_front (map relocated_view found.old.items) (relocated_sections_of ctx bytes.now (segment_view segment.now))) }
{
    'sections: for (number, item) in segment.into_iter().enumerate() {
        let (section, _) = item?;
        if section.nreloc == 0 {
            continue;
        }
        let relocations = section.iter_relocations(bytes, ctx);
        found.push((number, relocations, section))?;
    }
    Ok(())
}
