//! The printed names of the segments and of the sections that hold addresses.

ghost use Rattle.std.specs.Prelude.{◌≡◌};
ghost use Rattle.mach_base.specs.Items.{read_as};
ghost use Rattle.mach_dyld.specs.Exports.{text_in};
ghost use Rattle.goblin_mach.specs.AllStretches.{part_view};
ghost use Rattle.mach_cli.specs.SectionNames.{section_name_with, shown_name, stretch_name};

use goblin_mach::{SegmentStretches, Stretch, read_text};
use std::alloc::Allocator;

/// Returns the printed name of the first section of a segment that holds an address, if one does.
pub fn section_name_with<A: Allocator>(segment: &SegmentStretches<A>, address: u64) -> Option<&str>
    ensures { text_in result ≡ section_name_with address (part_view segment.now).sections }
{
    Some(stretch_name(segment.section_with(address)?))
}

/// Returns the printed name of a segment or a section.
pub fn stretch_name(stretch: &Stretch) -> &str
    ensures { result.now ≡ stretch_name stretch.now }
{
    shown_name(read_text(&stretch.name, 0))
}

// Returns a name as it is printed.
fn shown_name(name: goblin_mach::Result<&str>) -> &str
    ensures { result.now ≡ shown_name (read_as (λ text. text.now) name.entry) }
{
    match name {
        Ok(text) if !text.is_empty() => text,
        _ => "-",
    }
}
