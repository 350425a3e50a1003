//! The faults of the layout of an image, except those of the lists that it returns one item at a time.

ghost use Rattle.std.specs.Prelude.{◌≡◌, ◌++◌, OnOk};
ghost use Rattle.mach_base.specs.Answer.{IsOkUnlessMemory};
ghost use Rattle.mach_layout.specs.Entry as entry;
ghost use Rattle.mach_layout.specs.Faults.{AddsSegments, AddsSections};
ghost use Rattle.mach_layout.specs.Laid.{laid_of};
ghost use Rattle.mach_layout.specs.Commands as texts;
ghost use Rattle.mach_layout.specs.Symbols as symbols;

use crate::commands::{command_faults, text_faults};
use crate::entry::entry_faults;
use crate::fault::{LayoutFault, Rule};
use crate::header::report_header;
use crate::layout::Layout;
use crate::ranges::{claims_shared, files_shared, memory_shared, report_claims, sections_shared};
use crate::sections::section_faults;
use crate::segments::{encrypted_faults, segment_faults};
use crate::symbols::symbol_faults;
use mach_base::Result;
use std::alloc::Allocator;

/// Adds the faults of the commands, of ranges outside the file, and of the segments.
pub fn add_segments<B: Allocator + Clone>(
    faults: &mut Vec<LayoutFault, B>,
    alloc: &B,
    layout: &Layout<'_, '_>,
) -> Result<()>
    ensures reported { OnOk result (AddsSegments (laid_of layout.now) faults.old.items faults.new.items) }
    ensures only { IsOkUnlessMemory result }
{
    command_faults(faults, layout)?;
    report_claims(faults, layout, &[Rule::OutOfFile])?;
    segment_faults(alloc.clone()?, faults, layout)?;
    memory_shared(faults, alloc.clone()?, layout)?;
    files_shared(faults, alloc.clone()?, layout)?;
    report_header(faults, layout, &[Rule::NoSegmentOfHeader])?;
    Ok(())
}

/// Adds the faults of the sections, of the claims, and of `__LINKEDIT` and encrypted ranges.
pub fn add_sections<B: Allocator + Clone>(
    faults: &mut Vec<LayoutFault, B>,
    alloc: &B,
    layout: &Layout<'_, '_>,
) -> Result<()>
    ensures reported { OnOk result (AddsSections (laid_of layout.now) faults.old.items faults.new.items) }
    ensures only { IsOkUnlessMemory result }
{
    section_faults(faults, layout)?;
    sections_shared(faults, alloc.clone()?, layout)?;
    claims_shared(faults, alloc.clone()?, layout)?;
    report_claims(faults, layout, &[Rule::HeaderShared, Rule::OutOfLinkedit])?;
    encrypted_faults(faults, layout)?;
    Ok(())
}

/// Adds the faults of the symbols, of the entry and of texts.
pub fn add_symbols<B: Allocator>(
    faults: &mut Vec<LayoutFault, B>,
    layout: &Layout<'_, '_>,
) -> Result<()>
    ensures reported { let laid = laid_of layout.now in OnOk result (faults.new.items
        ≡ faults.old.items ++ symbols.symbol_faults laid ++ entry.entry_faults laid ++ texts.text_faults laid) }
    ensures only { IsOkUnlessMemory result }
{
    symbol_faults(faults, layout)?;
    entry_faults(faults, layout)?;
    text_faults(faults, layout)?;
    Ok(())
}
