//! The faults of the layout of an image.

ghost use Rattle.std.specs.Prelude.{◌≡◌, IfOk, OnOk};
ghost use Rattle.mach_base.specs.Answer.{IsOkUnlessMemory};
ghost use Rattle.goblin_mach.specs.ImageFacts.{facts_view};
ghost use Rattle.goblin_mach.specs.Held.{laid_view};
ghost use Rattle.goblin_mach.specs.ListFaults.{AreListFaults};
ghost use Rattle.mach_layout.specs.Claims.{claims_of};
ghost use Rattle.mach_layout.specs.ClaimsLeft.{claims_left};
ghost use Rattle.mach_layout.specs.Faults.{AreLayoutFaults, AddsSymbols};
ghost use Rattle.mach_layout.specs.Laid.{laid_of};

use crate::layout::layout_of;
use crate::layout::lists::list_faults;
use crate::macho::MachO;
use mach_base::Result;
use mach_layout::{
    ClaimIterator, Layout, LayoutFault, add_sections, add_segments, add_symbols, data_faults,
    fixup_faults,
};
use std::alloc::Allocator;

/// Returns the ranges of the file that the parts of an image claim: that of the header and the commands, then those of each
/// command, in order. The image must have been opened at the first of its bytes. A part of no bytes claims a range of length
/// 0. It allocates nothing.
pub fn claims<'a, 'b, A: Allocator>(image: &'b MachO<'a, A>) -> ClaimIterator<'a, 'b>
    ensures { claims_left result ≡ claims_of (laid_view image.now) }
{
    layout_of(image).claims()
}

// Adds the faults of the symbols, the entry, texts, the image's lists, fixups, and data in code.
fn add_all_symbols<A: Allocator, B: Allocator>(
    faults: &mut Vec<LayoutFault, B>,
    image: &MachO<'_, A>,
    layout: &Layout<'_, '_>,
) -> Result<()>
    ensures reported { OnOk result (AddsSymbols (laid_of layout.now) (AreListFaults (facts_view image.now)) faults.old.items faults.new.items) }
    ensures only { IsOkUnlessMemory result }
{
    add_symbols(faults, layout)?;
    list_faults(faults, image)?;
    fixup_faults(faults, layout)?;
    data_faults(faults, layout)?;
    Ok(())
}

/// Returns the faults of the layout of an image, all and no others. The image must have been opened at the first of its
/// bytes. They are in the order of the rules; those of one rule are in the order of the commands, or, for two things that
/// share a range, in that of the addresses or places. The only error is out of memory.
pub fn layout_faults<A: Allocator, B: Allocator + Clone>(
    alloc: B,
    image: &MachO<'_, A>,
) -> Result<Vec<LayoutFault, B>>
    ensures listed { IfOk result (λ v. AreLayoutFaults (laid_view image.now) (AreListFaults (facts_view image.now)) v.items) }
    ensures only { IsOkUnlessMemory result }
{
    let layout = layout_of(image);
    let mut faults = Vec::new(alloc.clone()?);
    add_segments(&mut faults, &alloc, &layout)?;
    add_sections(&mut faults, &alloc, &layout)?;
    add_all_symbols(&mut faults, image, &layout)?;
    Ok(faults)
}
