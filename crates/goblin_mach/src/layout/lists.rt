//! The rules on the lists that an image returns one item at a time: each can be read to its end.

ghost use Rattle.std.specs.Prelude.{◌≡◌, ◌++◌, List, OnOk, option_to_list};
ghost use Rattle.mach_base.specs.Answer.{IsOkUnlessMemory};
ghost use Rattle.mach_dyld.specs.BindingFaults.{has_fault};
ghost use Rattle.goblin_mach.specs.ImageFacts.{facts_view};
ghost use Rattle.goblin_mach.specs.ListFaults as defined;
ghost use Rattle.goblin_mach.specs.ListFaults.{AreListFaults};
ghost use Rattle.mach_layout.specs.declared.fault.LayoutFault as listed;
ghost use Rattle.mach_load.specs.TablesLeft.{starts_left};

use crate::layout::layout_of;
use crate::macho::MachO;
use mach_base::Result;
use mach_layout::rules::add;
use mach_layout::{LayoutFault, Part, Rule, function_starts_fault, opcodes_fault};
use mach_load::FunctionStartIterator;
use std::alloc::Allocator;

// Returns a fault if it occurs.
fn reported_where(occurs: bool, fault: LayoutFault) -> Option<LayoutFault>
    ensures { option_to_list result ≡ defined.reported_where occurs fault }
{
    if occurs { Some(fault) } else { None }
}

// Whether a fault occurs among function starts.
fn is_start_fault_among(starts: FunctionStartIterator<'_>) -> bool
    ensures { result ≡ has_fault (starts_left starts.entry) }
{
    'starts: for start in starts {
        if start.is_err() {
            return true;
        }
    }
    false
}

/// Adds the faults of an image's lists: of its bindings and its rebases by opcodes, of its weak binds, and of its function
/// starts. Each list that has a fault adds one.
pub fn list_faults<A: Allocator, B: Allocator>(
    faults: &mut Vec<LayoutFault, B>,
    image: &MachO<'_, A>,
) -> Result<()>
    ensures reported { OnOk result ((more : List listed.LayoutFault) × AreListFaults (facts_view image.now) more
        × (faults.new.items ≡ faults.old.items ++ more)) }
    ensures only { IsOkUnlessMemory result }
{
    let layout = layout_of(image);
    let binds = opcodes_fault(&layout, Rule::Binds, Part::Binds);
    add(
        faults,
        reported_where(image.opcode_bindings().has_fault(), binds),
    )?;
    let rebases = opcodes_fault(&layout, Rule::Rebases, Part::RebaseOpcodes);
    add(
        faults,
        reported_where(image.opcode_rebases().has_fault(), rebases),
    )?;
    let weak_binds = opcodes_fault(&layout, Rule::WeakBinds, Part::WeakBindOpcodes);
    add(
        faults,
        reported_where(image.weak_binds().has_fault(), weak_binds),
    )?;
    let starts = function_starts_fault(&layout);
    add(
        faults,
        reported_where(is_start_fault_among(image.function_starts()), starts),
    )?;
    Ok(())
}
