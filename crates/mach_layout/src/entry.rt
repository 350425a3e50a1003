//! Rules of the place at which an executable begins to run.

ghost use Rattle.std.specs.Prelude.{◌≡◌, ◌++◌, OnOk, find, map, option_map, option_to_list};
ghost use Rattle.std.specs.List.{list_any};
ghost use Rattle.mach_base.specs.Answer.{IsOkUnlessMemory};
ghost use Rattle.mach_load.specs.Variants.{command_of, kind_in, variant_values};
ghost use Rattle.mach_layout.specs.Entry as defined;
ghost use Rattle.mach_layout.specs.Laid.{laid_of, segments_of};

use crate::fault::{LayoutFault, Part, Rule};
use crate::header::header_owner;
use crate::layout::Layout;
use crate::placed_sections::PlacedSegment;
use crate::rules::{RuleOutcome, measured, owner_at, report, sound};
use mach_base::Result;
use mach_load::{CommandVariant, LoadCommand};
use mach_parts::header::MH_EXECUTE;
use std::alloc::Allocator;

/// The bit of a segment's protection that makes it executable (`mach/vm_prot.h`).
const VM_PROT_EXECUTE: u32 = 4;

/// The place at which an image begins to run.
#[derive(Clone, Copy)]
pub enum EntryPlace {
    /// A place in the file.
    InFile(u64),
    /// An address.
    InMemory(u64),
}

// Whether a command states where the image begins.
fn is_entry(command: &LoadCommand) -> bool
    ensures { result ≡ defined.is_entry (command_of command.now) }
{
    matches!(
        &command.command,
        CommandVariant::Main(_) | CommandVariant::Unixthread(_)
    )
}

// Returns the first command that does.
fn first_entry(commands: &[LoadCommand]) -> Option<&LoadCommand>
    ensures { option_map (λ c. command_of c.now) result ≡ find defined.is_entry (map command_of commands.now) }
{
    for command in commands {
        if is_entry(command) {
            return Some(command);
        }
    }
    None
}

// Returns the place that such a command states.
fn entry_place(cputype: u32, command: &CommandVariant) -> Option<EntryPlace>
    ensures { result ≡ defined.entry_place cputype (kind_in command.now) (variant_values command.now) }
{
    match command {
        CommandVariant::Main(c) => Some(EntryPlace::InFile(c.entryoff)),
        CommandVariant::Unixthread(c) => match c.instruction_pointer(cputype) {
            Ok(address) => Some(EntryPlace::InMemory(address)),
            Err(_) => None,
        },
        _ => None,
    }
}

/// Whether a segment is executable by its initial protection.
pub fn is_code(segment: &PlacedSegment) -> bool
    ensures { result ≡ defined.is_code segment.now }
{
    segment.command.initprot & VM_PROT_EXECUTE != 0
}

// Whether a number is one of `len` numbers from a start on.
fn is_among(start: u64, len: u64, number: u64) -> bool
    ensures { result ≡ defined.is_among start len number }
{
    start <= number && number - start < len
}

// Whether a place lies in this segment and the segment is executable.
fn is_code_at(place: EntryPlace, segment: &PlacedSegment) -> bool
    ensures { result ≡ defined.is_code_at place segment.now }
{
    let command = &segment.command;
    is_code(segment)
        && match place {
            EntryPlace::InFile(place) => is_among(command.fileoff, command.filesize, place),
            EntryPlace::InMemory(address) => is_among(command.vmaddr, command.vmsize, address),
        }
}

// Whether a place lies in an executable segment.
fn is_in_code(layout: &Layout<'_, '_>, place: EntryPlace) -> bool
    ensures { result ≡ list_any (defined.is_code_at place) (segments_of (laid_of layout.now)) }
{
    for segment in layout.segments() {
        if is_code_at(place, &segment) {
            return true;
        }
    }
    false
}

// Whether a place in the file lies after the commands.
fn is_after_commands(layout: &Layout<'_, '_>, place: EntryPlace) -> bool
    ensures { result ≡ defined.is_after_commands (laid_of layout.now) place }
{
    match place {
        EntryPlace::InFile(place) => layout.used_end() <= place,
        EntryPlace::InMemory(_) => true,
    }
}

// Checks the entry.
fn entry_view_of(layout: &Layout<'_, '_>, place: EntryPlace) -> RuleOutcome
    ensures { result ≡ defined.entry_sees (laid_of layout.now) place }
{
    let (EntryPlace::InFile(found) | EntryPlace::InMemory(found)) = place;
    let holds = is_after_commands(layout, place) && is_in_code(layout, place);
    measured(holds, found, layout.used_end())
}

// Adds the fault of the first command that states where the image begins, or the fault that there is none.
fn report_entry<A: Allocator>(
    faults: &mut Vec<LayoutFault, A>,
    layout: &Layout<'_, '_>,
) -> Result<()>
    ensures reported { let laid = laid_of layout.now in OnOk result (faults.new.items
        ≡ faults.old.items ++ option_to_list (defined.entry_fault laid (find defined.is_entry laid.commands))) }
    ensures only { IsOkUnlessMemory result }
{
    let Some(command) = first_entry(layout.commands) else {
        report(faults, Rule::NoEntry, header_owner(), measured(false, 0, 0))?;
        return Ok(());
    };
    let outcome = match entry_place(layout.header.cputype, &command.command) {
        Some(place) => entry_view_of(layout, place),
        None => sound(),
    };
    let owner = owner_at(Part::Entry, command.offset, 0);
    report(faults, Rule::EntryOutOfCode, owner, outcome)?;
    Ok(())
}

/// Adds the faults of the entry.
pub fn entry_faults<A: Allocator>(
    faults: &mut Vec<LayoutFault, A>,
    layout: &Layout<'_, '_>,
) -> Result<()>
    ensures reported { OnOk result (faults.new.items ≡ faults.old.items ++ defined.entry_faults (laid_of layout.now)) }
    ensures only { IsOkUnlessMemory result }
{
    if layout.header.filetype != MH_EXECUTE {
        return Ok(());
    }
    report_entry(faults, layout)
}
