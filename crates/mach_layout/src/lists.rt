//! The owners of the faults of an image's lists: the last command that names the list.

ghost use Rattle.std.specs.Prelude.{◌≡◌};
ghost use Rattle.mach_layout.specs.Lists as defined;
ghost use Rattle.mach_layout.specs.Laid.{laid_of};

use crate::fault::{LayoutFault, Part, Rule};
use crate::last_command::{Wanted, last_wanted};
use crate::layout::Layout;
use crate::symbols::fault_at;
use mach_load::{CommandVariant, LoadCommand};

/// The place of an `LC_DYLD_INFO` or `LC_DYLD_INFO_ONLY` command.
#[derive(Clone, Copy)]
pub struct PlacedDyldInfo {
    pub place: usize,
}

impl Wanted for PlacedDyldInfo {
    ghost use Rattle.mach_layout.specs.Lists.{dyld_info_of};

    ghost wanted = { dyld_info_of };

    fn of(command: &LoadCommand) -> Option<PlacedDyldInfo> {
        let place = command.offset;
        match &command.command {
            CommandVariant::DyldInfo(_) | CommandVariant::DyldInfoOnly(_) => {
                Some(PlacedDyldInfo { place })
            }
            _ => None,
        }
    }
}

/// The place of an `LC_FUNCTION_STARTS` command.
#[derive(Clone, Copy)]
pub struct PlacedStarts {
    pub place: usize,
}

impl Wanted for PlacedStarts {
    ghost use Rattle.mach_layout.specs.Lists.{function_starts_of};

    ghost wanted = { function_starts_of };

    fn of(command: &LoadCommand) -> Option<PlacedStarts> {
        let place = command.offset;
        match &command.command {
            CommandVariant::FunctionStarts(_) => Some(PlacedStarts { place }),
            _ => None,
        }
    }
}

// Returns the place of the last command with opcodes.
fn opcodes_command(layout: &Layout<'_, '_>) -> usize
    ensures { result ≡ defined.opcodes_command (laid_of layout.now) }
{
    match last_wanted::<PlacedDyldInfo>(layout.commands) {
        Some(command) => command.place,
        None => 0,
    }
}

// Returns the place of the last command with function starts.
fn starts_command(layout: &Layout<'_, '_>) -> usize
    ensures { result ≡ defined.starts_command (laid_of layout.now) }
{
    match last_wanted::<PlacedStarts>(layout.commands) {
        Some(command) => command.place,
        None => 0,
    }
}

/// Returns the fault of a rule for opcodes that have a fault, with the last command that names any as its owner.
pub fn opcodes_fault(layout: &Layout<'_, '_>, rule: Rule, part: Part) -> LayoutFault
    ensures { result ≡ defined.opcodes_fault rule part (laid_of layout.now) }
{
    fault_at(rule, part, opcodes_command(layout), 0, 0, 0)
}

/// Returns the fault for function starts that have a fault, with the last command that places any as its owner.
pub fn function_starts_fault(layout: &Layout<'_, '_>) -> LayoutFault
    ensures { result ≡ defined.function_starts_fault (laid_of layout.now) }
{
    let place = starts_command(layout);
    fault_at(Rule::FunctionStarts, Part::FunctionStarts, place, 0, 0, 0)
}
