//! The commands that an image may have only once.

ghost use Rattle.std.specs.Prelude.{◌≡◌, ◌++◌, ◌<◌, [], OnOk, IfSome, map, option_and_then};
ghost use Rattle.mach_base.specs.Answer.{IsOkUnlessMemory};
ghost use Rattle.mach_base.specs.Record.{number_among};
ghost use Rattle.mach_load.specs.Newer.{newer_kind};
ghost use Rattle.mach_load.specs.Variants.{command_of, kind_in, variant_values};
ghost use Rattle.mach_layout.specs.Commands as defined;

use crate::commands::{command_owner, number_of};
use crate::fault::{LayoutFault, Owner, Rule};
use mach_base::Result;
use mach_load::{CommandVariant, LoadCommand};
use mach_records::{LC_ATOM_INFO, LC_FUNCTION_VARIANT_FIXUPS, LC_FUNCTION_VARIANTS};
use std::alloc::Allocator;

// The number of sets.
const SETS: usize = 25;

// Returns the number of the set of a command that goblin's table lacks, by the command's number.
fn newer_set(cmd: u32) -> Option<usize>
    ensures value { result ≡ option_and_then defined.newer_set (newer_kind cmd) }
    ensures few { IfSome result (λ set. set < SETS) }
{
    match cmd {
        LC_ATOM_INFO => Some(22),
        LC_FUNCTION_VARIANTS => Some(23),
        LC_FUNCTION_VARIANT_FIXUPS => Some(24),
        _ => None,
    }
}

// Returns the number of a command's set, if it belongs to one.
fn set_of(command: &CommandVariant) -> Option<usize>
    ensures value { result ≡ defined.set_of (kind_in command.now) (number_among (variant_values command.now) 0) }
    ensures few { IfSome result (λ set. set < SETS) }
{
    match command {
        CommandVariant::Symtab(_) => Some(0),
        CommandVariant::Dysymtab(_) => Some(1),
        CommandVariant::DyldInfo(_) | CommandVariant::DyldInfoOnly(_) => Some(2),
        CommandVariant::IdDylib(_) => Some(3),
        CommandVariant::LoadDylinker(_) => Some(4),
        CommandVariant::IdDylinker(_) => Some(5),
        CommandVariant::Main(_) | CommandVariant::Unixthread(_) => Some(6),
        CommandVariant::Uuid(_) => Some(7),
        CommandVariant::SourceVersion(_) => Some(8),
        CommandVariant::VersionMinMacosx(_)
        | CommandVariant::VersionMinIphoneos(_)
        | CommandVariant::VersionMinTvos(_)
        | CommandVariant::VersionMinWatchos(_) => Some(9),
        CommandVariant::Routines32(_) | CommandVariant::Routines64(_) => Some(10),
        CommandVariant::TwolevelHints(_) => Some(11),
        CommandVariant::PrebindCksum(_) => Some(12),
        CommandVariant::EncryptionInfo32(_) | CommandVariant::EncryptionInfo64(_) => Some(13),
        CommandVariant::CodeSignature(_) => Some(14),
        CommandVariant::SegmentSplitInfo(_) => Some(15),
        CommandVariant::FunctionStarts(_) => Some(16),
        CommandVariant::DataInCode(_) => Some(17),
        CommandVariant::DylibCodeSignDrs(_) => Some(18),
        CommandVariant::LinkerOptimizationHint(_) => Some(19),
        CommandVariant::DyldExportsTrie(_) => Some(20),
        CommandVariant::DyldChainedFixups(_) => Some(21),
        CommandVariant::Segment32(_)
        | CommandVariant::Symseg(_)
        | CommandVariant::Thread(_)
        | CommandVariant::LoadFvmlib(_)
        | CommandVariant::IdFvmlib(_)
        | CommandVariant::Ident(_)
        | CommandVariant::Fvmfile(_)
        | CommandVariant::Prepage(_)
        | CommandVariant::LoadDylib(_)
        | CommandVariant::PreboundDylib(_)
        | CommandVariant::SubFramework(_)
        | CommandVariant::SubUmbrella(_)
        | CommandVariant::SubClient(_)
        | CommandVariant::SubLibrary(_)
        | CommandVariant::Segment64(_)
        | CommandVariant::LazyLoadDylib(_)
        | CommandVariant::DyldEnvironment(_)
        | CommandVariant::LinkerOption(_)
        | CommandVariant::Note(_)
        | CommandVariant::BuildVersion(_)
        | CommandVariant::LoadWeakDylib(_)
        | CommandVariant::Rpath(_)
        | CommandVariant::ReexportDylib(_)
        | CommandVariant::LoadUpwardDylib(_)
        | CommandVariant::FilesetEntry(_) => None,
        CommandVariant::Unimplemented(c) => newer_set(c.cmd),
    }
}

// Returns the fault of a command that isn't the first one of its set.
fn once_more(command: &LoadCommand, first: Owner) -> LayoutFault
    ensures { result ≡ defined.once_more (command_of command.now) first }
{
    LayoutFault {
        rule: Rule::CommandAgain,
        owner: command_owner(command),
        other: Some(first),
        found: number_of(command),
        limit: 1,
    }
}

/// Adds a fault for each command with an earlier one of its set.
pub fn report_again<A: Allocator>(
    faults: &mut Vec<LayoutFault, A>,
    commands: &[LoadCommand],
) -> Result<()>
    ensures reported { OnOk result (faults.new.items ≡ faults.old.items ++ defined.commands_again [] (map command_of commands.now)) }
    ensures only { IsOkUnlessMemory result }
{
    let mut firsts: [Option<Owner>; SETS] = [None; SETS];
    for command in commands {
        let Some(set) = set_of(&command.command) else {
            continue;
        };
        match firsts[set] {
            Some(first) => faults.push(once_more(command, first))?,
            None => firsts[set] = Some(command_owner(command)),
        }
    }
    Ok(())
}
