//! The chain of an image's load commands.

ghost use Rattle.std.specs.Prelude.{◌≡◌, IfOk, IfErr, OnOk, map, length};
ghost use Rattle.mach_base.specs.Answer.{FailsAs, ErrorMeets};
ghost use Rattle.mach_load.specs.Command.{command_at};
ghost use Rattle.mach_load.specs.Variants.{command_of};
ghost use Rattle.goblin_mach.specs.Chain.{IsChain, IsBroken, IsPushed};

use mach_base::{Endian, Result};
use mach_load::LoadCommand;
use std::alloc::Allocator;

// Reads the load command at a place, and moves the place to the end of the command.
#[inline(always)]
fn push_next<A: Allocator>(
    commands: &mut Vec<LoadCommand, A>,
    bytes: &[u8],
    offset: &mut usize,
    le: Endian,
) -> Result<()>
    ensures pushed { OnOk result (IsPushed le bytes.now offset.old offset.new commands.old.items commands.new.items) }
    ensures refused { IfErr result (λ e. FailsAs e (command_at le bytes.now offset.old)) }
{
    let Some(command) = LoadCommand::quick(bytes, offset, le) else {
        return push_parsed(commands, bytes, offset, le);
    };
    commands.push(command)?;
    Ok(())
}

// Like `push_next`, for any command, including a thread, and for the fault of one that can't be read.
#[cold]
#[inline(never)]
fn push_parsed<A: Allocator>(
    commands: &mut Vec<LoadCommand, A>,
    bytes: &[u8],
    offset: &mut usize,
    le: Endian,
) -> Result<()>
    ensures pushed { OnOk result (IsPushed le bytes.now offset.old offset.new commands.old.items commands.new.items) }
    ensures refused { IfErr result (λ e. FailsAs e (command_at le bytes.now offset.old)) }
{
    commands.push(LoadCommand::parse(bytes, offset, le)?)?;
    Ok(())
}

/// Reads `count` load commands, one after the other from `first` on.
pub fn read_commands<A: Allocator>(
    alloc: A,
    bytes: &[u8],
    first: usize,
    count: usize,
    le: Endian,
) -> Result<Vec<LoadCommand, A>>
    ensures chain { IfOk result (λ v. IsChain le bytes.now first (map command_of v.items)) }
    ensures count { IfOk result (λ v. length (map command_of v.items) ≡ count) }
    ensures refused { IfErr result (ErrorMeets (IsBroken le bytes.now first count)) }
{
    let mut commands = Vec::new(alloc);
    let mut offset = first;
    for _ in 0..count {
        push_next(&mut commands, bytes, &mut offset, le)?;
    }
    Ok(commands)
}
