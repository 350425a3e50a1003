//! Rules of the header and of load commands.

ghost use Rattle.std.specs.Prelude.{◌≡◌, ◌++◌, ◌+◌, ◌*◌, ◌<◌, ◌≤◌, OnOk, length, map, take, drop};
ghost use Rattle.std.specs.List.{list_any};
ghost use Rattle.mach_base.specs.Answer.{IsOkUnlessMemory};
ghost use Rattle.mach_load.specs.Command.{cmd_of, cmdsize_of};
ghost use Rattle.mach_load.specs.Variants.{command_of, kind_in};
ghost use Rattle.mach_layout.specs.Laid.{laid_of};
ghost use Rattle.mach_layout.specs.Commands as defined;
ghost use Rattle.mach_layout.specs.declared.fault.Rule.TheVariants as rules_named;

mod firsts;
mod sizes;

use crate::commands::firsts::report_again;
use crate::commands::sizes::{StructSize, struct_size};
use crate::fault::{LayoutFault, Owner, Part, Rule};
use crate::header::report_header;
use crate::layout::{Layout, ends_past, range_end};
use crate::libraries::{is_id, is_library_file, place_view_of, text_outcome};
use crate::rules::{Judges, RuleOutcome, measured, owner_at, report_each, sound};
use mach_base::{Container, Endian, Record, Result};
use mach_load::{CommandVariant, LoadCommand};
use mach_records::{
    BuildToolVersion, BuildVersionCommand, LC_SEGMENT, LC_SEGMENT_64, LC_SYMTAB, LC_THREAD,
    Section32, Section64, SegmentCommand32, SegmentCommand64,
};
use std::alloc::Allocator;

const MH_CORE: u32 = 4;

/// Returns the command as the owner of a fault.
pub fn command_owner(command: &LoadCommand) -> Owner
    ensures { result ≡ defined.command_owner (command_of command.now) }
{
    owner_at(Part::Command, command.offset, 0)
}

// Returns the size of a command.
fn size_of(command: &LoadCommand) -> u64
    ensures { result ≡ cmdsize_of (command_of command.now) }
{
    command.command.cmdsize() as u64
}

/// Returns the number of a command.
pub fn number_of(command: &LoadCommand) -> u64
    ensures { result ≡ cmd_of (command_of command.now) }
{
    u64::from(command.command.cmd())
}

// Compares the size of a command with that of its struct.
fn size_outcome(size: u64, expected: StructSize) -> RuleOutcome
    ensures { result ≡ defined.size_sees size expected }
{
    match expected {
        StructSize::Exactly(n) => measured(size == n as u64, size, n as u64),
        StructSize::AtLeast(n) => measured(size >= n as u64, size, n as u64),
    }
}

// Returns the unit of which the size of a command must be a multiple.
fn unit_of(layout: &Layout<'_, '_>, command: &LoadCommand) -> u64
    ensures value { result ≡ defined.unit_of (laid_of layout.now) (command_of command.now) }
    ensures positive { 0 < result }
{
    if layout.header.filetype == MH_CORE && command.command.cmd() == LC_THREAD {
        4
    } else {
        layout.ctx.size() as u64
    }
}

/// Returns `len` bytes at a place, or as many as there are.
pub fn bytes_from(bytes: &[u8], place: usize, len: usize) -> &[u8]
    ensures { result.now ≡ take len (drop place bytes.now) }
{
    let Some(rest) = bytes.get(place..) else {
        return &[];
    };
    rest.get(..len).unwrap_or(rest)
}

// Returns how many bytes the thread states take that follow each other from the start of `rest`.
fn states_size(mut rest: &[u8], le: Endian) -> usize
    ensures value { result ≡ defined.states_size (length rest.now) le rest.now }
    ensures within { result ≤ length rest.now }
{
    let mut size = 0;
    while rest.len() >= 8 {
        let words = le.u32_at(rest, 4) as usize;
        let state = 8 + 4 * words;
        let Some(next) = rest.get(state..) else {
            return size;
        };
        size += state;
        rest = next;
    }
    size
}

// Returns the size of a thread command with its states.
fn thread_size(layout: &Layout<'_, '_>, command: &LoadCommand) -> u64
    ensures { result ≡ defined.thread_size (laid_of layout.now) (command_of command.now) }
{
    let place = command.offset.saturating_add(8);
    let len = command.command.cmdsize().saturating_sub(8);
    8 + states_size(bytes_from(layout.bytes, place, len), layout.ctx.le) as u64
}

// Returns the size of a struct with `count` items after it.
fn size_with(size: usize, count: u32, each: usize) -> u64
    requires small { (size ≤ 80) × (each ≤ 80) }
    ensures { result ≡ size + each * count }
{
    size as u64 + each as u64 * u64::from(count)
}

// Returns the size of a command with the items that it counts.
fn counted_size(layout: &Layout<'_, '_>, command: &LoadCommand) -> Option<u64>
    ensures { let c = command_of command.now in result ≡ defined.counted_size (laid_of layout.now) c c.kind }
{
    match &command.command {
        CommandVariant::Segment32(c) => Some(size_with(
            SegmentCommand32::SIZE,
            c.nsects,
            Section32::SIZE,
        )),
        CommandVariant::Segment64(c) => Some(size_with(
            SegmentCommand64::SIZE,
            c.nsects,
            Section64::SIZE,
        )),
        CommandVariant::BuildVersion(c) => Some(size_with(
            BuildVersionCommand::SIZE,
            c.ntools,
            BuildToolVersion::SIZE,
        )),
        CommandVariant::Thread(_) | CommandVariant::Unixthread(_) => {
            Some(thread_size(layout, command))
        }
        _ => None,
    }
}

// Returns the number of the segment command of the image's width, if this command is one of the other width.
fn other_width(width: Container, command: &CommandVariant) -> Option<u32>
    ensures { result ≡ defined.other_width width (kind_in command.now) }
{
    match (width, command) {
        (Container::Big, CommandVariant::Segment32(_)) => Some(LC_SEGMENT_64),
        (Container::Little, CommandVariant::Segment64(_)) => Some(LC_SEGMENT),
        _ => None,
    }
}

// Whether a command is `LC_SYMTAB`.
fn is_symbols(command: &LoadCommand) -> bool
    ensures { result ≡ defined.is_symbols (command_of command.now) }
{
    matches!(&command.command, CommandVariant::Symtab(_))
}

// Whether a command is `LC_DYSYMTAB`.
fn is_dynamic(command: &LoadCommand) -> bool
    ensures { result ≡ defined.is_of_set 1 (command_of command.now) }
{
    matches!(&command.command, CommandVariant::Dysymtab(_))
}

// Whether one of the commands is `LC_SYMTAB`.
fn has_symbols(commands: &[LoadCommand]) -> bool
    ensures { result ≡ list_any defined.is_symbols (map command_of commands.now) }
{
    for command in commands {
        if is_symbols(command) {
            return true;
        }
    }
    false
}

// Checks the place where a command ends.
fn end_outcome(layout: &Layout<'_, '_>, command: &LoadCommand) -> RuleOutcome
    ensures { result ≡ defined.command_sees (laid_of layout.now) rules_named.CommandOutOfCommands (command_of command.now) }
{
    let (start, size) = (command.offset as u64, size_of(command));
    let end = layout.declared_end();
    measured(!ends_past(end, start, size), range_end(start, size), end)
}

// Checks the size of a command with the items that it counts.
fn count_outcome(layout: &Layout<'_, '_>, command: &LoadCommand) -> RuleOutcome
    ensures { result ≡ defined.command_sees (laid_of layout.now) rules_named.CommandCount (command_of command.now) }
{
    let size = size_of(command);
    match counted_size(layout, command) {
        Some(counted) => measured(size == counted, size, counted),
        None => sound(),
    }
}

// Checks the width of a segment's command.
fn width_outcome(layout: &Layout<'_, '_>, command: &LoadCommand) -> RuleOutcome
    ensures { result ≡ defined.command_sees (laid_of layout.now) rules_named.SegmentWidth (command_of command.now) }
{
    match other_width(layout.ctx.container, &command.command) {
        Some(number) => measured(false, number_of(command), u64::from(number)),
        None => sound(),
    }
}

impl Judges<LoadCommand> for Layout<'_, '_> {
    ghost use Rattle.mach_layout.specs.Commands.{owner_by, command_sees};

    ghost owner = { λ layout rule c. owner_by rule (command_of c) };

    ghost sees = { λ layout rule c. command_sees (laid_of layout) rule (command_of c) };

    fn owner(&self, rule: Rule, command: &LoadCommand) -> Owner {
        let part = match rule {
            Rule::TextMisplaced | Rule::TextEmpty => Part::Text,
            _ => Part::Command,
        };
        owner_at(part, command.offset, 0)
    }

    fn see(&self, rule: Rule, command: &LoadCommand) -> RuleOutcome {
        let size = size_of(command);
        match rule {
            Rule::CommandSize => size_outcome(size, struct_size(&command.command)),
            Rule::CommandUnaligned => {
                let unit = unit_of(self, command);
                measured(size % unit == 0, size, unit)
            }
            Rule::CommandOutOfCommands => end_outcome(self, command),
            Rule::CommandCount => count_outcome(self, command),
            Rule::SegmentWidth => width_outcome(self, command),
            Rule::DynamicSymbolsAlone => {
                let number = number_of(command);
                measured(!is_dynamic(command), number, u64::from(LC_SYMTAB))
            }
            Rule::TextMisplaced => place_view_of(self, command),
            Rule::TextEmpty => text_outcome(self, command),
            Rule::IdUnexpected => {
                let kind = u64::from(self.header.filetype);
                measured(!is_id(command) || is_library_file(self), kind, 0)
            }
            _ => sound(),
        }
    }
}

/// Adds the faults that some of these rules find in the commands.
pub fn report_commands<A: Allocator>(
    faults: &mut Vec<LayoutFault, A>,
    layout: &Layout<'_, '_>,
    rules: &[Rule],
) -> Result<()>
    ensures reported { OnOk result (faults.new.items ≡ faults.old.items ++ defined.commands_reported (laid_of layout.now) rules.now) }
    ensures only { IsOkUnlessMemory result }
{
    report_each(faults, layout, rules, layout.commands)?;
    Ok(())
}

// Adds a fault for each `LC_DYSYMTAB` of an image without symbols.
fn report_dynamic_symbols<A: Allocator>(
    faults: &mut Vec<LayoutFault, A>,
    layout: &Layout<'_, '_>,
) -> Result<()>
    ensures reported { OnOk result (faults.new.items ≡ faults.old.items ++ defined.dynamic_symbols_alone (laid_of layout.now)) }
    ensures only { IsOkUnlessMemory result }
{
    if has_symbols(layout.commands) {
        return Ok(());
    }
    report_commands(faults, layout, &[Rule::DynamicSymbolsAlone])
}

/// Adds the faults of the header and of the commands.
pub fn command_faults<A: Allocator>(
    faults: &mut Vec<LayoutFault, A>,
    layout: &Layout<'_, '_>,
) -> Result<()>
    ensures reported { OnOk result (faults.new.items ≡ faults.old.items ++ defined.command_faults (laid_of layout.now)) }
    ensures only { IsOkUnlessMemory result }
{
    let rules = [
        Rule::CommandSize,
        Rule::CommandUnaligned,
        Rule::CommandOutOfCommands,
        Rule::CommandCount,
        Rule::SegmentWidth,
    ];
    report_header(faults, layout, &[Rule::FileKind, Rule::CommandsOutOfFile])?;
    report_commands(faults, layout, &rules)?;
    report_header(faults, layout, &[Rule::CommandsEndEarly])?;
    report_again(faults, layout.commands)?;
    report_dynamic_symbols(faults, layout)
}

/// Adds the faults of texts and names.
pub fn text_faults<A: Allocator>(
    faults: &mut Vec<LayoutFault, A>,
    layout: &Layout<'_, '_>,
) -> Result<()>
    ensures reported { OnOk result (faults.new.items ≡ faults.old.items ++ defined.text_faults (laid_of layout.now)) }
    ensures only { IsOkUnlessMemory result }
{
    report_commands(faults, layout, &[Rule::TextMisplaced, Rule::TextEmpty])?;
    report_header(faults, layout, &[Rule::IdMissing])?;
    report_commands(faults, layout, &[Rule::IdUnexpected])
}
