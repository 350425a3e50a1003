//! The checks of the rules on texts of commands and on names of libraries.

ghost use Rattle.std.specs.Prelude.{◌≡◌, Some, true, map, option_and_then};
ghost use Rattle.std.specs.List.{list_any};
ghost use Rattle.mach_load.specs.Variants.{command_of};
ghost use Rattle.mach_layout.specs.Laid.{laid_of, newer_of};
ghost use Rattle.mach_layout.specs.Libraries as defined;
ghost use Rattle.mach_layout.specs.Rules.{sees_there};

use crate::commands::bytes_from;
use crate::layout::Layout;
use crate::rules::{RuleOutcome, measured, sound};
use mach_base::Record;
use mach_load::{CommandVariant, LoadCommand, NewerCommand};
use mach_parts::header::{MH_DYLIB, MH_DYLIB_STUB};
use mach_records::{
    DylibCommand, DylinkerCommand, FilesetEntryCommand, FvmfileCommand, FvmlibCommand, LcStr,
    PreboundDylibCommand, RpathCommand, SubClientCommand, SubFrameworkCommand, SubLibraryCommand,
    SubUmbrellaCommand, TargetTripleCommand,
};

/// The text of a command.
#[derive(Clone, Copy)]
pub struct CommandText {
    /// The place where it begins, counted from its command.
    pub offset: usize,
    /// The number of bytes in the struct of the command.
    pub struct_size: usize,
    /// Whether it is read up to a zero byte.
    pub is_read: bool,
}

// Returns the text at an offset, after a struct of `struct_size` bytes.
fn text_after(offset: LcStr, struct_size: usize) -> Option<CommandText>
    ensures { result ≡ Some (record { offset = offset; struct_size = struct_size; is_read = true }) }
{
    Some(CommandText {
        offset: offset as usize,
        struct_size,
        is_read: true,
    })
}

// Returns the text of a command that goblin's table lacks, if it has one.
fn newer_text(layout: &Layout<'_, '_>, command: &LoadCommand) -> Option<CommandText>
    ensures { result ≡ option_and_then defined.newer_text (newer_of (laid_of layout.now) (command_of command.now)) }
{
    match NewerCommand::of(layout.bytes, layout.ctx.le, command)? {
        NewerCommand::TargetTriple(c) => text_after(c.triple, TargetTripleCommand::SIZE),
        _ => None,
    }
}

// Returns the text of a command, if it has one.
fn text_of(layout: &Layout<'_, '_>, command: &LoadCommand) -> Option<CommandText>
    ensures { result ≡ defined.command_text (laid_of layout.now) (command_of command.now) }
{
    match &command.command {
        CommandVariant::LoadFvmlib(c) | CommandVariant::IdFvmlib(c) => {
            text_after(c.fvmlib.name, FvmlibCommand::SIZE)
        }
        CommandVariant::Fvmfile(c) => text_after(c.name, FvmfileCommand::SIZE),
        CommandVariant::LoadDylib(c)
        | CommandVariant::IdDylib(c)
        | CommandVariant::LazyLoadDylib(c)
        | CommandVariant::LoadWeakDylib(c)
        | CommandVariant::ReexportDylib(c)
        | CommandVariant::LoadUpwardDylib(c) => text_after(c.dylib.name, DylibCommand::SIZE),
        CommandVariant::LoadDylinker(c)
        | CommandVariant::IdDylinker(c)
        | CommandVariant::DyldEnvironment(c) => text_after(c.name, DylinkerCommand::SIZE),
        CommandVariant::SubFramework(c) => text_after(c.umbrella, SubFrameworkCommand::SIZE),
        CommandVariant::SubUmbrella(c) => text_after(c.sub_umbrella, SubUmbrellaCommand::SIZE),
        CommandVariant::SubClient(c) => text_after(c.client, SubClientCommand::SIZE),
        CommandVariant::SubLibrary(c) => text_after(c.sub_library, SubLibraryCommand::SIZE),
        CommandVariant::Rpath(c) => text_after(c.path, RpathCommand::SIZE),
        CommandVariant::FilesetEntry(c) => text_after(c.entry_id, FilesetEntryCommand::SIZE),
        CommandVariant::PreboundDylib(c) => Some(CommandText {
            offset: c.name as usize,
            struct_size: PreboundDylibCommand::SIZE,
            is_read: false,
        }),
        CommandVariant::Unimplemented(_) => newer_text(layout, command),
        _ => None,
    }
}

// Returns the bytes of a command from its text on.
fn bytes_from_text<'a>(bytes: &'a [u8], command: &LoadCommand, text: CommandText) -> &'a [u8]
    ensures { result.now ≡ defined.bytes_from_text bytes.now (command_of command.now) text }
{
    let place = command.offset.saturating_add(text.offset);
    let len = command.command.cmdsize().saturating_sub(text.offset);
    bytes_from(bytes, place, len)
}

// Whether the text lies in its command, after the struct.
fn lies_inside(bytes: &[u8], command: &LoadCommand, text: CommandText) -> bool
    ensures { result ≡ defined.lies_inside bytes.now (command_of command.now) text }
{
    let begins = text.struct_size <= text.offset && text.offset < command.command.cmdsize();
    begins && (!text.is_read || bytes_from_text(bytes, command, text).contains(&0))
}

// Whether some bytes begin with a zero byte.
fn begins_with_zero(bytes: &[u8]) -> bool
    ensures { result ≡ defined.begins_with_zero bytes.now }
{
    bytes.first() == Some(&0)
}

// Whether the text lies in its command, is read, and is empty.
fn is_empty_text(bytes: &[u8], command: &LoadCommand, text: CommandText) -> bool
    ensures { result ≡ defined.is_empty_text bytes.now (command_of command.now) text }
{
    let is_empty = begins_with_zero(bytes_from_text(bytes, command, text));
    lies_inside(bytes, command, text) && text.is_read && is_empty
}

/// Checks the place of a command's text.
pub fn place_view_of(layout: &Layout<'_, '_>, command: &LoadCommand) -> RuleOutcome
    ensures { let c = command_of command.now in
        result ≡ sees_there (defined.command_text (laid_of layout.now) c) (λ t. defined.place_sees layout.now.bytes.now c t) }
{
    match text_of(layout, command) {
        None => sound(),
        Some(text) => {
            let holds = lies_inside(layout.bytes, command, text);
            measured(holds, text.offset as u64, command.command.cmdsize() as u64)
        }
    }
}

/// Checks that a command's text isn't empty.
pub fn text_outcome(layout: &Layout<'_, '_>, command: &LoadCommand) -> RuleOutcome
    ensures { let c = command_of command.now in
        result ≡ sees_there (defined.command_text (laid_of layout.now) c) (λ t. defined.text_sees layout.now.bytes.now c t) }
{
    match text_of(layout, command) {
        None => sound(),
        Some(text) => {
            let holds = !is_empty_text(layout.bytes, command, text);
            measured(holds, text.offset as u64, command.command.cmdsize() as u64)
        }
    }
}

/// Whether the file is a library or a stub library.
pub fn is_library_file(layout: &Layout<'_, '_>) -> bool
    ensures { result ≡ defined.is_library_file (laid_of layout.now) }
{
    let kind = layout.header.filetype;
    kind == MH_DYLIB || kind == MH_DYLIB_STUB
}

/// Whether a command states the library's own name.
pub fn is_id(command: &LoadCommand) -> bool
    ensures { result ≡ defined.says_id (command_of command.now) }
{
    matches!(&command.command, CommandVariant::IdDylib(_))
}

/// Whether one of the commands does.
pub fn has_id(commands: &[LoadCommand]) -> bool
    ensures { result ≡ list_any defined.says_id (map command_of commands.now) }
{
    for command in commands {
        if is_id(command) {
            return true;
        }
    }
    false
}
