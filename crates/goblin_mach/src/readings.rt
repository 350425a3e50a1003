//! What is read from the commands of an image, subject by subject.

ghost use Rattle.std.specs.Prelude.{◌≡◌, ◌++◌, ℕ, List, map, option_map, IfOk, IfErr, OnOk};
ghost use Rattle.mach_base.specs.Answer.{ErrorMeets, IsOkUnlessMemory};
ghost use Rattle.mach_base.specs.KeptText.{kept_bytes};
ghost use Rattle.mach_base.specs.Text.{text_at, texts};
ghost use Rattle.mach_load.specs.Variants.{command_of};
ghost use Rattle.mach_dyld.specs.Exports.{text_in};
ghost use Rattle.goblin_mach.specs.Readings.{Reading, read_of, values_read, last_or, first_of, IsRead, IsRefused, AllRead, IsUnread, view_of_read};

use mach_base::{KeptText, Result};
use mach_load::LoadCommand;
use std::alloc::Allocator;

/// A subject of an image's commands: what is read from those that concern it.
pub trait Subject {
    /// What is read.
    type Value: Drop;

    // What contracts see of a value.
    ghost Seen: { Type 0 };

    ghost seen: { Self.Value → Seen };

    // What is read from each command.
    ghost reading: { Self → Reading Seen };

    /// Reads a command, if it concerns the subject.
    fn read(&self, command: &LoadCommand) -> Option<Result<Self::Value>>
        ensures { view_of_read seen result ≡ reading self.now (command_of command.now) };
}

/// Adds what a command says on a subject to a list.
#[inline(always)]
pub fn add<S: Subject, A: Allocator>(
    values: &mut Vec<S::Value, A>,
    subject: &S,
    command: &LoadCommand,
) -> Result<()>
    ensures kept { OnOk result (map S.seen values.new.items ≡ map S.seen values.old.items ++ values_read (S.reading subject.now (command_of command.now))) }
    ensures read { OnOk result (IsRead (S.reading subject.now (command_of command.now))) }
    ensures refused { IfErr result (ErrorMeets (IsRefused (S.reading subject.now (command_of command.now)))) }
{
    if let Some(found) = subject.read(command) {
        values.push(found?)?;
    }
    Ok(())
}

/// Adds what a command says on a subject to a list, if it can be read.
pub fn add_readable<S: Subject, A: Allocator>(
    values: &mut Vec<S::Value, A>,
    subject: &S,
    command: &LoadCommand,
) -> Result<()>
    ensures kept { OnOk result (map S.seen values.new.items ≡ map S.seen values.old.items ++ values_read (S.reading subject.now (command_of command.now))) }
    ensures only { IsOkUnlessMemory result }
{
    if let Some(Ok(value)) = subject.read(command) {
        values.push(value)?;
    }
    Ok(())
}

/// Replaces what an earlier command said on a subject by what this one says.
pub fn put<S: Subject>(
    last: &mut Option<S::Value>,
    subject: &S,
    command: &LoadCommand,
) -> Result<()>
    ensures kept { OnOk result (option_map S.seen last.new ≡ last_or (option_map S.seen last.old) (values_read (S.reading subject.now
        (command_of command.now)))) }
    ensures read { OnOk result (IsRead (S.reading subject.now (command_of command.now))) }
    ensures refused { IfErr result (ErrorMeets (IsRefused (S.reading subject.now (command_of command.now)))) }
{
    if let Some(found) = subject.read(command) {
        *last = Some(found?);
    }
    Ok(())
}

/// Replaces what an earlier command said on a subject by what this one says, if it can be read.
pub fn put_readable<S: Subject>(last: &mut Option<S::Value>, subject: &S, command: &LoadCommand)
    ensures { option_map S.seen last.new ≡ last_or (option_map S.seen last.old) (values_read (S.reading subject.now (command_of command.now))) }
{
    if let Some(Ok(value)) = subject.read(command) {
        *last = Some(value);
    }
}

/// A subject of commands that name texts in some bytes.
pub(crate) trait TextSubject {
    // The bytes.
    ghost bytes: { Self → List ℕ };

    // What is read from each command.
    ghost reading: { Self → Reading (List ℕ) };

    /// Returns the place of the text that a command names, if the command concerns the subject.
    fn place(&self, command: &LoadCommand) -> Option<usize>
        ensures { reading self.now (command_of command.now) ≡ option_map (text_at (bytes self.now)) result };
}

/// Adds the text that a command names to a list.
#[inline(always)]
pub(crate) fn add_text<'a, S: TextSubject, A: Allocator>(
    values: &mut Vec<&'a str, A>,
    subject: &S,
    names: &mut KeptText<'a>,
    command: &LoadCommand,
) -> Result<()>
    requires { kept_bytes names.old ≡ S.bytes subject.now }
    ensures kept { OnOk result (texts values.new.items ≡ texts values.old.items ++ values_read (S.reading subject.now (command_of command.now))) }
    ensures read { OnOk result (IsRead (S.reading subject.now (command_of command.now))) }
    ensures refused { IfErr result (ErrorMeets (IsRefused (S.reading subject.now (command_of command.now)))) }
    ensures bytes { kept_bytes names.new ≡ S.bytes subject.now }
{
    if let Some(place) = subject.place(command) {
        values.push(names.read(place)?)?;
    }
    Ok(())
}

/// Adds the text that a command names to a list, if it can be read.
pub(crate) fn add_readable_text<'a, S: TextSubject, A: Allocator>(
    values: &mut Vec<&'a str, A>,
    subject: &S,
    names: &mut KeptText<'a>,
    command: &LoadCommand,
) -> Result<()>
    requires { kept_bytes names.old ≡ S.bytes subject.now }
    ensures kept { OnOk result (texts values.new.items ≡ texts values.old.items ++ values_read (S.reading subject.now (command_of command.now))) }
    ensures only { IsOkUnlessMemory result }
    ensures bytes { kept_bytes names.new ≡ S.bytes subject.now }
{
    if let Some(place) = subject.place(command)
        && let Ok(text) = names.read(place)
    {
        values.push(text)?;
    }
    Ok(())
}

/// Replaces the text of an earlier command by the text that this one names.
pub(crate) fn put_text<'a, S: TextSubject>(
    last: &mut Option<&'a str>,
    subject: &S,
    names: &mut KeptText<'a>,
    command: &LoadCommand,
) -> Result<()>
    requires { kept_bytes names.old ≡ S.bytes subject.now }
    ensures kept { OnOk result (text_in last.new ≡ last_or (text_in last.old) (values_read (S.reading subject.now (command_of command.now)))) }
    ensures read { OnOk result (IsRead (S.reading subject.now (command_of command.now))) }
    ensures refused { IfErr result (ErrorMeets (IsRefused (S.reading subject.now (command_of command.now)))) }
    ensures bytes { kept_bytes names.new ≡ S.bytes subject.now }
{
    if let Some(place) = subject.place(command) {
        let name = names.read(place)?;
        *last = Some(name);
    }
    Ok(())
}

/// Replaces the text of an earlier command by the text that this one names, if it can be read.
pub(crate) fn put_readable_text<'a, S: TextSubject>(
    last: &mut Option<&'a str>,
    subject: &S,
    names: &mut KeptText<'a>,
    command: &LoadCommand,
)
    requires { kept_bytes names.old ≡ S.bytes subject.now }
    ensures kept { text_in last.new ≡ last_or (text_in last.old) (values_read (S.reading subject.now (command_of command.now))) }
    ensures bytes { kept_bytes names.new ≡ S.bytes subject.now }
{
    if let Some(place) = subject.place(command)
        && let Ok(text) = names.read(place)
    {
        *last = Some(text);
    }
}

/// Returns what the first command on a subject says. Fails if a command on it can't be read.
pub fn first_read<S: Subject>(subject: &S, commands: &[LoadCommand]) -> Result<Option<S::Value>>
    ensures found { IfOk result (λ first. option_map S.seen first ≡ first_of (read_of (S.reading subject.now) (map command_of commands.now))) }
    ensures all { IfOk result (λ _. AllRead (S.reading subject.now) (map command_of commands.now)) }
    ensures refused { IfErr result (ErrorMeets (IsUnread (S.reading subject.now) (map command_of commands.now))) }
{
    let mut first = None;
    for command in commands {
        let Some(found) = subject.read(command) else {
            continue;
        };
        let value = found?;
        if first.is_some() {
            continue;
        }
        first = Some(value);
    }
    Ok(first)
}

/// Returns what the first readable command on a subject says.
pub fn first_readable<S: Subject>(subject: &S, commands: &[LoadCommand]) -> Option<S::Value>
    ensures { option_map S.seen result ≡ first_of (read_of (S.reading subject.now) (map command_of commands.now)) }
{
    for command in commands {
        let Some(found) = subject.read(command) else {
            continue;
        };
        let Ok(value) = found else {
            continue;
        };
        return Some(value);
    }
    None
}
