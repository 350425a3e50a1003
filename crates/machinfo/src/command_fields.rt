//! What is shown of a load command, field by field: as a line, and as an object of JSON.

ghost use Rattle.std.specs.Prelude.{◌≡◌, [], Ok, map, unwrap_or, OnOk};
ghost use Rattle.std.specs.Io.KnownBytes.{Appends};
ghost use Rattle.mach_records.specs.CommandName.{command_name};
ghost use Rattle.mach_load.specs.Variants.{command_of};
ghost use Rattle.mach_cli.specs.Fields.{field_view, named, value_view};
ghost use Rattle.machinfo.specs.CommandFields.{bytes_of_command, command_head};
ghost use Rattle.machinfo.specs.NumberedCommands.{numbered_command_fields, numbered_command_view, numbered_commands_left};

use crate::commands::{NumberedCommand, NumberedCommands};
use goblin_mach::Result;
use goblin_mach::load_command::{LoadCommand, command_name};
use mach_cli::{Field, FieldsForm, ItemList, RecordFields, Value};
use mach_command_fields::command_slice;
use std::io;
use std::io::Write;

impl<'a, 'b> ItemList for NumberedCommands<'a, 'b> {
    type Item = NumberedCommand<'a, 'b>;

    ghost fields = { λ item. numbered_command_fields (numbered_command_view item) };

    ghost items_left = { λ s. map (λ c. Ok (numbered_command_fields c)) (numbered_commands_left s) };

    fn next_item(&mut self) -> Option<Result<NumberedCommand<'a, 'b>>> {
        Some(Ok(self.take_next()?))
    }

    fn write_item<F: FieldsForm, O: Write>(
        command: &NumberedCommand<'a, 'b>,
        out: &mut O,
    ) -> io::Result<()> {
        write_command::<F, O>(command, out)
    }
}

/// Writes the fields of a command in a form: its number, its offset, its size and its name, and then those of its record.
pub fn write_command<F: FieldsForm, O: Write>(
    numbered: &NumberedCommand<'_, '_>,
    out: &mut O,
) -> io::Result<()>
    ensures { OnOk result (Appends (O.contents out.old) (O.contents out.new)
        (F.fields_text (numbered_command_fields (numbered_command_view numbered.now)))) }
{
    let (bytes, command) = (numbered.bytes, numbered.command);
    let (cmd, size) = (command.command.cmd(), command.command.cmdsize());
    let record = RecordFields::of(bytes, numbered.le, command.offset, size, cmd);
    let number = Field::new("number", Value::Number(numbered.number as u64), 1).wide(3);
    F::write_record(&number, &command_head(command), record, out)
}

// Returns the number of a command by its name, if it has one.
fn named_command(cmd: u32) -> Value<'static>
    ensures { value_view result ≡ named cmd (unwrap_or (command_name cmd) []) }
{
    match command_name(cmd) {
        Some(name) => Value::Named(u64::from(cmd), name),
        None => Value::Named(u64::from(cmd), ""),
    }
}

// Returns the offset of a command, its size and its name.
fn command_head(command: &LoadCommand) -> [Field<'static>; 4]
    ensures { map field_view result ≡ command_head (command_of command.now) }
{
    let cmd = command.command.cmd();
    let size = command.command.cmdsize();
    [
        Field::new("command_offset", Value::Hex(command.offset as u64), 2).wide(7),
        Field::new("cmdsize", Value::Number(size as u64), 3).wide(4),
        Field::new("cmd", named_command(cmd), 4),
        Field::alone("command", Value::OptionalText(command_name(cmd))),
    ]
}

/// Returns the bytes of a command.
pub fn bytes_of_command<'a>(bytes: &'a [u8], command: &LoadCommand) -> &'a [u8]
    ensures { result.now ≡ bytes_of_command bytes.now (command_of command.now) }
{
    command_slice(bytes, command.offset, command.command.cmdsize())
}
