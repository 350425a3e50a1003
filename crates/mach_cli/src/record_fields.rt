//! The fields of a load command's record, as they are shown.

ghost use Rattle.std.specs.Prelude.{◌≡◌, ◌∷◌, [], map, unwrap_or, MatchOption, OnOk};
ghost use Rattle.std.specs.Io.KnownBytes.{Appends};
ghost use Rattle.std.specs.List.{flat_map};
ghost use Rattle.std.specs.Result.{result_ok};
ghost use Rattle.mach_base.specs.Text.{text_at};
ghost use Rattle.mach_records.specs.NumberNames.{platform_name, rights_text};
ghost use Rattle.mach_dyld.specs.Exports.{text_in};
ghost use Rattle.mach_command_fields.specs.FieldRows.{field_seen};
ghost use Rattle.mach_cli.specs.Fields.{comma_member, named, named_value, pair_field, value_view};
ghost use Rattle.mach_cli.specs.RecordFields.{bytes_named, low, offset_name, record_shown, shown_left, uuid_value, value_by};

use crate::fields::{Field, Value, print_next_member, print_pair};
use crate::json::text::{name_in_field, text_at};
use goblin_mach::Endian;
use goblin_mach::names::{platform_name, rights_name};
use mach_command_fields::{CommandField, CommandFields, FieldKind, command_slice};
use std::io;
use std::io::Write;

// Returns the low 32 bits of a number, which are all of one of four bytes.
fn low(number: u64) -> u32
    ensures { result ≡ low number }
{
    (number % 0x1_0000_0000) as u32
}

// Returns the number of a platform by its name, if it has one.
fn platform(number: u32) -> Value<'static>
    ensures { value_view result ≡ named number (unwrap_or (platform_name number) []) }
{
    match platform_name(number) {
        Some(name) => Value::Named(u64::from(number), name),
        None => Value::Named(u64::from(number), ""),
    }
}

/// Returns a protection by its letters.
pub fn rights(protection: u32) -> Value<'static>
    ensures { value_view result ≡ named protection (rights_text protection) }
{
    Value::Named(u64::from(protection), rights_name(protection))
}

// Returns the name of the member that has the offset of a text.
fn offset_name(name: &'static str) -> &'static str
    ensures { result.now ≡ offset_name name.now }
{
    match name {
        "umbrella" => "umbrella_offset",
        "sub_umbrella" => "sub_umbrella_offset",
        "client" => "client_offset",
        "sub_library" => "sub_library_offset",
        "path" => "path_offset",
        "entry_id" => "entry_id_offset",
        "triple" => "triple_offset",
        _ => "name_offset",
    }
}

// Returns the bytes that a field names, none if it names no bytes.
fn bytes_named<'a>(bytes: &'a [u8], field: &CommandField) -> &'a [u8]
    ensures { result.now ≡ bytes_named bytes.now (field_seen field.now).bytes }
{
    match field.bytes {
        Some((place, len)) => command_slice(bytes, place, len),
        None => &[],
    }
}

// Returns the UUID with which these bytes begin, if there are enough.
fn uuid_value(bytes: &[u8]) -> Value<'static>
    ensures { value_view result ≡ uuid_value bytes.now }
{
    if bytes.len() < 16 {
        return Value::OptionalText(None);
    }
    let mut uuid = [0; 16];
    uuid.copy_from_slice(&bytes[..16]);
    Value::Uuid(uuid)
}

/// The fields of the record of a load command that are left. A text has its offset after it.
#[derive(Clone, Copy)]
pub struct RecordFields<'a> {
    // The bytes that hold the command.
    bytes: &'a [u8],
    // Its own bytes, which have its texts.
    own: &'a [u8],
    // The name and the value of the offset of a text, if that comes next.
    offset: Option<(&'static str, u64)>,
    // The fields after it.
    fields: CommandFields<'a>,
}

impl<'a> RecordFields<'a> {
    /// Returns the fields of the command of `size` bytes at a place, by its number `cmd`. The record is read whatever the size.
    pub fn of(bytes: &'a [u8], le: Endian, place: usize, size: usize, cmd: u32) -> Self
        ensures { shown_left result ≡ record_shown le bytes.now place size cmd }
    {
        RecordFields {
            bytes,
            own: command_slice(bytes, place, size),
            offset: None,
            fields: CommandFields::of_record(bytes, le, place, size, cmd),
        }
    }

    // Returns the value of a field.
    fn value_of(&self, field: &CommandField) -> Value<'a>
        ensures { value_view result ≡ value_by field.now.kind self.now.bytes.now self.now.own.now (field_seen field.now) }
    {
        let number = field.number;
        match field.kind {
            FieldKind::Number => Value::Number(number),
            FieldKind::Hexadecimal => Value::Hex(number),
            FieldKind::Version => Value::Version(low(number)),
            FieldKind::SourceVersion => Value::SourceVersion(number),
            FieldKind::Platform => platform(low(number)),
            FieldKind::Protection => rights(low(number)),
            FieldKind::Name => Value::OptionalText(name_in_field(bytes_named(self.bytes, field))),
            FieldKind::Text => Value::OptionalText(text_at(self.own, number as usize)),
            FieldKind::Uuid => uuid_value(bytes_named(self.bytes, field)),
        }
    }

    // Returns the name and the value of the next field.
    fn next_field(&mut self) -> Option<(&'static str, Value<'a>)>
        ensures { MatchOption result (shown_left self.old ≡ []) (λ f. shown_left self.old ≡ (f.0.now, value_view f.1) ∷ shown_left self.new) }
    {
        if let Some((name, offset)) = self.offset {
            self.offset = None;
            return Some((name, Value::Number(offset)));
        }
        let field = self.fields.next_field()?;
        if let FieldKind::Text = field.kind {
            self.offset = Some((offset_name(field.name), field.number));
        }
        Some((field.name, self.value_of(&field)))
    }
}

/// Prints each field of a record after its name.
pub fn print_record_pairs<O: Write>(mut shown: RecordFields<'_>, out: &mut O) -> io::Result<()>
    ensures { OnOk result (Appends (O.contents out.old) (O.contents out.new) (flat_map pair_field (map named_value (shown_left shown.entry)))) }
{
    'fields: while let Some((name, value)) = shown.next_field() {
        print_pair(&Field::of_object(name, value), out)?;
    }
    Ok(())
}

/// Prints each field of a record as a member after a comma.
pub fn print_record_members<O: Write>(mut shown: RecordFields<'_>, out: &mut O) -> io::Result<()>
    ensures { OnOk result (Appends (O.contents out.old) (O.contents out.new) (flat_map comma_member (map named_value (shown_left shown.entry)))) }
{
    'fields: while let Some((name, value)) = shown.next_field() {
        print_next_member(&Field::of_object(name, value), out)?;
    }
    Ok(())
}
