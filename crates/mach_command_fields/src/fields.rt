//! The fields of a load command, one after another.

ghost use Rattle.std.specs.Prelude.{◌≡◌, ◌+◌, ◌≤◌, drop, length};
ghost use Rattle.std.specs.Iterator.{YieldsFirstBy};
ghost use Rattle.mach_command_fields.specs.CommandTables.{field_place};
ghost use Rattle.mach_command_fields.specs.FieldRows.{command_slice, field_bytes_in, field_in, number_in_field, field_seen, fields_at, fields_left};
ghost use Rattle.mach_command_fields.specs.FieldRows.{padded_name, record_fields_at, text_bytes_in};

use crate::kind::FieldKind;
use crate::tables::{PlacedField, fields_of};
use crate::zero::before_zero;
use mach_base::Endian;

/// A field of a load command.
#[derive(Clone, Copy, Debug)]
pub struct CommandField {
    /// Its name in the format.
    pub name: &'static str,
    /// How it is read.
    pub kind: FieldKind,
    /// The number of its bytes.
    pub width: u32,
    /// Its number; 0 of a name and of a UUID.
    pub number: u64,
    /// The place and the length of its name, text or UUID, if the command has it.
    pub bytes: Option<(usize, usize)>,
}

impl CommandField {
    /// Returns its name as a text of 24 bytes, padded with zeros.
    pub fn padded_name(&self) -> [u8; 24]
        ensures { result ≡ padded_name self.now.name.now }
    {
        let words = self.name.as_bytes();
        let end = words.len().min(23);
        let mut name = [0; 24];
        name[..end].copy_from_slice(&words[..end]);
        name
    }
}

/// The fields of a load command that are left.
#[derive(Clone, Copy)]
pub struct CommandFields<'a> {
    // The bytes in which the record is read.
    entry: &'a [u8],
    // The bytes of the command, which have its texts.
    own: &'a [u8],
    place: usize,
    le: Endian,
    rest: &'static [PlacedField],
}

// Returns the bytes from a place on, none past their end.
fn rest_from(bytes: &[u8], place: usize) -> &[u8]
    ensures { result.now ≡ drop place bytes.now }
{
    &bytes[place.min(bytes.len())..]
}

/// Returns the `size` bytes from a place on, or those that are there.
pub fn command_slice(bytes: &[u8], place: usize, size: usize) -> &[u8]
    ensures { result.now ≡ command_slice bytes.now place size }
{
    let rest = rest_from(bytes, place);
    &rest[..size.min(rest.len())]
}

// Returns the number of a field of four or of eight bytes, and 0 of others.
fn number_at(bytes: &[u8], le: Endian, place: usize, width: u32) -> u64
    requires { place + width ≤ length bytes.now }
    ensures { result ≡ number_in_field le width (drop place bytes.now) }
{
    match width {
        4 => u64::from(le.u32_at(bytes, place)),
        8 => le.u64_at(bytes, place),
        _ => 0,
    }
}

impl<'a> CommandFields<'a> {
    /// Returns the fields of the command of `size` bytes at a place, by its number `cmd`. They end before the first that these bytes
    /// don't hold. A command without a table has none.
    pub fn of(bytes: &'a [u8], le: Endian, place: usize, size: usize, cmd: u32) -> Self
        ensures fields { fields_left result ≡ fields_at le bytes.now place size cmd }
        ensures most { length (fields_left result) ≤ 18 }
    {
        let own = command_slice(bytes, place, size);
        CommandFields {
            entry: own,
            own,
            place,
            le,
            rest: fields_of(cmd),
        }
    }

    /// Returns the fields of its record as it is read, whatever the command's size. They end before the first that the bytes from the
    /// place on don't hold. Texts lie in the command.
    pub fn of_record(bytes: &'a [u8], le: Endian, place: usize, size: usize, cmd: u32) -> Self
        ensures { fields_left result ≡ record_fields_at le bytes.now place size cmd }
    {
        CommandFields {
            entry: rest_from(bytes, place),
            own: command_slice(bytes, place, size),
            place,
            le,
            rest: fields_of(cmd),
        }
    }

    // Returns the place and the length of the bytes that a field names.
    fn bytes_of(&self, field: &PlacedField, number: u64) -> Option<(usize, usize)>
        requires { let f = field_place field.now in f.offset + f.width ≤ length self.now.entry.now }
        ensures { let f = field_place field.now in
            result ≡ field_bytes_in f.kind self.now.entry.now self.now.own.now self.now.place f.offset f.width number }
    {
        let (_, kind, offset, width) = *field;
        let (offset, width) = (offset as usize, width as usize);
        let from = self.place.saturating_add(offset);
        match kind {
            FieldKind::Name => Some((from, before_zero(&self.entry[offset..offset + width]).len())),
            FieldKind::Uuid => Some((from, width)),
            FieldKind::Text => self.text_at(number as usize),
            _ => None,
        }
    }

    // Returns the place and the length of the text that begins at an offset of the command.
    fn text_at(&self, offset: usize) -> Option<(usize, usize)>
        ensures { result ≡ text_bytes_in self.now.own.now self.now.place offset }
    {
        if offset >= self.own.len() {
            return None;
        }
        let from = self.place.saturating_add(offset);
        Some((from, before_zero(&self.own[offset..]).len()))
    }

    // Returns a field that the command's bytes hold.
    fn field(&self, field: &PlacedField) -> CommandField
        requires { let f = field_place field.now in f.offset + f.width ≤ length self.now.entry.now }
        ensures { field_seen result ≡ field_in self.now.le self.now.entry.now self.now.own.now self.now.place (field_place field.now) }
    {
        let (name, kind, offset, width) = *field;
        let number = number_at(self.entry, self.le, offset as usize, width);
        CommandField {
            name,
            kind,
            width,
            number,
            bytes: self.bytes_of(field, number),
        }
    }

    /// Returns the next field.
    pub fn next_field(&mut self) -> Option<CommandField>
        ensures { YieldsFirstBy field_seen fields_left self.old result self.new }
    {
        let [field, rest @ ..] = self.rest else {
            return None;
        };
        let (_, _, offset, width) = *field;
        if offset as usize + width as usize > self.entry.len() {
            return None;
        }
        let found = self.field(field);
        self.rest = rest;
        Some(found)
    }
}
