//! What is shown of a row of load commands, field by field: as a line, and as an object of JSON.

ghost use Rattle.std.specs.Prelude.{◌≡◌, Ok, map, OnOk};
ghost use Rattle.std.specs.Io.KnownBytes.{Appends};
ghost use Rattle.mach_dyld.specs.Exports.{text_in};
ghost use Rattle.mach_records.specs.Segments.{section32_values, section64_values};
ghost use Rattle.mach_base.specs.declared.context.Container.TheVariants.{Little, Big};
ghost use Rattle.mach_cli.specs.Fields.{field_view};
ghost use Rattle.machinfo.specs.CommandRowFields as defined;
ghost use Rattle.machinfo.specs.CommandRows.{command_row_view, command_rows_left, command_section_view};
ghost use Rattle.machinfo.specs.ThreadRegisters.{register_view};

use crate::command_fields::write_command;
use crate::command_rows::{CommandRow, CommandRows};
use crate::command_sections::{CommandSection, SectionRecord};
use crate::part_fields::section_type;
use crate::registers::Register;
use goblin_mach::Result;
use goblin_mach::load_command::{Section32, Section64};
use mach_cli::{Field, FieldsForm, ItemList, Value, name_in_field};
use std::io;
use std::io::Write;

impl<'a, 'b> ItemList for CommandRows<'a, 'b> {
    type Item = CommandRow<'a, 'b>;

    ghost fields = { λ item. defined.command_row_fields (command_row_view item) };

    ghost items_left = { λ s. map (λ row. Ok (defined.command_row_fields row)) (command_rows_left s) };

    fn next_item(&mut self) -> Option<Result<CommandRow<'a, 'b>>> {
        Some(Ok(self.take_next()?))
    }

    fn write_item<F: FieldsForm, O: Write>(
        row: &CommandRow<'a, 'b>,
        out: &mut O,
    ) -> io::Result<()> {
        match row {
            CommandRow::Itself(command) => write_command::<F, O>(command, out),
            CommandRow::Section(section) => write_section::<F, O>(section, out),
            CommandRow::Register(register) => F::write(&register_fields(*register), out),
        }
    }
}

// Writes the fields of a section in a form.
fn write_section<F: FieldsForm, O: Write>(section: &CommandSection, out: &mut O) -> io::Result<()>
    ensures { OnOk result (Appends (O.contents out.old) (O.contents out.new)
        (F.fields_text (defined.command_section_fields (command_section_view section.now)))) }
{
    let head = section_head(section.command, section.number);
    match &section.record {
        SectionRecord::Narrow(record) => F::write_both(&head, &narrow_fields(record), out),
        SectionRecord::Wide(record) => F::write_both(&head, &wide_fields(record), out),
    }
}

// Returns the number of a section's command, and its own there.
fn section_head(command: usize, number: u32) -> [Field<'static>; 4]
    ensures { map field_view result ≡ defined.section_head command number }
{
    [
        Field::alone("number", Value::Number(command as u64)),
        Field::of_line(Value::Text(""), 1).wide(16),
        Field::of_line(Value::Text("section"), 2),
        Field::new("section", Value::Number(u64::from(number)), 3),
    ]
}

// Returns the type of a section in words, by its flags.
fn section_kind(flags: u32) -> Field<'static>
    ensures { field_view result ≡ defined.section_kind flags }
{
    let kind = flags % 0x100;
    Field::of_object("type", Value::Named(u64::from(kind), section_type(kind)))
}

// Returns the fields of a section of a 32-bit segment.
fn narrow_fields<'a>(s: &'a Section32) -> [Field<'a>; 12]
    ensures { map field_view result ≡ defined.section_record_shown Little (section32_values s.now) }
{
    [
        Field::of_object("sectname", Value::OptionalText(name_in_field(&s.sectname))),
        Field::of_object("segname", Value::OptionalText(name_in_field(&s.segname))),
        Field::of_object("addr", Value::Hex(u64::from(s.addr))),
        Field::of_object("size", Value::Hex(u64::from(s.size))),
        Field::of_object("offset", Value::Hex(u64::from(s.offset))),
        Field::of_object("align", Value::Number(u64::from(s.align))),
        Field::of_object("reloff", Value::Hex(u64::from(s.reloff))),
        Field::of_object("nreloc", Value::Number(u64::from(s.nreloc))),
        Field::of_object("flags", Value::Hex(u64::from(s.flags))),
        Field::of_object("reserved1", Value::Number(u64::from(s.reserved1))),
        Field::of_object("reserved2", Value::Number(u64::from(s.reserved2))),
        section_kind(s.flags),
    ]
}

// Returns the fields of a section of a 64-bit segment.
fn wide_fields<'a>(s: &'a Section64) -> [Field<'a>; 13]
    ensures { map field_view result ≡ defined.section_record_shown Big (section64_values s.now) }
{
    [
        Field::of_object("sectname", Value::OptionalText(name_in_field(&s.sectname))),
        Field::of_object("segname", Value::OptionalText(name_in_field(&s.segname))),
        Field::of_object("addr", Value::Hex(s.addr)),
        Field::of_object("size", Value::Hex(s.size)),
        Field::of_object("offset", Value::Hex(u64::from(s.offset))),
        Field::of_object("align", Value::Number(u64::from(s.align))),
        Field::of_object("reloff", Value::Hex(u64::from(s.reloff))),
        Field::of_object("nreloc", Value::Number(u64::from(s.nreloc))),
        Field::of_object("flags", Value::Hex(u64::from(s.flags))),
        Field::of_object("reserved1", Value::Number(u64::from(s.reserved1))),
        Field::of_object("reserved2", Value::Number(u64::from(s.reserved2))),
        Field::of_object("reserved3", Value::Number(u64::from(s.reserved3))),
        section_kind(s.flags),
    ]
}

// Returns a register by its name, or else by the number of its word.
fn register_label(name: Option<&'static str>, word: usize) -> Field<'static>
    ensures { field_view result ≡ defined.register_label (text_in name.entry) word }
{
    match name {
        Some(name) => Field::of_line(Value::Text(name), 2).wide(6),
        None => Field::of_line(Value::Number(word as u64), 2).wide(6),
    }
}

// Returns the fields of a register: the number of its command, its name, its value, and the number of its first word.
fn register_fields(register: Register) -> [Field<'static>; 6]
    ensures { map field_view result ≡ defined.register_fields (register_view register) }
{
    let Register {
        command,
        word,
        name,
        value,
    } = register;
    [
        Field::alone("number", Value::Number(command as u64)),
        Field::of_line(Value::Text(""), 1).wide(16),
        register_label(name, word),
        Field::alone("register", Value::OptionalText(name)),
        Field::new("value", Value::Hex(value), 3),
        Field::alone("word", Value::Number(word as u64)),
    ]
}
