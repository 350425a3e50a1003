//! What is shown of a relocation, field by field: as a line, and as an object of JSON.

ghost use Rattle.std.specs.Prelude.{◌≡◌, map, OnOk};
ghost use Rattle.std.specs.Io.KnownBytes.{Appends};
ghost use Rattle.mach_dyld.specs.Exports.{text_in};
ghost use Rattle.mach_cli.specs.Fields.{field_view};
ghost use Rattle.machinfo.specs.Relocations as defined;
ghost use Rattle.machinfo.specs.Relocations.{relocation_row_fields, relocation_view, relocation_rows_left};
ghost use Rattle.machinfo.specs.RowFields.{fields_read};

use crate::part_fields::{name_of_found, text_or_dash};
use crate::relocations::{RelocationRow, RelocationRows, Target};
use goblin_mach::Result;
use goblin_mach::relocation::reloc_to_str;
use goblin_mach::segment::NumberedSection;
use mach_cli::{Field, FieldsForm, ItemList, Value, name_in_field};
use std::alloc::Allocator;
use std::io;
use std::io::Write;

impl<'a, 'b, A: Allocator> ItemList for RelocationRows<'a, 'b, A> {
    type Item = RelocationRow<'a>;

    ghost fields = { λ row. relocation_row_fields (relocation_view row) };

    ghost items_left = { λ s. fields_read relocation_row_fields (relocation_rows_left s) };

    #[tactic(auto, using(crate::proofs::ListRows::next_fields))]
    fn next_item(&mut self) -> Option<Result<RelocationRow<'a>>> {
        self.take_next()
    }

    fn write_item<F: FieldsForm, O: Write>(row: &RelocationRow<'a>, out: &mut O) -> io::Result<()> {
        write_relocation::<F, O>(row, out)
    }
}

// Writes the fields of a relocation in a form.
fn write_relocation<F: FieldsForm, O: Write>(row: &RelocationRow<'_>, out: &mut O) -> io::Result<()>
    ensures { OnOk result (Appends (O.contents out.old) (O.contents out.new) (F.fields_text (relocation_row_fields (relocation_view row.now)))) }
{
    let members = relocation_members(row);
    match &row.target {
        Target::Symbol(number, name) => F::write_both(
            &members,
            &symbol_members(*number, name),
            out,
        ),
        Target::Section(number, found) => F::write_both(
            &members,
            &section_members(*number, found),
            out,
        ),
        Target::Absolute => F::write_both(&members, &absolute_members(), out),
        Target::Addend(addend) => F::write_both(&members, &addend_members(*addend), out),
        Target::Value(value) => F::write_both(&members, &value_members(*value), out),
    }
}

// Returns the fields of a relocation, but for what it refers to.
fn relocation_members<'x>(row: &'x RelocationRow<'_>) -> [Field<'x>; 10]
    ensures { map field_view result ≡ defined.relocation_members (relocation_view row.now) }
{
    let section = &row.section.section;
    let (segname, sectname) = (
        name_in_field(&section.segname),
        name_in_field(&section.sectname),
    );
    let kind = Value::Text(reloc_to_str(row.kind, row.cputype));
    let is_pcrel = Value::Flag {
        is_so: row.is_pcrel,
        yes: "pcrel",
        no: "-",
    };
    [
        Field::alone("segment", Value::OptionalText(segname)),
        Field::of_line(Value::Text(text_or_dash(segname)), 1).wide(12),
        Field::alone("section", Value::OptionalText(sectname)),
        Field::of_line(Value::Text(text_or_dash(sectname)), 2).wide(16),
        Field::new("address", Value::Hex(u64::from(row.address)), 3).wide(8),
        Field::new("type", kind, 4).wide(23),
        Field::of_object("type_number", Value::Number(u64::from(row.kind))),
        Field::new("is_pcrel", is_pcrel, 6),
        Field::of_object("length", Value::Number(u64::from(row.length))),
        Field::new("size", Value::Number(1 << (row.length % 4)), 7),
    ]
}

// Returns the fields of a symbol, of which a line has only the name.
fn symbol_members<'x>(number: u32, name: &'x str) -> [Field<'x>; 3]
    ensures { map field_view result ≡ defined.target_members (defined.symbol_target number name.now) }
{
    [
        Field::of_object("target", Value::Text("symbol")),
        Field::of_object("number", Value::Number(u64::from(number))),
        Field::new("name", Value::Text(name), 5),
    ]
}

// Returns the name of a section, which a line has only if it is known.
fn target_name<'x>(name: Option<&'x str>) -> Field<'x>
    ensures { field_view result ≡ defined.target_name (text_in name.entry) }
{
    match name {
        Some(name) => Field::new("name", Value::Text(name), 5),
        None => Field::alone("name", Value::OptionalText(None)),
    }
}

// Returns the fields of a section, by its number.
fn section_members<'x>(number: u32, found: &'x Option<NumberedSection>) -> [Field<'x>; 3]
    ensures { map field_view result ≡ defined.target_members (defined.section_target number found.now) }
{
    [
        Field::new("target", Value::Text("section"), 5),
        Field::new("number", Value::Number(u64::from(number)), 5),
        target_name(name_of_found(found)),
    ]
}

// Returns the field of an absolute value.
fn absolute_members() -> [Field<'static>; 1]
    ensures { map field_view result ≡ defined.target_members defined.absolute_target }
{
    [Field::new("target", Value::Text("absolute"), 5)]
}

// Returns the fields of what the next relocation adds.
fn addend_members(addend: i32) -> [Field<'static>; 2]
    ensures { map field_view result ≡ defined.target_members (defined.addend_target addend) }
{
    [
        Field::new("target", Value::Text("addend"), 5),
        Field::new("addend", Value::Signed(i128::from(addend)), 5),
    ]
}

// Returns the fields of the address of a scattered relocation.
fn value_members(value: u32) -> [Field<'static>; 2]
    ensures { map field_view result ≡ defined.target_members (defined.value_target value) }
{
    [
        Field::new("target", Value::Text("value"), 5),
        Field::new("value", Value::Hex(u64::from(value)), 5),
    ]
}
