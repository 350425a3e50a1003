//! What dyld binds in an image as a list.

ghost use Rattle.std.specs.Prelude.{◌≡◌, ℕ, List, map, option_map, OnOk};
ghost use Rattle.std.specs.Io.KnownBytes.{Appends};
ghost use Rattle.mach_dyld.specs.Exports.{text_in};
ghost use Rattle.mach_parts.specs.Bindings.{binding_view};
ghost use Rattle.goblin_mach.specs.AllStretches.{part_view, part_with, parts_view};
ghost use Rattle.mach_cli.specs.Fields.{field_view};
ghost use Rattle.machinfo.specs.Imports.{imported_fields, import_from, import_shown, shown_import_view, shown_imports_left, import_section_name};
ghost use Rattle.machinfo.specs.Imports.{import_segment_name, unless_dash};

use crate::lists::{column_if, flag_field};
use crate::part_fields::text_or_dash;
use goblin_mach::{AllStretches, Binding, BindingIterator, Result, SegmentStretches};
use mach_cli::{
    Field, FieldsForm, ItemList, Value, ordinal_of, provider_name, section_name_with, stretch_name,
};
use std::alloc::Allocator;
use std::io;
use std::io::Write;

/// A bind, with the segment and the section of its pointer.
#[derive(Clone, Copy)]
pub struct Import<'a, 'p> {
    /// The bind.
    pub binding: Binding<'a>,
    /// The name of the segment.
    pub segment: Option<&'p str>,
    /// The name of the section.
    pub section: Option<&'p str>,
}

/// What is left of the binds of an image.
#[derive(Drop)]
pub struct ImportList<'a, 'b, 'p, A: Allocator> {
    /// The segments of the image.
    pub parts: &'p AllStretches<A>,
    /// The binds.
    pub bindings: BindingIterator<'a, 'b>,
}

impl<'a, 'b, 'p, A: Allocator> ItemList for ImportList<'a, 'b, 'p, A> {
    type Item = Import<'a, 'p>;

    ghost fields = { shown_import_view };

    ghost items_left = { shown_imports_left };

    fn next_item(&mut self) -> Option<Result<Import<'a, 'p>>> {
        match self.bindings.next()? {
            Ok(binding) => Some(Ok(placed(self.parts, binding))),
            Err(error) => Some(Err(error)),
        }
    }

    fn write_item<F: FieldsForm, O: Write>(import: &Import<'a, 'p>, out: &mut O) -> io::Result<()> {
        F::write(&fields_of(*import), out)
    }
}

// Returns a bind with the segment and the section of its pointer.
fn placed<'a, 'p, A: Allocator>(parts: &'p AllStretches<A>, binding: Binding<'a>) -> Import<'a, 'p>
    ensures { shown_import_view result ≡ import_shown (parts_view parts.now) (binding_view binding.entry) }
{
    let part = parts.first_with(binding.address);
    Import {
        binding,
        segment: segment_name(part),
        section: section_name(binding.address, part),
    }
}

// Returns a printed name, none if it says that there is none.
fn unless_dash(name: &str) -> Option<&str>
    ensures { text_in result ≡ unless_dash name.now }
{
    if name == "-" { None } else { Some(name) }
}

// Returns the name of a segment, if it has one.
fn segment_name<'p, A: Allocator>(part: Option<&'p SegmentStretches<A>>) -> Option<&'p str>
    ensures { text_in result ≡ import_segment_name (option_map (λ p. part_view p.now) part.entry) }
{
    unless_dash(stretch_name(&part?.memory))
}

// Returns the name of the first section of a segment that holds an address, if it has one.
fn section_name<'p, A: Allocator>(
    address: u64,
    part: Option<&'p SegmentStretches<A>>,
) -> Option<&'p str>
    ensures { text_in result ≡ import_section_name address (option_map (λ p. part_view p.now) part.entry) }
{
    unless_dash(section_name_with(part?, address)?)
}

// Returns the field for the image that a symbol comes from: its short name; if there is none, only a line has it, with the ordinal.
fn import_from<'a>(name: Option<&'a str>, ordinal: i128) -> Field<'a>
    ensures { field_view result ≡ import_from (text_in name.entry) ordinal }
{
    match name {
        Some(name) => Field::new("from", Value::Text(name), 4).wide(20),
        None => Field::of_line(Value::Signed(ordinal), 4),
    }
}

// Returns the fields of a bind: the address with the segment and the section, the image that the symbol comes from, its name, the
// addend and flags; an object also has the ordinal and the file offset.
fn fields_of<'x>(import: Import<'x, 'x>) -> [Field<'x>; 12]
    ensures { map field_view result ≡ shown_import_view import.entry }
{
    let Import {
        binding,
        segment,
        section,
    } = import;
    let ordinal = ordinal_of(&binding.provider);
    let addend = i128::from(binding.addend);
    [
        Field::new("address", Value::Hex(binding.address), 1).wide(11),
        Field::new("addend", Value::Signed(addend), column_if(addend != 0, 6)),
        import_from(provider_name(&binding.provider), ordinal),
        flag_field("is_lazy", binding.is_lazy, "lazy", 8),
        flag_field("is_weak", binding.is_weak, "weak", 7),
        Field::of_object("library", Value::Signed(ordinal)),
        Field::new("name", Value::Text(binding.name), 5),
        Field::of_object("offset", Value::Hex(binding.offset)),
        Field::alone("section", Value::OptionalText(section)),
        Field::of_line(Value::Text(text_or_dash(section)), 3).wide(16),
        Field::alone("segment", Value::OptionalText(segment)),
        Field::of_line(Value::Text(text_or_dash(segment)), 2).wide(12),
    ]
}
