//! What is shown of an export, field by field.

ghost use Rattle.std.specs.Prelude.{◌≡◌, ◌++◌, map, OnOk};
ghost use Rattle.std.specs.Io.KnownBytes.{Appends};
ghost use Rattle.mach_dyld.specs.Exports.{text_in};
ghost use Rattle.mach_dyld.specs.SymbolKind.{symbol_kind};
ghost use Rattle.mach_cli.specs.Fields.{field_view};
ghost use Rattle.machinfo.specs.Exports.{address_fields, exported_fields, reexport_fields, short_or_path, stub_export_fields};
ghost use Rattle.machinfo.specs.Exports.{symbol_fields, symbol_kind_word, target_field};

use goblin_mach::exports::{EXPORT_SYMBOL_FLAGS_WEAK_DEFINITION, ExportInfo, SymbolKind};
use mach_cli::{Field, FieldsForm, Value, library_short_name};
use std::io;
use std::io::Write;

/// An export: its name, its meaning, and the address of the image's first byte.
#[derive(Clone, Copy)]
pub struct Exported<'a, 'b> {
    pub base: u64,
    pub name: &'b str,
    pub info: &'b ExportInfo<'a>,
}

// Returns the word for a kind of symbol.
fn symbol_kind_word(kind: &SymbolKind) -> &'static str
    ensures { result.now ≡ symbol_kind_word kind.now }
{
    match kind {
        SymbolKind::Regular => "regular",
        SymbolKind::ThreadLocal => "thread-local",
        SymbolKind::Absolute => "absolute",
        SymbolKind::UnknownSymbolKind(_) => "unknown",
    }
}

// Returns the fields of an exported symbol by its name and its flags.
fn symbol_fields(name: &str, flags: u64) -> [Field<'_>; 4]
    ensures { map field_view result ≡ symbol_fields name.now flags }
{
    let kind = symbol_kind_word(&SymbolKind::new(flags));
    let is_weak = Value::Flag {
        is_so: flags & EXPORT_SYMBOL_FLAGS_WEAK_DEFINITION != 0,
        yes: "weak",
        no: "-   ",
    };
    [
        Field::new("name", Value::Text(name), 4),
        Field::of_object("flags", Value::Hex(flags)),
        Field::new("symbol_kind", Value::Text(kind), 2).wide(12),
        Field::new("is_weak", is_weak, 3),
    ]
}

// Returns the fields of an address, and of the number that the trie has for it.
fn address_fields(address: u64, offset: u64) -> [Field<'static>; 3]
    ensures { map field_view result ≡ address_fields address offset }
{
    [
        Field::of_object("kind", Value::Text("address")),
        Field::new("address", Value::Hex(address), 1).wide(11),
        Field::of_object("offset", Value::Hex(offset)),
    ]
}

// Returns a library's short name, or its path if it has none.
fn short_or_path<'a>(path: &'a str, short: Option<&'a str>) -> &'a str
    ensures { result.now ≡ short_or_path path.now (text_in short.entry) }
{
    short.unwrap_or(path)
}

// Returns the field of the name that a library has for a symbol, if that is another one.
fn target_field<'a>(target: Option<&'a str>) -> Field<'a>
    ensures { field_view result ≡ target_field (text_in target.entry) }
{
    match target {
        Some(name) => Field::new("target", Value::Text(name), 7),
        None => Field::of_object("target", Value::OptionalText(None)),
    }
}

// Returns the fields of a symbol of a library.
fn reexport_fields<'a>(library: &'a str, target: Option<&'a str>) -> [Field<'a>; 6]
    ensures { map field_view result ≡ reexport_fields library.now (text_in target.entry) }
{
    let short = library_short_name(library);
    [
        Field::new("kind", Value::Text("re-export"), 5),
        Field::of_line(Value::Text("-"), 1).wide(11),
        Field::of_object("library", Value::Text(library)),
        Field::alone("from", Value::OptionalText(short)),
        Field::of_line(Value::Text(short_or_path(library, short)), 6),
        target_field(target),
    ]
}

// Returns the fields of a stub by its address, the number that the trie has for it, and the address of its resolver.
fn stub_fields(address: u64, offset: u64, resolver: u64) -> [Field<'static>; 5]
    ensures { map field_view result ≡ stub_export_fields address offset resolver }
{
    [
        Field::new("kind", Value::Text("stub"), 5),
        Field::new("address", Value::Hex(address), 1).wide(11),
        Field::of_object("offset", Value::Hex(offset)),
        Field::of_line(Value::Text("resolver"), 6),
        Field::new("resolver", Value::Hex(resolver), 7),
    ]
}

/// Writes the fields of an export in a form.
pub fn write_export<F: FieldsForm, O: Write>(
    export: Exported<'_, '_>,
    out: &mut O,
) -> io::Result<()>
    ensures { OnOk result (Appends (O.contents out.old) (O.contents out.new) (F.fields_text (exported_fields export.entry))) }
{
    let (name, info) = (export.name, export.info);
    let address = info.address(export.base).unwrap_or(0);
    match info {
        ExportInfo::Regular {
            address: offset,
            flags,
        } => {
            let fields = address_fields(address, *offset);
            F::write_both(&symbol_fields(name, *flags), &fields, out)
        }
        ExportInfo::Reexport {
            lib,
            lib_symbol_name,
            flags,
        } => {
            let fields = reexport_fields(lib, *lib_symbol_name);
            F::write_both(&symbol_fields(name, *flags), &fields, out)
        }
        ExportInfo::Stub {
            stub_offset,
            flags,
            ..
        } => {
            let resolver = info.resolver_address(export.base).unwrap_or(0);
            let fields = stub_fields(address, u64::from(*stub_offset), resolver);
            F::write_both(&symbol_fields(name, *flags), &fields, out)
        }
    }
}
