//! What a line and an object have of a record of a fat file, and the cpu of an image.

ghost use Rattle.std.specs.Prelude.{◌≡◌, ◌++◌, Some, map, OnOk};
ghost use Rattle.std.specs.Io.KnownBytes.{Appends};
ghost use Rattle.mach_cli.specs.Fields.{field_view};
ghost use Rattle.mach_dyld.specs.Exports.{text_in};
ghost use Rattle.machfat.specs.Lines.{cpu_fields, cpu_of_numbers, cpu_text, bytes_of_entry, line_end, place_fields, reached_units, record_fields};

use crate::image_kind::image_words;
use goblin_mach::names::cpu_name;
use mach_cli::{Escaped, Field, FieldsForm, Value, entry_kind};
use mach_fat_writer::EntryRecord;
use std::fmt::{Display, Formatter};
use std::io::Write;
use std::{fmt, io};

// The units of sizes, in bytes.
const KIB: u64 = 1 << 10;

const MIB: u64 = 1 << 20;

const GIB: u64 = 1 << 30;

/// Returns the name of the cpu with these numbers, if it has one.
#[tactic(auto, unfolding(crate::specs::Lines::cpu_of_numbers))]
pub fn cpu_of(cputype: u32, cpusubtype: u32) -> Option<&'static str>
    ensures { text_in result ≡ cpu_of_numbers cputype cpusubtype }
{
    cpu_name(cputype, cpusubtype % 0x100_0000)
}

/// A cpu by its name, or by its numbers if it has none.
#[derive(Clone, Copy)]
pub struct CpuText {
    pub cputype: u32,
    pub cpusubtype: u32,
}

impl Display for CpuText {
    ghost output = { λ t. Some (cpu_text t.cputype t.cpusubtype) };

    fn fmt<W: fmt::Write>(&self, f: &mut Formatter<W>) -> fmt::Result {
        let CpuText {
            cputype,
            cpusubtype,
        } = *self;
        match cpu_of(cputype, cpusubtype) {
            Some(name) => {
                let name = Escaped(name);
                write!(f, "{name}")
            }
            None => write!(f, "cputype 0x{cputype:x}, cpusubtype 0x{cpusubtype:x}"),
        }
    }
}

// A size in the largest unit that it reaches, if it reaches one: whole units, and tenths of a unit, rounded down.
#[derive(Clone, Copy)]
struct UnitsText(u64);

impl Display for UnitsText {
    ghost output = { λ t. Some (reached_units t.0) };

    #[tactic(auto, unfolding(crate::specs::Lines::reached_units))]
    fn fmt<W: fmt::Write>(&self, f: &mut Formatter<W>) -> fmt::Result {
        let size = self.0;
        if size < KIB {
            Ok(())
        } else if size < MIB {
            let (whole, tenths) = (size / KIB, size % KIB * 10 / KIB);
            write!(f, " ({whole}.{tenths} KiB)")
        } else if size < GIB {
            let (whole, tenths) = (size / MIB, size % MIB * 10 / MIB);
            write!(f, " ({whole}.{tenths} MiB)")
        } else {
            let (whole, tenths) = (size / GIB, size % GIB * 10 / GIB);
            write!(f, " ({whole}.{tenths} GiB)")
        }
    }
}

/// The end of a record's line, after the size in bytes: the size in units, and the alignment.
#[derive(Clone, Copy)]
pub struct EndText {
    pub size: u64,
    pub align: u32,
}

impl Display for EndText {
    ghost output = { λ t. Some (line_end t.size t.align) };

    fn fmt<W: fmt::Write>(&self, f: &mut Formatter<W>) -> fmt::Result {
        let units = UnitsText(self.size);
        let align = self.align;
        write!(f, "{units}, align 2^{align}")
    }
}

/// Writes the fields of a record in a form, with what its entry is.
#[tactic(auto, unfolding(crate::specs::Lines::record_fields))]
pub fn write_record<F: FieldsForm, O: Write>(
    bytes: &[u8],
    arch: EntryRecord,
    out: &mut O,
) -> io::Result<()>
    ensures { OnOk result (Appends (O.contents out.old) (O.contents out.new) (F.fields_text (record_fields bytes.now arch))) }
{
    let place = place_fields(bytes_of_entry(bytes, &arch), arch);
    match cpu_of(arch.cputype, arch.cpusubtype) {
        Some(name) => F::write_both(&named_fields(name, arch), &place, out),
        None => F::write_both(&numbered_fields(arch), &place, out),
    }
}

// Returns the fields of an alignment and of a cpu that has this name.
fn named_fields(name: &'static str, arch: EntryRecord) -> [Field<'static>; 4]
    ensures { map field_view result ≡ cpu_fields (Some name.now) arch }
{
    [
        Field::of_object("align", Value::Number(u64::from(arch.align))),
        Field::new("cpu", Value::Text(name), 1).wide(8),
        Field::of_object("cpusubtype", Value::Number(u64::from(arch.cpusubtype))),
        Field::of_object("cputype", Value::Number(u64::from(arch.cputype))),
    ]
}

// Returns the fields of an alignment and of a cpu that has no name.
fn numbered_fields(arch: EntryRecord) -> [Field<'static>; 6]
    ensures { map field_view result ≡ cpu_fields None arch }
{
    [
        Field::of_object("align", Value::Number(u64::from(arch.align))),
        Field::of_object("cpu", Value::OptionalText(None)),
        Field::of_line(Value::Text("cpusubtype"), 3),
        Field::new("cpusubtype", Value::Hex(u64::from(arch.cpusubtype)), 3),
        Field::of_line(Value::Text("cputype"), 1),
        Field::new("cputype", Value::Hex(u64::from(arch.cputype)), 2),
    ]
}

// Returns the fields of an entry and of its place.
fn place_fields(entry: &[u8], arch: EntryRecord) -> [Field<'static>; 7]
    ensures { map field_view result ≡ place_fields entry.now arch }
{
    let (words, kind) = (image_words(entry), entry_kind(entry));
    [
        Field::of_line(Value::Text(words.unwrap_or(kind)), 4).wide(15),
        Field::of_object("image_kind", Value::OptionalText(words)),
        Field::of_object("kind", Value::Text(kind)),
        Field::of_line(Value::Text("offset"), 5),
        Field::new("offset", Value::Hex(arch.offset), 5).wide(10),
        Field::of_line(Value::Text("size"), 6),
        Field::new("size", Value::Number(arch.size), 6).wide(9),
    ]
}

// Returns the bytes of a record's entry; an entry outside the file has none.
fn bytes_of_entry<'a>(bytes: &'a [u8], arch: &EntryRecord) -> &'a [u8]
    ensures { result.now ≡ bytes_of_entry bytes.now arch.now }
{
    match arch.slice(bytes) {
        Some(entry) => entry,
        None => &[],
    }
}
