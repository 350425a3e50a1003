//! What the rows of parts of an image show, field by field: as lines, and as objects of JSON.

ghost use Rattle.std.specs.Prelude.{◌≡◌, map, option_map};
ghost use Rattle.mach_dyld.specs.Exports.{text_in};
ghost use Rattle.mach_parts.specs.Segment.{segment_view};
ghost use Rattle.mach_cli.specs.Fields.{field_view, named, value_view};
ghost use Rattle.machinfo.specs.Parts.{entry_symbol_view, entry_view};
ghost use Rattle.machinfo.specs.PartFields.{above_field, entry_distance_field, entry_part_fields, header_flag, header_flags, header_members, if_known};
ghost use Rattle.machinfo.specs.PartFields.{name_of_found, entry_symbol_name};
ghost use Rattle.machinfo.specs.PartFields.{rpath_part_fields, section_members, section_type_name, segment_of_found};
ghost use Rattle.machinfo.specs.PartFields.{segment_part_fields, stub_fields, stubs_in, text_or_dash, uuid_part_fields};

use crate::lists::{column_if, flag_field};
use crate::parts::{EntryRow, EntrySymbol, UuidRow};
use crate::sections::SectionRow;
use crate::summary::flag_short_name;
use goblin_mach::header::{
    Header, MH_ALLMODSBOUND, MH_ALLOW_STACK_EXECUTION, MH_APP_EXTENSION_SAFE, MH_BINDATLOAD,
    MH_BINDS_TO_WEAK, MH_CANONICAL, MH_DEAD_STRIPPABLE_DYLIB, MH_DYLDLINK, MH_FORCE_FLAT,
    MH_HAS_TLV_DESCRIPTORS, MH_INCRLINK, MH_LAZY_INIT, MH_NO_HEAP_EXECUTION,
    MH_NO_REEXPORTED_DYLIBS, MH_NOFIXPREBINDING, MH_NOMULTIDEFS, MH_NOUNDEFS, MH_PIE,
    MH_PREBINDABLE, MH_PREBOUND, MH_ROOT_SAFE, MH_SETUID_SAFE, MH_SPLIT_SEGS,
    MH_SUBSECTIONS_VIA_SYMBOLS, MH_TWOLEVEL, MH_WEAK_DEFINES,
};
use goblin_mach::load_command::Section64;
use goblin_mach::names::cpu_name;
use goblin_mach::segment::{NumberedSection, Segment};
use mach_cli::{Field, Value, if_not_empty, image_kind, name_in_field, rights};

// Returns a number by its name, unless that is the one of all that have none.
fn named(number: u32, name: &'static str, unknown: &'static str) -> Value<'static>
    ensures { value_view result ≡ named number (if_known unknown.now name.now) }
{
    Value::Named(u64::from(number), if name == unknown { "" } else { name })
}

/// Returns a text, `-` if there is none or it is empty.
pub fn text_or_dash(text: Option<&str>) -> &str
    ensures { result.now ≡ text_or_dash (text_in text.entry) }
{
    let Some(text) = text else {
        return "-";
    };
    if text.is_empty() { "-" } else { text }
}

/// Returns the fields of a segment and its number.
pub fn segment_fields<'a>(number: usize, segment: &'a Segment<'_>) -> [Field<'a>; 17]
    ensures { map field_view result ≡ segment_part_fields (number, segment_view segment.now) }
{
    let name = name_in_field(&segment.segname);
    let (most, flags) = (segment.maxprot, segment.flags);
    let is_writable_code = most & 2 != 0 && most & 4 != 0;
    [
        Field::of_object("number", Value::Number(number as u64)),
        Field::alone("name", Value::OptionalText(name)),
        Field::of_line(Value::Text(text_or_dash(name)), 1).wide(12),
        Field::new("address", Value::Hex(segment.vmaddr), 2).wide(11),
        Field::new("size", Value::Hex(segment.vmsize), 3).wide(11),
        Field::new("file_offset", Value::Hex(segment.fileoff), 4).wide(10),
        Field::new("file_size", Value::Hex(segment.filesize), 5).wide(10),
        Field::new("initial_protection", rights(segment.initprot), 6),
        Field::new("maximum_protection", rights(most), 7),
        Field::of_object("sections", Value::Number(u64::from(segment.nsects))),
        Field::of_object("flags", Value::Hex(u64::from(flags))),
        flag_field("is_writable_code", is_writable_code, "!", 8),
        flag_field("is_high_vm", flags & 1 != 0, "high-vm", 9),
        flag_field("is_fvmlib", flags & 2 != 0, "fvmlib", 9),
        flag_field("is_noreloc", flags & 4 != 0, "noreloc", 9),
        flag_field("is_protected", flags & 8 != 0, "protected", 9),
        flag_field("is_read_only", flags & 0x10 != 0, "read-only", 9),
    ]
}

/// Returns the words for a type of section, none if it has no name.
pub fn section_type(number: u32) -> &'static str
    ensures { result.now ≡ section_type_name number }
{
    match number {
        0x0 => "regular",
        0x1 => "zerofill",
        0x2 => "cstring literals",
        0x3 => "4-byte literals",
        0x4 => "8-byte literals",
        0x5 => "literal pointers",
        0x6 => "non-lazy symbol pointers",
        0x7 => "lazy symbol pointers",
        0x8 => "symbol stubs",
        0x9 => "module init function pointers",
        0xa => "module term function pointers",
        0xb => "coalesced",
        0xc => "gb zerofill",
        0xd => "interposing",
        0xe => "16-byte literals",
        0xf => "dtrace dof",
        0x10 => "lazy dylib symbol pointers",
        0x11 => "thread-local regular",
        0x12 => "thread-local zerofill",
        0x13 => "thread-local variables",
        0x14 => "thread-local variable pointers",
        0x15 => "thread-local init function pointers",
        0x16 => "init function offsets",
        _ => "",
    }
}

/// Returns the fields of a section, but for its stubs.
pub fn section_fields<'a>(row: &'a SectionRow) -> [Field<'a>; 18]
    ensures { map field_view result ≡ section_members row.now }
{
    let section = &row.section.section;
    let (segname, sectname) = (
        name_in_field(&section.segname),
        name_in_field(&section.sectname),
    );
    let kind = section.flags % 0x100;
    let name = section_type(kind);
    [
        Field::new("number", Value::Number(row.number), 1).wide(3),
        Field::of_object("segment_number", Value::Number(row.section.segment as u64)),
        Field::alone("segment", Value::OptionalText(segname)),
        Field::of_line(Value::Text(text_or_dash(segname)), 2).wide(12),
        Field::alone("name", Value::OptionalText(sectname)),
        Field::of_line(Value::Text(text_or_dash(sectname)), 3).wide(16),
        Field::new("address", Value::Hex(section.addr), 4).wide(11),
        Field::new("size", Value::Hex(section.size), 5).wide(8),
        Field::new("file_offset", Value::Hex(u64::from(section.offset)), 6).wide(8),
        Field::new("type", Value::Named(u64::from(kind), name), 7),
        Field::alone("type_name", Value::OptionalText(if_not_empty(Some(name)))),
        Field::of_object("align", Value::Number(u64::from(section.align))),
        Field::of_object("attributes", Value::Hex(u64::from(section.flags - kind))),
        Field::of_object("relocation_offset", Value::Hex(u64::from(section.reloff))),
        Field::of_object("relocations", Value::Number(u64::from(section.nreloc))),
        Field::of_object("reserved1", Value::Number(u64::from(section.reserved1))),
        Field::of_object("reserved2", Value::Number(u64::from(section.reserved2))),
        Field::of_object("reserved3", Value::Number(u64::from(section.reserved3))),
    ]
}

// Returns how many stubs a section has.
fn stubs_in(section: &Section64) -> u64
    ensures { result ≡ stubs_in section.now }
{
    let size = u64::from(section.reserved2);
    if section.flags % 0x100 == 8 && size != 0 {
        section.size / size
    } else {
        0
    }
}

/// Returns the fields of a section's stubs: their number and their size.
pub fn stub_fields(section: &Section64) -> [Field<'static>; 5]
    ensures { map field_view result ≡ stub_fields section.now }
{
    let stubs = stubs_in(section);
    let column = column_if(stubs != 0, 8);
    [
        Field::of_object("stubs", Value::Number(stubs)),
        Field::of_line(Value::Number(stubs), column),
        Field::of_line(Value::Text("of"), column),
        Field::of_line(Value::Number(u64::from(section.reserved2)), column),
        Field::of_line(Value::Text("bytes"), column),
    ]
}

/// Returns the fields of a UUID, with the cpu.
pub fn uuid_fields(row: &UuidRow) -> [Field<'static>; 5]
    ensures { map field_view result ≡ uuid_part_fields row.now }
{
    let cpu = cpu_name(row.cputype, row.cpusubtype % 0x100_0000);
    [
        Field::new("uuid", Value::Uuid(row.uuid), 2),
        Field::new("cpu", Value::OptionalText(cpu), 3),
        Field::of_object("cputype", Value::Number(u64::from(row.cputype))),
        Field::of_object("cpusubtype", Value::Number(u64::from(row.cpusubtype))),
        Field::of_line(Value::Text("UUID:"), 1),
    ]
}

/// Returns the fields of a run path and its number.
pub fn rpath_fields<'a>(number: usize, path: &'a str) -> [Field<'a>; 2]
    ensures { map field_view result ≡ rpath_part_fields (number, path.now) }
{
    [
        Field::new("number", Value::Number(number as u64), 1).wide(3),
        Field::new("path", Value::Text(path), 2),
    ]
}

// Returns the name of a section's segment.
fn segment_of_found(found: &Option<NumberedSection>) -> Option<&str>
    ensures { text_in result ≡ segment_of_found found.now }
{
    match found {
        Some(found) => name_in_field(&found.section.segname),
        None => None,
    }
}

/// Returns the name of a section.
pub fn name_of_found(found: &Option<NumberedSection>) -> Option<&str>
    ensures { text_in result ≡ name_of_found found.now }
{
    match found {
        Some(found) => name_in_field(&found.section.sectname),
        None => None,
    }
}

/// Returns the name of a symbol.
pub fn name_of_symbol<'a>(symbol: Option<EntrySymbol<'a>>) -> Option<&'a str>
    ensures { text_in result ≡ entry_symbol_name (option_map entry_symbol_view symbol.entry) }
{
    match symbol {
        Some(symbol) => Some(symbol.name),
        None => None,
    }
}

/// Returns the field for how far an address is above a symbol; a line has it only if it is above it.
pub fn distance_field(symbol: Option<EntrySymbol<'_>>) -> Field<'static>
    ensures { field_view result ≡ entry_distance_field (option_map entry_symbol_view symbol.entry) }
{
    match symbol {
        Some(symbol) => {
            let distance = symbol.distance;
            Field::new(
                "distance",
                Value::Hex(distance),
                column_if(distance != 0, 6),
            )
        }
        None => Field::of_line(Value::Text(""), 0),
    }
}

/// Returns the sign before the distance.
pub fn above_field(symbol: Option<EntrySymbol<'_>>) -> Field<'static>
    ensures { field_view result ≡ above_field (option_map entry_symbol_view symbol.entry) }
{
    match symbol {
        Some(symbol) => Field::of_line(Value::Text("+"), column_if(symbol.distance != 0, 5)),
        None => Field::of_line(Value::Text(""), 0),
    }
}

/// Returns the fields of an entry point.
pub fn entry_fields<'b>(row: &'b EntryRow<'_>) -> [Field<'b>; 6]
    ensures { map field_view result ≡ entry_part_fields (entry_view row.now) }
{
    let segment = segment_of_found(&row.section);
    let name = name_of_found(&row.section);
    [
        Field::new("address", Value::Hex(row.address), 1),
        Field::new("segment", Value::OptionalText(segment), 2),
        Field::new("section", Value::OptionalText(name), 3),
        Field::new("symbol", Value::OptionalText(name_of_symbol(row.symbol)), 4),
        above_field(row.symbol),
        distance_field(row.symbol),
    ]
}

/// Returns the fields of a header but for the words of its flags.
pub fn header_members(header: &Header) -> [Field<'static>; 11]
    ensures { map field_view result ≡ header_members header.now }
{
    let (cputype, cpusubtype) = (header.cputype, header.cpusubtype);
    let (kind, capabilities) = (cpusubtype % 0x100_0000, cpusubtype / 0x100_0000);
    let words = image_kind(header.filetype);
    [
        Field::of_object("magic", Value::Hex(u64::from(header.magic))),
        Field::new("cpu", Value::OptionalText(cpu_name(cputype, kind)), 1),
        Field::of_object("cputype", Value::Hex(u64::from(cputype))),
        Field::of_object("cpusubtype", Value::Number(u64::from(kind))),
        Field::of_object("capabilities", Value::Hex(u64::from(capabilities))),
        Field::new("filetype", named(header.filetype, words, "image"), 2),
        Field::alone("image_kind", Value::Text(words)),
        Field::of_object("commands", Value::Number(header.ncmds as u64)),
        Field::of_object(
            "size_of_commands",
            Value::Number(u64::from(header.sizeofcmds)),
        ),
        Field::of_object("flags", Value::Hex(u64::from(header.flags))),
        Field::of_object("reserved", Value::Number(u64::from(header.reserved))),
    ]
}

// Returns the word of a flag, which a line has if it is set.
fn header_flag(flags: u32, flag: u32) -> Field<'static>
    ensures { field_view result ≡ header_flag flags flag }
{
    let word = Value::OptionalText(flag_short_name(flag));
    Field::of_line(word, column_if(flags & flag != 0, 3))
}

/// Returns the words of the flags that have names.
pub fn header_flags(flags: u32) -> [Field<'static>; 26]
    ensures { map field_view result ≡ header_flags flags }
{
    [
        header_flag(flags, MH_NOUNDEFS),
        header_flag(flags, MH_INCRLINK),
        header_flag(flags, MH_DYLDLINK),
        header_flag(flags, MH_BINDATLOAD),
        header_flag(flags, MH_PREBOUND),
        header_flag(flags, MH_SPLIT_SEGS),
        header_flag(flags, MH_LAZY_INIT),
        header_flag(flags, MH_TWOLEVEL),
        header_flag(flags, MH_FORCE_FLAT),
        header_flag(flags, MH_NOMULTIDEFS),
        header_flag(flags, MH_NOFIXPREBINDING),
        header_flag(flags, MH_PREBINDABLE),
        header_flag(flags, MH_ALLMODSBOUND),
        header_flag(flags, MH_SUBSECTIONS_VIA_SYMBOLS),
        header_flag(flags, MH_CANONICAL),
        header_flag(flags, MH_WEAK_DEFINES),
        header_flag(flags, MH_BINDS_TO_WEAK),
        header_flag(flags, MH_ALLOW_STACK_EXECUTION),
        header_flag(flags, MH_ROOT_SAFE),
        header_flag(flags, MH_SETUID_SAFE),
        header_flag(flags, MH_NO_REEXPORTED_DYLIBS),
        header_flag(flags, MH_PIE),
        header_flag(flags, MH_DEAD_STRIPPABLE_DYLIB),
        header_flag(flags, MH_HAS_TLV_DESCRIPTORS),
        header_flag(flags, MH_NO_HEAP_EXECUTION),
        header_flag(flags, MH_APP_EXTENSION_SAFE),
    ]
}
