//! What is shown of an item of a list, field by field: as a line of text, or as an object of JSON.

ghost use Rattle.std.specs.Prelude.{◌≡◌, ◌++◌, Some, flat_map, map, OnOk};
ghost use Rattle.std.specs.Io.KnownBytes.{Appends};
ghost use Rattle.mach_parts.specs.PointerSigning.{auth_option_view, auth_view};
ghost use Rattle.mach_cli.specs.Fields.{AreSpans, alone_field, column_field, column_of, column_text, comma_member, field_member, field_of, field_view};
ghost use Rattle.mach_cli.specs.Fields.{fields_line, fields_object, fields_pairs, flags_text, key_text, line_field, object_field, opened_object, pair_field};
ghost use Rattle.mach_cli.specs.Fields.{value_in_line, value_in_object, value_in_width, value_view, whether, wide_field, word_if};

use crate::digits::{print_decimal, print_hexadecimal, print_signed, print_wide_hexadecimal};
use crate::escaped::{
    EscapedBytes, print_bytes, print_escaped, print_wide_bytes, print_wide_escaped,
};
use crate::json::text::print_string;
use crate::record_fields::{RecordFields, print_record_members, print_record_pairs};
use goblin_mach::chained_fixups::PointerAuth;
use goblin_mach::names::{SourceVersionText, UuidText, VersionText};
use std::fmt::{Display, Formatter};
use std::io::Write;
use std::{fmt, io};

mod spans;

use self::spans::{Spans, fields_in, spans_of};

/// The value of a field.
#[derive(Clone, Copy)]
pub enum Value<'a> {
    /// A number.
    Number(u64),
    /// A number that may be negative.
    Signed(i128),
    /// A number that a line has in hexadecimal.
    Hex(u64),
    /// A number that a line has by its name, if that isn't empty.
    Named(u64, &'static str),
    /// A text of the file, or a word of the program's.
    Text(&'a str),
    /// A text of the file, if there is one.
    OptionalText(Option<&'a str>),
    /// A version of 16, 8 and 8 bits.
    Version(u32),
    /// A version of sources, of 24, 10, 10, 10 and 10 bits.
    SourceVersion(u64),
    /// A UUID.
    Uuid([u8; 16]),
    /// Bytes of the file: a line has them as a text, in which each byte that is no part of a UTF-8 character is `\xNN`; an object
    /// has two digits for each.
    Bytes(&'a [u8]),
    /// Bytes of the file, two digits for each.
    Digits(&'a [u8]),
    /// Whether something is so, and the words that a line has for it.
    Flag {
        is_so: bool,
        yes: &'static str,
        no: &'static str,
    },
    /// The flags of a pointer, joined by commas, `-` if there are none. It is for lines alone.
    Flags {
        is_weak: bool,
        is_lazy: bool,
        auth: Option<PointerAuth>,
    },
}

/// A field of an item.
#[derive(Clone, Copy)]
pub struct Field<'a> {
    /// Its name in an object; empty if only a line has it. That of an item's first field is not empty.
    pub name: &'static str,
    /// Its value.
    pub value: Value<'a>,
    /// Its column in a line, from 1 to 9. A line has a field of column 0 only after its name (`Pairs`), and none of column 10.
    pub column: usize,
    /// How many characters it has in a line at least. A number is padded before it, a text, digits of bytes or a hexadecimal number after it.
    pub width: usize,
}

impl<'a> Field<'a> {
    /// Returns a field that both a line and an object have.
    pub fn new(name: &'static str, value: Value<'a>, column: usize) -> Field<'a>
        ensures { field_view result ≡ field_of name.now (value_view value.entry) column }
    {
        Field {
            name,
            value,
            column,
            width: 0,
        }
    }

    /// Returns the same field with at least so many characters in a line.
    pub fn wide(self, width: usize) -> Field<'a>
        ensures { field_view result ≡ wide_field width (field_view self.entry) }
    {
        Field { width, ..self }
    }

    /// Returns a field that only an object has, or a line after its name.
    pub fn of_object(name: &'static str, value: Value<'a>) -> Field<'a>
        ensures { field_view result ≡ object_field name.now (value_view value.entry) }
    {
        Field::new(name, value, 0)
    }

    /// Returns a field that only an object has.
    pub fn alone(name: &'static str, value: Value<'a>) -> Field<'a>
        ensures { field_view result ≡ alone_field name.now (value_view value.entry) }
    {
        Field::new(name, value, 10)
    }

    /// Returns a field that only a line has.
    pub fn of_line(value: Value<'a>, column: usize) -> Field<'a>
        ensures { field_view result ≡ line_field (value_view value.entry) column }
    {
        Field::new("", value, column)
    }

    /// Returns a field that only an object has, which says whether something is so.
    pub fn whether(name: &'static str, is_so: bool) -> Field<'a>
        ensures { field_view result ≡ whether name.now is_so }
    {
        let (yes, no) = ("", "");
        Field::of_object(name, Value::Flag { is_so, yes, no })
    }
}

// Returns the name of the key of a signed pointer.
fn key_text(key: u8) -> &'static str
    ensures { result.now ≡ key_text key }
{
    match key {
        0 => "IA",
        1 => "IB",
        2 => "DA",
        _ => "DB",
    }
}

/// Returns a word if something is so, and another otherwise.
pub fn word_if(is_so: bool, word: &'static str, otherwise: &'static str) -> &'static str
    ensures { result.now ≡ word_if is_so word.now otherwise.now }
{
    if is_so { word } else { otherwise }
}

// How a pointer is signed: the key, the diversity, and whether its address is mixed in, too.
#[derive(Clone, Copy)]
struct AuthText(PointerAuth);

impl Display for AuthText {
    ghost use Rattle.mach_cli.specs.Fields.{auth_text};

    ghost output = { λ t. Some (auth_text (auth_view t.0)) };

    fn fmt<W: fmt::Write>(&self, f: &mut Formatter<W>) -> fmt::Result {
        let key = key_text(self.0.key);
        let diversity = self.0.diversity;
        let address = word_if(self.0.is_address_diverse, ":address", "");
        write!(f, "auth:{key}:0x{diversity:x}{address}")
    }
}

// The flags of a pointer, joined by commas, `-` if there are none.
#[derive(Clone, Copy)]
struct FlagsText {
    is_weak: bool,
    is_lazy: bool,
    auth: Option<PointerAuth>,
}

impl Display for FlagsText {
    ghost output = { λ t. Some (flags_text t.is_weak t.is_lazy (auth_option_view t.auth)) };

    fn fmt<W: fmt::Write>(&self, f: &mut Formatter<W>) -> fmt::Result {
        let Some(auth) = self.auth else {
            return match (self.is_weak, self.is_lazy) {
                (false, false) => write!(f, "-"),
                (true, false) => write!(f, "weak"),
                (false, true) => write!(f, "lazy"),
                (true, true) => write!(f, "weak,lazy"),
            };
        };
        let auth = AuthText(auth);
        match (self.is_weak, self.is_lazy) {
            (false, false) => write!(f, "{auth}"),
            (true, false) => write!(f, "weak,{auth}"),
            (false, true) => write!(f, "lazy,{auth}"),
            (true, true) => write!(f, "weak,lazy,{auth}"),
        }
    }
}

// Prints a value as a line has it.
fn print_value<O: Write>(value: Value<'_>, out: &mut O) -> io::Result<()>
    ensures { OnOk result (Appends (O.contents out.old) (O.contents out.new) (value_in_line (value_view value.entry))) }
{
    match value {
        Value::Number(number) => print_decimal(number, out),
        Value::Signed(number) => print_signed(number, out),
        Value::Hex(number) => print_hexadecimal(number, out),
        Value::Named(number, "") => print_decimal(number, out),
        Value::Named(_, name) => print_escaped(name, out),
        Value::Text(text) => print_escaped(text, out),
        Value::OptionalText(None) => out.write_all(b"-"),
        Value::OptionalText(Some(text)) => print_escaped(text, out),
        Value::Version(version) => {
            let version = VersionText(version);
            write!(out, "{version}")
        }
        Value::SourceVersion(version) => {
            let version = SourceVersionText(version);
            write!(out, "{version}")
        }
        Value::Uuid(uuid) => {
            let uuid = UuidText(&uuid);
            write!(out, "{uuid}")
        }
        Value::Bytes(bytes) => {
            let text = EscapedBytes(bytes);
            write!(out, "{text}")
        }
        Value::Digits(bytes) => print_bytes(bytes, out),
        Value::Flag { is_so, yes, no } => print_escaped(word_if(is_so, yes, no), out),
        Value::Flags {
            is_weak,
            is_lazy,
            auth,
        } => {
            let flags = FlagsText {
                is_weak,
                is_lazy,
                auth,
            };
            write!(out, "{flags}")
        }
    }
}

// Prints a value as a column of at least so many characters has it.
fn print_wide<O: Write>(value: Value<'_>, width: usize, out: &mut O) -> io::Result<()>
    ensures { OnOk result (Appends (O.contents out.old) (O.contents out.new) (value_in_width width (value_view value.entry))) }
{
    match value {
        Value::Number(number) => write!(out, "{number:>width$}"),
        Value::Hex(number) => print_wide_hexadecimal(number, width, out),
        Value::Text(text) => print_wide_escaped(text, width, out),
        Value::Digits(bytes) => print_wide_bytes(bytes, width, out),
        value => print_value(value, out),
    }
}

// Prints a value as an object has it.
fn print_in_object<O: Write>(value: Value<'_>, out: &mut O) -> io::Result<()>
    ensures { OnOk result (Appends (O.contents out.old) (O.contents out.new) (value_in_object (value_view value.entry))) }
{
    match value {
        Value::Number(number) => print_decimal(number, out),
        Value::Signed(number) => print_signed(number, out),
        Value::Hex(number) => print_decimal(number, out),
        Value::Named(number, _) => print_decimal(number, out),
        Value::Text(text) => print_string(text, out),
        Value::OptionalText(None) => out.write_all(b"null"),
        Value::OptionalText(Some(text)) => print_string(text, out),
        Value::Version(version) => {
            let version = VersionText(version);
            write!(out, "\"{version}\"")
        }
        Value::SourceVersion(version) => {
            let version = SourceVersionText(version);
            write!(out, "\"{version}\"")
        }
        Value::Uuid(uuid) => {
            let uuid = UuidText(&uuid);
            write!(out, "\"{uuid}\"")
        }
        Value::Bytes(bytes) | Value::Digits(bytes) => {
            out.write_all(b"\"")?;
            print_bytes(bytes, out)?;
            out.write_all(b"\"")
        }
        Value::Flag { is_so: true, .. } => out.write_all(b"true"),
        Value::Flag { is_so: false, .. } => out.write_all(b"false"),
        Value::Flags { .. } => out.write_all(b"null"),
    }
}

/// How the fields of an item are written.
pub trait FieldsForm {
    ghost use Rattle.std.specs.Prelude.{◌≡◌, ◌++◌, ◌∷◌, List, ℕ, map, OnOk};
    ghost use Rattle.std.specs.Io.KnownBytes.{Appends};
    ghost use Rattle.mach_cli.specs.Fields.{FieldView, field_view, named_value};
    ghost use Rattle.mach_cli.specs.RecordFields.{shown_left};

    // The text of an item with these fields.
    ghost fields_text: { List FieldView → List ℕ };

    /// Writes an item with these fields.
    fn write<O: Write>(fields: &[Field<'_>], out: &mut O) -> io::Result<()>
        ensures { OnOk result (Appends (O.contents out.old) (O.contents out.new) (fields_text (map field_view fields.now))) }
    {
        Self::write_both(fields, &[], out)
    }

    /// Writes an item with these fields and others after them.
    fn write_both<O: Write>(
        fields: &[Field<'_>],
        others: &[Field<'_>],
        out: &mut O,
    ) -> io::Result<()>
        ensures { OnOk result (Appends (O.contents out.old) (O.contents out.new) (fields_text (map field_view fields.now ++ map field_view others.now))) };

    /// Writes an item with a first field, these, and those of a load command's record after them.
    fn write_record<O: Write>(
        first: &Field<'_>,
        fields: &[Field<'_>],
        shown: RecordFields<'_>,
        out: &mut O,
    ) -> io::Result<()>
        ensures { OnOk result (Appends (O.contents out.old) (O.contents out.new)
            (fields_text (field_view first.now ∷ (map field_view fields.now ++ map named_value (shown_left shown.entry))))) };
}

/// A line: the fields in the order of their columns, a space between two.
#[derive(Clone, Copy)]
pub struct Line;

impl FieldsForm for Line {
    ghost fields_text = { fields_line };

    fn write_both<O: Write>(
        fields: &[Field<'_>],
        others: &[Field<'_>],
        out: &mut O,
    ) -> io::Result<()> {
        print_columns(fields, others, &COLUMNS, out)
    }

    fn write_record<O: Write>(
        first: &Field<'_>,
        fields: &[Field<'_>],
        _shown: RecordFields<'_>,
        out: &mut O,
    ) -> io::Result<()> {
        print_columns(&[*first], fields, &COLUMNS, out)
    }
}

/// A line as well: the fields in the order of their columns, and then each field that has none after its name.
#[derive(Clone, Copy)]
pub struct Pairs;

impl FieldsForm for Pairs {
    ghost fields_text = { fields_pairs };

    fn write_both<O: Write>(
        fields: &[Field<'_>],
        others: &[Field<'_>],
        out: &mut O,
    ) -> io::Result<()> {
        print_columns(fields, others, &COLUMNS, out)?;
        print_pairs(fields, out)?;
        print_pairs(others, out)
    }

    fn write_record<O: Write>(
        first: &Field<'_>,
        fields: &[Field<'_>],
        shown: RecordFields<'_>,
        out: &mut O,
    ) -> io::Result<()> {
        Pairs::write_both(&[*first], fields, out)?;
        print_record_pairs(shown, out)
    }
}

/// An object of JSON: the fields that have names, in order.
#[derive(Clone, Copy)]
pub struct Object;

impl FieldsForm for Object {
    ghost fields_text = { fields_object };

    fn write_both<O: Write>(
        fields: &[Field<'_>],
        others: &[Field<'_>],
        out: &mut O,
    ) -> io::Result<()> {
        match (fields, others) {
            ([first, next @ ..], _) => {
                print_opened(first, next, out)?;
                print_others(others, out)?;
            }
            ([], [first, next @ ..]) => print_opened(first, next, out)?,
            ([], []) => out.write_all(b"{")?,
        }
        out.write_all(b"}")
    }

    fn write_record<O: Write>(
        first: &Field<'_>,
        fields: &[Field<'_>],
        shown: RecordFields<'_>,
        out: &mut O,
    ) -> io::Result<()> {
        print_opened(first, fields, out)?;
        print_record_members(shown, out)?;
        out.write_all(b"}")
    }
}

// The columns of a line, in order.
const COLUMNS: [usize; 9] = [1, 2, 3, 4, 5, 6, 7, 8, 9];

// Prints the fields of these columns, in order.
fn print_columns<O: Write>(
    fields: &[Field<'_>],
    others: &[Field<'_>],
    columns: &[usize],
    out: &mut O,
) -> io::Result<()>
    ensures { OnOk result (Appends (O.contents out.old) (O.contents out.new)
        (flat_map (column_text (map field_view fields.now ++ map field_view others.now)) columns.now)) }
{
    let spans = spans_of(fields);
    let other_spans = spans_of(others);
    'columns: for column in columns {
        print_column_in(&spans, fields, *column, out)?;
        print_column_in(&other_spans, others, *column, out)?;
    }
    Ok(())
}

// Prints the fields of a column, given where they are, after a space unless it is the first.
#[inline(always)]
fn print_column_in<O: Write>(
    spans: &Spans,
    fields: &[Field<'_>],
    column: usize,
    out: &mut O,
) -> io::Result<()>
    requires { AreSpans (map column_of fields.now) spans.now.starts spans.now.ends }
    ensures { OnOk result (Appends (O.contents out.old) (O.contents out.new) (column_text (map field_view fields.now) column)) }
{
    print_column(fields_in(spans, fields, column), column, out)
}

// Prints the fields of a column, after a space unless it is the first.
#[inline(always)]
fn print_column<O: Write>(fields: &[Field<'_>], column: usize, out: &mut O) -> io::Result<()>
    ensures { OnOk result (Appends (O.contents out.old) (O.contents out.new) (column_text (map field_view fields.now) column)) }
{
    'fields: for field in fields {
        print_field(field, column, out)?;
    }
    Ok(())
}

// Prints a field if it has this column, after a space unless it is the first.
fn print_field<O: Write>(field: &Field<'_>, column: usize, out: &mut O) -> io::Result<()>
    ensures { OnOk result (Appends (O.contents out.old) (O.contents out.new) (column_field column (field_view field.now))) }
{
    if field.column != column {
        return Ok(());
    }
    if column != 1 {
        out.write_all(b" ")?;
    }
    print_wide(field.value, field.width, out)
}

// Prints each field that has no column after its name.
fn print_pairs<O: Write>(fields: &[Field<'_>], out: &mut O) -> io::Result<()>
    ensures { OnOk result (Appends (O.contents out.old) (O.contents out.new) (flat_map pair_field (map field_view fields.now))) }
{
    'fields: for field in fields {
        print_pair(field, out)?;
    }
    Ok(())
}

/// Prints a field after its name, if it has no column.
pub fn print_pair<O: Write>(field: &Field<'_>, out: &mut O) -> io::Result<()>
    ensures { OnOk result (Appends (O.contents out.old) (O.contents out.new) (pair_field (field_view field.now))) }
{
    if field.column != 0 || field.name.is_empty() {
        return Ok(());
    }
    out.write_all(b"  ")?;
    print_escaped(field.name, out)?;
    out.write_all(b" ")?;
    print_value(field.value, out)
}

// Prints the opening brace of an object, a first field as a member, and the next ones.
fn print_opened<O: Write>(first: &Field<'_>, next: &[Field<'_>], out: &mut O) -> io::Result<()>
    ensures { OnOk result (Appends (O.contents out.old) (O.contents out.new) (opened_object (field_view first.now) (map field_view next.now))) }
{
    out.write_all(b"{")?;
    print_member(first, out)?;
    print_others(next, out)
}

// Prints a field as a member.
fn print_member<O: Write>(field: &Field<'_>, out: &mut O) -> io::Result<()>
    ensures { OnOk result (Appends (O.contents out.old) (O.contents out.new) (field_member (field_view field.now))) }
{
    out.write_all(b"\"")?;
    out.write_all(field.name.as_bytes())?;
    out.write_all(b"\":")?;
    print_in_object(field.value, out)
}

/// Prints a field as a member after a comma, if it has a name.
pub fn print_next_member<O: Write>(field: &Field<'_>, out: &mut O) -> io::Result<()>
    ensures { OnOk result (Appends (O.contents out.old) (O.contents out.new) (comma_member (field_view field.now))) }
{
    if field.name.is_empty() {
        return Ok(());
    }
    out.write_all(b",")?;
    print_member(field, out)
}

// Prints each field that has a name as a member after a comma.
fn print_others<O: Write>(fields: &[Field<'_>], out: &mut O) -> io::Result<()>
    ensures { OnOk result (Appends (O.contents out.old) (O.contents out.new) (flat_map comma_member (map field_view fields.now))) }
{
    'fields: for field in fields {
        print_next_member(field, out)?;
    }
    Ok(())
}
