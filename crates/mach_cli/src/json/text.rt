//! Texts as JSON strings.

ghost use Rattle.std.specs.Prelude.{◌≡◌, Some, OnOk};
ghost use Rattle.std.specs.Io.KnownBytes.{Appends};
ghost use Rattle.std.specs.Result.{result_ok};
ghost use Rattle.mach_base.specs.Text.{text_at};
ghost use Rattle.mach_dyld.specs.Exports.{text_in};
ghost use Rattle.mach_cli.specs.JsonText.{if_not_empty, json_string, name_in_field, string_or_null};

use crate::escaped::{Style, Written, print_written};
use goblin_mach::read_text;
use std::fmt::{Display, Formatter};
use std::io::Write;
use std::{fmt, io};

/// A text as a string, with its quotation marks.
#[derive(Clone, Copy)]
pub struct JsonString<'a>(pub &'a str);

impl Display for JsonString<'_> {
    ghost output = { λ t. Some (json_string t.0.now) };

    fn fmt<W: fmt::Write>(&self, f: &mut Formatter<W>) -> fmt::Result {
        let (style, text) = (Style::Json, self.0);
        let inner = Written { style, text };
        write!(f, "\"{inner}\"")
    }
}

/// A text as a string, `null` if there is none.
#[derive(Clone, Copy)]
pub struct StringOrNull<'a>(pub Option<&'a str>);

impl Display for StringOrNull<'_> {
    ghost output = { λ t. Some (string_or_null (text_in t.0)) };

    fn fmt<W: fmt::Write>(&self, f: &mut Formatter<W>) -> fmt::Result {
        match self.0 {
            Some(text) => {
                let text = JsonString(text);
                write!(f, "{text}")
            }
            None => f.write_str("null"),
        }
    }
}

/// Prints a text as a string, as `JsonString` writes it.
pub fn print_string<O: Write>(text: &str, out: &mut O) -> io::Result<()>
    ensures { OnOk result (Appends (O.contents out.old) (O.contents out.new) (json_string text.now)) }
{
    out.write_all(b"\"")?;
    print_written(Style::Json, text, out)?;
    out.write_all(b"\"")
}

/// Returns a text, if there is one that is not empty.
pub fn if_not_empty<'a>(text: Option<&'a str>) -> Option<&'a str>
    ensures { text_in result ≡ if_not_empty (text_in text.entry) }
{
    let text = text?;
    if text.is_empty() { None } else { Some(text) }
}

/// Returns the text that begins at a place of some bytes, if there is one.
pub fn text_at(bytes: &[u8], place: usize) -> Option<&str>
    ensures { text_in result ≡ result_ok (text_at bytes.now place) }
{
    match read_text(bytes, place) {
        Ok(text) => Some(text),
        Err(_) => None,
    }
}

/// Returns the name in a field of sixteen bytes, if it is text and not empty.
pub fn name_in_field(field: &[u8]) -> Option<&str>
    ensures { text_in result ≡ name_in_field field.now }
{
    if_not_empty(text_at(field, 0))
}
