//! Names on one line, and bytes as hexadecimal digits.

ghost use Rattle.std.specs.Prelude.{◌≡◌, ◌<◌, ◌-◌, ◌++◌, Some, flat_map, length, OnOk};
ghost use Rattle.std.specs.Int.{is_in_range};
ghost use Rattle.std.specs.List.{list_all};
ghost use Rattle.std.specs.Fmt.{WritesOnOk};
ghost use Rattle.std.specs.Str.{chars};
ghost use Rattle.std.specs.Io.KnownBytes.{Appends};
ghost use Rattle.mach_cli.specs.Escapes.{byte_in, escape_len, escape_of, escape_text, escaped_bytes, escaped_text, hidden_char, hidden_len};
ghost use Rattle.mach_cli.specs.Escapes.{char_of_four, char_of_three, char_of_two, hides_four, hides_three, hides_two, is_hidden, is_quoted, is_tail};
ghost use Rattle.mach_cli.specs.Escapes.{is_visible, json_escape, written};
ghost use Rattle.mach_cli.specs.Fields.{spaces};
ghost use Rattle.mach_cli.specs.SignatureNames.{bytes_text};

use crate::digits::digit;
use crate::spaces::print_spaces;
use std::fmt::{Display, Formatter};
use std::io::Write;
use std::{fmt, io};

/// A text of a file, such as a name, on one line. A backslash is `\\`. Each byte of a hidden character is `\xNN`: of a control
/// (below U+0020, U+007F to U+009F), a bidirectional control, U+2028, U+2029, and other format characters that show nothing.
/// Everything else is unchanged.
#[derive(Clone, Copy)]
pub struct Escaped<'a>(pub &'a str);

impl Display for Escaped<'_> {
    ghost output = { λ t. Some (escaped_text t.0.now) };

    fn fmt<W: fmt::Write>(&self, f: &mut Formatter<W>) -> fmt::Result {
        write_escaped(f, Style::Name, self.0)
    }
}

/// The same for bytes that may not be text: each byte that is no part of a UTF-8 character is `\xNN`, too.
#[derive(Clone, Copy)]
pub struct EscapedBytes<'a>(pub &'a [u8]);

impl Display for EscapedBytes<'_> {
    ghost output = { λ t. Some (escaped_bytes t.0.now) };

    fn fmt<W: fmt::Write>(&self, f: &mut Formatter<W>) -> fmt::Result {
        write_chunks(f, self.0)
    }
}

// A text as it is written in a style.
#[derive(Clone, Copy)]
pub(crate) struct Written<'a> {
    pub style: Style,
    pub text: &'a str,
}

impl Display for Written<'_> {
    ghost output = { λ t. Some (written t.style t.text.now) };

    fn fmt<W: fmt::Write>(&self, f: &mut Formatter<W>) -> fmt::Result {
        write_escaped(f, self.style, self.text)
    }
}

// How a text is written.
#[derive(Clone, Copy)]
pub(crate) enum Style {
    // A name on one line.
    Name,
    // The inside of a JSON string, between its quotation marks.
    Json,
}

// Writes a text: at once if no byte of it needs a look at a whole character.
pub(crate) fn write_escaped<W: fmt::Write>(
    f: &mut Formatter<W>,
    style: Style,
    text: &str,
) -> fmt::Result
    ensures { WritesOnOk W.write_str_gives f.old result (written style text.now) f.new }
{
    if are_visible(style, text.as_bytes()) {
        return f.write_str(text);
    }
    write_runs(f, style, text)
}

// Whether all bytes are visible ASCII and none is escaped. It looks at each, so that many are looked at at once.
fn are_visible(style: Style, bytes: &[u8]) -> bool
    ensures { result ≡ list_all (is_visible style) bytes.now }
{
    let mut are_visible = true;
    'bytes: for byte in bytes {
        are_visible &= is_visible(style, *byte);
    }
    are_visible
}

// Whether a byte is visible ASCII that isn't escaped.
fn is_visible(style: Style, byte: u8) -> bool
    ensures { result ≡ is_visible style byte }
{
    (0x20 <= byte && byte <= 0x7e) && !is_quoted(style, byte)
}

// Writes a text. Runs of unescaped bytes are written whole.
fn write_runs<W: fmt::Write>(f: &mut Formatter<W>, style: Style, text: &str) -> fmt::Result
    ensures { WritesOnOk W.write_str_gives f.old result (written style text.now) f.new }
{
    let bytes = text.as_bytes();
    let end = bytes.len();
    let mut start = 0;
    'bytes: for at in 0..end {
        if start <= at {
            let len = escape_len(style, &bytes[at..]);
            if len != 0 {
                f.write_str(&text[start..at])?;
                write_escape(f, style, &bytes[at..])?;
                start = at + len;
            }
        }
    }
    f.write_str(&text[start..])
}

// Returns a byte, or a space past the end.
fn byte_in(bytes: &[u8], at: usize) -> u8
    ensures { result ≡ byte_in bytes.now at }
{
    match bytes.get(at) {
        Some(byte) => *byte,
        None => b' ',
    }
}

// Returns how many of the first bytes are one character that is escaped.
#[tactic(auto, unfolding(crate::specs::Escapes::escape_len))]
#[inline(always)]
fn escape_len(style: Style, bytes: &[u8]) -> usize
    ensures { result ≡ escape_len style bytes.now }
{
    if is_quoted(style, byte_in(bytes, 0)) {
        1
    } else {
        hidden_len(bytes)
    }
}

// Whether a byte is escaped by a backslash before it.
fn is_quoted(style: Style, byte: u8) -> bool
    ensures { result ≡ is_quoted style byte }
{
    match style {
        Style::Name => byte == b'\\',
        Style::Json => byte == b'\\' || byte == b'"',
    }
}

// Returns how many bytes the first character has, if it is hidden.
#[tactic(auto, unfolding(crate::specs::Escapes::hidden_len))]
#[inline(always)]
fn hidden_len(bytes: &[u8]) -> usize
    ensures { result ≡ hidden_len bytes.now }
{
    let first = byte_in(bytes, 0);
    if first < 0x80 {
        if first < 0x20 || first == 0x7f { 1 } else { 0 }
    } else if first < 0xc2 {
        0
    } else if first < 0xe0 {
        if hides_two(first, byte_in(bytes, 1)) {
            2
        } else {
            0
        }
    } else if first < 0xf0 {
        if hides_three(first, byte_in(bytes, 1), byte_in(bytes, 2)) {
            3
        } else {
            0
        }
    } else if hides_four(
        first,
        byte_in(bytes, 1),
        byte_in(bytes, 2),
        byte_in(bytes, 3),
    ) {
        4
    } else {
        0
    }
}

// Whether a byte goes on with a character of UTF-8.
fn is_tail(byte: u8) -> bool
    ensures { result ≡ is_tail byte }
{
    0x80 <= byte && byte <= 0xbf
}

// Whether two bytes are a hidden character.
fn hides_two(first: u8, second: u8) -> bool
    ensures { result ≡ hides_two first second }
{
    (0xc2 <= first && first <= 0xdf && is_tail(second)) && is_hidden(char_of_two(first, second))
}

// Whether three bytes are a hidden character.
fn hides_three(first: u8, second: u8, third: u8) -> bool
    ensures { result ≡ hides_three first second third }
{
    (0xe1 <= first && first <= 0xef && (is_tail(second) && is_tail(third)))
        && is_hidden(char_of_three(first, second, third))
}

// Whether four bytes are a hidden character.
fn hides_four(first: u8, second: u8, third: u8, fourth: u8) -> bool
    ensures { result ≡ hides_four first second third fourth }
{
    (0xf1 <= first && first <= 0xf4 && (is_tail(second) && (is_tail(third) && is_tail(fourth))))
        && is_hidden(char_of_four(first, second, third, fourth))
}

// Returns the number of a character of two bytes.
fn char_of_two(first: u8, second: u8) -> u32
    ensures { result ≡ char_of_two first second }
{
    u32::from(first) % 0x20 * 0x40 + u32::from(second) % 0x40
}

// Returns the number of a character of three bytes.
fn char_of_three(first: u8, second: u8, third: u8) -> u32
    ensures { result ≡ char_of_three first second third }
{
    u32::from(first) % 0x10 * 0x1000 + u32::from(second) % 0x40 * 0x40 + u32::from(third) % 0x40
}

// Returns the number of a character of four bytes.
fn char_of_four(first: u8, second: u8, third: u8, fourth: u8) -> u32
    ensures { result ≡ char_of_four first second third fourth }
{
    u32::from(first) % 8 * 0x4_0000
        + u32::from(second) % 0x40 * 0x1000
        + u32::from(third) % 0x40 * 0x40
        + u32::from(fourth) % 0x40
}

// Whether a character from U+0080 on is hidden.
#[tactic(auto, unfolding(crate::specs::Escapes::is_hidden))]
fn is_hidden(char: u32) -> bool
    ensures { result ≡ is_hidden char }
{
    matches!(
        char,
        0x80..=0x9f
            | 0xad
            | 0x61c
            | 0x180e
            | 0x200b..=0x200f
            | 0x2028..=0x202e
            | 0x2060..=0x206f
            | 0xfeff
            | 0xfff9..=0xfffb
            | 0xe0001
            | 0xe0020..=0xe007f
    )
}

// Writes the escape of the first character.
fn write_escape<W: fmt::Write>(f: &mut Formatter<W>, style: Style, bytes: &[u8]) -> fmt::Result
    requires { 0 < escape_len style bytes.now }
    ensures { WritesOnOk W.write_str_gives f.old result (escape_of style bytes.now) f.new }
{
    let byte = byte_in(bytes, 0);
    if byte == b'\\' {
        return f.write_str("\\\\");
    }
    match style {
        Style::Name => write_bytes(f, &bytes[..hidden_len(bytes)]),
        Style::Json if byte == b'"' => f.write_str("\\\""),
        Style::Json => {
            let number = hidden_char(bytes);
            write_number(f, number)
        }
    }
}

// Writes the number of a character as JSON has it.
fn write_number<W: fmt::Write>(f: &mut Formatter<W>, number: u32) -> fmt::Result
    ensures { WritesOnOk W.write_str_gives f.old result (json_escape number) f.new }
{
    match number.checked_sub(0x1_0000) {
        None => write!(f, "\\u{number:04x}"),
        Some(rest) => {
            let (high, low) = (0xd800 + rest / 0x400, 0xdc00 + rest % 0x400);
            write!(f, "\\u{high:04x}\\u{low:04x}")
        }
    }
}

// Returns the number of the first character, which is hidden.
fn hidden_char(bytes: &[u8]) -> u32
    ensures { result ≡ hidden_char bytes.now }
{
    let (first, second) = (byte_in(bytes, 0), byte_in(bytes, 1));
    match hidden_len(bytes) {
        1 => u32::from(first),
        2 => char_of_two(first, second),
        3 => char_of_three(first, second, byte_in(bytes, 2)),
        _ => char_of_four(first, second, byte_in(bytes, 2), byte_in(bytes, 3)),
    }
}

// Writes the escape of a byte at once: this takes a third of the time of `{:02x}`.
fn write_byte<W: fmt::Write>(f: &mut Formatter<W>, byte: u8) -> fmt::Result
    ensures { WritesOnOk W.write_str_gives f.old result (escape_text byte) f.new }
{
    let text = [b'\\', b'x', digit(byte / 16), digit(byte % 16)];
    match str::from_utf8(&text) {
        Ok(text) => f.write_str(text),
        Err(_) => Err(fmt::Error),
    }
}

// Writes an escape for each byte.
fn write_bytes<W: fmt::Write>(f: &mut Formatter<W>, bytes: &[u8]) -> fmt::Result
    ensures { WritesOnOk W.write_str_gives f.old result (flat_map escape_text bytes.now) f.new }
{
    'bytes: for byte in bytes {
        write_byte(f, *byte)?;
    }
    Ok(())
}

// Writes bytes that may not be text.
fn write_chunks<W: fmt::Write>(f: &mut Formatter<W>, bytes: &[u8]) -> fmt::Result
    ensures { WritesOnOk W.write_str_gives f.old result (escaped_bytes bytes.now) f.new }
{
    'chunks: for chunk in bytes.utf8_chunks() {
        write_escaped(f, Style::Name, chunk.valid())?;
        write_bytes(f, chunk.invalid())?;
    }
    Ok(())
}

// Prints a text as it is written in a style: at once if no byte of it needs a look at a whole character.
pub(crate) fn print_written<O: Write>(style: Style, text: &str, out: &mut O) -> io::Result<()>
    ensures { OnOk result (Appends (O.contents out.old) (O.contents out.new) (written style text.now)) }
{
    if are_visible(style, text.as_bytes()) {
        return out.write_all(text.as_bytes());
    }
    let text = Written { style, text };
    write!(out, "{text}")
}

/// Prints a name on one line, as `Escaped` writes it.
pub fn print_escaped<O: Write>(name: &str, out: &mut O) -> io::Result<()>
    ensures { OnOk result (Appends (O.contents out.old) (O.contents out.new) (escaped_text name.now)) }
{
    print_written(Style::Name, name, out)
}

// Returns how many characters a text has.
fn char_len(text: &str) -> usize
    ensures { result ≡ length (chars text.now) }
{
    text.chars().count()
}

/// Prints a name on one line, and spaces after it up to so many characters. A name of visible ASCII has as many as bytes.
pub fn print_wide_escaped<O: Write>(name: &str, width: usize, out: &mut O) -> io::Result<()>
    ensures { OnOk result (Appends (O.contents out.old) (O.contents out.new) (escaped_text name.now ++ spaces (width - length (chars name.now)))) }
{
    if are_visible(Style::Name, name.as_bytes()) {
        out.write_all(name.as_bytes())?;
        return print_spaces(width.saturating_sub(name.len()), out);
    }
    print_escaped(name, out)?;
    print_spaces(width.saturating_sub(char_len(name)), out)
}

/// Prints bytes, two digits each.
pub fn print_bytes<O: Write>(bytes: &[u8], out: &mut O) -> io::Result<()>
    ensures { OnOk result (Appends (O.contents out.old) (O.contents out.new) (bytes_text bytes.now)) }
{
    'bytes: for byte in bytes {
        write!(out, "{byte:02x}")?;
    }
    Ok(())
}

/// Prints bytes, two digits each, and spaces after them up to so many characters.
pub(crate) fn print_wide_bytes<O: Write>(bytes: &[u8], width: usize, out: &mut O) -> io::Result<()>
    ensures { OnOk result (Appends (O.contents out.old) (O.contents out.new)
        (bytes_text bytes.now ++ spaces ((width - length bytes.now) - length bytes.now))) }
{
    print_bytes(bytes, out)?;
    let rest = width.saturating_sub(bytes.len());
    print_spaces(rest.saturating_sub(bytes.len()), out)
}
