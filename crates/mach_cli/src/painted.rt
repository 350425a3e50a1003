//! A writer that paints words of a program's lines.

ghost use Rattle.std.specs.Prelude.{◌≡◌, ◌≤◌, ◌<◌, ℕ, false, length, true, IfOk, OnOk};
ghost use Rattle.std.specs.Io.{WritesAtMost};
ghost use Rattle.std.specs.Io.KnownBytes.{Appends, WriteAppends};
ghost use Rattle.mach_cli.specs.Painted.{begins_word, in_red, is_blank, is_painted_at, painted_contents, painted_first, painted_len, painter_of};
ghost use Rattle.mach_cli.specs.Painted.{PaintsOn, StopsAtPainted};

use std::io;
use std::io::Write;

// Red, and the end of it (ECMA-48, select graphic rendition).
const RED: &[u8] = b"\x1b[31m";

const PLAIN: &[u8] = b"\x1b[0m";

/// A writer that passes bytes on. Where output is coloured, it writes in red what says that something is at fault, refused, or both
/// writable and executable: the words `fault:`, `malformed:`, `not sound`, `refused:`, `unreadable:` and `w+x`.
#[derive(Drop)]
pub enum Painted<W> {
    /// Passes bytes on unchanged.
    Plain(W),
    /// Its output is coloured.
    Coloured(W),
}

impl<W> Painted<W> {
    /// Wraps a writer, whose output is coloured or not.
    pub fn new(inner: W, is_coloured: bool) -> Self
        ensures { result ≡ painter_of is_coloured inner }
    {
        if is_coloured {
            Painted::Coloured(inner)
        } else {
            Painted::Plain(inner)
        }
    }
}

impl<W: Write> Write for Painted<W> {
    ghost contents = { λ w. painted_contents W.contents w };

    fn write(&mut self, buf: &[u8]) -> io::Result<usize>
        ensures bound { WritesAtMost result buf.now }
        ensures bytes { WriteAppends (painted_contents W.contents self.old) (painted_contents W.contents self.new) result buf.now }
        ensures painted { IfOk result (λ n. PaintsOn W.contents self.old self.new n buf.now) }
    {
        match self {
            Painted::Plain(inner) => inner.write(buf),
            Painted::Coloured(inner) => write_painted(buf, inner),
        }
    }

    fn flush(&mut self) -> io::Result<()> {
        match self {
            Painted::Plain(inner) => inner.flush(),
            Painted::Coloured(inner) => inner.flush(),
        }
    }
}

// Whether a byte separates words.
fn is_blank(byte: u8) -> bool
    ensures { result ≡ is_blank byte }
{
    byte == b' ' || byte == b'\n'
}

// Whether a text begins with a word, and a blank after it.
fn begins_word(text: &[u8], word: &[u8]) -> bool
    ensures value { result ≡ begins_word word.now text.now }
    ensures bound { result ≡ true → length word.now < length text.now }
{
    match text.get(word.len()) {
        Some(next) => is_blank(*next) && text.starts_with(word),
        None => false,
    }
}

// Returns how many bytes the painted word takes that a text begins with; 0 if it begins with none.
fn painted_len(text: &[u8]) -> usize
    ensures value { result ≡ painted_len text.now }
    ensures bound { result ≤ length text.now }
{
    if begins_word(text, b"fault:") {
        6
    } else if begins_word(text, b"malformed:") {
        10
    } else if begins_word(text, b"not sound") {
        9
    } else if begins_word(text, b"refused:") {
        8
    } else if begins_word(text, b"unreadable:") {
        11
    } else if begins_word(text, b"w+x") {
        3
    } else {
        0
    }
}

// Whether a painted word begins at a place of a text, after a blank.
fn is_painted_at(text: &[u8], at: usize) -> bool
    requires { at < length text.now }
    ensures { result ≡ is_painted_at text.now at }
{
    match at.checked_sub(1) {
        Some(before) => is_blank(text[before]) && painted_len(&text[at..]) > 0,
        None => false,
    }
}

// Returns where the first painted word begins after the start of a text; if none does, its length.
fn next_painted(text: &[u8]) -> usize
    ensures bound { result ≤ length text.now }
    ensures none { (i : ℕ) → i < result → is_painted_at text.now i ≡ false }
    ensures first { result < length text.now → is_painted_at text.now result ≡ true }
{
    'bytes: for at in 0..text.len() {
        if is_painted_at(text, at) {
            return at;
        }
    }
    text.len()
}

// Writes a word in red.
fn write_red<W: Write>(word: &[u8], out: &mut W) -> io::Result<()>
    ensures { OnOk result (Appends (W.contents out.old) (W.contents out.new) (in_red word.now)) }
{
    out.write_all(RED)?;
    out.write_all(word)?;
    out.write_all(PLAIN)
}

// Writes the first bytes of a text: a painted word, in red, or what precedes the next one. Returns how many bytes these are.
fn write_painted<W: Write>(text: &[u8], out: &mut W) -> io::Result<usize>
    ensures bound { WritesAtMost result text.now }
    ensures painted { IfOk result (λ n. Appends (W.contents out.old) (W.contents out.new) (painted_first n text.now)) }
    ensures stops { IfOk result (λ n. StopsAtPainted n text.now) }
{
    let len = painted_len(text);
    if len == 0 {
        return out.write(&text[..next_painted(text)]);
    }
    write_red(&text[..len], out)?;
    Ok(len)
}
