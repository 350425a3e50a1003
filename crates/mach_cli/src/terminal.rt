//! A writer whose bytes may go to a terminal.

ghost use Rattle.std.specs.Prelude.{◌≡◌, ◌≤◌, ◌<◌, ℕ, false, get_or, length, take, true, IfOk, OnOk};
ghost use Rattle.std.specs.Io.{WritesAtMost};
ghost use Rattle.std.specs.Io.KnownBytes.{Appends, WriteAppends};
ghost use Rattle.mach_cli.specs.Escapes.{escape_text};
ghost use Rattle.mach_cli.specs.TerminalShown.{contents_of, is_control, shown_text, writer_for, HandsOn};

use std::io;
use std::io::Write;

/// A writer that passes bytes on. On a terminal every control character except a line feed becomes `\xNN`, because bytes of a
/// name may change what a terminal shows.
#[derive(Drop)]
pub enum ForTerminal<W> {
    /// Passes bytes on unchanged.
    Plain(W),
    /// It goes to a terminal.
    Shown(W),
}

impl<W> ForTerminal<W> {
    /// Wraps a writer, which is a terminal or not.
    pub fn new(inner: W, is_terminal: bool) -> Self
        ensures { result ≡ writer_for is_terminal inner }
    {
        if is_terminal {
            ForTerminal::Shown(inner)
        } else {
            ForTerminal::Plain(inner)
        }
    }
}

impl<W: Write> Write for ForTerminal<W> {
    ghost contents = { λ w. contents_of W.contents w };

    fn write(&mut self, buf: &[u8]) -> io::Result<usize>
        ensures bound { WritesAtMost result buf.now }
        ensures bytes { WriteAppends (contents_of W.contents self.old) (contents_of W.contents self.new) result buf.now }
        ensures handed_on { IfOk result (λ n. HandsOn W.contents self.old self.new (take n buf.now)) }
    {
        match self {
            ForTerminal::Plain(inner) => inner.write(buf),
            ForTerminal::Shown(inner) => write_shown(buf, inner),
        }
    }

    fn flush(&mut self) -> io::Result<()> {
        match self {
            ForTerminal::Plain(inner) => inner.flush(),
            ForTerminal::Shown(inner) => inner.flush(),
        }
    }
}

// Whether a byte may change what a terminal shows.
fn is_control(byte: u8) -> bool
    ensures { result ≡ is_control byte }
{
    byte < 0x20 && byte != b'\n' || byte == 0x7f
}

// Returns how many of the first bytes are passed on unchanged.
fn plain_len(bytes: &[u8]) -> usize
    ensures bound { result ≤ length bytes.now }
    ensures plain { (n : ℕ) → n ≤ result → shown_text (take n bytes.now) ≡ take n bytes.now }
    ensures kept { (i : ℕ) → i < result → is_control (get_or bytes.now i 0) ≡ false }
    ensures stops { result < length bytes.now → is_control (get_or bytes.now result 0) ≡ true }
{
    'bytes: for at in 0..bytes.len() {
        if is_control(bytes[at]) {
            return at;
        }
    }
    bytes.len()
}

// Writes the first bytes in a form that is safe for a terminal, and returns how many bytes these are.
fn write_shown<W: Write>(bytes: &[u8], out: &mut W) -> io::Result<usize>
    ensures bound { WritesAtMost result bytes.now }
    ensures shown { IfOk result (λ n. Appends (W.contents out.old) (W.contents out.new) (shown_text (take n bytes.now))) }
    // If the first byte isn't safe for a terminal, that byte alone is taken.
    ensures escape { 0 < length bytes.now → is_control (get_or bytes.now 0 0) ≡ true → IfOk result (λ n. n ≡ 1) }
{
    let end = plain_len(bytes);
    if end == 0 && end < bytes.len() {
        write_escape(bytes[0], out)?;
        return Ok(1);
    }
    out.write(&bytes[..end])
}

// Writes the escape of a byte that isn't safe for a terminal.
fn write_escape<W: Write>(byte: u8, out: &mut W) -> io::Result<()>
    ensures { OnOk result (Appends (W.contents out.old) (W.contents out.new) (escape_text byte)) }
{
    write!(out, "\\x{byte:02x}")
}
