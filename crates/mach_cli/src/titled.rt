//! A writer that writes a title before the next bytes.

ghost use Rattle.std.specs.Prelude.{◌≡◌, ◌≤◌, ◌++◌, [], ℕ, length, take, OnOk};
ghost use Rattle.std.specs.Io.{WritesAtMost};
ghost use Rattle.std.specs.Io.Buffered.{writer_buffer, writer_inner};
ghost use Rattle.std.specs.Io.KnownBytes.{Appends, Keeps, WriteAppends};
ghost use Rattle.mach_cli.specs.Titles.{pending_title, titled_contents, titled_inner, IsUnder};

use std::alloc::{Allocator, Global};
use std::io;
use std::io::{BufWriter, ErrorKind, Write};

/// A writer over another one. It writes a title before the first byte that follows. If none follows, the title isn't written.
#[derive(Drop)]
pub struct Titled<W> {
    // The writer below.
    inner: W,
    // The title, and how many of its bytes are written.
    title: Vec<u8>,
    written: usize,
}

impl<W> Titled<W> {
    /// Returns a writer without a title.
    pub fn new(alloc: Global, inner: W) -> Titled<W>
        ensures inner { titled_inner result ≡ inner }
        ensures title { pending_title result ≡ [] }
    {
        Titled {
            inner,
            title: Vec::new(alloc),
            written: 0,
        }
    }

    // Sets a title, instead of one that isn't written yet.
    fn set(&mut self, title: Vec<u8>)
        ensures inner { titled_inner self.new ≡ titled_inner self.old }
        ensures title { pending_title self.new ≡ title.items }
    {
        self.title = title;
        self.written = 0;
    }
}

impl<W: Write> Titled<W> {
    // Writes the rest of the title.
    fn begin(&mut self) -> io::Result<()>
        ensures kept { Keeps (titled_contents W.contents self.old) (titled_contents W.contents self.new) }
        ensures written { OnOk result (pending_title self.new ≡ []) }
    {
        'title: while self.written < self.title.len() {
            let count = self.inner.write(&self.title[self.written..])?;
            if count == 0 {
                return Err(io::Error::from(ErrorKind::WriteZero));
            }
            self.written += count;
        }
        Ok(())
    }
}

impl<W: Write> Write for Titled<W> {
    ghost contents = { titled_contents W.contents };

    fn write(&mut self, buf: &[u8]) -> io::Result<usize>
        ensures bound { WritesAtMost result buf.now }
        ensures bytes { WriteAppends (titled_contents W.contents self.old) (titled_contents W.contents self.new) result buf.now }
        ensures title { 1 ≤ length buf.now → OnOk result (pending_title self.new ≡ []) }
        ensures nothing { length buf.now ≡ 0 → self.new ≡ self.old }
    {
        if buf.is_empty() {
            return Ok(0);
        }
        self.begin()?;
        self.inner.write(buf)
    }

    fn flush(&mut self) -> io::Result<()>
        ensures bytes { Keeps (titled_contents W.contents self.old) (titled_contents W.contents self.new) }
        ensures title { pending_title self.new ≡ pending_title self.old }
    {
        self.inner.flush()
    }
}

/// Sets the title of what is written next. It replaces the previous title if that isn't written yet.
pub fn put_title<W: Write + Drop, B: Allocator>(out: &mut BufWriter<Titled<W>, B>, title: Vec<u8>)
    ensures { IsUnder title.items out.old out.new }
{
    out.get_mut().set(title);
}
