//! A reader of texts that searches only once for the common end of several texts.

ghost use Rattle.std.specs.Prelude.{◌≡◌, ◌<◌, ◌+◌, length, Ok, IfSome};
ghost use Rattle.mach_base.specs.Text.{text_at};
ghost use Rattle.mach_base.specs.Answer.{Reads};

use crate::error::Result;
use crate::texts::read_text;

// The shortest text that is kept, in bytes. Shorter ones are cheap to read again.
const LONG: usize = 256;

/// Reads texts at places of some bytes and keeps the last long one. A text that begins within the kept one ends where
/// that one ends, so its end is not searched again. Names that all run to one distant zero byte cost one search together.
#[derive(Clone, Copy)]
pub struct KeptText<'a> {
    bytes: &'a [u8],
    /// Where the kept text begins.
    start: usize,
    /// The kept text, or empty if there is none.
    text: &'a str,
    ghost there: { 0 < length text.now → text_at bytes.now start ≡ Ok text.now },
}

impl<'a> KeptText<'a> {
    ghost use Rattle.mach_base.specs.KeptText.{kept_bytes};

    /// Builds a reader of these bytes. It keeps no text yet.
    pub fn new(bytes: &'a [u8]) -> KeptText<'a>
        ensures { kept_bytes result ≡ bytes.now }
    {
        KeptText {
            bytes,
            start: 0,
            text: "",
        }
    }

    // Returns the text at `place` if that lies within the kept text and a character begins there.
    #[inline(always)]
    fn within(&self, place: usize) -> Option<&'a str>
        ensures { IfSome result (λ text. text_at (kept_bytes self.now) place ≡ Ok text.now) }
    {
        if place < self.start || place - self.start >= self.text.len() {
            return None;
        }
        self.cut(place - self.start)
    }

    // Returns the rest of the kept text from `from` on, if a character begins there.
    #[cold]
    #[inline(never)]
    fn cut(&self, from: usize) -> Option<&'a str>
        requires { from < length self.now.text.now }
        ensures { IfSome result (λ text. text_at (kept_bytes self.now) (self.now.start + from) ≡ Ok text.now) }
    {
        if !self.text.is_char_boundary(from) {
            return None;
        }
        Some(&self.text[from..])
    }

    /// Reads the text at `place`. It runs to the first zero byte, or to the end, and is UTF-8.
    #[inline(always)]
    pub fn read(&mut self, place: usize) -> Result<&'a str>
        ensures text { Reads (λ text. text.now) result (text_at (kept_bytes self.old) place) }
        ensures bytes { kept_bytes self.new ≡ kept_bytes self.old }
    {
        if let Some(text) = self.within(place) {
            return Ok(text);
        }
        let text = read_text(self.bytes, place)?;
        if text.len() >= LONG {
            self.start = place;
            self.text = text;
        }
        Ok(text)
    }
}
