//! The bytes of an image, with the reader of their texts.

ghost use Rattle.std.specs.Prelude.{◌≡◌};
ghost use Rattle.mach_base.specs.Answer.{Reads};
ghost use Rattle.mach_base.specs.KeptText.{kept_bytes};
ghost use Rattle.mach_base.specs.Text.{text_at};

use mach_base::{KeptText, Result};

/// The bytes of an image, with the reader of their texts. Long texts that end together are scanned once.
#[derive(Clone, Copy)]
pub(crate) struct NamedBytes<'a> {
    pub(crate) bytes: &'a [u8],
    pub(crate) names: KeptText<'a>,
    ghost same_bytes: { kept_bytes names ≡ bytes.now },
}

impl<'a> NamedBytes<'a> {
    /// Reads the text at a place.
    #[inline(always)]
    pub(crate) fn read(&mut self, place: usize) -> Result<&'a str>
        ensures text { Reads (λ text. text.now) result (text_at self.old.bytes.now place) }
        ensures bytes { self.new.bytes ≡ self.old.bytes }
    {
        self.names.read(place)
    }
}
