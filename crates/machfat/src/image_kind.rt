//! What the image is that some bytes begin with, in words.

ghost use Rattle.std.specs.Prelude.{◌≡◌};
ghost use Rattle.mach_dyld.specs.Exports.{text_in};
ghost use Rattle.mach_parts.specs.Magic.{magic_at};
ghost use Rattle.machfat.specs.ImageKinds.{filetype_by, image_words};

use mach_base::read_u32;
use mach_cli::image_kind;
use mach_parts::magic::parse_magic_and_ctx;

// The place of the kind in a header.
const FILETYPE_PLACE: usize = 12;

/// Returns the kind of the image that the bytes begin with, if they begin with one.
pub fn image_words(bytes: &[u8]) -> Option<&'static str>
    ensures { text_in result ≡ image_words bytes.now }
{
    match filetype(bytes) {
        Some(filetype) => Some(image_kind(filetype)),
        None => None,
    }
}

// Returns the number of that kind.
fn filetype(bytes: &[u8]) -> Option<u32>
    ensures { result ≡ filetype_by (magic_at bytes.now 0) bytes.now }
{
    match parse_magic_and_ctx(bytes, 0) {
        Ok((_, Some(ctx))) => read_u32(bytes, FILETYPE_PLACE, ctx.le).ok(),
        _ => None,
    }
}
