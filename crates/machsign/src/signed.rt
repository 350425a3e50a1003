//! The signature of an image, with the bytes of the image.

ghost use Rattle.std.specs.Prelude.{◌≡◌, Option};
ghost use Rattle.std.specs.Option.{option_map};
ghost use Rattle.mach_base.specs.Answer.{Reads};
ghost use Rattle.goblin_mach.specs.OpenImage.{bytes_view, commands_view, segments_view};
ghost use Rattle.mach_signature.specs.FaultViews.{signed_view};
ghost use Rattle.machsign.specs.ImageLines.{image_signed};
ghost use Rattle.machsign.specs.Signatures.{has_sound_parts};

use goblin_mach::{MachO, Result};
use mach_signature::image::{image_plist, signature_place};
use mach_signature::{SignedBytes, code_signature};
use std::alloc::Allocator;

/// Whether the entitlements of a signature say the same, if it has them in XML and in DER, and its requirements can be read.
pub fn has_sound_parts(signed: &SignedBytes<'_>) -> bool
    ensures { result ≡ has_sound_parts (signed_view signed.now) }
{
    signed.signature.entitlements_agree() && signed.signature.has_readable_requirements()
}

/// Returns the signature of an image, if it has one, with the bytes of the image.
pub fn signed_image<'a, A: Allocator>(image: &MachO<'a, A>) -> Result<Option<SignedBytes<'a>>>
    ensures { Reads (option_map signed_view) result (image_signed (bytes_view image.now) (commands_view image.now) (segments_view image.now)) }
{
    let Some((dataoff, datasize)) = signature_place(image.load_commands.as_slice()) else {
        return Ok(None);
    };
    let bytes = image.bytes();
    let signature = code_signature(bytes, dataoff, datasize)?;
    Ok(Some(SignedBytes {
        image: bytes,
        dataoff,
        signature,
        plist: image_plist(image),
    }))
}
