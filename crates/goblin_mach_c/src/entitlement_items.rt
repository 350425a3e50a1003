//! The entitlements of an image's signature, value by value.

ghost use Rattle.std.specs.Prelude.{◌≡◌, ◌≢◌, IfSome, Ok, Option};
ghost use Rattle.std.specs.Option.{option_map};
ghost use Rattle.mach_base.specs.Answer.{Reads};
ghost use Rattle.goblin_mach.specs.OpenImage.{bytes_view, commands_view};
ghost use Rattle.mach_signature.specs.DirectoryViews.{slot_read};
ghost use Rattle.mach_signature.specs.EntitlementValues.{Entitled};
ghost use Rattle.mach_signature.specs.SignedImages.{image_signature};
ghost use Rattle.mach_signature.specs.SignViews.{signature_view};
ghost use Rattle.mach_signature.specs.SuperBlob.{content_of};
ghost use Rattle.goblin_mach_c.specs.Codes.{IsRefusalCode};
ghost use Rattle.goblin_mach_c.specs.EntitlementWrites as defined;
ghost use Rattle.goblin_mach_c.specs.EntitlementWrites.{EntitledFaultIn, HoldsEntitled, AreFoundValues, WritesEntitled, WritesFirst};

use crate::entitlement_rows::{Gathered, add_dictionary, gm_entitlement_item};
use crate::errors::{GM_OK, gm_error, refuse};
use crate::images::gm_image;
use crate::open::open;
use goblin_mach::MachO;
use mach_base::{Error, Result};
use mach_signature::CodeSignature;
use mach_signature::entitlements::{Notation, Span, readable_values};
use mach_signature::image::code_signature;
use mach_signature::laws::signature_of_image;
use std::alloc::{AllocError, Global};

// Returns the notation of a flag.
fn notation_of(is_der: u32) -> Notation
    ensures { result ≡ defined.notation_of is_der }
{
    if is_der == 0 {
        Notation::Xml
    } else {
        Notation::Der
    }
}

// Returns the entitlements of a signature in a notation, as bytes.
fn content_in<'a>(notation: Notation, signature: &CodeSignature<'a>) -> Result<Option<&'a [u8]>>
    ensures { Reads slot_read result (content_of (signature_view signature.now) (defined.entitlement_slot notation)) }
{
    match notation {
        Notation::Xml => signature.entitlements(),
        Notation::Der => signature.der_entitlements(),
    }
}

// Returns the values of entitlements, if there are some.
fn values_in<'a>(notation: Notation, content: Option<&'a [u8]>) -> Result<Option<Span<'a>>>
    ensures { AreFoundValues result (defined.values_by notation (slot_read content.entry)) }
{
    let Some(bytes) = content else {
        return Ok(None);
    };
    match readable_values(notation, bytes) {
        Some(values) => Ok(Some(values)),
        None => Err(Error::Malformed("the entitlements can't be read")),
    }
}

// Returns the values of the entitlements of an image's signature, if it has some.
fn image_values<'a>(image: &MachO<'a, Global>, notation: Notation) -> Result<Option<Span<'a>>>
    ensures { AreFoundValues result (defined.entitlements_by notation (image_signature (bytes_view image.now) (commands_view image.now))) }
{
    let Some(signature) = code_signature(image)? else {
        return Ok(None);
    };
    let content = content_in(notation, &signature)?;
    values_in(notation, content)
}

// Returns the rows and the texts of values, or none if memory ran out.
fn gathered(alloc: Global, values: Option<Span<'_>>) -> Option<Gathered>
    ensures { (found : Option Entitled) → AreFoundValues (Ok values.entry) (Ok found) → IfSome result (HoldsEntitled found) }
{
    let mut all = Gathered {
        items: Vec::new(alloc),
        texts: Vec::new(alloc),
    };
    if let Some(values) = values {
        add_dictionary(values, &mut all)?;
    }
    Some(all)
}

// Writes as many items as fit to the start of an array, and returns how many there are.
fn write_first<T: Copy>(items: &[T], out: &mut [T]) -> usize
    ensures { WritesFirst items.now out.old out.new result }
{
    if items.len() <= out.len() {
        out[..items.len()].copy_from_slice(items);
    } else {
        out.copy_from_slice(&items[..out.len()]);
    }
    items.len()
}

/// Writes the values of the entitlements of an image's signature, in XML or in DER, a row each, and their texts, as many of both as
/// fit. It writes how many rows there are to `count`, and how many bytes of texts to `texts_len`. They are 0 if there are no such
/// entitlements, or no signature. It opens the image again, and allocates memory for its commands, the rows and the texts while it
/// runs. It is refused if the signature or the entitlements can't be read. A refused call leaves the arrays and the numbers unchanged.
#[unsafe(no_mangle)]
pub extern "C" fn gmr_entitlement_items(
    alloc: Global,
    bytes: &[u8],
    image: &gm_image,
    is_der: u32,
    items: &mut [gm_entitlement_item],
    count: &mut usize,
    texts: &mut [u8],
    texts_len: &mut usize,
    error: &mut gm_error,
) -> u32
    ensures written { result ≡ 0 → WritesEntitled bytes.now image.now.offset (defined.notation_of is_der) items.old items.new count.new
        texts.old texts.new texts_len.new }
    ensures refused { result ≢ 0 → IsRefusalCode (EntitledFaultIn bytes.now image.now is_der) result }
    ensures arrays { result ≢ 0 → (items.new ≡ items.old) × (texts.new ≡ texts.old) }
    ensures counts { result ≢ 0 → (count.new ≡ count.old) × (texts_len.new ≡ texts_len.old) }
    ensures reported { result ≢ 0 → error.new.code ≡ result }
    ensures quiet { result ≡ 0 → error.new ≡ error.old }
{
    match open(alloc, bytes, image.offset, image.is_lossy != 0) {
        Ok(found) => {
            signature_of_image(&found);
            match image_values(&found, notation_of(is_der)) {
                Ok(values) => match gathered(alloc, values) {
                    Some(all) => {
                        *count = write_first(all.items.as_slice(), items);
                        *texts_len = write_first(all.texts.as_slice(), texts);
                        GM_OK
                    }
                    None => refuse(&Error::Memory(AllocError), error),
                },
                Err(why) => refuse(&why, error),
            }
        }
        Err(why) => refuse(&why, error),
    }
}
