//! Whether the entitlements of an image's signature in XML and in DER say the same.

ghost use Rattle.std.specs.Prelude.{◌≡◌, ◌≢◌};
ghost use Rattle.std.specs.Option.{option_map};
ghost use Rattle.mach_base.specs.Items.{read_as};
ghost use Rattle.mach_signature.specs.DirectoryViews.{slot_read};
ghost use Rattle.mach_signature.specs.SignViews.{signature_view};
ghost use Rattle.goblin_mach_c.specs.Codes.{IsRefusalCode};
ghost use Rattle.goblin_mach_c.specs.EntitlementNumbers as numbers;
ghost use Rattle.goblin_mach_c.specs.EntitlementNumbers.{SaysEntitlements, SignedFaultIn};

use crate::errors::{GM_OK, gm_error, refuse};
use crate::images::gm_image;
use crate::open::open;
use mach_base::Result;
use mach_signature::CodeSignature;
use mach_signature::entitlements::{Agreement, agreement_of};
use mach_signature::image::code_signature;
use mach_signature::laws::signature_of_image;
use std::alloc::Global;

/// There are none, or there is no signature.
pub const GM_ENTITLEMENTS_NONE: u32 = 0;

/// Those in XML and those in DER say the same.
pub const GM_ENTITLEMENTS_AGREE: u32 = 1;

/// A value differs, or one of them has a key that the other lacks.
pub const GM_ENTITLEMENTS_DIFFER: u32 = 2;

/// There are none in DER. Those in XML aren't read.
pub const GM_ENTITLEMENTS_ONLY_XML: u32 = 3;

/// There are none in XML. Those in DER aren't read.
pub const GM_ENTITLEMENTS_ONLY_DER: u32 = 4;

/// Those in XML can't be read.
pub const GM_ENTITLEMENTS_UNREADABLE_XML: u32 = 5;

/// Those in DER can't be read.
pub const GM_ENTITLEMENTS_UNREADABLE_DER: u32 = 6;

// Returns the number for entitlements that were compared.
fn compared_number(agreement: Agreement) -> u32
    ensures { result ≡ numbers.compared_number agreement }
{
    match agreement {
        Agreement::Same => GM_ENTITLEMENTS_AGREE,
        Agreement::Different => GM_ENTITLEMENTS_DIFFER,
        Agreement::UnreadableXml => GM_ENTITLEMENTS_UNREADABLE_XML,
        Agreement::UnreadableDer => GM_ENTITLEMENTS_UNREADABLE_DER,
    }
}

// Returns the number for what a signature has in both notations.
fn entitlements_number(xml: Result<Option<&[u8]>>, der: Result<Option<&[u8]>>) -> u32
    ensures { result ≡ numbers.entitlements_number (read_as slot_read xml.entry) (read_as slot_read der.entry) }
{
    match (xml, der) {
        (Err(_), _) => GM_ENTITLEMENTS_UNREADABLE_XML,
        (Ok(_), Err(_)) => GM_ENTITLEMENTS_UNREADABLE_DER,
        (Ok(None), Ok(None)) => GM_ENTITLEMENTS_NONE,
        (Ok(None), Ok(Some(_))) => GM_ENTITLEMENTS_ONLY_DER,
        (Ok(Some(_)), Ok(None)) => GM_ENTITLEMENTS_ONLY_XML,
        (Ok(Some(xml)), Ok(Some(der))) => compared_number(agreement_of(xml, der)),
    }
}

// Returns the number for a signature, if there is one.
fn signature_number(signature: &Option<CodeSignature<'_>>) -> u32
    ensures { result ≡ numbers.signature_number (option_map signature_view signature.now) }
{
    match signature {
        Some(signature) => entitlements_number(
            signature.entitlements(),
            signature.der_entitlements(),
        ),
        None => GM_ENTITLEMENTS_NONE,
    }
}

/// Writes whether the entitlements of an image's signature in XML and in DER say the same, by one of the numbers above, to
/// `agreement`. It opens the image again, and allocates memory for its commands while it runs. It is also refused if the signature
/// can't be read. A refused call leaves `agreement` unchanged.
#[unsafe(no_mangle)]
pub extern "C" fn gmr_entitlements_agree(
    alloc: Global,
    bytes: &[u8],
    image: &gm_image,
    agreement: &mut u32,
    error: &mut gm_error,
) -> u32
    ensures said { result ≡ 0 → SaysEntitlements bytes.now image.now.offset agreement.new }
    ensures refused { result ≢ 0 → IsRefusalCode (SignedFaultIn bytes.now image.now) result }
    ensures kept { result ≢ 0 → agreement.new ≡ agreement.old }
    ensures reported { result ≢ 0 → error.new.code ≡ result }
    ensures quiet { result ≡ 0 → error.new ≡ error.old }
{
    match open(alloc, bytes, image.offset, image.is_lossy != 0) {
        Ok(found) => {
            signature_of_image(&found);
            match code_signature(&found) {
                Ok(signature) => {
                    *agreement = signature_number(&signature);
                    GM_OK
                }
                Err(why) => refuse(&why, error),
            }
        }
        Err(why) => refuse(&why, error),
    }
}
