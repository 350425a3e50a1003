//! The signature of an image, and its faults.

ghost use Rattle.std.specs.Prelude.{◌≡◌, option_map};
ghost use Rattle.mach_base.specs.Answer.{Reads};
ghost use Rattle.goblin_mach.specs.OpenImage.{bytes_view, commands_view, segments_view};
ghost use Rattle.mach_signature.specs.DirectoryViews.{directory_view, slot_read};
ghost use Rattle.mach_signature.specs.FaultViews.{signature_faults_left};
ghost use Rattle.mach_signature.specs.SignViews.{signature_view};
ghost use Rattle.mach_signature.specs.SignedImages.{image_signature, image_directory, image_faults, plist_of, are_unreported};
ghost use Rattle.mach_signature.specs.SignedImages as defined;

use crate::directory::CodeDirectory;
use crate::faults::SignatureFaults;
pub use crate::plist::info_plist;
use crate::signature::CodeSignature;
pub use crate::signature_place::signature_place;
use goblin_mach::MachO;
use mach_base::Result;
use std::alloc::Allocator;

/// Returns the code signature of an image: the one that its first `LC_CODE_SIGNATURE` places, or none without such a command.
/// Opening an image checks nothing of it. Errors are those of `crate::faults::code_signature`. It allocates nothing.
pub fn code_signature<'a, A: Allocator>(image: &MachO<'a, A>) -> Result<Option<CodeSignature<'a>>>
    ensures { Reads (option_map signature_view) result (image_signature (bytes_view image.now) (commands_view image.now)) }
{
    let Some((dataoff, datasize)) = signature_place(image.load_commands.as_slice()) else {
        return Ok(None);
    };
    let signature = crate::faults::code_signature(image.bytes(), dataoff, datasize)?;
    Ok(Some(signature))
}

/// Returns the code directory that counts in the signature of an image: the system knows the code by it. It is none without a
/// signature. Errors are those of `code_signature` and of `CodeSignature::directory`. It allocates nothing.
pub fn code_directory<'a, A: Allocator>(image: &MachO<'a, A>) -> Result<Option<CodeDirectory<'a>>>
    ensures { Reads (option_map directory_view) result (image_directory (bytes_view image.now) (commands_view image.now)) }
{
    let Some(signature) = code_signature(image)? else {
        return Ok(None);
    };
    let directory = signature.directory()?;
    Ok(Some(directory))
}

/// Returns the section that the signature of an image seals as its Info.plist, if there is one and its bytes are in the file.
pub fn image_plist<'a, A: Allocator>(image: &MachO<'a, A>) -> Option<&'a [u8]>
    ensures { slot_read result ≡ plist_of (bytes_view image.now) (segments_view image.now) }
{
    info_plist(image.bytes(), image.segments.as_slice())
}

/// Returns the faults of an image's signature, in order; none if no command places one. The list is empty exactly when everything
/// is as signed. Errors are those of `code_signature`. It allocates nothing, and hashes the image at most once for each of four
/// directories.
pub fn signature_faults<'a, A: Allocator>(
    image: &MachO<'a, A>,
) -> Result<Option<SignatureFaults<'a>>>
    ensures { Reads (option_map signature_faults_left) result (image_faults (bytes_view image.now) (commands_view image.now) (segments_view image.now)) }
{
    let Some((dataoff, datasize)) = signature_place(image.load_commands.as_slice()) else {
        return Ok(None);
    };
    let bytes = image.bytes();
    let faults = crate::faults::signature_faults(bytes, dataoff, datasize, image_plist(image))?;
    Ok(Some(faults))
}

// Whether there is a signature, and it has no fault.
fn are_unreported(faults: Option<SignatureFaults<'_>>) -> bool
    ensures { result ≡ are_unreported (option_map signature_faults_left faults.entry) }
{
    match faults {
        Some(mut faults) => match faults.next() {
            Some(_) => false,
            None => true,
        },
        None => false,
    }
}

/// Whether an image has a signature and is as it was signed. Errors are those of `code_signature`. It allocates nothing.
pub fn is_as_signed<A: Allocator>(image: &MachO<'_, A>) -> Result<bool>
    ensures { Reads (λ is. is) result
        (defined.is_as_signed (image_faults (bytes_view image.now) (commands_view image.now) (segments_view image.now))) }
{
    let faults = signature_faults(image)?;
    Ok(are_unreported(faults))
}
