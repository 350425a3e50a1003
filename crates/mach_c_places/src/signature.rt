//! The code directory that counts in an image, with its signature.

ghost use Rattle.std.specs.Prelude.{◌≡◌};
ghost use Rattle.std.specs.Option.{option_map};
ghost use Rattle.mach_base.specs.Answer.{Reads};
ghost use Rattle.goblin_mach.specs.OpenImage.{bytes_view, commands_view};
ghost use Rattle.mach_c_places.specs.SignaturePlaces.{image_signed_directory, signed_directory_view};

pub(crate) mod places;

use goblin_mach::MachO;
use mach_base::Result;
use mach_signature::image::signature_place;
use mach_signature::{CodeDirectory, CodeSignature, code_signature};
use std::alloc::Allocator;

/// The code directory that counts in an image, with its signature.
#[derive(Clone, Copy)]
pub struct SignedDirectory<'a> {
    /// The offset of the signature in the image.
    pub dataoff: u32,
    pub signature: CodeSignature<'a>,
    pub directory: CodeDirectory<'a>,
}

/// Returns the code directory that counts in an image, with its signature; none if no command places one. Errors are those of
/// `mach_signature::code_signature` and `CodeSignature::directory`. It allocates nothing.
pub fn signed_directory<'a, A: Allocator>(
    image: &MachO<'a, A>,
) -> Result<Option<SignedDirectory<'a>>>
    ensures { Reads (option_map signed_directory_view) result (image_signed_directory (bytes_view image.now) (commands_view image.now)) }
{
    let Some((dataoff, datasize)) = signature_place(image.load_commands.as_slice()) else {
        return Ok(None);
    };
    let signature = code_signature(image.bytes(), dataoff, datasize)?;
    let directory = signature.directory()?;
    Ok(Some(SignedDirectory {
        dataoff,
        signature,
        directory,
    }))
}
