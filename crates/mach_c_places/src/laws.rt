//! What is answered for an opened image is what its bytes say.

ghost use Rattle.goblin_mach.specs.Modes.{HoldsAs};
ghost use Rattle.goblin_mach.specs.OpenImage.{bytes_view, commands_view};
ghost use Rattle.mach_c_places.specs.SignaturePlaces.{HasSignedDirectory, image_signed_directory};

use goblin_mach::MachO;
use std::alloc::Allocator;

/// `signed_directory` answers what the bytes say.
pub fn signed_directory_of_image<A: Allocator>(image: &MachO<'_, A>)
    ensures { HoldsAs image.now HasSignedDirectory (image_signed_directory (bytes_view image.now) (commands_view image.now)) }
{}
