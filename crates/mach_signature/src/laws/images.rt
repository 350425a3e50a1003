//! Laws that relate an opened image to the bytes in which it was opened.

ghost use Rattle.std.specs.Prelude.{◌≡◌, ◌↔◌, [], ℕ, Bool, IsTrue, List, Some, Ok, Err};
ghost use Rattle.mach_base.specs.Fault.{Fault};
ghost use Rattle.goblin_mach.specs.Modes.{HoldsAs, InBothModes};
ghost use Rattle.goblin_mach.specs.OpenImage.{bytes_view, commands_view, segments_view};
ghost use Rattle.mach_load.specs.Command.{Command};
ghost use Rattle.mach_parts.specs.Segment.{SegmentView};
ghost use Rattle.mach_signature.specs.SignedFacts.{HasSignature, HasCodeDirectory, HasSignatureFaults, HoldsAsSigned};
ghost use Rattle.mach_signature.specs.SignedImages.{image_signature, image_directory, image_faults, is_as_signed, IsImageAsSigned};

use goblin_mach::MachO;
use std::alloc::Allocator;

/// `code_signature` answers what the bytes say.
pub fn signature_of_image<A: Allocator>(image: &MachO<'_, A>)
    ensures { HoldsAs image.now HasSignature (image_signature (bytes_view image.now) (commands_view image.now)) }
{}

/// `code_directory` answers what the bytes say.
pub fn directory_of_image<A: Allocator>(image: &MachO<'_, A>)
    ensures { HoldsAs image.now HasCodeDirectory (image_directory (bytes_view image.now) (commands_view image.now)) }
{}

/// `signature_faults` answers what the bytes say.
pub fn signature_faults_of_image<A: Allocator>(image: &MachO<'_, A>)
    ensures { HoldsAs image.now HasSignatureFaults (image_faults (bytes_view image.now) (commands_view image.now) (segments_view image.now)) }
{}

/// An image has a signature without a fault exactly when it is as it was signed.
pub fn image_as_signed()
    ensures { (bytes : List ℕ) (cs : List Command) (segments : List SegmentView)
        → (image_faults bytes cs segments ≡ Ok (Some [])) ↔ IsImageAsSigned bytes cs segments }
{}

/// `is_as_signed` answers what the bytes say: whether the image is as it was signed, or why its signature can't be read.
pub fn as_signed_of_image<A: Allocator>(image: &MachO<'_, A>)
    ensures said { InBothModes image.now (λ bytes o. (is : Bool)
        → is_as_signed (image_faults (bytes_view image.now) (commands_view image.now) (segments_view image.now)) ≡ Ok is → IsTrue is ↔ HoldsAsSigned bytes o) }
    ensures refused { InBothModes image.now (λ bytes o. (f : Fault)
        → is_as_signed (image_faults (bytes_view image.now) (commands_view image.now) (segments_view image.now)) ≡ Err f
        → HasSignatureFaults bytes o (Err f)) }
{}
