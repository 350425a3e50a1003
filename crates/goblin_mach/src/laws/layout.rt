//! Laws between an opened image and the facts on the bytes in which it was opened.

ghost use Rattle.std.specs.Prelude.{◌≡◌, ◌↔◌, ℕ, List};
ghost use Rattle.goblin_mach.specs.OpenImage.{IsImage, IsLossyImage};
ghost use Rattle.goblin_mach.specs.ImageFacts.{facts_view};
ghost use Rattle.goblin_mach.specs.LayoutFacts.{HasClaims, HasLayoutFaults};
ghost use Rattle.goblin_mach.specs.Held.{laid_view};
ghost use Rattle.goblin_mach.specs.ListFaults.{AreListFaults};
ghost use Rattle.mach_layout.specs.Claims.{claims_of};
ghost use Rattle.mach_layout.specs.Faults.{AreLayoutFaults};
ghost use Rattle.mach_layout.specs.declared.claim.Claim.{Claim};
ghost use Rattle.mach_layout.specs.declared.fault.LayoutFault.{LayoutFault};

use crate::macho::MachO;
use std::alloc::Allocator;

/// The claims that `claims` returns are those of the bytes.
pub fn claims_of_image<A: Allocator>(image: &MachO<'_, A>)
    ensures strict { (bytes : List ℕ) → IsImage bytes 0 image.now → (list : List Claim) → HasClaims bytes list ↔ (list ≡ claims_of (laid_view image.now)) }
    ensures lossy { (bytes : List ℕ) → IsLossyImage bytes 0 image.now → (list : List Claim) → HasClaims bytes list ↔ (list ≡ claims_of (laid_view image.now)) }
{}

/// The faults that `layout_faults` lists are those of the bytes.
pub fn layout_faults_of_image<A: Allocator>(image: &MachO<'_, A>)
    ensures strict { (bytes : List ℕ) → IsImage bytes 0 image.now → (list : List LayoutFault)
        → HasLayoutFaults bytes list ↔ AreLayoutFaults (laid_view image.now) (AreListFaults (facts_view image.now)) list }
    ensures lossy { (bytes : List ℕ) → IsLossyImage bytes 0 image.now → (list : List LayoutFault)
        → HasLayoutFaults bytes list ↔ AreLayoutFaults (laid_view image.now) (AreListFaults (facts_view image.now)) list }
{}

/// An image has at most one list of faults of its layout.
pub fn one_list_of_layout_faults()
    ensures { (bytes : List ℕ) (list others : List LayoutFault) → HasLayoutFaults bytes list → HasLayoutFaults bytes others → list ≡ others }
{
    mach_dyld::laws::one_list_of_bindings();
    mach_dyld::laws::one_list_of_rebases();
    mach_dyld::laws::one_list_of_weak_binds();
    mach_load::laws::starts_are_one_list();
}
