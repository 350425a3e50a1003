//! Laws of faults.

ghost use Rattle.std.specs.Prelude.{List, All};
ghost use Rattle.mach_layout.specs.Claims.{claims_of};
ghost use Rattle.mach_layout.specs.Laid.{Laid};
ghost use Rattle.mach_layout.specs.Ranges.{lone_claims};
ghost use Rattle.mach_layout.specs.Sweep.{AreShared, IsOfTwo};
ghost use Rattle.mach_layout.specs.declared.claim.Claim.{Claim};
ghost use Rattle.mach_layout.specs.declared.fault.Rule.{Rule};
ghost use Rattle.mach_layout.specs.declared.fault.LayoutFault.{LayoutFault};

/// Each fault of ranges that share a place is one of two of these ranges.
#[tactic(auto, using(crate::proofs::Sharing::shared_are_ranges))]
pub fn shared_are_ranges()
    ensures { (rule : Rule) (ranges : List Claim) (reported : List LayoutFault) → AreShared rule ranges reported → All (IsOfTwo rule ranges) reported }
{}

/// Each fault of claims of an image that may not share a place is one of two of its claims.
#[tactic(auto, using(crate::proofs::Sharing::shared_are_claims))]
pub fn shared_are_claims()
    ensures { (laid : Laid) (rule : Rule) (reported : List LayoutFault) → AreShared rule (lone_claims laid) reported
        → All (IsOfTwo rule (claims_of laid)) reported }
{}
