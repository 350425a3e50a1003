//! Audits the signature of an image: what differs from what was signed, one fault at a time. Ten are kept.

ghost use Rattle.std.specs.Prelude.{◌≡◌, ◌++◌, ◌∷◌, [], List, IfOk, OnOk};
ghost use Rattle.goblin_mach.specs.OpenImage.{bytes_view, commands_view, segments_view};
ghost use Rattle.mach_signature.specs.AsSigned.{SignatureFaultView};
ghost use Rattle.mach_signature.specs.FaultViews.{signature_fault_view, signature_faults_left};
ghost use Rattle.mach_signature.specs.SignedImages.{image_faults};
ghost use Rattle.mach_audit.specs.Signed.{ReportsSignature, ReportsSignatureFaults};

use crate::report::{SignaturePart, SignatureReport, no_memory};
use crate::tally::MOST_REPORTED;
use goblin_mach::MachO;
use mach_signature::image::signature_faults;
use mach_signature::{SignatureFault, SignatureFaults};
use std::alloc::{AllocError, Allocator};

/// Audits the signature of an image: there is none, it can't be read, or these things differ from what was signed.
pub fn audit_signature<A: Allocator, B: Allocator>(
    alloc: B,
    image: &MachO<'_, A>,
) -> Result<SignatureReport<B>, AllocError>
    ensures reported { IfOk result (ReportsSignature (image_faults (bytes_view image.now) (commands_view image.now) (segments_view image.now))) }
{
    match signature_faults(image) {
        Ok(Some(faults)) => {
            let part = audit_signed(alloc, faults)?;
            Ok(SignatureReport::Signed(part))
        }
        Ok(None) => Ok(SignatureReport::Unsigned),
        Err(error) => {
            let error = no_memory(error)?;
            Ok(SignatureReport::Unreadable(error))
        }
    }
}

// Audits all faults of a signature.
fn audit_signed<A: Allocator>(
    alloc: A,
    faults: SignatureFaults<'_>,
) -> Result<SignaturePart<A>, AllocError>
    ensures reported { IfOk result (ReportsSignatureFaults (signature_faults_left faults.entry)) }
{
    let mut part = SignaturePart {
        reported: Vec::new(alloc),
        faults: 0,
    };
    'faults: for fault in faults {
        note(&mut part, fault)?;
    }
    Ok(part)
}

// Counts a fault, and keeps it if it is one of the first ten.
fn note<A: Allocator>(part: &mut SignaturePart<A>, fault: SignatureFault) -> Result<(), AllocError>
    ensures reported { OnOk result ((faults : List SignatureFaultView) → ReportsSignatureFaults faults part.old
        → ReportsSignatureFaults (faults ++ signature_fault_view fault ∷ []) part.new) }
{
    part.faults = part.faults.saturating_add(1);
    if part.reported.len() < MOST_REPORTED {
        part.reported.push(fault)?;
    }
    Ok(())
}
