//! What comes first among values.

ghost use Rattle.mach_base.specs.Answer.{Reads};
ghost use Rattle.mach_signature.specs.EntitlementReads.{entitlement_front};
ghost use Rattle.mach_signature.specs.EntitlementViews.{front_view, seen_span};

use crate::entitlements::der::der_front;
use crate::entitlements::parts::{Front, Group, Notation, Span};
use crate::entitlements::xml::xml_front;
use mach_base::Result;

/// Returns what comes first among the values of a group.
#[tactic(auto, unfolding(crate::specs::EntitlementReads::entitlement_front))]
pub fn front_at<'a>(group: Group, values: Span<'a>) -> Result<Front<'a>>
    ensures { Reads front_view result (entitlement_front group (seen_span values.entry)) }
{
    match values.notation {
        Notation::Xml => xml_front(group, values.bytes),
        Notation::Der => der_front(group, values.bytes),
    }
}
