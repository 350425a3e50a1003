//! Whether the entitlements of a signature in XML and those in DER say the same.

ghost use Rattle.std.specs.Prelude.{◌≡◌, Ok, IsErr, MatchOption};
ghost use Rattle.mach_base.specs.Answer.{Reads};
ghost use Rattle.mach_base.specs.Items.{read_as};
ghost use Rattle.mach_signature.specs.DirectoryViews.{slot_read};
ghost use Rattle.mach_signature.specs.SignViews.{signature_view};
ghost use Rattle.mach_signature.specs.EntitlementAgreement as defined;
ghost use Rattle.mach_signature.specs.EntitlementMarks.{dictionary_read};
ghost use Rattle.mach_signature.specs.EntitlementReads.{entries_at};
ghost use Rattle.mach_signature.specs.EntitlementSpans.{SpanView};
ghost use Rattle.mach_signature.specs.EntitlementValues.{Entitled};
ghost use Rattle.mach_signature.specs.EntitlementViews.{seen_span};
ghost use Rattle.mach_signature.specs.EntitlementXml.{most_steps};
ghost use Rattle.mach_signature.specs.declared.entitlements.parts.Group.TheVariants.{Dictionary};

use crate::entitlements::compare::{rest_or, same_dictionary, values_end};
use crate::entitlements::der::der_start;
use crate::entitlements::parts::{Group, Notation, Span};
use crate::entitlements::xml::{MOST_STEPS, xml_finish, xml_start};
use crate::signature::CodeSignature;
use mach_base::Result;

// Entitlements of more bytes than these aren't read.
const MOST_BYTES: usize = 262_144;

/// Whether entitlements in XML and in DER say the same.
#[derive(Clone, Copy)]
pub enum Agreement {
    /// They say the same.
    Same,
    /// A value differs, or one of them has a key that the other lacks.
    Different,
    /// Those in XML can't be read.
    UnreadableXml,
    /// Those in DER can't be read.
    UnreadableDer,
}

// Returns the values of the outer dictionary, with what follows it if that is known.
fn start_in<'a>(notation: Notation, bytes: &'a [u8]) -> Result<(Span<'a>, Option<Span<'a>>)>
    ensures { Reads dictionary_read result (defined.start_in notation bytes.now) }
{
    match notation {
        Notation::Xml => xml_start(bytes),
        Notation::Der => der_start(bytes),
    }
}

// Reads what follows the outer dictionary.
fn finish_in<'a>(notation: Notation, bytes: &'a [u8]) -> Result<&'a [u8]>
    ensures { Reads (λ last. last.now) result (defined.finish_in notation bytes.now) }
{
    match notation {
        Notation::Xml => xml_finish(bytes),
        Notation::Der => Ok(bytes),
    }
}

/// Returns the values of entitlements, if all of them can be read.
pub fn readable_values<'a>(notation: Notation, bytes: &'a [u8]) -> Option<Span<'a>>
    ensures { MatchOption result (IsErr (defined.entitled_in notation bytes.now))
        (λ values. (x : Entitled × SpanView) × (entries_at most_steps Dictionary (seen_span values) ≡ Ok x)
        × (defined.entitled_in notation bytes.now ≡ Ok x.0)) }
{
    if bytes.len() > MOST_BYTES {
        return None;
    }
    let Ok((values, rest)) = start_in(notation, bytes) else {
        return None;
    };
    let Ok(end) = values_end(MOST_STEPS, Group::Dictionary, values) else {
        return None;
    };
    match finish_in(notation, rest_or(rest, end).bytes) {
        Ok(_) => Some(values),
        Err(_) => None,
    }
}

/// Returns whether entitlements in XML and in DER say the same, differ, or can't be compared.
pub fn agreement_of(xml: &[u8], der: &[u8]) -> Agreement
    ensures { result ≡ defined.agreement_of xml.now der.now }
{
    let Some(first) = readable_values(Notation::Xml, xml) else {
        return Agreement::UnreadableXml;
    };
    let Some(second) = readable_values(Notation::Der, der) else {
        return Agreement::UnreadableDer;
    };
    if same_dictionary(MOST_STEPS, MOST_STEPS, first, second) {
        Agreement::Same
    } else {
        Agreement::Different
    }
}

// Returns the same of what a signature has, if it has both.
fn agreement_if_both(xml: Result<Option<&[u8]>>, der: Result<Option<&[u8]>>) -> Option<Agreement>
    ensures { result ≡ defined.agreement_if_both (read_as slot_read xml.entry) (read_as slot_read der.entry) }
{
    match (xml, der) {
        (Ok(Some(xml)), Ok(Some(der))) => Some(agreement_of(xml, der)),
        _ => None,
    }
}

/// Returns whether the entitlements of a signature in XML and in DER say the same, if it has both.
pub fn agreement_in(signature: &CodeSignature<'_>) -> Option<Agreement>
    ensures { result ≡ defined.agreement_in (signature_view signature.now) }
{
    agreement_if_both(signature.entitlements(), signature.der_entitlements())
}

impl CodeSignature<'_> {
    /// Whether the entitlements in XML and in DER can be read and say the same. It is true too if there are not both. `agreement_in`
    /// says why they don't agree.
    pub fn entitlements_agree(&self) -> bool
        ensures { result ≡ defined.is_agreed (defined.agreement_in (signature_view self.now)) }
    {
        is_agreed(agreement_in(self))
    }
}

/// Whether they don't differ, and are compared if there are both.
pub fn is_agreed(agreement: Option<Agreement>) -> bool
    ensures { result ≡ defined.is_agreed agreement }
{
    match agreement {
        None | Some(Agreement::Same) => true,
        Some(_) => false,
    }
}
