//! Whether the entitlements of a signature let debuggers attach.

ghost use Rattle.std.specs.Prelude.{◌≡◌, ◌&&◌, Ok, false};
ghost use Rattle.std.specs.Str.{bytes_eq};
ghost use Rattle.mach_base.specs.Answer.{Reads};
ghost use Rattle.mach_base.specs.Fault.{fault_of, malformed};
ghost use Rattle.mach_signature.specs.DirectoryViews.{slot_read};
ghost use Rattle.mach_signature.specs.Debuggers as defined;
ghost use Rattle.mach_signature.specs.EntitlementAgreement.{entitled_in};
ghost use Rattle.mach_signature.specs.EntitlementReads.{entries_at};
ghost use Rattle.mach_signature.specs.EntitlementSpans.{SpanView, spelled_text};
ghost use Rattle.mach_signature.specs.EntitlementValues.{Entitled, has_true_under};
ghost use Rattle.mach_signature.specs.EntitlementViews.{seen_span, seen_value};
ghost use Rattle.mach_signature.specs.EntitlementXml.{most_steps};
ghost use Rattle.mach_signature.specs.SignViews.{signature_view};
ghost use Rattle.mach_signature.specs.declared.entitlements.parts.Group.TheVariants.{Dictionary};
ghost use Rattle.mach_signature.specs.declared.entitlements.parts.Notation.TheVariants.{Xml};

use crate::entitlements::agreement::readable_values;
use crate::entitlements::compare::after_entry;
use crate::entitlements::front::front_at;
use crate::entitlements::parts::{Entry, Front, Group, Notation, Plain, Span, Value};
use crate::entitlements::spelling::same_text;
use crate::entitlements::xml::MOST_STEPS;
use crate::signature::CodeSignature;
use mach_base::{Error, Result};

// Whether a value is the boolean true.
fn is_true(value: Value<'_>) -> bool
    ensures { result ≡ defined.is_true_here (seen_value value.entry) }
{
    match value {
        Value::Plain(Plain::Boolean(is_so)) => is_so,
        _ => false,
    }
}

// Whether the value of an entry is the boolean true, under a key.
fn is_true_under(entry: Entry<'_>, key: Span<'_>) -> bool
    ensures { result ≡ (defined.is_true_here (seen_value entry.entry.value)
        && bytes_eq (spelled_text (seen_span entry.entry.key)) (spelled_text (seen_span key.entry))) }
{
    is_true(entry.value) && same_text(entry.key, key)
}

// Whether a dictionary that can be read has the boolean true under a key.
fn has_true(steps: usize, key: Span<'_>, values: Span<'_>) -> bool
    ensures { (x : Entitled × SpanView) → entries_at steps Dictionary (seen_span values.entry) ≡ Ok x
        → result ≡ has_true_under (spelled_text (seen_span key.entry)) x.0 }
{
    let Some(less) = steps.checked_sub(1) else {
        return false;
    };
    let Ok(front) = front_at(Group::Dictionary, values) else {
        return false;
    };
    match front {
        Front::End(_) => false,
        Front::Entry(entry) => {
            if is_true_under(entry, key) {
                return true;
            }
            has_true(less, key, after_entry(less, entry))
        }
    }
}

// Whether a dictionary that can be read has it under a word.
fn has_true_word(word: &str, values: Span<'_>) -> bool
    ensures { (x : Entitled × SpanView) → entries_at most_steps Dictionary (seen_span values.entry) ≡ Ok x → result ≡ has_true_under word.now x.0 }
{
    let key = Span {
        notation: Notation::Der,
        bytes: word.as_bytes(),
    };
    has_true(MOST_STEPS, key, values)
}

// Returns the error of entitlements that can't be read.
fn refused(notation: Notation) -> Error
    ensures { fault_of result ≡ malformed }
{
    match notation {
        Notation::Xml => Error::Malformed("the entitlements in XML can't be read"),
        Notation::Der => Error::Malformed("the entitlements in DER can't be read"),
    }
}

// Whether the key of iOS or that of macOS is true in entitlements.
fn lets_debuggers(notation: Notation, bytes: &[u8]) -> Result<bool>
    ensures { Reads (λ it. it) result (defined.lets_debuggers_if_read (entitled_in notation bytes.now)) }
{
    let Some(values) = readable_values(notation, bytes) else {
        return Err(refused(notation));
    };
    let on_ios = has_true_word("get-task-allow", values);
    let on_mac = has_true_word("com.apple.security.get-task-allow", values);
    Ok(on_ios || on_mac)
}

// Whether the entitlements in XML let debuggers attach, if there are any.
fn xml_allows(xml: Option<&[u8]>) -> Result<bool>
    ensures { Reads (λ it. it) result (defined.lets_debuggers_or (Ok false) Xml (slot_read xml.entry)) }
{
    match xml {
        Some(bytes @ [_, ..]) => lets_debuggers(Notation::Xml, bytes),
        _ => Ok(false),
    }
}

/// Returns whether the entitlements of a signature let debuggers attach: those in DER if it has some, and else those in XML. It is
/// an error if they can't be read.
pub fn allows_debuggers(signature: &CodeSignature<'_>) -> Result<bool>
    ensures { Reads (λ it. it) result (defined.allows_debuggers (signature_view signature.now)) }
{
    match signature.der_entitlements()? {
        Some(bytes @ [_, ..]) => lets_debuggers(Notation::Der, bytes),
        _ => xml_allows(signature.entitlements()?),
    }
}
