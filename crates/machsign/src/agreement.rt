//! What is shown of the entitlements of a signature in XML and in DER.

ghost use Rattle.std.specs.Prelude.{◌≡◌, Some, OnOk};
ghost use Rattle.std.specs.Io.KnownBytes.{Appends};
ghost use Rattle.machsign.specs.AgreementTexts.{agreement_line, agreement_object, agreement_words};

use mach_signature::entitlements::Agreement;
use std::fmt::{Display, Formatter};
use std::io::Write;
use std::{fmt, io};

// Returns the words of a line.
fn agreement_words(agreement: Agreement) -> &'static str
    ensures { result.now ≡ agreement_words agreement }
{
    match agreement {
        Agreement::Same => "entitlements: XML and DER say the same",
        Agreement::Different =>
            "fault: the entitlements in XML and those in DER don't say the same",
        Agreement::UnreadableXml => {
            "fault: the entitlements in XML can't be read, and aren't compared with those in DER"
        }
        Agreement::UnreadableDer => {
            "fault: the entitlements in DER can't be read, and aren't compared with those in XML"
        }
    }
}

/// Prints whether the entitlements of a signature say the same, if it has them in XML and in DER.
pub fn print_agreement<O: Write>(agreement: Option<Agreement>, out: &mut O) -> io::Result<()>
    ensures { OnOk result (Appends (O.contents out.old) (O.contents out.new) (agreement_line agreement)) }
{
    match agreement {
        Some(agreement) => {
            let words = agreement_words(agreement);
            writeln!(out, "{words}")
        }
        None => Ok(()),
    }
}

/// Whether the entitlements say the same, as a value of JSON; null if a signature doesn't have both.
#[derive(Clone, Copy)]
pub struct AgreementObject(pub Option<Agreement>);

impl Display for AgreementObject {
    ghost output = { λ t. Some (agreement_object t.0) };

    fn fmt<W: fmt::Write>(&self, f: &mut Formatter<W>) -> fmt::Result {
        f.write_str(match self.0 {
            None => "null",
            Some(Agreement::Same) => "\"same\"",
            Some(Agreement::Different) => "\"different\"",
            Some(Agreement::UnreadableXml) => "\"unreadable XML\"",
            Some(Agreement::UnreadableDer) => "\"unreadable DER\"",
        })
    }
}
