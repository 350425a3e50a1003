//! The words of the kind of a signature, and of its CMS message.

ghost use Rattle.std.specs.Prelude.{◌≡◌, Some};
ghost use Rattle.machsign.specs.Kinds as defined;

use mach_cli::word_if;
use mach_signature::{Cms, Kind};
use std::fmt;
use std::fmt::{Display, Formatter, Write};

/// Returns why it isn't known who signed.
pub fn why_unknown(cms: Cms) -> &'static str
    ensures { result.now ≡ defined.why_unknown cms }
{
    match cms {
        Cms::Lacking => "no CMS",
        Cms::Long(_) => "the CMS signature isn't verified",
        Cms::Unreadable => "the CMS can't be read",
    }
}

// The words of a CMS message.
#[derive(Clone, Copy)]
struct CmsText(Cms);

impl Display for CmsText {
    ghost output = { λ t. Some (defined.cms_words t.0) };

    fn fmt<W: Write>(&self, f: &mut Formatter<W>) -> fmt::Result {
        match self.0 {
            Cms::Lacking => f.write_str("no CMS"),
            Cms::Long(len) => write!(f, "CMS of {len} bytes"),
            Cms::Unreadable => f.write_str("CMS unreadable"),
        }
    }
}

/// The words of the kind of a signature.
#[derive(Clone, Copy)]
pub struct KindText(pub Kind);

impl Display for KindText {
    ghost output = { λ t. Some (defined.signature_words t.0) };

    fn fmt<W: Write>(&self, f: &mut Formatter<W>) -> fmt::Result {
        let kind = self.0;
        let cms = CmsText(kind.cms);
        let ad_hoc = word_if(kind.is_ad_hoc(), "ad hoc, ", "");
        let linker = word_if(kind.is_linker_signed(), "linker-signed, ", "");
        let runtime = word_if(kind.has_hardened_runtime(), "yes", "no");
        let validation = word_if(kind.has_library_validation(), "yes", "no");
        write!(
            f,
            "{ad_hoc}{linker}{cms}, hardened runtime {runtime}, library validation {validation}"
        )
    }
}
