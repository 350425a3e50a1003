//! A fault of layout in words.

ghost use Rattle.std.specs.Prelude.{◌≡◌, Some};
ghost use Rattle.mach_layout.specs.Texts as defined;

use crate::fault::{LayoutFault, Owner, Part};
use std::fmt;
use std::fmt::{Display, Formatter, Write};

// Whether a part is one of several, which have numbers.
fn has_number(part: Part) -> bool
    ensures { result ≡ defined.has_number part }
{
    matches!(
        part,
        Part::Section | Part::Relocations | Part::Slice | Part::Imports | Part::SymbolRanges
    )
}

impl Display for Owner {
    ghost output = { λ owner. Some (defined.owner_text owner) };

    /// Formats its part, its number if it has one, and the place of its command.
    fn fmt<W: Write>(&self, f: &mut Formatter<W>) -> fmt::Result {
        let Owner {
            part,
            command,
            index,
        } = *self;
        if index > 0 || has_number(part) {
            write!(f, "{part} {index} at 0x{command:x}")
        } else {
            write!(f, "{part} at 0x{command:x}")
        }
    }
}

/// The evidence for a fault, in words: its two numbers, and the other owner, if there is one.
#[derive(Clone, Copy)]
pub struct Evidence(pub LayoutFault);

impl Display for Evidence {
    ghost output = { λ evidence. Some (defined.evidence_text evidence.0) };

    fn fmt<W: Write>(&self, f: &mut Formatter<W>) -> fmt::Result {
        let LayoutFault {
            other,
            found,
            limit,
            ..
        } = self.0;
        match other {
            Some(other) => write!(f, "0x{found:x} against 0x{limit:x} of {other}"),
            None => write!(f, "0x{found:x} against 0x{limit:x}"),
        }
    }
}

impl Display for LayoutFault {
    ghost output = { λ fault. Some (defined.fault_text fault) };

    /// Formats its rule, its owner, and the evidence.
    fn fmt<W: Write>(&self, f: &mut Formatter<W>) -> fmt::Result {
        let rule = self.rule;
        let owner = self.owner;
        let evidence = Evidence(*self);
        write!(f, "{rule}: {owner}: {evidence}")
    }
}
