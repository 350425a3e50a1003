//! Faults as JSON has them: objects of four strings. Their texts are made of fixed words and numbers, and need no escapes.

ghost use Rattle.std.specs.Prelude.{Some};
ghost use Rattle.machaudit.specs.JsonFaults as defined;

use crate::signature_text::message_of;
use goblin_mach::describe;
use mach_audit::ItemFault;
use mach_cli::{Refusal, comma_before};
use mach_layout::{Evidence, LayoutFault};
use mach_signature::{SignatureFault, SlotName};
use std::fmt::{Display, Formatter};
use std::io::Write;
use std::{fmt, io};

/// A fault as JSON has it.
pub trait FaultObject {
    /// Writes a fault of the part with this name.
    fn write_object<O: Write>(&self, part: &str, out: &mut O) -> io::Result<()>;
}

impl FaultObject for Refusal<'_> {
    // Writes why a part can't be read at all.
    fn write_object<O: Write>(&self, part: &str, out: &mut O) -> io::Result<()> {
        write!(
            out,
            "{{\"kind\":\"unreadable\",\"owner\":\"{part}\",\"place\":\"\",\"words\":\"{self}\"}}"
        )
    }
}

/// That a fat file has no entry.
#[derive(Clone, Copy)]
pub struct NoImage;

impl FaultObject for NoImage {
    fn write_object<O: Write>(&self, part: &str, out: &mut O) -> io::Result<()> {
        write!(
            out,
            "{{\"kind\":\"empty\",\"owner\":\"{part}\",\"place\":\"\",\"words\":\"no image\"}}"
        )
    }
}

impl FaultObject for ItemFault {
    fn write_object<O: Write>(&self, part: &str, out: &mut O) -> io::Result<()> {
        let place = self.place;
        let words = describe(&self.error);
        write!(
            out,
            "{{\"kind\":\"unreadable\",\"owner\":\"{part}\",\"place\":\"{place}\",\"words\":\"{words}\"}}"
        )
    }
}

impl FaultObject for LayoutFault {
    fn write_object<O: Write>(&self, _part: &str, out: &mut O) -> io::Result<()> {
        let (kind, owner) = (self.rule, self.owner);
        let place = owner.command;
        let words = Evidence(*self);
        write!(
            out,
            "{{\"kind\":\"{kind}\",\"owner\":\"{owner}\",\"place\":\"0x{place:x}\",\"words\":\"{words}\"}}"
        )
    }
}

impl FaultObject for SignatureFault {
    fn write_object<O: Write>(&self, _part: &str, out: &mut O) -> io::Result<()> {
        let message = message_of(self);
        let (kind, place) = (message.kind, message.place);
        let owner = SignatureOwner(message.slot);
        write!(
            out,
            "{{\"kind\":\"{kind}\",\"owner\":\"{owner}\",\"place\":\"{place}\",\"words\":\"{self}\"}}"
        )
    }
}

// The owner of a signature's fault: the directory of a slot, or the signature itself.
#[derive(Clone, Copy)]
struct SignatureOwner(Option<u32>);

impl Display for SignatureOwner {
    ghost output = { λ owner. Some (defined.owner_words owner.0) };

    fn fmt<W: fmt::Write>(&self, f: &mut Formatter<W>) -> fmt::Result {
        match self.0 {
            Some(slot) => {
                let name = SlotName(slot);
                write!(f, "{name}")
            }
            None => f.write_str("signature"),
        }
    }
}

/// Writes a fault of the part with this name, after a comma unless it is the first.
pub fn write_next<F: FaultObject, O: Write>(
    part: &str,
    fault: &F,
    is_first: bool,
    out: &mut O,
) -> io::Result<()> {
    let comma = comma_before(is_first);
    write!(out, "{comma}")?;
    fault.write_object(part, out)
}
