//! The text of an image's signature.

ghost use Rattle.std.specs.Prelude.{◌≡◌, Some};
ghost use Rattle.machaudit.specs.JsonFaults.{code_kind, code_place, directory_kind, directory_place, special_kind, special_place};
ghost use Rattle.machaudit.specs.JsonFaults.{signature_kind, signature_place, signature_slot};

use goblin_mach::describe;
use mach_audit::{SignaturePart, SignatureReport};
use mach_signature::{CodeFault, DirectoryFault, SignatureFault, SlotName, SpecialFault};
use std::alloc::Allocator;
use std::io::Write;
use std::{fmt, io};

/// The place of a fault in a signature.
#[derive(Clone, Copy)]
pub enum SignaturePlace {
    /// All of it.
    Whole,
    /// The blob of this number.
    Blob(u32),
    /// The page of this number.
    Page(u32),
    /// What this special slot covers.
    Special(u32),
}

impl fmt::Display for SignaturePlace {
    ghost use Rattle.std.specs.Prelude.{Some};
    ghost use Rattle.machaudit.specs.JsonFaults.{signature_place_words};

    ghost output = { λ place. Some (signature_place_words place) };

    fn fmt<W: fmt::Write>(&self, f: &mut fmt::Formatter<W>) -> fmt::Result {
        match self {
            SignaturePlace::Whole => Ok(()),
            SignaturePlace::Blob(index) => write!(f, "blob {index}"),
            SignaturePlace::Page(index) => write!(f, "page {index}"),
            SignaturePlace::Special(slot) => {
                let name = SlotName(*slot);
                write!(f, "{name}")
            }
        }
    }
}

/// A fault of a signature as JSON has it: its kind, its owner, and its place.
#[derive(Clone, Copy)]
pub struct SignatureMessage {
    pub kind: &'static str,
    /// The slot of the directory that has the fault, if a directory has it.
    pub slot: Option<u32>,
    pub place: SignaturePlace,
}

/// Returns a fault as JSON has it.
pub fn message_of(fault: &SignatureFault) -> SignatureMessage
    ensures kind { result.kind.now ≡ signature_kind fault.now }
    ensures slot { result.slot ≡ signature_slot fault.now }
    ensures place { result.place ≡ signature_place fault.now }
{
    match fault {
        SignatureFault::Blob { index, error: _ } => SignatureMessage {
            kind: "unreadable",
            slot: None,
            place: SignaturePlace::Blob(*index),
        },
        SignatureFault::Magic {
            index,
            slot: _,
            magic: _,
        } => SignatureMessage {
            kind: "magic",
            slot: None,
            place: SignaturePlace::Blob(*index),
        },
        SignatureFault::Refused(_) => SignatureMessage {
            kind: "unreadable",
            slot: Some(0),
            place: SignaturePlace::Whole,
        },
        SignatureFault::First(fault) => message_of_directory(0, fault),
        SignatureFault::Alternate { slot, fault } => message_of_directory(*slot, fault),
    }
}

// Returns a fault of the directory of a slot as JSON has it.
fn message_of_directory(slot: u32, fault: &DirectoryFault) -> SignatureMessage
    ensures kind { result.kind.now ≡ directory_kind fault.now }
    ensures slot { result.slot ≡ Some slot }
    ensures place { result.place ≡ directory_place fault.now }
{
    let (kind, place) = match fault {
        DirectoryFault::Identifier(_) | DirectoryFault::Team(_) => {
            ("unreadable", SignaturePlace::Whole)
        }
        DirectoryFault::Short {
            limit: _,
            dataoff: _,
        } => ("short", SignaturePlace::Whole),
        DirectoryFault::Code(fault) => code_said(*fault),
        DirectoryFault::Special(fault) => special_said(*fault),
    };
    SignatureMessage {
        kind,
        slot: Some(slot),
        place,
    }
}

// Returns the kind and the place of a fault of the code.
fn code_said(fault: CodeFault) -> (&'static str, SignaturePlace)
    ensures kind { result.0.now ≡ code_kind fault }
    ensures place { result.1 ≡ code_place fault }
{
    match fault {
        CodeFault::Scattered { place: _ } => ("scattered", SignaturePlace::Whole),
        CodeFault::Limit { limit: _, len: _ } => ("limit", SignaturePlace::Whole),
        CodeFault::Slots { slots: _, pages: _ } => ("slots", SignaturePlace::Whole),
        CodeFault::Page {
            index,
            start: _,
            end: _,
        } => ("page", SignaturePlace::Page(index)),
    }
}

// Returns the kind and the place of a fault of a special slot.
fn special_said(fault: SpecialFault) -> (&'static str, SignaturePlace)
    ensures kind { result.0.now ≡ special_kind fault }
    ensures place { result.1 ≡ special_place fault }
{
    match fault {
        SpecialFault::Unknown { slot } => ("unknown", SignaturePlace::Special(slot)),
        SpecialFault::Unsealed { slot } => ("unsealed", SignaturePlace::Special(slot)),
        SpecialFault::Changed { slot } => ("special", SignaturePlace::Special(slot)),
        SpecialFault::Absent { slot } => ("absent", SignaturePlace::Special(slot)),
    }
}

/// Prints the report of an image's signature.
pub fn print_signature<A: Allocator, O: Write>(
    signature: &SignatureReport<A>,
    out: &mut O,
) -> io::Result<()> {
    match signature {
        SignatureReport::Unsigned => writeln!(out, "  signature: none"),
        SignatureReport::Unreadable(error) => {
            let words = describe(error);
            writeln!(out, "  signature: {words}")
        }
        SignatureReport::Signed(part) => print_signed(part, out),
    }
}

// Prints the faults of a signature.
fn print_signed<A: Allocator, O: Write>(part: &SignaturePart<A>, out: &mut O) -> io::Result<()> {
    'reported: for fault in part.reported.as_slice() {
        writeln!(out, "  signature: {fault}")?;
    }
    let more = part.faults.saturating_sub(part.reported.len());
    if more > 0 {
        writeln!(out, "  signature: and {more} more")?;
    }
    if part.faults == 0 {
        writeln!(out, "  signature: ok")?;
    }
    Ok(())
}
