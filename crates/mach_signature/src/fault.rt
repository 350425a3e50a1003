//! What differs from what was signed, and the text of each fault.

ghost use Rattle.std.specs.Prelude.{◌≡◌};
ghost use Rattle.mach_signature.specs.SignWords as defined;

use mach_base::{Error, describe};
use std::fmt;
use std::fmt::{Display, Formatter, Write};

/// A slot that is written as its name, or as its number if it has none.
#[derive(Clone, Copy, Debug, PartialEq)]
pub struct SlotName(pub u32);

impl Display for SlotName {
    ghost use Rattle.std.specs.Prelude.{Some};

    ghost output = { λ x. Some (defined.slot_words x.0) };

    fn fmt<W: Write>(&self, f: &mut Formatter<W>) -> fmt::Result {
        let slot = self.0;
        match slot {
            0 => f.write_str("code directory"),
            1 => f.write_str("info.plist"),
            2 => f.write_str("requirements"),
            3 => f.write_str("resources"),
            4 => f.write_str("application"),
            5 => f.write_str("entitlements"),
            6 => f.write_str("disk image"),
            7 => f.write_str("der entitlements"),
            8 => f.write_str("launch constraint self"),
            9 => f.write_str("launch constraint parent"),
            10 => f.write_str("launch constraint responsible"),
            11 => f.write_str("library constraint"),
            0x1000 => f.write_str("alternate 1"),
            0x1001 => f.write_str("alternate 2"),
            0x1002 => f.write_str("alternate 3"),
            0x1003 => f.write_str("alternate 4"),
            0x1004 => f.write_str("alternate 5"),
            0x10000 => f.write_str("cms"),
            0x10001 => f.write_str("identification"),
            0x10002 => f.write_str("ticket"),
            _ => write!(f, "slot 0x{slot:x}"),
        }
    }
}

/// A fault of the code that a directory covers.
#[derive(Clone, Copy, Debug, PartialEq)]
pub enum CodeFault {
    /// The pages are scattered, as the vector at this place says, and aren't judged.
    Scattered {
        /// The place of the vector.
        place: u32,
    },
    /// More bytes are covered than the image has.
    Limit {
        /// How many bytes are covered.
        limit: u64,
        /// How many bytes the image has.
        len: u64,
    },
    /// The number of code slots isn't the number of pages.
    Slots {
        /// The number of code slots.
        slots: u32,
        /// The number of pages.
        pages: u64,
    },
    /// A page isn't what was signed.
    Page {
        /// The number of the page.
        index: u32,
        /// Its first byte.
        start: u64,
        /// The place after its last byte.
        end: u64,
    },
}

impl Display for CodeFault {
    ghost use Rattle.std.specs.Prelude.{Some};

    ghost output = { λ x. Some (defined.code_fault_words x) };

    fn fmt<W: Write>(&self, f: &mut Formatter<W>) -> fmt::Result {
        match self {
            CodeFault::Scattered { place } => {
                write!(f, "scattered at {place}: pages are not looked at")
            }
            CodeFault::Limit { limit, len } => write!(f, "covers 0x{limit:x} of 0x{len:x} bytes"),
            CodeFault::Slots { slots, pages } => write!(f, "{slots} code slots for {pages} pages"),
            CodeFault::Page { index, start, end } => {
                write!(
                    f,
                    "page {index}: 0x{start:x}..0x{end:x} is not what was signed"
                )
            }
        }
    }
}

/// A fault of a special slot, or of a blob that no slot seals.
#[derive(Clone, Copy, Debug, PartialEq)]
pub enum SpecialFault {
    /// The slot isn't known.
    Unknown {
        /// The number of the slot.
        slot: u32,
    },
    /// Something is there, but the directory has no hash of it.
    Unsealed {
        /// The number of the slot.
        slot: u32,
    },
    /// What is there isn't what was signed.
    Changed {
        /// The number of the slot.
        slot: u32,
    },
    /// What was signed isn't there.
    Absent {
        /// The number of the slot.
        slot: u32,
    },
}

impl Display for SpecialFault {
    ghost use Rattle.std.specs.Prelude.{Some};

    ghost output = { λ x. Some (defined.special_fault_words x) };

    fn fmt<W: Write>(&self, f: &mut Formatter<W>) -> fmt::Result {
        match self {
            SpecialFault::Unknown { slot } => {
                let name = SlotName(*slot);
                write!(f, "{name}: not known")
            }
            SpecialFault::Unsealed { slot } => {
                let name = SlotName(*slot);
                write!(f, "{name}: not sealed")
            }
            SpecialFault::Changed { slot } => {
                let name = SlotName(*slot);
                write!(f, "{name}: not what was signed")
            }
            SpecialFault::Absent { slot } => {
                let name = SlotName(*slot);
                write!(f, "{name}: sealed, and absent")
            }
        }
    }
}

/// A fault of a code directory, or of what it covers.
#[derive(Debug, Drop)]
pub enum DirectoryFault {
    /// The identifier can't be read.
    Identifier(Error),
    /// The name of the team can't be read.
    Team(Error),
    /// Fewer bytes are covered than the image has before its signature.
    Short {
        /// How many bytes are covered.
        limit: u64,
        /// The place of the signature.
        dataoff: u32,
    },
    /// A fault of the code.
    Code(CodeFault),
    /// A fault of a special slot.
    Special(SpecialFault),
}

impl Display for DirectoryFault {
    ghost use Rattle.std.specs.Prelude.{Some};

    ghost output = { λ x. Some (defined.directory_fault_words x) };

    fn fmt<W: Write>(&self, f: &mut Formatter<W>) -> fmt::Result {
        match self {
            DirectoryFault::Identifier(e) => {
                let words = describe(e);
                write!(f, "identifier: {words}")
            }
            DirectoryFault::Team(e) => {
                let words = describe(e);
                write!(f, "team: {words}")
            }
            DirectoryFault::Short { limit, dataoff } => {
                write!(f, "covers 0x{limit:x}, and begins at 0x{dataoff:x}")
            }
            DirectoryFault::Code(fault) => write!(f, "{fault}"),
            DirectoryFault::Special(fault) => write!(f, "{fault}"),
        }
    }
}

/// A fault of a signature: something that isn't as it was signed.
#[derive(Debug, Drop)]
pub enum SignatureFault {
    /// A blob can't be read.
    Blob {
        /// The number of the blob.
        index: u32,
        /// Why it can't be read.
        error: Error,
    },
    /// The magic of a blob isn't one of its slot.
    Magic {
        /// The number of the blob.
        index: u32,
        /// Its slot.
        slot: u32,
        /// Its magic.
        magic: u32,
    },
    /// No code directory counts.
    Refused(Error),
    /// A fault of the first code directory, or of what it covers.
    First(DirectoryFault),
    /// A fault of the code directory of an alternate slot, or of what it covers.
    Alternate {
        /// The slot.
        slot: u32,
        /// The fault.
        fault: DirectoryFault,
    },
}

impl Display for SignatureFault {
    ghost use Rattle.std.specs.Prelude.{Some};

    ghost output = { λ x. Some (defined.signature_fault_words x) };

    fn fmt<W: Write>(&self, f: &mut Formatter<W>) -> fmt::Result {
        match self {
            SignatureFault::Blob { index, error } => {
                let words = describe(error);
                write!(f, "blob {index}: {words}")
            }
            SignatureFault::Magic { index, slot, magic } => {
                let name = SlotName(*slot);
                write!(f, "blob {index}: {name}: magic 0x{magic:x}")
            }
            SignatureFault::Refused(e) => {
                let words = describe(e);
                write!(f, "code directory: {words}")
            }
            SignatureFault::First(fault) => write!(f, "{fault}"),
            SignatureFault::Alternate { slot, fault } => {
                let name = SlotName(*slot);
                write!(f, "{name}: {fault}")
            }
        }
    }
}
