//! The parts of an image or of a fat file's table as JSON has them.

use crate::json::fault::{FaultObject, write_next};
use crate::layout_text::Counts;
use goblin_mach::describe;
use mach_audit::{ItemFault, PartReport, Parts, Records, SignaturePart, SignatureReport};
use mach_cli::Refusal;
use mach_layout::LayoutFault;
use mach_signature::SignatureFault;
use std::alloc::Allocator;
use std::io;
use std::io::Write;

/// What of a part isn't among its reported faults.
#[derive(Clone, Copy)]
pub struct Unreported {
    /// How many more faults there are.
    pub more: usize,
    /// How many more records are claimed, past the end of the bytes.
    pub past: usize,
    /// Whether the limit was reached.
    pub cut: bool,
}

impl Unreported {
    /// That there is nothing more.
    pub const NOTHING: Unreported = Unreported {
        more: 0,
        past: 0,
        cut: false,
    };
}

/// Writes a part with these faults, and what isn't among them.
pub fn write_part<F: FaultObject, O: Write>(
    name: &str,
    faults: &[F],
    unreported: Unreported,
    out: &mut O,
) -> io::Result<()> {
    write!(out, "{{\"faults\":[")?;
    write_faults(name, faults, out)?;
    write_end(name, faults.is_empty(), unreported, out)
}

// Writes the faults of the part with this name.
fn write_faults<F: FaultObject, O: Write>(part: &str, faults: &[F], out: &mut O) -> io::Result<()> {
    let mut is_first = true;
    'faults: for fault in faults {
        write_next(part, fault, is_first, out)?;
        is_first = false;
    }
    Ok(())
}

// Writes the members of a part after its faults, and the end of its object.
fn write_end<O: Write>(
    name: &str,
    is_empty: bool,
    unreported: Unreported,
    out: &mut O,
) -> io::Result<()> {
    let Unreported { more, past, cut } = unreported;
    let ok = is_empty & (past == 0) & !cut;
    write!(out, "],\"limit_met\":{cut},\"more\":{more},\"ok\":{ok}")?;
    write!(out, ",\"part\":\"{name}\",\"past_the_end\":{past}}}")
}

/// Writes a part whose faults are those of layout, the first ten of each rule.
pub fn write_layout<O: Write>(name: &str, faults: &[LayoutFault], out: &mut O) -> io::Result<()> {
    write!(out, "{{\"faults\":[")?;
    let reported = write_first(name, faults, out)?;
    let unreported = Unreported {
        more: faults.len().saturating_sub(reported),
        ..Unreported::NOTHING
    };
    write_end(name, reported == 0, unreported, out)
}

// Writes the first ten faults of each rule, and returns how many these are.
fn write_first<O: Write>(part: &str, faults: &[LayoutFault], out: &mut O) -> io::Result<usize> {
    let mut counts = Counts::new();
    let mut reported = 0usize;
    'faults: for fault in faults {
        if counts.is_reported(fault.rule) {
            write_next(part, fault, reported == 0, out)?;
            reported = reported.saturating_add(1);
        }
    }
    Ok(reported)
}

// Writes a part of an image, with the number of its records past the end of the bytes, after a comma.
fn write_list<A: Allocator, O: Write>(
    name: &str,
    part: &PartReport<A>,
    past: usize,
    out: &mut O,
) -> io::Result<()> {
    write!(out, ",")?;
    let reported = part.reported.as_slice();
    let unreported = Unreported {
        more: part.faults.saturating_sub(reported.len()),
        past,
        cut: part.cut,
    };
    write_part::<ItemFault, O>(name, reported, unreported, out)
}

// Writes a part of an image that consists of records, after a comma.
fn write_records<A: Allocator, O: Write>(
    name: &str,
    records: &Records<A>,
    out: &mut O,
) -> io::Result<()> {
    write_list(name, &records.in_bounds, records.past, out)
}

/// Writes all parts of an image but for how it opens, each after a comma; relocations that were not read and a missing signature
/// have no part.
pub fn write_parts<A: Allocator, O: Write>(parts: &Parts<A>, out: &mut O) -> io::Result<()> {
    write_records("sections", &parts.sections, out)?;
    write_relocations(&parts.relocations, out)?;
    write_records("symbols", &parts.symbols, out)?;
    write_list("exports", &parts.exports, 0, out)?;
    write_list("imports", &parts.imports, 0, out)?;
    write_list("fixups", &parts.fixups, 0, out)?;
    write_list("bindings", &parts.bindings, 0, out)?;
    write_signature(&parts.signature, out)?;
    write!(out, ",")?;
    write_layout("layout", parts.layout.as_slice(), out)
}

// Writes the part of the relocations after a comma, if they were read.
fn write_relocations<A: Allocator, O: Write>(
    relocations: &Option<Records<A>>,
    out: &mut O,
) -> io::Result<()> {
    match relocations {
        Some(records) => write_records("relocations", records, out),
        None => Ok(()),
    }
}

// Writes the part of the signature after a comma, if there is one.
fn write_signature<A: Allocator, O: Write>(
    signature: &SignatureReport<A>,
    out: &mut O,
) -> io::Result<()> {
    match signature {
        SignatureReport::Unsigned => Ok(()),
        SignatureReport::Unreadable(error) => {
            write!(out, ",")?;
            let refusal = Refusal::Fault(describe(error));
            write_part("signature", &[refusal], Unreported::NOTHING, out)
        }
        SignatureReport::Signed(part) => write_signed(part, out),
    }
}

// Writes the part of a signature that can be read, after a comma.
fn write_signed<A: Allocator, O: Write>(part: &SignaturePart<A>, out: &mut O) -> io::Result<()> {
    write!(out, ",")?;
    let reported = part.reported.as_slice();
    let unreported = Unreported {
        more: part.faults.saturating_sub(reported.len()),
        ..Unreported::NOTHING
    };
    write_part::<SignatureFault, O>("signature", reported, unreported, out)
}
