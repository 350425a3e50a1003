//! The lines of an audit.

ghost use Rattle.std.specs.Prelude.{◌≡◌};

use crate::layout_text::print_layout;
use crate::signature_text::print_signature;
use crate::source::{Source, refusal_of_image};
use goblin_mach::describe;
use goblin_mach::fat::FatArch;
use mach_archive::Member;
use mach_audit::{
    ArchiveReport, EntryReport, FatReport, ImageReport, ItemFault, MemberReport, PartReport, Parts,
    Records, Report,
};
use mach_cli::entries::{OutOfFile, outside_at};
use mach_cli::{Escaped, Refusal};
use std::alloc::Allocator;
use std::io;
use std::io::Write;

// Prints the reported faults of a part.
fn print_findings<O: Write>(name: &str, reported: &[ItemFault], out: &mut O) -> io::Result<()> {
    'reported: for finding in reported {
        let place = finding.place;
        writeln!(out, "  {name}: {place}: {}", describe(&finding.error))?;
    }
    Ok(())
}

// Prints the report of a part.
fn print_part<A: Allocator, O: Write>(
    name: &str,
    part: &PartReport<A>,
    out: &mut O,
) -> io::Result<()> {
    if part.is_clean() {
        return writeln!(out, "  {name}: ok");
    }
    print_findings(name, part.reported.as_slice(), out)?;
    let more = part.faults.saturating_sub(part.reported.len());
    if more > 0 {
        writeln!(out, "  {name}: and {more} more")?;
    }
    if part.cut {
        writeln!(out, "  {name}: limit met")?;
    }
    Ok(())
}

// Prints the report of records, and how many more are claimed.
fn print_records<A: Allocator, O: Write>(
    name: &str,
    records: &Records<A>,
    out: &mut O,
) -> io::Result<()> {
    let past = records.past;
    if past == 0 || !records.in_bounds.is_clean() {
        print_part(name, &records.in_bounds, out)?;
    }
    if past > 0 {
        writeln!(out, "  {name}: {past} more {name} past the end")?;
    }
    Ok(())
}

// Prints the report of all parts.
fn print_parts<A: Allocator, O: Write>(parts: &Parts<A>, out: &mut O) -> io::Result<()> {
    print_records("sections", &parts.sections, out)?;
    match &parts.relocations {
        Some(part) => print_records("relocations", part, out)?,
        None => writeln!(out, "  relocations: not read, since a section can't be")?,
    }
    print_records("symbols", &parts.symbols, out)?;
    print_part("exports", &parts.exports, out)?;
    print_part("imports", &parts.imports, out)?;
    print_part("fixups", &parts.fixups, out)?;
    print_part("bindings", &parts.bindings, out)?;
    print_signature(&parts.signature, out)?;
    print_layout("layout", parts.layout.as_slice(), out)
}

// Prints why something doesn't open.
fn print_refusal<O: Write>(part: &str, refusal: Refusal<'_>, out: &mut O) -> io::Result<()> {
    writeln!(out, "  {part}: {refusal}")
}

// Prints the report of an image; of an entry that is out of the file, where both end.
fn print_image<A: Allocator, O: Write>(
    outside: Option<OutOfFile>,
    image: &ImageReport<A>,
    out: &mut O,
) -> io::Result<()> {
    match image {
        ImageReport::Opens(parts) => {
            writeln!(out, "  opens: ok")?;
            print_parts(parts, out)
        }
        ImageReport::OpensLossily(error, parts) => {
            print_refusal("opens", Refusal::Fault(describe(error)), out)?;
            writeln!(out, "  opens lossily: ok")?;
            print_parts(parts, out)
        }
        ImageReport::Refused(error) => {
            print_refusal("opens", refusal_of_image(outside, error), out)
        }
    }
}

// Prints the report of a member of the archive that is the entry with this number.
fn print_member<A: Allocator, O: Write>(
    index: usize,
    member: Member<'_>,
    image: &ImageReport<A>,
    out: &mut O,
) -> io::Result<()> {
    match member.name() {
        Ok(name) => {
            let name = Escaped(name);
            writeln!(out, "arch {index}({name})")?;
        }
        Err(_) => writeln!(out, "arch {index}(at {})", member.offset)?,
    }
    print_image(None, image, out)
}

// Prints the report of an archive that is the entry with this number, and those of its members.
fn print_archive<A: Allocator, O: Write>(
    index: usize,
    archive: &ArchiveReport<'_, A>,
    out: &mut O,
) -> io::Result<()> {
    match archive.error() {
        Some(error) => print_refusal("archive", Refusal::Fault(describe(error)), out)?,
        None if archive.cut => writeln!(out, "  archive: limit met")?,
        None => writeln!(out, "  archive: ok")?,
    }
    'members: for report in archive.members.as_slice() {
        if let MemberReport::Image(member, image) = report {
            print_member(index, *member, image, out)?;
        }
    }
    Ok(())
}

// Prints the report of the entry with this number of a fat file, which has these bytes.
fn print_entry<A: Allocator, O: Write>(
    bytes: &[u8],
    index: usize,
    entry: &EntryReport<'_, A>,
    out: &mut O,
) -> io::Result<()> {
    writeln!(out, "arch {index}")?;
    match entry {
        EntryReport::Archive(archive) => print_archive(index, archive, out),
        EntryReport::Image(image) => {
            print_image(outside_at::<FatArch>(bytes, Some(index)), image, out)
        }
    }
}

// Prints the report of a fat file, which has these bytes.
fn print_fat<A: Allocator, O: Write>(
    bytes: &[u8],
    fat: &FatReport<'_, A>,
    out: &mut O,
) -> io::Result<()> {
    writeln!(out, "fat file of {}", fat.count)?;
    match &fat.table {
        Some(error) => print_refusal("table", Refusal::Fault(describe(error)), out)?,
        None => print_layout("table", fat.container.as_slice(), out)?,
    }
    if fat.count == 0 {
        writeln!(out, "  entries: no image")?;
    }
    'entries: for (index, entry) in fat.entries.as_slice().iter().enumerate() {
        print_entry(bytes, index, entry, out)?;
    }
    if fat.cut {
        writeln!(out, "  entries: limit met")?;
    }
    Ok(())
}

/// Prints the report of a file, and whether it is sound.
pub fn print_report<A: Allocator, O: Write>(
    source: Source<'_>,
    report: &Report<'_, A>,
    out: &mut O,
) -> io::Result<()> {
    match report {
        Report::Image(image) => {
            writeln!(out, "image")?;
            print_image(source.outside, image, out)?;
        }
        Report::Fat(fat) => print_fat(source.bytes, fat, out)?,
    }
    let verdict = report.verdict();
    writeln!(out, "{verdict}")
}
