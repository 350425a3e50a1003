//! An audit as JSON: one object for each file. docs/PROGRAMS.md describes its form.

ghost use Rattle.std.specs.Prelude.{◌≡◌};
ghost use Rattle.machaudit.specs.Json as defined;

pub mod fault;
pub mod part;

use crate::json::fault::NoImage;
use crate::json::part::{Unreported, write_layout, write_part, write_parts};
use crate::source::{Source, refusal_of_image};
use goblin_mach::describe;
use goblin_mach::fat::FatArch;
use mach_archive::Member;
use mach_audit::{
    ArchiveReport, EntryReport, FatReport, ImageReport, MemberReport, Report, Soundness,
};
use mach_cli::entries::{OutOfFile, outside_at};
use mach_cli::{JsonString, Refusal, comma_before};
use std::alloc::Allocator;
use std::io;
use std::io::Write;

/// Writes the object of a file on a line: its name, whether it is sound, what it is, and its images.
pub fn print_object<A: Allocator, O: Write>(
    name: &str,
    source: Source<'_>,
    report: &Report<'_, A>,
    out: &mut O,
) -> io::Result<()> {
    write!(out, "{{\"container\":[")?;
    write_container(report, out)?;
    write!(out, "],\"images\":[")?;
    write_images(source, report, out)?;
    write_end(name, report, out)
}

// Writes the parts of a fat file's table; nothing for an image.
fn write_container<A: Allocator, O: Write>(report: &Report<'_, A>, out: &mut O) -> io::Result<()> {
    match report {
        Report::Image(_) => Ok(()),
        Report::Fat(fat) => write_fat(fat, out),
    }
}

// Writes the parts of a fat file's table.
fn write_fat<A: Allocator, O: Write>(fat: &FatReport<'_, A>, out: &mut O) -> io::Result<()> {
    write_table(fat, out)?;
    write!(out, ",")?;
    write_entries(fat, out)
}

// Writes the part of the table itself: why it can't be read, or its faults.
fn write_table<A: Allocator, O: Write>(fat: &FatReport<'_, A>, out: &mut O) -> io::Result<()> {
    match &fat.table {
        Some(error) => {
            let refusal = Refusal::Fault(describe(error));
            write_part("table", &[refusal], Unreported::NOTHING, out)
        }
        None => write_layout("table", fat.container.as_slice(), out),
    }
}

// Writes the part of the entries: whether there is none, and whether there are more than were audited.
fn write_entries<A: Allocator, O: Write>(fat: &FatReport<'_, A>, out: &mut O) -> io::Result<()> {
    let unreported = Unreported {
        more: 0,
        past: 0,
        cut: fat.cut,
    };
    if fat.count == 0 {
        write_part("entries", &[NoImage], unreported, out)
    } else {
        write_part::<NoImage, O>("entries", &[], unreported, out)
    }
}

// Writes the images of a file: its entries, or itself.
fn write_images<A: Allocator, O: Write>(
    source: Source<'_>,
    report: &Report<'_, A>,
    out: &mut O,
) -> io::Result<()> {
    match report {
        Report::Image(image) => write_image(source.outside, image, out),
        Report::Fat(fat) => write_each(source.bytes, fat.entries.as_slice(), out),
    }
}

// Writes the entries of a fat file, which has these bytes.
fn write_each<A: Allocator, O: Write>(
    bytes: &[u8],
    entries: &[EntryReport<'_, A>],
    out: &mut O,
) -> io::Result<()> {
    'entries: for (index, entry) in entries.iter().enumerate() {
        write_entry(bytes, index, entry, out)?;
    }
    Ok(())
}

// Writes the entry with this number of a fat file, after a comma unless it is the first.
fn write_entry<A: Allocator, O: Write>(
    bytes: &[u8],
    index: usize,
    entry: &EntryReport<'_, A>,
    out: &mut O,
) -> io::Result<()> {
    let comma = comma_before(index == 0);
    write!(out, "{comma}")?;
    match entry {
        EntryReport::Archive(archive) => write_archive(archive, out),
        EntryReport::Image(image) => {
            write_image(outside_at::<FatArch>(bytes, Some(index)), image, out)
        }
    }
}

// Writes an archive: its members, and the part that says whether they can be read to their end.
fn write_archive<A: Allocator, O: Write>(
    archive: &ArchiveReport<'_, A>,
    out: &mut O,
) -> io::Result<()> {
    write!(out, "{{\"kind\":\"archive\",\"members\":[")?;
    write_members(archive.members.as_slice(), out)?;
    write!(out, "],\"parts\":[")?;
    write_archive_part(archive, out)?;
    write!(out, "]}}")
}

// Writes the part of an archive: the error at which its members end, and whether there are more than were audited.
fn write_archive_part<A: Allocator, O: Write>(
    archive: &ArchiveReport<'_, A>,
    out: &mut O,
) -> io::Result<()> {
    let unreported = Unreported {
        cut: archive.cut,
        ..Unreported::NOTHING
    };
    match archive.error() {
        Some(error) => {
            let refusal = Refusal::Fault(describe(error));
            write_part("archive", &[refusal], unreported, out)
        }
        None => write_part::<Refusal<'_>, O>("archive", &[], unreported, out),
    }
}

// Writes the members of an archive.
fn write_members<A: Allocator, O: Write>(
    members: &[MemberReport<'_, A>],
    out: &mut O,
) -> io::Result<()> {
    let mut is_first = true;
    'members: for report in members {
        if let MemberReport::Image(member, image) = report {
            let comma = comma_before(is_first);
            write!(out, "{comma}{{\"kind\":\"image\",\"member\":")?;
            write_name(*member, out)?;
            write!(out, ",")?;
            write_opened(None, image, out)?;
            is_first = false;
        }
    }
    Ok(())
}

// Writes the name of a member, or the offset of its header.
fn write_name<O: Write>(member: Member<'_>, out: &mut O) -> io::Result<()> {
    match member.name() {
        Ok(name) => {
            let name = JsonString(name);
            write!(out, "{name}")
        }
        Err(_) => write!(out, "\"at {}\"", member.offset),
    }
}

// Writes an image: how it opens, and its parts; of an entry that is out of the file, where both end.
fn write_image<A: Allocator, O: Write>(
    outside: Option<OutOfFile>,
    image: &ImageReport<A>,
    out: &mut O,
) -> io::Result<()> {
    write!(out, "{{\"kind\":\"image\",")?;
    write_opened(outside, image, out)
}

// Writes how an image opens, and its parts, and the end of its object.
fn write_opened<A: Allocator, O: Write>(
    outside: Option<OutOfFile>,
    image: &ImageReport<A>,
    out: &mut O,
) -> io::Result<()> {
    let opens = words_of_opening(image);
    write!(out, "\"opens\":\"{opens}\",\"parts\":[")?;
    match image {
        ImageReport::Opens(parts) => {
            write_part::<Refusal<'_>, O>("opens", &[], Unreported::NOTHING, out)?;
            write_parts(parts, out)?;
        }
        ImageReport::OpensLossily(error, parts) => {
            write_refused(Refusal::Fault(describe(error)), out)?;
            write_parts(parts, out)?;
        }
        ImageReport::Refused(error) => write_refused(refusal_of_image(outside, error), out)?,
    }
    write!(out, "]}}")
}

// Writes the part of an image that doesn't open strictly.
fn write_refused<O: Write>(refusal: Refusal<'_>, out: &mut O) -> io::Result<()> {
    write_part("opens", &[refusal], Unreported::NOTHING, out)
}

// Returns how an image opens.
fn words_of_opening<A: Allocator>(image: &ImageReport<A>) -> &'static str
    ensures { result.now ≡ defined.opening_words image.now }
{
    match image {
        ImageReport::Opens(_) => "strictly",
        ImageReport::OpensLossily(_, _) => "lossily",
        ImageReport::Refused(_) => "no",
    }
}

// Writes the members after the images, and the end of the object.
fn write_end<A: Allocator, O: Write>(
    name: &str,
    report: &Report<'_, A>,
    out: &mut O,
) -> io::Result<()> {
    let kind = kind_of(report);
    let verdict = report.verdict();
    let (limit_met, sound) = (is_unended(verdict), is_sound(verdict));
    let name = JsonString(name);
    write!(out, "],\"kind\":\"{kind}\",\"limit_met\":{limit_met}")?;
    writeln!(out, ",\"name\":{name},\"sound\":{sound}}}")
}

// Returns what a file is.
fn kind_of<A: Allocator>(report: &Report<'_, A>) -> &'static str
    ensures { result.now ≡ defined.fault_kind_words report.now }
{
    match report {
        Report::Image(_) => "image",
        Report::Fat(_) => "fat file",
    }
}

// Whether no fault was found, but a list has more items than the limit.
fn is_unended(verdict: Soundness) -> bool
    ensures { result ≡ defined.is_unended verdict }
{
    matches!(verdict, Soundness::Unended)
}

// Whether the file is sound.
fn is_sound(verdict: Soundness) -> bool
    ensures { result ≡ defined.is_sound verdict }
{
    matches!(verdict, Soundness::Sound)
}
