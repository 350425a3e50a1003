//! The faults of a signature, each changed page with its segment and section.

ghost use Rattle.std.specs.Prelude.{◌≡◌, map, IfOk, OnOk, Some};
ghost use Rattle.std.specs.Option.{option_map};
ghost use Rattle.std.specs.Io.KnownBytes.{Appends};
ghost use Rattle.mach_base.specs.Items.{read_as};
ghost use Rattle.mach_parts.specs.Segment.{segment_view};
ghost use Rattle.mach_signature.specs.FaultViews.{signed_view};
ghost use Rattle.machsign.specs.Faults as defined;
ghost use Rattle.machsign.specs.JsonNames.{json_name};

use crate::form::Form;
use crate::members::write_name;
use goblin_mach::Result;
use goblin_mach::segment::Segment;
use mach_base::read_text;
use mach_cli::{ListProgress, comma_before, print_name};
use mach_signature::page::{ChangedPage, Place, first_directory, is_repeated, page_of, place_of};
use mach_signature::{SignatureFault, SignedBytes, SlotName};
use std::fmt::{Display, Formatter};
use std::io::Write;
use std::{fmt, io};

// The name of an alternate directory's slot before what it reports.
#[derive(Clone, Copy)]
struct SlotFront(u32);

impl Display for SlotFront {
    ghost output = { λ t. Some (defined.slot_front t.0) };

    fn fmt<W: fmt::Write>(&self, f: &mut Formatter<W>) -> fmt::Result {
        let slot = self.0;
        if slot == 0 {
            return Ok(());
        }
        let name = SlotName(slot);
        write!(f, "{name}: ")
    }
}

// The slot of an alternate directory, and the number and the place of its page.
#[derive(Clone, Copy)]
struct PageFront(ChangedPage);

impl Display for PageFront {
    ghost output = { λ t. Some (defined.page_front t.0) };

    fn fmt<W: fmt::Write>(&self, f: &mut Formatter<W>) -> fmt::Result {
        let page = self.0;
        let front = SlotFront(page.slot);
        let (index, start, end) = (page.index, page.start, page.end);
        write!(f, "{front}page {index}: 0x{start:x}..0x{end:x}")
    }
}

// Returns the name in a field, if there is one.
fn name_in(field: &Option<[u8; 16]>) -> Result<Option<&str>>
    ensures { read_as (option_map (λ text. text.now)) result ≡ defined.name_in field.now }
{
    let Some(field) = field else {
        return Ok(None);
    };
    let name = read_text(field, 0)?;
    Ok(Some(name))
}

// Prints a name with a space before it, if there is one.
fn print_part<O: Write>(field: &Option<[u8; 16]>, out: &mut O) -> io::Result<()>
    ensures { OnOk result (Appends (O.contents out.old) (O.contents out.new) (defined.part_text field.now)) }
{
    if field.is_none() {
        return Ok(());
    }
    write!(out, " ")?;
    print_name(name_in(field), out)
}

// Prints the line of a page, with the segment and the section that it is in.
fn print_page<O: Write>(page: ChangedPage, place: &Place, out: &mut O) -> io::Result<()>
    ensures { OnOk result (Appends (O.contents out.old) (O.contents out.new) (defined.page_line page place.now)) }
{
    let front = PageFront(page);
    write!(out, "fault: {front}")?;
    print_part(&place.segment, out)?;
    print_part(&place.section, out)?;
    writeln!(out, " is not what was signed")
}

// Prints the line of a fault.
fn print_line<O: Write>(
    segments: &[Segment<'_>],
    fault: &SignatureFault,
    out: &mut O,
) -> io::Result<()>
    ensures { OnOk result (Appends (O.contents out.old) (O.contents out.new) (defined.fault_line (map segment_view segments.now) fault.now)) }
{
    let page = page_of(fault);
    let place = place_of(segments, page);
    match page {
        Some(page) => print_page(page, &place, out),
        None => writeln!(out, "fault: {fault}"),
    }
}

// Writes a name as a member's value; null if there is none.
fn write_part<O: Write>(field: &Option<[u8; 16]>, out: &mut O) -> io::Result<()>
    ensures { OnOk result (Appends (O.contents out.old) (O.contents out.new) (json_name (defined.name_in field.now))) }
{
    write_name(name_in(field), out)
}

// Writes the object of a fault.
fn write_object<O: Write>(place: &Place, fault: &SignatureFault, out: &mut O) -> io::Result<()>
    ensures { OnOk result (Appends (O.contents out.old) (O.contents out.new) (defined.object_by place.now fault.now)) }
{
    write!(out, "{{\"section\":")?;
    write_part(&place.section, out)?;
    write!(out, ",\"segment\":")?;
    write_part(&place.segment, out)?;
    write!(out, ",\"words\":\"{fault}\"}}")
}

// Writes a fault in a form; an object follows a comma unless it is the first.
fn write_fault<O: Write>(
    form: Form,
    segments: &[Segment<'_>],
    is_first: bool,
    fault: &SignatureFault,
    out: &mut O,
) -> io::Result<()>
    ensures { OnOk result (Appends (O.contents out.old) (O.contents out.new)
        (defined.shown_fault_text form (map segment_view segments.now) is_first fault.now)) }
{
    match form {
        Form::Lines => print_line(segments, fault, out),
        Form::Objects => {
            let comma = comma_before(is_first);
            write!(out, "{comma}")?;
            write_object(&place_of(segments, page_of(fault)), fault, out)
        }
    }
}

/// Writes the first faults that are shown, up to a limit, in a form: all but an alternate directory's pages that the first directory
/// reports, too. Returns whether there is none, how many more may be written, and whether there are more.
pub fn write_faults<O: Write>(
    form: Form,
    segments: &[Segment<'_>],
    limit: usize,
    signed: &SignedBytes<'_>,
    out: &mut O,
) -> io::Result<ListProgress>
    ensures { IfOk result (defined.WritesFaults form (map segment_view segments.now) limit (signed_view signed.now)
        (O.contents out.old) (O.contents out.new)) }
{
    let first = first_directory(&signed.signature);
    let mut faults = signed.faults();
    let mut left = limit;
    let mut whole = true;
    'faults: while let Some(fault) = faults.next() {
        whole = false;
        if is_repeated(signed.image, &first, &fault) {
            continue;
        }
        let Some(rest) = left.checked_sub(1) else {
            return Ok(ListProgress {
                left: 0,
                whole,
                more: true,
            });
        };
        write_fault(form, segments, left == limit, &fault, out)?;
        left = rest;
    }
    Ok(ListProgress {
        left,
        whole,
        more: false,
    })
}
