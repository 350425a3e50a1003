//! The lines of a signature.

ghost use Rattle.std.specs.Prelude.{◌≡◌, ◌++◌, codes, false, flat_map, map, IfOk, OnOk};
ghost use Rattle.std.specs.Io.KnownBytes.{Appends};
ghost use Rattle.mach_base.specs.Words.{words_of};
ghost use Rattle.goblin_mach.specs.OpenImage.{bytes_view, commands_view, segments_view};
ghost use Rattle.mach_parts.specs.Segment.{segment_view};
ghost use Rattle.mach_signature.specs.Chosen.{directories_of};
ghost use Rattle.mach_signature.specs.ChosenViews.{slot_directory_read};
ghost use Rattle.mach_signature.specs.FaultViews.{signed_view};
ghost use Rattle.mach_signature.specs.SignViews.{signature_view};
ghost use Rattle.machsign.specs.Blocks.{slot_directory_lines};
ghost use Rattle.machsign.specs.ImageLines.{image_signed};
ghost use Rattle.machsign.specs.Kinds.{kind_line, unchecked_line};
ghost use Rattle.machsign.specs.Signatures as defined;

use crate::agreement::print_agreement;
use crate::blobs::OtherBlobs;
use crate::block::print_directory;
use crate::faults::write_faults;
use crate::form::Form;
use crate::kind_text::{KindText, why_unknown};
use crate::requirement_lines::print_requirements;
use crate::signed::{has_sound_parts, signed_image};
use goblin_mach::segment::Segment;
use goblin_mach::{Error, MachO, describe};
use mach_cli::{Outcome, print_cut, print_rows};
use mach_signature::entitlements::agreement_in;
use mach_signature::{Cms, CodeDirectory, Kind, SignedBytes, cms_of};
use std::alloc::Allocator;
use std::io;
use std::io::Write;

/// Prints the lines of an image's signature: of its blobs and its faults together the first `left`, and if there are more, a line
/// that says that `limit` are printed. Returns whether the image has a signature without a fault and all lines were printed, and
/// how many are left.
pub fn print_signature<A: Allocator, O: Write>(
    image: &MachO<'_, A>,
    limit: usize,
    left: usize,
    out: &mut O,
) -> io::Result<Outcome>
    ensures { IfOk result (λ outcome. defined.WritesSignature limit left (segments_view image.now)
        (image_signed (bytes_view image.now) (commands_view image.now) (segments_view image.now)) outcome.whole outcome.left
        (O.contents out.old) (O.contents out.new)) }
{
    match signed_image(image) {
        Ok(Some(signed)) => print_signed(&signed, image.segments.as_slice(), limit, left, out),
        Ok(None) => print_unsigned(left, out),
        Err(error) => print_refused(&error, left, out),
    }
}

// Prints that there is no signature; the image is not whole then.
fn print_unsigned<O: Write>(left: usize, out: &mut O) -> io::Result<Outcome>
    ensures { IfOk result (λ outcome. (outcome.whole ≡ false) × (outcome.left ≡ left)
        × Appends (O.contents out.old) (O.contents out.new) (codes "not signed\n")) }
{
    writeln!(out, "not signed")?;
    Ok(Outcome { whole: false, left })
}

// Prints the error of a signature that can't be read; the image is not whole then.
fn print_refused<O: Write>(error: &Error, left: usize, out: &mut O) -> io::Result<Outcome>
    ensures { IfOk result (λ outcome. (outcome.whole ≡ false) × (outcome.left ≡ left)
        × Appends (O.contents out.old) (O.contents out.new) (codes "refused: " ++ (words_of error.now ++ codes "\n"))) }
{
    let words = describe(error);
    writeln!(out, "refused: {words}")?;
    Ok(Outcome { whole: false, left })
}

// Prints the lines of a signature that can be read, up to the limit. Returns whether it has no fault and all were printed.
fn print_signed<O: Write>(
    signed: &SignedBytes<'_>,
    segments: &[Segment<'_>],
    limit: usize,
    left: usize,
    out: &mut O,
) -> io::Result<Outcome>
    ensures { IfOk result (λ outcome. defined.WritesSigned limit left (map segment_view segments.now) (signed_view signed.now)
        outcome.whole outcome.left (O.contents out.old) (O.contents out.new)) }
{
    print_front(signed, out)?;
    let mut rows = OtherBlobs::of(&signed.signature, Form::Lines);
    let blobs = print_rows(&mut rows, "", left, out)?;
    let faults = write_faults(Form::Lines, segments, blobs.left, signed, out)?;
    let more = blobs.more | faults.more;
    print_back(signed, limit, more, out)?;
    Ok(Outcome {
        whole: faults.whole & !more & has_sound_parts(signed),
        left: faults.left,
    })
}

// Prints the kind of a signature, the lines of its directories and those of its requirements, if a directory is used.
fn print_front<O: Write>(signed: &SignedBytes<'_>, out: &mut O) -> io::Result<()>
    ensures { OnOk result (Appends (O.contents out.old) (O.contents out.new) (defined.front_lines (signed_view signed.now))) }
{
    match signed.signature.directory() {
        Ok(directory) => {
            print_kind(Kind::of(signed, &directory), out)?;
            print_each_directory(signed, out)?;
            print_requirements(&signed.signature, out)
        }
        Err(_) => Ok(()),
    }
}

// Prints the line of the kind of a signature.
fn print_kind<O: Write>(kind: Kind, out: &mut O) -> io::Result<()>
    ensures { OnOk result (Appends (O.contents out.old) (O.contents out.new) (kind_line kind)) }
{
    let words = KindText(kind);
    writeln!(out, "signature: {words}")
}

// Prints the lines of all directories.
fn print_each_directory<O: Write>(signed: &SignedBytes<'_>, out: &mut O) -> io::Result<()>
    ensures { OnOk result (Appends (O.contents out.old) (O.contents out.new)
        (flat_map (slot_directory_lines (signed_view signed.now)) (directories_of (signature_view signed.now.signature)))) }
{
    'directories: for found in signed.signature.directories() {
        print_found(signed, &found, out)?;
    }
    Ok(())
}

// Prints the lines of a directory, if it can be read.
fn print_found<O: Write>(
    signed: &SignedBytes<'_>,
    found: &(u32, goblin_mach::Result<CodeDirectory<'_>>),
    out: &mut O,
) -> io::Result<()>
    ensures { OnOk result (Appends (O.contents out.old) (O.contents out.new)
        (slot_directory_lines (signed_view signed.now) (slot_directory_read found.now))) }
{
    match &found.1 {
        Ok(directory) => print_directory(signed, found.0, directory, out),
        Err(_) => Ok(()),
    }
}

// Prints whether the entitlements say the same, whether there are more lines than the limit, and what isn't checked.
fn print_back<O: Write>(
    signed: &SignedBytes<'_>,
    limit: usize,
    more: bool,
    out: &mut O,
) -> io::Result<()>
    ensures { OnOk result (Appends (O.contents out.old) (O.contents out.new) (defined.back_lines (signed_view signed.now) limit more)) }
{
    print_agreement(agreement_in(&signed.signature), out)?;
    print_cut(limit, more, out)?;
    print_unchecked(cms_of(signed), out)
}

// Prints why it isn't known who signed.
fn print_unchecked<O: Write>(cms: Cms, out: &mut O) -> io::Result<()>
    ensures { OnOk result (Appends (O.contents out.old) (O.contents out.new) (unchecked_line cms)) }
{
    let why = why_unknown(cms);
    writeln!(out, "not checked: who signed ({why})")
}
