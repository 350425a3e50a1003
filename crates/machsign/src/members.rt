//! The members of an image's object: its signature.

ghost use Rattle.std.specs.Prelude.{◌≡◌, ◌≤◌, codes, false, map, IfOk, OnOk, Some};
ghost use Rattle.std.specs.Io.KnownBytes.{Appends};
ghost use Rattle.std.specs.Option.{option_map};
ghost use Rattle.mach_base.specs.Items.{read_as};
ghost use Rattle.mach_base.specs.Words.{words_of};
ghost use Rattle.goblin_mach.specs.OpenImage.{bytes_view, commands_view, segments_view};
ghost use Rattle.mach_cli.specs.JsonText.{json_string};
ghost use Rattle.mach_parts.specs.Segment.{segment_view};
ghost use Rattle.mach_signature.specs.DirectoryViews.{directory_view};
ghost use Rattle.mach_signature.specs.FaultViews.{signed_view};
ghost use Rattle.mach_signature.specs.SignViews.{signature_view};
ghost use Rattle.machsign.specs.ImageLines.{image_signed};
ghost use Rattle.machsign.specs.JsonNames.{json_name};
ghost use Rattle.machsign.specs.JsonSignature as defined;
ghost use Rattle.machsign.specs.Texts.{runtime_text};

use crate::agreement::AgreementObject;
use crate::blobs::OtherBlobs;
use crate::faults::write_faults;
use crate::form::Form;
use crate::full_hash::print_full_hash;
use crate::requirement_lines::write_requirements;
use crate::signed::{has_sound_parts, signed_image};
use crate::special::{MOST_SLOTS, SpecialSlots};
use crate::text::RuntimeText;
use goblin_mach::segment::Segment;
use goblin_mach::{Error, MachO, Result, describe};
use mach_cli::{JsonString, Outcome, print_array, print_bytes};
use mach_signature::entitlements::{Agreement, agreement_in};
use mach_signature::{CodeDirectory, ExecutableSegment, Kind, RuntimeFields, SignedBytes};
use std::alloc::Allocator;
use std::fmt::{Display, Formatter};
use std::io::Write;
use std::{fmt, io};

/// Writes the members of an image: of the blobs and the faults of its signature together the first `left`. Returns whether it has
/// a signature without a fault and all were written, and how many are left.
pub fn write_members<A: Allocator, O: Write>(
    image: &MachO<'_, A>,
    left: usize,
    out: &mut O,
) -> io::Result<Outcome>
    ensures { IfOk result (λ outcome. defined.WritesSignatureMembers left (segments_view image.now)
        (image_signed (bytes_view image.now) (commands_view image.now) (segments_view image.now)) outcome.whole outcome.left
        (O.contents out.old) (O.contents out.new)) }
{
    write!(out, "\"kind\":\"image\",\"signature\":")?;
    match signed_image(image) {
        Ok(Some(signed)) => write_signed(&signed, image.segments.as_slice(), left, out),
        Ok(None) => write_unsigned(left, out),
        Err(error) => write_refused(&error, left, out),
    }
}

// Writes that there is no signature; the image is not whole then.
fn write_unsigned<O: Write>(left: usize, out: &mut O) -> io::Result<Outcome>
    ensures { IfOk result (λ outcome. (outcome.whole ≡ false) × (outcome.left ≡ left)
        × Appends (O.contents out.old) (O.contents out.new) (codes "null")) }
{
    write!(out, "null")?;
    Ok(Outcome { whole: false, left })
}

// Writes the error of a signature that can't be read; the image is not whole then.
fn write_refused<O: Write>(error: &Error, left: usize, out: &mut O) -> io::Result<Outcome>
    ensures { IfOk result (λ outcome. (outcome.whole ≡ false) × (outcome.left ≡ left)
        × Appends (O.contents out.old) (O.contents out.new) (defined.refused_object (words_of error.now))) }
{
    let words = describe(error);
    write!(out, "{{\"error\":\"{words}\"}}")?;
    Ok(Outcome { whole: false, left })
}

// Writes the object of a signature that can be read, up to the limit. Returns whether it has no fault and all were written.
fn write_signed<O: Write>(
    signed: &SignedBytes<'_>,
    segments: &[Segment<'_>],
    left: usize,
    out: &mut O,
) -> io::Result<Outcome>
    ensures { IfOk result (λ outcome. defined.WritesSignedObject left (map segment_view segments.now) (signed_view signed.now)
        outcome.whole outcome.left (O.contents out.old) (O.contents out.new)) }
{
    let directory = signed.signature.directory();
    write!(out, "{{\"blobs\":")?;
    let mut rows = OtherBlobs::of(&signed.signature, Form::Objects);
    let blobs = print_array(&mut rows, left, out)?;
    write_before(agreement_in(&signed.signature), &directory, out)?;
    let faults = write_faults(Form::Objects, segments, blobs.left, signed, out)?;
    let more = blobs.more | faults.more;
    write_after(signed, &directory, more, out)?;
    Ok(Outcome {
        whole: faults.whole & !more & has_sound_parts(signed),
        left: faults.left,
    })
}

// Writes the members between the blobs and the faults: those of the directory that is used, or why none is, and whether the
// entitlements say the same.
fn write_before<O: Write>(
    agreement: Option<Agreement>,
    directory: &Result<CodeDirectory<'_>>,
    out: &mut O,
) -> io::Result<()>
    ensures { OnOk result (Appends (O.contents out.old) (O.contents out.new) (defined.before_faults agreement directory.now)) }
{
    match directory {
        Ok(directory) => write_cdhash(agreement, directory, out),
        Err(error) => {
            let compared = AgreementObject(agreement);
            let words = describe(error);
            write!(
                out,
                ",\"entitlements_compared\":{compared},\"error\":\"{words}\",\"faults\":["
            )
        }
    }
}

// Writes the hash of a directory, cut to 20 bytes and whole, whether the entitlements say the same, the executable segment, and
// the start of the faults.
fn write_cdhash<O: Write>(
    agreement: Option<Agreement>,
    directory: &CodeDirectory<'_>,
    out: &mut O,
) -> io::Result<()>
    ensures { OnOk result (Appends (O.contents out.old) (O.contents out.new) (defined.cdhash_members agreement (directory_view directory.now))) }
{
    write!(out, ",\"cdhash\":\"")?;
    print_bytes(&directory.cdhash(), out)?;
    write!(out, "\",\"cdhash_full\":\"")?;
    print_full_hash(directory, out)?;
    let compared = AgreementObject(agreement);
    let executable = ExecutableObject(directory.executable);
    write!(
        out,
        "\",\"entitlements_compared\":{compared},\"executable\":{executable},\"faults\":["
    )
}

// An executable segment; null if the version has none.
#[derive(Clone, Copy)]
struct ExecutableObject(Option<ExecutableSegment>);

impl Display for ExecutableObject {
    ghost output = { λ t. Some (defined.executable_object t.0) };

    fn fmt<W: fmt::Write>(&self, f: &mut Formatter<W>) -> fmt::Result {
        let Some(segment) = self.0 else {
            return f.write_str("null");
        };
        let ExecutableSegment { base, limit, flags } = segment;
        write!(f, "{{\"base\":{base},\"flags\":{flags},\"limit\":{limit}}}")
    }
}

// Writes the members after the faults: the fields of the directory that is used, if one is, and whether there are more blobs or
// faults than were written.
fn write_after<O: Write>(
    signed: &SignedBytes<'_>,
    directory: &Result<CodeDirectory<'_>>,
    more: bool,
    out: &mut O,
) -> io::Result<()>
    ensures { OnOk result (Appends (O.contents out.old) (O.contents out.new) (defined.after_faults (signed_view signed.now) more directory.now)) }
{
    match directory {
        Ok(directory) => write_fields(signed, directory, more, out),
        Err(_) => write!(out, "],\"limit_met\":{more}}}"),
    }
}

// Writes the fields of a directory.
fn write_fields<O: Write>(
    signed: &SignedBytes<'_>,
    directory: &CodeDirectory<'_>,
    more: bool,
    out: &mut O,
) -> io::Result<()>
    ensures { OnOk result (Appends (O.contents out.old) (O.contents out.new)
        (defined.directory_members (signed_view signed.now) more (directory_view directory.now))) }
{
    let kind = Kind::of(signed, directory);
    write_kind(kind, directory.head.hash_type, out)?;
    write_identifier(directory, out)?;
    write_origin(kind, out)?;
    write_pages(directory, more, out)?;
    write_running(signed, directory, out)?;
    write_special(signed, directory, out)?;
    write_naming(directory, out)
}

// Writes the flags, what they and the CMS message say, the kind of hash, and the name of the member after them.
fn write_kind<O: Write>(kind: Kind, hash_type: u8, out: &mut O) -> io::Result<()>
    ensures { OnOk result (Appends (O.contents out.old) (O.contents out.new) (defined.kind_members kind hash_type)) }
{
    let (flags, cms) = (kind.flags, kind.cms.is_there());
    let (runtime, validation) = (kind.has_hardened_runtime(), kind.has_library_validation());
    write!(
        out,
        "],\"flags\":{flags},\"has_cms\":{cms},\"has_hardened_runtime\":{runtime},\"has_library_validation\":{validation},\
         \"hash_type\":{hash_type},\"identifier\":"
    )
}

// Writes whether no one signed, and whether a linker did.
fn write_origin<O: Write>(kind: Kind, out: &mut O) -> io::Result<()>
    ensures { OnOk result (Appends (O.contents out.old) (O.contents out.new) (defined.origin_members kind)) }
{
    let (ad_hoc, linker) = (kind.is_ad_hoc(), kind.is_linker_signed());
    write!(out, ",\"is_ad_hoc\":{ad_hoc},\"is_linker_signed\":{linker}")
}

// Writes the covered bytes and the pages, and whether there are more blobs or faults than were written.
fn write_pages<O: Write>(directory: &CodeDirectory<'_>, more: bool, out: &mut O) -> io::Result<()>
    ensures { OnOk result (Appends (O.contents out.old) (O.contents out.new) (defined.pages_members more (directory_view directory.now))) }
{
    let limit = directory.code_limit();
    let pages = directory.page_count();
    let size = PageSize {
        power: directory.head.page_size,
    };
    write!(
        out,
        ",\"limit\":{limit},\"limit_met\":{more},\"page_size\":{size},\"pages\":{pages}"
    )
}

// Writes the platform, the requirements and the runtime, and the name of the member after them.
fn write_running<O: Write>(
    signed: &SignedBytes<'_>,
    directory: &CodeDirectory<'_>,
    out: &mut O,
) -> io::Result<()>
    ensures { OnOk result (Appends (O.contents out.old) (O.contents out.new)
        (defined.running_members (signature_view signed.now.signature) directory.now.head.platform directory.now.runtime)) }
{
    write_platform(directory.head.platform, out)?;
    write_requirements(&signed.signature, out)?;
    write_runtime(directory.runtime, out)
}

// Writes the platform, and the name of the member after it.
fn write_platform<O: Write>(platform: u8, out: &mut O) -> io::Result<()>
    ensures { OnOk result (Appends (O.contents out.old) (O.contents out.new) (defined.platform_member platform)) }
{
    write!(out, ",\"platform\":{platform},\"requirements\":")
}

// Writes the runtime, and the name of the member after it.
fn write_runtime<O: Write>(runtime: Option<RuntimeFields>, out: &mut O) -> io::Result<()>
    ensures { OnOk result (Appends (O.contents out.old) (O.contents out.new) (defined.runtime_member runtime)) }
{
    let runtime = RuntimeObject(runtime);
    write!(out, ",\"runtime\":{runtime},\"special_slots\":")
}

// The version of a runtime as a string; null if the directory has none.
#[derive(Clone, Copy)]
struct RuntimeObject(Option<RuntimeFields>);

impl Display for RuntimeObject {
    ghost output = { λ t. Some (defined.runtime_object t.0) };

    fn fmt<W: fmt::Write>(&self, f: &mut Formatter<W>) -> fmt::Result {
        let Some(fields) = self.0 else {
            return f.write_str("null");
        };
        let version = RuntimeText(fields.version);
        write!(f, "\"{version}\"")
    }
}

// Writes an array of the special slots, and the name of the member after them.
fn write_special<O: Write>(
    signed: &SignedBytes<'_>,
    directory: &CodeDirectory<'_>,
    out: &mut O,
) -> io::Result<()>
    ensures { OnOk result (Appends (O.contents out.old) (O.contents out.new)
        (defined.special_members (signed_view signed.now) (directory_view directory.now))) }
{
    let mut slots = SpecialSlots::of(signed, directory, Form::Objects);
    print_array(&mut slots, MOST_SLOTS, out)?;
    write!(out, ",\"team\":")
}

// Writes the team, the version, and the end of the object.
fn write_naming<O: Write>(directory: &CodeDirectory<'_>, out: &mut O) -> io::Result<()>
    ensures { OnOk result (Appends (O.contents out.old) (O.contents out.new) (defined.naming_members (directory_view directory.now))) }
{
    write_team(directory, out)?;
    let version = directory.head.version;
    write!(out, ",\"version\":{version}}}")
}

// The page size, by its power of 2; null if a page has any size.
#[derive(Clone, Copy)]
struct PageSize {
    power: u8,
    ghost within: { power ≤ 31 },
}

impl Display for PageSize {
    ghost output = { λ t. Some (defined.page_size_text t.power) };

    fn fmt<W: fmt::Write>(&self, f: &mut Formatter<W>) -> fmt::Result {
        if self.power == 0 {
            return f.write_str("null");
        }
        let size = 1u64 << self.power;
        write!(f, "{size}")
    }
}

// Writes the identifier.
fn write_identifier<O: Write>(directory: &CodeDirectory<'_>, out: &mut O) -> io::Result<()>
    ensures { OnOk result (Appends (O.contents out.old) (O.contents out.new) (defined.identifier_text (directory_view directory.now))) }
{
    write_name(directory.identifier(), out)
}

// Writes the team.
fn write_team<O: Write>(directory: &CodeDirectory<'_>, out: &mut O) -> io::Result<()>
    ensures { OnOk result (Appends (O.contents out.old) (O.contents out.new) (defined.team_text (directory_view directory.now))) }
{
    write_name(directory.team(), out)
}

/// Writes a name that may be there.
pub fn write_name<O: Write>(name: mach_base::Result<Option<&str>>, out: &mut O) -> io::Result<()>
    ensures { OnOk result (Appends (O.contents out.old) (O.contents out.new)
        (json_name (read_as (option_map (λ text. text.now)) name.entry))) }
{
    match name {
        Ok(Some(name)) => write_string(name, out),
        Ok(None) => write!(out, "null"),
        Err(_) => write!(out, "{{\"error\":\"unreadable\"}}"),
    }
}

// Writes a string.
fn write_string<O: Write>(text: &str, out: &mut O) -> io::Result<()>
    ensures { OnOk result (Appends (O.contents out.old) (O.contents out.new) (json_string text.now)) }
{
    let text = JsonString(text);
    write!(out, "{text}")
}
