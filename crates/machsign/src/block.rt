//! The lines of a code directory.

ghost use Rattle.std.specs.Prelude.{◌≡◌, ◌++◌, codes, nat_le, OnOk};
ghost use Rattle.std.specs.Option.{option_map};
ghost use Rattle.std.specs.Io.KnownBytes.{Appends};
ghost use Rattle.mach_base.specs.Items.{read_as};
ghost use Rattle.mach_signature.specs.CodeFaultViews.{code_faults_left};
ghost use Rattle.mach_signature.specs.Directories.{cdhash_of, code_limit_of, identifier_of, team_of};
ghost use Rattle.mach_signature.specs.DirectoryViews.{directory_view};
ghost use Rattle.mach_signature.specs.FaultViews.{signed_view};
ghost use Rattle.mach_signature.specs.Hashes.{hash_len};
ghost use Rattle.mach_signature.specs.SpecialFaultViews.{special_faults_left};
ghost use Rattle.machsign.specs.Blocks as defined;

use crate::form::Form;
use crate::full_hash::print_full_hash;
use crate::special::{MOST_SLOTS, SpecialSlots};
use crate::text::{HeadFront, RuntimeText, SegmentFront, ShapeText};
use mach_cli::{print_bytes, print_code_flags, print_rows, print_segment_flags};
use mach_signature::{
    CodeDirectory, CodeFault, CodeFaults, ExecutableSegment, HashType, RuntimeFields, SignedBytes,
    SpecialFaults,
};
use std::io;
use std::io::Write;

/// Prints the lines of an image's code directory in a slot.
#[tactic(auto, unfolding(crate::specs::Blocks::directory_lines))]
pub fn print_directory<O: Write>(
    signed: &SignedBytes<'_>,
    slot: u32,
    directory: &CodeDirectory<'_>,
    out: &mut O,
) -> io::Result<()>
    ensures { OnOk result (Appends (O.contents out.old) (O.contents out.new)
        (defined.directory_lines (signed_view signed.now) slot (directory_view directory.now))) }
{
    print_naming(slot, directory, out)?;
    print_hashing(signed, directory, out)
}

// Prints the first line of a directory, its names and its executable segment.
fn print_naming<O: Write>(slot: u32, directory: &CodeDirectory<'_>, out: &mut O) -> io::Result<()>
    ensures { OnOk result (Appends (O.contents out.old) (O.contents out.new) (defined.naming_lines slot (directory_view directory.now))) }
{
    print_head(slot, directory, out)?;
    print_identifier(directory, out)?;
    print_team(directory, out)?;
    print_executable(directory.executable, out)
}

// Prints the runtime and the hashes of a directory.
fn print_hashing<O: Write>(
    signed: &SignedBytes<'_>,
    directory: &CodeDirectory<'_>,
    out: &mut O,
) -> io::Result<()>
    ensures { OnOk result (Appends (O.contents out.old) (O.contents out.new)
        (defined.hashing_lines (signed_view signed.now) (directory_view directory.now))) }
{
    print_runtime(directory.runtime, out)?;
    print_cdhash(directory, out)?;
    print_full_cdhash(directory, out)?;
    print_special_slots(signed, directory, out)?;
    print_checked(signed, directory, out)
}

// Prints the first line of a directory, which begins with the name of its slot.
fn print_head<O: Write>(slot: u32, directory: &CodeDirectory<'_>, out: &mut O) -> io::Result<()>
    ensures { OnOk result (Appends (O.contents out.old) (O.contents out.new) (defined.head_line slot (directory_view directory.now))) }
{
    let front = HeadFront {
        slot,
        version: directory.head.version,
    };
    write!(out, "{front}")?;
    print_code_flags(directory.head.flags, out)?;
    print_shape(directory, out)
}

// Prints the first line of a directory after its flags.
fn print_shape<O: Write>(directory: &CodeDirectory<'_>, out: &mut O) -> io::Result<()>
    ensures { OnOk result (Appends (O.contents out.old) (O.contents out.new)
        (defined.shape_text directory.now.hash directory.now.head (code_limit_of (directory_view directory.now)) ++ codes "\n")) }
{
    let shape = ShapeText {
        hash: directory.hash,
        head: directory.head,
        limit: directory.code_limit(),
    };
    writeln!(out, "{shape}")
}

// Prints the line of the identifier.
fn print_identifier<O: Write>(directory: &CodeDirectory<'_>, out: &mut O) -> io::Result<()>
    ensures { OnOk result (Appends (O.contents out.old) (O.contents out.new)
        (defined.name_line (codes "identifier") (identifier_of (directory_view directory.now)))) }
{
    print_name("identifier", directory.identifier(), out)
}

// Prints the line of the team.
fn print_team<O: Write>(directory: &CodeDirectory<'_>, out: &mut O) -> io::Result<()>
    ensures { OnOk result (Appends (O.contents out.old) (O.contents out.new)
        (defined.name_line (codes "team") (team_of (directory_view directory.now)))) }
{
    print_name("team", directory.team(), out)
}

// Prints the line of a label and a name.
fn print_name<O: Write>(
    label: &str,
    name: mach_base::Result<Option<&str>>,
    out: &mut O,
) -> io::Result<()>
    ensures { OnOk result (Appends (O.contents out.old) (O.contents out.new)
        (defined.name_line label.now (read_as (option_map (λ text. text.now)) name.entry))) }
{
    write!(out, "  {label}: ")?;
    mach_cli::print_name(name, out)?;
    writeln!(out)
}

// Prints the line of an executable segment.
fn print_segment<O: Write>(segment: ExecutableSegment, out: &mut O) -> io::Result<()>
    ensures { OnOk result (Appends (O.contents out.old) (O.contents out.new) (defined.segment_line segment)) }
{
    let front = SegmentFront {
        base: segment.base,
        end: segment.base.saturating_add(segment.limit),
    };
    write!(out, "{front}")?;
    print_segment_flags(segment.flags, out)?;
    writeln!(out)
}

// Prints the line of the executable segment, if the version has it.
fn print_executable<O: Write>(executable: Option<ExecutableSegment>, out: &mut O) -> io::Result<()>
    ensures { OnOk result (Appends (O.contents out.old) (O.contents out.new) (defined.executable_line executable)) }
{
    match executable {
        Some(segment) => print_segment(segment, out),
        None => Ok(()),
    }
}

// Prints the line of the runtime, if the version has it.
fn print_runtime<O: Write>(runtime: Option<RuntimeFields>, out: &mut O) -> io::Result<()>
    ensures { OnOk result (Appends (O.contents out.old) (O.contents out.new) (defined.runtime_line runtime)) }
{
    let Some(fields) = runtime else {
        return Ok(());
    };
    let version = RuntimeText(fields.version);
    writeln!(out, "  runtime: {version}")
}

// Prints the line of the directory's own hash.
fn print_cdhash<O: Write>(directory: &CodeDirectory<'_>, out: &mut O) -> io::Result<()>
    ensures { OnOk result (Appends (O.contents out.old) (O.contents out.new) (defined.cdhash_line (cdhash_of (directory_view directory.now)))) }
{
    write!(out, "  cdhash: ")?;
    print_bytes(&directory.cdhash(), out)?;
    writeln!(out)
}

// Whether the first 20 bytes of a hash are all of it.
fn is_short(hash: HashType) -> bool
    ensures { result ≡ nat_le (hash_len hash) 20 }
{
    hash.size() <= 20
}

// Prints the line of the whole hash of a directory, if it has more bytes than the cdhash.
fn print_full_cdhash<O: Write>(directory: &CodeDirectory<'_>, out: &mut O) -> io::Result<()>
    ensures { OnOk result (Appends (O.contents out.old) (O.contents out.new) (defined.full_cdhash_line (directory_view directory.now))) }
{
    if is_short(directory.hash) {
        return Ok(());
    }
    write!(out, "  full cdhash: ")?;
    print_full_hash(directory, out)?;
    writeln!(out)
}

// Returns how many pages are as signed: those without a fault, and none if the pages can't be judged.
#[tactic(auto, using(crate::proofs::Checked::none_counted, crate::proofs::Checked::one_counted, crate::proofs::Checked::all_counted, crate::proofs::Checked::none_judged))]
fn sound_pages(pages: u64, mut faults: CodeFaults<'_>) -> u64
    ensures { result ≡ defined.sound_pages pages (code_faults_left faults.entry) }
{
    let mut sound = pages;
    'faults: while let Some(fault) = faults.next() {
        if is_of_page(fault) {
            sound = sound.saturating_sub(1);
        } else {
            return 0;
        }
    }
    sound
}

// Whether a fault is one of a page, and no reason why the pages can't be judged.
fn is_of_page(fault: CodeFault) -> bool
    ensures { result ≡ defined.is_of_page fault }
{
    match fault {
        CodeFault::Page { .. } => true,
        CodeFault::Scattered { .. } => false,
        CodeFault::Limit { .. } => false,
        CodeFault::Slots { .. } => false,
    }
}

// Returns whether special slots have faults, in words.
fn slots_words(mut faults: SpecialFaults<'_>) -> &'static str
    ensures { result.now ≡ defined.slots_words (special_faults_left faults.entry) }
{
    match faults.next() {
        Some(_) => "with faults",
        None => "without a fault",
    }
}

// Prints what was checked: how many pages of how many are as signed, and whether special slots have faults.
fn print_checked<O: Write>(
    signed: &SignedBytes<'_>,
    directory: &CodeDirectory<'_>,
    out: &mut O,
) -> io::Result<()>
    ensures { OnOk result (Appends (O.contents out.old) (O.contents out.new) (defined.checked_line (signed_view signed.now) (directory_view directory.now))) }
{
    let pages = directory.page_count();
    let sound = sound_pages(pages, directory.code_faults(signed.image));
    let slots = slots_words(directory.special_faults(&signed.signature, signed.plist));
    writeln!(
        out,
        "  checked: {sound} of {pages} pages as signed, special slots {slots}"
    )
}

// Prints the lines of the special slots.
fn print_special_slots<O: Write>(
    signed: &SignedBytes<'_>,
    directory: &CodeDirectory<'_>,
    out: &mut O,
) -> io::Result<()>
    ensures { OnOk result (Appends (O.contents out.old) (O.contents out.new) (defined.special_lines (signed_view signed.now) (directory_view directory.now))) }
{
    let mut slots = SpecialSlots::of(signed, directory, Form::Lines);
    print_rows(&mut slots, "", MOST_SLOTS, out)?;
    Ok(())
}
