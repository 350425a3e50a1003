//! Whether an image is signed, and what its code directory says.

ghost use Rattle.std.specs.Prelude.{◌≡◌, ◌==◌, ◌++◌, bit_and, codes, not, IfOk, OnOk};
ghost use Rattle.std.specs.Option.{option_map};
ghost use Rattle.std.specs.Io.KnownBytes.{Appends};
ghost use Rattle.mach_base.specs.Items.{read_as};
ghost use Rattle.mach_base.specs.Words.{words_of};
ghost use Rattle.goblin_mach.specs.OpenImage.{bytes_view, commands_view};
ghost use Rattle.mach_signature.specs.Directories.{identifier_of, team_of};
ghost use Rattle.mach_signature.specs.DirectoryViews.{directory_view};
ghost use Rattle.mach_signature.specs.SignedImages.{image_directory};
ghost use Rattle.machinfo.specs.Signed.{directory_summary, is_readable, said_name, signature_flags_line, signed_line, signature_answer_text, WritesSignedLines};

use goblin_mach::{Error, MachO, describe};
use mach_cli::{print_code_flags, print_name};
use mach_signature::CodeDirectory;
use mach_signature::image::code_directory;
use std::alloc::Allocator;
use std::io;
use std::io::Write;

/// Prints whether an image is signed, and what the code directory says that is used; or the error. Returns whether all can be
/// read.
pub fn print_signed<A: Allocator, O: Write>(image: &MachO<'_, A>, out: &mut O) -> io::Result<bool>
    ensures { IfOk result (λ whole. let there = image_directory (bytes_view image.now) (commands_view image.now) in
        (whole ≡ is_readable there) × WritesSignedLines there (O.contents out.old) (O.contents out.new)) }
{
    let directory = code_directory(image);
    print_answer(&directory, out)?;
    Ok(is_readable(&directory))
}

/// Whether a code directory and its names can be read, or there is none.
pub fn is_readable(answer: &goblin_mach::Result<Option<CodeDirectory<'_>>>) -> bool
    ensures { result ≡ is_readable (read_as (option_map directory_view) answer.now) }
{
    match answer {
        Ok(Some(directory)) => directory.identifier().is_ok() && directory.team().is_ok(),
        Ok(None) => true,
        Err(_) => false,
    }
}

// Prints an answer.
fn print_answer<O: Write>(
    answer: &goblin_mach::Result<Option<CodeDirectory<'_>>>,
    out: &mut O,
) -> io::Result<()>
    ensures { OnOk result (Appends (O.contents out.old) (O.contents out.new) (signature_answer_text answer.now)) }
{
    match answer {
        Ok(Some(directory)) => print_directory(directory, out),
        Ok(None) => writeln!(out, "signed: no"),
        Err(error) => print_refused(error, out),
    }
}

// Prints the error of a signature that can't be read.
fn print_refused<O: Write>(error: &Error, out: &mut O) -> io::Result<()>
    ensures { OnOk result (Appends (O.contents out.old) (O.contents out.new) (codes "signed: refused: " ++ (words_of error.now ++ codes "\n"))) }
{
    let words = describe(error);
    writeln!(out, "signed: refused: {words}")
}

// Prints what a code directory says.
fn print_directory<O: Write>(directory: &CodeDirectory<'_>, out: &mut O) -> io::Result<()>
    ensures { OnOk result (Appends (O.contents out.old) (O.contents out.new) (directory_summary (directory_view directory.now))) }
{
    print_kind(directory.head.flags, out)?;
    print_identifier(directory, out)?;
    print_team(directory, out)?;
    print_flags(directory.head.flags, out)
}

/// Whether the flags say that a signature is ad hoc, made without an identity.
pub fn is_ad_hoc(flags: u32) -> bool
    ensures { result ≡ not (bit_and flags 2 == 0) }
{
    flags & 2 != 0
}

// Prints that an image is signed, and how.
fn print_kind<O: Write>(flags: u32, out: &mut O) -> io::Result<()>
    ensures { OnOk result (Appends (O.contents out.old) (O.contents out.new) (signed_line flags)) }
{
    if is_ad_hoc(flags) {
        writeln!(out, "signed: yes, ad hoc")
    } else {
        writeln!(out, "signed: yes")
    }
}

// Prints the line of the identifier.
fn print_identifier<O: Write>(directory: &CodeDirectory<'_>, out: &mut O) -> io::Result<()>
    ensures { OnOk result (Appends (O.contents out.old) (O.contents out.new)
        (said_name (codes "identifier") (identifier_of (directory_view directory.now)))) }
{
    print_facts("identifier", directory.identifier(), out)
}

// Prints the line of the team.
fn print_team<O: Write>(directory: &CodeDirectory<'_>, out: &mut O) -> io::Result<()>
    ensures { OnOk result (Appends (O.contents out.old) (O.contents out.new)
        (said_name (codes "team") (team_of (directory_view directory.now)))) }
{
    print_facts("team", directory.team(), out)
}

// Prints the line of a label and a name.
fn print_facts<O: Write>(
    label: &str,
    name: goblin_mach::Result<Option<&str>>,
    out: &mut O,
) -> io::Result<()>
    ensures { OnOk result (Appends (O.contents out.old) (O.contents out.new)
        (said_name label.now (read_as (option_map (λ text. text.now)) name.entry))) }
{
    write!(out, "{label}: ")?;
    print_name(name, out)?;
    writeln!(out)
}

// Prints the line of the flags.
fn print_flags<O: Write>(flags: u32, out: &mut O) -> io::Result<()>
    ensures { OnOk result (Appends (O.contents out.old) (O.contents out.new) (signature_flags_line flags)) }
{
    write!(out, "signature flags: ")?;
    print_code_flags(flags, out)?;
    writeln!(out)
}
