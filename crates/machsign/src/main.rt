//! Prints the code signature of a Mach-O file: what kind it is; the fields of each code directory, its cdhash, what it seals
//! besides the code, and how many pages are as they were signed; how many bytes the other blobs have; a line `fault:` for
//! everything that differs from what was signed; and what isn't checked. Of a fat file it prints that of each entry, or of the
//! entries for one cpu, under a line that says which. With `--entitlements` it writes the entitlements of the first image that
//! has them, and nothing else. With `--json` it writes one object for each file, on a line.
//!
//! It does not check who signed: a CMS blob is not verified, and no other file is read.
#![tactic(auto)]

ghost use Rattle.std.specs.Prelude.{◌≡◌, ◌≢◌, ℕ, List, [], codes, false, length, true, Err, IfErr, IfOk};
ghost use Rattle.std.specs.Io.Buffered.{writer_contents};
ghost use Rattle.std.specs.Io.KnownBytes.{Appends};
ghost use Rattle.mach_cli.specs.Calls.{is_json};
ghost use Rattle.mach_cli.specs.Names.{names_text};
ghost use Rattle.mach_cli.specs.ShownCalls.{ShowsJson, ShowsText};
ghost use Rattle.mach_cli.specs.Statuses.{IsStatus, IsUnwritten};
ghost use Rattle.machsign.specs.Calls.{AreSignatureFiles, ShowsSignatureLines, ShowsSignatureObjects, WritesEntitlements};
ghost use Rattle.machsign.specs.Entitlements.{SaysWhyNone};
ghost use Rattle.machsign.specs.ImageLines.{AreImageSignatureLines};
ghost use Rattle.machsign.specs.JsonSignature.{AreImageSignatureMembers};

mod agreement;
mod arguments;
mod blobs;
mod block;
mod entitlements;
mod faults;
mod form;
mod full_hash;
mod json;
mod kind_text;
mod laws;
mod members;
mod print;
mod requirement_lines;
mod signature_view;
mod signed;
mod special;
mod text;

use arguments::Entitlements;
use entitlements::{NAME, run_entitlements};
use json::SignatureObjects;
use mach_cli::{Call, ImageFiles, Misuse, Options, Others, Program, Titled};
use signature_view::SignatureLines;
use std::alloc::{Allocator, Global};
use std::io;
use std::io::{BufWriter, Write};
use std::process::ExitCode;

const PROGRAM: Program = Program {
    name: NAME,
    about: "machsign prints the code signatures of Mach-O files, and what doesn't match
them. It doesn't check who signed.
",
    usage: "usage: machsign [--json] [--limit N] [--arch NAME | --cputype 0xN]
                [--lossy] [--names FILE] [-0] [--color WHEN] FILE..
       machsign --entitlements [--arch NAME | --cputype 0xN] FILE
       machsign -h | --help | --version
",
    version: "machsign 0.3.0\n",
    options: Options::OF_IMAGES,
    words: "",
    flags: "      --entitlements        write the entitlements of the first image with any
      --limit N             print at most N lines of blobs and faults per file
",
    examples: "  machsign prog                 the signature, and its faults
  machsign --entitlements prog  the entitlements in XML
",
};

fn main(rt: HostRuntime) -> ExitCode {
    ExitCode::from(match start(&rt) {
        Ok(status) | Err(status) => status,
    })
}

// Runs the program with its words.
fn start(rt: &HostRuntime) -> Result<u8, u8> {
    let words = PROGRAM.words(rt)?;
    let call = PROGRAM.call(rt, Entitlements::UNSELECTED, &words)?;
    answer(rt, &call)
}

// Runs a parsed call: writes entitlements, or shows each file.
fn answer(rt: &HostRuntime, call: &Call<'_, Global, Entitlements>) -> Result<u8, u8>
    ensures one_file { call.now.own.are_selected ≡ true → length call.now.words.items ≢ 1 → result ≡ Err 2 }
{
    if call.own.are_selected {
        return write_entitlements(rt, call);
    }
    if call.words.is_empty() && call.others.is_empty() {
        return Err(PROGRAM.bad_usage(rt, Misuse::Missing("FILE")));
    }
    let mut out = PROGRAM.output(rt, call.color, call.format)?;
    show_call(rt, call, &mut out)
}

// Writes the entitlements of the first image of a call's one file that has them, and returns the status.
fn write_entitlements(rt: &HostRuntime, call: &Call<'_, Global, Entitlements>) -> Result<u8, u8>
    ensures one_file { length call.now.words.items ≢ 1 → result ≡ Err 2 }
{
    let [file] = call.words.as_slice() else {
        return Err(PROGRAM.bad_usage(rt, Misuse::Missing("single FILE")));
    };
    let Ok(mut out) = BufWriter::new(rt.alloc(), io::writer(rt)) else {
        return Err(PROGRAM.out_of_memory(rt));
    };
    let bytes = PROGRAM.read(rt, file)?;
    let err = &mut rt.stderr();
    Ok(write_found(rt, call, file, &bytes, &mut out, err))
}

// Writes the entitlements of the first image for a call's cpu that has them, of a file with these bytes, and returns the status.
fn write_found<W: Write + Drop, E: Write>(
    rt: &HostRuntime,
    call: &Call<'_, Global, Entitlements>,
    file: &str,
    bytes: &[u8],
    out: &mut BufWriter<W>,
    err: &mut E,
) -> u8
    ensures status { IsStatus result }
    ensures written { result ≡ 0 → WritesEntitlements W.contents call.now.cpu bytes.now out.old out.new }
    ensures nothing { result ≡ 1 → Appends (writer_contents W.contents out.old) (writer_contents W.contents out.new) [] }
    ensures reported { result ≡ 1 → (said : List ℕ) × SaysWhyNone call.now.cpu (names_text (codes "machsign") file.now) bytes.now said
        × Appends (E.contents err.old) (E.contents err.new) said }
{
    run_entitlements(rt.alloc(), call.cpu, file, bytes, out, err)
}

// Shows the signatures of all files that a call names, and returns the worst status.
fn show_call<W: Write + Drop>(
    rt: &HostRuntime,
    call: &Call<'_, Global, Entitlements>,
    out: &mut BufWriter<Titled<W>>,
) -> Result<u8, u8>
    ensures lines { is_json call.now.format ≡ false → IfOk result (ShowsSignatureLines W.contents call.now out.old out.new) }
    ensures objects { is_json call.now.format ≡ true → IfOk result (ShowsSignatureObjects W.contents call.now out.old out.new) }
{
    show_files(rt, &shown_by(call), &call.words, &call.others, out)
}

// Returns how a call shows its files: the signatures of the selected images, as lines or as objects.
fn shown_by(call: &Call<'_, Global, Entitlements>) -> ImageFiles<SignatureLines, SignatureObjects>
    ensures { AreSignatureFiles call.now result }
{
    ImageFiles::of(PROGRAM, call, usize::MAX, SignatureLines, SignatureObjects)
}

// Shows the selected images of files in order, then those of the files named in other ways, and returns the worst status. The
// status of a failed write is an error, since nothing is shown after it.
fn show_files<W: Write + Drop, B: Allocator>(
    rt: &HostRuntime,
    shown: &ImageFiles<SignatureLines, SignatureObjects>,
    files: &[&str],
    others: &Others<'_, Global>,
    out: &mut BufWriter<Titled<W>, B>,
) -> Result<u8, u8>
    ensures text { let s = shown.now in s.is_json ≡ false → IfOk result (λ worst. ShowsText s s.program.name.now (λ _. AreImageSignatureLines) W.contents
        files.now others.now out.old out.new worst) }
    ensures json { let s = shown.now in s.is_json ≡ true → IfOk result (λ worst. ShowsJson s s.program.name.now (λ _ _. AreImageSignatureMembers) W.contents
        files.now others.now out.old out.new worst) }
    ensures unwritten { IfErr result (λ status. IsUnwritten status) }
{
    if shown.is_json {
        return shown.files().show(rt, &shown.as_json(), files, others, out);
    }
    shown.files().show(rt, &shown.as_text(), files, others, out)
}
