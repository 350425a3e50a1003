//! Prints what dyld fixes up in a Mach-O file, a line each: the rebases of the opcodes in order, then the binds of the bind
//! opcodes, then the weak binds, then the fixups of the chains, or those of them that are selected. Of a fat file it prints those
//! of each entry, under a line that says which. It prints at most as many of them as `--limit` says, and a line after those of an
//! image that has more. With `--json` it writes one object for each file instead, on a line.
//!
//! `--rebases` selects every rebase, and `--binds` every bind, both of the opcodes and of the chains; `--weak` selects the weak
//! binds, and `--chains` every fixup of the chains. So a number is shown with `--chains` alone, or if nothing is selected. A line
//! shows a fixup of the chains once, in their order. In an object the array `rebases` has the rebases of the opcodes and then
//! those of the chains, `binds` the same of the binds, and `chains` every fixup of the chains: if nothing is selected, a rebase
//! or a bind of the chains is in two arrays.
//!
//! A line has the address, the names of the segment and of the section, and what is stored there: `bind` with the short name of the
//! image that the symbol comes from and the symbol's name, the addend if it isn't 0, and flags; `weak` with a name, addend and
//! flags; `rebase` with the segment and the section that hold the address that moves with the image, the address, the symbol there
//! with the distance from it, if there is one, and flags if the pointer is signed; or `value` with a number. A strong definition of
//! the image's own has a line `- - - strong -` with its name. With `--chains` the line of a fixup of the chains ends with the
//! pointer that is stored there; an object always has it, as `raw`. Above the first line is one with the names of the columns.
//!
//! The short name of a library is the last component of its path, without `.dylib` at its end. Other names are `itself`,
//! `main-executable`, `flat` for any image, and `weak-lookup`. The ordinal takes its place if the image's list has no library with
//! it, or if the name would be empty. An object has the ordinal as `library`, and the name, if there is one, as `from`.
//!
//! Its lines differ from those of `llvm-objdump --rebase --bind --lazy-bind --weak-bind --dyld-info`:
//! - A library is printed by its short name.
//! - A rebase of the opcodes has its target with the symbol there, and its type unless it is a pointer.
//! - A count of 0 gives no line, and a place has its segment even if no section holds all of it.
//! - An addend is printed in decimal, with its sign, and it is the sum of the table's and the pointer's.
//! - A bind or a fixup that can't be read has a line with the error. Those after it in the opcodes or in the chains can't be
//!   read, unless it is a bind and only its import can't be read. A fixup of the chains whose kind can't be read has the line
//!   if rebases, binds or chains are selected.
#![tactic(auto)]

ghost use Rattle.std.specs.Prelude.{◌≡◌, true, false, IfOk};
ghost use Rattle.mach_cli.specs.Calls.{is_json};
ghost use Rattle.mach_cli.specs.ShownCalls.{ShowsJson, ShowsText};
ghost use Rattle.machfixups.specs.Calls.{AreFixupFiles, ShowsFixupLines, ShowsFixupObjects};
ghost use Rattle.machfixups.specs.ImageLines.{image_pointer_lines};
ghost use Rattle.machfixups.specs.JsonImages.{image_pointer_members};

mod arguments;
mod fields;
mod fixup_view;
mod headed;
mod json;
mod kept_fixups;
mod laws;
mod lists;
mod members;
mod row;
mod rows;
mod stored_pointers;
mod target_symbols;

use fixup_view::FixupLines;
use json::FixupObjects;
use mach_cli::{Call, ImageFiles, Misuse, Options, Others, Program, Titled};
use rows::Selection;
use std::alloc::Global;
use std::io::{BufWriter, Write};
use std::process::ExitCode;

// How many lines of a file are printed if no limit is given.
const DEFAULT_LIMIT: usize = 10_000_000;

const PROGRAM: Program = Program {
    name: "machfixups",
    about: "machfixups prints each place of Mach-O files that dyld changes, a line each: the
rebases, the binds, the weak binds and the chained fixups.
",
    usage: "usage: machfixups [--rebases] [--binds] [--weak] [--chains] [--json] [--limit N]
                  [--arch NAME | --cputype 0xN] [--lossy] [--names FILE [-0]]
                  [--color WHEN] FILE..
       machfixups -h | --help | --version
",
    version: "machfixups 0.3.0\n",
    options: Options::OF_IMAGES,
    words: "",
    flags: "      --rebases             print the rebases
      --binds               print the binds
      --weak                print the weak binds of the opcodes
      --chains              print the chained fixups
",
    examples: "  machfixups prog                       all of these
  machfixups --binds --arch arm64 prog  the binds of the image for one cpu
",
};

fn main(rt: HostRuntime) -> ExitCode {
    ExitCode::from(match start(&rt) {
        Ok(status) | Err(status) => status,
    })
}

// Runs the program with its words.
fn start(rt: &HostRuntime) -> Result<u8, u8> {
    let words = PROGRAM.words(rt)?;
    let call = PROGRAM.call(rt, Selection::NONE, &words)?;
    show_files(rt, &call)
}

// Shows the selected lists of files in order, and returns the worst status.
fn show_files(rt: &HostRuntime, call: &Call<'_, Global, Selection>) -> Result<u8, u8> {
    if call.words.is_empty() && call.others.is_empty() {
        return Err(PROGRAM.bad_usage(rt, Misuse::Missing("FILE")));
    }
    let mut out = PROGRAM.output(rt, call.color, call.format)?;
    show_call(rt, call, &mut out)
}

// Shows what a call selects of all files that it names, and returns the worst status.
fn show_call<W: Write + Drop>(
    rt: &HostRuntime,
    call: &Call<'_, Global, Selection>,
    out: &mut BufWriter<Titled<W>>,
) -> Result<u8, u8>
    ensures lines { is_json call.now.format ≡ false → IfOk result (ShowsFixupLines W.contents call.now out.old out.new) }
    ensures objects { is_json call.now.format ≡ true → IfOk result (ShowsFixupObjects W.contents call.now out.old out.new) }
{
    show(rt, &shown_by(call), &call.words, &call.others, out)
}

// Returns how a call shows its files: the selected lists, as lines or as objects.
fn shown_by(call: &Call<'_, Global, Selection>) -> ImageFiles<FixupLines, FixupObjects>
    ensures { AreFixupFiles call.now result }
{
    let selection = call.own;
    let (lines, objects) = (FixupLines { selection }, FixupObjects { selection });
    ImageFiles::of(PROGRAM, call, DEFAULT_LIMIT, lines, objects)
}

// Shows files in order, and returns the worst status.
fn show<W: Write + Drop>(
    rt: &HostRuntime,
    shown: &ImageFiles<FixupLines, FixupObjects>,
    files: &[&str],
    others: &Others<'_, Global>,
    out: &mut BufWriter<Titled<W>>,
) -> Result<u8, u8>
    ensures text { let s = shown.now in s.is_json ≡ false
        → IfOk result (ShowsText s s.program.name.now (image_pointer_lines s.lines.selection) W.contents files.now others.now out.old out.new) }
    ensures json { let s = shown.now in s.is_json ≡ true
        → IfOk result (ShowsJson s s.program.name.now (image_pointer_members s.objects.selection) W.contents
        files.now others.now out.old out.new) }
{
    let call = shown.files();
    if shown.is_json {
        call.show(rt, &shown.as_json(), files, others, out)
    } else {
        call.show(rt, &shown.as_text(), files, others, out)
    }
}
