//! Prints a summary of a Mach-O image: what it is, how it is signed, and how many items its lists have.
//!
//! With a word it prints one list instead, an item a line: load commands, function starts, stubs and pointers, indirect symbols,
//! data in code, linker options, tools, notes, providers of symbols, libraries, the own name, rebases, weak binds, segments, sections,
//! UUIDs, run paths, the entry point, the header, how it is hardened, relocations, strings, initializers, exports or imports. Of a fat file it prints that of
//! each entry, or of the entries for one cpu, under a line that says which. With `at` and an address it prints what each image has there.
//!
//! It prints at most as many rows of a file as `--limit` says, and a line after those of an image that has more. A row that can't
//! be read is a line with the error. With `--json` it writes one object for each file instead, on a line.
#![tactic(auto)]

ghost use Rattle.std.specs.Prelude.{◌≡◌, ◌∷◌, [], Err, Some, false, true, option_map, IfOk, IfSome};
ghost use Rattle.mach_cli.specs.Calls.{is_json};
ghost use Rattle.mach_cli.specs.ShownCalls.{ShowsJson, ShowsText};
ghost use Rattle.machinfo.specs.Calls.{last_address, AreInfoFiles, ShowsInfoLines, ShowsInfoObjects};
ghost use Rattle.machinfo.specs.ImageLines.{AreInfoLines, AreInfoMembers};
ghost use Rattle.machinfo.specs.Words as words;

// The summary of an image.
mod counts;
mod fact;
mod json;
mod members;
mod part_lines;
mod segments;
mod signed;
mod state;
mod summary;
mod text;
mod views;

// The lists of an image: an item is a row, whose fields are shown as a line or as an object of JSON.
mod command_fields;
mod command_row_fields;
mod command_rows;
mod command_sections;
mod commands;
mod export_rows;
mod exports;
mod imports;
mod initializers;
mod list;
mod list_lines;
mod lists;
mod notes;
mod own_names;
mod part_fields;
mod parts;
mod providers;
mod raw;
mod registers;
mod relocation_fields;
mod relocations;
mod section_bytes;
mod sections;
mod strings;
mod verdicts;

// What a call selects.
mod arguments;
mod selection;
mod word;

use crate::arguments::InfoOptions;
use crate::raw::write_raw;
use crate::section_bytes::SectionName;
use crate::selection::{Selection, has_small_letters, prints_elsewhere, selection_of};
use crate::word::{Choice, Word};
use json::InfoObjects;
use mach_cli::{Call, ImageFiles, Misuse, Names, Options, Others, Program, Titled};
use std::alloc::Global;
use std::io;
use std::io::{BufWriter, IsTerminal, Write};
use std::process::ExitCode;
use views::InfoLines;

/// How many rows of a file are printed if no limit is given.
const DEFAULT_LIMIT: usize = 10_000_000;

const PROGRAM: Program = Program {
    name: "machinfo",
    about: "machinfo prints a summary of Mach-O files, or with a word one of their lists, a
line for each item.
",
    usage: "usage: machinfo [--headings] [--explain] [--json] [--limit N]
                [--arch NAME | --cputype 0xN] [--lossy] [--names FILE] [-0]
                [--color WHEN] [WORD] FILE..
       machinfo at ADDRESS | --at ADDRESS [--json]
                [--arch NAME | --cputype 0xN] [--lossy] [--names FILE] [-0]
                [--color WHEN] FILE..
       machinfo bytes SEGMENT SECTION [--json] [--limit N]
                [--arch NAME | --cputype 0xN] [--lossy] [--names FILE] [-0]
                [--color WHEN] FILE..
       machinfo bytes SEGMENT SECTION --raw [--arch NAME | --cputype 0xN] FILE
       machinfo -h | --help | --version
WORD: commands, starts, slots, indirect, data, options, tools, notes, providers,
      libraries, id, rebases, weak, segments, sections, uuid, rpaths,
      entrypoint, header, security, relocations, strings, inits, exports,
      imports
",
    version: "machinfo 0.3.0\n",
    options: Options {
        has_address: true,
        ..Options::OF_IMAGES
    },
    words: "  at ADDRESS                print what each image has at an address
  bytes SEGMENT SECTION     print the bytes of a section
  commands                  print the load commands with their fields
  starts                    print the addresses of the functions
  slots                     print the stubs and symbol pointers
  indirect                  print the indirect symbol table
  data                      print the data in code
  options                   print the linker options
  tools                     print the build tools
  notes                     print the notes
  providers                 print which library provides each undefined symbol
  libraries                 print the libraries, their versions and their use
  id                        print the name and versions of a library itself
  rebases                   print the rebases
  weak                      print the weak binds
  segments                  print the segments
  sections                  print the sections of all segments
  uuid                      print the UUIDs
  rpaths                    print the run paths
  entrypoint                print where the image begins to run
  header                    print the header
  security                  print how the image is hardened
  relocations               print the relocations of the sections
  strings                   print the strings of the sections
  inits                     print the functions that dyld calls before main
  exports                   print what the image exports
  imports                   print what dyld binds
",
    flags: "      --headings            print a heading before the lines of a list
      --explain             print what turns each verdict of security on
      --limit N             print at most N rows per file
      --raw                 write only the bytes of the section, as they are
",
    examples: "  machinfo prog                 a summary
  machinfo imports prog         what dyld binds
  machinfo at 0x100000460 prog  what a program has at an address
",
};

fn main(rt: HostRuntime) -> ExitCode {
    ExitCode::from(match start(&rt) {
        Ok(status) | Err(status) => status,
    })
}

// Runs the program with its words.
fn start(rt: &HostRuntime) -> Result<u8, u8> {
    let words = PROGRAM.words(rt)?;
    let call = PROGRAM.call(rt, InfoOptions::none(), &words)?;
    answer(rt, &call)
}

// Runs a parsed call: writes bytes as they are, or shows each file.
fn answer(rt: &HostRuntime, call: &Call<'_, Global, InfoOptions>) -> Result<u8, u8>
    ensures no_objects { call.now.own.is_raw ≡ true → is_json call.now.format ≡ true → result ≡ Err 2 }
{
    if call.own.is_raw {
        return write_section(rt, call);
    }
    let mut out = PROGRAM.output(rt, call.color, call.format)?;
    show_call(rt, call, rt.stdout().is_terminal(), &mut out)
}

// Returns the section and the one file that a call with `--raw` names.
fn section_and_file<'a>(
    call: &Call<'a, Global, InfoOptions>,
) -> Result<(SectionName, &'a str), Misuse<'a>>
    ensures { IfOk result (λ named. words.selected (last_address call.now) call.now.words.items
        ≡ Some (Some (Choice.Word (Word.Bytes named.0)), named.1 ∷ [])) }
{
    let selection = selection_of(last_address(call), call.words.as_slice())?;
    match (selection.choice, selection.files) {
        (Some(Choice::Word(Word::Bytes(name))), [file]) if call.others.is_empty() => {
            Ok((name, *file))
        }
        _ => Err(Misuse::Missing("bytes SEGMENT SECTION with a single FILE")),
    }
}

// Writes the bytes of the section that a call names, of its one file, and returns the status.
fn write_section(rt: &HostRuntime, call: &Call<'_, Global, InfoOptions>) -> Result<u8, u8>
    ensures no_objects { is_json call.now.format ≡ true → result ≡ Err 2 }
{
    if call.format.is_json() {
        return Err(PROGRAM.bad_usage(rt, Misuse::Together("--raw and --json")));
    }
    let (name, file) = match section_and_file(call) {
        Ok(named) => named,
        Err(misuse) => return Err(PROGRAM.bad_usage(rt, misuse)),
    };
    let Ok(mut out) = BufWriter::new(rt.alloc(), io::writer(rt)) else {
        return Err(PROGRAM.out_of_memory(rt));
    };
    let bytes = PROGRAM.read(rt, file)?;
    let names = Names {
        program: PROGRAM.name,
        file,
    };
    Ok(write_raw(
        rt.alloc(),
        call.cpu,
        &name,
        names,
        &bytes,
        &mut out,
        &mut rt.stderr(),
    ))
}

// Returns the last address after `--at`.
fn last_address(call: &Call<'_, Global, InfoOptions>) -> Option<u64>
    ensures { result ≡ last_address call.now }
{
    call.addresses.last().copied()
}

// Shows what the arguments of a call select, of all files that it names, perhaps on a terminal, and returns the worst status.
fn show_call<W: Write + Drop>(
    rt: &HostRuntime,
    call: &Call<'_, Global, InfoOptions>,
    is_terminal: bool,
    out: &mut BufWriter<Titled<W>>,
) -> Result<u8, u8>
    ensures lines { is_json call.now.format ≡ false → IfOk result (ShowsInfoLines W.contents is_terminal call.now out.old out.new) }
    ensures objects { is_json call.now.format ≡ true → IfOk result (ShowsInfoObjects W.contents is_terminal call.now out.old out.new) }
{
    let words = call.words.as_slice();
    if call.reads_addresses {
        return Err(PROGRAM.bad_usage(rt, Misuse::NoAddress("-")));
    }
    let selection = match selection_of(last_address(call), words) {
        Ok(selection) => selection,
        Err(misuse) => return Err(PROGRAM.bad_usage(rt, misuse)),
    };
    if selection.files.is_empty() && call.others.is_empty() {
        return Err(PROGRAM.bad_usage(rt, Misuse::Missing("FILE")));
    }
    if let Some(misuse) = wrong_word(rt, selection) {
        return Err(PROGRAM.bad_usage(rt, misuse));
    }
    let shown = shown_by(call, selection.choice, is_terminal);
    show(rt, &shown, selection.files, &call.others, out)
}

// Returns what is wrong with a first file before others, if nothing is selected: it is of small letters alone, and it is a list of
// another program or similar to a word.
fn wrong_word<'a>(rt: &HostRuntime, selection: Selection<'_, 'a>) -> Option<Misuse<'a>>
    ensures { IfSome result (words.HasWrongWord selection.entry.choice selection.entry.files.now) }
{
    let [first, _, ..] = selection.files else {
        return None;
    };
    if selection.choice.is_some() || !has_small_letters(first.as_bytes()) {
        return None;
    }
    if let Some(instead) = prints_elsewhere(first) {
        return Some(Misuse::NoList {
            word: first,
            instead,
        });
    }
    let misuse = Misuse::UnknownWord(first);
    let meant = PROGRAM.meant(rt.alloc(), misuse);
    if meant.is_some() { Some(misuse) } else { None }
}

// Returns how a call shows its files: what it selects, or else the summary, as lines or as objects. A terminal has headings.
fn shown_by(
    call: &Call<'_, Global, InfoOptions>,
    choice: Option<Choice>,
    is_terminal: bool,
) -> ImageFiles<InfoLines, InfoObjects>
    ensures { AreInfoFiles is_terminal call.now choice result }
{
    let lines = InfoLines {
        choice: explained(call.own.is_explained, choice),
        has_headings: call.own.has_headings || is_terminal,
    };
    ImageFiles::of(PROGRAM, call, DEFAULT_LIMIT, lines, InfoObjects { choice })
}

// Returns what is shown in place of a choice, if items are explained.
fn explained(is_explained: bool, choice: Option<Choice>) -> Option<Choice>
    ensures { result ≡ option_map (words.explained_choice is_explained) choice }
{
    Some(choice?.explained(is_explained))
}

// Shows files in order, and returns the worst status.
fn show<W: Write + Drop>(
    rt: &HostRuntime,
    shown: &ImageFiles<InfoLines, InfoObjects>,
    files: &[&str],
    others: &Others<'_, Global>,
    out: &mut BufWriter<Titled<W>>,
) -> Result<u8, u8>
    ensures text { let s = shown.now in s.is_json ≡ false
        → IfOk result (ShowsText s s.program.name.now (AreInfoLines s.lines.has_headings s.lines.choice) W.contents files.now others.now out.old out.new) }
    ensures json { let s = shown.now in s.is_json ≡ true
        → IfOk result (ShowsJson s s.program.name.now (AreInfoMembers s.objects.choice) W.contents files.now others.now out.old out.new) }
{
    let call = shown.files();
    if shown.is_json {
        call.show(rt, &shown.as_json(), files, others, out)
    } else {
        call.show(rt, &shown.as_text(), files, others, out)
    }
}
