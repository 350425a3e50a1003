//! Lists the entries of a fat file or the members of an archive, a line each; or writes the bytes of an entry to a file; or
//! writes a fat file.
//!
//! With `--json` the list is one object for each file, on a line. A line has the name of the cpu, or its numbers if it has none;
//! what the entry is; and its offset, size and alignment. The capabilities are in the top 8 bits of `cpusubtype`, and not in the
//! name. An entry is selected by its place in the list, or by its cpu. A fat file of 32 or of 64 bits is created from files as
//! `llvm-lipo -create` does, an entry is replaced as by `-replace`, or removed by its place. A file is written
//! under another name beside its target, and is renamed once it is whole.
#![tactic(auto)]

// Fat files: taken apart, written, and listed.
mod arguments;
mod commands;
mod created;
mod entry;
mod image_kind;
mod json;
mod laws;
mod listed;
mod made;
mod members;
mod new_file;
mod outside;
mod permissions;
mod refusal;
mod shown;
mod text;
mod thin;
mod verify;

// The list of an archive: a line for each member, and one for each symbol of its index.
mod archive;

ghost use Rattle.std.specs.Prelude.{◌≡◌, [], if◌then◌else◌, option_map, slice_get, Ok, Err, Some, IfErr, IfOk, OnOk};
ghost use Rattle.mach_cli.specs.Bounds.{limit_of};
ghost use Rattle.mach_cli.specs.FileTitles.{IsUnreadStatus};
ghost use Rattle.mach_cli.specs.Statuses.{IsStatus, IsUnwritten};
ghost use Rattle.mach_cli.specs.declared.cpu.Cpu.{Cpu};
ghost use Rattle.mach_cli.specs.declared.misuse.Misuse.TheVariants as misuses;
ghost use Rattle.mach_cli.specs.declared.word.NoText.{NoText};
ghost use Rattle.machfat.specs.Commands.{misplaced_option, option_in, shown_named};
ghost use Rattle.machfat.specs.OfCpu.{SaysCpu};
ghost use Rattle.machfat.specs.Same.{IsOther};
ghost use Rattle.machfat.specs.ShownFiles.{AreShownWhole, ShowsSelectedFiles};
ghost use Rattle.machfat.specs.declared.shown.Selected.{Selected};
ghost use Rattle.mach_fat_writer.specs.declared.form.Form.TheVariants.{Bits32, Bits64};

use arguments::{WIDE, Width};
use commands::{NAME, run_extract};
use mach_cli::{Call, Cpu, Files, Misuse, Options, Others, Program, Titled};
use mach_fat_writer::Form;
use made::{run_create, run_remove, run_replace};
use shown::{Selected, Shown};
use std::alloc::{AllocError, Global};
use std::io::{BufWriter, Write};
use std::process::ExitCode;
use thin::{cpu_in, run_thin};

// How many lines of a file are printed if no other limit is given.
const DEFAULT_LIMIT: usize = 10_000_000;

const PROGRAM: Program = Program {
    name: NAME,
    about: "machfat reads and writes fat files, with offsets of 32 or 64 bits, and lists
archives. The first word selects what it does.
",
    usage: "usage: machfat list [--json] [--limit N] [--names FILE] [-0] [--color WHEN]
                    FILE..
       machfat extract FILE INDEX|CPU OUT
       machfat thin FILE CPU OUT
       machfat members [--limit N] [--names FILE] [-0] [--color WHEN] FILE..
       machfat create [--fat64] OUT FILE..
       machfat replace FILE NEW OUT
       machfat remove FILE INDEX OUT
       machfat verify [--limit N] [--names FILE] [-0] [--color WHEN] FILE..
       machfat -h | --help | --version
CPU: a name, as arm64, or 0xCPUTYPE
",
    version: "machfat 0.3.0\n",
    options: Options {
        has_limit: true,
        has_files: true,
        has_json: true,
        ..Options::NONE
    },
    words: "  list                      print the entries of a fat file
  extract                   write the bytes of one entry, by its number or cpu
  thin                      write the bytes of the first entry for a cpu
  members                   print the members and symbols of archives
  create                    build a fat file from files
  replace                   replace the entries for the cpu of a file
  remove                    remove one entry
  verify                    print the layout faults of a fat file
",
    flags: "      --json                with list: print one JSON object per file
      --limit N             with list, members, verify: N lines per file at most
      --names FILE          with list, members, verify: read the files in FILE
      --fat64               with create: use 64-bit offsets and sizes
",
    examples: "  machfat list prog            the entries of a fat file
  machfat thin prog arm64 out  the image for one cpu, in a file
  machfat create prog x86 arm  a fat file of two images
",
};

fn main(rt: HostRuntime) -> ExitCode {
    ExitCode::from(match start(&rt) {
        Ok(status) | Err(status) => status,
    })
}

// Runs the program with its words.
fn start(rt: &HostRuntime) -> Result<u8, u8> {
    let words = PROGRAM.words(rt)?;
    let call = PROGRAM.call(rt, Width::NARROW, &words)?;
    let [word, given @ ..] = call.words.as_slice() else {
        return Err(PROGRAM.bad_usage(rt, Misuse::Missing("word")));
    };
    let is_wide = call.own.is_wide;
    match shown_by(word, call.format.is_json()) {
        Some(shown) if !is_wide => show_files(rt, &call, shown, given),
        _ => match misplaced(&call, word) {
            Some(misuse) => Err(PROGRAM.bad_usage(rt, misuse)),
            None => write_file(rt, word, form_for(is_wide), given),
        },
    }
}

// Returns what is shown of files, if the word is a command that shows them.
fn shown_by(word: &str, is_json: bool) -> Option<Shown>
    ensures { result ≡ shown_named word.now is_json }
{
    match word {
        "list" if is_json => Some(Shown::Object),
        "list" => Some(Shown::Records),
        "verify" if !is_json => Some(Shown::Faults),
        "members" if !is_json => Some(Shown::Members),
        _ => None,
    }
}

// Returns what the words of a command that writes a file have and may not have, if there is such: a word that is no text, or else
// an option.
fn misplaced<'a>(call: &Call<'a, Global, Width>, command: &str) -> Option<Misuse<'a>>
    ensures word { (word : NoText) → slice_get call.now.others.no_texts.items 0 ≡ Some word → result ≡ Some (misuses.NoText word) }
    ensures option { call.now.others.no_texts.items ≡ [] → option_in result ≡ misplaced_option call.now command.now }
{
    if let Some(word) = call.others.no_texts.first() {
        return Some(Misuse::NoText(*word));
    }
    match misplaced_option(call, command) {
        Some(option) => Some(Misuse::UnknownOption(option)),
        None => None,
    }
}

// Returns the first option of a call that its command, which writes a file, doesn't have, if there is one.
fn misplaced_option(call: &Call<'_, Global, Width>, command: &str) -> Option<&'static str>
    ensures { option_map (λ option. option.now) result ≡ misplaced_option call.now command.now }
{
    if call.format.is_json() {
        Some("--json")
    } else if call.own.is_wide && command != "create" {
        Some(WIDE)
    } else if call.limit.is_some() {
        Some("--limit")
    } else if !call.others.lists.is_empty() {
        Some("--names")
    } else if call.others.ends_with_nul {
        Some("-0")
    } else {
        None
    }
}

// Runs a command that writes a file. Except for `create`, the first of the given names is that of a fat file, and the last is
// that of the target.
fn write_file(rt: &HostRuntime, word: &str, form: Form, given: &[&str]) -> Result<u8, u8> {
    match word {
        "create" => create_file(rt, form, given),
        "extract" => extract_entry(rt, given),
        "thin" => thin_file(rt, given),
        "replace" => replace_entries(rt, given),
        "remove" => remove_entry(rt, given),
        _ => Err(PROGRAM.bad_usage(rt, Misuse::UnknownWord(word))),
    }
}

// Shows files in order, and returns the worst status.
fn show_files(
    rt: &HostRuntime,
    call: &Call<'_, Global, Width>,
    shown: Shown,
    files: &[&str],
) -> Result<u8, u8> {
    if files.is_empty() && call.others.is_empty() {
        return Err(PROGRAM.bad_usage(rt, Misuse::Missing("FILE")));
    }
    let mut out = PROGRAM.output(rt, call.color, call.format)?;
    show_call(rt, call, shown, files, &mut out)
}

// Returns what a call selects of each file: this, and as many lines as its limit says.
fn selected_by(call: &Call<'_, Global, Width>, shown: Shown) -> Selected
    ensures { result ≡ record { shown = shown; limit = limit_of call.now.limit 10000000 } }
{
    Selected {
        shown,
        limit: call.limit.unwrap_or(DEFAULT_LIMIT),
    }
}

// Shows what a call selects of files, and of those that it names in other ways, and returns the worst status.
fn show_call<W: Write + Drop>(
    rt: &HostRuntime,
    call: &Call<'_, Global, Width>,
    shown: Shown,
    files: &[&str],
    out: &mut BufWriter<Titled<W>>,
) -> Result<u8, u8>
    ensures shown { let selected : Selected = record { shown = shown; limit = limit_of call.now.limit 10000000 } in
        IfOk result (ShowsSelectedFiles selected W.contents files.now call.now.others out.old out.new) }
    ensures unwritten { IfErr result (λ status. IsUnwritten status) }
{
    show(rt, selected_by(call, shown), files, &call.others, out)
}

// Shows what is selected of files in order, and returns the worst status. The status of a failed write is an error.
fn show<W: Write + Drop>(
    rt: &HostRuntime,
    selected: Selected,
    files: &[&str],
    others: &Others<'_, Global>,
    out: &mut BufWriter<Titled<W>>,
) -> Result<u8, u8>
    ensures shown { IfOk result (ShowsSelectedFiles selected W.contents files.now others.now out.old out.new) }
    ensures unwritten { IfErr result (λ status. IsUnwritten status) }
{
    shown_whole(selected.shown).show(rt, &selected, files, others, out)
}

// Returns how files are shown: each as a whole, whatever its cpu.
fn shown_whole(shown: Shown) -> Files
    ensures { AreShownWhole shown result }
{
    Files {
        program: PROGRAM,
        cpu: Cpu::Any,
        has_titles: !matches!(shown, Shown::Object),
        has_parts: false,
        limit: usize::MAX,
    }
}

// Returns the form of a file to create.
fn form_for(is_wide: bool) -> Form
    ensures { result ≡ (if is_wide then Bits64 else Bits32) }
{
    if is_wide { Form::Bits64 } else { Form::Bits32 }
}

// Creates a fat file, whose name is the first of some words, from the others.
fn create_file(rt: &HostRuntime, form: Form, words: &[&str]) -> Result<u8, u8> {
    let [target, names @ ..] = words else {
        return Err(PROGRAM.bad_usage(rt, Misuse::Missing("OUT")));
    };
    if names.is_empty() {
        return Err(PROGRAM.bad_usage(rt, Misuse::Missing("FILE")));
    }
    let files = read_all(rt, names)?;
    let Ok(inputs) = slices(rt.alloc(), &files) else {
        return Err(PROGRAM.out_of_memory(rt));
    };
    Ok(run_create(
        rt,
        rt.alloc(),
        form,
        names,
        &inputs,
        target,
        &mut rt.stderr(),
    ))
}

// Reads the bytes of some files, in order.
fn read_all(rt: &HostRuntime, names: &[&str]) -> Result<Vec<Vec<u8>>, u8> {
    let mut files = Vec::new(rt.alloc());
    for name in names {
        let bytes = PROGRAM.read(rt, name)?;
        if files.push(bytes).is_err() {
            return Err(PROGRAM.out_of_memory(rt));
        }
    }
    Ok(files)
}

// Returns the same bytes, borrowed.
fn slices(alloc: Global, files: &[Vec<u8>]) -> Result<Vec<&[u8]>, AllocError> {
    let mut inputs = Vec::with_capacity(alloc, files.len())?;
    for bytes in files {
        inputs.push(bytes.as_slice())?;
    }
    Ok(inputs)
}

// Returns the index that a word spells.
fn index_in(rt: &HostRuntime, word: &str) -> Result<usize, u8> {
    match word.parse::<usize>() {
        Ok(index) => Ok(index),
        Err(_) => Err(PROGRAM.bad_usage(rt, Misuse::NoNumber(word))),
    }
}

fn extract_entry(rt: &HostRuntime, given: &[&str]) -> Result<u8, u8> {
    let [file, which, target] = given else {
        return Err(PROGRAM.bad_usage(rt, Misuse::Missing("FILE, INDEX|CPU and OUT")));
    };
    match which.parse::<usize>() {
        Ok(index) => extract_at(rt, file, index, target),
        Err(_) => extract_for(rt, file, which, target),
    }
}

// Writes the entry with an index, and returns the exit status. The error is the status if the file can't be read.
fn extract_at(rt: &HostRuntime, file: &str, index: usize, target: &str) -> Result<u8, u8>
    ensures status { IfOk result (λ status. IsStatus status) }
    ensures apart { result ≡ Ok 0 → IsOther file.now target.now }
    ensures unread { IfErr result IsUnreadStatus }
{
    let bytes = PROGRAM.read(rt, file)?;
    Ok(run_extract(
        rt,
        rt.alloc(),
        file,
        &bytes,
        index,
        target,
        &mut rt.stderr(),
    ))
}

// Writes the first entry for the cpu that a word says, and returns the exit status. The error is the status if the word says no
// cpu, or the file can't be read.
fn extract_for(rt: &HostRuntime, file: &str, word: &str, target: &str) -> Result<u8, u8>
    ensures misused { ((cpu : Cpu) → SaysCpu word.now cpu → ⊥) → result ≡ Err 2 }
    ensures status { IfOk result (λ status. IsStatus status) }
    ensures said { OnOk result ((cpu : Cpu) × SaysCpu word.now cpu) }
    ensures apart { result ≡ Ok 0 → IsOther file.now target.now }
    ensures unread { IfErr result IsUnreadStatus }
{
    let Some(cpu) = cpu_in(word) else {
        return Err(PROGRAM.bad_usage(rt, Misuse::NoCpu(word)));
    };
    let bytes = PROGRAM.read(rt, file)?;
    Ok(run_thin(rt, rt.alloc(), file, &bytes, cpu, target, &mut rt.stderr()))
}

fn thin_file(rt: &HostRuntime, given: &[&str]) -> Result<u8, u8> {
    let [file, cpu, target] = given else {
        return Err(PROGRAM.bad_usage(rt, Misuse::Missing("FILE, CPU and OUT")));
    };
    extract_for(rt, file, cpu, target)
}

fn replace_entries(rt: &HostRuntime, given: &[&str]) -> Result<u8, u8> {
    let [file, new, target] = given else {
        return Err(PROGRAM.bad_usage(rt, Misuse::Missing("FILE, NEW and OUT")));
    };
    let bytes = PROGRAM.read(rt, file)?;
    let other = PROGRAM.read(rt, new)?;
    Ok(run_replace(
        rt,
        rt.alloc(),
        &[file, new],
        &bytes,
        &other,
        target,
        &mut rt.stderr(),
    ))
}

fn remove_entry(rt: &HostRuntime, given: &[&str]) -> Result<u8, u8> {
    let [file, index, target] = given else {
        return Err(PROGRAM.bad_usage(rt, Misuse::Missing("FILE, INDEX and OUT")));
    };
    let index = index_in(rt, index)?;
    let bytes = PROGRAM.read(rt, file)?;
    Ok(run_remove(
        rt,
        rt.alloc(),
        &[file],
        &bytes,
        index,
        target,
        &mut rt.stderr(),
    ))
}
