//! Prints the symbols of a Mach-O file, a line each, as `nm` does: the value, a letter for what the symbol is, and its name. They
//! are sorted by name, without debugging entries; with `-ap` it prints all in table order. Of a fat file it prints those of each
//! entry, or of the entries for one cpu, under the heading that `llvm-nm` has. Options of `nm` select other symbols, another order,
//! or another form of lines. With `--json` it writes one object for each file instead, on a line. With `--at` it prints what each
//! image has at addresses: the section, the nearest symbol and the function of each.
//!
//! Its lines differ from those of `llvm-nm`:
//! - A symbol whose record or name can't be read has a line with the error, after all others if they are sorted. `llvm-nm` prints
//!   `bad string index` for a name outside the bytes, and a name that is not UTF-8 as it is.
//! - A debugging entry is printed as one whatever its other bits are. In `llvm-nm` one with the bits of `N_ABS`, as `N_FNAME`, is
//!   an absolute symbol, and one with the bit `N_EXT` may be undefined.
//! - An indirect symbol (`N_INDR`) has its value, the offset of the other symbol's name. `llvm-nm` prints blanks, and the other
//!   name after its own.
//! - `__text` of `__TEXT_EXEC`, in a kernel extension, is a section like others.
//! - Nothing is printed of an image without symbols, on neither output.
//! - Files that `llvm-nm` refuses as malformed are printed if the library opens them.
#![tactic(auto)]

ghost use Rattle.std.specs.Prelude.{◌≡◌, false, true, IfOk};
ghost use Rattle.mach_cli.specs.AddressLines.{AreAddressLines};
ghost use Rattle.mach_cli.specs.AddressObjects.{AreAddressMembers};
ghost use Rattle.mach_cli.specs.Calls.{has_at, is_json};
ghost use Rattle.mach_cli.specs.ShownCalls.{ShowsJson, ShowsNm};
ghost use Rattle.machsyms.specs.Calls.{AreAddressFiles, AreSymbolFiles, ShowsLinesAt, ShowsObjectsAt, ShowsSymbolLines, ShowsSymbolObjects};
ghost use Rattle.machsyms.specs.ImageLines.{AreSelectedLines};
ghost use Rattle.machsyms.specs.JsonSymbols.{AreSelectedMembers};

// Which symbols are selected and shown, and how.
mod arguments;
mod json;
mod laws;
mod letters;
mod lines;
mod listed;
mod members;
mod order;
mod print;
mod selection;
mod setting;
mod stabs;
mod symbol_view;
mod text;

// The words of `nm -m` for a symbol.
mod nm;

use arguments::SymbolOptions;
use json::SymbolObjectsOf;
use mach_cli::{
    AddressLinesOf, AddressObjectsOf, Call, ImageFiles, Misuse, Options, Others, Program, Titled,
};
use std::alloc::Global;
use std::io::{BufWriter, Write};
use std::process::ExitCode;
use symbol_view::SymbolLinesOf;

const PROGRAM: Program = Program {
    name: "machsyms",
    about: "machsyms prints the symbols of Mach-O files, a line each, as nm does with the
same options. By default it sorts by name and shows no debugging symbols.
",
    usage: "usage: machsyms [-AUagjmnoprux] [--raw] [--json] [--limit N]
                [--arch NAME | --cputype 0xN] [--lossy] [--names FILE [-0]]
                [--color WHEN] FILE..
       machsyms --at ADDRESS [--at ADDRESS].. [--load-address A] [-A]
                [--raw] [--json] [--arch NAME | --cputype 0xN] [--lossy]
                [--names FILE [-0]] [--color WHEN] FILE..
       machsyms -h | --help | --version
",
    version: "machsyms 0.3.0\n",
    options: Options {
        has_address: true,
        has_load_address: true,
        ..Options::OF_IMAGES
    },
    words: "",
    flags: "  -a, --debug-syms          show debugging symbols too
  -g, --extern-only         show only external symbols
  -u, --undefined-only      show only undefined symbols, by name alone
  -U, --defined-only        show only defined symbols
  -n, --numeric-sort        sort by address
  -r, --reverse-sort        reverse the order
  -p, --no-sort             keep the order of the symbol table
  -j, --format=just-symbols print only the names
  -m, --format=darwin       describe each symbol in words
  -x                        print the fields in hexadecimal
  -A, --print-file-name     print the file name before each line
  -o                        print the file name before each line
      --raw                 print names as they are in the file
      --limit N             print at most N symbols per file
      --at ADDRESS          print what is at an address; - reads more from stdin
      --load-address A      the address at which an image's first byte is loaded
",
    examples: "  machsyms -gU libz.dylib         what a library defines for others
  machsyms --at 0x100000460 prog  what a program has at an address
  machsyms --json -ap prog        all symbols as JSON, in the table's order
",
};

fn main(rt: HostRuntime) -> ExitCode {
    ExitCode::from(match start(&rt) {
        Ok(status) | Err(status) => status,
    })
}

// Runs the program with its words.
fn start(rt: &HostRuntime) -> Result<u8, u8> {
    let words = PROGRAM.words(rt)?;
    let mut call = PROGRAM.call(rt, SymbolOptions::none(), &words)?;
    show_files(rt, &mut call)
}

// Shows the selected symbols of files in order, and returns the worst status.
fn show_files(rt: &HostRuntime, call: &mut Call<'_, Global, SymbolOptions>) -> Result<u8, u8> {
    if call.words.is_empty() && call.others.is_empty() {
        return Err(PROGRAM.bad_usage(rt, Misuse::Missing("FILE")));
    }
    if call.load_address.is_some() && !call.has_at() {
        return Err(PROGRAM.bad_usage(rt, Misuse::Missing("--at ADDRESS")));
    }
    PROGRAM.read_addresses(rt, call)?;
    let mut out = PROGRAM.output(rt, call.color, call.format)?;
    show_call(rt, call, &mut out)
}

// Shows all files that a call names, by the addresses or by the letters that it has, and returns the worst status.
fn show_call<W: Write + Drop>(
    rt: &HostRuntime,
    call: &Call<'_, Global, SymbolOptions>,
    out: &mut BufWriter<Titled<W>>,
) -> Result<u8, u8>
    ensures lines { has_at call.now ≡ false → is_json call.now.format ≡ false → IfOk result (ShowsSymbolLines W.contents call.now out.old out.new) }
    ensures objects { has_at call.now ≡ false → is_json call.now.format ≡ true → IfOk result (ShowsSymbolObjects W.contents call.now out.old out.new) }
    ensures lines_at { has_at call.now ≡ true → is_json call.now.format ≡ false → IfOk result (ShowsLinesAt W.contents call.now out.old out.new) }
    ensures objects_at { has_at call.now ≡ true → is_json call.now.format ≡ true → IfOk result (ShowsObjectsAt W.contents call.now out.old out.new) }
{
    let (files, others) = (&call.words, &call.others);
    if call.has_at() {
        show_at(rt, &shown_at(call), files, others, out)
    } else {
        show(rt, &shown_by(call), files, others, out)
    }
}

// Returns how a call shows its files: the symbols that letters select, as lines or as objects.
fn shown_by(call: &Call<'_, Global, SymbolOptions>) -> ImageFiles<SymbolLinesOf, SymbolObjectsOf>
    ensures { AreSymbolFiles call.now result }
{
    let SymbolOptions { letters, is_raw } = call.own;
    let lines = SymbolLinesOf { letters, is_raw };
    let objects = SymbolObjectsOf { letters, is_raw };
    ImageFiles {
        has_titles: !letters.has_file,
        ..ImageFiles::of(PROGRAM, call, usize::MAX, lines, objects)
    }
}

// Returns how a call shows its files by addresses: what each image has there, as lines or as objects.
fn shown_at<'t>(
    call: &'t Call<'_, Global, SymbolOptions>,
) -> ImageFiles<AddressLinesOf<'t>, AddressObjectsOf<'t>>
    ensures { AreAddressFiles call.now result }
{
    let SymbolOptions { letters, is_raw } = call.own;
    let has_file = letters.has_file;
    let (addresses, load_address) = (call.addresses.as_slice(), call.load_address);
    let lines = AddressLinesOf {
        addresses,
        load_address,
        has_file,
        is_raw,
    };
    let arrays = AddressObjectsOf {
        addresses,
        load_address,
    };
    ImageFiles {
        has_titles: !has_file,
        ..ImageFiles::of(PROGRAM, call, usize::MAX, lines, arrays)
    }
}

// Shows files in order, and returns the worst status.
fn show<W: Write + Drop>(
    rt: &HostRuntime,
    shown: &ImageFiles<SymbolLinesOf, SymbolObjectsOf>,
    files: &[&str],
    others: &Others<'_, Global>,
    out: &mut BufWriter<Titled<W>>,
) -> Result<u8, u8>
    ensures text { let s = shown.now in s.is_json ≡ false
        → IfOk result (ShowsNm s s.program.name.now (AreSelectedLines s.lines.letters s.lines.is_raw) W.contents files.now others.now out.old out.new) }
    ensures json { let s = shown.now in s.is_json ≡ true
        → IfOk result (ShowsJson s s.program.name.now (AreSelectedMembers s.objects.letters s.objects.is_raw) W.contents
        files.now others.now out.old out.new) }
{
    let call = shown.files();
    if shown.is_json {
        call.show(rt, &shown.as_json(), files, others, out)
    } else {
        call.show_as_nm(rt, &shown.as_nm(), files, others, out)
    }
}

// Shows what the images of files have at addresses, in order, and returns the worst status.
fn show_at<W: Write + Drop>(
    rt: &HostRuntime,
    shown: &ImageFiles<AddressLinesOf<'_>, AddressObjectsOf<'_>>,
    files: &[&str],
    others: &Others<'_, Global>,
    out: &mut BufWriter<Titled<W>>,
) -> Result<u8, u8>
    ensures text { let s = shown.now in s.is_json ≡ false
        → IfOk result (ShowsNm s s.program.name.now (AreAddressLines s.lines.load_address s.lines.addresses.now s.lines.has_file s.lines.is_raw)
        W.contents files.now others.now out.old out.new) }
    ensures json { let s = shown.now in s.is_json ≡ true
        → IfOk result (ShowsJson s s.program.name.now (AreAddressMembers s.objects.load_address s.objects.addresses.now) W.contents
        files.now others.now out.old out.new) }
{
    let call = shown.files();
    if shown.is_json {
        call.show(rt, &shown.as_json(), files, others, out)
    } else {
        call.show_as_nm(rt, &shown.as_nm(), files, others, out)
    }
}
