//! Prints for each binding of a program in which of some libraries its name is found, and at which address: for the binds of its
//! opcodes, and for those of its chains.
//!
//! Of a fat program it does so for each entry, or for the first entry for a selected cpu. Of a fat library it uses the first
//! entry for the program's cpu. The name of a library is its own (LC_ID_DYLIB), or its path if it has none; of several with one
//! name the first is used. Names are compared as texts. At most as many bindings of all images of the program are answered as
//! `--limit` says; a line says so if an image has more than what is left.
#![tactic(auto)]

ghost use Rattle.std.specs.Prelude.{◌≡◌, ◌≤◌, [], map};
ghost use Rattle.std.specs.Io.Buffered.{writer_buffer, writer_contents};
ghost use Rattle.mach_cli.specs.Bounds.{limit_of, most_items};
ghost use Rattle.mach_cli.specs.Statuses.{IsStatus};
ghost use Rattle.mach_resolve.specs.Opened.{given_view};
ghost use Rattle.machresolve.specs.Cpu.{selected_cpu};
ghost use Rattle.machresolve.specs.Runs.{IsRun};

// The reports of programs.
mod report;
mod table;

// What is printed of them.
mod arguments;
mod call;
mod laws;
mod lines;
mod output;
mod refusal;

use crate::arguments::{most_answered, selected_cpu};
use crate::output::{NAME, run};
use mach_cli::{Call, Format, Misuse, Options, Program, Progress, SharedOnly};
use mach_resolve::Given;
use std::alloc::Global;
use std::io::{BufWriter, IsTerminal, Write};
use std::process::ExitCode;

const PROGRAM: Program = Program {
    name: NAME,
    about: "machresolve looks up each name that a Mach-O program binds, in the program and
in some libraries, and prints which of them defines it.
",
    usage: "usage: machresolve [--arch NAME | --cputype 0xN] [--limit N] [--color WHEN]
                   PROGRAM LIBRARY..
       machresolve -h | --help | --version
",
    version: "machresolve 0.3.0\n",
    options: Options {
        has_limit: true,
        has_arch: true,
        has_cputype: true,
        ..Options::NONE
    },
    words: "",
    flags: "      --arch NAME           of a fat program, the first entry for this cpu
      --cputype 0xN         of a fat program, the first entry with this cputype
      --limit N             print at most N bindings of the program
",
    examples: "  machresolve prog libz.dylib            where each name is found
  machresolve --arch arm64 prog *.dylib  the same, of one image
",
};

fn main(rt: HostRuntime) -> ExitCode {
    ExitCode::from(match start(&rt) {
        Ok(status) | Err(status) => status,
    })
}

// Runs the program with its words. The error is the exit status if nothing was resolved.
fn start(rt: &HostRuntime) -> Result<u8, u8> {
    let words = PROGRAM.words(rt)?;
    let call = PROGRAM.call(rt, SharedOnly, &words)?;
    match call.words.as_slice() {
        [] => Err(PROGRAM.bad_usage(rt, Misuse::Missing("PROGRAM"))),
        [program, libraries @ ..] => resolve_files(rt, &call, program, libraries),
    }
}

// Reads the bytes of a file. If reading many files takes long, a line on a terminal says that this one is begun.
fn read(rt: &HostRuntime, progress: &mut Progress, file: &str) -> Result<Vec<u8>, u8> {
    progress.begin(rt, NAME, file, &mut rt.stderr());
    PROGRAM.read(rt, file)
}

// Resolves a program of a call with its libraries.
fn resolve_files(
    rt: &HostRuntime,
    call: &Call<'_, Global, SharedOnly>,
    program: &str,
    libraries: &[&str],
) -> Result<u8, u8> {
    let mut progress = Progress::new(rt, rt.stderr().is_terminal());
    let bytes = read(rt, &mut progress, program)?;
    let mut contents = Vec::new(rt.alloc());
    for library in libraries {
        if contents.push(read(rt, &mut progress, library)?).is_err() {
            return Err(PROGRAM.out_of_memory(rt));
        }
    }
    let mut given = Vec::new(rt.alloc());
    for (path, bytes) in libraries.iter().zip(contents.iter()) {
        let library = Given {
            path,
            bytes: bytes.as_slice(),
        };
        if given.push(library).is_err() {
            return Err(PROGRAM.out_of_memory(rt));
        }
    }
    let mut out = PROGRAM.output(rt, call.color, Format::Text)?;
    let program = Given {
        path: program,
        bytes: bytes.as_slice(),
    };
    let err = &mut rt.stderr();
    Ok(resolve_given(rt, call, program, given.as_slice(), &mut out, err))
}

// Resolves a program with libraries, as a call says, and returns the exit status.
fn resolve_given<'a, W: Write + Drop, E: Write>(
    rt: &HostRuntime,
    call: &Call<'_, Global, SharedOnly>,
    program: Given<'a>,
    libraries: &[Given<'a>],
    out: &mut BufWriter<W>,
    err: &mut E,
) -> u8
    ensures status { IsStatus result }
    ensures runs { let most = most_items (limit_of call.now.limit 10000000) program.entry.bytes.now in
        result ≤ 1 → IsRun (selected_cpu call.now.cpu) most (given_view program.entry) (map given_view libraries.now) result
        (writer_contents W.contents out.old) (writer_contents W.contents out.new) (E.contents err.old) (E.contents err.new) }
    ensures flushed { result ≤ 1 → writer_buffer out.new ≡ [] }
{
    let (wanted, limit) = (selected_cpu(call.cpu), most_answered(call.limit));
    run(rt.alloc(), wanted, limit, program, libraries, out, err)
}
