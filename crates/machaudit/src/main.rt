//! Reports what is wrong with Mach-O files: whether each opens, and each part of it that can't be read or lies where it must not.
#![tactic(auto)]

ghost use Rattle.std.specs.Prelude.{◌≡◌, IfOk};
ghost use Rattle.machaudit.specs.Calls.{audit_options, AreAuditedFiles, ShowsAudits};

// What is audited of each file.
mod audits;
mod selection;

// What is printed of the audit.
mod json;
mod layout_text;
mod options;
mod output;
mod signature_text;
mod source;
mod text;

use crate::audits::Audits;
use crate::options::{DEFAULT_LIMIT, Options};
use crate::output::NAME;
use mach_cli::{Call, Files, Misuse, Program, SharedOnly, Titled};
use std::alloc::{AllocError, Global};
use std::io::{BufWriter, Write};
use std::process::ExitCode;

const PROGRAM: Program = Program {
    name: NAME,
    about: "machaudit reports whether Mach-O files are sound, and each fault of those that
are not.
",
    usage: "usage: machaudit [--quiet | --json] [--limit N] [--arch NAME | --cputype 0xN]
                 [--names FILE] [-0] [--color WHEN] FILE..
       machaudit -h | --help | --version
",
    version: "machaudit 0.3.0\n",
    options: mach_cli::Options {
        has_quiet: true,
        has_lossy: false,
        ..mach_cli::Options::OF_IMAGES
    },
    words: "",
    flags: "      --limit N             check at most N items per list
      --names FILE          also audit the files that FILE lists, one per line
      --arch NAME           audit only images for this cpu
      --cputype 0xN         audit only images with this cputype
",
    examples: "  machaudit prog                                  a report on one file
  find DIR -type f | machaudit --quiet --names -  a line for each file there
",
};

fn main(rt: HostRuntime) -> ExitCode {
    ExitCode::from(match start(&rt) {
        Ok(status) | Err(status) => status,
    })
}

// Runs the program with its words. The error is the exit status if nothing was audited, or if a write failed.
fn start(rt: &HostRuntime) -> Result<u8, u8> {
    let words = PROGRAM.words(rt)?;
    let call = PROGRAM.call(rt, SharedOnly, &words)?;
    audit_files(rt, &call)
}

// Audits what is for the call's cpu of its files in order, and returns the worst status.
fn audit_files(rt: &HostRuntime, call: &Call<'_, Global, SharedOnly>) -> Result<u8, u8> {
    let (files, others) = (&call.words, &call.others);
    if files.is_empty() && others.is_empty() {
        return Err(PROGRAM.bad_usage(rt, Misuse::Missing("FILE")));
    }
    let Ok(only) = only_of(rt.alloc(), others.are_several(files.len()), files) else {
        return Err(PROGRAM.out_of_memory(rt));
    };
    let mut lines = PROGRAM.output(rt, call.color, call.format)?;
    show_call(rt, call, only, &mut lines)
}

// Audits what is for a call's cpu of all files that it names, in order, and returns the worst status. `only` is the only file of the
// call, and empty if there may be several.
fn show_call<W: Write + Drop>(
    rt: &HostRuntime,
    call: &Call<'_, Global, SharedOnly>,
    only: String,
    out: &mut BufWriter<Titled<W>>,
) -> Result<u8, u8>
    ensures { IfOk result (ShowsAudits W.contents call.now out.old out.new) }
{
    let audits = audits_by(call, only);
    shown_by(call).show(rt, &audits, &call.words, &call.others, out)
}

// Returns how a call audits each file.
fn audits_by(call: &Call<'_, Global, SharedOnly>, only: String) -> Audits
    ensures cpu { result.cpu ≡ call.now.cpu }
    ensures options { result.options ≡ audit_options call.now }
{
    Audits {
        cpu: call.cpu,
        options: Options {
            format: call.format,
            limit: call.limit.unwrap_or(DEFAULT_LIMIT),
        },
        only,
    }
}

// Returns how a call shows its files: part by part, without titles.
fn shown_by(call: &Call<'_, Global, SharedOnly>) -> Files
    ensures { AreAuditedFiles call.now result }
{
    Files {
        program: PROGRAM,
        cpu: call.cpu,
        has_titles: false,
        has_parts: true,
        limit: call.limit.unwrap_or(DEFAULT_LIMIT),
    }
}

// Returns the name of the only file of a call; empty if there may be several.
fn only_of(alloc: Global, are_several: bool, files: &[&str]) -> Result<String, AllocError> {
    let mut only = String::new(alloc);
    if !are_several {
        'files: for file in files {
            only.push_str(file)?;
        }
    }
    Ok(only)
}
