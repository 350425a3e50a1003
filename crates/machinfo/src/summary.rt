//! The summary of an image before its counts, but for its signature and its state.

ghost use Rattle.std.specs.Prelude.{◌≡◌, ℕ, List, IfOk, OnOk};
ghost use Rattle.std.specs.Io.KnownBytes.{Appends};
ghost use Rattle.mach_dyld.specs.Exports.{text_in};
ghost use Rattle.goblin_mach.specs.ImageFacts.{facts_view};
ghost use Rattle.mach_audit.specs.FactRows.{fact_rows_left};
ghost use Rattle.machinfo.specs.Summary.{base_line, cpu_line, flag_word, flags_line, kind_lines, own_name_line};
ghost use Rattle.mach_parts.specs.HeaderNames.{flag_name};
ghost use Rattle.machinfo.specs.HeaderWords.{flag_short_name};
ghost use Rattle.machinfo.specs.Summary.{AreFactLines, AreFrontLines, AreUsedLines};

use crate::fact::FactLines;
use goblin_mach::MachO;
use goblin_mach::header::{Header, flag_to_str};
use goblin_mach::names::cpu_name;
use mach_audit::{CommandFacts, FactList, Question};
use mach_cli::{Escaped, image_kind, print_listing};
use std::alloc::Allocator;
use std::io;
use std::io::Write;

/// Prints the first lines of an image, each list up to the limit. Returns whether all were printed and can be read.
pub fn print_front<A: Allocator, O: Write>(
    image: &MachO<'_, A>,
    limit: usize,
    out: &mut O,
) -> io::Result<bool>
    ensures { IfOk result (λ whole. (text : List ℕ) × AreFrontLines limit (facts_view image.now) text whole
        × Appends (O.contents out.old) (O.contents out.new) text) }
{
    print_kind(&image.header, out)?;
    print_image_name(image.name, out)?;
    let list = FactList::Commands(CommandFacts::of(Question::Uuid, image));
    let uuids = print_list(list, "uuid", limit, out)?;
    let list = FactList::Commands(CommandFacts::of(Question::Platform, image));
    let platforms = print_list(list, "platform", limit, out)?;
    let list = FactList::Tools(image.build_tools());
    let tools = print_list(list, "tool: refused", limit, out)?;
    print_flags(image.header.flags, out)?;
    print_base(image.base(), out)?;
    Ok(uuids & platforms & tools)
}

/// Prints the libraries of an image and its run paths. Returns whether all were printed.
pub fn print_used<A: Allocator, O: Write>(
    image: &MachO<'_, A>,
    limit: usize,
    out: &mut O,
) -> io::Result<bool>
    ensures { IfOk result (λ whole. (text : List ℕ) × AreUsedLines limit (facts_view image.now) text whole
        × Appends (O.contents out.old) (O.contents out.new) text) }
{
    let list = FactList::Libraries(image.libraries());
    let libraries = print_list(list, "library", limit, out)?;
    let list = FactList::Paths(image.rpaths.iter());
    let paths = print_list(list, "run path", limit, out)?;
    Ok(libraries & paths)
}

// Prints a line for each row of a list, up to a limit. Returns whether it has no more, and all can be read.
fn print_list<O: Write>(
    list: FactList<'_, '_>,
    refused: &str,
    limit: usize,
    out: &mut O,
) -> io::Result<bool>
    ensures { IfOk result (λ whole. (text : List ℕ) × AreFactLines refused.now limit (fact_rows_left list.entry) text whole
        × Appends (O.contents out.old) (O.contents out.new) text) }
{
    let mut lines = FactLines(list);
    let outcome = print_listing(&mut lines, refused, limit, limit, out)?;
    Ok(outcome.whole)
}

// Prints the kind of the file, and the cpu.
fn print_kind<O: Write>(header: &Header, out: &mut O) -> io::Result<()>
    ensures { OnOk result (Appends (O.contents out.old) (O.contents out.new) (kind_lines header.now)) }
{
    let kind = image_kind(header.filetype);
    writeln!(out, "kind: {kind}")?;
    print_cpu(header.cputype, header.cpusubtype, out)
}

// Prints the cpu.
fn print_cpu<O: Write>(cputype: u32, cpusubtype: u32, out: &mut O) -> io::Result<()>
    ensures { OnOk result (Appends (O.contents out.old) (O.contents out.new) (cpu_line cputype cpusubtype)) }
{
    match cpu_name(cputype, cpusubtype % 0x100_0000) {
        Some(name) => writeln!(out, "cpu: {name}"),
        None => writeln!(
            out,
            "cpu: cputype 0x{cputype:x}, cpusubtype 0x{cpusubtype:x}"
        ),
    }
}

// Prints the name as a library, if there is one.
fn print_image_name<O: Write>(name: Option<&str>, out: &mut O) -> io::Result<()>
    ensures { OnOk result (Appends (O.contents out.old) (O.contents out.new) (own_name_line (text_in name.entry))) }
{
    match name {
        Some(name) => {
            let name = Escaped(name);
            writeln!(out, "name: {name}")
        }
        None => Ok(()),
    }
}

// Prints the names of the header's flags.
fn print_flags<O: Write>(flags: u32, out: &mut O) -> io::Result<()>
    ensures { OnOk result (Appends (O.contents out.old) (O.contents out.new) (flags_line flags)) }
{
    write!(out, "flags:")?;
    'bits: for bit in 0..32u32 {
        print_flag(flags & 1u32.wrapping_shl(bit), out)?;
    }
    writeln!(out)
}

// Prints the name of a bit, or its number, if it is set.
fn print_flag<O: Write>(flag: u32, out: &mut O) -> io::Result<()>
    ensures { OnOk result (Appends (O.contents out.old) (O.contents out.new) (flag_word flag)) }
{
    if flag == 0 {
        return Ok(());
    }
    match flag_short_name(flag) {
        Some(name) => write!(out, " {name}"),
        None => write!(out, " 0x{flag:x}"),
    }
}

// Prints the address of the first byte.
fn print_base<O: Write>(base: u64, out: &mut O) -> io::Result<()>
    ensures { OnOk result (Appends (O.contents out.old) (O.contents out.new) (base_line base)) }
{
    writeln!(out, "base: 0x{base:x}")
}

/// Returns the name of a bit of the header's flags without its prefix, if it has one.
pub fn flag_short_name(flag: u32) -> Option<&'static str>
    ensures { text_in result ≡ flag_short_name (flag_name flag) }
{
    match flag_to_str(flag).strip_prefix("MH_") {
        Some(name) => Some(name),
        None => None,
    }
}
