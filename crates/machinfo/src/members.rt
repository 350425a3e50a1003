//! The members of an image's object that say what it is, before those of its counts.

ghost use Rattle.std.specs.Prelude.{◌≡◌, ℕ, List, IfOk, OnOk};
ghost use Rattle.std.specs.Io.KnownBytes.{Appends};
ghost use Rattle.goblin_mach.specs.ImageFacts.{facts_view};
ghost use Rattle.goblin_mach.specs.OpenImage.{IsLossyImage, bytes_view, commands_view};
ghost use Rattle.mach_audit.specs.FactRows.{fact_rows_left};
ghost use Rattle.mach_cli.specs.Listings.{CountsRows};
ghost use Rattle.mach_parts.specs.HeaderNames.{flag_name};
ghost use Rattle.mach_signature.specs.SignedImages.{image_directory};
ghost use Rattle.machinfo.specs.FactTexts.{fact_objects};
ghost use Rattle.machinfo.specs.FrontStatus.{is_entry_read, IsAfterLists, IsFrontWhole};
ghost use Rattle.machinfo.specs.HeaderWords.{flag_short_name};
ghost use Rattle.machinfo.specs.Lists.{HasRows};
ghost use Rattle.machinfo.specs.Signed.{is_readable};
ghost use Rattle.machinfo.specs.Summary.{flag_text, WritesSome};
ghost use Rattle.machinfo.specs.declared.word.Word.TheVariants as words;

use crate::fact::FactObjects;
use crate::parts::EntryPoint;
use crate::segments::write_segments;
use crate::signed::{is_ad_hoc, is_readable};
use crate::summary::flag_short_name;
use goblin_mach::header::Header;
use goblin_mach::names::cpu_name;
use goblin_mach::{Error, MachO, Result, describe};
use mach_audit::{CommandFacts, FactList, Question, State, state_of};
use mach_cli::{
    InForm, ListProgress, Object, StringOrNull, comma_before, image_kind, print_member, then,
};
use mach_signature::CodeDirectory;
use mach_signature::image::code_directory;
use std::alloc::Allocator;
use std::io;
use std::io::Write;

/// Writes the members of an image but for its counts and its kind, each with a comma after it, and of each list the rows up to
/// the limit.
///
/// Returns whether everything was written and can be read.
pub fn write_front<A: Allocator, O: Write>(
    image: &MachO<'_, A>,
    limit: usize,
    out: &mut O,
) -> io::Result<bool>
    ensures written { OnOk result (WritesSome (O.contents out.old) (O.contents out.new)) }
    ensures status { (bytes : List ℕ) → IsLossyImage bytes 0 image.now → IfOk result (IsFrontWhole limit bytes (facts_view image.now)
        (image_directory (bytes_view image.now) (commands_view image.now))) }
{
    write_header(&image.header, image.name, image.base(), image.entry, out)?;
    write_flags(image.header.flags, out)?;
    let entry = write_entry(image, out)?;
    let lists = write_lists(image, limit, out)?;
    let signature = write_signature(image, out)?;
    let more = lists.more;
    write!(out, "\"limit_met\":{more},")?;
    let state = state_of(image);
    write_state(state, out)?;
    Ok(entry.whole & lists.whole & !more & signature & (state.past == 0))
}

// Writes the row of the entry point, if there is one, as the list of that name.
fn write_entry<A: Allocator, O: Write>(
    image: &MachO<'_, A>,
    out: &mut O,
) -> io::Result<ListProgress>
    ensures written { OnOk result (WritesSome (O.contents out.old) (O.contents out.new)) }
    ensures status { (bytes : List ℕ) → IsLossyImage bytes 0 image.now → IfOk result (λ t. (rows : _) × (past : ℕ)
        × HasRows words.Entry bytes 0 rows past × (t.whole ≡ is_entry_read rows)) }
{
    let mut list = InForm {
        list: EntryPoint::of(image),
        form: Object,
        past: 0,
        past_name: "",
    };
    let reported = print_member("entrypoint", &mut list, 1, out)?;
    Ok(reported)
}

// Writes the lists of an image.
fn write_lists<A: Allocator, O: Write>(
    image: &MachO<'_, A>,
    limit: usize,
    out: &mut O,
) -> io::Result<ListProgress>
    ensures written { OnOk result (WritesSome (O.contents out.old) (O.contents out.new)) }
    ensures status { IfOk result (IsAfterLists limit (facts_view image.now)) }
{
    let list = FactList::Libraries(image.libraries());
    let libraries = write_list("libraries", list, limit, out)?;
    let list = FactList::Paths(image.rpaths.iter());
    let paths = write_list("run_paths", list, limit, out)?;
    let list = FactList::Commands(CommandFacts::of(Question::Platform, image));
    let platforms = write_list("platforms", list, limit, out)?;
    let segments = write_segments(image.segments.as_slice(), limit, out)?;
    let list = FactList::Tools(image.build_tools());
    let tools = write_list("tools", list, limit, out)?;
    let list = FactList::Commands(CommandFacts::of(Question::Uuid, image));
    let uuids = write_list("uuids", list, limit, out)?;
    let two = then(libraries, paths);
    let three = then(two, platforms);
    let four = then(three, segments);
    let five = then(four, tools);
    Ok(then(five, uuids))
}

// Writes a list as a member with this name.
fn write_list<O: Write>(
    name: &str,
    list: FactList<'_, '_>,
    limit: usize,
    out: &mut O,
) -> io::Result<ListProgress>
    ensures written { OnOk result (WritesSome (O.contents out.old) (O.contents out.new)) }
    ensures status { IfOk result (CountsRows limit (fact_objects (fact_rows_left list.entry))) }
{
    let reported = print_member(name, &mut FactObjects(list), limit, out)?;
    Ok(reported)
}

// Writes the address of the first byte, the cpu, the entry point, the kind of the file, and the name as a library.
fn write_header<O: Write>(
    header: &Header,
    name: Option<&str>,
    base: u64,
    entry: u64,
    out: &mut O,
) -> io::Result<()>
    ensures { OnOk result (WritesSome (O.contents out.old) (O.contents out.new)) }
{
    let (cputype, cpusubtype) = (header.cputype, header.cpusubtype);
    let cpu = StringOrNull(cpu_name(cputype, cpusubtype % 0x100_0000));
    let words = image_kind(header.filetype);
    let name = StringOrNull(name);
    write!(
        out,
        "\"base\":{base},\"cpu\":{cpu},\"cpusubtype\":{cpusubtype},\"cputype\":{cputype},"
    )?;
    write!(
        out,
        "\"entry_point\":{entry},\"image_kind\":\"{words}\",\"name\":{name},"
    )
}

// Writes the names of the header's flags.
fn write_flags<O: Write>(flags: u32, out: &mut O) -> io::Result<()>
    ensures { OnOk result (WritesSome (O.contents out.old) (O.contents out.new)) }
{
    write!(out, "\"flags\":[")?;
    let mut is_first = true;
    'bits: for bit in 0..32u32 {
        is_first = write_flag(flags & 1u32.wrapping_shl(bit), is_first, out)?;
    }
    write!(out, "],")
}

// Writes the name of a bit, or its number, if it is set. Returns whether the next one is the first.
#[tactic(auto, using(crate::proofs::Some::nothing))]
fn write_flag<O: Write>(flag: u32, is_first: bool, out: &mut O) -> io::Result<bool>
    ensures { OnOk result (WritesSome (O.contents out.old) (O.contents out.new)) }
{
    if flag == 0 {
        return Ok(is_first);
    }
    let comma = comma_before(is_first);
    write!(out, "{comma}\"")?;
    write_bit(flag, out)?;
    write!(out, "\"")?;
    Ok(false)
}

// Writes the name of a bit, or its number.
fn write_bit<O: Write>(flag: u32, out: &mut O) -> io::Result<()>
    ensures { OnOk result (Appends (O.contents out.old) (O.contents out.new) (flag_text flag (flag_short_name (flag_name flag)))) }
{
    match flag_short_name(flag) {
        Some(name) => write!(out, "{name}"),
        None => write!(out, "0x{flag:x}"),
    }
}

// Writes what the code directory says, if the image is signed; a name that can't be read is left out. Returns whether all can be
// read.
fn write_signature<A: Allocator, O: Write>(image: &MachO<'_, A>, out: &mut O) -> io::Result<bool>
    ensures written { OnOk result (WritesSome (O.contents out.old) (O.contents out.new)) }
    ensures status { IfOk result (λ whole. whole ≡ is_readable (image_directory (bytes_view image.now) (commands_view image.now))) }
{
    let answer = code_directory(image);
    write_answer(&answer, out)?;
    Ok(is_readable(&answer))
}

// Writes an answer.
fn write_answer<O: Write>(answer: &Result<Option<CodeDirectory<'_>>>, out: &mut O) -> io::Result<()>
    ensures { OnOk result (WritesSome (O.contents out.old) (O.contents out.new)) }
{
    match answer {
        Ok(Some(directory)) => write_directory(directory, out),
        Ok(None) => write_none(out),
        Err(error) => write_refused(error, out),
    }
}

// Writes that there is no signature.
fn write_none<O: Write>(out: &mut O) -> io::Result<()>
    ensures { OnOk result (WritesSome (O.contents out.old) (O.contents out.new)) }
{
    write!(out, "\"signature\":null,")
}

// Writes why a signature can't be read.
fn write_refused<O: Write>(error: &Error, out: &mut O) -> io::Result<()>
    ensures { OnOk result (WritesSome (O.contents out.old) (O.contents out.new)) }
{
    let words = describe(error);
    write!(out, "\"signature\":{{\"error\":\"{words}\"}},")
}

// Writes what a code directory says.
fn write_directory<O: Write>(directory: &CodeDirectory<'_>, out: &mut O) -> io::Result<()>
    ensures { OnOk result (WritesSome (O.contents out.old) (O.contents out.new)) }
{
    let flags = directory.head.flags;
    let identifier = StringOrNull(directory.identifier().ok().flatten());
    let ad_hoc = is_ad_hoc(flags);
    let team = StringOrNull(directory.team().ok().flatten());
    write!(
        out,
        "\"signature\":{{\"flags\":{flags},\"identifier\":{identifier},"
    )?;
    write!(out, "\"is_ad_hoc\":{ad_hoc},\"team\":{team}}},")
}

// Writes whether an image is encrypted and stripped, and how many symbols it has.
fn write_state<O: Write>(state: State, out: &mut O) -> io::Result<()>
    ensures { OnOk result (WritesSome (O.contents out.old) (O.contents out.new)) }
{
    let State {
        is_encrypted,
        is_stripped,
        symbols,
        past,
    } = state;
    write!(
        out,
        "\"is_encrypted\":{is_encrypted},\"is_stripped\":{is_stripped},"
    )?;
    write!(
        out,
        "\"symbols\":{symbols},\"symbols_past_the_end\":{past},"
    )
}
