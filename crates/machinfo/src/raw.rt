//! The bytes of a section of a file's one image, written as they are.

ghost use Rattle.std.specs.Prelude.{◌≡◌, ◌≤◌, [], ℕ, List, Ok, Some, OnOk};
ghost use Rattle.std.specs.Io.Buffered.{writer_buffer, writer_contents};
ghost use Rattle.std.specs.Io.KnownBytes.{Appends};
ghost use Rattle.mach_base.specs.Answer.{Reads};
ghost use Rattle.mach_dyld.specs.Exports.{text_in};
ghost use Rattle.goblin_mach.specs.ImageFacts.{facts_view};
ghost use Rattle.goblin_mach.specs.Items.{content_view};
ghost use Rattle.goblin_mach.specs.ItemsLeft.{input_item_read};
ghost use Rattle.mach_cli.specs.PartsOf.{parts_left};
ghost use Rattle.mach_cli.specs.Statuses.{IsStatus};
ghost use Rattle.machinfo.specs.RawBytes.{is_image_for, raw_held, AnswersRaw, ContentHasRaw, HasRawBytes, ItemHasRaw, ItemsHaveRaw, NoRawBytes};

use crate::section_bytes::{SectionName, held_by};
use goblin_mach::{Content, EntryCpu, Input, InputItem, MachO, Result};
use mach_cli::output::failed;
use mach_cli::{
    Cpu, Label, Names, Parts, Refusal, complain, items_shown, only_selected, refusal_of,
};
use std::alloc::Allocator;
use std::io;
use std::io::{BufWriter, Write};

// Whether an image is selected: by the cpu of its entry, or else by its header.
fn is_selected<A: Allocator>(cpu: Cpu, entry: Option<EntryCpu>, image: &MachO<'_, A>) -> bool
    ensures { result ≡ is_image_for cpu entry (facts_view image.now) }
{
    match entry {
        Some(entry) => cpu.takes(entry.cputype, entry.cpusubtype),
        None => cpu.takes(image.header.cputype, image.header.cpusubtype),
    }
}

// Returns the bytes of an image's first section with these names, if the image is selected.
fn held_if<'a, A: Allocator>(
    cpu: Cpu,
    entry: Option<EntryCpu>,
    name: &SectionName,
    image: &MachO<'a, A>,
) -> Result<Option<&'a [u8]>>
    ensures { Reads text_in result (raw_held cpu entry name.now (facts_view image.now)) }
{
    if !is_selected(cpu, entry, image) {
        return Ok(None);
    }
    let (_, held) = held_by(image, name)?;
    Ok(Some(held))
}

// Returns the same of what is at a place of a file, which must be an image.
fn held_in_content<'a, A: Allocator + Clone>(
    alloc: &A,
    cpu: Cpu,
    entry: Option<EntryCpu>,
    name: &SectionName,
    content: Content<'a>,
) -> Result<Option<&'a [u8]>>
    ensures { AnswersRaw (ContentHasRaw cpu entry name.now (content_view content.entry)) result }
{
    match content.open(alloc.clone()?) {
        Ok(image) => held_if(cpu, entry, name, &image),
        Err(error) => Err(error),
    }
}

// Returns the same of an item of a file.
fn held_in<'a, A: Allocator + Clone>(
    alloc: &A,
    cpu: Cpu,
    name: &SectionName,
    item: InputItem<'a>,
) -> Result<Option<&'a [u8]>>
    ensures { AnswersRaw (ItemHasRaw cpu name.now (input_item_read item.entry)) result }
{
    let entry = item.place.cpu;
    match item.content {
        Ok(content) => held_in_content(alloc, cpu, entry, name, content),
        Err(error) => Err(error),
    }
}

// Returns the same of the one item that is selected; nothing if not exactly one is.
fn held_in_one<'a, A: Allocator + Clone>(
    alloc: &A,
    cpu: Cpu,
    name: &SectionName,
    items: Parts<'a>,
) -> Result<Option<&'a [u8]>>
    ensures { AnswersRaw (ItemsHaveRaw cpu name.now (parts_left items.entry)) result }
{
    match only_selected(cpu, items) {
        Some(item) => held_in(alloc, cpu, name, item),
        None => Ok(None),
    }
}

// Returns the same of a file.
fn held_in_file<'a, A: Allocator + Clone>(
    alloc: &A,
    cpu: Cpu,
    name: &SectionName,
    bytes: &'a [u8],
) -> Result<Option<&'a [u8]>>
    ensures { AnswersRaw (HasRawBytes cpu name.now bytes.now) result }
{
    match Input::parse(alloc.clone()?, bytes) {
        Ok(input) => {
            let items = items_shown(alloc.clone()?, bytes, input.images());
            held_in_one(alloc, cpu, name, items)
        }
        Err(error) => Err(error),
    }
}

// Writes bytes and flushes them.
fn put<W: Write + Drop, B: Allocator>(bytes: &[u8], out: &mut BufWriter<W, B>) -> io::Result<()>
    ensures written { OnOk result (Appends (writer_contents W.contents out.old) (writer_contents W.contents out.new) bytes.now) }
    ensures flushed { OnOk result (writer_buffer out.new ≡ []) }
{
    out.write_all(bytes)?;
    out.flush()?;
    Ok(())
}

// Reports why nothing is written of a file, and returns the status.
fn refuse<E: Write>(names: Names<'_>, refusal: Refusal<'_>, err: &mut E) -> u8
    ensures status { IsStatus result }
    ensures not_zero { 1 ≤ result }
{
    match complain(names, Label::None, refusal, err) {
        Ok(()) => 1,
        Err(error) => failed(names.program, "", error, err),
    }
}

/// Writes the bytes of the first section with these names of a file's one image, and nothing else. If the file has several, a cpu must
/// select one.
///
/// Returns the exit status. It is 0 if they were written, and then nothing is left in the buffer. It is 1 if not exactly one image is
/// selected, or the file, the section or an allocation is refused. Then `err` has a line that says why, and `out` nothing. It is 2 or
/// 141 if a write fails.
pub fn write_raw<A: Allocator + Clone, W: Write + Drop, B: Allocator, E: Write>(
    alloc: A,
    cpu: Cpu,
    name: &SectionName,
    names: Names<'_>,
    bytes: &[u8],
    out: &mut BufWriter<W, B>,
    err: &mut E,
) -> u8
    ensures status { IsStatus result }
    ensures written { result ≡ 0 → (found : List ℕ) × HasRawBytes cpu name.now bytes.now (Ok (Some found))
        × Appends (writer_contents W.contents out.old) (writer_contents W.contents out.new) found }
    ensures flushed { result ≡ 0 → writer_buffer out.new ≡ [] }
    ensures nothing { result ≡ 1 → Appends (writer_contents W.contents out.old) (writer_contents W.contents out.new) [] }
    ensures refused { result ≡ 1 → NoRawBytes cpu name.now bytes.now }
{
    match held_in_file(&alloc, cpu, name, bytes) {
        Ok(Some(found)) => match put(found, out) {
            Ok(()) => 0,
            Err(error) => failed(names.program, "", error, err),
        },
        Ok(None) => refuse(
            names,
            Refusal::Lacks("not exactly one image is selected"),
            err,
        ),
        Err(error) => refuse(names, refusal_of(bytes, &error), err),
    }
}
