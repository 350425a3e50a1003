//! The entitlements of a file.

ghost use Rattle.std.specs.Prelude.{◌≡◌, ◌≤◌, [], ℕ, List, codes, Some, None, OnOk, IfOk, IfErr};
ghost use Rattle.std.specs.Io.Buffered.{writer_buffer, writer_contents};
ghost use Rattle.std.specs.Io.KnownBytes.{Appends};
ghost use Rattle.std.specs.Option.{option_map};
ghost use Rattle.mach_base.specs.Answer.{IsOkUnlessMemory, ErrorMeets};
ghost use Rattle.mach_base.specs.Items.{read_as};
ghost use Rattle.mach_signature.specs.DirectoryViews.{slot_read};
ghost use Rattle.mach_signature.specs.SignViews.{signature_view};
ghost use Rattle.mach_cli.specs.Names.{names_text};
ghost use Rattle.mach_cli.specs.PartsOf.{entry_counts, shown_items};
ghost use Rattle.mach_cli.specs.Refusals.{complaint, refusal_reason};
ghost use Rattle.mach_cli.specs.Statuses.{IsStatus};
ghost use Rattle.goblin_mach.specs.View.{IsReported};
ghost use Rattle.goblin_mach.specs.OpenImage.{IsImage};
ghost use Rattle.goblin_mach.specs.Items.{content_view};
ghost use Rattle.goblin_mach.specs.ItemsLeft.{input_item_read};
ghost use Rattle.machsign.specs.Entitlements.{entitlements_of, HasEntitlements, EntitlesContent, EntitlesItem, EntitlesItems, IsSelectedImage};
ghost use Rattle.machsign.specs.Entitlements.{RefusesItem, EntitlementFault, SaysWhyNone, none_words};

use goblin_mach::{Content, EntryCpu, Error, Input, InputItem, MachO, Result};
use mach_cli::output::failed;
use mach_cli::{Cpu, Label, Names, Refusal, complain, entry_counts, items_shown, refusal_of};
use mach_signature::CodeSignature;
use mach_signature::image::code_signature;
use std::alloc::Allocator;
use std::io;
use std::io::{BufWriter, Write};

/// The program's name.
pub const NAME: &str = "machsign";

// Returns the entitlements of a signature, if there is one and has some that can be read.
fn of_signature<'a>(signature: Result<Option<CodeSignature<'a>>>) -> Option<&'a [u8]>
    ensures { slot_read result ≡ entitlements_of (read_as (option_map signature_view) signature.entry) }
{
    match signature {
        Ok(Some(signature)) => match signature.entitlements() {
            Ok(found) => found,
            Err(_) => None,
        },
        Ok(None) => None,
        Err(_) => None,
    }
}

// Returns the entitlements of an image, if it has some that can be read.
fn of_image<'a, A: Allocator>(image: &MachO<'a, A>) -> Option<&'a [u8]>
    ensures { (bytes : List ℕ) → IsImage bytes 0 image.now → HasEntitlements bytes 0 (slot_read result) }
{
    of_signature(code_signature(image))
}

// Returns no entitlements for what is no image; a refused allocation stays an error.
fn of_refused<'a>(error: Error) -> Result<Option<&'a [u8]>>
    ensures none { IfOk result (λ found. (slot_read found ≡ None) × IsReported error) }
    ensures memory { IsOkUnlessMemory result }
{
    match error {
        Error::Memory(refused) => Err(Error::Memory(refused)),
        _ => Ok(None),
    }
}

// Whether an image is selected: by the cpu of its entry, or else by its header.
fn is_selected<A: Allocator>(cpu: Cpu, entry: Option<EntryCpu>, image: &MachO<'_, A>) -> bool
    ensures { (bytes : List ℕ) → IsImage bytes 0 image.now → IsSelectedImage cpu entry bytes result }
{
    match entry {
        Some(entry) => cpu.takes(entry.cputype, entry.cpusubtype),
        None => cpu.takes(image.header.cputype, image.header.cpusubtype),
    }
}

// Returns the entitlements of what is at a place of a file, if it is a selected image that has some.
fn of_content<'a, A: Allocator + Clone>(
    alloc: &A,
    cpu: Cpu,
    entry: Option<EntryCpu>,
    content: Content<'a>,
) -> Result<Option<&'a [u8]>>
    ensures found { IfOk result (λ found. EntitlesContent cpu entry (content_view content.entry) (slot_read found)) }
    ensures memory { IsOkUnlessMemory result }
{
    match content.open(alloc.clone()?) {
        Ok(image) if is_selected(cpu, entry, &image) => Ok(of_image(&image)),
        Ok(_) => Ok(None),
        Err(error) => of_refused(error),
    }
}

// Returns the entitlements of an item of a file, if it has some. An entry of a fat file that can't be read has none; the fault of
// another item is the file's.
fn of_item<'a, A: Allocator + Clone>(
    alloc: &A,
    cpu: Cpu,
    item: InputItem<'a>,
) -> Result<Option<&'a [u8]>>
    ensures found { IfOk result (λ found. EntitlesItem cpu (input_item_read item.entry) (slot_read found)) }
    ensures refused { IfErr result (ErrorMeets (RefusesItem (input_item_read item.entry))) }
{
    let place = item.place;
    match item.content {
        Ok(content) => of_content(alloc, cpu, place.cpu, content),
        Err(error) => {
            if place.entry.is_none() {
                return Err(error);
            }
            Ok(None)
        }
    }
}

// Returns the entitlements of the first selected image of a file that has some: the file itself, an entry or a member. It goes over
// the items that are shown.
fn first_in<'a, A: Allocator + Clone>(
    alloc: &A,
    cpu: Cpu,
    bytes: &'a [u8],
) -> Result<Option<&'a [u8]>>
    ensures found { IfOk result (λ found. EntitlesItems cpu (shown_items bytes.now) (slot_read found)) }
    ensures refused { IfErr result (ErrorMeets (EntitlementFault cpu bytes.now)) }
{
    let input = Input::parse(alloc.clone()?, bytes)?;
    let shown = items_shown(alloc.clone()?, bytes, input.images());
    'items: for item in shown {
        match of_item(alloc, cpu, item)? {
            Some(found) => return Ok(Some(found)),
            None => {}
        }
    }
    Ok(None)
}

// Writes bytes and flushes them.
fn put<W: Write + Drop, B: Allocator>(bytes: &[u8], out: &mut BufWriter<W, B>) -> io::Result<()>
    ensures written { OnOk result (Appends (writer_contents W.contents out.old) (writer_contents W.contents out.new) bytes.now) }
    ensures flushed { OnOk result (writer_buffer out.new ≡ []) }
{
    out.write_all(bytes)?;
    out.flush()?;
    Ok(())
}

// Returns why no entitlements are written of a file whose shown images have none: entries are left out, or no image has some.
fn reason_of_none<A: Allocator>(alloc: A, bytes: &[u8]) -> Refusal<'static>
    ensures { refusal_reason result ≡ none_words (entry_counts bytes.now).left_out }
{
    let left_out = entry_counts(alloc, bytes).left_out;
    if left_out == 0 {
        Refusal::Lacks("no entitlements")
    } else {
        Refusal::LeftOut(left_out)
    }
}

// Reports why no entitlements of a file are written, and returns the status.
fn refuse<E: Write>(file: &str, refusal: Refusal<'_>, err: &mut E) -> u8
    ensures bound { IsStatus result }
    ensures not_zero { 1 ≤ result }
    ensures reported { result ≡ 1 → Appends (E.contents err.old) (E.contents err.new)
        (complaint (names_text (codes "machsign") file.now) (refusal_reason refusal.entry)) }
{
    let names = Names {
        program: NAME,
        file,
    };
    match complain(names, Label::None, refusal, err) {
        Ok(()) => 1,
        Err(error) => failed(NAME, "", error, err),
    }
}

/// Writes the entitlements of the first selected image of a file, an archive or a fat file that has some, and nothing else. Of a
/// fat file it goes over the entries that are shown.
///
/// Returns the exit status. It is 0 if they were written, and then nothing is left in the buffer. It is 1 if there are none, or
/// the file or an allocation is refused; then `err` has a line that says why, and `out` nothing. It is 2 or 141 if a write fails.
pub fn run_entitlements<A: Allocator + Clone, W: Write + Drop, B: Allocator, E: Write>(
    alloc: A,
    cpu: Cpu,
    file: &str,
    bytes: &[u8],
    out: &mut BufWriter<W, B>,
    err: &mut E,
) -> u8
    ensures status { IsStatus result }
    ensures written { result ≡ 0 → (found : List ℕ) × EntitlesItems cpu (shown_items bytes.now) (Some found)
        × Appends (writer_contents W.contents out.old) (writer_contents W.contents out.new) found }
    ensures flushed { result ≡ 0 → writer_buffer out.new ≡ [] }
    ensures nothing { result ≡ 1 → Appends (writer_contents W.contents out.old) (writer_contents W.contents out.new) [] }
    ensures reported { result ≡ 1 → (said : List ℕ) × SaysWhyNone cpu (names_text (codes "machsign") file.now) bytes.now said
        × Appends (E.contents err.old) (E.contents err.new) said }
{
    match first_in(&alloc, cpu, bytes) {
        Ok(Some(found)) => match put(found, out) {
            Ok(()) => 0,
            Err(error) => failed(NAME, "", error, err),
        },
        Ok(None) => refuse(file, reason_of_none(alloc, bytes), err),
        Err(error) => refuse(file, refusal_of(bytes, &error), err),
    }
}
