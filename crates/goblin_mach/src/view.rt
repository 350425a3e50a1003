//! What a whole file links.

ghost use Rattle.std.specs.Prelude.{◌≡◌, ℕ, List, Result, IfOk, IfErr, Ok};
ghost use Rattle.mach_base.specs.Fault.{Fault};
ghost use Rattle.mach_base.specs.Answer.{ErrorMeets, IsOkUnlessMemory};
ghost use Rattle.goblin_mach.specs.FatEntry.{FatEntry, IsEntry, entry_at, entries_of, image};
ghost use Rattle.goblin_mach.specs.FatFile.{file_view};
ghost use Rattle.goblin_mach.specs.OpenImage.{IsImage};
ghost use Rattle.goblin_mach.specs.File.{IsMach};
ghost use Rattle.goblin_mach.specs.View.{HasEntries, ViewFault, LinksHeld, FaultHeld, IsReported, IsViewItem, AreViewItems};

use crate::fat_file::entry::SingleArch;
use crate::fat_file::table::MultiArch;
use crate::mach::Mach;
use crate::macho::MachO;
use mach_base::{ByteCount, Error, Result};
use mach_dyld::exports::Export;
use mach_dyld::imports::Import;
use std::alloc::{Allocator, Global};
use std::fmt;
use std::fmt::{Debug, Formatter, Write};

/// What one image or archive links.
#[derive(Drop)]
pub enum LinkView<'a, A: Allocator = Global> {
    /// An image.
    Image {
        /// The symbols that it gives to others.
        exports: Vec<Export<'a, A>, A>,
        /// The symbols that it takes from others by bind opcodes only, as `MachO::imports` lists them.
        imports: Vec<Import<'a>, A>,
    },
    /// An archive: its bytes.
    Archive(&'a [u8]),
}

impl<'a, A: Allocator> Debug for LinkView<'a, A> {
    /// Formats the two lists of an image, or, for an archive, only its number of bytes.
    fn fmt<W: Write>(&self, f: &mut Formatter<W>) -> fmt::Result {
        match self {
            LinkView::Image { exports, imports } => f
                .debug_struct("Image")
                .field("exports", exports)
                .field("imports", imports)
                .finish(),
            LinkView::Archive(bytes) => {
                f.debug_tuple("Archive").field(&ByteCount(bytes)).finish()
            }
        }
    }
}

// The exports and the imports of an image.
#[derive(Drop)]
struct Links<'a, A: Allocator> {
    exports: Vec<Export<'a, A>, A>,
    imports: Vec<Import<'a>, A>,
}

// Lists the exports and the imports of an image.
fn links_of<'a, A: Allocator, B: Allocator + Clone>(
    alloc: B,
    image: &MachO<'a, A>,
) -> Result<Links<'a, B>>
    ensures held { IfOk result (LinksHeld image.now) }
    ensures refused { IfErr result (ErrorMeets (FaultHeld image.now)) }
{
    let exports = image.exports(alloc.clone()?)?;
    let imports = image.imports(alloc)?;
    Ok(Links { exports, imports })
}

// Returns an error that an item may hold. Out of memory is the error of the whole.
fn reported(error: Error) -> Result<Error>
    ensures same { IfOk result (λ e. (e ≡ error) × IsReported e) }
    ensures only { IsOkUnlessMemory result }
{
    match error {
        Error::Memory(refused) => Err(Error::Memory(refused)),
        other => Ok(other),
    }
}

// Returns the item of an image that opened strictly at 0 of some bytes.
fn image_item<'a, A: Allocator, B: Allocator + Clone>(
    alloc: B,
    opened: &MachO<'a, A>,
) -> Result<Result<LinkView<'a, B>>>
    ensures item { (bytes : List ℕ) → IsImage bytes 0 opened.now → IfOk result (IsViewItem (Ok (image bytes))) }
    ensures only { IsOkUnlessMemory result }
{
    match links_of(alloc, opened) {
        Ok(Links { exports, imports }) => Ok(Ok(LinkView::Image { exports, imports })),
        Err(error) => Ok(Err(reported(error)?)),
    }
}

// Returns the item of an entry that opened.
fn opened_item<'a, A: Allocator, B: Allocator + Clone>(
    alloc: B,
    entry: &SingleArch<'a, A>,
) -> Result<Result<LinkView<'a, B>>>
    ensures item { (e : FatEntry) → IsEntry e entry.now → IfOk result (IsViewItem (Ok e)) }
    ensures only { IsOkUnlessMemory result }
{
    match entry {
        SingleArch::Archive(bytes) => Ok(Ok(LinkView::Archive(bytes))),
        SingleArch::MachO(image) => image_item(alloc, image),
    }
}

// Returns the item of an entry of a fat file.
fn entry_item<'a, A: Allocator + Clone, B: Allocator + Clone>(
    alloc: B,
    container: &MultiArch<'a, A>,
    index: usize,
) -> Result<Result<LinkView<'a, B>>>
    ensures item { IfOk result (IsViewItem (entry_at (file_view container.now) index)) }
    ensures only { IsOkUnlessMemory result }
{
    match container.get(index) {
        Ok(entry) => opened_item(alloc, &entry),
        Err(error) => Ok(Err(reported(error)?)),
    }
}

// Returns the items of all entries of a fat file, in order.
fn entry_items<'a, A: Allocator + Clone, B: Allocator + Clone>(
    alloc: B,
    container: &MultiArch<'a, A>,
) -> Result<Vec<Result<LinkView<'a, B>>, B>>
    ensures items { IfOk result (λ v. AreViewItems (entries_of (file_view container.now)) v.items) }
    ensures only { IsOkUnlessMemory result }
{
    let mut items = Vec::new(alloc.clone()?);
    for index in 0..container.narches {
        items.push(entry_item(alloc.clone()?, container, index)?)?;
    }
    Ok(items)
}

// Returns the items of a file that opened strictly.
fn file_items<'a, A: Allocator + Clone, B: Allocator + Clone>(
    alloc: B,
    file: &Mach<'a, A>,
) -> Result<Vec<Result<LinkView<'a, B>>, B>>
    ensures viewed { (bytes : List ℕ) → IsMach IsImage bytes file.now
        → IfOk result (λ v. (entries : List (Result FatEntry Fault)) × HasEntries bytes entries × AreViewItems entries v.items) }
    ensures refused { (bytes : List ℕ) → IsMach IsImage bytes file.now → IfErr result (ErrorMeets (ViewFault bytes)) }
{
    match file {
        Mach::Binary(image) => {
            let mut items = Vec::new(alloc.clone()?);
            items.push(image_item(alloc, image)?)?;
            Ok(items)
        }
        Mach::Fat(container) => {
            container.arches()?;
            entry_items(alloc, container)
        }
    }
}

/// Returns what a file links: an item for its one image, or one for each entry of a fat file, in order, and never fewer. An
/// item is the bytes of an archive, or the exports and the imports of an image that opens strictly, or else an error for a
/// fault in that entry alone. The whole fails if the file does not open, if the table of a fat file can't be read, or if
/// memory runs out.
pub fn link_view<'a, A: Allocator + Clone>(
    alloc: A,
    bytes: &'a [u8],
) -> Result<Vec<Result<LinkView<'a, A>>, A>>
    ensures viewed { IfOk result (λ v. (entries : List (Result FatEntry Fault)) × HasEntries bytes.now entries × AreViewItems entries v.items) }
    ensures only { (entries : List (Result FatEntry Fault)) → HasEntries bytes.now entries → IsOkUnlessMemory result }
    ensures refused { IfErr result (ErrorMeets (ViewFault bytes.now)) }
{
    let file = Mach::parse(alloc.clone()?, bytes)?;
    file_items(alloc, &file)
}
