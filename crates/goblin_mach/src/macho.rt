//! One image.

ghost use Rattle.std.specs.Prelude.{◌≡◌, ◌↔◌, ◌<◌, ◌≤◌, ◌^◌, [], length, List, IsTrue, IfOk, IfErr};
ghost use Rattle.mach_base.specs.Answer.{ErrorMeets, IsOkUnlessMemory};
ghost use Rattle.mach_base.specs.Context.{pointer_size};
ghost use Rattle.mach_dyld.specs.BindViews.{bind_imports_view};
ghost use Rattle.mach_dyld.specs.Exports.{entries};
ghost use Rattle.mach_base.specs.Text.{texts};
ghost use Rattle.mach_dyld.specs.Imports as binds;
ghost use Rattle.mach_dyld.specs.Trie.{Entry};
ghost use Rattle.mach_dyld.specs.Walks.{HasGiven};
ghost use Rattle.goblin_mach.specs.Image.{Opens, LossyOpens, ImageFault, LossyFault};
ghost use Rattle.goblin_mach.specs.Subjects.{ListsImageImports, ImageImportsFault, ListsImageExports, ImageExportsFault, trie_len, trie_or_empty};

mod contents;
mod debug;
mod dyld;
pub mod look_up;
mod named;
mod named_symbols;
mod nearest;
mod offsets;
mod said;
mod slots;
mod streams;
mod tables;

use crate::fields::Fields;
pub use crate::macho::named_symbols::NamedSymbols;
pub use crate::macho::nearest::{Function, SymbolAt};
pub(crate) use crate::macho::nearest::{claimed_before, distance_above, section_number};
use crate::opened::Opened;
use crate::relocations::{RelocatedSection, relocations};
use mach_base::{Ctx, Result};
use mach_dyld::exports::{Export, ExportTrie, ExportWalk};
use mach_dyld::imports::{BindInterpreter, BindIterator, Import};
use mach_load::LoadCommand;
use mach_parts::header::{Header, MH_OBJECT};
use mach_parts::segment::Segments;
use mach_parts::symbols::{SymbolIterator, Symbols};
use std::alloc::{Allocator, Global};

/// A Mach-O image: an executable, a library or an object file for one cpu.
#[derive(Drop)]
pub struct MachO<'a, A: Allocator = Global> {
    /// The header, in one form for 32 and 64 bits.
    pub header: Header,
    /// The load commands, in order.
    pub load_commands: Vec<LoadCommand, A>,
    /// The segments, in the order of their commands.
    pub segments: Segments<'a, A>,
    /// The symbols of the last command that names any, if there is one.
    pub symbols: Option<Symbols<'a>>,
    /// The image's own name or "self", then the libraries that it names, in the order of their commands. A library's place
    /// here is its ordinal.
    pub libs: Vec<&'a str, A>,
    /// The paths on which its libraries are searched, in order.
    pub rpaths: Vec<&'a str, A>,
    /// The address at which it begins to run, or 0.
    pub entry: u64,
    /// Whether a thread's state holds the address at which it begins to run.
    pub old_style_entry: bool,
    /// The name by which the image is known as a library, if it has one.
    pub name: Option<&'a str>,
    /// Whether the image is little-endian.
    pub little_endian: bool,
    /// Whether the image has 64 bits.
    pub is_64: bool,
    export_trie: Option<ExportTrie<'a>>,
    bind_interpreter: Option<BindInterpreter<'a>>,
    bytes: &'a [u8],
    ctx: Ctx,
}

impl<'a, A: Allocator + Clone> MachO<'a, A> {
    ghost use Rattle.goblin_mach.specs.OpenImage.{IsImage, IsLossyImage};

    /// Opens the image at a place of the bytes. Each error except `Error::Memory` is a fault there.
    pub fn parse(alloc: A, bytes: &'a [u8], offset: usize) -> Result<MachO<'a, A>>
        ensures opened { IfOk result (IsImage bytes.now offset) }
        ensures only { Opens bytes.now offset → IsOkUnlessMemory result }
        ensures refused { IfErr result (ErrorMeets (ImageFault bytes.now offset)) }
    {
        MachO::open(alloc, bytes, offset)
    }

    /// Opens the image at a place of the bytes, and skips what can't be read of it. Data that aren't in the bytes are empty;
    /// symbol tables, names, ids and run paths are left out. Each error except `Error::Memory` is a fault there, also in
    /// lossy mode.
    pub fn parse_lossy(alloc: A, bytes: &'a [u8], offset: usize) -> Result<MachO<'a, A>>
        ensures opened { IfOk result (IsLossyImage bytes.now offset) }
        ensures only { LossyOpens bytes.now offset → IsOkUnlessMemory result }
        ensures refused { IfErr result (ErrorMeets (LossyFault bytes.now offset)) }
    {
        MachO::open_lossy(alloc, bytes, offset)
    }

    fn open(alloc: A, bytes: &'a [u8], offset: usize) -> Result<MachO<'a, A>>
        ensures opened { IfOk result (IsImage bytes.now offset) }
        ensures refused { IfErr result (ErrorMeets (ImageFault bytes.now offset)) }
    {
        let opened = Opened::read(alloc.clone()?, bytes, offset)?;
        let fields = Fields::read(alloc, bytes, opened.ctx, &opened.load_commands)?;
        Ok(MachO::of(bytes, opened, fields))
    }

    fn open_lossy(alloc: A, bytes: &'a [u8], offset: usize) -> Result<MachO<'a, A>>
        ensures opened { IfOk result (IsLossyImage bytes.now offset) }
        ensures refused { IfErr result (ErrorMeets (LossyFault bytes.now offset)) }
    {
        let opened = Opened::read(alloc.clone()?, bytes, offset)?;
        let fields = Fields::read_lossy(alloc, bytes, opened.ctx, &opened.load_commands)?;
        Ok(MachO::of(bytes, opened, fields))
    }
}

impl<'a, A: Allocator> MachO<'a, A> {
    ghost use Rattle.goblin_mach.specs.OpenImage.{IsMadeOf};

    // Builds the image from what was read.
    fn of(bytes: &'a [u8], opened: Opened<A>, fields: Fields<'a, A>) -> MachO<'a, A>
        ensures { IsMadeOf bytes.now opened fields.entry result }
    {
        MachO {
            header: opened.header,
            load_commands: opened.load_commands,
            segments: Segments::from(fields.segments),
            symbols: fields.once.symbols,
            libs: fields.libs,
            rpaths: fields.rpaths,
            entry: opened.address,
            old_style_entry: opened.old_style_entry,
            name: fields.once.name,
            little_endian: opened.ctx.le.is_little(),
            is_64: opened.ctx.is_big(),
            export_trie: fields.once.export_trie,
            bind_interpreter: fields.once.bind_interpreter,
            bytes,
            ctx: opened.ctx,
        }
    }
}

impl<'a, A: Allocator> MachO<'a, A> {
    ghost use Rattle.goblin_mach.specs.OpenImage.{trie_view, binds_view, ctx_view, bytes_view, segments_view};
    ghost use Rattle.mach_parts.specs.SymbolViews.{symbols_left};
    ghost use Rattle.goblin_mach.specs.Subjects.{symbols_view};

    /// Returns the symbols that the image holds, one after the other; none if it holds no table.
    pub fn symbols(&self) -> SymbolIterator<'a>
        ensures items { symbols_left result ≡ symbols_view self.now.symbols }
        ensures bounded { length (symbols_left result) < 2 ^ 64 }
    {
        match &self.symbols {
            Some(symbols) => symbols.iter(),
            None => SymbolIterator::default(),
        }
    }

    /// Returns the exports of the image, over the libraries that it holds; none if no command names a trie. Each error
    /// except `Error::Memory` is a fault in the trie.
    pub fn exports<B: Allocator + Clone>(&self, alloc: B) -> Result<Vec<Export<'a, B>, B>>
        ensures listed { IfOk result (λ v. ListsImageExports (trie_view self.now) (texts self.now.libs.items) (entries v.items)) }
        ensures only { (list : List Entry) → ListsImageExports (trie_view self.now) (texts self.now.libs.items) list → IsOkUnlessMemory result }
        ensures refused { IfErr result (ErrorMeets (ImageExportsFault (trie_view self.now) (texts self.now.libs.items))) }
        ensures few_exports { IfOk result (λ v. length v.items ≤ trie_len (trie_view self.now)) }
    {
        match &self.export_trie {
            Some(trie) => trie.exports(alloc, self.libs.as_slice()),
            None => Ok(Vec::new(alloc)),
        }
    }

    /// Starts a walk over the exports of the image, over the libraries that it holds, in the order of `exports`. There are
    /// none if no command names a trie. `next` lends each name until it is called again. The walk takes a mark for each byte
    /// of the trie, the open nodes and one name, and no allocation for an export.
    pub fn walk_exports<'b, B: Allocator + Clone>(
        &'b self,
        alloc: B,
    ) -> Result<ExportWalk<'a, 'b, B>>
        ensures given { IfOk result (λ w. HasGiven (trie_or_empty (trie_view self.now)) (texts self.now.libs.items) [] w) }
        ensures memory { IsOkUnlessMemory result }
    {
        match &self.export_trie {
            Some(trie) => trie.walk(alloc, self.libs.as_slice()),
            None => ExportTrie::empty().walk(alloc, self.libs.as_slice()),
        }
    }

    /// Returns an import for each bind of opcodes only; `bindings` has what dyld binds, chains of fixups too. They are over the
    /// libraries and the segments that the image holds. There are none if no command names binds. Each error except
    /// `Error::Memory` is a fault in the binds.
    pub fn imports<B: Allocator>(&self, alloc: B) -> Result<Vec<Import<'a>, B>>
        ensures listed { IfOk result (λ v. ListsImageImports (binds_view self.now) (pointer_size (ctx_view self.now).container)
            (texts self.now.libs.items) (segments_view self.now) (bind_imports_view v.items)) }
        ensures only { (list : List (binds.Import)) → ListsImageImports (binds_view self.now) (pointer_size (ctx_view self.now).container)
            (texts self.now.libs.items) (segments_view self.now) list → IsOkUnlessMemory result }
        ensures refused { IfErr result (ErrorMeets (ImageImportsFault (binds_view self.now) (pointer_size (ctx_view self.now).container)
            (texts self.now.libs.items) (segments_view self.now))) }
    {
        match &self.bind_interpreter {
            Some(binds) => {
                binds.imports(
                    alloc,
                    self.libs.as_slice(),
                    self.segments.as_slice(),
                    self.ctx,
                )
            }
            None => Ok(Vec::new(alloc)),
        }
    }

    ghost use Rattle.mach_dyld.specs.BindLeft.{imports_left};
    ghost use Rattle.goblin_mach.specs.Subjects.{AreImageBindItems};

    /// Returns an import for each bind of opcodes only, one at a time; `bindings` has what dyld binds, chains of fixups too. They
    /// are over the libraries and the segments that the image holds: those of the non-lazy stream, then those of the lazy
    /// stream. The first fault is the last item. There are none if no command names binds. It allocates nothing.
    pub fn iter_imports<'b>(&'b self) -> BindIterator<'a, 'b>
        ensures { AreImageBindItems (binds_view self.now) (pointer_size (ctx_view self.now).container)
            (texts self.now.libs.items) (segments_view self.now) (imports_left result) }
    {
        let Some(binds) = &self.bind_interpreter else {
            return BindIterator::default();
        };
        binds.iter(self.libs.as_slice(), self.segments.as_slice(), self.ctx)
    }

    /// Whether the image is an object file.
    pub fn is_object_file(&self) -> bool
        ensures { IsTrue result ↔ (self.now.header.filetype ≡ 1) }
    {
        self.header.filetype == MH_OBJECT
    }

    ghost use Rattle.std.specs.Prelude.{map};
    ghost use Rattle.mach_base.specs.Answer.{Gives};
    ghost use Rattle.goblin_mach.specs.Relocations.{relocated_view, relocated_sections_in};

    /// Returns the sections that have relocations, over the segments that the image holds: each with its number in its
    /// segment, counted from 0, and an iterator over its relocations. The first unreadable section of any segment is the
    /// error of the whole.
    pub fn relocations<B: Allocator>(&self, alloc: B) -> Result<Vec<RelocatedSection<'a>, B>>
        ensures { Gives (λ v. map relocated_view v.items) result (relocated_sections_in (ctx_view self.now) (bytes_view self.now) (segments_view self.now)) }
    {
        relocations(alloc, self.bytes, self.segments.as_slice(), self.ctx)
    }
}
