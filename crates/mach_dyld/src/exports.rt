//! The exports of an image, which a trie lists.

ghost use Rattle.std.specs.Prelude.{◌≡◌, ◌≤◌, ◌<◌, ◌+◌, ◌-◌, List, [], length, IfOk, IfErr};
ghost use Rattle.mach_base.specs.Answer.{ErrorMeets, IsOkUnlessMemory};
ghost use Rattle.mach_dyld.specs.Trie.{Entry, offset_of};
ghost use Rattle.mach_dyld.specs.Exports.{info_of, entries};
ghost use Rattle.mach_base.specs.Text.{texts};
ghost use Rattle.mach_dyld.specs.TrieRange.{empty_range, range_in, range_upto, trie_there, ListsExports, ExportsFault};
ghost use Rattle.mach_dyld.specs.Visits.{Visits};
ghost use Rattle.mach_dyld.specs.Walks.{HasGiven, nodes_left};

pub use crate::export_info::{
    EXPORT_SYMBOL_FLAGS_KIND_ABSOLUTE, EXPORT_SYMBOL_FLAGS_KIND_MASK,
    EXPORT_SYMBOL_FLAGS_KIND_REGULAR, EXPORT_SYMBOL_FLAGS_KIND_THREAD_LOCAL,
    EXPORT_SYMBOL_FLAGS_REEXPORT, EXPORT_SYMBOL_FLAGS_STUB_AND_RESOLVER,
    EXPORT_SYMBOL_FLAGS_WEAK_DEFINITION, ExportInfo, SymbolKind,
};
pub use crate::export_walk::ExportWalk;
pub use crate::trie::cursor::{NextExport, TrieCursor};
pub use crate::trie::walk::Open;
use crate::trie::walk::{Source, Walker, list_all};
use mach_base::{ByteCount, Result, Steps};
use mach_records::{DyldInfoCommand, LinkeditDataCommand};
use std::alloc::{Allocator, Global};
use std::fmt;
use std::marker::Model;

/// An export: a name that the image offers to others.
#[derive(Drop)]
#[derive_where(Debug)]
pub struct Export<'a, A: Allocator = Global> {
    /// The name, joined from the labels on its path.
    pub name: String<A>,
    /// Its meaning.
    pub info: ExportInfo<'a>,
    /// Always 0: a trie holds no sizes.
    pub size: usize,
    /// Of a regular export its offset from the image's base address, or the address of an absolute symbol; else 0.
    /// `MachO::export_address` returns the address, of stubs too.
    pub offset: u64,
}

impl<'a, A: Allocator> Export<'a, A> {
    /// Builds an export with a name.
    #[inline(always)]
    pub fn new(name: String<A>, info: ExportInfo<'a>) -> Self
        ensures name { result.name ≡ name }
        ensures info { result.info ≡ info.entry }
        ensures size { result.size ≡ 0 }
        ensures offset { result.offset ≡ offset_of (info_of info.entry) }
    {
        let offset = match info {
            ExportInfo::Regular { address, .. } => address,
            ExportInfo::Reexport { .. } | ExportInfo::Stub { .. } => 0,
        };
        Export {
            name,
            info,
            size: 0,
            offset,
        }
    }
}

/// An export trie in a range of the bytes. Its root is at the range's start.
#[derive(Drop)]
pub struct ExportTrie<'a> {
    pub(crate) bytes: &'a [u8],
    pub(crate) from: usize,
    pub(crate) upto: usize,
}

impl<'a> Model for ExportTrie<'a> {
    ghost use Rattle.std.specs.Prelude.{◌≤◌, length};
    ghost use Rattle.mach_dyld.specs.TrieRange.{TrieRange};

    ghost Value = { TrieRange };

    ghost view = { λ t. record { bytes = t.bytes.now; from = t.from; upto = t.upto } };

    ghost invariant = { λ t. (t.from ≤ t.upto) × (t.upto ≤ length t.bytes.now) };
}

impl fmt::Debug for ExportTrie<'_> {
    /// Formats the range and, of the bytes, only their number.
    fn fmt<W: fmt::Write>(&self, f: &mut fmt::Formatter<W>) -> fmt::Result {
        f.debug_struct("ExportTrie")
            .field("bytes", &ByteCount(self.bytes))
            .field("from", &self.from)
            .field("upto", &self.upto)
            .finish()
    }
}

impl<'a> ExportTrie<'a> {
    /// Returns the trie that an `LC_DYLD_INFO` or `LC_DYLD_INFO_ONLY` command names.
    pub fn new(bytes: &'a [u8], command: &DyldInfoCommand) -> Self
        ensures { result ≡ range_in bytes.now command.now.export_off command.now.export_size }
    {
        ExportTrie::in_range(bytes, command.export_off, command.export_size)
    }

    /// Returns the trie that an `LC_DYLD_EXPORTS_TRIE` command names.
    pub fn new_from_linkedit_data_command(bytes: &'a [u8], command: &LinkeditDataCommand) -> Self
        ensures { result ≡ range_in bytes.now command.now.dataoff command.now.datasize }
    {
        ExportTrie::in_range(bytes, command.dataoff, command.datasize)
    }

    /// Returns the trie of no bytes, which has no exports.
    pub fn empty() -> Self
        ensures { result ≡ empty_range }
    {
        ExportTrie {
            bytes: &[],
            from: 0,
            upto: 0,
        }
    }

    /// Returns the trie in a range of the bytes, or an empty trie if the range doesn't lie in the bytes.
    pub fn at(bytes: &'a [u8], from: usize, upto: usize) -> Self
        ensures { result ≡ range_upto bytes.now from upto }
    {
        if from <= upto && upto <= bytes.len() {
            ExportTrie { bytes, from, upto }
        } else {
            ExportTrie {
                bytes,
                from: 0,
                upto: 0,
            }
        }
    }

    /// Returns the place where the trie begins.
    pub fn from(&self) -> usize
        ensures { result ≡ self.now.from }
    {
        self.from
    }

    /// Returns the place after the trie's last byte.
    pub fn upto(&self) -> usize
        ensures { result ≡ self.now.upto }
    {
        self.upto
    }

    // Returns the trie in `size` bytes from an offset on, or an empty one if they don't lie in the bytes.
    fn in_range(bytes: &'a [u8], offset: u32, size: u32) -> Self
        ensures { result ≡ range_in bytes.now offset size }
    {
        let from = offset as usize;
        let upto = from + size as usize;
        if upto <= bytes.len() {
            ExportTrie { bytes, from, upto }
        } else {
            ExportTrie {
                bytes,
                from: 0,
                upto: 0,
            }
        }
    }

    /// Starts a walk over the exports, in the order of `exports`. Its `next` lends each name. It takes a mark for each byte
    /// of the trie, and no allocation for an export.
    pub fn walk<'b, A: Allocator + Clone>(
        &self,
        alloc: A,
        libs: &'b [&'a str],
    ) -> Result<ExportWalk<'a, 'b, A>>
        ensures given { IfOk result (λ w. HasGiven self.now (texts libs.now) [] w) }
        ensures left { IfOk result (λ w. nodes_left w ≤ self.now.upto - self.now.from) }
        ensures memory { IsOkUnlessMemory result }
    {
        let source = Source {
            bytes: self.bytes,
            libs,
            from: self.from,
            upto: self.upto,
        };
        let walker = Walker::start(&alloc, &source)?;
        Ok(ExportWalk { walker })
    }

    /// Returns the exports, depth first: each node's own export before those of its children. `libs` are the image's
    /// libraries, by ordinal. Each error except `Error::Memory` is a fault in the trie.
    pub fn exports<A: Allocator + Clone>(
        &self,
        alloc: A,
        libs: &[&'a str],
    ) -> Result<Vec<Export<'a, A>, A>>
        ensures listed { IfOk result (λ v. ListsExports self.now (texts libs.now) (entries v.items)) }
        ensures only { (list : List Entry) → ListsExports self.now (texts libs.now) list → IsOkUnlessMemory result }
        ensures refused { IfErr result (ErrorMeets (ExportsFault self.now (texts libs.now))) }
        ensures few_exports { IfOk result (λ v. length v.items ≤ self.now.upto - self.now.from) }
    {
        self.exports_counted(alloc, libs, &mut Steps::new())
    }

    /// Like `exports`, and adds the number of nodes visited to `steps`. If the result is Ok, that is the number of paths to
    /// nodes. It is never more than the number of different nodes to which paths lead.
    pub fn exports_counted<A: Allocator + Clone>(
        &self,
        alloc: A,
        libs: &[&'a str],
        steps: &mut Steps,
    ) -> Result<Vec<Export<'a, A>, A>>
        ensures listed { IfOk result (λ v. ListsExports self.now (texts libs.now) (entries v.items)) }
        ensures only { (list : List Entry) → ListsExports self.now (texts libs.now) list → IsOkUnlessMemory result }
        ensures refused { IfErr result (ErrorMeets (ExportsFault self.now (texts libs.now))) }
        ensures few_exports { IfOk result (λ v. length v.items ≤ self.now.upto - self.now.from) }
        ensures visits { Visits (trie_there self.now (texts libs.now)) self.now.from steps.old steps.new result }
        ensures few_visits { steps.new ≤ steps.old + (self.now.upto - self.now.from) }
    {
        let source = Source {
            bytes: self.bytes,
            libs,
            from: self.from,
            upto: self.upto,
        };
        list_all(&alloc, &source, steps)
    }
}
