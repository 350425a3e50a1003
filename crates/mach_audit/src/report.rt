//! The report of a file.

ghost use Rattle.std.specs.Prelude.{◌≡◌, option_copied, IfOk, IsOk};
ghost use Rattle.mach_audit.specs.Report.{archive_error, refusal_in};
ghost use Rattle.goblin_mach.specs.View.{IsReported};

use goblin_mach::Error;
use mach_archive::Member;
use mach_layout::LayoutFault;
use mach_signature::SignatureFault;
use std::alloc::{AllocError, Allocator, Global};
use std::fmt;

/// Returns an error unchanged, unless it is a refused allocation.
pub fn no_memory(error: Error) -> Result<Error, AllocError>
    ensures reported { IfOk result (λ e. (e ≡ error) × IsReported e) }
    ensures only { IsReported error → IsOk result }
{
    match error {
        Error::Memory(refused) => Err(refused),
        other => Ok(other),
    }
}

/// A list of an image, whose items have numbers.
#[derive(Clone, Copy, Debug)]
pub enum ItemList {
    /// The sections of the segment with this number.
    Sections(usize),
    /// The relocations of a section: the number of its segment, and its own in this.
    Relocations(usize, usize),
    /// The symbols.
    Symbols,
    /// The exports.
    Exports,
    /// The imports.
    Imports,
    /// The fixups.
    Fixups,
    /// The bindings.
    Bindings,
}

/// The place of an item that can't be read.
#[derive(Clone, Copy, Debug)]
pub struct FaultPlace {
    /// The list.
    pub list: ItemList,
    /// The item's number in it.
    pub index: usize,
}

impl fmt::Display for FaultPlace {
    fn fmt<W: fmt::Write>(&self, f: &mut fmt::Formatter<W>) -> fmt::Result {
        let index = self.index;
        match self.list {
            ItemList::Sections(segment) => write!(f, "segment {segment}, section {index}"),
            ItemList::Relocations(segment, section) => write!(
                f,
                "segment {segment}, section {section}, relocation {index}"
            ),
            ItemList::Symbols => write!(f, "symbol {index}"),
            ItemList::Exports => write!(f, "export {index}"),
            ItemList::Imports => write!(f, "import {index}"),
            ItemList::Fixups => write!(f, "fixup {index}"),
            ItemList::Bindings => write!(f, "binding {index}"),
        }
    }
}

/// An item that can't be read.
#[derive(Debug, Drop)]
pub struct ItemFault {
    /// Where it is.
    pub place: FaultPlace,
    /// The error.
    pub error: Error,
}

/// The report of the lists of one part of an image.
#[derive(Drop)]
#[derive_where(Debug)]
pub struct PartReport<A: Allocator = Global> {
    /// The first items that can't be read, ten at most.
    pub reported: Vec<ItemFault, A>,
    /// How many of the visited items can't be read.
    pub faults: usize,
    /// Whether there are more items than were visited.
    pub cut: bool,
}

/// The report of records that lie one after the other.
#[derive(Drop)]
#[derive_where(Debug)]
pub struct Records<A: Allocator = Global> {
    /// The report of those that begin within the bytes.
    pub in_bounds: PartReport<A>,
    /// How many more are claimed, past the end of the bytes; the greatest number if there are more than that.
    pub past: usize,
}

/// The report of a signature that can be read.
#[derive(Drop)]
#[derive_where(Debug)]
pub struct SignaturePart<A: Allocator = Global> {
    /// The first things that differ from what was signed, ten at most.
    pub reported: Vec<SignatureFault, A>,
    /// How many there are; the greatest number if there are more than that.
    pub faults: usize,
}

/// The report of an image's signature.
#[derive(Drop)]
#[derive_where(Debug)]
pub enum SignatureReport<A: Allocator = Global> {
    /// No command names a signature.
    Unsigned,
    /// It can't be read, for this error.
    Unreadable(Error),
    /// It can be read; this differs from what was signed.
    Signed(SignaturePart<A>),
}

/// The report of an image that opened, part by part.
#[derive(Drop)]
#[derive_where(Debug)]
pub struct Parts<A: Allocator = Global> {
    /// The sections of all segments.
    pub sections: Records<A>,
    /// The relocations of all sections; none if a section can't be read.
    pub relocations: Option<Records<A>>,
    /// The symbols.
    pub symbols: Records<A>,
    /// The exports of the trie.
    pub exports: PartReport<A>,
    /// The imports of the opcodes, in the order in which a linker lists them.
    pub imports: PartReport<A>,
    /// The fixups of the chains.
    pub fixups: PartReport<A>,
    /// The bindings of the opcodes and the chains.
    pub bindings: PartReport<A>,
    /// The signature.
    pub signature: SignatureReport<A>,
    /// The faults of its layout.
    pub layout: Vec<LayoutFault, A>,
}

/// The report of an image.
#[derive(Drop)]
#[derive_where(Debug)]
pub enum ImageReport<A: Allocator = Global> {
    /// It opens.
    Opens(Parts<A>),
    /// It opens in lossy mode only, for this error.
    OpensLossily(Error, Parts<A>),
    /// It doesn't open, for this error.
    Refused(Error),
}

/// The report of an item of an archive.
#[derive(Drop)]
#[derive_where(Debug)]
pub enum MemberReport<'a, A: Allocator = Global> {
    /// A member, with the report of its bytes as an image.
    Image(Member<'a>, ImageReport<A>),
    /// The error at which the members end, or for which the archive doesn't open.
    Refused(Error),
}

/// The report of an archive.
#[derive(Drop)]
#[derive_where(Debug)]
pub struct ArchiveReport<'a, A: Allocator = Global> {
    /// The reports of its members, in order.
    pub members: Vec<MemberReport<'a, A>, A>,
    /// Whether it has more members than were audited.
    pub cut: bool,
}

impl<'a, A: Allocator> ArchiveReport<'a, A> {
    /// Returns the error at which the members end, or for which the archive doesn't open.
    pub fn error(&self) -> Option<&Error>
        ensures { option_copied result ≡ archive_error self.now }
    {
        match self.members.last() {
            Some(MemberReport::Refused(error)) => Some(error),
            Some(MemberReport::Image(_, _)) => None,
            None => None,
        }
    }
}

/// The report of an entry of a fat file.
#[derive(Drop)]
#[derive_where(Debug)]
pub enum EntryReport<'a, A: Allocator = Global> {
    /// It is an archive.
    Archive(ArchiveReport<'a, A>),
    /// It is an image, or nothing that opens.
    Image(ImageReport<A>),
}

/// The report of a fat file.
#[derive(Drop)]
#[derive_where(Debug)]
pub struct FatReport<'a, A: Allocator = Global> {
    /// The number of entries in its header.
    pub count: usize,
    /// The error of its table, if it can't be read.
    pub table: Option<Error>,
    /// The faults of its table, if it can be read.
    pub container: Vec<LayoutFault, A>,
    /// The reports of its entries, in order.
    pub entries: Vec<EntryReport<'a, A>, A>,
    /// Whether it has more entries than were audited.
    pub cut: bool,
}

/// The report of an image or a fat file.
#[derive(Drop)]
#[derive_where(Debug)]
pub enum Report<'a, A: Allocator = Global> {
    /// It is an image, or nothing that opens.
    Image(ImageReport<A>),
    /// It is a fat file.
    Fat(FatReport<'a, A>),
}

/// The report of a file of any kind.
#[derive(Drop)]
#[derive_where(Debug)]
pub enum InputReport<'a, A: Allocator = Global> {
    /// It is an image or a fat file of 32 bits, or nothing that opens.
    Mach(Report<'a, A>),
    /// It is a fat file of 64 bits.
    Fat64(FatReport<'a, A>),
    /// It is a static library.
    Archive(ArchiveReport<'a, A>),
}

impl<A: Allocator> Report<'_, A> {
    /// Returns the error for which the whole file is refused, if it is: it opens in no mode, or is a fat file whose table can't
    /// be read.
    pub fn refusal(&self) -> Option<&Error>
        ensures { option_copied result ≡ refusal_in self.now }
    {
        match self {
            Report::Image(ImageReport::Refused(error)) => Some(error),
            Report::Fat(fat) => fat.table.as_ref(),
            Report::Image(_) => None,
        }
    }
}
