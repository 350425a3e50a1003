//! The meaning of an export, by its flags.

ghost use Rattle.std.specs.Prelude.{◌≡◌, ◌==◌, ◌+◌, ◌%◌, ◌^◌, codes, if◌then◌else◌};
ghost use Rattle.mach_base.specs.Answer.{Reads};
ghost use Rattle.mach_dyld.specs.Nodes.{library, name_of, regular_at, reexport_at, stub_at, info_at};
ghost use Rattle.mach_dyld.specs.ExportAddresses.{export_offset, export_address, resolver_address};
ghost use Rattle.mach_dyld.specs.Exports.{text_in, info_of};
ghost use Rattle.mach_base.specs.Text.{texts};
ghost use Rattle.mach_dyld.specs.SymbolKind.{symbol_kind, kind_name};

use mach_base::{Error, Result, Uleb128, read_text, uleb};

/// The bits of an export's flags that hold its kind.
pub const EXPORT_SYMBOL_FLAGS_KIND_MASK: u64 = 0x03;

/// The kind of an ordinary symbol.
pub const EXPORT_SYMBOL_FLAGS_KIND_REGULAR: u64 = 0x00;

/// The kind of a symbol of which every thread has its own copy.
pub const EXPORT_SYMBOL_FLAGS_KIND_THREAD_LOCAL: u64 = 0x01;

/// The kind of a symbol whose address doesn't move with the image.
pub const EXPORT_SYMBOL_FLAGS_KIND_ABSOLUTE: u64 = 0x02;

/// The definition is weak: another may replace it.
pub const EXPORT_SYMBOL_FLAGS_WEAK_DEFINITION: u64 = 0x04;

/// The export comes from another library.
pub const EXPORT_SYMBOL_FLAGS_REEXPORT: u64 = 0x08;

/// The export is a stub with a resolver.
pub const EXPORT_SYMBOL_FLAGS_STUB_AND_RESOLVER: u64 = 0x10;

/// The kind of an exported symbol.
#[derive(Clone, Copy, Debug)]
pub enum SymbolKind {
    /// Kind 0: an ordinary symbol.
    Regular,
    /// Kind 2: its address doesn't move with the image.
    Absolute,
    /// Kind 1: every thread has its own copy.
    ThreadLocal,
    /// Kind 3, with all the flags.
    UnknownSymbolKind(u64),
}

impl SymbolKind {
    /// Returns the kind in the low two bits of an export's flags.
    pub fn new(flags: u64) -> SymbolKind
        ensures { result ≡ symbol_kind flags }
    {
        match flags & EXPORT_SYMBOL_FLAGS_KIND_MASK {
            EXPORT_SYMBOL_FLAGS_KIND_REGULAR => SymbolKind::Regular,
            EXPORT_SYMBOL_FLAGS_KIND_THREAD_LOCAL => SymbolKind::ThreadLocal,
            EXPORT_SYMBOL_FLAGS_KIND_ABSOLUTE => SymbolKind::Absolute,
            _ => SymbolKind::UnknownSymbolKind(flags),
        }
    }

    /// Returns the name of the kind.
    pub fn to_str(&self) -> &'static str
        ensures { result.now ≡ kind_name self.now }
    {
        match self {
            SymbolKind::Regular => "Regular",
            SymbolKind::Absolute => "Absolute",
            SymbolKind::ThreadLocal => "Thread_LOCAL",
            SymbolKind::UnknownSymbolKind(_) => "Unknown",
        }
    }
}

/// The meaning of an export.
#[derive(Debug, Drop)]
pub enum ExportInfo<'a> {
    /// An address in the image, as an offset from the image's base address, which `MachO::base` returns. Of an absolute symbol
    /// it is the address itself.
    Regular {
        /// That offset, or the address of an absolute symbol. `ExportInfo::address` returns the address of both.
        address: u64,
        /// Its flags.
        flags: u64,
    },
    /// A symbol of another library, under its own name or another.
    Reexport {
        /// The library.
        lib: &'a str,
        /// The name in that library, if it is another one.
        lib_symbol_name: Option<&'a str>,
        /// Its flags.
        flags: u64,
    },
    /// A stub, and a resolver that returns the address to use. Both are offsets from the image's base address.
    Stub {
        /// The offset of the stub.
        stub_offset: Uleb128,
        /// The offset of the resolver.
        resolver_offset: Uleb128,
        /// Its flags.
        flags: u64,
    },
}

impl<'a> ExportInfo<'a> {
    /// Reads an export with these flags, whose data begin at an offset, or returns the first fault in reading order. `libs`
    /// are the image's libraries, by ordinal. An ordinal past their end is `Error::Malformed`; it is looked up after the
    /// name of the re-export is read.
    #[tactic(auto, unfolding(crate::specs::Nodes::info_at))]
    pub fn parse(
        bytes: &'a [u8],
        libs: &[&'a str],
        flags: u64,
        offset: usize,
    ) -> Result<ExportInfo<'a>>
        ensures { Reads info_of result (info_at bytes.now (texts libs.now) flags offset) }
    {
        match SymbolKind::new(flags) {
            SymbolKind::UnknownSymbolKind(_) => regular(bytes, flags, offset),
            _ if flags & EXPORT_SYMBOL_FLAGS_REEXPORT != 0 => reexport(bytes, libs, flags, offset),
            SymbolKind::Regular if flags & EXPORT_SYMBOL_FLAGS_STUB_AND_RESOLVER != 0 => {
                stub(bytes, flags, offset)
            }
            _ => regular(bytes, flags, offset),
        }
    }
}

impl ExportInfo<'_> {
    /// Returns the number that the trie has for the export: its offset from the base of the image, or the address of an
    /// absolute symbol. Of a stub it is the stub's. A re-export has none.
    pub fn offset(&self) -> Option<u64>
        ensures { result ≡ export_offset (info_of self.now) }
    {
        match self {
            ExportInfo::Regular { address, .. } => Some(*address),
            ExportInfo::Reexport { .. } => None,
            ExportInfo::Stub { stub_offset, .. } => Some(u64::from(*stub_offset)),
        }
    }

    /// Returns the address of the export, before sliding, in an image with this base (`MachO::base`): base plus offset, and of
    /// an absolute symbol its number. The sum wraps at 2^64, as dyld's does. A re-export has none.
    pub fn address(&self, base: u64) -> Option<u64>
        ensures { result ≡ export_address base (info_of self.now) }
    {
        match self {
            ExportInfo::Regular { address, flags } => Some(regular_address(base, *address, *flags)),
            ExportInfo::Reexport { .. } => None,
            ExportInfo::Stub { stub_offset, .. } => {
                Some(base.wrapping_add(u64::from(*stub_offset)))
            }
        }
    }

    /// Returns the address of a stub's resolver, before sliding, in an image with this base. Other exports have none.
    pub fn resolver_address(&self, base: u64) -> Option<u64>
        ensures { result ≡ resolver_address base (info_of self.now) }
    {
        match self {
            ExportInfo::Stub {
                resolver_offset,
                ..
            } => Some(base.wrapping_add(u64::from(*resolver_offset))),
            ExportInfo::Regular { .. } | ExportInfo::Reexport { .. } => None,
        }
    }
}

// Returns the address of a regular export with this number and these flags, in an image with this base.
fn regular_address(base: u64, number: u64, flags: u64) -> u64
    ensures { result ≡ (if flags % 4 == 2 then number else (base + number) % 2 ^ 64) }
{
    match SymbolKind::new(flags) {
        SymbolKind::Absolute => number,
        _ => base.wrapping_add(number),
    }
}

// Returns the library with an ordinal.
fn library<'a>(libs: &[&'a str], ordinal: u64) -> Result<&'a str>
    ensures { Reads (λ lib. lib.now) result (library (texts libs.now) ordinal) }
{
    match libs.get(ordinal as usize) {
        Some(lib) => Ok(*lib),
        None => Err(Error::Malformed("an ordinal names no library")),
    }
}

// Returns the name in the other library, if it differs from the export's own.
fn name_of(text: &str) -> Option<&str>
    ensures { text_in result ≡ name_of text.now }
{
    if text.is_empty() { None } else { Some(text) }
}

#[tactic(auto, unfolding(crate::specs::Nodes::regular_at))]
fn regular(bytes: &[u8], flags: u64, place: usize) -> Result<ExportInfo<'_>>
    ensures { Reads info_of result (regular_at bytes.now flags place) }
{
    let (address, _) = uleb(bytes, place)?;
    Ok(ExportInfo::Regular { address, flags })
}

#[tactic(auto, unfolding(crate::specs::Nodes::reexport_at))]
fn reexport<'a>(
    bytes: &'a [u8],
    libs: &[&'a str],
    flags: u64,
    place: usize,
) -> Result<ExportInfo<'a>>
    ensures { Reads info_of result (reexport_at bytes.now (texts libs.now) flags place) }
{
    let (ordinal, place) = uleb(bytes, place)?;
    let name = read_text(bytes, place)?;
    let lib = library(libs, ordinal)?;
    let lib_symbol_name = name_of(name);
    Ok(ExportInfo::Reexport {
        lib,
        lib_symbol_name,
        flags,
    })
}

// Reads a stub's two offsets, one after the other.
#[tactic(auto, unfolding(crate::specs::Nodes::stub_at))]
fn stub(bytes: &[u8], flags: u64, place: usize) -> Result<ExportInfo<'_>>
    ensures { Reads info_of result (stub_at bytes.now flags place) }
{
    let stub_offset = Uleb128::parse(bytes, place)?;
    let resolver_offset = Uleb128::parse(bytes, place + stub_offset.size())?;
    Ok(ExportInfo::Stub {
        stub_offset,
        resolver_offset,
        flags,
    })
}
