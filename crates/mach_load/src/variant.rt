//! The records of load commands, by the command's number.

ghost use Rattle.std.specs.Prelude.{◌≡◌, ◌<◌, ◌≤◌, ◌^◌, length, Ok, Err, IfOk, IfErr, IfSome, IfNone};
ghost use Rattle.mach_base.specs.Answer.{Reads};
ghost use Rattle.mach_base.specs.Fault.{too_big};
ghost use Rattle.mach_base.specs.Record.{number_among, record_at};
ghost use Rattle.mach_records.specs.LoadCommandHeader.{header_fields, header_values};
ghost use Rattle.mach_load.specs.Commands.{row_of};
ghost use Rattle.mach_load.specs.Command.{command_by, IsHeldBy, IsSizeOf};
ghost use Rattle.mach_load.specs.Variants.{variant_values, command_of};

pub(crate) mod debug;

use crate::thread::ThreadCommand;
use mach_base::{Endian, Error, Record, Result, ScrollError, rest_at};
use mach_records::{
    BuildVersionCommand, DyldInfoCommand, DylibCommand, DylinkerCommand, DysymtabCommand,
    EncryptionInfoCommand32, EncryptionInfoCommand64, EntryPointCommand, FilesetEntryCommand,
    FvmfileCommand, FvmlibCommand, IdentCommand, LC_BUILD_VERSION, LC_CODE_SIGNATURE,
    LC_DATA_IN_CODE, LC_DYLD_CHAINED_FIXUPS, LC_DYLD_ENVIRONMENT, LC_DYLD_EXPORTS_TRIE,
    LC_DYLD_INFO, LC_DYLD_INFO_ONLY, LC_DYLIB_CODE_SIGN_DRS, LC_DYSYMTAB, LC_ENCRYPTION_INFO,
    LC_ENCRYPTION_INFO_64, LC_FILESET_ENTRY, LC_FUNCTION_STARTS, LC_FVMFILE, LC_ID_DYLIB,
    LC_ID_DYLINKER, LC_IDENT, LC_IDFVMLIB, LC_LAZY_LOAD_DYLIB, LC_LINKER_OPTIMIZATION_HINT,
    LC_LINKER_OPTION, LC_LOAD_DYLIB, LC_LOAD_DYLINKER, LC_LOAD_UPWARD_DYLIB, LC_LOAD_WEAK_DYLIB,
    LC_LOADFVMLIB, LC_MAIN, LC_NOTE, LC_PREBIND_CKSUM, LC_PREBOUND_DYLIB, LC_PREPAGE,
    LC_REEXPORT_DYLIB, LC_ROUTINES, LC_ROUTINES_64, LC_RPATH, LC_SEGMENT, LC_SEGMENT_64,
    LC_SEGMENT_SPLIT_INFO, LC_SOURCE_VERSION, LC_SUB_CLIENT, LC_SUB_FRAMEWORK, LC_SUB_LIBRARY,
    LC_SUB_UMBRELLA, LC_SYMSEG, LC_SYMTAB, LC_THREAD, LC_TWOLEVEL_HINTS, LC_UNIXTHREAD, LC_UUID,
    LC_VERSION_MIN_IPHONEOS, LC_VERSION_MIN_MACOSX, LC_VERSION_MIN_TVOS, LC_VERSION_MIN_WATCHOS,
    LinkeditDataCommand, LoadCommandHeader, NoteCommand, PrebindCksumCommand, PreboundDylibCommand,
    RoutinesCommand32, RoutinesCommand64, RpathCommand, SegmentCommand32, SegmentCommand64,
    SourceVersionCommand, SubClientCommand, SubFrameworkCommand, SubLibraryCommand,
    SubUmbrellaCommand, SymsegCommand, SymtabCommand, TwolevelHintsCommand, UuidCommand,
    VersionMinCommand,
};

/// The record of a load command, by its number.
#[derive(Clone, Copy)]
pub enum CommandVariant {
    /// A segment of a 32-bit image.
    Segment32(SegmentCommand32),
    /// The symbol table.
    Symtab(SymtabCommand),
    /// Symbols for gdb (obsolete).
    Symseg(SymsegCommand),
    /// The state of a thread.
    Thread(ThreadCommand),
    /// The state of a thread with a stack. An old program starts at its instruction pointer.
    Unixthread(ThreadCommand),
    /// A library at a fixed address that the image needs (obsolete).
    LoadFvmlib(FvmlibCommand),
    /// The name of a library at a fixed address (obsolete).
    IdFvmlib(FvmlibCommand),
    /// Texts that identify the object (obsolete).
    Ident(IdentCommand),
    /// A file at a fixed address.
    Fvmfile(FvmfileCommand),
    /// Pages to read ahead.
    Prepage(LoadCommandHeader),
    /// The symbols that the dynamic linker needs.
    Dysymtab(DysymtabCommand),
    /// A library that the image needs.
    LoadDylib(DylibCommand),
    /// The name by which the image itself is known as a library.
    IdDylib(DylibCommand),
    /// The dynamic linker that the image requires.
    LoadDylinker(DylinkerCommand),
    /// The name of the image as a dynamic linker.
    IdDylinker(DylinkerCommand),
    /// A library that the image was prebound to.
    PreboundDylib(PreboundDylibCommand),
    /// The initialization routine of a 32-bit library.
    Routines32(RoutinesCommand32),
    /// The umbrella that the image is a part of.
    SubFramework(SubFrameworkCommand),
    /// An umbrella within this one.
    SubUmbrella(SubUmbrellaCommand),
    /// A client that may link against the image.
    SubClient(SubClientCommand),
    /// A library within this umbrella.
    SubLibrary(SubLibraryCommand),
    /// Hints for name lookup in a two-level namespace.
    TwolevelHints(TwolevelHintsCommand),
    /// The checksum of prebinding.
    PrebindCksum(PrebindCksumCommand),
    /// A segment of a 64-bit image.
    Segment64(SegmentCommand64),
    /// The initialization routine of a 64-bit library.
    Routines64(RoutinesCommand64),
    /// The unique number of the image.
    Uuid(UuidCommand),
    /// The place of the code signature.
    CodeSignature(LinkeditDataCommand),
    /// The place of the information for splitting segments.
    SegmentSplitInfo(LinkeditDataCommand),
    /// A library that is loaded at its first use.
    LazyLoadDylib(DylibCommand),
    /// The encrypted range of a 32-bit image.
    EncryptionInfo32(EncryptionInfoCommand32),
    /// The places of the dynamic linker's information.
    DyldInfo(DyldInfoCommand),
    /// The oldest macOS that the image runs on.
    VersionMinMacosx(VersionMinCommand),
    /// The oldest iOS.
    VersionMinIphoneos(VersionMinCommand),
    /// The place of the function starts.
    FunctionStarts(LinkeditDataCommand),
    /// An environment variable for the dynamic linker.
    DyldEnvironment(DylinkerCommand),
    /// The place of the data-in-code table.
    DataInCode(LinkeditDataCommand),
    /// The version of the sources.
    SourceVersion(SourceVersionCommand),
    /// The place of the requirements on the signatures of libraries.
    DylibCodeSignDrs(LinkeditDataCommand),
    /// The encrypted range of a 64-bit image.
    EncryptionInfo64(EncryptionInfoCommand64),
    /// Options for the linker, in an object file.
    LinkerOption(LinkeditDataCommand),
    /// The place of the hints for the linker.
    LinkerOptimizationHint(LinkeditDataCommand),
    /// The oldest tvOS.
    VersionMinTvos(VersionMinCommand),
    /// The oldest watchOS.
    VersionMinWatchos(VersionMinCommand),
    /// Data of an arbitrary owner.
    Note(NoteCommand),
    /// The system that the image was built for, and the tools that it was built with.
    BuildVersion(BuildVersionCommand),
    /// A library that may be missing.
    LoadWeakDylib(DylibCommand),
    /// A path in which libraries are searched for.
    Rpath(RpathCommand),
    /// A library whose symbols the image re-exports.
    ReexportDylib(DylibCommand),
    /// The dynamic linker's information, in an image that has no other.
    DyldInfoOnly(DyldInfoCommand),
    /// A library that itself needs the image.
    LoadUpwardDylib(DylibCommand),
    /// Where the program begins.
    Main(EntryPointCommand),
    /// The place of the exports trie.
    DyldExportsTrie(LinkeditDataCommand),
    /// The place of the chained fixups.
    DyldChainedFixups(LinkeditDataCommand),
    /// An image within a file set.
    FilesetEntry(FilesetEntryCommand),
    /// A command with another number. Only its header is read.
    Unimplemented(LoadCommandHeader),
}

impl CommandVariant {
    // Returns the command's number and its `cmdsize`.
    fn header(&self) -> (u32, u32)
        ensures number { result.0 ≡ number_among (variant_values self.now) 0 }
        ensures size { result.1 ≡ number_among (variant_values self.now) 1 }
    {
        match self {
            CommandVariant::Segment32(c) => (c.cmd, c.cmdsize),
            CommandVariant::Symtab(c) => (c.cmd, c.cmdsize),
            CommandVariant::Symseg(c) => (c.cmd, c.cmdsize),
            CommandVariant::Thread(c) | CommandVariant::Unixthread(c) => (c.cmd, c.cmdsize),
            CommandVariant::LoadFvmlib(c) | CommandVariant::IdFvmlib(c) => (c.cmd, c.cmdsize),
            CommandVariant::Ident(c) => (c.cmd, c.cmdsize),
            CommandVariant::Fvmfile(c) => (c.cmd, c.cmdsize),
            CommandVariant::Prepage(c) | CommandVariant::Unimplemented(c) => (c.cmd, c.cmdsize),
            CommandVariant::Dysymtab(c) => (c.cmd, c.cmdsize),
            CommandVariant::LoadDylib(c)
            | CommandVariant::IdDylib(c)
            | CommandVariant::LazyLoadDylib(c)
            | CommandVariant::LoadWeakDylib(c)
            | CommandVariant::ReexportDylib(c)
            | CommandVariant::LoadUpwardDylib(c) => (c.cmd, c.cmdsize),
            CommandVariant::LoadDylinker(c)
            | CommandVariant::IdDylinker(c)
            | CommandVariant::DyldEnvironment(c) => (c.cmd, c.cmdsize),
            CommandVariant::PreboundDylib(c) => (c.cmd, c.cmdsize),
            CommandVariant::Routines32(c) => (c.cmd, c.cmdsize),
            CommandVariant::SubFramework(c) => (c.cmd, c.cmdsize),
            CommandVariant::SubUmbrella(c) => (c.cmd, c.cmdsize),
            CommandVariant::SubClient(c) => (c.cmd, c.cmdsize),
            CommandVariant::SubLibrary(c) => (c.cmd, c.cmdsize),
            CommandVariant::TwolevelHints(c) => (c.cmd, c.cmdsize),
            CommandVariant::PrebindCksum(c) => (c.cmd, c.cmdsize),
            CommandVariant::Segment64(c) => (c.cmd, c.cmdsize),
            CommandVariant::Routines64(c) => (c.cmd, c.cmdsize),
            CommandVariant::Uuid(c) => (c.cmd, c.cmdsize),
            CommandVariant::CodeSignature(c)
            | CommandVariant::SegmentSplitInfo(c)
            | CommandVariant::FunctionStarts(c)
            | CommandVariant::DataInCode(c)
            | CommandVariant::DylibCodeSignDrs(c)
            | CommandVariant::LinkerOption(c)
            | CommandVariant::LinkerOptimizationHint(c)
            | CommandVariant::DyldExportsTrie(c)
            | CommandVariant::DyldChainedFixups(c) => (c.cmd, c.cmdsize),
            CommandVariant::EncryptionInfo32(c) => (c.cmd, c.cmdsize),
            CommandVariant::DyldInfo(c) | CommandVariant::DyldInfoOnly(c) => (c.cmd, c.cmdsize),
            CommandVariant::VersionMinMacosx(c)
            | CommandVariant::VersionMinIphoneos(c)
            | CommandVariant::VersionMinTvos(c)
            | CommandVariant::VersionMinWatchos(c) => (c.cmd, c.cmdsize),
            CommandVariant::SourceVersion(c) => (c.cmd, c.cmdsize),
            CommandVariant::EncryptionInfo64(c) => (c.cmd, c.cmdsize),
            CommandVariant::Note(c) => (c.cmd, c.cmdsize),
            CommandVariant::BuildVersion(c) => (c.cmd, c.cmdsize),
            CommandVariant::Rpath(c) => (c.cmd, c.cmdsize),
            CommandVariant::Main(c) => (c.cmd, c.cmdsize),
            CommandVariant::FilesetEntry(c) => (c.cmd, c.cmdsize),
        }
    }

    /// Returns the command's number, one of the `LC_` constants.
    pub fn cmd(&self) -> u32
        ensures { result ≡ number_among (variant_values self.now) 0 }
    {
        self.header().0
    }

    /// Returns the distance in bytes from this command to the next one.
    pub fn cmdsize(&self) -> usize
        ensures value { result ≡ number_among (variant_values self.now) 1 }
        ensures fits { result < 2 ^ 32 }
    {
        self.header().1 as usize
    }

    /// Reads the record of the command at `offset`, whose header was already read.
    #[tactic(auto, unfolding(crate::specs::Commands::row_of))]
    pub(crate) fn read(
        bytes: &[u8],
        offset: usize,
        le: Endian,
        header: LoadCommandHeader,
    ) -> Result<Self>
        requires { record_at le header_fields bytes.now offset ≡ Ok (header_values header) }
        ensures { Reads (λ v. command_of (record { offset = offset; command = v })) result (command_by (row_of header.cmd) le bytes.now offset) }
    {
        match header.cmd {
            LC_THREAD => Ok(CommandVariant::Thread(ThreadCommand::read(bytes, offset, le)?)),
            LC_UNIXTHREAD => Ok(CommandVariant::Unixthread(ThreadCommand::read(
                bytes, offset, le,
            )?)),
            _ => {
                let rest = rest_at(bytes, offset);
                let len = rest.len();
                let mut size = 0;
                match CommandVariant::quick(rest, le, header, &mut size) {
                    Some(found) => Ok(found),
                    None => Err(Error::Scroll(ScrollError::TooBig { size, len })),
                }
            }
        }
    }

    /// Does the same for a command at the start of some bytes that is no thread. If
    /// the record does not fit, returns `None` and stores its size in `lacking`.
    #[tactic(auto, unfolding(crate::specs::Commands::row_of))]
    #[inline(always)]
    pub(crate) fn quick(
        rest: &[u8],
        le: Endian,
        header: LoadCommandHeader,
        lacking: &mut usize,
    ) -> Option<Self>
        requires some { 0 < length rest.now }
        requires here { record_at le header_fields rest.now 0 ≡ Ok (header_values header) }
        requires no_thread { (4 ≡ header.cmd → ⊥) × (5 ≡ header.cmd → ⊥) }
        ensures ok { IfSome result (λ v. command_by (row_of header.cmd) le rest.now 0 ≡ Ok (command_of (record { offset = 0; command = v }))) }
        ensures err { IfNone result (command_by (row_of header.cmd) le rest.now 0 ≡ Err (too_big lacking.new (length rest.now))) }
    {
        if let Some(size) = lacking_size(header.cmd, rest.len()) {
            *lacking = size;
            return None;
        }
        Some(match header.cmd {
            LC_SEGMENT => Self::Segment32(held(rest, le)),
            LC_SYMTAB => Self::Symtab(held(rest, le)),
            LC_SYMSEG => Self::Symseg(held(rest, le)),
            LC_LOADFVMLIB => Self::LoadFvmlib(held(rest, le)),
            LC_IDFVMLIB => Self::IdFvmlib(held(rest, le)),
            LC_IDENT => Self::Ident(held(rest, le)),
            LC_FVMFILE => Self::Fvmfile(held(rest, le)),
            LC_PREPAGE => Self::Prepage(header),
            LC_DYSYMTAB => Self::Dysymtab(held(rest, le)),
            LC_LOAD_DYLIB => Self::LoadDylib(held(rest, le)),
            LC_ID_DYLIB => Self::IdDylib(held(rest, le)),
            LC_LOAD_DYLINKER => Self::LoadDylinker(held(rest, le)),
            LC_ID_DYLINKER => Self::IdDylinker(held(rest, le)),
            LC_PREBOUND_DYLIB => Self::PreboundDylib(held(rest, le)),
            LC_ROUTINES => Self::Routines32(held(rest, le)),
            LC_SUB_FRAMEWORK => Self::SubFramework(held(rest, le)),
            LC_SUB_UMBRELLA => Self::SubUmbrella(held(rest, le)),
            LC_SUB_CLIENT => Self::SubClient(held(rest, le)),
            LC_SUB_LIBRARY => Self::SubLibrary(held(rest, le)),
            LC_TWOLEVEL_HINTS => Self::TwolevelHints(held(rest, le)),
            LC_PREBIND_CKSUM => Self::PrebindCksum(held(rest, le)),
            LC_SEGMENT_64 => Self::Segment64(held(rest, le)),
            LC_ROUTINES_64 => Self::Routines64(held(rest, le)),
            LC_UUID => Self::Uuid(held(rest, le)),
            LC_CODE_SIGNATURE => Self::CodeSignature(held(rest, le)),
            LC_SEGMENT_SPLIT_INFO => Self::SegmentSplitInfo(held(rest, le)),
            LC_LAZY_LOAD_DYLIB => Self::LazyLoadDylib(held(rest, le)),
            LC_ENCRYPTION_INFO => Self::EncryptionInfo32(held(rest, le)),
            LC_DYLD_INFO => Self::DyldInfo(held(rest, le)),
            LC_VERSION_MIN_MACOSX => Self::VersionMinMacosx(held(rest, le)),
            LC_VERSION_MIN_IPHONEOS => Self::VersionMinIphoneos(held(rest, le)),
            LC_FUNCTION_STARTS => Self::FunctionStarts(held(rest, le)),
            LC_DYLD_ENVIRONMENT => Self::DyldEnvironment(held(rest, le)),
            LC_DATA_IN_CODE => Self::DataInCode(held(rest, le)),
            LC_SOURCE_VERSION => Self::SourceVersion(held(rest, le)),
            LC_DYLIB_CODE_SIGN_DRS => Self::DylibCodeSignDrs(held(rest, le)),
            LC_ENCRYPTION_INFO_64 => Self::EncryptionInfo64(held(rest, le)),
            LC_LINKER_OPTION => Self::LinkerOption(held(rest, le)),
            LC_LINKER_OPTIMIZATION_HINT => Self::LinkerOptimizationHint(held(rest, le)),
            LC_VERSION_MIN_TVOS => Self::VersionMinTvos(held(rest, le)),
            LC_VERSION_MIN_WATCHOS => Self::VersionMinWatchos(held(rest, le)),
            LC_NOTE => Self::Note(held(rest, le)),
            LC_BUILD_VERSION => Self::BuildVersion(held(rest, le)),
            LC_LOAD_WEAK_DYLIB => Self::LoadWeakDylib(held(rest, le)),
            LC_RPATH => Self::Rpath(held(rest, le)),
            LC_REEXPORT_DYLIB => Self::ReexportDylib(held(rest, le)),
            LC_DYLD_INFO_ONLY => Self::DyldInfoOnly(held(rest, le)),
            LC_LOAD_UPWARD_DYLIB => Self::LoadUpwardDylib(held(rest, le)),
            LC_MAIN => Self::Main(held(rest, le)),
            LC_DYLD_EXPORTS_TRIE => Self::DyldExportsTrie(held(rest, le)),
            LC_DYLD_CHAINED_FIXUPS => Self::DyldChainedFixups(held(rest, le)),
            LC_FILESET_ENTRY => Self::FilesetEntry(held(rest, le)),
            _ => Self::Unimplemented(header),
        })
    }
}

// The most bytes that the record of a command has that is no thread.
const LONGEST_RECORD: usize = 80;

// Returns the size of the record of a command that is no thread, if `len` bytes are fewer.
#[inline(always)]
fn lacking_size(cmd: u32, len: usize) -> Option<usize>
    requires no_thread { (4 ≡ cmd → ⊥) × (5 ≡ cmd → ⊥) }
    ensures some { IfSome result (λ size. IsSizeOf size (row_of cmd).body × (len < size)) }
    ensures none { IfNone result (IsHeldBy len (row_of cmd).body) }
{
    if len >= LONGEST_RECORD {
        return None;
    }
    let size = record_size(cmd);
    if len < size { Some(size) } else { None }
}

// Returns the size of the record of a command that is no thread.
#[tactic(auto, unfolding(crate::specs::Commands::row_of))]
#[cold]
#[inline(never)]
fn record_size(cmd: u32) -> usize
    requires no_thread { (4 ≡ cmd → ⊥) × (5 ≡ cmd → ⊥) }
    ensures { IsSizeOf result (row_of cmd).body }
{
    match cmd {
        LC_SEGMENT => SegmentCommand32::SIZE,
        LC_SYMTAB => SymtabCommand::SIZE,
        LC_SYMSEG => SymsegCommand::SIZE,
        LC_LOADFVMLIB | LC_IDFVMLIB => FvmlibCommand::SIZE,
        LC_IDENT => IdentCommand::SIZE,
        LC_FVMFILE => FvmfileCommand::SIZE,
        LC_DYSYMTAB => DysymtabCommand::SIZE,
        LC_LOAD_DYLIB
        | LC_ID_DYLIB
        | LC_LAZY_LOAD_DYLIB
        | LC_LOAD_WEAK_DYLIB
        | LC_REEXPORT_DYLIB
        | LC_LOAD_UPWARD_DYLIB => DylibCommand::SIZE,
        LC_LOAD_DYLINKER | LC_ID_DYLINKER | LC_DYLD_ENVIRONMENT => DylinkerCommand::SIZE,
        LC_PREBOUND_DYLIB => PreboundDylibCommand::SIZE,
        LC_ROUTINES => RoutinesCommand32::SIZE,
        LC_SUB_FRAMEWORK => SubFrameworkCommand::SIZE,
        LC_SUB_UMBRELLA => SubUmbrellaCommand::SIZE,
        LC_SUB_CLIENT => SubClientCommand::SIZE,
        LC_SUB_LIBRARY => SubLibraryCommand::SIZE,
        LC_TWOLEVEL_HINTS => TwolevelHintsCommand::SIZE,
        LC_PREBIND_CKSUM => PrebindCksumCommand::SIZE,
        LC_SEGMENT_64 => SegmentCommand64::SIZE,
        LC_ROUTINES_64 => RoutinesCommand64::SIZE,
        LC_UUID => UuidCommand::SIZE,
        LC_CODE_SIGNATURE
        | LC_SEGMENT_SPLIT_INFO
        | LC_FUNCTION_STARTS
        | LC_DATA_IN_CODE
        | LC_DYLIB_CODE_SIGN_DRS
        | LC_LINKER_OPTION
        | LC_LINKER_OPTIMIZATION_HINT
        | LC_DYLD_EXPORTS_TRIE
        | LC_DYLD_CHAINED_FIXUPS => LinkeditDataCommand::SIZE,
        LC_ENCRYPTION_INFO => EncryptionInfoCommand32::SIZE,
        LC_DYLD_INFO | LC_DYLD_INFO_ONLY => DyldInfoCommand::SIZE,
        LC_VERSION_MIN_MACOSX
        | LC_VERSION_MIN_IPHONEOS
        | LC_VERSION_MIN_TVOS
        | LC_VERSION_MIN_WATCHOS => VersionMinCommand::SIZE,
        LC_SOURCE_VERSION => SourceVersionCommand::SIZE,
        LC_ENCRYPTION_INFO_64 => EncryptionInfoCommand64::SIZE,
        LC_NOTE => NoteCommand::SIZE,
        LC_BUILD_VERSION => BuildVersionCommand::SIZE,
        LC_RPATH => RpathCommand::SIZE,
        LC_MAIN => EntryPointCommand::SIZE,
        LC_FILESET_ENTRY => FilesetEntryCommand::SIZE,
        _ => LoadCommandHeader::SIZE,
    }
}

/// Reads the record at the start of the bytes. If it does not fit, returns `None` and stores its size in `lacking`.
#[inline(always)]
pub(crate) fn record<R: Record>(rest: &[u8], le: Endian, lacking: &mut usize) -> Option<R>
    requires { 0 < length rest.now }
    ensures ok { IfSome result (λ found. record_at le R.fields rest.now 0 ≡ Ok (R.values found)) }
    ensures err { IfNone result (record_at le R.fields rest.now 0 ≡ Err (too_big lacking.new (length rest.now))) }
{
    if rest.len() < R::SIZE {
        *lacking = R::SIZE;
        return None;
    }
    Some(held(rest, le))
}

// Reads the record at the start of bytes that hold it.
#[inline(always)]
fn held<R: Record>(rest: &[u8], le: Endian) -> R
    requires some { 0 < length rest.now }
    requires room { R.SIZE ≤ length rest.now }
    ensures { record_at le R.fields rest.now 0 ≡ Ok (R.values result) }
{
    R::load(rest, le)
}
