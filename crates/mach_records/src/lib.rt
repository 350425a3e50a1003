//! The records of load commands, their constants and their names (`mach-o/loader.h`), and the records of chained fixups.
#![tactic(auto)]

mod command_names;
pub mod constants;
mod contents;
mod cpu_names;
mod fixup_chains;
mod flag_names;
mod libraries;
mod linkedit;
mod load_command_header;
mod modules;
mod number_names;
mod numbers;
mod segments;
mod symbol_tables;
mod umbrellas;
mod values;
mod versions;

pub use crate::constants::cputype;

// The numbers of commands, and their names.
pub use crate::command_names::{
    LC_ATOM_INFO, LC_BUILD_VERSION, LC_CODE_SIGNATURE, LC_DATA_IN_CODE, LC_DYLD_CHAINED_FIXUPS,
    LC_DYLD_ENVIRONMENT, LC_DYLD_EXPORTS_TRIE, LC_DYLD_INFO, LC_DYLD_INFO_ONLY,
    LC_DYLIB_CODE_SIGN_DRS, LC_DYSYMTAB, LC_ENCRYPTION_INFO, LC_ENCRYPTION_INFO_64,
    LC_FILESET_ENTRY, LC_FUNCTION_STARTS, LC_FUNCTION_VARIANT_FIXUPS, LC_FUNCTION_VARIANTS,
    LC_FVMFILE, LC_ID_DYLIB, LC_ID_DYLINKER, LC_IDENT, LC_IDFVMLIB, LC_LAZY_LOAD_DYLIB,
    LC_LINKER_OPTIMIZATION_HINT, LC_LINKER_OPTION, LC_LOAD_DYLIB, LC_LOAD_DYLINKER,
    LC_LOAD_UPWARD_DYLIB, LC_LOAD_WEAK_DYLIB, LC_LOADFVMLIB, LC_MAIN, LC_NOTE, LC_PREBIND_CKSUM,
    LC_PREBOUND_DYLIB, LC_PREPAGE, LC_REEXPORT_DYLIB, LC_REQ_DYLD, LC_ROUTINES, LC_ROUTINES_64,
    LC_RPATH, LC_SEGMENT, LC_SEGMENT_64, LC_SEGMENT_SPLIT_INFO, LC_SOURCE_VERSION, LC_SUB_CLIENT,
    LC_SUB_FRAMEWORK, LC_SUB_LIBRARY, LC_SUB_UMBRELLA, LC_SYMSEG, LC_SYMTAB, LC_TARGET_TRIPLE,
    LC_THREAD, LC_TWOLEVEL_HINTS, LC_UNIXTHREAD, LC_UUID, LC_VERSION_MIN_IPHONEOS,
    LC_VERSION_MIN_MACOSX, LC_VERSION_MIN_TVOS, LC_VERSION_MIN_WATCHOS, cmd_to_str, command_name,
};

// The names of other numbers, and numbers as texts.
pub use crate::cpu_names::{Arch, cpu_name};
pub use crate::flag_names::{FlagName, code_flags, executable_flags};
pub use crate::number_names::{platform_name, rights_name, tool_name};
pub use crate::values::{SourceVersionText, UuidText, VersionText};

// Records, and the size of each in bytes.
pub use crate::contents::{
    EntryPointCommand, FilesetEntryCommand, IdentCommand, LinkerOptionCommand, NoteCommand,
    PrebindCksumCommand, SIZEOF_ENTRY_POINT_COMMAND, SIZEOF_IDENT_COMMAND,
    SIZEOF_LINKER_OPTION_COMMAND, SIZEOF_TARGET_TRIPLE_COMMAND, SIZEOF_UUID_COMMAND,
    TargetTripleCommand, UuidCommand,
};
pub use crate::fixup_chains::{
    ChainedFixupsHeader, ChainedStartsInSegment, SIZEOF_CHAINED_FIXUPS_HEADER,
    SIZEOF_CHAINED_STARTS_IN_SEGMENT,
};
pub use crate::libraries::{
    Dylib, DylibCommand, DylinkerCommand, FvmfileCommand, Fvmlib, FvmlibCommand,
    PreboundDylibCommand, RpathCommand, SIZEOF_DYLIB, SIZEOF_DYLIB_COMMAND,
    SIZEOF_DYLINKER_COMMAND, SIZEOF_FVMFILE_COMMAND, SIZEOF_FVMLIB, SIZEOF_FVMLIB_COMMAND,
    SIZEOF_PREBOUND_DYLIB_COMMAND, SIZEOF_RPATH_COMMAND,
};
pub use crate::linkedit::{
    DataInCodeEntry, DyldInfoCommand, EncryptionInfoCommand32, EncryptionInfoCommand64,
    LinkeditDataCommand, SIZEOF_DYLIB_INFO_COMMAND, SIZEOF_ENCRYPTION_INFO_COMMAND_32,
    SIZEOF_ENCRYPTION_INFO_COMMAND_64, SIZEOF_LINKEDIT_DATA_COMMAND,
};
pub use crate::load_command_header::{
    LcStr, LoadCommandHeader, SIZEOF_LC_STR, SIZEOF_LOAD_COMMAND,
};
pub use crate::modules::{
    DylibModule, DylibModule64, DylibReference, DylibTableOfContents, RoutinesCommand32,
    RoutinesCommand64,
};
pub use crate::segments::{
    SIZEOF_SECTION_32, SIZEOF_SECTION_64, SIZEOF_SEGMENT_COMMAND_32, SIZEOF_SEGMENT_COMMAND_64,
    Section32, Section64, SegmentCommand32, SegmentCommand64,
};
pub use crate::symbol_tables::{
    DysymtabCommand, SIZEOF_DYSYMTAB_COMMAND, SIZEOF_SYMSEG_COMMAND, SIZEOF_SYMTAB_COMMAND,
    SymsegCommand, SymtabCommand, TwolevelHint, TwolevelHintsCommand,
};
pub use crate::umbrellas::{
    SIZEOF_SUB_CLIENT_COMMAND, SIZEOF_SUB_FRAMEWORK_COMMAND, SIZEOF_SUB_LIBRARY_COMMAND,
    SIZEOF_SUB_UMBRELLA_COMMAND, SubClientCommand, SubFrameworkCommand, SubLibraryCommand,
    SubUmbrellaCommand,
};
pub use crate::versions::{
    BuildToolVersion, BuildVersionCommand, PLATFORM_BRIDGEOS, PLATFORM_DRIVERKIT, PLATFORM_IOS,
    PLATFORM_IOSSIMULATOR, PLATFORM_MACCATALYST, PLATFORM_MACOS, PLATFORM_TVOS,
    PLATFORM_TVOSSIMULATOR, PLATFORM_VISIONOS, PLATFORM_VISIONOSSIMULATOR, PLATFORM_WATCHOS,
    PLATFORM_WATCHOSSIMULATOR, Platform, SIZEOF_VERSION_MIN_COMMAND, SourceVersionCommand,
    TOOL_CLANG, TOOL_LD, TOOL_LLD, TOOL_SWIFT, VersionMinCommand,
};
