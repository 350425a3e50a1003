//! Reads Apple's Mach-O images. Every result is a stated slice, text or record of the given bytes, and every error is a
//! fault that occurs in them.
#![tactic(auto)]

// The image: its header, its commands, and what they say, as slices, texts and records of the bytes.
mod bindings;
mod command_iterator;
mod commands;
pub mod entry;
mod exported;
mod fields;
pub mod fixups;
mod initializers;
pub mod libraries;
mod macho;
mod named_bytes;
mod opened;
pub mod readings;
mod rebases;
mod relocations;
pub mod said;
mod single_value;
mod strings;
mod subjects;
mod symbol_map;
pub mod table_places;
mod weak_binds;

// A file: an image, a fat file, or anything else that holds images.
mod fat_file;
pub mod first_bytes;
mod images;
mod input;
mod item;
mod mach;
mod view;

// Whether the parts of an image lie as the format and its readers require.
pub mod layout;

// What an image has at an address, and the segments and sections that hold it.
pub mod addresses;

// Laws, and what is known of an image's results.
mod facts;
pub mod laws;

pub use crate::addresses::AddressMap;
pub use crate::addresses::AllStretches;
pub use crate::addresses::FoundAt;
pub use crate::addresses::SegmentStretches;
pub use crate::addresses::Stretch;
pub use crate::addresses::Stretches;
pub use crate::bindings::BindingIterator;
pub use crate::command_iterator::CommandIterator;
pub use crate::exported::find_export;
pub use crate::fat_file::arches::ArchIterator;
pub use crate::fat_file::arches::FatArch64Iterator;
pub use crate::fat_file::arches::FatArchIterator;
pub use crate::fat_file::entry::SingleArch;
pub use crate::fat_file::table::EntryIterator;
pub use crate::fat_file::table::FatTable;
pub use crate::fat_file::table::MultiArch;
pub use crate::fat_file::table::MultiArch64;
pub use crate::fat_file::table::SingleArch64Iterator;
pub use crate::fat_file::table::SingleArchIterator;
pub use crate::first_bytes::Foreign;
pub use crate::fixups::FixupIterator;
pub use crate::images::Images;
pub use crate::initializers::Initializer;
pub use crate::initializers::InitializerIterator;
pub use crate::input::Input;
pub use crate::input::begins_archive;
pub use crate::item::Content;
pub use crate::item::EntryCpu;
pub use crate::item::InputItem;
pub use crate::item::ItemPlace;
pub use crate::libraries::Library;
pub use crate::libraries::LibraryAttributes;
pub use crate::libraries::LibraryIterator;
pub use crate::libraries::LibraryKind;
pub use crate::mach::Mach;
pub use crate::macho::Function;
pub use crate::macho::MachO;
pub use crate::macho::NamedSymbols;
pub use crate::macho::SymbolAt;
pub use crate::rebases::RebaseIterator;
pub use crate::said::BuildVersion;
pub use crate::said::Encryption;
pub use crate::said::FilesetEntry;
pub use crate::strings::SectionString;
pub use crate::strings::StringIterator;
pub use crate::subjects::id_place;
pub use crate::subjects::library_place;
pub use crate::subjects::run_path_place;
pub use crate::symbol_map::SymbolMap;
pub use crate::view::LinkView;
pub use crate::view::link_view;
pub use mach_base::BE;
pub use mach_base::Container;
pub use mach_base::Ctx;
pub use mach_base::Description;
pub use mach_base::Endian;
pub use mach_base::Error;
pub use mach_base::Hint;
pub use mach_base::HintData;
pub use mach_base::IntoCtx;
pub use mach_base::LE;
pub use mach_base::Record;
pub use mach_base::Result;
pub use mach_base::ScrollError;
pub use mach_base::SizeWith;
pub use mach_base::Sleb128;
pub use mach_base::Steps;
pub use mach_base::TryFromCtx;
pub use mach_base::TryIntoCtx;
pub use mach_base::Uleb128;
pub use mach_base::describe;
pub use mach_base::gread_with;
pub use mach_base::pread_with;
pub use mach_base::pwrite_with;
pub use mach_base::read_text;
pub use mach_base::take_hint_bytes;
pub use mach_dyld::OpcodeRebaseIterator;
pub use mach_dyld::Rebase;
pub use mach_dyld::RebaseKind;
pub use mach_dyld::RebaseStream;
pub use mach_dyld::WeakBind;
pub use mach_dyld::WeakBindIterator;
pub use mach_dyld::WeakBindStream;
pub use mach_dyld::bind_opcodes;
pub use mach_dyld::bindings::OpcodeBindingIterator;
pub use mach_dyld::exports;
pub use mach_dyld::imports;
pub use mach_dyld::rebase_opcodes;
pub use mach_load::BuildToolIterator;
pub use mach_load::DataInCodeIterator;
pub use mach_load::FunctionStartIterator;
pub use mach_load::FunctionStarts;
pub use mach_load::LinkerOptionIterator;
pub use mach_load::Note;
pub use mach_load::NoteIterator;
pub use mach_parts::ArchRecord;
pub use mach_parts::FAT_MAGIC_64;
pub use mach_parts::FatArch64;
pub use mach_parts::SIZEOF_FAT_ARCH_64;
pub use mach_parts::binding::Binding;
pub use mach_parts::binding::Provider;
pub use mach_parts::fat;
pub use mach_parts::header;
pub use mach_parts::magic::parse_magic_and_ctx;
pub use mach_parts::magic::peek;
pub use mach_parts::magic::peek_bytes;
pub use mach_parts::relocation;
pub use mach_parts::segment;
pub use mach_parts::symbols;
pub use mach_records::constants;
pub use mach_records::cputype;

/// Chained fixups: what the data of `LC_DYLD_CHAINED_FIXUPS` and the pointers of the segments hold.
pub mod chained_fixups {
    pub use mach_chained::{
        ChainPointer, ChainedBindIterator, ChainedFixups, ChainedFixupsHeader, ChainedImport,
        ChainedImportIterator, ChainedStartsInSegment, Fixup, FixupCursor, FixupIterator,
        FixupKind, ImportFormat, PointerFormat, SIZEOF_CHAINED_FIXUPS_HEADER,
        SIZEOF_CHAINED_STARTS_IN_SEGMENT, read_pointer,
    };
    pub use mach_parts::binding::PointerAuth;
}

/// Indirect symbols, and the stubs and pointers that belong to symbols.
pub mod slots {
    pub use mach_parts::{
        IndirectSymbol, IndirectSymbolIterator, IndirectSymbols, SlotIterator, SlotKind,
        SlotSource, SlotSymbol, SymbolSlot, symbol_slot_at,
    };
}

/// The names of the format's numbers, and versions and UUIDs as texts.
pub mod names {
    pub use mach_records::{
        Arch, FlagName, SourceVersionText, UuidText, VersionText, code_flags, command_name,
        cpu_name, executable_flags, platform_name, rights_name, tool_name,
    };
}

/// Load commands: their records, constants and names.
pub mod load_command {
    pub use mach_load::CommandVariant;
    pub use mach_load::LoadCommand;
    pub use mach_load::NewerCommand;
    pub use mach_load::ThreadCommand;
    pub use mach_records::BuildToolVersion;
    pub use mach_records::BuildVersionCommand;
    pub use mach_records::DataInCodeEntry;
    pub use mach_records::DyldInfoCommand;
    pub use mach_records::Dylib;
    pub use mach_records::DylibCommand;
    pub use mach_records::DylibModule;
    pub use mach_records::DylibModule64;
    pub use mach_records::DylibReference;
    pub use mach_records::DylibTableOfContents;
    pub use mach_records::DylinkerCommand;
    pub use mach_records::DysymtabCommand;
    pub use mach_records::EncryptionInfoCommand32;
    pub use mach_records::EncryptionInfoCommand64;
    pub use mach_records::EntryPointCommand;
    pub use mach_records::FilesetEntryCommand;
    pub use mach_records::FvmfileCommand;
    pub use mach_records::Fvmlib;
    pub use mach_records::FvmlibCommand;
    pub use mach_records::IdentCommand;
    pub use mach_records::LC_ATOM_INFO;
    pub use mach_records::LC_BUILD_VERSION;
    pub use mach_records::LC_CODE_SIGNATURE;
    pub use mach_records::LC_DATA_IN_CODE;
    pub use mach_records::LC_DYLD_CHAINED_FIXUPS;
    pub use mach_records::LC_DYLD_ENVIRONMENT;
    pub use mach_records::LC_DYLD_EXPORTS_TRIE;
    pub use mach_records::LC_DYLD_INFO;
    pub use mach_records::LC_DYLD_INFO_ONLY;
    pub use mach_records::LC_DYLIB_CODE_SIGN_DRS;
    pub use mach_records::LC_DYSYMTAB;
    pub use mach_records::LC_ENCRYPTION_INFO;
    pub use mach_records::LC_ENCRYPTION_INFO_64;
    pub use mach_records::LC_FILESET_ENTRY;
    pub use mach_records::LC_FUNCTION_STARTS;
    pub use mach_records::LC_FUNCTION_VARIANT_FIXUPS;
    pub use mach_records::LC_FUNCTION_VARIANTS;
    pub use mach_records::LC_FVMFILE;
    pub use mach_records::LC_ID_DYLIB;
    pub use mach_records::LC_ID_DYLINKER;
    pub use mach_records::LC_IDENT;
    pub use mach_records::LC_IDFVMLIB;
    pub use mach_records::LC_LAZY_LOAD_DYLIB;
    pub use mach_records::LC_LINKER_OPTIMIZATION_HINT;
    pub use mach_records::LC_LINKER_OPTION;
    pub use mach_records::LC_LOAD_DYLIB;
    pub use mach_records::LC_LOAD_DYLINKER;
    pub use mach_records::LC_LOAD_UPWARD_DYLIB;
    pub use mach_records::LC_LOAD_WEAK_DYLIB;
    pub use mach_records::LC_LOADFVMLIB;
    pub use mach_records::LC_MAIN;
    pub use mach_records::LC_NOTE;
    pub use mach_records::LC_PREBIND_CKSUM;
    pub use mach_records::LC_PREBOUND_DYLIB;
    pub use mach_records::LC_PREPAGE;
    pub use mach_records::LC_REEXPORT_DYLIB;
    pub use mach_records::LC_REQ_DYLD;
    pub use mach_records::LC_ROUTINES;
    pub use mach_records::LC_ROUTINES_64;
    pub use mach_records::LC_RPATH;
    pub use mach_records::LC_SEGMENT;
    pub use mach_records::LC_SEGMENT_64;
    pub use mach_records::LC_SEGMENT_SPLIT_INFO;
    pub use mach_records::LC_SOURCE_VERSION;
    pub use mach_records::LC_SUB_CLIENT;
    pub use mach_records::LC_SUB_FRAMEWORK;
    pub use mach_records::LC_SUB_LIBRARY;
    pub use mach_records::LC_SUB_UMBRELLA;
    pub use mach_records::LC_SYMSEG;
    pub use mach_records::LC_SYMTAB;
    pub use mach_records::LC_TARGET_TRIPLE;
    pub use mach_records::LC_THREAD;
    pub use mach_records::LC_TWOLEVEL_HINTS;
    pub use mach_records::LC_UNIXTHREAD;
    pub use mach_records::LC_UUID;
    pub use mach_records::LC_VERSION_MIN_IPHONEOS;
    pub use mach_records::LC_VERSION_MIN_MACOSX;
    pub use mach_records::LC_VERSION_MIN_TVOS;
    pub use mach_records::LC_VERSION_MIN_WATCHOS;
    pub use mach_records::LcStr;
    pub use mach_records::LinkeditDataCommand;
    pub use mach_records::LinkerOptionCommand;
    pub use mach_records::LoadCommandHeader;
    pub use mach_records::NoteCommand;
    pub use mach_records::PLATFORM_BRIDGEOS;
    pub use mach_records::PLATFORM_DRIVERKIT;
    pub use mach_records::PLATFORM_IOS;
    pub use mach_records::PLATFORM_IOSSIMULATOR;
    pub use mach_records::PLATFORM_MACCATALYST;
    pub use mach_records::PLATFORM_MACOS;
    pub use mach_records::PLATFORM_TVOS;
    pub use mach_records::PLATFORM_TVOSSIMULATOR;
    pub use mach_records::PLATFORM_VISIONOS;
    pub use mach_records::PLATFORM_VISIONOSSIMULATOR;
    pub use mach_records::PLATFORM_WATCHOS;
    pub use mach_records::PLATFORM_WATCHOSSIMULATOR;
    pub use mach_records::Platform;
    pub use mach_records::PrebindCksumCommand;
    pub use mach_records::PreboundDylibCommand;
    pub use mach_records::RoutinesCommand32;
    pub use mach_records::RoutinesCommand64;
    pub use mach_records::RpathCommand;
    pub use mach_records::SIZEOF_DYLIB;
    pub use mach_records::SIZEOF_DYLIB_COMMAND;
    pub use mach_records::SIZEOF_DYLIB_INFO_COMMAND;
    pub use mach_records::SIZEOF_DYLINKER_COMMAND;
    pub use mach_records::SIZEOF_DYSYMTAB_COMMAND;
    pub use mach_records::SIZEOF_ENCRYPTION_INFO_COMMAND_32;
    pub use mach_records::SIZEOF_ENCRYPTION_INFO_COMMAND_64;
    pub use mach_records::SIZEOF_ENTRY_POINT_COMMAND;
    pub use mach_records::SIZEOF_FVMFILE_COMMAND;
    pub use mach_records::SIZEOF_FVMLIB;
    pub use mach_records::SIZEOF_FVMLIB_COMMAND;
    pub use mach_records::SIZEOF_IDENT_COMMAND;
    pub use mach_records::SIZEOF_LC_STR;
    pub use mach_records::SIZEOF_LINKEDIT_DATA_COMMAND;
    pub use mach_records::SIZEOF_LINKER_OPTION_COMMAND;
    pub use mach_records::SIZEOF_LOAD_COMMAND;
    pub use mach_records::SIZEOF_PREBOUND_DYLIB_COMMAND;
    pub use mach_records::SIZEOF_RPATH_COMMAND;
    pub use mach_records::SIZEOF_SECTION_32;
    pub use mach_records::SIZEOF_SECTION_64;
    pub use mach_records::SIZEOF_SEGMENT_COMMAND_32;
    pub use mach_records::SIZEOF_SEGMENT_COMMAND_64;
    pub use mach_records::SIZEOF_SUB_CLIENT_COMMAND;
    pub use mach_records::SIZEOF_SUB_FRAMEWORK_COMMAND;
    pub use mach_records::SIZEOF_SUB_LIBRARY_COMMAND;
    pub use mach_records::SIZEOF_SUB_UMBRELLA_COMMAND;
    pub use mach_records::SIZEOF_SYMSEG_COMMAND;
    pub use mach_records::SIZEOF_SYMTAB_COMMAND;
    pub use mach_records::SIZEOF_TARGET_TRIPLE_COMMAND;
    pub use mach_records::SIZEOF_UUID_COMMAND;
    pub use mach_records::SIZEOF_VERSION_MIN_COMMAND;
    pub use mach_records::Section32;
    pub use mach_records::Section64;
    pub use mach_records::SegmentCommand32;
    pub use mach_records::SegmentCommand64;
    pub use mach_records::SourceVersionCommand;
    pub use mach_records::SubClientCommand;
    pub use mach_records::SubFrameworkCommand;
    pub use mach_records::SubLibraryCommand;
    pub use mach_records::SubUmbrellaCommand;
    pub use mach_records::SymsegCommand;
    pub use mach_records::SymtabCommand;
    pub use mach_records::TOOL_CLANG;
    pub use mach_records::TOOL_LD;
    pub use mach_records::TOOL_LLD;
    pub use mach_records::TOOL_SWIFT;
    pub use mach_records::TargetTripleCommand;
    pub use mach_records::TwolevelHint;
    pub use mach_records::TwolevelHintsCommand;
    pub use mach_records::UuidCommand;
    pub use mach_records::VersionMinCommand;
    pub use mach_records::cmd_to_str;
    pub use mach_records::command_name;
}
