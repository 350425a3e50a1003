//! The tables of the fields of load commands (`mach-o/loader.h`).

ghost use Rattle.std.specs.Prelude.{◌≡◌, ◌≤◌, length, map};
ghost use Rattle.mach_command_fields.specs.CommandTables.{field_place, fields_of_command};

use crate::kind::FieldKind;
use mach_records::{
    LC_ATOM_INFO, LC_BUILD_VERSION, LC_CODE_SIGNATURE, LC_DATA_IN_CODE, LC_DYLD_CHAINED_FIXUPS,
    LC_DYLD_ENVIRONMENT, LC_DYLD_EXPORTS_TRIE, LC_DYLD_INFO, LC_DYLD_INFO_ONLY,
    LC_DYLIB_CODE_SIGN_DRS, LC_DYSYMTAB, LC_ENCRYPTION_INFO, LC_ENCRYPTION_INFO_64,
    LC_FILESET_ENTRY, LC_FUNCTION_STARTS, LC_FUNCTION_VARIANT_FIXUPS, LC_FUNCTION_VARIANTS,
    LC_FVMFILE, LC_ID_DYLIB, LC_ID_DYLINKER, LC_IDFVMLIB, LC_LAZY_LOAD_DYLIB,
    LC_LINKER_OPTIMIZATION_HINT, LC_LINKER_OPTION, LC_LOAD_DYLIB, LC_LOAD_DYLINKER,
    LC_LOAD_UPWARD_DYLIB, LC_LOAD_WEAK_DYLIB, LC_LOADFVMLIB, LC_MAIN, LC_NOTE, LC_PREBIND_CKSUM,
    LC_PREBOUND_DYLIB, LC_REEXPORT_DYLIB, LC_ROUTINES, LC_ROUTINES_64, LC_RPATH, LC_SEGMENT,
    LC_SEGMENT_64, LC_SEGMENT_SPLIT_INFO, LC_SOURCE_VERSION, LC_SUB_CLIENT, LC_SUB_FRAMEWORK,
    LC_SUB_LIBRARY, LC_SUB_UMBRELLA, LC_SYMSEG, LC_SYMTAB, LC_TARGET_TRIPLE, LC_THREAD,
    LC_TWOLEVEL_HINTS, LC_UNIXTHREAD, LC_UUID, LC_VERSION_MIN_IPHONEOS, LC_VERSION_MIN_MACOSX,
    LC_VERSION_MIN_TVOS, LC_VERSION_MIN_WATCHOS,
};

/// A field of a load command's record: its name in the format, how it is read, its place in the command, and the number of its bytes.
pub type PlacedField = (&'static str, FieldKind, u32, u32);

// A segment of a 32-bit image (struct segment_command).
const SEGMENT32: [PlacedField; 9] = [
    ("segname", FieldKind::Name, 8, 16),
    ("vmaddr", FieldKind::Hexadecimal, 24, 4),
    ("vmsize", FieldKind::Hexadecimal, 28, 4),
    ("fileoff", FieldKind::Hexadecimal, 32, 4),
    ("filesize", FieldKind::Hexadecimal, 36, 4),
    ("maxprot", FieldKind::Protection, 40, 4),
    ("initprot", FieldKind::Protection, 44, 4),
    ("nsects", FieldKind::Number, 48, 4),
    ("flags", FieldKind::Hexadecimal, 52, 4),
];

// A segment of a 64-bit image (struct segment_command_64).
const SEGMENT64: [PlacedField; 9] = [
    ("segname", FieldKind::Name, 8, 16),
    ("vmaddr", FieldKind::Hexadecimal, 24, 8),
    ("vmsize", FieldKind::Hexadecimal, 32, 8),
    ("fileoff", FieldKind::Hexadecimal, 40, 8),
    ("filesize", FieldKind::Hexadecimal, 48, 8),
    ("maxprot", FieldKind::Protection, 56, 4),
    ("initprot", FieldKind::Protection, 60, 4),
    ("nsects", FieldKind::Number, 64, 4),
    ("flags", FieldKind::Hexadecimal, 68, 4),
];

// The symbol table (struct symtab_command).
const SYMTAB: [PlacedField; 4] = [
    ("symoff", FieldKind::Hexadecimal, 8, 4),
    ("nsyms", FieldKind::Number, 12, 4),
    ("stroff", FieldKind::Hexadecimal, 16, 4),
    ("strsize", FieldKind::Number, 20, 4),
];

// Symbols for gdb (struct symseg_command).
const SYMSEG: [PlacedField; 2] = [
    ("offset", FieldKind::Hexadecimal, 8, 4),
    ("size", FieldKind::Number, 12, 4),
];

// The state of a thread, but for its words (struct thread_command).
const THREAD: [PlacedField; 2] = [
    ("flavor", FieldKind::Number, 8, 4),
    ("count", FieldKind::Number, 12, 4),
];

// A library at a fixed address (struct fvmlib_command).
const FVMLIB: [PlacedField; 3] = [
    ("name", FieldKind::Text, 8, 4),
    ("minor_version", FieldKind::Number, 12, 4),
    ("header_addr", FieldKind::Hexadecimal, 16, 4),
];

// A file at a fixed address (struct fvmfile_command).
const FVMFILE: [PlacedField; 2] = [
    ("name", FieldKind::Text, 8, 4),
    ("header_addr", FieldKind::Hexadecimal, 12, 4),
];

// The tables of the dynamic linker (struct dysymtab_command).
const DYSYMTAB: [PlacedField; 18] = [
    ("ilocalsym", FieldKind::Number, 8, 4),
    ("nlocalsym", FieldKind::Number, 12, 4),
    ("iextdefsym", FieldKind::Number, 16, 4),
    ("nextdefsym", FieldKind::Number, 20, 4),
    ("iundefsym", FieldKind::Number, 24, 4),
    ("nundefsym", FieldKind::Number, 28, 4),
    ("tocoff", FieldKind::Hexadecimal, 32, 4),
    ("ntoc", FieldKind::Number, 36, 4),
    ("modtaboff", FieldKind::Hexadecimal, 40, 4),
    ("nmodtab", FieldKind::Number, 44, 4),
    ("extrefsymoff", FieldKind::Hexadecimal, 48, 4),
    ("nextrefsyms", FieldKind::Number, 52, 4),
    ("indirectsymoff", FieldKind::Hexadecimal, 56, 4),
    ("nindirectsyms", FieldKind::Number, 60, 4),
    ("extreloff", FieldKind::Hexadecimal, 64, 4),
    ("nextrel", FieldKind::Number, 68, 4),
    ("locreloff", FieldKind::Hexadecimal, 72, 4),
    ("nlocrel", FieldKind::Number, 76, 4),
];

// A library (struct dylib_command).
const DYLIB: [PlacedField; 4] = [
    ("name", FieldKind::Text, 8, 4),
    ("timestamp", FieldKind::Number, 12, 4),
    ("current_version", FieldKind::Version, 16, 4),
    ("compatibility_version", FieldKind::Version, 20, 4),
];

// A dynamic linker, or a variable of its environment (struct dylinker_command).
const DYLINKER: [PlacedField; 1] = [("name", FieldKind::Text, 8, 4)];

// A prebound library (struct prebound_dylib_command).
const PREBOUND_DYLIB: [PlacedField; 3] = [
    ("name", FieldKind::Text, 8, 4),
    ("nmodules", FieldKind::Number, 12, 4),
    ("linked_modules_offset", FieldKind::Number, 16, 4),
];

// The initialization routine of a 32-bit image (struct routines_command).
const ROUTINES32: [PlacedField; 8] = [
    ("init_address", FieldKind::Hexadecimal, 8, 4),
    ("init_module", FieldKind::Number, 12, 4),
    ("reserved1", FieldKind::Number, 16, 4),
    ("reserved2", FieldKind::Number, 20, 4),
    ("reserved3", FieldKind::Number, 24, 4),
    ("reserved4", FieldKind::Number, 28, 4),
    ("reserved5", FieldKind::Number, 32, 4),
    ("reserved6", FieldKind::Number, 36, 4),
];

// The initialization routine of a 64-bit image (struct routines_command_64).
const ROUTINES64: [PlacedField; 8] = [
    ("init_address", FieldKind::Hexadecimal, 8, 8),
    ("init_module", FieldKind::Number, 16, 8),
    ("reserved1", FieldKind::Number, 24, 8),
    ("reserved2", FieldKind::Number, 32, 8),
    ("reserved3", FieldKind::Number, 40, 8),
    ("reserved4", FieldKind::Number, 48, 8),
    ("reserved5", FieldKind::Number, 56, 8),
    ("reserved6", FieldKind::Number, 64, 8),
];

// An umbrella that the image is a part of (struct sub_framework_command).
const SUB_FRAMEWORK: [PlacedField; 1] = [("umbrella", FieldKind::Text, 8, 4)];

// An umbrella within this one (struct sub_umbrella_command).
const SUB_UMBRELLA: [PlacedField; 1] = [("sub_umbrella", FieldKind::Text, 8, 4)];

// A client (struct sub_client_command).
const SUB_CLIENT: [PlacedField; 1] = [("client", FieldKind::Text, 8, 4)];

// A library within this umbrella (struct sub_library_command).
const SUB_LIBRARY: [PlacedField; 1] = [("sub_library", FieldKind::Text, 8, 4)];

// The hints of two-level name spaces (struct twolevel_hints_command).
const TWOLEVEL_HINTS: [PlacedField; 2] = [
    ("offset", FieldKind::Hexadecimal, 8, 4),
    ("nhints", FieldKind::Number, 12, 4),
];

// The checksum of prebinding (struct prebind_cksum_command).
const PREBIND_CKSUM: [PlacedField; 1] = [("cksum", FieldKind::Hexadecimal, 8, 4)];

// The UUID (struct uuid_command).
const UUID: [PlacedField; 1] = [("uuid", FieldKind::Uuid, 8, 16)];

// A run path (struct rpath_command).
const RPATH: [PlacedField; 1] = [("path", FieldKind::Text, 8, 4)];

// A range of the link-edit segment (struct linkedit_data_command).
const LINKEDIT_DATA: [PlacedField; 2] = [
    ("dataoff", FieldKind::Hexadecimal, 8, 4),
    ("datasize", FieldKind::Number, 12, 4),
];

// An encrypted range of a 32-bit image (struct encryption_info_command).
const ENCRYPTION32: [PlacedField; 3] = [
    ("cryptoff", FieldKind::Hexadecimal, 8, 4),
    ("cryptsize", FieldKind::Number, 12, 4),
    ("cryptid", FieldKind::Number, 16, 4),
];

// An encrypted range of a 64-bit image (struct encryption_info_command_64).
const ENCRYPTION64: [PlacedField; 4] = [
    ("cryptoff", FieldKind::Hexadecimal, 8, 4),
    ("cryptsize", FieldKind::Number, 12, 4),
    ("cryptid", FieldKind::Number, 16, 4),
    ("pad", FieldKind::Number, 20, 4),
];

// The ranges of the dynamic linker's information (struct dyld_info_command).
const DYLD_INFO: [PlacedField; 10] = [
    ("rebase_off", FieldKind::Hexadecimal, 8, 4),
    ("rebase_size", FieldKind::Number, 12, 4),
    ("bind_off", FieldKind::Hexadecimal, 16, 4),
    ("bind_size", FieldKind::Number, 20, 4),
    ("weak_bind_off", FieldKind::Hexadecimal, 24, 4),
    ("weak_bind_size", FieldKind::Number, 28, 4),
    ("lazy_bind_off", FieldKind::Hexadecimal, 32, 4),
    ("lazy_bind_size", FieldKind::Number, 36, 4),
    ("export_off", FieldKind::Hexadecimal, 40, 4),
    ("export_size", FieldKind::Number, 44, 4),
];

// The oldest version of the system (struct version_min_command).
const VERSION_MIN: [PlacedField; 2] = [
    ("version", FieldKind::Version, 8, 4),
    ("sdk", FieldKind::Version, 12, 4),
];

// The place at which the program begins (struct entry_point_command).
const ENTRY_POINT: [PlacedField; 2] = [
    ("entryoff", FieldKind::Hexadecimal, 8, 8),
    ("stacksize", FieldKind::Number, 16, 8),
];

// The version of the sources (struct source_version_command).
const SOURCE_VERSION: [PlacedField; 1] = [("version", FieldKind::SourceVersion, 8, 8)];

// Options for the linker; their texts follow the record (struct linker_option_command).
const LINKER_OPTION: [PlacedField; 1] = [("count", FieldKind::Number, 8, 4)];

// A note (struct note_command).
const NOTE: [PlacedField; 3] = [
    ("data_owner", FieldKind::Name, 8, 16),
    ("offset", FieldKind::Hexadecimal, 24, 8),
    ("size", FieldKind::Number, 32, 8),
];

// A platform; its tools follow the record (struct build_version_command).
const BUILD_VERSION: [PlacedField; 4] = [
    ("platform", FieldKind::Platform, 8, 4),
    ("minos", FieldKind::Version, 12, 4),
    ("sdk", FieldKind::Version, 16, 4),
    ("ntools", FieldKind::Number, 20, 4),
];

// An image within a file set (struct fileset_entry_command).
const FILESET_ENTRY: [PlacedField; 4] = [
    ("vmaddr", FieldKind::Hexadecimal, 8, 8),
    ("fileoff", FieldKind::Hexadecimal, 16, 8),
    ("entry_id", FieldKind::Text, 24, 4),
    ("reserved", FieldKind::Number, 28, 4),
];

// The target that an image was compiled for (struct target_triple_command).
const TARGET_TRIPLE: [PlacedField; 1] = [("triple", FieldKind::Text, 8, 4)];

/// Returns the fields of a command after cmd and cmdsize, by its number.
#[tactic(auto, unfolding(crate::specs::CommandTables::fields_of_command))]
pub fn fields_of(cmd: u32) -> &'static [PlacedField]
    ensures fields { map field_place result.now ≡ fields_of_command cmd }
    ensures most { length result.now ≤ 18 }
{
    match cmd {
        LC_SEGMENT => &SEGMENT32,
        LC_SEGMENT_64 => &SEGMENT64,
        LC_SYMTAB => &SYMTAB,
        LC_SYMSEG => &SYMSEG,
        LC_THREAD => &THREAD,
        LC_UNIXTHREAD => &THREAD,
        LC_LOADFVMLIB => &FVMLIB,
        LC_IDFVMLIB => &FVMLIB,
        LC_FVMFILE => &FVMFILE,
        LC_DYSYMTAB => &DYSYMTAB,
        LC_LOAD_DYLIB => &DYLIB,
        LC_ID_DYLIB => &DYLIB,
        LC_LOAD_WEAK_DYLIB => &DYLIB,
        LC_REEXPORT_DYLIB => &DYLIB,
        LC_LAZY_LOAD_DYLIB => &DYLIB,
        LC_LOAD_UPWARD_DYLIB => &DYLIB,
        LC_LOAD_DYLINKER => &DYLINKER,
        LC_ID_DYLINKER => &DYLINKER,
        LC_DYLD_ENVIRONMENT => &DYLINKER,
        LC_PREBOUND_DYLIB => &PREBOUND_DYLIB,
        LC_ROUTINES => &ROUTINES32,
        LC_ROUTINES_64 => &ROUTINES64,
        LC_SUB_FRAMEWORK => &SUB_FRAMEWORK,
        LC_SUB_UMBRELLA => &SUB_UMBRELLA,
        LC_SUB_CLIENT => &SUB_CLIENT,
        LC_SUB_LIBRARY => &SUB_LIBRARY,
        LC_TWOLEVEL_HINTS => &TWOLEVEL_HINTS,
        LC_PREBIND_CKSUM => &PREBIND_CKSUM,
        LC_UUID => &UUID,
        LC_RPATH => &RPATH,
        LC_CODE_SIGNATURE => &LINKEDIT_DATA,
        LC_SEGMENT_SPLIT_INFO => &LINKEDIT_DATA,
        LC_FUNCTION_STARTS => &LINKEDIT_DATA,
        LC_DATA_IN_CODE => &LINKEDIT_DATA,
        LC_DYLIB_CODE_SIGN_DRS => &LINKEDIT_DATA,
        LC_LINKER_OPTIMIZATION_HINT => &LINKEDIT_DATA,
        LC_DYLD_EXPORTS_TRIE => &LINKEDIT_DATA,
        LC_DYLD_CHAINED_FIXUPS => &LINKEDIT_DATA,
        LC_ATOM_INFO => &LINKEDIT_DATA,
        LC_FUNCTION_VARIANTS => &LINKEDIT_DATA,
        LC_FUNCTION_VARIANT_FIXUPS => &LINKEDIT_DATA,
        LC_ENCRYPTION_INFO => &ENCRYPTION32,
        LC_ENCRYPTION_INFO_64 => &ENCRYPTION64,
        LC_DYLD_INFO => &DYLD_INFO,
        LC_DYLD_INFO_ONLY => &DYLD_INFO,
        LC_VERSION_MIN_MACOSX => &VERSION_MIN,
        LC_VERSION_MIN_IPHONEOS => &VERSION_MIN,
        LC_VERSION_MIN_TVOS => &VERSION_MIN,
        LC_VERSION_MIN_WATCHOS => &VERSION_MIN,
        LC_MAIN => &ENTRY_POINT,
        LC_SOURCE_VERSION => &SOURCE_VERSION,
        LC_LINKER_OPTION => &LINKER_OPTION,
        LC_NOTE => &NOTE,
        LC_BUILD_VERSION => &BUILD_VERSION,
        LC_FILESET_ENTRY => &FILESET_ENTRY,
        LC_TARGET_TRIPLE => &TARGET_TRIPLE,
        _ => &[],
    }
}
