//! The numbers and the names of load commands (`mach-o/loader.h`).

ghost use Rattle.std.specs.Prelude.{◌≡◌, option_map};
ghost use Rattle.mach_base.specs.Named.{name_among};
ghost use Rattle.mach_records.specs.CommandName.{command_name, command_names, port_name};

/// The bit of a command number that the dynamic linker must understand.
pub const LC_REQ_DYLD: u32 = 0x8000_0000;

/// A segment of a 32-bit image.
pub const LC_SEGMENT: u32 = 0x1;

/// The symbols.
pub const LC_SYMTAB: u32 = 0x2;

/// A symbol table of GDB; obsolete.
pub const LC_SYMSEG: u32 = 0x3;

/// The state of a thread.
pub const LC_THREAD: u32 = 0x4;

/// The state of the first thread, with a stack.
pub const LC_UNIXTHREAD: u32 = 0x5;

/// A library at a fixed address that the image uses; obsolete.
pub const LC_LOADFVMLIB: u32 = 0x6;

/// The image's own name as a library at a fixed address; obsolete.
pub const LC_IDFVMLIB: u32 = 0x7;

/// Texts that identify the image; obsolete.
pub const LC_IDENT: u32 = 0x8;

/// A file to be loaded at a fixed address.
pub const LC_FVMFILE: u32 = 0x9;

/// Pages to be read in advance; obsolete.
pub const LC_PREPAGE: u32 = 0xa;

/// The tables that the dynamic linker uses.
pub const LC_DYSYMTAB: u32 = 0xb;

/// A library that the image needs.
pub const LC_LOAD_DYLIB: u32 = 0xc;

/// The image's own name as a library.
pub const LC_ID_DYLIB: u32 = 0xd;

/// The dynamic linker that the image uses.
pub const LC_LOAD_DYLINKER: u32 = 0xe;

/// The image's own name as a dynamic linker.
pub const LC_ID_DYLINKER: u32 = 0xf;

/// A library for which the image is prebound; obsolete.
pub const LC_PREBOUND_DYLIB: u32 = 0x10;

/// The first routine of a 32-bit library.
pub const LC_ROUTINES: u32 = 0x11;

/// The framework that the image is a part of.
pub const LC_SUB_FRAMEWORK: u32 = 0x12;

/// A framework that is a part of the image.
pub const LC_SUB_UMBRELLA: u32 = 0x13;

/// A client that may link to the image.
pub const LC_SUB_CLIENT: u32 = 0x14;

/// A library that is a part of the image.
pub const LC_SUB_LIBRARY: u32 = 0x15;

/// Hints for looking up names.
pub const LC_TWOLEVEL_HINTS: u32 = 0x16;

/// The checksum of a prebound image.
pub const LC_PREBIND_CKSUM: u32 = 0x17;

/// A segment of a 64-bit image.
pub const LC_SEGMENT_64: u32 = 0x19;

/// The first routine of a 64-bit library.
pub const LC_ROUTINES_64: u32 = 0x1a;

/// The unique number of the image.
pub const LC_UUID: u32 = 0x1b;

/// The place of the code signature.
pub const LC_CODE_SIGNATURE: u32 = 0x1d;

/// The place of the data for moving segments apart.
pub const LC_SEGMENT_SPLIT_INFO: u32 = 0x1e;

/// A library that is loaded when it is first used.
pub const LC_LAZY_LOAD_DYLIB: u32 = 0x20;

/// The encrypted bytes of a 32-bit image.
pub const LC_ENCRYPTION_INFO: u32 = 0x21;

/// The streams of the dynamic linker.
pub const LC_DYLD_INFO: u32 = 0x22;

/// The oldest macOS that the image runs on.
pub const LC_VERSION_MIN_MACOSX: u32 = 0x24;

/// The oldest iOS that the image runs on.
pub const LC_VERSION_MIN_IPHONEOS: u32 = 0x25;

/// The place of the starts of functions.
pub const LC_FUNCTION_STARTS: u32 = 0x26;

/// A variable of the environment for the dynamic linker.
pub const LC_DYLD_ENVIRONMENT: u32 = 0x27;

/// The place of the list of data in code.
pub const LC_DATA_IN_CODE: u32 = 0x29;

/// The version of the sources.
pub const LC_SOURCE_VERSION: u32 = 0x2a;

/// The place of what the libraries must be signed with.
pub const LC_DYLIB_CODE_SIGN_DRS: u32 = 0x2b;

/// The encrypted bytes of a 64-bit image.
pub const LC_ENCRYPTION_INFO_64: u32 = 0x2c;

/// Options for the linker.
pub const LC_LINKER_OPTION: u32 = 0x2d;

/// The place of hints for the linker.
pub const LC_LINKER_OPTIMIZATION_HINT: u32 = 0x2e;

/// The oldest tvOS that the image runs on.
pub const LC_VERSION_MIN_TVOS: u32 = 0x2f;

/// The oldest watchOS that the image runs on.
pub const LC_VERSION_MIN_WATCHOS: u32 = 0x30;

/// The place of data with an owner.
pub const LC_NOTE: u32 = 0x31;

/// The platform and the versions that the image was built for.
pub const LC_BUILD_VERSION: u32 = 0x32;

/// A library that may be missing.
pub const LC_LOAD_WEAK_DYLIB: u32 = 0x8000_0018;

/// A path on which libraries are searched.
pub const LC_RPATH: u32 = 0x8000_001c;

/// A library whose exports the image re-exports.
pub const LC_REEXPORT_DYLIB: u32 = 0x8000_001f;

/// The streams of the dynamic linker, which it must understand.
pub const LC_DYLD_INFO_ONLY: u32 = 0x8000_0022;

/// A library that may need the image in turn.
pub const LC_LOAD_UPWARD_DYLIB: u32 = 0x8000_0023;

/// The place at which the image begins to run.
pub const LC_MAIN: u32 = 0x8000_0028;

/// The place of the trie of exports.
pub const LC_DYLD_EXPORTS_TRIE: u32 = 0x8000_0033;

/// The place of the chained fixups.
pub const LC_DYLD_CHAINED_FIXUPS: u32 = 0x8000_0034;

/// An image in a file set.
pub const LC_FILESET_ENTRY: u32 = 0x8000_0035;

// The commands that only later headers have, and goblin's table lacks.

/// The place of what the linker knows of each atom.
pub const LC_ATOM_INFO: u32 = 0x36;

/// The place of the variants of functions, of which dyld selects one by the cpu.
pub const LC_FUNCTION_VARIANTS: u32 = 0x37;

/// The place of the pointers to such functions.
pub const LC_FUNCTION_VARIANT_FIXUPS: u32 = 0x38;

/// The target triple that the image was compiled for.
pub const LC_TARGET_TRIPLE: u32 = 0x39;

// Returns the name of a command's constant, if it is in goblin's table.
fn table_name(cmd: u32) -> Option<&'static str>
    ensures { option_map (λ name. name.now) result ≡ name_among command_names cmd }
{
    Some(match cmd {
        LC_SEGMENT => "LC_SEGMENT",
        LC_SYMTAB => "LC_SYMTAB",
        LC_SYMSEG => "LC_SYMSEG",
        LC_THREAD => "LC_THREAD",
        LC_UNIXTHREAD => "LC_UNIXTHREAD",
        LC_LOADFVMLIB => "LC_LOADFVMLIB",
        LC_IDFVMLIB => "LC_IDFVMLIB",
        LC_IDENT => "LC_IDENT",
        LC_FVMFILE => "LC_FVMFILE",
        LC_PREPAGE => "LC_PREPAGE",
        LC_DYSYMTAB => "LC_DYSYMTAB",
        LC_LOAD_DYLIB => "LC_LOAD_DYLIB",
        LC_ID_DYLIB => "LC_ID_DYLIB",
        LC_LOAD_DYLINKER => "LC_LOAD_DYLINKER",
        LC_ID_DYLINKER => "LC_ID_DYLINKER",
        LC_PREBOUND_DYLIB => "LC_PREBOUND_DYLIB",
        LC_ROUTINES => "LC_ROUTINES",
        LC_SUB_FRAMEWORK => "LC_SUB_FRAMEWORK",
        LC_SUB_UMBRELLA => "LC_SUB_UMBRELLA",
        LC_SUB_CLIENT => "LC_SUB_CLIENT",
        LC_SUB_LIBRARY => "LC_SUB_LIBRARY",
        LC_TWOLEVEL_HINTS => "LC_TWOLEVEL_HINTS",
        LC_PREBIND_CKSUM => "LC_PREBIND_CKSUM",
        LC_SEGMENT_64 => "LC_SEGMENT_64",
        LC_ROUTINES_64 => "LC_ROUTINES_64",
        LC_UUID => "LC_UUID",
        LC_CODE_SIGNATURE => "LC_CODE_SIGNATURE",
        LC_SEGMENT_SPLIT_INFO => "LC_SEGMENT_SPLIT_INFO",
        LC_LAZY_LOAD_DYLIB => "LC_LAZY_LOAD_DYLIB",
        LC_ENCRYPTION_INFO => "LC_ENCRYPTION_INFO",
        LC_DYLD_INFO => "LC_DYLD_INFO",
        LC_VERSION_MIN_MACOSX => "LC_VERSION_MIN_MACOSX",
        LC_VERSION_MIN_IPHONEOS => "LC_VERSION_MIN_IPHONEOS",
        LC_FUNCTION_STARTS => "LC_FUNCTION_STARTS",
        LC_DYLD_ENVIRONMENT => "LC_DYLD_ENVIRONMENT",
        LC_DATA_IN_CODE => "LC_DATA_IN_CODE",
        LC_SOURCE_VERSION => "LC_SOURCE_VERSION",
        LC_DYLIB_CODE_SIGN_DRS => "LC_DYLIB_CODE_SIGN_DRS",
        LC_ENCRYPTION_INFO_64 => "LC_ENCRYPTION_INFO_64",
        LC_LINKER_OPTION => "LC_LINKER_OPTION",
        LC_LINKER_OPTIMIZATION_HINT => "LC_LINKER_OPTIMIZATION_HINT",
        LC_VERSION_MIN_TVOS => "LC_VERSION_MIN_TVOS",
        LC_VERSION_MIN_WATCHOS => "LC_VERSION_MIN_WATCHOS",
        LC_NOTE => "LC_NOTE",
        LC_BUILD_VERSION => "LC_BUILD_VERSION",
        LC_LOAD_WEAK_DYLIB => "LC_LOAD_WEAK_DYLIB",
        LC_RPATH => "LC_RPATH",
        LC_REEXPORT_DYLIB => "LC_REEXPORT_DYLIB",
        LC_DYLD_INFO_ONLY => "LC_DYLD_INFO_ONLY",
        LC_LOAD_UPWARD_DYLIB => "LC_LOAD_UPWARD_DYLIB",
        LC_MAIN => "LC_MAIN",
        LC_DYLD_EXPORTS_TRIE => "LC_DYLD_EXPORTS_TRIE",
        LC_DYLD_CHAINED_FIXUPS => "LC_DYLD_CHAINED_FIXUPS",
        LC_FILESET_ENTRY => "LC_FILESET_ENTRY",
        _ => return None,
    })
}

/// Returns the name of a command's constant, or `LC_UNKNOWN`. As in goblin, that is also the name of commands
/// that only later headers have: `command_name` has these.
pub fn cmd_to_str(cmd: u32) -> &'static str
    ensures { result.now ≡ port_name cmd }
{
    table_name(cmd).unwrap_or("LC_UNKNOWN")
}

/// Returns the name of a command's constant, if `mach-o/loader.h` names one with this number.
pub fn command_name(cmd: u32) -> Option<&'static str>
    ensures { option_map (λ name. name.now) result ≡ command_name cmd }
{
    match cmd {
        LC_ATOM_INFO => Some("LC_ATOM_INFO"),
        LC_FUNCTION_VARIANTS => Some("LC_FUNCTION_VARIANTS"),
        LC_FUNCTION_VARIANT_FIXUPS => Some("LC_FUNCTION_VARIANT_FIXUPS"),
        LC_TARGET_TRIPLE => Some("LC_TARGET_TRIPLE"),
        _ => table_name(cmd),
    }
}
