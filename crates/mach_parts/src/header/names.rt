//! The flags of headers and the types of files, with their names (`mach-o/loader.h`).

ghost use Rattle.std.specs.Prelude.{◌≡◌};
ghost use Rattle.mach_parts.specs.HeaderNames.{flag_name, filetype_name};

/// There are no undefined references.
pub const MH_NOUNDEFS: u32 = 0x1;

/// It is the output of an incremental link against a base file.
pub const MH_INCRLINK: u32 = 0x2;

/// It is input for the dynamic linker and is not linked again statically.
pub const MH_DYLDLINK: u32 = 0x4;

/// Undefined references are bound when it is loaded.
pub const MH_BINDATLOAD: u32 = 0x8;

/// Its undefined references are prebound.
pub const MH_PREBOUND: u32 = 0x10;

/// Read-only and writable segments are separate.
pub const MH_SPLIT_SEGS: u32 = 0x20;

/// Obsolete: a library is initialized at its first use.
pub const MH_LAZY_INIT: u32 = 0x40;

/// It uses two-level namespaces: undefined references name the library they are bound to.
pub const MH_TWOLEVEL: u32 = 0x80;

/// All images use flat namespaces: they are bound by name only.
pub const MH_FORCE_FLAT: u32 = 0x100;

/// No symbol is defined twice in its sub-images.
pub const MH_NOMULTIDEFS: u32 = 0x200;

/// The prebinding agent is not notified of it.
pub const MH_NOFIXPREBINDING: u32 = 0x400;

/// It is not prebound but can be.
pub const MH_PREBINDABLE: u32 = 0x800;

/// It is bound to all modules of the libraries it needs.
pub const MH_ALLMODSBOUND: u32 = 0x1000;

/// Sections may be divided at symbols.
pub const MH_SUBSECTIONS_VIA_SYMBOLS: u32 = 0x2000;

/// Its prebinding was undone.
pub const MH_CANONICAL: u32 = 0x4000;

/// It defines weak symbols.
pub const MH_WEAK_DEFINES: u32 = 0x8000;

/// It uses weak symbols.
pub const MH_BINDS_TO_WEAK: u32 = 0x0001_0000;

/// Stacks may be executed, in an executable.
pub const MH_ALLOW_STACK_EXECUTION: u32 = 0x0002_0000;

/// It is safe in a process that runs as root.
pub const MH_ROOT_SAFE: u32 = 0x0004_0000;

/// It is safe in a process that runs with the rights of another user.
pub const MH_SETUID_SAFE: u32 = 0x0008_0000;

/// It re-exports no library.
pub const MH_NO_REEXPORTED_DYLIBS: u32 = 0x0010_0000;

/// It is loaded at a random address, in an executable.
pub const MH_PIE: u32 = 0x0020_0000;

/// It need not be loaded if nothing of it is used.
pub const MH_DEAD_STRIPPABLE_DYLIB: u32 = 0x0040_0000;

/// It has a section of thread-local variables.
pub const MH_HAS_TLV_DESCRIPTORS: u32 = 0x0080_0000;

/// The heap may not be executed, in an executable.
pub const MH_NO_HEAP_EXECUTION: u32 = 0x0100_0000;

/// It may be used in an extension of an application.
pub const MH_APP_EXTENSION_SAFE: u32 = 0x0200_0000;

/// A relocatable object file.
pub const MH_OBJECT: u32 = 0x1;

/// An executable.
pub const MH_EXECUTE: u32 = 0x2;

/// A shared library at a fixed address.
pub const MH_FVMLIB: u32 = 0x3;

/// The memory of a crashed process.
pub const MH_CORE: u32 = 0x4;

/// An executable that the kernel does not start.
pub const MH_PRELOAD: u32 = 0x5;

/// A dynamic library.
pub const MH_DYLIB: u32 = 0x6;

/// A dynamic linker.
pub const MH_DYLINKER: u32 = 0x7;

/// A bundle, loaded at run time.
pub const MH_BUNDLE: u32 = 0x8;

/// A library without contents, to link against.
pub const MH_DYLIB_STUB: u32 = 0x9;

/// Debug sections for another file.
pub const MH_DSYM: u32 = 0xa;

/// A kernel extension.
pub const MH_KEXT_BUNDLE: u32 = 0xb;

/// A file set of images.
pub const MH_FILESET: u32 = 0xc;

/// A program for a graphics processor.
pub const MH_GPU_EXECUTE: u32 = 0xd;

/// A library for a graphics processor.
pub const MH_GPU_DYLIB: u32 = 0xe;

/// Returns the name of exactly one flag, or `UNKNOWN FLAG`.
pub fn flag_to_str(flag: u32) -> &'static str
    ensures { result.now ≡ flag_name flag }
{
    match flag {
        MH_NOUNDEFS => "MH_NOUNDEFS",
        MH_INCRLINK => "MH_INCRLINK",
        MH_DYLDLINK => "MH_DYLDLINK",
        MH_BINDATLOAD => "MH_BINDATLOAD",
        MH_PREBOUND => "MH_PREBOUND",
        MH_SPLIT_SEGS => "MH_SPLIT_SEGS",
        MH_LAZY_INIT => "MH_LAZY_INIT",
        MH_TWOLEVEL => "MH_TWOLEVEL",
        MH_FORCE_FLAT => "MH_FORCE_FLAT",
        MH_NOMULTIDEFS => "MH_NOMULTIDEFS",
        MH_NOFIXPREBINDING => "MH_NOFIXPREBINDING",
        MH_PREBINDABLE => "MH_PREBINDABLE",
        MH_ALLMODSBOUND => "MH_ALLMODSBOUND",
        MH_SUBSECTIONS_VIA_SYMBOLS => "MH_SUBSECTIONS_VIA_SYMBOLS",
        MH_CANONICAL => "MH_CANONICAL",
        MH_WEAK_DEFINES => "MH_WEAK_DEFINES",
        MH_BINDS_TO_WEAK => "MH_BINDS_TO_WEAK",
        MH_ALLOW_STACK_EXECUTION => "MH_ALLOW_STACK_EXECUTION",
        MH_ROOT_SAFE => "MH_ROOT_SAFE",
        MH_SETUID_SAFE => "MH_SETUID_SAFE",
        MH_NO_REEXPORTED_DYLIBS => "MH_NO_REEXPORTED_DYLIBS",
        MH_PIE => "MH_PIE",
        MH_DEAD_STRIPPABLE_DYLIB => "MH_DEAD_STRIPPABLE_DYLIB",
        MH_HAS_TLV_DESCRIPTORS => "MH_HAS_TLV_DESCRIPTORS",
        MH_NO_HEAP_EXECUTION => "MH_NO_HEAP_EXECUTION",
        MH_APP_EXTENSION_SAFE => "MH_APP_EXTENSION_SAFE",
        _ => "UNKNOWN FLAG",
    }
}

/// Returns the name of a file type without its prefix, or `UNKNOWN FILETYPE`.
pub fn filetype_to_str(filetype: u32) -> &'static str
    ensures { result.now ≡ filetype_name filetype }
{
    match filetype {
        MH_OBJECT => "OBJECT",
        MH_EXECUTE => "EXECUTE",
        MH_FVMLIB => "FVMLIB",
        MH_CORE => "CORE",
        MH_PRELOAD => "PRELOAD",
        MH_DYLIB => "DYLIB",
        MH_DYLINKER => "DYLINKER",
        MH_BUNDLE => "BUNDLE",
        MH_DYLIB_STUB => "DYLIB_STUB",
        MH_DSYM => "DSYM",
        MH_KEXT_BUNDLE => "KEXT_BUNDLE",
        MH_FILESET => "FILESET",
        MH_GPU_EXECUTE => "GPU_EXECUTE",
        MH_GPU_DYLIB => "GPU_DYLIB",
        _ => "UNKNOWN FILETYPE",
    }
}
