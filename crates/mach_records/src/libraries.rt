//! Libraries that an image is or uses, and where they are searched for (`mach-o/loader.h`).

use crate::load_command_header::LcStr;
use mach_base::{Endian, Record, RecordBytes};

/// A dynamic library (struct dylib).
#[derive(Clone, Copy, Debug)]
pub struct Dylib {
    /// Its path.
    pub name: LcStr,
    /// When it was built, in seconds since 1970.
    pub timestamp: u32,
    /// Its version, X.Y.Z in 16, 8 and 8 bits.
    pub current_version: u32,
    /// The oldest version with which it is compatible, X.Y.Z in 16, 8 and 8 bits.
    pub compatibility_version: u32,
}

/// The size of a `Dylib` in bytes.
pub const SIZEOF_DYLIB: usize = 16;

impl Record for Dylib {
    const SIZE: usize = SIZEOF_DYLIB;

    ghost SIZE = { 16 };

    ghost use Rattle.mach_records.specs.Libraries.{dylib_fields, dylib_values};
    ghost use Rattle.std.proofs.Common.{rules};

    ghost fields = { dylib_fields };

    ghost values = { dylib_values };

    ghost lawful = { Prim.search rules };

    fn load(bytes: &[u8], le: Endian) -> Self {
        Dylib {
            name: le.u32_at(bytes, 0),
            timestamp: le.u32_at(bytes, 4),
            current_version: le.u32_at(bytes, 8),
            compatibility_version: le.u32_at(bytes, 12),
        }
    }

    fn store(self, le: Endian) -> RecordBytes {
        RecordBytes::new()
            .u32(le, self.name)
            .u32(le, self.timestamp)
            .u32(le, self.current_version)
            .u32(le, self.compatibility_version)
    }
}

/// A dynamic library that the image uses or is (struct dylib_command, `LC_LOAD_DYLIB` and related commands, or `LC_ID_DYLIB`).
#[derive(Clone, Copy, Debug)]
pub struct DylibCommand {
    /// Its number: one of the `LC_` constants.
    pub cmd: u32,
    /// Its size in bytes.
    pub cmdsize: u32,
    /// The library.
    pub dylib: Dylib,
}

/// The size of a `DylibCommand` in bytes.
pub const SIZEOF_DYLIB_COMMAND: usize = 24;

impl Record for DylibCommand {
    const SIZE: usize = SIZEOF_DYLIB_COMMAND;

    ghost SIZE = { 24 };

    ghost use Rattle.mach_records.specs.Libraries.{dylib_command_fields, dylib_command_values};
    ghost use Rattle.std.proofs.Common.{rules};

    ghost fields = { dylib_command_fields };

    ghost values = { dylib_command_values };

    ghost lawful = { Prim.search rules };

    fn load(bytes: &[u8], le: Endian) -> Self {
        DylibCommand {
            cmd: le.u32_at(bytes, 0),
            cmdsize: le.u32_at(bytes, 4),
            dylib: Dylib {
                name: le.u32_at(bytes, 8),
                timestamp: le.u32_at(bytes, 12),
                current_version: le.u32_at(bytes, 16),
                compatibility_version: le.u32_at(bytes, 20),
            },
        }
    }

    fn store(self, le: Endian) -> RecordBytes {
        RecordBytes::new()
            .u32(le, self.cmd)
            .u32(le, self.cmdsize)
            .u32(le, self.dylib.name)
            .u32(le, self.dylib.timestamp)
            .u32(le, self.dylib.current_version)
            .u32(le, self.dylib.compatibility_version)
    }
}

/// A library that the image was bound to when it was built (struct prebound_dylib_command, `LC_PREBOUND_DYLIB`).
#[derive(Clone, Copy, Debug)]
pub struct PreboundDylibCommand {
    /// Its number: one of the `LC_` constants.
    pub cmd: u32,
    /// Its size in bytes.
    pub cmdsize: u32,
    /// Its path.
    pub name: LcStr,
    /// How many modules it has.
    pub nmodules: u32,
    /// The place of a bit for each module, from bit 0 of the first byte: 1 if the module is bound.
    pub linked_modules: LcStr,
}

/// The size of a `PreboundDylibCommand` in bytes.
pub const SIZEOF_PREBOUND_DYLIB_COMMAND: usize = 20;

impl Record for PreboundDylibCommand {
    const SIZE: usize = SIZEOF_PREBOUND_DYLIB_COMMAND;

    ghost SIZE = { 20 };

    ghost use Rattle.mach_records.specs.Libraries.{prebound_dylib_command_fields, prebound_dylib_command_values};
    ghost use Rattle.std.proofs.Common.{rules};

    ghost fields = { prebound_dylib_command_fields };

    ghost values = { prebound_dylib_command_values };

    ghost lawful = { Prim.search rules };

    fn load(bytes: &[u8], le: Endian) -> Self {
        PreboundDylibCommand {
            cmd: le.u32_at(bytes, 0),
            cmdsize: le.u32_at(bytes, 4),
            name: le.u32_at(bytes, 8),
            nmodules: le.u32_at(bytes, 12),
            linked_modules: le.u32_at(bytes, 16),
        }
    }

    fn store(self, le: Endian) -> RecordBytes {
        RecordBytes::new()
            .u32(le, self.cmd)
            .u32(le, self.cmdsize)
            .u32(le, self.name)
            .u32(le, self.nmodules)
            .u32(le, self.linked_modules)
    }
}

/// The dynamic linker that the image requires or is, or a setting for it (struct
/// dylinker_command, `LC_LOAD_DYLINKER`, `LC_ID_DYLINKER` or `LC_DYLD_ENVIRONMENT`).
#[derive(Clone, Copy, Debug)]
pub struct DylinkerCommand {
    /// Its number: one of the `LC_` constants.
    pub cmd: u32,
    /// Its size in bytes.
    pub cmdsize: u32,
    /// The path of the linker, or the setting.
    pub name: LcStr,
}

/// The size of a `DylinkerCommand` in bytes.
pub const SIZEOF_DYLINKER_COMMAND: usize = 12;

impl Record for DylinkerCommand {
    const SIZE: usize = SIZEOF_DYLINKER_COMMAND;

    ghost SIZE = { 12 };

    ghost use Rattle.mach_records.specs.Libraries.{dylinker_command_fields, dylinker_command_values};
    ghost use Rattle.std.proofs.Common.{rules};

    ghost fields = { dylinker_command_fields };

    ghost values = { dylinker_command_values };

    ghost lawful = { Prim.search rules };

    fn load(bytes: &[u8], le: Endian) -> Self {
        DylinkerCommand {
            cmd: le.u32_at(bytes, 0),
            cmdsize: le.u32_at(bytes, 4),
            name: le.u32_at(bytes, 8),
        }
    }

    fn store(self, le: Endian) -> RecordBytes {
        RecordBytes::new()
            .u32(le, self.cmd)
            .u32(le, self.cmdsize)
            .u32(le, self.name)
    }
}

/// A path to substitute for `@rpath` when libraries are searched for (struct rpath_command, `LC_RPATH`).
#[derive(Clone, Copy, Debug)]
pub struct RpathCommand {
    /// Its number: one of the `LC_` constants.
    pub cmd: u32,
    /// Its size in bytes.
    pub cmdsize: u32,
    /// The path.
    pub path: LcStr,
}

/// The size of a `RpathCommand` in bytes.
pub const SIZEOF_RPATH_COMMAND: usize = 12;

impl Record for RpathCommand {
    const SIZE: usize = SIZEOF_RPATH_COMMAND;

    ghost SIZE = { 12 };

    ghost use Rattle.mach_records.specs.Libraries.{rpath_command_fields, rpath_command_values};
    ghost use Rattle.std.proofs.Common.{rules};

    ghost fields = { rpath_command_fields };

    ghost values = { rpath_command_values };

    ghost lawful = { Prim.search rules };

    fn load(bytes: &[u8], le: Endian) -> Self {
        RpathCommand {
            cmd: le.u32_at(bytes, 0),
            cmdsize: le.u32_at(bytes, 4),
            path: le.u32_at(bytes, 8),
        }
    }

    fn store(self, le: Endian) -> RecordBytes {
        RecordBytes::new()
            .u32(le, self.cmd)
            .u32(le, self.cmdsize)
            .u32(le, self.path)
    }
}

/// A library at a fixed address; obsolete (struct fvmlib).
#[derive(Clone, Copy, Debug)]
pub struct Fvmlib {
    /// Its path.
    pub name: LcStr,
    /// Its version.
    pub minor_version: u32,
    /// The address of its header in memory.
    pub header_addr: u32,
}

/// The size of a `Fvmlib` in bytes.
pub const SIZEOF_FVMLIB: usize = 12;

impl Record for Fvmlib {
    const SIZE: usize = SIZEOF_FVMLIB;

    ghost SIZE = { 12 };

    ghost use Rattle.mach_records.specs.Libraries.{fvmlib_fields, fvmlib_values};
    ghost use Rattle.std.proofs.Common.{rules};

    ghost fields = { fvmlib_fields };

    ghost values = { fvmlib_values };

    ghost lawful = { Prim.search rules };

    fn load(bytes: &[u8], le: Endian) -> Self {
        Fvmlib {
            name: le.u32_at(bytes, 0),
            minor_version: le.u32_at(bytes, 4),
            header_addr: le.u32_at(bytes, 8),
        }
    }

    fn store(self, le: Endian) -> RecordBytes {
        RecordBytes::new()
            .u32(le, self.name)
            .u32(le, self.minor_version)
            .u32(le, self.header_addr)
    }
}

/// A library at a fixed address that the image uses or is (struct fvmlib_command, `LC_LOADFVMLIB` or `LC_IDFVMLIB`).
#[derive(Clone, Copy, Debug)]
pub struct FvmlibCommand {
    /// Its number: one of the `LC_` constants.
    pub cmd: u32,
    /// Its size in bytes.
    pub cmdsize: u32,
    /// The library.
    pub fvmlib: Fvmlib,
}

/// The size of a `FvmlibCommand` in bytes.
pub const SIZEOF_FVMLIB_COMMAND: usize = 20;

impl Record for FvmlibCommand {
    const SIZE: usize = SIZEOF_FVMLIB_COMMAND;

    ghost SIZE = { 20 };

    ghost use Rattle.mach_records.specs.Libraries.{fvmlib_command_fields, fvmlib_command_values};
    ghost use Rattle.std.proofs.Common.{rules};

    ghost fields = { fvmlib_command_fields };

    ghost values = { fvmlib_command_values };

    ghost lawful = { Prim.search rules };

    fn load(bytes: &[u8], le: Endian) -> Self {
        FvmlibCommand {
            cmd: le.u32_at(bytes, 0),
            cmdsize: le.u32_at(bytes, 4),
            fvmlib: Fvmlib {
                name: le.u32_at(bytes, 8),
                minor_version: le.u32_at(bytes, 12),
                header_addr: le.u32_at(bytes, 16),
            },
        }
    }

    fn store(self, le: Endian) -> RecordBytes {
        RecordBytes::new()
            .u32(le, self.cmd)
            .u32(le, self.cmdsize)
            .u32(le, self.fvmlib.name)
            .u32(le, self.fvmlib.minor_version)
            .u32(le, self.fvmlib.header_addr)
    }
}

/// A file to load at a fixed address (struct fvmfile_command, `LC_FVMFILE`).
#[derive(Clone, Copy, Debug)]
pub struct FvmfileCommand {
    /// Its number: one of the `LC_` constants.
    pub cmd: u32,
    /// Its size in bytes.
    pub cmdsize: u32,
    /// Its path.
    pub name: LcStr,
    /// The address to load it at.
    pub header_addr: u32,
}

/// The size of a `FvmfileCommand` in bytes.
pub const SIZEOF_FVMFILE_COMMAND: usize = 16;

impl Record for FvmfileCommand {
    const SIZE: usize = SIZEOF_FVMFILE_COMMAND;

    ghost SIZE = { 16 };

    ghost use Rattle.mach_records.specs.Libraries.{fvmfile_command_fields, fvmfile_command_values};
    ghost use Rattle.std.proofs.Common.{rules};

    ghost fields = { fvmfile_command_fields };

    ghost values = { fvmfile_command_values };

    ghost lawful = { Prim.search rules };

    fn load(bytes: &[u8], le: Endian) -> Self {
        FvmfileCommand {
            cmd: le.u32_at(bytes, 0),
            cmdsize: le.u32_at(bytes, 4),
            name: le.u32_at(bytes, 8),
            header_addr: le.u32_at(bytes, 12),
        }
    }

    fn store(self, le: Endian) -> RecordBytes {
        RecordBytes::new()
            .u32(le, self.cmd)
            .u32(le, self.cmdsize)
            .u32(le, self.name)
            .u32(le, self.header_addr)
    }
}
