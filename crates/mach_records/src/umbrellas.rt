//! Umbrella frameworks and libraries, and their parts (`mach-o/loader.h`).

use crate::load_command_header::LcStr;
use mach_base::{Endian, Record, RecordBytes};

/// The umbrella that the image is a part of (struct sub_framework_command, `LC_SUB_FRAMEWORK`).
#[derive(Clone, Copy, Debug)]
pub struct SubFrameworkCommand {
    /// Its number: one of the `LC_` constants.
    pub cmd: u32,
    /// Its size in bytes.
    pub cmdsize: u32,
    /// The name of the umbrella framework.
    pub umbrella: LcStr,
}

/// The size of a `SubFrameworkCommand` in bytes.
pub const SIZEOF_SUB_FRAMEWORK_COMMAND: usize = 12;

impl Record for SubFrameworkCommand {
    const SIZE: usize = SIZEOF_SUB_FRAMEWORK_COMMAND;

    ghost SIZE = { 12 };

    ghost use Rattle.mach_records.specs.Umbrellas.{sub_framework_command_fields, sub_framework_command_values};
    ghost use Rattle.std.proofs.Common.{rules};

    ghost fields = { sub_framework_command_fields };

    ghost values = { sub_framework_command_values };

    ghost lawful = { Prim.search rules };

    fn load(bytes: &[u8], le: Endian) -> Self {
        SubFrameworkCommand {
            cmd: le.u32_at(bytes, 0),
            cmdsize: le.u32_at(bytes, 4),
            umbrella: le.u32_at(bytes, 8),
        }
    }

    fn store(self, le: Endian) -> RecordBytes {
        RecordBytes::new()
            .u32(le, self.cmd)
            .u32(le, self.cmdsize)
            .u32(le, self.umbrella)
    }
}

/// A client that may link to the image, although the image is a part of an umbrella (struct sub_client_command, `LC_SUB_CLIENT`).
#[derive(Clone, Copy, Debug)]
pub struct SubClientCommand {
    /// Its number: one of the `LC_` constants.
    pub cmd: u32,
    /// Its size in bytes.
    pub cmdsize: u32,
    /// The name of the client.
    pub client: LcStr,
}

/// The size of a `SubClientCommand` in bytes.
pub const SIZEOF_SUB_CLIENT_COMMAND: usize = 12;

impl Record for SubClientCommand {
    const SIZE: usize = SIZEOF_SUB_CLIENT_COMMAND;

    ghost SIZE = { 12 };

    ghost use Rattle.mach_records.specs.Umbrellas.{sub_client_command_fields, sub_client_command_values};
    ghost use Rattle.std.proofs.Common.{rules};

    ghost fields = { sub_client_command_fields };

    ghost values = { sub_client_command_values };

    ghost lawful = { Prim.search rules };

    fn load(bytes: &[u8], le: Endian) -> Self {
        SubClientCommand {
            cmd: le.u32_at(bytes, 0),
            cmdsize: le.u32_at(bytes, 4),
            client: le.u32_at(bytes, 8),
        }
    }

    fn store(self, le: Endian) -> RecordBytes {
        RecordBytes::new()
            .u32(le, self.cmd)
            .u32(le, self.cmdsize)
            .u32(le, self.client)
    }
}

/// An umbrella framework whose symbols the image re-exports (struct sub_umbrella_command, `LC_SUB_UMBRELLA`).
#[derive(Clone, Copy, Debug)]
pub struct SubUmbrellaCommand {
    /// Its number: one of the `LC_` constants.
    pub cmd: u32,
    /// Its size in bytes.
    pub cmdsize: u32,
    /// The name of the framework.
    pub sub_umbrella: LcStr,
}

/// The size of a `SubUmbrellaCommand` in bytes.
pub const SIZEOF_SUB_UMBRELLA_COMMAND: usize = 12;

impl Record for SubUmbrellaCommand {
    const SIZE: usize = SIZEOF_SUB_UMBRELLA_COMMAND;

    ghost SIZE = { 12 };

    ghost use Rattle.mach_records.specs.Umbrellas.{sub_umbrella_command_fields, sub_umbrella_command_values};
    ghost use Rattle.std.proofs.Common.{rules};

    ghost fields = { sub_umbrella_command_fields };

    ghost values = { sub_umbrella_command_values };

    ghost lawful = { Prim.search rules };

    fn load(bytes: &[u8], le: Endian) -> Self {
        SubUmbrellaCommand {
            cmd: le.u32_at(bytes, 0),
            cmdsize: le.u32_at(bytes, 4),
            sub_umbrella: le.u32_at(bytes, 8),
        }
    }

    fn store(self, le: Endian) -> RecordBytes {
        RecordBytes::new()
            .u32(le, self.cmd)
            .u32(le, self.cmdsize)
            .u32(le, self.sub_umbrella)
    }
}

/// A library whose symbols the image re-exports (struct sub_library_command, `LC_SUB_LIBRARY`).
#[derive(Clone, Copy, Debug)]
pub struct SubLibraryCommand {
    /// Its number: one of the `LC_` constants.
    pub cmd: u32,
    /// Its size in bytes.
    pub cmdsize: u32,
    /// The name of the library.
    pub sub_library: LcStr,
}

/// The size of a `SubLibraryCommand` in bytes.
pub const SIZEOF_SUB_LIBRARY_COMMAND: usize = 12;

impl Record for SubLibraryCommand {
    const SIZE: usize = SIZEOF_SUB_LIBRARY_COMMAND;

    ghost SIZE = { 12 };

    ghost use Rattle.mach_records.specs.Umbrellas.{sub_library_command_fields, sub_library_command_values};
    ghost use Rattle.std.proofs.Common.{rules};

    ghost fields = { sub_library_command_fields };

    ghost values = { sub_library_command_values };

    ghost lawful = { Prim.search rules };

    fn load(bytes: &[u8], le: Endian) -> Self {
        SubLibraryCommand {
            cmd: le.u32_at(bytes, 0),
            cmdsize: le.u32_at(bytes, 4),
            sub_library: le.u32_at(bytes, 8),
        }
    }

    fn store(self, le: Endian) -> RecordBytes {
        RecordBytes::new()
            .u32(le, self.cmd)
            .u32(le, self.cmdsize)
            .u32(le, self.sub_library)
    }
}
