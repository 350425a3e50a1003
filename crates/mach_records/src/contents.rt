//! Further facts about an image (`mach-o/loader.h`).

use crate::load_command_header::LcStr;
use mach_base::{Endian, Record, RecordBytes, array_at};

/// The unique number of the image (struct uuid_command, `LC_UUID`).
#[derive(Clone, Copy, Debug)]
pub struct UuidCommand {
    /// Its number: one of the `LC_` constants.
    pub cmd: u32,
    /// Its size in bytes.
    pub cmdsize: u32,
    /// The number.
    pub uuid: [u8; 16],
}

/// The size of an `UuidCommand` in bytes.
pub const SIZEOF_UUID_COMMAND: usize = 24;

impl Record for UuidCommand {
    const SIZE: usize = SIZEOF_UUID_COMMAND;

    ghost SIZE = { 24 };

    ghost use Rattle.mach_records.specs.Contents.{uuid_command_fields, uuid_command_values};
    ghost use Rattle.std.proofs.Common.{rules};

    ghost fields = { uuid_command_fields };

    ghost values = { uuid_command_values };

    ghost lawful = { Prim.search rules };

    fn load(bytes: &[u8], le: Endian) -> Self {
        UuidCommand {
            cmd: le.u32_at(bytes, 0),
            cmdsize: le.u32_at(bytes, 4),
            uuid: array_at(bytes, 8),
        }
    }

    fn store(self, le: Endian) -> RecordBytes {
        RecordBytes::new()
            .u32(le, self.cmd)
            .u32(le, self.cmdsize)
            .bytes(&self.uuid)
    }
}

/// The target triple that the image was compiled for (struct target_triple_command, `LC_TARGET_TRIPLE`).
#[derive(Clone, Copy, Debug)]
pub struct TargetTripleCommand {
    /// Its number: one of the `LC_` constants.
    pub cmd: u32,
    /// Its size in bytes.
    pub cmdsize: u32,
    /// The triple.
    pub triple: LcStr,
}

/// The size of a `TargetTripleCommand` in bytes.
pub const SIZEOF_TARGET_TRIPLE_COMMAND: usize = 12;

impl Record for TargetTripleCommand {
    const SIZE: usize = SIZEOF_TARGET_TRIPLE_COMMAND;

    ghost SIZE = { 12 };

    ghost use Rattle.mach_records.specs.Contents.{target_triple_command_fields, target_triple_command_values};
    ghost use Rattle.std.proofs.Common.{rules};

    ghost fields = { target_triple_command_fields };

    ghost values = { target_triple_command_values };

    ghost lawful = { Prim.search rules };

    fn load(bytes: &[u8], le: Endian) -> Self {
        TargetTripleCommand {
            cmd: le.u32_at(bytes, 0),
            cmdsize: le.u32_at(bytes, 4),
            triple: le.u32_at(bytes, 8),
        }
    }

    fn store(self, le: Endian) -> RecordBytes {
        RecordBytes::new()
            .u32(le, self.cmd)
            .u32(le, self.cmdsize)
            .u32(le, self.triple)
    }
}

/// Where a program begins (struct entry_point_command, `LC_MAIN`).
#[derive(Clone, Copy, Debug)]
pub struct EntryPointCommand {
    /// Its number: one of the `LC_` constants.
    pub cmd: u32,
    /// Its size in bytes.
    pub cmdsize: u32,
    /// The file offset of its first instruction.
    pub entryoff: u64,
    /// The initial stack size in bytes; 0 for the default.
    pub stacksize: u64,
}

/// The size of an `EntryPointCommand` in bytes.
pub const SIZEOF_ENTRY_POINT_COMMAND: usize = 24;

impl Record for EntryPointCommand {
    const SIZE: usize = SIZEOF_ENTRY_POINT_COMMAND;

    ghost SIZE = { 24 };

    ghost use Rattle.mach_records.specs.Contents.{entry_point_command_fields, entry_point_command_values};
    ghost use Rattle.std.proofs.Common.{rules};

    ghost fields = { entry_point_command_fields };

    ghost values = { entry_point_command_values };

    ghost lawful = { Prim.search rules };

    fn load(bytes: &[u8], le: Endian) -> Self {
        EntryPointCommand {
            cmd: le.u32_at(bytes, 0),
            cmdsize: le.u32_at(bytes, 4),
            entryoff: le.u64_at(bytes, 8),
            stacksize: le.u64_at(bytes, 16),
        }
    }

    fn store(self, le: Endian) -> RecordBytes {
        RecordBytes::new()
            .u32(le, self.cmd)
            .u32(le, self.cmdsize)
            .u64(le, self.entryoff)
            .u64(le, self.stacksize)
    }
}

/// An image within a file set (struct fileset_entry_command, `LC_FILESET_ENTRY`).
#[derive(Clone, Copy, Debug)]
pub struct FilesetEntryCommand {
    /// Its number: one of the `LC_` constants.
    pub cmd: u32,
    /// Its size in bytes.
    pub cmdsize: u32,
    /// Its address in memory.
    pub vmaddr: u64,
    /// Its file offset.
    pub fileoff: u64,
    /// Its name.
    pub entry_id: LcStr,
    /// Not used.
    pub reserved: u32,
}

impl Record for FilesetEntryCommand {
    const SIZE: usize = 32;

    ghost SIZE = { 32 };

    ghost use Rattle.mach_records.specs.Contents.{fileset_entry_command_fields, fileset_entry_command_values};
    ghost use Rattle.std.proofs.Common.{rules};

    ghost fields = { fileset_entry_command_fields };

    ghost values = { fileset_entry_command_values };

    ghost lawful = { Prim.search rules };

    fn load(bytes: &[u8], le: Endian) -> Self {
        FilesetEntryCommand {
            cmd: le.u32_at(bytes, 0),
            cmdsize: le.u32_at(bytes, 4),
            vmaddr: le.u64_at(bytes, 8),
            fileoff: le.u64_at(bytes, 16),
            entry_id: le.u32_at(bytes, 24),
            reserved: le.u32_at(bytes, 28),
        }
    }

    fn store(self, le: Endian) -> RecordBytes {
        RecordBytes::new()
            .u32(le, self.cmd)
            .u32(le, self.cmdsize)
            .u64(le, self.vmaddr)
            .u64(le, self.fileoff)
            .u32(le, self.entry_id)
            .u32(le, self.reserved)
    }
}

/// Bytes that a tool has added to the file (struct note_command, `LC_NOTE`).
#[derive(Clone, Copy, Debug)]
pub struct NoteCommand {
    /// Its number: one of the `LC_` constants.
    pub cmd: u32,
    /// Its size in bytes.
    pub cmdsize: u32,
    /// The name of the tool, padded with zeros.
    pub data_owner: [u8; 16],
    /// Their file offset.
    pub offset: u64,
    /// Their number.
    pub size: u64,
}

impl Record for NoteCommand {
    const SIZE: usize = 40;

    ghost SIZE = { 40 };

    ghost use Rattle.mach_records.specs.Contents.{note_command_fields, note_command_values};
    ghost use Rattle.std.proofs.Common.{rules};

    ghost fields = { note_command_fields };

    ghost values = { note_command_values };

    ghost lawful = { Prim.search rules };

    fn load(bytes: &[u8], le: Endian) -> Self {
        NoteCommand {
            cmd: le.u32_at(bytes, 0),
            cmdsize: le.u32_at(bytes, 4),
            data_owner: array_at(bytes, 8),
            offset: le.u64_at(bytes, 24),
            size: le.u64_at(bytes, 32),
        }
    }

    fn store(self, le: Endian) -> RecordBytes {
        RecordBytes::new()
            .u32(le, self.cmd)
            .u32(le, self.cmdsize)
            .bytes(&self.data_owner)
            .u64(le, self.offset)
            .u64(le, self.size)
    }
}

/// The checksum of the image before prebinding (struct prebind_cksum_command, `LC_PREBIND_CKSUM`).
#[derive(Clone, Copy, Debug)]
pub struct PrebindCksumCommand {
    /// Its number: one of the `LC_` constants.
    pub cmd: u32,
    /// Its size in bytes.
    pub cmdsize: u32,
    /// The checksum, or 0 if none was computed.
    pub cksum: u32,
}

impl Record for PrebindCksumCommand {
    const SIZE: usize = 12;

    ghost SIZE = { 12 };

    ghost use Rattle.mach_records.specs.Contents.{prebind_cksum_command_fields, prebind_cksum_command_values};
    ghost use Rattle.std.proofs.Common.{rules};

    ghost fields = { prebind_cksum_command_fields };

    ghost values = { prebind_cksum_command_values };

    ghost lawful = { Prim.search rules };

    fn load(bytes: &[u8], le: Endian) -> Self {
        PrebindCksumCommand {
            cmd: le.u32_at(bytes, 0),
            cmdsize: le.u32_at(bytes, 4),
            cksum: le.u32_at(bytes, 8),
        }
    }

    fn store(self, le: Endian) -> RecordBytes {
        RecordBytes::new()
            .u32(le, self.cmd)
            .u32(le, self.cmdsize)
            .u32(le, self.cksum)
    }
}

/// Options of an object file for the linker (struct linker_option_command, `LC_LINKER_OPTION`).
#[derive(Clone, Copy, Debug)]
pub struct LinkerOptionCommand {
    /// Its number: one of the `LC_` constants.
    pub cmd: u32,
    /// Its size in bytes.
    pub cmdsize: u32,
    /// How many texts follow this record, each ended by a zero byte.
    pub count: u32,
}

/// The size of a `LinkerOptionCommand` in bytes.
pub const SIZEOF_LINKER_OPTION_COMMAND: usize = 12;

impl Record for LinkerOptionCommand {
    const SIZE: usize = SIZEOF_LINKER_OPTION_COMMAND;

    ghost SIZE = { 12 };

    ghost use Rattle.mach_records.specs.Contents.{linker_option_command_fields, linker_option_command_values};
    ghost use Rattle.std.proofs.Common.{rules};

    ghost fields = { linker_option_command_fields };

    ghost values = { linker_option_command_values };

    ghost lawful = { Prim.search rules };

    fn load(bytes: &[u8], le: Endian) -> Self {
        LinkerOptionCommand {
            cmd: le.u32_at(bytes, 0),
            cmdsize: le.u32_at(bytes, 4),
            count: le.u32_at(bytes, 8),
        }
    }

    fn store(self, le: Endian) -> RecordBytes {
        RecordBytes::new()
            .u32(le, self.cmd)
            .u32(le, self.cmdsize)
            .u32(le, self.count)
    }
}

/// Texts that follow this record; obsolete (struct ident_command, `LC_IDENT`).
#[derive(Clone, Copy, Debug)]
pub struct IdentCommand {
    /// Its number: one of the `LC_` constants.
    pub cmd: u32,
    /// Its size in bytes.
    pub cmdsize: u32,
}

/// The size of an `IdentCommand` in bytes.
pub const SIZEOF_IDENT_COMMAND: usize = 8;

impl Record for IdentCommand {
    const SIZE: usize = SIZEOF_IDENT_COMMAND;

    ghost SIZE = { 8 };

    ghost use Rattle.mach_records.specs.Contents.{ident_command_fields, ident_command_values};
    ghost use Rattle.std.proofs.Common.{rules};

    ghost fields = { ident_command_fields };

    ghost values = { ident_command_values };

    ghost lawful = { Prim.search rules };

    fn load(bytes: &[u8], le: Endian) -> Self {
        IdentCommand {
            cmd: le.u32_at(bytes, 0),
            cmdsize: le.u32_at(bytes, 4),
        }
    }

    fn store(self, le: Endian) -> RecordBytes {
        RecordBytes::new().u32(le, self.cmd).u32(le, self.cmdsize)
    }
}
