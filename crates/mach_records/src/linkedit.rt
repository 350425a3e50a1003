//! The tables of the link-edit segment, and encrypted bytes (`mach-o/loader.h`).

use crate::numbers::u32s;
use mach_base::{Endian, Record, RecordBytes};

/// The place of a table of the link-edit segment (struct linkedit_data_command,
/// `LC_CODE_SIGNATURE`, `LC_FUNCTION_STARTS`, `LC_DYLD_EXPORTS_TRIE` and others).
#[derive(Clone, Copy, Debug, Default)]
pub struct LinkeditDataCommand {
    /// Its number: one of the `LC_` constants.
    pub cmd: u32,
    /// Its size in bytes.
    pub cmdsize: u32,
    /// Its file offset.
    pub dataoff: u32,
    /// Its size in bytes.
    pub datasize: u32,
}

/// The size of a `LinkeditDataCommand` in bytes.
pub const SIZEOF_LINKEDIT_DATA_COMMAND: usize = 16;

impl Record for LinkeditDataCommand {
    const SIZE: usize = SIZEOF_LINKEDIT_DATA_COMMAND;

    ghost SIZE = { 16 };

    ghost use Rattle.mach_records.specs.Linkedit.{linkedit_data_command_fields, linkedit_data_command_values};
    ghost use Rattle.std.proofs.Common.{rules};

    ghost fields = { linkedit_data_command_fields };

    ghost values = { linkedit_data_command_values };

    ghost lawful = { Prim.search rules };

    fn load(bytes: &[u8], le: Endian) -> Self {
        LinkeditDataCommand {
            cmd: le.u32_at(bytes, 0),
            cmdsize: le.u32_at(bytes, 4),
            dataoff: le.u32_at(bytes, 8),
            datasize: le.u32_at(bytes, 12),
        }
    }

    fn store(self, le: Endian) -> RecordBytes {
        RecordBytes::new()
            .u32(le, self.cmd)
            .u32(le, self.cmdsize)
            .u32(le, self.dataoff)
            .u32(le, self.datasize)
    }
}

/// The places of the dynamic linker's streams: file offsets, and sizes in
/// bytes (struct dyld_info_command, `LC_DYLD_INFO` or `LC_DYLD_INFO_ONLY`).
#[derive(Clone, Copy, Debug, Default)]
pub struct DyldInfoCommand {
    /// Its number: one of the `LC_` constants.
    pub cmd: u32,
    /// Its size in bytes.
    pub cmdsize: u32,
    /// The rebases: pointers that move with the image.
    pub rebase_off: u32,
    /// The size of the rebases.
    pub rebase_size: u32,
    /// The binds at loading.
    pub bind_off: u32,
    /// The size of these binds.
    pub bind_size: u32,
    /// The weak binds, whose symbols several images may define.
    pub weak_bind_off: u32,
    /// The size of the weak binds.
    pub weak_bind_size: u32,
    /// The lazy binds, at first use.
    pub lazy_bind_off: u32,
    /// The size of the lazy binds.
    pub lazy_bind_size: u32,
    /// The trie of the exports.
    pub export_off: u32,
    /// The size of the trie.
    pub export_size: u32,
}

/// The size of a `DyldInfoCommand` in bytes.
pub const SIZEOF_DYLIB_INFO_COMMAND: usize = 48;

impl Record for DyldInfoCommand {
    const SIZE: usize = SIZEOF_DYLIB_INFO_COMMAND;

    ghost SIZE = { 48 };

    ghost use Rattle.mach_records.specs.Linkedit.{dyld_info_command_fields, dyld_info_command_values};
    ghost use Rattle.std.proofs.Common.{rules};

    ghost fields = { dyld_info_command_fields };

    ghost values = { dyld_info_command_values };

    ghost lawful = { Prim.search rules };

    fn load(bytes: &[u8], le: Endian) -> Self {
        DyldInfoCommand {
            cmd: le.u32_at(bytes, 0),
            cmdsize: le.u32_at(bytes, 4),
            rebase_off: le.u32_at(bytes, 8),
            rebase_size: le.u32_at(bytes, 12),
            bind_off: le.u32_at(bytes, 16),
            bind_size: le.u32_at(bytes, 20),
            weak_bind_off: le.u32_at(bytes, 24),
            weak_bind_size: le.u32_at(bytes, 28),
            lazy_bind_off: le.u32_at(bytes, 32),
            lazy_bind_size: le.u32_at(bytes, 36),
            export_off: le.u32_at(bytes, 40),
            export_size: le.u32_at(bytes, 44),
        }
    }

    fn store(self, le: Endian) -> RecordBytes {
        u32s(
            RecordBytes::new(),
            le,
            &[
                self.cmd,
                self.cmdsize,
                self.rebase_off,
                self.rebase_size,
                self.bind_off,
                self.bind_size,
                self.weak_bind_off,
                self.weak_bind_size,
                self.lazy_bind_off,
                self.lazy_bind_size,
                self.export_off,
                self.export_size,
            ],
        )
    }
}

/// A run of data inside code (struct data_in_code_entry).
#[derive(Clone, Copy, Debug)]
pub struct DataInCodeEntry {
    /// Its offset from the header of the image.
    pub offset: u32,
    /// Its size in bytes.
    pub length: u16,
    /// Its kind, one of the `DICE_KIND_` numbers.
    pub kind: u16,
}

impl Record for DataInCodeEntry {
    const SIZE: usize = 8;

    ghost SIZE = { 8 };

    ghost use Rattle.mach_records.specs.Linkedit.{data_in_code_entry_fields, data_in_code_entry_values};
    ghost use Rattle.std.proofs.Common.{rules};

    ghost fields = { data_in_code_entry_fields };

    ghost values = { data_in_code_entry_values };

    ghost lawful = { Prim.search rules };

    fn load(bytes: &[u8], le: Endian) -> Self {
        DataInCodeEntry {
            offset: le.u32_at(bytes, 0),
            length: le.u16_at(bytes, 4),
            kind: le.u16_at(bytes, 6),
        }
    }

    fn store(self, le: Endian) -> RecordBytes {
        RecordBytes::new()
            .u32(le, self.offset)
            .u16(le, self.length)
            .u16(le, self.kind)
    }
}

/// The encrypted bytes of a 32-bit image (struct encryption_info_command, `LC_ENCRYPTION_INFO`).
#[derive(Clone, Copy, Debug)]
pub struct EncryptionInfoCommand32 {
    /// Its number: one of the `LC_` constants.
    pub cmd: u32,
    /// Its size in bytes.
    pub cmdsize: u32,
    /// Their file offset.
    pub cryptoff: u32,
    /// Their number.
    pub cryptsize: u32,
    /// The method of encryption; 0 if they are not encrypted yet.
    pub cryptid: u32,
}

/// The size of an `EncryptionInfoCommand32` in bytes.
pub const SIZEOF_ENCRYPTION_INFO_COMMAND_32: usize = 20;

impl Record for EncryptionInfoCommand32 {
    const SIZE: usize = SIZEOF_ENCRYPTION_INFO_COMMAND_32;

    ghost SIZE = { 20 };

    ghost use Rattle.mach_records.specs.Linkedit.{encryption_info_command32_fields, encryption_info_command32_values};
    ghost use Rattle.std.proofs.Common.{rules};

    ghost fields = { encryption_info_command32_fields };

    ghost values = { encryption_info_command32_values };

    ghost lawful = { Prim.search rules };

    fn load(bytes: &[u8], le: Endian) -> Self {
        EncryptionInfoCommand32 {
            cmd: le.u32_at(bytes, 0),
            cmdsize: le.u32_at(bytes, 4),
            cryptoff: le.u32_at(bytes, 8),
            cryptsize: le.u32_at(bytes, 12),
            cryptid: le.u32_at(bytes, 16),
        }
    }

    fn store(self, le: Endian) -> RecordBytes {
        RecordBytes::new()
            .u32(le, self.cmd)
            .u32(le, self.cmdsize)
            .u32(le, self.cryptoff)
            .u32(le, self.cryptsize)
            .u32(le, self.cryptid)
    }
}

/// The encrypted bytes of a 64-bit image (struct encryption_info_command_64, `LC_ENCRYPTION_INFO_64`).
#[derive(Clone, Copy, Debug)]
pub struct EncryptionInfoCommand64 {
    /// Its number: one of the `LC_` constants.
    pub cmd: u32,
    /// Its size in bytes.
    pub cmdsize: u32,
    /// Their file offset.
    pub cryptoff: u32,
    /// Their number.
    pub cryptsize: u32,
    /// The method of encryption; 0 if they are not encrypted yet.
    pub cryptid: u32,
    /// Not used.
    pub pad: u32,
}

/// The size of an `EncryptionInfoCommand64` in bytes.
pub const SIZEOF_ENCRYPTION_INFO_COMMAND_64: usize = 24;

impl Record for EncryptionInfoCommand64 {
    const SIZE: usize = SIZEOF_ENCRYPTION_INFO_COMMAND_64;

    ghost SIZE = { 24 };

    ghost use Rattle.mach_records.specs.Linkedit.{encryption_info_command64_fields, encryption_info_command64_values};
    ghost use Rattle.std.proofs.Common.{rules};

    ghost fields = { encryption_info_command64_fields };

    ghost values = { encryption_info_command64_values };

    ghost lawful = { Prim.search rules };

    fn load(bytes: &[u8], le: Endian) -> Self {
        EncryptionInfoCommand64 {
            cmd: le.u32_at(bytes, 0),
            cmdsize: le.u32_at(bytes, 4),
            cryptoff: le.u32_at(bytes, 8),
            cryptsize: le.u32_at(bytes, 12),
            cryptid: le.u32_at(bytes, 16),
            pad: le.u32_at(bytes, 20),
        }
    }

    fn store(self, le: Endian) -> RecordBytes {
        RecordBytes::new()
            .u32(le, self.cmd)
            .u32(le, self.cmdsize)
            .u32(le, self.cryptoff)
            .u32(le, self.cryptsize)
            .u32(le, self.cryptid)
            .u32(le, self.pad)
    }
}
