//! The header with which every load command begins (`mach-o/loader.h`).

use crate::command_names::cmd_to_str;
use mach_base::{Endian, Record, RecordBytes};
use std::fmt;

/// The offset of a text of a command, in bytes from the start of the command.
pub type LcStr = u32;

/// The size of an `LcStr` in bytes.
pub const SIZEOF_LC_STR: usize = 4;

const _: () = prove!(SIZEOF_LC_STR == size_of::<LcStr>());

/// The number and the size of a load command (struct load_command). Every record whose name ends in `Command` begins with these two fields.
#[derive(Clone, Copy, Debug)]
pub struct LoadCommandHeader {
    /// The command's number, one of the `LC_` constants.
    pub cmd: u32,
    /// The distance in bytes from this command to the next one.
    pub cmdsize: u32,
}

/// The size of a `LoadCommandHeader` in bytes.
pub const SIZEOF_LOAD_COMMAND: usize = 8;

impl Record for LoadCommandHeader {
    const SIZE: usize = SIZEOF_LOAD_COMMAND;

    ghost SIZE = { 8 };

    ghost use Rattle.mach_records.specs.LoadCommandHeader.{header_fields, header_values};
    ghost use Rattle.std.proofs.Common.{rules};

    ghost fields = { header_fields };

    ghost values = { header_values };

    ghost lawful = { Prim.search rules };

    fn load(bytes: &[u8], le: Endian) -> Self {
        LoadCommandHeader {
            cmd: le.u32_at(bytes, 0),
            cmdsize: le.u32_at(bytes, 4),
        }
    }

    fn store(self, le: Endian) -> RecordBytes {
        RecordBytes::new().u32(le, self.cmd).u32(le, self.cmdsize)
    }
}

impl fmt::Display for LoadCommandHeader {
    ghost use Rattle.std.specs.Prelude.{Some};
    ghost use Rattle.mach_records.specs.LoadCommandHeader.{header_text};

    ghost output = { λ h. Some (header_text h) };

    fn fmt<W: fmt::Write>(&self, f: &mut fmt::Formatter<W>) -> fmt::Result {
        let name = cmd_to_str(self.cmd);
        let size = self.cmdsize;
        write!(f, "LoadCommandHeader: {name} size: {size}")
    }
}
