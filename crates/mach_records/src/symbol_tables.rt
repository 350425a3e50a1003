//! The symbol table, and the tables that order it (`mach-o/loader.h`).

ghost use Rattle.std.specs.Prelude.{◌≡◌};

use crate::command_names::{LC_DYSYMTAB, LC_SYMTAB};
use crate::numbers::u32s;
use mach_base::{Endian, Record, RecordBytes, array_at};

/// The places of the symbols and of the string table (struct symtab_command, `LC_SYMTAB`).
#[derive(Clone, Copy, Debug)]
pub struct SymtabCommand {
    /// Its number: one of the `LC_` constants.
    pub cmd: u32,
    /// Its size in bytes.
    pub cmdsize: u32,
    /// The file offset of the first symbol.
    pub symoff: u32,
    /// How many symbols there are.
    pub nsyms: u32,
    /// The file offset of the string table.
    pub stroff: u32,
    /// The size of the string table in bytes.
    pub strsize: u32,
}

/// The size of a `SymtabCommand` in bytes.
pub const SIZEOF_SYMTAB_COMMAND: usize = 24;

impl Record for SymtabCommand {
    const SIZE: usize = SIZEOF_SYMTAB_COMMAND;

    ghost SIZE = { 24 };

    ghost use Rattle.mach_records.specs.SymbolTables.{symtab_command_fields, symtab_command_values};
    ghost use Rattle.std.proofs.Common.{rules};

    ghost fields = { symtab_command_fields };

    ghost values = { symtab_command_values };

    ghost lawful = { Prim.search rules };

    fn load(bytes: &[u8], le: Endian) -> Self {
        SymtabCommand {
            cmd: le.u32_at(bytes, 0),
            cmdsize: le.u32_at(bytes, 4),
            symoff: le.u32_at(bytes, 8),
            nsyms: le.u32_at(bytes, 12),
            stroff: le.u32_at(bytes, 16),
            strsize: le.u32_at(bytes, 20),
        }
    }

    fn store(self, le: Endian) -> RecordBytes {
        RecordBytes::new()
            .u32(le, self.cmd)
            .u32(le, self.cmdsize)
            .u32(le, self.symoff)
            .u32(le, self.nsyms)
            .u32(le, self.stroff)
            .u32(le, self.strsize)
    }
}

impl SymtabCommand {
    ghost use Rattle.mach_records.specs.SymbolTables.{new_symtab};

    /// Builds the command of a table without symbols.
    pub fn new() -> Self
        ensures { result ≡ new_symtab }
    {
        SymtabCommand {
            cmd: LC_SYMTAB,
            cmdsize: SIZEOF_SYMTAB_COMMAND as u32,
            symoff: 0,
            nsyms: 0,
            stroff: 0,
            strsize: 0,
        }
    }
}

impl Default for SymtabCommand {
    ghost use Rattle.mach_records.specs.SymbolTables.{new_symtab};

    ghost is_default = { λ command. command ≡ new_symtab };

    fn default() -> Self {
        SymtabCommand::new()
    }
}

/// The order of the symbols, and the places of the dynamic linker's tables (struct dysymtab_command, `LC_DYSYMTAB`).
#[derive(Clone, Copy, Debug)]
pub struct DysymtabCommand {
    /// Its number: one of the `LC_` constants.
    pub cmd: u32,
    /// Its size in bytes.
    pub cmdsize: u32,
    /// The index of the first local symbol.
    pub ilocalsym: u32,
    /// How many local symbols there are.
    pub nlocalsym: u32,
    /// The index of the first external symbol that the image defines.
    pub iextdefsym: u32,
    /// Their number.
    pub nextdefsym: u32,
    /// The index of the first symbol that the image leaves undefined.
    pub iundefsym: u32,
    /// Their number.
    pub nundefsym: u32,
    /// The file offset of the table of contents.
    pub tocoff: u32,
    /// How many entries it has.
    pub ntoc: u32,
    /// The file offset of the module table.
    pub modtaboff: u32,
    /// How many modules it has.
    pub nmodtab: u32,
    /// The file offset of the reference table.
    pub extrefsymoff: u32,
    /// How many references it has.
    pub nextrefsyms: u32,
    /// The file offset of the indirect symbols. Each is the index of a symbol.
    pub indirectsymoff: u32,
    /// How many indirect symbols there are.
    pub nindirectsyms: u32,
    /// The file offset of the external relocations.
    pub extreloff: u32,
    /// Their number.
    pub nextrel: u32,
    /// The file offset of the local relocations.
    pub locreloff: u32,
    /// Their number.
    pub nlocrel: u32,
}

/// The size of a `DysymtabCommand` in bytes.
pub const SIZEOF_DYSYMTAB_COMMAND: usize = 80;

impl Record for DysymtabCommand {
    const SIZE: usize = SIZEOF_DYSYMTAB_COMMAND;

    ghost SIZE = { 80 };

    ghost use Rattle.mach_records.specs.SymbolTables.{dysymtab_command_fields, dysymtab_command_values};
    ghost use Rattle.std.proofs.Common.{rules};

    ghost fields = { dysymtab_command_fields };

    ghost values = { dysymtab_command_values };

    ghost lawful = { Prim.search rules };

    fn load(bytes: &[u8], le: Endian) -> Self {
        DysymtabCommand {
            cmd: le.u32_at(bytes, 0),
            cmdsize: le.u32_at(bytes, 4),
            ilocalsym: le.u32_at(bytes, 8),
            nlocalsym: le.u32_at(bytes, 12),
            iextdefsym: le.u32_at(bytes, 16),
            nextdefsym: le.u32_at(bytes, 20),
            iundefsym: le.u32_at(bytes, 24),
            nundefsym: le.u32_at(bytes, 28),
            tocoff: le.u32_at(bytes, 32),
            ntoc: le.u32_at(bytes, 36),
            modtaboff: le.u32_at(bytes, 40),
            nmodtab: le.u32_at(bytes, 44),
            extrefsymoff: le.u32_at(bytes, 48),
            nextrefsyms: le.u32_at(bytes, 52),
            indirectsymoff: le.u32_at(bytes, 56),
            nindirectsyms: le.u32_at(bytes, 60),
            extreloff: le.u32_at(bytes, 64),
            nextrel: le.u32_at(bytes, 68),
            locreloff: le.u32_at(bytes, 72),
            nlocrel: le.u32_at(bytes, 76),
        }
    }

    fn store(self, le: Endian) -> RecordBytes {
        u32s(
            RecordBytes::new(),
            le,
            &[
                self.cmd,
                self.cmdsize,
                self.ilocalsym,
                self.nlocalsym,
                self.iextdefsym,
                self.nextdefsym,
                self.iundefsym,
                self.nundefsym,
                self.tocoff,
                self.ntoc,
                self.modtaboff,
                self.nmodtab,
                self.extrefsymoff,
                self.nextrefsyms,
                self.indirectsymoff,
                self.nindirectsyms,
                self.extreloff,
                self.nextrel,
                self.locreloff,
                self.nlocrel,
            ],
        )
    }
}

impl DysymtabCommand {
    ghost use Rattle.mach_records.specs.SymbolTables.{new_dysymtab};

    /// Builds the command of tables without entries.
    pub fn new() -> Self
        ensures { result ≡ new_dysymtab }
    {
        DysymtabCommand {
            cmd: LC_DYSYMTAB,
            cmdsize: SIZEOF_DYSYMTAB_COMMAND as u32,
            ilocalsym: 0,
            nlocalsym: 0,
            iextdefsym: 0,
            nextdefsym: 0,
            iundefsym: 0,
            nundefsym: 0,
            tocoff: 0,
            ntoc: 0,
            modtaboff: 0,
            nmodtab: 0,
            extrefsymoff: 0,
            nextrefsyms: 0,
            indirectsymoff: 0,
            nindirectsyms: 0,
            extreloff: 0,
            nextrel: 0,
            locreloff: 0,
            nlocrel: 0,
        }
    }
}

impl Default for DysymtabCommand {
    ghost use Rattle.mach_records.specs.SymbolTables.{new_dysymtab};

    ghost is_default = { λ command. command ≡ new_dysymtab };

    fn default() -> Self {
        DysymtabCommand::new()
    }
}

/// The place of the hints of a two-level namespace (struct twolevel_hints_command, `LC_TWOLEVEL_HINTS`).
#[derive(Clone, Copy, Debug)]
pub struct TwolevelHintsCommand {
    /// Its number: one of the `LC_` constants.
    pub cmd: u32,
    /// Its size in bytes.
    pub cmdsize: u32,
    /// The file offset of the first hint.
    pub offset: u32,
    /// How many hints there are.
    pub nhints: u32,
}

impl Record for TwolevelHintsCommand {
    const SIZE: usize = 16;

    ghost SIZE = { 16 };

    ghost use Rattle.mach_records.specs.SymbolTables.{twolevel_hints_command_fields, twolevel_hints_command_values};
    ghost use Rattle.std.proofs.Common.{rules};

    ghost fields = { twolevel_hints_command_fields };

    ghost values = { twolevel_hints_command_values };

    ghost lawful = { Prim.search rules };

    fn load(bytes: &[u8], le: Endian) -> Self {
        TwolevelHintsCommand {
            cmd: le.u32_at(bytes, 0),
            cmdsize: le.u32_at(bytes, 4),
            offset: le.u32_at(bytes, 8),
            nhints: le.u32_at(bytes, 12),
        }
    }

    fn store(self, le: Endian) -> RecordBytes {
        RecordBytes::new()
            .u32(le, self.cmd)
            .u32(le, self.cmdsize)
            .u32(le, self.offset)
            .u32(le, self.nhints)
    }
}

/// Where the search for an undefined symbol begins (struct twolevel_hint).
/// The 8-bit and 24-bit fields of the C struct take 8 and 24 bytes here.
#[derive(Clone, Copy, Debug)]
pub struct TwolevelHint {
    /// 0 for the library itself, or else the number of a part of it, from 1.
    pub isub_image: u64,
    /// An index into the table of contents.
    pub itoc: [u8; 24],
}

impl Record for TwolevelHint {
    const SIZE: usize = 32;

    ghost SIZE = { 32 };

    ghost use Rattle.mach_records.specs.SymbolTables.{twolevel_hint_fields, twolevel_hint_values};
    ghost use Rattle.std.proofs.Common.{rules};

    ghost fields = { twolevel_hint_fields };

    ghost values = { twolevel_hint_values };

    ghost lawful = { Prim.search rules };

    fn load(bytes: &[u8], le: Endian) -> Self {
        TwolevelHint {
            isub_image: le.u64_at(bytes, 0),
            itoc: array_at(bytes, 8),
        }
    }

    fn store(self, le: Endian) -> RecordBytes {
        RecordBytes::new()
            .u64(le, self.isub_image)
            .bytes(&self.itoc)
    }
}

/// A symbol segment of the old GNU form; obsolete (struct symseg_command, `LC_SYMSEG`).
#[derive(Clone, Copy, Debug)]
pub struct SymsegCommand {
    /// Its number: one of the `LC_` constants.
    pub cmd: u32,
    /// Its size in bytes.
    pub cmdsize: u32,
    /// Its file offset.
    pub offset: u32,
    /// Its size in bytes.
    pub size: u32,
}

/// The size of a `SymsegCommand` in bytes.
pub const SIZEOF_SYMSEG_COMMAND: usize = 16;

impl Record for SymsegCommand {
    const SIZE: usize = SIZEOF_SYMSEG_COMMAND;

    ghost SIZE = { 16 };

    ghost use Rattle.mach_records.specs.SymbolTables.{symseg_command_fields, symseg_command_values};
    ghost use Rattle.std.proofs.Common.{rules};

    ghost fields = { symseg_command_fields };

    ghost values = { symseg_command_values };

    ghost lawful = { Prim.search rules };

    fn load(bytes: &[u8], le: Endian) -> Self {
        SymsegCommand {
            cmd: le.u32_at(bytes, 0),
            cmdsize: le.u32_at(bytes, 4),
            offset: le.u32_at(bytes, 8),
            size: le.u32_at(bytes, 12),
        }
    }

    fn store(self, le: Endian) -> RecordBytes {
        RecordBytes::new()
            .u32(le, self.cmd)
            .u32(le, self.cmdsize)
            .u32(le, self.offset)
            .u32(le, self.size)
    }
}
