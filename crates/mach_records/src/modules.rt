//! Tables of a dynamic library that consists of modules (`mach-o/loader.h`).

use crate::numbers::u32s;
use mach_base::{Endian, Record, RecordBytes, array_at};

/// An entry of the table of contents (struct dylib_table_of_contents).
#[derive(Clone, Copy, Debug)]
pub struct DylibTableOfContents {
    /// The index of an external symbol.
    pub symbol_index: u32,
    /// The index of the module that defines it.
    pub module_index: u32,
}

impl Record for DylibTableOfContents {
    const SIZE: usize = 8;

    ghost SIZE = { 8 };

    ghost use Rattle.mach_records.specs.Modules.{dylib_table_of_contents_fields, dylib_table_of_contents_values};
    ghost use Rattle.std.proofs.Common.{rules};

    ghost fields = { dylib_table_of_contents_fields };

    ghost values = { dylib_table_of_contents_values };

    ghost lawful = { Prim.search rules };

    fn load(bytes: &[u8], le: Endian) -> Self {
        DylibTableOfContents {
            symbol_index: le.u32_at(bytes, 0),
            module_index: le.u32_at(bytes, 4),
        }
    }

    fn store(self, le: Endian) -> RecordBytes {
        RecordBytes::new()
            .u32(le, self.symbol_index)
            .u32(le, self.module_index)
    }
}

/// A module of a 32-bit library (struct dylib_module).
#[derive(Clone, Copy, Debug)]
pub struct DylibModule {
    /// Its name: an offset into the string table.
    pub module_name: u32,
    /// The index of the first external symbol that it defines.
    pub iextdefsym: u32,
    /// How many external symbols it defines.
    pub nextdefsym: u32,
    /// The index of its first reference.
    pub irefsym: u32,
    /// How many references it has.
    pub nrefsym: u32,
    /// The index of its first local symbol.
    pub ilocalsym: u32,
    /// How many local symbols it has.
    pub nlocalsym: u32,
    /// The index of its first external relocation.
    pub iextrel: u32,
    /// How many external relocations it has.
    pub nextrel: u32,
    /// The index of its first initializer in the low 16 bits, that of its first terminator in the high 16 bits.
    pub iinit_iterm: u32,
    /// Their numbers, in the same bits.
    pub ninit_nterm: u32,
    /// The address of its part of `__OBJC,__module_info`.
    pub objc_module_info_addr: u32,
    /// Their number.
    pub objc_module_info_size: u32,
}

impl Record for DylibModule {
    const SIZE: usize = 52;

    ghost SIZE = { 52 };

    ghost use Rattle.mach_records.specs.Modules.{dylib_module_fields, dylib_module_values};
    ghost use Rattle.std.proofs.Common.{rules};

    ghost fields = { dylib_module_fields };

    ghost values = { dylib_module_values };

    ghost lawful = { Prim.search rules };

    fn load(bytes: &[u8], le: Endian) -> Self {
        DylibModule {
            module_name: le.u32_at(bytes, 0),
            iextdefsym: le.u32_at(bytes, 4),
            nextdefsym: le.u32_at(bytes, 8),
            irefsym: le.u32_at(bytes, 12),
            nrefsym: le.u32_at(bytes, 16),
            ilocalsym: le.u32_at(bytes, 20),
            nlocalsym: le.u32_at(bytes, 24),
            iextrel: le.u32_at(bytes, 28),
            nextrel: le.u32_at(bytes, 32),
            iinit_iterm: le.u32_at(bytes, 36),
            ninit_nterm: le.u32_at(bytes, 40),
            objc_module_info_addr: le.u32_at(bytes, 44),
            objc_module_info_size: le.u32_at(bytes, 48),
        }
    }

    fn store(self, le: Endian) -> RecordBytes {
        u32s(
            RecordBytes::new(),
            le,
            &[
                self.module_name,
                self.iextdefsym,
                self.nextdefsym,
                self.irefsym,
                self.nrefsym,
                self.ilocalsym,
                self.nlocalsym,
                self.iextrel,
                self.nextrel,
                self.iinit_iterm,
                self.ninit_nterm,
                self.objc_module_info_addr,
                self.objc_module_info_size,
            ],
        )
    }
}

/// A module of a 64-bit library (struct dylib_module_64).
#[derive(Clone, Copy, Debug)]
pub struct DylibModule64 {
    /// Its name: an offset into the string table.
    pub module_name: u32,
    /// The index of the first external symbol that it defines.
    pub iextdefsym: u32,
    /// How many external symbols it defines.
    pub nextdefsym: u32,
    /// The index of its first reference.
    pub irefsym: u32,
    /// How many references it has.
    pub nrefsym: u32,
    /// The index of its first local symbol.
    pub ilocalsym: u32,
    /// How many local symbols it has.
    pub nlocalsym: u32,
    /// The index of its first external relocation.
    pub iextrel: u32,
    /// How many external relocations it has.
    pub nextrel: u32,
    /// The index of its first initializer in the low 16 bits, that of its first terminator in the high 16 bits.
    pub iinit_iterm: u32,
    /// Their numbers, in the same bits.
    pub ninit_nterm: u32,
    /// The size of its part of `__OBJC,__module_info`, in bytes.
    pub objc_module_info_size: u32,
    /// The address of this part.
    pub objc_module_info_addr: u64,
}

impl Record for DylibModule64 {
    const SIZE: usize = 56;

    ghost SIZE = { 56 };

    ghost use Rattle.mach_records.specs.Modules.{dylib_module64_fields, dylib_module64_values};
    ghost use Rattle.std.proofs.Common.{rules};

    ghost fields = { dylib_module64_fields };

    ghost values = { dylib_module64_values };

    ghost lawful = { Prim.search rules };

    fn load(bytes: &[u8], le: Endian) -> Self {
        DylibModule64 {
            module_name: le.u32_at(bytes, 0),
            iextdefsym: le.u32_at(bytes, 4),
            nextdefsym: le.u32_at(bytes, 8),
            irefsym: le.u32_at(bytes, 12),
            nrefsym: le.u32_at(bytes, 16),
            ilocalsym: le.u32_at(bytes, 20),
            nlocalsym: le.u32_at(bytes, 24),
            iextrel: le.u32_at(bytes, 28),
            nextrel: le.u32_at(bytes, 32),
            iinit_iterm: le.u32_at(bytes, 36),
            ninit_nterm: le.u32_at(bytes, 40),
            objc_module_info_size: le.u32_at(bytes, 44),
            objc_module_info_addr: le.u64_at(bytes, 48),
        }
    }

    fn store(self, le: Endian) -> RecordBytes {
        RecordBytes::new()
            .u32(le, self.module_name)
            .u32(le, self.iextdefsym)
            .u32(le, self.nextdefsym)
            .u32(le, self.irefsym)
            .u32(le, self.nrefsym)
            .u32(le, self.ilocalsym)
            .u32(le, self.nlocalsym)
            .u32(le, self.iextrel)
            .u32(le, self.nextrel)
            .u32(le, self.iinit_iterm)
            .u32(le, self.ninit_nterm)
            .u32(le, self.objc_module_info_size)
            .u64(le, self.objc_module_info_addr)
    }
}

/// A symbol that a module refers to (struct dylib_reference). The 24-bit and 8-bit fields of the C struct take 24 and 8 bytes here.
#[derive(Clone, Copy, Debug)]
pub struct DylibReference {
    /// The index of the symbol.
    pub isym: [u8; 24],
    /// The kind of the reference, one of the `REFERENCE_FLAG_` constants.
    pub flags: u64,
}

impl Record for DylibReference {
    const SIZE: usize = 32;

    ghost SIZE = { 32 };

    ghost use Rattle.mach_records.specs.Modules.{dylib_reference_fields, dylib_reference_values};
    ghost use Rattle.std.proofs.Common.{rules};

    ghost fields = { dylib_reference_fields };

    ghost values = { dylib_reference_values };

    ghost lawful = { Prim.search rules };

    fn load(bytes: &[u8], le: Endian) -> Self {
        DylibReference {
            isym: array_at(bytes, 0),
            flags: le.u64_at(bytes, 24),
        }
    }

    fn store(self, le: Endian) -> RecordBytes {
        RecordBytes::new().bytes(&self.isym).u64(le, self.flags)
    }
}

/// The routine that a 32-bit library runs before all others (struct routines_command, `LC_ROUTINES`).
#[derive(Clone, Copy, Debug)]
pub struct RoutinesCommand32 {
    /// Its number: one of the `LC_` constants.
    pub cmd: u32,
    /// Its size in bytes.
    pub cmdsize: u32,
    /// The address of the routine.
    pub init_address: u32,
    /// The index of its module in the module table.
    pub init_module: u32,
    /// Not used.
    pub reserved1: u32,
    /// Not used.
    pub reserved2: u32,
    /// Not used.
    pub reserved3: u32,
    /// Not used.
    pub reserved4: u32,
    /// Not used.
    pub reserved5: u32,
    /// Not used.
    pub reserved6: u32,
}

impl Record for RoutinesCommand32 {
    const SIZE: usize = 40;

    ghost SIZE = { 40 };

    ghost use Rattle.mach_records.specs.Modules.{routines_command32_fields, routines_command32_values};
    ghost use Rattle.std.proofs.Common.{rules};

    ghost fields = { routines_command32_fields };

    ghost values = { routines_command32_values };

    ghost lawful = { Prim.search rules };

    fn load(bytes: &[u8], le: Endian) -> Self {
        RoutinesCommand32 {
            cmd: le.u32_at(bytes, 0),
            cmdsize: le.u32_at(bytes, 4),
            init_address: le.u32_at(bytes, 8),
            init_module: le.u32_at(bytes, 12),
            reserved1: le.u32_at(bytes, 16),
            reserved2: le.u32_at(bytes, 20),
            reserved3: le.u32_at(bytes, 24),
            reserved4: le.u32_at(bytes, 28),
            reserved5: le.u32_at(bytes, 32),
            reserved6: le.u32_at(bytes, 36),
        }
    }

    fn store(self, le: Endian) -> RecordBytes {
        u32s(
            RecordBytes::new(),
            le,
            &[
                self.cmd,
                self.cmdsize,
                self.init_address,
                self.init_module,
                self.reserved1,
                self.reserved2,
                self.reserved3,
                self.reserved4,
                self.reserved5,
                self.reserved6,
            ],
        )
    }
}

/// The routine that a 64-bit library runs before all others (struct routines_command_64, `LC_ROUTINES_64`).
#[derive(Clone, Copy, Debug)]
pub struct RoutinesCommand64 {
    /// Its number: one of the `LC_` constants.
    pub cmd: u32,
    /// Its size in bytes.
    pub cmdsize: u32,
    /// The address of the routine.
    pub init_address: u64,
    /// The index of its module in the module table.
    pub init_module: u64,
    /// Not used.
    pub reserved1: u64,
    /// Not used.
    pub reserved2: u64,
    /// Not used.
    pub reserved3: u64,
    /// Not used.
    pub reserved4: u64,
    /// Not used.
    pub reserved5: u64,
    /// Not used.
    pub reserved6: u64,
}

impl Record for RoutinesCommand64 {
    const SIZE: usize = 72;

    ghost SIZE = { 72 };

    ghost use Rattle.mach_records.specs.Modules.{routines_command64_fields, routines_command64_values};
    ghost use Rattle.std.proofs.Common.{rules};

    ghost fields = { routines_command64_fields };

    ghost values = { routines_command64_values };

    ghost lawful = { Prim.search rules };

    fn load(bytes: &[u8], le: Endian) -> Self {
        RoutinesCommand64 {
            cmd: le.u32_at(bytes, 0),
            cmdsize: le.u32_at(bytes, 4),
            init_address: le.u64_at(bytes, 8),
            init_module: le.u64_at(bytes, 16),
            reserved1: le.u64_at(bytes, 24),
            reserved2: le.u64_at(bytes, 32),
            reserved3: le.u64_at(bytes, 40),
            reserved4: le.u64_at(bytes, 48),
            reserved5: le.u64_at(bytes, 56),
            reserved6: le.u64_at(bytes, 64),
        }
    }

    fn store(self, le: Endian) -> RecordBytes {
        RecordBytes::new()
            .u32(le, self.cmd)
            .u32(le, self.cmdsize)
            .u64(le, self.init_address)
            .u64(le, self.init_module)
            .u64(le, self.reserved1)
            .u64(le, self.reserved2)
            .u64(le, self.reserved3)
            .u64(le, self.reserved4)
            .u64(le, self.reserved5)
            .u64(le, self.reserved6)
    }
}
