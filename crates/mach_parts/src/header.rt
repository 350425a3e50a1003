//! The header of an image (`mach-o/loader.h`).

ghost use Rattle.std.specs.Prelude.{◌≡◌};
ghost use Rattle.mach_parts.specs.Cpu.{kind_of_cpu, caps_of_cpu};
ghost use Rattle.mach_parts.specs.Header.{new_header};

mod forms;
mod names;

use crate::cpu::{caps_of, kind_of};
pub use crate::header::names::{
    MH_ALLMODSBOUND, MH_ALLOW_STACK_EXECUTION, MH_APP_EXTENSION_SAFE, MH_BINDATLOAD,
    MH_BINDS_TO_WEAK, MH_BUNDLE, MH_CANONICAL, MH_CORE, MH_DEAD_STRIPPABLE_DYLIB, MH_DSYM,
    MH_DYLDLINK, MH_DYLIB, MH_DYLIB_STUB, MH_DYLINKER, MH_EXECUTE, MH_FILESET, MH_FORCE_FLAT,
    MH_FVMLIB, MH_GPU_DYLIB, MH_GPU_EXECUTE, MH_HAS_TLV_DESCRIPTORS, MH_INCRLINK, MH_KEXT_BUNDLE,
    MH_LAZY_INIT, MH_NO_HEAP_EXECUTION, MH_NO_REEXPORTED_DYLIBS, MH_NOFIXPREBINDING,
    MH_NOMULTIDEFS, MH_NOUNDEFS, MH_OBJECT, MH_PIE, MH_PREBINDABLE, MH_PREBOUND, MH_PRELOAD,
    MH_ROOT_SAFE, MH_SETUID_SAFE, MH_SPLIT_SEGS, MH_SUBSECTIONS_VIA_SYMBOLS, MH_TWOLEVEL,
    MH_WEAK_DEFINES, filetype_to_str, flag_to_str,
};
use mach_base::{Container, Ctx, Endian, Record, RecordBytes};
use mach_records::cputype::{CpuSubType, CpuType};

/// The magic of a 32-bit image.
pub const MH_MAGIC: u32 = 0xfeed_face;

/// The magic of a 32-bit image, with its bytes reversed.
pub const MH_CIGAM: u32 = 0xcefa_edfe;

/// The magic of a 64-bit image.
pub const MH_MAGIC_64: u32 = 0xfeed_facf;

/// The magic of a 64-bit image, with its bytes reversed.
pub const MH_CIGAM_64: u32 = 0xcffa_edfe;

/// The size of a `Header32` in bytes.
pub const SIZEOF_HEADER_32: usize = 28;

/// The size of a `Header64` in bytes.
pub const SIZEOF_HEADER_64: usize = 32;

/// The header of a 32-bit image, as in the file (struct mach_header).
#[derive(Clone, Copy, Debug, Default)]
pub struct Header32 {
    /// The magic number.
    pub magic: u32,
    /// The cpu: one of the `CPU_TYPE_` constants.
    pub cputype: u32,
    /// The kind of cpu, with its capabilities in the top 8 bits.
    pub cpusubtype: u32,
    /// The kind of image: one of the `MH_` constants.
    pub filetype: u32,
    /// The number of load commands.
    pub ncmds: u32,
    /// The size of the load commands in bytes.
    pub sizeofcmds: u32,
    /// Its flags.
    pub flags: u32,
}

impl Record for Header32 {
    const SIZE: usize = SIZEOF_HEADER_32;

    ghost SIZE = { 28 };

    ghost use Rattle.mach_parts.specs.Header.{header32_fields, header32_values};
    ghost use Rattle.std.proofs.Common.{rules};

    ghost fields = { header32_fields };

    ghost values = { header32_values };

    ghost lawful = { Prim.search rules };

    fn load(bytes: &[u8], le: Endian) -> Self {
        Header32 {
            magic: le.u32_at(bytes, 0),
            cputype: le.u32_at(bytes, 4),
            cpusubtype: le.u32_at(bytes, 8),
            filetype: le.u32_at(bytes, 12),
            ncmds: le.u32_at(bytes, 16),
            sizeofcmds: le.u32_at(bytes, 20),
            flags: le.u32_at(bytes, 24),
        }
    }

    fn store(self, le: Endian) -> RecordBytes {
        RecordBytes::new()
            .u32(le, self.magic)
            .u32(le, self.cputype)
            .u32(le, self.cpusubtype)
            .u32(le, self.filetype)
            .u32(le, self.ncmds)
            .u32(le, self.sizeofcmds)
            .u32(le, self.flags)
    }
}

impl Header32 {
    ghost use Rattle.mach_base.specs.declared.context.Endian.TheVariants.{Little};
    ghost use Rattle.mach_base.specs.Record.{values_in};
    ghost use Rattle.mach_parts.specs.Header.{header32_fields, header32_values};

    /// Reads the header from its bytes, as little-endian.
    pub fn from_bytes(bytes: &[u8; SIZEOF_HEADER_32]) -> Self
        ensures { header32_values result ≡ values_in Little header32_fields 0 bytes.now }
    {
        Header32::load(bytes, Endian::Little)
    }

    /// Returns its size in bytes: 28.
    pub fn size(&self) -> usize
        ensures { result ≡ 28 }
    {
        SIZEOF_HEADER_32
    }
}

/// The header of a 64-bit image, as in the file (struct mach_header_64).
#[derive(Clone, Copy, Debug, Default)]
pub struct Header64 {
    /// The magic number.
    pub magic: u32,
    /// The cpu: one of the `CPU_TYPE_` constants.
    pub cputype: u32,
    /// The kind of cpu, with its capabilities in the top 8 bits.
    pub cpusubtype: u32,
    /// The kind of image: one of the `MH_` constants.
    pub filetype: u32,
    /// The number of load commands.
    pub ncmds: u32,
    /// The size of the load commands in bytes.
    pub sizeofcmds: u32,
    /// Its flags.
    pub flags: u32,
    /// Not used.
    pub reserved: u32,
}

impl Record for Header64 {
    const SIZE: usize = SIZEOF_HEADER_64;

    ghost SIZE = { 32 };

    ghost use Rattle.mach_parts.specs.Header.{header64_fields, header64_values};
    ghost use Rattle.std.proofs.Common.{rules};

    ghost fields = { header64_fields };

    ghost values = { header64_values };

    ghost lawful = { Prim.search rules };

    fn load(bytes: &[u8], le: Endian) -> Self {
        Header64 {
            magic: le.u32_at(bytes, 0),
            cputype: le.u32_at(bytes, 4),
            cpusubtype: le.u32_at(bytes, 8),
            filetype: le.u32_at(bytes, 12),
            ncmds: le.u32_at(bytes, 16),
            sizeofcmds: le.u32_at(bytes, 20),
            flags: le.u32_at(bytes, 24),
            reserved: le.u32_at(bytes, 28),
        }
    }

    fn store(self, le: Endian) -> RecordBytes {
        RecordBytes::new()
            .u32(le, self.magic)
            .u32(le, self.cputype)
            .u32(le, self.cpusubtype)
            .u32(le, self.filetype)
            .u32(le, self.ncmds)
            .u32(le, self.sizeofcmds)
            .u32(le, self.flags)
            .u32(le, self.reserved)
    }
}

impl Header64 {
    ghost use Rattle.mach_base.specs.declared.context.Endian.TheVariants.{Little};
    ghost use Rattle.mach_base.specs.Record.{values_in};
    ghost use Rattle.mach_parts.specs.Header.{header64_fields, header64_values};

    /// Reads the header from its bytes, as little-endian.
    pub fn from_bytes(bytes: &[u8; SIZEOF_HEADER_64]) -> Self
        ensures { header64_values result ≡ values_in Little header64_fields 0 bytes.now }
    {
        Header64::load(bytes, Endian::Little)
    }

    /// Returns its size in bytes: 32.
    pub fn size(&self) -> usize
        ensures { result ≡ 32 }
    {
        SIZEOF_HEADER_64
    }
}

/// The header of an image of either width.
#[derive(Clone, Copy, Debug, Default)]
pub struct Header {
    /// The magic number, in the byte order of the image.
    pub magic: u32,
    /// The CPU type, one of the `CPU_TYPE_` constants.
    pub cputype: u32,
    /// The CPU subtype, with capabilities in the top 8 bits.
    pub cpusubtype: u32,
    /// The file type, for example an executable or a dynamic library.
    pub filetype: u32,
    /// How many load commands follow.
    pub ncmds: usize,
    /// The size of all load commands in bytes.
    pub sizeofcmds: u32,
    /// The `MH_` flags.
    pub flags: u32,
    /// Reserved; 0 for a 32-bit image, which has no such field.
    pub reserved: u32,
}

impl Header {
    /// Builds a header of the context's width. It has the magic of that width, and 0 in every other field.
    pub fn new(ctx: Ctx) -> Self
        ensures { result ≡ new_header ctx.container }
    {
        let magic = match ctx.container {
            Container::Little => MH_MAGIC,
            Container::Big => MH_MAGIC_64,
        };
        Header {
            magic,
            cputype: 0,
            cpusubtype: 0,
            filetype: 0,
            ncmds: 0,
            sizeofcmds: 0,
            flags: 0,
            reserved: 0,
        }
    }

    /// Returns the CPU type.
    pub fn cputype(&self) -> CpuType
        ensures { result ≡ self.now.cputype }
    {
        self.cputype
    }

    /// Returns the CPU subtype without its capabilities.
    pub fn cpusubtype(&self) -> CpuSubType
        ensures { result ≡ kind_of_cpu self.now.cpusubtype }
    {
        kind_of(self.cpusubtype)
    }

    /// Returns the CPU's capabilities, below 256.
    pub fn cpu_caps(&self) -> u32
        ensures { result ≡ caps_of_cpu self.now.cpusubtype }
    {
        caps_of(self.cpusubtype)
    }
}
