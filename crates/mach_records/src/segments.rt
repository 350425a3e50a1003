//! Segments and their sections (`mach-o/loader.h`).

ghost use Rattle.mach_base.specs.Answer.{Reads};
ghost use Rattle.mach_base.specs.Text.{text_at};

use mach_base::{Endian, Record, RecordBytes, Result, array_at, read_text};

// Reads the text with which the 16 bytes of a name begin.
fn name_in(bytes: &[u8; 16]) -> Result<&str>
    ensures { Reads (λ name. name.now) result (text_at bytes.now 0) }
{
    read_text(bytes, 0)
}

/// A part of a segment of a 32-bit image (struct section).
#[derive(Clone, Copy, Debug)]
pub struct Section32 {
    /// Its name, padded with zeros.
    pub sectname: [u8; 16],
    /// The name of its segment, padded with zeros.
    pub segname: [u8; 16],
    /// Its address in memory.
    pub addr: u32,
    /// Its size in memory, in bytes.
    pub size: u32,
    /// Its file offset.
    pub offset: u32,
    /// Its alignment: 2 to this power, in bytes.
    pub align: u32,
    /// The file offset of its relocations.
    pub reloff: u32,
    /// How many relocations it has.
    pub nreloc: u32,
    /// Its type in the low 8 bits, its attributes in the others.
    pub flags: u32,
    /// For pointers and stubs: the index of their first indirect symbol.
    pub reserved1: u32,
    /// For stubs: the size of one in bytes.
    pub reserved2: u32,
}

/// The size of a `Section32` in bytes.
pub const SIZEOF_SECTION_32: usize = 68;

impl Record for Section32 {
    const SIZE: usize = SIZEOF_SECTION_32;

    ghost SIZE = { 68 };

    ghost use Rattle.mach_records.specs.Segments.{section32_fields, section32_values};
    ghost use Rattle.std.proofs.Common.{rules};

    ghost fields = { section32_fields };

    ghost values = { section32_values };

    ghost lawful = { Prim.search rules };

    fn load(bytes: &[u8], le: Endian) -> Self {
        Section32 {
            sectname: array_at(bytes, 0),
            segname: array_at(bytes, 16),
            addr: le.u32_at(bytes, 32),
            size: le.u32_at(bytes, 36),
            offset: le.u32_at(bytes, 40),
            align: le.u32_at(bytes, 44),
            reloff: le.u32_at(bytes, 48),
            nreloc: le.u32_at(bytes, 52),
            flags: le.u32_at(bytes, 56),
            reserved1: le.u32_at(bytes, 60),
            reserved2: le.u32_at(bytes, 64),
        }
    }

    fn store(self, le: Endian) -> RecordBytes {
        RecordBytes::new()
            .bytes(&self.sectname)
            .bytes(&self.segname)
            .u32(le, self.addr)
            .u32(le, self.size)
            .u32(le, self.offset)
            .u32(le, self.align)
            .u32(le, self.reloff)
            .u32(le, self.nreloc)
            .u32(le, self.flags)
            .u32(le, self.reserved1)
            .u32(le, self.reserved2)
    }
}

/// A part of a segment of a 64-bit image (struct section_64).
#[derive(Clone, Copy, Debug)]
pub struct Section64 {
    /// Its name, padded with zeros.
    pub sectname: [u8; 16],
    /// The name of its segment, padded with zeros.
    pub segname: [u8; 16],
    /// Its address in memory.
    pub addr: u64,
    /// Its size in memory, in bytes.
    pub size: u64,
    /// Its file offset.
    pub offset: u32,
    /// Its alignment: 2 to this power, in bytes.
    pub align: u32,
    /// The file offset of its relocations.
    pub reloff: u32,
    /// How many relocations it has.
    pub nreloc: u32,
    /// Its type in the low 8 bits, its attributes in the others.
    pub flags: u32,
    /// For pointers and stubs: the index of their first indirect symbol.
    pub reserved1: u32,
    /// For stubs: the size of one in bytes.
    pub reserved2: u32,
    /// Not used.
    pub reserved3: u32,
}

/// The size of a `Section64` in bytes.
pub const SIZEOF_SECTION_64: usize = 80;

impl Record for Section64 {
    const SIZE: usize = SIZEOF_SECTION_64;

    ghost SIZE = { 80 };

    ghost use Rattle.mach_records.specs.Segments.{section64_fields, section64_values};
    ghost use Rattle.std.proofs.Common.{rules};

    ghost fields = { section64_fields };

    ghost values = { section64_values };

    ghost lawful = { Prim.search rules };

    fn load(bytes: &[u8], le: Endian) -> Self {
        Section64 {
            sectname: array_at(bytes, 0),
            segname: array_at(bytes, 16),
            addr: le.u64_at(bytes, 32),
            size: le.u64_at(bytes, 40),
            offset: le.u32_at(bytes, 48),
            align: le.u32_at(bytes, 52),
            reloff: le.u32_at(bytes, 56),
            nreloc: le.u32_at(bytes, 60),
            flags: le.u32_at(bytes, 64),
            reserved1: le.u32_at(bytes, 68),
            reserved2: le.u32_at(bytes, 72),
            reserved3: le.u32_at(bytes, 76),
        }
    }

    fn store(self, le: Endian) -> RecordBytes {
        RecordBytes::new()
            .bytes(&self.sectname)
            .bytes(&self.segname)
            .u64(le, self.addr)
            .u64(le, self.size)
            .u32(le, self.offset)
            .u32(le, self.align)
            .u32(le, self.reloff)
            .u32(le, self.nreloc)
            .u32(le, self.flags)
            .u32(le, self.reserved1)
            .u32(le, self.reserved2)
            .u32(le, self.reserved3)
    }
}

/// A part of the file that is mapped into the memory of a 32-bit image (struct segment_command, `LC_SEGMENT`).
#[derive(Clone, Copy, Debug)]
pub struct SegmentCommand32 {
    /// Its number: one of the `LC_` constants.
    pub cmd: u32,
    /// Its size in bytes.
    pub cmdsize: u32,
    /// Its name, padded with zeros.
    pub segname: [u8; 16],
    /// Its address in memory.
    pub vmaddr: u32,
    /// Its size in memory, in bytes.
    pub vmsize: u32,
    /// Its file offset.
    pub fileoff: u32,
    /// Its size in the file, in bytes. Zeros fill the rest of its memory.
    pub filesize: u32,
    /// The maximum protection of its memory: bit 0 read, bit 1 write, bit 2 execute.
    pub maxprot: u32,
    /// The initial protection of its memory, in the same bits.
    pub initprot: u32,
    /// How many sections follow this record.
    pub nsects: u32,
    /// The `SG_` flags.
    pub flags: u32,
}

/// The size of a `SegmentCommand32` in bytes.
pub const SIZEOF_SEGMENT_COMMAND_32: usize = 56;

impl Record for SegmentCommand32 {
    const SIZE: usize = SIZEOF_SEGMENT_COMMAND_32;

    ghost SIZE = { 56 };

    ghost use Rattle.mach_records.specs.Segments.{segment_command32_fields, segment_command32_values};
    ghost use Rattle.std.proofs.Common.{rules};

    ghost fields = { segment_command32_fields };

    ghost values = { segment_command32_values };

    ghost lawful = { Prim.search rules };

    fn load(bytes: &[u8], le: Endian) -> Self {
        SegmentCommand32 {
            cmd: le.u32_at(bytes, 0),
            cmdsize: le.u32_at(bytes, 4),
            segname: array_at(bytes, 8),
            vmaddr: le.u32_at(bytes, 24),
            vmsize: le.u32_at(bytes, 28),
            fileoff: le.u32_at(bytes, 32),
            filesize: le.u32_at(bytes, 36),
            maxprot: le.u32_at(bytes, 40),
            initprot: le.u32_at(bytes, 44),
            nsects: le.u32_at(bytes, 48),
            flags: le.u32_at(bytes, 52),
        }
    }

    fn store(self, le: Endian) -> RecordBytes {
        RecordBytes::new()
            .u32(le, self.cmd)
            .u32(le, self.cmdsize)
            .bytes(&self.segname)
            .u32(le, self.vmaddr)
            .u32(le, self.vmsize)
            .u32(le, self.fileoff)
            .u32(le, self.filesize)
            .u32(le, self.maxprot)
            .u32(le, self.initprot)
            .u32(le, self.nsects)
            .u32(le, self.flags)
    }
}

impl SegmentCommand32 {
    /// Reads the segment's name: the text with which `segname` begins.
    pub fn name(&self) -> Result<&str>
        ensures { Reads (λ name. name.now) result (text_at self.now.segname 0) }
    {
        name_in(&self.segname)
    }
}

/// A part of the file that is mapped into the memory of a 64-bit image (struct segment_command_64, `LC_SEGMENT_64`).
#[derive(Clone, Copy, Debug)]
pub struct SegmentCommand64 {
    /// Its number: one of the `LC_` constants.
    pub cmd: u32,
    /// Its size in bytes.
    pub cmdsize: u32,
    /// Its name, padded with zeros.
    pub segname: [u8; 16],
    /// Its address in memory.
    pub vmaddr: u64,
    /// Its size in memory, in bytes.
    pub vmsize: u64,
    /// Its file offset.
    pub fileoff: u64,
    /// Its size in the file, in bytes. Zeros fill the rest of its memory.
    pub filesize: u64,
    /// The maximum protection of its memory: bit 0 read, bit 1 write, bit 2 execute.
    pub maxprot: u32,
    /// The initial protection of its memory, in the same bits.
    pub initprot: u32,
    /// How many sections follow this record.
    pub nsects: u32,
    /// The `SG_` flags.
    pub flags: u32,
}

/// The size of a `SegmentCommand64` in bytes.
pub const SIZEOF_SEGMENT_COMMAND_64: usize = 72;

impl Record for SegmentCommand64 {
    const SIZE: usize = SIZEOF_SEGMENT_COMMAND_64;

    ghost SIZE = { 72 };

    ghost use Rattle.mach_records.specs.Segments.{segment_command64_fields, segment_command64_values};
    ghost use Rattle.std.proofs.Common.{rules};

    ghost fields = { segment_command64_fields };

    ghost values = { segment_command64_values };

    ghost lawful = { Prim.search rules };

    fn load(bytes: &[u8], le: Endian) -> Self {
        SegmentCommand64 {
            cmd: le.u32_at(bytes, 0),
            cmdsize: le.u32_at(bytes, 4),
            segname: array_at(bytes, 8),
            vmaddr: le.u64_at(bytes, 24),
            vmsize: le.u64_at(bytes, 32),
            fileoff: le.u64_at(bytes, 40),
            filesize: le.u64_at(bytes, 48),
            maxprot: le.u32_at(bytes, 56),
            initprot: le.u32_at(bytes, 60),
            nsects: le.u32_at(bytes, 64),
            flags: le.u32_at(bytes, 68),
        }
    }

    fn store(self, le: Endian) -> RecordBytes {
        RecordBytes::new()
            .u32(le, self.cmd)
            .u32(le, self.cmdsize)
            .bytes(&self.segname)
            .u64(le, self.vmaddr)
            .u64(le, self.vmsize)
            .u64(le, self.fileoff)
            .u64(le, self.filesize)
            .u32(le, self.maxprot)
            .u32(le, self.initprot)
            .u32(le, self.nsects)
            .u32(le, self.flags)
    }
}

impl SegmentCommand64 {
    /// Reads the segment's name: the text with which `segname` begins.
    pub fn name(&self) -> Result<&str>
        ensures { Reads (λ name. name.now) result (text_at self.now.segname 0) }
    {
        name_in(&self.segname)
    }
}
