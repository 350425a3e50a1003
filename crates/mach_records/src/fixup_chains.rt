//! The records of chained fixups (`mach-o/fixup-chains.h`).

use mach_base::{Endian, Record, RecordBytes};

/// The header of the data of `LC_DYLD_CHAINED_FIXUPS` (struct dyld_chained_fixups_header). Places are offsets from the start of the data.
#[derive(Clone, Copy, Debug, Default)]
pub struct ChainedFixupsHeader {
    /// 0.
    pub fixups_version: u32,
    /// The place of the starts (struct dyld_chained_starts_in_image).
    pub starts_offset: u32,
    /// The place of the imports.
    pub imports_offset: u32,
    /// The place of the imports' names.
    pub symbols_offset: u32,
    /// How many imports there are.
    pub imports_count: u32,
    /// The format of the imports, one of the `DYLD_CHAINED_IMPORT` constants.
    pub imports_format: u32,
    /// 0: the names are not compressed.
    pub symbols_format: u32,
}

/// The size of a `ChainedFixupsHeader` in bytes.
pub const SIZEOF_CHAINED_FIXUPS_HEADER: usize = 28;

impl Record for ChainedFixupsHeader {
    const SIZE: usize = SIZEOF_CHAINED_FIXUPS_HEADER;

    ghost SIZE = { 28 };

    ghost use Rattle.mach_records.specs.FixupChains.{fixups_header_fields, fixups_header_values};
    ghost use Rattle.std.proofs.Common.{rules};

    ghost fields = { fixups_header_fields };

    ghost values = { fixups_header_values };

    ghost lawful = { Prim.search rules };

    fn load(bytes: &[u8], le: Endian) -> Self {
        ChainedFixupsHeader {
            fixups_version: le.u32_at(bytes, 0),
            starts_offset: le.u32_at(bytes, 4),
            imports_offset: le.u32_at(bytes, 8),
            symbols_offset: le.u32_at(bytes, 12),
            imports_count: le.u32_at(bytes, 16),
            imports_format: le.u32_at(bytes, 20),
            symbols_format: le.u32_at(bytes, 24),
        }
    }

    fn store(self, le: Endian) -> RecordBytes {
        RecordBytes::new()
            .u32(le, self.fixups_version)
            .u32(le, self.starts_offset)
            .u32(le, self.imports_offset)
            .u32(le, self.symbols_offset)
            .u32(le, self.imports_count)
            .u32(le, self.imports_format)
            .u32(le, self.symbols_format)
    }
}

/// The starts of a segment's chains (struct dyld_chained_starts_in_segment). The starts of its pages follow, two bytes each.
#[derive(Clone, Copy, Debug, Default)]
pub struct ChainedStartsInSegment {
    /// The size in bytes, including the starts of the pages.
    pub size: u32,
    /// The size of a page in bytes: 0x1000 or 0x4000.
    pub page_size: u16,
    /// The format of the pointers, one of the `DYLD_CHAINED_PTR_` numbers.
    pub pointer_format: u16,
    /// The offset of the segment in memory from the image's base.
    pub segment_offset: u64,
    /// For 32-bit pointers: greater ones are plain numbers.
    pub max_valid_pointer: u32,
    /// How many pages have a start.
    pub page_count: u16,
}

/// The size of a `ChainedStartsInSegment` in bytes.
pub const SIZEOF_CHAINED_STARTS_IN_SEGMENT: usize = 22;

impl Record for ChainedStartsInSegment {
    const SIZE: usize = SIZEOF_CHAINED_STARTS_IN_SEGMENT;

    ghost SIZE = { 22 };

    ghost use Rattle.mach_records.specs.FixupChains.{starts_fields, starts_values};
    ghost use Rattle.std.proofs.Common.{rules};

    ghost fields = { starts_fields };

    ghost values = { starts_values };

    ghost lawful = { Prim.search rules };

    fn load(bytes: &[u8], le: Endian) -> Self {
        ChainedStartsInSegment {
            size: le.u32_at(bytes, 0),
            page_size: le.u16_at(bytes, 4),
            pointer_format: le.u16_at(bytes, 6),
            segment_offset: le.u64_at(bytes, 8),
            max_valid_pointer: le.u32_at(bytes, 16),
            page_count: le.u16_at(bytes, 20),
        }
    }

    fn store(self, le: Endian) -> RecordBytes {
        RecordBytes::new()
            .u32(le, self.size)
            .u16(le, self.page_size)
            .u16(le, self.pointer_format)
            .u64(le, self.segment_offset)
            .u32(le, self.max_valid_pointer)
            .u16(le, self.page_count)
    }
}
