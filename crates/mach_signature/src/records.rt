//! The records of a signature (`cs_blobs.h`). All their numbers are big-endian.

use mach_base::{Endian, Record, RecordBytes};

/// The head of a signature (struct __SC_SuperBlob).
#[derive(Clone, Copy, Debug)]
pub struct SuperBlobHead {
    /// The magic number.
    pub magic: u32,
    /// How many bytes the signature has.
    pub length: u32,
    /// How many blobs it has.
    pub count: u32,
}

impl Record for SuperBlobHead {
    const SIZE: usize = 12;

    ghost SIZE = { 12 };

    ghost use Rattle.mach_signature.specs.SignRecords.{super_blob_fields, super_blob_values};
    ghost use Rattle.std.proofs.Common.{rules};

    ghost fields = { super_blob_fields };

    ghost values = { super_blob_values };

    ghost lawful = { Prim.search rules };

    fn load(bytes: &[u8], le: Endian) -> Self {
        SuperBlobHead {
            magic: le.u32_at(bytes, 0),
            length: le.u32_at(bytes, 4),
            count: le.u32_at(bytes, 8),
        }
    }

    fn store(self, le: Endian) -> RecordBytes {
        RecordBytes::new()
            .u32(le, self.magic)
            .u32(le, self.length)
            .u32(le, self.count)
    }
}

/// The head of a blob (struct __SC_GenericBlob).
#[derive(Clone, Copy, Debug)]
pub struct BlobHead {
    /// The magic number.
    pub magic: u32,
    /// How many bytes the blob has, including this head.
    pub length: u32,
}

impl Record for BlobHead {
    const SIZE: usize = 8;

    ghost SIZE = { 8 };

    ghost use Rattle.mach_signature.specs.SignRecords.{blob_head_fields, blob_head_values};
    ghost use Rattle.std.proofs.Common.{rules};

    ghost fields = { blob_head_fields };

    ghost values = { blob_head_values };

    ghost lawful = { Prim.search rules };

    fn load(bytes: &[u8], le: Endian) -> Self {
        BlobHead {
            magic: le.u32_at(bytes, 0),
            length: le.u32_at(bytes, 4),
        }
    }

    fn store(self, le: Endian) -> RecordBytes {
        RecordBytes::new().u32(le, self.magic).u32(le, self.length)
    }
}

/// The fields that every code directory has (struct __CodeDirectory).
#[derive(Clone, Copy, Debug)]
pub struct DirectoryHead {
    /// The magic number.
    pub magic: u32,
    /// How many bytes the directory has.
    pub length: u32,
    /// The version, which says which fields follow.
    pub version: u32,
    /// The flags of the code (`CS_ADHOC` and others).
    pub flags: u32,
    /// The offset of the first code slot; the special slots lie before it.
    pub hash_offset: u32,
    /// The offset of the identifier.
    pub ident_offset: u32,
    /// How many special slots there are.
    pub n_special_slots: u32,
    /// How many code slots there are.
    pub n_code_slots: u32,
    /// How many bytes of the image are covered.
    pub code_limit: u32,
    /// How many bytes a hash has.
    pub hash_size: u8,
    /// The hash that it uses, by the number of its `HashType`.
    pub hash_type: u8,
    /// The number of the platform if the code belongs to the system, else 0.
    pub platform: u8,
    /// The size of a page as a power of 2; 0 if all covered bytes are one page.
    pub page_size: u8,
    /// Not used.
    pub spare2: u32,
}

impl Record for DirectoryHead {
    const SIZE: usize = 44;

    ghost SIZE = { 44 };

    ghost use Rattle.mach_signature.specs.DirectoryRecords.{directory_head_fields, directory_head_values};
    ghost use Rattle.std.proofs.Common.{rules};

    ghost fields = { directory_head_fields };

    ghost values = { directory_head_values };

    ghost lawful = { Prim.search rules };

    fn load(bytes: &[u8], le: Endian) -> Self {
        DirectoryHead {
            magic: le.u32_at(bytes, 0),
            length: le.u32_at(bytes, 4),
            version: le.u32_at(bytes, 8),
            flags: le.u32_at(bytes, 12),
            hash_offset: le.u32_at(bytes, 16),
            ident_offset: le.u32_at(bytes, 20),
            n_special_slots: le.u32_at(bytes, 24),
            n_code_slots: le.u32_at(bytes, 28),
            code_limit: le.u32_at(bytes, 32),
            hash_size: le.u8_at(bytes, 36),
            hash_type: le.u8_at(bytes, 37),
            platform: le.u8_at(bytes, 38),
            page_size: le.u8_at(bytes, 39),
            spare2: le.u32_at(bytes, 40),
        }
    }

    fn store(self, le: Endian) -> RecordBytes {
        RecordBytes::new()
            .u32(le, self.magic)
            .u32(le, self.length)
            .u32(le, self.version)
            .u32(le, self.flags)
            .u32(le, self.hash_offset)
            .u32(le, self.ident_offset)
            .u32(le, self.n_special_slots)
            .u32(le, self.n_code_slots)
            .u32(le, self.code_limit)
            .u8(le, self.hash_size)
            .u8(le, self.hash_type)
            .u8(le, self.platform)
            .u8(le, self.page_size)
            .u32(le, self.spare2)
    }
}

/// The executable segment, which code directories have since version 0x20400.
#[derive(Clone, Copy, Debug)]
pub struct ExecutableSegment {
    /// The file offset of the segment.
    pub base: u64,
    /// How many bytes it has.
    pub limit: u64,
    /// Its flags (`CS_EXECSEG_MAIN_BINARY` and others).
    pub flags: u64,
}

/// The fields for the hardened runtime, which code directories have since version 0x20500.
#[derive(Clone, Copy, Debug)]
pub struct RuntimeFields {
    /// The version of the runtime: 16 bits for the first number, 8 bits for each of two others.
    pub version: u32,
    /// The offset of the hashes of pages before their encryption.
    pub pre_encrypt_offset: u32,
}
