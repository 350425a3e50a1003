//! What bytes are, by how they begin.

ghost use Rattle.std.specs.Prelude.{◌≡◌};
ghost use Rattle.goblin_mach_c.specs.KindNumbers.{fat_number, foreign_number, kind_number};

use goblin_mach::first_bytes::{begins_image, foreign_kind};
use goblin_mach::{FAT_MAGIC_64, Foreign, peek};
use mach_parts::fat::FAT_MAGIC;

/// They show no kind.
pub const GM_KIND_UNKNOWN: u32 = 0;

/// There are none.
pub const GM_KIND_EMPTY: u32 = 1;

/// An image.
pub const GM_KIND_IMAGE: u32 = 2;

/// A fat file.
pub const GM_KIND_FAT: u32 = 3;

/// A fat file of 64 bits.
pub const GM_KIND_FAT_64: u32 = 4;

/// An archive, also a thin one.
pub const GM_KIND_ARCHIVE: u32 = 5;

/// A program or a library of ELF.
pub const GM_KIND_ELF: u32 = 6;

/// A program of Windows or DOS.
pub const GM_KIND_PE: u32 = 7;

/// A Java class.
pub const GM_KIND_JAVA_CLASS: u32 = 8;

/// LLVM bitcode.
pub const GM_KIND_BITCODE: u32 = 9;

/// A text.
pub const GM_KIND_TEXT: u32 = 10;

// Returns the number of a kind that isn't Mach-O.
fn foreign_number(kind: Foreign) -> u32
    ensures { result ≡ foreign_number kind }
{
    match kind {
        Foreign::Empty => GM_KIND_EMPTY,
        Foreign::Elf => GM_KIND_ELF,
        Foreign::JavaClass => GM_KIND_JAVA_CLASS,
        Foreign::Pe => GM_KIND_PE,
        Foreign::Archive => GM_KIND_ARCHIVE,
        Foreign::Bitcode => GM_KIND_BITCODE,
        Foreign::Text => GM_KIND_TEXT,
    }
}

// Returns the number of a fat file that the bytes begin as.
fn fat_number(bytes: &[u8]) -> u32
    ensures { result ≡ fat_number bytes.now }
{
    match peek(bytes, 0) {
        Ok(FAT_MAGIC) => GM_KIND_FAT,
        Ok(FAT_MAGIC_64) => GM_KIND_FAT_64,
        _ => GM_KIND_UNKNOWN,
    }
}

/// Returns what bytes are, by how they begin. What begins so need not open.
#[unsafe(no_mangle)]
pub extern "C" fn gmr_kind(bytes: &[u8]) -> u32
    ensures { result ≡ kind_number bytes.now }
{
    if begins_image(bytes) {
        return GM_KIND_IMAGE;
    }
    match foreign_kind(bytes) {
        Some(kind) => foreign_number(kind),
        None => fat_number(bytes),
    }
}
