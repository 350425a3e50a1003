//! The first line of a code directory, and a version.

ghost use Rattle.std.specs.Prelude.{◌≤◌, Some};
ghost use Rattle.machsign.specs.Blocks.{head_front, segment_front, shape_text};
ghost use Rattle.machsign.specs.Texts.{hash_name, pages_text, runtime_text};

use mach_signature::{DirectoryHead, HashType, SlotName};
use std::fmt;
use std::fmt::{Display, Formatter, Write};

// The name of a kind of hash.
#[derive(Clone, Copy)]
struct HashName(HashType);

impl Display for HashName {
    ghost output = { λ t. Some (hash_name t.0) };

    fn fmt<W: Write>(&self, f: &mut Formatter<W>) -> fmt::Result {
        match self.0 {
            HashType::Sha1 => f.write_str("sha1"),
            HashType::Sha256 => f.write_str("sha256"),
            HashType::Sha256Truncated => f.write_str("sha256-truncated"),
            HashType::Sha384 => f.write_str("sha384"),
        }
    }
}

// The page size, by its power of 2; 0 is any size.
#[derive(Clone, Copy)]
struct PagesText {
    power: u8,
    ghost within: { power ≤ 31 },
}

impl Display for PagesText {
    ghost output = { λ t. Some (pages_text t.power) };

    fn fmt<W: Write>(&self, f: &mut Formatter<W>) -> fmt::Result {
        if self.power == 0 {
            return f.write_str("pages of any size");
        }
        let size = 1u64 << self.power;
        write!(f, "pages of {size}")
    }
}

/// The text of a directory before its flags: the name of its slot, and its version.
#[derive(Clone, Copy)]
pub struct HeadFront {
    pub slot: u32,
    pub version: u32,
}

impl Display for HeadFront {
    ghost output = { λ t. Some (head_front t.slot t.version) };

    fn fmt<W: Write>(&self, f: &mut Formatter<W>) -> fmt::Result {
        let (name, version) = (SlotName(self.slot), self.version);
        write!(f, "{name}: version 0x{version:x}, flags ")
    }
}

/// The text of an executable segment before its flags: its addresses.
#[derive(Clone, Copy)]
pub struct SegmentFront {
    pub base: u64,
    /// The end of the segment; the highest number of 64 bits if the end is above that.
    pub end: u64,
}

impl Display for SegmentFront {
    ghost output = { λ t. Some (segment_front t.base t.end) };

    fn fmt<W: Write>(&self, f: &mut Formatter<W>) -> fmt::Result {
        let (start, end) = (self.base, self.end);
        write!(f, "  executable: 0x{start:x}..0x{end:x}, flags ")
    }
}

/// The text of a directory after its flags.
#[derive(Clone, Copy)]
pub struct ShapeText {
    pub hash: HashType,
    pub head: DirectoryHead,
    /// How many bytes of the image are covered.
    pub limit: u64,
    ghost within: { head.page_size ≤ 31 },
}

impl Display for ShapeText {
    ghost output = { λ t. Some (shape_text t.hash t.head t.limit) };

    fn fmt<W: Write>(&self, f: &mut Formatter<W>) -> fmt::Result {
        let (hash, head, limit) = (HashName(self.hash), self.head, self.limit);
        let (special, slots, platform) = (head.n_special_slots, head.n_code_slots, head.platform);
        let pages = PagesText {
            power: head.page_size,
        };
        write!(
            f,
            ", {hash}, {special} special slots, {slots} code slots, {pages}, limit 0x{limit:x}, platform {platform}"
        )
    }
}

/// The version of a runtime, of 16, 8 and 8 bits.
#[derive(Clone, Copy)]
pub struct RuntimeText(pub u32);

impl Display for RuntimeText {
    ghost output = { λ t. Some (runtime_text t.0) };

    fn fmt<W: Write>(&self, f: &mut Formatter<W>) -> fmt::Result {
        let (major, minor, patch) = (self.0 >> 16, (self.0 >> 8) & 0xff, self.0 & 0xff);
        write!(f, "{major}.{minor}.{patch}")
    }
}
