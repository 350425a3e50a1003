//! The byte order and the width of an image.

ghost use Rattle.std.specs.Prelude.{◌≡◌, ◌≤◌, ◌+◌, length, drop, IsTrue, ◌↔◌, if◌then◌else◌};
ghost use Rattle.mach_base.specs.declared.context.Endian.TheVariants.{Little, Big};
ghost use Rattle.mach_base.specs.declared.context.Container.TheVariants as width;
ghost use Rattle.mach_base.specs.Context.{pointer_size};
ghost use Rattle.mach_base.specs.Number.{number};

use byteorder::{BigEndian, ByteOrder, LittleEndian};

/// A byte order.
#[derive(Clone, Copy, Debug, PartialEq)]
pub enum Endian {
    /// The lowest byte first.
    Little,
    /// The highest byte first.
    Big,
}

/// Little-endian.
pub const LE: Endian = Endian::Little;

/// Big-endian.
pub const BE: Endian = Endian::Big;

impl From<bool> for Endian {
    ghost from_gives = { λ little le. le ≡ (if little then Little else Big) };

    /// Returns little-endian for `true`.
    fn from(little: bool) -> Endian {
        if little { Endian::Little } else { Endian::Big }
    }
}

impl Endian {
    /// Whether the lowest byte comes first.
    pub fn is_little(&self) -> bool
        ensures { IsTrue result ↔ (self.now ≡ Little) }
    {
        matches!(self, Endian::Little)
    }

    fn u16(self, bytes: &[u8]) -> u16
        requires { 2 ≤ length bytes.now }
        ensures { result ≡ number self 2 bytes.now }
    {
        match self {
            Endian::Little => LittleEndian::read_u16(bytes),
            Endian::Big => BigEndian::read_u16(bytes),
        }
    }

    fn u32(self, bytes: &[u8]) -> u32
        requires { 4 ≤ length bytes.now }
        ensures { result ≡ number self 4 bytes.now }
    {
        match self {
            Endian::Little => LittleEndian::read_u32(bytes),
            Endian::Big => BigEndian::read_u32(bytes),
        }
    }

    fn u64(self, bytes: &[u8]) -> u64
        requires { 8 ≤ length bytes.now }
        ensures { result ≡ number self 8 bytes.now }
    {
        match self {
            Endian::Little => LittleEndian::read_u64(bytes),
            Endian::Big => BigEndian::read_u64(bytes),
        }
    }

    /// Returns the byte at `place`.
    pub fn u8_at(self, bytes: &[u8], place: usize) -> u8
        requires { place + 1 ≤ length bytes.now }
        ensures { result ≡ number self 1 (drop place bytes.now) }
    {
        bytes[place]
    }

    /// Reads the two-byte number at `place`.
    pub fn u16_at(self, bytes: &[u8], place: usize) -> u16
        requires { place + 2 ≤ length bytes.now }
        ensures { result ≡ number self 2 (drop place bytes.now) }
    {
        self.u16(&bytes[place..])
    }

    /// Reads the four-byte number at `place`.
    pub fn u32_at(self, bytes: &[u8], place: usize) -> u32
        requires { place + 4 ≤ length bytes.now }
        ensures { result ≡ number self 4 (drop place bytes.now) }
    {
        self.u32(&bytes[place..])
    }

    /// Reads the eight-byte number at `place`.
    pub fn u64_at(self, bytes: &[u8], place: usize) -> u64
        requires { place + 8 ≤ length bytes.now }
        ensures { result ≡ number self 8 (drop place bytes.now) }
    {
        self.u64(&bytes[place..])
    }
}

/// The width of an image: `Little` for 32 bits, `Big` for 64.
#[derive(Clone, Copy, Debug, PartialEq)]
pub enum Container {
    /// 32 bits.
    Little,
    /// 64 bits.
    Big,
}

impl Container {
    /// Whether the image has 64 bits.
    pub fn is_big(&self) -> bool
        ensures { IsTrue result ↔ (self.now ≡ width.Big) }
    {
        matches!(self, Container::Big)
    }
}

/// The width and the byte order of an image.
#[derive(Clone, Copy, Debug, PartialEq)]
pub struct Ctx {
    /// The width.
    pub container: Container,
    /// The byte order.
    pub le: Endian,
}

impl Ctx {
    /// Builds the context of a width and a byte order.
    pub fn new(container: Container, le: Endian) -> Self
        ensures { result ≡ record { container = container; le = le } }
    {
        Ctx { container, le }
    }

    /// Whether the image has 64 bits.
    pub fn is_big(self) -> bool
        ensures { IsTrue result ↔ (self.container ≡ width.Big) }
    {
        self.container.is_big()
    }

    /// Returns the size of a pointer in bytes: 4 or 8.
    pub fn size(self) -> usize
        ensures { result ≡ pointer_size self.container }
    {
        match self.container {
            Container::Little => 4,
            Container::Big => 8,
        }
    }
}

impl Default for Ctx {
    ghost is_default = { λ c. c ≡ record { container = width.Big; le = Little } };

    /// Returns 64 bits, little-endian.
    fn default() -> Self {
        Ctx {
            container: Container::Big,
            le: Endian::Little,
        }
    }
}
