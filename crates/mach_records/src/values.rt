//! Versions and UUIDs as they are printed.

ghost use Rattle.std.specs.Prelude.{◌≡◌, Some};
ghost use Rattle.std.specs.Fmt.{WritesOnOk};
ghost use Rattle.mach_records.specs.Values.{source_version_text, upper_bytes, uuid_text, version_text};

use std::fmt;
use std::fmt::{Display, Formatter, Write};

/// A version of 16, 8 and 8 bits.
#[derive(Clone, Copy)]
pub struct VersionText(pub u32);

impl Display for VersionText {
    ghost output = { λ t. Some (version_text t.0) };

    fn fmt<W: Write>(&self, f: &mut Formatter<W>) -> fmt::Result {
        let (major, minor, patch) = (self.0 / 65536, self.0 / 256 % 256, self.0 % 256);
        write!(f, "{major}.{minor}.{patch}")
    }
}

/// A version of sources, of 24, 10, 10, 10 and 10 bits.
#[derive(Clone, Copy)]
pub struct SourceVersionText(pub u64);

impl Display for SourceVersionText {
    ghost output = { λ t. Some (source_version_text t.0) };

    fn fmt<W: Write>(&self, f: &mut Formatter<W>) -> fmt::Result {
        let version = self.0;
        let first = version / 0x100_0000_0000;
        let second = version / 0x4000_0000 % 1024;
        let third = version / 0x10_0000 % 1024;
        let fourth = version / 1024 % 1024;
        let fifth = version % 1024;
        write!(f, "{first}.{second}.{third}.{fourth}.{fifth}")
    }
}

// Bytes as upper-case hexadecimal digits.
#[derive(Clone, Copy)]
struct UpperBytes<'a>(&'a [u8]);

impl Display for UpperBytes<'_> {
    ghost output = { λ t. Some (upper_bytes t.0.now) };

    fn fmt<W: Write>(&self, f: &mut Formatter<W>) -> fmt::Result {
        write_upper(f, self.0)
    }
}

// Writes bytes as upper-case hexadecimal digits.
fn write_upper<W: Write>(f: &mut Formatter<W>, bytes: &[u8]) -> fmt::Result
    ensures { WritesOnOk W.write_str_gives f.old result (upper_bytes bytes.now) f.new }
{
    'bytes: for byte in bytes {
        write!(f, "{byte:02X}")?;
    }
    Ok(())
}

/// A UUID, in five groups.
#[derive(Clone, Copy)]
pub struct UuidText<'a>(pub &'a [u8; 16]);

impl Display for UuidText<'_> {
    ghost output = { λ t. Some (uuid_text t.0.now) };

    fn fmt<W: Write>(&self, f: &mut Formatter<W>) -> fmt::Result {
        let uuid = self.0;
        let first = UpperBytes(&uuid[..4]);
        let second = UpperBytes(&uuid[4..6]);
        let third = UpperBytes(&uuid[6..8]);
        let fourth = UpperBytes(&uuid[8..10]);
        let fifth = UpperBytes(&uuid[10..]);
        write!(f, "{first}-{second}-{third}-{fourth}-{fifth}")
    }
}
