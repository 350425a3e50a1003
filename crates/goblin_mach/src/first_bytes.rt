//! What bytes are by how they begin: whether as an image does, and their kind if they aren't Mach-O.

ghost use Rattle.std.specs.Prelude.{◌≡◌};
ghost use Rattle.std.specs.List.{list_all};
ghost use Rattle.goblin_mach.specs.FirstBytes.{begins_ascii, begins_text, foreign_kind, is_image_magic, is_java_class, is_text_byte};
ghost use Rattle.mach_parts.specs.Magic.{magic_at};

use mach_parts::fat::FAT_MAGIC;
use mach_parts::magic::{parse_magic_and_ctx, peek};
use std::fmt;
use std::fmt::{Display, Formatter, Write};

// How many bytes are tested for those of a text.
const TESTED: usize = 256;

/// Whether bytes begin as an image does.
pub fn begins_image(bytes: &[u8]) -> bool
    ensures { result ≡ is_image_magic (magic_at bytes.now 0) }
{
    match parse_magic_and_ctx(bytes, 0) {
        Ok((_, Some(_))) => true,
        _ => false,
    }
}

/// A kind of file that isn't Mach-O.
#[derive(Clone, Copy)]
pub enum Foreign {
    /// No bytes.
    Empty,
    /// A program or a library of Linux and other systems (ELF).
    Elf,
    /// A Java class, whose magic is that of fat files.
    JavaClass,
    /// A program of Windows or DOS.
    Pe,
    /// An archive that `ar` writes, as a static library is.
    Archive,
    /// LLVM bitcode, bare or in its wrapper.
    Bitcode,
    /// A text.
    Text,
}

/// Returns the kind of a file that isn't Mach-O, if its first bytes show it.
pub fn foreign_kind(bytes: &[u8]) -> Option<Foreign>
    ensures { result ≡ foreign_kind bytes.now }
{
    if bytes.is_empty() {
        Some(Foreign::Empty)
    } else if is_java_class(bytes) {
        Some(Foreign::JavaClass)
    } else if bytes.starts_with(b"\x7fELF") {
        Some(Foreign::Elf)
    } else if bytes.starts_with(b"MZ") {
        Some(Foreign::Pe)
    } else if bytes.starts_with(b"!<arch>\n") || bytes.starts_with(b"!<thin>\n") {
        Some(Foreign::Archive)
    } else if bytes.starts_with(b"BC\xc0\xde") || bytes.starts_with(b"\xde\xc0\x17\x0b") {
        Some(Foreign::Bitcode)
    } else if begins_text(bytes) {
        Some(Foreign::Text)
    } else {
        None
    }
}

// Whether a byte may be one of a text: white space, a printable character, or a part of a character from 0x80 on.
fn is_text_byte(byte: u8) -> bool
    ensures { result ≡ is_text_byte byte }
{
    byte >= 0x20 && byte != 0x7f || 9 <= byte && byte <= 13
}

// Whether all bytes may be those of a text.
fn are_text_bytes(bytes: &[u8]) -> bool
    ensures { result ≡ list_all is_text_byte bytes.now }
{
    bytes.iter().all(|byte| is_text_byte(*byte))
}

// Whether bytes begin with a character of ASCII.
fn begins_ascii(bytes: &[u8]) -> bool
    ensures { result ≡ begins_ascii bytes.now }
{
    match bytes.first() {
        Some(first) => *first < 0x80,
        None => false,
    }
}

// Whether bytes begin as a text does: with a character of ASCII, and without control characters among the first 256.
fn begins_text(bytes: &[u8]) -> bool
    ensures { result ≡ begins_text bytes.now }
{
    begins_ascii(bytes) && are_text_bytes(&bytes[..TESTED.min(bytes.len())])
}

// Whether a file with the magic of fat files is a Java class: a version, from 45 on, is in the place of the count.
fn is_java_class(bytes: &[u8]) -> bool
    ensures { result ≡ is_java_class bytes.now }
{
    match (peek(bytes, 0), peek(bytes, 4)) {
        (Ok(magic), Ok(count)) => magic == FAT_MAGIC && count > 30,
        _ => false,
    }
}

impl Display for Foreign {
    ghost use Rattle.std.specs.Prelude.{Some};
    ghost use Rattle.goblin_mach.specs.FirstBytes.{foreign_words};

    ghost output = { λ kind. Some (foreign_words kind) };

    fn fmt<W: Write>(&self, f: &mut Formatter<W>) -> fmt::Result {
        match self {
            Foreign::Empty => write!(f, "not Mach-O: an empty file"),
            Foreign::Elf => write!(f, "not Mach-O: an ELF file"),
            Foreign::JavaClass => write!(f, "not Mach-O: a Java class"),
            Foreign::Pe => write!(f, "not Mach-O: a PE or DOS program"),
            Foreign::Archive => write!(f, "not Mach-O: an archive"),
            Foreign::Bitcode => write!(f, "not Mach-O: LLVM bitcode"),
            Foreign::Text => write!(f, "not Mach-O: a text file"),
        }
    }
}
