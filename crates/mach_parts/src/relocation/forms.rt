//! The two forms of relocations, by CPU and byte order.

ghost use Rattle.std.specs.Prelude.{◌≡◌, ◌<◌};
ghost use Rattle.mach_parts.specs.RelocationForms.{address_word, bit_is_one, plain_form, relocation_form, scattered_form, scatters};

use crate::relocation::RelocationInfo;
use mach_base::Endian;
use mach_records::cputype::{CPU_TYPE_ARM64, CPU_TYPE_ARM64_32, CPU_TYPE_X86_64, CpuType};

/// A relocation, decoded for its CPU and byte order.
#[derive(Clone, Copy, Debug, PartialEq)]
pub enum Relocation {
    /// A place that is corrected by a symbol or a section (struct relocation_info).
    Plain {
        /// The offset from the section's start.
        address: u32,
        /// The number of a symbol if `is_extern`, or else that of a section, counted from 1.
        symbol: u32,
        /// Whether the value is relative to the place.
        is_pcrel: bool,
        /// The length of the corrected value: 2 to this power, in bytes.
        length: u8,
        /// Whether `symbol` is the number of a symbol.
        is_extern: bool,
        /// The type. Its meaning depends on the CPU.
        kind: u8,
    },
    /// A place that is corrected by an address (struct scattered_relocation_info).
    Scattered {
        /// The offset from the section's start, of 24 bits.
        address: u32,
        /// The address to which the place refers.
        value: u32,
        /// Whether the value is relative to the place.
        is_pcrel: bool,
        /// The length of the corrected value: 2 to this power, in bytes.
        length: u8,
        /// The type. Its meaning depends on the CPU.
        kind: u8,
    },
}

// Whether a bit is 1.
fn has_bit(number: u32, bit: u32) -> bool
    requires { bit < 32 }
    ensures { result ≡ bit_is_one bit number }
{
    (number >> bit) & 1 == 1
}

// Whether a CPU has scattered relocations.
fn scatters(cputype: CpuType) -> bool
    ensures { result ≡ scatters cputype }
{
    !(cputype == CPU_TYPE_X86_64 || cputype == CPU_TYPE_ARM64 || cputype == CPU_TYPE_ARM64_32)
}

// Decodes a plain relocation with this second word.
fn plain(address: u32, info: u32, le: Endian) -> Relocation
    ensures { result ≡ plain_form le address info }
{
    match le {
        Endian::Little => Relocation::Plain {
            address,
            symbol: info & 0x00ff_ffff,
            is_pcrel: has_bit(info, 24),
            length: ((info >> 25) & 0x3) as u8,
            is_extern: has_bit(info, 27),
            kind: ((info >> 28) & 0xf) as u8,
        },
        Endian::Big => Relocation::Plain {
            address,
            symbol: (info >> 8) & 0x00ff_ffff,
            is_pcrel: has_bit(info, 7),
            length: ((info >> 5) & 0x3) as u8,
            is_extern: has_bit(info, 4),
            kind: (info & 0xf) as u8,
        },
    }
}

// Decodes a scattered relocation with these words.
fn scattered(word: u32, value: u32) -> Relocation
    ensures { result ≡ scattered_form word value }
{
    Relocation::Scattered {
        address: word & 0x00ff_ffff,
        value,
        is_pcrel: has_bit(word, 30),
        length: ((word >> 28) & 0x3) as u8,
        kind: ((word >> 24) & 0xf) as u8,
    }
}

impl RelocationInfo {
    // Returns the number of the first four bytes.
    fn address_word(self) -> u32
        ensures { result ≡ address_word self }
    {
        self.r_address.cast_unsigned()
    }

    /// Decodes the relocation for a CPU and a byte order. It is scattered if the highest bit of `r_address` is set, except on x86_64, arm64
    /// and arm64_32, which have no scattered relocations. In a big-endian image the bits of a plain one are counted from the highest.
    pub fn read_as(self, cputype: CpuType, le: Endian) -> Relocation
        ensures { result ≡ relocation_form cputype le self }
    {
        let word = self.address_word();
        if scatters(cputype) && has_bit(word, 31) {
            scattered(word, self.r_info)
        } else {
            plain(word, self.r_info, le)
        }
    }
}
