//! Relocations (`mach-o/reloc.h`).

ghost use Rattle.std.specs.Prelude.{◌≡◌, ◌<◌, ◌↔◌, IsTrue};
ghost use Rattle.mach_parts.specs.Relocation.{bits_from};
ghost use Rattle.mach_parts.specs.RelocationName.{relocation_name};

mod forms;
pub mod laws;
mod types;

pub use crate::relocation::forms::Relocation;
pub use crate::relocation::types::{
    ARM_RELOC_BR24, ARM_RELOC_HALF, ARM_RELOC_HALF_SECTDIFF, ARM_RELOC_LOCAL_SECTDIFF,
    ARM_RELOC_PAIR, ARM_RELOC_PB_LA_PTR, ARM_RELOC_SECTDIFF, ARM_RELOC_VANILLA,
    ARM_THUMB_32BIT_BRANCH, ARM_THUMB_RELOC_BR22, ARM64_RELOC_ADDEND, ARM64_RELOC_BRANCH26,
    ARM64_RELOC_GOT_LOAD_PAGE21, ARM64_RELOC_GOT_LOAD_PAGEOFF12, ARM64_RELOC_PAGE21,
    ARM64_RELOC_PAGEOFF12, ARM64_RELOC_POINTER_TO_GOT, ARM64_RELOC_SUBTRACTOR,
    ARM64_RELOC_TLVP_LOAD_PAGE21, ARM64_RELOC_TLVP_LOAD_PAGEOFF12, ARM64_RELOC_UNSIGNED,
    GENERIC_RELOC_LOCAL_SECTDIFF, GENERIC_RELOC_PAIR, GENERIC_RELOC_PB_LA_PTR,
    GENERIC_RELOC_SECTDIFF, GENERIC_RELOC_TLV, GENERIC_RELOC_VANILLA, R_ABS, RelocType,
    X86_64_RELOC_BRANCH, X86_64_RELOC_GOT, X86_64_RELOC_GOT_LOAD, X86_64_RELOC_SIGNED,
    X86_64_RELOC_SIGNED_1, X86_64_RELOC_SIGNED_2, X86_64_RELOC_SIGNED_4, X86_64_RELOC_SUBTRACTOR,
    X86_64_RELOC_TLV, X86_64_RELOC_UNSIGNED, reloc_to_str,
};
use mach_base::{Endian, Record, RecordBytes};
use mach_records::cputype::CpuType;

/// A place in a section that is corrected when addresses are known (struct relocation_info).
#[derive(Clone, Copy, Debug)]
pub struct RelocationInfo {
    /// The offset from the section's start.
    pub r_address: i32,
    /// From the lowest bit: 24 bits `r_symbolnum`, 1 bit `r_pcrel`, 2 bits `r_length`, 1 bit `r_extern` and 4 bits `r_type`.
    pub r_info: u32,
}

/// The size of a relocation in bytes.
pub const SIZEOF_RELOCATION_INFO: usize = 8;

impl Record for RelocationInfo {
    const SIZE: usize = SIZEOF_RELOCATION_INFO;

    ghost SIZE = { 8 };

    ghost use Rattle.mach_parts.specs.Relocation.{relocation_fields, relocation_of_values, relocation_values};
    ghost use Rattle.mach_parts.specs.RelocationWhole.{relocation_whole};
    ghost use Rattle.std.proofs.Common.{refl, sym, ap, ◌∙◌, zero-lt-suc};

    ghost fields = { relocation_fields };

    ghost values = { relocation_values };

    ghost lawful = { record { sized = refl; some = zero-lt-suc _; same = λ x y e. sym (relocation_whole x) ∙ ap relocation_of_values e ∙ relocation_whole y } };

    fn load(bytes: &[u8], le: Endian) -> Self {
        RelocationInfo {
            r_address: le.u32_at(bytes, 0).cast_signed(),
            r_info: le.u32_at(bytes, 4),
        }
    }

    fn store(self, le: Endian) -> RecordBytes {
        RecordBytes::new()
            .u32(le, self.r_address.cast_unsigned())
            .u32(le, self.r_info)
    }
}

impl RelocationInfo {
    /// Returns the number of a symbol if `is_extern`, or else that of a section, counted from 1.
    pub fn r_symbolnum(self) -> usize
        ensures { result ≡ bits_from 0 24 self.r_info }
    {
        (self.r_info & 0x00ff_ffff) as usize
    }

    /// Returns 1 if the value is relative to the place, or else 0.
    pub fn r_pcrel(self) -> u8
        ensures { result ≡ bits_from 24 1 self.r_info }
    {
        ((self.r_info >> 24) & 0x1) as u8
    }

    /// Returns the length of the corrected value: 2 to this power, in bytes.
    pub fn r_length(self) -> u8
        ensures { result ≡ bits_from 25 2 self.r_info }
    {
        ((self.r_info >> 25) & 0x3) as u8
    }

    /// Returns 1 if `r_symbolnum` is the number of a symbol, or else 0.
    pub fn r_extern(self) -> u8
        ensures { result ≡ bits_from 27 1 self.r_info }
    {
        ((self.r_info >> 27) & 0x1) as u8
    }

    /// Returns the type of the relocation. Its meaning depends on the CPU.
    pub fn r_type(self) -> RelocType
        ensures { result ≡ bits_from 28 4 self.r_info }
    {
        ((self.r_info >> 28) & 0xf) as u8
    }

    /// Whether `r_symbolnum` is the number of a symbol.
    pub fn is_extern(self) -> bool
        ensures { IsTrue result ↔ (bits_from 27 1 self.r_info ≡ 1) }
    {
        self.r_extern() == 1
    }

    /// Whether the value is relative to the place.
    pub fn is_pic(self) -> bool
        ensures { IsTrue result ↔ (0 < bits_from 24 1 self.r_info) }
    {
        self.r_pcrel() > 0
    }

    /// Returns the name of the relocation's type for a CPU, as `reloc_to_str` does.
    pub fn to_str(self, cputype: CpuType) -> &'static str
        ensures { result.now ≡ relocation_name (bits_from 28 4 self.r_info) cputype }
    {
        reloc_to_str(self.r_type(), cputype)
    }
}
