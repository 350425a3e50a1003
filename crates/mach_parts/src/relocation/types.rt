//! The types of relocations, by CPU (`mach-o/reloc.h` and the `reloc.h` of each CPU).

ghost use Rattle.std.specs.Prelude.{◌≡◌};
ghost use Rattle.mach_parts.specs.RelocationName.{relocation_name, type_name_of, x86_64_names, x86_names, arm_names, arm64_names};

use mach_records::cputype::{
    CPU_TYPE_ARM, CPU_TYPE_ARM64, CPU_TYPE_ARM64_32, CPU_TYPE_X86, CPU_TYPE_X86_64, CpuType,
};

/// The type of a relocation. Its meaning depends on the CPU.
pub type RelocType = u8;

/// An absolute value, without a symbol or a section.
pub const R_ABS: u8 = 0;

// The types of x86-64.
/// An absolute address.
pub const X86_64_RELOC_UNSIGNED: RelocType = 0;

/// A signed 32-bit displacement.
pub const X86_64_RELOC_SIGNED: RelocType = 1;

/// The displacement of a call or a jump.
pub const X86_64_RELOC_BRANCH: RelocType = 2;

/// A load of an entry in the global offset table.
pub const X86_64_RELOC_GOT_LOAD: RelocType = 3;

/// Another use of the global offset table.
pub const X86_64_RELOC_GOT: RelocType = 4;

/// The subtrahend of a difference; an `X86_64_RELOC_UNSIGNED` follows.
pub const X86_64_RELOC_SUBTRACTOR: RelocType = 5;

/// Like `X86_64_RELOC_SIGNED`, with the addend -1.
pub const X86_64_RELOC_SIGNED_1: RelocType = 6;

/// Like `X86_64_RELOC_SIGNED`, with the addend -2.
pub const X86_64_RELOC_SIGNED_2: RelocType = 7;

/// Like `X86_64_RELOC_SIGNED`, with the addend -4.
pub const X86_64_RELOC_SIGNED_4: RelocType = 8;

/// A thread-local variable.
pub const X86_64_RELOC_TLV: RelocType = 9;

// The types of x86.
/// A plain address.
pub const GENERIC_RELOC_VANILLA: RelocType = 0;

/// The second relocation of a pair.
pub const GENERIC_RELOC_PAIR: RelocType = 1;

/// The difference of two addresses; a pair follows.
pub const GENERIC_RELOC_SECTDIFF: RelocType = 2;

/// A prebound lazy pointer.
pub const GENERIC_RELOC_PB_LA_PTR: RelocType = 3;

/// The difference of two local addresses; a pair follows.
pub const GENERIC_RELOC_LOCAL_SECTDIFF: RelocType = 4;

/// A thread-local variable.
pub const GENERIC_RELOC_TLV: RelocType = 5;

// The types of ARM.
/// A plain address.
pub const ARM_RELOC_VANILLA: RelocType = 0;

/// The second relocation of a pair.
pub const ARM_RELOC_PAIR: RelocType = 1;

/// The difference of two addresses; a pair follows.
pub const ARM_RELOC_SECTDIFF: RelocType = 2;

/// The difference of two local addresses; a pair follows.
pub const ARM_RELOC_LOCAL_SECTDIFF: RelocType = 3;

/// A prebound lazy pointer.
pub const ARM_RELOC_PB_LA_PTR: RelocType = 4;

/// The 24-bit displacement of a branch.
pub const ARM_RELOC_BR24: RelocType = 5;

/// The 22-bit displacement of a Thumb branch.
pub const ARM_THUMB_RELOC_BR22: RelocType = 6;

/// A 32-bit Thumb branch; obsolete.
pub const ARM_THUMB_32BIT_BRANCH: RelocType = 7;

/// Half of an address, in a `movw` or a `movt`.
pub const ARM_RELOC_HALF: RelocType = 8;

/// Half of the difference of two addresses.
pub const ARM_RELOC_HALF_SECTDIFF: RelocType = 9;

// The types of ARM64.
/// A pointer.
pub const ARM64_RELOC_UNSIGNED: RelocType = 0;

/// The subtrahend of a difference; an `ARM64_RELOC_UNSIGNED` follows.
pub const ARM64_RELOC_SUBTRACTOR: RelocType = 1;

/// The 26-bit displacement of a branch.
pub const ARM64_RELOC_BRANCH26: RelocType = 2;

/// The distance to the page of the target.
pub const ARM64_RELOC_PAGE21: RelocType = 3;

/// The offset within that page.
pub const ARM64_RELOC_PAGEOFF12: RelocType = 4;

/// The distance to the page of an entry of the global offset table.
pub const ARM64_RELOC_GOT_LOAD_PAGE21: RelocType = 5;

/// The offset of that entry within its page.
pub const ARM64_RELOC_GOT_LOAD_PAGEOFF12: RelocType = 6;

/// A pointer to an entry of the global offset table.
pub const ARM64_RELOC_POINTER_TO_GOT: RelocType = 7;

/// The distance to the page of a thread-local variable.
pub const ARM64_RELOC_TLVP_LOAD_PAGE21: RelocType = 8;

/// The offset of that variable within its page.
pub const ARM64_RELOC_TLVP_LOAD_PAGEOFF12: RelocType = 9;

/// The addend of the `ARM64_RELOC_PAGE21` or `ARM64_RELOC_PAGEOFF12` that follows.
pub const ARM64_RELOC_ADDEND: RelocType = 10;

// Returns the name of an x86-64 type.
fn x86_64_name(reloc: RelocType) -> &'static str
    ensures { result.now ≡ type_name_of x86_64_names reloc }
{
    match reloc {
        X86_64_RELOC_UNSIGNED => "X86_64_RELOC_UNSIGNED",
        X86_64_RELOC_SIGNED => "X86_64_RELOC_SIGNED",
        X86_64_RELOC_BRANCH => "X86_64_RELOC_BRANCH",
        X86_64_RELOC_GOT_LOAD => "X86_64_RELOC_GOT_LOAD",
        X86_64_RELOC_GOT => "X86_64_RELOC_GOT",
        X86_64_RELOC_SUBTRACTOR => "X86_64_RELOC_SUBTRACTOR",
        X86_64_RELOC_SIGNED_1 => "X86_64_RELOC_SIGNED_1",
        X86_64_RELOC_SIGNED_2 => "X86_64_RELOC_SIGNED_2",
        X86_64_RELOC_SIGNED_4 => "X86_64_RELOC_SIGNED_4",
        X86_64_RELOC_TLV => "X86_64_RELOC_TLV",
        _ => "UNKNOWN",
    }
}

// Returns the name of an x86 type.
fn x86_name(reloc: RelocType) -> &'static str
    ensures { result.now ≡ type_name_of x86_names reloc }
{
    match reloc {
        GENERIC_RELOC_VANILLA => "GENERIC_RELOC_VANILLA",
        GENERIC_RELOC_PAIR => "GENERIC_RELOC_PAIR",
        GENERIC_RELOC_SECTDIFF => "GENERIC_RELOC_SECTDIFF",
        GENERIC_RELOC_PB_LA_PTR => "GENERIC_RELOC_PB_LA_PTR",
        GENERIC_RELOC_LOCAL_SECTDIFF => "GENERIC_RELOC_LOCAL_SECTDIFF",
        GENERIC_RELOC_TLV => "GENERIC_RELOC_TLV",
        _ => "UNKNOWN",
    }
}

// Returns the name of an ARM type.
fn arm_name(reloc: RelocType) -> &'static str
    ensures { result.now ≡ type_name_of arm_names reloc }
{
    match reloc {
        ARM_RELOC_VANILLA => "ARM_RELOC_VANILLA",
        ARM_RELOC_PAIR => "ARM_RELOC_PAIR",
        ARM_RELOC_SECTDIFF => "ARM_RELOC_SECTDIFF",
        ARM_RELOC_LOCAL_SECTDIFF => "ARM_RELOC_LOCAL_SECTDIFF",
        ARM_RELOC_PB_LA_PTR => "ARM_RELOC_PB_LA_PTR",
        ARM_RELOC_BR24 => "ARM_RELOC_BR24",
        ARM_THUMB_RELOC_BR22 => "ARM_THUMB_RELOC_BR22",
        ARM_THUMB_32BIT_BRANCH => "ARM_THUMB_32BIT_BRANCH",
        ARM_RELOC_HALF => "ARM_RELOC_HALF",
        ARM_RELOC_HALF_SECTDIFF => "ARM_RELOC_HALF_SECTDIFF",
        _ => "UNKNOWN",
    }
}

// Returns the name of an ARM64 type.
fn arm64_name(reloc: RelocType) -> &'static str
    ensures { result.now ≡ type_name_of arm64_names reloc }
{
    match reloc {
        ARM64_RELOC_UNSIGNED => "ARM64_RELOC_UNSIGNED",
        ARM64_RELOC_SUBTRACTOR => "ARM64_RELOC_SUBTRACTOR",
        ARM64_RELOC_BRANCH26 => "ARM64_RELOC_BRANCH26",
        ARM64_RELOC_PAGE21 => "ARM64_RELOC_PAGE21",
        ARM64_RELOC_PAGEOFF12 => "ARM64_RELOC_PAGEOFF12",
        ARM64_RELOC_GOT_LOAD_PAGE21 => "ARM64_RELOC_GOT_LOAD_PAGE21",
        ARM64_RELOC_GOT_LOAD_PAGEOFF12 => "ARM64_RELOC_GOT_LOAD_PAGEOFF12",
        ARM64_RELOC_POINTER_TO_GOT => "ARM64_RELOC_POINTER_TO_GOT",
        ARM64_RELOC_TLVP_LOAD_PAGE21 => "ARM64_RELOC_TLVP_LOAD_PAGE21",
        ARM64_RELOC_TLVP_LOAD_PAGEOFF12 => "ARM64_RELOC_TLVP_LOAD_PAGEOFF12",
        ARM64_RELOC_ADDEND => "ARM64_RELOC_ADDEND",
        _ => "UNKNOWN",
    }
}

/// Returns the name of a relocation's type for a CPU: `UNKNOWN` if the CPU
/// has no such type, and `BAD_CPUTYPE` if the types of the CPU are not known.
pub fn reloc_to_str(reloc: RelocType, cputype: CpuType) -> &'static str
    ensures { result.now ≡ relocation_name reloc cputype }
{
    match cputype {
        CPU_TYPE_ARM64 | CPU_TYPE_ARM64_32 => arm64_name(reloc),
        CPU_TYPE_X86_64 => x86_64_name(reloc),
        CPU_TYPE_ARM => arm_name(reloc),
        CPU_TYPE_X86 => x86_name(reloc),
        _ => "BAD_CPUTYPE",
    }
}
