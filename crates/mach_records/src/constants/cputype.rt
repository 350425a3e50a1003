//! The numbers of CPUs (`mach/machine.h`).

/// A CPU type: one of the `CPU_TYPE_` constants.
pub type CpuType = u32;

/// A CPU subtype, with capabilities in the top 8 bits.
pub type CpuSubType = u32;

/// The bits of a CPU subtype that hold its capabilities.
pub const CPU_SUBTYPE_MASK: u32 = 0xff00_0000;

/// The bit of a CPU type whose addresses have 64 bits.
pub const CPU_ARCH_ABI64: u32 = 0x0100_0000;

/// An x86 with 32 bits.
pub const CPU_TYPE_X86: u32 = 0x7;

/// An x86 with 64 bits.
pub const CPU_TYPE_X86_64: u32 = 0x0100_0007;

/// An ARM with 32 bits.
pub const CPU_TYPE_ARM: u32 = 0xc;

/// An ARM with 64 bits.
pub const CPU_TYPE_ARM64: u32 = 0x0100_000c;

/// An ARM64 whose addresses have 32 bits.
pub const CPU_TYPE_ARM64_32: u32 = 0x0200_000c;

/// A PowerPC with 32 bits.
pub const CPU_TYPE_POWERPC: u32 = 0x12;
