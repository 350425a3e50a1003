//! Constants of CPUs and of sections.

pub mod cputype;

/// The bits of a section's flags that hold its type (`mach-o/loader.h`).
pub const SECTION_TYPE: u32 = 0xff;

/// The type of a section of zeros, which takes no bytes of the file.
pub const S_ZEROFILL: u32 = 0x1;

/// The type of a section of zeros that may be larger than 4 gigabytes.
pub const S_GB_ZEROFILL: u32 = 0xc;

/// The type of a section of zeros of which each thread has its own copy.
pub const S_THREAD_LOCAL_ZEROFILL: u32 = 0x12;
