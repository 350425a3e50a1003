//! The parts of a CPU subtype (`mach/machine.h`), as in headers and fat records.

ghost use Rattle.std.specs.Prelude.{◌≡◌};
ghost use Rattle.mach_parts.specs.Cpu.{kind_of_cpu, caps_of_cpu};

use mach_records::cputype::{CPU_SUBTYPE_MASK, CpuSubType};

// Returns the CPU subtype without its capabilities.
pub(crate) fn kind_of(cpusubtype: u32) -> CpuSubType
    ensures { result ≡ kind_of_cpu cpusubtype }
{
    cpusubtype & !CPU_SUBTYPE_MASK
}

// Returns the capabilities of a CPU subtype, below 256.
pub(crate) fn caps_of(cpusubtype: u32) -> u32
    ensures { result ≡ caps_of_cpu cpusubtype }
{
    (cpusubtype & CPU_SUBTYPE_MASK) >> 24
}
