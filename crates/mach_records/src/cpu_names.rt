//! The names of cpus (`mach/machine.h`).

ghost use Rattle.std.specs.Prelude.{◌≡◌, Some, option_map};
ghost use Rattle.mach_records.specs.CpuNames.{arch_named, arch_row_of, arch_rows, cpu_named};

use crate::constants::cputype::{
    CPU_ARCH_ABI64, CPU_TYPE_ARM, CPU_TYPE_ARM64, CPU_TYPE_ARM64_32, CPU_TYPE_POWERPC,
    CPU_TYPE_X86, CPU_TYPE_X86_64,
};

const CPU_TYPE_POWERPC64: u32 = CPU_TYPE_POWERPC | CPU_ARCH_ABI64;

/// A cpu of one kind, with its name.
#[derive(Clone, Copy)]
pub struct Arch {
    /// Its name in LLVM's tools.
    pub name: &'static str,
    /// Its `CPU_TYPE_` number.
    pub cputype: u32,
    /// Its `CPU_SUBTYPE_` number, without capabilities.
    pub cpusubtype: u32,
}

// Returns the cpu of this name and these numbers.
fn row(name: &'static str, cputype: u32, cpusubtype: u32) -> Option<Arch>
    ensures { option_map arch_row_of result ≡ Some (record { name = name.now; cputype = cputype; cpusubtype = cpusubtype }) }
{
    Some(Arch {
        name,
        cputype,
        cpusubtype,
    })
}

impl Arch {
    /// Returns the cpu of a name.
    pub fn named(name: &str) -> Option<Arch>
        ensures { option_map arch_row_of result ≡ arch_named arch_rows name.now }
    {
        match name {
            "i386" => row("i386", CPU_TYPE_X86, 3),
            "x86_64" => row("x86_64", CPU_TYPE_X86_64, 3),
            "x86_64h" => row("x86_64h", CPU_TYPE_X86_64, 8),
            "armv4t" => row("armv4t", CPU_TYPE_ARM, 5),
            "armv5e" => row("armv5e", CPU_TYPE_ARM, 7),
            "xscale" => row("xscale", CPU_TYPE_ARM, 8),
            "armv6" => row("armv6", CPU_TYPE_ARM, 6),
            "armv6m" => row("armv6m", CPU_TYPE_ARM, 14),
            "armv7" => row("armv7", CPU_TYPE_ARM, 9),
            "armv7em" => row("armv7em", CPU_TYPE_ARM, 16),
            "armv7k" => row("armv7k", CPU_TYPE_ARM, 12),
            "armv7m" => row("armv7m", CPU_TYPE_ARM, 15),
            "armv7s" => row("armv7s", CPU_TYPE_ARM, 11),
            "arm64" => row("arm64", CPU_TYPE_ARM64, 0),
            "arm64e" => row("arm64e", CPU_TYPE_ARM64, 2),
            "arm64_32" => row("arm64_32", CPU_TYPE_ARM64_32, 1),
            "ppc" => row("ppc", CPU_TYPE_POWERPC, 0),
            "ppc64" => row("ppc64", CPU_TYPE_POWERPC64, 0),
            _ => None,
        }
    }
}

/// Returns the name of the cpu with this number and this subtype without capabilities, if it has one.
pub fn cpu_name(cputype: u32, kind: u32) -> Option<&'static str>
    ensures { option_map (λ name. name.now) result ≡ cpu_named arch_rows cputype kind }
{
    match (cputype, kind) {
        (CPU_TYPE_X86, 3) => Some("i386"),
        (CPU_TYPE_X86_64, 3) => Some("x86_64"),
        (CPU_TYPE_X86_64, 8) => Some("x86_64h"),
        (CPU_TYPE_ARM, 5) => Some("armv4t"),
        (CPU_TYPE_ARM, 7) => Some("armv5e"),
        (CPU_TYPE_ARM, 8) => Some("xscale"),
        (CPU_TYPE_ARM, 6) => Some("armv6"),
        (CPU_TYPE_ARM, 14) => Some("armv6m"),
        (CPU_TYPE_ARM, 9) => Some("armv7"),
        (CPU_TYPE_ARM, 16) => Some("armv7em"),
        (CPU_TYPE_ARM, 12) => Some("armv7k"),
        (CPU_TYPE_ARM, 15) => Some("armv7m"),
        (CPU_TYPE_ARM, 11) => Some("armv7s"),
        (CPU_TYPE_ARM64, 0) => Some("arm64"),
        (CPU_TYPE_ARM64, 2) => Some("arm64e"),
        (CPU_TYPE_ARM64_32, 1) => Some("arm64_32"),
        (CPU_TYPE_POWERPC, 0) => Some("ppc"),
        (0x0100_0012, 0) => Some("ppc64"),
        _ => None,
    }
}
