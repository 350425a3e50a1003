//! The images that are selected by their cpu (`mach/machine.h`).

ghost use Rattle.std.specs.Prelude.{◌≡◌};
ghost use Rattle.std.specs.List.{list_any};
ghost use Rattle.mach_dyld.specs.Exports.{text_in};
ghost use Rattle.mach_cli.specs.Cpus.{entry_cpu_name, is_chosen, is_selected, is_of_cpu, misses};

use goblin_mach::EntryCpu;
use goblin_mach::cputype::CPU_SUBTYPE_MASK;
use goblin_mach::fat::FatArch;
use goblin_mach::names::{Arch, cpu_name};
use std::fmt;
use std::fmt::{Display, Formatter, Write};

/// Which images of a file are selected.
#[derive(Clone, Copy)]
pub enum Cpu {
    /// All.
    Any,
    /// Those for a cpu of this number, of any kind.
    Number(u32),
    /// Those for this cpu.
    Arch(Arch),
}

impl Cpu {
    /// Whether an image for a cpu of these numbers is selected.
    pub fn takes(&self, cputype: u32, cpusubtype: u32) -> bool
        ensures { result ≡ is_of_cpu self.now cputype cpusubtype }
    {
        match self {
            Cpu::Any => true,
            Cpu::Number(number) => cputype == *number,
            Cpu::Arch(arch) => {
                cputype == arch.cputype && cpusubtype & !CPU_SUBTYPE_MASK == arch.cpusubtype
            }
        }
    }

    /// Whether the entry of a record is selected.
    pub fn takes_entry(&self, arch: &FatArch) -> bool
        ensures { result ≡ is_selected self.now arch.now }
    {
        self.takes(arch.cputype, arch.cpusubtype)
    }

    // Whether any of these records is selected.
    fn has_entry(&self, archs: &[FatArch]) -> bool
        ensures { result ≡ list_any (is_selected self.now) archs.now }
    {
        'archs: for arch in archs {
            if self.takes_entry(arch) {
                return true;
            }
        }
        false
    }

    /// Whether a cpu is selected, and not all images are.
    pub fn is_chosen(&self) -> bool
        ensures { result ≡ is_chosen self.now }
    {
        match self {
            Cpu::Any => false,
            Cpu::Number(_) | Cpu::Arch(_) => true,
        }
    }

    /// Whether a cpu is selected, and none of these records is for it.
    pub fn misses(&self, archs: &[FatArch]) -> bool
        ensures { result ≡ misses self.now archs.now }
    {
        self.is_chosen() && !self.has_entry(archs)
    }
}

impl Display for Cpu {
    ghost use Rattle.std.specs.Prelude.{Some};
    ghost use Rattle.mach_cli.specs.Cpus.{cpu_words};

    ghost output = { λ cpu. Some (cpu_words cpu) };

    fn fmt<W: Write>(&self, f: &mut Formatter<W>) -> fmt::Result {
        match self {
            Cpu::Any => write!(f, "any cpu"),
            Cpu::Number(number) => write!(f, "cputype 0x{number:x}"),
            Cpu::Arch(arch) => {
                let name = arch.name;
                write!(f, "{name}")
            }
        }
    }
}

/// Returns the name of the cpu of an entry of a fat file, if its record can be read and the cpu has a name.
pub fn entry_cpu_name(cpu: Option<EntryCpu>) -> Option<&'static str>
    ensures { text_in result ≡ entry_cpu_name cpu }
{
    match cpu {
        Some(cpu) => cpu_name(cpu.cputype, cpu.cpusubtype % 0x100_0000),
        None => None,
    }
}
