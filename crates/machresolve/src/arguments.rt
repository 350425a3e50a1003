//! What a call selects.

ghost use Rattle.std.specs.Prelude.{◌≡◌};
ghost use Rattle.mach_cli.specs.Bounds.{limit_of};
ghost use Rattle.machresolve.specs.Cpu.{selected_cpu};

use mach_cli::Cpu;

// How many bindings are answered if no other limit is given.
const DEFAULT_LIMIT: usize = 10_000_000;

/// Returns the selected cpu, if not all are selected.
pub fn selected_cpu(cpu: Cpu) -> Option<Cpu>
    ensures { result ≡ selected_cpu cpu }
{
    match cpu {
        Cpu::Any => None,
        Cpu::Number(_) | Cpu::Arch(_) => Some(cpu),
    }
}

/// Returns how many bindings are answered: as many as the limit of a call, if it has one.
pub fn most_answered(limit: Option<usize>) -> usize
    ensures { result ≡ limit_of limit 10000000 }
{
    limit.unwrap_or(DEFAULT_LIMIT)
}
