//! The entries of a fat file's table.

ghost use Rattle.mach_base.specs.Answer.{Reads};
ghost use Rattle.goblin_mach.specs.FatFile.{archs_in, file_view};
ghost use Rattle.mach_cli.specs.Cpus.{is_of_cpu};
ghost use Rattle.mach_resolve.specs.Cpu.{first_arch_for};

use goblin_mach::{ArchRecord, Error, FatTable};
use mach_cli::Cpu;
use std::alloc::Allocator;

/// Finds the first record of an entry for a cpu. Returns None if there is none, or the error of an unreadable record before it.
pub fn find_entry<R: ArchRecord, A: Allocator>(
    container: &FatTable<'_, R, A>,
    cpu: Cpu,
) -> Result<Option<R>, Error>
    ensures { Reads (λ found. found) result (first_arch_for R.arch_form (is_of_cpu cpu) (archs_in R.arch_form (file_view container.now))) }
{
    'arches: for arch in container.iter_arches() {
        let arch = arch?;
        if cpu.takes(arch.entry_cpu(), arch.entry_cpu_kind()) {
            return Ok(Some(arch));
        }
    }
    Ok(None)
}
