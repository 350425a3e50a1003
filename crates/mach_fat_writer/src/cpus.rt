//! Whether two entries are for one cpu: their cpus are sorted.

ghost use Rattle.std.specs.Prelude.{◌≡◌, IfOk, None, map};
ghost use Rattle.mach_fat_writer.specs.Entries.{are_of_one_cpu, any_two, any_again, cpu_number, entry_views, fat_entry_view};

use crate::entry::FatEntry;
use mach_records::cputype::CPU_SUBTYPE_MASK;
use std::alloc::{AllocError, Allocator};

// Returns a number that two entries share exactly when they are for one cpu.
fn cpu_number(entry: &FatEntry<'_>) -> u64
    ensures { result ≡ cpu_number (fat_entry_view entry.now) }
{
    u64::from(entry.cputype) * (1 << 24) + u64::from(entry.cpusubtype & !CPU_SUBTYPE_MASK)
}

// Returns the numbers of all cpus.
fn cpu_numbers<A: Allocator>(alloc: A, entries: &[FatEntry<'_>]) -> Result<Vec<u64, A>, AllocError>
    ensures { IfOk result (λ numbers. numbers.items ≡ map cpu_number (entry_views entries.now)) }
{
    let mut numbers = Vec::with_capacity(alloc, entries.len())?;
    for entry in entries {
        numbers.push(cpu_number(entry))?;
    }
    Ok(numbers)
}

// Whether any number equals the one before it.
fn any_again(numbers: &[u64]) -> bool
    ensures { result ≡ any_again None numbers.now }
{
    let mut last = None;
    for number in numbers {
        if last == Some(*number) {
            return true;
        }
        last = Some(*number);
    }
    false
}

/// Whether any two entries are for one cpu.
pub(crate) fn any_two_of_one_cpu<A: Allocator>(
    alloc: A,
    entries: &[FatEntry<'_>],
) -> Result<bool, AllocError>
    ensures { IfOk result (λ found. found ≡ any_two are_of_one_cpu (entry_views entries.now)) }
{
    let mut numbers = cpu_numbers(alloc, entries)?;
    numbers.sort_unstable();
    Ok(any_again(numbers.as_slice()))
}
