//! The order of entries in a fat file that is created of files.

ghost use Rattle.std.specs.Prelude.{◌≡◌, ℕ, OnOk, OnErr, IfOk};
ghost use Rattle.std.specs.BTreeMap as tree;
ghost use Rattle.std.specs.List.Sorted.{IsPermutation, IsSortedByKey, IsStableByKey};
ghost use Rattle.mach_base.specs.Answer.{IsOkUnlessMemory};
ghost use Rattle.mach_fat_writer.specs.Entries.{entry_views, fat_entry_view};
ghost use Rattle.mach_fat_writer.specs.CreatedOrder.{fat_rank, fat_rank_by, fat_rank_cmp, first_keyed, alike_cmp};

use crate::entry::FatEntry;
use mach_base::Result;
use mach_records::cputype::CPU_TYPE_ARM64;
use std::alloc::{AllocError, Allocator};
use std::collections::BTreeMap;

// The sort key of an entry.
type Rank = (bool, u32, usize, u32);

// The index of the first entry of each cputype and alignment.
type Firsts<A> = BTreeMap<(u32, u32), usize, A>;

// Returns the index of the first entry of each cputype and alignment.
fn firsts_of<A: Allocator + Clone>(
    alloc: A,
    entries: &[FatEntry<'_>],
) -> std::result::Result<Firsts<A>, AllocError>
    ensures { IfOk result (λ firsts. (key : ℕ × ℕ) → tree.get alike_cmp firsts key ≡ first_keyed (entry_views entries.now) key) }
{
    let mut firsts = BTreeMap::new(alloc);
    for (index, entry) in entries.iter().enumerate() {
        let key = (entry.cputype, entry.align);
        if !firsts.contains_key(&key) {
            firsts.insert(key, index)?;
        }
    }
    Ok(firsts)
}

// Returns the sort key of an entry; `count` is the number of entries.
fn rank<A: Allocator>(firsts: &Firsts<A>, count: usize, entry: &FatEntry<'_>) -> Rank
    ensures { result ≡ fat_rank_by (tree.get alike_cmp firsts.now) count (fat_entry_view entry.now) }
{
    if entry.cputype == CPU_TYPE_ARM64 {
        return (true, 0, 0, entry.cpusubtype);
    }
    let first = firsts.get(&(entry.cputype, entry.align)).copied();
    (false, entry.align, first.unwrap_or(count), entry.cpusubtype)
}

// Sorts entries by their keys.
fn sort_by_rank<A: Allocator, B: Allocator>(
    alloc: A,
    firsts: &Firsts<B>,
    entries: &mut [FatEntry<'_>],
) -> std::result::Result<(), AllocError>
    requires { (key : ℕ × ℕ) → tree.get alike_cmp firsts.now key ≡ first_keyed (entry_views entries.old) key }
    ensures permutation { IsPermutation entries.old entries.new }
    ensures sorted { OnOk result (IsSortedByKey (λ e. fat_rank (entry_views entries.old) (fat_entry_view e)) fat_rank_cmp entries.new) }
    ensures stable { IsStableByKey (λ e. fat_rank (entry_views entries.old) (fat_entry_view e)) fat_rank_cmp entries.old entries.new }
    ensures refused { OnErr result (entries.new ≡ entries.old) }
{
    let count = entries.len();
    entries.sort_by_cached_key(alloc, |entry| rank(firsts, count, entry))?;
    Ok(())
}

/// Sorts entries into the order of a fat file that is created from files. Entries of arm64 come last, by cpusubtype. The others
/// are sorted by alignment; those of one cputype and alignment stay together, by cpusubtype, at the place of the first of them.
/// Entries that are equal in all this keep their order.
pub fn fat_order<A: Allocator>(alloc: A, entries: &mut [FatEntry<'_>]) -> Result<()>
    ensures permutation { IsPermutation entries.old entries.new }
    ensures sorted { OnOk result (IsSortedByKey (λ e. fat_rank (entry_views entries.old) (fat_entry_view e)) fat_rank_cmp entries.new) }
    ensures stable { IsStableByKey (λ e. fat_rank (entry_views entries.old) (fat_entry_view e)) fat_rank_cmp entries.old entries.new }
    ensures refused { OnErr result (entries.new ≡ entries.old) }
    ensures only { IsOkUnlessMemory result }
{
    let firsts = firsts_of(&alloc, entries)?;
    sort_by_rank(&alloc, &firsts, entries)?;
    Ok(())
}
