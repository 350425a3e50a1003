//! Writing the table and the entries after it.

ghost use Rattle.std.specs.Prelude.{◌≡◌, ◌≤◌, ◌<◌, ◌+◌, ◌++◌, ◌^◌, length, replicate, OnOk, false, true, MatchOption};
ghost use Rattle.std.specs.List.{list_any};
ghost use Rattle.mach_base.specs.Record.{spelling};
ghost use Rattle.mach_base.specs.declared.context.Endian.TheVariants.{Big};
ghost use Rattle.mach_fat_writer.specs.Entries.{entry_views, fat_entry_view};
ghost use Rattle.mach_fat_writer.specs.FatForms.{gap_after, fat_place_after, end_after, fat_front, fat_records, fat_contents, fat_end};
ghost use Rattle.mach_fat_writer.specs.FatWrites.{is_far_aligned, can_lie, all_can_lie};

use crate::entry::FatEntry;
use crate::fat_record::FatRecord;
use mach_base::{Endian, Record};
use mach_parts::fat::FatHeader;
use std::alloc::{AllocError, Allocator};

/// Returns how many bytes of padding lie between a place and the next multiple of 2 to the power of `align`.
pub(crate) fn gap(from: usize, align: u32) -> usize
    requires { align ≤ 15 }
    ensures value { result ≡ gap_after from align }
    ensures small { result < 2 ^ 15 }
{
    let unit = 1usize << align;
    (unit - from % unit) % unit
}

// Returns where an entry ends that follows the bytes up to `from`, if a record can hold its offset and its length.
fn end_after<R: FatRecord>(from: usize, entry: &FatEntry<'_>) -> Option<usize>
    requires { entry.now.align ≤ 15 }
    ensures { MatchOption result (can_lie R.form from (fat_entry_view entry.now) ≡ false)
        (λ end. (can_lie R.form from (fat_entry_view entry.now) ≡ true) × (end ≡ end_after from (fat_entry_view entry.now))) }
{
    let place = from.checked_add(gap(from, entry.align))?;
    if place > R::MOST || entry.bytes.len() > R::MOST {
        return None;
    }
    place.checked_add(entry.bytes.len())
}

/// Returns where the last of the entries ends, if records can hold their offsets and lengths.
pub(crate) fn end_of<R: FatRecord>(from: usize, entries: &[FatEntry<'_>]) -> Option<usize>
    requires { list_any is_far_aligned (entry_views entries.now) ≡ false }
    ensures { MatchOption result (all_can_lie R.form from (entry_views entries.now) ≡ false)
        (λ end. (all_can_lie R.form from (entry_views entries.now) ≡ true) × (end ≡ fat_end from (entry_views entries.now))) }
{
    let mut end = from;
    for entry in entries {
        end = end_after::<R>(end, entry)?;
    }
    Some(end)
}

// Appends a record.
fn put<R: Record, A: Allocator>(out: &mut Vec<u8, A>, held: R) -> Result<(), AllocError>
    requires { R.SIZE ≤ 32 }
    ensures { OnOk result (out.new.items ≡ out.old.items ++ spelling Big R.fields (R.values held)) }
{
    let mut bytes = [0; 32];
    let _ = held.write(&mut bytes, 0, Endian::Big);
    out.extend_from_slice(&bytes[..R::SIZE])
}

/// Appends the header of a file of `count` entries.
pub(crate) fn put_front<R: FatRecord, A: Allocator>(
    out: &mut Vec<u8, A>,
    count: usize,
) -> Result<(), AllocError>
    requires { count < 2 ^ 32 }
    ensures { OnOk result (out.new.items ≡ out.old.items ++ fat_front R.form count) }
{
    put(
        out,
        FatHeader {
            magic: R::MAGIC,
            nfat_arch: count as u32,
        },
    )
}

/// Appends the records of entries. The first entry follows the bytes that end at `from`.
pub(crate) fn put_records<R: FatRecord, A: Allocator>(
    out: &mut Vec<u8, A>,
    from: usize,
    entries: &[FatEntry<'_>],
) -> Result<(), AllocError>
    requires aligned { list_any is_far_aligned (entry_views entries.now) ≡ false }
    requires within { all_can_lie R.form from (entry_views entries.now) ≡ true }
    ensures { OnOk result (out.new.items ≡ out.old.items ++ fat_records R.form from (entry_views entries.now)) }
{
    let mut end = from;
    for entry in entries {
        let place = end + gap(end, entry.align);
        put(out, R::of(entry, place))?;
        end = place + entry.bytes.len();
    }
    Ok(())
}

// Appends `count` zero bytes.
fn put_zeros<A: Allocator>(out: &mut Vec<u8, A>, count: usize) -> Result<(), AllocError>
    requires { count < 2 ^ 15 }
    ensures { OnOk result (out.new.items ≡ out.old.items ++ replicate count 0) }
{
    out.resize(out.len() + count, 0)
}

/// Appends the bytes of entries, each after its padding.
pub(crate) fn put_contents<R: FatRecord, A: Allocator>(
    out: &mut Vec<u8, A>,
    from: usize,
    entries: &[FatEntry<'_>],
) -> Result<(), AllocError>
    requires aligned { list_any is_far_aligned (entry_views entries.now) ≡ false }
    requires within { all_can_lie R.form from (entry_views entries.now) ≡ true }
    ensures { OnOk result (out.new.items ≡ out.old.items ++ fat_contents from (entry_views entries.now)) }
{
    let mut end = from;
    for entry in entries {
        let zeros = gap(end, entry.align);
        put_zeros(out, zeros)?;
        out.extend_from_slice(entry.bytes)?;
        end = end + zeros + entry.bytes.len();
    }
    Ok(())
}
