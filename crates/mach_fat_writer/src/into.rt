//! Writing a fat file into a given buffer: each byte is copied once.

ghost use Rattle.std.specs.Prelude.{◌≡◌, ◌≤◌, ◌<◌, ◌+◌, ◌*◌, ◌++◌, ◌^◌, ℕ, List, length, take, drop, replicate, nat_le};
ghost use Rattle.std.specs.Prelude.{MatchResult, OnErr, false, true, if◌then◌else◌};
ghost use Rattle.std.specs.List.{list_any};
ghost use Rattle.mach_base.specs.Record.{spelling};
ghost use Rattle.mach_base.specs.declared.context.Endian.TheVariants.{Big};
ghost use Rattle.mach_fat_writer.specs.Entries.{entry_views};
ghost use Rattle.mach_fat_writer.specs.FatForms.{fat_form_32, fat_form_64, fat_front, fat_records, fat_contents, fat_bytes, fat_end, table_end};
ghost use Rattle.mach_fat_writer.specs.FatWrites.{is_far_aligned, all_can_lie, is_encodable, fat_file_of, RefusesFat};
ghost use Rattle.mach_fat_writer.specs.Placed.{AreSet, IsWrittenInto};

use crate::entry::FatEntry;
use crate::fat_record::FatRecord;
use crate::put::gap;
use crate::write::declared_ends;
use mach_base::{Endian, Record, Result};
use mach_parts::FatArch64;
use mach_parts::fat::{FatArch, FatHeader};
use std::alloc::Allocator;

// Sets the bytes from a place on, and returns where they end.
fn set(out: &mut [u8], at: usize, bytes: &[u8]) -> usize
    requires { at + length bytes.now ≤ length out.old }
    ensures end { result ≡ at + length bytes.now }
    ensures front { take result out.new ≡ take at out.old ++ bytes.now }
    ensures rest { (n : ℕ) → result ≤ n → drop n out.new ≡ drop n out.old }
    ensures len { length out.new ≡ length out.old }
{
    let end = at + bytes.len();
    out[at..end].copy_from_slice(bytes);
    end
}

// Sets `count` bytes from a place on to 0, and returns where they end.
fn set_zeros(out: &mut [u8], at: usize, count: usize) -> usize
    requires { at + count ≤ length out.old }
    ensures end { result ≡ at + count }
    ensures front { take result out.new ≡ take at out.old ++ replicate count 0 }
    ensures rest { (n : ℕ) → result ≤ n → drop n out.new ≡ drop n out.old }
    ensures len { length out.new ≡ length out.old }
{
    let end = at + count;
    out[at..end].fill(0);
    end
}

// Sets the bytes from a place on to those of a record, and returns where they end.
fn set_record<R: Record>(out: &mut [u8], at: usize, held: R) -> usize
    requires small { R.SIZE ≤ 32 }
    requires room { at + R.SIZE ≤ length out.old }
    ensures end { result ≡ at + R.SIZE }
    ensures front { take result out.new ≡ take at out.old ++ spelling Big R.fields (R.values held) }
    ensures rest { (n : ℕ) → result ≤ n → drop n out.new ≡ drop n out.old }
    ensures len { length out.new ≡ length out.old }
{
    let mut bytes = [0; 32];
    let _ = held.write(&mut bytes, 0, Endian::Big);
    set(out, at, &bytes[..R::SIZE])
}

// Sets the header of a file of `count` entries, and returns where it ends.
fn set_front<R: FatRecord>(out: &mut [u8], count: usize) -> usize
    requires count { count < 2 ^ 32 }
    requires room { 8 ≤ length out.old }
    ensures end { result ≡ 8 }
    ensures front { take result out.new ≡ fat_front R.form count }
    ensures rest { (n : ℕ) → result ≤ n → drop n out.new ≡ drop n out.old }
    ensures len { length out.new ≡ length out.old }
{
    let header = FatHeader {
        magic: R::MAGIC,
        nfat_arch: count as u32,
    };
    set_record(out, 0, header)
}

// Sets the records of entries from a place on, and returns where they end. The first entry follows the bytes that end at `from`.
fn set_records<R: FatRecord>(
    out: &mut [u8],
    at: usize,
    from: usize,
    entries: &[FatEntry<'_>],
) -> usize
    requires aligned { list_any is_far_aligned (entry_views entries.now) ≡ false }
    requires within { all_can_lie R.form from (entry_views entries.now) ≡ true }
    requires room { at + R.SIZE * length entries.now ≤ length out.old }
    ensures end { result ≡ at + R.SIZE * length entries.now }
    ensures front { take result out.new ≡ take at out.old ++ fat_records R.form from (entry_views entries.now) }
    ensures rest { (n : ℕ) → result ≤ n → drop n out.new ≡ drop n out.old }
    ensures len { length out.new ≡ length out.old }
{
    let mut at = at;
    let mut end = from;
    for entry in entries {
        let place = end + gap(end, entry.align);
        at = set_record(out, at, R::of(entry, place));
        end = place + entry.bytes.len();
    }
    at
}

// Sets the bytes of entries from a place on, each after its padding.
fn set_contents<R: FatRecord>(out: &mut [u8], from: usize, entries: &[FatEntry<'_>]) -> usize
    requires aligned { list_any is_far_aligned (entry_views entries.now) ≡ false }
    requires within { all_can_lie R.form from (entry_views entries.now) ≡ true }
    requires room { fat_end from (entry_views entries.now) ≤ length out.old }
    ensures end { result ≡ fat_end from (entry_views entries.now) }
    ensures front { take result out.new ≡ take from out.old ++ fat_contents from (entry_views entries.now) }
    ensures rest { (n : ℕ) → result ≤ n → drop n out.new ≡ drop n out.old }
    ensures len { length out.new ≡ length out.old }
{
    let mut end = from;
    for entry in entries {
        end = set_zeros(out, end, gap(end, entry.align));
        end = set(out, end, entry.bytes);
    }
    end
}

// Writes a fat file, given where its table and its last entry end.
fn set_all<R: FatRecord>(out: &mut [u8], from: usize, entries: &[FatEntry<'_>])
    requires aligned { list_any is_far_aligned (entry_views entries.now) ≡ false }
    requires encodable { is_encodable R.form (entry_views entries.now) ≡ true }
    requires table { from ≡ table_end R.form (length (entry_views entries.now)) }
    requires room { fat_end from (entry_views entries.now) ≤ length out.old }
    ensures { out.new ≡ fat_bytes R.form (entry_views entries.now) ++ drop (fat_end from (entry_views entries.now)) out.old }
{
    let table = set_front::<R>(out, entries.len());
    let _ = set_records::<R>(out, table, from, entries);
    let _ = set_contents::<R>(out, from, entries);
}

// Writes a fat file if it fits, given where its table and its last entry end.
fn set_where_it_fits<R: FatRecord>(
    out: &mut [u8],
    from: usize,
    end: usize,
    entries: &[FatEntry<'_>],
)
    requires aligned { list_any is_far_aligned (entry_views entries.now) ≡ false }
    requires encodable { is_encodable R.form (entry_views entries.now) ≡ true }
    requires table { from ≡ table_end R.form (length (entry_views entries.now)) }
    requires ends { end ≡ fat_end from (entry_views entries.now) }
    ensures { out.new ≡ (if nat_le end (length out.old) then fat_bytes R.form (entry_views entries.now) ++ drop end out.old else out.old) }
{
    if end <= out.len() {
        set_all::<R>(out, from, entries);
    }
}

// Writes a fat file of entries, in either form.
fn write_by<R: FatRecord, A: Allocator>(
    alloc: A,
    entries: &[FatEntry<'_>],
    out: &mut [u8],
) -> Result<usize>
    ensures written { MatchResult result (λ end. AreSet end R.form (entry_views entries.now) out.old out.new)
        (λ e. RefusesFat e (fat_file_of R.form (entry_views entries.now))) }
    ensures kept { OnErr result (out.new ≡ out.old) }
{
    let (from, end) = declared_ends::<R, A>(alloc, entries)?;
    set_where_it_fits::<R>(out, from, end, entries);
    Ok(end)
}

/// Writes a fat file of entries at the start of `out` if it fits, and returns how many bytes it has. If it doesn't fit, nothing
/// is written. It is refused as by `write_fat`. It allocates memory only to compare the cpus.
#[tactic(auto, using(crate::proofs::Long::answered_32))]
pub fn write_fat_into<A: Allocator>(
    alloc: A,
    entries: &[FatEntry<'_>],
    out: &mut [u8],
) -> Result<usize>
    ensures written { MatchResult result (λ len. IsWrittenInto len (fat_file_of fat_form_32 (entry_views entries.now)) out.old out.new)
        (λ e. RefusesFat e (fat_file_of fat_form_32 (entry_views entries.now))) }
    ensures kept { OnErr result (out.new ≡ out.old) }
{
    write_by::<FatArch, A>(alloc, entries, out)
}

/// Writes a fat file of 64 bits at the start of `out`, as `write_fat_into` does for 32 bits.
#[tactic(auto, using(crate::proofs::Long::answered_64))]
pub fn write_fat64_into<A: Allocator>(
    alloc: A,
    entries: &[FatEntry<'_>],
    out: &mut [u8],
) -> Result<usize>
    ensures written { MatchResult result (λ len. IsWrittenInto len (fat_file_of fat_form_64 (entry_views entries.now)) out.old out.new)
        (λ e. RefusesFat e (fat_file_of fat_form_64 (entry_views entries.now))) }
    ensures kept { OnErr result (out.new ≡ out.old) }
{
    write_by::<FatArch64, A>(alloc, entries, out)
}
