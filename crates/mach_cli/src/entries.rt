//! The entries of a fat file: which are shown, and which are out of the file.

ghost use Rattle.std.specs.Prelude.{◌≡◌, Ok};
ghost use Rattle.mach_parts.specs.ArchForms.{arch_in};
ghost use Rattle.goblin_mach.specs.FatFile.{fat_file_in, file_view};
ghost use Rattle.mach_cli.specs.TableEntries.{archs_left_out, archs_shown, counts_in, counts_of, entries_shown, record_len};
ghost use Rattle.mach_cli.specs.TableEntries.{outside_at, outside_words};

use goblin_mach::FatTable;
use mach_parts::fat::FatArch;
use mach_parts::{ArchRecord, has_room_for, read_arch};
use std::alloc::Allocator;
use std::fmt;
use std::fmt::{Display, Formatter, Write};

/// An entry of a fat file whose bytes aren't all in the file.
#[derive(Clone, Copy)]
pub struct OutOfFile {
    /// Its index.
    pub entry: usize,
    /// Where it ends, or the greatest number if that is less.
    pub end: u64,
    /// Where the file ends.
    pub len: usize,
}

impl Display for OutOfFile {
    ghost use Rattle.std.specs.Prelude.{Some};

    ghost output = { λ outside. Some (outside_words outside) };

    fn fmt<W: Write>(&self, f: &mut Formatter<W>) -> fmt::Result {
        let OutOfFile { entry, end, len } = self;
        write!(
            f,
            "entry {entry} is out of the file: it ends at 0x{end:x}, the file at 0x{len:x}"
        )
    }
}

/// How many entries of a fat file are shown, and how many aren't, since entries overlap.
#[derive(Clone, Copy)]
pub struct EntryCounts {
    /// How many of the first entries are shown.
    pub shown: usize,
    /// How many entries after them aren't.
    pub left_out: usize,
}

/// The counts of a file without entries.
pub(crate) const NO_ENTRIES: EntryCounts = EntryCounts {
    shown: 0,
    left_out: 0,
};

/// Returns how many of the first entries of a fat file are shown, of `count` in its table: as many as have no more bytes together
/// than the file.
#[tactic(auto, using(crate::proofs::EntriesShown::shown_all, crate::proofs::EntriesShown::shown_before))]
pub fn entries_within<R: ArchRecord>(bytes: &[u8], count: usize) -> usize
    ensures { result ≡ entries_shown R.arch_form bytes.now count }
{
    let mut taken = 0usize;
    for index in 0..count {
        let len = record_len::<R>(bytes, index);
        let room = bytes.len() - taken;
        if room < len {
            return index;
        }
        taken += len;
    }
    count
}

// Returns how many entries of a fat file are shown, of `count` in its table, and how many aren't.
fn counts_of<R: ArchRecord>(bytes: &[u8], count: usize) -> EntryCounts
    ensures { result ≡ counts_of R.arch_form bytes.now count }
{
    let shown = entries_within::<R>(bytes, count);
    EntryCounts {
        shown,
        left_out: count.saturating_sub(shown),
    }
}

// Returns the same by the count that the file states. There are none if its bytes couldn't hold so many.
fn counts_held<R: ArchRecord, A: Allocator>(file: &FatTable<'_, R, A>) -> EntryCounts
    ensures { result ≡ counts_in R.arch_form (Ok (file_view file.now)) }
{
    if has_room_for::<R>(file.bytes(), file.narches) {
        counts_of::<R>(file.bytes(), file.narches)
    } else {
        NO_ENTRIES
    }
}

/// Returns how many entries are shown of the fat file that the bytes are, and how many aren't.
pub(crate) fn counts_in<R: ArchRecord, A: Allocator>(alloc: A, bytes: &[u8]) -> EntryCounts
    ensures { result ≡ counts_in R.arch_form (fat_file_in bytes.now) }
{
    match FatTable::<R, A>::new(alloc, bytes) {
        Ok(file) => counts_held(&file),
        Err(_) => NO_ENTRIES,
    }
}

/// Returns how many of the entries of a fat file with this table are shown.
pub fn archs_shown(bytes: &[u8], archs: &[FatArch]) -> usize
    ensures { result ≡ archs_shown bytes.now archs.now }
{
    counts_of::<FatArch>(bytes, archs.len()).shown
}

/// Returns how many of them aren't shown, since entries overlap.
pub fn archs_left_out(bytes: &[u8], archs: &[FatArch]) -> usize
    ensures { result ≡ archs_left_out bytes.now archs.now }
{
    counts_of::<FatArch>(bytes, archs.len()).left_out
}

// Returns how many bytes of the file the record of an entry names; none if it can't be read.
fn record_len<R: ArchRecord>(bytes: &[u8], index: usize) -> usize
    ensures { result ≡ record_len R.arch_form bytes.now (arch_in R.arch_form bytes.now index) }
{
    match read_arch::<R>(bytes, index) {
        Ok(arch) => arch.entry_slice(bytes).len(),
        Err(_) => 0,
    }
}

/// Returns the entry of a fat file at an index, if its bytes aren't all in the file.
pub fn outside_at<R: ArchRecord>(bytes: &[u8], entry: Option<usize>) -> Option<OutOfFile>
    ensures { result ≡ outside_at R.arch_form bytes.now entry }
{
    let index = entry?;
    let Ok(arch) = read_arch::<R>(bytes, index) else {
        return None;
    };
    let end = arch.entry_offset().saturating_add(arch.entry_size());
    if end <= bytes.len() as u64 {
        return None;
    }
    Some(OutOfFile {
        entry: index,
        end,
        len: bytes.len(),
    })
}
