//! The entries of a fat file, read in place.

ghost use Rattle.std.specs.Prelude.{◌≡◌, drop, length};
ghost use Rattle.goblin_mach.specs.FatFile.{arch_at, arch_read};
ghost use Rattle.goblin_mach_c.specs.Fill.{Fills};
ghost use Rattle.goblin_mach_c.specs.FatRows.{entry_code, fat_count, fat_row, fat_rows, reported_count};

use crate::errors::{GM_OK, GM_SHORT, code_of};
use crate::numbered::{Numbered, Numbers, rows_from};
use crate::rows::fill;
use goblin_mach::peek;
use mach_base::Result;
use mach_parts::fat::{FAT_MAGIC, FatArch, FatHeader, SIZEOF_FAT_ARCH, SIZEOF_FAT_HEADER};

/// An entry of a fat file, from its record (struct fat_arch). If `code` isn't `GM_OK`, its bytes aren't all in the file; or the
/// record can't be read, and the rest is 0.
#[derive(Clone, Copy)]
#[repr(C)]
pub struct gm_fat_entry {
    pub cputype: u32,
    pub cpusubtype: u32,
    pub offset: u32,
    pub size: u32,
    pub align: u32,
    pub code: u32,
}

/// Returns the code of an entry of `size` bytes at `offset`, in a file of `len` bytes: `GM_SHORT` if they aren't all in it.
pub fn entry_code(len: usize, offset: u64, size: u64) -> u32
    ensures { result ≡ entry_code len offset size }
{
    match offset.checked_add(size) {
        Some(end) if end <= len as u64 => GM_OK,
        _ => GM_SHORT,
    }
}

// Returns a record of a file of `len` bytes as C sees it.
fn row_of(len: usize, found: &Result<FatArch>) -> gm_fat_entry
    ensures { result ≡ fat_row len (arch_read found.now) }
{
    match found {
        Ok(arch) => gm_fat_entry {
            cputype: arch.cputype,
            cpusubtype: arch.cpusubtype,
            offset: arch.offset,
            size: arch.size,
            align: arch.align,
            code: entry_code(len, u64::from(arch.offset), u64::from(arch.size)),
        },
        Err(why) => gm_fat_entry {
            cputype: 0,
            cpusubtype: 0,
            offset: 0,
            size: 0,
            align: 0,
            code: code_of(why),
        },
    }
}

/// Returns the entry at an index, from its record.
pub fn fat_entry_at(bytes: &[u8], number: u32) -> gm_fat_entry
    ensures { result ≡ fat_row (length bytes.now) (arch_at bytes.now number) }
{
    let place = SIZEOF_FAT_HEADER + number as usize * SIZEOF_FAT_ARCH;
    row_of(bytes.len(), &FatArch::parse(bytes, place))
}

// The records of a fat file.
#[derive(Clone, Copy)]
struct Records<'a> {
    bytes: &'a [u8],
}

impl<'a> Numbered for Records<'a> {
    type Row = gm_fat_entry;

    ghost item = { λ s k. fat_row (length s.bytes.now) (arch_at s.bytes.now k) };

    fn at(&self, number: u32) -> gm_fat_entry {
        fat_entry_at(self.bytes, number)
    }
}

// Returns the count of entries in the header of a fat file; 0 if the bytes begin with no such header.
fn count_of(bytes: &[u8]) -> u32
    ensures { result ≡ fat_count bytes.now }
{
    match peek(bytes, 0) {
        Ok(FAT_MAGIC) => match FatHeader::parse(bytes) {
            Ok(header) => header.nfat_arch,
            Err(_) => 0,
        },
        _ => 0,
    }
}

/// Returns how many records are reported: those of the header's count that lie whole in the bytes, and one more if the count is larger.
pub fn reported_of(bytes: &[u8]) -> u32
    ensures { result ≡ reported_count bytes.now }
{
    let count = count_of(bytes);
    let whole = bytes.len().saturating_sub(SIZEOF_FAT_HEADER) / SIZEOF_FAT_ARCH;
    if whole < count as usize {
        whole as u32 + 1
    } else {
        count
    }
}

/// Writes the entries of a fat file from index `first` on, as many as there are and fit, and returns how many. There are none if
/// the bytes don't begin as a fat file. If its table is cut, the last row is for the first record that isn't whole in the bytes.
#[unsafe(no_mangle)]
pub extern "C" fn gmr_fat_entries(bytes: &[u8], first: usize, out: &mut [gm_fat_entry]) -> usize
    ensures { Fills (drop first (fat_rows bytes.now)) out.old out.new result }
{
    let mut rows = rows_from(Records { bytes }, first, reported_of(bytes));
    fill(&mut rows, out)
}
