//! The entries of a fat file of 32 or 64 bits, in rows of one type.

ghost use Rattle.std.specs.Prelude.{◌≡◌, ◌≢◌, ◌-◌, Some, drop, length, option_map};
ghost use Rattle.std.specs.List.{find};
ghost use Rattle.mach_base.specs.Items.{items_from, read_as};
ghost use Rattle.goblin_mach_c.specs.Codes.{HasErrorWords};
ghost use Rattle.goblin_mach_c.specs.Fill.{Fills};
ghost use Rattle.goblin_mach_c.specs.WideFatRows.{begins_fat_64, fat_count_64, image_code, image_for, image_refusal_words, indexed_rows, is_for};
ghost use Rattle.goblin_mach_c.specs.WideFatRows.{outside_row, reported_count_64, thin_row_by, wide_count, wide_fat_rows, wide_row};
ghost use Rattle.goblin_mach_c.specs.WideFatRows.{wide_row_64, wide_row_at};

use crate::errors::{GM_OK, code_of, gm_error, refuse_no_image, refuse_outside};
use crate::fat::{entry_code, fat_entry_at, gm_fat_entry, reported_of};
use crate::numbered::{Numbered, Numbers, rows_from};
use crate::outside::Outside;
use crate::rows::fill;
use goblin_mach::cputype::CPU_SUBTYPE_MASK;
use goblin_mach::{parse_magic_and_ctx, peek};
use mach_base::{Endian, Result, read_u32};
use mach_parts::fat::SIZEOF_FAT_HEADER;
use mach_parts::{FAT_MAGIC_64, FatArch64, SIZEOF_FAT_ARCH_64, read_arch};

/// An entry of a fat file of 32 or 64 bits, from its record (struct fat_arch, struct fat_arch_64). If `code` isn't `GM_OK`, its
/// bytes aren't all in the file; or the record can't be read, and the rest is 0.
#[derive(Clone, Copy)]
#[repr(C)]
pub struct gm_fat_entry64 {
    pub offset: u64,
    pub size: u64,
    pub cputype: u32,
    pub cpusubtype: u32,
    pub align: u32,
    pub code: u32,
}

// Returns an entry of 32 bits in the wide row.
fn wide(entry: &gm_fat_entry) -> gm_fat_entry64
    ensures { result ≡ wide_row entry.now }
{
    gm_fat_entry64 {
        offset: u64::from(entry.offset),
        size: u64::from(entry.size),
        cputype: entry.cputype,
        cpusubtype: entry.cpusubtype,
        align: entry.align,
        code: entry.code,
    }
}

// Returns a record of 64 bits of a file of `len` bytes as C sees it.
fn row_of_64(len: usize, found: &Result<FatArch64>) -> gm_fat_entry64
    ensures { result ≡ wide_row_64 len (read_as (λ arch. arch) found.now) }
{
    match found {
        Ok(arch) => gm_fat_entry64 {
            offset: arch.offset,
            size: arch.size,
            cputype: arch.cputype,
            cpusubtype: arch.cpusubtype,
            align: arch.align,
            code: entry_code(len, arch.offset, arch.size),
        },
        Err(why) => gm_fat_entry64 {
            offset: 0,
            size: 0,
            cputype: 0,
            cpusubtype: 0,
            align: 0,
            code: code_of(why),
        },
    }
}

// The records of a fat file, of 64 bits or of 32.
#[derive(Clone, Copy)]
struct Records<'a> {
    bytes: &'a [u8],
    is_64: bool,
}

impl<'a> Numbered for Records<'a> {
    type Row = gm_fat_entry64;

    ghost item = { λ s k. wide_row_at s.is_64 s.bytes.now k };

    fn at(&self, number: u32) -> gm_fat_entry64 {
        if self.is_64 {
            let found = read_arch::<FatArch64>(self.bytes, number as usize);
            row_of_64(self.bytes.len(), &found)
        } else {
            wide(&fat_entry_at(self.bytes, number))
        }
    }
}

// Returns the count of entries in the header of a fat file of 64 bits; 0 if the bytes begin with no such header.
fn count_of_64(bytes: &[u8]) -> u32
    ensures { result ≡ fat_count_64 bytes.now }
{
    match peek(bytes, 0) {
        Ok(FAT_MAGIC_64) => read_u32(bytes, 4, Endian::Big).unwrap_or(0),
        _ => 0,
    }
}

// Returns how many records are reported: those of the header's count that lie whole in the bytes, and one more if the count is larger.
fn reported_of_64(bytes: &[u8]) -> u32
    ensures { result ≡ reported_count_64 bytes.now }
{
    let count = count_of_64(bytes);
    let whole = bytes.len().saturating_sub(SIZEOF_FAT_HEADER) / SIZEOF_FAT_ARCH_64;
    if whole < count as usize {
        whole as u32 + 1
    } else {
        count
    }
}

// Whether the bytes begin as a fat file of 64 bits.
fn begins_fat_64(bytes: &[u8]) -> bool
    ensures { result ≡ begins_fat_64 bytes.now }
{
    match peek(bytes, 0) {
        Ok(magic) => magic == FAT_MAGIC_64,
        Err(_) => false,
    }
}

// Returns how many records of a file are reported.
fn count_by(is_64: bool, bytes: &[u8]) -> u32
    ensures { result ≡ wide_count is_64 bytes.now }
{
    if is_64 {
        reported_of_64(bytes)
    } else {
        reported_of(bytes)
    }
}

// Returns the entries of a file from index `first` on.
fn entries_from<'a>(bytes: &'a [u8], first: usize) -> Numbers<Records<'a>>
    ensures { items_from (wide_row_at result.source.is_64 result.source.bytes.now) result.next (result.end - result.next)
        ≡ drop first (wide_fat_rows bytes.now) }
{
    let is_64 = begins_fat_64(bytes);
    let count = count_by(is_64, bytes);
    rows_from(Records { bytes, is_64 }, first, count)
}

/// Writes the entries of a fat file of 32 or 64 bits from index `first` on, as many as there are and fit, and returns how many.
/// There are none if the bytes begin as neither. If its table is cut, the last row is for the first record that isn't whole in
/// the bytes.
#[unsafe(no_mangle)]
pub extern "C" fn gmr_fat_entries64(bytes: &[u8], first: usize, out: &mut [gm_fat_entry64]) -> usize
    ensures { Fills (drop first (wide_fat_rows bytes.now)) out.old out.new result }
{
    let mut rows = entries_from(bytes, first);
    fill(&mut rows, out)
}

// Whether a row is for a cpu. Capabilities aren't compared, and the greatest number stands for any kind.
fn is_for(row: &gm_fat_entry64, cputype: u32, cpusubtype: u32) -> bool
    ensures { result ≡ is_for cputype cpusubtype row.now }
{
    row.cputype == cputype
        && (cpusubtype == u32::MAX
            || row.cpusubtype & !CPU_SUBTYPE_MASK == cpusubtype & !CPU_SUBTYPE_MASK)
}

// Returns the image that is a whole file, if its cpu can be read.
fn thin_entry(bytes: &[u8], le: Endian) -> Option<gm_fat_entry64>
    ensures { result ≡ thin_row_by le bytes.now }
{
    match (read_u32(bytes, 4, le), read_u32(bytes, 8, le)) {
        (Ok(cputype), Ok(cpusubtype)) => Some(gm_fat_entry64 {
            offset: 0,
            size: bytes.len() as u64,
            cputype,
            cpusubtype,
            align: 0,
            code: GM_OK,
        }),
        _ => None,
    }
}

// Returns the first entry of a fat file that is for a cpu, with its index.
fn find_entry(bytes: &[u8], cputype: u32, cpusubtype: u32) -> Option<(u32, gm_fat_entry64)>
    ensures { result ≡ find (λ entry. is_for cputype cpusubtype entry.1) (indexed_rows bytes.now) }
{
    let is_64 = begins_fat_64(bytes);
    let count = count_by(is_64, bytes);
    let records = Records { bytes, is_64 };
    'entries: for index in 0..count {
        let row = records.at(index);
        if is_for(&row, cputype, cpusubtype) {
            return Some((index, row));
        }
    }
    None
}

// Returns the first image of a file that is for a cpu, with its index.
fn find_image(bytes: &[u8], cputype: u32, cpusubtype: u32) -> Option<(u32, gm_fat_entry64)>
    ensures { result ≡ image_for cputype cpusubtype bytes.now }
{
    match parse_magic_and_ctx(bytes, 0) {
        Ok((_, Some(ctx))) => match thin_entry(bytes, ctx.le) {
            Some(row) if is_for(&row, cputype, cpusubtype) => Some((0, row)),
            _ => None,
        },
        Ok((_, None)) => find_entry(bytes, cputype, cpusubtype),
        Err(_) => None,
    }
}

// Returns an entry that isn't in a file of `len` bytes, by its index.
fn outside_row(len: usize, index: u32, row: &gm_fat_entry64) -> Outside
    ensures { result ≡ outside_row len index row.now }
{
    Outside {
        index,
        end: row.offset.saturating_add(row.size),
        len,
    }
}

/// Writes the one image for a cpu in a fat file of 32 or 64 bits, or in a file that is an image, to `found`. The first counts.
/// It is refused with `GM_SHORT` if that entry isn't all in the file, and with `GM_NO_IMAGE` if there is none. A refused call
/// leaves `found` unchanged.
#[unsafe(no_mangle)]
pub extern "C" fn gmr_image_for(
    bytes: &[u8],
    cputype: u32,
    cpusubtype: u32,
    found: &mut gm_fat_entry64,
    error: &mut gm_error,
) -> u32
    ensures code { result ≡ image_code (image_for cputype cpusubtype bytes.now) }
    ensures found { result ≡ 0 → option_map (λ entry. entry.1) (image_for cputype cpusubtype bytes.now) ≡ Some found.new }
    ensures kept { result ≢ 0 → found.new ≡ found.old }
    ensures reported { result ≢ 0 → error.new.code ≡ result }
    ensures words { result ≢ 0 → HasErrorWords (image_refusal_words (length bytes.now) (image_for cputype cpusubtype bytes.now)) error.new.text }
    ensures quiet { result ≡ 0 → error.new ≡ error.old }
{
    let Some((index, row)) = find_image(bytes, cputype, cpusubtype) else {
        return refuse_no_image(error);
    };
    if row.code != GM_OK {
        let outside = outside_row(bytes.len(), index, &row);
        return refuse_outside(row.code, &outside, error);
    }
    *found = row;
    GM_OK
}
