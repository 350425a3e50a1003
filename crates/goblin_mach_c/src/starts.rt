//! The start addresses of an image's functions.

ghost use Rattle.std.specs.Prelude.{◌≡◌, ◌≢◌, ◌<◌, ◌+◌, ℕ, [], Err, List, Ok, Option, Result, Some, length, take};
ghost use Rattle.mach_base.specs.Answer.{Reads};
ghost use Rattle.mach_base.specs.Fault.{Fault, fault_of};
ghost use Rattle.mach_base.specs.Leb128.{uleb_at};
ghost use Rattle.goblin_mach.specs.Fixups.{base_view};
ghost use Rattle.goblin_mach.specs.OpenImage.{bytes_view, commands_view};
ghost use Rattle.goblin_mach.specs.Tables.{starts_place_in};
ghost use Rattle.mach_load.specs.FunctionStarts.{function_start_at, starts_after};
ghost use Rattle.goblin_mach_c.specs.Codes.{IsRefusalCode};
ghost use Rattle.goblin_mach_c.specs.Opened.{FaultIn, lossy_mode};
ghost use Rattle.goblin_mach_c.specs.StartsAfter.{AreStartRowsOver, AreStartsAfterCursor, WritesStarts, function_start_row, start_rows_left};
ghost use Rattle.goblin_mach_c.specs.StartsAfter.{starts_source};

use crate::errors::{GM_OK, code_of, gm_error, refuse, refuse_no_rows};
use crate::images::gm_image;
use crate::items::{ItemRows, fill_items};
use crate::open::open;
use goblin_mach::MachO;
use goblin_mach::fixups::last_readable;
use goblin_mach::table_places::StartPlaces;
use mach_base::{Error, Result, quick_uleb, uleb};
use mach_records::LinkeditDataCommand;
use std::alloc::Global;

/// The address of a function, before sliding. If `code` isn't `GM_OK` it can't be read, none follows it, and it is 0.
#[derive(Clone, Copy)]
#[repr(C)]
pub struct gm_function_start {
    pub address: u64,
    pub code: u32,
    pub reserved: u32,
}

/// The position in the functions of an image: only numbers, which belong to the bytes and the image. All zero is the start.
#[derive(Clone, Copy)]
#[repr(C)]
pub struct gm_start_cursor {
    /// The offset of the next number, and the address that it counts from.
    pub place: usize,
    pub address: u64,
    /// 0 at the start, 1 among the numbers; any other number is the end.
    pub stage: u32,
    pub reserved: u32,
}

/// The functions of an image that are left: numbers from one place up to another. The first counts from an address.
#[derive(Clone, Copy)]
pub struct StartRows<'a> {
    // The bytes before the end of the numbers.
    bytes: &'a [u8],
    upto: usize,
    place: usize,
    address: u64,
}

// Returns the number at a place, and the place after it.
#[inline(always)]
fn number_at(bytes: &[u8], place: usize) -> Result<(u64, usize)>
    ensures { Reads (λ found. found) result (uleb_at bytes.now place) }
{
    match quick_uleb(bytes, place) {
        Some(found) => Ok(found),
        None => uleb(bytes, place),
    }
}

// Returns the function after an address, by the number at a place, and the place after that; none after a 0.
#[tactic(auto, unfolding(mach_load::specs::FunctionStarts::function_start_at))]
#[inline(always)]
fn start_at(bytes: &[u8], place: usize, address: u64) -> Result<Option<(u64, usize)>>
    ensures { Reads (λ start. start) result (function_start_at bytes.now place address) }
{
    let (number, next) = number_at(bytes, place)?;
    if number == 0 {
        return Ok(None);
    }
    let Some(start) = address.checked_add(number) else {
        return Err(Error::Malformed("a function's address does not fit in 64 bits"));
    };
    Ok(Some((start, next)))
}

// Returns an address as C sees it.
fn row_of(address: u64) -> gm_function_start
    ensures { result ≡ function_start_row (Ok address) }
{
    gm_function_start {
        address,
        code: GM_OK,
        reserved: 0,
    }
}

// Returns the row that says why no further functions can be read.
fn refused_row(why: &Error) -> gm_function_start
    ensures { result ≡ function_start_row (Err (fault_of why.now)) }
{
    gm_function_start {
        address: 0,
        code: code_of(why),
        reserved: 0,
    }
}

impl<'a> ItemRows for StartRows<'a> {
    type Row = gm_function_start;

    ghost Source = { List ℕ × ℕ };

    ghost Item = { Result ℕ Fault };

    ghost left = { start_rows_left };

    ghost IsOver = { AreStartRowsOver };

    ghost Says = { λ _ item row. row ≡ function_start_row item };

    #[inline(always)]
    fn next(&mut self) -> Option<gm_function_start> {
        if self.place >= self.upto {
            return None;
        }
        match start_at(self.bytes, self.place, self.address) {
            Ok(Some((start, next))) => {
                self.place = next;
                self.address = start;
                Some(row_of(start))
            }
            Ok(None) => {
                self.place = self.upto;
                None
            }
            Err(why) => {
                self.place = self.upto;
                Some(refused_row(&why))
            }
        }
    }
}

impl<'a> StartRows<'a> {
    // None.
    fn none() -> Self
        ensures over { AreStartRowsOver ([], 0) result }
        ensures left { start_rows_left result ≡ [] }
    {
        StartRows {
            bytes: &[],
            upto: 0,
            place: 0,
            address: 0,
        }
    }

    // Returns the functions of the numbers from a place on that a command places; the first counts from an address.
    fn placed(bytes: &'a [u8], command: &LinkeditDataCommand, place: usize, address: u64) -> Self
        ensures over { AreStartRowsOver (starts_source bytes.now (Some (command.now.dataoff, command.now.datasize))) result }
        ensures left { start_rows_left result ≡ starts_after (take (command.now.dataoff + command.now.datasize) bytes.now)
            (command.now.dataoff + command.now.datasize) place address }
    {
        let upto = command.dataoff as usize + command.datasize as usize;
        StartRows {
            bytes: &bytes[..upto.min(bytes.len())],
            upto,
            place,
            address,
        }
    }

    // Returns none, after the numbers that a command places.
    fn past(bytes: &'a [u8], command: &LinkeditDataCommand) -> Self
        ensures over { AreStartRowsOver (starts_source bytes.now (Some (command.now.dataoff, command.now.datasize))) result }
        ensures left { start_rows_left result ≡ [] }
    {
        let upto = command.dataoff as usize + command.datasize as usize;
        StartRows {
            bytes: &bytes[..upto.min(bytes.len())],
            upto,
            place: upto,
            address: 0,
        }
    }

    // Returns the functions after a cursor.
    fn following(image: &MachO<'a, Global>, cursor: &gm_start_cursor) -> Self
        ensures items { AreStartsAfterCursor cursor.now (bytes_view image.now) (starts_place_in (commands_view image.now)) (base_view image.now)
            (start_rows_left result) }
        ensures over { AreStartRowsOver (starts_source (bytes_view image.now) (starts_place_in (commands_view image.now))) result }
    {
        let Some(command) = last_readable(&StartPlaces, image.load_commands.as_slice()) else {
            return StartRows::none();
        };
        let bytes = image.bytes();
        match cursor.stage {
            0 => StartRows::placed(bytes, &command, command.dataoff as usize, image.base()),
            1 => StartRows::placed(bytes, &command, cursor.place, cursor.address),
            _ => StartRows::past(bytes, &command),
        }
    }

    // Returns a cursor before those that are left.
    fn cursor(&self) -> gm_start_cursor
        ensures items { (bytes : List ℕ) (range : Option (ℕ × ℕ)) (base : ℕ) → AreStartRowsOver (starts_source bytes range) self.now
            → AreStartsAfterCursor result bytes range base (start_rows_left self.now) }
        ensures reserved { result.reserved ≡ 0 }
    {
        gm_start_cursor {
            place: self.place,
            address: self.address,
            stage: 1,
            reserved: 0,
        }
    }
}

/// Writes the start addresses of an image's functions after a cursor, as many as there are and fit; writes how many to `count`,
/// and moves the cursor past them. The last row may be the error that ends them. It opens the image again, and allocates memory
/// for its commands while it runs. A refused call leaves the array, the count and the cursor unchanged.
#[unsafe(no_mangle)]
pub extern "C" fn gmr_function_starts(
    alloc: Global,
    bytes: &[u8],
    image: &gm_image,
    cursor: &mut gm_start_cursor,
    out: &mut [gm_function_start],
    count: &mut usize,
    error: &mut gm_error,
) -> u32
    ensures written { result ≡ 0 → WritesStarts bytes.now image.now.offset cursor.old cursor.new out.old out.new count.new }
    ensures refused { result ≢ 0 → 0 < length out.old → IsRefusalCode (FaultIn (lossy_mode image.now.is_lossy) bytes.now image.now.offset) result }
    ensures no_rows { length out.old ≡ 0 → result ≡ 6 }
    ensures array { result ≢ 0 → out.new ≡ out.old }
    ensures count { result ≢ 0 → count.new ≡ count.old }
    ensures cursor { result ≢ 0 → cursor.new ≡ cursor.old }
    ensures reserved { result ≡ 0 → cursor.new.reserved ≡ 0 }
    ensures reported { result ≢ 0 → error.new.code ≡ result }
    ensures quiet { result ≡ 0 → error.new ≡ error.old }
{
    if out.is_empty() {
        return refuse_no_rows(error);
    }
    match open(alloc, bytes, image.offset, image.is_lossy != 0) {
        Ok(found) => {
            let mut rows = StartRows::following(&found, cursor);
            *count = fill_items(&mut rows, out);
            *cursor = rows.cursor();
            GM_OK
        }
        Err(why) => refuse(&why, error),
    }
}
