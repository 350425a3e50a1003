//! The data in an image's code, read in place.

ghost use Rattle.std.specs.Prelude.{◌≡◌, drop};
ghost use Rattle.mach_load.specs.DataInCode.{data_in_code_item};
ghost use Rattle.mach_load.specs.TablesLeft.{data_in_code_read};
ghost use Rattle.goblin_mach_c.specs.Fill.{Fills};
ghost use Rattle.goblin_mach_c.specs.TableRows.{data_in_code_row, data_in_code_rows};

use crate::errors::{GM_OK, code_of};
use crate::images::{ctx_of, gm_image};
use crate::last::last_value;
use crate::numbered::{Numbered, rows_from};
use crate::rows::fill;
use goblin_mach::table_places::DataPlaces;
use mach_base::{Endian, Record, Result};
use mach_records::DataInCodeEntry;

/// Data in code (struct data_in_code_entry): `length` bytes, `offset` bytes after the image's first byte in memory. If `code`
/// isn't `GM_OK` the record can't be read, and the rest is 0.
#[derive(Clone, Copy)]
#[repr(C)]
pub struct gm_data_in_code_entry {
    pub offset: u32,
    pub length: u16,
    pub kind: u16,
    pub code: u32,
}

// The entries from a place on.
#[derive(Clone, Copy)]
struct Entries<'a> {
    bytes: &'a [u8],
    start: u32,
    le: Endian,
}

// Returns an entry, or why it can't be read.
fn row_of(found: &Result<DataInCodeEntry>) -> gm_data_in_code_entry
    ensures { result ≡ data_in_code_row (data_in_code_read found.now) }
{
    match found {
        Ok(entry) => gm_data_in_code_entry {
            offset: entry.offset,
            length: entry.length,
            kind: entry.kind,
            code: GM_OK,
        },
        Err(why) => gm_data_in_code_entry {
            offset: 0,
            length: 0,
            kind: 0,
            code: code_of(why),
        },
    }
}

impl<'a> Numbered for Entries<'a> {
    type Row = gm_data_in_code_entry;

    ghost item = { λ s k. data_in_code_row (data_in_code_item s.le s.bytes.now s.start k) };

    fn at(&self, number: u32) -> gm_data_in_code_entry {
        let place = self.start as usize + number as usize * DataInCodeEntry::SIZE;
        row_of(&DataInCodeEntry::read(self.bytes, place, self.le))
    }
}

/// Writes the entries for data in an image's code from index `first` on, as many as there are and fit, and returns how many.
#[unsafe(no_mangle)]
pub extern "C" fn gmr_data_in_code(
    bytes: &[u8],
    image: &gm_image,
    first: usize,
    out: &mut [gm_data_in_code_entry],
) -> usize
    ensures { Fills (drop first (data_in_code_rows bytes.now image.now)) out.old out.new result }
{
    let Some(command) = last_value(bytes, image, &DataPlaces) else {
        return 0;
    };
    let entries = Entries {
        bytes,
        start: command.dataoff,
        le: ctx_of(image).le,
    };
    let mut rows = rows_from(entries, first, command.datasize / 8);
    fill(&mut rows, out)
}
