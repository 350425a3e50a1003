//! All symbols of a name.

ghost use Rattle.std.specs.Prelude.{◌≡◌, ◌≢◌, ◌<◌, length, map};
ghost use Rattle.goblin_mach.specs.NamedLeft.{named_left};
ghost use Rattle.goblin_mach_c.specs.Codes.{IsRefusalCode};
ghost use Rattle.goblin_mach_c.specs.SectionFinds.{NameFaultIn};
ghost use Rattle.goblin_mach_c.specs.SymbolFinds.{WritesSymbolsNamed, named_symbol_row};

use crate::errors::{GM_OK, gm_error, refuse, refuse_no_rows};
use crate::images::gm_image;
use crate::open::open;
use crate::rows::{Rows, fill, skip};
use crate::symbol_finds::{gm_found_symbol, row_of};
use goblin_mach::NamedSymbols;
use goblin_mach::laws::named_symbols_of_image;
use mach_base::Error;
use std::alloc::Global;

/// The symbols of a name that are left.
#[derive(Drop)]
struct NamedRows<'a, 'b> {
    bytes: &'a [u8],
    image: gm_image,
    symbols: NamedSymbols<'a, 'b>,
}

impl<'a, 'b> Rows for NamedRows<'a, 'b> {
    type Row = gm_found_symbol;

    ghost left = { λ it. map (named_symbol_row it.bytes.now it.image) (named_left it.symbols) };

    fn next(&mut self) -> Option<gm_found_symbol> {
        let (index, _) = self.symbols.next()?;
        Some(row_of(self.bytes, &self.image, Some((index, 0))))
    }
}

/// Writes the symbols of an image with a name from index `first` of these on, debugging entries among them, as many as there are
/// and fit, and how many to `count`. Symbols whose names can't be read are skipped. It opens the image again, allocates memory for
/// its commands while it runs, and visits the symbols before. It is also refused if the name isn't UTF-8. A refused call leaves
/// the array and the count unchanged.
#[unsafe(no_mangle)]
pub extern "C" fn gmr_symbols_named(
    alloc: Global,
    bytes: &[u8],
    image: &gm_image,
    name: &[u8],
    first: usize,
    out: &mut [gm_found_symbol],
    count: &mut usize,
    error: &mut gm_error,
) -> u32
    ensures written { result ≡ 0 → WritesSymbolsNamed bytes.now image.now name.now first out.old out.new count.new }
    ensures refused { result ≢ 0 → 0 < length out.old → IsRefusalCode (NameFaultIn bytes.now image.now name.now) result }
    ensures no_rows { length out.old ≡ 0 → result ≡ 6 }
    ensures array { result ≢ 0 → out.new ≡ out.old }
    ensures count { result ≢ 0 → count.new ≡ count.old }
    ensures reported { result ≢ 0 → error.new.code ≡ result }
    ensures quiet { result ≡ 0 → error.new ≡ error.old }
{
    if out.is_empty() {
        return refuse_no_rows(error);
    }
    let Ok(name) = str::from_utf8(name) else {
        return refuse(&Error::Malformed("a name is not UTF-8"), error);
    };
    match open(alloc, bytes, image.offset, image.is_lossy != 0) {
        Ok(found) => {
            named_symbols_of_image(&found);
            let mut rows = NamedRows {
                bytes,
                image: *image,
                symbols: found.symbols_named(name),
            };
            skip(&mut rows, first);
            *count = fill(&mut rows, out);
            GM_OK
        }
        Err(why) => refuse(&why, error),
    }
}
