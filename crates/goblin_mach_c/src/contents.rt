//! What sections hold: their bytes, strings, and the functions that dyld calls before an image's main function.

ghost use Rattle.std.specs.Prelude.{◌≡◌, ◌≢◌, ◌<◌, drop, length, map};
ghost use Rattle.mach_base.specs.Answer.{Reads};
ghost use Rattle.goblin_mach.specs.Initializers.{initializers_left};
ghost use Rattle.goblin_mach.specs.Strings.{strings_from, strings_left};
ghost use Rattle.goblin_mach_c.specs.ArchiveRows.{IsCodeOf};
ghost use Rattle.goblin_mach_c.specs.Codes.{IsRefusalCode};
ghost use Rattle.goblin_mach_c.specs.ContentRows.{InitializersFaultIn, WritesInitializers, initializer_row, section_span, string_span};
ghost use Rattle.goblin_mach_c.specs.Fill.{Fills};

use crate::errors::{GM_OK, code_of, gm_error, refuse, refuse_no_rows};
use crate::images::gm_image;
use crate::open::open;
use crate::rows::{Rows, fill, skip};
use goblin_mach::laws::initializers_of_image;
use goblin_mach::{InitializerIterator, StringIterator};
use mach_base::{Result, bytes_at};
use mach_parts::segment::is_of_zeros;
use std::alloc::Global;

/// Some of the bytes: `len` of them at `place`.
#[derive(Clone, Copy)]
#[repr(C)]
pub struct gm_span {
    pub place: usize,
    pub len: usize,
}

/// A function that dyld calls before the main function, at `target`. The slot at the address `slot` names it, in the section at index
/// `section_index` of the segment at index `segment`. If `code` isn't `GM_OK` the bytes of a section can't be read, and the rest is 0.
#[derive(Clone, Copy)]
#[repr(C)]
pub struct gm_initializer {
    pub slot: u64,
    pub target: u64,
    pub segment: usize,
    pub section_index: u32,
    pub code: u32,
}

// Returns the place of the bytes of a section, and how many they are; both are 0 if it is filled with zeros.
fn section_span(bytes: &[u8], offset: u32, size: u64, flags: u32) -> Result<gm_span>
    ensures { Reads (λ found. found) result (section_span bytes.now offset size flags) }
{
    if is_of_zeros(flags) {
        return Ok(gm_span { place: 0, len: 0 });
    }
    let place = offset as usize;
    let len = bytes_at(bytes, place, size as usize)?.len();
    Ok(gm_span { place, len })
}

/// Writes the place of the bytes of a section to `found`, and how many they are, by three numbers of its record. It is refused if
/// they don't all lie in the bytes; then `found` is unchanged.
#[unsafe(no_mangle)]
pub extern "C" fn gmr_section_data(
    bytes: &[u8],
    offset: u32,
    size: u64,
    flags: u32,
    found: &mut gm_span,
    error: &mut gm_error,
) -> u32
    ensures found { result ≡ 0 → section_span bytes.now offset size flags ≡ Ok found.new }
    ensures refused { result ≢ 0 → IsCodeOf (section_span bytes.now offset size flags) result }
    ensures kept { result ≢ 0 → found.new ≡ found.old }
    ensures reported { result ≢ 0 → error.new.code ≡ result }
    ensures quiet { result ≡ 0 → error.new ≡ error.old }
{
    match section_span(bytes, offset, size, flags) {
        Ok(there) => {
            *found = there;
            GM_OK
        }
        Err(why) => refuse(&why, error),
    }
}

impl<'a> Rows for StringIterator<'a> {
    type Row = gm_span;

    ghost left = { λ it. map string_span (strings_left it) };

    fn next(&mut self) -> Option<gm_span> {
        let found = Iterator::next(self)?;
        let (place, len) = (found.place, found.bytes.len());
        Some(gm_span { place, len })
    }
}

/// Writes the strings of some bytes from index `first` on, as many as there are and fit, and returns how many. It visits the strings before.
#[unsafe(no_mangle)]
pub extern "C" fn gmr_strings(bytes: &[u8], first: usize, out: &mut [gm_span]) -> usize
    ensures { Fills (drop first (map string_span (strings_from 0 bytes.now))) out.old out.new result }
{
    let mut rows = StringIterator::over(bytes);
    skip(&mut rows, first);
    fill(&mut rows, out)
}

impl<'a, 'b> Rows for InitializerIterator<'a, 'b> {
    type Row = gm_initializer;

    ghost left = { λ it. map initializer_row (initializers_left it) };

    fn next(&mut self) -> Option<gm_initializer> {
        match Iterator::next(self)? {
            Ok(it) => Some(gm_initializer {
                slot: it.slot,
                target: it.target,
                segment: it.section.segment,
                section_index: it.section.number,
                code: GM_OK,
            }),
            Err(why) => Some(gm_initializer {
                slot: 0,
                target: 0,
                segment: 0,
                section_index: 0,
                code: code_of(&why),
            }),
        }
    }
}

/// Writes the initializers of an image from index `first` on, as `gmr_slots` writes its slots. It is also refused if the image's first fixup
/// can't be read, which says how pointers are stored.
#[unsafe(no_mangle)]
pub extern "C" fn gmr_initializers(
    alloc: Global,
    bytes: &[u8],
    image: &gm_image,
    first: usize,
    out: &mut [gm_initializer],
    count: &mut usize,
    error: &mut gm_error,
) -> u32
    ensures written { result ≡ 0 → WritesInitializers bytes.now image.now.offset first out.old out.new count.new }
    ensures refused { result ≢ 0 → 0 < length out.old → IsRefusalCode (InitializersFaultIn bytes.now image.now) result }
    ensures no_rows { length out.old ≡ 0 → result ≡ 6 }
    ensures array { result ≢ 0 → out.new ≡ out.old }
    ensures count { result ≢ 0 → count.new ≡ count.old }
    ensures reported { result ≢ 0 → error.new.code ≡ result }
    ensures quiet { result ≡ 0 → error.new ≡ error.old }
{
    if out.is_empty() {
        return refuse_no_rows(error);
    }
    match open(alloc, bytes, image.offset, image.is_lossy != 0) {
        Ok(found) => {
            initializers_of_image(&found);
            match found.initializers() {
                Ok(mut rows) => {
                    skip(&mut rows, first);
                    *count = fill(&mut rows, out);
                    GM_OK
                }
                Err(why) => refuse(&why, error),
            }
        }
        Err(why) => refuse(&why, error),
    }
}
