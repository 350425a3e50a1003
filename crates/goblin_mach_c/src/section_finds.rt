//! The section that holds an address, and the section of a symbol's number.

ghost use Rattle.std.specs.Prelude.{◌≡◌, ◌≢◌, ◌⊎◌};
ghost use Rattle.goblin_mach.specs.OpenImage.{segments_view};
ghost use Rattle.goblin_mach_c.specs.Codes.{IsRefusalCode};
ghost use Rattle.goblin_mach_c.specs.Opened.{FaultIn, lossy_mode};
ghost use Rattle.goblin_mach_c.specs.SectionFinds.{FindsSectionAt, FindsSectionNamed, FindsSectionOf, NameFaultIn, SectionFaultIn, found_section_row};

use crate::errors::{GM_OK, gm_error, refuse};
use crate::images::gm_image;
use crate::open::open;
use goblin_mach::MachO;
use goblin_mach::laws::numbered_section_of_image;
use mach_base::Error;
use mach_parts::segment::NumberedSection;
use std::alloc::Global;

/// A section that was looked up, with its whole record: at index `index` of segment `segment`. `number` is that of `gmr_section_of`.
/// If `is_found` is 0 there is none, and everything is 0.
#[derive(Clone, Copy)]
#[repr(C)]
pub struct gm_found_section {
    pub name: [u8; 16],
    pub segment_name: [u8; 16],
    pub addr: u64,
    pub size: u64,
    pub segment: usize,
    pub number: usize,
    pub index: u32,
    pub offset: u32,
    pub align: u32,
    pub reloff: u32,
    pub nreloc: u32,
    pub flags: u32,
    pub reserved1: u32,
    pub reserved2: u32,
    pub is_found: u32,
    pub reserved: u32,
}

// Returns a section of an image that was looked up, as C sees it.
fn row_of(image: &MachO<'_, Global>, found: &Option<NumberedSection>) -> gm_found_section
    ensures { result ≡ found_section_row (segments_view image.now) found.now }
{
    match found {
        Some(it) => gm_found_section {
            name: it.section.sectname,
            segment_name: it.section.segname,
            addr: it.section.addr,
            size: it.section.size,
            segment: it.segment,
            number: image.section_number(it),
            index: it.number,
            offset: it.section.offset,
            align: it.section.align,
            reloff: it.section.reloff,
            nreloc: it.section.nreloc,
            flags: it.section.flags,
            reserved1: it.section.reserved1,
            reserved2: it.section.reserved2,
            is_found: 1,
            reserved: 0,
        },
        None => gm_found_section {
            name: [0; 16],
            segment_name: [0; 16],
            addr: 0,
            size: 0,
            segment: 0,
            number: 0,
            index: 0,
            offset: 0,
            align: 0,
            reloff: 0,
            nreloc: 0,
            flags: 0,
            reserved1: 0,
            reserved2: 0,
            is_found: 0,
            reserved: 0,
        },
    }
}

/// Writes the first section of an image that holds an address to `section`. Sections that aren't in the bytes are skipped. It
/// opens the image again, and allocates memory for its commands while it runs. A refused call leaves `section` unchanged.
#[unsafe(no_mangle)]
pub extern "C" fn gmr_section_at(
    alloc: Global,
    bytes: &[u8],
    image: &gm_image,
    address: u64,
    section: &mut gm_found_section,
    error: &mut gm_error,
) -> u32
    ensures found { result ≡ 0 → FindsSectionAt bytes.now image.now.offset address section.new }
    ensures refused { result ≢ 0 → IsRefusalCode (FaultIn (lossy_mode image.now.is_lossy) bytes.now image.now.offset) result }
    ensures kept { result ≢ 0 → section.new ≡ section.old }
    ensures reported { result ≢ 0 → error.new.code ≡ result }
    ensures quiet { result ≡ 0 → error.new ≡ error.old }
{
    match open(alloc, bytes, image.offset, image.is_lossy != 0) {
        Ok(found) => {
            *section = row_of(&found, &found.section_at(address));
            GM_OK
        }
        Err(why) => refuse(&why, error),
    }
}

/// Writes the section of a symbol's section number to `section`. The number counts from 1 over all segments. It opens the image
/// again, and allocates memory for its commands while it runs. It is also refused if the section isn't in the bytes. A refused
/// call leaves `section` unchanged.
#[unsafe(no_mangle)]
pub extern "C" fn gmr_section_of(
    alloc: Global,
    bytes: &[u8],
    image: &gm_image,
    number: usize,
    section: &mut gm_found_section,
    error: &mut gm_error,
) -> u32
    ensures found { result ≡ 0 → FindsSectionOf bytes.now image.now.offset number section.new }
    ensures refused { result ≢ 0 → IsRefusalCode (SectionFaultIn bytes.now image.now number) result }
    ensures kept { result ≢ 0 → section.new ≡ section.old }
    ensures reported { result ≢ 0 → error.new.code ≡ result }
    ensures quiet { result ≡ 0 → error.new ≡ error.old }
{
    match open(alloc, bytes, image.offset, image.is_lossy != 0) {
        Ok(found) => {
            numbered_section_of_image(&found);
            match found.section_of(number) {
                Ok(here) => {
                    *section = row_of(&found, &here);
                    GM_OK
                }
                Err(why) => refuse(&why, error),
            }
        }
        Err(why) => refuse(&why, error),
    }
}

/// Writes the first section with a name, in a segment of that name, to `section`, by the names that the section has itself.
/// Sections that aren't in the bytes are skipped. It opens the image again, and allocates memory for its commands while it runs.
/// It is also refused if a name isn't UTF-8. A refused call leaves `section` unchanged.
#[unsafe(no_mangle)]
pub extern "C" fn gmr_section_named(
    alloc: Global,
    bytes: &[u8],
    image: &gm_image,
    segment: &[u8],
    name: &[u8],
    section: &mut gm_found_section,
    error: &mut gm_error,
) -> u32
    ensures found { result ≡ 0 → FindsSectionNamed bytes.now image.now.offset segment.now name.now section.new }
    ensures refused { result ≢ 0 → IsRefusalCode (λ f. NameFaultIn bytes.now image.now segment.now f ⊎ NameFaultIn bytes.now image.now name.now f) result }
    ensures kept { result ≢ 0 → section.new ≡ section.old }
    ensures reported { result ≢ 0 → error.new.code ≡ result }
    ensures quiet { result ≡ 0 → error.new ≡ error.old }
{
    let Ok(segment) = str::from_utf8(segment) else {
        return refuse(&Error::Malformed("a name is not UTF-8"), error);
    };
    let Ok(name) = str::from_utf8(name) else {
        return refuse(&Error::Malformed("a name is not UTF-8"), error);
    };
    match open(alloc, bytes, image.offset, image.is_lossy != 0) {
        Ok(found) => {
            *section = row_of(&found, &found.section_named(segment, name));
            GM_OK
        }
        Err(why) => refuse(&why, error),
    }
}
