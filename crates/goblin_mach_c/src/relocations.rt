//! The relocations of a section, read in place.

ghost use Rattle.std.specs.Prelude.{◌≡◌, drop};
ghost use Rattle.mach_parts.specs.Relocation.{relocation_item};
ghost use Rattle.goblin_mach_c.specs.Fill.{Fills};
ghost use Rattle.goblin_mach_c.specs.SectionRows.{relocation_row, relocation_rows};

use crate::errors::{GM_OK, code_of};
use crate::images::{ctx_of, gm_image};
use crate::numbered::{Numbered, rows_from};
use crate::rows::fill;
use mach_base::{Endian, Record};
use mach_parts::relocation::{RelocationInfo, SIZEOF_RELOCATION_INFO};

/// A relocation (struct relocation_info). If `code` isn't `GM_OK` it can't be read, and the rest is 0.
#[derive(Clone, Copy)]
#[repr(C)]
pub struct gm_relocation {
    pub address: i32,
    pub info: u32,
    pub code: u32,
}

// The relocations that begin at a place.
#[derive(Clone, Copy)]
struct Relocations<'a> {
    bytes: &'a [u8],
    reloff: u32,
    le: Endian,
}

impl<'a> Numbered for Relocations<'a> {
    type Row = gm_relocation;

    ghost item = { λ s k. relocation_row (relocation_item s.le s.bytes.now s.reloff k) };

    fn at(&self, number: u32) -> gm_relocation {
        let place = self.reloff as usize + number as usize * SIZEOF_RELOCATION_INFO;
        match RelocationInfo::read(self.bytes, place, self.le) {
            Ok(relocation) => gm_relocation {
                address: relocation.r_address,
                info: relocation.r_info,
                code: GM_OK,
            },
            Err(why) => gm_relocation {
                address: 0,
                info: 0,
                code: code_of(&why),
            },
        }
    }
}

/// Writes the relocations of a section from index `first` on, as many as there are and fit, and returns how many.
#[unsafe(no_mangle)]
pub extern "C" fn gmr_relocations(
    bytes: &[u8],
    image: &gm_image,
    reloff: u32,
    nreloc: u32,
    first: usize,
    out: &mut [gm_relocation],
) -> usize
    ensures { Fills (drop first (relocation_rows bytes.now image.now reloff nreloc)) out.old out.new result }
{
    let relocations = Relocations {
        bytes,
        reloff,
        le: ctx_of(image).le,
    };
    let mut rows = rows_from(relocations, first, nreloc);
    fill(&mut rows, out)
}
