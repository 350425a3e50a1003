//! The names of an image as a library, read in place.

ghost use Rattle.std.specs.Prelude.{◌≡◌, drop};
ghost use Rattle.goblin_mach_c.specs.Fill.{Fills};
ghost use Rattle.goblin_mach_c.specs.PartRows.{id_row_by, id_rows};

use crate::commands::Commands;
use crate::images::gm_image;
use crate::picked::{Pick, Picked};
use crate::rows::{fill, skip};
use mach_base::read_text;
use mach_load::{CommandVariant, LoadCommand};

/// A name of an image as a library (`LC_ID_DYLIB`): `name_len` bytes at `name`.
#[derive(Clone, Copy)]
#[repr(C)]
pub struct gm_id {
    pub name: usize,
    pub name_len: usize,
}

// The names in some bytes.
#[derive(Clone, Copy)]
struct Ids<'a> {
    bytes: &'a [u8],
}

impl<'a> Pick for Ids<'a> {
    type Row = gm_id;

    ghost picked = { λ s c. id_row_by s.bytes.now c };

    #[inline(always)]
    fn pick(&self, command: &LoadCommand) -> Option<gm_id> {
        let CommandVariant::IdDylib(c) = &command.command else {
            return None;
        };
        let name = command.offset.saturating_add(c.dylib.name as usize);
        match read_text(self.bytes, name) {
            Ok(text) => Some(gm_id {
                name,
                name_len: text.len(),
            }),
            Err(_) => None,
        }
    }
}

/// Writes the names of an image as a library from index `first` on, as many as there are and fit, and returns how many. The last
/// one of all is the image's name.
#[unsafe(no_mangle)]
pub extern "C" fn gmr_ids(bytes: &[u8], image: &gm_image, first: usize, out: &mut [gm_id]) -> usize
    ensures { Fills (drop first (id_rows bytes.now image.now)) out.old out.new result }
{
    let mut rows = Picked {
        commands: Commands::of(bytes, image),
        what: Ids { bytes },
    };
    skip(&mut rows, first);
    fill(&mut rows, out)
}
