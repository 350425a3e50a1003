//! The run paths of an image, read in place.

ghost use Rattle.std.specs.Prelude.{◌≡◌, drop};
ghost use Rattle.goblin_mach_c.specs.Fill.{Fills};
ghost use Rattle.goblin_mach_c.specs.PartRows.{run_path_row_by, run_path_rows};

use crate::commands::Commands;
use crate::images::gm_image;
use crate::picked::{Pick, Picked};
use crate::rows::{fill, skip};
use mach_base::read_text;
use mach_load::{CommandVariant, LoadCommand};

/// A path on which the image's libraries are searched: `path_len` bytes at `path`.
#[derive(Clone, Copy)]
#[repr(C)]
pub struct gm_run_path {
    pub path: usize,
    pub path_len: usize,
}

// The run paths in some bytes.
#[derive(Clone, Copy)]
struct RunPaths<'a> {
    bytes: &'a [u8],
}

impl<'a> Pick for RunPaths<'a> {
    type Row = gm_run_path;

    ghost picked = { λ s c. run_path_row_by s.bytes.now c };

    #[inline(always)]
    fn pick(&self, command: &LoadCommand) -> Option<gm_run_path> {
        let CommandVariant::Rpath(c) = &command.command else {
            return None;
        };
        let path = command.offset.saturating_add(c.path as usize);
        match read_text(self.bytes, path) {
            Ok(text) => Some(gm_run_path {
                path,
                path_len: text.len(),
            }),
            Err(_) => None,
        }
    }
}

/// Writes the run paths of an image from index `first` on, as many as there are and fit, and returns how many.
#[unsafe(no_mangle)]
pub extern "C" fn gmr_run_paths(
    bytes: &[u8],
    image: &gm_image,
    first: usize,
    out: &mut [gm_run_path],
) -> usize
    ensures { Fills (drop first (run_path_rows bytes.now image.now)) out.old out.new result }
{
    let mut rows = Picked {
        commands: Commands::of(bytes, image),
        what: RunPaths { bytes },
    };
    skip(&mut rows, first);
    fill(&mut rows, out)
}
