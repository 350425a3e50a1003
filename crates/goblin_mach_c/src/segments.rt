//! The segments of an image, read in place.

ghost use Rattle.std.specs.Prelude.{◌≡◌, drop, IfOk};
ghost use Rattle.mach_load.specs.Variants.{command_of};
ghost use Rattle.mach_parts.specs.Segment.{segment_view};
ghost use Rattle.goblin_mach.specs.Subjects.{lossy_segment_by};
ghost use Rattle.goblin_mach_c.specs.CommandRows.{readable_commands_left};
ghost use Rattle.goblin_mach_c.specs.Fill.{Fills};
ghost use Rattle.goblin_mach_c.specs.PartRows.{rows_of, segment_row, segment_rows, shown};

use crate::commands::Commands;
use crate::images::{ctx_of, gm_image};
use crate::picked::{Pick, Picked};
use crate::rows::{fill, skip};
use mach_base::{Ctx, Result};
use mach_load::{CommandVariant, LoadCommand};
use mach_parts::segment::Segment;

/// A segment. Its command is at `command`, and its data are `data_len` bytes of the file at `fileoff`: none if they are not all in the bytes.
#[derive(Clone, Copy)]
#[repr(C)]
pub struct gm_segment {
    pub name: [u8; 16],
    pub vmaddr: u64,
    pub vmsize: u64,
    pub fileoff: u64,
    pub filesize: u64,
    pub command: usize,
    pub data_len: usize,
    pub maxprot: u32,
    pub initprot: u32,
    pub sections: u32,
    pub flags: u32,
}

/// The segments in some bytes.
#[derive(Clone, Copy)]
pub struct Segments<'a> {
    pub bytes: &'a [u8],
    pub ctx: Ctx,
}

// Returns a segment as C sees it.
fn row_of(segment: &Segment<'_>, command: usize) -> gm_segment
    requires { (segment_view segment.now).offset ≡ command }
    ensures { result ≡ segment_row (segment_view segment.now) }
{
    gm_segment {
        name: segment.segname,
        vmaddr: segment.vmaddr,
        vmsize: segment.vmsize,
        fileoff: segment.fileoff,
        filesize: segment.filesize,
        command,
        data_len: segment.bytes.len(),
        maxprot: segment.maxprot,
        initprot: segment.initprot,
        sections: segment.nsects,
        flags: segment.flags,
    }
}

impl<'a> Pick for Segments<'a> {
    type Row = gm_segment;

    ghost picked = { λ s c. shown segment_row (lossy_segment_by s.ctx s.bytes.now c) };

    #[inline(always)]
    fn pick(&self, command: &LoadCommand) -> Option<gm_segment> {
        let place = command.offset;
        let segment = match &command.command {
            CommandVariant::Segment32(c) => Segment::from_32_lossy(self.bytes, c, place, self.ctx),
            CommandVariant::Segment64(c) => Segment::from_64_lossy(self.bytes, c, place, self.ctx),
            _ => return None,
        };
        match segment {
            Ok(segment) => Some(row_of(&segment, place)),
            Err(_) => None,
        }
    }
}

/// Returns the segments of an image.
pub fn segment_list<'a>(bytes: &'a [u8], image: &gm_image) -> Picked<'a, Segments<'a>>
    ensures { rows_of (λ c. shown segment_row (lossy_segment_by result.what.ctx result.what.bytes.now c)) (readable_commands_left result.commands)
        ≡ segment_rows bytes.now image.now }
{
    Picked {
        commands: Commands::of(bytes, image),
        what: Segments {
            bytes,
            ctx: ctx_of(image),
        },
    }
}

/// Writes the segments of an image from index `first` on, as many as there are and fit, and returns how many.
#[unsafe(no_mangle)]
pub extern "C" fn gmr_segments(
    bytes: &[u8],
    image: &gm_image,
    first: usize,
    out: &mut [gm_segment],
) -> usize
    ensures { Fills (drop first (segment_rows bytes.now image.now)) out.old out.new result }
{
    let mut rows = segment_list(bytes, image);
    skip(&mut rows, first);
    fill(&mut rows, out)
}
