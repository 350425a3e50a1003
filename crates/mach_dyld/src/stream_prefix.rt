//! Bytes that are cut after the range of one stream.

ghost use Rattle.std.specs.Prelude.{◌≡◌, map};
ghost use Rattle.mach_base.specs.Context.{pointer_size};
ghost use Rattle.mach_parts.specs.Segment.{segment_view};
ghost use Rattle.mach_dyld.specs.Machine.{input_of};
ghost use Rattle.mach_dyld.specs.Cut.{cut_stream, cut_input};
ghost use Rattle.mach_dyld.specs.CutViews.{cut_view};

use crate::imports::pointer_len;
use crate::machine::Source;
use mach_base::Ctx;
use mach_parts::segment::Segment;

/// Bytes that are cut after the range of a stream.
#[derive(Clone, Copy)]
pub struct Cut<'a> {
    pub bytes: &'a [u8],
    pub from: usize,
    pub upto: usize,
}

impl<'a> Cut<'a> {
    /// Cuts the bytes after the range that a command states.
    pub fn new(bytes: &'a [u8], off: u32, size: u32) -> Self
        ensures { cut_view result ≡ cut_stream bytes.now off size }
    {
        let from = off as usize;
        let upto = from + size as usize;
        Cut {
            bytes: &bytes[..upto.min(bytes.len())],
            from,
            upto,
        }
    }

    /// Returns what the stream is read from: these bytes and these segments.
    pub fn source<'b>(&self, segments: &'b [Segment<'a>], ctx: Ctx) -> Source<'a, 'b>
        ensures { input_of result ≡ cut_input (cut_view self.now) (pointer_size ctx.container) (map segment_view segments.now) }
    {
        Source {
            bytes: self.bytes,
            libs: &[],
            segments,
            pointer: pointer_len(ctx),
        }
    }
}
