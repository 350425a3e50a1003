//! The streams of opcodes of an image: the bytes up to the end of a stream, and its range.

ghost use Rattle.std.specs.Prelude.{◌≡◌, map, option_map};
ghost use Rattle.mach_base.specs.Context.{pointer_size};
ghost use Rattle.mach_load.specs.Variants.{command_of};
ghost use Rattle.mach_parts.specs.Segment.{segment_view};
ghost use Rattle.mach_dyld.specs.Machine as machine;
ghost use Rattle.mach_dyld.specs.Machine.{input_of, items_left, items_of, reader_by, state_of};
ghost use Rattle.mach_dyld.specs.NamePlaces.{NameIsSet};
ghost use Rattle.mach_dyld.specs.Sites.{site_in, sites_left, sites_of};
ghost use Rattle.mach_dyld.specs.Cut.{CutStream, cut_input, cut_range, cut_stream};
ghost use Rattle.goblin_mach.specs.ImageStreams.{rebase_stream_by, rebase_stream_in, weak_stream_by, weak_stream_in};
ghost use Rattle.mach_c_places.specs.Ranges.{range_view};

use goblin_mach::fixups::last_readable;
use goblin_mach::readings::Subject;
use mach_base::{Ctx, Result};
use mach_dyld::imports::pointer_len;
use mach_dyld::machine::{BindRules, Source, State, Stream};
use mach_load::{CommandVariant, LoadCommand};
use mach_parts::segment::Segment;

/// The bytes up to the end of a stream, and its range in them.
#[derive(Clone, Copy)]
pub struct OpcodeRange<'a> {
    pub bytes: &'a [u8],
    pub from: usize,
    pub upto: usize,
}

impl<'a> OpcodeRange<'a> {
    // Cuts the bytes by the offset and the size in a command.
    fn new(bytes: &'a [u8], off: u32, size: u32) -> Self
        ensures { range_view result ≡ cut_stream bytes.now off size }
    {
        let from = off as usize;
        let upto = from + size as usize;
        OpcodeRange {
            bytes: &bytes[..upto.min(bytes.len())],
            from,
            upto,
        }
    }

    // Returns the source of the stream, for these segments.
    fn source<'b>(&self, segments: &'b [Segment<'a>], ctx: Ctx) -> Source<'a, 'b>
        ensures input { input_of result ≡ cut_input (range_view self.now) (pointer_size ctx.container) (map segment_view segments.now) }
        ensures bytes { result.bytes.now ≡ self.now.bytes.now }
    {
        Source {
            bytes: self.bytes,
            libs: &[],
            segments,
            pointer: pointer_len(ctx),
        }
    }

    /// Returns the stream from a state on, for these segments, with these settings in addition to those of a bind.
    pub fn stream<'b, M: BindRules<'a>>(
        &self,
        segments: &'b [Segment<'a>],
        ctx: Ctx,
        state: State<'a>,
        more: M,
    ) -> Stream<'a, 'b, M>
        ensures items { items_left M.rules result ≡ items_of M.rules
            (cut_input (range_view self.now) (pointer_size ctx.container) (map segment_view segments.now)) (cut_range (range_view self.now)) more
            (state_of state.entry) }
        ensures sites { sites_left M.rules result ≡ sites_of
            (reader_by M.rules (cut_input (range_view self.now) (pointer_size ctx.container) (map segment_view segments.now)))
            (cut_range (range_view self.now)) (site_in state.entry.settings) (state_of state.entry) }
        ensures over { NameIsSet self.now.bytes.now state.entry.settings
            → machine.IsOver (cut_input (range_view self.now) (pointer_size ctx.container) (map segment_view segments.now)) (cut_range (range_view self.now))
            result }
    {
        Stream {
            source: self.source(segments, ctx),
            lazy_from: self.from,
            lazy_upto: self.upto,
            state,
            more,
        }
    }
}

// The range of an image's weak binds.
#[derive(Clone, Copy)]
struct WeakRanges<'a> {
    bytes: &'a [u8],
}

impl<'a> Subject for WeakRanges<'a> {
    type Value = OpcodeRange<'a>;

    ghost Seen = { CutStream };

    ghost seen = { range_view };

    ghost reading = { λ s. weak_stream_by s.bytes.now };

    /// Reading it never fails.
    fn read(&self, command: &LoadCommand) -> Option<Result<OpcodeRange<'a>>> {
        match &command.command {
            CommandVariant::DyldInfo(c) | CommandVariant::DyldInfoOnly(c) => {
                Some(Ok(OpcodeRange::new(self.bytes, c.weak_bind_off, c.weak_bind_size)))
            }
            _ => None,
        }
    }
}

// The range of an image's rebases.
#[derive(Clone, Copy)]
struct RebaseRanges<'a> {
    bytes: &'a [u8],
}

impl<'a> Subject for RebaseRanges<'a> {
    type Value = OpcodeRange<'a>;

    ghost Seen = { CutStream };

    ghost seen = { range_view };

    ghost reading = { λ s. rebase_stream_by s.bytes.now };

    /// Reading it never fails.
    fn read(&self, command: &LoadCommand) -> Option<Result<OpcodeRange<'a>>> {
        match &command.command {
            CommandVariant::DyldInfo(c) | CommandVariant::DyldInfoOnly(c) => {
                Some(Ok(OpcodeRange::new(self.bytes, c.rebase_off, c.rebase_size)))
            }
            _ => None,
        }
    }
}

/// Returns the range of weak binds that the last command places, if there is one.
pub fn weak_range<'a>(bytes: &'a [u8], commands: &[LoadCommand]) -> Option<OpcodeRange<'a>>
    ensures { option_map range_view result ≡ weak_stream_in bytes.now (map command_of commands.now) }
{
    last_readable(&WeakRanges { bytes }, commands)
}

/// Returns the range of rebases that the last command places, if there is one.
pub fn rebase_range<'a>(bytes: &'a [u8], commands: &[LoadCommand]) -> Option<OpcodeRange<'a>>
    ensures { option_map range_view result ≡ rebase_stream_in bytes.now (map command_of commands.now) }
{
    last_readable(&RebaseRanges { bytes }, commands)
}
