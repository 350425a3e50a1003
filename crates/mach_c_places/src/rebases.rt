//! The rebases of opcodes, from a cursor on.

ghost use Rattle.std.specs.Prelude.{◌≡◌, map, IfNone, IfSome, OnErr, Some, if◌then◌else◌};
ghost use Rattle.std.specs.Iterator.{YieldsFirstBy};
ghost use Rattle.mach_base.specs.Context.{pointer_size};
ghost use Rattle.mach_base.specs.declared.context.Endian.TheVariants as order;
ghost use Rattle.mach_parts.specs.Segment.{segment_view};
ghost use Rattle.mach_dyld.specs.Streams.{Input, Range};
ghost use Rattle.mach_dyld.specs.Cut.{cut_input, cut_range};
ghost use Rattle.mach_dyld.specs.RebasesLeft.{rebase_read};
ghost use Rattle.goblin_mach.specs.ImageStreams.{AreRebasesByOpcodes};
ghost use Rattle.mach_c_places.specs.Ranges.{range_view};
ghost use Rattle.mach_c_places.specs.RebaseCursors.{HasEndedRebaseWalk, IsOverRebases, opcode_rebases_after, order_in, rebase_walk_left, rebasing_in};

use crate::opcode_ranges::OpcodeRange;
use crate::walk_numbers::{More, numbers_of, state_at};
use mach_base::{Ctx, Endian, Result};
use mach_dyld::Rebase;
use mach_dyld::imports::BindCursor;
use mach_dyld::machine::{State, Stream};
use mach_dyld::rebases::Rebasing;
use mach_parts::segment::Segment;

/// The rebases of an image's opcodes that are left.
#[derive(Drop)]
pub struct RebaseWalk<'a, 'b> {
    stream: Stream<'a, 'b, Rebasing>,
}

// Returns the byte order of a cursor.
fn order_at(cursor: &BindCursor) -> Endian
    ensures { result ≡ order_in cursor.now }
{
    if cursor.ordinal != 0 {
        Endian::Big
    } else {
        Endian::Little
    }
}

// Whether the highest byte comes first.
fn is_big(le: Endian) -> bool
    ensures { (if result then order.Big else order.Little) ≡ le }
{
    match le {
        Endian::Big => true,
        Endian::Little => false,
    }
}

// Returns the settings in addition to those of a bind.
fn rebasing_at(cursor: &BindCursor) -> Rebasing
    ensures { result ≡ rebasing_in cursor.now }
{
    Rebasing {
        le: order_at(cursor),
        kind: cursor.kind,
        has_segment: cursor.has_segment != 0,
    }
}

impl<'a, 'b> RebaseWalk<'a, 'b> {
    /// Returns all rebases of a range, for these segments.
    pub fn start(range: &OpcodeRange<'a>, segments: &'b [Segment<'a>], ctx: Ctx) -> Self
        ensures items { AreRebasesByOpcodes (Some (range_view range.now)) ctx.le (pointer_size ctx.container) (map segment_view segments.now)
            (rebase_walk_left result) }
        ensures over { IsOverRebases (cut_input (range_view range.now) (pointer_size ctx.container) (map segment_view segments.now))
            (cut_range (range_view range.now)) result }
    {
        let first = Rebasing {
            le: ctx.le,
            kind: 0,
            has_segment: false,
        };
        let state = State::start(range.from, range.upto, true);
        RebaseWalk {
            stream: range.stream(segments, ctx, state, first),
        }
    }

    /// Returns the rebases after a cursor.
    pub fn following(
        range: &OpcodeRange<'a>,
        segments: &'b [Segment<'a>],
        ctx: Ctx,
        cursor: &BindCursor,
    ) -> Self
        ensures items { rebase_walk_left result
            ≡ opcode_rebases_after (cut_input (range_view range.now) (pointer_size ctx.container) (map segment_view segments.now))
            (cut_range (range_view range.now)) cursor.now }
        ensures over { IsOverRebases (cut_input (range_view range.now) (pointer_size ctx.container) (map segment_view segments.now))
            (cut_range (range_view range.now)) result }
    {
        let state = state_at(range.bytes, cursor);
        RebaseWalk {
            stream: range.stream(segments, ctx, state, rebasing_at(cursor)),
        }
    }

    /// Returns a cursor before those that are left.
    pub fn cursor(&self) -> BindCursor
        ensures { (x : Input) (r : Range) → IsOverRebases x r self.now → opcode_rebases_after x r result ≡ rebase_walk_left self.now }
    {
        let rebasing = &self.stream.more;
        let more = More {
            kind: rebasing.kind,
            has_name: false,
            has_segment: rebasing.has_segment,
            other: is_big(rebasing.le),
        };
        numbers_of(self.stream.source.bytes, &self.stream.state, more)
    }

    /// Returns the next rebase, or the fault that ends them.
    #[inline(always)]
    pub fn next_rebase(&mut self) -> Option<Result<Rebase>>
        ensures items { YieldsFirstBy rebase_read rebase_walk_left self.old result self.new }
        ensures end { IfNone result (HasEndedRebaseWalk self.new) }
        ensures fault { IfSome result (λ item. OnErr item (HasEndedRebaseWalk self.new)) }
        ensures over { (x : Input) (r : Range) → IsOverRebases x r self.old → IsOverRebases x r self.new }
    {
        self.stream.next_item()
    }
}
