//! Weak binds, from a cursor on.

ghost use Rattle.std.specs.Prelude.{◌≡◌, ◌∷◌, ℕ, map, IfNone, IfOk, IfSome, OnErr, Some};
ghost use Rattle.std.specs.Iterator.{YieldsFirstBy};
ghost use Rattle.mach_base.specs.Context.{pointer_size};
ghost use Rattle.mach_parts.specs.Segment.{segment_view};
ghost use Rattle.mach_dyld.specs.BindCursors.{TextIsAt};
ghost use Rattle.mach_dyld.specs.Streams.{Input, Range};
ghost use Rattle.mach_dyld.specs.Cut.{cut_input, cut_range};
ghost use Rattle.goblin_mach.specs.ImageStreams.{AreImageWeakBinds};
ghost use Rattle.mach_c_places.specs.Ranges.{range_view};
ghost use Rattle.mach_c_places.specs.WeakCursors.{AreWeakSites, HasEndedWeakWalk, IsOverWeakBinds, name_of_weak, placed_weak_read};
ghost use Rattle.mach_c_places.specs.WeakCursors.{weak_binds_after, weak_more_in, weak_sites_after, weak_sites_left, weak_walk_left};

use crate::opcode_ranges::OpcodeRange;
use crate::walk_numbers::{More, numbers_of, state_at};
use mach_base::{Ctx, Result};
use mach_dyld::WeakBind;
use mach_dyld::imports::BindCursor;
use mach_dyld::machine::{BindRules, State, Stream};
use mach_dyld::weak_binds::WeakBindSettings;
use mach_parts::segment::Segment;

/// A row of the stream of weak binds, with the offset of its name in the bytes.
#[derive(Clone, Copy, Debug)]
pub struct PlacedWeakBind<'a> {
    pub row: WeakBind<'a>,
    /// The offset of its name; past the bytes if it has no name.
    pub name_place: usize,
}

/// The weak binds of an image that are left.
#[derive(Drop)]
pub struct WeakBindWalk<'a, 'b> {
    stream: Stream<'a, 'b, WeakBindSettings>,
}

// Returns the settings of a cursor in addition to those of a bind.
fn extra_at(cursor: &BindCursor) -> WeakBindSettings
    ensures { result ≡ weak_more_in cursor.now }
{
    WeakBindSettings {
        kind: cursor.kind,
        has_name: cursor.has_name != 0,
        has_segment: cursor.has_segment != 0,
        is_own: cursor.ordinal != 0,
    }
}

impl<'a, 'b> WeakBindWalk<'a, 'b> {
    /// Returns all rows of a range, for these segments.
    pub fn start(range: &OpcodeRange<'a>, segments: &'b [Segment<'a>], ctx: Ctx) -> Self
        ensures items { AreImageWeakBinds (Some (range_view range.now)) (pointer_size ctx.container) (map segment_view segments.now)
            (weak_walk_left result) }
        ensures sites { AreWeakSites (cut_input (range_view range.now) (pointer_size ctx.container) (map segment_view segments.now))
            (cut_range (range_view range.now)) (weak_sites_left result) }
        ensures over { IsOverWeakBinds (cut_input (range_view range.now) (pointer_size ctx.container) (map segment_view segments.now))
            (cut_range (range_view range.now)) result }
    {
        let state = State::start(range.from, range.upto, true);
        let first = <WeakBindSettings as BindRules<'_>>::first(true);
        WeakBindWalk {
            stream: range.stream(segments, ctx, state, first),
        }
    }

    /// Returns the rows after a cursor.
    pub fn following(
        range: &OpcodeRange<'a>,
        segments: &'b [Segment<'a>],
        ctx: Ctx,
        cursor: &BindCursor,
    ) -> Self
        ensures items { weak_walk_left result
            ≡ weak_binds_after (cut_input (range_view range.now) (pointer_size ctx.container) (map segment_view segments.now))
            (cut_range (range_view range.now)) cursor.now }
        ensures sites { weak_sites_left result
            ≡ weak_sites_after (cut_input (range_view range.now) (pointer_size ctx.container) (map segment_view segments.now))
            (cut_range (range_view range.now)) cursor.now }
        ensures over { IsOverWeakBinds (cut_input (range_view range.now) (pointer_size ctx.container) (map segment_view segments.now))
            (cut_range (range_view range.now)) result }
    {
        let state = state_at(range.bytes, cursor);
        WeakBindWalk {
            stream: range.stream(segments, ctx, state, extra_at(cursor)),
        }
    }

    /// Returns a cursor before those that are left.
    pub fn cursor(&self) -> BindCursor
        ensures items { (x : Input) (r : Range) → IsOverWeakBinds x r self.now → weak_binds_after x r result ≡ weak_walk_left self.now }
        ensures sites { (x : Input) (r : Range) → IsOverWeakBinds x r self.now → weak_sites_after x r result ≡ weak_sites_left self.now }
    {
        let extra = &self.stream.more;
        let more = More {
            kind: extra.kind,
            has_name: extra.has_name,
            has_segment: extra.has_segment,
            other: extra.is_own,
        };
        numbers_of(self.stream.source.bytes, &self.stream.state, more)
    }

    /// Returns the next row with the offset of its name, or the fault that ends them.
    #[inline(always)]
    pub fn next_placed(&mut self) -> Option<Result<PlacedWeakBind<'a>>>
        ensures items { YieldsFirstBy placed_weak_read weak_walk_left self.old result self.new }
        ensures end { IfNone result (HasEndedWeakWalk self.new) }
        ensures fault { IfSome result (λ item. OnErr item (HasEndedWeakWalk self.new)) }
        ensures over { (x : Input) (r : Range) → IsOverWeakBinds x r self.old → IsOverWeakBinds x r self.new }
        ensures placed { (x : Input) (r : Range) → IsOverWeakBinds x r self.old
            → IfSome result (λ item. IfOk item (λ p. TextIsAt x.bytes p.name_place (name_of_weak p.row))) }
        ensures site { IfSome result (λ item. IfOk item (λ p. (library : ℕ)
            × (weak_sites_left self.old ≡ record { name_place = p.name_place; library = library } ∷ weak_sites_left self.new))) }
    {
        match self.stream.next_item() {
            None => None,
            Some(Err(e)) => Some(Err(e)),
            Some(Ok(row)) => Some(Ok(PlacedWeakBind {
                row,
                name_place: self.stream.state.settings.name_place,
            })),
        }
    }
}
