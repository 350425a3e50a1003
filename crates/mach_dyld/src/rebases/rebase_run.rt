//! Rebases of one instruction that follow each other in a segment and are checked once.

ghost use Rattle.std.specs.Prelude.{◌≡◌, ◌<◌, ◌≤◌, ◌+◌, ◌-◌, ◌*◌, ◌^◌, ◌∷◌, [], Ok, Err, IfSome, IfNone};
ghost use Rattle.mach_parts.specs.Segment.{segment_view};
ghost use Rattle.mach_base.specs.Fault.{malformed};
ghost use Rattle.mach_dyld.specs.BindingFaults.{first_made};
ghost use Rattle.mach_dyld.specs.Machine.{bind_of, input_of};
ghost use Rattle.mach_dyld.specs.RebaseRuns.{run_left, turn_rebase, turned};
ghost use Rattle.mach_dyld.specs.RebasesLeft.{highest_rebase, rebase_rules, rebase_view};

use crate::bindings::segment_at;
use crate::machine::Stream;
use crate::rebases::memory::memory_number;
use crate::rebases::{Rebase, RebaseKind, Rebasing};
use mach_base::Endian;
use mach_parts::segment::Segment;

/// A rebase that was checked, with the data of its segment.
#[derive(Drop)]
pub struct Turn<'a> {
    /// The segment's data.
    pub bytes: &'a [u8],
    pub offset: u64,
    pub address: u64,
    /// The distance to the next one.
    pub stride: u64,
    /// The segment's number.
    pub segment: u32,
    pub kind: RebaseKind,
    /// Whether eight bytes are corrected rather than four.
    pub is_wide: bool,
    pub le: Endian,
}

impl Turn<'_> {
    // Returns the rebase.
    #[inline(always)]
    fn rebase(&self) -> Rebase
        ensures { rebase_view result ≡ turn_rebase self.now }
    {
        let width = if self.is_wide { 8 } else { 4 };
        Rebase {
            segment: self.segment,
            offset: self.offset,
            address: self.address,
            target: memory_number(self.le, width, self.bytes, self.offset),
            kind: self.kind,
            auth: None,
        }
    }

    // Moves to the next one.
    #[tactic(auto, unfolding(crate::specs::RebaseRuns::turned))]
    #[inline(always)]
    fn advance(&mut self)
        ensures { self.new ≡ turned self.old }
    {
        self.offset = self.offset.wrapping_add(self.stride);
        self.address = self.address.wrapping_add(self.stride);
    }
}

/// A run of rebases.
#[derive(Drop)]
pub struct Run<'a> {
    pub left: u64,
    pub turn: Turn<'a>,
}

/// Returns the highest offset at which a segment holds a pointer whose address fits into 64 bits; None if the segment is
/// smaller than a pointer.
#[inline(always)]
pub fn highest_offset(pointer: u8, segment: &Segment<'_>) -> Option<u64>
    ensures some { IfSome result (λ h. h ≡ highest_rebase pointer (segment_view segment.now)) }
    ensures large { IfSome result (λ h. pointer ≤ segment.now.vmsize) }
    ensures small { IfSome result (λ h. segment.now.vmaddr < 2 ^ 64) }
    ensures none { IfNone result (segment.now.vmsize < pointer) }
{
    let room = segment.vmsize.checked_sub(u64::from(pointer))?;
    Some(room.min(u64::MAX - segment.vmaddr))
}

// Returns how many of `count` turns lie at or below a highest offset, from the first on. Each next one is a stride further.
#[inline(always)]
fn turns_upto(highest: u64, offset: u64, stride: u64, count: u64) -> u64
    requires some { 0 < count }
    requires first { offset ≤ highest }
    ensures some { 0 < result }
    ensures within { result ≤ count }
    ensures last { offset + (result - 1) * stride ≤ highest }
    ensures whole { offset + (count - 1) * stride ≤ highest → result ≡ count }
{
    let room = highest - offset;
    match (count - 1).checked_mul(stride) {
        Some(further) if further <= room => count,
        _ => few_turns(room, stride, count),
    }
}

// Like `turns_upto`, if not all of them do: `room` is how far the last may be from the first.
#[cold]
#[inline(never)]
fn few_turns(room: u64, stride: u64, count: u64) -> u64
    requires some { 0 < count }
    ensures some { 0 < result }
    ensures within { result ≤ count }
    ensures last { (result - 1) * stride ≤ room }
{
    match room.checked_div(stride) {
        Some(more) => more.min(count - 1) + 1,
        None => count,
    }
}

impl<'a> Run<'a> {
    /// Returns a run of no rebases.
    #[tactic(auto, unfolding(crate::specs::RebaseRuns::turn_rebases))]
    pub fn none() -> Self
        ensures { run_left result ≡ [] }
    {
        Run {
            left: 0,
            turn: Turn {
                bytes: &[],
                offset: 0,
                address: 0,
                stride: 0,
                segment: 0,
                kind: RebaseKind::Pointer,
                is_wide: false,
                le: Endian::Little,
            },
        }
    }

    /// Returns what the last instruction still makes, up to where the offsets leave the segment; None if the first is no rebase.
    #[inline(always)]
    pub fn of(stream: &Stream<'a, '_, Rebasing>) -> Option<Self>
        requires { 0 < stream.now.state.count }
        ensures some { IfSome result (λ run. 0 < run.left) }
        ensures within { IfSome result (λ run. run.left ≤ stream.now.state.count) }
        ensures made { IfSome result (λ run. first_made rebase_rules stream.now run.left ≡ run_left run) }
        ensures none { IfNone result
            (rebase_rules.makes (input_of stream.now.source) (bind_of stream.now.state.settings) stream.now.more ≡ Err malformed) }
    {
        let (rebasing, state) = (&stream.more, &stream.state);
        if !rebasing.has_segment {
            return None;
        }
        let kind = RebaseKind::of(rebasing.kind)?;
        let pointer = stream.source.pointer;
        let number = state.settings.segment;
        let segment = segment_at(stream.source.segments, number)?;
        let highest = highest_offset(pointer, segment)?;
        let offset = state.settings.offset;
        if offset > highest {
            return None;
        }
        let turn = Turn {
            bytes: segment.bytes,
            offset,
            address: segment.vmaddr.wrapping_add(offset),
            stride: state.stride,
            segment: u32::from(number),
            kind,
            is_wide: kind.width(pointer) == 8,
            le: rebasing.le,
        };
        let left = turns_upto(highest, offset, state.stride, state.count);
        Some(Run { left, turn })
    }

    /// Removes the first rebase and returns it.
    #[tactic(auto, unfolding(crate::specs::RebaseRuns::turn_rebases))]
    #[inline(always)]
    pub fn next(&mut self) -> Rebase
        requires { 0 < self.old.left }
        ensures { run_left self.old ≡ Ok (rebase_view result) ∷ run_left self.new }
    {
        let rebase = self.turn.rebase();
        self.turn.advance();
        self.left -= 1;
        rebase
    }
}
