//! Whether a fault occurs among bindings. The bindings of one instruction are checked together, by their range of offsets.

ghost use Rattle.std.specs.Prelude.{◌≡◌, ◌+◌, ◌<◌, ◌≤◌, ◌^◌, ℕ, Ok, Err, map, true, false, slice_get, IfSome, IfNone};
ghost use Rattle.mach_base.specs.Fault.{malformed};
ghost use Rattle.mach_parts.specs.Segment.{segment_view};
ghost use Rattle.mach_dyld.specs.Bindings.{spot_of};
ghost use Rattle.mach_dyld.specs.BindingFaults as defined;
ghost use Rattle.mach_dyld.specs.BindingFaults.{has_fault, offset_at, binding_reads_left};
ghost use Rattle.mach_dyld.specs.BindingsLeft.{opcode_bindings_left};

use crate::bindings::{BindingSettings, OpcodeBindingIterator};
use crate::imports::settings::Settings;
use crate::imports::source::Source;
use crate::stream_faults::JudgesAll;
use crate::stride::none_above;
use mach_base::Steps;
use mach_parts::segment::Segment;

/// Returns the segment with a number.
#[tactic(auto, using(mach_parts::proofs::SegmentViews::segment_seen))]
pub fn segment_at<'a, 'b>(segments: &'b [Segment<'a>], number: u8) -> Option<&'b Segment<'a>>
    ensures some { IfSome result (λ s. slice_get (map segment_view segments.now) number ≡ Some (segment_view s.now)) }
    ensures none { IfNone result (slice_get (map segment_view segments.now) number ≡ None) }
{
    segments.get(usize::from(number))
}

// Returns the highest offset at which a segment holds a pointer whose place and address fit into 64 bits; None if the
// segment is smaller than a pointer.
fn highest_offset(pointer: u8, segment: &Segment<'_>) -> Option<u64>
    ensures some { IfSome result (λ h. h ≡ defined.highest_offset pointer (segment_view segment.now)) }
    ensures large { IfSome result (λ h. pointer ≤ segment.now.vmsize) }
    ensures small { IfSome result (λ h. (h < 2 ^ 64) × (segment.now.fileoff < 2 ^ 64) × (segment.now.vmaddr < 2 ^ 64)) }
    ensures none { IfNone result (segment.now.vmsize < pointer) }
{
    let room = segment.vmsize.checked_sub(u64::from(pointer))?;
    let in_file = u64::MAX - segment.fileoff;
    let address = u64::MAX - segment.vmaddr;
    Some(room.min(in_file.min(address)))
}

/// Whether each of `count` binds lies in a segment with its whole pointer. The first is at an offset, and each next one a
/// stride further, modulo 2^64.
pub fn all_lie(
    pointer: u8,
    segments: &[Segment<'_>],
    number: u8,
    offset: u64,
    stride: u64,
    count: u64,
) -> bool
    requires { 0 < count }
    ensures yes { result ≡ true → (j : ℕ) → j < count
        → (s : ℕ × ℕ) × (spot_of pointer (map segment_view segments.now) number (offset_at offset stride j) ≡ Ok s) }
    ensures no { result ≡ false → (j : ℕ) × (j < count)
        × (spot_of pointer (map segment_view segments.now) number (offset_at offset stride j) ≡ Err malformed) }
{
    let Some(segment) = segment_at(segments, number) else {
        return false;
    };
    let Some(highest) = highest_offset(pointer, segment) else {
        return false;
    };
    none_above(highest, offset, stride, count)
}

impl<'a> JudgesAll<'a> for BindingSettings {
    fn all_make(
        self,
        source: &Source<'a, '_>,
        settings: &Settings<'a>,
        stride: u64,
        count: u64,
    ) -> bool {
        if !self.is_complete(settings.library) {
            return false;
        }
        let Some(_) = self.provider(source.libs, settings.library) else {
            return false;
        };
        let (number, offset) = (settings.segment, settings.offset);
        all_lie(
            source.pointer,
            source.segments,
            number,
            offset,
            stride,
            count,
        )
    }
}

impl OpcodeBindingIterator<'_, '_> {
    /// Whether a fault occurs among the bindings that are left. It allocates nothing and takes bounded time for each
    /// instruction. So its time is linear in the bytes of the streams, however many bindings there are.
    pub fn has_fault(self) -> bool
        ensures { result ≡ has_fault (opcode_bindings_left self.entry) }
    {
        self.has_fault_counted(&mut Steps::new())
    }

    /// Like `has_fault`, and adds the number of instructions read to `steps`: at most one more than can be read.
    pub fn has_fault_counted(self, steps: &mut Steps) -> bool
        ensures fault { result ≡ has_fault (opcode_bindings_left self.entry) }
        ensures bounded { steps.new ≤ steps.old + binding_reads_left self.entry + 1 }
        ensures kept { steps.old ≤ steps.new }
    {
        self.stream.has_fault_counted(steps)
    }
}
