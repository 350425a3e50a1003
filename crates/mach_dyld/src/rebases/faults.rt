//! Whether a fault occurs among rebases. The rebases of one instruction are checked together.

ghost use Rattle.std.specs.Prelude.{◌≡◌, ◌+◌, ◌<◌, ◌≤◌, ◌^◌, IfSome, IfNone};
ghost use Rattle.mach_parts.specs.Segment.{segment_view};
ghost use Rattle.mach_dyld.specs.BindingFaults.{has_fault};
ghost use Rattle.mach_dyld.specs.RebasesLeft.{highest_rebase, opcode_rebases_left, rebase_reads_left};

use crate::bindings::segment_at;
use crate::machine::{JudgesAll, Settings, Source, none_above};
use crate::rebases::rebase_run::highest_offset;
use crate::rebases::{OpcodeRebaseIterator, RebaseKind, Rebasing};
use mach_base::Steps;

impl<'a> JudgesAll<'a> for Rebasing {
    fn all_make(
        self,
        source: &Source<'a, '_>,
        settings: &Settings<'a>,
        stride: u64,
        count: u64,
    ) -> bool {
        if !self.has_segment {
            return false;
        }
        let Some(_) = RebaseKind::of(self.kind) else {
            return false;
        };
        let Some(segment) = segment_at(source.segments, settings.segment) else {
            return false;
        };
        let Some(highest) = highest_offset(source.pointer, segment) else {
            return false;
        };
        none_above(highest, settings.offset, stride, count)
    }
}

impl OpcodeRebaseIterator<'_, '_> {
    /// Whether a fault occurs among the rebases that are left. It allocates nothing and takes bounded time for each opcode.
    /// So its time is linear in the bytes of the stream, however many rebases there are.
    pub fn has_fault(self) -> bool
        ensures { result ≡ has_fault (opcode_rebases_left self.entry) }
    {
        self.has_fault_counted(&mut Steps::new())
    }

    /// Like `has_fault`, and adds the number of opcodes read to `steps`: at most one more than can be read.
    pub fn has_fault_counted(self, steps: &mut Steps) -> bool
        ensures fault { result ≡ has_fault (opcode_rebases_left self.entry) }
        ensures bounded { steps.new ≤ steps.old + rebase_reads_left self.entry + 1 }
        ensures kept { steps.old ≤ steps.new }
    {
        self.stream.has_fault_counted(steps)
    }
}
