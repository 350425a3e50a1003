//! Whether a fault occurs among weak binds. The weak binds of one instruction are checked together.

ghost use Rattle.std.specs.Prelude.{◌≡◌, ◌+◌, ◌≤◌};
ghost use Rattle.mach_dyld.specs.BindingFaults.{has_fault};
ghost use Rattle.mach_dyld.specs.WeakBindsLeft.{weak_binds_left, weak_reads_left};

use crate::bindings::all_lie;
use crate::machine::{JudgesAll, Settings, Source};
use crate::weak_binds::{WeakBindIterator, WeakBindSettings};
use mach_base::Steps;

impl<'a> JudgesAll<'a> for WeakBindSettings {
    fn all_make(
        self,
        source: &Source<'a, '_>,
        settings: &Settings<'a>,
        stride: u64,
        count: u64,
    ) -> bool {
        if self.is_own {
            return true;
        }
        if !self.is_complete() {
            return false;
        }
        let (number, offset) = (settings.segment, settings.offset);
        all_lie(
            source.pointer,
            source.segments,
            number,
            offset,
            stride,
            count,
        )
    }
}

impl WeakBindIterator<'_, '_> {
    /// Whether a fault occurs among the rows that are left. It allocates nothing and takes bounded time for each opcode. So
    /// its time is linear in the bytes of the stream, however many rows there are.
    pub fn has_fault(self) -> bool
        ensures { result ≡ has_fault (weak_binds_left self.entry) }
    {
        self.has_fault_counted(&mut Steps::new())
    }

    /// Like `has_fault`, and adds the number of opcodes read to `steps`: at most one more than can be read.
    pub fn has_fault_counted(self, steps: &mut Steps) -> bool
        ensures fault { result ≡ has_fault (weak_binds_left self.entry) }
        ensures bounded { steps.new ≤ steps.old + weak_reads_left self.entry + 1 }
        ensures kept { steps.old ≤ steps.new }
    {
        self.stream.has_fault_counted(steps)
    }
}
