//! Whether a fault occurs among the items of streams. One instruction may make 2^64 - 1 binds. They are checked together, so
//! that the time depends on the instructions and not on the binds.

ghost use Rattle.std.specs.Prelude.{◌≡◌, ◌+◌, ◌<◌, ◌≤◌, ◌++◌, true, false, not};
ghost use Rattle.mach_dyld.specs.BindingFaults.{first_made, has_fault, made_by, still_made};
ghost use Rattle.mach_dyld.specs.Machine.{bind_of, input_of, items_left, opcodes_left};

use crate::imports::settings::Settings;
use crate::imports::source::Source;
use crate::imports::stream::{BindRules, Stream};
use mach_base::Steps;

/// Rules by which all binds of one instruction are checked together.
pub trait JudgesAll<'a>: BindRules<'a> {
    /// Whether each of `count` binds makes an item. The first has these settings, and each next one is a stride further.
    fn all_make(
        self,
        source: &Source<'a, '_>,
        settings: &Settings<'a>,
        stride: u64,
        count: u64,
    ) -> bool
        requires { 0 < count }
        ensures { has_fault (made_by Self.rules (input_of source.now) (bind_of settings.now) self stride count) ≡ not result };
}

impl<'a, 'b, M: JudgesAll<'a>> Stream<'a, 'b, M> {
    // Whether each bind left of the last instruction makes an item.
    fn all_make(&self) -> bool
        requires { 0 < self.now.state.count }
        ensures { has_fault (still_made M.rules self.now) ≡ not result }
    {
        let (stride, count) = (self.state.stride, self.state.count);
        self.more
            .all_make(&self.source, &self.state.settings, stride, count)
    }

    /// Skips `count` of the binds left of the last instruction.
    #[inline(always)]
    pub fn pass(&mut self, count: u64)
        requires on { self.old.state.ended ≡ false }
        requires some { 0 < count }
        requires there { count ≤ self.old.state.count }
        ensures on { self.new.state.ended ≡ false }
        ensures items { has_fault (first_made M.rules self.old count) ≡ false
            → items_left M.rules self.old ≡ first_made M.rules self.old count ++ items_left M.rules self.new }
        ensures reads { opcodes_left M.rules self.new ≡ opcodes_left M.rules self.old }
    {
        let by = self.state.stride.wrapping_mul(count);
        self.state.settings.advance(by);
        self.state.count -= count;
    }

    /// Whether a fault occurs among the items that are left. Adds the number of instructions read to `steps`: at most one
    /// more than can be read. It allocates nothing, and its time for an instruction is that of `all_make`.
    pub fn has_fault_counted(self, steps: &mut Steps) -> bool
        ensures fault { result ≡ has_fault (items_left M.rules self.entry) }
        ensures bounded { steps.new ≤ steps.old + opcodes_left M.rules self.entry + 1 }
        ensures kept { steps.old ≤ steps.new }
    {
        let mut stream = self;
        'instructions: while !stream.state.ended {
            match stream.arrive(steps) {
                Ok(true) => {}
                Ok(false) => return false,
                Err(_) => return true,
            }
            if !stream.all_make() {
                return true;
            }
            let count = stream.state.count;
            stream.pass(count);
        }
        false
    }
}
