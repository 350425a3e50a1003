//! What dyld rebases in an image, and what it binds weakly.

ghost use Rattle.mach_base.specs.Context.{pointer_size};
ghost use Rattle.mach_dyld.specs.RebasesLeft.{opcode_rebases_left};
ghost use Rattle.mach_dyld.specs.WeakBindsLeft.{weak_binds_left};
ghost use Rattle.goblin_mach.specs.Fixups.{chained_view};
ghost use Rattle.goblin_mach.specs.ImageStreams.{AreImageRebases, AreImageWeakBinds, AreRebasesByOpcodes, rebase_stream_in, weak_stream_in};
ghost use Rattle.goblin_mach.specs.OpenImage.{bytes_view, commands_view, ctx_view, segments_view};
ghost use Rattle.goblin_mach.specs.RebasesLeft.{rebases_left};

use crate::fixups::last_readable;
use crate::macho::MachO;
use crate::rebases::{RebaseIterator, RebaseStreams};
use crate::weak_binds::WeakBindStreams;
use mach_dyld::{OpcodeRebaseIterator, WeakBindIterator};
use std::alloc::Allocator;

impl<'a, A: Allocator> MachO<'a, A> {
    /// Returns the rebases of the image's opcodes one at a time, over the segments that it holds. The first fault is the
    /// last item. There are none if no command names opcodes. It allocates nothing.
    pub fn opcode_rebases<'b>(&'b self) -> OpcodeRebaseIterator<'a, 'b>
        ensures { AreRebasesByOpcodes (rebase_stream_in (bytes_view self.now) (commands_view self.now)) (ctx_view self.now).le
            (pointer_size (ctx_view self.now).container) (segments_view self.now) (opcode_rebases_left result) }
    {
        let subject = RebaseStreams { bytes: self.bytes };
        let Some(stream) = last_readable(&subject, self.load_commands.as_slice()) else {
            return OpcodeRebaseIterator::default();
        };
        stream.iter(self.segments.as_slice(), self.ctx)
    }

    /// Returns what dyld rebases in the image, one rebase at a time, over the segments that it holds: the rebases of its
    /// opcodes, then those among the fixups of its chains. The first fault is the last item. It allocates nothing.
    pub fn rebases<'b>(&'b self) -> RebaseIterator<'a, 'b>
        ensures { AreImageRebases (rebase_stream_in (bytes_view self.now) (commands_view self.now)) (chained_view self.now) (ctx_view self.now).le
            (pointer_size (ctx_view self.now).container) (segments_view self.now) (rebases_left result) }
    {
        RebaseIterator::over(self.opcode_rebases(), self.fixups())
    }

    /// Returns the weak binds of the image one at a time, over the segments that it holds: the names that it defines itself
    /// and not weakly, and the places that take the definition that all images share. The first fault is the last item.
    /// There are none if no command names any. It allocates nothing.
    pub fn weak_binds<'b>(&'b self) -> WeakBindIterator<'a, 'b>
        ensures { AreImageWeakBinds (weak_stream_in (bytes_view self.now) (commands_view self.now))
            (pointer_size (ctx_view self.now).container) (segments_view self.now) (weak_binds_left result) }
    {
        let subject = WeakBindStreams { bytes: self.bytes };
        let Some(stream) = last_readable(&subject, self.load_commands.as_slice()) else {
            return WeakBindIterator::default();
        };
        stream.iter(self.segments.as_slice(), self.ctx)
    }
}
