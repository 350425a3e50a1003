//! What dyld does with an image: its fixups and its bindings.

ghost use Rattle.std.specs.Prelude.{◌≡◌, option_map};
ghost use Rattle.mach_base.specs.Answer.{Reads};
ghost use Rattle.mach_base.specs.Context.{pointer_size};
ghost use Rattle.mach_dyld.specs.BindingsLeft as dyld;
ghost use Rattle.mach_base.specs.Text.{texts};
ghost use Rattle.goblin_mach.specs.Bindings.{AreOpcodeBindings, AreChainBindings, AreImageBindings};
ghost use Rattle.goblin_mach.specs.BindingsLeft.{chain_bindings_left, bindings_left};
ghost use Rattle.goblin_mach.specs.Fixups.{AreImageFixups, base_view, chained_view, chained_place_in, chained_option_view};
ghost use Rattle.goblin_mach.specs.FixupsLeft.{image_fixups_left};
ghost use Rattle.goblin_mach.specs.OpenImage.{binds_view, bytes_view, commands_view, ctx_view, trie_view, segments_view};

use crate::bindings::{BindingIterator, ChainBindings};
use crate::fixups::{FixupIterator, base_of, chained_fixups, chained_place};
use crate::macho::MachO;
use mach_base::{Ctx, Result};
use mach_chained::{ChainedBindIterator, ChainedFixups};
use mach_dyld::bindings::OpcodeBindingIterator;
use mach_dyld::exports::ExportTrie;
use mach_dyld::imports::BindInterpreter;
use std::alloc::Allocator;

impl<'a, A: Allocator> MachO<'a, A> {
    /// Returns the bytes in which the image was opened. The offsets in its records refer to them.
    pub fn bytes(&self) -> &'a [u8]
        ensures { result.now ≡ bytes_view self.now }
    {
        self.bytes
    }

    /// Returns the width and the byte order in which its records are read.
    pub fn ctx(&self) -> Ctx
        ensures { result ≡ ctx_view self.now }
    {
        self.ctx
    }

    /// Returns the address of the image's first byte in memory, before sliding: the `vmaddr` of the first segment named
    /// `__TEXT` that the image holds, or 0 if there is none. The address of an export is base plus offset, if the symbol isn't
    /// absolute (`export_address`). Offsets of chained fixups and of function starts are counted from it.
    pub fn base(&self) -> u64
        ensures { result ≡ base_view self.now }
    {
        base_of(self.segments.as_slice())
    }

    /// Returns the export trie that the image holds, if a command names one.
    pub fn export_trie(&self) -> Option<&ExportTrie<'a>>
        ensures { option_map (λ trie. trie.now) result ≡ trie_view self.now }
    {
        self.export_trie.as_ref()
    }

    /// Returns the ranges of the binds that the image holds, if a command names any.
    pub fn binds(&self) -> Option<&BindInterpreter<'a>>
        ensures { option_map (λ binds. binds.now) result ≡ binds_view self.now }
    {
        self.bind_interpreter.as_ref()
    }

    /// Returns the place and the size of the data of the chained fixups: those of the last `LC_DYLD_CHAINED_FIXUPS` among
    /// the load commands that the image holds, if there is one.
    pub fn chained_place(&self) -> Option<(u32, u32)>
        ensures { result ≡ chained_place_in (commands_view self.now) }
    {
        chained_place(self.load_commands.as_slice())
    }

    /// Returns the chained fixups of the image (`mach-o/fixup-chains.h`): those of the last `LC_DYLD_CHAINED_FIXUPS` among
    /// the load commands that it holds, if there is one. Opening an image tests nothing of them. Fails if their header can't
    /// be read, or has an unknown version or format.
    pub fn chained_fixups(&self) -> Result<Option<ChainedFixups<'a>>>
        ensures { Reads chained_option_view result (chained_view self.now) }
    {
        chained_fixups(self.bytes, self.ctx.le, self.load_commands.as_slice())
    }

    /// Returns the fixups of the image's chains one at a time, over the segments that it holds: by segments, by pages and
    /// along the chains. The first fault is the last item. There are none if no command names any. If their header can't be
    /// read, its error is the only item. It allocates nothing.
    pub fn fixups<'b>(&'b self) -> FixupIterator<'a, 'b>
        ensures { AreImageFixups (chained_view self.now) (segments_view self.now) (image_fixups_left result) }
    {
        let found = match self.chained_fixups() {
            Ok(found) => found,
            Err(e) => return FixupIterator::refused(e),
        };
        let Some(chained) = found else {
            return FixupIterator::default();
        };
        FixupIterator::over(chained.fixups(self.segments.as_slice(), self.base()))
    }

    /// Returns the bindings of the image's bind opcodes one at a time, as dyld reads them, over the libraries and the
    /// segments that it holds: those of the non-lazy stream, then those of the lazy stream. The first fault is the last
    /// item. There are none if no command names binds. It allocates nothing.
    pub fn opcode_bindings<'b>(&'b self) -> OpcodeBindingIterator<'a, 'b>
        ensures { AreOpcodeBindings (binds_view self.now) (pointer_size (ctx_view self.now).container)
            (texts self.now.libs.items) (segments_view self.now) (dyld.opcode_bindings_left result) }
    {
        let Some(binds) = &self.bind_interpreter else {
            return OpcodeBindingIterator::default();
        };
        binds.bindings(self.libs.as_slice(), self.segments.as_slice(), self.ctx)
    }

    // Returns the bindings of its chains.
    fn chain_bindings<'b>(&'b self) -> ChainBindings<'a, 'b>
        ensures { AreChainBindings (chained_view self.now) (texts self.now.libs.items) (segments_view self.now)
            (chain_bindings_left result) }
    {
        let found = match self.chained_fixups() {
            Ok(found) => found,
            Err(e) => return ChainBindings::refused(e),
        };
        let Some(chained) = found else {
            return ChainBindings::over(ChainedBindIterator::default());
        };
        let (libs, segments) = (self.libs.as_slice(), self.segments.as_slice());
        ChainBindings::over(chained.bindings(libs, segments, self.base()))
    }

    /// Returns what dyld binds of the image, except the stream of weak binds, one binding at a time, over the libraries and
    /// the segments that it holds: the bindings of `opcode_bindings`, then those of its chains. The first fault is the last
    /// item. If the header of the chained fixups can't be read, that error comes instead of their bindings. It allocates
    /// nothing.
    pub fn bindings<'b>(&'b self) -> BindingIterator<'a, 'b>
        ensures { AreImageBindings (binds_view self.now) (chained_view self.now)
            (pointer_size (ctx_view self.now).container) (texts self.now.libs.items)
            (segments_view self.now) (bindings_left result) }
    {
        BindingIterator::over(self.opcode_bindings(), self.chain_bindings())
    }
}
