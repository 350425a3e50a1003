//! What dyld binds of an image, one binding at a time.

ghost use Rattle.std.specs.Prelude.{◌≡◌, ◌∷◌, ◌++◌, [], Err};
ghost use Rattle.std.specs.Iterator.{YieldsFirstBy};
ghost use Rattle.mach_base.specs.Fault.{fault_of};
ghost use Rattle.mach_chained.specs.BindingViews as chained;
ghost use Rattle.mach_dyld.specs.Bindings.{upto_fault};
ghost use Rattle.mach_dyld.specs.BindingsLeft as dyld;
ghost use Rattle.mach_parts.specs.Bindings.{binding_read};
ghost use Rattle.goblin_mach.specs.BindingsLeft.{chain_bindings_left, all_bindings_left, bindings_left};

use mach_base::{Error, Result};
use mach_chained::ChainedBindIterator;
use mach_dyld::bindings::OpcodeBindingIterator;
use mach_parts::binding::Binding;

/// The bindings of an image's chains, or the error of the fixups' header.
#[derive(Drop)]
pub struct ChainBindings<'a, 'b> {
    // The error, until it is returned.
    refusal: Option<Error>,
    bindings: ChainedBindIterator<'a, 'b>,
}

impl<'a, 'b> ChainBindings<'a, 'b> {
    /// Returns the bindings of the chains.
    #[tactic(auto, unfolding(crate::specs::BindingsLeft::chain_bindings_left))]
    pub(crate) fn over(bindings: ChainedBindIterator<'a, 'b>) -> Self
        ensures { chain_bindings_left result ≡ chained.chained_bindings_left bindings.entry }
    {
        ChainBindings {
            refusal: None,
            bindings,
        }
    }

    /// Returns an iterator with only an error.
    #[tactic(auto, unfolding(crate::specs::BindingsLeft::chain_bindings_left))]
    pub(crate) fn refused(error: Error) -> Self
        ensures { chain_bindings_left result ≡ Err (fault_of error) ∷ [] }
    {
        ChainBindings {
            refusal: Some(error),
            bindings: ChainedBindIterator::default(),
        }
    }

    // Returns the next binding, or an error.
    #[tactic(auto, unfolding(crate::specs::BindingsLeft::chain_bindings_left))]
    #[inline(always)]
    fn step(&mut self) -> Option<Result<Binding<'a>>>
        ensures { YieldsFirstBy binding_read chain_bindings_left self.old result self.new }
    {
        if let Some(error) = self.refusal.take() {
            return Some(Err(error));
        }
        self.bindings.next()
    }
}

/// An iterator over the bindings of an image, as dyld reads them: those of the non-lazy opcodes, those of the lazy opcodes,
/// then those of the chains. The first fault is its last item. It allocates nothing.
#[derive(Drop)]
pub struct BindingIterator<'a, 'b> {
    opcodes: OpcodeBindingIterator<'a, 'b>,
    chains: ChainBindings<'a, 'b>,
    ended: bool,
}

impl<'a, 'b> BindingIterator<'a, 'b> {
    /// Returns the bindings of the opcodes, then those of the chains.
    #[tactic(auto, unfolding(crate::specs::BindingsLeft::bindings_left, crate::specs::BindingsLeft::all_bindings_left))]
    pub(crate) fn over(
        opcodes: OpcodeBindingIterator<'a, 'b>,
        chains: ChainBindings<'a, 'b>,
    ) -> Self
        ensures { bindings_left result ≡ upto_fault (dyld.opcode_bindings_left opcodes.entry ++ chain_bindings_left chains.entry) }
    {
        BindingIterator {
            opcodes,
            chains,
            ended: false,
        }
    }

    // Returns the next item, whether or not a fault came before.
    #[tactic(auto, unfolding(crate::specs::BindingsLeft::all_bindings_left))]
    #[inline(always)]
    fn any(&mut self) -> Option<Result<Binding<'a>>>
        ensures items { YieldsFirstBy binding_read all_bindings_left self.old result self.new }
        ensures ended { self.new.ended ≡ self.old.ended }
    {
        match self.opcodes.next() {
            Some(item) => Some(item),
            None => self.chains.step(),
        }
    }

    // Returns the next item, up to the first fault.
    #[tactic(auto, unfolding(crate::specs::BindingsLeft::bindings_left))]
    #[inline(always)]
    fn step(&mut self) -> Option<Result<Binding<'a>>>
        ensures { YieldsFirstBy binding_read bindings_left self.old result self.new }
    {
        if self.ended {
            return None;
        }
        match self.any() {
            Some(Ok(binding)) => Some(Ok(binding)),
            Some(Err(error)) => {
                self.ended = true;
                Some(Err(error))
            }
            None => None,
        }
    }
}

impl<'a, 'b> Iterator for BindingIterator<'a, 'b> {
    type Item = Result<Binding<'a>>;

    ghost use Rattle.std.specs.Iterator.{item_count};

    ghost next_gives = { YieldsFirstBy binding_read bindings_left };

    ghost remaining = { item_count bindings_left };

    #[inline(always)]
    fn next(&mut self) -> Option<Result<Binding<'a>>> {
        self.step()
    }
}

impl<'a, 'b> Default for BindingIterator<'a, 'b> {
    ghost is_default = { λ it. bindings_left it ≡ [] };

    /// Returns an iterator without bindings.
    #[tactic(auto, unfolding(crate::specs::BindingsLeft::bindings_left))]
    fn default() -> Self {
        BindingIterator {
            opcodes: OpcodeBindingIterator::default(),
            chains: ChainBindings::over(ChainedBindIterator::default()),
            ended: true,
        }
    }
}
