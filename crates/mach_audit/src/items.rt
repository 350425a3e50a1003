//! The items of a list of an image, one after the other.

ghost use Rattle.std.specs.Prelude.{◌≡◌, ◌∷◌, [], MatchOption, option_map};
ghost use Rattle.mach_base.specs.Fault.{fault_of};
ghost use Rattle.mach_audit.specs.Items.{faults_left};

use goblin_mach::imports::BindIterator;
use goblin_mach::segment::{RelocationIterator, SectionIterator};
use goblin_mach::symbols::SymbolIterator;
use goblin_mach::{BindingIterator, Error, FixupIterator};

/// The items of a list that are left.
#[derive(Drop)]
pub enum Items<'i> {
    Sections(SectionIterator<'i>),
    Relocations(RelocationIterator<'i>),
    Symbols(SymbolIterator<'i>),
    Imports(BindIterator<'i, 'i>),
    Fixups(FixupIterator<'i, 'i>),
    Bindings(BindingIterator<'i, 'i>),
}

impl Items<'_> {
    /// Takes the next item, and returns its error if it can't be read.
    pub fn next_error(&mut self) -> Option<Option<Error>>
        ensures { MatchOption result (faults_left self.old ≡ []) (λ error. faults_left self.old ≡ option_map fault_of error ∷ faults_left self.new) }
    {
        match self {
            Items::Sections(items) => Some(items.next()?.err()),
            Items::Relocations(items) => Some(items.next()?.err()),
            Items::Symbols(items) => Some(items.next()?.err()),
            Items::Imports(items) => Some(items.next()?.err()),
            Items::Fixups(items) => Some(items.next()?.err()),
            Items::Bindings(items) => Some(items.next()?.err()),
        }
    }
}
