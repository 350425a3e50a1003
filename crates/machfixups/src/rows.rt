//! The lists of an image's rebases, binds and fixups, as rows.

ghost use Rattle.std.specs.Prelude.{◌≡◌, ◌||◌};
ghost use Rattle.std.specs.Iterator.{YieldsFirstBy};
ghost use Rattle.goblin_mach.specs.AllStretches.{parts_view};
ghost use Rattle.machfixups.specs.KeptFixups.{kinds_in_lines, kinds_in_objects};
ghost use Rattle.machfixups.specs.Rows.{row_read, shown_picks};
ghost use Rattle.machfixups.specs.RowsLeft.{rows_left, rows_of_items};
ghost use Rattle.machfixups.specs.TargetSymbols.{symbols_seen};

use crate::kept_fixups::{KeptFixups, KindsOfLists, ShownKinds};
use crate::row::{Row, binding_row, fixup_row, rebase_row, weak_row};
use crate::stored_pointers::StoredPointers;
use goblin_mach::chained_fixups::ChainedFixups;
use goblin_mach::{
    AddressMap, AllStretches, OpcodeBindingIterator, OpcodeRebaseIterator, Result, WeakBindIterator,
};
use std::alloc::Allocator;

/// Which lists are selected.
#[derive(Clone, Copy, Drop)]
pub struct Selection {
    pub rebases: bool,
    pub binds: bool,
    pub weak: bool,
    pub chains: bool,
}

impl Selection {
    /// No list.
    pub const NONE: Selection = Selection {
        rebases: false,
        binds: false,
        weak: false,
        chains: false,
    };

    /// Returns the lists that are shown: all if none is selected.
    pub fn shown(self) -> Selection
        ensures { result ≡ shown_picks self }
    {
        let is_all = !(self.rebases || self.binds || self.weak || self.chains);
        Selection {
            rebases: self.rebases || is_all,
            binds: self.binds || is_all,
            weak: self.weak || is_all,
            chains: self.chains || is_all,
        }
    }

    /// Whether one of these lists has rebases.
    pub fn has_rebases(self) -> bool
        ensures { result ≡ (self.rebases || self.chains) }
    {
        self.rebases || self.chains
    }

    /// Returns the lists that have the fixups of the chains, if they are lines and these lists are shown: that of the chains has
    /// each of them once. With the chains these are all of them, else the rebases with the rebases, and the binds with the binds.
    pub fn kinds_in_lines(self) -> KindsOfLists
        ensures { result ≡ kinds_in_lines self }
    {
        KindsOfLists {
            rebases: ShownKinds::NONE,
            binds: ShownKinds::NONE,
            chains: ShownKinds {
                rebases: self.rebases || self.chains,
                binds: self.binds || self.chains,
                numbers: self.chains,
            },
        }
    }

    /// Returns the lists that have the fixups of the chains, if they are objects and these lists are shown: a rebase and a bind
    /// are in that of their kind, and every fixup is in that of the chains.
    pub fn kinds_in_objects(self) -> KindsOfLists
        ensures { result ≡ kinds_in_objects self }
    {
        KindsOfLists {
            rebases: ShownKinds {
                rebases: self.rebases,
                binds: false,
                numbers: false,
            },
            binds: ShownKinds {
                rebases: false,
                binds: self.binds,
                numbers: false,
            },
            chains: ShownKinds {
                rebases: self.chains,
                binds: self.chains,
                numbers: self.chains,
            },
        }
    }
}

/// The rebases, the binds or the weak binds of the opcodes.
#[derive(Drop)]
pub enum Items<'a, 'b> {
    /// None of them.
    Hidden,
    Rebases(OpcodeRebaseIterator<'a, 'b>),
    Binds(OpcodeBindingIterator<'a, 'b>),
    Weak(WeakBindIterator<'a, 'b>),
}

impl<'a, 'b> Items<'a, 'b> {
    // Returns the next row.
    fn next_row<'p, A: Allocator>(
        &mut self,
        parts: &'p AllStretches<A>,
        symbols: &Option<AddressMap<'a, '_, A, A>>,
    ) -> Option<Result<Row<'p, 'a>>>
        ensures { YieldsFirstBy row_read (rows_of_items (parts_view parts.now) (symbols_seen symbols.now)) self.old result self.new }
    {
        match self {
            Items::Hidden => None,
            Items::Rebases(items) => match items.next() {
                Some(item) => Some(rebase_row(parts, symbols, item)),
                None => None,
            },
            Items::Binds(items) => match items.next() {
                Some(item) => Some(binding_row(parts, item)),
                None => None,
            },
            Items::Weak(items) => match items.next() {
                Some(item) => Some(weak_row(parts, item)),
                None => None,
            },
        }
    }
}

/// The rows of a list, one at a time: those of the opcodes, then those of the chains.
#[derive(Drop)]
pub struct Rows<'p, 'a, 'b, A: Allocator> {
    /// The segments that hold its items.
    pub parts: &'p AllStretches<A>,
    /// The symbols at the targets of its rebases.
    pub symbols: &'p Option<AddressMap<'a, 'b, A, A>>,
    /// The image's libraries, by ordinal.
    pub libs: &'b [&'a str],
    /// The chained fixups with the imports of its binds.
    pub table: Option<ChainedFixups<'a>>,
    /// What the pointers of its fixups are read from, if they are shown.
    pub source: Option<StoredPointers<'a, 'b>>,
    pub items: Items<'a, 'b>,
    pub fixups: KeptFixups<'a, 'b>,
}

impl<'p, 'a, A: Allocator> Iterator for Rows<'p, 'a, '_, A> {
    type Item = Result<Row<'p, 'a>>;

    ghost use Rattle.std.specs.Iterator.{item_count};

    ghost next_gives = { YieldsFirstBy row_read rows_left };

    ghost remaining = { item_count rows_left };

    fn next(&mut self) -> Option<Result<Row<'p, 'a>>> {
        let (parts, symbols) = (self.parts, self.symbols);
        match self.items.next_row(parts, symbols) {
            Some(row) => Some(row),
            None => {
                let (libs, table, source) = (self.libs, self.table, self.source);
                match self.fixups.next() {
                    Some(item) => Some(fixup_row(parts, symbols, libs, &table, &source, item)),
                    None => None,
                }
            }
        }
    }
}
