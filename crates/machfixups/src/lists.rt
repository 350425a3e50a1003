//! The lists of an image's rebases, binds and fixups, of which a line or an object has the fields of each row.

ghost use Rattle.std.specs.Prelude.{◌≡◌, ◌++◌, ℕ, List, Option, Result, map};
ghost use Rattle.mach_base.specs.Fault.{Fault};
ghost use Rattle.mach_base.specs.Text.{texts};
ghost use Rattle.mach_chained.specs.Header.{Fixups};
ghost use Rattle.goblin_mach.specs.Facts.{HasChainedFixups, HasLibraries};
ghost use Rattle.goblin_mach.specs.Fixups.{chained_view};
ghost use Rattle.goblin_mach.specs.OpenImage.{IsLossyImage};
ghost use Rattle.goblin_mach.specs.AllStretches.{parts_view};
ghost use Rattle.machfixups.specs.Lists.{PointerLists, HasPointerLists};
ghost use Rattle.machfixups.specs.RowFields.{fields_reported, lines_reported, pointer_row_fields, pointer_row_line};
ghost use Rattle.machfixups.specs.KeptLeft.{kept_left};
ghost use Rattle.machfixups.specs.Rows.{fixups_table_view, picked, readable_table, row_for_fixup, rows_in_order, rows_shown};
ghost use Rattle.machfixups.specs.RowsLeft.{image_rows_left, rows_left, rows_of_items};
ghost use Rattle.machfixups.specs.StoredPointers.{source_option_view};
ghost use Rattle.machfixups.specs.TargetSymbols.{symbols_seen};

use crate::fields::{write_line, write_row};
use crate::kept_fixups::{KeptFixups, KindsOfLists};
use crate::row::Row;
use crate::rows::{Items, Rows, Selection};
use crate::stored_pointers::StoredPointers;
use goblin_mach::chained_fixups::ChainedFixups;
use goblin_mach::{AddressMap, AllStretches, MachO, laws};
use mach_cli::{FieldsForm, ItemList, Listing};
use std::alloc::Allocator;
use std::io;
use std::io::Write;

impl<'p, 'a, A: Allocator> ItemList for Rows<'p, 'a, '_, A> {
    type Item = Row<'p, 'a>;

    ghost fields = { pointer_row_fields };

    ghost items_left = { λ rows. map fields_reported (rows_left rows) };

    fn next_item(&mut self) -> Option<goblin_mach::Result<Row<'p, 'a>>> {
        self.next()
    }

    fn write_item<F: FieldsForm, O: Write>(row: &Row<'p, 'a>, out: &mut O) -> io::Result<()> {
        write_row::<F, O>(row, out)
    }
}

/// The rows of an image in four lists, one after the other: of each rebase, each bind and each weak bind of its opcodes, in order,
/// if they are shown, and of the fixups of its chains that a list has.
#[derive(Drop)]
pub struct ImageRows<'p, 'a, 'b, A: Allocator> {
    pub rebases: Rows<'p, 'a, 'b, A>,
    pub binds: Rows<'p, 'a, 'b, A>,
    pub weak: Rows<'p, 'a, 'b, A>,
    pub chains: Rows<'p, 'a, 'b, A>,
}

// Returns the chained fixups of an image, if it has any that can be read.
fn table_of<'a, A: Allocator>(image: &MachO<'a, A>) -> Option<ChainedFixups<'a>>
    ensures { fixups_table_view result ≡ readable_table (chained_view image.now) }
{
    match image.chained_fixups() {
        Ok(found) => found,
        Err(_) => None,
    }
}

// What the rows of all lists of an image are read from.
#[derive(Drop)]
struct Sources<'p, 'a, 'b, A: Allocator> {
    parts: &'p AllStretches<A>,
    symbols: &'p Option<AddressMap<'a, 'b, A, A>>,
    libs: &'b [&'a str],
    table: Option<ChainedFixups<'a>>,
    source: Option<StoredPointers<'a, 'b>>,
}

// Returns the rows of the items of the opcodes, if they are shown, and of fixups of the chains.
fn rows_of<'p, 'a, 'b, A: Allocator>(
    is_shown: bool,
    over: &Sources<'p, 'a, 'b, A>,
    items: Items<'a, 'b>,
    fixups: KeptFixups<'a, 'b>,
) -> Rows<'p, 'a, 'b, A>
    ensures { let parts = parts_view over.now.parts.now in let symbols = symbols_seen over.now.symbols.now in
        rows_left result ≡ picked is_shown (rows_of_items parts symbols items.entry)
        ++ map (row_for_fixup parts symbols (texts over.now.libs.now) (fixups_table_view over.now.table) (source_option_view over.now.source))
        (kept_left fixups.entry) }
{
    Rows {
        parts: over.parts,
        symbols: over.symbols,
        libs: over.libs,
        table: over.table,
        source: over.source,
        items: if is_shown { items } else { Items::Hidden },
        fixups,
    }
}

impl<'p, 'a, 'b, B: Allocator> ImageRows<'p, 'a, 'b, B> {
    /// Returns the rows of an image of the lists that are shown, given its segments, the symbols at targets, which fixups of the
    /// chains each list has, and whether these are shown with their pointers.
    pub fn of<A: Allocator>(
        image: &'b MachO<'a, A>,
        parts: &'p AllStretches<B>,
        symbols: &'p Option<AddressMap<'a, 'b, B, B>>,
        shown: Selection,
        kinds: KindsOfLists,
        has_raw: bool,
    ) -> Self
        ensures { (bytes : List ℕ) (o : ℕ) → IsLossyImage bytes o image.now
            → (lists : PointerLists) × HasPointerLists bytes o lists
            × (libs : List (List ℕ)) × HasLibraries bytes o libs
            × (chained : Result (Option Fixups) Fault) × HasChainedFixups bytes o chained
            × (image_rows_left result ≡ rows_shown has_raw shown kinds (parts_view parts.now) (symbols_seen symbols.now) libs (readable_table chained) lists) }
    {
        laws::one_list_of_image_fixups();
        let rebases = Items::Rebases(image.opcode_rebases());
        let binds = Items::Binds(image.opcode_bindings());
        let weak = Items::Weak(image.weak_binds());
        let of_rebases = KeptFixups::of(image.fixups(), kinds.rebases);
        let of_binds = KeptFixups::of(image.fixups(), kinds.binds);
        let of_chains = KeptFixups::of(image.fixups(), kinds.chains);
        let over = Sources {
            parts,
            symbols,
            libs: image.libs.as_slice(),
            table: table_of(image),
            source: StoredPointers::of(image, has_raw),
        };
        ImageRows {
            rebases: rows_of(shown.rebases, &over, rebases, of_rebases),
            binds: rows_of(shown.binds, &over, binds, of_binds),
            weak: rows_of(shown.weak, &over, weak, KeptFixups::none()),
            chains: rows_of(false, &over, Items::Hidden, of_chains),
        }
    }
}

impl<'p, 'a, A: Allocator> Listing for ImageRows<'p, 'a, '_, A> {
    type Row = Row<'p, 'a>;

    ghost text = { pointer_row_line };

    ghost left = { λ rows. lines_reported (rows_in_order (image_rows_left rows)) };

    fn next_row(&mut self) -> Option<goblin_mach::Result<Row<'p, 'a>>> {
        if let Some(row) = self.rebases.next() {
            return Some(row);
        }
        if let Some(row) = self.binds.next() {
            return Some(row);
        }
        if let Some(row) = self.weak.next() {
            return Some(row);
        }
        self.chains.next()
    }

    fn past(&self) -> usize {
        0
    }

    fn past_name(&self) -> &'static str {
        ""
    }

    fn write_row<O: Write>(row: &Row<'p, 'a>, out: &mut O) -> io::Result<()> {
        write_line(row, out)
    }
}
