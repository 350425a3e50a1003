//! Lists of items that are shown by their fields.

ghost use Rattle.std.specs.Prelude.{◌≡◌, map};
ghost use Rattle.mach_cli.specs.Listings.{reported_by};

use crate::fields::FieldsForm;
use crate::listing::Listing;
use std::io;
use std::io::Write;

/// A list of items, read one after the other, of which a line or an object has the fields.
pub trait ItemList {
    type Item: Drop;

    ghost use Rattle.std.specs.Prelude.{◌≡◌, ◌∷◌, [], List, Result, MatchOption, OnOk};
    ghost use Rattle.std.specs.Io.KnownBytes.{Appends};
    ghost use Rattle.mach_base.specs.Fault.{Fault};
    ghost use Rattle.mach_base.specs.Items.{read_as};
    ghost use Rattle.mach_cli.specs.Fields.{FieldView};

    // The fields of an item; and those of the items that are left, or why one can't be read.
    ghost fields: { Self.Item → List FieldView };

    ghost items_left: { Self → List (Result (List FieldView) Fault) };

    /// Returns the next item, or why it can't be read.
    fn next_item(&mut self) -> Option<goblin_mach::Result<Self::Item>>
        ensures { MatchOption result (items_left self.old ≡ []) (λ item. items_left self.old ≡ read_as fields item ∷ items_left self.new) };

    /// Writes the fields of an item in a form.
    fn write_item<F: FieldsForm, O: Write>(item: &Self::Item, out: &mut O) -> io::Result<()>
        ensures { OnOk result (Appends (O.contents out.old) (O.contents out.new) (F.fields_text (fields item.now))) };
}

/// A list whose items are written in a form.
#[derive(Drop)]
pub struct InForm<L, F> {
    /// The list.
    pub list: L,
    /// The form.
    pub form: F,
    /// How many more items it claims, with records that begin past the end of the bytes.
    pub past: usize,
    /// What such items are called, as a plural.
    pub past_name: &'static str,
}

impl<L: ItemList, F: FieldsForm> Listing for InForm<L, F> {
    type Row = L::Item;

    ghost text = { λ item. F.fields_text (L.fields item) };

    ghost left = { λ s. map (reported_by F.fields_text) (L.items_left s.list) };

    ghost past = { λ s. s.past };

    ghost past_name = { λ s. s.past_name.now };

    #[tactic(auto, using(crate::proofs::Formed::formed_next))]
    fn next_row(&mut self) -> Option<goblin_mach::Result<L::Item>> {
        self.list.next_item()
    }

    fn past(&self) -> usize {
        self.past
    }

    fn past_name(&self) -> &'static str {
        self.past_name
    }

    fn write_row<O: Write>(row: &L::Item, out: &mut O) -> io::Result<()> {
        L::write_item::<F, O>(row, out)
    }
}
