//! The functions that dyld calls before the main function of an image, as rows.

ghost use Rattle.std.specs.Prelude.{◌≡◌, [], ℕ, List, None, map, option_map, IfOk};
ghost use Rattle.std.specs.Iterator.{YieldsFirstBy};
ghost use Rattle.goblin_mach.specs.Fixups.{chained_view};
ghost use Rattle.goblin_mach.specs.Initializers.{AreImageInitializers, initializer_read};
ghost use Rattle.goblin_mach.specs.OpenImage.{IsLossyImage, bytes_view, ctx_view, segments_view};
ghost use Rattle.mach_cli.specs.Fields.{field_view};
ghost use Rattle.machinfo.specs.Initializers.{HasInitFields, init_fields, init_row_view, init_rows_left, init_target_fields, inits_left, listed_or_fault};
ghost use Rattle.machinfo.specs.Initializers.{init_symbols};
ghost use Rattle.machinfo.specs.Parts.{entry_symbol_view};

use crate::part_fields::{above_field, distance_field, name_of_symbol};
use crate::parts::{EntrySymbol, symbol_to_show};
use crate::strings::located_fields;
use goblin_mach::{AddressMap, Initializer, InitializerIterator, MachO};
use mach_cli::{Field, FieldsForm, ItemList, Value};
use std::alloc::{AllocError, Allocator};
use std::io;
use std::io::Write;

/// The initializers of an image, or why they can't be read.
#[derive(Drop)]
pub struct InitRows<'a, 'b> {
    /// The first of them, or the error, if it was not taken.
    pub first: Option<goblin_mach::Result<Initializer>>,
    /// Those after it.
    pub items: Option<InitializerIterator<'a, 'b>>,
}

impl<'a, 'b> InitRows<'a, 'b> {
    /// Returns those of an image. If there is no first one, there are none.
    pub fn of<A: Allocator>(image: &'b MachO<'a, A>) -> Self
        ensures listed { (found : _) × AreImageInitializers (ctx_view image.now) (bytes_view image.now) (chained_view image.now) (segments_view image.now) found
            × (init_rows_left result ≡ listed_or_fault found) }
        ensures none { result.first ≡ None → init_rows_left result ≡ [] }
    {
        match image.initializers() {
            Ok(mut items) => InitRows {
                first: items.next(),
                items: Some(items),
            },
            Err(e) => InitRows {
                first: Some(Err(e)),
                items: None,
            },
        }
    }

    // Returns the next initializer, or an error.
    fn take_next(&mut self) -> Option<goblin_mach::Result<Initializer>>
        ensures { YieldsFirstBy initializer_read init_rows_left self.old result self.new }
    {
        if let Some(first) = self.first.take() {
            return Some(first);
        }
        match &mut self.items {
            Some(items) => items.next(),
            None => None,
        }
    }
}

/// An initializer, and the symbol at the function that it calls.
#[derive(Clone, Copy)]
pub struct InitRow<'a> {
    /// The initializer.
    pub initializer: Initializer,
    /// The symbol, if there is one.
    pub symbol: Option<EntrySymbol<'a>>,
}

/// The initializers of an image, with its symbols by address.
#[derive(Drop)]
pub struct InitList<'a, 'b, A: Allocator> {
    /// The symbols, if there are initializers.
    pub symbols: Option<AddressMap<'a, 'b, A, A>>,
    /// The initializers.
    pub rows: InitRows<'a, 'b>,
}

impl<'a, 'b, A: Allocator + Clone> InitList<'a, 'b, A> {
    /// Returns those of an image. Only if it has an initializer, its symbols are sorted. It is refused only if memory runs out.
    pub fn of(alloc: &A, image: &'b MachO<'a, A>) -> Result<Self, AllocError>
        ensures { (bytes : List ℕ) → IsLossyImage bytes 0 image.now → IfOk result (λ list. HasInitFields bytes 0 (inits_left list)) }
    {
        let rows = InitRows::of(image);
        if rows.first.is_none() {
            let symbols = None;
            return Ok(InitList { symbols, rows });
        }
        match AddressMap::new(alloc, image) {
            Ok(symbols) => Ok(InitList {
                symbols: Some(symbols),
                rows,
            }),
            Err(_) => Err(AllocError),
        }
    }
}

// Returns the symbol at an address, if there is one.
fn symbol_in<'a, A: Allocator>(
    symbols: &Option<AddressMap<'a, '_, A, A>>,
    address: u64,
) -> Option<EntrySymbol<'a>>
    ensures { option_map entry_symbol_view result ≡ init_symbols symbols.now address }
{
    match symbols {
        Some(symbols) => symbol_to_show(symbols.symbol_at(address)),
        None => None,
    }
}

// Returns an initializer with the symbol at its function.
fn with_symbol<'a, A: Allocator>(
    symbols: &Option<AddressMap<'a, '_, A, A>>,
    initializer: Initializer,
) -> InitRow<'a>
    ensures { init_row_view result ≡ init_fields (init_symbols symbols.now) initializer }
{
    InitRow {
        initializer,
        symbol: symbol_in(symbols, initializer.target),
    }
}

// Returns the fields for the function of an initializer: its address, and the symbol there with the distance.
fn target_fields<'a>(target: u64, symbol: Option<EntrySymbol<'a>>) -> [Field<'a>; 4]
    ensures { map field_view result ≡ init_target_fields target (option_map entry_symbol_view symbol.entry) }
{
    [
        Field::new("target", Value::Hex(target), 3).wide(11),
        Field::new("symbol", Value::OptionalText(name_of_symbol(symbol)), 4),
        above_field(symbol),
        distance_field(symbol),
    ]
}

impl<'a, 'b, A: Allocator> ItemList for InitList<'a, 'b, A> {
    type Item = InitRow<'a>;

    ghost fields = { init_row_view };

    ghost items_left = { inits_left };

    fn next_item(&mut self) -> Option<goblin_mach::Result<InitRow<'a>>> {
        match self.rows.take_next()? {
            Ok(initializer) => Some(Ok(with_symbol(&self.symbols, initializer))),
            Err(error) => Some(Err(error)),
        }
    }

    fn write_item<F: FieldsForm, O: Write>(row: &InitRow<'a>, out: &mut O) -> io::Result<()> {
        let found = &row.initializer;
        let target = target_fields(found.target, row.symbol);
        F::write_both(&located_fields(found.slot, &found.section), &target, out)
    }
}
