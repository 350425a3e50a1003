//! The order of an image's symbols.

ghost use Rattle.std.specs.Prelude.{◌≡◌, map, IfOk, OnOk};
ghost use Rattle.mach_parts.specs.SymbolViews.{symbol_read, table_of};
ghost use Rattle.machsyms.specs.Order.{AreKeysInOrder, AreSortedKeys, key_view, symbol_key_of, keys_of_table};

use crate::selection::{SortedBy, Sorting, is_elsewhere};
use goblin_mach::symbols::{Nlist, Symbols};
use std::alloc::{AllocError, Allocator};
use std::cmp::Reverse;

// The rank of a symbol: of two symbols the first difference decides.
type Rank<'a> = (u8, u64, &'a str, u64);

/// A symbol of a table, and its rank.
#[derive(Clone, Copy)]
pub struct SortKey<'a> {
    pub rank: Rank<'a>,
    /// Its number in the table.
    pub index: usize,
}

// Returns the key of the symbol with this number. One that can't be read comes after all others.
fn key_of<'a>(
    by: SortedBy,
    index: usize,
    answer: goblin_mach::Result<(&'a str, Nlist)>,
) -> SortKey<'a>
    ensures { key_view result ≡ symbol_key_of by index (symbol_read answer.entry) }
{
    let Ok((name, symbol)) = answer else {
        let rank = (2, 0, "", 0);
        return SortKey { rank, index };
    };
    let rank = match by {
        SortedBy::Name => (0, 0, name, symbol.n_value),
        SortedBy::Address if is_elsewhere(&symbol) => (0, symbol.n_value, name, 0),
        SortedBy::Address => (1, symbol.n_value, name, 0),
    };
    SortKey { rank, index }
}

// Returns the keys of a table's symbols, in table order.
fn keys_of<'a, A: Allocator>(
    alloc: A,
    by: SortedBy,
    table: &Symbols<'a>,
) -> Result<Vec<SortKey<'a>, A>, AllocError>
    ensures { IfOk result (λ v. map key_view v.items ≡ keys_of_table by (table_of table.now)) }
{
    let mut keys = Vec::new(alloc);
    'symbols: for index in 0..table.len() {
        keys.push(key_of(by, index, table.get(index)))?;
    }
    Ok(keys)
}

// Sorts keys. Those of equal rank keep their order.
fn sort_keys<A: Allocator>(
    keys: &mut Vec<SortKey<'_>, A>,
    is_reversed: bool,
) -> Result<(), AllocError>
    ensures { OnOk result (AreSortedKeys is_reversed keys.old.items keys.new.items) }
{
    if is_reversed {
        keys.sort_by_key(|key| Reverse(key.rank))?;
        return Ok(());
    }
    keys.sort_by_key(|key| key.rank)?;
    Ok(())
}

/// Returns the keys of a table's symbols, in the selected order.
pub fn keys_in_order<'a, A: Allocator>(
    alloc: A,
    sorting: Sorting,
    table: &Symbols<'a>,
) -> Result<Vec<SortKey<'a>, A>, AllocError>
    ensures { IfOk result (λ v. AreKeysInOrder sorting (table_of table.now) v.items) }
{
    let mut keys = keys_of(alloc, sorting.by, table)?;
    sort_keys(&mut keys, sorting.is_reversed)?;
    Ok(keys)
}
