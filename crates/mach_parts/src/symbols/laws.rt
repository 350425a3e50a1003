//! Laws of symbols.

ghost use Rattle.std.specs.Prelude.{◌≡◌, ◌<◌, ◌≤◌, ◌^◌, ℕ, Some, false, length, slice_get};
ghost use Rattle.std.specs.Result.{is_ok};
ghost use Rattle.mach_parts.specs.Symbols.{SymbolTable, table_in_bounds, symbols_of, symbol_at};
ghost use Rattle.mach_parts.specs.SymbolViews.{table_of};

use crate::symbols::Symbols;

/// Symbols are addressed by number. There are as many as the table claims,
/// and symbol k is the one that `get` returns, whatever the others are.
pub fn symbols_by_number()
    ensures count { (t : SymbolTable) → length (symbols_of t) ≡ t.nsyms }
    ensures item { (t : SymbolTable) (k : ℕ) → k < t.nsyms → slice_get (symbols_of t) k ≡ Some (symbol_at t k) }
{}

/// Counts the symbols. There are as many items as the table claims, including unreadable ones.
pub fn symbols_counted(symbols: &Symbols<'_>) -> usize
    ensures { result ≡ length (symbols_of (table_of symbols.now)) }
{
    symbols.iter().count()
}

/// A symbol whose record begins past the end of the bytes cannot be read.
pub fn symbols_past_the_end()
    ensures { (t : SymbolTable) (k : ℕ) → length t.bytes < 2 ^ 64 → (table_in_bounds t).nsyms ≤ k → k < t.nsyms → is_ok (symbol_at t k) ≡ false }
{}
