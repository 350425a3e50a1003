//! Which symbols are selected, in which order, and in which form.

ghost use Rattle.std.specs.Prelude.{◌≡◌};
ghost use Rattle.mach_parts.specs.SymbolViews.{symbol_read};
ghost use Rattle.machsyms.specs.Request.{is_elsewhere, takes};

use goblin_mach::symbols::{N_EXT, N_UNDF, Nlist};

/// What symbols are sorted by.
#[derive(Clone, Copy)]
pub enum SortedBy {
    /// By name, and then by value.
    Name,
    /// The symbols that another image defines first; then by value, and then by name.
    Address,
}

/// How symbols are sorted. Symbols of equal rank stay in table order.
#[derive(Clone, Copy)]
pub struct Sorting {
    pub by: SortedBy,
    /// Descending.
    pub is_reversed: bool,
}

/// What a line has.
#[derive(Clone, Copy)]
pub enum Form {
    /// The value, a letter and the name.
    Letters,
    /// The name.
    Names,
    /// The fields of the record in hexadecimal, and the name.
    Hexadecimal,
    /// The value, a description in words, and the name.
    Words,
}

/// Which symbols of an image are selected, and how they are printed.
#[derive(Clone, Copy)]
pub struct Request<'a> {
    /// Debugging entries, too.
    pub has_stabs: bool,
    /// Only external symbols.
    pub is_external: bool,
    /// Only symbols that another image defines.
    pub is_undefined: bool,
    /// Only symbols that no other image defines.
    pub is_defined: bool,
    /// How they are sorted; in table order if this is `None`.
    pub sorting: Option<Sorting>,
    pub form: Form,
    /// The name of the file before each line.
    pub file: Option<&'a str>,
    /// Names as they are, not escaped.
    pub is_raw: bool,
}

impl Request<'_> {
    /// Whether a symbol is selected. One that can't be read always is.
    pub fn takes(&self, answer: &goblin_mach::Result<(&str, Nlist)>) -> bool
        ensures { result ≡ takes self.now (symbol_read answer.now) }
    {
        let Ok((_, symbol)) = answer else {
            return true;
        };
        (self.has_stabs || !symbol.is_stab())
            && (!self.is_external || symbol.n_type & N_EXT != 0)
            && (!self.is_undefined || is_elsewhere(symbol))
            && (!self.is_defined || !is_elsewhere(symbol))
    }
}

/// Whether another image defines a symbol: it is external, has the type N_UNDF, and no value.
pub fn is_elsewhere(symbol: &Nlist) -> bool
    ensures { result ≡ is_elsewhere symbol.now }
{
    !symbol.is_stab()
        && symbol.n_type & N_EXT != 0
        && symbol.get_type() == N_UNDF
        && symbol.n_value == 0
}
