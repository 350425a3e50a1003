//! The library that provides a symbol.

ghost use Rattle.std.specs.Prelude.{◌≡◌, Bool, option_map, Some};
ghost use Rattle.mach_base.specs.Items.{read_as};
ghost use Rattle.mach_parts.specs.Bindings.{provider_view};
ghost use Rattle.machsyms.specs.SymbolWords.{origin_words, origin_text};

use crate::nm::library::short_name;
use mach_base::Result;
use mach_cli::NameText;
use mach_parts::binding::Provider;
use mach_parts::symbols::Nlist;
use std::fmt;
use std::fmt::{Display, Formatter, Write};

/// The library that provides a symbol, as far as it is recorded.
#[derive(Clone, Copy)]
pub enum Origin<'a> {
    /// Nothing is printed: the linker recorded no library, or it is the image itself or a weak lookup.
    Unsaid,
    /// The main executable.
    Executable,
    /// Any image.
    Lookup,
    /// The library with this path.
    Library(&'a str),
    /// A library with this number, which doesn't exist.
    BadOrdinal(u16),
}

/// Returns the origin of a symbol with this provider, if the linker recorded one.
pub fn origin_of<'a>(symbol: &Nlist, provider: Option<Result<Provider<'a>>>) -> Origin<'a>
    ensures { (is_raw : Bool) → origin_text is_raw result ≡ origin_words is_raw symbol.now.n_desc (option_map (read_as provider_view) provider.entry) }
{
    match provider {
        None => Origin::Unsaid,
        Some(Ok(Provider::Library { name, .. })) => Origin::Library(name),
        Some(Ok(Provider::Itself)) => Origin::Unsaid,
        Some(Ok(Provider::MainExecutable)) => Origin::Executable,
        Some(Ok(Provider::Flat)) => Origin::Lookup,
        Some(Ok(Provider::WeakLookup)) => Origin::Unsaid,
        Some(Err(_)) => Origin::BadOrdinal(symbol.n_desc >> 8),
    }
}

/// The origin as it is printed.
#[derive(Clone, Copy)]
pub struct OriginText<'a> {
    pub origin: Origin<'a>,
    pub is_raw: bool,
}

impl Display for OriginText<'_> {
    ghost output = { λ t. Some (origin_text t.is_raw t.origin) };

    fn fmt<W: Write>(&self, f: &mut Formatter<W>) -> fmt::Result {
        match self.origin {
            Origin::Unsaid => Ok(()),
            Origin::Executable => write!(f, " (from executable)"),
            Origin::Lookup => write!(f, " (dynamically looked up)"),
            Origin::Library(path) => {
                let name = NameText {
                    name: short_name(path),
                    is_raw: self.is_raw,
                };
                write!(f, " (from {name})")
            }
            Origin::BadOrdinal(ordinal) => write!(f, " (from bad library ordinal {ordinal})"),
        }
    }
}
