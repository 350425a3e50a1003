//! Resolved bindings: a pointer in memory that takes a symbol's address from a provider, and how a pointer is signed.

ghost use Rattle.std.specs.Prelude.{◌≡◌, pos, Ok, Err, MatchOption};
ghost use Rattle.mach_base.specs.Answer.{Reads};
ghost use Rattle.mach_base.specs.Fault.{malformed};
ghost use Rattle.mach_parts.specs.Bindings.{provider_of, provider_view};
ghost use Rattle.mach_base.specs.Text.{texts};

use mach_base::{Error, Result};

/// Where dyld looks up a symbol that an image imports.
#[derive(Clone, Copy, Debug)]
pub enum Provider<'a> {
    /// A library of the image's list of libraries.
    Library {
        /// Its number, from 1.
        ordinal: u64,
        /// Its name.
        name: &'a str,
    },
    /// The image itself.
    Itself,
    /// The main executable.
    MainExecutable,
    /// Any image, in the order in which they were loaded.
    Flat,
    /// Any image. A definition that is not weak comes before a weak one.
    WeakLookup,
}

/// A pointer in memory that takes a symbol's address from a provider.
#[derive(Clone, Copy, Debug)]
pub struct Binding<'a> {
    /// The symbol's name.
    pub name: &'a str,
    /// Where the symbol is looked up.
    pub provider: Provider<'a>,
    /// The file offset of the pointer.
    pub offset: u64,
    /// The address of the pointer in memory.
    pub address: u64,
    /// What is added to the symbol's address.
    pub addend: i64,
    /// Whether the symbol may be missing.
    pub is_weak: bool,
    /// Whether it is bound at its first use.
    pub is_lazy: bool,
}

/// How a pointer is signed on arm64e.
#[derive(Clone, Copy, Debug, PartialEq)]
pub struct PointerAuth {
    /// The key: 0 IA, 1 IB, 2 DA, 3 DB.
    pub key: u8,
    /// The value that is mixed in.
    pub diversity: u16,
    /// Whether the pointer's own address is also mixed in.
    pub is_address_diverse: bool,
}

impl<'a> Provider<'a> {
    /// Returns the provider of an ordinal. 0 is the image itself, a positive number a library, -1 the
    /// main executable, -2 any image, -3 the weak lookup. `libs` are the image's libraries, by ordinal.
    pub fn of_ordinal(libs: &[&'a str], ordinal: i64) -> Result<Self>
        ensures { Reads provider_view result (provider_of (texts libs.now) ordinal) }
    {
        match Self::by_ordinal(libs, ordinal) {
            Some(provider) => Ok(provider),
            None => Err(Error::Malformed("an ordinal names no provider")),
        }
    }

    /// Does the same, but returns `None` instead of an error.
    #[tactic(auto, unfolding(crate::specs::Bindings::provider_of))]
    #[inline(always)]
    pub fn by_ordinal(libs: &[&'a str], ordinal: i64) -> Option<Self>
        ensures { MatchOption result (provider_of (texts libs.now) ordinal ≡ Err malformed)
            (λ p. provider_of (texts libs.now) ordinal ≡ Ok (provider_view p)) }
    {
        match ordinal {
            -1 => Some(Provider::MainExecutable),
            -2 => Some(Provider::Flat),
            -3 => Some(Provider::WeakLookup),
            _ if ordinal < 0 => None,
            _ => Self::by_number(libs, ordinal.unsigned_abs()),
        }
    }

    /// Returns the provider of an unsigned ordinal: 0 is the image itself, any other number a library.
    #[tactic(auto, unfolding(crate::specs::Bindings::provider_of))]
    #[inline(always)]
    pub fn by_number(libs: &[&'a str], ordinal: u64) -> Option<Self>
        ensures { MatchOption result (provider_of (texts libs.now) (pos ordinal) ≡ Err malformed)
            (λ p. provider_of (texts libs.now) (pos ordinal) ≡ Ok (provider_view p)) }
    {
        if ordinal == 0 {
            return Some(Provider::Itself);
        }
        let name = *libs.get(ordinal as usize)?;
        Some(Provider::Library { ordinal, name })
    }
}
