//! The provider of an undefined symbol, as the linker recorded it, from numbers alone.

ghost use Rattle.std.specs.Prelude.{◌≡◌, Some};
ghost use Rattle.goblin_mach.specs.ImageSlots.{bind_ordinal_of, names_library, symbol_provider_of};
ghost use Rattle.mach_parts.specs.Bindings.{provider_of};
ghost use Rattle.goblin_mach_c.specs.ProviderRows.{nameless, provider_row, provider_row_of, gm_symbol_record_view};

use crate::errors::{GM_MALFORMED, GM_OK};
use crate::images::gm_image;
use crate::symbols::gm_symbol;
use mach_parts::header::MH_TWOLEVEL;
use mach_parts::symbols::{N_PBUD, N_UNDF, Nlist};

/// The provider of a symbol: a library by its ordinal, or another one.
#[derive(Clone, Copy)]
#[repr(C)]
pub struct gm_provider {
    /// The ordinal of the library, 0 for other providers.
    pub library: u64,
    /// As for a binding: 0 a library, 1 the image itself, 2 the main program, 3 any image.
    pub provider: u32,
    /// Whether the linker recorded it: 0 or 1. If it didn't, the rest is 0.
    pub is_reported: u32,
    /// `GM_OK`, or `GM_MALFORMED` if the ordinal is past the last library.
    pub code: u32,
    pub reserved: u32,
}

// Returns the record of a symbol, except the offset of its name.
fn record_of(symbol: &gm_symbol) -> Nlist
    ensures { result ≡ gm_symbol_record_view symbol.now }
{
    Nlist {
        n_strx: 0,
        n_type: symbol.n_type,
        n_sect: symbol.section,
        n_desc: symbol.desc,
        n_value: symbol.value,
    }
}

// Whether the linker recorded the library of a symbol.
fn has_library(flags: u32, symbol: &Nlist) -> bool
    ensures { result ≡ names_library flags symbol.now }
{
    if flags & MH_TWOLEVEL == 0 || symbol.is_stab() {
        return false;
    }
    let kind = symbol.get_type();
    kind == N_UNDF && symbol.n_value == 0 || kind == N_PBUD
}

// Returns the row of a provider.
fn reported(provider: u32, library: u64, code: u32) -> gm_provider
    ensures { result ≡ provider_row_of provider library code }
{
    gm_provider {
        library,
        provider,
        is_reported: 1,
        code,
        reserved: 0,
    }
}

// Returns the provider of an ordinal, in an image with `libraries` libraries.
#[tactic(auto, unfolding(mach_parts::specs::Bindings::provider_of))]
fn provider_in(libraries: usize, ordinal: u16) -> gm_provider
    ensures { result ≡ provider_row (Some (provider_of (nameless libraries) (bind_ordinal_of ordinal))) }
{
    match ordinal {
        0 => reported(1, 0, GM_OK),
        0xff => reported(2, 0, GM_OK),
        0xfe => reported(3, 0, GM_OK),
        _ if ordinal as usize <= libraries => reported(0, u64::from(ordinal), GM_OK),
        _ => reported(0, 0, GM_MALFORMED),
    }
}

/// Writes the provider of an image's symbol, as the linker recorded it, to `found`.
#[unsafe(no_mangle)]
pub extern "C" fn gmr_symbol_provider(image: &gm_image, symbol: &gm_symbol, found: &mut gm_provider)
    ensures { found.new ≡ provider_row (symbol_provider_of image.now.flags (nameless image.now.libraries) (gm_symbol_record_view symbol.now)) }
{
    let record = record_of(symbol);
    if has_library(image.flags, &record) {
        *found = provider_in(image.libraries, symbol.desc >> 8);
    } else {
        *found = gm_provider {
            library: 0,
            provider: 0,
            is_reported: 0,
            code: GM_OK,
            reserved: 0,
        };
    }
}
