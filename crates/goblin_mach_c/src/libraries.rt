//! The libraries of an image, read in place.

ghost use Rattle.std.specs.Prelude.{◌≡◌, drop};
ghost use Rattle.goblin_mach_c.specs.Fill.{Fills};
ghost use Rattle.goblin_mach_c.specs.PartRows.{attributes_number, library_kind_number, library_row_by, library_rows, number_where};

use crate::commands::Commands;
use crate::images::{ctx_of, gm_image};
use crate::picked::{Pick, Picked};
use crate::rows::{fill, skip};
use goblin_mach::libraries::brought;
use goblin_mach::{LibraryAttributes, LibraryKind};
use mach_base::{Endian, read_text};
use mach_load::LoadCommand;

/// `LC_LOAD_DYLIB`: the image needs it.
pub const GM_REQUIRED: u32 = 0;

/// `LC_LOAD_WEAK_DYLIB`: it may be missing.
pub const GM_WEAK: u32 = 1;

/// `LC_REEXPORT_DYLIB`: the image exports its exports, too.
pub const GM_REEXPORT: u32 = 2;

/// `LC_LOAD_UPWARD_DYLIB`: it may need the image in turn.
pub const GM_UPWARD: u32 = 3;

/// `LC_LAZY_LOAD_DYLIB`: it is loaded at its first use.
pub const GM_LAZY: u32 = 4;

/// The library may be missing.
pub const GM_USED_WEAK: u32 = 1;

/// The image exports the library's exports, too.
pub const GM_USED_REEXPORT: u32 = 2;

/// The library may need the image in turn.
pub const GM_USED_UPWARD: u32 = 4;

/// The library is set up when it is first used.
pub const GM_USED_DELAYED: u32 = 8;

/// A library that an image loads. Its name is `name_len` bytes at `name`.
#[derive(Clone, Copy)]
#[repr(C)]
pub struct gm_library {
    pub name: usize,
    pub name_len: usize,
    /// `GM_REQUIRED` to `GM_LAZY`.
    pub kind: u32,
    pub timestamp: u32,
    pub current_version: u32,
    pub compatibility_version: u32,
    /// How it is used: the sum of `GM_USED_WEAK` to `GM_USED_DELAYED`.
    pub attributes: u32,
    pub reserved: u32,
}

// Returns the number of a kind.
fn kind_number(kind: LibraryKind) -> u32
    ensures { result ≡ library_kind_number kind }
{
    match kind {
        LibraryKind::Required => GM_REQUIRED,
        LibraryKind::Weak => GM_WEAK,
        LibraryKind::Reexport => GM_REEXPORT,
        LibraryKind::Upward => GM_UPWARD,
        LibraryKind::Lazy => GM_LAZY,
    }
}

// Returns a number if `holds`, else 0.
fn number_where(holds: bool, number: u32) -> u32
    ensures { result ≡ number_where holds number }
{
    if holds { number } else { 0 }
}

// Returns the number of attributes.
fn attributes_number(attributes: LibraryAttributes) -> u32
    ensures { result ≡ attributes_number attributes }
{
    number_where(attributes.is_weak, GM_USED_WEAK)
        | number_where(attributes.is_reexport, GM_USED_REEXPORT)
        | number_where(attributes.is_upward, GM_USED_UPWARD)
        | number_where(attributes.is_delayed, GM_USED_DELAYED)
}

// The libraries of some bytes.
#[derive(Clone, Copy)]
struct Libraries<'a> {
    bytes: &'a [u8],
    le: Endian,
}

impl<'a> Pick for Libraries<'a> {
    type Row = gm_library;

    ghost picked = { λ s c. library_row_by s.le s.bytes.now c };

    #[inline(always)]
    fn pick(&self, command: &LoadCommand) -> Option<gm_library> {
        let (kind, dylib) = brought(command)?;
        let place = command.offset.saturating_add(dylib.name as usize);
        match read_text(self.bytes, place) {
            Ok(name) => Some(gm_library {
                name: place,
                name_len: name.len(),
                kind: kind_number(kind),
                timestamp: dylib.timestamp,
                current_version: dylib.current_version,
                compatibility_version: dylib.compatibility_version,
                attributes: attributes_number(LibraryAttributes::of(
                    self.bytes, self.le, command, kind,
                )),
                reserved: 0,
            }),
            Err(_) => None,
        }
    }
}

/// Writes the libraries of an image from index `first` on, as many as there are and fit, and returns how many. The first has ordinal 1.
#[unsafe(no_mangle)]
pub extern "C" fn gmr_libraries(
    bytes: &[u8],
    image: &gm_image,
    first: usize,
    out: &mut [gm_library],
) -> usize
    ensures { Fills (drop first (library_rows bytes.now image.now)) out.old out.new result }
{
    let mut rows = Picked {
        commands: Commands::of(bytes, image),
        what: Libraries {
            bytes,
            le: ctx_of(image).le,
        },
    };
    skip(&mut rows, first);
    fill(&mut rows, out)
}
