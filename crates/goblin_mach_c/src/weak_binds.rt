//! The weak binds of an image: names that it defines itself, and places that take the definition that all images share.

ghost use Rattle.std.specs.Prelude.{◌≡◌, ◌≢◌, ◌<◌, ◌⊎◌, ℕ, [], List, Result, length};
ghost use Rattle.mach_base.specs.Fault.{Fault, fault_of};
ghost use Rattle.mach_dyld.specs.WeakBinds as defined;
ghost use Rattle.mach_dyld.specs.WeakBindsLeft.{weak_bind_view};
ghost use Rattle.goblin_mach_c.specs.BindingRows.{NameIsAt};
ghost use Rattle.goblin_mach_c.specs.Codes.{IsRefusalCode};
ghost use Rattle.goblin_mach_c.specs.Opened.{FaultIn, lossy_mode};
ghost use Rattle.goblin_mach_c.specs.Sited.{reported_at};
ghost use Rattle.goblin_mach_c.specs.WeakBindsAfter.{AreWeakBindsAfter, AreWeakRowsOver, AreWeakSitesAfter, IsOverWeak, WeakSource, WritesWeakBinds};
ghost use Rattle.goblin_mach_c.specs.WeakBindsAfter.{weak_left_by, weak_rows_left, weak_sites_by, weak_source_of};
ghost use Rattle.goblin_mach_c.specs.WeakRows.{IsWeakRow, no_weak_bind, weak_name, weak_bind_row};

use crate::errors::{GM_OK, code_of, gm_error, refuse, refuse_no_rows};
use crate::images::gm_image;
use crate::imports::{gm_bind_cursor, over, place_of_name};
use crate::items::{ItemRows, fill_items};
use crate::open::{flag, open};
use goblin_mach::MachO;
use mach_base::Error;
use mach_c_places::opcode_ranges::weak_range;
use mach_c_places::{PlacedWeakBind, WeakBindWalk};
use mach_dyld::WeakBind;
use std::alloc::Global;

/// A place in memory that takes the definition of a name that all images share, or a name that the image defines itself and not
/// weakly. The name is `name_len` bytes at `name`.
#[derive(Clone, Copy)]
#[repr(C)]
pub struct gm_weak_bind {
    /// The address in memory of the pointer to bind, and its file offset.
    pub address: u64,
    pub offset: u64,
    /// What is added to the symbol's address.
    pub addend: i64,
    pub name: usize,
    pub name_len: usize,
    /// Whether the image defines the name itself: then no place is bound, and the other numbers are 0.
    pub is_strong: u32,
    /// Whether the symbol may be missing: 0 or 1.
    pub is_weak: u32,
    /// `GM_OK`, or why no further weak binds can be read.
    pub code: u32,
    pub reserved: u32,
}

// Returns the row that says why no further weak binds can be read.
fn refused_row(why: &Error) -> gm_weak_bind
    ensures { result ≡ no_weak_bind (fault_of why.now) }
{
    gm_weak_bind {
        address: 0,
        offset: 0,
        addend: 0,
        name: 0,
        name_len: 0,
        is_strong: 0,
        is_weak: 0,
        code: code_of(why),
        reserved: 0,
    }
}

// Returns a row as C sees it.
#[inline(always)]
fn row_of(placed: &PlacedWeakBind<'_>) -> gm_weak_bind
    ensures numbers { result ≡ weak_bind_row (reported_at (weak_name (weak_bind_view placed.now.row)) placed.now.name_place) (weak_bind_view placed.now.row) }
    ensures name { (bytes : List ℕ)
        → (weak_name (weak_bind_view placed.now.row) ≡ []) ⊎ NameIsAt bytes placed.now.name_place (weak_name (weak_bind_view placed.now.row))
        → NameIsAt bytes result.name (weak_name (weak_bind_view placed.now.row)) }
{
    match &placed.row {
        WeakBind::Strong { name } => gm_weak_bind {
            address: 0,
            offset: 0,
            addend: 0,
            name: place_of_name(name, placed.name_place),
            name_len: name.len(),
            is_strong: 1,
            is_weak: 0,
            code: GM_OK,
            reserved: 0,
        },
        WeakBind::Bind(binding) => gm_weak_bind {
            address: binding.address,
            offset: binding.offset,
            addend: binding.addend,
            name: place_of_name(binding.name, placed.name_place),
            name_len: binding.name.len(),
            is_strong: 0,
            is_weak: flag(binding.is_weak),
            code: GM_OK,
            reserved: 0,
        },
    }
}

/// The weak binds of an image that are left.
#[derive(Drop)]
struct WeakRows<'a, 'b> {
    walk: Option<WeakBindWalk<'a, 'b>>,
}

impl<'a, 'b> ItemRows for WeakRows<'a, 'b> {
    type Row = gm_weak_bind;

    ghost Source = { WeakSource };

    ghost Item = { Result (defined.WeakBind × ℕ) Fault };

    ghost left = { weak_rows_left };

    ghost IsOver = { AreWeakRowsOver };

    ghost Says = { λ x item row. IsWeakRow x.bytes item row };

    #[inline(always)]
    fn next(&mut self) -> Option<gm_weak_bind> {
        match &mut self.walk {
            None => None,
            Some(walk) => match walk.next_placed()? {
                Ok(placed) => Some(row_of(&placed)),
                Err(why) => Some(refused_row(&why)),
            },
        }
    }
}

// Returns the weak binds of an image after a cursor.
fn walk_after<'a, 'b>(
    image: &'b MachO<'a, Global>,
    cursor: &gm_bind_cursor,
) -> Option<WeakBindWalk<'a, 'b>>
    ensures items { AreWeakBindsAfter cursor.now (weak_source_of image.now) (weak_left_by result) }
    ensures sites { AreWeakSitesAfter cursor.now (weak_source_of image.now) (weak_sites_by result) }
    ensures over { IsOverWeak (weak_source_of image.now) result }
{
    let bytes = image.bytes();
    let Some(range) = weak_range(bytes, image.load_commands.as_slice()) else {
        return None;
    };
    let segments = image.segments.as_slice();
    let ctx = image.ctx();
    match cursor.stage {
        0 => Some(WeakBindWalk::start(&range, segments, ctx)),
        1 => Some(WeakBindWalk::following(&range, segments, ctx, &cursor.binds)),
        _ => None,
    }
}

impl<'a, 'b> WeakRows<'a, 'b> {
    // Returns a cursor before those that are left.
    fn cursor(&self) -> gm_bind_cursor
        ensures items { (x : WeakSource) → AreWeakRowsOver x self.now → AreWeakBindsAfter result x (weak_left_by self.now.walk) }
        ensures sites { (x : WeakSource) → AreWeakRowsOver x self.now → AreWeakSitesAfter result x (weak_sites_by self.now.walk) }
        ensures reserved { result.reserved ≡ 0 }
    {
        match &self.walk {
            None => over(),
            Some(walk) => gm_bind_cursor {
                binds: walk.cursor(),
                stage: 1,
                reserved: 0,
            },
        }
    }
}

/// Writes the weak binds of an image after a cursor, as many as there are and fit; writes how many to `count`, and moves the
/// cursor past them. The last row may be the error that ends them. It opens the image again, and allocates memory for its
/// commands while it runs. A refused call leaves the array, the count and the cursor unchanged.
#[unsafe(no_mangle)]
pub extern "C" fn gmr_weak_binds(
    alloc: Global,
    bytes: &[u8],
    image: &gm_image,
    cursor: &mut gm_bind_cursor,
    out: &mut [gm_weak_bind],
    count: &mut usize,
    error: &mut gm_error,
) -> u32
    ensures written { result ≡ 0 → WritesWeakBinds bytes.now image.now.offset cursor.old cursor.new out.old out.new count.new }
    ensures refused { result ≢ 0 → 0 < length out.old → IsRefusalCode (FaultIn (lossy_mode image.now.is_lossy) bytes.now image.now.offset) result }
    ensures no_rows { length out.old ≡ 0 → result ≡ 6 }
    ensures array { result ≢ 0 → out.new ≡ out.old }
    ensures count { result ≢ 0 → count.new ≡ count.old }
    ensures cursor { result ≢ 0 → cursor.new ≡ cursor.old }
    ensures reserved { result ≡ 0 → cursor.new.reserved ≡ 0 }
    ensures reported { result ≢ 0 → error.new.code ≡ result }
    ensures quiet { result ≡ 0 → error.new ≡ error.old }
{
    if out.is_empty() {
        return refuse_no_rows(error);
    }
    match open(alloc, bytes, image.offset, image.is_lossy != 0) {
        Ok(found) => {
            let mut rows = WeakRows {
                walk: walk_after(&found, cursor),
            };
            *count = fill_items(&mut rows, out);
            *cursor = rows.cursor();
            GM_OK
        }
        Err(why) => refuse(&why, error),
    }
}
