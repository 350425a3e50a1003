//! The imports of an image's binds: those of opcodes only.

ghost use Rattle.std.specs.Prelude.{◌≡◌, ◌≢◌, ◌<◌, ℕ, List, [], length, Result, Some, ◌⊎◌};
ghost use Rattle.mach_base.specs.Fault.{Fault, fault_of};
ghost use Rattle.mach_dyld.specs.BindCursors.{TextIsAt};
ghost use Rattle.mach_dyld.specs.BindViews.{bind_import_view};
ghost use Rattle.mach_dyld.specs.Imports as defined;
ghost use Rattle.mach_dyld.specs.Sites.{Site};
ghost use Rattle.goblin_mach.specs.OpenImage.{binds_view};
ghost use Rattle.goblin_mach_c.specs.BindingRows.{NameIsAt};
ghost use Rattle.goblin_mach_c.specs.Codes.{IsRefusalCode};
ghost use Rattle.goblin_mach_c.specs.ImportRows.{IsImportRow, IsNameAt, import_row, no_import};
ghost use Rattle.goblin_mach_c.specs.ImportsAfter.{AreImportsAfter, AreImportRowsOver, AreSitesAfter, Binds, WritesImports, binds_of_image};
ghost use Rattle.goblin_mach_c.specs.ImportsAfter.{imports_in_rows, import_rows_left, sites_in_rows};
ghost use Rattle.goblin_mach_c.specs.Opened.{FaultIn, lossy_mode};
ghost use Rattle.goblin_mach_c.specs.Sited.{reported_at};

use crate::errors::{GM_OK, code_of, gm_error, refuse, refuse_no_rows};
use crate::images::gm_image;
use crate::items::{ItemRows, fill_items};
use crate::open::{flag, open};
use goblin_mach::MachO;
use goblin_mach::imports::{BindCursor, BindIterator, PlacedImport};
use mach_base::{Error, Result};
use std::alloc::Global;

/// A symbol that the image takes from a library. Its name is `name_len` bytes at `name`, and its library has ordinal `library`, 0
/// for the image itself.
#[derive(Clone, Copy)]
#[repr(C)]
pub struct gm_import {
    /// The address in memory of the pointer to bind, and its file offset.
    pub address: u64,
    pub offset: u64,
    /// What is added to the symbol's address.
    pub addend: i64,
    /// The offset after the last DONE before the bind, counted from the start of its range, or 0.
    pub start_of_sequence_offset: u64,
    pub name: usize,
    pub name_len: usize,
    pub library: u64,
    /// 8 for a lazy import, else 0.
    pub size: usize,
    /// Whether the symbol may be missing, and whether it is bound at its first use: 0 or 1 each.
    pub is_weak: u32,
    pub is_lazy: u32,
    /// `GM_OK`, or why no further imports can be read.
    pub code: u32,
    pub reserved: u32,
}

/// The position in the imports of an image: only numbers, which belong to the bytes and the image. All zero is the start.
#[derive(Clone, Copy)]
#[repr(C)]
pub struct gm_bind_cursor {
    /// The position in the streams.
    pub binds: BindCursor,
    /// 0 at the start, 1 in the streams; any other number is the end.
    pub stage: u32,
    pub reserved: u32,
}

/// Returns the offset reported for a name; an empty one is reported at 0.
#[inline(always)]
pub fn place_of_name(name: &str, place: usize) -> usize
    ensures place { result ≡ reported_at name.now place }
    ensures text { (bytes : List ℕ) → TextIsAt bytes place name.now → IsNameAt bytes result name.now }
    ensures occurs { (bytes : List ℕ) → (name.now ≡ []) ⊎ NameIsAt bytes place name.now → NameIsAt bytes result name.now }
{
    if name.is_empty() { 0 } else { place }
}

// Returns the row that says why no further imports can be read.
fn refused_row(why: &Error) -> gm_import
    ensures { result ≡ no_import (fault_of why.now) }
{
    gm_import {
        address: 0,
        offset: 0,
        addend: 0,
        start_of_sequence_offset: 0,
        name: 0,
        name_len: 0,
        library: 0,
        size: 0,
        is_weak: 0,
        is_lazy: 0,
        code: code_of(why),
        reserved: 0,
    }
}

// Returns an import as C sees it.
#[inline(always)]
fn row_of(placed: &PlacedImport<'_>) -> gm_import
    ensures numbers { result ≡ import_row (reported_at placed.now.import.name.now placed.now.name_place) placed.now.library
        (bind_import_view placed.now.import) }
    ensures name { (bytes : List ℕ) → TextIsAt bytes placed.now.name_place placed.now.import.name.now
        → IsNameAt bytes result.name placed.now.import.name.now }
{
    let import = &placed.import;
    gm_import {
        address: import.address,
        offset: import.offset,
        addend: import.addend,
        start_of_sequence_offset: import.start_of_sequence_offset,
        name: place_of_name(import.name, placed.name_place),
        name_len: import.name.len(),
        library: placed.library,
        size: import.size,
        is_weak: flag(import.is_weak),
        is_lazy: flag(import.is_lazy),
        code: GM_OK,
        reserved: 0,
    }
}

/// The imports of an image that are left: none, or those of its binds.
#[derive(Drop)]
enum ImportRows<'a, 'b> {
    Nothing,
    Binds(BindIterator<'a, 'b>),
}

impl<'a, 'b> ItemRows for ImportRows<'a, 'b> {
    type Row = gm_import;

    ghost Source = { List ℕ × Binds };

    ghost Item = { Result (defined.Import × Site) Fault };

    ghost left = { import_rows_left };

    ghost IsOver = { AreImportRowsOver };

    ghost Says = { λ x item row. IsImportRow x.0 x.1.libs item row };

    #[inline(always)]
    fn next(&mut self) -> Option<gm_import> {
        match self {
            ImportRows::Nothing => None,
            ImportRows::Binds(imports) => match imports.next_placed()? {
                Ok(placed) => Some(row_of(&placed)),
                Err(why) => Some(refused_row(&why)),
            },
        }
    }
}

impl<'a, 'b> ImportRows<'a, 'b> {
    // Returns the imports after a cursor.
    fn following(image: &'b MachO<'a, Global>, cursor: &gm_bind_cursor) -> Self
        ensures items { AreImportsAfter cursor.now (binds_of_image image.now) (imports_in_rows result) }
        ensures sites { AreSitesAfter cursor.now (binds_of_image image.now) (sites_in_rows result) }
        ensures over { (bytes : List ℕ) → ((b : defined.BindRanges) → binds_view image.now ≡ Some b → b.bytes ≡ bytes)
            → AreImportRowsOver (bytes, binds_of_image image.now) result }
    {
        let Some(binds) = image.binds() else {
            return ImportRows::Nothing;
        };
        let (libs, segments, ctx) = (
            image.libs.as_slice(),
            image.segments.as_slice(),
            image.ctx(),
        );
        match cursor.stage {
            0 => ImportRows::Binds(binds.iter(libs, segments, ctx)),
            1 => ImportRows::Binds(binds.imports_from(libs, segments, ctx, &cursor.binds)),
            _ => ImportRows::Nothing,
        }
    }

    // Returns a cursor before those that are left.
    fn cursor(&self) -> gm_bind_cursor
        ensures items { (x : List ℕ × Binds) → AreImportRowsOver x self.now → AreImportsAfter result x.1 (imports_in_rows self.now) }
        ensures sites { (x : List ℕ × Binds) → AreImportRowsOver x self.now → AreSitesAfter result x.1 (sites_in_rows self.now) }
        ensures reserved { result.reserved ≡ 0 }
    {
        match self {
            ImportRows::Nothing => over(),
            ImportRows::Binds(imports) => gm_bind_cursor {
                binds: imports.cursor(),
                stage: 1,
                reserved: 0,
            },
        }
    }
}

/// Returns the cursor after the last import.
pub fn over() -> gm_bind_cursor
    ensures stage { result.stage ≡ 2 }
    ensures reserved { result.reserved ≡ 0 }
{
    let binds = BindCursor {
        from: 0,
        upto: 0,
        place: 0,
        count: 0,
        stride: 0,
        name_place: 0,
        library: 0,
        special: 0,
        offset: 0,
        addend: 0,
        sequence: 0,
        segment: 0,
        flags: 0,
        ordinal: 0,
        is_lazy: 0,
        ended: 0,
        kind: 0,
        has_name: 0,
        has_segment: 0,
    };
    gm_bind_cursor {
        binds,
        stage: 2,
        reserved: 0,
    }
}

/// Writes the imports of an image's opcodes after a cursor, and none of chains: what dyld binds is in `gmr_bindings`. It writes as
/// many as there are and fit, writes how many to `count`, and moves the cursor past them. The last row may be the error that ends
/// them. It opens the image again, and allocates memory for its commands while it runs. A refused call leaves the array, the count
/// and the cursor unchanged.
#[unsafe(no_mangle)]
pub extern "C" fn gmr_opcode_imports(
    alloc: Global,
    bytes: &[u8],
    image: &gm_image,
    cursor: &mut gm_bind_cursor,
    out: &mut [gm_import],
    count: &mut usize,
    error: &mut gm_error,
) -> u32
    ensures written { result ≡ 0 → WritesImports bytes.now image.now.offset cursor.old cursor.new out.old out.new count.new }
    ensures refused { result ≢ 0 → 0 < length out.old → IsRefusalCode (FaultIn (lossy_mode image.now.is_lossy) bytes.now image.now.offset) result }
    ensures no_rows { length out.old ≡ 0 → result ≡ 6 }
    ensures array { result ≢ 0 → out.new ≡ out.old }
    ensures count { result ≢ 0 → count.new ≡ count.old }
    ensures cursor { result ≢ 0 → cursor.new ≡ cursor.old }
    ensures reserved { result ≡ 0 → cursor.new.reserved ≡ 0 }
    ensures reported { result ≢ 0 → error.new.code ≡ result }
    ensures quiet { result ≡ 0 → error.new ≡ error.old }
{
    if out.is_empty() {
        return refuse_no_rows(error);
    }
    match open(alloc, bytes, image.offset, image.is_lossy != 0) {
        Ok(found) => {
            let mut rows = ImportRows::following(&found, cursor);
            *count = fill_items(&mut rows, out);
            *cursor = rows.cursor();
            GM_OK
        }
        Err(why) => refuse(&why, error),
    }
}
