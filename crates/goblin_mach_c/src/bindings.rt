//! The bindings of an image: those of its opcodes, then those of its chains.

ghost use Rattle.std.specs.Prelude.{◌≡◌, ◌≢◌, ◌<◌, ◌^◌, ◌⊎◌, ◌∷◌, ℕ, List, [], length, Ok, Err, Some, Result, IfOk, IfSome, Option};
ghost use Rattle.mach_base.specs.Fault.{Fault, fault_of};
ghost use Rattle.mach_base.specs.Number.{slice_at};
ghost use Rattle.mach_chained.specs.Bindings.{binding_in, bindings_of};
ghost use Rattle.mach_chained.specs.FixupCursors.{IsOverFixups};
ghost use Rattle.mach_chained.specs.Fixups as fixups;
ghost use Rattle.mach_chained.specs.FixupsLeft.{fixups_left};
ghost use Rattle.mach_chained.specs.Header.{Fixups};
ghost use Rattle.mach_chained.specs.Views.{fixups_view};
ghost use Rattle.mach_chained.specs.WalkViews.{fixup_view, fixup_input_in};
ghost use Rattle.mach_dyld.specs.Imports.{BindRanges};
ghost use Rattle.mach_parts.specs.Bindings as defined;
ghost use Rattle.mach_parts.specs.Bindings.{binding_view, provider_view};
ghost use Rattle.mach_base.specs.Text.{texts};
ghost use Rattle.mach_parts.specs.declared.segment.Segment as declared_segment;
ghost use Rattle.goblin_mach.specs.Fixups.{chained_view};
ghost use Rattle.goblin_mach.specs.OpenImage.{binds_view, bytes_view};
ghost use Rattle.goblin_mach_c.specs.BindingRows.{IsBindingRow, NameIsAt, binding_row, no_binding, ordinal_number, provider_number};
ghost use Rattle.goblin_mach_c.specs.BindingPlaces.{AreBindingSitesAtStage, with_name_place};
ghost use Rattle.goblin_mach_c.specs.BindingsAfter.{AreBindingsAtStage, AreBindingsAfter, AreBindingRowsOver, AreOverOpcodes, BindingSource, ComesFirst};
ghost use Rattle.goblin_mach_c.specs.BindingsAfter.{HasPlacedName};
ghost use Rattle.goblin_mach_c.specs.BindingsAfter.{AreAt, WritesBindings};
ghost use Rattle.goblin_mach_c.specs.BindingsAfter.{all_binding_rows_left, bound_left, chains_left, binding_rows_left, opcode_rows_left, source_of};
ghost use Rattle.goblin_mach_c.specs.BindingsAfter.{ArePlacedAfter, PlaceFirst, PlacedFirst, all_placed, bound_places, chains_placed};
ghost use Rattle.goblin_mach_c.specs.BindingsAfter.{placed_left, opcode_sites_left};
ghost use Rattle.goblin_mach_c.specs.Codes.{IsRefusalCode};
ghost use Rattle.goblin_mach_c.specs.ImportsAfter.{binds_of_image};
ghost use Rattle.goblin_mach_c.specs.Sited.{reported_at};
ghost use Rattle.goblin_mach_c.specs.Stage.{stage_of};
ghost use Rattle.goblin_mach_c.specs.Opened.{FaultIn, lossy_mode};

use crate::errors::{GM_OK, code_of, gm_error, refuse, refuse_no_rows};
use crate::fixups::{ChainWalk, FixupRows, gm_fixup_cursor};
use crate::images::gm_image;
use crate::imports::{gm_bind_cursor, over, place_of_name};
use crate::items::{ItemRows, fill_items};
use crate::open::{flag, open};
use goblin_mach::chained_fixups::{ChainedFixups, Fixup, FixupKind};
use goblin_mach::imports::PlacedBinding;
use goblin_mach::segment::Segment;
use goblin_mach::{MachO, OpcodeBindingIterator, Provider};
use mach_base::{Error, Result, Steps};
use std::alloc::Global;

/// A place in memory that takes a symbol's address from a provider. The symbol's name is `name_len` bytes at `name`.
#[derive(Clone, Copy)]
#[repr(C)]
pub struct gm_binding {
    /// The address in memory of the pointer to bind, and its file offset.
    pub address: u64,
    pub offset: u64,
    /// What is added to the symbol's address.
    pub addend: i64,
    pub name: usize,
    pub name_len: usize,
    /// The ordinal of the library, 0 for other providers.
    pub library: u64,
    /// 0 a library, 1 the image itself, 2 the main program, 3 any image, 4 any image, with definitions that aren't weak before others.
    pub provider: u32,
    /// Whether the symbol may be missing, and whether it is bound at its first use: 0 or 1 each.
    pub is_weak: u32,
    pub is_lazy: u32,
    /// `GM_OK`, or why no further bindings can be read.
    pub code: u32,
}

/// The position in the bindings of an image: only numbers, which belong to the bytes and the image. All zero is the start.
#[derive(Clone, Copy)]
#[repr(C)]
pub struct gm_binding_cursor {
    /// The position in those of the opcodes.
    pub opcodes: gm_bind_cursor,
    /// The position in the fixups of the chains.
    pub chains: gm_fixup_cursor,
}

/// Returns the numbers of a provider.
#[inline(always)]
pub fn numbers_of(provider: Provider<'_>) -> (u32, u64)
    ensures provider { result.0 ≡ provider_number (provider_view provider.entry) }
    ensures ordinal { result.1 ≡ ordinal_number (provider_view provider.entry) }
{
    match provider {
        Provider::Library { ordinal, name: _ } => (0, ordinal),
        Provider::Itself => (1, 0),
        Provider::MainExecutable => (2, 0),
        Provider::Flat => (3, 0),
        Provider::WeakLookup => (4, 0),
    }
}

// Returns the row that says why no further bindings can be read.
fn refused_row(why: &Error) -> gm_binding
    ensures { result ≡ no_binding (fault_of why.now) }
{
    gm_binding {
        address: 0,
        offset: 0,
        addend: 0,
        name: 0,
        name_len: 0,
        library: 0,
        provider: 0,
        is_weak: 0,
        is_lazy: 0,
        code: code_of(why),
    }
}

// Returns a binding as C sees it.
#[inline(always)]
fn row_of(placed: &PlacedBinding<'_>) -> gm_binding
    ensures numbers { result ≡ binding_row (reported_at placed.now.binding.name.now placed.now.name_place) (binding_view placed.now.binding) }
    ensures name { (bytes : List ℕ) → HasPlacedName bytes placed.now → NameIsAt bytes result.name placed.now.binding.name.now }
{
    let binding = &placed.binding;
    let (provider, library) = numbers_of(binding.provider);
    gm_binding {
        address: binding.address,
        offset: binding.offset,
        addend: binding.addend,
        name: place_of_name(binding.name, placed.name_place),
        name_len: binding.name.len(),
        library,
        provider,
        is_weak: flag(binding.is_weak),
        is_lazy: flag(binding.is_lazy),
        code: GM_OK,
    }
}

// Returns the offset of the name of a chain's bind. `data` is the offset of the chains' data.
#[inline(always)]
fn name_place(chained: &ChainedFixups<'_>, chains_at: usize, fixup: &Fixup) -> usize
    ensures occurs { (bytes : List ℕ) (size : ℕ) → length bytes < 2 ^ 64 → slice_at size bytes chains_at ≡ Ok (fixups_view chained.now).payload
        → (segments : List (declared_segment.Segment)) (base : ℕ) (libs : List (List ℕ)) (b : defined.Binding)
        → binding_in (fixup_input_in chained.now segments base) libs (fixup_view fixup.now) ≡ Some (Ok b) → NameIsAt bytes result b.name }
    ensures own { (bytes : List ℕ) (size : ℕ) → length bytes < 2 ^ 64 → slice_at size bytes chains_at ≡ Ok (fixups_view chained.now).payload
        → (segments : List (declared_segment.Segment)) (base : ℕ) (libs : List (List ℕ)) (b : defined.Binding)
        → binding_in (fixup_input_in chained.now segments base) libs (fixup_view fixup.now) ≡ Some (Ok b)
        → (rest : List ℕ) → with_name_place chains_at (fixups_view chained.now) (fixup_view fixup.now).kind rest ≡ result ∷ rest }
{
    let FixupKind::Bind { import, addend: _ } = fixup.kind else {
        return 0;
    };
    match chained.import_name_place(import) {
        Ok(place) => chains_at.saturating_add(place),
        Err(_) => 0,
    }
}

// Returns the next binding of the chains, or the fault that ends them.
fn next_bound<'a>(
    walk: &mut ChainWalk<'a, '_>,
    libs: &[&'a str],
    segments: &[Segment<'a>],
    base: u64,
    chains_at: usize,
) -> Option<Result<PlacedBinding<'a>>>
    ensures items { ComesFirst (bound_left walk.old segments.now base (texts libs.now)) result (bound_left walk.new segments.now base (texts libs.now)) }
    ensures over { (x : fixups.FixupInput) → IsOverFixups x walk.old.fixups → IsOverFixups x walk.new.fixups }
    ensures chained { walk.new.chained ≡ walk.old.chained }
    ensures placed { (bytes : List ℕ) (size : ℕ) → length bytes < 2 ^ 64 → slice_at size bytes chains_at ≡ Ok (fixups_view walk.old.chained).payload
        → IfSome result (λ item. IfOk item (HasPlacedName bytes)) }
    ensures own { (bytes : List ℕ) (size : ℕ) → length bytes < 2 ^ 64 → slice_at size bytes chains_at ≡ Ok (fixups_view walk.old.chained).payload
        → PlaceFirst (bound_places walk.old chains_at) result (bound_places walk.new chains_at) }
{
    'fixups: loop {
        let fixup = match walk.fixups.next_counted(&mut Steps::new()) {
            None => return None,
            Some(Ok(fixup)) => fixup,
            Some(Err(why)) => return Some(Err(why)),
        };
        match walk.chained.binding(libs, segments, base, &fixup) {
            None => {}
            Some(Ok(binding)) => {
                let name_place = name_place(&walk.chained, chains_at, &fixup);
                return Some(Ok(PlacedBinding {
                    binding,
                    name_place,
                }));
            }
            Some(Err(why)) => return Some(Err(why)),
        }
    }
}

/// The bindings of an image that are left: those of its opcodes, and the fixups of its chains with the offset of their data.
#[derive(Drop)]
struct BindingRows<'a, 'b> {
    opcodes: Option<OpcodeBindingIterator<'a, 'b>>,
    fixups: FixupRows<'a, 'b>,
    libs: &'b [&'a str],
    segments: &'b [Segment<'a>],
    base: u64,
    chains_at: usize,
}

impl<'a, 'b> BindingRows<'a, 'b> {
    // Returns the next binding of the chains, or the fault that ends them.
    fn next_of_chains(&mut self) -> Option<Result<PlacedBinding<'a>>>
        ensures items { ComesFirst (chains_left self.old) result (chains_left self.new) }
        ensures opcodes { self.new.opcodes ≡ self.old.opcodes }
        ensures over { (x : BindingSource) → AreBindingRowsOver x self.old → AreBindingRowsOver x self.new }
        ensures placed { (x : BindingSource) → AreBindingRowsOver x self.old → IfSome result (λ item. IfOk item (HasPlacedName x.bytes)) }
        ensures own { (x : BindingSource) → AreBindingRowsOver x self.old → PlacedFirst (chains_placed self.old) result (chains_placed self.new) }
    {
        let (libs, segments, base, chains_at) = (
            self.libs,
            self.segments,
            self.base,
            self.chains_at,
        );
        match &mut self.fixups {
            FixupRows::Unread(reported) => {
                let why = reported.take()?;
                Some(Err(why))
            }
            FixupRows::Chains(walk) => next_bound(walk, libs, segments, base, chains_at),
        }
    }

    // Returns the next binding, or the next fault.
    #[inline(always)]
    fn step(&mut self) -> Option<Result<PlacedBinding<'a>>>
        ensures items { ComesFirst (all_binding_rows_left self.old) result (all_binding_rows_left self.new) }
        ensures over { (x : BindingSource) → AreBindingRowsOver x self.old → AreBindingRowsOver x self.new }
        ensures placed { (x : BindingSource) → AreBindingRowsOver x self.old → IfSome result (λ item. IfOk item (HasPlacedName x.bytes)) }
        ensures own { (x : BindingSource) → AreBindingRowsOver x self.old → PlacedFirst (all_placed self.old) result (all_placed self.new) }
    {
        if let Some(opcodes) = &mut self.opcodes {
            if let Some(item) = opcodes.next_placed() {
                return Some(item);
            }
        }
        self.opcodes = None;
        self.next_of_chains()
    }

    // Ends the list.
    fn end(&mut self)
        ensures left { binding_rows_left self.new ≡ [] }
        ensures placed { placed_left self.new ≡ [] }
        ensures over { (x : BindingSource) → AreBindingRowsOver x self.old → AreBindingRowsOver x self.new }
    {
        self.opcodes = None;
        self.fixups = FixupRows::Unread(None);
    }
}

impl<'a, 'b> ItemRows for BindingRows<'a, 'b> {
    type Row = gm_binding;

    ghost Source = { BindingSource };

    ghost Item = { Result (defined.Binding × ℕ) Fault };

    ghost left = { placed_left };

    ghost IsOver = { AreBindingRowsOver };

    ghost Says = { λ x item row. IsBindingRow x.bytes item row };

    #[inline(always)]
    fn next(&mut self) -> Option<gm_binding> {
        match self.step()? {
            Ok(placed) => Some(row_of(&placed)),
            Err(why) => {
                self.end();
                Some(refused_row(&why))
            }
        }
    }
}

// Returns the bindings of an image's opcodes after a cursor.
fn opcodes_after<'a, 'b>(
    image: &'b MachO<'a, Global>,
    cursor: &gm_bind_cursor,
) -> Option<OpcodeBindingIterator<'a, 'b>>
    ensures items { AreBindingsAtStage (stage_of cursor.now.stage) cursor.now.binds (binds_of_image image.now) (opcode_rows_left result) }
    ensures sites { AreBindingSitesAtStage (stage_of cursor.now.stage) cursor.now.binds (binds_of_image image.now) (opcode_sites_left result) }
    ensures over { (x : BindingSource) → x.binds ≡ binds_of_image image.now → ((b : BindRanges) → binds_view image.now ≡ Some b → b.bytes ≡ x.bytes)
        → AreOverOpcodes x result }
{
    let binds = image.binds()?;
    let (libs, segments, ctx) = (
        image.libs.as_slice(),
        image.segments.as_slice(),
        image.ctx(),
    );
    match cursor.stage {
        0 => Some(binds.bindings(libs, segments, ctx)),
        1 => Some(binds.bindings_from(libs, segments, ctx, &cursor.binds)),
        _ => None,
    }
}

// Returns a cursor before those that are left.
fn opcode_cursor(opcodes: &Option<OpcodeBindingIterator<'_, '_>>) -> gm_bind_cursor
    ensures items { (x : BindingSource) → AreOverOpcodes x opcodes.now
        → AreBindingsAtStage (stage_of result.stage) result.binds x.binds (opcode_rows_left opcodes.now) }
    ensures sites { (x : BindingSource) → AreOverOpcodes x opcodes.now
        → AreBindingSitesAtStage (stage_of result.stage) result.binds x.binds (opcode_sites_left opcodes.now) }
    ensures reserved { result.reserved ≡ 0 }
{
    match opcodes {
        None => over(),
        Some(opcodes) => gm_bind_cursor {
            binds: opcodes.cursor(),
            stage: 1,
            reserved: 0,
        },
    }
}

// Returns the offset of the data of an image's chains.
fn chains_at(image: &MachO<'_, Global>) -> usize
    ensures occur { AreAt (source_of image.now) result }
    ensures place { result ≡ (source_of image.now).chains_at }
{
    match image.chained_place() {
        Some((place, _)) => place as usize,
        None => 0,
    }
}

impl<'a, 'b> BindingRows<'a, 'b> {
    // Returns the bindings after a cursor.
    fn following(image: &'b MachO<'a, Global>, cursor: &gm_binding_cursor) -> Self
        ensures items { AreBindingsAfter cursor.now (binds_of_image image.now) (chained_view image.now) (binding_rows_left result) }
        ensures placed { ArePlacedAfter cursor.now (source_of image.now) (placed_left result) }
        ensures over { ((b : BindRanges) → binds_view image.now ≡ Some b → b.bytes ≡ bytes_view image.now) → length (bytes_view image.now) < 2 ^ 64
            → AreBindingRowsOver (source_of image.now) result }
    {
        BindingRows {
            opcodes: opcodes_after(image, &cursor.opcodes),
            fixups: FixupRows::following(image, &cursor.chains),
            libs: image.libs.as_slice(),
            segments: image.segments.as_slice(),
            base: image.base(),
            chains_at: chains_at(image),
        }
    }

    // Returns a cursor before those that are left.
    fn cursor(&self) -> gm_binding_cursor
        ensures items { (x : BindingSource) → AreBindingRowsOver x self.now → AreBindingsAfter result x.binds x.chained (binding_rows_left self.now) }
        ensures placed { (x : BindingSource) → AreBindingRowsOver x self.now → ArePlacedAfter result x (placed_left self.now) }
        ensures reserved { (result.opcodes.reserved ≡ 0) × (result.chains.reserved ≡ 0) }
    {
        gm_binding_cursor {
            opcodes: opcode_cursor(&self.opcodes),
            chains: self.fixups.cursor(),
        }
    }
}

/// Writes the bindings of an image after a cursor, those of its opcodes and then those of its chains, as many as there are and
/// fit; writes how many to `count`, and moves the cursor past them. The last row may be the error that ends them. It opens the
/// image again, and allocates memory for its commands while it runs. A refused call leaves the array, the count and the cursor
/// unchanged.
#[unsafe(no_mangle)]
pub extern "C" fn gmr_bindings(
    alloc: Global,
    bytes: &[u8],
    image: &gm_image,
    cursor: &mut gm_binding_cursor,
    out: &mut [gm_binding],
    count: &mut usize,
    error: &mut gm_error,
) -> u32
    ensures written { result ≡ 0 → WritesBindings bytes.now image.now.offset cursor.old cursor.new out.old out.new count.new }
    ensures refused { result ≢ 0 → 0 < length out.old → IsRefusalCode (FaultIn (lossy_mode image.now.is_lossy) bytes.now image.now.offset) result }
    ensures no_rows { length out.old ≡ 0 → result ≡ 6 }
    ensures array { result ≢ 0 → out.new ≡ out.old }
    ensures count { result ≢ 0 → count.new ≡ count.old }
    ensures cursor { result ≢ 0 → cursor.new ≡ cursor.old }
    ensures reserved { result ≡ 0 → (cursor.new.opcodes.reserved ≡ 0) × (cursor.new.chains.reserved ≡ 0) }
    ensures reported { result ≢ 0 → error.new.code ≡ result }
    ensures quiet { result ≡ 0 → error.new ≡ error.old }
{
    if out.is_empty() {
        return refuse_no_rows(error);
    }
    match open(alloc, bytes, image.offset, image.is_lossy != 0) {
        Ok(found) => {
            let mut rows = BindingRows::following(&found, cursor);
            *count = fill_items(&mut rows, out);
            *cursor = rows.cursor();
            GM_OK
        }
        Err(why) => refuse(&why, error),
    }
}
