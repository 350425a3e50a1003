//! The rebases of an image: those of its opcodes, then those of its chains.

ghost use Rattle.std.specs.Prelude.{◌≡◌, ◌≢◌, ◌<◌, [], Err, Ok, Result, length, option_map};
ghost use Rattle.mach_base.specs.Fault.{Fault, fault_of};
ghost use Rattle.mach_chained.specs.FixupCursors.{IsOverFixups};
ghost use Rattle.mach_chained.specs.Fixups.{FixupInput};
ghost use Rattle.mach_chained.specs.WalkViews.{fixup_view};
ghost use Rattle.mach_dyld.specs.Rebases as defined;
ghost use Rattle.mach_dyld.specs.RebasesLeft.{rebase_view};
ghost use Rattle.goblin_mach.specs.ImageStreams.{rebase_in};
ghost use Rattle.goblin_mach_c.specs.Codes.{IsRefusalCode};
ghost use Rattle.goblin_mach_c.specs.Opened.{FaultIn, lossy_mode};
ghost use Rattle.goblin_mach_c.specs.RebaseRows.{rebase_kind_number, gm_rebase_view};
ghost use Rattle.goblin_mach_c.specs.RebasesAfter.{AreRebaseRowsOver, AreRebasesAtStage, AreRebasesAfter, IsOverOpcodes, RebaseFirst, RebaseSource};
ghost use Rattle.goblin_mach_c.specs.RebasesAfter.{WritesRebases, all_rebase_rows_left, chains_rebased, opcodes_left_by, rebase_rows_left};
ghost use Rattle.goblin_mach_c.specs.RebasesAfter.{rebase_source_of, rebased_left};
ghost use Rattle.goblin_mach_c.specs.Stage.{stage_of};

use crate::errors::{GM_OK, code_of, gm_error, refuse, refuse_no_rows};
use crate::fixups::{ChainWalk, FixupRows, gm_fixup_cursor, signing};
use crate::images::gm_image;
use crate::imports::{gm_bind_cursor, over};
use crate::items::{ItemRows, fill_items};
use crate::open::open;
use goblin_mach::MachO;
use goblin_mach::chained_fixups::{Fixup, FixupKind};
use mach_base::{Error, Result, Steps};
use mach_c_places::RebaseWalk;
use mach_c_places::opcode_ranges::rebase_range;
use mach_dyld::{Rebase, RebaseKind};
use std::alloc::Global;

/// A place in memory whose number dyld adjusts by the slide of the image: at `address`, `offset` bytes after the start of segment `segment`.
#[derive(Clone, Copy)]
#[repr(C)]
pub struct gm_rebase {
    pub address: u64,
    pub offset: u64,
    /// The number there before it is adjusted.
    pub target: u64,
    pub segment: u32,
    /// 1 a pointer, 2 an absolute address of 32 bits in code, 3 a relative one.
    pub kind: u32,
    /// Whether the pointer is signed (0 or 1), its key, its diversity, and whether its address is mixed in (0 or 1).
    pub is_signed: u32,
    pub key: u32,
    pub diversity: u32,
    pub is_address_diverse: u32,
    /// `GM_OK`, or why no further rebases can be read.
    pub code: u32,
    pub reserved: u32,
}

/// The position in the rebases of an image: only numbers, which belong to the bytes and the image. All zero is the start.
#[derive(Clone, Copy)]
#[repr(C)]
pub struct gm_rebase_cursor {
    /// The position in those of the opcodes.
    pub opcodes: gm_bind_cursor,
    /// The position in the fixups of the chains.
    pub chains: gm_fixup_cursor,
}

// Returns the number of a kind.
#[inline(always)]
fn kind_number(kind: RebaseKind) -> u32
    ensures { result ≡ rebase_kind_number kind }
{
    match kind {
        RebaseKind::Pointer => 1,
        RebaseKind::TextAbsolute32 => 2,
        RebaseKind::TextRelative32 => 3,
    }
}

// Returns the row that says why no further rebases can be read.
fn refused_row(why: &Error) -> gm_rebase
    ensures { result ≡ gm_rebase_view (Err (fault_of why.now)) }
{
    gm_rebase {
        address: 0,
        offset: 0,
        target: 0,
        segment: 0,
        kind: 0,
        is_signed: 0,
        key: 0,
        diversity: 0,
        is_address_diverse: 0,
        code: code_of(why),
        reserved: 0,
    }
}

// Returns a rebase as C sees it.
#[inline(always)]
fn row_of(rebase: &Rebase) -> gm_rebase
    ensures { result ≡ gm_rebase_view (Ok (rebase_view rebase.now)) }
{
    let (is_signed, key, diversity, is_address_diverse) = signing(rebase.auth);
    gm_rebase {
        address: rebase.address,
        offset: rebase.offset,
        target: rebase.target,
        segment: rebase.segment,
        kind: kind_number(rebase.kind),
        is_signed,
        key,
        diversity,
        is_address_diverse,
        code: GM_OK,
        reserved: 0,
    }
}

// Returns the rebase that a fixup is, if it is one.
#[inline(always)]
fn rebase_of(fixup: &Fixup) -> Option<Rebase>
    ensures { option_map rebase_view result ≡ rebase_in (fixup_view fixup.now) }
{
    match fixup.kind {
        FixupKind::Rebase { target } => Some(Rebase {
            segment: fixup.segment,
            offset: fixup.offset,
            address: fixup.address,
            target,
            kind: RebaseKind::Pointer,
            auth: fixup.auth,
        }),
        FixupKind::Bind { .. } => None,
        FixupKind::Value { .. } => None,
    }
}

// Returns the next rebase of the chains, or the fault that ends them.
fn next_rebased(walk: &mut ChainWalk<'_, '_>) -> Option<Result<Rebase>>
    ensures items { RebaseFirst (rebased_left walk.old) result (rebased_left walk.new) }
    ensures over { (x : FixupInput) → IsOverFixups x walk.old.fixups → IsOverFixups x walk.new.fixups }
    ensures chained { walk.new.chained ≡ walk.old.chained }
{
    'fixups: loop {
        let fixup = match walk.fixups.next_counted(&mut Steps::new()) {
            None => return None,
            Some(Ok(fixup)) => fixup,
            Some(Err(why)) => return Some(Err(why)),
        };
        match rebase_of(&fixup) {
            None => {}
            Some(rebase) => return Some(Ok(rebase)),
        }
    }
}

/// The rebases of an image that are left: those of its opcodes, and the fixups of its chains.
#[derive(Drop)]
struct RebaseRows<'a, 'b> {
    opcodes: Option<RebaseWalk<'a, 'b>>,
    fixups: FixupRows<'a, 'b>,
}

impl<'a, 'b> RebaseRows<'a, 'b> {
    // Returns the next rebase of the chains, or the fault that ends them.
    fn next_of_chains(&mut self) -> Option<Result<Rebase>>
        ensures items { RebaseFirst (chains_rebased self.old) result (chains_rebased self.new) }
        ensures opcodes { self.new.opcodes ≡ self.old.opcodes }
        ensures over { (x : RebaseSource) → AreRebaseRowsOver x self.old → AreRebaseRowsOver x self.new }
    {
        match &mut self.fixups {
            FixupRows::Unread(reported) => {
                let why = reported.take()?;
                Some(Err(why))
            }
            FixupRows::Chains(walk) => next_rebased(walk),
        }
    }

    // Returns the next rebase, or the next fault.
    #[inline(always)]
    fn step(&mut self) -> Option<Result<Rebase>>
        ensures items { RebaseFirst (all_rebase_rows_left self.old) result (all_rebase_rows_left self.new) }
        ensures over { (x : RebaseSource) → AreRebaseRowsOver x self.old → AreRebaseRowsOver x self.new }
    {
        if let Some(opcodes) = &mut self.opcodes {
            if let Some(item) = opcodes.next_rebase() {
                return Some(item);
            }
        }
        self.opcodes = None;
        self.next_of_chains()
    }

    // Ends the list.
    fn end(&mut self)
        ensures left { rebase_rows_left self.new ≡ [] }
        ensures over { (x : RebaseSource) → AreRebaseRowsOver x self.old → AreRebaseRowsOver x self.new }
    {
        self.opcodes = None;
        self.fixups = FixupRows::Unread(None);
    }
}

impl<'a, 'b> ItemRows for RebaseRows<'a, 'b> {
    type Row = gm_rebase;

    ghost Source = { RebaseSource };

    ghost Item = { Result defined.Rebase Fault };

    ghost left = { rebase_rows_left };

    ghost IsOver = { AreRebaseRowsOver };

    ghost Says = { λ _ item row. row ≡ gm_rebase_view item };

    #[inline(always)]
    fn next(&mut self) -> Option<gm_rebase> {
        match self.step()? {
            Ok(rebase) => Some(row_of(&rebase)),
            Err(why) => {
                self.end();
                Some(refused_row(&why))
            }
        }
    }
}

// Returns the rebases of an image's opcodes after a cursor.
fn opcodes_after<'a, 'b>(
    image: &'b MachO<'a, Global>,
    cursor: &gm_bind_cursor,
) -> Option<RebaseWalk<'a, 'b>>
    ensures items { AreRebasesAtStage (stage_of cursor.now.stage) cursor.now.binds (rebase_source_of image.now) (opcodes_left_by result) }
    ensures over { IsOverOpcodes (rebase_source_of image.now) result }
{
    let bytes = image.bytes();
    let Some(range) = rebase_range(bytes, image.load_commands.as_slice()) else {
        return None;
    };
    let segments = image.segments.as_slice();
    let ctx = image.ctx();
    match cursor.stage {
        0 => Some(RebaseWalk::start(&range, segments, ctx)),
        1 => Some(RebaseWalk::following(&range, segments, ctx, &cursor.binds)),
        _ => None,
    }
}

// Returns a cursor before those that are left.
fn opcode_cursor(opcodes: &Option<RebaseWalk<'_, '_>>) -> gm_bind_cursor
    ensures items { (x : RebaseSource) → IsOverOpcodes x opcodes.now
        → AreRebasesAtStage (stage_of result.stage) result.binds x (opcodes_left_by opcodes.now) }
    ensures reserved { result.reserved ≡ 0 }
{
    match opcodes {
        None => over(),
        Some(opcodes) => gm_bind_cursor {
            binds: opcodes.cursor(),
            stage: 1,
            reserved: 0,
        },
    }
}

impl<'a, 'b> RebaseRows<'a, 'b> {
    // Returns the rebases after a cursor.
    fn following(image: &'b MachO<'a, Global>, cursor: &gm_rebase_cursor) -> Self
        ensures items { AreRebasesAfter cursor.now (rebase_source_of image.now) (rebase_rows_left result) }
        ensures over { AreRebaseRowsOver (rebase_source_of image.now) result }
    {
        RebaseRows {
            opcodes: opcodes_after(image, &cursor.opcodes),
            fixups: FixupRows::following(image, &cursor.chains),
        }
    }

    // Returns a cursor before those that are left.
    fn cursor(&self) -> gm_rebase_cursor
        ensures items { (x : RebaseSource) → AreRebaseRowsOver x self.now → AreRebasesAfter result x (rebase_rows_left self.now) }
        ensures reserved { (result.opcodes.reserved ≡ 0) × (result.chains.reserved ≡ 0) }
    {
        gm_rebase_cursor {
            opcodes: opcode_cursor(&self.opcodes),
            chains: self.fixups.cursor(),
        }
    }
}

/// Writes the rebases of an image after a cursor, those of its opcodes and then those of its chains, as many as there are and
/// fit; writes how many to `count`, and moves the cursor past them. The last row may be the error that ends them. It opens the
/// image again, and allocates memory for its commands while it runs. A refused call leaves the array, the count and the cursor
/// unchanged.
#[unsafe(no_mangle)]
pub extern "C" fn gmr_rebases(
    alloc: Global,
    bytes: &[u8],
    image: &gm_image,
    cursor: &mut gm_rebase_cursor,
    out: &mut [gm_rebase],
    count: &mut usize,
    error: &mut gm_error,
) -> u32
    ensures written { result ≡ 0 → WritesRebases bytes.now image.now.offset cursor.old cursor.new out.old out.new count.new }
    ensures refused { result ≢ 0 → 0 < length out.old → IsRefusalCode (FaultIn (lossy_mode image.now.is_lossy) bytes.now image.now.offset) result }
    ensures no_rows { length out.old ≡ 0 → result ≡ 6 }
    ensures array { result ≢ 0 → out.new ≡ out.old }
    ensures count { result ≢ 0 → count.new ≡ count.old }
    ensures cursor { result ≢ 0 → cursor.new ≡ cursor.old }
    ensures reserved { result ≡ 0 → (cursor.new.opcodes.reserved ≡ 0) × (cursor.new.chains.reserved ≡ 0) }
    ensures reported { result ≢ 0 → error.new.code ≡ result }
    ensures quiet { result ≡ 0 → error.new ≡ error.old }
{
    if out.is_empty() {
        return refuse_no_rows(error);
    }
    match open(alloc, bytes, image.offset, image.is_lossy != 0) {
        Ok(found) => {
            let mut rows = RebaseRows::following(&found, cursor);
            *count = fill_items(&mut rows, out);
            *cursor = rows.cursor();
            GM_OK
        }
        Err(why) => refuse(&why, error),
    }
}
