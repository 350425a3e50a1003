//! The fixups of an image's chains.

ghost use Rattle.std.specs.Prelude.{◌≡◌, ◌≢◌, ◌<◌, length, Err, Result};
ghost use Rattle.mach_base.specs.Fault.{Fault, fault_of};
ghost use Rattle.mach_chained.specs.Fixups as defined;
ghost use Rattle.mach_chained.specs.PointerViews.{kind_view};
ghost use Rattle.mach_parts.specs.PointerSigning.{auth_option_view};
ghost use Rattle.mach_chained.specs.WalkViews.{fixup_read};
ghost use Rattle.goblin_mach.specs.Fixups.{chained_view};
ghost use Rattle.goblin_mach.specs.OpenImage.{segments_view};
ghost use Rattle.goblin_mach_c.specs.Codes.{IsRefusalCode};
ghost use Rattle.goblin_mach_c.specs.FixupRows as rows;
ghost use Rattle.goblin_mach_c.specs.FixupRows.{fixup_row};
ghost use Rattle.goblin_mach_c.specs.FixupsAfter.{AreFixupsAfter, AreFixupRowsOver, FixupSource, WritesFixups, fixup_rows_left};
ghost use Rattle.goblin_mach_c.specs.Opened.{FaultIn, lossy_mode};

use crate::errors::{GM_OK, code_of, gm_error, refuse, refuse_no_rows};
use crate::images::gm_image;
use crate::items::{ItemRows, fill_items};
use crate::open::{flag, open};
use goblin_mach::MachO;
use goblin_mach::chained_fixups::{
    ChainedFixups, Fixup, FixupCursor, FixupIterator, FixupKind, PointerAuth,
};
use mach_base::{Error, Result, Steps};
use std::alloc::Global;

/// A pointer that dyld changes: at `address` in memory, `offset` bytes after the start of segment `segment`.
#[derive(Clone, Copy)]
#[repr(C)]
pub struct gm_fixup {
    pub address: u64,
    pub offset: u64,
    /// The target address of a rebase, or the number.
    pub target: u64,
    pub segment: u32,
    /// 0 a rebase, 1 a bind, 2 a number that isn't a pointer.
    pub kind: u32,
    /// The index of a bind's import, and what is added to its address.
    pub import: u32,
    pub addend: i32,
    /// Whether the pointer is signed (0 or 1), its key, its diversity, and whether its address is mixed in (0 or 1).
    pub is_signed: u32,
    pub key: u32,
    pub diversity: u32,
    pub is_address_diverse: u32,
    /// `GM_OK`, or why the chains can't be read further.
    pub code: u32,
    pub reserved: u32,
}

/// Returns the four numbers of a pointer's signing.
#[inline(always)]
pub fn signing(auth: Option<PointerAuth>) -> (u32, u32, u32, u32)
    ensures signed { result.0 ≡ rows.is_signed (auth_option_view auth) }
    ensures key { result.1 ≡ rows.key_of (auth_option_view auth) }
    ensures diversity { result.2 ≡ rows.diversity_of (auth_option_view auth) }
    ensures address { result.3 ≡ rows.address_diverse (auth_option_view auth) }
{
    match auth {
        Some(auth) => (
            1,
            u32::from(auth.key),
            u32::from(auth.diversity),
            flag(auth.is_address_diverse),
        ),
        None => (0, 0, 0, 0),
    }
}

// Returns the four numbers of what a fixup does: its kind, the target, the import and the addend.
#[inline(always)]
fn selected(kind: FixupKind) -> (u32, u64, u32, i32)
    ensures kind { result.0 ≡ rows.fixup_kind_number (kind_view kind) }
    ensures target { result.1 ≡ rows.target_of_kind (kind_view kind) }
    ensures import { result.2 ≡ rows.import_of_kind (kind_view kind) }
    ensures addend { result.3 ≡ rows.addend_of_kind (kind_view kind) }
{
    match kind {
        FixupKind::Rebase { target } => (0, target, 0, 0),
        FixupKind::Bind { import, addend } => (1, 0, import, addend),
        FixupKind::Value { value } => (2, u64::from(value), 0, 0),
    }
}

// Returns the row that says why the chains can't be read further.
fn refused_row(why: &Error) -> gm_fixup
    ensures { result ≡ fixup_row (Err (fault_of why.now)) }
{
    gm_fixup {
        address: 0,
        offset: 0,
        target: 0,
        segment: 0,
        kind: 0,
        import: 0,
        addend: 0,
        is_signed: 0,
        key: 0,
        diversity: 0,
        is_address_diverse: 0,
        code: code_of(why),
        reserved: 0,
    }
}

// Returns a fixup as C sees it.
#[inline(always)]
fn row_of(found: &Result<Fixup>) -> gm_fixup
    ensures { result ≡ fixup_row (fixup_read found.now) }
{
    match found {
        Ok(fixup) => {
            let (kind, target, import, addend) = selected(fixup.kind);
            let (is_signed, key, diversity, is_address_diverse) = signing(fixup.auth);
            gm_fixup {
                address: fixup.address,
                offset: fixup.offset,
                target,
                segment: fixup.segment,
                kind,
                import,
                addend,
                is_signed,
                key,
                diversity,
                is_address_diverse,
                code: GM_OK,
                reserved: 0,
            }
        }
        Err(why) => refused_row(why),
    }
}

/// The position in the fixups of an image: only numbers, which belong to the bytes and the image. All zero is the start.
#[derive(Clone, Copy)]
#[repr(C)]
pub struct gm_fixup_cursor {
    /// The position along the chains.
    pub chains: FixupCursor,
    /// 0 at the start, 1 along the chains; any other number is the end.
    pub stage: u32,
    pub reserved: u32,
}

/// The fixups of an image's chains, and the header of these.
#[derive(Drop)]
pub struct ChainWalk<'a, 'b> {
    pub chained: ChainedFixups<'a>,
    pub fixups: FixupIterator<'a, 'b>,
}

/// The fixups of an image that are left.
#[derive(Drop)]
pub enum FixupRows<'a, 'b> {
    /// There is no chain to read; with the reason, until it is reported.
    Unread(Option<Error>),
    /// The fixups of its chains.
    Chains(ChainWalk<'a, 'b>),
}

impl<'a, 'b> ItemRows for FixupRows<'a, 'b> {
    type Row = gm_fixup;

    ghost Source = { FixupSource };

    ghost Item = { Result defined.Fixup Fault };

    ghost left = { fixup_rows_left };

    ghost IsOver = { AreFixupRowsOver };

    ghost Says = { λ _ item row. row ≡ fixup_row item };

    #[inline(always)]
    fn next(&mut self) -> Option<gm_fixup> {
        match self {
            FixupRows::Unread(reported) => {
                let why = reported.take()?;
                Some(refused_row(&why))
            }
            FixupRows::Chains(walk) => {
                let found = walk.fixups.next_counted(&mut Steps::new())?;
                Some(row_of(&found))
            }
        }
    }
}

// Returns a cursor at a stage that needs no position.
fn at_stage(stage: u32) -> gm_fixup_cursor
    ensures stage { result.stage ≡ stage }
    ensures reserved { result.reserved ≡ 0 }
{
    let chains = FixupCursor {
        segment: 0,
        number: 0,
        at: 0,
        index: 0,
        next_page: 0,
        page: 0,
        next: 0,
        has_more: 0,
        opened: 0,
        ended: 0,
    };
    gm_fixup_cursor {
        chains,
        stage,
        reserved: 0,
    }
}

impl<'a, 'b> FixupRows<'a, 'b> {
    /// Returns the fixups after a cursor.
    pub fn following(image: &'b MachO<'a, Global>, cursor: &gm_fixup_cursor) -> Self
        ensures items { AreFixupsAfter cursor.now (chained_view image.now) (segments_view image.now) (fixup_rows_left result) }
        ensures over { AreFixupRowsOver (record { chained = chained_view image.now; segments = segments_view image.now }) result }
    {
        let (segments, base) = (image.segments.as_slice(), image.base());
        match (cursor.stage, image.chained_fixups()) {
            (0, Ok(Some(chained))) => FixupRows::Chains(ChainWalk {
                chained,
                fixups: chained.fixups(segments, base),
            }),
            (0, Err(why)) => FixupRows::Unread(Some(why)),
            (1, Ok(Some(chained))) => FixupRows::Chains(ChainWalk {
                chained,
                fixups: chained.fixups_from(segments, base, &cursor.chains),
            }),
            _ => FixupRows::Unread(None),
        }
    }

    /// Returns a cursor before those that are left.
    pub fn cursor(&self) -> gm_fixup_cursor
        ensures items { (x : FixupSource) → AreFixupRowsOver x self.now → AreFixupsAfter result x.chained x.segments (fixup_rows_left self.now) }
        ensures reserved { result.reserved ≡ 0 }
    {
        match self {
            FixupRows::Unread(None) => at_stage(2),
            FixupRows::Unread(Some(_)) => at_stage(0),
            FixupRows::Chains(walk) => gm_fixup_cursor {
                chains: walk.fixups.cursor(),
                stage: 1,
                reserved: 0,
            },
        }
    }
}

/// Writes the fixups of an image's chains after a cursor, as many as there are and fit; writes how many to `count`, and moves the
/// cursor past them. The last row may be the error that ends them. It opens the image again, and allocates memory for its
/// commands while it runs. A refused call leaves the array, the count and the cursor unchanged.
#[unsafe(no_mangle)]
pub extern "C" fn gmr_fixups(
    alloc: Global,
    bytes: &[u8],
    image: &gm_image,
    cursor: &mut gm_fixup_cursor,
    out: &mut [gm_fixup],
    count: &mut usize,
    error: &mut gm_error,
) -> u32
    ensures written { result ≡ 0 → WritesFixups bytes.now image.now.offset cursor.old cursor.new out.old out.new count.new }
    ensures refused { result ≢ 0 → 0 < length out.old → IsRefusalCode (FaultIn (lossy_mode image.now.is_lossy) bytes.now image.now.offset) result }
    ensures no_rows { length out.old ≡ 0 → result ≡ 6 }
    ensures array { result ≢ 0 → out.new ≡ out.old }
    ensures count { result ≢ 0 → count.new ≡ count.old }
    ensures cursor { result ≢ 0 → cursor.new ≡ cursor.old }
    ensures reserved { result ≡ 0 → cursor.new.reserved ≡ 0 }
    ensures reported { result ≢ 0 → error.new.code ≡ result }
    ensures quiet { result ≡ 0 → error.new ≡ error.old }
{
    if out.is_empty() {
        return refuse_no_rows(error);
    }
    match open(alloc, bytes, image.offset, image.is_lossy != 0) {
        Ok(found) => {
            let mut rows = FixupRows::following(&found, cursor);
            *count = fill_items(&mut rows, out);
            *cursor = rows.cursor();
            GM_OK
        }
        Err(why) => refuse(&why, error),
    }
}
