//! The exports of an image in batches. The caller keeps the numbers, the name and the open nodes of the walk.

ghost use Rattle.std.specs.Prelude.{◌≡◌, ◌≢◌, ◌-◌, ◌+◌, ◌^◌, ◌++◌, ◌<◌, ◌≤◌, ◌⊎◌, ℕ, List, Option, Some, None, drop, length, min, take};
ghost use Rattle.mach_dyld.specs.Cursors.{HasGivenTo, IsOwnAt};
ghost use Rattle.mach_dyld.specs.Exports.{info_of};
ghost use Rattle.mach_base.specs.Text.{texts};
ghost use Rattle.mach_dyld.specs.Trie.{Entry};
ghost use Rattle.mach_dyld.specs.TrieRange.{empty_range};
ghost use Rattle.goblin_mach.specs.OpenImage.{trie_view};
ghost use Rattle.goblin_mach.specs.Subjects.{trie_or_empty};
ghost use Rattle.goblin_mach_c.specs.Codes.{IsRefusalCode};
ghost use Rattle.goblin_mach_c.specs.ExportWalk.{AreWritten, EndsWholeWith, GoesAlong, GivesFurther, HasLibrary, HasNextName, HasNodeOf, HasWalkedTrie};
ghost use Rattle.goblin_mach_c.specs.ExportWalk.{IsBrought, IsCode, IsNextName, IsNodeOf, IsNumbered, StopsAt, end_number, needed_number, next_export_of};
ghost use Rattle.goblin_mach_c.specs.ExportWalk.{no_batch};
ghost use Rattle.goblin_mach_c.specs.Opened.{FaultIn, lossy_mode};
ghost use Rattle.goblin_mach_c.specs.declared.exports.Ending.TheVariants as ending;

use crate::errors::{GM_OK, gm_error, refuse, refuse_again};
use crate::find::{gm_export, row_of_export};
use crate::images::gm_image;
use crate::open::open;
use goblin_mach::MachO;
use goblin_mach::exports::{ExportInfo, ExportTrie, NextExport, Open, TrieCursor};
use goblin_mach::laws::walked_exports_of_image;
use mach_base::Error;
use std::alloc::Global;

/// The position of a walk over an image's exports: only numbers, all 0 at the start. They belong to the image, and to the name
/// and the open nodes of the previous call.
#[derive(Clone, Copy)]
#[repr(C)]
pub struct gm_export_walk {
    pub cursor: TrieCursor,
    /// 0 before the first batch, else 1.
    pub is_begun: u32,
    /// Why the walk was refused, or `GM_OK`.
    pub code: u32,
}

/// An export. Its name is `name_len` bytes at `name` in the buffer for names. For a re-export `library` is the number of the
/// library (the image itself is number 0), and `target` is the offset of the name there in the bytes.
#[derive(Clone, Copy)]
#[repr(C)]
pub struct gm_listed_export {
    pub name: usize,
    pub name_len: usize,
    pub library: usize,
    pub target: usize,
    pub what: gm_export,
}

/// What a batch holds, and why it ends.
#[derive(Clone, Copy)]
#[repr(C)]
pub struct gm_export_batch {
    /// How many rows, and how many bytes of names, were written.
    pub count: usize,
    pub names_len: usize,
    /// How many rows, bytes or open nodes are needed to go on; 0 if no more are needed.
    pub needed: usize,
    /// One of `GM_MORE` to `GM_REFUSED`.
    pub end: u32,
    pub reserved: u32,
}

/// The array is full, or the room left for names is less than a name may need.
const GM_MORE: u32 = 0;

/// There are no more exports.
const GM_END: u32 = 1;

/// There is no room for a row, or the buffer for names is smaller than the longest name that the walk allows.
const GM_NO_ROOM: u32 = 2;

/// The next name is longer than the walk allows.
const GM_NAME_SHORT: u32 = 3;

/// More nodes are open than the stack can hold.
const GM_STACK_SHORT: u32 = 4;

/// The call was refused.
const GM_REFUSED: u32 = 5;

// What comes instead of an export.
#[derive(Drop)]
enum Ending {
    End,
    Refused(Error),
    NameTooLong(usize),
    StackTooShort,
}

// Returns the next export, or what comes instead.
#[inline(always)]
fn export_or_ending(next: NextExport<'_>) -> Result<ExportInfo<'_>, Ending>
    ensures { next_export_of result ≡ next.entry }
{
    match next {
        NextExport::Export(info) => Ok(info),
        NextExport::End => Err(Ending::End),
        NextExport::Refused(error) => Err(Ending::Refused(error)),
        NextExport::NameTooLong(needed) => Err(Ending::NameTooLong(needed)),
        NextExport::StackTooShort => Err(Ending::StackTooShort),
    }
}

// Copies the first `count` bytes of a name, or all, to a place in the buffer for names, and returns how many.
#[inline(always)]
fn put_name(name: &[u8], count: usize, names: &mut [u8], at: usize) -> usize
    requires { at + length name.now ≤ length names.old }
    ensures count { result ≡ length (take count name.now) }
    ensures written { names.new ≡ take at names.old ++ take count name.now ++ drop (at + result) names.old }
    ensures len { length names.new ≡ length names.old }
{
    let count = if count < name.len() {
        count
    } else {
        name.len()
    };
    let end = at + count;
    names[at..end].copy_from_slice(&name[..count]);
    count
}

// Returns the number of the library of the last re-export, and the offset of its name there.
#[inline(always)]
fn brought_from(trie: &ExportTrie<'_>, cursor: &TrieCursor, info: &ExportInfo<'_>) -> (usize, usize)
    ensures { (libs : List (List ℕ)) → IsOwnAt trie.now.bytes libs trie.now.from cursor.now.node (info_of info.now)
        → IsBrought trie.now.bytes (IsNumbered libs) cursor.now.node (info_of info.now) result.0 result.1 }
{
    match info {
        ExportInfo::Reexport { .. } => match trie.reexport_place(cursor) {
            Some((ordinal, place)) => (ordinal as usize, place),
            None => (0, 0),
        },
        ExportInfo::Regular { .. } | ExportInfo::Stub { .. } => (0, 0),
    }
}

// Goes on along a trie, and writes the next exports: their rows into an array, and their names one after the other. It stops if
// the array is full or a name might not fit. It returns how many rows and how many bytes it wrote, and what came instead of an
// export, if anything did.
fn write_exports<'a>(
    trie: &ExportTrie<'a>,
    libs: &[&'a str],
    cursor: &mut TrieCursor,
    name: &mut [u8],
    stack: &mut [Open],
    out: &mut [gm_listed_export],
    names: &mut [u8],
    base: u64,
) -> (usize, usize, Option<Ending>)
    ensures written { (given : List Entry) × AreWritten trie.now.bytes base (IsNumbered (texts libs.now))
        (IsNodeOf trie.now (texts libs.now) (HasGivenTo trie.now (texts libs.now) cursor.old name.old stack.old)) given
        result.0 result.1 out.old out.new names.old names.new
        × ((found : List Entry) → HasGivenTo trie.now (texts libs.now) cursor.old name.old stack.old found
        → StopsAt trie.now (texts libs.now) (found ++ given) result.2 cursor.new name.new stack.new) }
    ensures full { result.2 ≡ None → (result.0 ≡ length out.old) ⊎ (length names.old < result.1 + length name.old) }
    ensures no_rows { length out.old ≡ 0 → result.2 ≡ None }
    ensures lens { (length name.new ≡ length name.old) × (length names.new ≡ length names.old) × (length stack.new ≡ length stack.old)
        × (length out.new ≡ length out.old) }
    ensures name { (n : ℕ) → result.2 ≡ Some (ending.NameTooLong n) → (length name.old < n) × IsNextName trie.now cursor.new n }
    ensures stack { result.2 ≡ Some ending.StackTooShort → length stack.old ≤ cursor.new.depth }
{
    let mut used = 0;
    for k in 0..out.len() {
        if names.len() - used < name.len() {
            return (k, used, None);
        }
        match export_or_ending(trie.next_export(libs, cursor, name, stack)) {
            Ok(info) => {
                let len = put_name(name, cursor.name_len, names, used);
                let (library, target) = brought_from(trie, cursor, &info);
                out[k] = gm_listed_export {
                    name: used,
                    name_len: len,
                    library,
                    target,
                    what: row_of_export(&info, base),
                };
                used += len;
            }
            Err(ending) => return (k, used, Some(ending)),
        }
    }
    (out.len(), used, None)
}

// Returns why a batch ends, and what is needed to go on: how many rows, bytes of a name or of names, or nodes of the stack.
fn end_of(
    ending: &Option<Ending>,
    rows: usize,
    name: usize,
    names: usize,
    used: usize,
) -> (u32, usize)
    ensures end { result.0 ≡ end_number rows names name ending.now }
    ensures needed { result.1 ≡ needed_number rows names name used ending.now }
{
    match ending {
        None if rows == 0 => (GM_NO_ROOM, 1),
        None if names < name => (GM_NO_ROOM, name),
        None => (GM_MORE, 0),
        Some(Ending::End) => (GM_END, 0),
        Some(Ending::Refused(_)) => (GM_REFUSED, 0),
        Some(Ending::NameTooLong(needed)) => (GM_NAME_SHORT, *needed),
        Some(Ending::StackTooShort) => (GM_STACK_SHORT, used.saturating_add(1)),
    }
}

// Reports a refusal, if the batch ends with one.
fn reported(ending: Option<Ending>, error: &mut gm_error) -> u32
    ensures code { IsCode ending result }
    ensures good { (rows : ℕ) (room : ℕ) (name : ℕ) → result ≡ 0 → end_number rows room name ending < 5 }
    ensures refused { (rows : ℕ) (room : ℕ) (name : ℕ) → result ≢ 0 → end_number rows room name ending ≡ 5 }
    ensures reported { result ≢ 0 → error.new.code ≡ result }
    ensures quiet { result ≡ 0 → error.new ≡ error.old }
{
    match ending {
        Some(Ending::Refused(why)) => refuse(&why, error),
        Some(Ending::End | Ending::NameTooLong(_) | Ending::StackTooShort) | None => GM_OK,
    }
}

// Starts a walk that has not begun.
fn begin(trie: &ExportTrie<'_>, walk: &mut gm_export_walk)
    ensures started { walk.new.is_begun ≢ 0 }
    ensures code { walk.new.code ≡ walk.old.code }
    ensures same { (libs : List (List ℕ)) (name : List ℕ) (stack : List Open) (found : List Entry)
        → HasWalkedTrie trie.now libs walk.old name stack found → HasWalkedTrie trie.now libs walk.new name stack found }
{
    if walk.is_begun == 0 {
        walk.cursor = trie.cursor();
        walk.is_begun = 1;
    }
}

// Goes on with a walk along a trie.
fn go_along<'a>(
    trie: &ExportTrie<'a>,
    libs: &[&'a str],
    walk: &mut gm_export_walk,
    name: &mut [u8],
    stack: &mut [Open],
    out: &mut [gm_listed_export],
    names: &mut [u8],
    batch: &mut gm_export_batch,
    base: u64,
    error: &mut gm_error,
) -> u32
    requires ready { walk.old.code ≡ 0 }
    ensures written { (given : List Entry) × AreWritten trie.now.bytes base (IsNumbered (texts libs.now))
        (IsNodeOf trie.now (texts libs.now) (HasWalkedTrie trie.now (texts libs.now) walk.old name.old stack.old)) given
        batch.new.count batch.new.names_len out.old out.new names.old names.new
        × GoesAlong trie.now (texts libs.now) walk.old walk.new name.old name.new stack.old stack.new given batch.new.end }
    ensures full { batch.new.end ≡ 0 → (batch.new.count ≡ length out.old) ⊎ (length names.old < batch.new.names_len + length name.old) }
    ensures more { batch.new.end ≡ 0 → 0 < batch.new.count }
    ensures no_rows { length out.old ≡ 0 → result ≡ 0 → (batch.new.end ≡ 2) × (batch.new.needed ≡ 1) }
    ensures no_room { batch.new.end ≡ 2 → 0 < length out.old → (length names.old < length name.old) × (batch.new.needed ≡ length name.old) }
    ensures name { batch.new.end ≡ 3 → (length name.old < batch.new.needed) × IsNextName trie.now walk.new.cursor batch.new.needed }
    ensures stack { batch.new.end ≡ 4 → (length stack.old ≤ walk.new.cursor.depth) × (batch.new.needed ≡ min (walk.new.cursor.depth + 1) (2 ^ 64 - 1)) }
    ensures unneeded { batch.new.end ≢ 2 → batch.new.end ≢ 3 → batch.new.end ≢ 4 → batch.new.needed ≡ 0 }
    ensures reserved { batch.new.reserved ≡ 0 }
    ensures refused { result ≢ 0 → batch.new.end ≡ 5 }
    ensures good { result ≡ 0 → batch.new.end < 5 }
    ensures marked { walk.new.code ≡ result }
    ensures reported { result ≢ 0 → error.new.code ≡ result }
    ensures quiet { result ≡ 0 → error.new ≡ error.old }
{
    begin(trie, walk);
    let (count, names_len, ending) = write_exports(
        trie,
        libs,
        &mut walk.cursor,
        name,
        stack,
        out,
        names,
        base,
    );
    let (end, needed) = end_of(
        &ending,
        out.len(),
        name.len(),
        names.len(),
        walk.cursor.depth,
    );
    *batch = gm_export_batch {
        count,
        names_len,
        needed,
        end,
        reserved: 0,
    };
    walk.code = reported(ending, error);
    walk.code
}

// Returns the trie of an image, or an empty one.
fn trie_of<'a, 'b>(image: &'b MachO<'a, Global>, empty: &'b ExportTrie<'a>) -> &'b ExportTrie<'a>
    requires { empty.now ≡ empty_range }
    ensures { result.now ≡ trie_or_empty (trie_view image.now) }
{
    image.export_trie().unwrap_or(empty)
}

// Returns the batch of a call that was refused before it wrote anything.
fn nothing() -> gm_export_batch
    ensures { result ≡ no_batch }
{
    gm_export_batch {
        count: 0,
        names_len: 0,
        needed: 0,
        end: GM_REFUSED,
        reserved: 0,
    }
}

/// Goes on with a walk over an image's exports. It writes a row for each next export, and its name after the previous one; and to
/// `batch` what the batch holds and why it ends.
/// `name` and `stack` belong to the walk between calls. If one is too short, or there is no room for a name, repeat the call with
/// larger ones that begin with the old contents.
/// It opens the image again, and allocates memory for its commands while it runs. If it is refused before it goes on, only the
/// batch and the error change. A walk that was refused for a fault of its trie stays refused.
#[unsafe(no_mangle)]
pub extern "C" fn gmr_exports(
    alloc: Global,
    bytes: &[u8],
    image: &gm_image,
    walk: &mut gm_export_walk,
    name: &mut [u8],
    stack: &mut [Open],
    out: &mut [gm_listed_export],
    names: &mut [u8],
    batch: &mut gm_export_batch,
    error: &mut gm_error,
) -> u32
    ensures written { (given : List Entry) × AreWritten bytes.now image.now.base (HasLibrary bytes.now image.now.offset)
        (HasNodeOf bytes.now image.now.offset walk.old name.old stack.old) given
        batch.new.count batch.new.names_len out.old out.new names.old names.new
        × GivesFurther bytes.now image.now.offset walk.old name.old stack.old given walk.new name.new stack.new
        × (batch.new.end ≡ 1 → EndsWholeWith bytes.now image.now.offset walk.old name.old stack.old given) }
    ensures refused { result ≢ 0 → IsRefusalCode (FaultIn (lossy_mode image.now.is_lossy) bytes.now image.now.offset) result
        ⊎ (walk.new.code ≡ result) }
    ensures marked { result ≢ 0 → (walk.new.code ≡ result) ⊎ (walk.new.code ≡ walk.old.code) }
    ensures kept { result ≢ 0 → walk.new.code ≡ walk.old.code → (walk.new ≡ walk.old) × (name.new ≡ name.old) × (stack.new ≡ stack.old)
        × (out.new ≡ out.old) × (names.new ≡ names.old) }
    ensures again { walk.old.code ≢ 0 → result ≡ walk.old.code }
    ensures end { (result ≡ 0 → batch.new.end < 5) × (result ≢ 0 → batch.new.end ≡ 5) }
    ensures full { batch.new.end ≡ 0 → (batch.new.count ≡ length out.old) ⊎ (length names.old < batch.new.names_len + length name.old) }
    ensures more { batch.new.end ≡ 0 → 0 < batch.new.count }
    ensures no_rows { length out.old ≡ 0 → result ≡ 0 → (batch.new.end ≡ 2) × (batch.new.needed ≡ 1) }
    ensures no_room { batch.new.end ≡ 2 → 0 < length out.old → (length names.old < length name.old) × (batch.new.needed ≡ length name.old) }
    ensures name { batch.new.end ≡ 3 → (length name.old < batch.new.needed) × HasNextName bytes.now image.now.offset walk.new batch.new.needed }
    ensures stack { batch.new.end ≡ 4 → (length stack.old ≤ walk.new.cursor.depth) × (batch.new.needed ≡ min (walk.new.cursor.depth + 1) (2 ^ 64 - 1)) }
    ensures unneeded { batch.new.end ≢ 2 → batch.new.end ≢ 3 → batch.new.end ≢ 4 → batch.new.needed ≡ 0 }
    ensures reserved { batch.new.reserved ≡ 0 }
    ensures reported { result ≢ 0 → error.new.code ≡ result }
    ensures quiet { result ≡ 0 → error.new ≡ error.old }
{
    if walk.code != 0 {
        *batch = nothing();
        return refuse_again(walk.code, error);
    }
    match open(alloc, bytes, image.offset, image.is_lossy != 0) {
        Ok(found) => {
            walked_exports_of_image(&found);
            let empty = ExportTrie::empty();
            let trie = trie_of(&found, &empty);
            go_along(
                trie,
                found.libs.as_slice(),
                walk,
                name,
                stack,
                out,
                names,
                batch,
                image.base,
                error,
            )
        }
        Err(why) => {
            *batch = nothing();
            refuse(&why, error)
        }
    }
}
