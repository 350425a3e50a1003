//! Whether the exports of an image are a list.

ghost use Rattle.std.specs.Prelude.{◌≡◌, ◌≢◌, ◌⊎◌, [], ℕ, List, IfErr, OnOk};
ghost use Rattle.mach_base.specs.Answer.{ErrorMeets};
ghost use Rattle.mach_dyld.specs.Trie.{Entry};
ghost use Rattle.mach_dyld.specs.TrieRange.{TrieRange, ListsExports, ExportsFault};
ghost use Rattle.mach_dyld.specs.Walks.{HasGiven};
ghost use Rattle.goblin_mach.specs.Facts.{HasExports, HasExportsFault};
ghost use Rattle.goblin_mach_c.specs.Codes.{IsRefusalCode};
ghost use Rattle.goblin_mach_c.specs.ExportRows.{WalkFault};
ghost use Rattle.goblin_mach_c.specs.Opened.{lossy_mode};

use crate::errors::{GM_OK, gm_error, refuse};
use crate::images::gm_image;
use crate::open::open;
use goblin_mach::exports::ExportWalk;
use goblin_mach::laws::walked_exports_of_image;
use mach_base::Result;
use std::alloc::Global;

// Visits all items of a walk.
fn go_over(mut walk: ExportWalk<'_, '_>) -> Result<()>
    ensures whole { (t : TrieRange) (libs : List (List ℕ)) → HasGiven t libs [] walk.entry
        → OnOk result ((list : List Entry) × ListsExports t libs list) }
    ensures refused { (t : TrieRange) (libs : List (List ℕ)) → HasGiven t libs [] walk.entry → IfErr result (ErrorMeets (ExportsFault t libs)) }
{
    'exports: while let Some(export) = walk.next() {
        export?;
    }
    Ok(())
}

// Visits the exports of the image at a place.
fn go_over_exports(alloc: Global, bytes: &[u8], offset: usize, lossy: bool) -> Result<()>
    ensures whole { OnOk result ((list : List Entry) × HasExports bytes.now offset list) }
    ensures refused { IfErr result (ErrorMeets (WalkFault lossy bytes.now offset)) }
{
    let image = open(alloc.clone()?, bytes, offset, lossy)?;
    walked_exports_of_image(&image);
    let walk = image.walk_exports(alloc)?;
    go_over(walk)
}

/// Whether all exports of an image can be read, and no two paths of its trie lead to one node. Then they are a list, and a walk
/// of `gm_exports` returns it. It opens the image again, visits all its exports, and allocates memory for its commands and one
/// bit for each byte of the trie while it runs.
#[unsafe(no_mangle)]
pub extern "C" fn gmr_exports_are_a_tree(
    alloc: Global,
    bytes: &[u8],
    image: &gm_image,
    error: &mut gm_error,
) -> u32
    ensures whole { result ≡ 0 → (list : List Entry) × HasExports bytes.now image.now.offset list }
    ensures refused { result ≢ 0 → IsRefusalCode (WalkFault (lossy_mode image.now.is_lossy) bytes.now image.now.offset) result }
    ensures reported { result ≢ 0 → error.new.code ≡ result }
    ensures quiet { result ≡ 0 → error.new ≡ error.old }
{
    match go_over_exports(alloc, bytes, image.offset, image.is_lossy != 0) {
        Ok(()) => GM_OK,
        Err(why) => refuse(&why, error),
    }
}
