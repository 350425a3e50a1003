//! One node of an export trie, as dyld reads it. Quick readers read what most nodes hold without a call. If one finds
//! nothing, the exact reader reads it or returns the fault.

ghost use Rattle.std.specs.Prelude.{◌≡◌, ◌≤◌, ◌<◌, ◌+◌, ℕ, List, length, IfOk, IfSome, IsTrue, IsOk, IsErr, MatchOption, Ok, Err, Some, true, false};
ghost use Rattle.mach_base.specs.Answer.{Reads};
ghost use Rattle.mach_base.specs.Fault.{fault_of};
ghost use Rattle.mach_base.specs.Leb128.{uleb_at};
ghost use Rattle.mach_dyld.specs.Trie.{regular};
ghost use Rattle.mach_dyld.specs.Nodes.{a_regular, info_kind, branch_at, branches_at, count_at, children_at, own_at};
ghost use Rattle.mach_base.specs.Sums.{sum_of};
ghost use Rattle.mach_dyld.specs.Exports.{info_of};
ghost use Rattle.mach_base.specs.Text.{texts};
ghost use Rattle.mach_dyld.specs.Views.{branch_of, those_read, branches_of, IsReadable, branches_in, own_in, node_of, node_after};

use crate::export_info::{
    EXPORT_SYMBOL_FLAGS_REEXPORT, EXPORT_SYMBOL_FLAGS_STUB_AND_RESOLVER, ExportInfo,
};
use crate::trie::walk::Source;
use mach_base::{Error, Result, quick_text, quick_uleb, read_text, uleb};

/// A label, and the place where the child begins.
#[derive(Clone, Copy, Debug)]
pub struct Branch<'a> {
    pub label: &'a str,
    pub start: usize,
}

/// Branches that can be read and follow each other: their number, and the place of the first.
#[derive(Clone, Copy, Debug)]
pub struct BranchRun {
    pub left: usize,
    pub place: usize,
}

/// Branches that can be read, with the first one decoded. A walk takes that branch at once, so its label is read only once.
/// That is why a walk has a reader of its own, beside `read_after` for the cursor and the look-up.
#[derive(Clone, Copy, Debug)]
pub struct Branches<'a> {
    pub first: Branch<'a>,
    pub following: BranchRun,
}

// The exact reader of a number, for those that the quick reader doesn't read.
#[cold]
#[inline(never)]
fn rare_number(bytes: &[u8], place: usize) -> Result<(u64, usize)>
    ensures { Reads (λ found. found) result (uleb_at bytes.now place) }
{
    uleb(bytes, place)
}

/// Returns the number at a place, and the place after it.
#[inline(always)]
pub fn number(bytes: &[u8], place: usize) -> Result<(u64, usize)>
    ensures { Reads (λ found. found) result (uleb_at bytes.now place) }
{
    match quick_uleb(bytes, place) {
        Some(found) => Ok(found),
        None => rare_number(bytes, place),
    }
}

// Returns the sum, if it has at most 64 bits.
#[inline(always)]
fn sum(place: usize, n: u64) -> Result<usize>
    ensures { Reads (λ sum. sum) result (sum_of place n) }
{
    match place.checked_add(n as usize) {
        Some(sum) => Ok(sum),
        None => Err(Error::Malformed("a place in a trie does not fit in 64 bits")),
    }
}

// Reads the branch at a place, of a trie that begins at `from`, and returns it with the place after it.
#[tactic(auto, unfolding(crate::specs::Nodes::branch_at))]
fn read_branch(bytes: &[u8], from: usize, place: usize) -> Result<(Branch<'_>, usize)>
    ensures { Reads (λ found. (branch_of found.0, found.1)) result (branch_at bytes.now from place) }
{
    let label = read_text(bytes, place)?;
    let (offset, after) = uleb(bytes, place + label.len() + 1)?;
    let start = sum(from, offset)?;
    Ok((Branch { label, start }, after))
}

// Tests whether `count` branches can be read, one after the other.
#[cold]
#[inline(never)]
fn test_branches(bytes: &[u8], from: usize, count: usize, first: usize) -> Result<()>
    ensures { Reads (λ _. those_read (branches_at bytes.now from count first)) result (branches_at bytes.now from count first) }
{
    let mut place = first;
    for _ in 0..count {
        let (_, after) = read_branch(bytes, from, place)?;
        place = after;
    }
    Ok(())
}

// Returns why not all of `count` branches can be read.
#[cold]
#[inline(never)]
pub(crate) fn branches_error(bytes: &[u8], from: usize, count: usize, first: usize) -> Error
    requires { IsErr (branches_at bytes.now from count first) }
    ensures { branches_at bytes.now from count first ≡ Err (fault_of result) }
{
    match test_branches(bytes, from, count, first) {
        Err(e) => e,
        Ok(()) => unreachable!(),
    }
}

/// Returns a branch and the place after it, if one can be read there.
#[tactic(auto, unfolding(crate::specs::Nodes::branch_at))]
#[inline(always)]
pub(crate) fn quick_branch(bytes: &[u8], from: usize, place: usize) -> Option<(Branch<'_>, usize)>
    ensures { MatchOption result (IsErr (branch_at bytes.now from place))
        (λ found. branch_at bytes.now from place ≡ Ok (branch_of found.0, found.1)) }
{
    let label = quick_text(bytes, place)?;
    let (offset, after) = quick_uleb(bytes, place + label.len() + 1)?;
    match from.checked_add(offset as usize) {
        Some(start) => Some((Branch { label, start }, after)),
        None => None,
    }
}

// Whether `count` branches can be read, one after the other.
#[inline(always)]
pub(crate) fn quick_test(bytes: &[u8], from: usize, count: usize, first: usize) -> bool
    ensures yes { result ≡ true → branches_at bytes.now from count first ≡ Ok (those_read (branches_at bytes.now from count first)) }
    ensures no { result ≡ false → IsErr (branches_at bytes.now from count first) }
{
    let mut place = first;
    for _ in 0..count {
        match quick_branch(bytes, from, place) {
            Some((_, after)) => place = after,
            None => return false,
        }
    }
    true
}

// Returns `count` branches, if all can be read.
#[inline(always)]
fn quick_branches(bytes: &[u8], from: usize, count: usize, place: usize) -> Option<Branches<'_>>
    requires { 0 < count }
    ensures value { MatchOption result (IsErr (branches_at bytes.now from count place))
        (λ b. branches_at bytes.now from count place ≡ Ok (branches_in bytes.now from (Some b))) }
    ensures readable { IfSome result (λ b. IsReadable bytes.now from b.following) }
    ensures count { IfSome result (λ b. b.following.left + 1 ≡ count) }
{
    let Some((first, place)) = quick_branch(bytes, from, place) else {
        return None;
    };
    let left = count - 1;
    if quick_test(bytes, from, left, place) {
        let following = BranchRun { left, place };
        Some(Branches { first, following })
    } else {
        None
    }
}

/// Returns the number of branches of a list, and the place of the first. The number is at most that of the bytes.
#[inline(always)]
pub fn read_count(bytes: &[u8], place: usize) -> Result<BranchRun>
    ensures value { Reads (λ run. (run.left, run.place)) result (count_at bytes.now place) }
    ensures few { IfOk result (λ run. run.left ≤ length bytes.now) }
{
    let (count, place) = number(bytes, place)?;
    let left = count as usize;
    if left > bytes.len() {
        return Err(Error::BufferTooShort(left, "branches"));
    }
    Ok(BranchRun { left, place })
}

/// Reads the branches of a list and decodes the first. If the result is Ok, all of them can be read.
#[inline(always)]
pub fn read_branches(bytes: &[u8], from: usize, list: BranchRun) -> Result<Branches<'_>>
    requires some { 0 < list.left }
    ensures value { Reads (λ b. branches_in bytes.now from (Some b)) result (branches_at bytes.now from list.left list.place) }
    ensures readable { IfOk result (λ b. IsReadable bytes.now from b.following) }
    ensures count { IfOk result (λ b. b.following.left + 1 ≡ list.left) }
{
    match quick_branches(bytes, from, list.left, list.place) {
        Some(branches) => Ok(branches),
        None => Err(branches_error(bytes, from, list.left, list.place)),
    }
}

/// Reads the count and returns the branches after it. If the result is Ok, all of them can be read.
#[tactic(auto, unfolding(crate::specs::Nodes::children_at))]
#[inline(always)]
pub fn read_run(bytes: &[u8], from: usize, place: usize) -> Result<BranchRun>
    ensures value { Reads (branches_of bytes.now from) result (children_at bytes.now from place) }
    ensures readable { IfOk result (IsReadable bytes.now from) }
    ensures few { IfOk result (λ b. b.left ≤ length bytes.now) }
{
    let (count, place) = number(bytes, place)?;
    let left = count as usize;
    if left > bytes.len() {
        return Err(Error::BufferTooShort(left, "branches"));
    }
    if !quick_test(bytes, from, left, place) {
        return Err(branches_error(bytes, from, left, place));
    }
    Ok(BranchRun { left, place })
}

/// Reads a node's own export of `size` bytes, and returns it with the place of the branches after it.
pub fn read_own<'a>(
    bytes: &'a [u8],
    libs: &[&'a str],
    size: u64,
    place: usize,
) -> Result<(ExportInfo<'a>, usize)>
    ensures { Reads (λ own. (info_of own.0, own.1)) result (own_at bytes.now (texts libs.now) size place) }
{
    let (flags, rest) = uleb(bytes, place)?;
    let info = ExportInfo::parse(bytes, libs, flags, rest)?;
    let after = sum(place, size)?;
    Ok((info, after))
}

// Whether the flags mean a regular export, whatever its kind: neither a re-export nor a stub.
#[inline(always)]
fn is_plain(flags: u64) -> bool
    ensures { IsTrue result → info_kind flags ≡ a_regular }
{
    flags & EXPORT_SYMBOL_FLAGS_REEXPORT == 0 && flags & EXPORT_SYMBOL_FLAGS_STUB_AND_RESOLVER == 0
}

/// Reads a regular own export of `size` bytes: returns its address, its flags, and the place of the branches after it.
#[tactic(auto, unfolding(crate::specs::Nodes::info_at, crate::specs::Nodes::regular_at))]
#[inline(always)]
pub fn quick_own(bytes: &[u8], size: u64, place: usize) -> Option<(u64, u64, usize)>
    ensures { IfSome result (λ own. (libs : List (List ℕ)) → own_at bytes.now libs size place ≡ Ok (regular own.0 own.1, own.2)) }
{
    let (flags, rest) = quick_uleb(bytes, place)?;
    if !is_plain(flags) {
        return None;
    }
    let (address, _) = quick_uleb(bytes, rest)?;
    match place.checked_add(size as usize) {
        Some(after) => Some((address, flags, after)),
        None => None,
    }
}

// The exact reader of an own export, for those that the quick reader doesn't read.
#[cold]
#[inline(never)]
fn rare_own<'a>(source: &Source<'a, '_>, size: u64, place: usize) -> Result<(ExportInfo<'a>, usize)>
    ensures { Reads (λ own. (info_of own.0, own.1)) result (own_in source.now size place) }
{
    read_own(source.bytes, source.libs, size, place)
}

/// Returns an own export of `size` bytes, and the place of the branches.
#[inline(always)]
pub fn own_export<'a>(
    source: &Source<'a, '_>,
    size: u64,
    place: usize,
) -> Result<(ExportInfo<'a>, usize)>
    ensures { Reads (λ own. (info_of own.0, own.1)) result (own_in source.now size place) }
{
    match quick_own(source.bytes, size, place) {
        Some((address, flags, after)) => Ok((ExportInfo::Regular { address, flags }, after)),
        None => rare_own(source, size, place),
    }
}

/// Reads a node after its size: its own export, if it has one, and its branches.
#[tactic(auto, unfolding(crate::specs::Nodes::inner_at, crate::specs::Nodes::terminal_at))]
#[inline(always)]
pub fn read_after<'a>(
    source: &Source<'a, '_>,
    size: u64,
    place: usize,
) -> Result<(Option<ExportInfo<'a>>, BranchRun)>
    ensures node { Reads (node_of source.now.bytes.now source.now.from) result (node_after source.now size place) }
    ensures readable { IfOk result (λ read. IsReadable source.now.bytes.now source.now.from read.1) }
    ensures few { IfOk result (λ read. read.1.left ≤ length source.now.bytes.now) }
{
    if size == 0 {
        return Ok((None, read_run(source.bytes, source.from, place)?));
    }
    let (own, place) = own_export(source, size, place)?;
    let branches = read_run(source.bytes, source.from, place)?;
    Ok((Some(own), branches))
}

/// Reads again a branch that was tested, and returns it with the place after it.
#[inline(always)]
pub fn read_again(bytes: &[u8], from: usize, place: usize) -> (Branch<'_>, usize)
    requires { IsOk (branch_at bytes.now from place) }
    ensures { branch_at bytes.now from place ≡ Ok (branch_of result.0, result.1) }
{
    match quick_branch(bytes, from, place) {
        Some(found) => found,
        None => unreachable!(),
    }
}
