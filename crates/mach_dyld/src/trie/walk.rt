//! The walk of an export trie, with a stack of open nodes: its exports, one after the other.

ghost use Rattle.std.specs.Prelude.{◌≡◌, ◌≤◌, ◌<◌, ◌+◌, ◌-◌, ◌^◌, ◌++◌, ◌∷◌, ℕ, List};
ghost use Rattle.std.specs.Prelude.{[], length, reverse, IfOk, IfErr, IfSome, IfNone, OnOk, IsNone, true, false};
ghost use Rattle.std.specs.Prelude.{◌⊎◌, Ok, Some, get_or};
ghost use Rattle.std.specs.Str.{IsUtf8};
ghost use Rattle.mach_base.specs.Answer.{Reads, FailsAs, ErrorMeets};
ghost use Rattle.mach_base.specs.Leb128.{uleb_at};
ghost use Rattle.mach_dyld.specs.Trie.{Entry, entry, own_entries};
ghost use Rattle.mach_dyld.specs.Nodes.{branches_at, children_at};
ghost use Rattle.mach_dyld.specs.Lists.{Lists};
ghost use Rattle.mach_dyld.specs.Paths.{IsTree};
ghost use Rattle.mach_dyld.specs.Visits.{Visits};
ghost use Rattle.mach_dyld.specs.Exports.{info_of, entries};
ghost use Rattle.mach_dyld.specs.Views.{source_trie, node_in, fault_in, info_in, branches_of, branches_in, IsReadable};
ghost use Rattle.mach_dyld.specs.Nowhere.{lead_nowhere, AreBarren, HaveRoom, AreKept, IsKnownBarren, OpensList, OpensNode};
ghost use Rattle.mach_dyld.specs.WalkState.{IsAtBranch, IsBetween, HasFound, IsWalk, IsRefusedWalk, StepGives, unmarked, work_ahead, unvisited, unvisited_by};

use crate::export_info::ExportInfo;
use crate::exports::Export;
use crate::trie::marks::Marks;
use crate::trie::node::{
    Branch, BranchRun, Branches, number, own_export, read_again, read_branches, read_count,
};
use crate::trie::runs::Runs;
use mach_base::{Error, Result, Steps};
use std::alloc::{AllocError, Allocator, Global};

/// The data that exports are read from: bytes, the libraries of the image, and the range of the trie.
#[derive(Clone, Copy, Debug)]
pub struct Source<'a, 'b> {
    pub bytes: &'a [u8],
    pub libs: &'b [&'a str],
    pub from: usize,
    pub upto: usize,
}

/// An open node of an export trie.
#[derive(Clone, Copy, Debug)]
#[repr(C)]
pub struct Open {
    /// The number of its branches that are left.
    pub left: usize,
    /// The place where they begin.
    pub place: usize,
    /// The length of its name.
    pub name_len: usize,
}

// Reads the size of the own export of the node at a start, and returns it with the place after it. This is the one read that
// counts as a visit.
#[inline(always)]
pub(crate) fn visit(bytes: &[u8], start: usize, steps: &mut Steps) -> Result<(u64, usize)>
    ensures value { Reads (λ found. found) result (uleb_at bytes.now start) }
    ensures visits { steps.new ≡ steps.old + 1 }
{
    steps.tick();
    number(bytes, start)
}

// Whether all of the branches lead nowhere.
#[cold]
#[inline(never)]
fn all_lead_nowhere(source: &Source, branches: BranchRun) -> bool
    requires { IsReadable source.now.bytes.now source.now.from branches }
    ensures { result ≡ lead_nowhere source.now.upto (branches_of source.now.bytes.now source.now.from branches) }
{
    let mut place = branches.place;
    for _ in 0..branches.left {
        let (branch, after) = read_again(source.bytes, source.from, place);
        if branch.start < source.upto {
            return false;
        }
        place = after;
    }
    true
}

// Whether none of a list's branches leads to a node. For most lists the first branch decides.
#[inline(always)]
pub(crate) fn is_barren(source: &Source<'_, '_>, list: Branches<'_>) -> bool
    requires { IsReadable source.now.bytes.now source.now.from list.following }
    ensures { result ≡ lead_nowhere source.now.upto (branches_in source.now.bytes.now source.now.from (Some list.entry)) }
{
    list.first.start >= source.upto && all_lead_nowhere(source, list.following)
}

// Reads the branches of a list after its count. This is the one read that is counted.
#[inline(always)]
fn read_list<'a>(
    source: &Source<'a, '_>,
    list: BranchRun,
    lists: &mut Steps,
) -> Result<Branches<'a>>
    requires some { 0 < list.left }
    ensures value { Reads (λ b. branches_in source.now.bytes.now source.now.from (Some b)) result
        (branches_at source.now.bytes.now source.now.from list.left list.place) }
    ensures readable { IfOk result (λ b. IsReadable source.now.bytes.now source.now.from b.following) }
    ensures few { IfOk result (λ b. b.following.left + 1 ≡ list.left) }
    ensures count { lists.new ≡ lists.old + 1 }
{
    lists.tick();
    read_branches(source.bytes, source.from, list)
}

// Opens the list of branches whose count is at a place. Returns None if all of them lead nowhere, and records that, so that
// such a list is read only once. Counts the lists read.
#[inline(always)]
fn open_list<'a, A: Allocator>(
    source: &Source<'a, '_>,
    barren: &mut Runs<A>,
    place: usize,
    lists: &mut Steps,
) -> Result<Option<Branches<'a>>>
    requires barren { AreBarren source.now barren.old }
    requires room { HaveRoom source.now barren.old }
    ensures opened { IfOk result (OpensList source.now place) }
    ensures fault { IfErr result (λ e. FailsAs e (children_at source.now.bytes.now source.now.from place)) }
    ensures readable { IfOk result (λ found. IfSome found (λ b. IsReadable source.now.bytes.now source.now.from b.following)) }
    ensures few { IfOk result (λ found. IfSome found (λ b. b.following.left + 1 ≤ length source.now.bytes.now)) }
    ensures barren { OnOk result (AreBarren source.now barren.new) }
    ensures room { OnOk result (HaveRoom source.now barren.new) }
    ensures kept { OnOk result (AreKept barren.old barren.new) }
    ensures known { IfOk result (λ found. IfNone found (length source.now.bytes.now < 2 ^ 32 → IsKnownBarren source.now barren.new place)) }
    ensures not_read { IsKnownBarren source.now barren.old place → lists.new ≡ lists.old }
    ensures read { lists.new ≤ lists.old + 1 }
{
    let list = read_count(source.bytes, place)?;
    if barren.know(list) {
        return Ok(None);
    }
    let found = read_list(source, list, lists)?;
    if !is_barren(source, found) {
        return Ok(Some(found));
    }
    barren.learn(source, list)?;
    Ok(None)
}

// Reads the node at a start: its own export, if it has one, and its branches, if any of them leads to a node.
#[inline(always)]
fn read_node<'a, A: Allocator>(
    source: &Source<'a, '_>,
    barren: &mut Runs<A>,
    start: usize,
    steps: &mut Steps,
) -> Result<(Option<ExportInfo<'a>>, Option<Branches<'a>>)>
    requires barren { AreBarren source.now barren.old }
    requires room { HaveRoom source.now barren.old }
    ensures visits { steps.new ≡ steps.old + 1 }
    ensures opened { IfOk result (OpensNode source.now start) }
    ensures fault { IfErr result (λ e. FailsAs e (node_in source.now start)) }
    ensures readable { IfOk result (λ read. IfSome read.1 (λ b. IsReadable source.now.bytes.now source.now.from b.following)) }
    ensures few { IfOk result (λ read. IfSome read.1 (λ b. b.following.left + 1 ≤ length source.now.bytes.now)) }
    ensures barren { OnOk result (AreBarren source.now barren.new) }
    ensures room { OnOk result (HaveRoom source.now barren.new) }
    ensures kept { OnOk result (AreKept barren.old barren.new) }
{
    let (size, place) = visit(source.bytes, start, steps)?;
    if size == 0 {
        return Ok((None, open_list(source, barren, place, &mut Steps::new())?));
    }
    let (own, place) = own_export(source, size, place)?;
    let branches = open_list(source, barren, place, &mut Steps::new())?;
    Ok((Some(own), branches))
}

// Pushes an open node on the stack, if it has branches left.
#[inline(always)]
fn keep_below<A: Allocator>(
    stack: &mut Vec<Open, A>,
    top: Open,
) -> std::result::Result<(), AllocError>
    ensures kept { OnOk result (0 < top.left → reverse stack.new.items ≡ top ∷ reverse stack.old.items) }
    ensures used_up { OnOk result (top.left ≡ 0 → reverse stack.new.items ≡ reverse stack.old.items) }
{
    if top.left != 0 {
        stack.push(top)?;
    }
    Ok(())
}

/// A walk of a trie in progress. Its memory is one bit for each byte of the trie, a stack of the open nodes and one name;
/// and four bytes for each byte of the trie from the first list on whose branches all lead nowhere.
#[derive(Drop)]
pub struct Walker<'a, 'b, A: Allocator = Global> {
    pub(crate) source: Source<'a, 'b>,
    /// The starts that were met.
    pub(crate) marks: Marks<A>,
    /// What is known of branches that lead nowhere.
    pub(crate) barren: Runs<A>,
    /// The name of the node met last.
    pub(crate) name: Vec<u8, A>,
    /// The nodes below the top that have branches left.
    pub(crate) stack: Vec<Open, A>,
    /// The node whose branch comes next, after that branch.
    pub(crate) top: Open,
    /// The branch that comes next.
    pub(crate) next: Branch<'a>,
    pub(crate) over: bool,
}

impl<'a, 'b, A: Allocator> Walker<'a, 'b, A> {
    /// Returns a walk at its start: the root is the child of its next branch.
    pub(crate) fn start(alloc: &A, source: &Source<'a, 'b>) -> Result<Self>
    where
        A: Clone,
        ensures source { IfOk result (λ w. w.source ≡ source.now) }
        ensures start { IfOk result (λ w. HasFound [] 0 w) }
        ensures left { IfOk result (λ w. unmarked w.marks ≤ source.now.upto - source.now.from) }
        ensures err { IfErr result (λ e. ErrorMeets (λ _. ⊥) e) }
    {
        let len = source.upto.saturating_sub(source.from);
        Ok(Walker {
            source: *source,
            marks: Marks::new(alloc.clone()?, len)?,
            barren: Runs::new(alloc.clone()?),
            name: Vec::new(alloc.clone()?),
            stack: Vec::new(alloc.clone()?),
            top: Open {
                left: 0,
                place: 0,
                name_len: 0,
            },
            next: Branch {
                label: "",
                start: source.from,
            },
            over: source.from >= source.upto,
        })
    }

    /// Returns the name of the last export.
    #[inline(always)]
    pub(crate) fn name(&self) -> &str
        requires { IsUtf8 self.now.name.items }
        ensures { result.now ≡ self.now.name.items }
    {
        unsafe { str::from_utf8_unchecked(self.name.as_slice()) }
    }

    // Moves to the next branch that is left, if there is one.
    #[inline(always)]
    fn go_on(&mut self)
        requires between { ∥ ((found : List Entry) × (n : ℕ) × IsBetween found n self.old) ∥₁ }
        requires on { self.old.over ≡ false }
        ensures found { (found : List Entry) (n : ℕ) → IsBetween found n self.old → HasFound found n self.new }
        ensures source { self.new.source ≡ self.old.source }
        ensures name { self.new.name.items ≡ self.old.name.items }
        ensures barren { self.new.barren ≡ self.old.barren }
        ensures marks { self.new.marks ≡ self.old.marks }
        ensures less { work_ahead self.new < work_ahead self.old }
    {
        if self.top.left == 0 {
            match self.stack.pop() {
                None => {
                    self.over = true;
                    return;
                }
                Some(below) => self.top = below,
            }
        }
        let (next, after) = read_again(self.source.bytes, self.source.from, self.top.place);
        self.next = next;
        self.top.left -= 1;
        self.top.place = after;
    }

    // Follows the next branch, and returns the own export of the node that it leads to, if there is one.
    #[inline(always)]
    fn take(&mut self, steps: &mut Steps) -> Result<Option<ExportInfo<'a>>>
        requires { ∥ ((found : List Entry) × (n : ℕ) × IsAtBranch found n self.old) ∥₁ }
        ensures source { OnOk result (self.new.source ≡ self.old.source) }
        ensures found { IfOk result (λ own. (found : List Entry) (n : ℕ) → IsAtBranch found n self.old → (m : ℕ)
            × HasFound (found ++ own_entries self.new.name.items (info_in own)) m self.new × (steps.new + n ≡ steps.old + m)) }
        ensures refused { IfErr result (λ e. (found : List Entry) (n : ℕ) → IsAtBranch found n self.old
            → IsRefusedWalk self.old.source found n steps.old steps.new e) }
        ensures utf8 { IfOk result (λ own. IfSome own (λ _. IsUtf8 self.new.name.items)) }
        ensures kept { OnOk result (AreKept self.old.barren self.new.barren) }
        ensures less { OnOk result (work_ahead self.new < work_ahead self.old) }
        ensures few { steps.new + unmarked self.new.marks ≤ steps.old + unmarked self.old.marks }
        ensures counted { steps.old + unmarked self.old.marks ≤ steps.new + unmarked self.new.marks + unvisited result }
    {
        let Branch { label, start } = self.next;
        let from = self.source.from;
        if start >= self.source.upto {
            self.go_on();
            return Ok(None);
        }
        if self.marks.is_marked(start - from) {
            return Err(Error::Malformed("two paths lead to one node"));
        }
        self.marks.mark(start - from);
        self.name.truncate(self.top.name_len);
        self.name.extend_from_slice(label.as_bytes())?;
        let (own, branches) = read_node(&self.source, &mut self.barren, start, steps)?;
        let Some(branches) = branches else {
            self.go_on();
            return Ok(own);
        };
        keep_below(&mut self.stack, self.top)?;
        let name_len = self.name.len();
        self.top = Open {
            left: branches.following.left,
            place: branches.following.place,
            name_len,
        };
        self.next = branches.first;
        Ok(own)
    }

    /// Returns the next export, whose name is then that of the walk, or the fault that ends the walk.
    #[inline(always)]
    pub(crate) fn step(&mut self, steps: &mut Steps) -> Option<Result<ExportInfo<'a>>>
        requires { IsWalk self.old }
        ensures found { (found : List Entry) (n : ℕ) → HasFound found n self.old
            → StepGives found n steps.old steps.new self.old.source result self.new }
        ensures source { IfSome result (λ item. OnOk item (self.new.source ≡ self.old.source)) }
        ensures utf8 { IfSome result (λ item. OnOk item (IsUtf8 self.new.name.items)) }
        ensures walk { IsWalk self.new }
        ensures none { IfNone result (self.new.over ≡ true) }
        ensures err { IfSome result (λ item. IfErr item (λ _. self.new.over ≡ true)) }
        ensures over { self.old.over ≡ true → IsNone result }
        ensures less { IfSome result (λ item. work_ahead self.new < work_ahead self.old) }
        ensures few { steps.new + unmarked self.new.marks ≤ steps.old + unmarked self.old.marks }
        ensures counted { steps.old + unmarked self.old.marks ≤ steps.new + unmarked self.new.marks + unvisited_by result }
    {
        'turns: while !self.over {
            match self.take(steps) {
                Ok(None) => {}
                Ok(Some(info)) => return Some(Ok(info)),
                Err(e) => {
                    self.over = true;
                    return Some(Err(e));
                }
            }
        }
        None
    }
}

// Appends an export to the list. Its name takes one allocation, of exactly its length.
#[inline(always)]
fn push_export<'a, A: Allocator + Clone>(
    alloc: &A,
    info: ExportInfo<'a>,
    name: &str,
    found: &mut Vec<Export<'a, A>, A>,
) -> std::result::Result<(), AllocError>
    ensures { OnOk result (entries found.new.items ≡ entries found.old.items ++ entry name.now (info_of info.entry) ∷ []) }
{
    found.push(Export::new(String::from_str(alloc.clone()?, name)?, info))?;
    Ok(())
}

/// Returns the exports of a trie, depth first, or a fault that occurs in it.
pub fn list_all<'a, A: Allocator + Clone>(
    alloc: &A,
    source: &Source<'a, '_>,
    steps: &mut Steps,
) -> Result<Vec<Export<'a, A>, A>>
    ensures tree { OnOk result (IsTree (source_trie source.now) source.now.from) }
    ensures listed { IfOk result (λ v. Lists (source_trie source.now) source.now.from [] (entries v.items)) }
    ensures few_exports { IfOk result (λ v. length v.items ≤ source.now.upto - source.now.from) }
    ensures visits { Visits (source_trie source.now) source.now.from steps.old steps.new result }
    ensures few_visits { steps.new ≤ steps.old + (source.now.upto - source.now.from) }
    ensures refused { IfErr result (ErrorMeets (fault_in source.now)) }
{
    let mut walk = Walker::start(alloc, source)?;
    let mut found = Vec::new(alloc.clone()?);
    'exports: while let Some(item) = walk.step(steps) {
        let info = item?;
        push_export(alloc, info, walk.name(), &mut found)?;
    }
    Ok(found)
}
