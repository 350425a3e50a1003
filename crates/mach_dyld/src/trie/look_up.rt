//! The look-up of one name in an export trie.
//!
//! It follows the one branch of each node that spells the name, and allocates nothing. If more than one branch of a node
//! does, or a child doesn't lie after its parent, it searches from that node on. It marks the nodes that it visits there, so
//! that none is visited twice.

ghost use Rattle.std.specs.Prelude.{◌≡◌, ◌≢◌, ◌≤◌, ◌<◌, ◌+◌, ◌-◌, ◌*◌, ◌++◌, ◌∷◌, [], ℕ, List, length, IfOk, IfErr, IfSome, IfNone, OnOk, Some, None};
ghost use Rattle.std.specs.Prelude.{IsTrue, IsFalse, ◌⊎◌, option_map, Option, Ok};
ghost use Rattle.mach_base.specs.Answer.{Reads, Gives, ErrorMeets, FailsAs, IsOkUnlessMemory};
ghost use Rattle.mach_base.specs.Leb128.{uleb_at};
ghost use Rattle.mach_dyld.specs.Trie as trie;
ghost use Rattle.mach_dyld.specs.Trie.{Entry};
ghost use Rattle.mach_dyld.specs.TrieRange.{trie_there, ListsExports, ExportsFault};
ghost use Rattle.mach_dyld.specs.Exports.{info_of};
ghost use Rattle.mach_base.specs.Text.{texts};
ghost use Rattle.mach_dyld.specs.Nodes.{branches_at, children_at};
ghost use Rattle.mach_dyld.specs.Views.{branch_of, branches_of, IsReadable, source_trie, node_in, own_in, node_of, node_after};
ghost use Rattle.mach_dyld.specs.Nowhere.{AreBarren, HaveRoom};
ghost use Rattle.mach_dyld.specs.Finds.{Finds};
ghost use Rattle.mach_dyld.specs.LookUp.{IsAnswerFor, IsFirstOf, FaultOnWay, LookUpVisits};
ghost use Rattle.mach_dyld.specs.LookUpState.{OwnEnds, Settles, FirstBranchLeads, Goes, IsPassed, ComesTo, SearchVisits};

use crate::exports::{ExportInfo, ExportTrie};
use crate::trie::marks::Marks;
use crate::trie::node::{
    Branch, BranchRun, own_export, quick_branch, quick_own, read_after, read_again, read_branches,
    read_count, read_own, read_run,
};
use crate::trie::runs::Runs;
use crate::trie::walk::{Source, is_barren, visit};
use mach_base::{Error, Result, Steps, quick_uleb, rest_at};
use std::alloc::{AllocError, Allocator};

/// Which branches of a node match the rest of a name.
#[derive(Clone, Copy, Debug)]
pub enum Branching {
    Nowhere,
    /// One child matches, by a label of `len` bytes.
    One { start: usize, len: usize },
    Several,
}

/// What a node has for the rest of a name.
#[derive(Drop)]
pub enum Outcome<'a> {
    /// Its own export is the one searched for.
    Found(ExportInfo<'a>),
    /// None of its branches matches.
    Ends,
    /// One branch matches, by a label of `len` bytes; its child lies after the node.
    Child { start: usize, len: usize },
    /// Its branches must be searched.
    Open(BranchRun),
}

/// Branches that are still to be tried, and where their labels begin in the name.
#[derive(Clone, Copy, Debug)]
pub struct Choice {
    pub branches: BranchRun,
    pub at: usize,
}

// Returns what follows the label in the rest, if the rest begins with it.
#[inline(always)]
fn following<'n>(rest: &'n [u8], label: &[u8]) -> Option<&'n [u8]>
    ensures some { IfSome result (λ others. rest.now ≡ label.now ++ others.now) }
    ensures none { IfNone result ((others : List ℕ) → rest.now ≡ label.now ++ others → ⊥) }
{
    rest.strip_prefix(label)
}

// Whether the rest begins with the label and the child lies in the range.
#[inline(always)]
fn leads(source: &Source<'_, '_>, rest: &[u8], branch: Branch<'_>) -> bool
    ensures yes { IsTrue result → (branch.entry.start < source.now.upto) × (others : List ℕ) × (rest.now ≡ branch.entry.label.now ++ others) }
    ensures no { IsFalse result → (source.now.upto ≤ branch.entry.start) ⊎ ((others : List ℕ) → rest.now ≡ branch.entry.label.now ++ others → ⊥) }
{
    branch.start < source.upto && following(rest, branch.label.as_bytes()).is_some()
}

// Returns which of `count` branches match, if all of them can be read.
#[inline(always)]
fn quick_way(source: &Source<'_, '_>, rest: &[u8], count: usize, first: usize) -> Option<Branching>
    ensures { IfSome result (λ way. (bs : List trie.Branch) × (branches_at source.now.bytes.now source.now.from count first ≡ Ok bs)
        × Goes (source_trie source.now) rest.now bs way) }
{
    let mut way = Branching::Nowhere;
    let mut place = first;
    for _ in 0..count {
        let (branch, after) = quick_branch(source.bytes, source.from, place)?;
        if leads(source, rest, branch) {
            let len = branch.label.len();
            way = match way {
                Branching::Nowhere => Branching::One {
                    start: branch.start,
                    len,
                },
                _ => Branching::Several,
            };
        }
        place = after;
    }
    Some(way)
}

// Reads the count of branches, and returns the same with the branches.
#[tactic(auto, unfolding(crate::specs::Nodes::children_at))]
#[inline(always)]
fn quick_branches(
    source: &Source<'_, '_>,
    rest: &[u8],
    place: usize,
) -> Option<(Branching, BranchRun)>
    ensures value { IfSome result (λ x. children_at source.now.bytes.now source.now.from place ≡ Ok (branches_of source.now.bytes.now source.now.from x.1)) }
    ensures readable { IfSome result (λ x. IsReadable source.now.bytes.now source.now.from x.1) }
    ensures goes { IfSome result (λ x. Goes (source_trie source.now) rest.now (branches_of source.now.bytes.now source.now.from x.1) x.0) }
{
    let (count, first) = quick_uleb(source.bytes, place)?;
    let left = count as usize;
    if left > source.bytes.len() {
        return None;
    }
    let way = quick_way(source, rest, left, first)?;
    Some((way, BranchRun { left, place: first }))
}

// The exact reader of branches, for those that the quick reader doesn't read.
#[cold]
#[inline(never)]
fn rare_branches(source: &Source<'_, '_>, place: usize) -> Result<BranchRun>
    ensures value { Reads (branches_of source.now.bytes.now source.now.from) result (children_at source.now.bytes.now source.now.from place) }
    ensures readable { IfOk result (IsReadable source.now.bytes.now source.now.from) }
{
    read_run(source.bytes, source.from, place)
}

// Reads the count and the branches, and returns which match, with the branches.
#[inline(always)]
fn read_way(source: &Source<'_, '_>, rest: &[u8], place: usize) -> Result<(Branching, BranchRun)>
    ensures value { Reads (λ x. branches_of source.now.bytes.now source.now.from x.1) result (children_at source.now.bytes.now source.now.from place) }
    ensures readable { IfOk result (λ x. IsReadable source.now.bytes.now source.now.from x.1) }
    ensures goes { IfOk result (λ x. Goes (source_trie source.now) rest.now (branches_of source.now.bytes.now source.now.from x.1) x.0) }
{
    if let Some(found) = quick_branches(source, rest, place) {
        return Ok(found);
    }
    let branches = rare_branches(source, place)?;
    Ok((Branching::Several, branches))
}

// The exact reader of an own export, for those that the quick reader doesn't read.
#[cold]
#[inline(never)]
fn rare_place(source: &Source<'_, '_>, size: u64, place: usize) -> Result<usize>
    ensures following { IfOk result (λ after. (info : trie.Info) × (own_in source.now size place ≡ Ok (info, after))) }
    ensures refused { IfErr result (λ e. FailsAs e (own_in source.now size place)) }
{
    let (_, after) = read_own(source.bytes, source.libs, size, place)?;
    Ok(after)
}

// Returns the place after a node's own export of `size` bytes, if there is one.
#[inline(always)]
fn place_following(source: &Source<'_, '_>, size: u64, place: usize) -> Result<usize>
    ensures following { IfOk result (λ after. (own : Option trie.Info) × OwnEnds source.now size place own after) }
    ensures refused { IfErr result (λ e. (size ≢ 0) × FailsAs e (own_in source.now size place)) }
{
    if size == 0 {
        return Ok(place);
    }
    match quick_own(source.bytes, size, place) {
        Some((_, _, after)) => Ok(after),
        None => rare_place(source, size, place),
    }
}

// Reads a node after its size. Out of line: a look-up reads few nodes whole.
#[inline(never)]
fn whole_node<'a>(
    source: &Source<'a, '_>,
    size: u64,
    place: usize,
) -> Result<(Option<ExportInfo<'a>>, BranchRun)>
    ensures node { Reads (node_of source.now.bytes.now source.now.from) result (node_after source.now size place) }
    ensures readable { IfOk result (λ read. IsReadable source.now.bytes.now source.now.from read.1) }
{
    read_after(source, size, place)
}

// Visits the node at a start. `rest` is the rest of the name.
#[inline(always)]
fn turn<'a>(
    source: &Source<'a, '_>,
    start: usize,
    rest: &[u8],
    steps: &mut Steps,
) -> Result<Outcome<'a>>
    ensures visits { steps.new ≡ steps.old + 1 }
    ensures ok { IfOk result (ComesTo source.now start rest.now) }
    ensures err { IfErr result (λ e. FailsAs e (node_in source.now start)) }
{
    let (size, place) = visit(source.bytes, start, steps)?;
    if size > 0 && rest.is_empty() {
        let (own, branches) = whole_node(source, size, place)?;
        return Ok(match own {
            Some(info) => Outcome::Found(info),
            None => Outcome::Open(branches),
        });
    }
    let after = place_following(source, size, place)?;
    let (way, branches) = read_way(source, rest, after)?;
    match way {
        Branching::Nowhere => Ok(Outcome::Ends),
        Branching::One { start: child, len } => {
            if child > start {
                return Ok(Outcome::Child { start: child, len });
            }
            Ok(Outcome::Open(branches))
        }
        Branching::Several => Ok(Outcome::Open(branches)),
    }
}

// Drops the branches before the first that spells a prefix of the rest and leads to a node. If all are known to lead
// nowhere, none is read.
fn settle<A: Allocator>(
    source: &Source<'_, '_>,
    barren: &Runs<A>,
    rest: &[u8],
    branches: BranchRun,
) -> BranchRun
    requires barren { AreBarren source.now barren.now }
    requires readable { IsReadable source.now.bytes.now source.now.from branches }
    ensures readable { IsReadable source.now.bytes.now source.now.from result }
    ensures settles { Settles (source_trie source.now) rest.now (branches_of source.now.bytes.now source.now.from branches)
        (branches_of source.now.bytes.now source.now.from result) }
    ensures stops { FirstBranchLeads (source_trie source.now) rest.now (branches_of source.now.bytes.now source.now.from result) }
{
    if barren.know(branches) {
        return BranchRun {
            left: 0,
            place: branches.place,
        };
    }
    let mut left = branches;
    for _ in 0..branches.left {
        let (branch, after) = read_again(source.bytes, source.from, left.place);
        if leads(source, rest, branch) {
            return left;
        }
        left = BranchRun {
            left: left.left - 1,
            place: after,
        };
    }
    left
}

// Tests whether the branches of a list can be read. A list known to lead nowhere isn't read; one found to is recorded.
fn test_run<A: Allocator>(
    source: &Source<'_, '_>,
    barren: &mut Runs<A>,
    list: BranchRun,
) -> Result<()>
    requires barren { AreBarren source.now barren.old }
    requires room { HaveRoom source.now barren.old }
    requires few { list.left ≤ length source.now.bytes.now }
    ensures readable { OnOk result (IsReadable source.now.bytes.now source.now.from list) }
    ensures fault { IfErr result (λ e. FailsAs e (branches_at source.now.bytes.now source.now.from list.left list.place)) }
    ensures barren { OnOk result (AreBarren source.now barren.new) }
    ensures room { OnOk result (HaveRoom source.now barren.new) }
{
    if barren.know(list) {
        return Ok(());
    }
    let found = read_branches(source.bytes, source.from, list)?;
    if !is_barren(source, found) {
        return Ok(());
    }
    barren.learn(source, list)?;
    Ok(())
}

// Returns the branches of the list whose count is at a place.
fn open_run<A: Allocator>(
    source: &Source<'_, '_>,
    barren: &mut Runs<A>,
    place: usize,
) -> Result<BranchRun>
    requires barren { AreBarren source.now barren.old }
    requires room { HaveRoom source.now barren.old }
    ensures value { Gives (branches_of source.now.bytes.now source.now.from) result (children_at source.now.bytes.now source.now.from place) }
    ensures readable { IfOk result (IsReadable source.now.bytes.now source.now.from) }
    ensures barren { OnOk result (AreBarren source.now barren.new) }
    ensures room { OnOk result (HaveRoom source.now barren.new) }
{
    let list = read_count(source.bytes, place)?;
    test_run(source, barren, list)?;
    Ok(list)
}

// Visits the node at a start, and returns its own export, if it has one, and its branches.
fn read_node<'a, A: Allocator>(
    source: &Source<'a, '_>,
    barren: &mut Runs<A>,
    start: usize,
    steps: &mut Steps,
) -> Result<(Option<ExportInfo<'a>>, BranchRun)>
    requires barren { AreBarren source.now barren.old }
    requires room { HaveRoom source.now barren.old }
    ensures visits { steps.new ≡ steps.old + 1 }
    ensures value { Gives (node_of source.now.bytes.now source.now.from) result (node_in source.now start) }
    ensures readable { IfOk result (λ node. IsReadable source.now.bytes.now source.now.from node.1) }
    ensures barren { OnOk result (AreBarren source.now barren.new) }
    ensures room { OnOk result (HaveRoom source.now barren.new) }
{
    let (size, place) = visit(source.bytes, start, steps)?;
    if size == 0 {
        return Ok((None, open_run(source, barren, place)?));
    }
    let (own, place) = own_export(source, size, place)?;
    let branches = open_run(source, barren, place)?;
    Ok((Some(own), branches))
}

// Returns the own export if nothing is left of the name.
#[inline(always)]
fn here<'a>(own: Option<ExportInfo<'a>>, left: usize) -> Option<ExportInfo<'a>>
    ensures some { IfSome result (λ info. (left ≡ 0) × (option_map info_of own.entry ≡ Some (info_of info))) }
    ensures none { IfNone result ((left ≡ 0) → option_map info_of own.entry ≡ None) }
{
    if left == 0 { own } else { None }
}

// Keeps a choice if branches are left of it.
#[inline(always)]
fn keep<A: Allocator>(
    choices: &mut Vec<Choice, A>,
    choice: Choice,
) -> std::result::Result<(), AllocError>
    ensures none { OnOk result (choice.branches.left ≡ 0 → choices.new.items ≡ choices.old.items) }
    ensures some { OnOk result (choice.branches.left ≢ 0 → choices.new.items ≡ choices.old.items ++ choice ∷ []) }
{
    if choice.branches.left > 0 {
        choices.push(choice)?;
    }
    Ok(())
}

// Searches a name from a node on, which was visited before and has these branches.
#[cold]
#[inline(never)]
fn search<'a, A: Allocator + Clone>(
    alloc: A,
    source: &Source<'a, '_>,
    root: usize,
    name: &[u8],
    branches: BranchRun,
    steps: &mut Steps,
) -> Result<Option<ExportInfo<'a>>>
    requires low { source.now.from ≤ root }
    requires inside { root < source.now.upto }
    requires passed { IsPassed source.now root name.now (λ bs. branches_at source.now.bytes.now source.now.from branches.left branches.place ≡ Ok bs) }
    ensures found { IfOk result (λ o. Finds (source_trie source.now) root name.now (option_map info_of o)) }
    ensures refused { IfErr result (ErrorMeets (FaultOnWay (source_trie source.now) root name.now)) }
    ensures visits { SearchVisits (source_trie source.now) root name.now steps.old steps.new }
{
    let from = source.from;
    let mut marks = Marks::new(alloc.clone()?, source.upto - from)?;
    let mut barren = Runs::new(alloc.clone()?);
    let mut choices: Vec<Choice, A> = Vec::new(alloc);
    marks.mark(root - from);
    let mut top = Choice { branches, at: 0 };
    'turns: loop {
        let rest = rest_at(name, top.at);
        let branches = settle(source, &barren, rest, top.branches);
        if branches.left == 0 {
            match choices.pop() {
                None => return Ok(None),
                Some(below) => top = below,
            }
        } else {
            let (Branch { label, start }, after) = read_again(source.bytes, from, branches.place);
            if marks.is_marked(start - from) {
                return Err(Error::Malformed("two paths lead to one node"));
            }
            marks.mark(start - from);
            let others = BranchRun {
                left: branches.left - 1,
                place: after,
            };
            let others = settle(source, &barren, rest, others);
            let (own, child) = read_node(source, &mut barren, start, steps)?;
            if let Some(info) = here(own, rest.len() - label.len()) {
                return Ok(Some(info));
            }
            let choice = Choice {
                branches: others,
                at: top.at,
            };
            keep(&mut choices, choice)?;
            top = Choice {
                branches: child,
                at: top.at + label.len(),
            };
        }
    }
}

// Returns what the name is exported as: the first export of that name, None, or a fault on its way.
fn look_up<'a, A: Allocator + Clone>(
    alloc: A,
    source: &Source<'a, '_>,
    name: &[u8],
    steps: &mut Steps,
) -> Result<Option<ExportInfo<'a>>>
    ensures found { IfOk result (λ o. Finds (source_trie source.now) source.now.from name.now (option_map info_of o)) }
    ensures refused { IfErr result (ErrorMeets (FaultOnWay (source_trie source.now) source.now.from name.now)) }
    ensures visits { LookUpVisits (source_trie source.now) source.now.from name.now steps.old steps.new }
    ensures few_visits { steps.new ≤ steps.old + 2 * (source.now.upto - source.now.from) }
{
    let mut start = source.from;
    if start >= source.upto {
        return Ok(None);
    }
    let mut rest = name;
    'turns: loop {
        match turn(source, start, rest, steps)? {
            Outcome::Found(info) => return Ok(Some(info)),
            Outcome::Ends => return Ok(None),
            Outcome::Child { start: child, len } => {
                start = child;
                rest = rest_at(rest, len);
            }
            Outcome::Open(branches) => return search(alloc, source, start, rest, branches, steps),
        }
    }
}

impl<'a> ExportTrie<'a> {
    /// Returns what a name is exported as: the first of its exports in the list, or None. It reads only nodes on the way of
    /// the name. So it may return Ok although the trie has no list; the result then holds by the paths of the trie.
    ///
    /// Each error except `Error::Memory` is a fault on that way, and so a fault of the trie. It allocates only if two
    /// branches of a node both spell a prefix of the rest of the name, or if a branch that does leads to a node that doesn't
    /// lie after its parent.
    pub fn find<A: Allocator + Clone>(
        &self,
        alloc: A,
        libs: &[&'a str],
        name: &str,
    ) -> Result<Option<ExportInfo<'a>>>
        ensures occurs { IfOk result (λ o. IsAnswerFor (trie_there self.now (texts libs.now)) self.now.from name.now (option_map info_of o)) }
        ensures listed { (list : List Entry) → ListsExports self.now (texts libs.now) list → IfOk result (λ o. IsFirstOf name.now list (option_map info_of o)) }
        ensures only { (list : List Entry) → ListsExports self.now (texts libs.now) list → IsOkUnlessMemory result }
        ensures refused { IfErr result (ErrorMeets (ExportsFault self.now (texts libs.now))) }
        ensures on_way { IfErr result (ErrorMeets (FaultOnWay (trie_there self.now (texts libs.now)) self.now.from name.now)) }
    {
        self.find_counted(alloc, libs, name, &mut Steps::new())
    }

    /// Like `find`, and adds the number of nodes visited to `steps`: at most the number of different nodes to which paths
    /// lead, and twice that number if a fault occurs.
    pub fn find_counted<A: Allocator + Clone>(
        &self,
        alloc: A,
        libs: &[&'a str],
        name: &str,
        steps: &mut Steps,
    ) -> Result<Option<ExportInfo<'a>>>
        ensures occurs { IfOk result (λ o. IsAnswerFor (trie_there self.now (texts libs.now)) self.now.from name.now (option_map info_of o)) }
        ensures listed { (list : List Entry) → ListsExports self.now (texts libs.now) list → IfOk result (λ o. IsFirstOf name.now list (option_map info_of o)) }
        ensures only { (list : List Entry) → ListsExports self.now (texts libs.now) list → IsOkUnlessMemory result }
        ensures refused { IfErr result (ErrorMeets (ExportsFault self.now (texts libs.now))) }
        ensures on_way { IfErr result (ErrorMeets (FaultOnWay (trie_there self.now (texts libs.now)) self.now.from name.now)) }
        ensures visits { LookUpVisits (trie_there self.now (texts libs.now)) self.now.from name.now steps.old steps.new }
        ensures few_visits { steps.new ≤ steps.old + 2 * (self.now.upto - self.now.from) }
    {
        let source = Source {
            bytes: self.bytes,
            libs,
            from: self.from,
            upto: self.upto,
        };
        look_up(alloc, &source, name.as_bytes(), steps)
    }
}
