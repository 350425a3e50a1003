//! The walk of an export trie by a cursor of numbers. The caller owns its memory: one name, and the open nodes.
//!
//! It keeps no marks. A tree has at most as many nodes as its range has places, so a count of visits ends a walk that comes
//! to the same nodes again and again.

ghost use Rattle.std.specs.Prelude.{◌≡◌, ◌≤◌, ◌<◌, ◌+◌, ◌-◌, ◌^◌, ◌++◌, ◌∷◌, [], ℕ, List, length, take, min, Option, Ok, Some, IfOk, IfNone, IfSome};
ghost use Rattle.mach_base.specs.Answer.{Reads};
ghost use Rattle.mach_dyld.specs.CursorState.{below, IsAtChild, HasCome, TurnGives, IsAsBefore, IsStopped, IsFull, cursor_work, work_of};
ghost use Rattle.mach_dyld.specs.Cursors.{HasGivenTo, NextGives, IsLedTo, IsOwnAt, IsReexportAt, OccursAt, place_at};
ghost use Rattle.mach_dyld.specs.Lists.{ListBegins};
ghost use Rattle.mach_dyld.specs.TrieRange.{TrieRange, trie_there};
ghost use Rattle.mach_base.specs.Text.{texts};
ghost use Rattle.mach_dyld.specs.Views.{branch_of, node_in, node_of, trie_range_of, IsReadable};
ghost use Rattle.mach_dyld.specs.Trie.{Entry, reexport};
ghost use Rattle.mach_dyld.specs.declared.trie.cursor.NextExport.TheVariants as next;

use crate::export_info::ExportInfo;
use crate::exports::ExportTrie;
use crate::trie::node::{Branch, BranchRun, number, quick_branch, read_after};
use crate::trie::walk::{Open, Source};
use mach_base::{Error, Result};

// The phases of a cursor.
const AT_ROOT: usize = 0;

const ON_THE_WAY: usize = 1;

const OVER: usize = 2;

/// The position of a walk of an export trie: numbers only. It belongs to its trie, and to the name and the open nodes that
/// its calls are given. Whatever the numbers are, a call reads and writes nothing else.
#[derive(Clone, Copy, Debug)]
#[repr(C)]
pub struct TrieCursor {
    /// 0 if the root comes next, 1 on the way; any other number means that nothing comes.
    pub phase: usize,
    /// The number of nodes that may still be visited.
    pub visits_left: usize,
    /// The length of the name of the node met last.
    pub name_len: usize,
    /// The number of open nodes kept below the top.
    pub depth: usize,
    /// The place where the node met last begins.
    pub node: usize,
    /// The open node whose branch comes next.
    pub top: Open,
}

/// What a walk returns next.
#[derive(Drop)]
pub enum NextExport<'a> {
    /// The meaning of the export whose name is that of the cursor.
    Export(ExportInfo<'a>),
    /// There is nothing more.
    End,
    /// A fault occurs in the trie.
    Refused(Error),
    /// The name needs this number of bytes. The walk is unchanged.
    NameTooLong(usize),
    /// More nodes are open than the stack has room for. The walk is unchanged.
    StackTooShort,
}

// Reads the node at a start: its own export, if it has one, and its branches.
#[tactic(auto, unfolding(crate::specs::Nodes::node_at))]
#[inline(always)]
fn read_node<'a>(
    source: &Source<'a, '_>,
    start: usize,
) -> Result<(Option<ExportInfo<'a>>, BranchRun)>
    ensures node { Reads (node_of source.now.bytes.now source.now.from) result (node_in source.now start) }
    ensures readable { IfOk result (λ read. IsReadable source.now.bytes.now source.now.from read.1) }
    ensures few { IfOk result (λ read. read.1.left ≤ length source.now.bytes.now) }
{
    let (size, place) = number(source.bytes, start)?;
    read_after(source, size, place)
}

// Reads the ordinal of the re-export of the node at a start, and returns it with the place after it.
fn read_place(bytes: &[u8], start: usize) -> Result<(u64, usize)>
    ensures { Reads (λ found. found) result (place_at bytes.now start) }
{
    let (_, place) = number(bytes, start)?;
    let (_, place) = number(bytes, place)?;
    number(bytes, place)
}

// Writes a label after the first `at` bytes of a name.
#[inline(always)]
fn put_label(name: &mut [u8], at: usize, label: &[u8])
    requires { at + length label.now ≤ length name.old }
    ensures text { take (at + length label.now) name.new ≡ take at name.old ++ label.now }
    ensures len { length name.new ≡ length name.old }
{
    let end = at + label.len();
    name[at..end].copy_from_slice(label);
}

// Pushes an open node on the first `depth` of the stack.
#[inline(always)]
fn keep_open(stack: &mut [Open], depth: usize, node: Open)
    requires { depth < length stack.old }
    ensures kept { take (depth + 1) stack.new ≡ take depth stack.old ++ node ∷ [] }
    ensures len { length stack.new ≡ length stack.old }
{
    stack[depth] = node;
}

impl TrieCursor {
    // Ends with an error.
    #[cold]
    #[inline(never)]
    fn refuse<'a>(&mut self, error: Error) -> NextExport<'a>
        ensures over { self.new ≡ record self.old { phase = 2 } }
        ensures refused { result ≡ next.Refused error }
    {
        self.phase = OVER;
        NextExport::Refused(error)
    }

    // Continues after the last branch of the node on top, with the node below it, if there is one.
    #[inline(always)]
    fn close<'a>(&mut self, stack: &[Open]) -> Option<NextExport<'a>>
        requires on { self.old.phase ≡ 1 }
        requires none { self.old.top.left ≡ 0 }
        ensures gives { (t : TrieRange) (libs : List (List ℕ)) (name : List ℕ) (found : List Entry) → HasCome t libs self.old name stack.now found
            → TurnGives t libs found result self.new name stack.now }
        ensures less { (most : ℕ) → IfNone result (work_of most self.new stack.now < work_of most self.old stack.now) }
        ensures depth { self.new.depth ≤ self.old.depth }
        ensures stopped { IsStopped result → ⊥ }
        ensures over { (e : Error) → result ≡ Some (next.Refused e) → 1 < self.new.phase }
        ensures placed { (bytes : List ℕ) (libs : List (List ℕ)) (from : ℕ) → OccursAt bytes libs from self.new.node result }
    {
        if self.depth == 0 {
            self.phase = OVER;
            return Some(NextExport::End);
        }
        match stack.get(self.depth - 1) {
            Some(below) => {
                self.depth -= 1;
                self.top = *below;
                None
            }
            None => Some(self.refuse(Error::Malformed("an open node is past the stack"))),
        }
    }

    // Continues at a node of this name with these branches. `rest` is what is left of the node before.
    #[inline(always)]
    fn enter(
        &mut self,
        stack: &mut [Open],
        rest: Open,
        name_len: usize,
        start: usize,
        branches: BranchRun,
    )
        requires visits { 0 < self.old.visits_left }
        requires room { 0 < rest.left → self.old.depth < length stack.old }
        requires kept { self.old.depth ≤ length stack.old }
        ensures way { self.new.phase ≡ 1 }
        ensures visits { self.new.visits_left + 1 ≡ self.old.visits_left }
        ensures name { self.new.name_len ≡ name_len }
        ensures node { self.new.node ≡ start }
        ensures leaf { branches.left ≡ 0 → (self.new.top ≡ rest) × (below self.new stack.new ≡ below self.old stack.old) }
        ensures opened { 0 < branches.left → self.new.top ≡ record { left = branches.left; place = branches.place; name_len = name_len } }
        ensures over { 0 < branches.left → 0 < rest.left → below self.new stack.new ≡ rest ∷ below self.old stack.old }
        ensures in_place { 0 < branches.left → rest.left ≡ 0 → below self.new stack.new ≡ below self.old stack.old }
        ensures kept { self.new.depth ≤ length stack.new }
        ensures len { length stack.new ≡ length stack.old }
    {
        self.phase = ON_THE_WAY;
        self.visits_left -= 1;
        self.name_len = name_len;
        self.node = start;
        if branches.left == 0 {
            self.top = rest;
            return;
        }
        if rest.left > 0 {
            keep_open(stack, self.depth, rest);
            self.depth += 1;
        }
        self.top = Open {
            left: branches.left,
            place: branches.place,
            name_len,
        };
    }

    // Follows a branch of the node on top. `rest` is what is left of that node after the branch.
    #[inline(always)]
    fn visit<'a>(
        &mut self,
        source: &Source<'a, '_>,
        name: &mut [u8],
        stack: &mut [Open],
        branch: Branch<'a>,
        rest: Open,
    ) -> Option<NextExport<'a>>
        requires kept { self.old.depth ≤ length stack.old }
        ensures gives { (found : List Entry)
            → IsAtChild (trie_range_of source.now) (texts source.now.libs.now) self.old name.old stack.old (branch_of branch.entry) rest found
            → TurnGives (trie_range_of source.now) (texts source.now.libs.now) found result self.new name.new stack.new }
        ensures stopped { IsStopped result → IsAsBefore self.old self.new name.old name.new stack.old stack.new }
        ensures long { (n : ℕ) → result ≡ Some (next.NameTooLong n) → (n ≡ min (rest.name_len + length (branch_of branch.entry).label) (2 ^ 64 - 1))
            × (length name.old < rest.name_len + length (branch_of branch.entry).label) }
        ensures placed { OccursAt source.now.bytes.now (texts source.now.libs.now) source.now.from self.new.node result }
        ensures over { (e : Error) → result ≡ Some (next.Refused e) → 1 < self.new.phase }
        ensures full { result ≡ Some next.StackTooShort → length stack.old ≤ self.old.depth }
        ensures less { IfNone result (work_of (length source.now.bytes.now) self.new stack.new
            ≤ cursor_work (length source.now.bytes.now) self.old.visits_left (rest ∷ below self.old stack.old)) }
        ensures depth { self.new.depth ≤ length stack.new }
        ensures name_len { length name.new ≡ length name.old }
        ensures stack_len { length stack.new ≡ length stack.old }
    {
        let Branch { label, start } = branch;
        if start >= source.upto {
            self.phase = ON_THE_WAY;
            self.top = rest;
            return None;
        }
        if self.visits_left == 0 {
            return Some(self.refuse(Error::Malformed("two paths lead to one node")));
        }
        if rest.name_len > name.len() || label.len() > name.len() - rest.name_len {
            return Some(NextExport::NameTooLong(rest.name_len.saturating_add(label.len())));
        }
        if rest.left > 0 && self.depth >= stack.len() {
            return Some(NextExport::StackTooShort);
        }
        let (own, branches) = match read_node(source, start) {
            Ok(node) => node,
            Err(e) => return Some(self.refuse(e)),
        };
        put_label(name, rest.name_len, label.as_bytes());
        self.enter(stack, rest, rest.name_len + label.len(), start, branches);
        match own {
            Some(info) => Some(NextExport::Export(info)),
            None => None,
        }
    }
}

impl TrieCursor {
    // Visits the root.
    #[cold]
    #[inline(never)]
    fn visit_root<'a>(
        &mut self,
        source: &Source<'a, '_>,
        name: &mut [u8],
        stack: &mut [Open],
    ) -> Option<NextExport<'a>>
        requires root { self.old.phase ≡ 0 }
        requires kept { self.old.depth ≤ length stack.old }
        ensures gives { (found : List Entry) → HasCome (trie_range_of source.now) (texts source.now.libs.now) self.old name.old stack.old found
            → TurnGives (trie_range_of source.now) (texts source.now.libs.now) found result self.new name.new stack.new }
        ensures stopped { IsStopped result → IsAsBefore self.old self.new name.old name.new stack.old stack.new }
        ensures full { IsFull source.now.bytes.now source.now.from self.new name.new stack.new result }
        ensures placed { OccursAt source.now.bytes.now (texts source.now.libs.now) source.now.from self.new.node result }
        ensures over { (e : Error) → result ≡ Some (next.Refused e) → 1 < self.new.phase }
        ensures less { IfNone result (work_of (length source.now.bytes.now) self.new stack.new < work_of (length source.now.bytes.now) self.old stack.old) }
        ensures depth { self.new.depth ≤ length stack.new }
        ensures name_len { length name.new ≡ length name.old }
        ensures stack_len { length stack.new ≡ length stack.old }
    {
        let root = Branch {
            label: "",
            start: source.from,
        };
        let rest = self.top;
        self.visit(source, name, stack, root, rest)
    }

    // Advances by one branch, or by the end of a node's branches.
    #[inline(always)]
    fn turn<'a>(
        &mut self,
        source: &Source<'a, '_>,
        name: &mut [u8],
        stack: &mut [Open],
    ) -> Option<NextExport<'a>>
        requires on { self.old.phase ≤ 1 }
        requires kept { self.old.depth ≤ length stack.old }
        ensures gives { (found : List Entry) → HasCome (trie_range_of source.now) (texts source.now.libs.now) self.old name.old stack.old found
            → TurnGives (trie_range_of source.now) (texts source.now.libs.now) found result self.new name.new stack.new }
        ensures stopped { IsStopped result → IsAsBefore self.old self.new name.old name.new stack.old stack.new }
        ensures full { IsFull source.now.bytes.now source.now.from self.new name.new stack.new result }
        ensures placed { OccursAt source.now.bytes.now (texts source.now.libs.now) source.now.from self.new.node result }
        ensures over { (e : Error) → result ≡ Some (next.Refused e) → 1 < self.new.phase }
        ensures less { IfNone result (work_of (length source.now.bytes.now) self.new stack.new < work_of (length source.now.bytes.now) self.old stack.old) }
        ensures depth { self.new.depth ≤ length stack.new }
        ensures name_len { length name.new ≡ length name.old }
        ensures stack_len { length stack.new ≡ length stack.old }
    {
        if self.phase == AT_ROOT {
            return self.visit_root(source, name, stack);
        }
        if self.top.left == 0 {
            return self.close(stack);
        }
        let Some((branch, after)) = quick_branch(source.bytes, source.from, self.top.place) else {
            return Some(self.refuse(Error::Malformed("a branch of an open node can't be read")));
        };
        let rest = Open {
            left: self.top.left - 1,
            place: after,
            name_len: self.top.name_len,
        };
        self.visit(source, name, stack, branch, rest)
    }
}

impl<'a> ExportTrie<'a> {
    /// Returns a cursor at the start of the trie.
    pub fn cursor(&self) -> TrieCursor
        ensures { (libs : List (List ℕ)) (name : List ℕ) (stack : List Open) → HasGivenTo self.now libs result name stack [] }
    {
        let phase = if self.from < self.upto { AT_ROOT } else { OVER };
        TrieCursor {
            phase,
            visits_left: self.upto.saturating_sub(self.from),
            name_len: 0,
            depth: 0,
            node: 0,
            top: Open {
                left: 0,
                place: 0,
                name_len: 0,
            },
        }
    }

    /// Returns the next export, in the order of `exports`. Its name is then the first `cursor.name_len` bytes of `name`. The
    /// cursor, the name and the open nodes must be those of the call before. `libs` are the image's libraries, by ordinal.
    ///
    /// It allocates nothing. If the name or the stack is too short, the walk is unchanged, and the call may be repeated with
    /// longer ones that begin with the same contents. It doesn't mark visited nodes. So it notices that two paths lead to
    /// one node only after it has visited more nodes than the range has places.
    #[inline(always)]
    pub fn next_export(
        &self,
        libs: &[&'a str],
        cursor: &mut TrieCursor,
        name: &mut [u8],
        stack: &mut [Open],
    ) -> NextExport<'a>
        ensures gives { (found : List Entry) → HasGivenTo self.now (texts libs.now) cursor.old name.old stack.old found
            → NextGives self.now (texts libs.now) found result cursor.new name.new stack.new }
        ensures leads { (found : List Entry) → HasGivenTo self.now (texts libs.now) cursor.old name.old stack.old found
            → IsLedTo self.now (texts libs.now) found result cursor.new name.new }
        ensures started { (found : List Entry) → HasGivenTo self.now (texts libs.now) cursor.old name.old stack.old found
            → ListBegins (trie_there self.now (texts libs.now)) self.now.from [] found }
        ensures full { IsFull self.now.bytes self.now.from cursor.new name.new stack.new (Some result) }
        ensures placed { OccursAt self.now.bytes (texts libs.now) self.now.from cursor.new.node (Some result) }
        ensures refused { (e : Error) → result ≡ next.Refused e → 1 < cursor.new.phase }
        ensures over { 1 < cursor.old.phase → (result ≡ next.End) × IsAsBefore cursor.old cursor.new name.old name.new stack.old stack.new }
        ensures name_len { length name.new ≡ length name.old }
        ensures stack_len { length stack.new ≡ length stack.old }
    {
        let source = Source {
            bytes: self.bytes,
            libs,
            from: self.from,
            upto: self.upto,
        };
        if cursor.phase <= ON_THE_WAY && cursor.depth > stack.len() {
            return cursor.refuse(Error::Malformed("there are more open nodes than the stack has"));
        }
        if cursor.phase <= ON_THE_WAY && cursor.visits_left > self.upto - self.from {
            return cursor.refuse(Error::Malformed("there are more visits left than nodes"));
        }
        'turns: while cursor.phase <= ON_THE_WAY {
            if let Some(given) = cursor.turn(&source, name, stack) {
                return given;
            }
        }
        NextExport::End
    }
    /// Returns, for a re-export that a cursor returned last, the ordinal of its library and the place of its name there.
    pub fn reexport_place(&self, cursor: &TrieCursor) -> Option<(u64, usize)>
        ensures reported { (libs : List (List ℕ)) (lib : List ℕ) (name : Option (List ℕ)) (flags : ℕ)
            → IsOwnAt self.now.bytes libs self.now.from cursor.now.node (reexport lib name flags) → IsReexportAt self.now.bytes libs lib name result }
        ensures node { IfSome result (λ found. place_at self.now.bytes cursor.now.node ≡ Ok found) }
    {
        match read_place(self.bytes, cursor.node) {
            Ok(found) => Some(found),
            Err(_) => None,
        }
    }
}
