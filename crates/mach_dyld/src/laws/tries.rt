//! Theorems on the definitions only: functions with empty bodies, whose contracts are laws.

ghost use Rattle.std.specs.Prelude.{◌≡◌, ◌≤◌, ◌<◌, ◌+◌, ◌-◌, ◌*◌, ◌++◌, ◌↔◌, ℕ, List, [], length, Some, Result, Ok};
ghost use Rattle.mach_base.specs.Fault.{Fault};
ghost use Rattle.mach_dyld.specs.Trie.{Trie, Entry, Info, IsNode, Node};
ghost use Rattle.mach_dyld.specs.Lists.{Lists, ListBegins, ListsWithin, list_within};
ghost use Rattle.mach_dyld.specs.Paths.{Leads, Path, IsTree, StartsFrom};
ghost use Rattle.mach_dyld.specs.TrieFault.{TrieFault};
ghost use Rattle.mach_dyld.specs.TerminalPaths.{AreInOrder, ListsPaths};
ghost use Rattle.mach_base.specs.Among.{IsAmong};
ghost use Rattle.mach_dyld.specs.TrieRange.{TrieRange, trie_there, ListsExports, ExportsFault};
ghost use Rattle.mach_dyld.specs.Unfolds.{IsNextNode, IsEndOfWalk};
ghost use Rattle.mach_dyld.specs.Visits.{Visits};
ghost use Rattle.mach_dyld.specs.LookUp.{FaultOnWay, LookUpVisits};

/// A start has at most one list for a prefix.
#[tactic(auto, using(crate::proofs::TrieRelation::one_list))]
pub fn one_list()
    ensures { (t : Trie) (start : ℕ) (prefix : List ℕ) (xs ys : List Entry) → Lists t start prefix xs → Lists t start prefix ys → xs ≡ ys }
{}

/// A prefix of the list of a start, as `ListBegins` defines it, is a prefix of the list itself, if there is one.
#[tactic(auto, using(crate::proofs::TrieBegins::prefix_of))]
pub fn beginning_of_the_list()
    ensures { (t : Trie) (start : ℕ) (prefix : List ℕ) (xs ys : List Entry) → ListBegins t start prefix xs → Lists t start prefix ys
        → (zs : List Entry) × (ys ≡ xs ++ zs) }
{}

/// The least relation holds exactly if there is a list within some number of levels.
#[tactic(auto, using(crate::proofs::TrieRelation::within_levels))]
pub fn lists_within_levels()
    ensures { (t : Trie) (start : ℕ) (prefix : List ℕ) (xs : List Entry) → Lists t start prefix xs ↔ ListsWithin t start prefix xs }
{}

/// If a path leads to a malformed node, or two paths lead to one node, the root has no list of exports.
#[tactic(auto, using(crate::proofs::TrieFaults::no_list))]
pub fn blocked_root_has_no_list()
    ensures { (t : Trie) (root : ℕ) (f : Fault) (prefix : List ℕ) (xs : List Entry) → TrieFault t root f → IsTree t root
        → Lists t root prefix xs → ⊥ }
{}

/// Every other root has one, within as many levels as the range has places.
pub fn other_roots_have_lists()
    ensures { (t : Trie) (root from : ℕ) (prefix : List ℕ) → StartsFrom t from → from ≤ root → ((f : Fault) → TrieFault t root f → ⊥)
        → IsTree t root × (xs : List Entry) × (list_within t (t.upto - from) root prefix ≡ Some xs) }
{}

/// The list of a root has an export for each terminal path, in the order of paths, and nothing else. Each has the name of
/// its path, after the prefix, and the own export of the node that the path leads to.
#[tactic(auto, using(crate::proofs::TerminalPaths::lists_paths))]
pub fn exports_of_terminal_paths()
    ensures { (t : Trie) (root : ℕ) (prefix : List ℕ) (xs : List Entry) → Lists t root prefix xs
        → (paths : List (List ℕ)) × ListsPaths t root prefix paths xs }
{}

/// After exports that were met, the own export of at most one node comes next.
pub fn one_next_node()
    ensures { (t : Trie) (root : ℕ) (found : List Entry) (m n : List ℕ) (a b : ℕ) (v w : Node) (x y : Info) → IsNextNode t root found m a
        → IsNextNode t root found n b → IsNode t a v → v.own ≡ Some x → IsNode t b w → w.own ≡ Some y → (m ≡ n) × (a ≡ b) }
{}

/// A walk that reads no node of a trie twice ends in one place, for one fault.
pub fn one_end_of_walk()
    ensures { (t : Trie) (root : ℕ) (found met : List Entry) (f g : Fault) → IsEndOfWalk t root found f → IsEndOfWalk t root met g
        → (found ≡ met) × (f ≡ g) }
{}

/// A trie in a range in which a fault occurs has no list of exports.
#[tactic(auto, using(crate::proofs::TrieRanges::fault_excludes_list))]
pub fn faulty_tries_have_no_list()
    ensures { (t : TrieRange) (libs : List (List ℕ)) (f : Fault) (list : List Entry) → ExportsFault t libs f → ListsExports t libs list → ⊥ }
{}

/// Every other trie has one, within as many levels as the range has bytes.
#[tactic(auto, using(crate::proofs::TrieRanges::exports_without_fault))]
pub fn other_tries_have_a_list()
    ensures { (t : TrieRange) (libs : List (List ℕ)) → ((f : Fault) → ExportsFault t libs f → ⊥)
        → (list : List Entry) × ListsExports t libs list × (list_within (trie_there t libs) (t.upto - t.from) t.from [] ≡ Some list) }
{}

/// A walk, whether or not it succeeds, visits at most as many nodes as any list holds that has all nodes to which paths lead.
pub fn visits_within_nodes<X, E>()
    ensures { (t : Trie) (root old new : ℕ) (answer : Result X E) (nodes : List ℕ) → Visits t root old new answer
        → ((path : List ℕ) (at : ℕ) → Leads t path root at → at < t.upto → IsAmong at nodes) → new ≤ old + length nodes }
{}

/// A walk whose result is Ok visits as many nodes as there are paths to nodes: as many as any list holds that has each of
/// these paths once.
pub fn visits_of_paths<X, E>()
    ensures { (t : Trie) (root old new : ℕ) (x : X) (paths : List (List ℕ)) → Visits {E = E} t root old new (Ok x)
        → AreInOrder paths → ((p : List ℕ) → IsAmong p paths ↔ Path t root p) → new ≡ old + length paths }
{}

/// A look-up, whether or not it succeeds, visits at most twice as many nodes as any list holds that has all nodes to which paths lead.
pub fn look_up_visits_within_nodes()
    ensures { (t : Trie) (root : ℕ) (name : List ℕ) (old new : ℕ) (nodes : List ℕ) → LookUpVisits t root name old new
        → ((path : List ℕ) (at : ℕ) → Leads t path root at → at < t.upto → IsAmong at nodes) → new ≤ old + 2 * length nodes }
{}

/// If no two paths lead to one node, it visits at most as many nodes as such a list holds.
pub fn look_up_visits_in_a_tree()
    ensures { (t : Trie) (root : ℕ) (name : List ℕ) (old new : ℕ) (nodes : List ℕ) → IsTree t root → LookUpVisits t root name old new
        → ((path : List ℕ) (at : ℕ) → Leads t path root at → at < t.upto → IsAmong at nodes) → new ≤ old + length nodes }
{}

/// A fault on the way of a name is a fault of the trie.
#[tactic(auto, using(crate::proofs::LookUpPaths::fault_of_trie))]
pub fn faults_on_way()
    ensures { (t : Trie) (root : ℕ) (name : List ℕ) (f : Fault) → FaultOnWay t root name f → TrieFault t root f }
{}
