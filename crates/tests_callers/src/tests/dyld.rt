//! A loop over a walk that keeps what it has seen, as docs/RATTLE.md shows it: with a contract of its own.

ghost use Rattle.std.specs.Prelude.{◌≡◌, ◌≤◌, ◌+◌, ◌-◌, ◌++◌, ◌∷◌, [], ℕ, List, IfOk, IfErr, OnOk};
ghost use Rattle.mach_base.specs.Answer.{ErrorMeets};
ghost use Rattle.mach_dyld.specs.Exports.{entries, info_of};
ghost use Rattle.mach_dyld.specs.Trie.{entry};
ghost use Rattle.mach_dyld.specs.TrieRange.{TrieRange, ListsExports, ExportsFault};
ghost use Rattle.mach_dyld.specs.Walks.{HasGiven, nodes_left};

use mach_base::{Result, Steps};
use mach_dyld::exports::{Export, ExportInfo, ExportTrie, ExportWalk};
use mach_samples::files::EXPORTS;
use std::alloc::{AllocError, Global};
use std::fmt::Write;
use std::test::Fail;

// Keeps an export, with a name of its own.
fn keep<'a>(
    alloc: Global,
    found: &mut Vec<Export<'a>>,
    name: &str,
    info: ExportInfo<'a>,
) -> std::result::Result<(), AllocError>
    ensures { OnOk result (entries found.new.items ≡ entries found.old.items ++ entry name.now (info_of info.entry) ∷ []) }
{
    found.push(Export::new(String::from_str(alloc, name)?, info))?;
    Ok(())
}

// Returns all exports that a walk gives: the list of the trie, or a fault that holds.
fn gather<'a>(alloc: Global, mut walk: ExportWalk<'a, '_>) -> Result<Vec<Export<'a>>>
    ensures listed { (t : TrieRange) (libs : List (List ℕ)) → HasGiven t libs [] walk.entry
        → IfOk result (λ v. ListsExports t libs (entries v.items)) }
    ensures refused { (t : TrieRange) (libs : List (List ℕ)) → HasGiven t libs [] walk.entry
        → IfErr result (ErrorMeets (ExportsFault t libs)) }
{
    let mut found = Vec::new(alloc);
    'exports: while let Some(export) = walk.next() {
        let (name, info) = export?;
        keep(alloc, &mut found, name, info)?;
    }
    Ok(found)
}

// Runs a walk to its end, counted.
fn go_over(mut walk: ExportWalk<'_, '_>, steps: &mut Steps) -> Result<()>
    ensures few { steps.new ≤ steps.old + nodes_left walk.entry }
{
    'exports: while let Some(export) = walk.next_counted(steps) {
        export?;
    }
    Ok(())
}

// A trie's walk visits no more nodes than the trie has bytes.
fn go_over_trie(alloc: Global, trie: &ExportTrie<'_>, steps: &mut Steps) -> Result<()>
    ensures few { steps.new ≤ steps.old + (trie.now.upto - trie.now.from) }
{
    let walk = trie.walk(alloc, &["self"])?;
    go_over(walk, steps)
}

#[test]
fn gathered(rt: HostRuntime) -> std::result::Result<(), Fail> {
    let trie = ExportTrie::at(&EXPORTS, 0, EXPORTS.len());
    let found = gather(rt.alloc(), trie.walk(rt.alloc(), &["self"])?)?;
    let mut text = String::new(rt.alloc());
    for export in &found {
        write!(text, "{} {:x};", export.name, export.offset)?;
    }
    assert_eq!(rt;
        text.as_str(),
        "__mh_execute_header 0;_maximum f40;_main f50;"
    );
    Ok(())
}
