//! The rows of an image's exports, each of which is written as a walk meets it.

ghost use Rattle.std.specs.Prelude.{◌≡◌, [], ℕ, List, Ok, Err, Result, IfErr, IfOk, OnOk};
ghost use Rattle.std.specs.Io.KnownBytes.{Appends};
ghost use Rattle.mach_base.specs.Fault.{Fault};
ghost use Rattle.mach_base.specs.Text.{texts};
ghost use Rattle.mach_dyld.specs.Trie.{Entry};
ghost use Rattle.mach_dyld.specs.TrieRange.{TrieRange};
ghost use Rattle.mach_dyld.specs.Walks.{HasGiven};
ghost use Rattle.goblin_mach.specs.OpenImage.{trie_view};
ghost use Rattle.goblin_mach.specs.Subjects.{trie_or_empty};
ghost use Rattle.mach_cli.specs.declared.failure.ShowFailure.TheVariants as failures;
ghost use Rattle.machinfo.specs.Exports.{exported_fields};
ghost use Rattle.machinfo.specs.ExportRows.{AreShownExports, WritesExportRows, export_row_text, export_text};

use crate::exports::{Exported, write_export};
use goblin_mach::exports::ExportWalk;
use goblin_mach::{Error, MachO, describe};
use mach_cli::{Line, ListProgress, Object, ShowFailure, comma_before};
use std::alloc::Allocator;
use std::io;
use std::io::Write;

/// How rows of exports are written.
#[derive(Clone, Copy)]
pub enum ExportForm {
    /// A line for each.
    Lines,
    /// An object for each, with a comma between two.
    Objects,
}

impl ExportForm {
    // Writes the row of an export.
    fn write_row<O: Write>(
        self,
        is_first: bool,
        export: Exported<'_, '_>,
        out: &mut O,
    ) -> io::Result<()>
        ensures { OnOk result (Appends (O.contents out.old) (O.contents out.new)
            (export_row_text self is_first (Ok (export_text self (exported_fields export.entry))))) }
    {
        match self {
            ExportForm::Lines => {
                write_export::<Line, O>(export, out)?;
                writeln!(out)
            }
            ExportForm::Objects => {
                let comma = comma_before(is_first);
                write!(out, "{comma}")?;
                write_export::<Object, O>(export, out)
            }
        }
    }

    // Writes the row that says why no export comes next.
    fn write_refusal<O: Write>(self, is_first: bool, error: &Error, out: &mut O) -> io::Result<()>
        ensures { OnOk result (Appends (O.contents out.old) (O.contents out.new) (export_row_text self is_first (Err error.now))) }
    {
        let words = describe(error);
        match self {
            ExportForm::Lines => writeln!(out, "refused: {words}"),
            ExportForm::Objects => {
                let comma = comma_before(is_first);
                write!(out, "{comma}")?;
                write!(out, "{{\"error\":\"{words}\"}}")
            }
        }
    }
}

/// Starts a walk over the exports of an image. It fails if memory runs out, and only then.
pub fn walk_of<'a, 'b, A: Allocator + Clone>(
    alloc: &A,
    image: &'b MachO<'a, A>,
) -> Result<ExportWalk<'a, 'b, A>, ShowFailure>
    ensures given { IfOk result (HasGiven (trie_or_empty (trie_view image.now)) (texts image.now.libs.items) []) }
    ensures memory { IfErr result (λ failure. failure ≡ failures.Memory) }
{
    let Ok(walk) = image.walk_exports(alloc.clone()?) else {
        return Err(ShowFailure::Memory);
    };
    Ok(walk)
}

/// Writes a row for each of the first exports of a walk, at most `limit` rows, and goes no further. If the walk can't go on, the
/// last row says why: the fault of the trie, or that memory ran out.
pub fn print_exports_of<A: Allocator, O: Write>(
    form: ExportForm,
    base: u64,
    mut walk: ExportWalk<'_, '_, A>,
    limit: usize,
    out: &mut O,
) -> io::Result<ListProgress>
    ensures { (t : TrieRange) (libs : List (List ℕ)) → HasGiven t libs [] walk.entry → IfOk result (λ progress. (items : List (Result Entry Fault))
        × AreShownExports limit t libs items × WritesExportRows form base limit items (O.contents out.old) (O.contents out.new) progress) }
{
    let mut left = limit;
    let mut is_first = true;
    'exports: while let Some(export) = walk.next() {
        let Some(rest) = left.checked_sub(1) else {
            return Ok(ListProgress {
                left: 0,
                whole: true,
                more: true,
            });
        };
        match export {
            Ok((name, info)) => {
                let info = &info;
                form.write_row(is_first, Exported { base, name, info }, out)?;
            }
            Err(error) => {
                form.write_refusal(is_first, &error, out)?;
                return Ok(ListProgress {
                    left: rest,
                    whole: false,
                    more: false,
                });
            }
        }
        left = rest;
        is_first = false;
    }
    Ok(ListProgress {
        left,
        whole: true,
        more: false,
    })
}
