//! What the program prints of an image.

ghost use Rattle.std.specs.Prelude.{◌≡◌, ℕ, List, [], IfErr, IfOk, OnOk};
ghost use Rattle.std.specs.Io.KnownBytes.{Appends};
ghost use Rattle.goblin_mach.specs.OpenImage.{IsLossyImage};
ghost use Rattle.mach_cli.specs.Failures.{IfMemory};
ghost use Rattle.machinfo.specs.ExportRows.{HasExportFields};
ghost use Rattle.machinfo.specs.Imports.{HasImportFields};
ghost use Rattle.machinfo.specs.Initializers.{HasInitFields};
ghost use Rattle.machinfo.specs.Headings.{AreUnderHeading, exports_heading, list_heading, imports_heading, inits_heading};
ghost use Rattle.machinfo.specs.ImageLines.{AreImageListLines, AreImageSummaryLines, AreInfoLines, AreListedLines};
ghost use Rattle.machinfo.specs.RowFields.{has_names};

use crate::counts::{COUNTED, Form, print_counts};
use crate::export_rows::{ExportForm, print_exports_of, walk_of};
use crate::imports::ImportList;
use crate::initializers::InitList;
use crate::list::use_list;
use crate::list_lines::Lines;
use crate::part_lines::print_parts;
use crate::signed::print_signed;
use crate::state::print_state;
use crate::summary::{print_front, print_used};
use crate::word::{Choice, Word};
use goblin_mach::{AllStretches, MachO};
use mach_audit::state_of;
use mach_cli::{
    AddressLinesOf, ImageView, InForm, Line, Outcome, Pairs, ShowFailure, print_cut, print_listing,
};
use std::alloc::Allocator;
use std::io;
use std::io::Write;

/// The lines of what a call selects, or of the summary.
#[derive(Clone, Copy)]
pub struct InfoLines {
    pub choice: Option<Choice>,
    /// The lines of a list follow a heading.
    pub has_headings: bool,
}

impl ImageView for InfoLines {
    ghost lines = { λ s. AreInfoLines s.has_headings s.choice };

    fn show<A: Allocator + Clone, O: Write>(
        &self,
        alloc: &A,
        file: &str,
        image: &MachO<'_, A>,
        limit: usize,
        left: usize,
        out: &mut O,
    ) -> Result<Outcome, ShowFailure> {
        let has_headings = self.has_headings;
        match self.choice {
            Some(Choice::Word(word)) => {
                print_heading(has_headings, word.heading(), out)?;
                Ok(print_list(word, image, limit, left, out)?)
            }
            Some(Choice::Exports) => print_exports(alloc, has_headings, image, limit, left, out),
            Some(Choice::Imports) => print_imports(alloc, has_headings, image, limit, left, out),
            Some(Choice::Inits) => print_inits(alloc, has_headings, image, limit, left, out),
            Some(Choice::At(address)) => {
                let line = AddressLinesOf {
                    addresses: &[address],
                    load_address: None,
                    has_file: false,
                    is_raw: false,
                };
                line.show(alloc, file, image, limit, left, out)
            }
            None => Ok(print_summary(image, limit, left, out)?),
        }
    }
}

// Prints the line of a heading, if there is one.
fn print_heading<O: Write>(has_headings: bool, heading: &str, out: &mut O) -> io::Result<()>
    ensures { OnOk result (Appends (O.contents out.old) (O.contents out.new) (list_heading has_headings heading.now)) }
{
    if has_headings {
        writeln!(out, "{heading}")?;
    }
    Ok(())
}

// Prints the rows of a word's list, at most `left` of them; a row that can't be read is a line that says why. Returns whether all
// rows were printed and can be read, and how many more may be printed.
fn print_list<A: Allocator, O: Write>(
    word: Word,
    image: &MachO<'_, A>,
    limit: usize,
    left: usize,
    out: &mut O,
) -> io::Result<Outcome>
    ensures { (bytes : List ℕ) → IsLossyImage bytes 0 image.now → IfOk result (λ outcome. (text : List ℕ)
        × AreImageListLines word limit left bytes text outcome.whole outcome.left × Appends (O.contents out.old) (O.contents out.new) text) }
{
    let (refused, past_name) = ("refused", word.past_name());
    if has_names(word) {
        let lines = Lines {
            form: Pairs,
            refused,
            past_name,
            limit,
            left,
        };
        use_list(&lines, word, image, out)
    } else {
        let lines = Lines {
            form: Line,
            refused,
            past_name,
            limit,
            left,
        };
        use_list(&lines, word, image, out)
    }
}

// Prints the exports of an image as a walk meets them, at most `left` of them. A fault of the trie is the last line.
fn print_exports<A: Allocator + Clone, O: Write>(
    alloc: &A,
    has_headings: bool,
    image: &MachO<'_, A>,
    limit: usize,
    left: usize,
    out: &mut O,
) -> Result<Outcome, ShowFailure>
    ensures shown { (bytes : List ℕ) → IsLossyImage bytes 0 image.now → IfOk result (λ outcome. (text : List ℕ)
        × AreUnderHeading has_headings exports_heading (AreListedLines (HasExportFields left bytes) limit left) text outcome.whole outcome.left
        × Appends (O.contents out.old) (O.contents out.new) text) }
    ensures memory { IfErr result (IfMemory (Appends (O.contents out.old) (O.contents out.new) [])) }
{
    let walk = walk_of(alloc, image)?;
    print_heading(has_headings, "ADDRESS     KIND         WEAK NAME", out)?;
    let shown = print_exports_of(ExportForm::Lines, image.base(), walk, left, out)?;
    print_cut(limit, shown.more, out)?;
    Ok(Outcome {
        whole: shown.whole & !shown.more,
        left: shown.left,
    })
}

// Prints what dyld binds in an image, at most `left` binds; one that can't be read is a line that says why.
fn print_imports<A: Allocator + Clone, O: Write>(
    alloc: &A,
    has_headings: bool,
    image: &MachO<'_, A>,
    limit: usize,
    left: usize,
    out: &mut O,
) -> Result<Outcome, ShowFailure>
    ensures shown { (bytes : List ℕ) → IsLossyImage bytes 0 image.now → IfOk result (λ outcome. (text : List ℕ)
        × AreUnderHeading has_headings imports_heading (AreListedLines (HasImportFields bytes) limit left) text outcome.whole outcome.left
        × Appends (O.contents out.old) (O.contents out.new) text) }
    ensures memory { IfErr result (IfMemory (Appends (O.contents out.old) (O.contents out.new) [])) }
{
    let parts = AllStretches::of_image(alloc, image)?;
    let heading = "ADDRESS     SEGMENT      SECTION          LIBRARY              SYMBOL";
    print_heading(has_headings, heading, out)?;
    let list = ImportList {
        parts: &parts,
        bindings: image.bindings(),
    };
    let mut lines = InForm {
        list,
        form: Line,
        past: 0,
        past_name: "",
    };
    Ok(print_listing(&mut lines, "refused", limit, left, out)?)
}

// Prints the initializers of an image, at most `left` of them; one that can't be read is a line that says why.
fn print_inits<A: Allocator + Clone, O: Write>(
    alloc: &A,
    has_headings: bool,
    image: &MachO<'_, A>,
    limit: usize,
    left: usize,
    out: &mut O,
) -> Result<Outcome, ShowFailure>
    ensures shown { (bytes : List ℕ) → IsLossyImage bytes 0 image.now → IfOk result (λ outcome. (text : List ℕ)
        × AreUnderHeading has_headings inits_heading (AreListedLines (HasInitFields bytes 0) limit left) text outcome.whole outcome.left
        × Appends (O.contents out.old) (O.contents out.new) text) }
    ensures memory { IfErr result (IfMemory (Appends (O.contents out.old) (O.contents out.new) [])) }
{
    let list = InitList::of(alloc, image)?;
    print_heading(
        has_headings,
        "ADDRESS     SECTION          TARGET      SYMBOL",
        out,
    )?;
    let mut lines = InForm {
        list,
        form: Line,
        past: 0,
        past_name: "",
    };
    Ok(print_listing(&mut lines, "refused", limit, left, out)?)
}

// Whether the lines of a word's list have the names of fields.
fn has_names(word: Word) -> bool
    ensures { result ≡ has_names word }
{
    match word {
        Word::Commands | Word::CommandsAlone | Word::Header => true,
        _ => false,
    }
}

// Prints the summary: what the image is, how it is signed, and how many items each of its lists has, counted up to `limit`.
// Returns whether all items can be read and no list has more. The summary uses up no lines.
fn print_summary<A: Allocator, O: Write>(
    image: &MachO<'_, A>,
    limit: usize,
    left: usize,
    out: &mut O,
) -> io::Result<Outcome>
    ensures { (bytes : List ℕ) → IsLossyImage bytes 0 image.now → IfOk result (λ outcome. (text : List ℕ)
        × AreImageSummaryLines limit left bytes text outcome.whole outcome.left × Appends (O.contents out.old) (O.contents out.new) text) }
{
    let front = print_front(image, limit, out)?;
    let parts = print_parts(image, limit, out)?;
    let used = print_used(image, limit, out)?;
    let signed = print_signed(image, out)?;
    let state = state_of(image);
    print_state(state, out)?;
    let counts = print_counts(Form::Lines, &COUNTED, image, limit, out)?;
    Ok(Outcome {
        whole: front & parts & used & signed & (state.past == 0) & counts,
        left,
    })
}
