//! What the program writes of an image as JSON.

ghost use Rattle.std.specs.Prelude.{ℕ, List, [], codes, IfErr, IfOk, OnOk};
ghost use Rattle.std.specs.Io.KnownBytes.{Appends};
ghost use Rattle.goblin_mach.specs.OpenImage.{IsLossyImage};
ghost use Rattle.mach_cli.specs.Failures.{IfMemory};
ghost use Rattle.machinfo.specs.ExportRows.{HasExportFields};
ghost use Rattle.machinfo.specs.Imports.{HasImportFields};
ghost use Rattle.machinfo.specs.Initializers.{HasInitFields};
ghost use Rattle.machinfo.specs.ImageLines.{AreImageListMembers, AreImageSummaryMembers, AreInfoMembers, AreItemMembers, AreListedMembers};
ghost use Rattle.machinfo.specs.ImageLines.{counts_end};

use crate::counts::{COUNTED, Form, print_counts};
use crate::export_rows::{ExportForm, print_exports_of, walk_of};
use crate::imports::ImportList;
use crate::initializers::InitList;
use crate::list::{ListUse, use_list};
use crate::members::write_front;
use crate::word::{Choice, Word};
use goblin_mach::{AllStretches, MachO};
use mach_cli::{
    AddressObjectsOf, ImageView, InForm, ItemList, Object, Outcome, ShowFailure, print_end_past,
    print_member,
};
use std::alloc::Allocator;
use std::io;
use std::io::Write;

/// The members of what a call selects, or of the summary.
#[derive(Clone, Copy)]
pub struct InfoObjects {
    pub choice: Option<Choice>,
}

impl ImageView for InfoObjects {
    ghost lines = { λ s. AreInfoMembers s.choice };

    fn show<A: Allocator + Clone, O: Write>(
        &self,
        alloc: &A,
        file: &str,
        image: &MachO<'_, A>,
        limit: usize,
        left: usize,
        out: &mut O,
    ) -> Result<Outcome, ShowFailure> {
        match self.choice {
            Some(Choice::Word(word)) => Ok(write_rows(word, image, left, out)?),
            Some(Choice::Exports) => write_exports(alloc, image, left, out),
            Some(Choice::Imports) => write_imports(alloc, image, left, out),
            Some(Choice::Inits) => write_inits(alloc, image, left, out),
            Some(Choice::At(address)) => {
                let objects = AddressObjectsOf {
                    addresses: &[address],
                    load_address: None,
                };
                objects.show(alloc, file, image, limit, left, out)
            }
            None => Ok(write_summary(image, limit, left, out)?),
        }
    }
}

// Writes the rows of a word's list as objects, at most `left` of them, and whether there are more. Returns whether all rows were
// written and can be read, and how many more may be written.
fn write_rows<A: Allocator, O: Write>(
    word: Word,
    image: &MachO<'_, A>,
    left: usize,
    out: &mut O,
) -> io::Result<Outcome>
    ensures { (bytes : List ℕ) → IsLossyImage bytes 0 image.now → IfOk result (λ outcome. (text : List ℕ)
        × AreImageListMembers word left bytes text outcome.whole outcome.left × Appends (O.contents out.old) (O.contents out.new) text) }
{
    let name = word.name();
    use_list(&Members { name, left }, word, image, out)
}

// Writes the exports of an image as objects as a walk meets them, at most `left` of them. A fault of the trie is the last object.
fn write_exports<A: Allocator + Clone, O: Write>(
    alloc: &A,
    image: &MachO<'_, A>,
    left: usize,
    out: &mut O,
) -> Result<Outcome, ShowFailure>
    ensures shown { (bytes : List ℕ) → IsLossyImage bytes 0 image.now → IfOk result (λ outcome. (text : List ℕ)
        × AreListedMembers (codes "exports") (HasExportFields left bytes) left text outcome.whole outcome.left
        × Appends (O.contents out.old) (O.contents out.new) text) }
    ensures memory { IfErr result (IfMemory (Appends (O.contents out.old) (O.contents out.new) [])) }
{
    let walk = walk_of(alloc, image)?;
    write!(out, "\"exports\":")?;
    write!(out, "[")?;
    let shown = print_exports_of(ExportForm::Objects, image.base(), walk, left, out)?;
    write!(out, "]")?;
    write!(out, ",")?;
    Ok(print_end_past(shown, 0, out)?)
}

// Writes what dyld binds in an image as objects, at most `left` of them.
fn write_imports<A: Allocator + Clone, O: Write>(
    alloc: &A,
    image: &MachO<'_, A>,
    left: usize,
    out: &mut O,
) -> Result<Outcome, ShowFailure>
    ensures shown { (bytes : List ℕ) → IsLossyImage bytes 0 image.now → IfOk result (λ outcome. (text : List ℕ)
        × AreListedMembers (codes "imports") (HasImportFields bytes) left text outcome.whole outcome.left
        × Appends (O.contents out.old) (O.contents out.new) text) }
    ensures memory { IfErr result (IfMemory (Appends (O.contents out.old) (O.contents out.new) [])) }
{
    let parts = AllStretches::of_image(alloc, image)?;
    let list = ImportList {
        parts: &parts,
        bindings: image.bindings(),
    };
    Ok(write_items("imports", list, 0, left, out)?)
}

// Writes the initializers of an image as objects, at most `left` of them.
fn write_inits<A: Allocator + Clone, O: Write>(
    alloc: &A,
    image: &MachO<'_, A>,
    left: usize,
    out: &mut O,
) -> Result<Outcome, ShowFailure>
    ensures shown { (bytes : List ℕ) → IsLossyImage bytes 0 image.now → IfOk result (λ outcome. (text : List ℕ)
        × AreListedMembers (codes "inits") (HasInitFields bytes 0) left text outcome.whole outcome.left
        × Appends (O.contents out.old) (O.contents out.new) text) }
    ensures memory { IfErr result (IfMemory (Appends (O.contents out.old) (O.contents out.new) [])) }
{
    let list = InitList::of(alloc, image)?;
    Ok(write_items("inits", list, 0, left, out)?)
}

// Writes the items of a list as an array of this name, at most `left` of them.
#[derive(Clone, Copy)]
struct Members<'a> {
    name: &'a str,
    left: usize,
}

impl<'a> ListUse for Members<'a> {
    ghost writes = { λ s rows past text outcome. AreItemMembers s.name.now s.left rows past text outcome.whole outcome.left };

    fn of_list<L: ItemList + Drop, O: Write>(
        &self,
        list: L,
        past: usize,
        out: &mut O,
    ) -> io::Result<Outcome> {
        write_items(self.name, list, past, self.left, out)
    }
}

// Writes the items of a list as an array of this name, at most `left` of them; whether there are more; and how many more are claimed
// past the end of the bytes. Returns whether all were written and can be read, and how many more may be written.
fn write_items<L: ItemList + Drop, O: Write>(
    name: &str,
    list: L,
    past: usize,
    left: usize,
    out: &mut O,
) -> io::Result<Outcome>
    ensures { IfOk result (λ outcome. (text : List ℕ) × AreItemMembers name.now left (L.items_left list) past text outcome.whole outcome.left
        × Appends (O.contents out.old) (O.contents out.new) text) }
{
    let mut list = InForm {
        list,
        form: Object,
        past,
        past_name: "",
    };
    let reported = print_member(name, &mut list, left, out)?;
    print_end_past(reported, past, out)
}

// Writes the summary as members, with how many items each list has, counted up to `limit`. Returns whether all items can be read
// and no list has more. The summary uses up no rows.
fn write_summary<A: Allocator, O: Write>(
    image: &MachO<'_, A>,
    limit: usize,
    left: usize,
    out: &mut O,
) -> io::Result<Outcome>
    ensures { (bytes : List ℕ) → IsLossyImage bytes 0 image.now → IfOk result (λ outcome. (text : List ℕ)
        × AreImageSummaryMembers limit left bytes text outcome.whole outcome.left × Appends (O.contents out.old) (O.contents out.new) text) }
{
    let front = write_front(image, limit, out)?;
    write!(out, "\"counts\":{{")?;
    let counts = print_counts(Form::Members, &COUNTED, image, limit, out)?;
    end_counts(limit, out)?;
    Ok(Outcome {
        whole: front & counts,
        left,
    })
}

// Writes what follows the counts.
fn end_counts<O: Write>(limit: usize, out: &mut O) -> io::Result<()>
    ensures { OnOk result (Appends (O.contents out.old) (O.contents out.new) (counts_end limit)) }
{
    write!(out, "\"limit\":{limit}}},\"kind\":\"image\"")
}
