//! The lines of the summary for the entry point, the segments and the sections of an image.

ghost use Rattle.std.specs.Prelude.{ℕ, List, codes, IfOk};
ghost use Rattle.std.specs.Io.KnownBytes.{Appends};
ghost use Rattle.goblin_mach.specs.OpenImage.{IsLossyImage};
ghost use Rattle.machinfo.specs.PartLines.{line_after, AreLinesOfParts, ArePartLines};

use crate::list::use_list;
use crate::list_lines::Lines;
use crate::word::Word;
use goblin_mach::MachO;
use mach_cli::{Field, FieldsForm, Line, RecordFields};
use std::alloc::Allocator;
use std::io;
use std::io::Write;

// A word before a line.
trait Label {
    ghost use Rattle.std.specs.Prelude.{◌≡◌, ℕ, List};

    ghost word: { List ℕ };

    // Returns the word.
    fn word() -> &'static str
        ensures { result.now ≡ word };
}

#[derive(Clone, Copy, Drop)]
struct Entry;

impl Label for Entry {
    ghost word = { codes "entry: " };

    fn word() -> &'static str {
        "entry: "
    }
}

#[derive(Clone, Copy, Drop)]
struct Segment;

impl Label for Segment {
    ghost word = { codes "segment: " };

    fn word() -> &'static str {
        "segment: "
    }
}

#[derive(Clone, Copy, Drop)]
struct Section;

impl Label for Section {
    ghost word = { codes "section: " };

    fn word() -> &'static str {
        "section: "
    }
}

// A line after a word.
#[derive(Clone, Copy, Drop)]
struct After<L>(L);

impl<L: Label> FieldsForm for After<L> {
    ghost fields_text = { line_after L.word };

    fn write_both<O: Write>(
        fields: &[Field<'_>],
        others: &[Field<'_>],
        out: &mut O,
    ) -> io::Result<()> {
        out.write_all(L::word().as_bytes())?;
        Line::write_both(fields, others, out)
    }

    fn write_record<O: Write>(
        first: &Field<'_>,
        fields: &[Field<'_>],
        shown: RecordFields<'_>,
        out: &mut O,
    ) -> io::Result<()> {
        out.write_all(L::word().as_bytes())?;
        Line::write_record(first, fields, shown, out)
    }
}

/// Prints the lines of an image for its entry point, its segments and its sections, each list up to the limit. Returns whether all
/// were printed and can be read.
pub fn print_parts<A: Allocator, O: Write>(
    image: &MachO<'_, A>,
    limit: usize,
    out: &mut O,
) -> io::Result<bool>
    ensures { (bytes : List ℕ) → IsLossyImage bytes 0 image.now → IfOk result (λ whole. (text : List ℕ) × AreLinesOfParts limit bytes text whole
        × Appends (O.contents out.old) (O.contents out.new) text) }
{
    let entry = print_after(Entry, "entry: refused", Word::Entry, image, 1, out)?;
    let segments = print_after(
        Segment,
        "segment: refused",
        Word::Segments,
        image,
        limit,
        out,
    )?;
    let sections = print_after(
        Section,
        "section: refused",
        Word::Sections,
        image,
        limit,
        out,
    )?;
    Ok(entry & segments & sections)
}

// Prints the lines of a word's list up to a limit, each after a label, and returns whether all were printed and can be read.
fn print_after<L: Label + Copy + Drop, A: Allocator, O: Write>(
    label: L,
    refused: &str,
    word: Word,
    image: &MachO<'_, A>,
    limit: usize,
    out: &mut O,
) -> io::Result<bool>
    ensures { (bytes : List ℕ) → IsLossyImage bytes 0 image.now → IfOk result (λ whole. (text : List ℕ)
        × ArePartLines word L.word refused.now limit bytes text whole
        × Appends (O.contents out.old) (O.contents out.new) text) }
{
    let lines = Lines {
        form: After(label),
        refused,
        past_name: word.past_name(),
        limit,
        left: limit,
    };
    Ok(use_list(&lines, word, image, out)?.whole)
}
