//! How many items the lists of an image have.

ghost use Rattle.std.specs.Prelude.{◌≡◌, ℕ, List, Bool, IfOk, OnOk, Some};
ghost use Rattle.std.specs.Io.KnownBytes.{Appends};
ghost use Rattle.goblin_mach.specs.OpenImage.{IsLossyImage};
ghost use Rattle.machinfo.specs.Counts.{count_members, count_text, count_reported, has_no_rows, past_text, AreCounts, IsCount};

use crate::list::{ListUse, use_list};
use crate::word::Word;
use goblin_mach::MachO;
use mach_cli::{InForm, ItemList, Line, ListProgress, Outcome, count_rows, word_if};
use std::alloc::Allocator;
use std::fmt::{Display, Formatter};
use std::io::Write;
use std::{fmt, io};

/// The lists that are counted.
pub const COUNTED: [Word; 12] = [
    Word::CommandsAlone,
    Word::Starts,
    Word::Slots,
    Word::Indirect,
    Word::Data,
    Word::Options,
    Word::Tools,
    Word::Notes,
    Word::Providers,
    Word::Libraries,
    Word::Rebases,
    Word::Weak,
];

/// The form in which counts are written.
#[derive(Clone, Copy)]
pub enum Form {
    /// One line for each list that has or claims rows.
    Lines,
    /// Members of an object, each with a comma after it.
    Members,
}

/// How many more items a list claims whose records begin past the end of the bytes; nothing if it claims none.
#[derive(Clone, Copy)]
pub struct PastText(pub usize);

impl Display for PastText {
    ghost output = { λ t. Some (past_text t.0) };

    fn fmt<W: fmt::Write>(&self, f: &mut Formatter<W>) -> fmt::Result {
        if self.0 == 0 {
            return Ok(());
        }
        let past = self.0;
        write!(f, ", and {past} more past the end")
    }
}

// How many rows a list has, counted up to a limit, and how many more it claims.
#[derive(Clone, Copy)]
struct CountText {
    limit: usize,
    reported: ListProgress,
    past: usize,
}

impl Display for CountText {
    ghost output = { λ t. Some (count_text t.limit t.reported t.past) };

    fn fmt<W: fmt::Write>(&self, f: &mut Formatter<W>) -> fmt::Result {
        let ListProgress { left, whole, more } = self.reported;
        let more = word_if(more, "more than ", "");
        let count = self.limit.saturating_sub(left);
        let refused = word_if(whole, "", ", not all readable");
        let past = PastText(self.past);
        write!(f, "{more}{count}{refused}{past}")
    }
}

// The same as members of an object.
#[derive(Clone, Copy)]
struct CountMembers {
    limit: usize,
    reported: ListProgress,
    past: usize,
}

impl Display for CountMembers {
    ghost output = { λ t. Some (count_members t.limit t.reported t.past) };

    fn fmt<W: fmt::Write>(&self, f: &mut Formatter<W>) -> fmt::Result {
        let ListProgress { whole, more, .. } = self.reported;
        let count = self.limit.saturating_sub(self.reported.left);
        let past = self.past;
        write!(
            f,
            "\"count\":{count},\"limit_met\":{more},\"past_the_end\":{past},\"readable\":{whole}"
        )
    }
}

/// Prints how many items the list of each of these words has, counted up to the limit.
///
/// Returns whether all items can be read, and no list has more than the limit or claims more past the end of the bytes.
pub fn print_counts<A: Allocator, O: Write>(
    form: Form,
    words: &[Word],
    image: &MachO<'_, A>,
    limit: usize,
    out: &mut O,
) -> io::Result<bool>
    ensures { (bytes : List ℕ) → IsLossyImage bytes 0 image.now → IfOk result (λ whole. (text : List ℕ) × AreCounts form limit bytes words.now text whole
        × Appends (O.contents out.old) (O.contents out.new) text) }
{
    let mut whole = true;
    'words: for word in words {
        let word = *word;
        whole &= use_list(&Count { form, word, limit }, word, image, out)?.whole;
    }
    Ok(whole)
}

// Prints how many items the list of a word has. It answers whether all can be read and there are no more.
#[derive(Clone, Copy)]
struct Count {
    form: Form,
    word: Word,
    limit: usize,
}

impl ListUse for Count {
    ghost writes = { λ s rows past text outcome. IsCount s.form s.word s.limit rows past text outcome.whole };

    fn of_list<L: ItemList + Drop, O: Write>(
        &self,
        list: L,
        past: usize,
        out: &mut O,
    ) -> io::Result<Outcome> {
        let mut list = InForm {
            list,
            form: Line,
            past,
            past_name: "",
        };
        let reported = count_rows(&mut list, self.limit);
        write_count(self.form, self.word, self.limit, reported, past, out)?;
        Ok(Outcome {
            whole: reported.whole & !reported.more & (past == 0),
            left: reported.left,
        })
    }
}

// Whether a list has no rows, and none is claimed past the end of the bytes.
fn has_no_rows(limit: usize, reported: ListProgress, past: usize) -> bool
    ensures { result ≡ has_no_rows limit reported past }
{
    reported.whole && !reported.more && past == 0 && limit.saturating_sub(reported.left) == 0
}

// Writes the count of a list.
fn write_count<O: Write>(
    form: Form,
    word: Word,
    limit: usize,
    reported: ListProgress,
    past: usize,
    out: &mut O,
) -> io::Result<()>
    ensures { OnOk result (Appends (O.contents out.old) (O.contents out.new) (count_reported form word limit reported past)) }
{
    let name = word.name();
    match form {
        Form::Lines if has_no_rows(limit, reported, past) => Ok(()),
        Form::Lines => {
            let count = CountText {
                limit,
                reported,
                past,
            };
            writeln!(out, "{name}: {count}")
        }
        Form::Members => {
            let count = CountMembers {
                limit,
                reported,
                past,
            };
            write!(out, "\"{name}\":{{{count}}},")
        }
    }
}
