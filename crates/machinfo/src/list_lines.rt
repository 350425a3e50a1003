//! The lines of the rows of a list of an image.

ghost use Rattle.std.specs.Prelude.{◌≡◌, ◌++◌, ℕ, List, true, codes, map};
ghost use Rattle.mach_cli.specs.Escapes.{IsOneLine, has_no_feed};
ghost use Rattle.mach_cli.specs.Fields.{FieldView, fields_line, fields_pairs};
ghost use Rattle.mach_cli.specs.Listings.{AreFirstLines, reported_by};
ghost use Rattle.mach_audit.specs.FactRows.{FactView};
ghost use Rattle.machinfo.specs.FactTexts.{fact_text};
ghost use Rattle.machinfo.specs.PartLines.{line_after};

use crate::list::ListUse;
use mach_cli::{FieldsForm, InForm, ItemList, Outcome, print_listing};
use std::io;
use std::io::Write;

/// Prints the rows of a list in a form, at most `left` of them; a row that can't be read is `refused` and why. Rows past the end of the bytes
/// have a name. It answers whether all rows were printed and can be read, and how many more may be printed.
#[derive(Clone, Copy)]
pub struct Lines<'a, F> {
    pub form: F,
    pub refused: &'a str,
    pub past_name: &'static str,
    pub limit: usize,
    pub left: usize,
}

impl<'a, F: FieldsForm + Copy + Drop> ListUse for Lines<'a, F> {
    ghost writes = { λ s rows past text outcome.
        AreFirstLines s.refused.now s.limit s.left (map (reported_by F.fields_text) rows) s.past_name.now past text outcome.whole outcome.left };

    fn of_list<L: ItemList + Drop, O: Write>(
        &self,
        list: L,
        past: usize,
        out: &mut O,
    ) -> io::Result<Outcome> {
        let mut lines = InForm {
            list,
            form: self.form,
            past,
            past_name: self.past_name,
        };
        print_listing(&mut lines, self.refused, self.limit, self.left, out)
    }
}

/// Each row of a list and each row of the summary is one line, whatever the names in the file hold.
pub fn rows_are_lines()
    ensures row { (fields : List FieldView) → IsOneLine (fields_line fields ++ codes "\n") }
    ensures pairs { (fields : List FieldView) → IsOneLine (fields_pairs fields ++ codes "\n") }
    ensures facts { (fact : FactView) → IsOneLine (fact_text fact ++ codes "\n") }
    ensures part { (word : List ℕ) (fields : List FieldView) → has_no_feed word ≡ true → IsOneLine (line_after word fields ++ codes "\n") }
{}
