//! Lists with a heading above their rows.

ghost use Rattle.std.specs.Prelude.{◌++◌};
ghost use Rattle.machfixups.specs.Headed.{headed_unless};

use mach_cli::Listing;
use std::io;
use std::io::Write;

/// A list with a line above its first row that can be read.
#[derive(Drop)]
pub struct Headed<L> {
    /// The list.
    pub list: L,
    /// The line, with its line feed.
    pub heading: &'static str,
    /// Whether the line is written.
    pub is_written: bool,
}

/// A row, and what is written before it.
#[derive(Drop)]
pub struct HeadedRow<R> {
    pub heading: &'static str,
    pub row: R,
}

impl<L: Listing> Listing for Headed<L> {
    type Row = HeadedRow<L::Row>;

    ghost text = { λ r. r.heading.now ++ L.text r.row };

    ghost left = { λ s. headed_unless s.is_written s.heading.now (L.left s.list) };

    ghost past = { λ s. L.past s.list };

    ghost past_name = { λ s. L.past_name s.list };

    fn next_row(&mut self) -> Option<goblin_mach::Result<HeadedRow<L::Row>>> {
        match self.list.next_row() {
            Some(Ok(row)) => {
                let heading = if self.is_written { "" } else { self.heading };
                self.is_written = true;
                Some(Ok(HeadedRow { heading, row }))
            }
            Some(Err(error)) => Some(Err(error)),
            None => None,
        }
    }

    fn past(&self) -> usize {
        self.list.past()
    }

    fn past_name(&self) -> &'static str {
        self.list.past_name()
    }

    fn write_row<O: Write>(row: &HeadedRow<L::Row>, out: &mut O) -> io::Result<()> {
        out.write_all(row.heading.as_bytes())?;
        L::write_row(&row.row, out)
    }
}
