//! An entry of a fat file that isn't all in the file.

use std::fmt;
use std::fmt::{Display, Formatter, Write};

/// An entry of a fat file whose bytes aren't all in the file, or whose record isn't.
#[derive(Clone, Copy)]
pub struct Outside {
    /// Its index.
    pub index: u32,
    /// Where it ends, or the greatest number if that is less. It is after the end of the file, unless the record can't be read.
    pub end: u64,
    /// Where the file ends.
    pub len: usize,
}

impl Display for Outside {
    ghost use Rattle.std.specs.Prelude.{Some};
    ghost use Rattle.goblin_mach_c.specs.Codes.{cut_off_words};

    ghost output = { λ outside. Some (cut_off_words outside) };

    fn fmt<W: Write>(&self, f: &mut Formatter<W>) -> fmt::Result {
        let Outside { index, end, len } = self;
        write!(
            f,
            "entry {index} is out of the file: it ends at 0x{end:x}, the file at 0x{len:x}"
        )
    }
}
