//! What is omitted of a file.

ghost use Rattle.std.specs.Prelude.{◌≡◌, ◌==◌, ◌&&◌, not, OnOk};
ghost use Rattle.std.specs.Io.KnownBytes.{Appends};
ghost use Rattle.mach_cli.specs.Names.{names_text};
ghost use Rattle.mach_cli.specs.PartsOf.{parts_left};
ghost use Rattle.mach_cli.specs.Refusals.{refusal_reason};
ghost use Rattle.mach_cli.specs.Selected.{omitted_of};
ghost use Rattle.mach_cli.specs.Shown.{line_if, omitted_lines};

use crate::bounds::most_images;
use crate::cpu::Cpu;
use crate::label::Label;
use crate::names::Names;
use crate::parts::Parts;
use crate::parts::selection::are_more;
use crate::refusal::{Refusal, complain};
use std::io;
use std::io::Write;

/// What is omitted of a file.
#[derive(Clone, Copy)]
pub(crate) struct Omitted {
    /// The number of its lines, and of its images (`most_images`).
    pub limit: usize,
    /// Whether the limit leaves out some of its images.
    pub is_cut: bool,
    /// How many of its entries are left out, since entries overlap.
    pub left_out: usize,
}

impl Omitted {
    /// Returns what is omitted of a file with these parts, of which some are selected, and with so many entries that are left out.
    pub fn of(limit: usize, cpu: Cpu, parts: Parts<'_>, left_out: usize) -> Omitted
        ensures { result ≡ omitted_of limit cpu (parts_left parts.entry) left_out }
    {
        Omitted {
            limit,
            is_cut: are_more(most_images(limit), cpu, parts),
            left_out,
        }
    }

    /// Whether nothing is.
    pub fn is_nothing(&self) -> bool
        ensures { result ≡ (not self.now.is_cut && (self.now.left_out == 0)) }
    {
        !self.is_cut & (self.left_out == 0)
    }

    /// Reports what is, in a line or two on `err`.
    pub fn report<E: Write>(&self, names: Names<'_>, err: &mut E) -> io::Result<()>
        ensures { OnOk result (Appends (E.contents err.old) (E.contents err.new)
            (omitted_lines (names_text names.entry.program.now names.entry.file.now) self.now)) }
    {
        let count = most_images(self.limit);
        complain_if(self.is_cut, names, Refusal::Limit(count), err)?;
        complain_if(
            self.left_out > 0,
            names,
            Refusal::LeftOut(self.left_out),
            err,
        )
    }
}

// Reports a refusal of a file in a line on `err`, if it occurs.
fn complain_if<E: Write>(
    occurs: bool,
    names: Names<'_>,
    refusal: Refusal<'_>,
    err: &mut E,
) -> io::Result<()>
    ensures { OnOk result (Appends (E.contents err.old) (E.contents err.new)
        (line_if (names_text names.entry.program.now names.entry.file.now) occurs (refusal_reason refusal.entry))) }
{
    if !occurs {
        return Ok(());
    }
    complain(names, Label::None, refusal, err)
}
