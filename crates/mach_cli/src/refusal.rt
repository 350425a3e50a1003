//! Why nothing is shown of a file or of an image, and the line that reports it.

ghost use Rattle.std.specs.Prelude.{◌≡◌, OnOk};
ghost use Rattle.std.specs.Io.KnownBytes.{Appends};
ghost use Rattle.mach_base.specs.Words.{words_of};
ghost use Rattle.goblin_mach.specs.Items.{content_view};
ghost use Rattle.mach_cli.specs.Foreigners.{refused_words};
ghost use Rattle.mach_cli.specs.Labels.{label_view};
ghost use Rattle.mach_cli.specs.Names.{names_text};
ghost use Rattle.mach_cli.specs.Refusals.{complaint, content_words, label_complaint, refusal_reason};

use crate::cpu::Cpu;
use crate::entries::OutOfFile;
use crate::first_bytes::refused_kind;
use crate::label::{Label, LabelSuffix};
use crate::names::Names;
use goblin_mach::{Content, Description, Error, Foreign, describe};
use std::fmt::{Display, Formatter};
use std::io::Write;
use std::{fmt, io};

/// Why nothing is shown of a file or of an image.
#[derive(Clone, Copy)]
pub enum Refusal<'a> {
    /// It isn't Mach-O.
    Kind(Foreign),
    /// It doesn't open, or can't be read.
    Fault(Description<'a>),
    /// Its image is for another cpu.
    OtherImage(Cpu),
    /// None of its entries is for the selected cpu.
    NoEntry(Cpu),
    /// Memory ran out.
    Memory,
    /// It lacks what is selected; these are the words for that.
    Lacks(&'static str),
    /// It is an entry whose bytes aren't all in the file.
    OutOfFile(OutOfFile),
    /// So many of its entries are left out, since entries overlap.
    LeftOut(usize),
    /// So many of its images are shown, and the limit leaves out more.
    Limit(usize),
}

impl Display for Refusal<'_> {
    ghost use Rattle.std.specs.Prelude.{Some};

    ghost output = { λ refusal. Some (refusal_reason refusal) };

    fn fmt<W: fmt::Write>(&self, f: &mut Formatter<W>) -> fmt::Result {
        match self {
            Refusal::Kind(kind) => write!(f, "{kind}"),
            Refusal::Fault(words) => write!(f, "{words}"),
            Refusal::OtherImage(cpu) => write!(f, "no image of {cpu}"),
            Refusal::NoEntry(cpu) => write!(f, "no entry of {cpu}"),
            Refusal::Memory => write!(f, "out of memory"),
            Refusal::Lacks(words) => write!(f, "{words}"),
            Refusal::OutOfFile(outside) => write!(f, "{outside}"),
            Refusal::LeftOut(count) => {
                write!(f, "entries overlap: the last {count} are left out")
            }
            Refusal::Limit(count) => {
                write!(f, "limit: only the first {count} of its images are shown")
            }
        }
    }
}

/// Returns why a file is refused for this error: its kind, if it isn't Mach-O, else the fault.
pub fn refusal_of<'a>(bytes: &[u8], error: &'a Error) -> Refusal<'a>
    ensures { refusal_reason result ≡ refused_words bytes.now error.now }
{
    match refused_kind(bytes, error) {
        Some(kind) => Refusal::Kind(kind),
        None => Refusal::Fault(describe(error)),
    }
}

/// Returns why no image opens in the content of an item for this error. Of a member it is the kind, if that isn't Mach-O.
pub fn refusal_of_content<'a>(content: Content<'_>, error: &'a Error) -> Refusal<'a>
    ensures { refusal_reason result ≡ content_words (content_view content.entry) error.now }
{
    match content {
        Content::Member(member) => refusal_of(member.bytes, error),
        Content::File(_) | Content::NoMember => Refusal::Fault(describe(error)),
    }
}

/// Reports a refusal of a file, or of what has this label in it, in a line on `err`.
pub fn complain<E: Write>(
    names: Names<'_>,
    label: Label<'_>,
    refusal: Refusal<'_>,
    err: &mut E,
) -> io::Result<()>
    ensures { OnOk result (Appends (E.contents err.old) (E.contents err.new)
        (label_complaint (names_text names.entry.program.now names.entry.file.now) (label_view label.entry) (refusal_reason refusal.entry))) }
{
    let label = LabelSuffix(label);
    writeln!(err, "{names}{label}: {refusal}")
}
