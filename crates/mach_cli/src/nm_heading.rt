//! The heading above the symbols of an entry of a fat file, as `llvm-nm` has it.

ghost use Rattle.std.specs.Prelude.{Some};
ghost use Rattle.mach_archive.specs.ArchiveViews.{member_view};
ghost use Rattle.mach_cli.specs.Labels.{label_view};
ghost use Rattle.mach_cli.specs.NmHeadings.{nm_cpu, nm_end, nm_heading, nm_member};

use crate::cpu::{Cpu, entry_cpu_name};
use crate::escaped::Escaped;
use crate::label::{Label, NameOnLine};
use goblin_mach::EntryCpu;
use mach_archive::Member;
use std::fmt;
use std::fmt::{Display, Formatter, Write};

// The cpu of an entry: its name, or its number if it has no name.
#[derive(Clone, Copy)]
struct NmCpu(Option<EntryCpu>);

impl Display for NmCpu {
    ghost output = { λ t. Some (nm_cpu t.0) };

    fn fmt<W: Write>(&self, f: &mut Formatter<W>) -> fmt::Result {
        let Some(cpu) = self.0 else {
            return write!(f, "unknown");
        };
        match entry_cpu_name(Some(cpu)) {
            Some(name) => write!(f, "{name}"),
            None => {
                let number = Cpu::Number(cpu.cputype);
                write!(f, "{number}")
            }
        }
    }
}

// What follows the name of the file: which cpu the entry is for.
#[derive(Clone, Copy)]
struct NmEnd(Option<EntryCpu>);

impl Display for NmEnd {
    ghost output = { λ t. Some (nm_end t.0) };

    fn fmt<W: Write>(&self, f: &mut Formatter<W>) -> fmt::Result {
        let cpu = NmCpu(self.0);
        writeln!(f, " (for architecture {cpu}):")
    }
}

// The name of a member after that of the file.
#[derive(Clone, Copy)]
struct NmMember<'a>(Member<'a>);

impl Display for NmMember<'_> {
    ghost output = { λ t. Some (nm_member (member_view t.0)) };

    fn fmt<W: Write>(&self, f: &mut Formatter<W>) -> fmt::Result {
        let name = NameOnLine(self.0);
        write!(f, "({name})")
    }
}

/// The heading of an entry of a fat file, or of a member of an archive that is an entry: an empty line, and a line with the names
/// and the cpu. A file that is one image has none.
#[derive(Clone, Copy)]
pub(crate) struct NmHeading<'f, 'a> {
    /// The name of the file.
    pub file: &'f str,
    /// The entry.
    pub label: Label<'a>,
}

impl Display for NmHeading<'_, '_> {
    ghost output = { λ t. Some (nm_heading t.file.now (label_view t.label)) };

    fn fmt<W: Write>(&self, f: &mut Formatter<W>) -> fmt::Result {
        let file = Escaped(self.file);
        match self.label {
            Label::None => Ok(()),
            Label::Entry(_, cpu) => {
                let end = NmEnd(cpu);
                write!(f, "\n{file}{end}")
            }
            Label::Member(_, cpu, member) => {
                let member = NmMember(member);
                let end = NmEnd(cpu);
                write!(f, "\n{file}{member}{end}")
            }
        }
    }
}
