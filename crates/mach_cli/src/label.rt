//! The label of an image within a file.

ghost use Rattle.std.specs.Prelude.{◌≡◌, Some};
ghost use Rattle.mach_archive.specs.ArchiveViews.{member_view};
ghost use Rattle.mach_archive.specs.MemberNames.{member_name};
ghost use Rattle.goblin_mach.specs.ItemsLeft.{input_item_read};
ghost use Rattle.mach_dyld.specs.Exports.{text_in};
ghost use Rattle.mach_cli.specs.Labels.{cpu_string, cpu_suffix, label_cpu, label_line, label_of, label_suffix, label_view, member_text, name_on_line};
ghost use Rattle.mach_cli.specs.Labels.{name_string, object_front};

use crate::cpu::entry_cpu_name;
use crate::escaped::Escaped;
use crate::json::text::JsonString;
use goblin_mach::{Content, EntryCpu, InputItem};
use mach_archive::Member;
use std::fmt;
use std::fmt::{Display, Formatter, Write};

/// The label of an image within a file.
#[derive(Clone, Copy)]
pub enum Label<'a> {
    /// None, if the image is the whole file.
    None,
    /// The index of its entry in a fat file, and the cpu, if the record can be read.
    Entry(usize, Option<EntryCpu>),
    /// The same of the entry that is an archive, and the member of this archive.
    Member(usize, Option<EntryCpu>, Member<'a>),
}

impl<'a> Label<'a> {
    /// Returns the label of an item of a file.
    pub fn of(item: &InputItem<'a>) -> Label<'a>
        ensures { let x = input_item_read item.now in label_view result ≡ label_of x.place x.content }
    {
        let cpu = item.place.cpu;
        match item.place.entry {
            Some(index) => match &item.content {
                Ok(Content::Member(member)) => Label::Member(index, cpu, *member),
                Ok(Content::File(_) | Content::NoMember) | Err(_) => Label::Entry(index, cpu),
            },
            None => Label::None,
        }
    }
}

// A member's name on one line, or the offset of its header.
#[derive(Clone, Copy)]
pub(crate) struct NameOnLine<'a>(pub Member<'a>);

impl Display for NameOnLine<'_> {
    ghost output = { λ t. let m = member_view t.0 in Some (name_on_line (member_name m) m.offset) };

    fn fmt<W: Write>(&self, f: &mut Formatter<W>) -> fmt::Result {
        match self.0.name() {
            Ok(name) => {
                let name = Escaped(name);
                write!(f, "{name}")
            }
            Err(_) => write!(f, "at {}", self.0.offset),
        }
    }
}

// A member of the archive that an entry is.
#[derive(Clone, Copy)]
struct MemberText<'a>(usize, Member<'a>);

impl Display for MemberText<'_> {
    ghost output = { λ t. Some (member_text t.0 (member_view t.1)) };

    fn fmt<W: Write>(&self, f: &mut Formatter<W>) -> fmt::Result {
        let index = self.0;
        let name = NameOnLine(self.1);
        write!(f, "arch {index}({name})")
    }
}

// The name of a cpu after the label of an entry, if there is one.
#[derive(Clone, Copy)]
struct CpuSuffix(Option<&'static str>);

impl Display for CpuSuffix {
    ghost output = { λ t. Some (cpu_suffix (text_in t.0)) };

    fn fmt<W: Write>(&self, f: &mut Formatter<W>) -> fmt::Result {
        match self.0 {
            Some(name) => write!(f, " ({name})"),
            None => Ok(()),
        }
    }
}

/// The line above the output of an image.
#[derive(Clone, Copy)]
pub struct LabelLine<'a>(pub Label<'a>);

impl Display for LabelLine<'_> {
    ghost output = { λ t. Some (label_line (label_view t.0)) };

    fn fmt<W: Write>(&self, f: &mut Formatter<W>) -> fmt::Result {
        match self.0 {
            Label::None => Ok(()),
            Label::Entry(index, cpu) => {
                let cpu = CpuSuffix(entry_cpu_name(cpu));
                writeln!(f, "arch {index}{cpu}")
            }
            Label::Member(index, cpu, member) => {
                let text = MemberText(index, member);
                let cpu = CpuSuffix(entry_cpu_name(cpu));
                writeln!(f, "{text}{cpu}")
            }
        }
    }
}

// The name of the cpu of the entry that has this label, beside another name.
#[derive(Clone, Copy)]
pub(crate) struct LabelCpu<'a>(pub Label<'a>);

impl Display for LabelCpu<'_> {
    ghost output = { λ t. Some (label_cpu (label_view t.0)) };

    fn fmt<W: Write>(&self, f: &mut Formatter<W>) -> fmt::Result {
        match self.0 {
            Label::None => Ok(()),
            Label::Entry(_, cpu) | Label::Member(_, cpu, _) => {
                let cpu = CpuSuffix(entry_cpu_name(cpu));
                write!(f, "{cpu}")
            }
        }
    }
}

/// The label of an image after the name of its file, in a complaint.
#[derive(Clone, Copy)]
pub struct LabelSuffix<'a>(pub Label<'a>);

impl Display for LabelSuffix<'_> {
    ghost output = { λ t. Some (label_suffix (label_view t.0)) };

    fn fmt<W: Write>(&self, f: &mut Formatter<W>) -> fmt::Result {
        match self.0 {
            Label::None => Ok(()),
            Label::Entry(index, _) => write!(f, ": arch {index}"),
            Label::Member(index, _, member) => {
                let text = MemberText(index, member);
                write!(f, ": {text}")
            }
        }
    }
}

// A member's name as a string of JSON, or the offset of its header.
#[derive(Clone, Copy)]
struct NameString<'a>(Member<'a>);

impl Display for NameString<'_> {
    ghost output = { λ t. let m = member_view t.0 in Some (name_string (member_name m) m.offset) };

    fn fmt<W: Write>(&self, f: &mut Formatter<W>) -> fmt::Result {
        match self.0.name() {
            Ok(name) => {
                let name = JsonString(name);
                write!(f, "{name}")
            }
            Err(_) => write!(f, "\"at {}\"", self.0.offset),
        }
    }
}

// The name of a cpu as a string of JSON, `null` if there is none.
#[derive(Clone, Copy)]
struct CpuString(Option<&'static str>);

impl Display for CpuString {
    ghost output = { λ t. Some (cpu_string (text_in t.0)) };

    fn fmt<W: Write>(&self, f: &mut Formatter<W>) -> fmt::Result {
        match self.0 {
            Some(name) => write!(f, "\"{name}\""),
            None => write!(f, "null"),
        }
    }
}

/// The start of an image's object, in JSON.
#[derive(Clone, Copy)]
pub struct ObjectFront<'a>(pub Label<'a>);

impl Display for ObjectFront<'_> {
    ghost output = { λ t. Some (object_front (label_view t.0)) };

    fn fmt<W: Write>(&self, f: &mut Formatter<W>) -> fmt::Result {
        match self.0 {
            Label::None => write!(f, "{{"),
            Label::Entry(index, cpu) => {
                let cpu = CpuString(entry_cpu_name(cpu));
                write!(f, "{{\"arch\":{cpu},\"entry\":{index},")
            }
            Label::Member(index, cpu, member) => {
                let cpu = CpuString(entry_cpu_name(cpu));
                let name = NameString(member);
                write!(f, "{{\"arch\":{cpu},\"entry\":{index},\"member\":{name},")
            }
        }
    }
}
