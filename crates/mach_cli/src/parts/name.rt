//! The name of a part of a file.

ghost use Rattle.std.specs.Prelude.{Some};
ghost use Rattle.goblin_mach.specs.Items.{content_view};
ghost use Rattle.mach_cli.specs.PartNames.{entry_label, member_called, part_name, within_text};

use goblin_mach::Content;
use mach_archive::Member;
use std::fmt;
use std::fmt::{Display, Formatter, Write};

// The entry of a fat file that holds a part, if there is one.
#[derive(Clone, Copy)]
struct EntryText(Option<usize>);

impl Display for EntryText {
    ghost output = { λ t. Some (entry_label t.0) };

    fn fmt<W: Write>(&self, f: &mut Formatter<W>) -> fmt::Result {
        match self.0 {
            Some(index) => write!(f, ": arch {index}"),
            None => Ok(()),
        }
    }
}

// A member's name, or the offset of its header.
#[derive(Clone, Copy)]
struct MemberName<'a>(Member<'a>);

impl Display for MemberName<'_> {
    ghost use Rattle.mach_archive.specs.ArchiveViews.{member_view};

    ghost output = { λ t. Some (member_called (member_view t.0)) };

    fn fmt<W: Write>(&self, f: &mut Formatter<W>) -> fmt::Result {
        match self.0.name() {
            Ok(name) => write!(f, "{name}"),
            Err(_) => write!(f, "at {}", self.0.offset),
        }
    }
}

// The member that a part is, if it is one.
#[derive(Clone, Copy)]
struct WithinText<'a>(Content<'a>);

impl Display for WithinText<'_> {
    ghost output = { λ t. Some (within_text (content_view t.0)) };

    fn fmt<W: Write>(&self, f: &mut Formatter<W>) -> fmt::Result {
        match self.0 {
            Content::Member(member) => {
                let name = MemberName(member);
                write!(f, "({name})")
            }
            Content::File(_) | Content::NoMember => Ok(()),
        }
    }
}

/// The name of a part of a file of this name: with the index of its entry in a fat file, and its name in an archive.
#[derive(Clone, Copy)]
pub struct PartName<'f, 'a> {
    pub file: &'f str,
    pub entry: Option<usize>,
    pub content: Content<'a>,
}

impl Display for PartName<'_, '_> {
    ghost output = { λ t. Some (part_name t.file.now t.entry (content_view t.content)) };

    fn fmt<W: Write>(&self, f: &mut Formatter<W>) -> fmt::Result {
        let PartName { file, .. } = self;
        let entry = EntryText(self.entry);
        let within = WithinText(self.content);
        write!(f, "{file}{entry}{within}")
    }
}
