//! The lines of an archive's members.

ghost use Rattle.std.specs.Prelude.{◌≡◌, Ok, Some, IfOk, OnOk};
ghost use Rattle.std.specs.Io.KnownBytes.{Appends};
ghost use Rattle.mach_base.specs.declared.error.Error.{Error};
ghost use Rattle.mach_archive.specs.ArchiveViews.{archive_of, member_read, member_view};
ghost use Rattle.mach_cli.specs.Listings.{text_answer};
ghost use Rattle.machfat.specs.MemberLines.{member_faults, member_front, member_item, member_line, member_name_end, member_numbers_text};
ghost use Rattle.machfat.specs.MemberLines.{member_place_text, number_or_dash, octal_or_dash, is_whole_member, AreMemberLines, MemberReported};
ghost use Rattle.machfat.specs.Written.{WritesAs};

use crate::archive::{print_name_end, print_refused};
use mach_archive::{Archive, Member};
use mach_base::{Result, describe};
use mach_cli::{ListProgress, entry_kind};
use std::fmt::{Display, Formatter, Write};
use std::{fmt, io};

// A number of a header, if its field has one.
#[derive(Clone, Copy)]
struct NumberText(Option<u64>);

impl Display for NumberText {
    ghost output = { λ t. Some (number_or_dash t.0) };

    fn fmt<W: Write>(&self, f: &mut Formatter<W>) -> fmt::Result {
        match self.0 {
            Some(number) => write!(f, "{number}"),
            None => write!(f, "-"),
        }
    }
}

// A mode in octal, if its field has one.
#[derive(Clone, Copy)]
struct ModeText(Option<u64>);

impl Display for ModeText {
    ghost output = { λ t. Some (octal_or_dash t.0) };

    fn fmt<W: Write>(&self, f: &mut Formatter<W>) -> fmt::Result {
        match self.0 {
            Some(mode) => write!(f, "0{mode:o}"),
            None => write!(f, "-"),
        }
    }
}

// The offsets of a member's header and of its bytes, and their number.
#[derive(Clone, Copy)]
struct PlaceText<'a>(Member<'a>);

impl Display for PlaceText<'_> {
    ghost output = { λ t. Some (member_place_text (member_view t.0)) };

    fn fmt<W: Write>(&self, f: &mut Formatter<W>) -> fmt::Result {
        let Member { offset, start, .. } = self.0;
        let size = self.0.bytes.len();
        write!(f, "header {offset}, offset {start}, size {size}")
    }
}

// The numbers of a member's header.
#[derive(Clone, Copy)]
struct NumbersText<'a>(Member<'a>);

impl Display for NumbersText<'_> {
    ghost output = { λ t. Some (member_numbers_text (member_view t.0)) };

    fn fmt<W: Write>(&self, f: &mut Formatter<W>) -> fmt::Result {
        let date = NumberText(self.0.date());
        let uid = NumberText(self.0.uid());
        let gid = NumberText(self.0.gid());
        let mode = ModeText(self.0.mode());
        write!(f, "date {date}, uid {uid}, gid {gid}, mode {mode}")
    }
}

// A member with its number, before its name.
#[derive(Clone, Copy)]
struct MemberText<'a> {
    number: usize,
    member: Member<'a>,
}

impl Display for MemberText<'_> {
    ghost output = { λ t. Some (member_front t.number (member_view t.member)) };

    fn fmt<W: Write>(&self, f: &mut Formatter<W>) -> fmt::Result {
        let MemberText { number, member } = *self;
        let place = PlaceText(member);
        let numbers = NumbersText(member);
        let kind = entry_kind(member.bytes);
        write!(f, "member {number}: {place}, {numbers}, {kind}, ")
    }
}

// Prints a member's name, or its error, and the end of the line.
fn print_name<O: io::Write>(name: &Result<&str>, out: &mut O) -> io::Result<()>
    ensures { OnOk result (Appends (O.contents out.old) (O.contents out.new) (member_name_end (text_answer (λ name. name.now) name.now))) }
{
    match name {
        Ok(name) => {
            write!(out, "name ")?;
            print_name_end(name, out)
        }
        Err(error) => {
            let words = describe(error);
            writeln!(out, "name refused: {words}")
        }
    }
}

// Prints the line of the member with a number. Returns whether it has no fault.
fn print_member<O: io::Write>(number: usize, member: Member<'_>, out: &mut O) -> io::Result<bool>
    ensures { IfOk result (λ whole. (reported : MemberReported Error) × (member_faults reported ≡ member_item number (Ok (member_view member.entry)))
        × (whole ≡ is_whole_member (member_faults reported)) × Appends (O.contents out.old) (O.contents out.new) (member_line reported)) }
{
    let name = member.name();
    let text = MemberText { number, member };
    write!(out, "{text}")?;
    print_name(&name, out)?;
    Ok(name.is_ok())
}

// Prints the line of the member with a number, or its error. Returns whether it has no fault.
fn print_answer<O: io::Write>(
    number: usize,
    answer: Result<Member<'_>>,
    out: &mut O,
) -> io::Result<bool>
    ensures { IfOk result (λ whole. (reported : MemberReported Error) × (member_faults reported ≡ member_item number (member_read answer.entry))
        × (whole ≡ is_whole_member (member_faults reported)) × Appends (O.contents out.old) (O.contents out.new) (member_line reported)) }
{
    match answer {
        Ok(member) => print_member(number, member, out),
        Err(error) => print_refused("refused", &error, out),
    }
}

/// Prints a line for each of an archive's members, in order, up to the first fault, and for that fault, no more than `left`.
/// Returns whether none of them has a fault, how many lines are left, and whether there are more.
pub fn print_members<O: io::Write>(
    archive: &Archive<'_>,
    left: usize,
    out: &mut O,
) -> io::Result<ListProgress>
    ensures { IfOk result (λ t. WritesAs (AreMemberLines (archive_of archive.now) left) t (O.contents out.old) (O.contents out.new)) }
{
    let mut whole = true;
    let mut number = 0;
    'members: for answer in archive.members() {
        if number == left {
            return Ok(ListProgress {
                left: 0,
                whole,
                more: true,
            });
        }
        whole &= print_answer(number, answer, out)?;
        number += 1;
    }
    Ok(ListProgress {
        left: left - number,
        whole,
        more: false,
    })
}
