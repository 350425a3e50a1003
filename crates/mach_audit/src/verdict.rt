//! Whether a file is sound, by its report.

ghost use Rattle.std.specs.Prelude.{◌≡◌};
ghost use Rattle.mach_audit.specs.Verdicts.{verdict_of_all, verdict_of_both, verdict_of, verdict_of_read, is_clean, verdict_of_parts, verdict_of_image};
ghost use Rattle.mach_audit.specs.Verdicts.{verdict_of_archive, verdict_of_cut, verdict_of_entry, verdict_of_fat, verdict_of_member};
ghost use Rattle.mach_audit.specs.Verdicts.{verdict_of_table, verdict_of_layout, verdict_of_report, verdict_of_input};
ghost use Rattle.mach_audit.specs.Verdicts.{are_clean, verdict_of_records, verdict_of_signature};

use crate::report::{
    ArchiveReport, EntryReport, FatReport, ImageReport, InputReport, MemberReport, PartReport,
    Parts, Records, Report, SignatureReport,
};
use mach_layout::LayoutFault;
use std::alloc::Allocator;
use std::fmt;

/// Whether a file is sound.
#[derive(Clone, Copy, Debug, PartialEq)]
pub enum Soundness {
    /// It is: no fault was found, and all of it was visited.
    Sound,
    /// It has more items than were visited, and no fault was found among those.
    Unended,
    /// It has faults.
    Faulty,
}

impl fmt::Display for Soundness {
    ghost use Rattle.std.specs.Prelude.{Some};
    ghost use Rattle.mach_audit.specs.Verdicts.{verdict_words};

    ghost output = { λ verdict. Some (verdict_words verdict) };

    fn fmt<W: fmt::Write>(&self, f: &mut fmt::Formatter<W>) -> fmt::Result {
        match self {
            Soundness::Sound => write!(f, "sound"),
            Soundness::Unended => write!(f, "not sound: limit met"),
            Soundness::Faulty => write!(f, "not sound"),
        }
    }
}

impl Soundness {
    // Returns the verdict on two parts: a fault counts before a limit.
    fn and(self, other: Soundness) -> Soundness
        ensures { result ≡ verdict_of_both self other }
    {
        match (self, other) {
            (Soundness::Faulty, _) | (_, Soundness::Faulty) => Soundness::Faulty,
            (Soundness::Unended, _) | (_, Soundness::Unended) => Soundness::Unended,
            (Soundness::Sound, Soundness::Sound) => Soundness::Sound,
        }
    }
}

impl<A: Allocator> PartReport<A> {
    /// Whether all items of the part were visited, and each can be read.
    pub fn is_clean(&self) -> bool
        ensures { result ≡ is_clean self.now }
    {
        self.faults == 0 && !self.cut
    }

    // Returns the verdict on the part.
    fn verdict(&self) -> Soundness
        ensures { result ≡ verdict_of self.now }
    {
        if self.faults > 0 {
            Soundness::Faulty
        } else if self.cut {
            Soundness::Unended
        } else {
            Soundness::Sound
        }
    }
}

impl<A: Allocator> Records<A> {
    /// Whether none is past the end of the bytes, all items were visited, and each can be read.
    pub fn is_clean(&self) -> bool
        ensures { result ≡ are_clean self.now }
    {
        self.past == 0 && self.in_bounds.is_clean()
    }

    // Returns the verdict on the records.
    fn verdict(&self) -> Soundness
        ensures { result ≡ verdict_of_records self.now }
    {
        if self.past > 0 {
            Soundness::Faulty
        } else {
            self.in_bounds.verdict()
        }
    }
}

impl<A: Allocator> SignatureReport<A> {
    // Returns the verdict on the signature: sound if there is none.
    fn verdict(&self) -> Soundness
        ensures { result ≡ verdict_of_signature self.now }
    {
        match self {
            SignatureReport::Unsigned => Soundness::Sound,
            SignatureReport::Unreadable(_) => Soundness::Faulty,
            SignatureReport::Signed(part) => {
                if part.faults > 0 {
                    Soundness::Faulty
                } else {
                    Soundness::Sound
                }
            }
        }
    }
}

impl<A: Allocator> Parts<A> {
    // Returns the verdict on all parts. If the relocations were not read, the sections decide.
    fn verdict(&self) -> Soundness
        ensures { result ≡ verdict_of_parts self.now }
    {
        let bound = self.fixups.verdict().and(self.bindings.verdict());
        let linked = self
            .exports
            .verdict()
            .and(self.imports.verdict().and(bound));
        let named = self.symbols.verdict().and(linked);
        let readable = self.read_verdict().and(named);
        let signed = self.signature.verdict();
        layout_verdict(self.layout.as_slice())
            .and(signed)
            .and(readable)
    }

    // Returns the verdict on the sections and the relocations.
    fn read_verdict(&self) -> Soundness
        ensures { result ≡ verdict_of_read self.now.sections self.now.relocations }
    {
        match &self.relocations {
            Some(part) => self.sections.verdict().and(part.verdict()),
            None => self.sections.verdict(),
        }
    }
}

impl<A: Allocator> ImageReport<A> {
    /// Returns the verdict on the image: faulty if it doesn't open strictly.
    pub fn verdict(&self) -> Soundness
        ensures { result ≡ verdict_of_image self.now }
    {
        match self {
            ImageReport::Opens(parts) => parts.verdict(),
            ImageReport::OpensLossily(_, _) | ImageReport::Refused(_) => Soundness::Faulty,
        }
    }
}

// Something of which there are several, each with a verdict of its own.
trait Judged {
    ghost use Rattle.std.specs.Prelude.{◌≡◌};
    ghost use Rattle.mach_audit.specs.declared.verdict.Soundness.{Soundness};

    ghost judgement: { Self → Soundness };

    // Returns the verdict on it.
    fn judge(&self) -> Soundness
        ensures { result ≡ judgement self.now };
}

impl<A: Allocator> Judged for MemberReport<'_, A> {
    ghost judgement = { verdict_of_member };

    fn judge(&self) -> Soundness {
        self.verdict()
    }
}

impl<A: Allocator> MemberReport<'_, A> {
    /// Returns the verdict on the member: faulty if it is an error.
    pub fn verdict(&self) -> Soundness
        ensures { result ≡ verdict_of_member self.now }
    {
        match self {
            MemberReport::Image(_, image) => image.verdict(),
            MemberReport::Refused(_) => Soundness::Faulty,
        }
    }
}

impl<A: Allocator> ArchiveReport<'_, A> {
    /// Returns the verdict on the archive: that on its members together.
    pub fn verdict(&self) -> Soundness
        ensures { result ≡ verdict_of_archive self.now }
    {
        cut_verdict(self.cut).and(all_verdict(self.members.as_slice()))
    }
}

impl<A: Allocator> Judged for EntryReport<'_, A> {
    ghost judgement = { verdict_of_entry };

    fn judge(&self) -> Soundness {
        self.verdict()
    }
}

impl<A: Allocator> EntryReport<'_, A> {
    /// Returns the verdict on the entry.
    pub fn verdict(&self) -> Soundness
        ensures { result ≡ verdict_of_entry self.now }
    {
        match self {
            EntryReport::Archive(archive) => archive.verdict(),
            EntryReport::Image(image) => image.verdict(),
        }
    }
}

impl<A: Allocator> FatReport<'_, A> {
    /// Returns the verdict on the fat file: that on its table and its entries together.
    pub fn verdict(&self) -> Soundness
        ensures { result ≡ verdict_of_fat self.now }
    {
        layout_verdict(self.container.as_slice()).and(self.table_verdict())
    }

    // Returns the verdict on the table and the entries: faulty if the table can't be read, or it has no entries.
    fn table_verdict(&self) -> Soundness
        ensures { result ≡ verdict_of_table self.now }
    {
        if self.table.is_some() || self.count == 0 {
            return Soundness::Faulty;
        }
        cut_verdict(self.cut).and(all_verdict(self.entries.as_slice()))
    }
}

// Returns the verdict on faults of layout.
fn layout_verdict(faults: &[LayoutFault]) -> Soundness
    ensures { result ≡ verdict_of_layout faults.now }
{
    match faults {
        [] => Soundness::Sound,
        [_, ..] => Soundness::Faulty,
    }
}

// Returns the verdict on whether there are more than were audited.
fn cut_verdict(cut: bool) -> Soundness
    ensures { result ≡ verdict_of_cut cut }
{
    if cut {
        Soundness::Unended
    } else {
        Soundness::Sound
    }
}

// Returns the verdict on all of some things.
fn all_verdict<T: Judged>(things: &[T]) -> Soundness
    ensures { result ≡ verdict_of_all T.judgement things.now }
{
    let mut verdict = Soundness::Sound;
    'things: for thing in things {
        verdict = verdict.and(thing.judge());
    }
    verdict
}

impl<A: Allocator> Report<'_, A> {
    /// Returns the verdict on the file.
    pub fn verdict(&self) -> Soundness
        ensures { result ≡ verdict_of_report self.now }
    {
        match self {
            Report::Image(image) => image.verdict(),
            Report::Fat(fat) => fat.verdict(),
        }
    }
}

impl<A: Allocator> InputReport<'_, A> {
    /// Returns the verdict on the file.
    pub fn verdict(&self) -> Soundness
        ensures { result ≡ verdict_of_input self.now }
    {
        match self {
            InputReport::Mach(report) => report.verdict(),
            InputReport::Fat64(fat) => fat.verdict(),
            InputReport::Archive(archive) => archive.verdict(),
        }
    }
}
