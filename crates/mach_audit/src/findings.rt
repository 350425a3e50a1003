//! A report as a list: what is found in a file, in the order of the report.

ghost use Rattle.std.specs.Prelude.{◌≡◌, ◌∷◌, [], List, map, length, IfOk, OnOk};
ghost use Rattle.mach_audit.specs.Findings.{AddsFindings, finding_view, findings_each, findings_of, found_view, found_there};
ghost use Rattle.mach_audit.specs.Findings.{item_unread, laid_wrongly, not_as_signed};
ghost use Rattle.mach_audit.specs.Findings.{cut_found, more_found, part_found, past_found, records_found, relocations_found};
ghost use Rattle.mach_audit.specs.Findings.{image_found, parts_found, signature_found, table_found, none_found, unread_found};
ghost use Rattle.mach_audit.specs.Findings.{archive_findings, entry_findings, fat_findings, in_entry, in_member, mach_findings, member_findings, whole_file};

use crate::report::{
    ArchiveReport, EntryReport, FatReport, ImageReport, InputReport, ItemFault, MemberReport,
    PartReport, Parts, Records, Report, SignatureReport,
};
use goblin_mach::Error;
use mach_layout::LayoutFault;
use mach_signature::SignatureFault;
use std::alloc::{AllocError, Allocator};

/// A part of a file whose items are counted.
#[derive(Clone, Copy, Debug, PartialEq)]
pub enum AuditedPart {
    /// The sections of an image.
    Sections,
    /// The relocations of all sections.
    Relocations,
    /// The symbols.
    Symbols,
    /// The exports.
    Exports,
    /// The imports.
    Imports,
    /// The fixups.
    Fixups,
    /// The bindings.
    Bindings,
    /// The signature.
    Signature,
    /// The members of an archive.
    Members,
    /// The entries of a fat file.
    Entries,
}

/// The part of a file in which something is found.
#[derive(Clone, Copy, Debug, PartialEq)]
pub struct FindingPlace {
    /// The number of the entry of a fat file; none for its table, and for a file of another kind.
    pub entry: Option<usize>,
    /// The number of the member of an archive; none for the archive itself, and for an image that is no member.
    pub member: Option<usize>,
}

/// What is found.
#[derive(Clone, Copy, Debug)]
pub enum FindingKind<'r> {
    /// An image opens in no mode, for this error.
    Refused(&'r Error),
    /// An image opens in lossy mode only, for this error.
    Lossy(&'r Error),
    /// The table of a fat file can't be read, for this error.
    Table(&'r Error),
    /// A fat file has no entries.
    NoEntries,
    /// The error at which the members of an archive end, or for which it doesn't open.
    Archive(&'r Error),
    /// An item that can't be read.
    Item(&'r ItemFault),
    /// How many more faults a part has, which were counted and not kept.
    More(AuditedPart, usize),
    /// How many records of a part are past the end of the bytes.
    Past(AuditedPart, usize),
    /// A part has more items than were visited.
    Cut(AuditedPart),
    /// The signature can't be read, for this error.
    Unreadable(&'r Error),
    /// Something differs from what was signed.
    Signature(&'r SignatureFault),
    /// A fault of the layout of an image, or of the table of a fat file.
    Layout(&'r LayoutFault),
}

/// Something that is found in a file.
#[derive(Clone, Copy, Debug)]
pub struct FileFinding<'r> {
    /// The part of the file.
    pub place: FindingPlace,
    /// What is found there.
    pub kind: FindingKind<'r>,
}

// The place of what is found in the file itself.
const WHOLE_FILE: FindingPlace = FindingPlace {
    entry: None,
    member: None,
};

// Adds one finding.
fn add<'r, A: Allocator>(
    place: FindingPlace,
    kind: FindingKind<'r>,
    out: &mut Vec<FileFinding<'r>, A>,
) -> Result<(), AllocError>
    ensures added { OnOk result (AddsFindings out.old.items out.new.items (found_there place (found_view kind.entry ∷ []))) }
{
    out.push(FileFinding { place, kind })?;
    Ok(())
}

// A fault that a report keeps.
trait Kept {
    ghost use Rattle.std.specs.Prelude.{◌≡◌};
    ghost use Rattle.mach_audit.specs.Findings.{FoundView, found_view};

    ghost found: { Self → FoundView };

    // Returns it as what is found.
    fn kind(&self) -> FindingKind<'_>
        ensures { found_view result ≡ found self.now };
}

impl Kept for ItemFault {
    ghost found = { item_unread };

    fn kind(&self) -> FindingKind<'_> {
        FindingKind::Item(self)
    }
}

impl Kept for SignatureFault {
    ghost found = { not_as_signed };

    fn kind(&self) -> FindingKind<'_> {
        FindingKind::Signature(self)
    }
}

impl Kept for LayoutFault {
    ghost found = { laid_wrongly };

    fn kind(&self) -> FindingKind<'_> {
        FindingKind::Layout(self)
    }
}

// Adds faults that are kept, in order.
fn add_kept<'r, T: Kept, A: Allocator>(
    place: FindingPlace,
    faults: &'r [T],
    out: &mut Vec<FileFinding<'r>, A>,
) -> Result<(), AllocError>
    ensures added { OnOk result (AddsFindings out.old.items out.new.items (found_there place (map T.found faults.now))) }
{
    'faults: for fault in faults {
        add(place, fault.kind(), out)?;
    }
    Ok(())
}

// Adds how many more faults were counted than are kept, if there are more.
fn add_more<A: Allocator>(
    place: FindingPlace,
    part: AuditedPart,
    faults: usize,
    kept: usize,
    out: &mut Vec<FileFinding<'_>, A>,
) -> Result<(), AllocError>
    ensures added { OnOk result (AddsFindings out.old.items out.new.items (found_there place (more_found part faults kept))) }
{
    if kept < faults {
        add(place, FindingKind::More(part, faults - kept), out)?;
    }
    Ok(())
}

// Adds that a part has more items than were visited, if it has.
fn add_cut<A: Allocator>(
    place: FindingPlace,
    part: AuditedPart,
    cut: bool,
    out: &mut Vec<FileFinding<'_>, A>,
) -> Result<(), AllocError>
    ensures added { OnOk result (AddsFindings out.old.items out.new.items (found_there place (cut_found part cut))) }
{
    if cut {
        add(place, FindingKind::Cut(part), out)?;
    }
    Ok(())
}

// Adds how many records are past the end of the bytes, if any is.
fn add_past<A: Allocator>(
    place: FindingPlace,
    part: AuditedPart,
    past: usize,
    out: &mut Vec<FileFinding<'_>, A>,
) -> Result<(), AllocError>
    ensures added { OnOk result (AddsFindings out.old.items out.new.items (found_there place (past_found part past))) }
{
    if past > 0 {
        add(place, FindingKind::Past(part, past), out)?;
    }
    Ok(())
}

// Adds what is found in a part.
fn add_part<'r, A: Allocator, B: Allocator>(
    place: FindingPlace,
    part: AuditedPart,
    report: &'r PartReport<A>,
    out: &mut Vec<FileFinding<'r>, B>,
) -> Result<(), AllocError>
    ensures added { OnOk result (AddsFindings out.old.items out.new.items (found_there place (part_found part report.now))) }
{
    let kept = report.reported.as_slice();
    add_kept(place, kept, out)?;
    add_more(place, part, report.faults, kept.len(), out)?;
    add_cut(place, part, report.cut, out)
}

// Adds what is found in records.
fn add_records<'r, A: Allocator, B: Allocator>(
    place: FindingPlace,
    part: AuditedPart,
    records: &'r Records<A>,
    out: &mut Vec<FileFinding<'r>, B>,
) -> Result<(), AllocError>
    ensures added { OnOk result (AddsFindings out.old.items out.new.items (found_there place (records_found part records.now))) }
{
    add_part(place, part, &records.in_bounds, out)?;
    add_past(place, part, records.past, out)
}

// Adds what is found in the relocations, if they were read.
fn add_relocations<'r, A: Allocator, B: Allocator>(
    place: FindingPlace,
    relocations: &'r Option<Records<A>>,
    out: &mut Vec<FileFinding<'r>, B>,
) -> Result<(), AllocError>
    ensures added { OnOk result (AddsFindings out.old.items out.new.items (found_there place (relocations_found relocations.now))) }
{
    match relocations {
        Some(records) => add_records(place, AuditedPart::Relocations, records, out),
        None => Ok(()),
    }
}

// Adds what is found in a signature.
fn add_signature<'r, A: Allocator, B: Allocator>(
    place: FindingPlace,
    signature: &'r SignatureReport<A>,
    out: &mut Vec<FileFinding<'r>, B>,
) -> Result<(), AllocError>
    ensures added { OnOk result (AddsFindings out.old.items out.new.items (found_there place (signature_found signature.now))) }
{
    match signature {
        SignatureReport::Unsigned => Ok(()),
        SignatureReport::Unreadable(error) => add(place, FindingKind::Unreadable(error), out),
        SignatureReport::Signed(part) => {
            let kept = part.reported.as_slice();
            add_kept(place, kept, out)?;
            add_more(place, AuditedPart::Signature, part.faults, kept.len(), out)
        }
    }
}

// Adds what is found in the parts of an image.
fn add_parts<'r, A: Allocator, B: Allocator>(
    place: FindingPlace,
    parts: &'r Parts<A>,
    out: &mut Vec<FileFinding<'r>, B>,
) -> Result<(), AllocError>
    ensures added { OnOk result (AddsFindings out.old.items out.new.items (found_there place (parts_found parts.now))) }
{
    add_records(place, AuditedPart::Sections, &parts.sections, out)?;
    add_relocations(place, &parts.relocations, out)?;
    add_records(place, AuditedPart::Symbols, &parts.symbols, out)?;
    add_part(place, AuditedPart::Exports, &parts.exports, out)?;
    add_part(place, AuditedPart::Imports, &parts.imports, out)?;
    add_part(place, AuditedPart::Fixups, &parts.fixups, out)?;
    add_part(place, AuditedPart::Bindings, &parts.bindings, out)?;
    add_signature(place, &parts.signature, out)?;
    add_kept(place, parts.layout.as_slice(), out)?;
    Ok(())
}

// Adds what is found in an image.
fn add_image<'r, A: Allocator, B: Allocator>(
    place: FindingPlace,
    image: &'r ImageReport<A>,
    out: &mut Vec<FileFinding<'r>, B>,
) -> Result<(), AllocError>
    ensures added { OnOk result (AddsFindings out.old.items out.new.items (found_there place (image_found image.now))) }
{
    match image {
        ImageReport::Opens(parts) => add_parts(place, parts, out),
        ImageReport::OpensLossily(error, parts) => {
            add(place, FindingKind::Lossy(error), out)?;
            add_parts(place, parts, out)
        }
        ImageReport::Refused(error) => add(place, FindingKind::Refused(error), out),
    }
}

// Adds what is found in an item of an archive, which has this number.
fn add_member<'r, A: Allocator, B: Allocator>(
    place: FindingPlace,
    number: usize,
    report: &'r MemberReport<'_, A>,
    out: &mut Vec<FileFinding<'r>, B>,
) -> Result<(), AllocError>
    ensures added { OnOk result (AddsFindings out.old.items out.new.items (member_findings place number report.now)) }
{
    match report {
        MemberReport::Image(_, image) => {
            let member = FindingPlace {
                entry: place.entry,
                member: Some(number),
            };
            add_image(member, image, out)
        }
        MemberReport::Refused(error) => add(place, FindingKind::Archive(error), out),
    }
}

// Adds what is found in each item of an archive.
fn add_members<'r, A: Allocator, B: Allocator>(
    place: FindingPlace,
    members: &'r [MemberReport<'_, A>],
    out: &mut Vec<FileFinding<'r>, B>,
) -> Result<(), AllocError>
    ensures added { OnOk result (AddsFindings out.old.items out.new.items (findings_each (member_findings place) 0 members.now)) }
{
    let mut number = 0usize;
    'members: for member in members {
        add_member(place, number, member, out)?;
        number = number.saturating_add(1);
    }
    Ok(())
}

// Adds what is found in an archive.
fn add_archive<'r, A: Allocator, B: Allocator>(
    place: FindingPlace,
    archive: &'r ArchiveReport<'_, A>,
    out: &mut Vec<FileFinding<'r>, B>,
) -> Result<(), AllocError>
    ensures added { OnOk result (AddsFindings out.old.items out.new.items (archive_findings place archive.now)) }
{
    add_members(place, archive.members.as_slice(), out)?;
    add_cut(place, AuditedPart::Members, archive.cut, out)
}

// Adds what is found in the entry of a fat file that has this number.
fn add_entry<'r, A: Allocator, B: Allocator>(
    number: usize,
    report: &'r EntryReport<'_, A>,
    out: &mut Vec<FileFinding<'r>, B>,
) -> Result<(), AllocError>
    ensures added { OnOk result (AddsFindings out.old.items out.new.items (entry_findings number report.now)) }
{
    let place = FindingPlace {
        entry: Some(number),
        member: None,
    };
    match report {
        EntryReport::Archive(archive) => add_archive(place, archive, out),
        EntryReport::Image(image) => add_image(place, image, out),
    }
}

// Adds what is found in each entry of a fat file.
fn add_entries<'r, A: Allocator, B: Allocator>(
    entries: &'r [EntryReport<'_, A>],
    out: &mut Vec<FileFinding<'r>, B>,
) -> Result<(), AllocError>
    ensures added { OnOk result (AddsFindings out.old.items out.new.items (findings_each entry_findings 0 entries.now)) }
{
    let mut number = 0usize;
    'entries: for entry in entries {
        add_entry(number, entry, out)?;
        number = number.saturating_add(1);
    }
    Ok(())
}

// Adds why the table of a fat file can't be read, if it can't.
fn add_unread<'r, A: Allocator>(
    table: &'r Option<Error>,
    out: &mut Vec<FileFinding<'r>, A>,
) -> Result<(), AllocError>
    ensures added { OnOk result (AddsFindings out.old.items out.new.items (found_there whole_file (unread_found table.now))) }
{
    match table {
        Some(error) => add(WHOLE_FILE, FindingKind::Table(error), out),
        None => Ok(()),
    }
}

// Adds that a fat file has no entries, if it has none.
fn add_none<A: Allocator>(count: usize, out: &mut Vec<FileFinding<'_>, A>) -> Result<(), AllocError>
    ensures added { OnOk result (AddsFindings out.old.items out.new.items (found_there whole_file (none_found count))) }
{
    if count == 0 {
        add(WHOLE_FILE, FindingKind::NoEntries, out)?;
    }
    Ok(())
}

// Adds what is found in the table of a fat file.
fn add_table<'r, A: Allocator, B: Allocator>(
    fat: &'r FatReport<'_, A>,
    out: &mut Vec<FileFinding<'r>, B>,
) -> Result<(), AllocError>
    ensures added { OnOk result (AddsFindings out.old.items out.new.items (found_there whole_file (table_found fat.now))) }
{
    add_unread(&fat.table, out)?;
    add_kept(WHOLE_FILE, fat.container.as_slice(), out)?;
    add_none(fat.count, out)
}

// Adds what is found in a fat file.
fn add_fat<'r, A: Allocator, B: Allocator>(
    fat: &'r FatReport<'_, A>,
    out: &mut Vec<FileFinding<'r>, B>,
) -> Result<(), AllocError>
    ensures added { OnOk result (AddsFindings out.old.items out.new.items (fat_findings fat.now)) }
{
    add_table(fat, out)?;
    add_entries(fat.entries.as_slice(), out)?;
    add_cut(WHOLE_FILE, AuditedPart::Entries, fat.cut, out)?;
    Ok(())
}

// Adds what is found in an image, or in a fat file of 32 bits.
fn add_mach<'r, A: Allocator, B: Allocator>(
    report: &'r Report<'_, A>,
    out: &mut Vec<FileFinding<'r>, B>,
) -> Result<(), AllocError>
    ensures added { OnOk result (AddsFindings out.old.items out.new.items (mach_findings report.now)) }
{
    match report {
        Report::Image(image) => add_image(WHOLE_FILE, image, out),
        Report::Fat(fat) => add_fat(fat, out),
    }
}

impl<A: Allocator> InputReport<'_, A> {
    /// Returns what is found in the file, in the order of the report.
    pub fn findings<'r, B: Allocator>(
        &'r self,
        alloc: B,
    ) -> Result<Vec<FileFinding<'r>, B>, AllocError>
        ensures found { IfOk result (λ v. map finding_view v.items ≡ findings_of self.now) }
    {
        let mut out: Vec<FileFinding<'r>, B> = Vec::new(alloc);
        match self {
            InputReport::Mach(report) => add_mach(report, &mut out)?,
            InputReport::Fat64(fat) => add_fat(fat, &mut out)?,
            InputReport::Archive(archive) => add_archive(WHOLE_FILE, archive, &mut out)?,
        }
        Ok(out)
    }
}
