//! The audit of a file: what is found in it, and whether it is sound.

ghost use Rattle.std.specs.Prelude.{◌≡◌, ◌≢◌, map, IfOk, OnErr};
ghost use Rattle.mach_base.specs.Fault.{fault_of};
ghost use Rattle.mach_base.specs.Words.{words_of};
ghost use Rattle.mach_audit.specs.Findings.{FindingView, finding_view, item_unread};
ghost use Rattle.goblin_mach_c.specs.AuditRows as rows;
ghost use Rattle.goblin_mach_c.specs.AuditRows.{IsFindingRow, finding_rows_left, SaysSoundness, WritesAudit, WritesFindings};
ghost use Rattle.goblin_mach_c.specs.Codes.{code_of_fault, HasErrorWords};

use crate::errors::{GM_OK, gm_error, refuse};
use crate::items::{ItemRows, fill_items};
use crate::layout::{self, gm_layout_fault};
use crate::signature::{fault_row, gm_signature_fault, row_of_fault};
use mach_audit::{
    AuditedPart, FileFinding, FindingKind, FindingPlace, ItemFault, ItemList, Soundness, audit,
};
use mach_base::Error;
use std::alloc::{AllocError, Global};

/// Something that an audit found in a file. A field that its kind doesn't have is 0.
#[derive(Clone, Copy)]
#[repr(C)]
pub struct gm_finding {
    /// The number of the entry of a fat file, and of the member of its archive; the greatest number if there is none.
    pub entry: usize,
    pub member: usize,
    /// The numbers of the segment and the section of an item, and its own in its list.
    pub segment: usize,
    pub section: usize,
    pub index: usize,
    /// How many more faults there are, or how many records are past the end of the bytes.
    pub count: usize,
    pub kind: u32,
    pub list: u32,
    /// The fault of the layout, or of the signature.
    pub layout: gm_layout_fault,
    pub signature: gm_signature_fault,
    /// Why something can't be read.
    pub error: gm_error,
}

// Returns the number of a verdict.
fn soundness_number(verdict: Soundness) -> u32
    ensures { result ≡ rows.soundness_number verdict }
{
    match verdict {
        Soundness::Sound => 0,
        Soundness::Unended => 1,
        Soundness::Faulty => 2,
    }
}

// Returns the number of a part.
fn part_number(part: AuditedPart) -> u32
    ensures { result ≡ rows.audited_number part }
{
    match part {
        AuditedPart::Sections => 1,
        AuditedPart::Relocations => 2,
        AuditedPart::Symbols => 3,
        AuditedPart::Exports => 4,
        AuditedPart::Imports => 5,
        AuditedPart::Fixups => 6,
        AuditedPart::Bindings => 7,
        AuditedPart::Signature => 8,
        AuditedPart::Members => 9,
        AuditedPart::Entries => 10,
    }
}

// Returns the number of a list, and those of its segment and its section, if it has them.
fn list_numbers(list: ItemList) -> (u32, usize, usize)
    ensures { result ≡ rows.item_list_numbers list }
{
    match list {
        ItemList::Sections(segment) => (1, segment, 0),
        ItemList::Relocations(segment, section) => (2, segment, section),
        ItemList::Symbols => (3, 0, 0),
        ItemList::Exports => (4, 0, 0),
        ItemList::Imports => (5, 0, 0),
        ItemList::Fixups => (6, 0, 0),
        ItemList::Bindings => (7, 0, 0),
    }
}

// Returns that nothing is refused.
fn no_error() -> gm_error
    ensures { result ≡ rows.no_error }
{
    gm_error {
        code: GM_OK,
        text: [0; 124],
    }
}

// Returns an error as C sees it.
fn error_of(error: &Error) -> gm_error
    ensures code { result.code ≡ code_of_fault (fault_of error.now) }
    ensures words { HasErrorWords (words_of error.now) result.text }
{
    let mut out = no_error();
    refuse(error, &mut out);
    out
}

// Returns a fault of the layout that is none.
fn no_layout_fault() -> gm_layout_fault
    ensures { result ≡ rows.no_layout_fault }
{
    gm_layout_fault {
        found: 0,
        limit: 0,
        command: 0,
        index: 0,
        other_command: 0,
        other_index: 0,
        rule: 0,
        part: 0,
        other_part: 0,
        reserved: 0,
    }
}

// Returns the row of a kind, with its place and its error alone.
fn row_with(place: FindingPlace, kind: u32, error: gm_error) -> gm_finding
    ensures { result ≡ rows.row_with place kind error }
{
    gm_finding {
        entry: place.entry.unwrap_or(usize::MAX),
        member: place.member.unwrap_or(usize::MAX),
        segment: 0,
        section: 0,
        index: 0,
        count: 0,
        kind,
        list: 0,
        layout: no_layout_fault(),
        signature: fault_row(0, 0),
        error,
    }
}

// Returns the row of a kind for a part of the file, with a count.
fn part_row(place: FindingPlace, kind: u32, part: AuditedPart, count: usize) -> gm_finding
    ensures { result ≡ rows.part_row place kind part count }
{
    gm_finding {
        count,
        list: part_number(part),
        ..row_with(place, kind, no_error())
    }
}

// Returns an item that can't be read as C sees it.
fn item_row(place: FindingPlace, fault: &ItemFault) -> gm_finding
    ensures { IsFindingRow (place, item_unread fault.now) result }
{
    let (list, segment, section) = list_numbers(fault.place.list);
    gm_finding {
        segment,
        section,
        index: fault.place.index,
        list,
        ..row_with(place, 6, error_of(&fault.error))
    }
}

// Returns a finding as C sees it.
fn row_of(finding: &FileFinding<'_>) -> gm_finding
    ensures { IsFindingRow (finding_view finding.now) result }
{
    let place = finding.place;
    match finding.kind {
        FindingKind::Refused(error) => row_with(place, 1, error_of(error)),
        FindingKind::Lossy(error) => row_with(place, 2, error_of(error)),
        FindingKind::Table(error) => row_with(place, 3, error_of(error)),
        FindingKind::NoEntries => row_with(place, 4, no_error()),
        FindingKind::Archive(error) => row_with(place, 5, error_of(error)),
        FindingKind::Item(fault) => item_row(place, fault),
        FindingKind::More(part, count) => part_row(place, 7, part, count),
        FindingKind::Past(part, count) => part_row(place, 8, part, count),
        FindingKind::Cut(part) => part_row(place, 9, part, 0),
        FindingKind::Unreadable(error) => row_with(place, 10, error_of(error)),
        FindingKind::Signature(fault) => gm_finding {
            signature: row_of_fault(fault),
            ..row_with(place, 11, no_error())
        },
        FindingKind::Layout(fault) => gm_finding {
            layout: layout::row_of(fault),
            ..row_with(place, 12, no_error())
        },
    }
}

// The findings from an index on.
#[derive(Clone, Copy)]
struct FindingRows<'a, 'r> {
    findings: &'a [FileFinding<'r>],
    next: usize,
}

impl ItemRows for FindingRows<'_, '_> {
    type Row = gm_finding;

    ghost Source = { Unit {0} };

    ghost Item = { FindingView };

    ghost left = { finding_rows_left };

    ghost IsOver = { λ _ _. Unit {0} };

    ghost Says = { λ _. IsFindingRow };

    fn next(&mut self) -> Option<gm_finding> {
        if self.next >= self.findings.len() {
            return None;
        }
        let row = row_of(&self.findings[self.next]);
        self.next += 1;
        Some(row)
    }
}

// Writes findings to the start of an array, as many as there are and fit.
fn write(findings: &[FileFinding<'_>], out: &mut [gm_finding])
    ensures { WritesFindings (map finding_view findings.now) out.old out.new }
{
    let mut rows = FindingRows { findings, next: 0 };
    fill_items(&mut rows, out);
}

// Audits a file and writes what is found. Returns how much that is, and the number of the verdict.
fn write_audit(
    alloc: Global,
    bytes: &[u8],
    limit: usize,
    out: &mut [gm_finding],
) -> Result<(usize, u32), AllocError>
    ensures written { IfOk result (λ r. WritesAudit limit bytes.now out.old out.new r.0 r.1) }
    ensures judged { IfOk result (λ r. SaysSoundness limit bytes.now r.1) }
    ensures kept { OnErr result (out.new ≡ out.old) }
{
    let report = audit(&alloc, bytes, limit)?;
    let findings = report.findings(&alloc)?;
    write(findings.as_slice(), out);
    Ok((findings.len(), soundness_number(report.verdict())))
}

/// Audits a file as `machaudit` does. Writes what is found to the start of the array, as much as there is and fits, how much there
/// is to `count`, and whether the file is sound to `verdict`. Of each list it visits at most `limit` items, and of a list of an
/// image no more than the image has bytes. It allocates memory while it runs, and is refused only if memory runs out. A refused
/// call leaves the array, the count and the verdict unchanged.
#[unsafe(no_mangle)]
pub extern "C" fn gmr_audit(
    alloc: Global,
    bytes: &[u8],
    limit: usize,
    out: &mut [gm_finding],
    count: &mut usize,
    verdict: &mut u32,
    error: &mut gm_error,
) -> u32
    ensures written { result ≡ 0 → WritesAudit limit bytes.now out.old out.new count.new verdict.new }
    ensures judged { result ≡ 0 → SaysSoundness limit bytes.now verdict.new }
    ensures refused { result ≢ 0 → result ≡ 5 }
    ensures array { result ≢ 0 → out.new ≡ out.old }
    ensures count { result ≢ 0 → count.new ≡ count.old }
    ensures verdict { result ≢ 0 → verdict.new ≡ verdict.old }
    ensures reported { result ≢ 0 → error.new.code ≡ result }
    ensures quiet { result ≡ 0 → error.new ≡ error.old }
{
    match write_audit(alloc, bytes, limit, out) {
        Ok((found, judged)) => {
            *count = found;
            *verdict = judged;
            GM_OK
        }
        Err(refused) => refuse(&Error::Memory(refused), error),
    }
}
