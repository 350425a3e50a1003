//! Finds what is wrong with a file, image by image and part by part.

ghost use Rattle.std.specs.Prelude.{◌≡◌, ◌<◌, ℕ, List, [], length, map, min, Result, Option, Some, IfOk, slice_get};
ghost use Rattle.mach_base.specs.Answer.{ErrorMeets};
ghost use Rattle.mach_base.specs.Fault.{Fault};
ghost use Rattle.mach_parts.specs.Segment.{segment_view};
ghost use Rattle.goblin_mach.specs.FatEntry.{arch_entry_in, fat_entry_of};
ghost use Rattle.goblin_mach.specs.FatFile.{file_view};
ghost use Rattle.goblin_mach.specs.OpenImage.{IsImage, IsLossyImage};
ghost use Rattle.goblin_mach.specs.View.{IsReported};
ghost use Rattle.goblin_mach.specs.ImageFacts.{facts_view};
ghost use Rattle.mach_layout.specs.Containers.{AreContainerFaults};
ghost use Rattle.mach_layout.specs.Faults.{AreLayoutFaults};
ghost use Rattle.goblin_mach.specs.Held.{laid_view};
ghost use Rattle.goblin_mach.specs.ListFaults.{AreListFaults};
ghost use Rattle.mach_audit.specs.Report.{IsArchiveReport, IsEntryReport, IsFatReport, IsFileReport, IsImageReport, IsMemberReport};
ghost use Rattle.mach_audit.specs.Report.{ReportsImage, ReportsLossily, ReportsMembers, named_bytes, reason_of};
ghost use Rattle.mach_audit.specs.Sound.{AreLongMembers, HasLongList, IsLong, IsLongArchive, IsLongEntry, IsLongFat, IsLongMember};
ghost use Rattle.mach_audit.specs.Sound.{IsSound, IsSoundArchive, IsSoundEntry, IsSoundFat, IsSoundImage, IsSoundMember};
ghost use Rattle.mach_audit.specs.Reported.{ReportsRelocations, relocation_faults, relocations_past};
ghost use Rattle.mach_audit.specs.Verdicts.{Judges, are_clean, verdict_of_parts, verdict_of_image, verdict_of_entry, verdict_of_fat, verdict_of_report};
ghost use Rattle.mach_audit.specs.Verdicts.{verdict_of_archive, verdict_of_member};
ghost use Rattle.goblin_mach.specs.Image.{ImageFault};
ghost use Rattle.mach_archive.specs.Archives.{archive_in};
ghost use Rattle.mach_archive.specs.ArchiveViews.{member_read, members_left};
ghost use Rattle.std.specs.List.{AllByRecursion};

use crate::items::Items;
use crate::lists::{audit_exports, audit_list, audit_relocations, audit_sections, audit_symbols};
use crate::overlaid::{Every, entries_within};
use crate::report::{
    ArchiveReport, EntryReport, FatReport, ImageReport, ItemList, MemberReport, Parts, Records,
    Report, no_memory,
};
use crate::signed::audit_signature;
use goblin_mach::layout::layout_faults;
use goblin_mach::segment::Segment;
use goblin_mach::{
    ArchRecord, Ctx, Error, FatTable, Mach, MachO, SingleArch, laws, laws as layout_laws,
};
use mach_archive::{Archive, Member, Members};
use mach_layout::{LayoutFault, container_faults};
use std::alloc::{AllocError, Allocator};

// Audits the relocations of all sections, if these were visited to their end and each can be read.
fn audit_relocated<A: Allocator + Clone>(
    alloc: A,
    bytes: &[u8],
    ctx: Ctx,
    segments: &[Segment<'_>],
    sections: &Records<A>,
    limit: usize,
) -> Result<Option<Records<A>>, AllocError>
    ensures reported { let views = map segment_view segments.now in
        IfOk result (ReportsRelocations limit (relocation_faults ctx bytes.now views) (relocations_past ctx bytes.now views) (are_clean sections.now)) }
{
    if !sections.is_clean() {
        return Ok(None);
    }
    let part = audit_relocations(alloc, bytes, ctx, segments, limit)?;
    Ok(Some(part))
}

// Returns the faults of an image's layout.
fn audit_layout<A: Allocator, B: Allocator + Clone>(
    alloc: B,
    image: &MachO<'_, A>,
) -> Result<Vec<LayoutFault, B>, AllocError>
    ensures reported { IfOk result (λ v. AreLayoutFaults (laid_view image.now) (AreListFaults (facts_view image.now)) v.items) }
{
    match layout_faults(alloc, image) {
        Ok(faults) => Ok(faults),
        Err(_) => Err(AllocError),
    }
}

// Returns the faults of a fat file's table.
fn audit_container<R: ArchRecord, A: Allocator + Clone>(
    alloc: A,
    bytes: &[u8],
) -> Result<Vec<LayoutFault, A>, AllocError>
    ensures reported { IfOk result (λ v. AreContainerFaults R.arch_form bytes.now v.items) }
{
    match container_faults::<R, A>(alloc, bytes) {
        Ok(faults) => Ok(faults),
        Err(_) => Err(AllocError),
    }
}

// Returns how many items of a list of an image are visited at most: no more than the limit, and no more than the image has bytes.
fn image_limit(limit: usize, bytes: &[u8]) -> usize
    ensures { result ≡ min limit (length bytes.now) }
{
    limit.min(bytes.len())
}

// Audits all parts of an image that opened. Of each list it visits no more items than the image has bytes.
fn audit_parts<A: Allocator, B: Allocator + Clone>(
    alloc: &B,
    image: &MachO<'_, A>,
    limit: usize,
) -> Result<Parts<B>, AllocError>
    ensures reported { (bytes : List ℕ) → IsLossyImage bytes 0 image.now → IfOk result (ReportsImage (min limit (length bytes)) bytes) }
    ensures judged { (bytes : List ℕ) → IsImage bytes 0 image.now
        → IfOk result (λ p. Judges (IsSoundImage bytes) (HasLongList (min limit (length bytes)) bytes) (verdict_of_parts p)) }
{
    let segments = image.segments.as_slice();
    let (bytes, ctx) = (image.bytes(), image.ctx());
    let limit = image_limit(limit, bytes);
    let sections = audit_sections(alloc.clone()?, segments, limit)?;
    let relocations = audit_relocated(alloc.clone()?, bytes, ctx, segments, &sections, limit)?;
    let symbols = audit_symbols(alloc.clone()?, image, limit)?;
    let exports = audit_exports(alloc.clone()?, image, limit)?;
    let imports = Items::Imports(image.iter_imports());
    let imports = audit_list(alloc.clone()?, ItemList::Imports, imports, limit)?;
    let fixups = Items::Fixups(image.fixups());
    let fixups = audit_list(alloc.clone()?, ItemList::Fixups, fixups, limit)?;
    let bindings = Items::Bindings(image.bindings());
    let bindings = audit_list(alloc.clone()?, ItemList::Bindings, bindings, limit)?;
    let signature = audit_signature(alloc.clone()?, image)?;
    let layout = audit_layout(alloc.clone()?, image)?;
    layout_laws::layout_faults_of_image(image);
    layout_laws::one_list_of_layout_faults();
    laws::faulty_tries_have_no_list();
    laws::import_items_of_image(image);
    laws::fixups_of_image(image);
    laws::one_list_of_image_fixups();
    laws::bindings_of_image(image);
    laws::one_list_of_image_bindings();
    Ok(Parts {
        sections,
        relocations,
        symbols,
        exports,
        imports,
        fixups,
        bindings,
        signature,
        layout,
    })
}

// Audits what lossy mode can read of bytes that were refused for an error. If lossy mode refuses them too, only the error is
// reported.
fn audit_refused<A: Allocator + Clone>(
    alloc: &A,
    bytes: &[u8],
    error: Error,
    limit: usize,
) -> Result<ImageReport<A>, AllocError>
    ensures reason { IfOk result (λ r. (reason_of r ≡ Some error) × IsReported error) }
    ensures reported { IfOk result (ReportsLossily limit bytes.now) }
{
    let error = no_memory(error)?;
    match Mach::parse_lossy(alloc.clone()?, bytes) {
        Ok(Mach::Binary(image)) => {
            let parts = audit_parts(alloc, &image, limit)?;
            Ok(ImageReport::OpensLossily(error, parts))
        }
        Err(Error::Memory(refused)) => Err(refused),
        Ok(Mach::Fat(_)) | Err(_) => Ok(ImageReport::Refused(error)),
    }
}

// Audits some bytes as an image.
fn audit_image<A: Allocator + Clone>(
    alloc: &A,
    bytes: &[u8],
    limit: usize,
) -> Result<ImageReport<A>, AllocError>
    ensures reported { IfOk result (IsImageReport (ImageFault bytes.now 0) limit bytes.now) }
    ensures judged { IfOk result (λ r. Judges (IsSoundImage bytes.now) (HasLongList (min limit (length bytes.now)) bytes.now) (verdict_of_image r)) }
{
    match MachO::parse(alloc.clone()?, bytes, 0) {
        Ok(image) => {
            let parts = audit_parts(alloc, &image, limit)?;
            Ok(ImageReport::Opens(parts))
        }
        Err(error) => {
            let image = audit_refused(alloc, bytes, error, limit)?;
            Ok(image)
        }
    }
}

// Audits an item of an archive: a member, or the error at which the members end.
fn audit_member<'a, A: Allocator + Clone>(
    alloc: &A,
    member: goblin_mach::Result<Member<'a>>,
    limit: usize,
) -> Result<MemberReport<'a, A>, AllocError>
    ensures reported { IfOk result (IsMemberReport limit (member_read member.entry)) }
    ensures judged { let m = member_read member.entry in IfOk result (λ r. Judges (IsSoundMember m) (IsLongMember limit m) (verdict_of_member r)) }
{
    match member {
        Ok(member) => {
            let image = audit_image(alloc, member.bytes, limit)?;
            Ok(MemberReport::Image(member, image))
        }
        Err(error) => {
            let error = no_memory(error)?;
            Ok(MemberReport::Refused(error))
        }
    }
}

// Audits members of an archive in order, at most `limit`.
fn audit_members<'a, A: Allocator + Clone>(
    alloc: &A,
    members: Members<'a>,
    limit: usize,
) -> Result<ArchiveReport<'a, A>, AllocError>
    ensures reported { IfOk result (ReportsMembers limit (members_left members.entry)) }
    ensures judged { let ms = members_left members.entry in
        IfOk result (λ r. Judges (AllByRecursion IsSoundMember ms) (AreLongMembers limit ms) (verdict_of_archive r)) }
{
    let mut reports = Vec::new(alloc.clone()?);
    'members: for member in members {
        if reports.len() >= limit {
            return Ok(ArchiveReport {
                members: reports,
                cut: true,
            });
        }
        reports.push(audit_member(alloc, member, limit)?)?;
    }
    Ok(ArchiveReport {
        members: reports,
        cut: false,
    })
}

/// Audits an archive: its members, or the error for which it doesn't open.
pub fn audit_archive<'a, A: Allocator + Clone>(
    alloc: &A,
    bytes: &'a [u8],
    limit: usize,
) -> Result<ArchiveReport<'a, A>, AllocError>
    ensures reported { IfOk result (IsArchiveReport limit (archive_in bytes.now)) }
    ensures judged { let a = archive_in bytes.now in IfOk result (λ r. Judges (IsSoundArchive a) (IsLongArchive limit a) (verdict_of_archive r)) }
{
    match Archive::parse(bytes) {
        Ok(archive) => audit_members(alloc, archive.members(), limit),
        Err(error) => {
            let mut members: Vec<MemberReport<'a, A>, A> = Vec::new(alloc.clone()?);
            members.push(audit_member(alloc, Err(error), limit)?)?;
            let cut = false;
            Ok(ArchiveReport { members, cut })
        }
    }
}

// Audits an entry of a fat file, which lies in these bytes.
fn audit_entry<'a, R: ArchRecord, A: Allocator + Clone>(
    alloc: &A,
    container: &FatTable<'a, R, A>,
    index: usize,
    bytes: &[u8],
    limit: usize,
) -> Result<EntryReport<'a, A>, AllocError>
    ensures reported { fat_entry_of bytes.now ≡ arch_entry_in R.arch_form (file_view container.now) index
        → IfOk result (IsEntryReport limit (arch_entry_in R.arch_form (file_view container.now) index)) }
    ensures judged { IfOk result (λ r. Judges (IsSoundEntry (arch_entry_in R.arch_form (file_view container.now) index))
        (IsLongEntry limit (arch_entry_in R.arch_form (file_view container.now) index))
        (verdict_of_entry r)) }
{
    match container.get(index) {
        Ok(SingleArch::Archive(bytes)) => {
            let archive = audit_archive(alloc, bytes, limit)?;
            Ok(EntryReport::Archive(archive))
        }
        Ok(SingleArch::MachO(image)) => {
            let parts = audit_parts(alloc, &image, limit)?;
            Ok(EntryReport::Image(ImageReport::Opens(parts)))
        }
        Err(error) => {
            let image = audit_refused(alloc, bytes, error, limit)?;
            Ok(EntryReport::Image(image))
        }
    }
}

// Returns the bytes that the record of an entry names; none without a record.
fn named_bytes<'a, R: ArchRecord>(bytes: &'a [u8], arches: &[R], index: usize) -> &'a [u8]
    ensures { result.now ≡ named_bytes R.arch_form bytes.now (slice_get arches.now index) }
{
    match arches.get(index) {
        Some(arch) => arch.entry_slice(bytes),
        None => &[],
    }
}

/// Audits a fat file: its table, and then its entries, as long as they have no more bytes together than the file. If the table
/// can't be read, no entry is audited.
pub fn audit_fat<'a, R: ArchRecord, A: Allocator + Clone>(
    alloc: &A,
    container: &FatTable<'a, R, A>,
    bytes: &[u8],
    limit: usize,
) -> Result<FatReport<'a, A>, AllocError>
    ensures reported { (file_view container.now).bytes ≡ bytes.now → IfOk result (IsFatReport R.arch_form limit bytes.now (file_view container.now)) }
    ensures judged { IfOk result (λ r. Judges (AreContainerFaults R.arch_form bytes.now [] × IsSoundFat R.arch_form (file_view container.now))
        (IsLongFat R.arch_form limit (file_view container.now)) (verdict_of_fat r)) }
{
    let count = container.narches;
    let mut entries = Vec::new(alloc.clone()?);
    let arches = match container.arches() {
        Ok(arches) => arches,
        Err(error) => {
            return Ok(FatReport {
                count,
                table: Some(no_memory(error)?),
                container: Vec::new(alloc.clone()?),
                entries,
                cut: false,
            });
        }
    };
    let container_faults = audit_container::<R, A>(alloc.clone()?, bytes)?;
    let most = entries_within(&Every, limit, container.bytes(), arches.as_slice());
    for index in 0..most {
        let entry = named_bytes(bytes, arches.as_slice(), index);
        entries.push(audit_entry(alloc, container, index, entry, limit)?)?;
    }
    Ok(FatReport {
        count,
        table: None,
        container: container_faults,
        entries,
        cut: most < count,
    })
}

/// Audits an image or a fat file of 32 bits and returns its report. Of each list it visits at most `limit` items, and of a list of an image no more than the
/// image has bytes. Of the faults of a part it keeps the first ten.
pub fn audit_mach<'a, A: Allocator + Clone>(
    alloc: &A,
    bytes: &'a [u8],
    limit: usize,
) -> Result<Report<'a, A>, AllocError>
    ensures reported { IfOk result (IsFileReport limit bytes.now) }
    ensures judged { IfOk result (λ r. Judges (IsSound bytes.now) (IsLong limit bytes.now) (verdict_of_report r)) }
{
    match Mach::parse(alloc.clone()?, bytes) {
        Ok(Mach::Binary(image)) => {
            let parts = audit_parts(alloc, &image, limit)?;
            Ok(Report::Image(ImageReport::Opens(parts)))
        }
        Ok(Mach::Fat(container)) => {
            let fat = audit_fat(alloc, &container, bytes, limit)?;
            Ok(Report::Fat(fat))
        }
        Err(error) => {
            let image = audit_refused(alloc, bytes, error, limit)?;
            Ok(Report::Image(image))
        }
    }
}
