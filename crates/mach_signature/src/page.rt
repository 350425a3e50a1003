//! The pages that faults are about: which of them are shown, and the segment and the section that each is in.

ghost use Rattle.std.specs.Prelude.{◌≡◌, map, slice_get, Option};
ghost use Rattle.std.specs.Option.{option_map};
ghost use Rattle.mach_parts.specs.SectionRecord.{numbered_section};
ghost use Rattle.mach_parts.specs.Segment.{segment_view};
ghost use Rattle.mach_signature.specs.DirectoryViews.{directory_view};
ghost use Rattle.mach_signature.specs.FaultViews.{directory_fault_view, signature_fault_view};
ghost use Rattle.mach_signature.specs.SignViews.{signature_view};
ghost use Rattle.mach_signature.specs.Pages as defined;

use crate::directory::CodeDirectory;
use crate::fault::{CodeFault, DirectoryFault, SignatureFault};
use crate::signature::CodeSignature;
use goblin_mach::segment::{Segment, is_of_zeros};
use mach_base::bytes_at;

/// A page that isn't what was signed.
#[derive(Clone, Copy)]
pub struct ChangedPage {
    /// The slot of the directory that reports it.
    pub slot: u32,
    /// The number of the page.
    pub index: u32,
    /// The offset of its first byte in the image.
    pub start: u64,
    /// The offset after its last byte.
    pub end: u64,
}

/// The names of the segment and of the section that a page is in, with zeros after them.
#[derive(Clone, Copy)]
pub struct Place {
    /// The name of the segment, if there is one.
    pub segment: Option<[u8; 16]>,
    /// The name of the section, if there is one.
    pub section: Option<[u8; 16]>,
}

// The place of what is in no segment.
const NO_PLACE: Place = Place {
    segment: None,
    section: None,
};

// Returns the page that a fault of the code is about, if it is about one.
fn page_of_code(slot: u32, fault: &CodeFault) -> Option<ChangedPage>
    ensures { result ≡ defined.page_of_code slot fault.now }
{
    match *fault {
        CodeFault::Page { index, start, end } => Some(ChangedPage {
            slot,
            index,
            start,
            end,
        }),
        CodeFault::Scattered { .. } | CodeFault::Limit { .. } | CodeFault::Slots { .. } => None,
    }
}

// Returns the page that a fault of a directory is about, if it is about one.
fn page_of_directory(slot: u32, fault: &DirectoryFault) -> Option<ChangedPage>
    ensures { result ≡ defined.page_of_directory slot (directory_fault_view fault.now) }
{
    match fault {
        DirectoryFault::Code(fault) => page_of_code(slot, fault),
        DirectoryFault::Identifier(_)
        | DirectoryFault::Team(_)
        | DirectoryFault::Short { .. }
        | DirectoryFault::Special(_) => None,
    }
}

/// Returns the page that a fault is about, if it is about one.
pub fn page_of(fault: &SignatureFault) -> Option<ChangedPage>
    ensures { result ≡ defined.page_in_fault (signature_fault_view fault.now) }
{
    match fault {
        SignatureFault::First(fault) => page_of_directory(0, fault),
        SignatureFault::Alternate { slot, fault } => page_of_directory(*slot, fault),
        SignatureFault::Blob { .. } | SignatureFault::Magic { .. } | SignatureFault::Refused(_) => {
            None
        }
    }
}

/// Returns the code directory of slot 0, if it can be read.
pub fn first_directory<'a>(signature: &CodeSignature<'a>) -> Option<CodeDirectory<'a>>
    ensures { option_map directory_view result ≡ defined.first_directory (signature_view signature.now) }
{
    match signature.blob(0) {
        Ok(Some(blob)) => CodeDirectory::parse(blob.bytes).ok(),
        Ok(None) => None,
        Err(_) => None,
    }
}

// Whether the pages of a directory can be judged.
fn are_judged(directory: &CodeDirectory<'_>, image: &[u8]) -> bool
    ensures { result ≡ defined.are_judged (directory_view directory.now) image.now }
{
    directory.scatter_offset.unwrap_or(0) == 0
        && directory.code_limit() <= image.len() as u64
        && u64::from(directory.head.n_code_slots) == directory.page_count()
}

// Whether the page of this number is at the place of `page`.
fn is_at(directory: &CodeDirectory<'_>, page: ChangedPage) -> bool
    ensures { result ≡ defined.is_at (directory_view directory.now) page }
{
    let range = directory.page(page.index);
    range.start == page.start && range.end == page.end
}

// Whether the bytes of a page are there, and their hash isn't the one in its slot.
fn is_unlike(directory: &CodeDirectory<'_>, image: &[u8], page: ChangedPage) -> bool
    ensures { result ≡ defined.is_unlike (directory_view directory.now) image.now page }
{
    let Some(slot) = directory.code_slot(page.index) else {
        return false;
    };
    let len = page.end.saturating_sub(page.start);
    match bytes_at(image, page.start as usize, len as usize) {
        Ok(bytes) => !directory.hash.seals(bytes, slot),
        Err(_) => false,
    }
}

/// Whether a fault is an alternate directory's of a page that the first directory reports, too.
pub fn is_repeated(image: &[u8], first: &Option<CodeDirectory<'_>>, fault: &SignatureFault) -> bool
    ensures { result ≡ defined.is_repeated image.now (option_map directory_view first.now) (defined.page_in_fault (signature_fault_view fault.now)) }
{
    let (Some(first), Some(page)) = (first, page_of(fault)) else {
        return false;
    };
    page.slot != 0
        && are_judged(first, image)
        && is_at(first, page)
        && is_unlike(first, image, page)
}

// Whether `size` bytes at an offset of the file have a byte of a page.
fn meets(page: ChangedPage, offset: u64, size: u64) -> bool
    ensures { result ≡ defined.meets page offset size }
{
    page.start.max(offset) < page.end.min(offset.saturating_add(size))
}

// Whether the segment of this number has a byte of a page.
fn segment_meets(segments: &[Segment<'_>], number: usize, page: ChangedPage) -> bool
    ensures { result ≡ defined.segment_meets page (slice_get (map segment_view segments.now) number) }
{
    match segments.get(number) {
        Some(segment) => meets(page, segment.fileoff, segment.filesize),
        None => false,
    }
}

// Returns the number of the first segment that has a byte of a page, among the first 255 (`mach-o/nlist.h`, `MAX_SECT`).
#[tactic(auto, using(crate::proofs::NumberedLists::found_first, crate::proofs::NumberedLists::found_none))]
fn segment_number(segments: &[Segment<'_>], page: ChangedPage) -> Option<usize>
    ensures { result ≡ defined.segment_number (map segment_view segments.now) page }
{
    for number in 0..segments.len().min(255) {
        if segment_meets(segments, number, page) {
            return Some(number);
        }
    }
    None
}

// Whether a section can be read, and its part in the file has a byte of a page.
fn section_meets(segment: &Segment<'_>, number: u32, page: ChangedPage) -> bool
    ensures { result ≡ defined.section_meets page (numbered_section 0 (segment_view segment.now) number) }
{
    match segment.numbered(0, number) {
        Ok(found) => {
            let section = &found.section;
            !is_of_zeros(section.flags) && meets(page, u64::from(section.offset), section.size)
        }
        Err(_) => false,
    }
}

// Returns the number of the first section of a segment that has a byte of a page, among the first 255.
#[tactic(auto, using(crate::proofs::NumberedLists::found_first, crate::proofs::NumberedLists::found_none))]
fn section_number(segment: &Segment<'_>, page: ChangedPage) -> Option<u32>
    ensures { result ≡ defined.page_section_number (segment_view segment.now) page }
{
    for number in 0..segment.nsects.min(255) {
        if section_meets(segment, number, page) {
            return Some(number);
        }
    }
    None
}

// Returns the name of a section of a segment, if it has a number and can be read.
fn section_name(segment: &Segment<'_>, number: Option<u32>) -> Option<[u8; 16]>
    ensures { result ≡ defined.section_name_at (segment_view segment.now) number }
{
    match segment.numbered(0, number?) {
        Ok(found) => Some(found.section.sectname),
        Err(_) => None,
    }
}

// Returns the segment of a number, if there is one.
fn segment_if_any<'b, 'a>(
    segments: &'b [Segment<'a>],
    number: Option<usize>,
) -> Option<&'b Segment<'a>>
    ensures { option_map (λ segment. segment_view segment.now) result ≡ defined.segment_if_any (map segment_view segments.now) number }
{
    segments.get(number?)
}

/// Returns the place of a page: the first segment that has a byte of it, and the first such section of that one.
pub fn place_of(segments: &[Segment<'_>], page: Option<ChangedPage>) -> Place
    ensures { result ≡ defined.place_of (map segment_view segments.now) page }
{
    let Some(page) = page else {
        return NO_PLACE;
    };
    match segment_if_any(segments, segment_number(segments, page)) {
        Some(segment) => Place {
            segment: Some(segment.segname),
            section: section_name(segment, section_number(segment, page)),
        },
        None => NO_PLACE,
    }
}
