//! The section of an image that its signature seals as its Info.plist.

ghost use Rattle.std.specs.Prelude.{◌≡◌, map, find};
ghost use Rattle.mach_parts.specs.SectionRecord.{readable_sections};
ghost use Rattle.mach_parts.specs.Segment.{segment_view};
ghost use Rattle.mach_signature.specs.DirectoryViews.{slot_read};
ghost use Rattle.mach_signature.specs.SignedImages as defined;

use goblin_mach::entry::is_text;
use mach_base::{bytes_at, read_text};
use mach_parts::segment::{NumberedSection, ReadableSections, Segment};

// Whether a section is `__info_plist` of `__TEXT`.
fn is_info_plist(section: &NumberedSection) -> bool
    ensures { result ≡ defined.is_info_plist section.now }
{
    if !is_text(&section.section.segname) {
        return false;
    }
    match read_text(&section.section.sectname, 0) {
        Ok(name) => name == "__info_plist",
        Err(_) => false,
    }
}

// Finds the first `__info_plist` of `__TEXT`.
fn among_sections(segments: &[Segment<'_>]) -> Option<NumberedSection>
    ensures { result ≡ find defined.is_info_plist (readable_sections (map segment_view segments.now)) }
{
    'sections: for section in ReadableSections::new(segments) {
        if is_info_plist(&section) {
            return Some(section);
        }
    }
    None
}

/// Returns the bytes of the first section `__info_plist` of `__TEXT` in some segments, if there is one and its bytes are in the
/// file. The section's own names decide.
///
/// It looks at the sections in their segment's command and in the bytes. So a count in a file never sets the work.
pub fn info_plist<'a>(bytes: &'a [u8], segments: &[Segment<'_>]) -> Option<&'a [u8]>
    ensures { slot_read result ≡ defined.plist_of bytes.now (map segment_view segments.now) }
{
    let found = among_sections(segments)?;
    let section = &found.section;
    bytes_at(bytes, section.offset as usize, section.size as usize).ok()
}
