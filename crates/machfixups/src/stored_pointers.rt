//! The pointers of chains as they are stored.

ghost use Rattle.std.specs.Prelude.{◌≡◌, ◌+◌, Some, None, nat_le, if◌then◌else◌};
ghost use Rattle.mach_chained.specs.Views.{fixups_view};
ghost use Rattle.mach_chained.specs.WalkViews.{fixup_view};
ghost use Rattle.goblin_mach.specs.OpenImage.{ctx_view, segments_view};
ghost use Rattle.machfixups.specs.Rows.{fixups_table_view};
ghost use Rattle.machfixups.specs.StoredPointers.{number_there, raw_of, source_option_view, source_view, stored_pointer, stored_width};

use goblin_mach::chained_fixups::{ChainedFixups, Fixup};
use goblin_mach::segment::Segment;
use goblin_mach::{Endian, MachO};
use std::alloc::Allocator;

/// What the pointers of chains are read from.
#[derive(Clone, Copy, Drop)]
pub struct StoredPointers<'a, 'b> {
    segments: &'b [Segment<'a>],
    le: Endian,
}

// Returns how many bytes a pointer has in a format.
fn stored_width(format: u16) -> usize
    ensures { result ≡ stored_width format }
{
    if format == 3 { 4 } else { 8 }
}

// Whether some bytes at a place are among others.
fn lies_in(len: usize, place: usize, width: usize) -> bool
    ensures { result ≡ nat_le (place + width) len }
{
    width <= len && place <= len - width
}

// Returns the number of 4 or 8 bytes at a place, if they lie there.
fn number_there(le: Endian, format: u16, bytes: &[u8], place: usize) -> Option<u64>
    ensures { result ≡ number_there le (stored_width format) bytes.now place }
{
    if !lies_in(bytes.len(), place, stored_width(format)) {
        return None;
    }
    if format == 3 {
        Some(u64::from(le.u32_at(bytes, place)))
    } else {
        Some(le.u64_at(bytes, place))
    }
}

impl<'a, 'b> StoredPointers<'a, 'b> {
    /// Returns what the pointers of an image are read from, if they are shown.
    pub fn of<A: Allocator>(image: &'b MachO<'a, A>, is_shown: bool) -> Option<Self>
        ensures { source_option_view result ≡ if is_shown then Some (record { segments = segments_view image.now; le = (ctx_view image.now).le }) else None }
    {
        if !is_shown {
            return None;
        }
        Some(StoredPointers {
            segments: image.segments.as_slice(),
            le: image.ctx().le,
        })
    }

    // Returns the pointer that is stored at the place of a fixup.
    fn stored_pointer(&self, table: &ChainedFixups<'_>, fixup: &Fixup) -> Option<u64>
        ensures { result ≡ stored_pointer (source_view self.now) (fixups_view table.now) (fixup_view fixup.now) }
    {
        match table.starts(fixup.segment) {
            Ok(Some((starts, _))) => match self.segments.get(fixup.segment as usize) {
                Some(segment) => {
                    let place = fixup.offset as usize;
                    number_there(self.le, starts.pointer_format, segment.bytes, place)
                }
                None => None,
            },
            Ok(None) => None,
            Err(_) => None,
        }
    }
}

/// Returns the pointer that is stored at the place of a fixup, if there are a source and chains.
pub fn raw_of(
    source: &Option<StoredPointers<'_, '_>>,
    table: &Option<ChainedFixups<'_>>,
    fixup: &Fixup,
) -> Option<u64>
    ensures { result ≡ raw_of (source_option_view source.now) (fixups_table_view table.now) (fixup_view fixup.now) }
{
    match (source, table) {
        (Some(source), Some(table)) => source.stored_pointer(table, fixup),
        (Some(_), None) => None,
        (None, _) => None,
    }
}
