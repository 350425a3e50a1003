//! Parts of one buffer as entries of a fat file.

ghost use Rattle.std.specs.Prelude.{◌≡◌, MatchResult, OnErr, Ok};
ghost use Rattle.mach_base.specs.Answer.{Gives, Reads, ErrorMeets};
ghost use Rattle.mach_fat_writer.specs.Entries.{entry_views, fat_entry_view};
ghost use Rattle.mach_fat_writer.specs.FatWrites.{fat_file_of, RefusesFat};
ghost use Rattle.mach_fat_writer.specs.Placed.{IsWrittenInto};
ghost use Rattle.mach_fat_writer.specs.Parts.{form_by, part_entries, part_entry, IsPartsFault, MakesFat};

use crate::entry::FatEntry;
use crate::into::{write_fat_into, write_fat64_into};
use mach_base::{Error, Result, ScrollError};
use std::alloc::Allocator;

/// An entry for a fat file to be written: a number of bytes of a buffer, from a place on.
#[derive(Clone, Copy)]
#[repr(C)]
pub struct FatPart {
    /// The place of its first byte.
    pub offset: usize,
    /// How many bytes it has.
    pub len: usize,
    /// The cpu type, and the kind of cpu with its capabilities.
    pub cputype: u32,
    /// The kind of cpu, with its capabilities in the top 8 bits.
    pub cpusubtype: u32,
    /// The entry's offset in the file is a multiple of 2 to this power.
    pub align: u32,
    /// Zero for entries of 32 bits; written as it is in entries of 64 bits.
    pub reserved: u32,
}

// Returns the entry of a part, if it lies in the bytes.
fn entry_of<'a>(bytes: &'a [u8], part: &FatPart) -> Result<FatEntry<'a>>
    ensures { Reads fat_entry_view result (part_entry bytes.now part.now) }
{
    if part.offset > bytes.len() {
        return Err(Error::Scroll(ScrollError::BadOffset(part.offset)));
    }
    let left = bytes.len() - part.offset;
    if part.len > left {
        return Err(Error::Scroll(ScrollError::TooBig {
            size: part.len,
            len: left,
        }));
    }
    Ok(FatEntry {
        cputype: part.cputype,
        cpusubtype: part.cpusubtype,
        align: part.align,
        bytes: &bytes[part.offset..part.offset + part.len],
    })
}

// Returns the entries of parts, in order.
fn entries_of<'a, A: Allocator>(
    alloc: A,
    bytes: &'a [u8],
    parts: &[FatPart],
) -> Result<Vec<FatEntry<'a>, A>>
    ensures { Gives (λ entries. entry_views entries.items) result (part_entries bytes.now parts.now) }
{
    let mut entries = Vec::with_capacity(alloc, parts.len())?;
    for part in parts {
        let entry = entry_of(bytes, part)?;
        entries.push(entry)?;
    }
    Ok(entries)
}

// Writes a fat file of entries, of 64 bits or of 32.
fn write_entries<A: Allocator>(
    alloc: A,
    is_64: bool,
    entries: &[FatEntry<'_>],
    out: &mut [u8],
) -> Result<usize>
    ensures written { MatchResult result (λ len. IsWrittenInto len (fat_file_of (form_by is_64) (entry_views entries.now)) out.old out.new)
        (λ e. RefusesFat e (fat_file_of (form_by is_64) (entry_views entries.now))) }
    ensures kept { OnErr result (out.new ≡ out.old) }
{
    if is_64 {
        write_fat64_into(alloc, entries, out)
    } else {
        write_fat_into(alloc, entries, out)
    }
}

/// Writes a fat file of parts of these bytes, in their order, at the start of `out` if it fits, and returns how many bytes it
/// has. If it doesn't fit, nothing is written. The first part that isn't in the bytes refuses it; else it is refused as by
/// `write_fat`.
pub fn write_parts<A: Allocator>(
    alloc: A,
    bytes: &[u8],
    parts: &[FatPart],
    is_64: bool,
    out: &mut [u8],
) -> Result<usize>
    ensures written { MatchResult result (λ len. MakesFat bytes.now parts.now (form_by is_64) len out.old out.new)
        (λ e. ErrorMeets (IsPartsFault bytes.now parts.now (form_by is_64)) e) }
    ensures kept { OnErr result (out.new ≡ out.old) }
{
    let entries = entries_of(&alloc, bytes, parts)?;
    write_entries(&alloc, is_64, entries.as_slice(), out)
}
