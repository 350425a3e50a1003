//! The imports of chained fixups.

ghost use Rattle.std.specs.Prelude.{◌≡◌, ◌++◌, OnOk};
ghost use Rattle.mach_base.specs.Answer.{IsOkUnlessMemory, Reads};
ghost use Rattle.mach_base.specs.Number.{number_at};
ghost use Rattle.mach_layout.specs.Laid.{laid_of};
ghost use Rattle.mach_layout.specs.Fixups as defined;
ghost use Rattle.mach_layout.specs.FixupViews.{data_view};

use crate::fault::{LayoutFault, Owner, Part, Rule};
use crate::fixups::{FixupData, Front, import_bytes};
use crate::layout::Layout;
use crate::rules::{Judges, Numbers, RuleOutcome, measured, owner_at, report_over, sound};
use crate::symbols::{library_count, texts_end};
use mach_base::{Endian, Result, bytes_at, read_u32};
use mach_records::ChainedFixupsHeader;
use std::alloc::Allocator;

/// The library and the place of the name in an import's record.
#[derive(Clone, Copy)]
pub struct ImportRow {
    pub library: u64,
    pub name: u32,
}

// Returns what the number of an import means, in a format.
fn row_of(format: u32, number: u64) -> ImportRow
    ensures { result ≡ defined.import_row_of format number }
{
    if format == 3 {
        ImportRow {
            library: number % 0x1_0000,
            name: (number / 0x1_0000_0000 % 0x1_0000_0000) as u32,
        }
    } else {
        ImportRow {
            library: number % 0x100,
            name: (number / 0x200 % 0x80_0000) as u32,
        }
    }
}

// Reads the number of eight bytes at a place.
fn read_u64(bytes: &[u8], place: usize, le: Endian) -> Result<u64>
    ensures { Reads (λ n. n) result (number_at le 8 bytes.now place) }
{
    Ok(le.u64_at(bytes_at(bytes, place, 8)?, 0))
}

// Reads the number of an import at a place, in a format.
fn read_row(bytes: &[u8], place: usize, le: Endian, format: u32) -> Result<u64>
    ensures { Reads (λ n. n) result (number_at le (defined.row_bytes format) bytes.now place) }
{
    if format == 3 {
        read_u64(bytes, place, le)
    } else {
        Ok(u64::from(read_u32(bytes, place, le)?))
    }
}

// Returns import k.
fn row_in(chained: &FixupData<'_>, header: &ChainedFixupsHeader, k: u32) -> Option<ImportRow>
    ensures { result ≡ defined.row_in (data_view chained.now) header.now k }
{
    let format = header.imports_format;
    let place = header.imports_offset as usize + k as usize * import_bytes(format) as usize;
    let number = read_row(chained.payload, place, chained.le, format).ok()?;
    Some(row_of(format, number))
}

// Returns the number after the highest ordinal of a library.
fn ordinals_end(format: u32) -> u64
    ensures { result ≡ defined.ordinals_end format }
{
    if format == 3 { 0x1_0000 } else { 0x100 }
}

// Whether a number is neither that of a library nor a special one.
fn is_ordinal_wrong(libraries: u64, format: u32, ordinal: u64) -> bool
    ensures { result ≡ defined.is_ordinal_wrong libraries (defined.ordinals_end format) ordinal }
{
    let above = ordinals_end(format);
    if ordinal > above - 16 {
        ordinal < above - 3
    } else {
        ordinal > libraries
    }
}

// Returns the place where the names of imports end.
fn import_names_end(chained: &FixupData<'_>, header: &ChainedFixupsHeader) -> u64
    ensures { result ≡ defined.import_names_end (data_view chained.now) header.now }
{
    if header.symbols_format == 0 {
        texts_end(chained.payload) as u64
    } else {
        chained.size()
    }
}

/// What the checks of the imports of chained fixups use.
#[derive(Clone, Copy)]
pub struct Imports<'a> {
    pub chained: FixupData<'a>,
    pub header: ChainedFixupsHeader,
    /// The number of libraries.
    pub libraries: u64,
    /// The place where the names end.
    pub names_end: u64,
}

impl Judges<u32> for Imports<'_> {
    ghost use Rattle.mach_layout.specs.FixupViews.{imports_owner, imports_judged};

    ghost owner = { imports_owner };

    ghost sees = { imports_judged };

    fn owner(&self, _rule: Rule, k: &u32) -> Owner {
        owner_at(Part::Imports, self.chained.place, u64::from(*k))
    }

    fn see(&self, rule: Rule, k: &u32) -> RuleOutcome {
        let Some(row) = row_in(&self.chained, &self.header, *k) else {
            return sound();
        };
        match rule {
            Rule::ImportLibrary => {
                let format = self.header.imports_format;
                let holds = !is_ordinal_wrong(self.libraries, format, row.library);
                measured(holds, row.library, self.libraries)
            }
            Rule::ImportName => {
                let place = u64::from(self.header.symbols_offset) + u64::from(row.name);
                measured(place < self.names_end, place, self.chained.size())
            }
            _ => sound(),
        }
    }
}

/// Adds the faults of imports.
pub fn import_faults<A: Allocator>(
    faults: &mut Vec<LayoutFault, A>,
    layout: &Layout<'_, '_>,
    chained: &FixupData<'_>,
    front: &Front,
) -> Result<()>
    ensures reported { OnOk result (faults.new.items ≡ faults.old.items ++ defined.import_faults (laid_of layout.now) (data_view chained.now) front.now) }
    ensures only { IsOkUnlessMemory result }
{
    let header = front.header;
    let judge = Imports {
        chained: *chained,
        header,
        libraries: library_count(layout),
        names_end: import_names_end(chained, &header),
    };
    let rules = [Rule::ImportLibrary, Rule::ImportName];
    let numbers = Numbers::of(header.imports_count);
    report_over(faults, &judge, &rules, &numbers)?;
    Ok(())
}
