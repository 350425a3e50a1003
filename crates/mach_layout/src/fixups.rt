//! Rules of chained fixups.

ghost use Rattle.std.specs.Prelude.{◌≡◌, ◌++◌, length, option_map, OnOk};
ghost use Rattle.mach_base.specs.Answer.{IsOkUnlessMemory, Reads};
ghost use Rattle.mach_layout.specs.Laid.{laid_of};
ghost use Rattle.mach_layout.specs.Fixups as defined;
ghost use Rattle.mach_layout.specs.FixupViews.{data_view};
ghost use Rattle.mach_base.specs.Number.{number_at};

mod imports;
pub mod starts;

use crate::fault::{LayoutFault, Owner, Part, Rule};
use crate::fixups::imports::import_faults;
use crate::fixups::starts::starts_faults;
use crate::last_command::{Wanted, last_wanted};
use crate::layout::{Layout, ends_past};
use crate::rules::{RuleOutcome, measured, owner_at, report};
use mach_base::{Endian, Record, Result, read_u32};
use mach_load::{CommandVariant, LoadCommand};
use mach_records::ChainedFixupsHeader;
use std::alloc::Allocator;

/// The place and size of the chained fixups of a command, and the place of the command.
#[derive(Clone, Copy)]
pub struct PlacedFixups {
    pub place: usize,
    pub dataoff: u32,
    pub datasize: u32,
}

impl Wanted for PlacedFixups {
    ghost use Rattle.mach_layout.specs.Fixups.{fixups_of};

    ghost wanted = { fixups_of };

    fn of(command: &LoadCommand) -> Option<PlacedFixups> {
        let place = command.offset;
        match &command.command {
            CommandVariant::DyldChainedFixups(c) => {
                let (dataoff, datasize) = (c.dataoff, c.datasize);
                Some(PlacedFixups {
                    place,
                    dataoff,
                    datasize,
                })
            }
            _ => None,
        }
    }
}

/// What the checks of chained fixups use: the place of their command, their data, and the byte order.
#[derive(Clone, Copy)]
pub struct FixupData<'a> {
    pub place: usize,
    pub payload: &'a [u8],
    pub le: Endian,
}

/// A header that can be read, and the number of starts after it.
#[derive(Clone, Copy)]
pub struct Front {
    pub header: ChainedFixupsHeader,
    pub count: u32,
}

impl FixupData<'_> {
    /// Returns the owner of a fault of the header, or of the starts of segment k.
    pub fn owner(&self, k: u32) -> Owner
        ensures { result ≡ defined.data_owner (data_view self.now) k }
    {
        owner_at(Part::ChainedFixups, self.place, u64::from(k))
    }

    /// Returns the number of bytes.
    pub fn size(&self) -> u64
        ensures { result ≡ length self.now.payload.now }
    {
        self.payload.len() as u64
    }
}

/// Returns the data that a command places, if they lie in the file.
pub fn data_of<'a>(layout: &Layout<'a, '_>, placed: &PlacedFixups) -> Option<FixupData<'a>>
    ensures { option_map data_view result ≡ defined.data_of (laid_of layout.now) placed.now }
{
    let (start, size) = (placed.dataoff, placed.datasize);
    if ends_past(layout.size(), u64::from(start), u64::from(size)) {
        return None;
    }
    Some(FixupData {
        place: placed.place,
        payload: &layout.bytes[start as usize..start as usize + size as usize],
        le: layout.ctx.le,
    })
}

// Returns the data of the chained fixups, if there are any and they lie in the file.
fn fixup_data<'a>(layout: &Layout<'a, '_>) -> Option<FixupData<'a>>
    ensures { option_map data_view result ≡ defined.fixup_data (laid_of layout.now) }
{
    let placed = last_wanted::<PlacedFixups>(layout.commands)?;
    data_of(layout, &placed)
}

/// Returns the number of bytes in an import's record.
pub fn import_bytes(format: u32) -> u64
    ensures { result ≡ defined.import_bytes format }
{
    match format {
        1 => 4,
        2 => 8,
        _ => 16,
    }
}

// Checks the version and the formats of a header.
fn format_outcome(header: &ChainedFixupsHeader) -> RuleOutcome
    ensures { result ≡ defined.format_sees header.now }
{
    let (version, imports, symbols) = (
        u64::from(header.fixups_version),
        u64::from(header.imports_format),
        u64::from(header.symbols_format),
    );
    measured(version == 0, version, 0)
        .then(measured(imports != 0 && imports <= 3, imports, 3))
        .then(measured(symbols <= 1, symbols, 1))
}

// Returns the place where the imports end.
fn imports_end(header: &ChainedFixupsHeader) -> u64
    ensures { result ≡ defined.imports_end header.now }
{
    let size = u64::from(header.imports_count) * import_bytes(header.imports_format);
    u64::from(header.imports_offset) + size
}

// Checks the places of imports and names.
fn places_outcome(chained: &FixupData<'_>, header: &ChainedFixupsHeader) -> RuleOutcome
    ensures { result ≡ defined.places_sees (data_view chained.now) header.now }
{
    let (size, end) = (chained.size(), imports_end(header));
    let names = u64::from(header.symbols_offset);
    measured(end <= size, end, size)
        .then(measured(names <= size, names, size))
        .then(measured(end <= names, names, end))
}

// Returns the header with its count of starts, if all of these follow it.
fn front_or_outcome(
    chained: &FixupData<'_>,
    header: ChainedFixupsHeader,
) -> std::result::Result<Front, RuleOutcome>
    ensures { result ≡ defined.front_or_outcome (data_view chained.now) header (number_at chained.now.le 4 chained.now.payload.now header.starts_offset) }
{
    let size = chained.size();
    let first = u64::from(header.starts_offset) + 4;
    let Ok(count) = read_u32(chained.payload, header.starts_offset as usize, chained.le) else {
        return Err(measured(false, first, size));
    };
    let end = first + 4 * u64::from(count);
    if end > size {
        return Err(measured(false, end, size));
    }
    Ok(Front { header, count })
}

// Returns the header of the data, or what was seen at its first field that doesn't hold.
fn front_of(chained: &FixupData<'_>) -> std::result::Result<Front, RuleOutcome>
    ensures { result ≡ defined.front_of (data_view chained.now) }
{
    let Ok(header) = ChainedFixupsHeader::read(chained.payload, 0, chained.le) else {
        return Err(measured(false, chained.size(), 28));
    };
    let outcome = format_outcome(&header).then(places_outcome(chained, &header));
    if !outcome.holds {
        return Err(outcome);
    }
    front_or_outcome(chained, header)
}

/// Adds the faults of chained fixups.
pub fn fixup_faults<A: Allocator>(
    faults: &mut Vec<LayoutFault, A>,
    layout: &Layout<'_, '_>,
) -> Result<()>
    ensures reported { OnOk result (faults.new.items ≡ faults.old.items ++ defined.fixup_faults (laid_of layout.now)) }
    ensures only { IsOkUnlessMemory result }
{
    let Some(chained) = fixup_data(layout) else {
        return Ok(());
    };
    match front_of(&chained) {
        Ok(front) => {
            starts_faults(faults, layout, &chained, &front)?;
            import_faults(faults, layout, &chained, &front)
        }
        Err(outcome) => {
            report(faults, Rule::ChainedFixups, chained.owner(0), outcome)?;
            Ok(())
        }
    }
}
