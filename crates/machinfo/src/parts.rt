//! The parts of an image that are lists of rows.

ghost use Rattle.std.specs.Prelude.{◌≡◌, Ok, map, option_map, OnOk};
ghost use Rattle.std.specs.Io.KnownBytes.{Appends};
ghost use Rattle.std.specs.Iterator.{YieldsFirst};
ghost use Rattle.std.specs.List.{filter_map};
ghost use Rattle.mach_base.specs.Text.{texts};
ghost use Rattle.mach_parts.specs.Segment.{segment_view};
ghost use Rattle.goblin_mach.specs.ImageFacts.{facts_view};
ghost use Rattle.goblin_mach.specs.OpenImage.{commands_view, segments_view};
ghost use Rattle.machinfo.specs.PartFields.{entry_part_fields, header_part_fields, one_row, paths_numbered_left, rpath_part_fields, rpath_rows_from};
ghost use Rattle.machinfo.specs.PartFields.{segment_part_fields, segment_rows_from, segments_numbered_left, uuid_part_fields};
ghost use Rattle.machinfo.specs.Parts.{IsEntryRow, IsSymbolThere, entry_symbol_view, entry_view, symbol_seen, uuid_row_by, uuid_rows_left};

use crate::part_fields::{
    entry_fields, header_flags, header_members, rpath_fields, segment_fields, uuid_fields,
};
use goblin_mach::header::Header;
use goblin_mach::load_command::LoadCommand;
use goblin_mach::segment::{NumberedSection, Segment};
use goblin_mach::{MachO, Result, SymbolAt};
use mach_audit::uuid_by;
use mach_cli::{FieldsForm, ItemList};
use std::alloc::Allocator;
use std::io;
use std::io::Write;

/// A UUID, and the cpu of the image.
#[derive(Clone, Copy)]
pub struct UuidRow {
    /// The UUID.
    pub uuid: [u8; 16],
    /// The cpu's type.
    pub cputype: u32,
    /// Its subtype and capabilities.
    pub cpusubtype: u32,
}

/// An entry point.
#[derive(Clone, Copy)]
pub struct EntryRow<'a> {
    /// The address.
    pub address: u64,
    /// The first section that holds it, if there is one.
    pub section: Option<NumberedSection>,
    /// The nearest symbol of that section at or below it, if there is one.
    pub symbol: Option<EntrySymbol<'a>>,
}

/// A symbol at or below an address.
#[derive(Clone, Copy)]
pub struct EntrySymbol<'a> {
    /// Its name.
    pub name: &'a str,
    /// How far the address is above it.
    pub distance: u64,
}

/// The segments from a number on.
#[derive(Clone, Copy)]
pub struct NumberedSegments<'a, 'b> {
    /// The segments.
    pub segments: &'b [Segment<'a>],
    /// The number of the next one.
    pub number: usize,
}

impl<'a, 'b> NumberedSegments<'a, 'b> {
    /// Returns the segments of an image.
    pub fn of<A: Allocator>(image: &'b MachO<'a, A>) -> Self
        ensures { segments_numbered_left result ≡ segment_rows_from 0 (segments_view image.now) }
    {
        NumberedSegments {
            segments: image.segments.as_slice(),
            number: 0,
        }
    }
}

impl<'a, 'b> ItemList for NumberedSegments<'a, 'b> {
    type Item = (usize, &'b Segment<'a>);

    ghost fields = { λ item. segment_part_fields (item.0, segment_view item.1.now) };

    ghost items_left = { segments_numbered_left };

    fn next_item(&mut self) -> Option<Result<(usize, &'b Segment<'a>)>> {
        let number = self.number;
        let segment = self.segments.get(number)?;
        self.number = number + 1;
        Some(Ok((number, segment)))
    }

    fn write_item<F: FieldsForm, O: Write>(
        segment: &(usize, &'b Segment<'a>),
        out: &mut O,
    ) -> io::Result<()> {
        F::write(&segment_fields(segment.0, segment.1), out)
    }
}

/// The UUIDs that the commands from a number on give.
#[derive(Clone, Copy)]
pub struct UuidRows<'b> {
    /// The commands.
    pub commands: &'b [LoadCommand],
    /// The number of the next one.
    pub number: usize,
    /// The header, which names the cpu.
    pub header: Header,
}

impl<'b> UuidRows<'b> {
    /// Returns the UUIDs of an image.
    pub fn of<A: Allocator>(image: &'b MachO<'_, A>) -> Self
        ensures { uuid_rows_left result ≡ filter_map (uuid_row_by image.now.header) (commands_view image.now) }
    {
        UuidRows {
            commands: image.load_commands.as_slice(),
            number: 0,
            header: image.header,
        }
    }

    // Returns the next UUID.
    fn take_next(&mut self) -> Option<UuidRow>
        ensures { YieldsFirst uuid_rows_left self.old result self.new }
    {
        'commands: while let Some(command) = self.commands.get(self.number) {
            self.number += 1;
            if let Some(uuid) = uuid_by(command) {
                return Some(UuidRow {
                    uuid,
                    cputype: self.header.cputype,
                    cpusubtype: self.header.cpusubtype,
                });
            }
        }
        None
    }
}

impl<'b> ItemList for UuidRows<'b> {
    type Item = UuidRow;

    ghost fields = { uuid_part_fields };

    ghost items_left = { λ s. map (λ u. Ok (uuid_part_fields u)) (uuid_rows_left s) };

    fn next_item(&mut self) -> Option<Result<UuidRow>> {
        Some(Ok(self.take_next()?))
    }

    fn write_item<F: FieldsForm, O: Write>(row: &UuidRow, out: &mut O) -> io::Result<()>
        ensures { OnOk result (Appends (O.contents out.old) (O.contents out.new) (F.fields_text (uuid_part_fields row.now))) }
    {
        F::write(&uuid_fields(row), out)
    }
}

/// The run paths from a number on.
#[derive(Clone, Copy)]
pub struct NumberedPaths<'a, 'b> {
    /// The paths.
    pub paths: &'b [&'a str],
    /// The number of the next one.
    pub number: usize,
}

impl<'a, 'b> NumberedPaths<'a, 'b> {
    /// Returns the run paths of an image.
    pub fn of<A: Allocator>(image: &'b MachO<'a, A>) -> Self
        ensures { paths_numbered_left result ≡ rpath_rows_from 0 (texts image.now.rpaths.items) }
    {
        NumberedPaths {
            paths: image.rpaths.as_slice(),
            number: 0,
        }
    }
}

impl<'a, 'b> ItemList for NumberedPaths<'a, 'b> {
    type Item = (usize, &'a str);

    ghost fields = { λ item. rpath_part_fields (item.0, item.1.now) };

    ghost items_left = { paths_numbered_left };

    fn next_item(&mut self) -> Option<Result<(usize, &'a str)>> {
        let number = self.number;
        let path = *self.paths.get(number)?;
        self.number = number + 1;
        Some(Ok((number, path)))
    }

    fn write_item<F: FieldsForm, O: Write>(path: &(usize, &'a str), out: &mut O) -> io::Result<()> {
        F::write(&rpath_fields(path.0, path.1), out)
    }
}

/// Returns what is shown of a symbol, if there is one.
pub fn symbol_to_show<'a>(found: Option<SymbolAt<'a>>) -> Option<EntrySymbol<'a>>
    ensures { option_map entry_symbol_view result ≡ symbol_seen found.entry }
{
    match found {
        Some(found) => Some(EntrySymbol {
            name: found.name,
            distance: found.distance,
        }),
        None => None,
    }
}

// Returns the symbol at an address of an image, if there is one.
fn symbol_at<'a, A: Allocator>(image: &MachO<'a, A>, address: u64) -> Option<EntrySymbol<'a>>
    ensures { IsSymbolThere address (facts_view image.now) (option_map entry_symbol_view result) }
{
    symbol_to_show(image.symbol_at(address))
}

/// Where an image begins to run, if that is known and was not taken.
#[derive(Clone, Copy)]
pub struct EntryPoint<'a>(pub Option<EntryRow<'a>>);

impl<'a> EntryPoint<'a> {
    /// Returns where an image begins to run.
    pub fn of<A: Allocator>(image: &MachO<'a, A>) -> Self
        ensures { IsEntryRow image.now.entry (facts_view image.now) (option_map entry_view result.0) }
    {
        let address = image.entry;
        if address == 0 {
            return EntryPoint(None);
        }
        EntryPoint(Some(EntryRow {
            address,
            section: image.section_at(address),
            symbol: symbol_at(image, address),
        }))
    }
}

impl<'a> ItemList for EntryPoint<'a> {
    type Item = EntryRow<'a>;

    ghost fields = { λ item. entry_part_fields (entry_view item) };

    ghost items_left = { λ s. one_row entry_part_fields (option_map entry_view s.0) };

    fn next_item(&mut self) -> Option<Result<EntryRow<'a>>> {
        let row = self.0?;
        self.0 = None;
        Some(Ok(row))
    }

    fn write_item<F: FieldsForm, O: Write>(row: &EntryRow<'a>, out: &mut O) -> io::Result<()> {
        F::write(&entry_fields(row), out)
    }
}

/// The header of an image, if it was not taken.
#[derive(Clone, Copy)]
pub struct OneHeader(pub Option<Header>);

impl ItemList for OneHeader {
    type Item = Header;

    ghost fields = { header_part_fields };

    ghost items_left = { λ s. one_row header_part_fields s.0 };

    fn next_item(&mut self) -> Option<Result<Header>> {
        let header = self.0?;
        self.0 = None;
        Some(Ok(header))
    }

    fn write_item<F: FieldsForm, O: Write>(header: &Header, out: &mut O) -> io::Result<()> {
        F::write_both(&header_members(header), &header_flags(header.flags), out)
    }
}
