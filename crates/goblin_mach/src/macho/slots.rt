//! The indirect symbols of an image, its stubs and pointers, the provider of an undefined symbol, and its sections by
//! address and by number.

ghost use Rattle.std.specs.Prelude.{◌≡◌, ◌/◌, ℕ, map, option_map};
ghost use Rattle.mach_base.specs.Answer.{Reads};
ghost use Rattle.mach_base.specs.Text.{texts};
ghost use Rattle.mach_parts.specs.SectionRecord.{section_holding, section_by_number};
ghost use Rattle.mach_parts.specs.SlotViews.{indirect_left, indirect_table_of, slot_view};
ghost use Rattle.mach_parts.specs.SlotsLeft.{slots_left};
ghost use Rattle.goblin_mach.specs.ImageSlots.{indirect_place_by, indirect_place_in, indirect_symbols_in, image_slots, image_slot_at};
ghost use Rattle.goblin_mach.specs.ImageSlots.{names_library, bind_ordinal_of, provider_read, symbol_provider_of};
ghost use Rattle.goblin_mach.specs.ImageSlots.{indirect_table_at, indirect_table_view, symbol_table_view};
ghost use Rattle.goblin_mach.specs.NearestSymbol.{section_number};
ghost use Rattle.goblin_mach.specs.OpenImage.{ctx_view, bytes_view, commands_view, segments_view};
ghost use Rattle.mach_load.specs.Variants.{command_of};

use crate::fixups::last_readable;
use crate::macho::MachO;
use crate::macho::nearest::section_number;
use crate::readings::Subject;
use mach_base::{Ctx, Result};
use mach_load::{CommandVariant, LoadCommand};
use mach_parts::binding::Provider;
use mach_parts::header::MH_TWOLEVEL;
use mach_parts::segment::{NumberedSection, section_holding, section_of};
use mach_parts::symbols::{N_PBUD, N_UNDF, Nlist};
use mach_parts::{
    IndirectSymbolIterator, IndirectSymbols, SlotIterator, SlotSource, SymbolSlot, symbol_slot_at,
};
use mach_records::DysymtabCommand;
use std::alloc::Allocator;

// The commands that place indirect symbols.
#[derive(Clone, Copy)]
struct IndirectPlaces;

impl Subject for IndirectPlaces {
    type Value = DysymtabCommand;

    ghost Seen = { ℕ × ℕ };

    ghost seen = { λ c. (c.indirectsymoff, c.nindirectsyms) };

    ghost reading = { λ _. indirect_place_by };

    /// Reads the command. It never fails.
    fn read(&self, command: &LoadCommand) -> Option<Result<DysymtabCommand>> {
        match &command.command {
            CommandVariant::Dysymtab(c) => Some(Ok(*c)),
            _ => None,
        }
    }
}

// Returns the table of indirect symbols that the last command places, if there is one.
fn indirect_table<'a>(
    bytes: &'a [u8],
    ctx: Ctx,
    commands: &[LoadCommand],
) -> Option<IndirectSymbols<'a>>
    ensures { option_map indirect_table_of result ≡ indirect_table_at ctx bytes.now (indirect_place_in (map command_of commands.now)) }
{
    let command = last_readable(&IndirectPlaces, commands)?;
    Some(IndirectSymbols::new(bytes, command.indirectsymoff, command.nindirectsyms, ctx.le))
}

// Whether the linker recorded which library provides a symbol.
fn has_library(flags: u32, symbol: &Nlist) -> bool
    ensures { result ≡ names_library flags symbol.now }
{
    if flags & MH_TWOLEVEL == 0 || symbol.is_stab() {
        return false;
    }
    let kind = symbol.get_type();
    kind == N_UNDF && symbol.n_value == 0 || kind == N_PBUD
}

// Returns the ordinal of a bind with the same meaning as a symbol's ordinal.
fn bind_ordinal(ordinal: u16) -> i64
    ensures { result ≡ bind_ordinal_of ordinal }
{
    match ordinal {
        0xff => -1,
        0xfe => -2,
        _ => i64::from(ordinal),
    }
}

impl<'a, A: Allocator> MachO<'a, A> {
    // Returns the table of indirect symbols by the commands that the image holds, if one places any.
    fn indirect_table(&self) -> Option<IndirectSymbols<'a>>
        ensures { option_map indirect_table_of result ≡ indirect_table_view self.now }
    {
        indirect_table(self.bytes, self.ctx, self.load_commands.as_slice())
    }

    /// Returns the indirect symbols of the image, one after the other: those of the last `LC_DYSYMTAB` among the load
    /// commands that it holds; none if no command places any. An item that can't be read is its error.
    pub fn indirect_symbols(&self) -> IndirectSymbolIterator<'a>
        ensures { indirect_left result ≡ indirect_symbols_in (indirect_table_view self.now) }
    {
        match self.indirect_table() {
            Some(table) => table.iter(),
            None => IndirectSymbolIterator::default(),
        }
    }

    /// Returns the stubs and pointers of the image that belong to symbols, over the commands, segments and symbols that it
    /// holds, by segments, sections and addresses. There are none if no command places indirect symbols. It allocates
    /// nothing.
    ///
    /// An error takes the place of one slot that can't be read. One error takes the place of a section that can't be read,
    /// or of the rest of a section from the first slot on that has no address or no entry.
    pub fn symbol_slots<'b>(&'b self) -> SlotIterator<'a, 'b>
        ensures { slots_left result ≡ image_slots (ctx_view self.now) (indirect_table_view self.now) (symbol_table_view self.now) (segments_view self.now) }
    {
        let Some(indirect) = self.indirect_table() else {
            return SlotIterator::default();
        };
        let source = SlotSource {
            indirect,
            symbols: self.symbols.as_ref(),
            ctx: self.ctx,
        };
        SlotIterator::new(source, self.segments.as_slice())
    }

    /// Returns the stub or pointer in which an address lies, if there is one: that of the first section that has slots and
    /// holds the address. Fails if a slot of that section has no size, or if this slot has no entry or no symbol.
    pub fn symbol_slot_at(&self, address: u64) -> Result<Option<SymbolSlot<'a>>>
        ensures { Reads (option_map slot_view) result
            (image_slot_at (ctx_view self.now) (indirect_table_view self.now) (symbol_table_view self.now) (segments_view self.now) address) }
    {
        let Some(indirect) = self.indirect_table() else {
            return Ok(None);
        };
        let source = SlotSource {
            indirect,
            symbols: self.symbols.as_ref(),
            ctx: self.ctx,
        };
        symbol_slot_at(source, self.segments.as_slice(), address)
    }

    /// Returns the provider of a symbol of the image, over the libraries that it holds, as the linker recorded it. It
    /// returns None if there is no such record: the image doesn't use the two-level namespace, or the symbol is a debugging
    /// one, defined or common. Fails if the ordinal is past the last library.
    pub fn symbol_provider(&self, symbol: &Nlist) -> Option<Result<Provider<'a>>>
        ensures { option_map provider_read result ≡ symbol_provider_of self.now.header.flags (texts self.now.libs.items) symbol.now }
    {
        if !has_library(self.header.flags, symbol) {
            return None;
        }
        let ordinal = bind_ordinal(symbol.n_desc >> 8);
        Some(Provider::of_ordinal(self.libs.as_slice(), ordinal))
    }

    /// Returns the first section, of the segments that the image holds, in which an address lies, if there is one. Sections
    /// that aren't in the bytes are skipped.
    pub fn section_at(&self, address: u64) -> Option<NumberedSection>
        ensures { result ≡ section_holding (segments_view self.now) address }
    {
        section_holding(self.segments.as_slice(), address)
    }

    /// Returns the section that a symbol's `n_sect` names, of the segments that the image holds, if there is one. Fails if
    /// it isn't in the bytes.
    pub fn section_of(&self, n_sect: usize) -> Result<Option<NumberedSection>>
        ensures { Reads (λ found. found) result (section_by_number (segments_view self.now) n_sect) }
    {
        section_of(self.segments.as_slice(), n_sect)
    }

    /// Returns the number by which symbols name a section of the image (`n_sect`): counted from 1 over all segments.
    pub fn section_number(&self, section: &NumberedSection) -> usize
        ensures { result ≡ section_number (segments_view self.now) section.now }
    {
        section_number(self.segments.as_slice(), section)
    }
}
