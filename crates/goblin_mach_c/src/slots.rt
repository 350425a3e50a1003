//! The stubs and pointers of an image that belong to symbols.

ghost use Rattle.std.specs.Prelude.{◌≡◌, ◌≢◌, ◌<◌, Ok, length, map, option_map};
ghost use Rattle.mach_base.specs.Fault.{fault_of};
ghost use Rattle.mach_parts.specs.SlotViews.{slot_symbol_view, slot_view};
ghost use Rattle.mach_parts.specs.SlotsLeft.{slots_left, symbol_slot_read};
ghost use Rattle.goblin_mach_c.specs.Codes.{IsRefusalCode};
ghost use Rattle.goblin_mach_c.specs.Opened.{FaultIn, lossy_mode};
ghost use Rattle.goblin_mach_c.specs.SlotRows as rows;
ghost use Rattle.goblin_mach_c.specs.SlotRows.{FindsSlot, SlotFaultIn, WritesSlots, name_of_symbol, slot_kind_number, slot_row};
ghost use Rattle.goblin_mach_c.specs.SymbolRows.{gm_table_view};

use crate::errors::{GM_OK, code_of, gm_error, refuse, refuse_no_rows};
use crate::images::gm_image;
use crate::indirect::{
    GM_INDIRECT_ABSOLUTE, GM_INDIRECT_LOCAL, GM_INDIRECT_LOCAL_ABSOLUTE, GM_INDIRECT_SYMBOL,
};
use crate::open::open;
use crate::rows::{Rows, fill, skip};
use crate::symbols::symbol_of;
use goblin_mach::laws::{slot_at_of_image, slots_of_image};
use goblin_mach::slots::{SlotIterator, SlotKind, SlotSymbol, SymbolSlot};
use mach_base::{Error, Result};
use std::alloc::Global;

/// No stub and no pointer.
pub const GM_NO_SLOT: u32 = 0;

/// A pointer that is bound when the image is loaded.
pub const GM_SLOT_POINTER: u32 = 1;

/// A pointer that is bound at its first use.
pub const GM_SLOT_LAZY_POINTER: u32 = 2;

/// Code that jumps through a pointer.
pub const GM_SLOT_STUB: u32 = 3;

/// A pointer into a library that is loaded at its first use.
pub const GM_SLOT_LAZY_LIBRARY_POINTER: u32 = 4;

/// A pointer to a variable of which each thread has its own.
pub const GM_SLOT_THREAD_LOCAL_POINTER: u32 = 5;

/// A stub or a pointer that belongs to a symbol: `len` bytes at `address`, in the section at index `section_index` of the segment at
/// index `segment`. Its symbol's name is `name_len` bytes at `name`. If `code` isn't `GM_OK` it can't be read, and the rest is 0.
#[derive(Clone, Copy)]
#[repr(C)]
pub struct gm_slot {
    pub address: u64,
    pub len: u64,
    pub segment: usize,
    pub name: usize,
    pub name_len: usize,
    pub section_index: u32,
    /// `GM_SLOT_POINTER` to `GM_SLOT_THREAD_LOCAL_POINTER`.
    pub kind: u32,
    /// The index of its entry in the table of indirect symbols, the kind of the entry, and the number of its symbol, or 0.
    pub index: u32,
    pub owner: u32,
    pub symbol: u32,
    pub code: u32,
}

// Returns the number of a kind.
fn kind_number(kind: SlotKind) -> u32
    ensures { result ≡ slot_kind_number kind }
{
    match kind {
        SlotKind::Pointer => GM_SLOT_POINTER,
        SlotKind::LazyPointer => GM_SLOT_LAZY_POINTER,
        SlotKind::Stub => GM_SLOT_STUB,
        SlotKind::LazyLibraryPointer => GM_SLOT_LAZY_LIBRARY_POINTER,
        SlotKind::ThreadLocalPointer => GM_SLOT_THREAD_LOCAL_POINTER,
    }
}

// Returns the kind of a slot's entry, and the number of its symbol.
fn owner_numbers(symbol: SlotSymbol<'_>) -> (u32, u32)
    ensures owner { result.0 ≡ rows.owner_number (slot_symbol_view symbol.entry) }
    ensures symbol { result.1 ≡ rows.owner_symbol (slot_symbol_view symbol.entry) }
{
    match symbol {
        SlotSymbol::Named { index, name: _ } => (GM_INDIRECT_SYMBOL, index),
        SlotSymbol::Local => (GM_INDIRECT_LOCAL, 0),
        SlotSymbol::Absolute => (GM_INDIRECT_ABSOLUTE, 0),
        SlotSymbol::LocalAbsolute => (GM_INDIRECT_LOCAL_ABSOLUTE, 0),
    }
}

// Returns the offset of the name of a slot's symbol, and its length.
fn name_numbers(bytes: &[u8], image: &gm_image, symbol: SlotSymbol<'_>) -> (usize, usize)
    ensures { result ≡ name_of_symbol (gm_table_view bytes.now image.now) (slot_symbol_view symbol.entry) }
{
    match symbol {
        SlotSymbol::Named { index, name: _ } => {
            let found = symbol_of(bytes, image, index as usize);
            (found.name, found.name_len)
        }
        SlotSymbol::Local | SlotSymbol::Absolute | SlotSymbol::LocalAbsolute => (0, 0),
    }
}

// Returns the row that says why a slot can't be read.
fn refused_row(why: &Error) -> gm_slot
    ensures { result ≡ rows.no_slot (fault_of why.now) }
{
    gm_slot {
        address: 0,
        len: 0,
        segment: 0,
        name: 0,
        name_len: 0,
        section_index: 0,
        kind: GM_NO_SLOT,
        index: 0,
        owner: 0,
        symbol: 0,
        code: code_of(why),
    }
}

// Returns a slot as C sees it, with the name of its symbol.
fn row_of(bytes: &[u8], image: &gm_image, slot: &SymbolSlot<'_>) -> gm_slot
    ensures { result ≡ slot_row (gm_table_view bytes.now image.now) (Ok (slot_view slot.now)) }
{
    let (owner, symbol) = owner_numbers(slot.symbol);
    let (name, name_len) = name_numbers(bytes, image, slot.symbol);
    gm_slot {
        address: slot.address,
        len: slot.len,
        segment: slot.segment,
        name,
        name_len,
        section_index: slot.section,
        kind: kind_number(slot.kind),
        index: slot.index,
        owner,
        symbol,
        code: GM_OK,
    }
}

/// The slots of an image that are left.
#[derive(Clone, Copy)]
struct SlotRows<'a, 'b> {
    bytes: &'a [u8],
    image: gm_image,
    slots: SlotIterator<'a, 'b>,
}

impl<'a, 'b> Rows for SlotRows<'a, 'b> {
    type Row = gm_slot;

    ghost left = { λ it. map (slot_row (gm_table_view it.bytes.now it.image)) (slots_left it.slots) };

    fn next(&mut self) -> Option<gm_slot> {
        match self.slots.next()? {
            Ok(slot) => Some(row_of(self.bytes, &self.image, &slot)),
            Err(why) => Some(refused_row(&why)),
        }
    }
}

/// Writes the slots of an image from index `first` on, as many as there are and fit, and how many to `count`. It opens the image
/// again, allocates memory for its commands while it runs, and visits the slots before. A refused call leaves the array and the
/// count unchanged.
#[unsafe(no_mangle)]
pub extern "C" fn gmr_slots(
    alloc: Global,
    bytes: &[u8],
    image: &gm_image,
    first: usize,
    out: &mut [gm_slot],
    count: &mut usize,
    error: &mut gm_error,
) -> u32
    ensures written { result ≡ 0 → WritesSlots bytes.now image.now first out.old out.new count.new }
    ensures refused { result ≢ 0 → 0 < length out.old → IsRefusalCode (FaultIn (lossy_mode image.now.is_lossy) bytes.now image.now.offset) result }
    ensures no_rows { length out.old ≡ 0 → result ≡ 6 }
    ensures array { result ≢ 0 → out.new ≡ out.old }
    ensures count { result ≢ 0 → count.new ≡ count.old }
    ensures reported { result ≢ 0 → error.new.code ≡ result }
    ensures quiet { result ≡ 0 → error.new ≡ error.old }
{
    if out.is_empty() {
        return refuse_no_rows(error);
    }
    match open(alloc, bytes, image.offset, image.is_lossy != 0) {
        Ok(found) => {
            slots_of_image(&found);
            let mut rows = SlotRows {
                bytes,
                image: *image,
                slots: found.symbol_slots(),
            };
            skip(&mut rows, first);
            *count = fill(&mut rows, out);
            GM_OK
        }
        Err(why) => refuse(&why, error),
    }
}

// Returns the slot that holds an address, or the row for none.
fn found_row(bytes: &[u8], image: &gm_image, slot: &Option<SymbolSlot<'_>>) -> gm_slot
    ensures { result ≡ rows.slot_row_at (gm_table_view bytes.now image.now) (option_map slot_view slot.now) }
{
    match slot {
        Some(slot) => row_of(bytes, image, slot),
        None => gm_slot {
            address: 0,
            len: 0,
            segment: 0,
            name: 0,
            name_len: 0,
            section_index: 0,
            kind: GM_NO_SLOT,
            index: 0,
            owner: 0,
            symbol: 0,
            code: GM_OK,
        },
    }
}

/// Writes the stub or pointer that holds an address to `slot`; its kind is `GM_NO_SLOT` if there is none. It opens the image
/// again, and allocates memory for its commands while it runs. It is also refused if the slot can't be read. A refused call
/// leaves `slot` unchanged.
#[unsafe(no_mangle)]
pub extern "C" fn gmr_slot_at(
    alloc: Global,
    bytes: &[u8],
    image: &gm_image,
    address: u64,
    slot: &mut gm_slot,
    error: &mut gm_error,
) -> u32
    ensures found { result ≡ 0 → FindsSlot bytes.now image.now address slot.new }
    ensures refused { result ≢ 0 → IsRefusalCode (SlotFaultIn bytes.now image.now address) result }
    ensures kept { result ≢ 0 → slot.new ≡ slot.old }
    ensures reported { result ≢ 0 → error.new.code ≡ result }
    ensures quiet { result ≡ 0 → error.new ≡ error.old }
{
    match open(alloc, bytes, image.offset, image.is_lossy != 0) {
        Ok(found) => {
            slot_at_of_image(&found);
            match found.symbol_slot_at(address) {
                Ok(here) => {
                    *slot = found_row(bytes, image, &here);
                    GM_OK
                }
                Err(why) => refuse(&why, error),
            }
        }
        Err(why) => refuse(&why, error),
    }
}
