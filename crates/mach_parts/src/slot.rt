//! Slots: stubs and symbol pointers.

use crate::indirect::IndirectSymbol;
use crate::slots::kind::SlotKind;

/// What a slot refers to.
#[derive(Clone, Copy, Debug)]
pub enum SlotSymbol<'a> {
    /// A symbol.
    Named {
        /// The symbol's number.
        index: u32,
        /// The symbol's name.
        name: &'a str,
    },
    /// Something local to the image. No symbol names it.
    Local,
    /// An absolute value.
    Absolute,
    /// Something local to the image, with an absolute value.
    LocalAbsolute,
}

/// A stub or a pointer that refers to a symbol.
#[derive(Clone, Copy, Debug)]
pub struct SymbolSlot<'a> {
    /// The number of its segment, from 0.
    pub segment: usize,
    /// The number of its section in the segment, from 0.
    pub section: u32,
    /// Its address.
    pub address: u64,
    /// Its size in bytes.
    pub len: u64,
    /// Its kind.
    pub kind: SlotKind,
    /// The number of its entry in the indirect symbol table.
    pub index: u32,
    /// What it refers to.
    pub symbol: SlotSymbol<'a>,
}

/// The entry of a slot: the slot's address, the entry's number, and the decoded entry.
#[derive(Clone, Copy)]
pub struct SlotEntry {
    pub address: u64,
    pub index: u32,
    pub says: IndirectSymbol,
}
