//! The kinds of slots, and the slots of a section (`mach-o/loader.h`, struct section).

ghost use Rattle.std.specs.Prelude.{◌≡◌, ◌*◌, ◌+◌, ◌<◌, ◌^◌, Some, None, nat_lt, if◌then◌else◌};
ghost use Rattle.mach_base.specs.Answer.{Reads};
ghost use Rattle.mach_parts.specs.SlotSections.{slot_kind, slot_len, slot_run, run_of};

use crate::segment::NumberedSection;
use mach_base::{Ctx, Error, Result};
use mach_records::Section64;
use mach_records::constants::SECTION_TYPE;

const S_NON_LAZY_SYMBOL_POINTERS: u32 = 0x6;

const S_LAZY_SYMBOL_POINTERS: u32 = 0x7;

const S_SYMBOL_STUBS: u32 = 0x8;

const S_LAZY_DYLIB_SYMBOL_POINTERS: u32 = 0x10;

const S_THREAD_LOCAL_VARIABLE_POINTERS: u32 = 0x14;

/// The kind of a slot.
#[derive(Clone, Copy, Debug)]
pub enum SlotKind {
    /// A pointer that is bound at load time.
    Pointer,
    /// A pointer that is bound at its first use.
    LazyPointer,
    /// Code that jumps through a pointer.
    Stub,
    /// A pointer into a library that is loaded at its first use.
    LazyLibraryPointer,
    /// A pointer to a thread-local variable.
    ThreadLocalPointer,
}

impl SlotKind {
    /// Returns the kind of the slots in a section with these flags, if it has slots.
    pub fn of(flags: u32) -> Option<SlotKind>
        ensures { result ≡ slot_kind flags }
    {
        match flags & SECTION_TYPE {
            S_NON_LAZY_SYMBOL_POINTERS => Some(SlotKind::Pointer),
            S_LAZY_SYMBOL_POINTERS => Some(SlotKind::LazyPointer),
            S_SYMBOL_STUBS => Some(SlotKind::Stub),
            S_LAZY_DYLIB_SYMBOL_POINTERS => Some(SlotKind::LazyLibraryPointer),
            S_THREAD_LOCAL_VARIABLE_POINTERS => Some(SlotKind::ThreadLocalPointer),
            _ => None,
        }
    }

    // Returns the size of a slot in bytes.
    fn len(self, ctx: Ctx, section: &Section64) -> u64
        ensures { result ≡ slot_len ctx.container self section.now }
    {
        match self {
            SlotKind::Stub => u64::from(section.reserved2),
            _ => ctx.size() as u64,
        }
    }
}

/// The slots of a section, one after another, as many as it has room for.
#[derive(Clone, Copy, Debug)]
pub struct SlotRun {
    /// The number of the section's segment, from 0.
    pub segment: usize,
    /// The section's number in its segment, from 0.
    pub section: u32,
    pub kind: SlotKind,
    /// The address of the first slot.
    pub address: u64,
    /// The size of a slot in bytes.
    pub len: u64,
    /// The number of the first slot's entry in the indirect symbol table.
    pub first: u32,
    /// How many slots there are.
    pub count: u64,
}

impl SlotRun {
    // Returns the slots of a section whose slots are of this kind. Fails if their size is 0.
    fn of_kind(ctx: Ctx, n: &NumberedSection, kind: SlotKind) -> Result<SlotRun>
        ensures { Reads (λ r. r) result (slot_run ctx.container n.now kind) }
    {
        let len = kind.len(ctx, &n.section);
        if len == 0 {
            return Err(Error::Malformed("the size of a stub is 0"));
        }
        Ok(SlotRun {
            segment: n.segment,
            section: n.number,
            kind,
            address: n.section.addr,
            len,
            first: n.section.reserved1,
            count: n.section.size / len,
        })
    }

    /// Returns the slots of a section, if it has any. Fails if their size is 0.
    pub fn of(ctx: Ctx, n: &NumberedSection) -> Result<Option<SlotRun>>
        ensures { Reads (λ r. r) result (run_of ctx.container n.now) }
    {
        let Some(kind) = SlotKind::of(n.section.flags) else {
            return Ok(None);
        };
        if n.section.size == 0 {
            return Ok(None);
        }
        let run = SlotRun::of_kind(ctx, n, kind)?;
        Ok(Some(run))
    }

    /// Returns the address of slot `j`, if it fits 64 bits.
    #[inline(always)]
    pub fn address_of(&self, j: u64) -> Option<u64>
        ensures { result ≡ (if nat_lt (self.now.address + j * self.now.len) (2 ^ 64) then Some (self.now.address + j * self.now.len) else None) }
    {
        let before = j.checked_mul(self.len)?;
        self.address.checked_add(before)
    }

    /// Returns the number of slot `j`'s entry, if it is below `count`.
    #[inline(always)]
    pub fn entry_of(&self, j: u64, count: u32) -> Option<u32>
        ensures { result ≡ (if nat_lt (self.now.first + j) count then Some (self.now.first + j) else None) }
    {
        let number = u64::from(self.first).checked_add(j)?;
        if number < u64::from(count) {
            Some(number as u32)
        } else {
            None
        }
    }
}
