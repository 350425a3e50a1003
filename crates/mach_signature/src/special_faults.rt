//! The faults of the special slots of a directory, and of blobs that no slot seals.

ghost use Rattle.std.specs.Prelude.{◌≡◌, Option};
ghost use Rattle.std.specs.Option.{option_map};
ghost use Rattle.mach_base.specs.Answer.{Reads};
ghost use Rattle.mach_signature.specs.DirectoryViews.{directory_view, slot_read};
ghost use Rattle.mach_signature.specs.SignViews.{signature_view};
ghost use Rattle.mach_signature.specs.SpecialFaults as defined;
ghost use Rattle.mach_signature.specs.SpecialFaultViews.{special_faults_left};

use crate::directory::CodeDirectory;
use crate::fault::SpecialFault;
use crate::numbered::{Numbered, NumberedFaults};
use crate::signature::CodeSignature;
use crate::slots::is_outside;
use mach_base::Result;

/// Whether a slot seals nothing: all its bytes are zero.
pub fn is_unsealing(slot: &[u8]) -> bool
    ensures { result ≡ defined.is_unsealing slot.now }
{
    slot.iter().all(|byte| *byte == 0)
}

/// Returns what a special slot seals in the image: the first blob of the slot, with its head. For slot 1 without a blob it is
/// `plist`, the section `__info_plist` of `__TEXT`.
#[tactic(auto, unfolding(crate::specs::SpecialFaults::component_of))]
pub fn component<'a>(
    signature: &CodeSignature<'a>,
    plist: Option<&'a [u8]>,
    slot: u32,
) -> Result<Option<&'a [u8]>>
    ensures { Reads slot_read result (defined.component_of (signature_view signature.now) (slot_read plist.entry) slot) }
{
    match signature.blob(slot)? {
        Some(blob) => Ok(Some(blob.bytes)),
        None if slot == 1 => Ok(plist),
        None => Ok(None),
    }
}

// The special slots of a directory, and what they seal.
#[derive(Clone, Copy, Drop)]
pub struct SpecialSlots<'a> {
    pub directory: CodeDirectory<'a>,
    pub signature: CodeSignature<'a>,
    pub plist: Option<&'a [u8]>,
}

impl<'a> SpecialSlots<'a> {
    // Returns the fault of a known slot, if it has one.
    fn sealed_fault(&self, number: u32, slot: &[u8]) -> Option<SpecialFault>
        ensures { result ≡ defined.sealed_fault (directory_view self.now.directory) number slot.now
            (defined.component_of (signature_view self.now.signature) (slot_read self.now.plist) number) }
    {
        match component(&self.signature, self.plist, number) {
            Err(_) => None,
            Ok(Some(bytes)) => {
                if is_unsealing(slot) {
                    Some(SpecialFault::Unsealed { slot: number })
                } else if self.directory.hash.seals(bytes, slot) {
                    None
                } else {
                    Some(SpecialFault::Changed { slot: number })
                }
            }
            Ok(None) => {
                if is_unsealing(slot) || is_outside(number) {
                    None
                } else {
                    Some(SpecialFault::Absent { slot: number })
                }
            }
        }
    }

    // Returns the fault of a slot, if it has one.
    #[tactic(auto, unfolding(crate::specs::SpecialFaults::special_fault))]
    fn slot_fault(&self, number: u32) -> Option<SpecialFault>
        ensures { result ≡ defined.special_fault (directory_view self.now.directory) (signature_view self.now.signature) (slot_read self.now.plist) number }
    {
        let slot = self.directory.special_slot(number)?;
        if number <= 11 {
            return self.sealed_fault(number, slot);
        }
        if is_unsealing(slot) {
            return None;
        }
        Some(SpecialFault::Unknown { slot: number })
    }
}

impl<'a> Numbered for SpecialSlots<'a> {
    type Item = SpecialFault;

    ghost use Rattle.mach_signature.specs.declared.fault.SpecialFault.{SpecialFault};
    ghost use Rattle.mach_signature.specs.SpecialFaultViews.{special_slots_reported, special_slot_reported};

    ghost View = { SpecialFault };

    ghost view = { λ fault. fault };

    ghost count = { special_slots_reported };

    ghost reports = { special_slot_reported };

    fn count(&self) -> u32 {
        self.directory.head.n_special_slots
    }

    fn report(&self, number: u32) -> Option<SpecialFault> {
        // (the number is below the count, so that of the slot is one of 32 bits)
        let _count = self.directory.head.n_special_slots;
        self.slot_fault(number + 1)
    }
}

// The blobs of a signature. Each should have its hash in the directory.
#[derive(Clone, Copy, Drop)]
pub struct Entries<'a> {
    pub directory: CodeDirectory<'a>,
    pub signature: CodeSignature<'a>,
}

impl<'a> Numbered for Entries<'a> {
    type Item = SpecialFault;

    ghost use Rattle.mach_signature.specs.declared.fault.SpecialFault.{SpecialFault};
    ghost use Rattle.mach_signature.specs.SpecialFaultViews.{entries_reported, entry_reported};

    ghost View = { SpecialFault };

    ghost view = { λ fault. fault };

    ghost count = { entries_reported };

    ghost reports = { entry_reported };

    fn count(&self) -> u32 {
        self.signature.count
    }

    fn report(&self, number: u32) -> Option<SpecialFault> {
        let slot = self.signature.slot(number);
        if 12 <= slot && slot <= 0xfff {
            return Some(SpecialFault::Unknown { slot });
        }
        if 1 <= slot && slot <= 11 && slot > self.directory.head.n_special_slots {
            return Some(SpecialFault::Unsealed { slot });
        }
        None
    }
}

/// An iterator over the faults of the special slots, from 1 on, and then of the blobs that no slot seals, in the order of the index.
#[derive(Clone, Drop)]
pub struct SpecialFaults<'a> {
    pub(crate) slots: NumberedFaults<SpecialSlots<'a>>,
    pub(crate) entries: NumberedFaults<Entries<'a>>,
}

impl<'a> Iterator for SpecialFaults<'a> {
    type Item = SpecialFault;

    ghost use Rattle.std.specs.Iterator.{YieldsFirst, item_count};

    ghost next_gives = { YieldsFirst special_faults_left };

    ghost remaining = { item_count special_faults_left };

    fn next(&mut self) -> Option<SpecialFault> {
        if let Some(fault) = self.slots.take_next() {
            return Some(fault);
        }
        self.entries.take_next()
    }
}

impl<'a> CodeDirectory<'a> {
    /// Returns the fault of one special slot, if it has one. Slots count from 1. `plist` is as for `special_faults`.
    pub fn special_fault(
        &self,
        signature: &CodeSignature<'a>,
        plist: Option<&'a [u8]>,
        number: u32,
    ) -> Option<SpecialFault>
        ensures { result ≡ defined.special_fault (directory_view self.now) (signature_view signature.now) (slot_read plist.entry) number }
    {
        let slots = SpecialSlots {
            directory: *self,
            signature: *signature,
            plist,
        };
        slots.slot_fault(number)
    }

    /// Returns the faults of the special slots and of the blobs that no slot seals, in order. `plist` is the section
    /// `__info_plist` of `__TEXT`, if the image has one. There are none exactly when each slot seals what is there.
    pub fn special_faults(
        &self,
        signature: &CodeSignature<'a>,
        plist: Option<&'a [u8]>,
    ) -> SpecialFaults<'a>
        ensures { special_faults_left result ≡ defined.special_faults_of (directory_view self.now) (signature_view signature.now) (slot_read plist.entry) }
    {
        SpecialFaults {
            slots: NumberedFaults::of(SpecialSlots {
                directory: *self,
                signature: *signature,
                plist,
            }),
            entries: NumberedFaults::of(Entries {
                directory: *self,
                signature: *signature,
            }),
        }
    }
}
