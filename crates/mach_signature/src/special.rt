//! The special slots of a code directory that seal something or have a fault.

ghost use Rattle.std.specs.Prelude.{◌≡◌};
ghost use Rattle.std.specs.Option.{option_map};
ghost use Rattle.mach_base.specs.Items.{read_as};
ghost use Rattle.mach_signature.specs.DirectoryViews.{directory_view, slot_read};
ghost use Rattle.mach_signature.specs.FaultViews.{signed_view};
ghost use Rattle.mach_signature.specs.Special as defined;
ghost use Rattle.mach_signature.specs.SpecialViews.{special_slot_view};

use crate::directory::CodeDirectory;
use crate::fault::SpecialFault;
use crate::faults::SignedBytes;
use crate::special_faults::{component, is_unsealing};
use mach_base::Result;

/// The state of a special slot.
#[derive(Clone, Copy)]
pub enum SlotState {
    /// The image has what was signed.
    AsSigned,
    /// The image has nothing for it: the slot seals another file.
    OtherFile,
    /// What the slot seals can't be read.
    Unreadable,
    /// The slot isn't known.
    Unknown,
    /// The slot seals nothing.
    Unsealed,
    /// The image has something else than what was signed.
    Changed,
    /// The slot seals something, and the image has nothing for it.
    Absent,
}

// Returns the state of a slot without a fault.
fn unfaulted_state(there: Result<Option<&[u8]>>) -> SlotState
    ensures { result ≡ defined.unfaulted_state (read_as slot_read there.entry) }
{
    match there {
        Ok(Some(_)) => SlotState::AsSigned,
        Ok(None) => SlotState::OtherFile,
        Err(_) => SlotState::Unreadable,
    }
}

// Returns the state of a slot, with or without a fault.
fn slot_state(fault: Option<SpecialFault>, there: Result<Option<&[u8]>>) -> SlotState
    ensures { result ≡ defined.slot_state fault (read_as slot_read there.entry) }
{
    match fault {
        Some(SpecialFault::Unknown { .. }) => SlotState::Unknown,
        Some(SpecialFault::Unsealed { .. }) => SlotState::Unsealed,
        Some(SpecialFault::Changed { .. }) => SlotState::Changed,
        Some(SpecialFault::Absent { .. }) => SlotState::Absent,
        None => unfaulted_state(there),
    }
}

/// A special slot, with its hash if it has one.
#[derive(Clone, Copy, Drop)]
pub struct SpecialSlot<'a> {
    /// Its number. Special slots count from 1.
    pub number: u32,
    /// Its hash.
    pub hash: &'a [u8],
    /// Its state.
    pub state: SlotState,
}

// Returns a slot if it seals something, or has a fault.
fn if_shown<'a>(
    number: u32,
    hash: &'a [u8],
    fault: Option<SpecialFault>,
    there: Result<Option<&[u8]>>,
) -> Option<SpecialSlot<'a>>
    ensures { option_map special_slot_view result ≡ defined.if_shown number hash.now fault (read_as slot_read there.entry) }
{
    if fault.is_none() && is_unsealing(hash) {
        return None;
    }
    let state = slot_state(fault, there);
    Some(SpecialSlot {
        number,
        hash,
        state,
    })
}

/// Returns the slot with a number, if it seals something, or has a fault.
pub fn shown_slot<'a>(
    signed: &SignedBytes<'a>,
    directory: &CodeDirectory<'a>,
    number: u32,
) -> Option<SpecialSlot<'a>>
    ensures { option_map special_slot_view result ≡ defined.shown_slot (signed_view signed.now) (directory_view directory.now) number }
{
    let hash = directory.special_slot(number)?;
    let fault = directory.special_fault(&signed.signature, signed.plist, number);
    let there = component(&signed.signature, signed.plist, number);
    if_shown(number, hash, fault, there)
}
