//! The special slots of a code directory: those that seal something or have a fault, and as lines some that seal nothing.

ghost use Rattle.std.specs.Prelude.{◌≡◌, Some, OnOk};
ghost use Rattle.std.specs.Option.{option_map};
ghost use Rattle.std.specs.Io.KnownBytes.{Appends};
ghost use Rattle.std.specs.Iterator.{YieldsFirstBy};
ghost use Rattle.mach_signature.specs.DirectoryViews.{directory_view};
ghost use Rattle.mach_signature.specs.FaultViews.{signed_view};
ghost use Rattle.mach_signature.specs.SpecialViews.{special_slot_view};
ghost use Rattle.machsign.specs.Special as defined;
ghost use Rattle.machsign.specs.SpecialLeft.{slot_row_text, slot_rows_left, slots_yet};

use crate::form::Form;
use mach_base::Result;
use mach_cli::{Listing, print_bytes};
use mach_signature::{CodeDirectory, SignedBytes, SlotName, SlotState, SpecialSlot, shown_slot};
use std::fmt::{Display, Formatter};
use std::io::Write;
use std::{fmt, io};

/// How many special slots are known.
pub const MOST_SLOTS: usize = 11;

// The words of the state of a special slot.
#[derive(Clone, Copy)]
struct StateText(SlotState);

impl Display for StateText {
    ghost output = { λ t. Some (defined.state_text t.0) };

    fn fmt<W: fmt::Write>(&self, f: &mut Formatter<W>) -> fmt::Result {
        f.write_str(match self.0 {
            SlotState::AsSigned => "as signed",
            SlotState::OtherFile => "of another file",
            SlotState::Unreadable => "unreadable",
            SlotState::Unknown => "not known",
            SlotState::Unsealed => "not sealed",
            SlotState::Changed => "not what was signed",
            SlotState::Absent => "sealed, and absent",
        })
    }
}

// The words of a line before the state of a slot that seals something.
#[derive(Clone, Copy)]
struct SealedText(SlotState);

impl Display for SealedText {
    ghost output = { λ t. Some (defined.sealed_text t.0) };

    fn fmt<W: fmt::Write>(&self, f: &mut Formatter<W>) -> fmt::Result {
        f.write_str(match self.0 {
            SlotState::AsSigned
            | SlotState::OtherFile
            | SlotState::Unreadable
            | SlotState::Changed => "sealed, ",
            SlotState::Unknown | SlotState::Unsealed | SlotState::Absent => "",
        })
    }
}

// Whether a slot has a line even if it seals nothing: the Info.plist, the requirements, the resources, or entitlements.
fn has_line(number: u32) -> bool
    ensures { result ≡ defined.has_line number }
{
    number == 1 || number == 2 || number == 3 || number == 5 || number == 7
}

// Returns a slot that has a line: a shown one, or one that seals nothing.
fn or_unsealed<'a>(number: u32, shown: Option<SpecialSlot<'a>>) -> Option<SpecialSlot<'a>>
    ensures { option_map special_slot_view result ≡ defined.or_unsealed number (option_map special_slot_view shown.entry) }
{
    if shown.is_some() || !has_line(number) {
        return shown;
    }
    Some(SpecialSlot {
        number,
        hash: &[],
        state: SlotState::Unsealed,
    })
}

/// The known special slots of a directory in a form, in order, one at a time. Objects are those that seal something or have a
/// fault; lines are also some that seal nothing.
#[derive(Clone, Copy)]
pub struct SpecialSlots<'a> {
    signed: SignedBytes<'a>,
    directory: CodeDirectory<'a>,
    form: Form,
    // How many slots were visited.
    taken: u32,
}

impl<'a> SpecialSlots<'a> {
    /// Returns the slots of an image's directory.
    pub fn of(signed: &SignedBytes<'a>, directory: &CodeDirectory<'a>, form: Form) -> Self
        ensures slots { slots_yet result ≡ defined.slots_in form (signed_view signed.now) (directory_view directory.now) }
        ensures form { result.form ≡ form }
    {
        SpecialSlots {
            signed: *signed,
            directory: *directory,
            form,
            taken: 0,
        }
    }

    // Returns the slot with a number, if it is one of the form.
    fn slot(&self, number: u32) -> Option<SpecialSlot<'a>>
        ensures { option_map special_slot_view result ≡ defined.slot_in self.now.form (signed_view self.now.signed) (directory_view self.now.directory) number }
    {
        let shown = shown_slot(&self.signed, &self.directory, number);
        match self.form {
            Form::Lines => or_unsealed(number, shown),
            Form::Objects => shown,
        }
    }

    // Returns the next slot.
    #[tactic(auto, using(mach_signature::proofs::NumberedLists::reported_first, mach_signature::proofs::NumberedLists::reported_none))]
    fn take_next(&mut self) -> Option<SpecialSlot<'a>>
        ensures slot { YieldsFirstBy special_slot_view slots_yet self.old result self.new }
        ensures form { self.new.form ≡ self.old.form }
    {
        'slots: while self.taken < 11 {
            self.taken += 1;
            if let Some(slot) = self.slot(self.taken) {
                return Some(slot);
            }
        }
        None
    }
}

/// A slot, and the form in which it is written.
#[derive(Clone, Copy, Drop)]
pub struct SlotRow<'a> {
    form: Form,
    slot: SpecialSlot<'a>,
}

impl<'a> Listing for SpecialSlots<'a> {
    type Row = SlotRow<'a>;

    ghost text = { slot_row_text };

    ghost left = { slot_rows_left };

    fn next_row(&mut self) -> Option<Result<SlotRow<'a>>> {
        let form = self.form;
        match self.take_next() {
            Some(slot) => Some(Ok(SlotRow { form, slot })),
            None => None,
        }
    }

    fn past(&self) -> usize {
        0
    }

    fn past_name(&self) -> &'static str {
        ""
    }

    fn write_row<O: Write>(row: &SlotRow<'a>, out: &mut O) -> io::Result<()>
        ensures { OnOk result (Appends (O.contents out.old) (O.contents out.new) (slot_row_text row.now)) }
    {
        match row.form {
            Form::Lines => print_line(&row.slot, out),
            Form::Objects => write_object(&row.slot, out),
        }
    }
}

// Prints the line of a slot.
fn print_line<O: Write>(slot: &SpecialSlot<'_>, out: &mut O) -> io::Result<()>
    ensures { OnOk result (Appends (O.contents out.old) (O.contents out.new) (defined.slot_line (special_slot_view slot.now))) }
{
    let (name, state) = (SlotName(slot.number), StateText(slot.state));
    let sealed = SealedText(slot.state);
    write!(out, "  {name}: {sealed}{state}")?;
    print_hash(slot.state, slot.hash, out)
}

// Prints the hash of a slot that seals another file.
fn print_hash<O: Write>(state: SlotState, hash: &[u8], out: &mut O) -> io::Result<()>
    ensures { OnOk result (Appends (O.contents out.old) (O.contents out.new) (defined.hash_after state hash.now)) }
{
    match state {
        SlotState::OtherFile => {
            write!(out, ", ")?;
            print_bytes(hash, out)
        }
        _ => Ok(()),
    }
}

// Writes the object of a slot.
fn write_object<O: Write>(slot: &SpecialSlot<'_>, out: &mut O) -> io::Result<()>
    ensures { OnOk result (Appends (O.contents out.old) (O.contents out.new) (defined.special_slot_object (special_slot_view slot.now))) }
{
    let (number, name, state) = (slot.number, SlotName(slot.number), StateText(slot.state));
    write!(out, "{{\"hash\":\"")?;
    print_bytes(slot.hash, out)?;
    write!(
        out,
        "\",\"name\":\"{name}\",\"slot\":{number},\"state\":\"{state}\"}}"
    )
}
