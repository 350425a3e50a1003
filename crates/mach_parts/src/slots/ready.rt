//! Slots of one section that are known to have entries, because that was tested once for all of them.

ghost use Rattle.std.specs.Prelude.{◌≡◌, ◌+◌, ◌-◌, ◌*◌, ◌<◌, ◌≤◌, ◌%◌, ◌^◌, ◌++◌, suc, drop, IfNone, IfSome};
ghost use Rattle.mach_parts.specs.SlotViews.{indirect_table_of};
ghost use Rattle.mach_parts.specs.Slots.{SlotTables, slots_from};
ghost use Rattle.mach_parts.specs.ReadySlots.{ready_count, ready_entry, ready_left};

use crate::indirect::IndirectSymbols;
use crate::slot::SlotEntry;
use crate::slots::kind::{SlotKind, SlotRun};

/// Slots that lie one after another, and whose entries are in the table and in the bytes.
#[derive(Clone, Copy)]
pub struct ReadySlots<'a> {
    pub run: SlotRun,
    /// The bytes of their entries.
    pub entries: &'a [u8],
    /// The number of the first slot's entry, and the slot's address.
    pub index: u32,
    pub address: u64,
}

// Returns a number of slots whose addresses, and the address after them, fit 64 bits.
fn count_addressed(run: &SlotRun) -> u64
    ensures { run.now.address + result * run.now.len < 2 ^ 64 }
{
    match (u64::MAX - run.address).checked_div(run.len) {
        Some(most) => most,
        None => 0,
    }
}

// Returns a number of slots, from the first on, that surely have addresses of 64 bits. Their
// entries are among the first `count` of the table and within `room` bytes from the first entry on.
fn count_ready(run: &SlotRun, count: u32, room: usize) -> u64
    ensures within { result ≤ run.now.count }
    ensures addresses { run.now.address + result * run.now.len < 2 ^ 64 }
    ensures entries { result ≤ count - run.now.first }
    ensures bytes { 4 * result ≤ room }
{
    let entered = u64::from(count.saturating_sub(run.first));
    let there = entered.min(room as u64 / 4);
    run.count.min(there).min(count_addressed(run))
}

impl<'a> ReadySlots<'a> {
    /// Returns no slots.
    pub fn none() -> Self
        ensures { ready_count result ≡ 0 }
    {
        ReadySlots {
            run: SlotRun {
                segment: 0,
                section: 0,
                kind: SlotKind::Pointer,
                address: 0,
                len: 0,
                first: 0,
                count: 0,
            },
            entries: &[],
            address: 0,
            index: 0,
        }
    }

    /// Returns such slots of a section, from the first on.
    pub fn of(run: &SlotRun, table: &IndirectSymbols<'a>) -> Self
        ensures within { ready_count result ≤ run.now.count }
        ensures slots { (t : SlotTables) → t.indirect ≡ indirect_table_of table.now
            → ready_left t result ++ slots_from t run.now (run.now.count - ready_count result) (ready_count result) ≡ slots_from t run.now run.now.count 0 }
    {
        let Some(entries) = table.entries_from(run.first) else {
            return ReadySlots::none();
        };
        let count = count_ready(run, table.len(), entries.len());
        ReadySlots {
            run: *run,
            entries: &entries[..4 * count as usize],
            address: run.address,
            index: run.first,
        }
    }

    /// Returns how many there are.
    pub fn len(&self) -> u64
        ensures { result ≡ ready_count self.now }
    {
        self.entries.len() as u64 / 4
    }

    /// Returns the first slot's entry.
    #[inline(always)]
    pub fn first(&self, table: &IndirectSymbols<'a>) -> Option<SlotEntry>
        ensures none { IfNone result (ready_count self.now ≡ 0) }
        ensures some { IfSome result (λ _. 0 < ready_count self.now) }
        ensures entry { IfSome result (λ e. e ≡ ready_entry (indirect_table_of table.now) self.now.entries.now self.now.address self.now.index) }
    {
        if self.entries.len() < 4 {
            return None;
        }
        Some(SlotEntry {
            address: self.address,
            index: self.index,
            says: table.first_of(self.entries),
        })
    }

    /// Goes on to the slot after the first.
    #[inline(always)]
    pub fn pass(&mut self)
        requires { 0 < ready_count self.old }
        ensures count { ready_count self.old ≡ suc (ready_count self.new) }
        ensures entries { self.new.entries.now ≡ drop 4 self.old.entries.now }
        ensures address { self.new.address ≡ (self.old.address + self.old.run.len) % 2 ^ 64 }
        ensures index { self.new.index ≡ (self.old.index + 1) % 2 ^ 32 }
        ensures run { self.new.run ≡ self.old.run }
    {
        self.entries = &self.entries[4..];
        self.address = self.address.wrapping_add(self.run.len);
        self.index = self.index.wrapping_add(1);
    }
}
