//! The slots of an image, one at a time.

ghost use Rattle.std.specs.Prelude.{◌≡◌, ◌∷◌, ◌++◌, [], Err, Ok, OnOk, IfErr, IfNone, IfOk, IfSome, MatchOption, flat_map, map};
ghost use Rattle.std.specs.Iterator.{YieldsFirstBy};
ghost use Rattle.mach_base.specs.Fault.{fault_of};
ghost use Rattle.mach_parts.specs.Segment.{segment_view};
ghost use Rattle.mach_parts.specs.SlotViews.{held_tables_of, slot_tables_of, slot_view};
ghost use Rattle.mach_parts.specs.Slots.{slots_of, read_slots};
ghost use Rattle.mach_parts.specs.ReadySlots.{ready_left};
ghost use Rattle.mach_parts.specs.SlotsLeft.{symbol_slot_read, open_slots_left, section_left, slots_left};

pub(crate) mod kind;
pub(crate) mod look_up;
pub(crate) mod ready;
pub(crate) mod source;

use crate::indirect::IndirectSymbols;
use crate::segment::{NumberedSection, NumberedSections, Segment};
use crate::slot::SymbolSlot;
use crate::slots::kind::SlotRun;
use crate::slots::ready::ReadySlots;
use crate::slots::source::{HeldSource, SlotSource};
use mach_base::{Ctx, Endian, Result};

/// An iterator over the slots of an image's sections, in order, each with its symbol. An error takes the place of a slot, of the
/// slots of a section from the first without an address or an entry on, or of a section that cannot be read. It allocates no memory.
#[derive(Clone, Copy)]
pub struct SlotIterator<'a, 'b> {
    source: HeldSource<'a>,
    sections: NumberedSections<'a, 'b>,
    // The slots of the current section that are known to have entries; the section; and the number of the slot after these.
    ready: ReadySlots<'a>,
    run: Option<SlotRun>,
    next_slot: u64,
}

impl<'a, 'b> SlotIterator<'a, 'b> {
    /// Builds an iterator over the slots in the sections of some segments.
    pub fn new(source: SlotSource<'a, 'b>, segments: &'b [Segment<'a>]) -> Self
        ensures { slots_left result ≡ slots_of (slot_tables_of source.entry) (map segment_view segments.now) }
    {
        SlotIterator {
            source: source.held(),
            sections: NumberedSections::new(segments),
            ready: ReadySlots::none(),
            run: None,
            next_slot: 0,
        }
    }

    // Returns the next slot that is known to have an entry, if it is found by the fast path.
    #[inline(always)]
    fn quick_slot(&mut self) -> Option<SymbolSlot<'a>>
        ensures some { IfSome result (λ slot. ready_left (held_tables_of self.old.source) self.old.ready
            ≡ Ok (slot_view slot) ∷ ready_left (held_tables_of self.old.source) self.new.ready) }
        ensures none { IfNone result (self.new ≡ self.old) }
        ensures run { self.new.run ≡ self.old.run }
        ensures number { self.new.next_slot ≡ self.old.next_slot }
        ensures sections { self.new.sections ≡ self.old.sections }
        ensures source { self.new.source ≡ self.old.source }
    {
        let entry = self.ready.first(&self.source.indirect)?;
        let slot = self.source.quick_slot(&self.ready.run, &entry)?;
        self.ready.pass();
        Some(slot)
    }

    // Returns the next slot that is known to have an entry.
    fn ready_slot(&mut self) -> Option<Result<SymbolSlot<'a>>>
        ensures ready { MatchOption result (ready_left (held_tables_of self.old.source) self.old.ready ≡ [])
            (λ item. ready_left (held_tables_of self.old.source) self.old.ready
            ≡ symbol_slot_read item ∷ ready_left (held_tables_of self.old.source) self.new.ready) }
        ensures none { IfNone result (self.new ≡ self.old) }
        ensures run { self.new.run ≡ self.old.run }
        ensures number { self.new.next_slot ≡ self.old.next_slot }
        ensures sections { self.new.sections ≡ self.old.sections }
        ensures source { self.new.source ≡ self.old.source }
    {
        let Some(entry) = self.ready.first(&self.source.indirect) else {
            return None;
        };
        self.ready.pass();
        Some(self.source.slot(&self.ready.run, &entry))
    }

    // Returns the next slot of the current section after those.
    fn take(&mut self) -> Option<Result<SymbolSlot<'a>>>
        ensures open { MatchOption result (open_slots_left self.old ≡ [])
            (λ item. open_slots_left self.old ≡ symbol_slot_read item ∷ open_slots_left self.new) }
        ensures none { IfNone result (self.new ≡ self.old) }
        ensures ready { self.new.ready ≡ self.old.ready }
        ensures sections { self.new.sections ≡ self.old.sections }
        ensures source { self.new.source ≡ self.old.source }
    {
        let run = self.run?;
        if self.next_slot >= run.count {
            return None;
        }
        match self.source.entry(&run, self.next_slot) {
            Ok(entry) => {
                self.next_slot += 1;
                Some(self.source.slot(&run, &entry))
            }
            Err(e) => {
                self.run = None;
                Some(Err(e))
            }
        }
    }

    // Opens the next section.
    fn open(&mut self, section: &NumberedSection) -> Result<()>
        requires { ready_left (held_tables_of self.old.source) self.old.ready ≡ [] }
        ensures opened { IfOk result (λ _. section_left self.new ≡ read_slots (held_tables_of self.old.source) section.now) }
        ensures refused { IfErr result (λ e. read_slots (held_tables_of self.old.source) section.now ≡ Err (fault_of e) ∷ []) }
        ensures closed { IfErr result (λ _. section_left self.new ≡ []) }
        ensures sections { self.new.sections ≡ self.old.sections }
        ensures source { self.new.source ≡ self.old.source }
    {
        self.run = None;
        self.next_slot = 0;
        match SlotRun::of(self.source.ctx, section) {
            Ok(Some(run)) => {
                self.ready = ReadySlots::of(&run, &self.source.indirect);
                self.next_slot = self.ready.len();
                self.run = Some(run);
                Ok(())
            }
            Ok(None) => Ok(()),
            Err(e) => Err(e),
        }
    }

    // Returns the next slot. It tries the fast path first.
    #[inline(always)]
    fn next_item(&mut self) -> Option<Result<SymbolSlot<'a>>>
        ensures { YieldsFirstBy symbol_slot_read slots_left self.old result self.new }
    {
        match self.quick_slot() {
            Some(slot) => Some(Ok(slot)),
            None => self.next_of_later(),
        }
    }

    // Returns the next slot, which may be in a later section. It works on a
    // copy, so that a loop over slots can keep the iterator in registers.
    #[inline(always)]
    fn next_of_later(&mut self) -> Option<Result<SymbolSlot<'a>>>
        ensures { YieldsFirstBy symbol_slot_read slots_left self.old result self.new }
    {
        let (item, left) = self.later();
        *self = left;
        item
    }

    // Returns the next slot and the rest of the iterator after it.
    #[cold]
    #[inline(never)]
    fn later(self) -> (Option<Result<SymbolSlot<'a>>>, Self)
        ensures { YieldsFirstBy symbol_slot_read slots_left self.entry result.0 result.1 }
    {
        let mut left = self;
        let item = left.seek();
        (item, left)
    }

    // Goes on to the next section that has a slot if the current one has none left.
    fn seek(&mut self) -> Option<Result<SymbolSlot<'a>>>
        ensures { YieldsFirstBy symbol_slot_read slots_left self.old result self.new }
    {
        'sections: loop {
            if let Some(item) = self.ready_slot() {
                return Some(item);
            }
            if let Some(item) = self.take() {
                return Some(item);
            }
            self.run = None;
            match self.sections.next() {
                None => return None,
                Some(Ok(section)) => match self.open(&section) {
                    Ok(()) => {}
                    Err(e) => return Some(Err(e)),
                },
                Some(Err(e)) => return Some(Err(e)),
            }
        }
    }
}

impl Default for SlotIterator<'_, '_> {
    ghost is_default = { λ it. slots_left it ≡ [] };

    /// Returns an iterator without slots.
    fn default() -> Self {
        let source = SlotSource {
            indirect: IndirectSymbols::new(&[], 0, 0, Endian::Little),
            symbols: None,
            ctx: Ctx::default(),
        };
        SlotIterator::new(source, &[])
    }
}

impl<'a, 'b> Iterator for SlotIterator<'a, 'b> {
    type Item = Result<SymbolSlot<'a>>;

    ghost use Rattle.std.specs.Iterator.{item_count};

    ghost next_gives = { YieldsFirstBy symbol_slot_read slots_left };

    ghost remaining = { item_count slots_left };

    #[inline(always)]
    fn next(&mut self) -> Option<Result<SymbolSlot<'a>>> {
        self.next_item()
    }
}
