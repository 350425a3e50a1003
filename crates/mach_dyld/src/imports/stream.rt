//! Two streams of instructions, one after the other, whose binds make items by rules.

ghost use Rattle.std.specs.Prelude.{◌≡◌, ◌+◌, ◌-◌, ◌<◌, ◌≤◌, ◌^◌, [], ◌∷◌, length, min, IfOk, IfErr, IfNone, IfSome, OnOk, OnErr, Ok, Err, IsErr};
ghost use Rattle.std.specs.Prelude.{MatchOption, true, false};
ghost use Rattle.std.specs.Iterator.{YieldsFirstBy};
ghost use Rattle.mach_base.specs.Fault.{Fault, malformed};
ghost use Rattle.mach_dyld.specs.Instructions.{byte_at};
ghost use Rattle.mach_dyld.specs.NamePlaces.{NameIsSet};
ghost use Rattle.mach_dyld.specs.Streams.{Range, last_range};
ghost use Rattle.mach_dyld.specs.Machine.{Rules, ReadsForward, range_of, state_of, bind_of, input_of, executed_by, items_left, opcodes_left};
ghost use Rattle.mach_dyld.specs.Machine.{items_of, reads_of, start_of};
ghost use Rattle.mach_dyld.specs.Machine.{StopsFor, IsNextUnreadable, MakesNothing, IsAtEnd, IsMadeBy, Keeps, Fails, HasEnded, item_read};
ghost use Rattle.mach_dyld.specs.Sites.{site_by, site_in, sites_left};

use crate::imports::instruction::opcode_byte;
use crate::imports::settings::Settings;
use crate::imports::source::Source;
use crate::imports::state::State;
use mach_base::Steps;

/// The settings of such streams beyond those in `Settings`, and the rules by which binds make items.
pub trait BindRules<'a>: Copy {
    type Item: Drop;

    /// Why no item comes.
    type Why: Drop;

    // What contracts see of an item, and of the reason why none comes.
    ghost Seen: { Type 0 };

    ghost seen: { Self.Item → Seen };

    ghost fault: { Self.Why → Fault };

    ghost rules: { Rules Self Seen };

    // Each instruction takes at least one byte.
    ghost reads: { ReadsForward rules };

    /// Returns the settings at the start of a range.
    fn first(is_lazy: bool) -> Self
        ensures { result ≡ rules.first is_lazy };

    /// Changes the settings as an instruction does, by its opcode byte.
    fn set(&mut self, byte: u8)
        ensures { self.new ≡ rules.set byte self.old };

    /// Executes the next instruction, by its opcode byte. Returns None if it can't be read. A pointer has `pointer` bytes.
    fn execute(state: &mut State<'a>, bytes: &'a [u8], pointer: u8, byte: u8) -> Option<()>
        requires count { state.old.count ≡ 0 }
        requires byte { byte_at bytes.now state.old.place ≡ Ok byte }
        requires there { state.old.place + 1 ≤ length bytes.now }
        requires within { state.old.place < state.old.upto }
        ensures value { MatchOption result (IsErr (rules.read (range_of state.old) pointer bytes.now state.old.place))
            (λ _. executed_by pointer (rules.read (range_of state.old) pointer bytes.now state.old.place) (state_of state.old)
            ≡ Ok (state_of state.new)) }
        ensures place { IfNone result (state.new.place ≡ state.old.place) }
        ensures count { IfNone result (state.new.count ≡ 0) }
        ensures upto { state.new.upto ≡ state.old.upto }
        ensures from { state.new.from ≡ state.old.from }
        ensures ended { state.new.ended ≡ state.old.ended }
        ensures is_lazy { state.new.settings.is_lazy ≡ state.old.settings.is_lazy }
        ensures named { NameIsSet bytes.now state.old.settings → NameIsSet bytes.now state.new.settings }
        ensures site { IfSome result (λ _. site_by (state.old.place + 1) (rules.read (range_of state.old) pointer bytes.now state.old.place)
            (site_in state.old.settings) ≡ Ok (site_in state.new.settings)) };

    /// Returns the item that the bind with these settings makes, if any.
    fn make(self, source: &Source<'a, '_>, settings: &Settings<'a>) -> Option<Self::Item>
        ensures { MatchOption result (rules.makes (input_of source.now) (bind_of settings.now) self ≡ Err malformed)
            (λ i. rules.makes (input_of source.now) (bind_of settings.now) self ≡ Ok (seen i)) };

    /// Returns why the instruction at the state's place can't be read. `byte` is its opcode byte, if the place lies in the bytes.
    fn unreadable(state: &State<'a>, bytes: &[u8], pointer: u8, byte: u8) -> Self::Why
        requires fault { IsErr (rules.read (range_of state.now) pointer bytes.now state.now.place) }
        requires byte { state.now.place < length bytes.now → byte_at bytes.now state.now.place ≡ Ok byte }
        ensures { rules.read (range_of state.now) pointer bytes.now state.now.place ≡ Err (fault result) };

    /// Returns why a bind with these settings makes no item.
    fn refusal(self, source: &Source<'a, '_>, settings: &Settings<'a>) -> Self::Why
        ensures { fault result ≡ malformed };
}

/// Why no item comes: the next instruction, whose opcode byte this is if there is one, can't be read; or the next bind makes no item.
#[derive(Drop)]
pub enum Stop {
    Instruction(u8),
    Bind,
}

/// The rest of two streams. It allocates nothing.
#[derive(Drop)]
pub struct Stream<'a, 'b, M> {
    pub source: Source<'a, 'b>,
    pub lazy_from: usize,
    pub lazy_upto: usize,
    pub state: State<'a>,
    /// The settings beyond those in `Settings`.
    pub more: M,
}

impl<'a, 'b, M: BindRules<'a>> Stream<'a, 'b, M> {
    /// Returns two streams that have ended.
    #[tactic(auto, unfolding(crate::specs::Machine::items_left, crate::specs::Machine::items_of))]
    pub fn none(more: M) -> Self
        ensures { items_left M.rules result ≡ [] }
    {
        Stream {
            source: Source {
                bytes: &[],
                pointer: 0,
                libs: &[],
                segments: &[],
            },
            lazy_from: 0,
            lazy_upto: 0,
            state: State {
                ended: true,
                ..State::start(0, 0, true)
            },
            more,
        }
    }

    /// Returns one stream alone, from its start, with these further settings. It is read as the later one of two.
    #[tactic(auto, unfolding(crate::specs::Machine::items_left, crate::specs::Machine::opcodes_left))]
    pub fn alone(source: Source<'a, 'b>, from: usize, upto: usize, more: M) -> Self
        ensures items { items_left M.rules result ≡ items_of M.rules (input_of source.entry) (last_range from upto) more (start_of (last_range from upto)) }
        ensures reads { opcodes_left M.rules result ≡ reads_of M.rules (input_of source.entry) (last_range from upto) (start_of (last_range from upto)) }
    {
        Stream {
            source,
            lazy_from: from,
            lazy_upto: upto,
            state: State::start(from, upto, true),
            more,
        }
    }

    /// Returns the item of the next bind, if it makes one, and moves past that bind.
    #[inline(always)]
    pub fn bind(&mut self) -> Option<M::Item>
        requires count { 0 < self.old.state.count }
        requires on { self.old.state.ended ≡ false }
        ensures items { IfSome result (λ i. items_left M.rules self.old ≡ Ok (M.seen i) ∷ items_left M.rules self.new) }
        ensures reads { opcodes_left M.rules self.new ≡ opcodes_left M.rules self.old }
        ensures on { self.new.state.ended ≡ false }
        ensures none { IfNone result ((items_left M.rules self.old ≡ items_left M.rules self.new) × MakesNothing M.rules self.new) }
        ensures keeps { Keeps self.old self.new }
        ensures bound { IfSome result (λ i. IsMadeBy M.rules self.new (M.seen i)) }
        ensures site { IfSome result (λ _. sites_left M.rules self.old ≡ site_in self.new.state.settings ∷ sites_left M.rules self.new) }
    {
        let item = self.more.make(&self.source, &self.state.settings)?;
        self.state.count -= 1;
        let stride = self.state.stride;
        self.state.settings.advance(stride);
        Some(item)
    }

    // Reads the next instruction. The error is its opcode byte, if there is one.
    #[inline(always)]
    fn read(&mut self, steps: &mut Steps) -> std::result::Result<(), u8>
        requires count { self.old.state.count ≡ 0 }
        requires on { self.old.state.ended ≡ false }
        requires within { self.old.state.place < self.old.state.upto }
        ensures items { items_left M.rules self.old ≡ items_left M.rules self.new }
        ensures left { OnOk result (opcodes_left M.rules self.old ≡ opcodes_left M.rules self.new + 1) }
        ensures on { self.new.state.ended ≡ false }
        ensures err { IfErr result (IsNextUnreadable M.rules self.new) }
        ensures reads { steps.new ≡ steps.old + 1 }
        ensures is_lazy { self.new.state.settings.is_lazy ≡ self.old.state.settings.is_lazy }
        ensures keeps { Keeps self.old self.new }
        ensures sites { OnOk result (sites_left M.rules self.old ≡ sites_left M.rules self.new) }
    {
        let bytes = self.source.bytes;
        let Some(byte) = opcode_byte(bytes, self.state.place, steps) else {
            return Err(0);
        };
        match M::execute(&mut self.state, bytes, self.source.pointer, byte) {
            Some(()) => {
                self.more.set(byte);
                Ok(())
            }
            None => Err(byte),
        }
    }

    // Moves to the lazy stream.
    fn go_over(&mut self)
        requires count { self.old.state.count ≡ 0 }
        requires on { self.old.state.ended ≡ false }
        requires past { self.old.state.upto ≤ self.old.state.place }
        requires non_lazy { self.old.state.settings.is_lazy ≡ false }
        ensures items { items_left M.rules self.old ≡ items_left M.rules self.new }
        ensures reads { opcodes_left M.rules self.old ≡ opcodes_left M.rules self.new }
        ensures on { self.new.state.ended ≡ false }
        ensures is_lazy { self.new.state.settings.is_lazy ≡ true }
        ensures keeps { Keeps self.old self.new }
        ensures sites { sites_left M.rules self.old ≡ sites_left M.rules self.new }
    {
        self.state = State::start(self.lazy_from, self.lazy_upto, true);
        self.more = M::first(true);
    }

    /// Reads on to the next bind. Returns false if both streams are at their end, and an error at an instruction that can't
    /// be read: its opcode byte, if there is one.
    #[inline(always)]
    pub fn arrive(&mut self, steps: &mut Steps) -> std::result::Result<bool, u8>
        requires on { self.old.state.ended ≡ false }
        ensures items { items_left M.rules self.old ≡ items_left M.rules self.new }
        ensures reads { OnOk result (steps.new + opcodes_left M.rules self.new ≡ steps.old + opcodes_left M.rules self.old) }
        ensures bounded { OnErr result (steps.new ≤ steps.old + opcodes_left M.rules self.old + 1) }
        ensures kept { steps.old ≤ steps.new }
        ensures on { self.new.state.ended ≡ false }
        ensures there { IfOk result (λ there. there ≡ true → 0 < self.new.state.count) }
        ensures end { IfOk result (λ there. there ≡ false → IsAtEnd self.new) }
        ensures err { IfErr result (IsNextUnreadable M.rules self.new) }
        ensures keeps { Keeps self.old self.new }
        ensures sites { OnOk result (sites_left M.rules self.old ≡ sites_left M.rules self.new) }
    {
        'reading: while self.state.count == 0 {
            if self.state.place < self.state.upto {
                self.read(steps)?;
            } else if self.state.settings.is_lazy {
                return Ok(false);
            } else {
                self.go_over();
            }
        }
        Ok(true)
    }

    /// Ends the streams.
    #[inline(always)]
    pub fn finish(&mut self)
        requires { IsAtEnd self.old }
        ensures ended { self.new.state.ended ≡ true }
        ensures before { items_left M.rules self.old ≡ [] }
        ensures items { items_left M.rules self.new ≡ [] }
        ensures reads_before { opcodes_left M.rules self.old ≡ 0 }
        ensures reads { opcodes_left M.rules self.new ≡ 0 }
        ensures keeps { Keeps self.old self.new }
    {
        self.state.ended = true;
    }

    /// Returns the number of items to reserve room for: the last one, and those that its instruction still makes.
    #[inline(always)]
    pub fn room(&self) -> usize
        ensures { result ≡ min (self.now.state.count + 1) (2 ^ 64 - 1) }
    {
        (self.state.count as usize).saturating_add(1)
    }

    /// Returns the next item, or why there is none, and counts the opcodes read. At a stop the streams have not ended yet.
    #[inline(always)]
    pub fn step(&mut self, steps: &mut Steps) -> Option<std::result::Result<M::Item, Stop>>
        ensures item { IfSome result (λ item. IfOk item (λ i. items_left M.rules self.old ≡ Ok (M.seen i) ∷ items_left M.rules self.new)) }
        ensures stop { IfSome result (λ item. IfErr item (λ s.
            (items_left M.rules self.old ≡ items_left M.rules self.new) × StopsFor M.rules self.new s)) }
        ensures end { IfNone result ((items_left M.rules self.old ≡ []) × (items_left M.rules self.new ≡ [])) }
        ensures ended { IfNone result (self.new.state.ended ≡ true) }
        ensures none { IfNone result (steps.new ≡ steps.old + opcodes_left M.rules self.old) }
        ensures reads { IfSome result (λ item. OnOk item
            (steps.new + opcodes_left M.rules self.new ≡ steps.old + opcodes_left M.rules self.old)) }
        ensures bounded { IfSome result (λ item. OnErr item
            (steps.new ≤ steps.old + opcodes_left M.rules self.old + 1)) }
        ensures kept { steps.old ≤ steps.new }
        ensures keeps { Keeps self.old self.new }
        ensures bound { IfSome result (λ item. IfOk item (λ i. IsMadeBy M.rules self.new (M.seen i))) }
        ensures site { IfSome result (λ item. OnOk item (sites_left M.rules self.old ≡ site_in self.new.state.settings ∷ sites_left M.rules self.new)) }
    {
        if self.state.ended {
            return None;
        }
        match self.arrive(steps) {
            Ok(true) => {}
            Ok(false) => {
                self.finish();
                return None;
            }
            Err(byte) => return Some(Err(Stop::Instruction(byte))),
        }
        let Some(item) = self.bind() else {
            return Some(Err(Stop::Bind));
        };
        Some(Ok(item))
    }

    // Returns a copy.
    #[inline(always)]
    fn copied(&self) -> Self
        ensures { result ≡ self.now }
    {
        Stream {
            source: self.source,
            lazy_from: self.lazy_from,
            lazy_upto: self.lazy_upto,
            state: self.state,
            more: self.more,
        }
    }

    // Returns why no item comes. It takes a copy, so that a loop over items can keep the stream in registers.
    #[cold]
    #[inline(never)]
    fn error(self, stop: Stop) -> M::Why
        requires { StopsFor M.rules self stop }
        ensures { items_left M.rules self.entry ≡ Err (M.fault result) ∷ [] }
    {
        match stop {
            Stop::Instruction(byte) => {
                M::unreadable(&self.state, self.source.bytes, self.source.pointer, byte)
            }
            Stop::Bind => self.more.refusal(&self.source, &self.state.settings),
        }
    }

    /// Ends the streams at a stop, and returns the error.
    #[inline(always)]
    pub fn end_at(&mut self, stop: Stop) -> M::Why
        requires { StopsFor M.rules self.old stop }
        ensures fails { Fails M.rules self.old self.new (M.fault result) }
        ensures ended { self.new.state.ended ≡ true }
        ensures keeps { Keeps self.old self.new }
    {
        let error = self.copied().error(stop);
        self.state.ended = true;
        error
    }

    /// Returns the next item, or the fault that ends them. Adds the number of opcodes read to `steps`: in all, at most one
    /// more than can be read, and that one only at a fault.
    #[inline(always)]
    pub fn next_counted(
        &mut self,
        steps: &mut Steps,
    ) -> Option<std::result::Result<M::Item, M::Why>>
        ensures items { YieldsFirstBy (item_read M.seen M.fault) (items_left M.rules) self.old result self.new }
        ensures end { IfNone result (HasEnded M.rules self.new) }
        ensures fault { IfSome result (λ item. OnErr item (HasEnded M.rules self.new)) }
        ensures none { IfNone result (steps.new ≡ steps.old + opcodes_left M.rules self.old) }
        ensures reads { IfSome result (λ item. OnOk item
            (steps.new + opcodes_left M.rules self.new ≡ steps.old + opcodes_left M.rules self.old)) }
        ensures bounded { IfSome result (λ item. OnErr item
            (steps.new ≤ steps.old + opcodes_left M.rules self.old + 1)) }
        ensures kept { steps.old ≤ steps.new }
        ensures keeps { Keeps self.old self.new }
        ensures bound { IfSome result (λ item. IfOk item (λ i. IsMadeBy M.rules self.new (M.seen i))) }
        ensures site { IfSome result (λ item. OnOk item (sites_left M.rules self.old ≡ site_in self.new.state.settings ∷ sites_left M.rules self.new)) }
    {
        match self.step(steps) {
            None => None,
            Some(Ok(item)) => Some(Ok(item)),
            Some(Err(stop)) => Some(Err(self.end_at(stop))),
        }
    }

    /// Returns the next item, or the fault that ends them.
    #[inline(always)]
    pub fn next_item(&mut self) -> Option<std::result::Result<M::Item, M::Why>>
        ensures items { YieldsFirstBy (item_read M.seen M.fault) (items_left M.rules) self.old result self.new }
        ensures end { IfNone result (HasEnded M.rules self.new) }
        ensures fault { IfSome result (λ item. OnErr item (HasEnded M.rules self.new)) }
        ensures keeps { Keeps self.old self.new }
        ensures bound { IfSome result (λ item. IfOk item (λ i. IsMadeBy M.rules self.new (M.seen i))) }
        ensures site { IfSome result (λ item. OnOk item (sites_left M.rules self.old ≡ site_in self.new.state.settings ∷ sites_left M.rules self.new)) }
    {
        self.next_counted(&mut Steps::new())
    }
}
