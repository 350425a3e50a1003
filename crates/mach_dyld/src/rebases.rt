//! Rebases from opcodes, as dyld reads them, one at a time.

ghost use Rattle.std.specs.Prelude.{◌≡◌, ◌⊎◌, ◌<◌, ◌+◌, ◌≤◌, ◌%◌, ◌^◌, ◌∷◌, ℕ, List, [], true, false, length, map, Ok, Err, IsOk, IsErr, IfOk, IfErr};
ghost use Rattle.std.specs.Prelude.{IfSome, IfNone, MatchOption, OnOk};
ghost use Rattle.std.specs.Prelude.{OnErr, bit_and};
ghost use Rattle.std.specs.Iterator.{YieldsFirstBy};
ghost use Rattle.mach_base.specs.Context.{pointer_size};
ghost use Rattle.mach_base.specs.declared.context.Endian.TheVariants as order;
ghost use Rattle.mach_base.specs.Fault.{malformed, fault_of};
ghost use Rattle.mach_parts.specs.Segment.{segment_view};
ghost use Rattle.mach_dyld.specs.Instructions.{byte_at};
ghost use Rattle.mach_dyld.specs.Machine.{StopsFor, executed_by, range_of, state_of};
ghost use Rattle.mach_dyld.specs.NamePlaces.{NameIsSet};
ghost use Rattle.mach_dyld.specs.Sites.{site_by, site_in};
ghost use Rattle.mach_dyld.specs.Streams.{Placed, Range};
ghost use Rattle.mach_dyld.specs.Cut.{cut_stream, cut_input, cut_range};
ghost use Rattle.mach_dyld.specs.Rebases as defined;
ghost use Rattle.mach_dyld.specs.Rebases.{AreOpcodeRebases, rebase_kind_of, rebase_opcode_at, rebase_row, rebase_width};
ghost use Rattle.mach_dyld.specs.RebasesLeft.{HasEndedRebases, opcode_rebases_left, rebase_read, rebase_reads_left, rebase_rules};
ghost use Rattle.mach_dyld.specs.RebasesLeft.{first_rebasing, rebasing_after};

mod faults;
mod memory;
pub mod rebase_run;

use crate::bind_opcodes::Opcode;
use crate::bindings::holds_all;
use crate::machine::{BindRules, Settings, Source, State, Stop, Stream};
use crate::rebase_opcodes::*;
use crate::rebases::memory::memory_number;
use crate::rebases::rebase_run::Run;
use crate::stream_prefix::Cut;
use mach_base::{ByteCount, Ctx, Endian, Error, Result, ScrollError, Steps, quick_uleb, uleb};
use mach_parts::binding::PointerAuth;
use mach_parts::segment::Segment;
use mach_records::DyldInfoCommand;
use std::fmt;
use std::marker::Model;

/// The kind of value that is corrected.
#[derive(Clone, Copy, Debug, PartialEq)]
pub enum RebaseKind {
    /// A pointer.
    Pointer,
    /// An absolute address of 32 bits in code.
    TextAbsolute32,
    /// A relative address of 32 bits in code.
    TextRelative32,
}

/// A place in memory whose value dyld corrects by the distance that the image was moved.
#[derive(Clone, Copy, Debug)]
pub struct Rebase {
    /// The number of the segment.
    pub segment: u32,
    /// The place in the segment.
    pub offset: u64,
    /// The address in memory.
    pub address: u64,
    /// The value at that place before it is corrected.
    pub target: u64,
    /// The kind of value.
    pub kind: RebaseKind,
    /// How the pointer is signed, if it is.
    pub auth: Option<PointerAuth>,
}

/// Bytes with the range of their stream of rebases.
#[derive(Drop)]
pub struct RebaseStream<'a> {
    cut: Cut<'a>,
}

impl<'a> Model for RebaseStream<'a> {
    ghost use Rattle.mach_dyld.specs.Cut.{CutStream};
    ghost use Rattle.mach_dyld.specs.CutViews.{cut_view};

    ghost Value = { CutStream };

    ghost view = { λ s. cut_view s.cut };
}

impl fmt::Debug for RebaseStream<'_> {
    /// Formats the range and, of the bytes, only their number.
    fn fmt<W: fmt::Write>(&self, f: &mut fmt::Formatter<W>) -> fmt::Result {
        f.debug_struct("RebaseStream")
            .field("bytes", &ByteCount(self.cut.bytes))
            .field("from", &self.cut.from)
            .field("upto", &self.cut.upto)
            .finish()
    }
}

impl<'a> RebaseStream<'a> {
    /// Returns the stream that an `LC_DYLD_INFO` or `LC_DYLD_INFO_ONLY` command names. Nothing is tested.
    pub fn new(bytes: &'a [u8], command: &DyldInfoCommand) -> Self
        ensures { result ≡ cut_stream bytes.now command.now.rebase_off command.now.rebase_size }
    {
        RebaseStream {
            cut: Cut::new(bytes, command.rebase_off, command.rebase_size),
        }
    }

    /// Returns the rebases one at a time. The first fault is the last item. `segments` are the image's. It allocates nothing.
    pub fn iter<'b>(&self, segments: &'b [Segment<'a>], ctx: Ctx) -> OpcodeRebaseIterator<'a, 'b>
        ensures { (ps : List Placed)
            × AreOpcodeRebases (cut_input self.now (pointer_size ctx.container) (map segment_view segments.now)) ctx.le (cut_range self.now) ps
            (opcode_rebases_left result)
            × (rebase_reads_left result ≡ length ps) }
    {
        OpcodeRebaseIterator {
            run: Run::none(),
            stream: Stream::alone(
                self.cut.source(segments, ctx),
                self.cut.from,
                self.cut.upto,
                Rebasing::new(ctx.le),
            ),
        }
    }
}

/// The settings of rebases beyond those in `Settings`.
#[derive(Clone, Copy)]
pub struct Rebasing {
    /// The byte order of the image's numbers.
    pub le: Endian,
    /// The type.
    pub kind: u8,
    /// Whether a segment was set.
    pub has_segment: bool,
}

impl Rebasing {
    // Returns the settings at the start of a stream.
    fn new(le: Endian) -> Self
        ensures { result ≡ first_rebasing le }
    {
        Rebasing {
            le,
            kind: 0,
            has_segment: false,
        }
    }
}

impl RebaseKind {
    // Returns the kind with a number.
    #[inline(always)]
    fn of(number: u8) -> Option<Self>
        ensures { result ≡ rebase_kind_of number }
    {
        match number {
            REBASE_TYPE_POINTER => Some(RebaseKind::Pointer),
            REBASE_TYPE_TEXT_ABSOLUTE32 => Some(RebaseKind::TextAbsolute32),
            REBASE_TYPE_TEXT_PCREL32 => Some(RebaseKind::TextRelative32),
            _ => None,
        }
    }

    // Returns the number of bytes that are corrected.
    #[inline(always)]
    fn width(self, pointer: u8) -> u8
        ensures width { result ≡ rebase_width pointer self }
        ensures either { (result ≡ 4) ⊎ (result ≡ 8) }
    {
        match self {
            RebaseKind::Pointer if pointer == 8 => 8,
            RebaseKind::Pointer | RebaseKind::TextAbsolute32 | RebaseKind::TextRelative32 => 4,
        }
    }
}

// Sets `count` rebases; after each, the offset advances by the skip and a pointer.
#[inline(always)]
fn repeat(state: &mut State<'_>, count: u64, skip: u64, pointer: u8)
    ensures { state.new ≡ record state.old { count = count; stride = (skip + pointer) % 2 ^ 64 } }
{
    state.count = count;
    state.stride = skip.wrapping_add(u64::from(pointer));
}

// Reads the operands of an opcode with its immediate, which begin at a place, and sets the settings and the rebases of the
// instruction. Returns None if they can't be read, or if the opcode is unknown. A DONE is read elsewhere.
#[tactic(auto, unfolding(crate::specs::Rebases::rebase_row, crate::specs::Instructions::with_uleb, crate::specs::Instructions::times_at, crate::specs::Machine::set_by, crate::specs::Machine::executed))]
#[inline(always)]
fn execute<'a>(
    state: &mut State<'a>,
    bytes: &'a [u8],
    pointer: u8,
    opcode: Opcode,
    imm: u8,
    place: usize,
) -> Option<()>
    requires count { state.old.count ≡ 0 }
    requires within { place ≤ length bytes.now }
    requires no_done { 0 < opcode }
    ensures value { (r : Range) → MatchOption result (IsErr (rebase_row r pointer bytes.now opcode imm place))
        (λ _. executed_by pointer (rebase_row r pointer bytes.now opcode imm place) (state_of state.old) ≡ Ok (state_of state.new)) }
    ensures place { IfNone result (state.new.place ≡ state.old.place) }
    ensures count { IfNone result (state.new.count ≡ 0) }
    ensures upto { state.new.upto ≡ state.old.upto }
    ensures from { state.new.from ≡ state.old.from }
    ensures ended { state.new.ended ≡ state.old.ended }
    ensures is_lazy { state.new.settings.is_lazy ≡ state.old.settings.is_lazy }
    ensures named { NameIsSet bytes.now state.old.settings → NameIsSet bytes.now state.new.settings }
    ensures site { (r : Range) → IfSome result (λ _. site_by place (rebase_row r pointer bytes.now opcode imm place) (site_in state.old.settings)
        ≡ Ok (site_in state.new.settings)) }
{
    state.stride = 0;
    let after = match opcode {
        REBASE_OPCODE_SET_TYPE_IMM => place,
        REBASE_OPCODE_SET_SEGMENT_AND_OFFSET_ULEB => {
            let (offset, after) = quick_uleb(bytes, place)?;
            state.settings.segment = imm;
            state.settings.offset = offset;
            after
        }
        REBASE_OPCODE_ADD_ADDR_ULEB => {
            let (by, after) = quick_uleb(bytes, place)?;
            state.settings.advance(by);
            after
        }
        REBASE_OPCODE_ADD_ADDR_IMM_SCALED => {
            state.settings.advance(u64::from(imm) * u64::from(pointer));
            place
        }
        REBASE_OPCODE_DO_REBASE_IMM_TIMES => {
            repeat(state, u64::from(imm), 0, pointer);
            place
        }
        REBASE_OPCODE_DO_REBASE_ULEB_TIMES => {
            let (count, after) = quick_uleb(bytes, place)?;
            repeat(state, count, 0, pointer);
            after
        }
        REBASE_OPCODE_DO_REBASE_ADD_ADDR_ULEB => {
            let (skip, after) = quick_uleb(bytes, place)?;
            repeat(state, 1, skip, pointer);
            after
        }
        REBASE_OPCODE_DO_REBASE_ULEB_TIMES_SKIPPING_ULEB => {
            let (count, next) = quick_uleb(bytes, place)?;
            let (skip, after) = quick_uleb(bytes, next)?;
            repeat(state, count, skip, pointer);
            after
        }
        _ => return None,
    };
    state.place = after;
    Some(())
}

// Tests that an opcode is known, and that its operands, which begin at a place, can be read.
#[tactic(auto, unfolding(crate::specs::Rebases::rebase_row, crate::specs::Instructions::with_uleb, crate::specs::Instructions::times_at))]
fn test_opcode(bytes: &[u8], pointer: u8, opcode: Opcode, imm: u8, place: usize) -> Result<()>
    ensures ok { (r : Range) → IfOk result (λ _. IsOk (rebase_row r pointer bytes.now opcode imm place)) }
    ensures err { (r : Range) → IfErr result (λ e. rebase_row r pointer bytes.now opcode imm place ≡ Err (fault_of e)) }
{
    match opcode {
        REBASE_OPCODE_SET_SEGMENT_AND_OFFSET_ULEB
        | REBASE_OPCODE_ADD_ADDR_ULEB
        | REBASE_OPCODE_DO_REBASE_ULEB_TIMES
        | REBASE_OPCODE_DO_REBASE_ADD_ADDR_ULEB => {
            uleb(bytes, place)?;
        }
        REBASE_OPCODE_DO_REBASE_ULEB_TIMES_SKIPPING_ULEB => {
            let (_, next) = uleb(bytes, place)?;
            uleb(bytes, next)?;
        }
        REBASE_OPCODE_DONE
        | REBASE_OPCODE_SET_TYPE_IMM
        | REBASE_OPCODE_ADD_ADDR_IMM_SCALED
        | REBASE_OPCODE_DO_REBASE_IMM_TIMES => {}
        _ => return Err(Error::Malformed("an opcode is unknown")),
    }
    Ok(())
}

impl<'a> BindRules<'a> for Rebasing {
    type Item = Rebase;

    type Why = Error;

    ghost use Rattle.mach_dyld.specs.RebasesLeft.{rebase_rules, rebase_view};
    ghost use Rattle.mach_dyld.specs.StreamsMove.{rebase_reads};
    ghost use Rattle.mach_base.specs.Fault.{fault_of};

    ghost Seen = { defined.Rebase };

    ghost seen = { rebase_view };

    ghost fault = { fault_of };

    ghost rules = { rebase_rules };

    ghost reads = { rebase_reads };

    // The byte order is set when the iterator is built.
    fn first(_is_lazy: bool) -> Self
        ensures { result ≡ first_rebasing order.Little }
    {
        Rebasing::new(Endian::Little)
    }

    #[inline(always)]
    fn set(&mut self, byte: u8)
        ensures { self.new ≡ rebasing_after (bit_and byte 0xf0) (bit_and byte 0x0f) self.old }
    {
        match byte & REBASE_OPCODE_MASK {
            REBASE_OPCODE_SET_TYPE_IMM => self.kind = byte & REBASE_IMMEDIATE_MASK,
            REBASE_OPCODE_SET_SEGMENT_AND_OFFSET_ULEB => self.has_segment = true,
            _ => {}
        }
    }

    #[inline(always)]
    fn execute(state: &mut State<'a>, bytes: &'a [u8], pointer: u8, byte: u8) -> Option<()> {
        let (opcode, imm) = (byte & REBASE_OPCODE_MASK, byte & REBASE_IMMEDIATE_MASK);
        if opcode == REBASE_OPCODE_DONE {
            let to = state.upto;
            state.go_to(to);
            return Some(());
        }
        let operands = state.place + 1;
        execute(state, bytes, pointer, opcode, imm, operands)
    }

    fn unreadable(state: &State<'a>, bytes: &[u8], pointer: u8, byte: u8) -> Error {
        if state.place >= bytes.len() {
            return Error::Scroll(ScrollError::BadOffset(state.place));
        }
        let (opcode, imm) = (byte & REBASE_OPCODE_MASK, byte & REBASE_IMMEDIATE_MASK);
        match test_opcode(bytes, pointer, opcode, imm, state.place + 1) {
            Err(e) => e,
            Ok(()) => unreachable!(),
        }
    }

    // Returns why there is no rebase.
    fn refusal(self, _source: &Source<'a, '_>, _settings: &Settings<'a>) -> Error {
        if !self.has_segment || RebaseKind::of(self.kind).is_none() {
            return Error::Malformed("a rebase lacks its segment or its type");
        }
        Error::Malformed("a rebase is outside its segment, or its address does not fit in 64 bits")
    }

    #[tactic(auto, using(mach_parts::proofs::SegmentViews::segment_seen), unfolding(crate::specs::Rebases::rebase_of))]
    #[inline(always)]
    fn make(self, source: &Source<'a, '_>, settings: &Settings<'a>) -> Option<Rebase> {
        if !self.has_segment {
            return None;
        }
        let kind = RebaseKind::of(self.kind)?;
        let segment = source.segments.get(usize::from(settings.segment))?;
        if !holds_all(segment.vmsize, settings.offset, source.pointer) {
            return None;
        }
        let address = segment.vmaddr.checked_add(settings.offset)?;
        let width = kind.width(source.pointer);
        Some(Rebase {
            segment: u32::from(settings.segment),
            offset: settings.offset,
            address,
            target: memory_number(self.le, width, segment.bytes, settings.offset),
            kind,
            auth: None,
        })
    }
}

/// An iterator over the rebases of a stream. The first fault is its last item. It allocates nothing.
#[derive(Drop)]
pub struct OpcodeRebaseIterator<'a, 'b> {
    /// The rebases that were checked and are not yet returned.
    pub(crate) run: Run<'a>,
    pub(crate) stream: Stream<'a, 'b, Rebasing>,
}

impl OpcodeRebaseIterator<'_, '_> {
    /// Returns the next rebase. Adds the number of opcodes read to `steps`: in all, at most one more than the opcodes that
    /// are left, and that one only at a fault.
    #[inline(always)]
    pub fn next_counted(&mut self, steps: &mut Steps) -> Option<Result<Rebase>>
        ensures items { YieldsFirstBy rebase_read opcode_rebases_left self.old result self.new }
        ensures end { IfNone result (HasEndedRebases self.new) }
        ensures fault { IfSome result (λ item. OnErr item (HasEndedRebases self.new)) }
        ensures none { IfNone result (steps.new ≡ steps.old + rebase_reads_left self.old) }
        ensures reads { IfSome result (λ item. OnOk item (steps.new + rebase_reads_left self.new ≡ steps.old + rebase_reads_left self.old)) }
        ensures bounded { IfSome result (λ item. OnErr item (steps.new ≤ steps.old + rebase_reads_left self.old + 1)) }
        ensures kept { steps.old ≤ steps.new }
    {
        if self.run.left == 0 {
            match self.refill(steps) {
                Ok(true) => {}
                Ok(false) => return None,
                Err(stop) => return Some(Err(self.stream.end_at(stop))),
            }
        }
        Some(Ok(self.run.next()))
    }

    // Reads on to an instruction that makes rebases, and checks its rebases from the first on. Returns false if no more
    // come. The error is why none comes.
    #[inline(always)]
    fn refill(&mut self, steps: &mut Steps) -> std::result::Result<bool, Stop>
        requires { self.old.run.left ≡ 0 }
        ensures some { IfOk result (λ some. some ≡ true → 0 < self.new.run.left) }
        ensures none { IfOk result (λ some. some ≡ false → HasEndedRebases self.new) }
        ensures reads_none { IfOk result (λ some. some ≡ false → rebase_reads_left self.new ≡ 0) }
        ensures err { IfErr result (λ stop. StopsFor rebase_rules self.new.stream stop) }
        ensures left { OnErr result (self.new.run.left ≡ 0) }
        ensures items { opcode_rebases_left self.old ≡ opcode_rebases_left self.new }
        ensures reads { OnOk result (steps.new + rebase_reads_left self.new ≡ steps.old + rebase_reads_left self.old) }
        ensures bounded { OnErr result (steps.new ≤ steps.old + rebase_reads_left self.old + 1) }
        ensures kept { steps.old ≤ steps.new }
    {
        if self.stream.state.ended {
            return Ok(false);
        }
        match self.stream.arrive(steps) {
            Ok(true) => {}
            Ok(false) => {
                self.stream.finish();
                return Ok(false);
            }
            Err(byte) => return Err(Stop::Instruction(byte)),
        }
        let Some(run) = Run::of(&self.stream) else {
            return Err(Stop::Bind);
        };
        self.stream.pass(run.left);
        self.run = run;
        Ok(true)
    }
}

impl Iterator for OpcodeRebaseIterator<'_, '_> {
    type Item = Result<Rebase>;

    ghost use Rattle.std.specs.Iterator.{item_count};

    ghost next_gives = { YieldsFirstBy rebase_read opcode_rebases_left };

    ghost remaining = { item_count opcode_rebases_left };

    #[inline(always)]
    fn next(&mut self) -> Option<Result<Rebase>> {
        self.next_counted(&mut Steps::new())
    }
}

impl Default for OpcodeRebaseIterator<'_, '_> {
    ghost is_default = { λ it. opcode_rebases_left it ≡ [] };

    /// Returns an iterator without rebases.
    fn default() -> Self {
        OpcodeRebaseIterator {
            run: Run::none(),
            stream: Stream::none(Rebasing::new(Endian::Little)),
        }
    }
}
