//! The weak binds of an image, as dyld reads them, one at a time.

ghost use Rattle.std.specs.Prelude.{◌≡◌, ◌+◌, ◌≤◌, ◌%◌, ◌^◌, ℕ, List, [], length, map, Ok, Err, IsErr, IfSome, IfNone, MatchOption, OnOk, OnErr, bit_and};
ghost use Rattle.std.specs.Iterator.{YieldsFirstBy};
ghost use Rattle.mach_base.specs.Context.{pointer_size};
ghost use Rattle.mach_base.specs.Fault.{malformed, fault_of};
ghost use Rattle.mach_parts.specs.Segment.{segment_view};
ghost use Rattle.mach_dyld.specs.Instructions.{byte_at};
ghost use Rattle.mach_dyld.specs.Machine.{executed_by, range_of, state_of};
ghost use Rattle.mach_dyld.specs.NamePlaces.{NameIsSet};
ghost use Rattle.mach_dyld.specs.Sites.{site_by, site_in};
ghost use Rattle.mach_dyld.specs.Streams.{Placed};
ghost use Rattle.mach_dyld.specs.Cut.{cut_stream, cut_input, cut_range};
ghost use Rattle.mach_dyld.specs.WeakBinds as defined;
ghost use Rattle.mach_dyld.specs.WeakBinds.{AreWeakBinds, is_weak_complete, weak_name_at, weak_opcode_at};
ghost use Rattle.mach_dyld.specs.WeakBindsLeft.{HasEndedWeakBinds, first_weak, set_now, weak_after, weak_bind_read, weak_binds_left, weak_reads_left};

mod faults;

use crate::bind_opcodes::*;
use crate::bindings::spot;
use crate::machine::{BindRules, Settings, Source, State, Stream, instruction_error};
use crate::stream_prefix::Cut;
use mach_base::{ByteCount, Ctx, Error, Result, ScrollError, Steps, quick_text, read_text};
use mach_parts::binding::{Binding, Provider};
use mach_parts::segment::Segment;
use mach_records::DyldInfoCommand;
use std::fmt;
use std::marker::Model;

/// A row of the stream of weak binds.
#[derive(Clone, Copy, Debug)]
pub enum WeakBind<'a> {
    /// The image itself defines this name, and not weakly: other images take its definition.
    Strong {
        /// The symbol's name.
        name: &'a str,
    },
    /// A place that takes the definition that all images share, whatever was bound there before.
    Bind(Binding<'a>),
}

/// Bytes with the range of their stream of weak binds.
#[derive(Drop)]
pub struct WeakBindStream<'a> {
    cut: Cut<'a>,
}

impl<'a> Model for WeakBindStream<'a> {
    ghost use Rattle.mach_dyld.specs.Cut.{CutStream};
    ghost use Rattle.mach_dyld.specs.CutViews.{cut_view};

    ghost Value = { CutStream };

    ghost view = { λ s. cut_view s.cut };
}

impl fmt::Debug for WeakBindStream<'_> {
    /// Formats the range and, of the bytes, only their number.
    fn fmt<W: fmt::Write>(&self, f: &mut fmt::Formatter<W>) -> fmt::Result {
        f.debug_struct("WeakBindStream")
            .field("bytes", &ByteCount(self.cut.bytes))
            .field("from", &self.cut.from)
            .field("upto", &self.cut.upto)
            .finish()
    }
}

impl<'a> WeakBindStream<'a> {
    /// Returns the stream that an `LC_DYLD_INFO` or `LC_DYLD_INFO_ONLY` command names. Nothing is tested.
    pub fn new(bytes: &'a [u8], command: &DyldInfoCommand) -> Self
        ensures { result ≡ cut_stream bytes.now command.now.weak_bind_off command.now.weak_bind_size }
    {
        WeakBindStream {
            cut: Cut::new(bytes, command.weak_bind_off, command.weak_bind_size),
        }
    }

    /// Returns the rows one at a time. The first fault is the last item. `segments` are the image's. It allocates nothing.
    pub fn iter<'b>(&self, segments: &'b [Segment<'a>], ctx: Ctx) -> WeakBindIterator<'a, 'b>
        ensures { (ps : List Placed)
            × AreWeakBinds (cut_input self.now (pointer_size ctx.container) (map segment_view segments.now)) (cut_range self.now) ps (weak_binds_left result)
            × (weak_reads_left result ≡ length ps) }
    {
        WeakBindIterator {
            stream: Stream::alone(
                self.cut.source(segments, ctx),
                self.cut.from,
                self.cut.upto,
                <WeakBindSettings as BindRules<'_>>::first(true),
            ),
        }
    }
}

/// The settings of weak binds beyond those in `Settings`.
#[derive(Clone, Copy)]
pub struct WeakBindSettings {
    /// The type.
    pub kind: u8,
    /// Whether a name was set; the next field says the same of a segment.
    pub has_name: bool,
    pub has_segment: bool,
    /// Whether the opcode names a symbol that the image itself defines.
    pub is_own: bool,
}

impl WeakBindSettings {
    // Whether a name, a segment and a type were set.
    #[inline(always)]
    fn is_complete(self) -> bool
        ensures { result ≡ is_weak_complete (set_now self) }
    {
        self.has_name && self.has_segment && 0 < self.kind && self.kind < 4
    }
}

// Whether the flags of a name mean that the image itself defines the symbol.
#[inline(always)]
fn is_own(flags: u8) -> bool
    ensures { result ≡ defined.is_own flags }
{
    flags & BIND_SYMBOL_FLAGS_NON_WEAK_DEFINITION != 0
}

// Reads the name at a place and sets it with these flags. The name of a symbol that the image itself defines makes a row.
// Returns None if the name can't be read.
#[tactic(auto, unfolding(crate::specs::WeakBinds::weak_name_at, crate::specs::Machine::set_by, crate::specs::Machine::executed))]
#[inline(always)]
fn execute_name<'a>(state: &mut State<'a>, bytes: &'a [u8], flags: u8, place: usize) -> Option<()>
    requires count { state.old.count ≡ 0 }
    requires within { place ≤ length bytes.now }
    ensures value { (pointer : ℕ) → MatchOption result (IsErr (weak_name_at flags bytes.now place))
        (λ _. executed_by pointer (weak_name_at flags bytes.now place) (state_of state.old) ≡ Ok (state_of state.new)) }
    ensures place { IfNone result (state.new.place ≡ state.old.place) }
    ensures count { IfNone result (state.new.count ≡ 0) }
    ensures upto { state.new.upto ≡ state.old.upto }
    ensures from { state.new.from ≡ state.old.from }
    ensures ended { state.new.ended ≡ state.old.ended }
    ensures is_lazy { state.new.settings.is_lazy ≡ state.old.settings.is_lazy }
    ensures named { NameIsSet bytes.now state.old.settings → NameIsSet bytes.now state.new.settings }
    ensures site { IfSome result (λ _. site_by place (weak_name_at flags bytes.now place) (site_in state.old.settings)
        ≡ Ok (site_in state.new.settings)) }
{
    let name = quick_text(bytes, place)?;
    let end = place + name.len();
    if end >= bytes.len() {
        return None;
    }
    state.settings.name = name;
    state.settings.name_place = place;
    state.settings.flags = flags;
    state.count = if is_own(flags) { 1 } else { 0 };
    state.stride = 0;
    state.place = end + 1;
    Some(())
}

// Returns why the name at a place can't be read.
#[tactic(auto, unfolding(crate::specs::WeakBinds::weak_name_at))]
fn name_error(bytes: &[u8], flags: u8, place: usize) -> Error
    requires { IsErr (weak_name_at flags bytes.now place) }
    ensures { weak_name_at flags bytes.now place ≡ Err (fault_of result) }
{
    match read_text(bytes, place) {
        Err(e) => e,
        Ok(_) => Error::Malformed("a name runs past its stream"),
    }
}

impl<'a> BindRules<'a> for WeakBindSettings {
    type Item = WeakBind<'a>;

    type Why = Error;

    ghost use Rattle.mach_dyld.specs.WeakBindsLeft.{weak_rules, weak_bind_view};
    ghost use Rattle.mach_dyld.specs.StreamsMove.{weak_reads};
    ghost use Rattle.mach_base.specs.Fault.{fault_of};

    ghost Seen = { defined.WeakBind };

    ghost seen = { weak_bind_view };

    ghost fault = { fault_of };

    ghost rules = { weak_rules };

    ghost reads = { weak_reads };

    #[inline(always)]
    fn first(_is_lazy: bool) -> Self
        ensures { result ≡ first_weak }
    {
        WeakBindSettings {
            kind: 0,
            has_name: false,
            has_segment: false,
            is_own: false,
        }
    }

    #[inline(always)]
    fn set(&mut self, byte: u8)
        ensures { self.new ≡ weak_after (bit_and byte 0xf0) (bit_and byte 0x0f) self.old }
    {
        let imm = byte & BIND_IMMEDIATE_MASK;
        self.is_own = false;
        // The opcodes from here on change no setting here.
        if byte >= BIND_OPCODE_ADD_ADDR_ULEB {
            return;
        }
        match byte & BIND_OPCODE_MASK {
            BIND_OPCODE_SET_SYMBOL_TRAILING_FLAGS_IMM => {
                self.has_name = true;
                self.is_own = is_own(imm);
            }
            BIND_OPCODE_SET_TYPE_IMM => self.kind = imm,
            BIND_OPCODE_SET_SEGMENT_AND_OFFSET_ULEB => self.has_segment = true,
            _ => {}
        }
    }

    #[inline(always)]
    fn execute(state: &mut State<'a>, bytes: &'a [u8], pointer: u8, byte: u8) -> Option<()> {
        let (opcode, imm) = (byte & BIND_OPCODE_MASK, byte & BIND_IMMEDIATE_MASK);
        let operands = state.place + 1;
        match opcode {
            BIND_OPCODE_DONE => {
                let to = state.upto;
                state.go_to(to);
                Some(())
            }
            BIND_OPCODE_SET_SYMBOL_TRAILING_FLAGS_IMM => execute_name(state, bytes, imm, operands),
            BIND_OPCODE_SET_TYPE_IMM
            | BIND_OPCODE_SET_ADDEND_SLEB
            | BIND_OPCODE_SET_SEGMENT_AND_OFFSET_ULEB
            | BIND_OPCODE_ADD_ADDR_ULEB
            | BIND_OPCODE_DO_BIND
            | BIND_OPCODE_DO_BIND_ADD_ADDR_ULEB
            | BIND_OPCODE_DO_BIND_ADD_ADDR_IMM_SCALED
            | BIND_OPCODE_DO_BIND_ULEB_TIMES_SKIPPING_ULEB => {
                state.execute(bytes, pointer, opcode, imm, operands)
            }
            _ => None,
        }
    }

    fn unreadable(state: &State<'a>, bytes: &[u8], pointer: u8, byte: u8) -> Error {
        if state.place >= bytes.len() {
            return Error::Scroll(ScrollError::BadOffset(state.place));
        }
        let (opcode, imm) = (byte & BIND_OPCODE_MASK, byte & BIND_IMMEDIATE_MASK);
        if opcode < LOWEST_WEAK {
            return Error::Malformed("a weak bind names a provider");
        }
        if opcode > HIGHEST_WEAK {
            return Error::Malformed("an opcode is unknown");
        }
        if opcode == BIND_OPCODE_SET_SYMBOL_TRAILING_FLAGS_IMM {
            return name_error(bytes, imm, state.place + 1);
        }
        instruction_error(bytes, pointer, state.place, byte)
    }

    // Returns why a bind has no row.
    fn refusal(self, _source: &Source<'a, '_>, _settings: &Settings<'a>) -> Error {
        if !self.is_complete() {
            return Error::Malformed("a bind lacks its name, its segment or its type");
        }
        Error::Malformed("a bind is outside its segment, or its place does not fit in 64 bits")
    }

    #[tactic(auto, unfolding(crate::specs::WeakBinds::weak_bind_of))]
    #[inline(always)]
    fn make(self, source: &Source<'a, '_>, settings: &Settings<'a>) -> Option<WeakBind<'a>> {
        if self.is_own {
            return Some(WeakBind::Strong {
                name: settings.name,
            });
        }
        if !self.is_complete() {
            return None;
        }
        let (offset, address) = spot(
            source.pointer,
            source.segments,
            settings.segment,
            settings.offset,
        )?;
        Some(WeakBind::Bind(Binding {
            name: settings.name,
            provider: Provider::WeakLookup,
            offset,
            address,
            addend: settings.addend,
            is_weak: settings.flags & BIND_SYMBOL_FLAGS_WEAK_IMPORT != 0,
            is_lazy: false,
        }))
    }
}

// The lowest and the highest opcode of the stream, apart from DONE.
const LOWEST_WEAK: Opcode = BIND_OPCODE_SET_SYMBOL_TRAILING_FLAGS_IMM;

const HIGHEST_WEAK: Opcode = BIND_OPCODE_DO_BIND_ULEB_TIMES_SKIPPING_ULEB;

/// An iterator over the rows of a stream of weak binds. The first fault is its last item. It allocates nothing.
#[derive(Drop)]
pub struct WeakBindIterator<'a, 'b> {
    pub(crate) stream: Stream<'a, 'b, WeakBindSettings>,
}

impl<'a> WeakBindIterator<'a, '_> {
    /// Returns the next row. Adds the number of opcodes read to `steps`: in all, at most one more than the opcodes that are
    /// left, and that one only at a fault.
    #[inline(always)]
    pub fn next_counted(&mut self, steps: &mut Steps) -> Option<Result<WeakBind<'a>>>
        ensures items { YieldsFirstBy weak_bind_read weak_binds_left self.old result self.new }
        ensures end { IfNone result (HasEndedWeakBinds self.new) }
        ensures fault { IfSome result (λ item. OnErr item (HasEndedWeakBinds self.new)) }
        ensures none { IfNone result (steps.new ≡ steps.old + weak_reads_left self.old) }
        ensures reads { IfSome result (λ item. OnOk item (steps.new + weak_reads_left self.new ≡ steps.old + weak_reads_left self.old)) }
        ensures bounded { IfSome result (λ item. OnErr item (steps.new ≤ steps.old + weak_reads_left self.old + 1)) }
        ensures kept { steps.old ≤ steps.new }
    {
        self.stream.next_counted(steps)
    }
}

impl<'a> Iterator for WeakBindIterator<'a, '_> {
    type Item = Result<WeakBind<'a>>;

    ghost use Rattle.std.specs.Iterator.{item_count};

    ghost next_gives = { YieldsFirstBy weak_bind_read weak_binds_left };

    ghost remaining = { item_count weak_binds_left };

    #[inline(always)]
    fn next(&mut self) -> Option<Result<WeakBind<'a>>> {
        self.stream.next_item()
    }
}

impl Default for WeakBindIterator<'_, '_> {
    ghost is_default = { λ it. weak_binds_left it ≡ [] };

    /// Returns an iterator without weak binds.
    fn default() -> Self {
        WeakBindIterator {
            stream: Stream::none(<WeakBindSettings as BindRules<'_>>::first(true)),
        }
    }
}
