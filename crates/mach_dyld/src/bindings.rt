//! Bindings from bind opcodes, as dyld reads them, one at a time.

ghost use Rattle.std.specs.Prelude.{◌≡◌, ◌+◌, ◌<◌, ◌≤◌, List, [], ◌∷◌, Ok, Err, IsErr, MatchOption, IfOk, length, map, nat_le, bit_and};
ghost use Rattle.std.specs.Prelude.{IfSome, IfNone, OnOk, OnErr};
ghost use Rattle.std.specs.Iterator.{YieldsFirstBy};
ghost use Rattle.mach_base.specs.Context.{pointer_size};
ghost use Rattle.mach_base.specs.Fault.{malformed, fault_of};
ghost use Rattle.mach_parts.specs.Segment.{segment_view};
ghost use Rattle.mach_dyld.specs.Machine.{StopsFor, Fails, Keeps, IsMadeBy, items_left, range_of};
ghost use Rattle.mach_dyld.specs.Instructions.{byte_at};
ghost use Rattle.mach_dyld.specs.Streams.{Input, Placed, Range};
ghost use Rattle.mach_dyld.specs.Imports.{input_in};
ghost use Rattle.mach_base.specs.Text.{texts};
ghost use Rattle.mach_dyld.specs.BindCursors.{IsOverBindings, HasEndedOpcodeBindings};
ghost use Rattle.mach_dyld.specs.BindingFaults.{binding_reads_left};
ghost use Rattle.mach_dyld.specs.SiteCursors.{AreBindingSites, binding_sites_left};
ghost use Rattle.mach_parts.specs.Bindings.{provider_of, provider_view, binding_view, binding_read};
ghost use Rattle.mach_dyld.specs.Bindings as defined;
ghost use Rattle.mach_dyld.specs.Bindings.{spot_of, is_complete, gives_ordinal, highest_opcode, opcode_at, done_leads_to, AreBindings, BindingsHave};
ghost use Rattle.mach_dyld.specs.BindingsLeft.{ordinal_now, given_now, special_after, first_extra, extra_after, binding_rules, opcode_bindings_left};

mod faults;

use crate::bind_opcodes::*;
pub use crate::bindings::faults::{all_lie, segment_at};
use crate::imports::BindInterpreter;
use crate::imports::instruction::instruction_error;
use crate::imports::settings::Settings;
use crate::imports::source::Source;
use crate::imports::state::State;
use crate::imports::stream::{BindRules, Stop, Stream};
use mach_base::{Ctx, Error, Result, ScrollError, Steps};
use mach_parts::binding::{Binding, Provider};
use mach_parts::segment::Segment;

/// An iterator over bindings: those of the non-lazy stream, then those of the lazy stream. The first fault is its last item.
/// It allocates nothing.
#[derive(Drop)]
pub struct OpcodeBindingIterator<'a, 'b> {
    pub(crate) stream: Stream<'a, 'b, BindingSettings>,
}

impl<'a> BindInterpreter<'a> {
    /// Returns the bindings one at a time, as dyld reads them: those of the non-lazy stream, then those of the lazy stream.
    /// The first fault is the last item. `libs` are the image's libraries, by ordinal, and `segments` its segments. It
    /// allocates nothing.
    pub fn bindings<'b>(
        &self,
        libs: &'b [&'a str],
        segments: &'b [Segment<'a>],
        ctx: Ctx,
    ) -> OpcodeBindingIterator<'a, 'b>
        ensures items { (ps : List Placed) × (qs : List Placed)
            × AreBindings (input_in self.now (pointer_size ctx.container) (texts libs.now) (map segment_view segments.now))
            self.now.non_lazy self.now.lazy ps qs (opcode_bindings_left result) }
        ensures over { IsOverBindings (input_in self.now (pointer_size ctx.container) (texts libs.now) (map segment_view segments.now)) self.now.lazy result }
        ensures sites { AreBindingSites (input_in self.now (pointer_size ctx.container) (texts libs.now) (map segment_view segments.now))
            self.now.non_lazy self.now.lazy (binding_sites_left result) }
        ensures reads { BindingsHave (input_in self.now (pointer_size ctx.container) (texts libs.now) (map segment_view segments.now))
            self.now.non_lazy self.now.lazy (binding_reads_left result) }
    {
        OpcodeBindingIterator {
            stream: self.stream(libs, segments, ctx),
        }
    }
}

/// Returns the place in the file and the address of an offset in a segment, if a pointer there lies in the segment.
#[tactic(auto, using(mach_parts::proofs::SegmentViews::segment_seen), unfolding(crate::specs::Bindings::spot_of))]
#[inline(always)]
pub fn spot(pointer: u8, segments: &[Segment<'_>], number: u8, offset: u64) -> Option<(u64, u64)>
    ensures { MatchOption result (spot_of pointer (map segment_view segments.now) number offset ≡ Err malformed)
        (λ s. spot_of pointer (map segment_view segments.now) number offset ≡ Ok s) }
{
    let segment = segments.get(usize::from(number))?;
    if !holds_all(segment.vmsize, offset, pointer) {
        return None;
    }
    let in_file = segment.fileoff.checked_add(offset)?;
    let address = segment.vmaddr.checked_add(offset)?;
    Some((in_file, address))
}

// Returns the place of the instruction after a DONE: the next one in the bytes.
#[inline(always)]
fn following_done(state: &State<'_>) -> usize
    requires { state.now.place < state.now.upto }
    ensures { result ≡ done_leads_to (range_of state.now) (state.now.place + 1) }
{
    if state.settings.is_lazy {
        state.place + 1
    } else {
        state.upto
    }
}

// Returns the highest opcode allowed in a stream.
#[inline(always)]
fn highest(is_lazy: bool) -> Opcode
    ensures { result ≡ highest_opcode is_lazy }
{
    if is_lazy {
        BIND_OPCODE_DO_BIND
    } else {
        BIND_OPCODE_DO_BIND_ULEB_TIMES_SKIPPING_ULEB
    }
}

/// Whether `len` bytes from the offset on lie in a segment of that size.
#[inline(always)]
pub fn holds_all(size: u64, offset: u64, len: u8) -> bool
    ensures { result ≡ nat_le (offset + len) size }
{
    let len = u64::from(len);
    size >= len && offset <= size - len
}

// Returns the ordinal that opcode 3 sets by its immediate.
#[inline(always)]
fn special_ordinal(imm: u8) -> i64
    ensures { result ≡ defined.special_ordinal imm }
{
    if imm == 0 { 0 } else { i64::from(imm) - 16 }
}

/// The settings of dyld's binds beyond those in `Settings`.
#[derive(Clone, Copy)]
pub struct BindingSettings {
    /// The special ordinal, if one was set after the library.
    pub special: Option<i64>,
    /// The type.
    pub kind: u8,
    /// Whether an ordinal was set; the next two fields say the same of a name and a segment.
    pub has_ordinal: bool,
    pub has_name: bool,
    pub has_segment: bool,
}

impl BindingSettings {
    // Returns the provider that the ordinal set last names.
    #[inline(always)]
    fn provider<'a>(self, libs: &[&'a str], library: u64) -> Option<Provider<'a>>
        ensures { MatchOption result
            (provider_of (texts libs.now) (ordinal_now self.special library) ≡ Err malformed)
            (λ p. provider_of (texts libs.now) (ordinal_now self.special library) ≡ Ok (provider_view p)) }
    {
        match self.special {
            Some(ordinal) => Provider::by_ordinal(libs, ordinal),
            None => Provider::by_number(libs, library),
        }
    }

    // Whether an ordinal, a name, a segment and a type were set.
    #[inline(always)]
    fn is_complete(self, library: u64) -> bool
        ensures { result ≡ is_complete (given_now self library) }
    {
        self.has_ordinal && self.has_name && self.has_segment && 0 < self.kind && self.kind < 4
    }
}

impl<'a> BindRules<'a> for BindingSettings {
    type Item = Binding<'a>;

    type Why = Error;

    ghost use Rattle.mach_parts.specs.Bindings as parts;
    ghost use Rattle.mach_parts.specs.Bindings.{binding_view};
    ghost use Rattle.mach_dyld.specs.BindingsLeft.{binding_rules};
    ghost use Rattle.mach_base.specs.Fault.{fault_of};
    ghost use Rattle.mach_dyld.specs.RowsMove.{binding_reads};

    ghost Seen = { parts.Binding };

    ghost seen = { binding_view };

    ghost fault = { fault_of };

    ghost rules = { binding_rules };

    ghost reads = { binding_reads };

    #[inline(always)]
    fn first(is_lazy: bool) -> Self
        ensures { result ≡ first_extra is_lazy }
    {
        BindingSettings {
            special: None,
            kind: if is_lazy { BIND_TYPE_POINTER } else { 0 },
            has_ordinal: false,
            has_name: false,
            has_segment: false,
        }
    }

    #[inline(always)]
    fn set(&mut self, byte: u8)
        ensures { self.new ≡ extra_after (bit_and byte 0xf0) (bit_and byte 0x0f) self.old }
    {
        let imm = byte & BIND_IMMEDIATE_MASK;
        match byte & BIND_OPCODE_MASK {
            BIND_OPCODE_SET_DYLIB_ORDINAL_IMM | BIND_OPCODE_SET_DYLIB_ORDINAL_ULEB => {
                self.special = None;
                self.has_ordinal = true;
            }
            BIND_OPCODE_SET_DYLIB_SPECIAL_IMM => {
                self.special = Some(special_ordinal(imm));
                self.has_ordinal = true;
            }
            BIND_OPCODE_SET_SYMBOL_TRAILING_FLAGS_IMM => self.has_name = true,
            BIND_OPCODE_SET_TYPE_IMM => self.kind = imm,
            BIND_OPCODE_SET_SEGMENT_AND_OFFSET_ULEB => self.has_segment = true,
            _ => {}
        }
    }

    #[inline(always)]
    fn execute(state: &mut State<'a>, bytes: &'a [u8], pointer: u8, byte: u8) -> Option<()> {
        let (opcode, imm) = (byte & BIND_OPCODE_MASK, byte & BIND_IMMEDIATE_MASK);
        let top = highest(state.settings.is_lazy);
        if opcode > top {
            return None;
        }
        if opcode == BIND_OPCODE_DONE {
            let to = following_done(state);
            state.go_to(to);
            return Some(());
        }
        let operands = state.place + 1;
        state.execute(bytes, pointer, opcode, imm, operands)
    }

    // Returns why the instruction at the state's place can't be read.
    #[tactic(auto, unfolding(crate::specs::Bindings::opcode_at, crate::specs::Instructions::byte_at))]
    fn unreadable(state: &State<'a>, bytes: &[u8], pointer: u8, byte: u8) -> Error {
        if state.place >= bytes.len() {
            return Error::Scroll(ScrollError::BadOffset(state.place));
        }
        let (opcode, top) = (byte & BIND_OPCODE_MASK, highest(state.settings.is_lazy));
        if opcode > top {
            return Error::Malformed("an opcode is unknown");
        }
        instruction_error(bytes, pointer, state.place, byte)
    }

    // Returns why a bind has no binding.
    fn refusal(self, source: &Source<'a, '_>, settings: &Settings<'a>) -> Error {
        if !self.has_ordinal {
            return Error::Malformed("a bind has no ordinal");
        }
        if !self.is_complete(settings.library) {
            return Error::Malformed("a bind lacks its name, its segment or its type");
        }
        match self.provider(source.libs, settings.library) {
            None => Error::Malformed("a bind's ordinal names no provider"),
            Some(_) => Error::Malformed(
                "a bind is outside its segment, or its place does not fit in 64 bits",
            ),
        }
    }

    #[tactic(auto, unfolding(crate::specs::Bindings::binding_of))]
    #[inline(always)]
    fn make(self, source: &Source<'a, '_>, settings: &Settings<'a>) -> Option<Binding<'a>> {
        if !self.is_complete(settings.library) {
            return None;
        }
        let provider = self.provider(source.libs, settings.library)?;
        let (offset, address) = spot(
            source.pointer,
            source.segments,
            settings.segment,
            settings.offset,
        )?;
        Some(Binding {
            name: settings.name,
            provider,
            offset,
            address,
            addend: settings.addend,
            is_weak: settings.flags & BIND_SYMBOL_FLAGS_WEAK_IMPORT != 0,
            is_lazy: settings.is_lazy,
        })
    }
}

impl<'a> OpcodeBindingIterator<'a, '_> {
    /// Returns the next binding. Adds the number of opcodes read to `steps`: in all, at most one more than the opcodes that
    /// are left, and that one only at a fault.
    #[inline(always)]
    pub fn next_counted(&mut self, steps: &mut Steps) -> Option<Result<Binding<'a>>>
        ensures items { YieldsFirstBy binding_read opcode_bindings_left self.old result self.new }
        ensures end { IfNone result (HasEndedOpcodeBindings self.new) }
        ensures fault { IfSome result (λ item. OnErr item (HasEndedOpcodeBindings self.new)) }
        ensures none { IfNone result (steps.new ≡ steps.old + binding_reads_left self.old) }
        ensures reads { IfSome result (λ item. OnOk item (steps.new + binding_reads_left self.new ≡ steps.old + binding_reads_left self.old)) }
        ensures bounded { IfSome result (λ item. OnErr item (steps.new ≤ steps.old + binding_reads_left self.old + 1)) }
        ensures kept { steps.old ≤ steps.new }
        ensures over { (x : Input) (lazy : Range) → IsOverBindings x lazy self.old → IsOverBindings x lazy self.new }
    {
        self.stream.next_counted(steps)
    }
}

impl<'a> Iterator for OpcodeBindingIterator<'a, '_> {
    type Item = Result<Binding<'a>>;

    ghost use Rattle.std.specs.Iterator.{item_count};

    ghost next_gives = { YieldsFirstBy binding_read opcode_bindings_left };

    ghost remaining = { item_count opcode_bindings_left };

    #[inline(always)]
    fn next(&mut self) -> Option<Result<Binding<'a>>> {
        self.next_counted(&mut Steps::new())
    }
}

impl Default for OpcodeBindingIterator<'_, '_> {
    ghost is_default = { λ it. opcode_bindings_left it ≡ [] };

    /// Returns an iterator without bindings.
    fn default() -> Self {
        OpcodeBindingIterator {
            stream: Stream::none(<BindingSettings as BindRules<'_>>::first(true)),
        }
    }
}
