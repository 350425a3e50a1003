//! The position of a reader of binds, as numbers; and imports and bindings with the places of their names.

ghost use Rattle.std.specs.Prelude.{◌≡◌, ◌∷◌, ℕ, List, map, false, IfOk, IfSome, IfNone, OnErr, bit_and};
ghost use Rattle.std.specs.Iterator.{YieldsFirstBy};
ghost use Rattle.mach_base.specs.Context.{pointer_size};
ghost use Rattle.mach_base.specs.Text.{text_at};
ghost use Rattle.mach_parts.specs.Segment.{segment_view};
ghost use Rattle.mach_dyld.specs.BindCursors.{special_in, extra_in, state_in, imports_after, opcode_bindings_after};
ghost use Rattle.mach_base.specs.Number.{says_yes};
ghost use Rattle.mach_dyld.specs.BindCursors.{IsOverImports, IsOverBindings, HasEndedImports, HasEndedOpcodeBindings};
ghost use Rattle.mach_dyld.specs.BindCursors.{placed_read, placed_binding_read, IsPlaced, TextIsAt};
ghost use Rattle.mach_dyld.specs.BindLeft.{imports_left};
ghost use Rattle.mach_dyld.specs.Machine as machine;
ghost use Rattle.mach_dyld.specs.Machine.{items_left, items_of, reader_by, start_of, state_of};
ghost use Rattle.mach_dyld.specs.BindingsLeft.{opcode_bindings_left, first_extra};
ghost use Rattle.mach_base.specs.Text.{texts};
ghost use Rattle.mach_dyld.specs.Imports.{input_in};
ghost use Rattle.mach_dyld.specs.NamePlaces.{NameIsSet, text_or_none, IsNamed};
ghost use Rattle.mach_dyld.specs.SiteCursors.{binding_sites_after, binding_sites_left, import_sites_after, import_sites_left};
ghost use Rattle.mach_dyld.specs.SiteCursors.{place_named, site_of, site_view};
ghost use Rattle.mach_dyld.specs.Sites.{Site, site_in, sites_left, sites_of};
ghost use Rattle.mach_dyld.specs.Streams.{Input, Range};

use crate::bindings::{BindingSettings, OpcodeBindingIterator};
use crate::imports::settings::Settings;
use crate::imports::state::State;
use crate::imports::stream::{BindRules, Stream};
use crate::imports::{BindInterpreter, BindIterator, Import, ImportSettings};
use mach_base::{Ctx, Result, read_text};
use mach_parts::binding::Binding;
use mach_parts::segment::Segment;

/// The position of a reader of binds: numbers only, which belong to the bytes and the binds. Whatever the numbers are,
/// reading on from them returns items, an error or None.
#[derive(Clone, Copy, Debug)]
#[repr(C)]
pub struct BindCursor {
    /// The start of the stream that is read.
    pub from: usize,
    /// The place after the stream's last byte.
    pub upto: usize,
    /// The place of the next instruction.
    pub place: usize,
    /// The number of binds left of the last instruction.
    pub count: u64,
    /// The distance from each of these binds to the next.
    pub stride: u64,
    /// The place of the symbol's name. No name was set if no text is there.
    pub name_place: usize,
    /// The library's number.
    pub library: u64,
    /// The special ordinal, if one was set after the library.
    pub special: i64,
    /// The offset in the segment.
    pub offset: u64,
    /// The addend.
    pub addend: i64,
    /// The place after the last DONE, counted from the start of the range, or 0.
    pub sequence: u64,
    /// The index of the segment, if one was set.
    pub segment: u8,
    /// The flags of the symbol.
    pub flags: u8,
    /// For bindings: whether an ordinal was set (bit 0), and whether it is a special one (bit 1).
    pub ordinal: u8,
    /// Whether the lazy stream is read, and whether the iterator has ended: 0 means no.
    pub is_lazy: u8,
    /// Whether the iterator has ended: 0 means no.
    pub ended: u8,
    /// For bindings: the type, and whether a name and a segment were set.
    pub kind: u8,
    /// For bindings: whether a name was set.
    pub has_name: u8,
    /// For bindings: whether a segment was set.
    pub has_segment: u8,
}

/// An import, with the place of its name in the bytes and the number of its library.
#[derive(Debug, Drop)]
pub struct PlacedImport<'a> {
    /// The import.
    pub import: Import<'a>,
    /// The place of its name, or a place outside the bytes if it has no name.
    pub name_place: usize,
    /// Its library's ordinal.
    pub library: u64,
}

/// A binding, with the place of its name in the bytes.
#[derive(Clone, Copy, Debug)]
pub struct PlacedBinding<'a> {
    /// The binding.
    pub binding: Binding<'a>,
    /// The place of its name, or a place outside the bytes if it has no name.
    pub name_place: usize,
}

// Returns 1 for true and 0 for false.
fn flag(yes: bool) -> u8
    ensures { says_yes result ≡ yes }
{
    if yes { 1 } else { 0 }
}

// Returns a number with `first` as bit 0 and `second` as bit 1.
fn flags(first: bool, second: bool) -> u8
    ensures { (says_yes (bit_and result 1) ≡ first) × (says_yes (bit_and result 2) ≡ second) }
{
    match (first, second) {
        (false, false) => 0,
        (true, false) => 1,
        (false, true) => 2,
        (true, true) => 3,
    }
}

// Returns the text at a place, with the place. If there is none, returns an empty text and the last place of 64 bits.
fn name_at(bytes: &[u8], place: usize) -> (&str, usize)
    ensures text { result.0.now ≡ text_or_none (text_at bytes.now place) }
    ensures occurs { IsNamed bytes.now result.0.now result.1 }
    ensures place { result.1 ≡ place_named (text_at bytes.now place) place }
{
    match read_text(bytes, place) {
        Ok(name) => (name, place),
        Err(_) => ("", usize::MAX),
    }
}

// Returns the place of a name, or a place outside the bytes if none was set.
fn place_in(bytes: &[u8], place: usize) -> usize
    ensures text { (name : List ℕ) → IsNamed bytes.now name place → text_or_none (text_at bytes.now result) ≡ name }
    ensures place { (name : List ℕ) → IsNamed bytes.now name place → place_named (text_at bytes.now result) result ≡ place }
{
    if place < bytes.len() {
        place
    } else {
        bytes.len()
    }
}

impl<'a> State<'a> {
    // Returns the state as numbers.
    fn cursor(&self, bytes: &[u8], more: BindingSettings) -> BindCursor
        ensures state { NameIsSet bytes.now self.now.settings → state_in bytes.now result ≡ state_of self.now }
        ensures more { extra_in result ≡ more }
        ensures library { result.library ≡ self.now.settings.library }
        ensures site { NameIsSet bytes.now self.now.settings → site_view bytes.now result ≡ site_in self.now.settings }
    {
        let settings = &self.settings;
        BindCursor {
            from: self.from,
            upto: self.upto,
            place: self.place,
            count: self.count,
            stride: self.stride,
            name_place: place_in(bytes, settings.name_place),
            library: settings.library,
            special: more.special.unwrap_or(0),
            offset: settings.offset,
            addend: settings.addend,
            sequence: settings.sequence,
            segment: settings.segment,
            flags: settings.flags,
            ordinal: flags(more.has_ordinal, more.special.is_some()),
            is_lazy: flag(settings.is_lazy),
            ended: flag(self.ended),
            kind: more.kind,
            has_name: flag(more.has_name),
            has_segment: flag(more.has_segment),
        }
    }

    // Returns the state with these numbers.
    fn at(bytes: &'a [u8], cursor: &BindCursor) -> State<'a>
        ensures state { state_of result ≡ state_in bytes.now cursor.now }
        ensures named { NameIsSet bytes.now result.settings }
        ensures site { site_in result.settings ≡ site_view bytes.now cursor.now }
    {
        let (name, name_place) = name_at(bytes, cursor.name_place);
        State {
            from: cursor.from,
            upto: cursor.upto,
            place: cursor.place,
            count: cursor.count,
            stride: cursor.stride,
            settings: Settings {
                name,
                name_place,
                library: cursor.library,
                offset: cursor.offset,
                addend: cursor.addend,
                sequence: cursor.sequence,
                segment: cursor.segment,
                flags: cursor.flags,
                is_lazy: cursor.is_lazy != 0,
            },
            ended: cursor.ended != 0,
        }
    }
}

impl BindCursor {
    // Returns the settings of bindings beyond those in `Settings`.
    fn extra(&self) -> BindingSettings
        ensures { result ≡ extra_in self.now }
    {
        BindingSettings {
            special: self.special(),
            kind: self.kind,
            has_ordinal: self.ordinal & 1 != 0,
            has_name: self.has_name != 0,
            has_segment: self.has_segment != 0,
        }
    }

    // Returns the special ordinal, if one was set.
    fn special(&self) -> Option<i64>
        ensures { result ≡ special_in self.now }
    {
        if self.ordinal & 2 != 0 {
            Some(self.special)
        } else {
            None
        }
    }
}

impl<'a> BindInterpreter<'a> {
    // Returns the streams from a cursor on, with these further settings.
    fn stream_from<'b, M: BindRules<'a>>(
        &self,
        libs: &'b [&'a str],
        segments: &'b [Segment<'a>],
        ctx: Ctx,
        cursor: &BindCursor,
        more: M,
    ) -> Stream<'a, 'b, M>
        ensures items { items_left M.rules result ≡ items_of M.rules
            (input_in self.now (pointer_size ctx.container) (texts libs.now) (map segment_view segments.now)) self.now.lazy more
            (state_in self.now.bytes cursor.now) }
        ensures over { machine.IsOver (input_in self.now (pointer_size ctx.container) (texts libs.now) (map segment_view segments.now)) self.now.lazy result }
        ensures sites { sites_left M.rules result ≡ sites_of
            (reader_by M.rules (input_in self.now (pointer_size ctx.container) (texts libs.now) (map segment_view segments.now))) self.now.lazy
            (site_view self.now.bytes cursor.now) (state_in self.now.bytes cursor.now) }
    {
        Stream {
            source: self.source(libs, segments, ctx),
            lazy_from: self.lazy_from,
            lazy_upto: self.lazy_upto,
            state: State::at(self.bytes, cursor),
            more,
        }
    }

    /// Returns the imports after a cursor of such an iterator.
    pub fn imports_from<'b>(
        &self,
        libs: &'b [&'a str],
        segments: &'b [Segment<'a>],
        ctx: Ctx,
        cursor: &BindCursor,
    ) -> BindIterator<'a, 'b>
        ensures items { imports_left result
            ≡ imports_after (input_in self.now (pointer_size ctx.container) (texts libs.now) (map segment_view segments.now)) self.now.lazy cursor.now }
        ensures over { IsOverImports (input_in self.now (pointer_size ctx.container) (texts libs.now) (map segment_view segments.now)) self.now.lazy result }
        ensures sites { import_sites_left result
            ≡ import_sites_after (input_in self.now (pointer_size ctx.container) (texts libs.now) (map segment_view segments.now)) self.now.lazy cursor.now }
    {
        BindIterator {
            stream: self.stream_from(libs, segments, ctx, cursor, ImportSettings),
        }
    }

    /// Returns the bindings after a cursor of such an iterator.
    pub fn bindings_from<'b>(
        &self,
        libs: &'b [&'a str],
        segments: &'b [Segment<'a>],
        ctx: Ctx,
        cursor: &BindCursor,
    ) -> OpcodeBindingIterator<'a, 'b>
        ensures items { opcode_bindings_left result
            ≡ opcode_bindings_after (input_in self.now (pointer_size ctx.container) (texts libs.now) (map segment_view segments.now))
            self.now.lazy cursor.now }
        ensures over { IsOverBindings (input_in self.now (pointer_size ctx.container) (texts libs.now) (map segment_view segments.now)) self.now.lazy result }
        ensures sites { binding_sites_left result
            ≡ binding_sites_after (input_in self.now (pointer_size ctx.container) (texts libs.now) (map segment_view segments.now)) self.now.lazy cursor.now }
    {
        OpcodeBindingIterator {
            stream: self.stream_from(libs, segments, ctx, cursor, cursor.extra()),
        }
    }

    /// Returns the cursor of an iterator at the start, over imports or over bindings.
    pub fn cursor(&self) -> BindCursor
        ensures state { state_in self.now.bytes result ≡ start_of self.now.non_lazy }
        ensures more { extra_in result ≡ first_extra false }
        ensures library { result.library ≡ 0 }
    {
        State::start(self.from, self.upto, false).cursor(
            self.bytes,
            <BindingSettings as BindRules<'_>>::first(false),
        )
    }
}

impl<'a> BindIterator<'a, '_> {
    /// Returns a cursor of the imports that are left.
    pub fn cursor(&self) -> BindCursor
        ensures items { (x : Input) (lazy : Range) → IsOverImports x lazy self.now → imports_after x lazy result ≡ imports_left self.now }
        ensures sites { (x : Input) (lazy : Range) → IsOverImports x lazy self.now → import_sites_after x lazy result ≡ import_sites_left self.now }
    {
        self.stream.state.cursor(
            self.stream.source.bytes,
            <BindingSettings as BindRules<'_>>::first(false),
        )
    }

    /// Returns the next import with its places, or the fault that ends the iterator.
    #[inline(always)]
    pub fn next_placed(&mut self) -> Option<Result<PlacedImport<'a>>>
        ensures items { YieldsFirstBy placed_read imports_left self.old result self.new }
        ensures end { IfNone result (HasEndedImports self.new) }
        ensures fault { IfSome result (λ item. OnErr item (HasEndedImports self.new)) }
        ensures over { (x : Input) (lazy : Range) → IsOverImports x lazy self.old → IsOverImports x lazy self.new }
        ensures placed { (x : Input) (lazy : Range) → IsOverImports x lazy self.old → IfSome result (λ item. IfOk item (IsPlaced x)) }
        ensures site { IfSome result (λ item. IfOk item (λ p. import_sites_left self.old ≡ site_of p ∷ import_sites_left self.new)) }
    {
        match self.stream.next_item() {
            None => None,
            Some(Err(e)) => Some(Err(e)),
            Some(Ok(import)) => Some(Ok(PlacedImport {
                import,
                name_place: self.stream.state.settings.name_place,
                library: self.stream.state.settings.library,
            })),
        }
    }
}

impl<'a> OpcodeBindingIterator<'a, '_> {
    /// Returns a cursor of the bindings that are left.
    pub fn cursor(&self) -> BindCursor
        ensures items { (x : Input) (lazy : Range) → IsOverBindings x lazy self.now → opcode_bindings_after x lazy result ≡ opcode_bindings_left self.now }
        ensures sites { (x : Input) (lazy : Range) → IsOverBindings x lazy self.now → binding_sites_after x lazy result ≡ binding_sites_left self.now }
    {
        self.stream
            .state
            .cursor(self.stream.source.bytes, self.stream.more)
    }

    /// Returns the next binding with the place of its name, or the fault that ends the iterator.
    #[inline(always)]
    pub fn next_placed(&mut self) -> Option<Result<PlacedBinding<'a>>>
        ensures items { YieldsFirstBy placed_binding_read opcode_bindings_left self.old result self.new }
        ensures end { IfNone result (HasEndedOpcodeBindings self.new) }
        ensures fault { IfSome result (λ item. OnErr item (HasEndedOpcodeBindings self.new)) }
        ensures over { (x : Input) (lazy : Range) → IsOverBindings x lazy self.old → IsOverBindings x lazy self.new }
        ensures placed { (x : Input) (lazy : Range) → IsOverBindings x lazy self.old
            → IfSome result (λ item. IfOk item (λ p. TextIsAt x.bytes p.name_place p.binding.name.now)) }
        ensures site { IfSome result (λ item. IfOk item (λ p. (library : ℕ)
            × (binding_sites_left self.old ≡ record { name_place = p.name_place; library = library } ∷ binding_sites_left self.new))) }
    {
        match self.stream.next_item() {
            None => None,
            Some(Err(e)) => Some(Err(e)),
            Some(Ok(binding)) => Some(Ok(PlacedBinding {
                binding,
                name_place: self.stream.state.settings.name_place,
            })),
        }
    }
}
