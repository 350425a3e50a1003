//! The state of a reader of one stream.

ghost use Rattle.std.specs.Prelude.{◌≡◌, ◌+◌, ◌≤◌, ◌%◌, ◌^◌, ℕ, length, Ok, IsErr, false, IfNone, IfSome, MatchOption};
ghost use Rattle.mach_dyld.specs.Instructions.{nothing, row_at};
ghost use Rattle.mach_dyld.specs.Machine.{start_of, executed, executed_by, state_of};
ghost use Rattle.mach_dyld.specs.NamePlaces.{IsUnnamed, NameIsSet};
ghost use Rattle.mach_dyld.specs.Sites.{no_site, site_by, site_in};

use crate::bind_opcodes::*;
use crate::imports::instruction::rare_sleb;
use crate::imports::settings::Settings;
use mach_base::{quick_text, quick_uleb};

/// The state of a reader of one stream.
#[derive(Clone, Copy)]
pub struct State<'a> {
    pub from: usize,
    pub upto: usize,
    pub place: usize,
    /// The number of binds left of the last instruction, and the distance from each to the next.
    pub count: u64,
    pub stride: u64,
    pub settings: Settings<'a>,
    pub ended: bool,
}

impl<'a> State<'a> {
    /// Returns the state at the start of a range.
    pub fn start(from: usize, upto: usize, is_lazy: bool) -> Self
        ensures state { state_of result
            ≡ start_of (record { from = from; upto = upto; is_lazy = is_lazy }) }
        ensures on { result.ended ≡ false }
        ensures unnamed { IsUnnamed result.settings }
        ensures site { site_in result.settings ≡ no_site }
    {
        State {
            from,
            upto,
            place: from,
            count: 0,
            stride: 0,
            settings: Settings::fresh(is_lazy, 0),
            ended: false,
        }
    }

    /// Reads the operands of an opcode with its immediate, which begin at a place, and sets the settings and the binds of
    /// the instruction. Returns None if they can't be read. A pointer has `pointer` bytes.
    #[tactic(auto, unfolding(crate::specs::Instructions::row_at, crate::specs::Instructions::with_uleb, crate::specs::Instructions::symbol_operand_at, crate::specs::Instructions::addend_at, crate::specs::Instructions::times_at, crate::specs::Machine::set_by, crate::specs::Machine::executed))]
    #[inline(always)]
    pub fn execute(
        &mut self,
        bytes: &'a [u8],
        pointer: u8,
        opcode: Opcode,
        imm: u8,
        place: usize,
    ) -> Option<()>
        requires count { self.old.count ≡ 0 }
        requires within { place ≤ length bytes.now }
        ensures value { MatchOption result (IsErr (row_at pointer bytes.now opcode imm place))
            (λ _. executed_by pointer (row_at pointer bytes.now opcode imm place) (state_of self.old)
            ≡ Ok (state_of self.new)) }
        ensures place { IfNone result (self.new.place ≡ self.old.place) }
        ensures count { IfNone result (self.new.count ≡ 0) }
        ensures upto { self.new.upto ≡ self.old.upto }
        ensures from { self.new.from ≡ self.old.from }
        ensures ended { self.new.ended ≡ self.old.ended }
        ensures is_lazy { self.new.settings.is_lazy ≡ self.old.settings.is_lazy }
        ensures named { NameIsSet bytes.now self.old.settings → NameIsSet bytes.now self.new.settings }
        ensures site { IfSome result (λ _. site_by place (row_at pointer bytes.now opcode imm place) (site_in self.old.settings)
            ≡ Ok (site_in self.new.settings)) }
    {
        self.stride = 0;
        let after = match opcode {
            BIND_OPCODE_DONE => {
                self.settings.clear(place.saturating_sub(self.from) as u64);
                place
            }
            BIND_OPCODE_SET_DYLIB_ORDINAL_IMM => {
                self.settings.library = u64::from(imm);
                place
            }
            BIND_OPCODE_SET_DYLIB_ORDINAL_ULEB => {
                let (library, after) = quick_uleb(bytes, place)?;
                self.settings.library = library;
                after
            }
            BIND_OPCODE_SET_SYMBOL_TRAILING_FLAGS_IMM => {
                let name = quick_text(bytes, place)?;
                self.settings.name = name;
                self.settings.name_place = place;
                self.settings.flags = imm;
                place + name.len() + 1
            }
            BIND_OPCODE_SET_ADDEND_SLEB => {
                let (addend, after) = rare_sleb(bytes, place)?;
                self.settings.addend = addend;
                after
            }
            BIND_OPCODE_SET_SEGMENT_AND_OFFSET_ULEB => {
                let (offset, after) = quick_uleb(bytes, place)?;
                self.settings.segment = imm;
                self.settings.offset = offset;
                after
            }
            BIND_OPCODE_ADD_ADDR_ULEB => {
                let (by, after) = quick_uleb(bytes, place)?;
                self.settings.advance(by);
                after
            }
            BIND_OPCODE_DO_BIND => {
                self.make(1, 0, pointer);
                place
            }
            BIND_OPCODE_DO_BIND_ADD_ADDR_ULEB => {
                let (skip, after) = quick_uleb(bytes, place)?;
                self.make(1, skip, pointer);
                after
            }
            BIND_OPCODE_DO_BIND_ADD_ADDR_IMM_SCALED => {
                self.make(1, u64::from(imm) * u64::from(pointer), pointer);
                place
            }
            BIND_OPCODE_DO_BIND_ULEB_TIMES_SKIPPING_ULEB => {
                let (count, next) = quick_uleb(bytes, place)?;
                let (skip, after) = quick_uleb(bytes, next)?;
                self.make(count, skip, pointer);
                after
            }
            _ => place,
        };
        self.place = after;
        Some(())
    }

    /// Moves to a place and sets nothing.
    #[tactic(auto, unfolding(crate::specs::Machine::set_by, crate::specs::Machine::executed))]
    #[inline(always)]
    pub fn go_to(&mut self, to: usize)
        requires count { self.old.count ≡ 0 }
        ensures state { (pointer : ℕ) → executed pointer nothing to (state_of self.old) ≡ state_of self.new }
        ensures upto { self.new.upto ≡ self.old.upto }
        ensures from { self.new.from ≡ self.old.from }
        ensures ended { self.new.ended ≡ self.old.ended }
        ensures settings { self.new.settings ≡ self.old.settings }
    {
        self.stride = 0;
        self.place = to;
    }

    // Sets `count` binds; after each, the offset advances by the skip and a pointer.
    #[inline(always)]
    fn make(&mut self, count: u64, skip: u64, pointer: u8)
        ensures { self.new ≡ record self.old { count = count; stride = (skip + pointer) % 2 ^ 64 } }
    {
        self.count = count;
        self.stride = skip.wrapping_add(u64::from(pointer));
    }
}
