//! The functions that dyld calls before an image's main function.

ghost use Rattle.std.specs.Prelude.{◌≡◌, ◌∷◌, [], List, Result, IfOk, IfErr, MatchOption, Ok, Err, option_map};
ghost use Rattle.std.specs.Iterator.{YieldsFirstBy};
ghost use Rattle.mach_base.specs.Answer.{Reads};
ghost use Rattle.mach_base.specs.Fault.{Fault, fault_of};
ghost use Rattle.mach_chained.specs.Fixups.{Fixup};
ghost use Rattle.goblin_mach.specs.Fixups.{AreImageFixups, chained_view};
ghost use Rattle.goblin_mach.specs.Initializers.{form_of_fixups, init_slot, init_slot_size, initializer_read, initializer_target, initializers_left};
ghost use Rattle.goblin_mach.specs.Initializers.{initializers_over, init_input_of, init_run_left, section_initializers, init_width};
ghost use Rattle.goblin_mach.specs.OpenImage.{bytes_view, ctx_view, segments_view};

use crate::macho::MachO;
use mach_base::{Ctx, Endian, Result};
use mach_chained::{FixupKind, PointerFormat, read_pointer};
use mach_parts::segment::{NumberedSection, ReadableSections};
use mach_records::constants::SECTION_TYPE;
use std::alloc::Allocator;

/// The type of a section with pointers to functions that dyld calls before the main function.
pub const S_MOD_INIT_FUNC_POINTERS: u32 = 0x9;

/// The type of a section with the offsets of such functions from the image's first byte, of 32 bits each.
pub const S_INIT_FUNC_OFFSETS: u32 = 0x16;

/// A function that dyld calls before the main function.
#[derive(Clone, Copy, Debug)]
pub struct Initializer {
    /// The section that holds it.
    pub section: NumberedSection,
    /// The address of its slot in that section.
    pub slot: u64,
    /// The address of the function.
    pub target: u64,
}

// How pointers are stored: their format, and the greatest pointer of a segment.
pub type PointerForm = (PointerFormat, u32);

// What initializers are read from.
#[derive(Clone, Copy)]
pub struct InitializerSource<'a> {
    pub bytes: &'a [u8],
    pub ctx: Ctx,
    pub base: u64,
    pub form: Option<PointerForm>,
}

// The slots that are left of a section, and whether they have 8 bytes or 4.
#[derive(Clone, Copy)]
pub struct InitializerRun<'a> {
    pub section: NumberedSection,
    pub held: &'a [u8],
    pub is_wide: bool,
    pub index: usize,
}

/// An iterator over the initializers of an image: by segments, by sections, and in the order of their slots. An error takes the
/// place of a section whose bytes can't be read. It allocates nothing.
#[derive(Clone, Copy)]
pub struct InitializerIterator<'a, 'b> {
    source: InitializerSource<'a>,
    sections: ReadableSections<'a, 'b>,
    run: Option<InitializerRun<'a>>,
}

/// Returns how an image stores pointers, by the segment in which its first fixup is, if it has chains.
pub fn pointer_form<A: Allocator>(image: &MachO<'_, A>) -> Result<Option<PointerForm>>
    ensures { (fixups : List (Result Fixup Fault)) × AreImageFixups (chained_view image.now) (segments_view image.now) fixups
        × Reads (λ form. form) result (form_of_fixups (chained_view image.now) fixups) }
{
    let Some(first) = image.fixups().next() else {
        return Ok(None);
    };
    let number = first?.segment;
    let Some(chained) = image.chained_fixups()? else {
        return Ok(None);
    };
    let Some((starts, _)) = chained.starts(number)? else {
        return Ok(None);
    };
    let Some(format) = PointerFormat::of(starts.pointer_format) else {
        return Ok(None);
    };
    Ok(Some((format, starts.max_valid_pointer)))
}

// Returns the place of slot k of 8 bytes and what is stored in it, if there are so many.
fn wide_slot(le: Endian, held: &[u8], k: usize) -> Option<(usize, u64)>
    ensures { result ≡ init_slot le held.now 8 k }
{
    if k >= held.len() / 8 {
        return None;
    }
    Some((k * 8, le.u64_at(held, k * 8)))
}

// Returns the place of slot k of 4 bytes and what is stored in it, if there are so many.
fn narrow_slot(le: Endian, held: &[u8], k: usize) -> Option<(usize, u64)>
    ensures { result ≡ init_slot le held.now 4 k }
{
    if k >= held.len() / 4 {
        return None;
    }
    Some((k * 4, u64::from(le.u32_at(held, k * 4))))
}

// Whether a section with these flags has slots of 8 bytes, or of 4, if it has initializers.
fn slot_width(ctx: Ctx, flags: u32) -> Option<bool>
    ensures { option_map init_width result ≡ init_slot_size ctx flags }
{
    match flags & SECTION_TYPE {
        S_MOD_INIT_FUNC_POINTERS => Some(ctx.is_big()),
        S_INIT_FUNC_OFFSETS => Some(false),
        _ => None,
    }
}

impl<'a> InitializerSource<'a> {
    // Returns the address of a function, by what is stored in a slot.
    fn target(&self, flags: u32, stored: u64) -> u64
        ensures { result ≡ initializer_target (init_input_of self.now) flags stored }
    {
        if flags & SECTION_TYPE == S_INIT_FUNC_OFFSETS {
            return self.base.wrapping_add(stored);
        }
        let Some((format, greatest)) = self.form else {
            return stored;
        };
        match read_pointer(format, self.base, greatest, stored).kind {
            FixupKind::Rebase { target } => target,
            _ => stored,
        }
    }

    // Returns the slots of a section; none if it has no initializers.
    fn open(&self, section: &NumberedSection) -> Result<Option<InitializerRun<'a>>>
        ensures opened { IfOk result (λ run. init_run_left (init_input_of self.now) run ≡ section_initializers (init_input_of self.now) section.now) }
        ensures refused { IfErr result (λ e. section_initializers (init_input_of self.now) section.now ≡ Err (fault_of e) ∷ []) }
    {
        let Some(is_wide) = slot_width(self.ctx, section.section.flags) else {
            return Ok(None);
        };
        let held = section.data_in(self.bytes)?;
        Ok(Some(InitializerRun {
            section: *section,
            held,
            is_wide,
            index: 0,
        }))
    }

    // Returns the place of the first slot that is left, and what is stored in it.
    fn first(&self, run: &InitializerRun<'a>) -> Option<(usize, u64)>
        ensures { result ≡ init_slot self.now.ctx.le run.now.held.now (init_width run.now.is_wide) run.now.index }
    {
        if run.is_wide {
            wide_slot(self.ctx.le, run.held, run.index)
        } else {
            narrow_slot(self.ctx.le, run.held, run.index)
        }
    }
}

impl<'a, 'b> InitializerIterator<'a, 'b> {
    /// Returns those of an image whose pointers are stored so.
    pub(crate) fn of<A: Allocator>(image: &'b MachO<'a, A>, form: Option<PointerForm>) -> Self
        ensures { initializers_left result ≡ initializers_over (ctx_view image.now) (bytes_view image.now) (segments_view image.now) form }
    {
        InitializerIterator {
            source: InitializerSource {
                bytes: image.bytes(),
                ctx: image.ctx(),
                base: image.base(),
                form,
            },
            sections: ReadableSections::new(image.segments.as_slice()),
            run: None,
        }
    }

    // Returns the next initializer of the current section.
    fn next_of_run(&mut self) -> Option<Initializer>
        ensures item { MatchOption result
            ((init_run_left (init_input_of self.old.source) self.old.run ≡ []) × (init_run_left (init_input_of self.old.source) self.new.run ≡ []))
            (λ item. init_run_left (init_input_of self.old.source) self.old.run ≡ Ok item ∷ init_run_left (init_input_of self.old.source) self.new.run) }
        ensures source { self.new.source ≡ self.old.source }
        ensures sections { self.new.sections ≡ self.old.sections }
    {
        let source = self.source;
        let run = match &mut self.run {
            None => return None,
            Some(run) => run,
        };
        let (place, stored) = source.first(run)?;
        run.index += 1;
        let section = run.section;
        let record = &section.section;
        Some(Initializer {
            section,
            slot: record.addr.wrapping_add(place as u64),
            target: source.target(record.flags, stored),
        })
    }

    // Returns the next initializer, or the error of a section.
    fn take_next(&mut self) -> Option<Result<Initializer>>
        ensures { YieldsFirstBy initializer_read initializers_left self.old result self.new }
    {
        'sections: loop {
            if let Some(found) = self.next_of_run() {
                return Some(Ok(found));
            }
            let section = self.sections.next()?;
            match self.source.open(&section) {
                Ok(run) => self.run = run,
                Err(e) => return Some(Err(e)),
            }
        }
    }
}

impl<'a, 'b> Iterator for InitializerIterator<'a, 'b> {
    type Item = Result<Initializer>;

    ghost use Rattle.std.specs.Iterator.{item_count};

    ghost next_gives = { YieldsFirstBy initializer_read initializers_left };

    ghost remaining = { item_count initializers_left };

    fn next(&mut self) -> Option<Result<Initializer>> {
        self.take_next()
    }
}
