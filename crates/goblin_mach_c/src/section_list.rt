//! The sections of all segments, read in place.

ghost use Rattle.std.specs.Prelude.{◌≡◌, ◌-◌, ℕ, List, drop};
ghost use Rattle.mach_load.specs.Variants.{command_of};
ghost use Rattle.mach_parts.specs.declared.segment.section.Section as found;
ghost use Rattle.goblin_mach_c.specs.Fill.{Fills};
ghost use Rattle.goblin_mach_c.specs.SectionRows.{all_section_rows, numbered_section_row, claimed_section_count, with_numbers};
ghost use Rattle.goblin_mach_c.specs.SectionRows.{sections_of_command, sections_of_part};

use crate::images::{ctx_of, gm_image};
use crate::listed::{CommandItems, Lists, list_rows};
use crate::rows::{Rows, fill, skip};
use crate::sections::{Sections, gm_section, section_row};
use mach_base::Ctx;
use mach_load::{CommandVariant, LoadCommand};

/// A section with the offset of its segment's command, its index there, and its number over all segments, from 1. If the section's
/// `code` isn't `GM_OK` it can't be read, none follows it, and the rest is 0 but for the number.
#[derive(Clone, Copy)]
#[repr(C)]
pub struct gm_numbered_section {
    pub section: gm_section,
    pub command: usize,
    pub number: usize,
    pub index: u32,
    pub reserved: u32,
}

// Returns how many sections a command claims.
#[inline(always)]
fn claimed_section_count(command: &LoadCommand) -> u32
    ensures { result ≡ claimed_section_count (command_of command.now) }
{
    match &command.command {
        CommandVariant::Segment32(c) => c.nsects,
        CommandVariant::Segment64(c) => c.nsects,
        _ => 0,
    }
}

// The sections in some bytes.
#[derive(Clone, Copy)]
struct AllSections<'a> {
    bytes: &'a [u8],
    ctx: Ctx,
}

impl<'a> Lists for AllSections<'a> {
    type Row = gm_numbered_section;

    ghost Item = { ℕ × ℕ × (found.Section × List ℕ) };

    ghost lists = { λ s c. sections_of_command s.ctx s.bytes.now c };

    ghost left = { λ s part. sections_of_part s.ctx s.bytes.now part };

    ghost shown = { numbered_section_row };

    #[inline(always)]
    fn open(&self, command: &LoadCommand) -> CommandItems {
        CommandItems {
            command: command.offset,
            place: command.offset,
            end: command.command.cmdsize(),
            index: 0,
            count: claimed_section_count(command),
        }
    }

    fn next(
        &self,
        part: &mut CommandItems,
    ) -> Option<std::result::Result<gm_numbered_section, gm_numbered_section>> {
        if part.index >= part.count {
            return None;
        }
        let sections = Sections {
            bytes: self.bytes,
            command: part.command,
            ctx: self.ctx,
        };
        let found = sections.read(part.index);
        let section = section_row(&found);
        match found {
            Ok(_) => {
                let index = part.index;
                part.index += 1;
                Some(Ok(gm_numbered_section {
                    section,
                    command: part.command,
                    number: 0,
                    index,
                    reserved: 0,
                }))
            }
            Err(_) => Some(Err(gm_numbered_section {
                section,
                command: 0,
                number: 0,
                index: 0,
                reserved: 0,
            })),
        }
    }
}

// Rows of sections, which get their numbers.
#[derive(Drop)]
struct WithNumbers<R: Rows<Row = gm_numbered_section> + Drop> {
    rows: R,
    // How many were returned.
    before: usize,
}

impl<R: Rows<Row = gm_numbered_section> + Drop> Rows for WithNumbers<R> {
    type Row = gm_numbered_section;

    ghost left = { λ it. with_numbers it.before (R.left it.rows) };

    fn next(&mut self) -> Option<gm_numbered_section> {
        let row = self.rows.next()?;
        self.before = self.before.saturating_add(1);
        Some(gm_numbered_section {
            number: self.before,
            ..row
        })
    }
}

/// Writes the sections of all segments from index `first` on, as many as there are and fit, and returns how many.
#[unsafe(no_mangle)]
pub extern "C" fn gmr_all_sections(
    bytes: &[u8],
    image: &gm_image,
    first: usize,
    out: &mut [gm_numbered_section],
) -> usize
    ensures { Fills (drop first (all_section_rows bytes.now image.now)) out.old out.new result }
{
    let sections = AllSections {
        bytes,
        ctx: ctx_of(image),
    };
    let mut rows = WithNumbers {
        rows: list_rows(bytes, image, sections),
        before: 0,
    };
    skip(&mut rows, first);
    fill(&mut rows, out)
}
