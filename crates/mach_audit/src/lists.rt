//! Audits the lists of an image, one item at a time. No item is kept.

ghost use Rattle.std.specs.Prelude.{◌++◌, ◌-◌, ◌<◌, ◌^◌, ℕ, List, Option, IfOk, IsTrue, OnOk, map, min, option_map, ◌≡◌};
ghost use Rattle.std.specs.List.{sum_by};
ghost use Rattle.mach_base.specs.Text.{texts};
ghost use Rattle.mach_parts.specs.SectionItems.{sections_left, section_read};
ghost use Rattle.mach_parts.specs.Segment.{segment_view};
ghost use Rattle.mach_parts.specs.SymbolViews.{table_of};
ghost use Rattle.goblin_mach.specs.OpenImage.{trie_view};
ghost use Rattle.goblin_mach.specs.Subjects.{symbols_view, trie_or_empty};
ghost use Rattle.mach_audit.specs.Items.{faults_left};
ghost use Rattle.mach_audit.specs.Sound.{are_all_ok};
ghost use Rattle.mach_audit.specs.Reported.{FaultAt, HasMet, ReportsOf, ReportsOfTrie, ReportsRecords, faults_from};
ghost use Rattle.mach_audit.specs.Reported.{placed_from, section_faults_reported, sections_beyond};
ghost use Rattle.mach_audit.specs.Reported.{relocations_in_bounds, relocation_faults, relocation_faults_by, relocations_past, relocations_past_of};
ghost use Rattle.mach_audit.specs.Reported.{symbols_unread, symbols_beyond};
ghost use Rattle.mach_audit.specs.declared.report.ItemList.TheVariants as lists;

use crate::items::Items;
use crate::report::{FaultPlace, ItemList, PartReport, Records, no_memory};
use crate::tally::Tally;
use goblin_mach::segment::{Section, SectionData, SectionIterator, Segment};
use goblin_mach::{Ctx, MachO};
use mach_parts::laws::symbols_past_the_end;
use std::alloc::{AllocError, Allocator};

/// Audits a list, at most `limit` items.
pub fn audit_list<A: Allocator>(
    alloc: A,
    list: ItemList,
    items: Items<'_>,
    limit: usize,
) -> Result<PartReport<A>, AllocError>
    ensures reported { IfOk result (ReportsOf limit (placed_from list 0 (faults_left items.entry))) }
{
    let mut tally = Tally::new(alloc, limit);
    add_list(list, items, &mut tally)?;
    Ok(tally.part())
}

// Adds the items of a list.
fn add_list<A: Allocator>(
    list: ItemList,
    mut items: Items<'_>,
    tally: &mut Tally<A>,
) -> Result<(), AllocError>
    ensures reported { OnOk result ((limit : ℕ) (met : List (Option FaultAt)) → HasMet limit met tally.old
        → HasMet limit (met ++ placed_from list 0 (faults_left items.entry)) tally.new) }
{
    let mut index = 0usize;
    'items: while let Some(error) = items.next_error() {
        let place = FaultPlace { list, index };
        if !tally.take(place, error)? {
            return Ok(());
        }
        index = index.saturating_add(1);
    }
    Ok(())
}

/// Audits the sections of all segments that begin within the bytes, at most `limit`.
pub fn audit_sections<A: Allocator>(
    alloc: A,
    segments: &[Segment<'_>],
    limit: usize,
) -> Result<Records<A>, AllocError>
    ensures reported { let views = map segment_view segments.now in IfOk result (ReportsRecords limit (section_faults_reported views) (sections_beyond views)) }
{
    let mut tally = Tally::new(alloc, limit);
    let mut past = 0usize;
    let mut number = 0usize;
    for segment in segments {
        let sections = segment.into_iter();
        let in_bounds = sections.in_bounds();
        past = past.saturating_add(sections.len().saturating_sub(in_bounds.len()));
        let list = ItemList::Sections(number);
        add_list(list, Items::Sections(in_bounds), &mut tally)?;
        number = number.saturating_add(1);
    }
    let in_bounds = tally.part();
    Ok(Records { in_bounds, past })
}

/// Audits the relocations of all sections that begin within the bytes, at most `limit`.
pub fn audit_relocations<A: Allocator>(
    alloc: A,
    bytes: &[u8],
    ctx: Ctx,
    segments: &[Segment<'_>],
    limit: usize,
) -> Result<Records<A>, AllocError>
    ensures reported { let views = map segment_view segments.now in
        IfOk result (ReportsRecords limit (relocation_faults ctx bytes.now views) (relocations_past ctx bytes.now views)) }
{
    let mut tally = Tally::new(alloc, limit);
    let mut past = 0usize;
    let mut number = 0usize;
    for segment in segments {
        past = past.saturating_add(relocations_past(bytes, ctx, segment.into_iter()));
        add_relocations(bytes, ctx, number, segment.into_iter(), &mut tally)?;
        number = number.saturating_add(1);
    }
    let in_bounds = tally.part();
    Ok(Records { in_bounds, past })
}

// Returns how many relocations some sections claim that don't begin within the bytes, or the greatest number if there are more
// than that.
fn relocations_past(bytes: &[u8], ctx: Ctx, sections: SectionIterator<'_>) -> usize
    ensures { result ≡ min (sum_by (relocations_past_of ctx bytes.now) (sections_left sections.entry)) (2 ^ 64 - 1) }
{
    let mut past = 0usize;
    'sections: for item in sections {
        past = past.saturating_add(relocations_past_of(bytes, ctx, &item));
    }
    past
}

// Returns how many more relocations a section claims.
fn relocations_past_of(
    bytes: &[u8],
    ctx: Ctx,
    item: &goblin_mach::Result<(Section, SectionData<'_>)>,
) -> usize
    ensures { result ≡ relocations_past_of ctx bytes.now (section_read item.now) }
{
    let Ok((section, _)) = item else {
        return 0;
    };
    let relocations = section.iter_relocations(bytes, ctx);
    relocations
        .len()
        .saturating_sub(relocations.in_bounds().len())
}

// Adds the relocations of the sections of the segment with this number.
fn add_relocations<A: Allocator>(
    bytes: &[u8],
    ctx: Ctx,
    segment: usize,
    sections: SectionIterator<'_>,
    tally: &mut Tally<A>,
) -> Result<(), AllocError>
    ensures reported { OnOk result ((limit : ℕ) (items : List (Option FaultAt)) → HasMet limit items tally.old
        → HasMet limit (items ++ relocation_faults_by (relocations_in_bounds ctx bytes.now) segment (sections_left sections.entry)) tally.new) }
{
    let mut section = 0usize;
    'sections: for item in sections {
        add_relocations_by(bytes, ctx, (segment, section), &item, tally)?;
        section = section.saturating_add(1);
    }
    Ok(())
}

// Adds the relocations of the section with these numbers, if it can be read.
fn add_relocations_by<A: Allocator>(
    bytes: &[u8],
    ctx: Ctx,
    numbers: (usize, usize),
    item: &goblin_mach::Result<(Section, SectionData<'_>)>,
    tally: &mut Tally<A>,
) -> Result<(), AllocError>
    ensures reported { OnOk result ((limit : ℕ) (items : List (Option FaultAt)) → HasMet limit items tally.old
        → HasMet limit (items ++ faults_from (lists.Relocations numbers.0 numbers.1) 0 (relocations_in_bounds ctx bytes.now
        (section_read item.now))) tally.new) }
{
    let Ok((section, _)) = item else {
        return Ok(());
    };
    let relocations = section.iter_relocations(bytes, ctx);
    let list = ItemList::Relocations(numbers.0, numbers.1);
    add_list(list, Items::Relocations(relocations.in_bounds()), tally)
}

/// Audits the exports of the trie, at most `limit`, up to the first fault.
pub fn audit_exports<A: Allocator, B: Allocator + Clone>(
    alloc: B,
    image: &MachO<'_, A>,
    limit: usize,
) -> Result<PartReport<B>, AllocError>
    ensures reported { IfOk result (ReportsOfTrie limit (trie_or_empty (trie_view image.now)) (texts image.now.libs.items)) }
{
    let mut tally = Tally::new(alloc.clone()?, limit);
    let Ok(mut walk) = image.walk_exports(alloc) else {
        return Err(AllocError);
    };
    let mut index = 0usize;
    'exports: while let Some(export) = walk.next() {
        let place = FaultPlace {
            list: ItemList::Exports,
            index,
        };
        match export {
            Err(error) => {
                tally.take(place, Some(no_memory(error)?))?;
                return Ok(tally.part());
            }
            Ok(_) => {
                if !tally.take(place, None)? {
                    return Ok(tally.part());
                }
            }
        }
        index = index.saturating_add(1);
    }
    Ok(tally.part())
}

/// Audits the symbols that begin within the bytes, at most `limit`.
pub fn audit_symbols<A: Allocator, B: Allocator>(
    alloc: B,
    image: &MachO<'_, A>,
    limit: usize,
) -> Result<Records<B>, AllocError>
    ensures reported { let table = option_map table_of image.now.symbols in IfOk result (ReportsRecords limit (symbols_unread table) (symbols_beyond table)) }
    ensures broken { IfOk result (λ records. 0 < records.past → IsTrue (are_all_ok (symbols_view image.now.symbols)) → ⊥) }
{
    match &image.symbols {
        Some(table) => {
            symbols_past_the_end();
            let in_bounds = table.in_bounds();
            let past = table.len().saturating_sub(in_bounds.len());
            let symbols = Items::Symbols(in_bounds.iter());
            let in_bounds = audit_list(alloc, ItemList::Symbols, symbols, limit)?;
            Ok(Records { in_bounds, past })
        }
        None => {
            let in_bounds = Tally::new(alloc, limit).part();
            Ok(Records { in_bounds, past: 0 })
        }
    }
}
