//! Which parts of a file are selected.

ghost use Rattle.std.specs.Prelude.{◌≡◌, ◌≢◌, ◌∷◌, [], length, IfNone, IfSome};
ghost use Rattle.std.specs.Iterator.{YieldsFirstBy};
ghost use Rattle.goblin_mach.specs.ItemsLeft.{input_item_read};
ghost use Rattle.mach_cli.specs.Bounds.{most_images};
ghost use Rattle.mach_cli.specs.Selected.{are_missed, are_more, is_part_for, parts_within, selected_parts, selected_parts_left};
ghost use Rattle.mach_cli.specs.Selected.{within_left};
ghost use Rattle.mach_cli.specs.PartsOf.{parts_left};

use crate::bounds::most_images;
use crate::cpu::Cpu;
use crate::parts::Parts;
use goblin_mach::{InputItem, ItemPlace};

/// Whether a part is selected by the cpu of its entry. If it has no entry, its image decides.
pub fn is_for(cpu: Cpu, place: &ItemPlace) -> bool
    ensures { result ≡ is_part_for cpu place.now }
{
    match place.cpu {
        Some(entry) => cpu.takes(entry.cputype, entry.cpusubtype),
        None => true,
    }
}

/// Whether a cpu is selected, and none of these parts of what is no archive is for it.
pub fn is_missed(cpu: Cpu, is_archive: bool, parts: Parts<'_>) -> bool
    ensures { result ≡ are_missed cpu is_archive (parts_left parts.entry) }
{
    let mut selected = SelectedParts {
        cpu,
        room: 0,
        parts,
    };
    !is_archive && cpu.is_chosen() && selected.next_selected().is_none()
}

/// Whether more parts are selected than a limit allows.
pub fn are_more(limit: usize, cpu: Cpu, parts: Parts<'_>) -> bool
    ensures { result ≡ are_more limit cpu (parts_left parts.entry) }
{
    let mut room = limit;
    'parts: for part in parts {
        if !is_for(cpu, &part.place) {
            continue;
        }
        let Some(rest) = room.checked_sub(1) else {
            return true;
        };
        room = rest;
    }
    false
}

/// Returns the part that is selected, if only one is.
pub fn only_selected<'a>(cpu: Cpu, parts: Parts<'a>) -> Option<InputItem<'a>>
    ensures one { IfSome result (λ part. selected_parts cpu (parts_left parts.entry) ≡ input_item_read part ∷ []) }
    ensures other { IfNone result (length (selected_parts cpu (parts_left parts.entry)) ≢ 1) }
{
    let mut selected = SelectedParts {
        cpu,
        room: 0,
        parts,
    };
    let part = selected.next_selected()?;
    match selected.next_selected() {
        Some(_) => None,
        None => Some(part),
    }
}

/// The parts that are selected by the cpu of their entry, no more of them than a limit.
#[derive(Clone, Copy)]
pub struct SelectedParts<'a> {
    cpu: Cpu,
    // How many more may be given.
    room: usize,
    parts: Parts<'a>,
}

impl<'a> SelectedParts<'a> {
    /// Returns the first of these parts that are selected, as many as so many lines allow.
    pub fn of(limit: usize, cpu: Cpu, parts: Parts<'a>) -> Self
        ensures { within_left result ≡ parts_within (most_images limit) cpu (parts_left parts.entry) }
    {
        SelectedParts {
            cpu,
            room: most_images(limit),
            parts,
        }
    }

    // Returns the next part that is selected, whatever the limit.
    fn next_selected(&mut self) -> Option<InputItem<'a>>
        ensures given { YieldsFirstBy input_item_read selected_parts_left self.old result self.new }
        ensures kept { self.new.room ≡ self.old.room }
        ensures same { self.new.cpu ≡ self.old.cpu }
    {
        'parts: while let Some(part) = self.parts.next() {
            if is_for(self.cpu, &part.place) {
                return Some(part);
            }
        }
        None
    }
}

impl<'a> Iterator for SelectedParts<'a> {
    type Item = InputItem<'a>;

    ghost use Rattle.std.specs.Iterator.{YieldsFirstBy, item_count};

    ghost next_gives = { YieldsFirstBy input_item_read within_left };

    ghost remaining = { item_count within_left };

    fn next(&mut self) -> Option<InputItem<'a>> {
        let room = self.room.checked_sub(1)?;
        let part = self.next_selected()?;
        self.room = room;
        Some(part)
    }
}
