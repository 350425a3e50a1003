//! What the rules of symbols count.

ghost use Rattle.std.specs.Prelude.{◌≡◌, ◌<◌, ◌≤◌, length};
ghost use Rattle.mach_load.specs.Variants.{command_of};
ghost use Rattle.mach_layout.specs.Laid.{laid_of, placed_segment_of};
ghost use Rattle.mach_layout.specs.Symbols as defined;

use crate::layout::Layout;
use crate::placed_sections::segment_of;
use mach_load::{CommandVariant, LoadCommand};

/// Returns how many of `count` records of a size, from a place on, lie in the bytes.
pub fn whole_records(bytes: &[u8], start: u32, size: usize, count: u32) -> u32
    requires { 0 < size }
    ensures { result ≡ defined.whole_records bytes.now start size count }
{
    let room = bytes.len().saturating_sub(start as usize) / size;
    (count as usize).min(room) as u32
}

/// Returns the place where the last text among some strings ends: after their last zero byte, or 0 if they have none.
pub fn texts_end(strings: &[u8]) -> usize
    ensures value { result ≡ defined.texts_end strings.now }
    ensures within { result ≤ length strings.now }
{
    let mut end = strings.len();
    while end > 0 && strings[end - 1] != 0 {
        end -= 1;
    }
    end
}

// Returns the number of sections that a command states.
fn nsects_in(command: &LoadCommand) -> u64
    ensures { result ≡ defined.nsects_of (placed_segment_of (command_of command.now)) }
{
    match segment_of(command) {
        Some(segment) => u64::from(segment.command.nsects),
        None => 0,
    }
}

/// Returns the number of sections that the segments state; at most the last number of 64 bits.
pub fn section_count(layout: &Layout<'_, '_>) -> u64
    ensures { result ≡ defined.section_count (laid_of layout.now) }
{
    let mut count = 0u64;
    for command in layout.commands {
        count = count.saturating_add(nsects_in(command));
    }
    count
}

// Whether a command loads a library.
#[tactic(auto, unfolding(crate::specs::Symbols::brings_library))]
fn is_library(command: &LoadCommand) -> bool
    ensures { result ≡ defined.brings_library (command_of command.now) }
{
    matches!(
        command.command,
        CommandVariant::LoadDylib(_)
            | CommandVariant::LoadUpwardDylib(_)
            | CommandVariant::ReexportDylib(_)
            | CommandVariant::LoadWeakDylib(_)
            | CommandVariant::LazyLoadDylib(_)
    )
}

/// Returns the number of libraries that the commands load.
pub fn library_count(layout: &Layout<'_, '_>) -> u64
    ensures { result ≡ defined.library_count (laid_of layout.now) }
{
    let mut count = 0u64;
    for command in layout.commands {
        if is_library(command) {
            count += 1;
        }
    }
    count
}
