//! What an image has at an address.

ghost use Rattle.std.specs.Prelude.{◌≡◌, ℕ, List};
ghost use Rattle.goblin_mach.specs.OpenImage.{IsLossyImage};
ghost use Rattle.goblin_mach.specs.AddressFound.{IsFoundAt};

// The memory of the segments and of the sections, and many look-ups.
mod map;
mod memory;
mod segments;
mod stretches;

pub use crate::addresses::map::AddressMap;
pub use crate::addresses::segments::{AllStretches, SegmentStretches};
pub use crate::addresses::stretches::{Stretch, Stretches};
use crate::macho::{Function, MachO, SymbolAt};
use mach_parts::segment::NumberedSection;
use std::alloc::Allocator;

/// What an image has at an address, before sliding.
#[derive(Debug, Drop)]
pub struct FoundAt<'a> {
    /// The section that holds it.
    pub section: Option<NumberedSection>,
    /// The symbol at or below it that is nearest to it.
    pub symbol: Option<SymbolAt<'a>>,
    /// The function that holds it.
    pub function: Option<Function>,
}

impl<'a> FoundAt<'a> {
    /// Looks up an address in an image.
    pub fn look_up<A: Allocator>(image: &MachO<'a, A>, address: u64) -> FoundAt<'a>
        ensures { (bytes : List ℕ) → IsLossyImage bytes 0 image.now → IsFoundAt bytes address result }
    {
        FoundAt {
            section: image.section_at(address),
            symbol: image.symbol_at(address),
            function: image.function_at(address),
        }
    }
}
