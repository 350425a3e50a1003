//! What the rules read of an image.

ghost use Rattle.std.specs.Prelude.{◌≡◌};
ghost use Rattle.goblin_mach.specs.Held.{laid_view};
ghost use Rattle.mach_layout.specs.Laid.{laid_of};

pub(crate) mod faults;
pub(crate) mod lists;

pub use crate::layout::faults::{claims, layout_faults};
use crate::macho::MachO;
use mach_layout::Layout;
use std::alloc::Allocator;

/// Returns what the rules read of an image that was opened at the first of its bytes.
pub fn layout_of<'a, 'b, A: Allocator>(image: &'b MachO<'a, A>) -> Layout<'a, 'b>
    ensures { laid_of result ≡ laid_view image.now }
{
    Layout {
        bytes: image.bytes(),
        ctx: image.ctx(),
        header: image.header,
        commands: image.load_commands.as_slice(),
    }
}
