//! Laws of an image.

ghost use Rattle.std.specs.Prelude.{◌≡◌, ℕ, List, length, Some, Ok, Err, IfOk, IfErr};
ghost use Rattle.mach_base.specs.declared.context.Endian.{Endian};
ghost use Rattle.mach_base.specs.Fault.{fault_of};
ghost use Rattle.mach_base.specs.Number.{room_at};
ghost use Rattle.mach_load.specs.Command.{Command};
ghost use Rattle.mach_parts.specs.Header.{header_size};
ghost use Rattle.goblin_mach.specs.Chain.{IsChain};
ghost use Rattle.goblin_mach.specs.Bounds.{CommandsFit, SectionsFit, SegmentsLieInBytes};
ghost use Rattle.goblin_mach.specs.Image.{Opens, LossyOpens};
ghost use Rattle.goblin_mach.specs.OpenImage.{IsImage, IsLossyImage, SameFields};

use crate::macho::MachO;
use mach_base::{Ctx, Result, TryIntoCtx};
use mach_parts::header::Header;
use mach_parts::magic::parse_magic_and_ctx;
use std::alloc::Allocator;

/// At most one chain of a number of load commands is at a place.
#[tactic(auto, using(crate::proofs::Chains::same_chain))]
pub fn one_chain()
    ensures { (le : Endian) (bytes : List ℕ) (s : ℕ) (cs ds : List Command) → IsChain le bytes s cs → IsChain le bytes s ds → length cs ≡ length ds → cs ≡ ds }
{}

/// Writes a new header of a context and reads its magic again: the result is that context. It fails only if the bytes are
/// too short for the header.
pub fn new_header_recognised(ctx: Ctx, bytes: &mut [u8]) -> Result<Option<Ctx>>
    ensures recognised { IfOk result (λ found. found ≡ Some ctx) }
    ensures refused { IfErr result (λ e. room_at (header_size ctx.container) bytes.old 0 ≡ Err (fault_of e)) }
{
    Header::new(ctx).try_into_ctx(bytes, ctx)?;
    let (_, found) = parse_magic_and_ctx(bytes, 0)?;
    Ok(found)
}

/// An image that opens strictly opens in lossy mode.
pub fn strict_opens_lossily()
    ensures { (bytes : List ℕ) (o : ℕ) → Opens bytes o → LossyOpens bytes o }
{}

/// The fields of an image that was opened strictly, and of the same image opened in lossy mode, are equal.
pub fn lossy_agrees<A: Allocator, B: Allocator>(
    bytes: &[u8],
    offset: usize,
    strict: &MachO<'_, A>,
    lossy: &MachO<'_, B>,
)
    ensures { IsImage bytes.now offset strict.now → IsLossyImage bytes.now offset lossy.now → SameFields strict.now lossy.now }
{}

/// An image that opens has at most one command for each eight bytes.
#[tactic(auto, using(crate::proofs::ListBounds::commands_fit_lem))]
pub fn commands_fit_the_bytes()
    ensures { CommandsFit }
{}

/// It has at most one section in its segment's command for each section's record that the bytes have room for. So what goes over
/// these sections, as the look-ups by address do, is linear in the bytes.
#[tactic(auto, using(crate::proofs::SectionBounds::sections_fit_lem))]
pub fn sections_fit_the_bytes()
    ensures { SectionsFit }
{}

/// The data of each of its segments lie in the bytes. So its chains have at most one fixup for each four bytes (`fixups_are_few`).
#[tactic(auto, using(crate::proofs::ListBounds::segments_lie_lem))]
pub fn segments_lie_in_the_bytes()
    ensures { SegmentsLieInBytes }
{}
