//! Laws of sections.

ghost use Rattle.std.specs.Prelude.{◌≡◌, ◌<◌, ℕ, List, Some, length, slice_get, OnOk, OnErr};
ghost use Rattle.mach_base.specs.declared.context.Ctx.{Ctx};
ghost use Rattle.mach_base.specs.Answer.{Reads};
ghost use Rattle.mach_base.specs.Record.{IsWritten};
ghost use Rattle.mach_parts.specs.Section.{read_back, section_bytes, sections_at, section_item};

use crate::segment::Section;
use mach_base::{Ctx, Result, TryFromCtx, TryIntoCtx};

/// Writes a section at the start of some bytes and reads it back. In a 64-bit context it is the same; in
/// a 32-bit context its address and size keep their low 32 bits. On an error the bytes are unchanged.
pub fn section_written_and_read(section: Section, bytes: &mut [u8], ctx: Ctx) -> Result<Section>
    ensures again { Reads (λ s. s) result (read_back ctx section bytes.old) }
    ensures written { OnOk result (IsWritten bytes.old bytes.new 0 (section_bytes ctx.container ctx.le section)) }
    ensures refused { OnErr result (bytes.new ≡ bytes.old) }
{
    section.try_into_ctx(bytes, ctx)?;
    let (again, _) = Section::try_from_ctx(bytes, ctx)?;
    Ok(again)
}

/// Sections are addressed by number. There are `count`, and section k is the one at its own place, whatever the others are.
pub fn sections_by_number()
    ensures count { (ctx : Ctx) (file : List ℕ) (offset count : ℕ) → length (sections_at ctx file offset count) ≡ count }
    ensures item { (ctx : Ctx) (file : List ℕ) (offset count k : ℕ) → k < count
        → slice_get (sections_at ctx file offset count) k ≡ Some (section_item ctx file offset k) }
{}
