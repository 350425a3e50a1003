//! Finds what is wrong with a file of any kind: an image, a fat file of either width, or a static library.

ghost use Rattle.std.specs.Prelude.{◌≡◌, IfOk, MatchOption, Some, None};
ghost use Rattle.goblin_mach.specs.FatFile.{file_view};
ghost use Rattle.mach_audit.specs.Inputs.{IsInputReport, IsLongInput, IsSoundInput, wide_file_in};
ghost use Rattle.mach_audit.specs.Verdicts.{Judges, verdict_of_input};

use crate::file::{audit_archive, audit_fat, audit_mach};
use crate::report::InputReport;
use goblin_mach::{FAT_MAGIC_64, MultiArch64, begins_archive, peek};
use std::alloc::{AllocError, Allocator};

// Returns the fat file of 64 bits that the bytes are, if they are one. It takes no memory.
fn wide_file<A: Allocator>(alloc: A, bytes: &[u8]) -> Option<MultiArch64<'_, A>>
    ensures { MatchOption result (wide_file_in bytes.now ≡ None) (λ file. wide_file_in bytes.now ≡ Some (file_view file)) }
{
    match peek(bytes, 0) {
        Ok(FAT_MAGIC_64) => match MultiArch64::new(alloc, bytes) {
            Ok(file) => Some(file),
            Err(_) => None,
        },
        _ => None,
    }
}

/// Audits a file and returns its report: for each image in it, what can't be read and what lies where it must not.
///
/// The images are the file itself, the entries of a fat file of either width, and the members of a static library. Of each list at
/// most `limit` items are visited, and of a list of an image no more than the image has bytes. Of the faults of a part the first
/// ten are kept, and the others counted. The verdict on the report says whether the file is sound.
pub fn audit<'a, A: Allocator + Clone>(
    alloc: &A,
    bytes: &'a [u8],
    limit: usize,
) -> Result<InputReport<'a, A>, AllocError>
    ensures reported { IfOk result (IsInputReport limit bytes.now) }
    ensures judged { IfOk result (λ r. Judges (IsSoundInput bytes.now) (IsLongInput limit bytes.now) (verdict_of_input r)) }
{
    if begins_archive(bytes) {
        let archive = audit_archive(alloc, bytes, limit)?;
        return Ok(InputReport::Archive(archive));
    }
    match wide_file(alloc.clone()?, bytes) {
        Some(container) => {
            let fat = audit_fat(alloc, &container, bytes, limit)?;
            Ok(InputReport::Fat64(fat))
        }
        None => {
            let report = audit_mach(alloc, bytes, limit)?;
            Ok(InputReport::Mach(report))
        }
    }
}
