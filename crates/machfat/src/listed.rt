//! What is shown of a file: the records of a fat file, or the cpu of one image.

ghost use Rattle.std.specs.Prelude.{◌≡◌, Ok, IfOk, IfErr};
ghost use Rattle.mach_fat_writer.specs.CreatedEntries.{created_entry};
ghost use Rattle.mach_fat_writer.specs.Unfit.{AnswersAs};
ghost use Rattle.machfat.specs.ListedFiles.{image_or_none, listed_file_in, listed_view};
ghost use Rattle.machfat.specs.Refusals.{Refuses};

use crate::entry::said;
use crate::refusal::Refusal;
use mach_fat_writer::{EntryRecord, EntryRefusal, FatEntry, fat_records};
use std::alloc::Allocator;

/// What is shown of a file.
#[derive(Drop)]
pub enum Listed<A: Allocator> {
    /// The records of a fat file.
    Records(Vec<EntryRecord, A>),
    /// The cpu of one image.
    Image { cputype: u32, cpusubtype: u32 },
}

/// Returns the records of a fat file of 32 or of 64 bits, in order, or the cpu of one image.
#[tactic(auto, using(crate::proofs::Reported::reports_of))]
pub fn list_of<A: Allocator>(alloc: A, bytes: &[u8]) -> Result<Listed<A>, Refusal>
    ensures held { IfOk result (λ file. listed_file_in bytes.now ≡ Ok (listed_view file)) }
    ensures refused { IfErr result (Refuses bytes.now (listed_file_in bytes.now)) }
{
    said(bytes, records_or_image(alloc, bytes))
}

// Returns the same, or why there are no entries.
fn records_or_image<A: Allocator>(alloc: A, bytes: &[u8]) -> Result<Listed<A>, EntryRefusal>
    ensures { AnswersAs listed_view result (listed_file_in bytes.now) }
{
    match fat_records(alloc, bytes) {
        Ok(records) => Ok(Listed::Records(records)),
        Err(EntryRefusal::NotFat) => image(bytes),
        Err(why) => Err(why),
    }
}

// Returns the cpu of an image, by its header.
fn image<A: Allocator>(bytes: &[u8]) -> Result<Listed<A>, EntryRefusal>
    ensures { AnswersAs listed_view result (image_or_none (created_entry bytes.now)) }
{
    match FatEntry::of(bytes) {
        Ok(
            FatEntry {
                cputype,
                cpusubtype,
                ..
            },
        ) => Ok(Listed::Image {
            cputype,
            cpusubtype,
        }),
        Err(_) => Err(EntryRefusal::NotFat),
    }
}
