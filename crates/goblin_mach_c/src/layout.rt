//! The faults of the layout of an image, and of the table of a fat file.

ghost use Rattle.std.specs.Prelude.{◌≡◌, ◌≢◌, ◌⊎◌, ◌<◌, ℕ, drop, length, map, List, IfOk, IfErr};
ghost use Rattle.mach_base.specs.Answer.{ErrorMeets, IsOkUnlessMemory};
ghost use Rattle.goblin_mach.specs.LayoutFacts.{HasLayoutFaults};
ghost use Rattle.mach_layout.specs.declared.fault.LayoutFault as declared;
ghost use Rattle.goblin_mach_c.specs.Codes.{IsRefusalCode};
ghost use Rattle.goblin_mach_c.specs.Fill.{Fills};
ghost use Rattle.goblin_mach_c.specs.LayoutRows as rows;
ghost use Rattle.goblin_mach_c.specs.LayoutRows.{HasTableFaults, file_of, layout_row};
ghost use Rattle.goblin_mach_c.specs.Opened.{FaultIn, IsOpened, OpensIn, lossy_mode};
ghost use Rattle.goblin_mach_c.specs.declared.images.gm_image as numbers;

use crate::errors::{GM_OK, gm_error, refuse, refuse_no_rows};
use crate::images::gm_image;
use crate::open::open;
use crate::rows::{Rows, fill, skip};
use goblin_mach::laws::layout_faults_of_image;
use goblin_mach::layout::layout_faults;
use goblin_mach::peek;
use mach_base::Result;
use mach_layout::{LayoutFault, Owner, Part, Rule, container_faults};
use mach_parts::fat::{FAT_MAGIC, FatArch};
use mach_parts::{FAT_MAGIC_64, FatArch64};
use std::alloc::Global;

/// A fault of layout: the rule that is broken, its owner, the other owner if two disagree, and the two numbers that show it.
#[derive(Clone, Copy)]
#[repr(C)]
pub struct gm_layout_fault {
    /// What is there, and the limit that it breaks, in the meaning of the rule.
    pub found: u64,
    pub limit: u64,
    /// The offset of the owner's command; 0 for the header. For a slice the offset of its record.
    pub command: u64,
    /// The number of a section in its segment, from 1; of a symbol, an entry or a record, from 0; 0 if there is none.
    pub index: u64,
    /// The same for the other owner; 0 if there is none.
    pub other_command: u64,
    pub other_index: u64,
    pub rule: u32,
    /// What the owner is, and the other one; 0 if there is none.
    pub part: u32,
    pub other_part: u32,
    pub reserved: u32,
}

// Returns the number of a rule.
fn rule_number(rule: Rule) -> u32
    ensures { result ≡ rows.rule_number rule }
{
    match rule {
        Rule::FileKind => 1,
        Rule::CommandsOutOfFile => 2,
        Rule::CommandSize => 3,
        Rule::CommandUnaligned => 4,
        Rule::CommandOutOfCommands => 5,
        Rule::CommandCount => 6,
        Rule::SegmentWidth => 7,
        Rule::CommandsEndEarly => 8,
        Rule::CommandAgain => 9,
        Rule::DynamicSymbolsAlone => 10,
        Rule::OutOfFile => 11,
        Rule::SegmentBeyondAddresses => 12,
        Rule::SegmentFileLarger => 13,
        Rule::SegmentAddressUnaligned => 14,
        Rule::SegmentPlaceUnaligned => 15,
        Rule::SegmentNameAgain => 16,
        Rule::SegmentRights => 17,
        Rule::SegmentsShareMemory => 18,
        Rule::SegmentsShareFile => 19,
        Rule::NoSegmentOfHeader => 20,
        Rule::SectionOutOfMemory => 21,
        Rule::SectionOutOfBytes => 22,
        Rule::SectionElsewhere => 23,
        Rule::SectionAlignment => 24,
        Rule::SectionUnaligned => 25,
        Rule::SectionOfOther => 26,
        Rule::SectionsShareMemory => 27,
        Rule::ClaimsShare => 28,
        Rule::HeaderShared => 29,
        Rule::OutOfLinkedit => 30,
        Rule::EncryptedNotExecutable => 31,
        Rule::SymbolSection => 32,
        Rule::SymbolName => 33,
        Rule::SymbolRange => 34,
        Rule::SymbolRangeKind => 35,
        Rule::SymbolLibrary => 36,
        Rule::IndirectSymbol => 37,
        Rule::IndirectSection => 38,
        Rule::SymbolRangeOrder => 39,
        Rule::EntryOutOfCode => 40,
        Rule::NoEntry => 41,
        Rule::TextMisplaced => 42,
        Rule::TextEmpty => 43,
        Rule::IdMissing => 44,
        Rule::IdUnexpected => 45,
        Rule::Binds => 46,
        Rule::ChainedFixups => 47,
        Rule::ImportLibrary => 48,
        Rule::ImportName => 49,
        Rule::RecordsOutOfFile => 50,
        Rule::SliceOutOfFile => 51,
        Rule::SliceInRecords => 52,
        Rule::SliceAlignment => 53,
        Rule::SliceUnaligned => 54,
        Rule::SliceAgain => 55,
        Rule::SliceOfOtherCpu => 56,
        Rule::SlicesShare => 57,
        Rule::Rebases => 58,
        Rule::WeakBinds => 59,
        Rule::FunctionStarts => 60,
        Rule::DataOutOfCode => 61,
        Rule::DataShared => 62,
    }
}

// Returns the number of a part.
fn part_number(part: Part) -> u32
    ensures { result ≡ rows.part_number part }
{
    match part {
        Part::Header => 1,
        Part::Command => 2,
        Part::Text => 3,
        Part::Segment => 4,
        Part::Section => 5,
        Part::Relocations => 6,
        Part::Symbols => 7,
        Part::SymbolRanges => 8,
        Part::Strings => 9,
        Part::TableOfContents => 10,
        Part::Modules => 11,
        Part::ExternalReferences => 12,
        Part::IndirectSymbols => 13,
        Part::ExternalRelocations => 14,
        Part::LocalRelocations => 15,
        Part::RebaseOpcodes => 16,
        Part::BindOpcodes => 17,
        Part::WeakBindOpcodes => 18,
        Part::LazyBindOpcodes => 19,
        Part::ExportTrie => 20,
        Part::Signature => 21,
        Part::SplitInfo => 22,
        Part::FunctionStarts => 23,
        Part::DataInCode => 24,
        Part::SignatureRequirements => 25,
        Part::LinkerHints => 26,
        Part::ChainedFixups => 27,
        Part::Imports => 28,
        Part::Encrypted => 29,
        Part::Note => 30,
        Part::TwolevelHints => 31,
        Part::GdbSymbols => 32,
        Part::Binds => 33,
        Part::Entry => 34,
        Part::Slice => 35,
        Part::AtomInfo => 36,
        Part::FunctionVariants => 37,
        Part::FunctionVariantFixups => 38,
    }
}

// Returns the numbers of the other owner: its part, its command and its number.
fn numbers_of(other: Option<Owner>) -> (u32, u64, u64)
    ensures part { result.0 ≡ rows.other_part other }
    ensures command { result.1 ≡ rows.other_command other }
    ensures index { result.2 ≡ rows.other_index other }
{
    match other {
        Some(owner) => (part_number(owner.part), owner.command, owner.index),
        None => (0, 0, 0),
    }
}

/// Returns a fault as C sees it.
pub fn row_of(fault: &LayoutFault) -> gm_layout_fault
    ensures { result ≡ layout_row fault.now }
{
    let (other_part, other_command, other_index) = numbers_of(fault.other);
    gm_layout_fault {
        found: fault.found,
        limit: fault.limit,
        command: fault.owner.command,
        index: fault.owner.index,
        other_command,
        other_index,
        rule: rule_number(fault.rule),
        part: part_number(fault.owner.part),
        other_part,
        reserved: 0,
    }
}

/// Faults as C sees them, one at a time.
#[derive(Clone, Copy)]
struct LayoutRows<'a> {
    faults: &'a [LayoutFault],
}

impl<'a> Rows for LayoutRows<'a> {
    type Row = gm_layout_fault;

    ghost left = { λ it. map layout_row it.faults.now };

    fn next(&mut self) -> Option<gm_layout_fault> {
        let (fault, rest) = self.faults.split_first()?;
        self.faults = rest;
        Some(row_of(fault))
    }
}

// Writes faults from index `first` on, and returns how many.
fn write_from(faults: &[LayoutFault], first: usize, out: &mut [gm_layout_fault]) -> usize
    ensures { Fills (drop first (map layout_row faults.now)) out.old out.new result }
{
    let mut rows = LayoutRows { faults };
    skip(&mut rows, first);
    fill(&mut rows, out)
}

// Returns the faults of the layout of the image at the start of these bytes.
fn image_faults(alloc: Global, bytes: &[u8], lossy: bool) -> Result<Vec<LayoutFault, Global>>
    ensures listed { IfOk result (λ v. HasLayoutFaults bytes.now v.items) }
    ensures only { OpensIn lossy bytes.now 0 → IsOkUnlessMemory result }
    ensures refused { IfErr result (ErrorMeets (FaultIn lossy bytes.now 0)) }
{
    let image = open(alloc.clone()?, bytes, 0, lossy)?;
    layout_faults_of_image(&image);
    layout_faults(alloc, &image)
}

/// Returns the bytes from a place on.
pub fn from(bytes: &[u8], place: usize) -> &[u8]
    ensures { result.now ≡ drop place bytes.now }
{
    if place < bytes.len() {
        &bytes[place..]
    } else {
        &[]
    }
}

/// Writes the faults of an image's layout from index `first` on, as many as there are and fit, and how many to `count`. They are
/// those of the file that begins with the image, and offsets count from there. It opens the image again, and allocates memory
/// while it runs. A refused call leaves the array and the count unchanged.
#[unsafe(no_mangle)]
pub extern "C" fn gmr_layout_faults(
    alloc: Global,
    bytes: &[u8],
    image: &gm_image,
    first: usize,
    out: &mut [gm_layout_fault],
    count: &mut usize,
    error: &mut gm_error,
) -> u32
    ensures written { result ≡ 0 → (faults : List declared.LayoutFault) × HasLayoutFaults (file_of bytes.now image.now) faults
        × Fills (drop first (map layout_row faults)) out.old out.new count.new }
    ensures only { OpensIn (lossy_mode image.now.is_lossy) (file_of bytes.now image.now) 0 → 0 < length out.old → (result ≡ 0) ⊎ (result ≡ 5) }
    ensures refused { result ≢ 0 → 0 < length out.old → IsRefusalCode (FaultIn (lossy_mode image.now.is_lossy) (file_of bytes.now image.now) 0) result }
    ensures no_rows { length out.old ≡ 0 → result ≡ 6 }
    ensures array { result ≢ 0 → out.new ≡ out.old }
    ensures count { result ≢ 0 → count.new ≡ count.old }
    ensures reported { result ≢ 0 → error.new.code ≡ result }
    ensures quiet { result ≡ 0 → error.new ≡ error.old }
{
    if out.is_empty() {
        return refuse_no_rows(error);
    }
    match image_faults(alloc, from(bytes, image.offset), image.is_lossy != 0) {
        Ok(faults) => {
            *count = write_from(faults.as_slice(), first, out);
            GM_OK
        }
        Err(why) => refuse(&why, error),
    }
}

// Returns the faults of the table of a fat file, of 32 or 64 bits; none if the bytes don't begin as one.
fn table_faults(alloc: Global, bytes: &[u8]) -> Result<Vec<LayoutFault, Global>>
    ensures listed { IfOk result (λ v. HasTableFaults bytes.now v.items) }
    ensures only { IsOkUnlessMemory result }
{
    match peek(bytes, 0) {
        Ok(FAT_MAGIC) => container_faults::<FatArch, Global>(alloc, bytes),
        Ok(FAT_MAGIC_64) => container_faults::<FatArch64, Global>(alloc, bytes),
        _ => Ok(Vec::new(alloc)),
    }
}

/// Writes the faults of the table of a fat file, of 32 or 64 bits, from index `first` on, as many as there are and fit, and how
/// many to `count`. There are none if the bytes don't begin as a fat file. It allocates memory while it runs, and is refused only
/// if memory runs out. A refused call leaves the array and the count unchanged.
#[unsafe(no_mangle)]
pub extern "C" fn gmr_container_faults(
    alloc: Global,
    bytes: &[u8],
    first: usize,
    out: &mut [gm_layout_fault],
    count: &mut usize,
    error: &mut gm_error,
) -> u32
    ensures written { result ≡ 0 → (faults : List declared.LayoutFault) × HasTableFaults bytes.now faults
        × Fills (drop first (map layout_row faults)) out.old out.new count.new }
    ensures refused { result ≢ 0 → 0 < length out.old → result ≡ 5 }
    ensures no_rows { length out.old ≡ 0 → result ≡ 6 }
    ensures array { result ≢ 0 → out.new ≡ out.old }
    ensures count { result ≢ 0 → count.new ≡ count.old }
    ensures reported { result ≢ 0 → error.new.code ≡ result }
    ensures quiet { result ≡ 0 → error.new ≡ error.old }
{
    if out.is_empty() {
        return refuse_no_rows(error);
    }
    match table_faults(alloc, bytes) {
        Ok(faults) => {
            *count = write_from(faults.as_slice(), first, out);
            GM_OK
        }
        Err(why) => refuse(&why, error),
    }
}

/// For an image that `gm_open` opened at the start of the bytes, the file that begins with it opens, too. So its faults can be
/// listed unless memory runs out.
pub fn layout_of_opened()
    ensures { (bytes : List ℕ) (c : numbers.gm_image) → IsOpened bytes 0 c → OpensIn (lossy_mode c.is_lossy) (file_of bytes c) 0 }
{}
