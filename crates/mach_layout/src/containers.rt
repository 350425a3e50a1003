//! The faults of the table of a fat file, with records of 32 or 64 bits.

ghost use Rattle.std.specs.Prelude.{◌≡◌, ◌++◌, ◌+◌, ◌*◌, ◌%◌, ◌^◌, ◌≤◌, List, IfOk, OnOk, filter_map, option_to_list};
ghost use Rattle.mach_base.specs.Answer.{Reads, IsOkUnlessMemory};
ghost use Rattle.mach_layout.specs.Containers as defined;
ghost use Rattle.mach_layout.specs.Containers.{AreContainerFaults};
ghost use Rattle.mach_layout.specs.Sweep.{AreShared};
ghost use Rattle.mach_layout.specs.declared.fault.LayoutFault as declared;

use crate::claim::Claim;
use crate::fault::{LayoutFault, Owner, Part, Rule};
use crate::header::header_owner;
use crate::rules::{Judges, RuleOutcome, measured, owner_at, report, report_each, sound};
use crate::sweep::report_ranges;
use mach_base::{Endian, Result, read_u32};
use mach_parts::magic::parse_magic_and_ctx;
use mach_parts::{ArchRecord, place_of, read_arch};
use std::alloc::Allocator;

/// An entry of a fat file by its record, with its number, from 0, and the place of the record.
#[derive(Clone, Copy)]
pub struct PlacedSlice {
    pub number: u32,
    pub place: usize,
    pub cputype: u32,
    pub cpusubtype: u32,
    pub offset: u64,
    pub size: u64,
    pub align: u32,
}

/// The range of a slice that a check uses.
#[derive(Clone, Copy)]
pub enum RangeOf {
    /// Its cpu and subtype, as a number.
    Cpu,
    /// Its bytes.
    Bytes,
}

// Returns the number of slices that the header states.
fn slice_count(bytes: &[u8]) -> u32
    ensures { result ≡ defined.slice_count bytes.now }
{
    match read_u32(bytes, 4, Endian::Big) {
        Ok(count) => count,
        Err(_) => 0,
    }
}

// Returns the place where the records end.
fn records_end<R: ArchRecord>(bytes: &[u8]) -> usize
    ensures { result ≡ defined.records_end R.arch_form bytes.now }
{
    place_of::<R>(slice_count(bytes) as usize)
}

// Returns a slice with its record.
fn slice_at<R: ArchRecord>(bytes: &[u8], number: u32) -> Result<PlacedSlice>
    ensures { Reads (λ s. s) result (defined.placed_slice_at R.arch_form bytes.now number) }
{
    let index = number as usize;
    let arch = read_arch::<R>(bytes, index)?;
    Ok(PlacedSlice {
        number,
        place: place_of::<R>(index),
        cputype: arch.entry_cpu(),
        cpusubtype: arch.entry_cpu_kind(),
        offset: arch.entry_offset(),
        size: arch.entry_size(),
        align: arch.entry_align(),
    })
}

// Returns the slices before the first whose record isn't in the bytes.
fn slices_of<R: ArchRecord, A: Allocator>(alloc: A, bytes: &[u8]) -> Result<Vec<PlacedSlice, A>>
    ensures listed { IfOk result (λ v. v.items ≡ defined.slices_of R.arch_form bytes.now) }
    ensures only { IsOkUnlessMemory result }
{
    let mut slices = Vec::new(alloc);
    for number in 0..slice_count(bytes) {
        let Ok(slice) = slice_at::<R>(bytes, number) else {
            return Ok(slices);
        };
        slices.push(slice)?;
    }
    Ok(slices)
}

// Returns the slice as the owner of a fault.
fn slice_owner(slice: &PlacedSlice) -> Owner
    ensures { result ≡ defined.slice_owner slice.now }
{
    owner_at(Part::Slice, slice.place, u64::from(slice.number))
}

// Returns a power of 2.
fn power_of_two(power: u32) -> u64
    requires { power ≤ 15 }
    ensures { result ≡ 2 ^ power }
{
    1 << power
}

// Returns the cpu of the image at a place, if one begins there.
fn image_cpu(bytes: &[u8], place: u64) -> Option<u32>
    ensures { result ≡ defined.image_cpu bytes.now place }
{
    let Ok((_, Some(ctx))) = parse_magic_and_ctx(bytes, place as usize) else {
        return None;
    };
    match read_u32(bytes, (place as usize).saturating_add(4), ctx.le) {
        Ok(cpu) => Some(cpu),
        Err(_) => None,
    }
}

// What the checks of a fat file's slices use: its bytes, and the place where its records end.
#[derive(Clone, Copy)]
struct Slices<'a> {
    bytes: &'a [u8],
    records_end: u64,
}

impl Judges<PlacedSlice> for Slices<'_> {
    ghost use Rattle.mach_layout.specs.Containers.{slice_owner, slice_sees};

    ghost owner = { λ judge rule. slice_owner };

    ghost sees = { λ judge. slice_sees judge.bytes.now judge.records_end };

    fn owner(&self, _rule: Rule, slice: &PlacedSlice) -> Owner {
        slice_owner(slice)
    }

    fn see(&self, rule: Rule, slice: &PlacedSlice) -> RuleOutcome {
        match rule {
            Rule::SliceOutOfFile => {
                let limit = self.bytes.len() as u64;
                let end = u128::from(slice.offset) + u128::from(slice.size);
                let holds = slice.size != 0 && end <= u128::from(limit);
                measured(holds, slice.offset.saturating_add(slice.size), limit)
            }
            Rule::SliceInRecords => {
                let limit = self.records_end;
                measured(limit <= slice.offset, slice.offset, limit)
            }
            Rule::SliceAlignment => measured(slice.align <= 15, u64::from(slice.align), 15),
            Rule::SliceUnaligned if 15 < slice.align => sound(),
            Rule::SliceUnaligned => {
                let unit = power_of_two(slice.align);
                measured(slice.offset % unit == 0, slice.offset, unit)
            }
            Rule::SliceOfOtherCpu => match image_cpu(self.bytes, slice.offset) {
                Some(cpu) => {
                    let said = slice.cputype;
                    measured(said == cpu, u64::from(said), u64::from(cpu))
                }
                None => sound(),
            },
            _ => sound(),
        }
    }
}

// Returns a different number for each cpu and subtype.
fn number_of_kind(cputype: u32, cpusubtype: u32) -> u64
    ensures { result ≡ 2 ^ 24 * cputype + cpusubtype % 2 ^ 24 }
{
    (1 << 24) * u64::from(cputype) + u64::from(cpusubtype) % (1 << 24)
}

// Returns the range of a slice, if it has one.
fn slice_range(which: RangeOf, slice: &PlacedSlice) -> Option<Claim>
    ensures { result ≡ defined.slice_range which slice.now }
{
    let owner = slice_owner(slice);
    match which {
        RangeOf::Bytes if slice.size == 0 => None,
        RangeOf::Bytes => Some(Claim {
            owner,
            start: slice.offset,
            len: slice.size,
        }),
        RangeOf::Cpu => Some(Claim {
            owner,
            start: number_of_kind(slice.cputype, slice.cpusubtype),
            len: 1,
        }),
    }
}

// Adds a range, if there is one.
fn keep<A: Allocator>(ranges: &mut Vec<Claim, A>, range: Option<Claim>) -> Result<()>
    ensures kept { OnOk result (ranges.new.items ≡ ranges.old.items ++ option_to_list range) }
    ensures only { IsOkUnlessMemory result }
{
    if let Some(range) = range {
        ranges.push(range)?;
    }
    Ok(())
}

// Returns the ranges of all slices.
fn slice_ranges<A: Allocator>(
    alloc: A,
    which: RangeOf,
    slices: &[PlacedSlice],
) -> Result<Vec<Claim, A>>
    ensures listed { IfOk result (λ v. v.items ≡ filter_map (defined.slice_range which) slices.now) }
    ensures only { IsOkUnlessMemory result }
{
    let mut ranges = Vec::new(alloc);
    for slice in slices {
        keep(&mut ranges, slice_range(which, slice))?;
    }
    Ok(ranges)
}

// Adds the faults of slices that share such a range.
fn report_slices_sharing<A: Allocator>(
    faults: &mut Vec<LayoutFault, A>,
    alloc: A,
    slices: &[PlacedSlice],
    which: RangeOf,
    rule: Rule,
) -> Result<()>
    ensures reported { OnOk result ((reported : List declared.LayoutFault) × AreShared rule (filter_map (defined.slice_range which) slices.now) reported
        × (faults.new.items ≡ faults.old.items ++ reported)) }
    ensures only { IsOkUnlessMemory result }
{
    let mut ranges = slice_ranges(alloc, which, slices)?;
    report_ranges(faults, rule, &mut ranges)
}

// Adds the fault of records that end past the end of the file.
fn report_records<R: ArchRecord, A: Allocator>(
    faults: &mut Vec<LayoutFault, A>,
    bytes: &[u8],
) -> Result<()>
    ensures reported { OnOk result (faults.new.items ≡ faults.old.items ++ option_to_list (defined.records_out_of_file R.arch_form bytes.now)) }
    ensures only { IsOkUnlessMemory result }
{
    let end = records_end::<R>(bytes) as u64;
    let limit = bytes.len() as u64;
    let outcome = measured(end <= limit, end, limit);
    report(faults, Rule::RecordsOutOfFile, header_owner(), outcome)?;
    Ok(())
}

/// Returns the faults of the table of the fat file in these bytes, with records of type `FatArch` or `FatArch64`: all and no
/// others. They are in the order of the rules; those of one rule are in the order of the slices, or, for two slices, in that
/// of their cpus or places. The only error is out of memory.
pub fn container_faults<R: ArchRecord, A: Allocator + Clone>(
    alloc: A,
    bytes: &[u8],
) -> Result<Vec<LayoutFault, A>>
    ensures listed { IfOk result (λ v. AreContainerFaults R.arch_form bytes.now v.items) }
    ensures only { IsOkUnlessMemory result }
{
    let found = slices_of::<R, A>(alloc.clone()?, bytes)?;
    let slices = found.as_slice();
    let judge = Slices {
        bytes,
        records_end: records_end::<R>(bytes) as u64,
    };
    let rules = [
        Rule::SliceOutOfFile,
        Rule::SliceInRecords,
        Rule::SliceAlignment,
        Rule::SliceUnaligned,
    ];
    let mut faults = Vec::new(alloc.clone()?);
    report_records::<R, A>(&mut faults, bytes)?;
    report_each(&mut faults, &judge, &rules, slices)?;
    report_slices_sharing(
        &mut faults,
        alloc.clone()?,
        slices,
        RangeOf::Cpu,
        Rule::SliceAgain,
    )?;
    report_each(&mut faults, &judge, &[Rule::SliceOfOtherCpu], slices)?;
    report_slices_sharing(
        &mut faults,
        alloc,
        slices,
        RangeOf::Bytes,
        Rule::SlicesShare,
    )?;
    Ok(faults)
}
