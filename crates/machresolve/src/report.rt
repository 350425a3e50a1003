//! The report of a program: of one image, or of each entry of a fat file.

ghost use Rattle.std.specs.Prelude.{◌≡◌, ◌≤◌, map, Some, None, IfOk, IfErr};
ghost use Rattle.std.specs.List.{list_all};
ghost use Rattle.goblin_mach.specs.FatFile.{file_view};
ghost use Rattle.mach_resolve.specs.Cpu.{HasTable, entry_bytes, fat_table_view};
ghost use Rattle.machresolve.specs.Cpu.{HasNumbers};
ghost use Rattle.mach_resolve.specs.Opened.{given_view};
ghost use Rattle.machresolve.specs.Report.{entry_of_program, IsOneOf, IsOutcome, IsEntryOutcome, AreEntryOutcomes, IsProgramReport, ReportsError, answer_count};
ghost use Rattle.machresolve.specs.Report.{answers_in, is_whole, all_whole};
ghost use Rattle.machresolve.specs.ReportViews.{outcome_view, report_view, IsOutcomeOfFailure};
ghost use Rattle.mach_resolve.specs.declared.failure.ResolveFailure.TheVariants as failures;

use crate::table::find_entry;
use goblin_mach::{ArchRecord, Error, FatTable, Input};
use mach_cli::{Cpu, begins_whole_archive};
use mach_resolve::{Given, ResolveFailure, Resolved, all_settled, archive_error, resolve};
use std::alloc::Allocator;

/// The outcome for one program.
#[derive(Drop)]
pub enum Outcome<'a, A: Allocator> {
    /// Its answers.
    Answered(Resolved<'a, A>),
    /// It is an archive.
    Archive,
    /// A file is refused: the program, which is file 0, or a library by its number.
    Refused { file: usize, error: Error },
}

/// The report of a whole file.
#[derive(Drop)]
pub enum Report<'a, A: Allocator> {
    /// The outcome for one image, or for the selected entry; or the file is refused.
    One(Outcome<'a, A>),
    /// The outcomes for the entries of a fat file, in order.
    Entries(Vec<Outcome<'a, A>, A>),
    /// It has nothing for this cpu.
    Nothing(Cpu),
}

impl<'a, A: Allocator> Outcome<'a, A> {
    // Whether all is answered and settled, and nothing was refused.
    fn is_whole(&self) -> bool
        ensures { result ≡ is_whole (outcome_view self.now) }
    {
        match self {
            Outcome::Answered(resolved) => { all_settled(&resolved.answers) && !resolved.more }
            Outcome::Archive => true,
            Outcome::Refused { .. } => false,
        }
    }

    // Returns how many bindings are answered.
    fn answer_count(&self) -> usize
        ensures { result ≡ answer_count (outcome_view self.now) }
    {
        match self {
            Outcome::Answered(resolved) => resolved.answers.len(),
            Outcome::Archive | Outcome::Refused { .. } => 0,
        }
    }
}

// Whether all is answered and settled in all entries, and nothing was refused.
fn all_whole<A: Allocator>(outcomes: &[Outcome<'_, A>]) -> bool
    ensures { result ≡ list_all is_whole (map outcome_view outcomes.now) }
{
    let mut whole = true;
    for outcome in outcomes {
        whole &= outcome.is_whole();
    }
    whole
}

impl<'a, A: Allocator> Report<'a, A> {
    /// Whether all is answered and settled, and nothing was refused.
    pub fn is_whole(&self) -> bool
        ensures { result ≡ all_whole (report_view self.now) }
    {
        match self {
            Report::One(outcome) => outcome.is_whole(),
            Report::Entries(outcomes) => all_whole(outcomes),
            Report::Nothing(_) => false,
        }
    }
}

// Returns the outcome for a refused file; a refused allocation stays a failure.
fn refusal<'a, A: Allocator>(failure: ResolveFailure) -> Result<Outcome<'a, A>, ResolveFailure>
    ensures { IsOutcomeOfFailure failure result }
{
    match failure {
        ResolveFailure::Refused { file, error } => Ok(Outcome::Refused { file, error }),
        ResolveFailure::Memory => Err(failure),
    }
}

// Returns the outcome for an image.
fn outcome_for<'a, A: Allocator + Copy>(
    alloc: A,
    limit: usize,
    program: Given<'a>,
    libraries: &[Given<'a>],
) -> Result<Outcome<'a, A>, ResolveFailure>
    ensures reported { IfOk result (λ o. IsOutcome limit (given_view program.entry) (map given_view libraries.now) (outcome_view o)) }
    ensures memory { IfErr result (λ failure. failure ≡ failures.Memory) }
{
    match resolve(alloc, limit, program, libraries) {
        Ok(resolved) => Ok(Outcome::Answered(resolved)),
        Err(failure) => refusal(failure),
    }
}

// Returns the outcome for an entry of a fat program, by its record.
fn entry_outcome<'a, R: ArchRecord, A: Allocator + Copy>(
    alloc: A,
    limit: usize,
    program: Given<'a>,
    arch: &R,
    libraries: &[Given<'a>],
) -> Result<Outcome<'a, A>, ResolveFailure>
    ensures reported { IfOk result (λ o. IsEntryOutcome limit
        (entry_of_program (given_view program.entry) (entry_bytes R.arch_form program.entry.bytes.now arch.now)) (map given_view libraries.now)
        (outcome_view o)) }
    ensures memory { IfErr result (λ failure. failure ≡ failures.Memory) }
{
    let Given { path, bytes } = program;
    let bytes = arch.entry_slice(bytes);
    if begins_whole_archive(bytes) {
        Ok(Outcome::Archive)
    } else {
        outcome_for(alloc, limit, Given { path, bytes }, libraries)
    }
}

// Returns the outcomes for the entries of a fat program, by their records, in order, each within what the entries before it left
// of `limit` bindings.
fn entry_outcomes<'a, R: ArchRecord, A: Allocator + Copy>(
    alloc: A,
    limit: usize,
    program: Given<'a>,
    arches: &[R],
    libraries: &[Given<'a>],
) -> Result<Vec<Outcome<'a, A>, A>, ResolveFailure>
    ensures reported { IfOk result (λ v. AreEntryOutcomes limit (given_view program.entry) (map given_view libraries.now)
        (map (entry_bytes R.arch_form program.entry.bytes.now) arches.now) (map outcome_view v.items)) }
    ensures memory { IfErr result (λ failure. failure ≡ failures.Memory) }
{
    let mut outcomes = Vec::new(alloc);
    let mut left = limit;
    'arches: for arch in arches {
        match entry_outcome(alloc, left, program, arch, libraries) {
            Ok(outcome) => {
                left -= outcome.answer_count();
                outcomes.push(outcome)?;
            }
            Err(failure) => return Err(failure),
        }
    }
    Ok(outcomes)
}

// Returns the report of a program that is refused for an error; a refused allocation is a failure.
fn report_refused<'a, A: Allocator>(error: Error) -> Result<Report<'a, A>, ResolveFailure>
    ensures reported { IfOk result (λ r. ReportsError error (report_view r)) }
    ensures memory { IfErr result (λ failure. failure ≡ failures.Memory) }
{
    match error {
        Error::Memory(_) => Err(ResolveFailure::Memory),
        error => Ok(Report::One(Outcome::Refused { file: 0, error })),
    }
}

// Returns the report of a fat program, with all its entries.
fn report_all<'a, R: ArchRecord, A: Allocator + Copy>(
    alloc: A,
    limit: usize,
    program: Given<'a>,
    container: &FatTable<'a, R, A>,
    libraries: &[Given<'a>],
) -> Result<Report<'a, A>, ResolveFailure>
    ensures reported { HasTable program.entry.bytes.now (fat_table_view R.arch_form program.entry.bytes.now (file_view container.now))
        → IfOk result (λ r. IsProgramReport limit (given_view program.entry) (map given_view libraries.now) None (report_view r)) }
    ensures memory { IfErr result (λ failure. failure ≡ failures.Memory) }
{
    match container.arches() {
        Ok(arches) => match entry_outcomes(alloc, limit, program, &arches, libraries) {
            Ok(outcomes) => Ok(Report::Entries(outcomes)),
            Err(failure) => Err(failure),
        },
        Err(error) => report_refused(error),
    }
}

// Returns the report of a fat program, with its first entry for a cpu.
fn report_entry<'a, R: ArchRecord, A: Allocator + Copy>(
    alloc: A,
    cpu: Cpu,
    limit: usize,
    program: Given<'a>,
    container: &FatTable<'a, R, A>,
    libraries: &[Given<'a>],
) -> Result<Report<'a, A>, ResolveFailure>
    ensures reported { HasTable program.entry.bytes.now (fat_table_view R.arch_form program.entry.bytes.now (file_view container.now))
        → IfOk result (λ r. IsProgramReport limit (given_view program.entry) (map given_view libraries.now) (Some cpu) (report_view r)) }
    ensures memory { IfErr result (λ failure. failure ≡ failures.Memory) }
{
    match find_entry(container, cpu) {
        Ok(Some(arch)) => match entry_outcome(alloc, limit, program, &arch, libraries) {
            Ok(outcome) => Ok(Report::One(outcome)),
            Err(failure) => Err(failure),
        },
        Ok(None) => Ok(Report::Nothing(cpu)),
        Err(error) => report_refused(error),
    }
}

// Returns the report of a program that is one image.
fn report_one<'a, A: Allocator + Copy>(
    alloc: A,
    limit: usize,
    program: Given<'a>,
    libraries: &[Given<'a>],
) -> Result<Report<'a, A>, ResolveFailure>
    ensures reported { IfOk result (λ r. IsOneOf (IsOutcome limit (given_view program.entry) (map given_view libraries.now)) (report_view r)) }
    ensures memory { IfErr result (λ failure. failure ≡ failures.Memory) }
{
    match outcome_for(alloc, limit, program, libraries) {
        Ok(outcome) => Ok(Report::One(outcome)),
        Err(failure) => Err(failure),
    }
}

// Returns the report of a program that is one image, for a cpu.
fn report_image<'a, A: Allocator + Copy>(
    alloc: A,
    wanted: Option<Cpu>,
    cputype: u32,
    cpusubtype: u32,
    limit: usize,
    program: Given<'a>,
    libraries: &[Given<'a>],
) -> Result<Report<'a, A>, ResolveFailure>
    ensures reported { HasNumbers program.entry.bytes.now cputype cpusubtype
        → IfOk result (λ r. IsProgramReport limit (given_view program.entry) (map given_view libraries.now) wanted (report_view r)) }
    ensures memory { IfErr result (λ failure. failure ≡ failures.Memory) }
{
    match wanted {
        Some(cpu) if !cpu.takes(cputype, cpusubtype) => Ok(Report::Nothing(cpu)),
        Some(_) => report_one(alloc, limit, program, libraries),
        None => report_one(alloc, limit, program, libraries),
    }
}

// Returns the report of a fat program: with all its entries, or with the first for the selected cpu.
fn report_fat<'a, R: ArchRecord, A: Allocator + Copy>(
    alloc: A,
    wanted: Option<Cpu>,
    limit: usize,
    program: Given<'a>,
    container: &FatTable<'a, R, A>,
    libraries: &[Given<'a>],
) -> Result<Report<'a, A>, ResolveFailure>
    ensures reported { HasTable program.entry.bytes.now (fat_table_view R.arch_form program.entry.bytes.now (file_view container.now))
        → IfOk result (λ r. IsProgramReport limit (given_view program.entry) (map given_view libraries.now) wanted (report_view r)) }
    ensures memory { IfErr result (λ failure. failure ≡ failures.Memory) }
{
    match wanted {
        Some(cpu) => report_entry(alloc, cpu, limit, program, container, libraries),
        None => report_all(alloc, limit, program, container, libraries),
    }
}

/// Returns the report of a program: all of it, or what it has for the selected cpu. Of the bindings of its images, in order, the
/// first `limit` are answered. It fails only if an allocation is refused.
pub fn report_on<'a, A: Allocator + Copy>(
    alloc: A,
    wanted: Option<Cpu>,
    limit: usize,
    program: Given<'a>,
    libraries: &[Given<'a>],
) -> Result<Report<'a, A>, ResolveFailure>
    ensures reported { IfOk result (λ r. IsProgramReport limit (given_view program.entry) (map given_view libraries.now) wanted (report_view r)) }
    ensures few { IfOk result (λ r. answers_in (report_view r) ≤ limit) }
    ensures memory { IfErr result (λ failure. failure ≡ failures.Memory) }
{
    match Input::parse(alloc, program.bytes) {
        Ok(Input::Image(image)) => {
            let (cputype, cpusubtype) = (image.header.cputype, image.header.cpusubtype);
            report_image(
                alloc, wanted, cputype, cpusubtype, limit, program, libraries,
            )
        }
        Ok(Input::Fat(container)) => {
            report_fat(alloc, wanted, limit, program, &container, libraries)
        }
        Ok(Input::Fat64(container)) => {
            report_fat(alloc, wanted, limit, program, &container, libraries)
        }
        Ok(Input::Archive(_)) => report_refused(archive_error()),
        Err(error) => report_refused(error),
    }
}
