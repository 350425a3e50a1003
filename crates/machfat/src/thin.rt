//! Writes an entry of a fat file, selected by its cpu.

ghost use Rattle.std.specs.Prelude.{◌≡◌, ℕ, List, Ok, Some, IfOk, IfErr, IfNone, IfSome, option_map};
ghost use Rattle.std.specs.Io.KnownBytes.{Appends};
ghost use Rattle.mach_fat_writer.specs.Unfit.{AnswersAs};
ghost use Rattle.mach_cli.specs.Statuses.{IsStatus};
ghost use Rattle.mach_cli.specs.declared.cpu.Cpu.{Cpu};
ghost use Rattle.machfat.specs.Entry.{TookInAll, WasWritten};
ghost use Rattle.machfat.specs.OfCpu.{SaysCpu, cpu_entry_in, first_entry_for};
ghost use Rattle.machfat.specs.Refusals.{IsRefusal, RefusesCpu, refusal_line};
ghost use Rattle.machfat.specs.Same.{IsOther};
ghost use Rattle.machfat.specs.declared.refusal.Refusal.{Refusal};

use crate::commands::status;
use crate::created::WholeFile;
use crate::made::one_file;
use crate::new_file::{is_same_file, place_file};
use crate::outside::refused_entries;
use crate::permissions::NewMode;
use crate::refusal::{Refusal, WriteFailure};
use goblin_mach::names::Arch;
use mach_cli::{Cpu, cputype_in};
use mach_fat_writer::{EntryRecord, EntryRefusal, fat_records};
use std::alloc::Global;
use std::io::Write;
use std::rt::Files;

/// Returns the cpu that a word says, by its number or by its name.
pub fn cpu_in(word: &str) -> Option<Cpu>
    ensures said { IfSome result (SaysCpu word.now) }
    ensures none { IfNone result ((cpu : Cpu) → SaysCpu word.now cpu → ⊥) }
{
    if let Some(number) = cputype_in(word) {
        return Some(Cpu::Number(number));
    }
    match Arch::named(word) {
        Some(arch) => Some(Cpu::Arch(arch)),
        None => None,
    }
}

/// Writes the first entry for a cpu to a file.
///
/// Returns the exit status. It is 0 if the file was written. It is 1 if there is no such entry, or an allocation is refused, and
/// then `err` has a line that says why. It is 2 if the fat file is the target. It is 2 or 141 if the target can't be written. The
/// target is written whole, or unchanged.
pub fn run_thin<R: Files, E: Write>(
    files: &R,
    alloc: Global,
    file: &str,
    bytes: &[u8],
    cpu: Cpu,
    target: &str,
    err: &mut E,
) -> u8
    ensures status { IsStatus result }
    ensures thinned { result ≡ 0 → (entry : List ℕ) × (cpu_entry_in bytes.now cpu ≡ Ok (Some entry)) × WasWritten R.File.contents entry }
    ensures apart { result ≡ 0 → IsOther file.now target.now }
    ensures refused { result ≡ 1 → (refusal : Refusal) × RefusesCpu bytes.now (cpu_entry_in bytes.now cpu) cpu refusal
        × Appends (E.contents err.old) (E.contents err.new) (refusal_line file.now refusal) }
{
    if is_same_file(files, file, target) {
        return one_file(file, target, err);
    }
    let mode = NewMode::as_file(files, file);
    status(
        thin(files, alloc, mode, bytes, cpu, target),
        file,
        target,
        err,
    )
}

// Returns the bytes of the first entry for a cpu, or why there are none.
fn entry_of_cpu(alloc: Global, bytes: &[u8], cpu: Cpu) -> Result<&[u8], Refusal>
    ensures found { IfOk result (λ entry. cpu_entry_in bytes.now cpu ≡ Ok (Some entry.now)) }
    ensures refused { IfErr result (RefusesCpu bytes.now (cpu_entry_in bytes.now cpu) cpu) }
{
    match cpu_entry(alloc, bytes, cpu) {
        Ok(Some(entry)) => Ok(entry),
        Ok(None) => Err(Refusal::NoEntryOf(cpu)),
        Err(why) => Err(Refusal::Entries(refused_entries(bytes, why))),
    }
}

// Returns the bytes of the first entry for a cpu, if there is one.
fn cpu_entry(alloc: Global, bytes: &[u8], cpu: Cpu) -> Result<Option<&[u8]>, EntryRefusal>
    ensures { AnswersAs (λ found. option_map (λ entry. entry.now) found) result (cpu_entry_in bytes.now cpu) }
{
    let records = fat_records(alloc, bytes)?;
    first_entry(bytes, cpu, records.as_slice())
}

// Returns the bytes of the first entry for a cpu among records, if there is one.
fn first_entry<'a>(
    bytes: &'a [u8],
    cpu: Cpu,
    records: &[EntryRecord],
) -> Result<Option<&'a [u8]>, EntryRefusal>
    ensures { AnswersAs (λ found. option_map (λ entry. entry.now) found) result (first_entry_for bytes.now cpu 0 records.now) }
{
    for (index, record) in records.iter().enumerate() {
        if cpu.takes(record.cputype, record.cpusubtype) {
            return match record.slice(bytes) {
                Some(entry) => Ok(Some(entry)),
                None => Err(EntryRefusal::OutOfFile(index)),
            };
        }
    }
    Ok(None)
}

// Writes the first entry for a cpu to a file with some permissions, and returns the file. Nothing is written if there is no such
// entry.
fn thin<R: Files>(
    files: &R,
    alloc: Global,
    mode: NewMode,
    bytes: &[u8],
    cpu: Cpu,
    target: &str,
) -> Result<WholeFile<R::File>, WriteFailure>
    ensures thinned { IfOk result (λ whole. (entry : List ℕ) × (cpu_entry_in bytes.now cpu ≡ Ok (Some entry)) × TookInAll R.File.contents whole entry) }
    ensures refused { IfErr result (IsRefusal (RefusesCpu bytes.now (cpu_entry_in bytes.now cpu) cpu)) }
{
    let entry = entry_of_cpu(alloc, bytes, cpu)?;
    place_file(files, alloc, mode, entry, target)
}
