//! The faults of a fat file's layout.

ghost use Rattle.std.specs.Prelude.{◌≡◌, ◌≤◌, ◌⊎◌, [], ◌∷◌, List, OnOk, IfOk, IfErr};
ghost use Rattle.std.specs.Io.Buffered.{writer_buffer, writer_contents};
ghost use Rattle.std.specs.Io.KnownBytes.{Appends};
ghost use Rattle.mach_parts.specs.FatRecords.{HasFat64Magic};
ghost use Rattle.goblin_mach.specs.File.{HasFatMagic};
ghost use Rattle.mach_layout.specs.declared.fault.LayoutFault.{LayoutFault};
ghost use Rattle.mach_cli.specs.Bounds.{most_items};
ghost use Rattle.mach_cli.specs.Statuses.{IsStatus};
ghost use Rattle.machfat.specs.Faults.{HasFatFaults, ReportsFatFaults, fault_lines, is_faultless, table_fault_line};
ghost use Rattle.machfat.specs.Refusals.{RefusesFaults, RefusesFile, RefusesUnwritten};

use crate::commands::reported;
use crate::entry::first_of;
use crate::refusal::{Refusal, WriteFailure, refused_by};
use goblin_mach::fat::FatArch;
use goblin_mach::{Mach, MultiArch64};
use mach_cli::{most_items, print_cut, refused_kind};
use mach_fat_writer::Form;
use mach_layout::{LayoutFault, container_faults};
use mach_parts::FatArch64;
use std::alloc::{Allocator, Global};
use std::io;
use std::io::{BufWriter, Write};

/// Prints the faults of a fat file's layout, a line each, no more than a limit.
///
/// Returns the exit status. It is 0 if there is no fault. It is 1 if there is one; or if the file or an allocation is refused,
/// and then `err` has a line that says why, and `out` nothing. It is 2 or 141 if a write fails. Unless a write fails, nothing is
/// left in the buffer.
pub fn run_verify<W: Write + Drop, B: Allocator, E: Write>(
    alloc: Global,
    limit: usize,
    file: &str,
    bytes: &[u8],
    out: &mut BufWriter<W, B>,
    err: &mut E,
) -> u8
    ensures status { IsStatus result }
    ensures sound { result ≡ 0
        → ReportsFatFaults (most_items limit bytes.now) bytes.now [] (writer_contents W.contents out.old) (writer_contents W.contents out.new) }
    ensures faulty { result ≡ 1 → ((fault : LayoutFault) × (faults : List LayoutFault)
        × ReportsFatFaults (most_items limit bytes.now) bytes.now (fault ∷ faults)
        (writer_contents W.contents out.old) (writer_contents W.contents out.new))
        ⊎ RefusesFile (RefusesFaults bytes.now) file.now (writer_contents W.contents out.old) (writer_contents W.contents out.new)
        (E.contents err.old) (E.contents err.new) }
    ensures flushed { result ≤ 1 → writer_buffer out.new ≡ [] }
{
    let answer = verify(alloc, most_items(limit, bytes), bytes, out);
    reported(answer, file, out, err)
}

// Prints the faults, no more than a limit. Returns whether there is none.
fn verify<O: Write>(
    alloc: Global,
    limit: usize,
    bytes: &[u8],
    out: &mut O,
) -> Result<bool, WriteFailure>
    ensures reported { IfOk result (λ sound. (faults : List LayoutFault) × (sound ≡ is_faultless faults)
        × ReportsFatFaults limit bytes.now faults (O.contents out.old) (O.contents out.new)) }
    ensures refused { IfErr result (RefusesUnwritten (RefusesFaults bytes.now) (O.contents out.old) (O.contents out.new)) }
{
    let faults = fat_faults(alloc, bytes)?;
    print_faults(first_of(&faults, limit), out)?;
    print_cut(limit, faults.len() > limit, out)?;
    Ok(faults.is_empty())
}

// Returns the faults of a fat file's layout.
fn fat_faults(alloc: Global, bytes: &[u8]) -> Result<Vec<LayoutFault>, Refusal>
    ensures faults { IfOk result (λ v. HasFatFaults bytes.now v.items) }
    ensures refused { IfErr result (RefusesFaults bytes.now) }
{
    match Form::of(bytes) {
        Some(Form::Bits64) => wide_faults(alloc, bytes),
        _ => narrow_faults(alloc, bytes),
    }
}

// Returns the faults of a file that is no fat file of 64 bits.
fn narrow_faults(alloc: Global, bytes: &[u8]) -> Result<Vec<LayoutFault>, Refusal>
    requires { ¬ HasFat64Magic bytes.now }
    ensures faults { IfOk result (λ v. HasFatFaults bytes.now v.items) }
    ensures refused { IfErr result (RefusesFaults bytes.now) }
{
    test_fat(alloc, bytes)?;
    Ok(container_faults::<FatArch, Global>(alloc, bytes)?)
}

// Returns the faults of a fat file of 64 bits.
fn wide_faults(alloc: Global, bytes: &[u8]) -> Result<Vec<LayoutFault>, Refusal>
    requires { HasFat64Magic bytes.now }
    ensures faults { IfOk result (λ v. HasFatFaults bytes.now v.items) }
    ensures refused { IfErr result (RefusesFaults bytes.now) }
{
    match MultiArch64::new(alloc, bytes) {
        Ok(_) => Ok(container_faults::<FatArch64, Global>(alloc, bytes)?),
        Err(error) => Err(refused_by(refused_kind(bytes, &error), error)),
    }
}

// Tests that the bytes open as a fat file of 32 bits.
fn test_fat(alloc: Global, bytes: &[u8]) -> Result<(), Refusal>
    requires { ¬ HasFat64Magic bytes.now }
    ensures fat { OnOk result (HasFatMagic bytes.now) }
    ensures refused { IfErr result (RefusesFaults bytes.now) }
{
    match Mach::parse(alloc, bytes) {
        Ok(Mach::Fat(_)) => Ok(()),
        Ok(Mach::Binary(_)) => Err(Refusal::NotFat),
        Err(error) => Err(refused_by(refused_kind(bytes, &error), error)),
    }
}

// Prints some faults, a line each.
fn print_faults<O: Write>(faults: &[LayoutFault], out: &mut O) -> io::Result<()>
    ensures { OnOk result (Appends (O.contents out.old) (O.contents out.new) (fault_lines faults.now)) }
{
    'faults: for fault in faults {
        print_fault(fault, out)?;
    }
    Ok(())
}

// Prints the line of a fault.
fn print_fault<O: Write>(fault: &LayoutFault, out: &mut O) -> io::Result<()>
    ensures { OnOk result (Appends (O.contents out.old) (O.contents out.new) (table_fault_line fault.now)) }
{
    writeln!(out, "{fault}")
}
