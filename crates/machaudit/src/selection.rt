//! What of a file is audited, given the selected cpu.

ghost use Rattle.std.specs.Prelude.{◌≡◌, ◌≤◌, ◌⊎◌, List, ℕ, string_bytes, take, IfErr, IfOk, Ok};
ghost use Rattle.goblin_mach.specs.FatFile.{fat_file_in, file_view};
ghost use Rattle.goblin_mach.specs.File.{HasFatMagic};
ghost use Rattle.machaudit.specs.Audited.{audited_name, AreAudited, AuditsAll, AuditsEntries, AuditsFile, AuditsSome, WritesAudited, WritesUntilMemory};
ghost use Rattle.machaudit.specs.Selected.{EntriesFail, EntriesSound, IsFailing, FailsFor, IsSelectedFor, IsSoundFor, MissesAll};
ghost use Rattle.mach_cli.specs.Cpus.{is_selected};
ghost use Rattle.mach_cli.specs.Failures.{IfMemory};
ghost use Rattle.mach_parts.specs.ArchForms.{arch_form_32};
ghost use Rattle.mach_audit.specs.Overlaid.{AreOverlaid};
ghost use Rattle.mach_audit.specs.Sound.{IsSound};
ghost use Rattle.goblin_mach.specs.OpenImage.{IsImage};

use crate::output::{Call, NAME, refuse, run};
use goblin_mach::fat::FatArch;
use goblin_mach::{Error, Mach, MachO, MultiArch};
use mach_audit::overlaid::{Selection, entries_within};
use mach_cli::entries::outside_at;
use mach_cli::{Cpu, Names, Refusal, ShowFailure};
use std::alloc::{AllocError, Allocator};
use std::io::{BufWriter, Write};

// Selects the entries for a cpu.
#[derive(Clone, Copy)]
struct ForCpu(Cpu);

impl Selection<FatArch> for ForCpu {
    ghost selects = { λ selection. is_selected selection.0 };

    fn takes_entry(&self, arch: &FatArch) -> bool {
        self.0.takes_entry(arch)
    }
}

// What of a file is selected.
#[derive(Drop)]
enum Selected<A: Allocator> {
    // All of it.
    Whole,
    // Nothing: it is an image for another cpu.
    Other,
    // Entries of a fat file with these records.
    Entries(Vec<FatArch, A>),
}

/// Audits the selected images of a file, prints the reports, and returns the worst exit status.
///
/// The file is audited as a whole if any cpu is selected, if it is one image for the cpu, or if it doesn't open. Otherwise each
/// entry for the cpu is audited as a file of its own, under the file's name and its index. The status is 0 if each is sound and
/// none of its lists is longer than the limit. It is 1 if one isn't sound or has a longer list; and also if nothing is for the
/// cpu, and then `err` has a line that says so. All that is printed has left the buffer.
pub fn run_for<A: Allocator + Clone, W: Write + Drop, B: Allocator, E: Write>(
    alloc: &A,
    cpu: Cpu,
    call: Call<'_>,
    bytes: &[u8],
    out: &mut BufWriter<W, B>,
    err: &mut E,
) -> Result<u8, ShowFailure>
    ensures bounds { IfOk result (λ status. status ≤ 1) }
    ensures sound { IfOk result (λ status. status ≡ 0 → IsSoundFor cpu bytes.now) }
    ensures faulty { IfOk result (λ status. status ≡ 1 → FailsFor cpu call.entry.options.limit bytes.now ⊎ MissesAll cpu bytes.now) }
    ensures written { IfOk result (WritesAudited W.contents call.entry.options cpu call.entry.name.now bytes.now out.old out.new) }
    ensures memory { IfErr result (IfMemory (WritesUntilMemory W.contents call.entry.options cpu call.entry.name.now bytes.now out.old out.new)) }
{
    match selected_of(alloc, cpu, bytes)? {
        Selected::Whole => run(alloc, call, bytes, out, err),
        Selected::Other => Ok(refuse(call.name, Refusal::OtherImage(cpu), err)),
        Selected::Entries(archs) => {
            if cpu.misses(&archs) {
                return Ok(refuse(call.name, Refusal::NoEntry(cpu), err));
            }
            run_within(alloc, cpu, call, bytes, &archs, out, err)
        }
    }
}

// Returns what of a file is selected.
fn selected_of<A: Allocator + Clone>(
    alloc: &A,
    cpu: Cpu,
    bytes: &[u8],
) -> Result<Selected<A>, ShowFailure>
    ensures { IfOk result (IsSelectedFor cpu bytes.now) }
{
    if let Cpu::Any = cpu {
        return Ok(Selected::Whole);
    }
    match Mach::parse(alloc.clone()?, bytes) {
        Ok(Mach::Binary(image)) => Ok(selected_image(cpu, &image)),
        Ok(Mach::Fat(container)) => selected_entries(cpu, &container),
        Err(Error::Memory(_)) => Err(ShowFailure::Memory),
        Err(_) => Ok(Selected::Whole),
    }
}

// Returns what of an image is selected.
fn selected_image<A: Allocator>(cpu: Cpu, image: &MachO<'_, A>) -> Selected<A>
    ensures { (bytes : List ℕ) → IsImage bytes 0 image.now → IsSelectedFor cpu bytes result }
{
    if cpu.takes(image.header.cputype, image.header.cpusubtype) {
        Selected::Whole
    } else {
        Selected::Other
    }
}

// Returns what of a fat file is selected: all of it, if its table can't be read.
fn selected_entries<A: Allocator + Clone>(
    cpu: Cpu,
    container: &MultiArch<'_, A>,
) -> Result<Selected<A>, ShowFailure>
    ensures { (bytes : List ℕ) → HasFatMagic bytes → fat_file_in bytes ≡ Ok (file_view container.now) → IfOk result (IsSelectedFor cpu bytes) }
{
    match container.arches() {
        Ok(archs) => Ok(Selected::Entries(archs)),
        Err(Error::Memory(_)) => Err(ShowFailure::Memory),
        Err(_) => Ok(Selected::Whole),
    }
}

// Audits the entries for a cpu among these records, as long as they have no more bytes together than the file, and returns the
// worst status.
#[tactic(auto, using(mach_audit::proofs::GoneOver::overlaid_by))]
fn run_within<A: Allocator + Clone, W: Write + Drop, B: Allocator, E: Write>(
    alloc: &A,
    cpu: Cpu,
    call: Call<'_>,
    bytes: &[u8],
    archs: &[FatArch],
    out: &mut BufWriter<W, B>,
    err: &mut E,
) -> Result<u8, ShowFailure>
    ensures bounds { IfOk result (λ status. status ≤ 1) }
    ensures sound { IfOk result (λ status. status ≡ 0 → EntriesSound cpu bytes.now archs.now) }
    ensures faulty { IfOk result (λ status. status ≡ 1 → EntriesFail cpu call.entry.options.limit bytes.now archs.now
        ⊎ AreOverlaid arch_form_32 (is_selected cpu) bytes.now archs.now) }
    ensures written { IfOk result (AuditsEntries W.contents call.entry.options cpu call.entry.name.now bytes.now archs.now out.old out.new) }
    ensures memory { IfErr result (IfMemory ((n : ℕ) × AreAudited cpu bytes.now archs.now n
        × AuditsSome W.contents call.entry.options cpu call.entry.name.now bytes.now (take n archs.now) out.old out.new)) }
{
    let most = entries_within(&ForCpu(cpu), archs.len(), bytes, archs);
    let status = run_entries(alloc, cpu, call, bytes, &archs[..most], out, err)?;
    if most < archs.len() {
        return Ok(left_out(call.name, archs.len() - most, err));
    }
    Ok(status)
}

// Reports that the last entries of a file are left out, and returns the exit status.
fn left_out<E: Write>(file: &str, count: usize, err: &mut E) -> u8
    ensures { result ≡ 1 }
{
    let names = Names {
        program: NAME,
        file,
    };
    let _ = writeln!(
        err,
        "{names}: entries overlap: the last {count} are left out"
    );
    1
}

// Audits the entries for a cpu among these records, and returns the worst status.
fn run_entries<A: Allocator + Clone, W: Write + Drop, B: Allocator, E: Write>(
    alloc: &A,
    cpu: Cpu,
    call: Call<'_>,
    bytes: &[u8],
    archs: &[FatArch],
    out: &mut BufWriter<W, B>,
    err: &mut E,
) -> Result<u8, ShowFailure>
    ensures bounds { IfOk result (λ status. status ≤ 1) }
    ensures sound { IfOk result (λ status. status ≡ 0 → EntriesSound cpu bytes.now archs.now) }
    ensures faulty { IfOk result (λ status. status ≡ 1 → EntriesFail cpu call.entry.options.limit bytes.now archs.now) }
    ensures audited { IfOk result (AuditsAll W.contents call.entry.options cpu call.entry.name.now bytes.now archs.now out.old out.new) }
    ensures memory { IfErr result (IfMemory (AuditsSome W.contents call.entry.options cpu call.entry.name.now bytes.now archs.now out.old out.new)) }
{
    let mut worst = 0u8;
    'archs: for (index, arch) in archs.iter().enumerate() {
        if cpu.takes_entry(arch) {
            let entry_call = Call {
                outside: outside_at::<FatArch>(bytes, Some(index)),
                ..call
            };
            let status = run_entry(alloc, entry_call, index, arch.slice(bytes), out, err)?;
            worst = worst.max(status);
        }
    }
    Ok(worst)
}

// Audits an entry as a file of its own, and returns its status.
fn run_entry<A: Allocator + Clone, W: Write + Drop, B: Allocator, E: Write>(
    alloc: &A,
    call: Call<'_>,
    index: usize,
    entry: &[u8],
    out: &mut BufWriter<W, B>,
    err: &mut E,
) -> Result<u8, ShowFailure>
    ensures bounds { IfOk result (λ status. status ≤ 1) }
    ensures sound { IfOk result (λ status. status ≡ 0 → IsSound entry.now) }
    ensures faulty { IfOk result (λ status. status ≡ 1 → IsFailing call.entry.options.limit entry.now) }
    ensures audited { IfOk result (AuditsFile W.contents call.entry.options (audited_name call.entry.name.now index) entry.now out.old out.new) }
    ensures memory { IfErr result (IfMemory (out.new ≡ out.old)) }
{
    let name = entry_name(alloc.clone()?, call.name, index)?;
    let call = Call {
        options: call.options,
        name: &name,
        heading: true,
        outside: call.outside,
    };
    run(alloc, call, entry, out, err)
}

// Returns the name of a file's entry.
fn entry_name<A: Allocator>(alloc: A, file: &str, index: usize) -> Result<String<A>, AllocError>
    ensures { IfOk result (λ name. string_bytes name ≡ audited_name file.now index) }
{
    format!(in alloc; "{file}: arch {index}")
}
