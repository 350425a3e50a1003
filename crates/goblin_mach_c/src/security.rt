//! Verdicts on how an image is hardened.

ghost use Rattle.std.specs.Prelude.{◌≡◌, ◌≢◌, ◌<◌, ◌-◌, drop, length};
ghost use Rattle.mach_audit.specs.Security.{finding_read};
ghost use Rattle.goblin_mach_c.specs.Codes.{IsRefusalCode};
ghost use Rattle.goblin_mach_c.specs.Fill.{Fills};
ghost use Rattle.goblin_mach_c.specs.Opened.{FaultIn, lossy_mode};
ghost use Rattle.goblin_mach_c.specs.SecurityRows as defined;
ghost use Rattle.goblin_mach_c.specs.SecurityRows.{WritesVerdicts};

use crate::errors::{GM_OK, code_of, gm_error, refuse, refuse_no_rows};
use crate::images::gm_image;
use crate::open::{flag, open};
use crate::rows::{Rows, fill, skip};
use goblin_mach::laws::facts_of_image;
use mach_audit::{Finding, Findings, Verdict};
use mach_base::Result;
use std::alloc::Global;

/// A verdict on how an image is hardened.
#[derive(Clone, Copy)]
#[repr(C)]
pub struct gm_verdict {
    /// The number of the verdict.
    pub verdict: u32,
    /// Whether it holds, 0 or 1; 0 if it isn't known.
    pub holds: u32,
    /// Why the signature, which the verdict is on, can't be read, or `GM_OK`.
    pub code: u32,
}

// Returns the number of a verdict.
fn verdict_number(verdict: Verdict) -> u32
    ensures { result ≡ defined.verdict_number verdict }
{
    match verdict {
        Verdict::NoHeapExecution => 1,
        Verdict::Pie => 2,
        Verdict::StackExecution => 3,
        Verdict::PointerAuthentication => 4,
        Verdict::StackCanary => 5,
        Verdict::WritableCode => 6,
        Verdict::WritableCodeAllowed => 7,
        Verdict::Restricted => 8,
        Verdict::ChainedFixups => 9,
        Verdict::RelativeRunPaths => 10,
        Verdict::Encrypted => 11,
        Verdict::Stripped => 12,
        Verdict::Signed => 13,
        Verdict::AdHoc => 14,
        Verdict::Cms => 15,
        Verdict::HardenedRuntime => 16,
        Verdict::LibraryValidation => 17,
        Verdict::Entitlements => 18,
        Verdict::GetTaskAllow => 19,
    }
}

// Returns the number of a verdict by how many are left with it: a list of verdicts ends with the last one.
fn number_by_rest(left: usize) -> u32
    ensures { result ≡ 20 - left }
{
    20usize.saturating_sub(left) as u32
}

// Returns a verdict as C sees it. The number is that of a verdict that isn't known.
fn row_of(number: u32, finding: Result<Finding>) -> gm_verdict
    ensures { result ≡ defined.found_verdict_row number (finding_read finding) }
{
    match finding {
        Ok(it) => gm_verdict {
            verdict: verdict_number(it.verdict),
            holds: flag(it.is_so),
            code: GM_OK,
        },
        Err(why) => gm_verdict {
            verdict: number,
            holds: 0,
            code: code_of(&why),
        },
    }
}

// The verdicts that are left.
#[derive(Drop)]
struct VerdictRows<'a, 'b> {
    findings: Findings<'a, 'b, Global>,
}

impl<'a, 'b> Rows for VerdictRows<'a, 'b> {
    type Row = gm_verdict;

    ghost left = { defined.verdict_rows_left };

    fn next(&mut self) -> Option<gm_verdict> {
        let number = number_by_rest(self.findings.rest.len());
        let finding = self.findings.take_next()?;
        Some(row_of(number, finding))
    }
}

// Writes verdicts from index `first` on, and returns how many.
fn write_from(findings: Findings<'_, '_, Global>, first: usize, out: &mut [gm_verdict]) -> usize
    ensures { Fills (drop first (defined.left_verdict_rows findings.entry)) out.old out.new result }
{
    let mut rows = VerdictRows { findings };
    skip(&mut rows, first);
    fill(&mut rows, out)
}

/// Writes the verdicts on an image from index `first` on, as many as there are and fit, and how many to `count`. It opens the image
/// again, and allocates memory for its commands while it runs. A verdict on a signature that can't be read has a code, and the call
/// isn't refused for it. A refused call leaves the array and the count unchanged.
#[unsafe(no_mangle)]
pub extern "C" fn gmr_security(
    alloc: Global,
    bytes: &[u8],
    image: &gm_image,
    first: usize,
    out: &mut [gm_verdict],
    count: &mut usize,
    error: &mut gm_error,
) -> u32
    ensures written { result ≡ 0 → WritesVerdicts bytes.now image.now.offset first out.old out.new count.new }
    ensures refused { result ≢ 0 → 0 < length out.old → IsRefusalCode (FaultIn (lossy_mode image.now.is_lossy) bytes.now image.now.offset) result }
    ensures no_rows { length out.old ≡ 0 → result ≡ 6 }
    ensures array { result ≢ 0 → out.new ≡ out.old }
    ensures count { result ≢ 0 → count.new ≡ count.old }
    ensures reported { result ≢ 0 → error.new.code ≡ result }
    ensures quiet { result ≡ 0 → error.new ≡ error.old }
{
    if out.is_empty() {
        return refuse_no_rows(error);
    }
    match open(alloc, bytes, image.offset, image.is_lossy != 0) {
        Ok(found) => {
            facts_of_image(&found);
            *count = write_from(Findings::of(&found), first, out);
            GM_OK
        }
        Err(why) => refuse(&why, error),
    }
}
