//! Laws about reports: functions with an empty body, whose contracts are laws.

ghost use Rattle.std.specs.Prelude.{◌≡◌, [], ℕ, List};
ghost use Rattle.mach_audit.specs.Findings.{findings_of};
ghost use Rattle.mach_audit.specs.Inputs.{IsInputReport};
ghost use Rattle.mach_audit.specs.Verdicts.{verdict_of_input};
ghost use Rattle.mach_audit.specs.declared.verdict.Soundness.TheVariants.{Sound};

use crate::report::InputReport;
use std::alloc::Allocator;

/// A report in which nothing is found is sound. In a sound report that `audit` returned, nothing is found.
///
/// The second isn't so of each report that can be built. If a part has one item in `reported` and `faults` is 0, it is sound, and
/// that item is found. `audit` counts each fault that it keeps.
pub fn sound_if_nothing_is_found<A: Allocator>(report: &InputReport<'_, A>)
    ensures sound { findings_of report.now ≡ [] → verdict_of_input report.now ≡ Sound }
    ensures only { (limit : ℕ) (bytes : List ℕ) → IsInputReport limit bytes report.now → verdict_of_input report.now ≡ Sound → findings_of report.now ≡ [] }
{}
