//! Verdicts on how an image is hardened.

ghost use Rattle.std.specs.Prelude.{◌≡◌, option_map};
ghost use Rattle.std.specs.Iterator.{YieldsFirstBy};
ghost use Rattle.mach_base.specs.Answer.{Reads};
ghost use Rattle.goblin_mach.specs.ImageFacts.{facts_view};
ghost use Rattle.mach_audit.specs.Security as defined;
ghost use Rattle.mach_audit.specs.declared.security.Verdict.TheVariants as verdicts;

use crate::hardening::{
    has_bit, has_canary, has_chained_fixups, has_relative_path, has_restricted, has_writable_code,
    is_arm64e, may_have_writable_code,
};
use crate::state::{is_encrypted, state_of};
use goblin_mach::header::{MH_ALLOW_STACK_EXECUTION, MH_NO_HEAP_EXECUTION, MH_PIE};
use goblin_mach::{Container, MachO, Result};
use mach_signature::entitlements::allows_debuggers;
use mach_signature::image::{code_directory, code_signature};
use std::alloc::Allocator;

/// A verdict on how an image is hardened.
#[derive(Clone, Copy, Debug)]
pub enum Verdict {
    /// Code on the heap is not executed. Only images of 32 bits say so.
    NoHeapExecution,
    /// The image is loaded at a random address.
    Pie,
    /// Code on the stack may be executed.
    StackExecution,
    /// The image is for the cpu arm64e, which signs pointers.
    PointerAuthentication,
    /// The code checks its stack by canaries.
    StackCanary,
    /// A segment is both writable and executable.
    WritableCode,
    /// A segment may become both writable and executable.
    WritableCodeAllowed,
    /// dyld is to ignore environment variables.
    Restricted,
    /// Pointers are in chains of fixups.
    ChainedFixups,
    /// A run path begins with neither `/` nor `@`.
    RelativeRunPaths,
    /// A part of the image is encrypted.
    Encrypted,
    /// The image has no local symbols.
    Stripped,
    /// The image has a code directory.
    Signed,
    /// The image is signed without an identity.
    AdHoc,
    /// The signature has a CMS message, which says who signed.
    Cms,
    /// The image is started in the hardened runtime.
    HardenedRuntime,
    /// Only libraries of its team or of the system are loaded.
    LibraryValidation,
    /// The signature has entitlements.
    Entitlements,
    /// Debuggers may attach to the program.
    GetTaskAllow,
}

// All verdicts, in order: that on images of 32 bits alone, and those on all images.
const VERDICTS: [Verdict; 19] = [
    Verdict::NoHeapExecution,
    Verdict::Pie,
    Verdict::StackExecution,
    Verdict::PointerAuthentication,
    Verdict::StackCanary,
    Verdict::WritableCode,
    Verdict::WritableCodeAllowed,
    Verdict::Restricted,
    Verdict::ChainedFixups,
    Verdict::RelativeRunPaths,
    Verdict::Encrypted,
    Verdict::Stripped,
    Verdict::Signed,
    Verdict::AdHoc,
    Verdict::Cms,
    Verdict::HardenedRuntime,
    Verdict::LibraryValidation,
    Verdict::Entitlements,
    Verdict::GetTaskAllow,
];

impl Verdict {
    /// Returns its name, and what `yes` means.
    pub fn words(self) -> (&'static str, &'static str)
        ensures { defined.words_read result ≡ defined.finding_words self }
    {
        match self {
            Verdict::NoHeapExecution => ("no-heap-execution", "execution refused on the heap"),
            Verdict::Pie => ("pie", "loaded at a random address"),
            Verdict::StackExecution => ("stack-execution", "execution allowed on the stack"),
            Verdict::PointerAuthentication => (
                "pointer-authentication",
                "for arm64e, which signs pointers",
            ),
            Verdict::StackCanary => ("stack-canary", "code that checks its stack by canaries"),
            Verdict::WritableCode => ("writable-code", "a segment both writable and executable"),
            Verdict::WritableCodeAllowed => (
                "writable-code-allowed",
                "a segment that may become both",
            ),
            Verdict::Restricted => ("restricted", "dyld is to ignore environment variables"),
            Verdict::ChainedFixups => ("chained-fixups", "pointers in chains of fixups"),
            Verdict::RelativeRunPaths => (
                "relative-run-paths",
                "a run path that begins with neither / nor @",
            ),
            Verdict::Encrypted => ("encrypted", "a part is encrypted"),
            Verdict::Stripped => ("stripped", "no local symbols"),
            Verdict::Signed => ("signed", "a code directory"),
            Verdict::AdHoc => ("ad-hoc", "signed without an identity"),
            Verdict::Cms => ("cms", "a CMS message, which says who signed"),
            Verdict::HardenedRuntime => ("hardened-runtime", "started in the hardened runtime"),
            Verdict::LibraryValidation => (
                "library-validation",
                "only libraries of its team or of the system",
            ),
            Verdict::Entitlements => ("entitlements", "entitlements in the signature"),
            Verdict::GetTaskAllow => ("get-task-allow", "debuggers may attach to it"),
        }
    }
}

/// A verdict, and whether it holds.
#[derive(Clone, Copy, Debug)]
pub struct Finding {
    /// The verdict.
    pub verdict: Verdict,
    /// Whether it holds.
    pub is_so: bool,
}

// Whether an image has a code directory.
fn is_signed<A: Allocator>(image: &MachO<'_, A>) -> Result<bool>
    ensures { Reads (λ it. it) result (defined.directory_meets defined.has_directory (facts_view image.now)) }
{
    match code_directory(image)? {
        Some(_) => Ok(true),
        None => Ok(false),
    }
}

// Whether the code directory of an image has a flag.
fn has_code_flag<A: Allocator>(image: &MachO<'_, A>, flag: u32) -> Result<bool>
    ensures { Reads (λ it. it) result (defined.directory_meets (defined.has_code_flag flag) (facts_view image.now)) }
{
    match code_directory(image)? {
        Some(directory) => Ok(has_bit(directory.head.flags, flag)),
        None => Ok(false),
    }
}

// Whether there are bytes.
fn is_filled(content: Option<&[u8]>) -> bool
    ensures { result ≡ defined.is_filled (option_map (λ bytes. bytes.now) content.entry) }
{
    match content {
        Some([_, ..]) => true,
        _ => false,
    }
}

// Whether the signature of an image has a CMS message.
fn has_cms<A: Allocator>(image: &MachO<'_, A>) -> Result<bool>
    ensures { Reads (λ it. it) result (defined.is_so (facts_view image.now) verdicts.Cms) }
{
    match code_signature(image)? {
        Some(signature) => Ok(is_filled(signature.cms()?)),
        None => Ok(false),
    }
}

// Whether the signature of an image has entitlements.
fn has_entitlements<A: Allocator>(image: &MachO<'_, A>) -> Result<bool>
    ensures { Reads (λ it. it) result (defined.is_so (facts_view image.now) verdicts.Entitlements) }
{
    match code_signature(image)? {
        Some(signature) => {
            let xml = is_filled(signature.entitlements()?);
            let der = is_filled(signature.der_entitlements()?);
            Ok(xml || der)
        }
        None => Ok(false),
    }
}

// Whether the entitlements in the signature of an image let debuggers attach.
fn gets_task<A: Allocator>(image: &MachO<'_, A>) -> Result<bool>
    ensures { Reads (λ it. it) result (defined.is_so (facts_view image.now) verdicts.GetTaskAllow) }
{
    match code_signature(image)? {
        Some(signature) => allows_debuggers(&signature),
        None => Ok(false),
    }
}

// Whether a verdict holds of an image, or why its signature can't be read.
#[tactic(auto, using(crate::proofs::Verdicts::any_of_views))]
fn is_so<A: Allocator>(image: &MachO<'_, A>, verdict: Verdict) -> Result<bool>
    ensures { Reads (λ it. it) result (defined.is_so (facts_view image.now) verdict) }
{
    let flags = image.header.flags;
    let segments = image.segments.as_slice();
    let commands = image.load_commands.as_slice();
    match verdict {
        Verdict::NoHeapExecution => Ok(has_bit(flags, MH_NO_HEAP_EXECUTION)),
        Verdict::Pie => Ok(has_bit(flags, MH_PIE)),
        Verdict::StackExecution => Ok(has_bit(flags, MH_ALLOW_STACK_EXECUTION)),
        Verdict::PointerAuthentication => Ok(is_arm64e(&image.header)),
        Verdict::StackCanary => Ok(has_canary(image)),
        Verdict::WritableCode => Ok(has_writable_code(segments)),
        Verdict::WritableCodeAllowed => Ok(may_have_writable_code(segments)),
        Verdict::Restricted => Ok(has_restricted(segments)),
        Verdict::ChainedFixups => Ok(has_chained_fixups(commands)),
        Verdict::RelativeRunPaths => Ok(has_relative_path(image.rpaths.as_slice())),
        Verdict::Encrypted => Ok(is_encrypted(commands)),
        Verdict::Stripped => Ok(state_of(image).is_stripped),
        Verdict::Signed => is_signed(image),
        Verdict::AdHoc => has_code_flag(image, 0x2),
        Verdict::Cms => has_cms(image),
        Verdict::HardenedRuntime => has_code_flag(image, 0x1_0000),
        Verdict::LibraryValidation => has_code_flag(image, 0x2000),
        Verdict::Entitlements => has_entitlements(image),
        Verdict::GetTaskAllow => gets_task(image),
    }
}

// Returns the verdicts on images of a width.
fn verdicts_for<'a>(container: Container) -> &'a [Verdict]
    ensures { result.now ≡ defined.verdicts_for container }
{
    match container {
        Container::Little => &VERDICTS,
        Container::Big => &VERDICTS[1..],
    }
}

/// Some verdicts, and the image that they are on.
#[derive(Clone, Copy)]
pub struct Findings<'a, 'b, A: Allocator> {
    /// The image.
    pub image: &'b MachO<'a, A>,
    /// The verdicts that are left.
    pub rest: &'b [Verdict],
}

impl<'a, 'b, A: Allocator> Findings<'a, 'b, A> {
    /// Returns all verdicts on an image.
    pub fn of(image: &'b MachO<'a, A>) -> Self
        ensures { defined.findings_left result ≡ defined.all_findings (facts_view image.now) }
    {
        Findings {
            image,
            rest: verdicts_for(image.ctx().container),
        }
    }

    /// Returns whether the next verdict holds, or the error if the signature can't be read.
    pub fn take_next(&mut self) -> Option<Result<Finding>>
        ensures { YieldsFirstBy defined.finding_read defined.findings_left self.old result self.new }
    {
        let [verdict, rest @ ..] = self.rest else {
            return None;
        };
        self.rest = rest;
        let verdict = *verdict;
        match is_so(self.image, verdict) {
            Ok(is_so) => Some(Ok(Finding { verdict, is_so })),
            Err(error) => Some(Err(error)),
        }
    }
}
