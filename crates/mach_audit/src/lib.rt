//! What an image says of itself, and verdicts on how it is hardened. `Findings` has all verdicts on an image. `audit` reports what is
//! wrong with a file, image by image and part by part.
#![tactic(auto)]

// Facts of an image, and its state.
mod command_facts;
mod fact;
mod state;

// Verdicts.
mod hardening;
mod security;

// The audit of a file: whether it opens, and each part that can't be read or lies where it must not.
mod file;
mod findings;
mod input;
mod items;
mod lists;
pub mod overlaid;
mod report;
mod signed;
mod tally;
mod verdict;

// Laws about reports.
pub mod laws;

pub use crate::command_facts::{CommandFacts, PlatformFact, Question, uuid_by};
pub use crate::fact::{Fact, FactList};
pub use crate::file::audit_mach;
pub use crate::findings::{AuditedPart, FileFinding, FindingKind, FindingPlace};
pub use crate::input::audit;
pub use crate::report::{
    ArchiveReport, EntryReport, FatReport, FaultPlace, ImageReport, InputReport, ItemFault,
    ItemList, MemberReport, PartReport, Parts, Records, Report, SignaturePart, SignatureReport,
};
pub use crate::security::{Finding, Findings, Verdict};
pub use crate::state::{State, state_of};
pub use crate::tally::MOST_REPORTED;
pub use crate::verdict::Soundness;
