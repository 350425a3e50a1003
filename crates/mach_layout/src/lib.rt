//! The rules of layout of a Mach-O image: which range of the file each part claims, and every fault of the layout. They read
//! the bytes, the header and the load commands. `goblin_mach::layout` checks an image by them, and adds the faults of the
//! lists that an image returns one item at a time.
//!
//! The rules of layout of a fat file are here too, for tables of 32 and of 64 bits.
#![tactic(auto)]

// The rules, the words for a fault, and what the rules read of an image.
mod fault;
mod faults;
mod layout;
mod messages;
pub mod rules;
mod text;

// Which part claims which range, and ranges that two parts claim.
mod claim;
mod claiming;
mod ranges;
mod sweep;

// The rules by subject.
mod commands;
mod data;
mod entry;
mod fixups;
mod header;
mod last_command;
mod libraries;
mod lists;
mod placed_sections;
mod sections;
mod segments;
mod symbols;

// Fat files.
mod containers;

// Laws.
pub mod laws;

pub use crate::claim::Claim;
pub use crate::claiming::ClaimIterator;
pub use crate::containers::container_faults;
pub use crate::data::data_faults;
pub use crate::fault::{LayoutFault, Owner, Part, Rule};
pub use crate::faults::{add_sections, add_segments, add_symbols};
pub use crate::fixups::fixup_faults;
pub use crate::header::header_owner;
pub use crate::layout::Layout;
pub use crate::lists::{function_starts_fault, opcodes_fault};
pub use crate::placed_sections::{PlacedSection, PlacedSegment, SectionIterator, SegmentIterator};
pub use crate::sweep::report_ranges;
pub use crate::text::Evidence;
