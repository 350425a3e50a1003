//! Static libraries: `ar` archives with GNU's and BSD's names and indexes (`ar.h`, `ranlib.h`).
#![tactic(auto)]

mod archive;
mod field;
mod header;
pub mod laws;
mod member;
mod members;
mod placed;
mod symbols;
mod table;

pub use crate::archive::{Archive, ArchiveKind};
pub use crate::member::Member;
pub use crate::members::Members;
pub use crate::symbols::{ArchiveSymbol, ArchiveSymbols};
