//! Chained fixups, as dyld reads them (`mach-o/fixup-chains.h`).
#![tactic(auto)]

mod bindings;
mod bits;
mod cursor;
mod fixups;
mod format;
mod header;
mod imports;
pub mod laws;
mod pointer;
mod records;
mod source;
mod starts;

pub use crate::bindings::ChainedBindIterator;
pub use crate::cursor::FixupCursor;
pub use crate::fixups::FixupIterator;
pub use crate::format::{ImportFormat, PointerFormat};
pub use crate::header::ChainedFixups;
pub use crate::imports::{ChainedImport, ChainedImportIterator};
pub use crate::pointer::{ChainPointer, FixupKind, read_pointer};
pub use crate::source::Fixup;
pub use mach_parts::binding::PointerAuth;
pub use mach_records::{
    ChainedFixupsHeader, ChainedStartsInSegment, SIZEOF_CHAINED_FIXUPS_HEADER,
    SIZEOF_CHAINED_STARTS_IN_SEGMENT,
};
