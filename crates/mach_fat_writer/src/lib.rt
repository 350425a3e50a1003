//! Builds fat files of 32 and 64 bits (`mach-o/fat.h`) and takes them apart: reads the records and entries of a table, writes a
//! file of entries, and replaces or removes an entry. For C, entries are parts of one buffer.
#![tactic(auto)]

// Entries, and files written from them.
mod cpu;
mod cpus;
mod entry;
mod fat_record;
mod into;
mod order;
mod put;
mod write;

// Files taken apart, and files built from others.
mod changed;
mod created;
mod entries;
mod entry_record;
mod form;
mod refusal;
mod thin;

// A file whose entries are parts of one buffer, for C.
mod part;

// Laws.
pub mod laws;

pub use crate::changed::{remove, replace};
pub use crate::created::create;
pub use crate::entries::{fat_entries, file_entries};
pub use crate::entry::FatEntry;
pub use crate::entry_record::EntryRecord;
pub use crate::form::Form;
pub use crate::into::{write_fat_into, write_fat64_into};
pub use crate::order::fat_order;
pub use crate::part::{FatPart, write_parts};
pub use crate::refusal::{EntryRefusal, FileRefusal, MakeRefusal};
pub use crate::thin::{fat_records, indexed_entry, thin_entry};
pub use crate::write::{write_fat, write_fat64};
pub use mach_parts::{FAT_MAGIC_64, FatArch64, SIZEOF_FAT_ARCH_64};
