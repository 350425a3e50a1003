//! What dyld reads, apart from chained fixups: the export trie, and the streams of opcodes that bind, bind weakly and rebase
//! pointers. One machine reads all streams.
#![tactic(auto)]

// The export trie: all exports as a list, the exports one at a time, and the export of one name.
mod export_info;
mod export_walk;
pub mod exports;
mod trie;

// The machine that reads opcodes; imports, as the Rust crate goblin has them; and bindings, as dyld reads them.
pub mod bind_opcodes;
pub mod bindings;
pub mod imports;
pub mod machine;
mod stream_faults;
mod stride;

// Rebases and weak binds, read by that machine.
pub mod rebase_opcodes;
pub mod rebases;
mod stream_prefix;
pub mod weak_binds;

// Laws.
pub mod laws;

pub use crate::rebases::{OpcodeRebaseIterator, Rebase, RebaseKind, RebaseStream};
pub use crate::weak_binds::{WeakBind, WeakBindIterator, WeakBindStream};
