//! Load commands (`mach-o/loader.h`): which record each is read as, and what the record holds.
//!
//! Also the tables that a command holds or places: function starts, data in code,
//! options for the linker, build tools and notes. Reading a table allocates no memory.
#![tactic(auto)]

// Load commands, and the record of each.
mod load_command;
mod newer;
mod thread;
mod variant;

// Tables that a command holds or places.
mod build_tools;
mod data_in_code;
mod function_starts;
mod linker_options;
mod notes;
mod prefix;

// Laws.
pub mod laws;

pub use crate::build_tools::BuildToolIterator;
pub use crate::data_in_code::DataInCodeIterator;
pub use crate::function_starts::{FunctionStartIterator, FunctionStarts};
pub use crate::linker_options::LinkerOptionIterator;
pub use crate::load_command::LoadCommand;
pub use crate::newer::NewerCommand;
pub use crate::notes::{Note, NoteIterator};
pub use crate::thread::ThreadCommand;
pub use crate::variant::CommandVariant;
