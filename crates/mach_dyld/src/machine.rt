//! The machine that reads streams, for use by other crates: imports and bindings are two instances of it.

pub use crate::imports::instruction::instruction_error;
pub use crate::imports::settings::Settings;
pub use crate::imports::source::Source;
pub use crate::imports::state::State;
pub use crate::imports::stream::{BindRules, Stop, Stream};
pub use crate::stream_faults::JudgesAll;
pub use crate::stride::none_above;
