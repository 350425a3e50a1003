//! The fields of load commands by tables: their names, and their values as numbers, or as places and lengths.
#![tactic(auto)]

mod fields;
mod kind;
mod tables;
mod zero;

pub use crate::fields::{CommandField, CommandFields, command_slice};
pub use crate::kind::FieldKind;
pub use crate::zero::before_zero;
