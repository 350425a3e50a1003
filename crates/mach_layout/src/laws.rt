//! Theorems on the definitions only: functions with empty bodies, whose contracts are laws.

mod containers;
mod sharing;

pub use crate::laws::containers::one_list_of_container_faults;
pub use crate::laws::sharing::{shared_are_claims, shared_are_ranges};
