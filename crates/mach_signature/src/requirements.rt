//! The requirements of a signature: conditions on code, by their types. A condition is read operation by operation, and written
//! as `csreq` writes it.

mod requirement;
mod set;
mod term;
mod text;

pub use crate::requirements::requirement::{Requirement, RequirementText};
pub use crate::requirements::set::{RequirementType, Requirements};
pub use crate::requirements::text::Quotes;
