//! The entitlements of a signature, in XML and in DER: they are read value by value, and compared.

mod agreement;
mod compare;
mod debuggers;
mod der;
mod digits;
mod front;
mod parts;
mod spelling;
mod xml;

pub use crate::entitlements::agreement::{
    Agreement, agreement_in, agreement_of, is_agreed, readable_values,
};
pub use crate::entitlements::compare::rest_or;
pub use crate::entitlements::debuggers::allows_debuggers;
pub use crate::entitlements::front::front_at;
pub use crate::entitlements::parts::{
    Entry, Front, Group, Notation, NumberKind, Plain, Span, Value,
};
pub use crate::entitlements::spelling::{Spelled, next_byte, whole_text};
pub use crate::entitlements::xml::MOST_STEPS;
