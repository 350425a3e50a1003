//! What programs write as JSON (RFC 8259).

pub(crate) mod array;
pub(crate) mod text;
