//! The form of rows.

/// The form in which the rows of a list are written.
#[derive(Clone, Copy)]
pub enum Form {
    /// As lines.
    Lines,
    /// As objects of JSON.
    Objects,
}
