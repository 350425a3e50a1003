//! How files are audited.

use mach_cli::Format;

/// How files are audited.
#[derive(Clone, Copy, Debug)]
pub struct Options {
    /// The form of the reports.
    pub format: Format,
    /// How many items of one list are visited at most.
    pub limit: usize,
}

/// How many items of one list are visited if no other limit is given.
pub const DEFAULT_LIMIT: usize = 10_000_000;
