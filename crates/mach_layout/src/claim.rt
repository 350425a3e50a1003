//! A range and its owner.

ghost use Rattle.std.specs.Prelude.{◌≡◌};
ghost use Rattle.mach_layout.specs.Claim as defined;

use crate::fault::Owner;

/// A range of the file, or of memory, and its owner.
#[derive(Clone, Copy, Debug, PartialEq)]
pub struct Claim {
    /// Its owner.
    pub owner: Owner,
    /// Its first byte.
    pub start: u64,
    /// How many bytes it has.
    pub len: u64,
}

impl Claim {
    /// Returns the place where it ends.
    pub fn end(&self) -> u128
        ensures { result ≡ defined.end_of self.now }
    {
        u128::from(self.start) + u128::from(self.len)
    }
}
