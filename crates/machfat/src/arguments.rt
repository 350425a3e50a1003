//! The option of a call that selects a fat file of 64 bits.

use mach_cli::OwnOptions;

/// The option.
pub const WIDE: &str = "--fat64";

/// Whether it is given.
#[derive(Clone, Copy, Drop)]
pub struct Width {
    pub is_wide: bool,
}

impl Width {
    /// It is not given.
    pub const NARROW: Width = Width { is_wide: false };
}

impl OwnOptions for Width {
    ghost use Rattle.machfat.specs.Arguments.{width_taken};

    ghost taken = { width_taken };

    fn take(&mut self, argument: &str) -> bool {
        if argument != WIDE {
            return false;
        }
        self.is_wide = true;
        true
    }
}
