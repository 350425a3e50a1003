//! The option of a call that selects entitlements.

use mach_cli::OwnOptions;

/// Whether `--entitlements` is given.
#[derive(Clone, Copy, Drop)]
pub struct Entitlements {
    pub are_selected: bool,
}

impl Entitlements {
    /// It is not given.
    pub const UNSELECTED: Entitlements = Entitlements {
        are_selected: false,
    };
}

impl OwnOptions for Entitlements {
    ghost use Rattle.machsign.specs.Arguments.{entitlements_taken};

    ghost taken = { entitlements_taken };

    fn take(&mut self, argument: &str) -> bool {
        if argument != "--entitlements" {
            return false;
        }
        self.are_selected = true;
        true
    }
}
