//! The options of a call that select lists.

use crate::rows::Selection;
use mach_cli::OwnOptions;

impl OwnOptions for Selection {
    ghost use Rattle.machfixups.specs.PickWords.{pick_taken};

    ghost taken = { pick_taken };

    fn take(&mut self, argument: &str) -> bool {
        match argument {
            "--rebases" => self.rebases = true,
            "--binds" => self.binds = true,
            "--weak" => self.weak = true,
            "--chains" => self.chains = true,
            _ => return false,
        }
        true
    }
}
