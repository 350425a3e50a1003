//! The law of the faults of a fat file's table.

ghost use Rattle.std.specs.Prelude.{◌≡◌, ℕ, List};
ghost use Rattle.mach_layout.specs.Containers.{AreContainerFaults};
ghost use Rattle.mach_layout.specs.declared.fault.LayoutFault.{LayoutFault};

use mach_parts::ArchRecord;

/// A fat file has at most one list of faults of its table, for records of a form.
pub fn one_list_of_container_faults<R: ArchRecord>()
    ensures { (bytes : List ℕ) (list others : List LayoutFault)
        → AreContainerFaults R.arch_form bytes list → AreContainerFaults R.arch_form bytes others → list ≡ others }
{}
