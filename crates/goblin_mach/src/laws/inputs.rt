//! Laws of files: how `Input` relates to `Mach`.

ghost use Rattle.std.specs.Prelude.{◌↔◌, ℕ, List};
ghost use Rattle.mach_base.specs.Fault.{Fault};
ghost use Rattle.goblin_mach.specs.Image.{Opens, ImageFault};
ghost use Rattle.goblin_mach.specs.File.{MachOpens, MachFault};
ghost use Rattle.goblin_mach.specs.Inputs.{IsNeither, InputOpens, InputFault, IsInput, IsOfMach};

use crate::input::Input;
use std::alloc::Allocator;

/// For bytes that begin neither like an archive nor like a fat file of 64 bits, the result is that of `Mach::parse`. They
/// open exactly if they open there, as the same image or file, and have the same faults.
pub fn inputs_are_machs<A: Allocator>(input: &Input<'_, A>)
    ensures opens { (bytes : List ℕ) → IsNeither bytes → InputOpens bytes ↔ MachOpens Opens bytes }
    ensures faults { (bytes : List ℕ) (f : Fault) → IsNeither bytes → InputFault bytes f ↔ MachFault ImageFault bytes f }
    ensures held { (bytes : List ℕ) → IsNeither bytes → IsInput bytes input.now ↔ IsOfMach bytes input.now }
{}
