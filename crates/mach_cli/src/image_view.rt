//! What a program prints for an image.

use crate::failure::ShowFailure;
use goblin_mach::MachO;
use std::alloc::Allocator;
use std::io::Write;

/// The outcome of showing an image.
#[derive(Clone, Copy, Drop)]
pub struct Outcome {
    /// Whether everything was printed and could be read.
    pub whole: bool,
    /// How many more lines may be printed for later images.
    pub left: usize,
}

/// A program's call: what it shows of an image.
pub trait ImageView {
    ghost use Rattle.std.specs.Prelude.{◌≡◌, [], ℕ, List, IfOk, IfErr};
    ghost use Rattle.std.specs.Io.KnownBytes.{Appends};
    ghost use Rattle.goblin_mach.specs.OpenImage.{IsLossyImage};
    ghost use Rattle.mach_cli.specs.Failures.{IfMemory};
    ghost use Rattle.mach_cli.specs.Shown.{ImageLines};

    // Which texts an image of a file may have, given the file's name and limit, and how many lines may be printed.
    ghost lines: { Self → (file : List ℕ) → (limit : ℕ) → ImageLines };

    /// Shows an image of a file with at most `left` of the `limit` lines of the file, and returns whether it is whole, and how
    /// many lines are left. It allocates all its memory before it writes.
    fn show<A: Allocator + Clone, O: Write>(
        &self,
        alloc: &A,
        file: &str,
        image: &MachO<'_, A>,
        limit: usize,
        left: usize,
        out: &mut O,
    ) -> Result<Outcome, ShowFailure>
        ensures shown { (bytes : List ℕ) → IsLossyImage bytes 0 image.now
            → IfOk result (λ outcome. (text : List ℕ) × lines self.now file.now limit left bytes text outcome.whole outcome.left
            × Appends (O.contents out.old) (O.contents out.new) text) }
        ensures memory { IfErr result (IfMemory (Appends (O.contents out.old) (O.contents out.new) [])) };
}
