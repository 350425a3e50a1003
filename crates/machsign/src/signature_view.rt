//! What the program prints of an image.

ghost use Rattle.machsign.specs.ImageLines.{AreImageSignatureLines};

use crate::print::print_signature;
use goblin_mach::MachO;
use mach_cli::{ImageView, Outcome, ShowFailure};
use std::alloc::Allocator;
use std::io::Write;

/// The lines of the signature of an image. The limit is that of its blobs and its faults together.
#[derive(Clone, Copy)]
pub struct SignatureLines;

impl ImageView for SignatureLines {
    ghost lines = { λ _ _. AreImageSignatureLines };

    fn show<A: Allocator + Clone, O: Write>(
        &self,
        _alloc: &A,
        _file: &str,
        image: &MachO<'_, A>,
        limit: usize,
        left: usize,
        out: &mut O,
    ) -> Result<Outcome, ShowFailure> {
        Ok(print_signature(image, limit, left, out)?)
    }
}
