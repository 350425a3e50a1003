//! What the program writes of an image as JSON.

ghost use Rattle.machsign.specs.JsonSignature.{AreImageSignatureMembers};

use crate::members::write_members;
use goblin_mach::MachO;
use mach_cli::{ImageView, Outcome, ShowFailure};
use std::alloc::Allocator;
use std::io::Write;

/// The object of the signature of an image: its blobs, the fields of the code directory that is used, and a string for everything
/// that differs from what was signed. The limit is that of its blobs and its faults together.
#[derive(Clone, Copy)]
pub struct SignatureObjects;

impl ImageView for SignatureObjects {
    ghost lines = { λ _ _ _. AreImageSignatureMembers };

    fn show<A: Allocator + Clone, O: Write>(
        &self,
        _alloc: &A,
        _file: &str,
        image: &MachO<'_, A>,
        _limit: usize,
        left: usize,
        out: &mut O,
    ) -> Result<Outcome, ShowFailure> {
        Ok(write_members(image, left, out)?)
    }
}
