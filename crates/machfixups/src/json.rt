//! What the program writes of an image as JSON.

ghost use Rattle.machfixups.specs.JsonImages.{image_pointer_members};

use crate::lists::ImageRows;
use crate::members::write_members;
use crate::rows::Selection;
use crate::target_symbols::target_symbols;
use goblin_mach::{AllStretches, MachO};
use mach_cli::{ImageView, Outcome, ShowFailure};
use std::alloc::Allocator;
use std::io::Write;

/// The objects of the selected lists.
#[derive(Clone, Copy)]
pub struct FixupObjects {
    pub selection: Selection,
}

impl ImageView for FixupObjects {
    ghost lines = { λ s. image_pointer_members s.selection };

    fn show<A: Allocator + Clone, O: Write>(
        &self,
        alloc: &A,
        _file: &str,
        image: &MachO<'_, A>,
        _limit: usize,
        left: usize,
        out: &mut O,
    ) -> Result<Outcome, ShowFailure> {
        let parts = AllStretches::of_image(alloc, image)?;
        let shown = self.selection.shown();
        let symbols = target_symbols(alloc, image, shown.has_rebases())?;
        let kinds = shown.kinds_in_objects();
        let rows = ImageRows::of(image, &parts, &symbols, shown, kinds, true);
        Ok(write_members(rows, left, out)?)
    }
}
