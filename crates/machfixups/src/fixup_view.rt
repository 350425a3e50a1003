//! What the program prints of an image.

ghost use Rattle.machfixups.specs.ImageLines.{image_pointer_lines};

use crate::headed::Headed;
use crate::lists::ImageRows;
use crate::rows::Selection;
use crate::target_symbols::target_symbols;
use goblin_mach::{AllStretches, MachO};
use mach_cli::{ImageView, Outcome, ShowFailure, print_listing};
use std::alloc::Allocator;
use std::io::Write;

// The line above the rows of an image.
const HEADING: &str =
    "ADDRESS     SEGMENT      SECTION          KIND   FROM                 TARGET\n";

/// The lines of the selected lists.
#[derive(Clone, Copy)]
pub struct FixupLines {
    pub selection: Selection,
}

impl ImageView for FixupLines {
    ghost lines = { λ s. image_pointer_lines s.selection };

    fn show<A: Allocator + Clone, O: Write>(
        &self,
        alloc: &A,
        _file: &str,
        image: &MachO<'_, A>,
        limit: usize,
        left: usize,
        out: &mut O,
    ) -> Result<Outcome, ShowFailure> {
        let parts = AllStretches::of_image(alloc, image)?;
        let shown = self.selection.shown();
        let symbols = target_symbols(alloc, image, shown.has_rebases())?;
        let list = ImageRows::of(
            image,
            &parts,
            &symbols,
            shown,
            shown.kinds_in_lines(),
            self.selection.chains,
        );
        let mut lines = Headed {
            list,
            heading: HEADING,
            is_written: false,
        };
        Ok(print_listing(&mut lines, "unreadable", limit, left, out)?)
    }
}
