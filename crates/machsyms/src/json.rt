//! What the program writes of an image as JSON.

ghost use Rattle.machsyms.specs.JsonSymbols.{AreSelectedMembers};

use crate::arguments::Letters;
use crate::members::write_members;
use crate::symbol_view::keys_of_image;
use goblin_mach::{MachO, laws};
use mach_cli::{ImageView, Outcome, ShowFailure};
use std::alloc::Allocator;
use std::io::Write;

/// The objects of the symbols that letters select, in the selected order. The form of lines and the name of the file before them
/// don't affect it.
#[derive(Clone, Copy)]
pub struct SymbolObjectsOf {
    pub letters: Letters,
    pub is_raw: bool,
}

impl ImageView for SymbolObjectsOf {
    ghost lines = { λ s. AreSelectedMembers s.letters s.is_raw };

    fn show<A: Allocator + Clone, O: Write>(
        &self,
        alloc: &A,
        file: &str,
        image: &MachO<'_, A>,
        _limit: usize,
        left: usize,
        out: &mut O,
    ) -> Result<Outcome, ShowFailure> {
        laws::facts_of_image(image);
        let request = self.letters.selected_of(self.is_raw, file);
        let keys = keys_of_image(alloc.clone()?, request.sorting, &image.symbols)?;
        Ok(write_members(&request, &keys, &image.symbols, left, out)?)
    }
}
