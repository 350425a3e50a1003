//! What the program prints of an image.

ghost use Rattle.std.specs.Prelude.{option_map, IfOk};
ghost use Rattle.mach_parts.specs.SymbolViews.{table_of};
ghost use Rattle.machsyms.specs.ImageLines.{AreImageKeys, AreSelectedLines};

use crate::arguments::Letters;
use crate::letters::{named_sections, section_letters};
use crate::order::{SortKey, keys_in_order};
use crate::print::{print_symbols, unreadable_word};
use crate::selection::Sorting;
use crate::setting::Setting;
use goblin_mach::symbols::Symbols;
use goblin_mach::{MachO, laws};
use mach_cli::{ImageView, Outcome, ShowFailure};
use std::alloc::{AllocError, Allocator};
use std::io::Write;

/// The lines of the symbols that letters select.
#[derive(Clone, Copy)]
pub struct SymbolLinesOf {
    pub letters: Letters,
    pub is_raw: bool,
}

impl ImageView for SymbolLinesOf {
    ghost lines = { λ s. AreSelectedLines s.letters s.is_raw };

    fn show<A: Allocator + Clone, O: Write>(
        &self,
        alloc: &A,
        file: &str,
        image: &MachO<'_, A>,
        limit: usize,
        left: usize,
        out: &mut O,
    ) -> Result<Outcome, ShowFailure> {
        laws::facts_of_image(image);
        let request = self.letters.selected_of(self.is_raw, file);
        let sections = named_sections(alloc.clone()?, image)?;
        let letters = section_letters(alloc.clone()?, &sections)?;
        let keys = keys_of_image(alloc.clone()?, request.sorting, &image.symbols)?;
        let word = unreadable_word(alloc.clone()?, &request)?;
        let setting = Setting::new(image, &sections, &letters);
        Ok(print_symbols(
            &request,
            &setting,
            &keys,
            &image.symbols,
            word.as_str(),
            limit,
            left,
            out,
        )?)
    }
}

/// Returns the keys of a table's symbols in the selected order, if there is a table; none if the symbols stay in table order.
pub fn keys_of_image<'a, A: Allocator>(
    alloc: A,
    sorting: Option<Sorting>,
    table: &Option<Symbols<'a>>,
) -> Result<Vec<SortKey<'a>, A>, AllocError>
    ensures { IfOk result (λ v. AreImageKeys sorting (option_map table_of table.now) v.items) }
{
    let Some(sorting) = sorting else {
        return Ok(Vec::new(alloc));
    };
    match table {
        Some(table) => keys_in_order(alloc, sorting, &table.in_bounds()),
        None => Ok(Vec::new(alloc)),
    }
}
