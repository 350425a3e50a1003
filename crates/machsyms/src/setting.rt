//! What the lines of symbols need of their image.

ghost use Rattle.std.specs.Prelude.{◌≡◌};
ghost use Rattle.goblin_mach.specs.ImageFacts.{facts_view};
ghost use Rattle.goblin_mach.specs.OpenImage.{segments_view};
ghost use Rattle.machsyms.specs.Letters.{letters_of, named_sections};
ghost use Rattle.machsyms.specs.Setting.{symbol_described, setting_of, setting_view, words_shown};

use crate::letters::section_by;
use crate::nm::descriptions::SymbolWords;
use crate::nm::origin::origin_of;
use goblin_mach::MachO;
use goblin_mach::segment::Section;
use goblin_mach::symbols::Nlist;
use std::alloc::Allocator;

/// What the lines of symbols need of their image.
#[derive(Drop)]
pub struct Setting<'b, 'a, A: Allocator> {
    /// A letter for each of its sections.
    pub letters: &'b [char],
    /// Its sections.
    pub sections: &'b [Option<Section>],
    pub image: &'b MachO<'a, A>,
}

impl<'b, 'a, A: Allocator> Setting<'b, 'a, A> {
    /// Returns the setting of an image with these sections and their letters.
    pub fn new(
        image: &'b MachO<'a, A>,
        sections: &'b [Option<Section>],
        letters: &'b [char],
    ) -> Self
        ensures { sections.now ≡ named_sections (segments_view image.now) → letters.now ≡ letters_of (segments_view image.now)
            → setting_view result ≡ setting_of image.now.is_64 (facts_view image.now) }
    {
        Setting {
            letters,
            sections,
            image,
        }
    }

    /// Returns the words for a symbol of this name, with names as they are or escaped.
    pub fn words<'c>(&'c self, is_raw: bool, name: &'c str, symbol: &'c Nlist) -> SymbolWords<'c>
        ensures { words_shown result ≡ symbol_described is_raw (setting_view self.now) name.now symbol.now }
    {
        SymbolWords {
            symbol,
            section: section_by(symbol.n_sect, self.sections),
            filetype: self.image.header.filetype,
            name,
            origin: origin_of(symbol, self.image.symbol_provider(symbol)),
            is_raw,
        }
    }
}
