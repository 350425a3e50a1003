//! What the sections of an image hold.

ghost use Rattle.mach_base.specs.Answer.{Reads};
ghost use Rattle.mach_base.specs.Items.{read_as};
ghost use Rattle.mach_parts.specs.SectionRecord.{bytes_of_section};
ghost use Rattle.goblin_mach.specs.Fixups.{chained_view};
ghost use Rattle.goblin_mach.specs.Initializers.{AreImageInitializers, initializers_left};
ghost use Rattle.goblin_mach.specs.OpenImage.{bytes_view, ctx_view, segments_view};
ghost use Rattle.goblin_mach.specs.Strings.{strings_of_section, strings_left};

use crate::initializers::{InitializerIterator, pointer_form};
use crate::macho::MachO;
use crate::strings::StringIterator;
use mach_base::Result;
use mach_parts::segment::NumberedSection;
use std::alloc::Allocator;

impl<'a, A: Allocator> MachO<'a, A> {
    /// Returns the bytes of a section, among those in which the image was opened; none if it is zero-filled. Fails if they don't
    /// lie there.
    pub fn section_data(&self, section: &NumberedSection) -> Result<&'a [u8]>
        ensures { Reads (λ found. found.now) result (bytes_of_section (bytes_view self.now) section.now.section) }
    {
        section.data_in(self.bytes)
    }

    /// Returns the strings of a section, as one of type `S_CSTRING_LITERALS` has them, whatever its type is. A zero byte ends
    /// each, and the last may lack it. Fails if the section's bytes don't lie in those in which the image was opened.
    pub fn strings_of(&self, section: &NumberedSection) -> Result<StringIterator<'a>>
        ensures { Reads strings_left result (strings_of_section (bytes_view self.now) section.now.section) }
    {
        Ok(StringIterator::over(self.section_data(section)?))
    }

    /// Returns the functions that dyld calls before the main function, over the segments that the image holds: the pointers in
    /// sections of type `S_MOD_INIT_FUNC_POINTERS`, and the offsets in those of type `S_INIT_FUNC_OFFSETS`. Sections that aren't in
    /// the bytes are skipped. If the image has chains, a pointer is read as dyld does: in the format of the segment of its first
    /// fixup. Fails if that fixup can't be read. It allocates nothing.
    pub fn initializers<'b>(&'b self) -> Result<InitializerIterator<'a, 'b>>
        ensures { AreImageInitializers (ctx_view self.now) (bytes_view self.now) (chained_view self.now) (segments_view self.now)
            (read_as initializers_left result) }
    {
        let form = pointer_form(self)?;
        Ok(InitializerIterator::of(self, form))
    }
}
