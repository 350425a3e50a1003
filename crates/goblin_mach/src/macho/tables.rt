//! The tables that the commands of an image place or hold.

ghost use Rattle.std.specs.Prelude.{◌≡◌};
ghost use Rattle.goblin_mach.specs.Fixups.{base_view};
ghost use Rattle.goblin_mach.specs.OpenImage.{bytes_view, commands_view, ctx_view};
ghost use Rattle.goblin_mach.specs.Tables.{AreStartsAt, data_in_code_there, data_place_in, starts_place_in};
ghost use Rattle.mach_load.specs.BuildTools.{build_tools_in};
ghost use Rattle.mach_load.specs.LinkerOptions.{linker_options_in};
ghost use Rattle.mach_load.specs.Notes.{notes_of_commands};
ghost use Rattle.mach_load.specs.TablesLeft.{starts_left, data_in_code_left, options_left, build_tools_left, notes_left};

use crate::fixups::last_readable;
use crate::macho::MachO;
use crate::table_places::{DataPlaces, StartPlaces};
use mach_load::{
    BuildToolIterator, DataInCodeIterator, FunctionStartIterator, FunctionStarts,
    LinkerOptionIterator, NoteIterator,
};
use std::alloc::Allocator;

impl<'a, A: Allocator> MachO<'a, A> {
    /// Returns the addresses of the image's functions one at a time, before sliding. They are read from the numbers that the
    /// last `LC_FUNCTION_STARTS` among the load commands that it holds places, and counted from `base`. The first fault is
    /// the last item. There are none if no command places any. It allocates nothing.
    pub fn function_starts(&self) -> FunctionStartIterator<'a>
        ensures { AreStartsAt (bytes_view self.now) (starts_place_in (commands_view self.now)) (base_view self.now) (starts_left result) }
    {
        let Some(command) = last_readable(&StartPlaces, self.load_commands.as_slice()) else {
            return FunctionStartIterator::default();
        };
        FunctionStarts::new(self.bytes, &command).iter(self.base())
    }

    /// Returns the entries of the data-in-code table that the last `LC_DATA_IN_CODE` among the load commands that the image
    /// holds places; none if there is no such command. It allocates nothing.
    pub fn data_in_code(&self) -> DataInCodeIterator<'a>
        ensures { data_in_code_left result ≡ data_in_code_there (ctx_view self.now).le (bytes_view self.now) (data_place_in (commands_view self.now)) }
    {
        let Some(command) = last_readable(&DataPlaces, self.load_commands.as_slice()) else {
            return DataInCodeIterator::default();
        };
        DataInCodeIterator::new(self.bytes, &command, self.ctx.le)
    }

    /// Returns the options for the linker in the load commands that the image holds, each with the number of its command.
    /// The first fault is the last item. It allocates nothing.
    pub fn linker_options<'b>(&'b self) -> LinkerOptionIterator<'a, 'b>
        ensures { options_left result ≡ linker_options_in (bytes_view self.now) (commands_view self.now) }
    {
        LinkerOptionIterator::new(self.bytes, self.load_commands.as_slice())
    }

    /// Returns the tools that the image was built with, by the load commands that it holds, each with the number of its
    /// command. The first fault is the last item. It allocates nothing.
    pub fn build_tools<'b>(&'b self) -> BuildToolIterator<'a, 'b>
        ensures { build_tools_left result ≡ build_tools_in (ctx_view self.now).le (bytes_view self.now) (commands_view self.now) }
    {
        BuildToolIterator::new(self.bytes, self.load_commands.as_slice(), self.ctx.le)
    }

    /// Returns the notes of the load commands that the image holds. A note that can't be read is its error. It allocates nothing.
    pub fn notes<'b>(&'b self) -> NoteIterator<'a, 'b>
        ensures { notes_left result ≡ notes_of_commands (bytes_view self.now) (commands_view self.now) }
    {
        NoteIterator::new(self.bytes, self.load_commands.as_slice())
    }
}
