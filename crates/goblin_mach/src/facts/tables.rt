//! Laws between an opened image and the facts on its bytes: on the tables that its commands place or hold.

ghost use Rattle.goblin_mach.specs.Fixups.{base_view};
ghost use Rattle.goblin_mach.specs.Modes.{Agrees, HoldsAs};
ghost use Rattle.goblin_mach.specs.OpenImage.{bytes_view, commands_view, ctx_view};
ghost use Rattle.goblin_mach.specs.TableFacts.{HasFunctionStarts, HasDataInCode, HasLinkerOptions, HasBuildTools, HasNotes};
ghost use Rattle.goblin_mach.specs.Tables.{AreStartsAt, data_in_code_there, data_place_in, starts_place_in};
ghost use Rattle.mach_load.specs.BuildTools.{build_tools_in};
ghost use Rattle.mach_load.specs.LinkerOptions.{linker_options_in};
ghost use Rattle.mach_load.specs.Notes.{notes_of_commands};

use crate::macho::MachO;
use std::alloc::Allocator;

/// The functions that `MachO::function_starts` returns, up to the first fault, are those of the bytes.
pub fn function_starts_of_image<A: Allocator>(image: &MachO<'_, A>)
    ensures { Agrees image.now HasFunctionStarts
        (AreStartsAt (bytes_view image.now) (starts_place_in (commands_view image.now)) (base_view image.now)) }
{}

/// The data-in-code entries that `MachO::data_in_code` returns are those of the bytes.
pub fn data_in_code_of_image<A: Allocator>(image: &MachO<'_, A>)
    ensures { HoldsAs image.now HasDataInCode
        (data_in_code_there (ctx_view image.now).le (bytes_view image.now) (data_place_in (commands_view image.now))) }
{}

/// The options that `MachO::linker_options` returns, up to the first fault, are those of the bytes.
pub fn linker_options_of_image<A: Allocator>(image: &MachO<'_, A>)
    ensures { HoldsAs image.now HasLinkerOptions (linker_options_in (bytes_view image.now) (commands_view image.now)) }
{}

/// The tools that `MachO::build_tools` returns, up to the first fault, are those of the bytes.
pub fn build_tools_of_image<A: Allocator>(image: &MachO<'_, A>)
    ensures { HoldsAs image.now HasBuildTools (build_tools_in (ctx_view image.now).le (bytes_view image.now) (commands_view image.now)) }
{}

/// The notes that `MachO::notes` returns are those of the bytes.
pub fn notes_of_image<A: Allocator>(image: &MachO<'_, A>)
    ensures { HoldsAs image.now HasNotes (notes_of_commands (bytes_view image.now) (commands_view image.now)) }
{}
