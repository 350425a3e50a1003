//! Small callers of goblin_mach: each states its answer by a fact about the bytes, or about a list of exports, and cites the law
//! that gives it.

ghost use Rattle.std.specs.Prelude.{◌≡◌, ◌<◌, ℕ, List, Bool, Result, Some, IfOk, MatchOption, option_map, slice_get};
ghost use Rattle.mach_base.specs.Fault.{Fault};
ghost use Rattle.mach_dyld.specs.BindLeft.{imports_left};
ghost use Rattle.mach_dyld.specs.Exports.{entries, info_of};
ghost use Rattle.mach_base.specs.Text.{texts};
ghost use Rattle.mach_dyld.specs.LookUp.{IsFirstOf};
ghost use Rattle.mach_dyld.specs.Trie.{Entry};
ghost use Rattle.goblin_mach.specs.Facts.{HasRunPaths, HasEntryPoint, HasImportItems, HasBindings, HasFixups, HasExports, HasExportOf, HasLibrariesByKind};
ghost use Rattle.goblin_mach.specs.Facts.{IsExportedAt, IsNotExported};
ghost use Rattle.goblin_mach.specs.BindingsLeft.{bindings_left};
ghost use Rattle.goblin_mach.specs.FixupsLeft.{image_fixups_left};
ghost use Rattle.goblin_mach.specs.FatEntry.{FatEntry, entries_of, OpensEntry};
ghost use Rattle.goblin_mach.specs.FatFile.{file_view};
ghost use Rattle.goblin_mach.specs.Libraries.{libraries_left};
ghost use Rattle.goblin_mach.specs.OpenImage.{IsImage, IsLossyImage};

use crate::tests::same::same;
use goblin_mach::exports::{Export, ExportInfo};
use goblin_mach::imports::BindIterator;
use goblin_mach::{
    BindingIterator, FixupIterator, LibraryIterator, MachO, MultiArch, Result, SingleArch,
    find_export, laws,
};
use mach_samples::files::{FILE_B, FILE_D, file_c};
use std::alloc::{Allocator, Global};
use std::test::Fail;

// Opens the image at the start of the bytes; if it opens, it also opens in lossy mode.
fn image(alloc: Global, bytes: &[u8]) -> Result<MachO<'_>>
    ensures { IfOk result (IsLossyImage bytes.now 0) }
{
    let image = MachO::parse(alloc, bytes, 0)?;
    laws::strict_image_is_lossy(&image);
    Ok(image)
}

// Returns the run paths of the image.
fn run_paths(alloc: Global, bytes: &[u8]) -> Result<Vec<&str>>
    ensures { IfOk result (λ paths. HasRunPaths bytes.now 0 (texts paths.items)) }
{
    let image = MachO::parse(alloc, bytes, 0)?;
    laws::run_paths_of_image(&image);
    Ok(image.rpaths)
}

// Returns the entry point of the image.
fn entry_point(alloc: Global, bytes: &[u8]) -> Result<u64>
    ensures { IfOk result (λ address. (old_style : Bool) × HasEntryPoint bytes.now 0 (record { address = address; old_style = old_style })) }
{
    let image = MachO::parse(alloc, bytes, 0)?;
    laws::entry_point_of_image(&image);
    Ok(image.entry)
}

// Returns the imports of an image one at a time, which are those of the bytes in which it was opened.
fn import_items<'a, 'b>(image: &'b MachO<'a>) -> BindIterator<'a, 'b>
    ensures { (bytes : List ℕ) (o : ℕ) → IsImage bytes o image.now → HasImportItems bytes o (imports_left result) }
{
    laws::import_items_of_image(image);
    image.iter_imports()
}

// Returns the bindings of an image one at a time, which are those of the bytes in which it was opened.
fn bindings<'a, 'b>(image: &'b MachO<'a>) -> BindingIterator<'a, 'b>
    ensures { (bytes : List ℕ) (o : ℕ) → IsLossyImage bytes o image.now → HasBindings bytes o (bindings_left result) }
{
    laws::bindings_of_image(image);
    image.bindings()
}

// Returns the fixups of an image.
fn fixups<'a, 'b>(image: &'b MachO<'a>) -> FixupIterator<'a, 'b>
    ensures { (bytes : List ℕ) (o : ℕ) → IsLossyImage bytes o image.now → HasFixups bytes o (image_fixups_left result) }
{
    laws::fixups_of_image(image);
    image.fixups()
}

// Returns the libraries of an image by their kinds, which are those of the bytes in which it was opened.
fn libraries<'a, 'b>(image: &'b MachO<'a>) -> LibraryIterator<'a, 'b>
    ensures { (bytes : List ℕ) (o : ℕ) → IsImage bytes o image.now → HasLibrariesByKind bytes o (libraries_left result) }
{
    laws::libraries_by_kind_of_image(image);
    image.libraries()
}

// Returns the export of the image with a name: by the paths of its trie, and by the list of its exports, if there is one.
fn exported_as<'a>(alloc: Global, bytes: &'a [u8], name: &str) -> Result<Option<ExportInfo<'a>>>
    ensures by_paths { IfOk result (λ o. HasExportOf bytes.now 0 name.now (option_map info_of o)) }
    ensures by_list { (list : List Entry) → HasExports bytes.now 0 list → IfOk result (λ o. IsFirstOf name.now list (option_map info_of o)) }
{
    let image = MachO::parse(alloc, bytes, 0)?;
    laws::found_export_of_image(&image);
    laws::exports_of_image(&image);
    image.find_export(alloc, name)
}

// Returns the entry with an index, which is the one at that place among all entries.
fn entry<'a>(container: &MultiArch<'a>, index: usize) -> Result<SingleArch<'a>>
    requires { index < container.now.narches }
    ensures { (found : Result FatEntry Fault) × (slice_get (entries_of (file_view container.now)) index ≡ Some found) × OpensEntry found result }
{
    laws::entries_by_number();
    container.get(index)
}

// Returns the address of the first export with a name, at which the list has that name; None if it has none.
fn address_of<A: Allocator>(exports: &[Export<'_, A>], name: &str) -> Option<u64>
    ensures { MatchOption result (IsNotExported name.now (entries exports.now)) (λ address. IsExportedAt name.now address (entries exports.now)) }
{
    laws::exported_or_not();
    match find_export(exports, name) {
        Some(export) => Some(export.offset),
        None => None,
    }
}

#[test]
fn of_an_image(rt: HostRuntime) -> std::result::Result<(), Fail> {
    let alloc = rt.alloc();
    same(&rt, run_paths(alloc, &FILE_B)?.len(), 0);
    same(&rt, entry_point(alloc, &FILE_B)?, 0x100000138);
    let image = image(alloc, &FILE_B)?;
    let exports = image.exports(alloc)?;
    same(&rt, address_of(&exports, "a"), Some(9));
    same(&rt, address_of(&exports, "b"), None);
    Ok(())
}

#[test]
fn one_name(rt: HostRuntime) -> std::result::Result<(), Fail> {
    let found = exported_as(rt.alloc(), &FILE_B, "a")?;
    assert!(rt; matches!(found, Some(ExportInfo::Regular { address: 9, .. })));
    assert!(rt; exported_as(rt.alloc(), &FILE_B, "b")?.is_none());
    Ok(())
}

#[test]
fn one_at_a_time(rt: HostRuntime) -> std::result::Result<(), Fail> {
    let image = image(rt.alloc(), &FILE_D)?;
    assert!(rt; matches!(libraries(&image).next(), Some(library) if library.name == "L"));
    assert!(rt; matches!(import_items(&image).next(), Some(Ok(import)) if import.name == "b"));
    assert!(rt; matches!(bindings(&image).next(), Some(Ok(_))));
    assert!(rt; matches!(fixups(&image).next(), Some(Ok(_))));
    Ok(())
}

#[test]
fn of_a_fat_file(rt: HostRuntime) -> std::result::Result<(), Fail> {
    let bytes = file_c(rt.alloc())?;
    let container = MultiArch::new(rt.alloc(), bytes.as_slice())?;
    same(&rt, container.narches, 2);
    if container.narches == 2 {
        assert!(rt; matches!(entry(&container, 0)?, SingleArch::MachO(_)));
        assert!(rt; matches!(entry(&container, 1)?, SingleArch::Archive(_)));
    }
    Ok(())
}
