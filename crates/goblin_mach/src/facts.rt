//! Laws between an opened image and the facts on the bytes in which it was opened: each of its fields and lists is exactly
//! what the bytes say. They hold for an image in any memory, so each law is a function of an image.

ghost use Rattle.std.specs.Prelude.{ℕ, List, option_map};
ghost use Rattle.mach_base.specs.Context.{pointer_size};
ghost use Rattle.mach_base.specs.Fault.{Fault};
ghost use Rattle.mach_dyld.specs.Exports.{text_in};
ghost use Rattle.mach_base.specs.Text.{texts};
ghost use Rattle.mach_dyld.specs.Trie as trie;
ghost use Rattle.goblin_mach.specs.Bindings.{AreImageBindings};
ghost use Rattle.goblin_mach.specs.Fixups.{AreImageFixups, base_view, chained_view};
ghost use Rattle.goblin_mach.specs.Facts.{HasCommands, HasSymbols, HasSegments, HasRelocations, HasName, HasLibraries, HasRunPaths, HasEntryPoint};
ghost use Rattle.goblin_mach.specs.Facts.{HasExports, HasExportsFault, HasImports, HasImportsFault, HasImportItems, HasChainedFixups, HasBase, HasFixups};
ghost use Rattle.goblin_mach.specs.Facts.{HasBindings, HasExportsEnd};
ghost use Rattle.mach_dyld.specs.TrieRange.{ListsExports, ExportsFault, ExportsEnd};
ghost use Rattle.goblin_mach.specs.Subjects.{ListsImageImports, ImageImportsFault, AreImageBindItems, ListsImageExports, ImageExportsFault, trie_or_empty};
ghost use Rattle.goblin_mach.specs.Subjects.{symbols_view};
ghost use Rattle.goblin_mach.specs.Modes.{InBothModes, Agrees, HoldsAs};
ghost use Rattle.goblin_mach.specs.OpenImage.{IsImage, IsLossyImage, commands_view, segments_view, trie_view, binds_view, ctx_view, bytes_view};
ghost use Rattle.goblin_mach.specs.Relocations.{relocated_sections_in};
ghost use Rattle.goblin_mach.specs.Facts.{HasLibrariesByKind, HasExportOf, HasSymbolTable};
ghost use Rattle.mach_parts.specs.SymbolViews.{table_of};
ghost use Rattle.goblin_mach.specs.ImageFacts.{HasFacts, facts_view};
ghost use Rattle.goblin_mach.specs.Libraries.{libraries_in};
ghost use Rattle.goblin_mach.specs.LookUp.{IsAnswerInImage};

pub mod looked_up;
pub mod said;
pub mod slots;
pub mod streams;
pub mod tables;

use crate::macho::MachO;
use std::alloc::Allocator;

/// An image that was opened strictly is the one that opens in lossy mode.
pub fn strict_image_is_lossy<A: Allocator>(image: &MachO<'_, A>)
    ensures { (bytes : List ℕ) (o : ℕ) → IsImage bytes o image.now → IsLossyImage bytes o image.now }
{}

/// The load commands that an image holds are those of the bytes.
#[tactic(auto, using(crate::proofs::ImageFacts::commands_are))]
pub fn commands_of_image<A: Allocator>(image: &MachO<'_, A>)
    ensures { HoldsAs image.now HasCommands (commands_view image.now) }
{}

/// The symbols that an image holds are those of the bytes.
#[tactic(auto, using(crate::proofs::ImageFacts::symbols_are))]
pub fn symbols_of_image<A: Allocator>(image: &MachO<'_, A>)
    ensures { HoldsAs image.now HasSymbols (symbols_view image.now.symbols) }
{}

/// The table of symbols that an image holds is that of the bytes.
#[tactic(auto, using(crate::proofs::ImageFacts::symbol_table_is))]
pub fn symbol_table_of_image<A: Allocator>(image: &MachO<'_, A>)
    ensures { HoldsAs image.now HasSymbolTable (option_map table_of image.now.symbols) }
{}

/// The segments that an image holds are those of the bytes.
#[tactic(auto, using(crate::proofs::ImageFacts::segments_are))]
pub fn segments_of_image<A: Allocator>(image: &MachO<'_, A>)
    ensures { HoldsAs image.now HasSegments (segments_view image.now) }
{}

/// The relocations that `MachO::relocations` returns are those of the bytes.
pub fn relocations_of_image<A: Allocator>(image: &MachO<'_, A>)
    ensures { HoldsAs image.now HasRelocations (relocated_sections_in (ctx_view image.now) (bytes_view image.now) (segments_view image.now)) }
{}

/// The name that an image holds is that of the bytes.
pub fn name_of_image<A: Allocator>(image: &MachO<'_, A>)
    ensures { HoldsAs image.now HasName (text_in image.now.name) }
{}

/// The libraries that an image holds are those of the bytes.
pub fn libraries_of_image<A: Allocator>(image: &MachO<'_, A>)
    ensures { HoldsAs image.now HasLibraries (texts image.now.libs.items) }
{}

/// The libraries that `MachO::libraries` returns are those of the bytes.
pub fn libraries_by_kind_of_image<A: Allocator>(image: &MachO<'_, A>)
    ensures { HoldsAs image.now HasLibrariesByKind (libraries_in (ctx_view image.now).le (bytes_view image.now) (commands_view image.now)) }
{}

/// The export that `MachO::find_export` returns holds by the paths of the trie in the bytes.
pub fn found_export_of_image<A: Allocator>(image: &MachO<'_, A>)
    ensures { (name : List ℕ)
        → Agrees image.now (λ bytes o. HasExportOf bytes o name) (IsAnswerInImage (trie_view image.now) (texts image.now.libs.items) name) }
{}

/// The run paths that an image holds are those of the bytes.
pub fn run_paths_of_image<A: Allocator>(image: &MachO<'_, A>)
    ensures { HoldsAs image.now HasRunPaths (texts image.now.rpaths.items) }
{}

/// The address at which an opened image begins to run is the one in the bytes.
#[tactic(auto, using(crate::proofs::ImageFacts::entry_point_is))]
pub fn entry_point_of_image<A: Allocator>(image: &MachO<'_, A>)
    ensures { HoldsAs image.now HasEntryPoint (record { address = image.now.entry; old_style = image.now.old_style_entry }) }
{}

/// All facts of an image, as it holds them, are those of the bytes.
pub fn facts_of_image<A: Allocator>(image: &MachO<'_, A>)
    ensures { InBothModes image.now (λ bytes o. HasFacts bytes o (facts_view image.now)) }
{}

/// The exports that `MachO::exports` lists, and the faults that it reports, are those of the bytes.
pub fn exports_of_image<A: Allocator>(image: &MachO<'_, A>)
    ensures listed { Agrees image.now HasExports (ListsImageExports (trie_view image.now) (texts image.now.libs.items)) }
    ensures faults { Agrees image.now HasExportsFault (ImageExportsFault (trie_view image.now) (texts image.now.libs.items)) }
{}

/// What a walk of `MachO::walk_exports` reports at its end holds of the bytes: what it returned is the list of the image's
/// exports. So does what it reports by an error: the fault occurs in the trie, and a walk ends there for it.
pub fn walked_exports_of_image<A: Allocator>(image: &MachO<'_, A>)
    ensures listed { InBothModes image.now (λ bytes o. (list : List trie.Entry)
        → ListsExports (trie_or_empty (trie_view image.now)) (texts image.now.libs.items) list → HasExports bytes o list) }
    ensures faults { InBothModes image.now (λ bytes o. (fault : Fault)
        → ExportsFault (trie_or_empty (trie_view image.now)) (texts image.now.libs.items) fault → HasExportsFault bytes o fault) }
    ensures cut { InBothModes image.now (λ bytes o. (found : List trie.Entry) (fault : Fault)
        → ExportsEnd (trie_or_empty (trie_view image.now)) (texts image.now.libs.items) found fault → HasExportsEnd bytes o found fault) }
{}

/// The imports that `MachO::imports` lists, and the faults that it reports, are those of the bytes.
pub fn imports_of_image<A: Allocator>(image: &MachO<'_, A>)
    ensures listed { Agrees image.now HasImports
        (ListsImageImports (binds_view image.now) (pointer_size (ctx_view image.now).container) (texts image.now.libs.items) (segments_view image.now)) }
    ensures faults { Agrees image.now HasImportsFault
        (ImageImportsFault (binds_view image.now) (pointer_size (ctx_view image.now).container) (texts image.now.libs.items) (segments_view image.now)) }
{}

/// The imports that `MachO::iter_imports` returns, up to the first fault, are those of the bytes.
pub fn import_items_of_image<A: Allocator>(image: &MachO<'_, A>)
    ensures { Agrees image.now HasImportItems
        (AreImageBindItems (binds_view image.now) (pointer_size (ctx_view image.now).container) (texts image.now.libs.items) (segments_view image.now)) }
{}

/// The chained fixups that `MachO::chained_fixups` returns are those of the bytes.
pub fn chained_fixups_of_image<A: Allocator>(image: &MachO<'_, A>)
    ensures { HoldsAs image.now HasChainedFixups (chained_view image.now) }
{}

/// The address that `MachO::base` returns is that of the bytes.
#[tactic(auto, using(crate::proofs::ImageFacts::base_is))]
pub fn base_of_image<A: Allocator>(image: &MachO<'_, A>)
    ensures { HoldsAs image.now HasBase (base_view image.now) }
{}

/// The fixups that `MachO::fixups` returns, up to the first fault, are those of the bytes.
pub fn fixups_of_image<A: Allocator>(image: &MachO<'_, A>)
    ensures { Agrees image.now HasFixups (AreImageFixups (chained_view image.now) (segments_view image.now)) }
{}

/// The bindings that `MachO::bindings` returns, up to the first fault, are those of the bytes.
pub fn bindings_of_image<A: Allocator>(image: &MachO<'_, A>)
    ensures { Agrees image.now HasBindings
        (AreImageBindings (binds_view image.now) (chained_view image.now) (pointer_size (ctx_view image.now).container) (texts image.now.libs.items)
        (segments_view image.now)) }
{}
