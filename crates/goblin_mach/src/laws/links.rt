//! What an opened image links.

ghost use Rattle.std.specs.Prelude.{ℕ, List};
ghost use Rattle.mach_base.specs.Context.{pointer_size};
ghost use Rattle.mach_base.specs.Fault.{Fault};
ghost use Rattle.mach_base.specs.Text.{texts};
ghost use Rattle.mach_dyld.specs.Imports.{Import};
ghost use Rattle.mach_dyld.specs.Trie as trie;
ghost use Rattle.goblin_mach.specs.OpenImage.{IsImage, segments_view, trie_view, binds_view, ctx_view};
ghost use Rattle.goblin_mach.specs.Subjects.{ListsImageImports, ListsImageExports};
ghost use Rattle.goblin_mach.specs.View.{LinksImage, LinksFault, FaultHeld};

use crate::macho::MachO;
use std::alloc::Allocator;

/// An image that was opened strictly at 0 links the lists that it holds, and a fault in one of them is a fault of the bytes.
pub fn links_of_image<A: Allocator>(image: &MachO<'_, A>)
    ensures listed { (bytes : List ℕ) (list : List trie.Entry) (imports : List Import) → IsImage bytes 0 image.now
        → ListsImageExports (trie_view image.now) (texts image.now.libs.items) list
        → ListsImageImports (binds_view image.now) (pointer_size (ctx_view image.now).container) (texts image.now.libs.items) (segments_view image.now) imports
        → LinksImage bytes list imports }
    ensures refused { (bytes : List ℕ) (f : Fault) → IsImage bytes 0 image.now → FaultHeld image.now f → LinksFault bytes f }
{}
