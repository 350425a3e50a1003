//! The libraries of an image by kind, and the look-up of one name in its export trie.

ghost use Rattle.std.specs.Prelude.{◌≡◌, ℕ, List, Option, Some, None, option_map, IfOk, IfErr};
ghost use Rattle.mach_base.specs.Answer.{ErrorMeets, IsOkUnlessMemory};
ghost use Rattle.mach_dyld.specs.ExportAddresses.{export_address};
ghost use Rattle.mach_dyld.specs.Exports.{info_of};
ghost use Rattle.mach_base.specs.Text.{texts};
ghost use Rattle.mach_dyld.specs.LookUp.{IsFirstOf, FaultOnWay};
ghost use Rattle.mach_dyld.specs.Trie.{Info, Entry};
ghost use Rattle.mach_dyld.specs.TrieRange.{trie_there};
ghost use Rattle.goblin_mach.specs.Facts.{HasExports, HasExportOf};
ghost use Rattle.goblin_mach.specs.Fixups.{base_view};
ghost use Rattle.goblin_mach.specs.Libraries.{libraries_in, libraries_left};
ghost use Rattle.goblin_mach.specs.LookUp.{IsAnswerInImage, IsListedAs};
ghost use Rattle.goblin_mach.specs.OpenImage.{trie_view, bytes_view, commands_view, ctx_view};
ghost use Rattle.goblin_mach.specs.Subjects.{ListsImageExports, ImageExportsFault, trie_or_empty};

use crate::libraries::LibraryIterator;
use crate::macho::MachO;
use mach_base::Result;
use mach_dyld::exports::ExportInfo;
use std::alloc::Allocator;

impl<'a, A: Allocator> MachO<'a, A> {
    /// Returns the libraries of the load commands that the image holds, one after the other: each with its ordinal, its
    /// name, and the way it is loaded. In lossy mode a library whose name can't be read is left out, and those after it move
    /// down, as in `libs`. It allocates nothing.
    pub fn libraries<'b>(&'b self) -> LibraryIterator<'a, 'b>
        ensures { libraries_left result ≡ libraries_in (ctx_view self.now).le (bytes_view self.now) (commands_view self.now) }
    {
        LibraryIterator::new(self.bytes, self.ctx.le, self.load_commands.as_slice())
    }

    /// Returns what the image exports a name as, over the libraries that it holds: the first export of that name in the list
    /// of `exports`, or None. It returns None if no command names a trie. It reads only nodes on the way of the name. So it
    /// may return Ok although the trie has no list; the result then holds by the paths of the trie. Each error except
    /// `Error::Memory` is a fault on that way, and so a fault of the trie. It allocates only where `ExportTrie::find` does.
    pub fn find_export<B: Allocator + Clone>(
        &self,
        alloc: B,
        name: &str,
    ) -> Result<Option<ExportInfo<'a>>>
        ensures occurs { IfOk result (λ o. IsAnswerInImage (trie_view self.now) (texts self.now.libs.items) name.now (option_map info_of o)) }
        ensures listed { (list : List Entry) → ListsImageExports (trie_view self.now) (texts self.now.libs.items) list
            → IfOk result (λ o. IsFirstOf name.now list (option_map info_of o)) }
        ensures only { (list : List Entry) → ListsImageExports (trie_view self.now) (texts self.now.libs.items) list → IsOkUnlessMemory result }
        ensures refused { IfErr result (ErrorMeets (ImageExportsFault (trie_view self.now) (texts self.now.libs.items))) }
        ensures on_way { IfErr result (ErrorMeets (FaultOnWay (trie_there (trie_or_empty (trie_view self.now)) (texts self.now.libs.items))
            (trie_or_empty (trie_view self.now)).from name.now)) }
    {
        match &self.export_trie {
            Some(trie) => trie.find(alloc, self.libs.as_slice(), name),
            None => Ok(None),
        }
    }

    /// Returns the address of an export of the image, before sliding: base plus offset, and of an absolute symbol its number. A
    /// re-export has none. It goes over the segments: for many exports call `base` once, and `ExportInfo::address` for each.
    pub fn export_address(&self, info: &ExportInfo<'_>) -> Option<u64>
        ensures { result ≡ export_address (base_view self.now) (info_of info.now) }
    {
        info.address(self.base())
    }
}

/// What the list of an image's exports says of a name agrees with the paths of its trie. The first export of the name holds
/// by its path. If no path has the name, no export has it. What holds by a path is in the list.
pub fn export_by_list_and_paths()
    ensures first { (bytes : List ℕ) (o : ℕ) (list : List Entry) (name : List ℕ) (found : Option Info) → HasExports bytes o list → IsFirstOf name list found
        → HasExportOf bytes o name found }
    ensures missing { (bytes : List ℕ) (o : ℕ) (list : List Entry) (name : List ℕ) → HasExports bytes o list → HasExportOf bytes o name None
        → IsFirstOf name list None }
    ensures listed { (bytes : List ℕ) (o : ℕ) (list : List Entry) (name : List ℕ) (info : Info) → HasExports bytes o list → HasExportOf bytes o name (Some info)
        → IsListedAs name info list }
{}
