//! The export of a name.

ghost use Rattle.std.specs.Prelude.{◌⊎◌, ℕ, List, IfSome, IfNone};
ghost use Rattle.mach_dyld.specs.Exports.{entry_of, entries};
ghost use Rattle.mach_dyld.specs.Trie.{Entry};
ghost use Rattle.goblin_mach.specs.Facts.{IsExportedAt, IsNotExported, IsFirstExport};

use mach_dyld::exports::Export;
use std::alloc::Allocator;

/// Finds the first export of a name. Returns None if there is none.
pub fn find_export<'b, 'a, A: Allocator>(
    exports: &'b [Export<'a, A>],
    name: &str,
) -> Option<&'b Export<'a, A>>
    ensures found { IfSome result (λ x. (i : ℕ) × IsFirstExport name.now (entries exports.now) i (entry_of x.now)) }
    ensures none { IfNone result (IsNotExported name.now (entries exports.now)) }
{
    for export in exports {
        if export.name.as_str() == name {
            return Some(export);
        }
    }
    None
}

/// For each name, a list either has a first export or none. The first one is in the list, with the offset that it has there.
pub fn exported_or_not()
    ensures either { (name : List ℕ) (list : List Entry) → ((i : ℕ) × (e : Entry) × IsFirstExport name list i e) ⊎ IsNotExported name list }
    ensures first { (name : List ℕ) (list : List Entry) (i : ℕ) (e : Entry) → IsFirstExport name list i e → IsExportedAt name e.offset list }
    ensures not_both { (name : List ℕ) (address : ℕ) (list : List Entry) → IsExportedAt name address list → IsNotExported name list → ⊥ }
{}
