//! Theorems: what the lists of an image that `gm_open` opened are, in terms of the bytes.

ghost use Rattle.std.specs.Prelude.{◌≡◌, ◌<◌, ◌≤◌, ◌^◌, ◌++◌, [], ℕ, List, Result, IsOk, length, map};
ghost use Rattle.mach_base.specs.Fault.{Fault};
ghost use Rattle.mach_parts.specs.declared.symbols.nlist.Nlist.{Nlist};
ghost use Rattle.mach_parts.specs.Segment.{SegmentView};
ghost use Rattle.mach_dyld.specs.Trie.{Entry};
ghost use Rattle.mach_dyld.specs.declared.trie.walk.Open.{Open};
ghost use Rattle.goblin_mach.specs.Facts.{HasCommands, HasExports, HasSegments, HasSymbols};
ghost use Rattle.goblin_mach.specs.Image.{LossyOpens};
ghost use Rattle.goblin_mach.specs.SlotFacts.{HasIndirectSymbols};
ghost use Rattle.goblin_mach.specs.TableFacts.{HasDataInCode};
ghost use Rattle.mach_records.specs.declared.linkedit.DataInCodeEntry.{DataInCodeEntry};
ghost use Rattle.mach_parts.specs.declared.indirect.IndirectSymbol.{IndirectSymbol};
ghost use Rattle.goblin_mach.specs.FatFile.{arch_at};
ghost use Rattle.goblin_mach_c.specs.CommandRows.{gm_commands_view};
ghost use Rattle.goblin_mach_c.specs.ExportWalk.{HasWalked};
ghost use Rattle.goblin_mach_c.specs.FatRows.{fat_row, whole_fat_records};
ghost use Rattle.goblin_mach_c.specs.Opened.{IsOpened};
ghost use Rattle.goblin_mach_c.specs.PartRows.{segment_row, segment_rows};
ghost use Rattle.goblin_mach_c.specs.Say.{AllSay};
ghost use Rattle.goblin_mach_c.specs.SymbolRows.{SaysSymbol, symbol_rows};
ghost use Rattle.goblin_mach_c.specs.TableRows.{data_in_code_row, data_in_code_rows, indirect_row, indirect_rows};
ghost use Rattle.goblin_mach_c.specs.declared.exports.gm_export_walk.{gm_export_walk};
ghost use Rattle.goblin_mach_c.specs.declared.images.gm_image.{gm_image};

/// The commands read by its numbers are the image's commands, and the segments among them are its segments. Its symbols are those
/// of the image's table, and each row is that of its symbol.
pub fn lists_of_opened()
    ensures commands { (bytes : List ℕ) (o : ℕ) (c : gm_image) → IsOpened bytes o c → HasCommands bytes o (gm_commands_view bytes c) }
    ensures segments { (bytes : List ℕ) (o : ℕ) (c : gm_image) → IsOpened bytes o c
        → (segments : List SegmentView) × HasSegments bytes o segments × (segment_rows bytes c ≡ map segment_row segments) }
    ensures symbols { (bytes : List ℕ) (o : ℕ) (c : gm_image) → IsOpened bytes o c
        → (symbols : List (Result (List ℕ × Nlist) Fault)) × HasSymbols bytes o symbols × AllSay (SaysSymbol c.names_at) symbols (symbol_rows bytes c) }
{}

/// The data in code read by its numbers are the image's, and so are the indirect symbols.
pub fn tables_of_opened()
    ensures data_in_code { (bytes : List ℕ) (o : ℕ) (c : gm_image) → IsOpened bytes o c
        → (items : List (Result DataInCodeEntry Fault)) × HasDataInCode bytes o items × (data_in_code_rows bytes c ≡ map data_in_code_row items) }
    ensures indirect { (bytes : List ℕ) (o : ℕ) (c : gm_image) → IsOpened bytes o c
        → (items : List (Result IndirectSymbol Fault)) × HasIndirectSymbols bytes o items × (indirect_rows bytes c ≡ map indirect_row items) }
{}

/// The record of a fat file's entry is read if it lies whole in the bytes; else its row has the code of a short read.
pub fn fat_codes()
    ensures whole { (bytes : List ℕ) (k : ℕ) → length bytes < 2 ^ 64 → k < whole_fat_records bytes → IsOk (arch_at bytes k) }
    ensures cut { (bytes : List ℕ) (k : ℕ) → length bytes < 2 ^ 64 → 8 ≤ length bytes → whole_fat_records bytes ≤ k
        → (fat_row (length bytes) (arch_at bytes k)).code ≡ 3 }
{}

/// A walk that is all zeros has returned no export of an image that opens.
pub fn walk_of_zeros()
    ensures { (bytes : List ℕ) (o : ℕ) (w : gm_export_walk) (name : List ℕ) (stack : List Open) → LossyOpens bytes o → w.is_begun ≡ 0 → w.code ≡ 0
        → HasWalked bytes o w name stack [] }
{}

/// If the exports of an image are a list, what a walk has returned is a prefix of it: none is left out, and none comes twice.
pub fn walks_begin_the_list()
    ensures { (bytes : List ℕ) (o : ℕ) (w : gm_export_walk) (name : List ℕ) (stack : List Open) (found : List Entry) (list : List Entry)
        → HasWalked bytes o w name stack found → HasExports bytes o list → (rest : List Entry) × (list ≡ found ++ rest) }
{}
