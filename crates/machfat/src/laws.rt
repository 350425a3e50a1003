//! Laws.

ghost use Rattle.std.specs.Prelude.{◌≡◌, ℕ, List, true};
ghost use Rattle.mach_base.specs.declared.error.Error.{Error};
ghost use Rattle.mach_cli.specs.Escapes.{has_no_feed, IsOneLine};
ghost use Rattle.mach_fat_writer.specs.declared.entry_record.EntryRecord.{EntryRecord};
ghost use Rattle.machfat.specs.Lines.{image_line, record_line};
ghost use Rattle.machfat.specs.MemberLines.{member_line, member_reason, MemberReported};
ghost use Rattle.machfat.specs.SymbolLines.{symbol_line, symbol_reason, SymbolReported};

/// The line of a record, of an image, of a member and of a symbol is one line, whatever the names are, if the words of its error
/// are one line.
pub fn an_item_is_one_line()
    ensures records { (bytes : List ℕ) → (i : ℕ) → (r : EntryRecord) → IsOneLine (record_line bytes i r) }
    ensures images { (file : List ℕ) → (cputype : ℕ) → (cpusubtype : ℕ) → IsOneLine (image_line file cputype cpusubtype) }
    ensures members { (reported : MemberReported Error) → has_no_feed (member_reason reported) ≡ true → IsOneLine (member_line reported) }
    ensures symbols { (reported : SymbolReported Error) → has_no_feed (symbol_reason reported) ≡ true → IsOneLine (symbol_line reported) }
{}
