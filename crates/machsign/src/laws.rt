//! What holds of the lines of a signature, whatever the names of its directories are.

ghost use Rattle.std.specs.Prelude.{◌≡◌, ◌++◌, ℕ, List, Option, Result, codes, true};
ghost use Rattle.mach_base.specs.Fault.{Fault};
ghost use Rattle.mach_cli.specs.Escapes.{has_no_feed, IsOneLine};
ghost use Rattle.machsign.specs.Blobs.{blob_reported};
ghost use Rattle.mach_signature.specs.Special.{SlotView};
ghost use Rattle.mach_signature.specs.declared.fault.SpecialFault.{SpecialFault};
ghost use Rattle.mach_signature.specs.declared.kind.Cms.{Cms};
ghost use Rattle.mach_signature.specs.declared.kind.Kind.{Kind};
ghost use Rattle.machsign.specs.Blocks.{checked_text, name_line, slots_words};
ghost use Rattle.machsign.specs.Kinds.{kind_line, unchecked_line};
ghost use Rattle.machsign.specs.Special.{slot_reported};
ghost use Rattle.machsign.specs.declared.blobs.OtherBlob.{OtherBlob};
ghost use Rattle.machsign.specs.declared.form.Form.TheVariants.{Lines};

/// The texts of a kind, of a name, of a special slot, of what was checked or not, and of a blob are one line each.
pub fn lines_are_one_each()
    ensures kinds { (k : Kind) → IsOneLine (kind_line k) }
    ensures names { (label : List ℕ) (name : Result (Option (List ℕ)) Fault) → has_no_feed label ≡ true → IsOneLine (name_line label name) }
    ensures slots { (s : SlotView) → IsOneLine (slot_reported Lines s ++ codes "\n") }
    ensures checked { (sound pages : ℕ) (faults : List SpecialFault) → IsOneLine (checked_text sound pages (slots_words faults)) }
    ensures unchecked { (cms : Cms) → IsOneLine (unchecked_line cms) }
    ensures blobs { (b : OtherBlob) → IsOneLine (blob_reported Lines b ++ codes "\n") }
{}
