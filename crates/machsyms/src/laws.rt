//! What holds of every line.

ghost use Rattle.std.specs.Prelude.{◌≡◌, ◌++◌, codes, Bool, false, ℕ, List};
ghost use Rattle.mach_cli.specs.Escapes.{IsOneLine};
ghost use Rattle.mach_parts.specs.declared.symbols.nlist.Nlist.{Nlist};
ghost use Rattle.goblin_mach.specs.ImageFacts.{Facts};
ghost use Rattle.machsyms.specs.Lines.{line_text};
ghost use Rattle.machsyms.specs.Setting.{setting_of};
ghost use Rattle.machsyms.specs.declared.selection.Request.{Request};

/// The line of a symbol is one line, whatever names the file has, unless names are printed as they are.
pub fn a_symbol_is_one_line()
    ensures { (a : Request) (is_64 : Bool) (f : Facts) (name : List ℕ) (s : Nlist) → a.is_raw ≡ false
        → IsOneLine (line_text a (setting_of is_64 f) (name, s) ++ codes "\n") }
{}
