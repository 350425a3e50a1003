//! What holds for the printed text of every name.

ghost use Rattle.std.specs.Prelude.{◌≡◌, ℕ, List, All, drop, true};
ghost use Rattle.mach_cli.specs.Escapes.{escaped_bytes, escaped_text, has_no_feed, hidden_len, unescaped, AreBytes, IsPrinted};

/// Reading the escapes of a printed name gives the name again. So the text of a name determines the name.
pub fn a_name_is_read_again()
    ensures text { (name : List ℕ) → AreBytes name → unescaped (escaped_text name) ≡ name }
    ensures bytes { (name : List ℕ) → AreBytes name → unescaped (escaped_bytes name) ≡ name }
{}

/// The text of a name has no ASCII control character, and so no line feed.
pub fn a_name_ends_no_line()
    ensures text { (name : List ℕ) → All IsPrinted (escaped_text name) }
    ensures bytes { (name : List ℕ) → All IsPrinted (escaped_bytes name) }
    ensures line { (name : List ℕ) → has_no_feed (escaped_text name) ≡ true }
    ensures line_of_bytes { (name : List ℕ) → has_no_feed (escaped_bytes name) ≡ true }
{}

/// No hidden character begins anywhere in the text of a name.
pub fn a_name_shows_all()
    ensures { (name : List ℕ) (i : ℕ) → hidden_len (drop i (escaped_text name)) ≡ 0 }
{}
