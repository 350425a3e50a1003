//! What holds of every line.

ghost use Rattle.std.specs.Prelude.{◌++◌, codes};
ghost use Rattle.mach_cli.specs.Escapes.{IsOneLine};
ghost use Rattle.mach_resolve.specs.Answers.{Answer};
ghost use Rattle.machresolve.specs.Lines.{answer_text};

/// The line of an answer is one line, whatever names the files have.
pub fn an_answer_is_one_line()
    ensures { (a : Answer) → IsOneLine (answer_text a ++ codes "\n") }
{}
