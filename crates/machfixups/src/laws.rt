//! What holds of every line.

ghost use Rattle.std.specs.Prelude.{◌++◌, codes};
ghost use Rattle.mach_cli.specs.Escapes.{IsOneLine};
ghost use Rattle.machfixups.specs.RowFields.{heading_line, pointer_line};
ghost use Rattle.machfixups.specs.Rows.{PointerRow};

/// The heading is one line.
pub fn a_heading_is_one_line()
    ensures { IsOneLine heading_line }
{}

/// The line of a row is one line, whatever names the file has.
pub fn a_row_is_one_line()
    ensures { (row : PointerRow) → IsOneLine (pointer_line row ++ codes "\n") }
{}
