//! A name that a code directory may have.

ghost use Rattle.std.specs.Prelude.{◌≡◌, OnOk};
ghost use Rattle.std.specs.Option.{option_map};
ghost use Rattle.std.specs.Io.KnownBytes.{Appends};
ghost use Rattle.mach_base.specs.Items.{read_as};
ghost use Rattle.mach_cli.specs.SignatureNames.{name_text};

use crate::escaped::print_escaped;
use std::io;
use std::io::Write;

/// Prints a name on one line, if there is one.
pub fn print_name<O: Write>(name: mach_base::Result<Option<&str>>, out: &mut O) -> io::Result<()>
    ensures { OnOk result (Appends (O.contents out.old) (O.contents out.new) (name_text (read_as (option_map (λ text. text.now)) name.entry))) }
{
    match name {
        Ok(Some(name)) => print_escaped(name, out),
        Ok(None) => write!(out, "-"),
        Err(_) => write!(out, "unreadable"),
    }
}
