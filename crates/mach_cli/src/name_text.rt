//! Names as they are printed.

ghost use Rattle.std.specs.Prelude.{◌≡◌, Some};
ghost use Rattle.mach_cli.specs.NamesShown.{file_if, file_text, name_shown};

use crate::escaped::Escaped;
use std::fmt;
use std::fmt::{Display, Formatter, Write};

/// A name as it is printed: escaped, or as it is if that is selected.
#[derive(Clone, Copy)]
pub struct NameText<'a> {
    /// The name.
    pub name: &'a str,
    /// It is printed as it is.
    pub is_raw: bool,
}

impl Display for NameText<'_> {
    ghost output = { λ t. Some (name_shown t.is_raw t.name.now) };

    fn fmt<W: Write>(&self, f: &mut Formatter<W>) -> fmt::Result {
        if self.is_raw {
            return f.write_str(self.name);
        }
        let name = Escaped(self.name);
        write!(f, "{name}")
    }
}

/// The name of the file before a line, if it is selected.
#[derive(Clone, Copy)]
pub struct FileText<'a> {
    /// The name of the file.
    pub file: Option<&'a str>,
    /// It is printed as it is.
    pub is_raw: bool,
}

impl<'a> Display for FileText<'a> {
    ghost output = { λ t. Some (file_text t.is_raw t.file) };

    fn fmt<W: Write>(&self, f: &mut Formatter<W>) -> fmt::Result {
        let is_raw = self.is_raw;
        match self.file {
            Some(name) => {
                let name = NameText { name, is_raw };
                write!(f, "{name}: ")
            }
            None => Ok(()),
        }
    }
}

// Returns a file, if it is selected.
pub(crate) fn file_if(is_selected: bool, file: &str) -> Option<&str>
    ensures { result ≡ file_if is_selected file.entry }
{
    if is_selected { Some(file) } else { None }
}
