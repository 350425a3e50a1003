//! The title of a file or of a part of it.

ghost use Rattle.std.specs.Prelude.{◌≡◌, false, IfOk, IsOk, Some};
ghost use Rattle.mach_cli.specs.FileTitles.{name_title, title_text, title_words};
ghost use Rattle.mach_cli.specs.Labels.{label_view};

use crate::escaped::Escaped;
use crate::label::{Label, LabelCpu};
use crate::nm_heading::NmHeading;
use std::alloc::{AllocError, Global};
use std::fmt;
use std::fmt::{Display, Formatter, Write};

// The title of what has this name: an empty line, and a line with the name, and with the cpu of an entry.
#[derive(Clone, Copy)]
struct NameTitle<'f, 'a>(&'f str, Label<'a>);

impl Display for NameTitle<'_, '_> {
    ghost output = { λ t. Some (name_title t.0.now (label_view t.1)) };

    fn fmt<W: Write>(&self, f: &mut Formatter<W>) -> fmt::Result {
        let name = Escaped(self.0);
        let cpu = LabelCpu(self.1);
        write!(f, "\n{name}{cpu}:\n")
    }
}

// The title of a file or of a part of it.
#[derive(Clone, Copy)]
pub(crate) struct Title<'f, 'a> {
    // The name of the file.
    pub file: &'f str,
    // The name of the part, or of the file if it is the file itself.
    pub name: &'f str,
    // The label of the part.
    pub label: Label<'a>,
    // Whether the entries of a fat file have the headings of `llvm-nm`.
    pub is_nm: bool,
}

impl Display for Title<'_, '_> {
    ghost output = { λ t. Some (title_words t.is_nm t.file.now t.name.now (label_view t.label)) };

    fn fmt<W: Write>(&self, f: &mut Formatter<W>) -> fmt::Result {
        let (file, label) = (self.file, self.label);
        let plain = NameTitle(self.name, label);
        if !self.is_nm {
            return write!(f, "{plain}");
        }
        match label {
            Label::None => write!(f, "{plain}"),
            Label::Entry(_, _) | Label::Member(_, _, _) => {
                let heading = NmHeading { file, label };
                write!(f, "{heading}")
            }
        }
    }
}

// Returns a title, if it is selected.
pub(crate) fn title_of(
    alloc: Global,
    is_titled: bool,
    title: Title<'_, '_>,
) -> Result<Vec<u8>, AllocError>
    ensures title { let t = title.entry in
        IfOk result (λ bytes. bytes.items ≡ title_text is_titled t.is_nm t.file.now t.name.now (label_view t.label)) }
    ensures untitled { is_titled ≡ false → IsOk result }
{
    if !is_titled {
        return Ok(Vec::new(alloc));
    }
    let text = format!(in alloc; "{title}")?;
    Ok(text.into_bytes())
}
