//! What an image has at an address, as a line.

ghost use Rattle.std.specs.Prelude.{◌≡◌, Some};
ghost use Rattle.mach_base.specs.Text.{text_at};
ghost use Rattle.mach_cli.specs.AddressLines.{at_text, function_text, held_text, holder_text, nearest_text};
ghost use Rattle.mach_cli.specs.NamesShown.{name_or_mark};

use crate::name_text::{FileText, NameText};
use goblin_mach::load_command::Section64;
use goblin_mach::{FoundAt, Function, read_text};
use std::fmt;
use std::fmt::{Display, Formatter, Write};

/// The line of an address, without its end: the address, the section that holds it, the symbol with the distance from it, and the
/// function.
#[derive(Clone, Copy)]
pub struct AtText<'t, 'a> {
    /// The name of the file before the line, if it is selected.
    pub file: Option<&'t str>,
    /// Names are printed as they are.
    pub is_raw: bool,
    /// The address.
    pub address: u64,
    /// What the image has there.
    pub found: &'t FoundAt<'a>,
}

impl Display for AtText<'_, '_> {
    ghost output = { λ t. Some (at_text t.is_raw t.file t.address t.found.now) };

    fn fmt<W: Write>(&self, f: &mut Formatter<W>) -> fmt::Result {
        let AtText {
            file,
            is_raw,
            address,
            found,
        } = *self;
        let file = FileText { file, is_raw };
        let held = HeldText { is_raw, found };
        write!(f, "{file}0x{address:x}  {held}")
    }
}

// What follows the address: all else.
#[derive(Clone, Copy)]
struct HeldText<'t, 'a> {
    is_raw: bool,
    found: &'t FoundAt<'a>,
}

impl Display for HeldText<'_, '_> {
    ghost output = { λ t. Some (held_text t.is_raw t.found.now) };

    fn fmt<W: Write>(&self, f: &mut Formatter<W>) -> fmt::Result {
        let HeldText { is_raw, found } = *self;
        let Some(holder) = &found.section else {
            return f.write_str("no section");
        };
        let section = &holder.section;
        let holder = HolderText { is_raw, section };
        let nearest = NearestText { is_raw, found };
        let function = FunctionText(found.function);
        write!(f, "{holder}  {nearest}{function}")
    }
}

// The names of a section's segment and of the section.
#[derive(Clone, Copy)]
struct HolderText<'t> {
    is_raw: bool,
    section: &'t Section64,
}

impl Display for HolderText<'_> {
    ghost output = { λ t. Some (holder_text t.is_raw t.section.now) };

    fn fmt<W: Write>(&self, f: &mut Formatter<W>) -> fmt::Result {
        let HolderText { is_raw, section } = *self;
        let name = name_or_mark(&section.segname);
        let segment = NameText { name, is_raw };
        let name = name_or_mark(&section.sectname);
        let section = NameText { name, is_raw };
        write!(f, "{segment},{section}")
    }
}

// Returns the name with which bytes begin, or a mark if it can't be read.
fn name_or_mark(bytes: &[u8]) -> &str
    ensures { result.now ≡ name_or_mark (text_at bytes.now 0) }
{
    match read_text(bytes, 0) {
        Ok(name) => name,
        Err(_) => "?",
    }
}

// The symbol, and how far the address is above it.
#[derive(Clone, Copy)]
struct NearestText<'t, 'a> {
    is_raw: bool,
    found: &'t FoundAt<'a>,
}

impl Display for NearestText<'_, '_> {
    ghost output = { λ t. Some (nearest_text t.is_raw t.found.now.symbol) };

    fn fmt<W: Write>(&self, f: &mut Formatter<W>) -> fmt::Result {
        let is_raw = self.is_raw;
        match &self.found.symbol {
            Some(symbol) => {
                let (name, distance) = (symbol.name, symbol.distance);
                let name = NameText { name, is_raw };
                write!(f, "{name}+0x{distance:x}")
            }
            None => f.write_str("no symbol"),
        }
    }
}

// The addresses of a function, if there is one.
#[derive(Clone, Copy)]
struct FunctionText(Option<Function>);

impl Display for FunctionText {
    ghost output = { λ t. Some (function_text t.0) };

    fn fmt<W: Write>(&self, f: &mut Formatter<W>) -> fmt::Result {
        match self.0 {
            Some(Function { start, end }) => write!(f, "  function 0x{start:x}..0x{end:x}"),
            None => Ok(()),
        }
    }
}
