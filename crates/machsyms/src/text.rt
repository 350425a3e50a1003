//! A symbol as it is printed.

ghost use Rattle.std.specs.Prelude.{◌≡◌, Some};
ghost use Rattle.machsyms.specs.Lines.{form_text, letter_text, value_text, value_shown, kind_text, stab_text};
ghost use Rattle.machsyms.specs.Setting.{setting_view};
ghost use Rattle.mach_cli.specs.NamesShown.{name_shown};

use crate::letters::symbol_letter;
use crate::selection::{Form, Request, is_elsewhere};
use crate::setting::Setting;
use crate::stabs::stab_name;
use goblin_mach::symbols::Nlist;
use mach_cli::{FileText, NameText};
use std::alloc::Allocator;
use std::fmt;
use std::fmt::{Display, Formatter, Write};

/// A symbol as it is printed, in the selected form.
#[derive(Drop)]
pub struct SymbolText<'c, 's, 'b, 'a, A: Allocator> {
    pub request: Request<'s>,
    pub setting: &'c Setting<'b, 'a, A>,
    pub name: &'a str,
    pub symbol: Nlist,
}

impl<A: Allocator> Display for SymbolText<'_, '_, '_, '_, A> {
    ghost use Rattle.machsyms.specs.Lines.{line_text};

    ghost output = { λ t. Some (line_text t.request (setting_view t.setting.now) (t.name.now, t.symbol)) };

    fn fmt<W: Write>(&self, f: &mut Formatter<W>) -> fmt::Result {
        let Request { file, is_raw, .. } = self.request;
        let file = FileText { file, is_raw };
        let form = FormText(self);
        write!(f, "{file}{form}")
    }
}

// The same without the name of the file.
#[derive(Drop)]
struct FormText<'t, 'c, 's, 'b, 'a, A: Allocator>(&'t SymbolText<'c, 's, 'b, 'a, A>);

impl<A: Allocator> Display for FormText<'_, '_, '_, '_, '_, A> {
    ghost output = { λ t. Some (form_text t.0.now.request.form t.0.now.request.is_raw (setting_view t.0.now.setting.now) t.0.now.name.now t.0.now.symbol) };

    fn fmt<W: Write>(&self, f: &mut Formatter<W>) -> fmt::Result {
        let SymbolText {
            request: Request { form, is_raw, .. },
            setting,
            name: plain,
            symbol,
        } = self.0;
        let (form, is_raw) = (*form, *is_raw);
        let is_64 = setting.image.is_64;
        let letters = setting.letters;
        let name = NameText {
            name: plain,
            is_raw,
        };
        match form {
            Form::Names => write!(f, "{name}"),
            Form::Hexadecimal => {
                let value = ValueText {
                    is_64,
                    value: Some(symbol.n_value),
                };
                let fields = FieldsText(symbol);
                write!(f, "{value} {fields} {name}")
            }
            Form::Letters => {
                let text = LetterText {
                    is_64,
                    letters,
                    name,
                    symbol,
                };
                write!(f, "{text}")
            }
            Form::Words if symbol.is_stab() => {
                let text = LetterText {
                    is_64,
                    letters,
                    name,
                    symbol,
                };
                write!(f, "{text}")
            }
            Form::Words => {
                let value = ValueText {
                    is_64,
                    value: value_shown(symbol),
                };
                let words = setting.words(is_raw, plain, symbol);
                write!(f, "{value} {words}")
            }
        }
    }
}

// A symbol with a letter.
#[derive(Clone, Copy)]
struct LetterText<'a> {
    is_64: bool,
    letters: &'a [char],
    name: NameText<'a>,
    symbol: &'a Nlist,
}

impl<'a> Display for LetterText<'a> {
    ghost output = { λ t. Some (letter_text t.is_64 t.letters.now (name_shown t.name.is_raw t.name.name.now) t.symbol.now) };

    fn fmt<W: Write>(&self, f: &mut Formatter<W>) -> fmt::Result {
        let LetterText {
            is_64,
            letters,
            name,
            symbol,
        } = *self;
        let value = ValueText {
            is_64,
            value: value_shown(symbol),
        };
        let kind = KindText {
            sections: letters,
            symbol,
        };
        write!(f, "{value} {kind} {name}")
    }
}

// The other fields of a symbol's record.
#[derive(Clone, Copy)]
struct FieldsText<'a>(&'a Nlist);

impl<'a> Display for FieldsText<'a> {
    ghost use Rattle.machsyms.specs.Lines.{fields_text};

    ghost output = { λ t. Some (fields_text t.0.now) };

    fn fmt<W: Write>(&self, f: &mut Formatter<W>) -> fmt::Result {
        let Nlist {
            n_strx,
            n_type,
            n_sect,
            n_desc,
            ..
        } = *self.0;
        write!(f, "{n_type:02x} {n_sect:02x} {n_desc:04x} {n_strx:08x}")
    }
}

// Returns the value that is printed of a symbol; none if another image defines it.
fn value_shown(symbol: &Nlist) -> Option<u64>
    ensures { result ≡ value_shown symbol.now }
{
    if is_elsewhere(symbol) {
        None
    } else {
        Some(symbol.n_value)
    }
}

// A value in the width of an image, or as many blanks.
#[derive(Clone, Copy)]
struct ValueText {
    is_64: bool,
    value: Option<u64>,
}

impl Display for ValueText {
    ghost output = { λ t. Some (value_text t.is_64 t.value) };

    fn fmt<W: Write>(&self, f: &mut Formatter<W>) -> fmt::Result {
        match (self.value, self.is_64) {
            (Some(value), true) => write!(f, "{value:016x}"),
            (Some(value), false) => write!(f, "{value:08x}"),
            (None, true) => write!(f, "                "),
            (None, false) => write!(f, "        "),
        }
    }
}

// What a symbol is: its letter, or the fields of a debugging entry.
#[derive(Clone, Copy)]
struct KindText<'a> {
    sections: &'a [char],
    symbol: &'a Nlist,
}

impl<'a> Display for KindText<'a> {
    ghost output = { λ t. Some (kind_text t.sections.now t.symbol.now) };

    fn fmt<W: Write>(&self, f: &mut Formatter<W>) -> fmt::Result {
        let symbol = self.symbol;
        if symbol.is_stab() {
            let section = symbol.n_sect;
            let flags = symbol.n_desc;
            let stab = StabText {
                n_type: symbol.n_type,
            };
            write!(f, "- {section:02x} {flags:04x} {stab}")
        } else {
            let letter = symbol_letter(symbol, self.sections);
            write!(f, "{letter}")
        }
    }
}

// The name of a type of debugging entry, or its number.
#[derive(Clone, Copy)]
struct StabText {
    n_type: u8,
}

impl Display for StabText {
    ghost use Rattle.machsyms.specs.Stabs.{stab_name};

    ghost output = { λ t. Some (stab_text t.n_type (stab_name t.n_type)) };

    fn fmt<W: Write>(&self, f: &mut Formatter<W>) -> fmt::Result {
        let n_type = self.n_type;
        match stab_name(n_type) {
            Some(name) => write!(f, "{name:>5}"),
            None => write!(f, "   {n_type:02x}"),
        }
    }
}
