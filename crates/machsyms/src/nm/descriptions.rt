//! A symbol in words.

ghost use Rattle.std.specs.Prelude.{◌≡◌, Some};
ghost use Rattle.mach_base.specs.Items.{read_as};
ghost use Rattle.mach_cli.specs.NamesShown.{name_or_mark};
ghost use Rattle.machsyms.specs.SymbolWords as defined;
ghost use Rattle.machsyms.specs.SymbolWords.{alignment_text, kind_words, mark_words, origin_text, section_option_view, section_text, symbol_words};

use crate::nm::origin::{Origin, OriginText};
use mach_base::Result;
use mach_cli::NameText;
use mach_parts::segment::Section;
use mach_parts::symbols::{
    N_ABS, N_EXT, N_INDR, N_NO_DEAD_STRIP, N_PEXT, N_SECT, N_UNDF, N_WEAK_DEF, N_WEAK_REF, Nlist,
    REFERENCED_DYNAMICALLY,
};
use std::fmt;
use std::fmt::{Display, Formatter, Write};

// The kind of a file, and flags of symbols, for which the crates below have no names (`mach-o/loader.h`, `mach-o/nlist.h`).
const MH_OBJECT: u32 = 0x1;

const N_ARM_THUMB_DEF: u16 = 0x8;

const N_SYMBOL_RESOLVER: u16 = 0x100;

const N_ALT_ENTRY: u16 = 0x200;

const N_COLD_FUNC: u16 = 0x400;

/// The words for a symbol: what it is, its scope, its flags, its name, and the library that provides it.
#[derive(Clone, Copy)]
pub struct SymbolWords<'a> {
    /// Its record.
    pub symbol: &'a Nlist,
    /// Its section, if it can be read.
    pub section: Option<&'a Section>,
    /// The kind of its file.
    pub filetype: u32,
    /// Its name.
    pub name: &'a str,
    /// The library that provides it.
    pub origin: Origin<'a>,
    /// Whether names are printed as they are.
    pub is_raw: bool,
}

impl<'a> Display for SymbolWords<'a> {
    ghost output = { λ t. Some (symbol_words t.is_raw (section_option_view t.section) t.filetype t.name.now (origin_text t.is_raw t.origin) t.symbol.now) };

    fn fmt<W: Write>(&self, f: &mut Formatter<W>) -> fmt::Result {
        let SymbolWords {
            symbol,
            section,
            filetype,
            name,
            origin,
            is_raw,
        } = *self;
        let name = NameText { name, is_raw };
        let origin = OriginText { origin, is_raw };
        let kind = KindWords {
            section,
            symbol,
            is_raw,
        };
        let referenced = marked(is_referenced(symbol), "[referenced dynamically] ");
        let reach = reach_words(symbol);
        let marks = MarkWords { filetype, symbol };
        write!(f, "{kind}{referenced}{reach}{marks}{name}{origin}")
    }
}

// Returns words if something is so, and nothing otherwise.
fn marked(is_so: bool, words: &'static str) -> &'static str
    ensures { result.now ≡ defined.marked is_so words.now }
{
    if is_so { words } else { "" }
}

// Whether one of these bits of a type is set.
fn has_type_bits(mask: u8, n_type: u8) -> bool
    ensures { result ≡ defined.has_bits mask n_type }
{
    n_type & mask != 0
}

// Whether one of these bits of flags is set.
fn has_bits(mask: u16, desc: u16) -> bool
    ensures { result ≡ defined.has_bits mask desc }
{
    desc & mask != 0
}

// Returns the words for how an undefined symbol is bound.
fn undefined_words(desc: u16) -> &'static str
    ensures { result.now ≡ defined.undefined_words desc }
{
    match desc & 7 {
        1 => "(undefined [lazy bound]) ",
        4 => "(undefined [private]) ",
        5 => "(undefined [private lazy bound]) ",
        _ => "(undefined) ",
    }
}

// Returns how a common symbol is aligned: a power of 2, or 0 if that isn't given.
fn common_alignment(desc: u16) -> u16
    ensures { result ≡ defined.common_alignment desc }
{
    desc >> 8 & 15
}

// The alignment in words.
#[derive(Clone, Copy)]
struct AlignmentText(u16);

impl Display for AlignmentText {
    ghost output = { λ t. Some (alignment_text t.0) };

    fn fmt<W: Write>(&self, f: &mut Formatter<W>) -> fmt::Result {
        let power = self.0;
        if power == 0 {
            return Ok(());
        }
        write!(f, "(alignment 2^{power}) ")
    }
}

// Returns a name, or a mark if it can't be read.
fn readable(name: Result<&str>) -> &str
    ensures { result.now ≡ name_or_mark (read_as (λ text. text.now) name.entry) }
{
    match name {
        Ok(text) => text,
        Err(_) => "?",
    }
}

// The names of a section's segment and of the section.
#[derive(Clone, Copy)]
struct SectionText<'a> {
    section: Option<&'a Section>,
    is_raw: bool,
}

impl Display for SectionText<'_> {
    ghost output = { λ t. Some (section_text t.is_raw (section_option_view t.section)) };

    fn fmt<W: Write>(&self, f: &mut Formatter<W>) -> fmt::Result {
        let is_raw = self.is_raw;
        let Some(section) = self.section else {
            return write!(f, "?,?");
        };
        let segment = readable(section.segname());
        let segment = NameText {
            name: segment,
            is_raw,
        };
        let name = readable(section.name());
        let name = NameText { name, is_raw };
        write!(f, "{segment},{name}")
    }
}

// What a symbol is.
#[derive(Clone, Copy)]
struct KindWords<'a> {
    section: Option<&'a Section>,
    symbol: &'a Nlist,
    is_raw: bool,
}

impl Display for KindWords<'_> {
    ghost output = { λ t. Some (kind_words t.is_raw (section_option_view t.section) t.symbol.now) };

    fn fmt<W: Write>(&self, f: &mut Formatter<W>) -> fmt::Result {
        match self.symbol.get_type() {
            N_UNDF if self.symbol.n_value == 0 => {
                let words = undefined_words(self.symbol.n_desc);
                write!(f, "{words}")
            }
            N_UNDF => {
                let alignment = AlignmentText(common_alignment(self.symbol.n_desc));
                write!(f, "(common) {alignment}")
            }
            N_ABS => write!(f, "(absolute) "),
            N_INDR => write!(f, "(indirect) "),
            N_SECT => {
                let section = SectionText {
                    section: self.section,
                    is_raw: self.is_raw,
                };
                write!(f, "({section}) ")
            }
            _ => write!(f, "(?) "),
        }
    }
}

// Returns the words for a symbol's scope.
fn reach_words(symbol: &Nlist) -> &'static str
    ensures { result.now ≡ defined.reach_words symbol.now }
{
    if !has_type_bits(N_EXT, symbol.n_type) {
        local_words(symbol)
    } else if has_type_bits(N_PEXT, symbol.n_type) {
        private_words(symbol)
    } else {
        external_words(symbol)
    }
}

// Returns the words for a symbol that isn't external.
fn local_words(symbol: &Nlist) -> &'static str
    ensures { result.now ≡ defined.local_words symbol.now }
{
    if has_type_bits(N_PEXT, symbol.n_type) {
        "non-external (was a private external) "
    } else {
        "non-external "
    }
}

// Returns the words for a private external symbol, known to what is linked with its file.
fn private_words(symbol: &Nlist) -> &'static str
    ensures { result.now ≡ defined.private_words symbol.now }
{
    if has_bits(N_WEAK_DEF, symbol.n_desc) {
        "weak private external "
    } else {
        "private external "
    }
}

// Returns the words for an external symbol.
fn external_words(symbol: &Nlist) -> &'static str
    ensures { result.now ≡ defined.external_words symbol.now }
{
    let is_weak_reference = has_bits(N_WEAK_REF, symbol.n_desc);
    let is_weak_definition = has_bits(N_WEAK_DEF, symbol.n_desc);
    if is_weak_reference && is_weak_definition {
        "weak external automatically hidden "
    } else if is_weak_reference || is_weak_definition {
        "weak external "
    } else {
        "external "
    }
}

// Whether an external symbol may be looked up by name at run time.
fn is_referenced(symbol: &Nlist) -> bool
    ensures { result ≡ defined.is_referenced symbol.now }
{
    has_type_bits(N_EXT, symbol.n_type) && has_bits(REFERENCED_DYNAMICALLY, symbol.n_desc)
}

// Whether a symbol that an object file defines has one of these bits.
fn defined_mark(filetype: u32, symbol: &Nlist, mask: u16) -> bool
    ensures { result ≡ defined.defined_mark filetype symbol.now mask }
{
    filetype == MH_OBJECT && symbol.get_type() != N_UNDF && has_bits(mask, symbol.n_desc)
}

// The flags of a symbol.
#[derive(Clone, Copy)]
struct MarkWords<'a> {
    filetype: u32,
    symbol: &'a Nlist,
}

impl Display for MarkWords<'_> {
    ghost output = { λ t. Some (mark_words t.filetype t.symbol.now) };

    fn fmt<W: Write>(&self, f: &mut Formatter<W>) -> fmt::Result {
        let MarkWords { filetype, symbol } = *self;
        let is_kept = filetype == MH_OBJECT && has_bits(N_NO_DEAD_STRIP, symbol.n_desc);
        let kept = marked(is_kept, "[no dead strip] ");
        let resolves = defined_mark(filetype, symbol, N_SYMBOL_RESOLVER);
        let resolver = marked(resolves, "[symbol resolver] ");
        let entry = marked(defined_mark(filetype, symbol, N_ALT_ENTRY), "[alt entry] ");
        let cold = marked(defined_mark(filetype, symbol, N_COLD_FUNC), "[cold func] ");
        let thumb = marked(has_bits(N_ARM_THUMB_DEF, symbol.n_desc), "[Thumb] ");
        write!(f, "{kept}{resolver}{entry}{cold}{thumb}")
    }
}
