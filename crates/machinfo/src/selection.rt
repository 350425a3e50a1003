//! What the arguments of a call select, and the files among them.

ghost use Rattle.std.specs.Prelude.{◌≡◌, drop, option_map, IfErr};
ghost use Rattle.std.specs.List.{list_all};
ghost use Rattle.std.specs.Result.{result_ok};
ghost use Rattle.mach_dyld.specs.Exports.{text_in};
ghost use Rattle.machinfo.specs.Words as words;

use crate::section_bytes::{SectionName, padded};
use crate::word::{Choice, Word};
use mach_cli::{Misuse, address_in};

/// What a call selects, and the files that its arguments name.
#[derive(Clone, Copy)]
pub struct Selection<'a, 'b> {
    /// What it shows of an image in place of its summary.
    pub choice: Option<Choice>,
    /// The files.
    pub files: &'a [&'b str],
}

/// Returns what a call selects: what images have at the address of `--at`, if that is given, or else what its arguments select.
pub fn selection_of<'a, 'b>(
    address: Option<u64>,
    arguments: &'a [&'b str],
) -> Result<Selection<'a, 'b>, Misuse<'b>>
    ensures selected { option_map words.selection_view (result_ok result) ≡ words.selected address arguments.now }
    ensures misuse { IfErr result (words.IsNoSelection (drop 1 arguments.now)) }
{
    match (address, arguments) {
        (Some(address), _) => Ok(Selection {
            choice: Some(Choice::At(address)),
            files: arguments,
        }),
        (None, [first, others @ ..]) if is_at(first) => selection_at(others),
        (None, [first, others @ ..]) if is_bytes(first) => selection_of_bytes(others),
        _ => Ok(Selection {
            choice: selected_by(arguments),
            files: files_named(arguments),
        }),
    }
}

// Whether an argument is `at`.
fn is_at(argument: &str) -> bool
    ensures { result ≡ words.is_word_at argument.now }
{
    argument == "at"
}

// Returns what the arguments after `at` select: what images have at the address, which is the first of them.
fn selection_at<'a, 'b>(arguments: &'a [&'b str]) -> Result<Selection<'a, 'b>, Misuse<'b>>
    ensures selected { option_map words.selection_view (result_ok result) ≡ words.selected_after_at arguments.now }
    ensures misuse { IfErr result (words.IsNoAddress arguments.now) }
{
    let [word, files @ ..] = arguments else {
        return Err(Misuse::Missing("ADDRESS after at"));
    };
    match address_in(word) {
        Some(address) => Ok(Selection {
            choice: Some(Choice::At(address)),
            files,
        }),
        None => Err(Misuse::NoAddress(word)),
    }
}

// Whether an argument is `bytes`.
fn is_bytes(argument: &str) -> bool
    ensures { result ≡ words.is_word_bytes argument.now }
{
    argument == "bytes"
}

// Returns what the arguments after `bytes` select: the section that the first two name.
fn selection_of_bytes<'a, 'b>(arguments: &'a [&'b str]) -> Result<Selection<'a, 'b>, Misuse<'b>>
    ensures selected { option_map words.selection_view (result_ok result) ≡ words.selected_after_bytes arguments.now }
    ensures misuse { IfErr result (words.IsNoSection arguments.now) }
{
    let [segment, section, files @ ..] = arguments else {
        return Err(Misuse::Missing("SEGMENT SECTION after bytes"));
    };
    let Some(of_segment) = padded(segment) else {
        return Err(Misuse::NoName(segment));
    };
    let Some(of_section) = padded(section) else {
        return Err(Misuse::NoName(section));
    };
    let name = SectionName {
        segment: of_segment,
        section: of_section,
    };
    Ok(Selection {
        choice: Some(Choice::Word(Word::Bytes(name))),
        files,
    })
}

// Returns the list that the first argument selects, if it does.
fn selected_by(arguments: &[&str]) -> Option<Choice>
    ensures { result ≡ words.choice_selected arguments.now }
{
    let first = arguments.first()?;
    Choice::named(first)
}

// Returns the arguments that are files: all but a first one that selects a list.
fn files_named<'a, 'b>(arguments: &'a [&'b str]) -> &'a [&'b str]
    ensures { result.now ≡ words.files_named arguments.now }
{
    match arguments {
        [_, files @ ..] if selected_by(arguments).is_some() => files,
        _ => arguments,
    }
}

/// Returns what prints the list with this name, if another program does.
pub fn prints_elsewhere(word: &str) -> Option<&'static str>
    ensures { text_in result ≡ words.prints_among words.lists_elsewhere word.now }
{
    match word {
        "symbols" => Some("machsyms prints symbols"),
        "fixups" => Some("machfixups prints fixups"),
        "binds" => Some("machfixups --binds prints binds"),
        "chains" => Some("machfixups --chains prints chains"),
        "signature" => Some("machsign prints the signature"),
        "entitlements" => Some("machsign --entitlements prints entitlements"),
        "requirements" => Some("machsign prints requirements"),
        "faults" => Some("machaudit prints faults"),
        "entries" => Some("machfat list prints entries"),
        "members" => Some("machfat members prints members"),
        _ => None,
    }
}

/// Whether all bytes of a text are small letters.
pub fn has_small_letters(text: &[u8]) -> bool
    ensures { result ≡ list_all words.is_small_letter text.now }
{
    let mut all = true;
    for byte in text {
        all &= *byte >= b'a' && *byte <= b'z';
    }
    all
}
