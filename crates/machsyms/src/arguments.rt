//! The options of a call that select symbols, as those of `nm`.

ghost use Rattle.std.specs.Prelude.{◌≡◌};
ghost use Rattle.machsyms.specs.LetterWords as defined;

use crate::selection::{Form, Request, SortedBy, Sorting};
use mach_cli::OwnOptions;

/// What a call's own options say.
#[derive(Clone, Copy, Drop)]
pub struct SymbolOptions {
    /// What letters say.
    pub letters: Letters,
    /// Names are printed as they are, not escaped.
    pub is_raw: bool,
}

/// What the letters of a call's options say.
#[derive(Clone, Copy)]
pub struct Letters {
    request: Request<'static>,
    sorting: Sorting,
    is_plain: bool,
    is_hexadecimal: bool,
    /// Each line has the name of its file before it.
    pub has_file: bool,
}

impl Letters {
    // No letters: they select all but debugging entries, by name.
    const NONE: Letters = Letters {
        request: Request {
            has_stabs: false,
            is_external: false,
            is_undefined: false,
            is_defined: false,
            sorting: None,
            form: Form::Letters,
            file: None,
            is_raw: false,
        },
        sorting: Sorting {
            by: SortedBy::Name,
            is_reversed: false,
        },
        is_plain: false,
        is_hexadecimal: false,
        has_file: false,
    };

    // Takes a letter, and returns whether it is known.
    fn take(&mut self, letter: u8) -> bool
        ensures { (self.new, result) ≡ defined.letter_taken self.old letter }
    {
        match letter {
            b'a' => self.request.has_stabs = true,
            b'g' => self.request.is_external = true,
            b'u' => self.request.is_undefined = true,
            b'U' => self.request.is_defined = true,
            b'n' => self.sorting.by = SortedBy::Address,
            b'r' => self.sorting.is_reversed = true,
            b'p' => self.is_plain = true,
            b'j' => self.request.form = Form::Names,
            b'm' => self.request.form = Form::Words,
            b'x' => self.is_hexadecimal = true,
            b'A' | b'o' => self.has_file = true,
            _ => return false,
        }
        true
    }

    // Returns these with some letters, if all are known.
    fn with(self, letters: &[u8]) -> Option<Letters>
        ensures { result ≡ defined.letters_taken self letters.now }
    {
        let mut taken = self;
        'letters: for letter in letters {
            if !taken.take(*letter) {
                return None;
            }
        }
        Some(taken)
    }

    /// Returns what these letters select of a file.
    pub fn selected_of<'a>(self, is_raw: bool, file: &'a str) -> Request<'a>
        ensures { result ≡ defined.selected_of self is_raw file.entry }
    {
        let request = self.request;
        Request {
            sorting: if self.is_plain {
                None
            } else {
                Some(self.sorting)
            },
            form: match request.form {
                Form::Letters if request.is_undefined => Form::Names,
                Form::Letters | Form::Words if self.is_hexadecimal => Form::Hexadecimal,
                form => form,
            },
            file: if self.has_file { Some(file) } else { None },
            is_raw,
            ..request
        }
    }
}

// Returns the letters that an option says: the one of a long name, or those after the dash.
fn letters_in(option: &str) -> &str
    ensures { result.now ≡ defined.letters_in defined.long_names option.now }
{
    match option {
        "--debug-syms" => "a",
        "--extern-only" => "g",
        "--undefined-only" => "u",
        "--defined-only" => "U",
        "--numeric-sort" => "n",
        "--reverse-sort" => "r",
        "--no-sort" => "p",
        "--format=just-symbols" => "j",
        "--format=darwin" => "m",
        "--print-file-name" => "A",
        _ => after_dash(option),
    }
}

// Returns what follows the dash at the start of an option; nothing if there is none.
fn after_dash(option: &str) -> &str
    ensures { result.now ≡ defined.after_dash option.now }
{
    match option.strip_prefix('-') {
        Some(letters) => letters,
        None => "",
    }
}

impl SymbolOptions {
    /// Returns none of these options.
    pub fn none() -> SymbolOptions
        ensures { result ≡ defined.no_options }
    {
        SymbolOptions {
            letters: Letters::NONE,
            is_raw: false,
        }
    }
}

impl OwnOptions for SymbolOptions {
    ghost use Rattle.machsyms.specs.LetterWords.{option_taken};

    ghost taken = { option_taken };

    fn take(&mut self, argument: &str) -> bool {
        if argument == "--raw" {
            self.is_raw = true;
            return true;
        }
        let letters = letters_in(argument);
        if letters.is_empty() {
            return false;
        }
        match self.letters.with(letters.as_bytes()) {
            Some(all) => self.letters = all,
            None => return false,
        }
        true
    }
}
