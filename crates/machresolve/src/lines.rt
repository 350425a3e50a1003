//! Answers and notes as they are printed.

ghost use Rattle.std.specs.Prelude.{◌≡◌, Some};
ghost use Rattle.mach_parts.specs.Bindings.{provider_view};
ghost use Rattle.machresolve.specs.Lines.{provider_text, provider_is_library, provider_is_file, other_text, subject_text, place_text, front_text, answer_text};
ghost use Rattle.machresolve.specs.Lines.{nothing_words, nothing_text, note_text};
ghost use Rattle.mach_resolve.specs.Opened.{given_view};
ghost use Rattle.machresolve.specs.CallViews.{call_view_of};
ghost use Rattle.mach_resolve.specs.ResolveViews.{place_view_of, answer_view, note_view_of};

use crate::call::Call;
use goblin_mach::Provider;
use mach_cli::{Cpu, Escaped, word_if};
use mach_resolve::{Answer, Given, NamePlace, Note};
use std::fmt;
use std::fmt::{Display, Formatter, Write};

// The provider of a name.
#[derive(Clone, Copy)]
struct ProviderText<'a>(Provider<'a>);

impl<'a> Display for ProviderText<'a> {
    ghost output = { λ t. Some (provider_text (provider_view t.0)) };

    fn fmt<W: Write>(&self, f: &mut Formatter<W>) -> fmt::Result {
        match self.0 {
            Provider::Library { name, .. } => {
                let name = Escaped(name);
                write!(f, "{name}")
            }
            Provider::Itself => write!(f, "this-image"),
            Provider::MainExecutable => write!(f, "main-executable"),
            Provider::Flat => write!(f, "flat-namespace"),
            Provider::WeakLookup => write!(f, "weak-lookup"),
        }
    }
}

// Whether a provider is the library with this name.
fn provider_is_library(provider: Provider<'_>, library: &str) -> bool
    ensures { result ≡ provider_is_library (provider_view provider.entry) library.now }
{
    match provider {
        Provider::Library { name, .. } => name == library,
        _ => false,
    }
}

// Whether a provider is the file with this number and this name: that library, or the program, which is file 0.
fn provider_is_file(provider: Provider<'_>, number: usize, file: &str) -> bool
    ensures { result ≡ provider_is_file (provider_view provider.entry) number file.now }
{
    match provider {
        Provider::Library { name, .. } => name == file,
        Provider::Itself => number == 0,
        _ => false,
    }
}

// Some words and a library, unless it is the provider, which the line has named.
#[derive(Clone, Copy)]
struct OtherText<'a>(bool, &'static str, &'a str);

impl Display for OtherText<'_> {
    ghost output = { λ t. Some (other_text t.0 t.1.now t.2.now) };

    fn fmt<W: Write>(&self, f: &mut Formatter<W>) -> fmt::Result {
        if self.0 {
            return Ok(());
        }
        let (words, library) = (self.1, Escaped(self.2));
        write!(f, "{words}{library}")
    }
}

// The library that a sentence is about: `it`, if it is the provider.
#[derive(Clone, Copy)]
struct SubjectText<'a>(bool, &'a str);

impl Display for SubjectText<'_> {
    ghost output = { λ t. Some (subject_text t.0 t.1.now) };

    fn fmt<W: Write>(&self, f: &mut Formatter<W>) -> fmt::Result {
        if self.0 {
            return write!(f, "it");
        }
        let library = Escaped(self.1);
        write!(f, "{library}")
    }
}

// The place of a name, or why it has none, after its provider.
#[derive(Clone, Copy)]
struct PlaceText<'a>(Provider<'a>, NamePlace<'a>);

impl<'a> Display for PlaceText<'a> {
    ghost output = { λ t. Some (place_text (provider_view t.0) (place_view_of t.1)) };

    fn fmt<W: Write>(&self, f: &mut Formatter<W>) -> fmt::Result {
        let provider = self.0;
        match self.1 {
            NamePlace::Found {
                number,
                file,
                address,
                is_absolute,
            } => {
                let absolute = word_if(is_absolute, "absolute ", "");
                let other = OtherText(provider_is_file(provider, number, file), " in ", file);
                write!(f, "{absolute}0x{address:x}{other}")
            }
            NamePlace::LeadsBack { library } => {
                let other = OtherText(provider_is_library(provider, library), " to ", library);
                write!(f, "leads back{other}")
            }
            NamePlace::NoLibrary { library } => {
                let other = OtherText(provider_is_library(provider, library), " ", library);
                write!(f, "no library{other}")
            }
            NamePlace::Missing { library } => {
                let other = OtherText(provider_is_library(provider, library), " in ", library);
                write!(f, "missing{other}")
            }
            NamePlace::NotGiven {
                library,
                reexported,
            } => {
                let subject = SubjectText(provider_is_library(provider, library), library);
                let reexported = Escaped(reexported);
                write!(
                    f,
                    "not found; {subject} re-exports {reexported}, which is not given"
                )
            }
            NamePlace::NotFound => write!(f, "not found"),
            NamePlace::NoMain => write!(f, "no main executable"),
        }
    }
}

/// The answer for a binding.
#[derive(Clone, Copy)]
pub struct AnswerText<'a>(pub Answer<'a>);

impl<'a> AnswerText<'a> {
    // Returns the words before the place, if the name may be missing and is.
    fn front(&self) -> &'static str
        ensures { result.now ≡ front_text (answer_view self.now.0) }
    {
        match self.0.place {
            NamePlace::Found { .. } | NamePlace::LeadsBack { .. } => "",
            _ if self.0.is_weak => "weak, ",
            _ => "",
        }
    }
}

impl<'a> Display for AnswerText<'a> {
    ghost output = { λ t. Some (answer_text (answer_view t.0)) };

    fn fmt<W: Write>(&self, f: &mut Formatter<W>) -> fmt::Result {
        let name = Escaped(self.0.name);
        let provider = ProviderText(self.0.provider);
        let front = self.front();
        let place = PlaceText(self.0.provider, self.0.place);
        write!(f, "{name} {provider} {front}{place}")
    }
}

// The words for a file that has nothing for a cpu.
#[derive(Clone, Copy)]
struct NothingWords(Cpu);

impl Display for NothingWords {
    ghost output = { λ t. Some (nothing_words t.0) };

    fn fmt<W: Write>(&self, f: &mut Formatter<W>) -> fmt::Result {
        let cpu = self.0;
        write!(f, "nothing for {cpu}")
    }
}

/// A file that has nothing for a cpu.
#[derive(Clone, Copy)]
pub struct NothingText<'a> {
    pub file: Given<'a>,
    pub cpu: Cpu,
}

impl Display for NothingText<'_> {
    ghost output = { λ t. Some (nothing_text (given_view t.file) t.cpu) };

    fn fmt<W: Write>(&self, f: &mut Formatter<W>) -> fmt::Result {
        let path = Escaped(self.file.path);
        let words = NothingWords(self.cpu);
        write!(f, "{path}: {words}")
    }
}

/// A note of a run.
#[derive(Clone, Copy)]
pub struct NoteText<'a, 'b> {
    pub call: Call<'a, 'b>,
    pub note: Note<'a>,
}

impl Display for NoteText<'_, '_> {
    ghost output = { λ t. Some (note_text (call_view_of t.call) (note_view_of t.note)) };

    fn fmt<W: Write>(&self, f: &mut Formatter<W>) -> fmt::Result {
        match self.note {
            Note::GivenBefore { library, name } => {
                let path = Escaped(self.call.file_at(library).path);
                let name = Escaped(name);
                write!(f, "{path}: {name} was given before")
            }
            Note::NothingFor { library, cputype } => {
                let nothing = NothingText {
                    file: self.call.file_at(library),
                    cpu: Cpu::Number(cputype),
                };
                write!(f, "{nothing}")
            }
        }
    }
}
