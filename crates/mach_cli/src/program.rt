//! A program's call: its arguments and its files.

ghost use Rattle.std.specs.Prelude.{◌≡◌, IfErr, IfOk, drop, false, true};
ghost use Rattle.mach_dyld.specs.Exports.{text_in};
ghost use Rattle.mach_cli.specs.Calls.{call_view, is_json, AsksFor, Selects};
ghost use Rattle.mach_cli.specs.FileTitles.{IsUnreadStatus};
ghost use Rattle.mach_cli.specs.Outputs.{is_colouring, painter_in, IsFresh};
ghost use Rattle.mach_cli.specs.ProgramTexts.{program_text};
ghost use Rattle.mach_cli.specs.Statuses.{IsStatus};

use crate::address::read::add_addresses;
use crate::call::{Asked, Call, Request, Untaken, understand};
use crate::color::Color;
use crate::complaint::{Complaint, Trouble};
use crate::flag::Help;
use crate::label::Label;
use crate::misuse::Misuse;
use crate::named::names_of;
use crate::names::Names;
use crate::options::{Format, Options, OwnOptions};
use crate::output::say;
use crate::painted::Painted;
use crate::refusal::{Refusal, complain};
use crate::terminal::ForTerminal;
use crate::titled::Titled;
use crate::word::{Word, call_words};
use std::alloc::{AllocError, Global};
use std::io::{BufWriter, ErrorKind, IsTerminal, Printer, Read};
use std::{fs, io};

/// What a program says about itself.
#[derive(Clone, Copy)]
pub struct Program {
    /// Its name, the prefix of its complaints.
    pub name: &'static str,
    /// What it is for, in lines of at most 80 columns, as all that follows.
    pub about: &'static str,
    /// Its usage, which `-h` prints.
    pub usage: &'static str,
    /// What `--version` prints.
    pub version: &'static str,
    /// The shared options that it has.
    pub options: Options,
    /// Its words that are no options, a line each: the word, and in column 28 what it does.
    pub words: &'static str,
    /// Its own options, a line each. A shared option may have a line here, too, if it does something else in this program.
    pub flags: &'static str,
    /// Some calls, a line each.
    pub examples: &'static str,
}

/// Standard output: coloured or not, without control characters if it is a terminal, and with titles.
pub type Output<'r> = BufWriter<Titled<ForTerminal<Painted<Printer<'r, HostRuntime>>>>>;

impl Program {
    /// Returns the arguments of a call; the first is the program's name. If memory runs out that is reported, and the error is
    /// the exit status.
    pub fn words(&self, rt: &HostRuntime) -> Result<Vec<Word>, u8>
        ensures { IfErr result (λ status. status ≡ 1) }
    {
        match call_words(rt) {
            Ok(words) => Ok(words),
            Err(AllocError) => Err(self.out_of_memory(rt)),
        }
    }

    /// Parses the arguments of a call; the first is the program's name. `own` has the program's own options, of which none is
    /// given yet. `--help`, `--version` and misuse are answered here, and the error is the exit status.
    pub fn call<'a, O: OwnOptions>(
        &self,
        rt: &HostRuntime,
        own: O,
        words: &'a [Word],
    ) -> Result<Call<'a, Global, O>, u8>
        ensures selected { IfOk result (λ call. Selects O.taken self.now.options own (drop 1 words.now) (call_view call)) }
        ensures answered { IfErr result (λ status. status ≡ 0 → (asked : Asked) × AsksFor O.taken self.now.options own (drop 1 words.now) asked) }
        ensures unread { IfErr result IsStatus }
    {
        match understand(&rt.alloc(), self.options, own, after_first(words)) {
            Ok(Request::Asks(asked)) => Err(self.answer(rt, asked)),
            Ok(Request::Call(call)) => Ok(call),
            Ok(Request::Nothing(misuse)) => Err(self.bad_usage(rt, misuse)),
            Err(AllocError) => Err(self.out_of_memory(rt)),
        }
    }

    /// Returns standard output for this form, coloured if `color` says so. Nothing is in it yet. If memory runs out that is
    /// reported, and the error is the exit status.
    pub fn output<'r>(
        &self,
        rt: &'r HostRuntime,
        color: Color,
        format: Format,
    ) -> Result<Output<'r>, u8>
        ensures status { IfErr result (λ status. status ≡ 1) }
        ensures fresh { IfOk result IsFresh }
        ensures json { is_json format ≡ true → IfOk result (λ out. is_colouring (painter_in out) ≡ false) }
        ensures never { color ≡ Color.Never → IfOk result (λ out. is_colouring (painter_in out) ≡ false) }
        ensures always { color ≡ Color.Always → is_json format ≡ false → IfOk result (λ out. is_colouring (painter_in out) ≡ true) }
    {
        let painted = Painted::new(io::writer(rt), color.is_for(rt, format));
        let inner = ForTerminal::new(painted, rt.stdout().is_terminal());
        let Ok(out) = BufWriter::new(rt.alloc(), Titled::new(rt.alloc(), inner)) else {
            return Err(self.out_of_memory(rt));
        };
        Ok(out)
    }

    // Returns a text about the program, if it is written down as it is printed.
    fn text_of(&self, asked: Asked) -> Option<&'static str>
        ensures { text_in result ≡ program_text self.now asked }
    {
        match asked {
            Asked::Usage => Some(self.usage),
            Asked::Version => Some(self.version),
            Asked::Help => None,
        }
    }

    // Prints a text about the program, and returns the exit status.
    fn answer(&self, rt: &HostRuntime, asked: Asked) -> u8
        ensures { IsStatus result }
    {
        if let Some(text) = self.text_of(asked) {
            return self.say(rt, text);
        }
        let help = Help(*self);
        match format!(in rt.alloc(); "{help}") {
            Ok(text) => self.say(rt, text.as_str()),
            Err(AllocError) => self.out_of_memory(rt),
        }
    }

    // Prints a text, and returns the exit status.
    fn say(&self, rt: &HostRuntime, text: &str) -> u8
        ensures { IsStatus result }
    {
        say(self.name, text, &mut io::writer(rt), &mut rt.stderr())
    }

    /// Returns the bytes of a file, or of standard input for the name `-`. If they can't be read the reason is reported, and the
    /// error is the exit status.
    pub fn read(&self, rt: &HostRuntime, file: &str) -> Result<Vec<u8>, u8>
        ensures { IfErr result IsUnreadStatus }
    {
        let names = Names {
            program: self.name,
            file,
        };
        match bytes_of(rt, file) {
            Ok(bytes) => Ok(bytes),
            Err(error) if error.kind() == ErrorKind::OutOfMemory => {
                Err(self.no_memory_for(rt, file))
            }
            Err(error) => {
                let _ = rt.eprintln(format_args!("{names}: {error}"));
                Err(2)
            }
        }
    }

    /// Adds the addresses that standard input has, if a call reads them, to those of the call. If it can't be read, or a line is no
    /// address, that is reported, and the error is the exit status.
    pub fn read_addresses<O>(
        &self,
        rt: &HostRuntime,
        call: &mut Call<'_, Global, O>,
    ) -> Result<(), u8>
        ensures kept { call_view call.new ≡ record (call_view call.old) { addresses = call.new.addresses.items } }
        ensures unread { IfErr result IsUnreadStatus }
    {
        if !call.reads_addresses {
            return Ok(());
        }
        if call.words.contains(&"-") || call.others.lists.contains(&"-") {
            return Err(self.bad_usage(rt, Misuse::InputTwice));
        }
        let bytes = self.read(rt, "-")?;
        let Ok(lines) = names_of(rt.alloc(), b'\n', &bytes) else {
            return Err(self.out_of_memory(rt));
        };
        match add_addresses(lines.as_slice(), &mut call.addresses) {
            Ok(()) => Ok(()),
            Err(Untaken::Misuse(misuse)) => Err(self.bad_usage(rt, misuse)),
            Err(Untaken::Memory) => Err(self.out_of_memory(rt)),
        }
    }

    /// Reports that memory ran out for a file, and returns the status.
    pub fn no_memory_for(&self, rt: &HostRuntime, file: &str) -> u8
        ensures { result ≡ 1 }
    {
        let names = Names {
            program: self.name,
            file,
        };
        let _ = complain(names, Label::None, Refusal::Memory, &mut rt.stderr());
        1
    }

    /// Reports a misuse and the usage, and returns the status.
    pub fn bad_usage(&self, rt: &HostRuntime, misuse: Misuse<'_>) -> u8
        ensures { result ≡ 2 }
    {
        let meant = self.meant(rt.alloc(), misuse);
        self.complain(rt, Trouble::Misused(misuse, meant));
        let _ = rt.eprint(self.usage);
        2
    }

    /// Reports that memory ran out, and returns the status.
    pub fn out_of_memory(&self, rt: &impl Eprint) -> u8
        ensures { result ≡ 1 }
    {
        self.complain(rt, Trouble::Memory);
        1
    }

    // Reports what is wrong, if possible.
    fn complain(&self, rt: &impl Eprint, trouble: Trouble<'_>) {
        let _ = rt.eprintln(Complaint {
            program: self.name,
            trouble,
        });
    }
}

// Returns the words after the first.
fn after_first(words: &[Word]) -> &[Word]
    ensures { result.now ≡ drop 1 words.now }
{
    match words {
        [_, following @ ..] => following,
        [] => &[],
    }
}

// Returns the bytes of a file, or of standard input.
fn bytes_of(rt: &HostRuntime, file: &str) -> io::Result<Vec<u8>> {
    if file != "-" {
        return fs::read(rt, file);
    }
    let mut bytes = Vec::new(rt.alloc());
    rt.stdin().read_to_end(&mut bytes)?;
    Ok(bytes)
}
