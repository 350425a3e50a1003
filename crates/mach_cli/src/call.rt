//! The arguments of a call.

ghost use Rattle.std.specs.Prelude.{◌≡◌, None, option_map, IfErr, IfOk, OnOk};
ghost use Rattle.mach_dyld.specs.Exports.{text_in};
ghost use Rattle.mach_cli.specs.Calls.{call_view, empty_call, has_at, kind_at, word_kind, AddsWord, AreUntaken, IsRequest, Requests, TakesValue};
ghost use Rattle.mach_cli.specs.Calls.{joined_in, joined_view, is_shared, untaken_by, value_after, what_is_missing, TakesDashed, TakesOwn, TakesWord};
ghost use Rattle.mach_cli.specs.CallWords.{word_text};

use crate::color::Color;
use crate::cpu::Cpu;
use crate::hexadecimal::{address_in, cputype_in};
use crate::misuse::Misuse;
use crate::named::Others;
use crate::options::{Format, Options, OwnOptions};
use crate::word::{NoText, Word};
use goblin_mach::names::Arch;
use std::alloc::{AllocError, Allocator};

/// The arguments of a call, after the program's name and the options.
#[derive(Drop)]
pub struct Call<'a, A: Allocator, O> {
    /// The number after `--limit`, if it is given.
    pub limit: Option<usize>,
    /// The cpu after `--arch` or `--cputype`; any, if neither is given.
    pub cpu: Cpu,
    /// The addresses after `--at`, in order.
    pub addresses: Vec<u64, A>,
    /// Whether standard input has more: `--at -` is given.
    pub reads_addresses: bool,
    /// The address after `--load-address`, if it is given.
    pub load_address: Option<u64>,
    /// Whether `--lossy` is given.
    pub is_lossy: bool,
    /// The form that the last of `--quiet` and `--json` selects; text, if neither is given.
    pub format: Format,
    /// When its output is coloured: the value of `--color`; `auto` if it isn't given.
    pub color: Color,
    /// The program's own options.
    pub own: O,
    /// All other arguments that are text, in order.
    pub words: Vec<&'a str, A>,
    /// The files that are named in other ways.
    pub others: Others<'a, A>,
}

/// A text that a program has about itself.
#[derive(Clone, Copy)]
pub enum Asked {
    /// `-h`: the usage.
    Usage,
    /// `--help`: what the program is for, and each of its words and options.
    Help,
    /// `--version`: its name and version.
    Version,
}

/// What the arguments of a call request.
#[derive(Drop)]
pub enum Request<'a, A: Allocator, O> {
    /// A text about the program.
    Asks(Asked),
    /// A run of the program, with its arguments.
    Call(Call<'a, A, O>),
    /// Nothing, because of this misuse.
    Nothing(Misuse<'a>),
}

// An option with a value.
#[derive(Clone, Copy)]
enum Valued {
    Limit,
    Arch,
    Cputype,
    Address,
    LoadAddress,
    Color,
    Names,
}

// The kind of an argument that is no option's value and comes before `--`.
#[derive(Clone, Copy)]
enum Kind {
    // `--`: no argument after it is an option.
    Plain,
    // An option that asks for a text about the program.
    Asks(Asked),
    // `-0`: names in lists end with NUL.
    Nul,
    // `--lossy`: an image that strict mode refuses is opened in lossy mode.
    Lossy,
    // An option that selects a form.
    Form(Format),
    // An option with a value.
    Valued(Valued),
    // No option.
    Other,
    // An option with its value, one of the program's own, or one that it doesn't have.
    Own,
}

// Why arguments request nothing, or aren't read.
#[derive(Clone, Copy)]
pub(crate) enum Untaken<'a> {
    // One of them is wrong.
    Misuse(Misuse<'a>),
    // Memory ran out.
    Memory,
}

// Returns the kind of an argument that is no option's value and comes before `--`.
fn kind_of(word: &str, options: Options) -> Kind
    ensures { result ≡ word_kind options word.now }
{
    match word {
        "--" => Kind::Plain,
        "-h" => Kind::Asks(Asked::Usage),
        "--help" => Kind::Asks(Asked::Help),
        "--version" => Kind::Asks(Asked::Version),
        "-0" if options.has_files => Kind::Nul,
        "--lossy" if options.has_lossy => Kind::Lossy,
        "--json" if options.has_json => Kind::Form(Format::Json),
        "--quiet" if options.has_quiet => Kind::Form(Format::Quiet),
        "--limit" if options.has_limit => Kind::Valued(Valued::Limit),
        "--arch" if options.has_arch => Kind::Valued(Valued::Arch),
        "--cputype" if options.has_cputype => Kind::Valued(Valued::Cputype),
        "--at" if options.has_address => Kind::Valued(Valued::Address),
        "--load-address" if options.has_load_address => Kind::Valued(Valued::LoadAddress),
        "--color" => Kind::Valued(Valued::Color),
        "--names" if options.has_files => Kind::Valued(Valued::Names),
        "-" => Kind::Other,
        _ if word.starts_with('-') => Kind::Own,
        _ => Kind::Other,
    }
}

/// Whether a program with these options has a shared one of this name.
pub fn is_shared(name: &str, options: Options) -> bool
    ensures { result ≡ is_shared options name.now }
{
    !matches!(kind_of(name, options), Kind::Other | Kind::Own)
}

// Returns the kind of an argument that is no option's value. After `--` it is no option.
fn kind_at(is_plain: bool, word: &str, options: Options) -> Kind
    ensures { result ≡ kind_at is_plain options word.now }
{
    if is_plain {
        Kind::Other
    } else {
        kind_of(word, options)
    }
}

impl Valued {
    // Returns what is missing if no value follows.
    fn missing(self) -> &'static str
        ensures { result.now ≡ what_is_missing self }
    {
        match self {
            Valued::Limit => "number after --limit",
            Valued::Arch => "NAME after --arch",
            Valued::Cputype => "0xN after --cputype",
            Valued::Address => "ADDRESS after --at",
            Valued::LoadAddress => "ADDRESS after --load-address",
            Valued::Color => "WHEN after --color",
            Valued::Names => "FILE after --names",
        }
    }
}

// Returns what follows an option and `=` in an argument, if the program has that option.
fn value_after<'a>(word: &'a str, option: &str, has: bool) -> Option<&'a str>
    ensures { text_in result ≡ value_after has option.now word.now }
{
    if has { word.strip_prefix(option) } else { None }
}

// Returns the option and its value, if an argument has both.
fn joined<'a>(word: &'a str, options: Options) -> Option<(Valued, &'a str)>
    ensures { option_map joined_view result ≡ joined_in options word.now }
{
    if let Some(value) = value_after(word, "--limit=", options.has_limit) {
        return Some((Valued::Limit, value));
    }
    if let Some(value) = value_after(word, "--arch=", options.has_arch) {
        return Some((Valued::Arch, value));
    }
    if let Some(value) = value_after(word, "--cputype=", options.has_cputype) {
        return Some((Valued::Cputype, value));
    }
    if let Some(value) = value_after(word, "--at=", options.has_address) {
        return Some((Valued::Address, value));
    }
    if let Some(value) = value_after(word, "--load-address=", options.has_load_address) {
        return Some((Valued::LoadAddress, value));
    }
    if let Some(value) = value_after(word, "--color=", true) {
        return Some((Valued::Color, value));
    }
    let value = value_after(word, "--names=", options.has_files)?;
    Some((Valued::Names, value))
}

impl<A: Allocator, O> Call<'_, A, O> {
    /// Whether it has `--at`.
    pub fn has_at(&self) -> bool
        ensures { result ≡ has_at self.now }
    {
        self.reads_addresses || !self.addresses.is_empty()
    }
}

impl<'a, A: Allocator, O: OwnOptions> Call<'a, A, O> {
    // Takes the value of an option; a value of `--names` is a list.
    fn take(&mut self, option: Valued, word: &'a str) -> Result<(), Untaken<'a>>
        ensures taken { OnOk result (TakesValue option word.now (call_view self.old) (call_view self.new)) }
        ensures untaken { IfErr result (AreUntaken (TakesValue option word.now (call_view self.old))) }
        ensures reason { IfErr result (λ reason. reason ≡ untaken_by option word.entry) }
    {
        match option {
            Valued::Limit => match word.parse::<usize>() {
                Ok(number) => self.limit = Some(number),
                Err(_) => return Err(Untaken::Misuse(Misuse::NoNumber(word))),
            },
            Valued::Arch => match Arch::named(word) {
                Some(arch) => self.cpu = Cpu::Arch(arch),
                None => return Err(Untaken::Misuse(Misuse::NoCpu(word))),
            },
            Valued::Cputype => match cputype_in(word) {
                Some(number) => self.cpu = Cpu::Number(number),
                None => return Err(Untaken::Misuse(Misuse::NoCpu(word))),
            },
            Valued::Address if word == "-" => self.reads_addresses = true,
            Valued::Address => match address_in(word) {
                Some(address) => {
                    if self.addresses.push(address).is_err() {
                        return Err(Untaken::Memory);
                    }
                }
                None => return Err(Untaken::Misuse(Misuse::NoAddress(word))),
            },
            Valued::LoadAddress => match address_in(word) {
                Some(address) => self.load_address = Some(address),
                None => return Err(Untaken::Misuse(Misuse::NoAddress(word))),
            },
            Valued::Color => match Color::named(word) {
                Some(color) => self.color = color,
                None => return Err(Untaken::Misuse(Misuse::NoColor(word))),
            },
            Valued::Names => {
                if self.others.lists.push(word).is_err() {
                    return Err(Untaken::Memory);
                }
            }
        }
        Ok(())
    }

    // Takes the value of an option, which must be text.
    fn take_word(&mut self, option: Valued, word: &'a Word) -> Result<(), Untaken<'a>>
        ensures taken { OnOk result (TakesWord option word.now (call_view self.old) (call_view self.new)) }
        ensures untaken { IfErr result (AreUntaken (TakesWord option word.now (call_view self.old))) }
    {
        match word {
            Word::Text(text) => self.take(option, text.as_str()),
            Word::Bytes(number, bytes) => {
                Err(Untaken::Misuse(Misuse::NoText(no_text(*number, bytes))))
            }
        }
    }

    // Takes an argument that is neither an option nor a value. One that isn't text is taken if it may be a file.
    fn add(&mut self, word: &'a Word, options: Options) -> Result<(), Untaken<'a>>
        ensures added { OnOk result (AddsWord options word.now (call_view self.old) (call_view self.new)) }
        ensures untaken { IfErr result (AreUntaken (AddsWord options word.now (call_view self.old))) }
    {
        let pushed = match word {
            Word::Text(text) => self.words.push(text.as_str()).is_ok(),
            Word::Bytes(number, bytes) => {
                let no_text = no_text(*number, bytes);
                if !options.has_files {
                    return Err(Untaken::Misuse(Misuse::NoText(no_text)));
                }
                self.others.no_texts.push(no_text).is_ok()
            }
        };
        if pushed { Ok(()) } else { Err(Untaken::Memory) }
    }

    // Takes an option of the program's own.
    fn take_own(&mut self, option: &'a str) -> Result<(), Untaken<'a>>
        ensures taken { OnOk result (TakesOwn O.taken option.now (call_view self.old) (call_view self.new)) }
        ensures untaken { IfErr result (AreUntaken (TakesOwn O.taken option.now (call_view self.old))) }
    {
        if !self.own.take(option) {
            return Err(Untaken::Misuse(Misuse::UnknownOption(option)));
        }
        Ok(())
    }

    // Takes an argument that begins with a dash and is no shared option as a whole: such an option with its value after `=`, or one
    // of the program's own.
    fn take_dashed(&mut self, word: &'a Word, options: Options) -> Result<(), Untaken<'a>>
        ensures taken { OnOk result (TakesDashed O.taken options (word_text word.now) (call_view self.old) (call_view self.new)) }
        ensures untaken { IfErr result (AreUntaken (TakesDashed O.taken options (word_text word.now) (call_view self.old))) }
    {
        let argument = word.as_str();
        match joined(argument, options) {
            Some((option, value)) => self.take(option, value),
            None => self.take_own(argument),
        }
    }
}

// Returns the report that the argument of this number isn't text.
fn no_text(number: usize, bytes: &[u8]) -> NoText<'_>
    ensures { (result.number ≡ number) × (result.bytes.now ≡ bytes.now) }
{
    NoText {
        what: "word",
        number,
        bytes,
    }
}

/// Parses the arguments after the program's name. An option may be anywhere before `--`; after it nothing is an option. `-` is no
/// option.
pub fn understand<'a, A: Allocator + Clone, O: OwnOptions>(
    alloc: &A,
    options: Options,
    own: O,
    words: &'a [Word],
) -> Result<Request<'a, A, O>, AllocError>
    ensures { IfOk result (IsRequest O.taken options (empty_call own) words.now) }
{
    let call = Call {
        limit: None,
        cpu: Cpu::Any,
        addresses: Vec::new(alloc.clone()?),
        reads_addresses: false,
        load_address: None,
        is_lossy: false,
        format: Format::Text,
        color: Color::Auto,
        own,
        words: Vec::new(alloc.clone()?),
        others: Others {
            lists: Vec::new(alloc.clone()?),
            ends_with_nul: false,
            no_texts: Vec::new(alloc.clone()?),
        },
    };
    match read(call, options, words) {
        Ok(request) => Ok(request),
        Err(Untaken::Misuse(misuse)) => Ok(Request::Nothing(misuse)),
        Err(Untaken::Memory) => Err(AllocError),
    }
}

// Parses arguments into a call that has some already.
fn read<'a, A: Allocator, O: OwnOptions>(
    mut call: Call<'a, A, O>,
    options: Options,
    words: &'a [Word],
) -> Result<Request<'a, A, O>, Untaken<'a>>
    ensures request { IfOk result (IsRequest O.taken options (call_view call.entry) words.now) }
    ensures untaken { IfErr result (AreUntaken (Requests O.taken options None (call_view call.entry) words.now)) }
{
    let mut before: Option<Valued> = None;
    let mut is_plain = false;
    'words: for word in words {
        if let Some(option) = before {
            if let Err(untaken) = call.take_word(option, word) {
                return Err(untaken);
            }
            before = None;
            continue;
        }
        match kind_at(is_plain, word.as_str(), options) {
            Kind::Plain => is_plain = true,
            Kind::Asks(asked) => return Ok(Request::Asks(asked)),
            Kind::Nul => call.others.ends_with_nul = true,
            Kind::Lossy => call.is_lossy = true,
            Kind::Form(format) => call.format = format,
            Kind::Valued(option) => before = Some(option),
            Kind::Other => {
                if let Err(untaken) = call.add(word, options) {
                    return Err(untaken);
                }
            }
            Kind::Own => {
                if let Err(untaken) = call.take_dashed(word, options) {
                    return Err(untaken);
                }
            }
        }
    }
    match before {
        Some(option) => Err(Untaken::Misuse(Misuse::Missing(option.missing()))),
        None => Ok(Request::Call(call)),
    }
}
