//! What the program prints of some bytes, and its exit status.

ghost use Rattle.std.specs.Prelude.{◌≡◌, ◌≢◌, ◌≤◌, ◌↔◌, [], List, OnOk, codes};
ghost use Rattle.std.specs.Io.Buffered.{writer_buffer};
ghost use Rattle.mach_dyld.specs.Exports.{info_of};
ghost use Rattle.mach_base.specs.Text.{texts};
ghost use Rattle.mach_dyld.specs.Trie.{Entry, offset_of};
ghost use Rattle.mach_dyld.specs.TrieRange.{ListsExports};
ghost use Rattle.goblin_mach.specs.Image.{Opens};
ghost use Rattle.goblin_mach.specs.File.{MachOpens};
ghost use Rattle.goblin_mach.specs.OpenImage.{trie_view};
ghost use Rattle.goblin_mach.specs.Subjects.{trie_or_empty};

use goblin_mach::exports::ExportInfo;
use goblin_mach::imports::Import;
use goblin_mach::load_command::{LoadCommand, LoadCommandHeader};
use goblin_mach::{Error, Mach, MachO, MultiArch, SingleArch};
use std::alloc::{AllocError, Allocator};
use std::io::{BufWriter, Write};
use std::{fmt, io};

/// The list that is printed of a file: the program's first argument.
#[derive(Clone, Copy, Debug, PartialEq)]
pub enum Word {
    /// The load commands.
    Commands,
    /// The exports.
    Exports,
    /// The imports.
    Imports,
}

impl Word {
    /// Returns the word with this spelling, if there is one.
    pub fn parse(text: &str) -> Option<Word>
        ensures commands { result ≡ Some Word.Commands ↔ (text.now ≡ codes "commands") }
        ensures exports { result ≡ Some Word.Exports ↔ (text.now ≡ codes "exports") }
        ensures imports { result ≡ Some Word.Imports ↔ (text.now ≡ codes "imports") }
    {
        match text {
            "commands" => Some(Word::Commands),
            "exports" => Some(Word::Exports),
            "imports" => Some(Word::Imports),
            _ => None,
        }
    }
}

/// Prints the list that the word selects of the bytes, and returns the exit status.
///
/// It is 0 if all was printed. It is 1 if the file is refused, and then `err` has the reason and `out` nothing, or if an entry of
/// a fat file is refused. It is 2 if a write fails. No list of exports is kept, so a refused allocation may be reported after
/// some of their lines. Unless the status is 2, nothing is left in the buffer.
pub fn run<A: Allocator + Clone, W: Write + Drop, B: Allocator, E: Write>(
    alloc: A,
    word: Word,
    bytes: &[u8],
    out: &mut BufWriter<W, B>,
    err: &mut E,
) -> u8
    ensures status { result ≤ 2 }
    ensures printed { result ≡ 0 → MachOpens Opens bytes.now }
    ensures flushed { result ≢ 2 → writer_buffer out.new ≡ [] }
{
    let printed = print(alloc, word, bytes, out);
    match out.flush() {
        Ok(()) => match printed {
            Ok(true) => 0,
            Ok(false) => 1,
            Err(failure) => failed(failure, err),
        },
        Err(_) => 2,
    }
}

// Returns the status of a failure, and reports a refusal on `err`.
fn failed<E: Write>(failure: DumpFailure, err: &mut E) -> u8
    ensures few { result ≤ 2 }
    ensures none { result ≢ 0 }
{
    match failure {
        DumpFailure::Unwritten => 2,
        DumpFailure::Refused(reason) => match writeln!(err, "machdump: {reason}") {
            Ok(()) => 1,
            Err(_) => 2,
        },
    }
}

// Why a file or an entry is refused.
#[derive(Clone, Copy)]
enum Reason {
    Malformed,
    BadMagic,
    Bytes,
    Memory,
}

impl Reason {
    // Returns the reason of an error.
    fn of(error: &Error) -> Reason {
        match error {
            Error::Malformed(_) => Reason::Malformed,
            Error::BadMagic(_) => Reason::BadMagic,
            Error::Scroll(_) | Error::BufferTooShort(..) => Reason::Bytes,
            Error::Memory(_) => Reason::Memory,
        }
    }
}

impl fmt::Display for Reason {
    fn fmt<W: fmt::Write>(&self, f: &mut fmt::Formatter<W>) -> fmt::Result {
        match self {
            Reason::Malformed => write!(f, "malformed"),
            Reason::BadMagic => write!(f, "bad magic"),
            Reason::Bytes => write!(f, "short or bad bytes"),
            Reason::Memory => write!(f, "out of memory"),
        }
    }
}

// Why the lines were not all printed.
#[derive(Clone, Copy)]
enum DumpFailure {
    Refused(Reason),
    Unwritten,
}

impl From<Error> for DumpFailure {
    fn from(error: Error) -> DumpFailure {
        DumpFailure::Refused(Reason::of(&error))
    }
}

impl From<AllocError> for DumpFailure {
    fn from(_error: AllocError) -> DumpFailure {
        DumpFailure::Refused(Reason::Memory)
    }
}

impl From<io::Error> for DumpFailure {
    fn from(_error: io::Error) -> DumpFailure {
        DumpFailure::Unwritten
    }
}

// Prints a file, and returns whether every entry of a fat file was printed.
fn print<A: Allocator + Clone, O: Write>(
    alloc: A,
    word: Word,
    bytes: &[u8],
    out: &mut O,
) -> Result<bool, DumpFailure>
    ensures { OnOk result (MachOpens Opens bytes.now) }
{
    match Mach::parse(alloc.clone()?, bytes)? {
        Mach::Binary(image) => {
            print_image(&alloc, word, &image, out)?;
            Ok(true)
        }
        Mach::Fat(container) => {
            container.arches()?;
            print_entries(&alloc, word, &container, out)
        }
    }
}

// Prints the entries of a fat file, and returns whether none was refused.
fn print_entries<A: Allocator + Clone, O: Write>(
    alloc: &A,
    word: Word,
    container: &MultiArch<'_, A>,
    out: &mut O,
) -> Result<bool, DumpFailure> {
    let mut whole = true;
    for index in 0..container.narches {
        writeln!(out, "arch {index}")?;
        if let Err(failure) = print_entry(alloc, word, container, index, out) {
            let DumpFailure::Refused(reason) = failure else {
                return Err(failure);
            };
            writeln!(out, "refused: {reason}")?;
            whole = false;
        }
    }
    Ok(whole)
}

// Prints the list that the word selects of an entry.
fn print_entry<A: Allocator + Clone, O: Write>(
    alloc: &A,
    word: Word,
    container: &MultiArch<'_, A>,
    index: usize,
    out: &mut O,
) -> Result<(), DumpFailure> {
    match container.get(index)? {
        SingleArch::MachO(image) => print_image(alloc, word, &image, out),
        SingleArch::Archive(_) => Ok(writeln!(out, "archive")?),
    }
}

// Prints the list that the word selects of an image; nothing if it is refused for a fault.
fn print_image<A: Allocator + Clone, O: Write>(
    alloc: &A,
    word: Word,
    image: &MachO<'_, A>,
    out: &mut O,
) -> Result<(), DumpFailure> {
    match word {
        Word::Commands => print_commands(out, &image.load_commands)?,
        Word::Exports => {
            walk_over(alloc, image)?;
            print_exports(alloc, image, out)?;
        }
        Word::Imports => print_imports(out, &image.imports(alloc.clone()?)?)?,
    }
    Ok(())
}

fn print_commands<O: Write>(out: &mut O, commands: &[LoadCommand]) -> io::Result<()> {
    for command in commands {
        let header = LoadCommandHeader {
            cmd: command.command.cmd(),
            cmdsize: command.command.cmdsize() as u32,
        };
        writeln!(out, "{:#x} {}", command.offset, header)?;
    }
    Ok(())
}

// Visits the exports of an image without keeping them: Ok if they have a list.
fn walk_over<A: Allocator + Clone>(alloc: &A, image: &MachO<'_, A>) -> goblin_mach::Result<()>
    ensures { OnOk result ((list : List Entry) × ListsExports (trie_or_empty (trie_view image.now)) (texts image.now.libs.items) list) }
{
    let mut walk = image.walk_exports(alloc.clone()?)?;
    'exports: while let Some(export) = walk.next() {
        if let Err(error) = export {
            return Err(error);
        }
    }
    Ok(())
}

// Returns the address of an export, relative to the image's start: that of a regular export, else 0.
fn offset(info: &ExportInfo<'_>) -> u64
    ensures { result ≡ offset_of (info_of info.now) }
{
    match info {
        ExportInfo::Regular { address, .. } => *address,
        ExportInfo::Reexport { .. } | ExportInfo::Stub { .. } => 0,
    }
}

// Prints the exports of an image, one after the other.
fn print_exports<A: Allocator + Clone, O: Write>(
    alloc: &A,
    image: &MachO<'_, A>,
    out: &mut O,
) -> Result<(), DumpFailure> {
    let mut walk = image.walk_exports(alloc.clone()?)?;
    'exports: while let Some(export) = walk.next() {
        let (name, info) = export?;
        writeln!(out, "{:#x} {}", offset(&info), name)?;
    }
    Ok(())
}

fn print_imports<O: Write>(out: &mut O, imports: &[Import<'_>]) -> io::Result<()> {
    for import in imports {
        writeln!(
            out,
            "{:#x} {} {}",
            import.address, import.dylib, import.name
        )?;
    }
    Ok(())
}
