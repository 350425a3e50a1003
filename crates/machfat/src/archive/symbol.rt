//! The lines of the symbols of an archive's index.

ghost use Rattle.std.specs.Prelude.{◌≡◌, map, Ok, Some, IfOk};
ghost use Rattle.std.specs.Io.KnownBytes.{Appends};
ghost use Rattle.mach_base.specs.Answer.{Reads};
ghost use Rattle.mach_base.specs.declared.error.Error.{Error};
ghost use Rattle.mach_archive.specs.Archives.{archive_member_at};
ghost use Rattle.mach_archive.specs.ArchiveViews.{archive_of, archive_symbol_read, archive_symbol_view, archive_symbols_left};
ghost use Rattle.mach_archive.specs.IndexSymbols.{AreIndexSymbols};
ghost use Rattle.mach_archive.specs.MemberNames.{text_or_fault};
ghost use Rattle.machfat.specs.SymbolLines.{item_of_member, symbol_at_text, reported_symbol_faults, symbol_item, symbol_line, is_whole_symbol};
ghost use Rattle.machfat.specs.SymbolLines.{AreIndexLines, SymbolReported};
ghost use Rattle.machfat.specs.Written.{AreItemLines, WritesAs};

use crate::archive::{print_name_end, print_refused};
use mach_archive::{Archive, ArchiveSymbol, ArchiveSymbols};
use mach_base::{Error, Result, ScrollError, describe};
use mach_cli::ListProgress;
use std::fmt::{Display, Formatter, Write};
use std::{fmt, io};

// The offset that a symbol refers to.
#[derive(Clone, Copy)]
struct PlaceText(u64);

impl Display for PlaceText {
    ghost output = { λ t. Some (symbol_at_text t.0) };

    fn fmt<W: Write>(&self, f: &mut Formatter<W>) -> fmt::Result {
        write!(f, "symbol at {}", self.0)
    }
}

// Returns a symbol's name as a text.
#[tactic(auto, using(mach_archive::proofs::HeadersRead::text_is, mach_archive::proofs::HeadersRead::text_is_none))]
fn name_of<'a>(name: &'a [u8]) -> Result<&'a str>
    ensures { Reads (λ name. name.now) result (text_or_fault name.now) }
{
    match str::from_utf8(name) {
        Ok(text) => Ok(text),
        Err(_) => Err(Error::Scroll(ScrollError::BadInput {
            size: name.len(),
            msg: "a symbol's name is not UTF-8",
        })),
    }
}

// Prints the line of a symbol with this name and the member at a place. Returns whether the member can be read.
fn print_named<O: io::Write>(
    archive: &Archive<'_>,
    place: u64,
    name: &str,
    out: &mut O,
) -> io::Result<bool>
    ensures { IfOk result (λ whole. (reported : SymbolReported Error)
        × (reported_symbol_faults reported ≡ item_of_member place name.now (archive_member_at (archive_of archive.now) place))
        × (whole ≡ is_whole_symbol (reported_symbol_faults reported)) × Appends (O.contents out.old) (O.contents out.new) (symbol_line reported)) }
{
    let at = PlaceText(place);
    match archive.member_at(place as usize) {
        Ok(_) => {
            write!(out, "{at}: ")?;
            print_name_end(name, out)?;
            Ok(true)
        }
        Err(error) => {
            let words = describe(&error);
            write!(out, "{at}, refused: {words}: ")?;
            print_name_end(name, out)?;
            Ok(false)
        }
    }
}

// Prints the line of a symbol. Returns whether its name and its member can be read.
fn print_symbol<O: io::Write>(
    archive: &Archive<'_>,
    symbol: &ArchiveSymbol<'_>,
    out: &mut O,
) -> io::Result<bool>
    ensures { IfOk result (λ whole. (reported : SymbolReported Error)
        × (reported_symbol_faults reported ≡ symbol_item (archive_of archive.now) (Ok (archive_symbol_view symbol.now)))
        × (whole ≡ is_whole_symbol (reported_symbol_faults reported)) × Appends (O.contents out.old) (O.contents out.new) (symbol_line reported)) }
{
    match name_of(symbol.name) {
        Ok(name) => print_named(archive, symbol.member, name, out),
        Err(error) => {
            let at = PlaceText(symbol.member);
            let words = describe(&error);
            writeln!(out, "{at}, name refused: {words}")?;
            Ok(false)
        }
    }
}

// Prints the line of a symbol, or its error. Returns whether it has no fault.
fn print_answer<O: io::Write>(
    archive: &Archive<'_>,
    answer: Result<ArchiveSymbol<'_>>,
    out: &mut O,
) -> io::Result<bool>
    ensures { IfOk result (λ whole. (reported : SymbolReported Error)
        × (reported_symbol_faults reported ≡ symbol_item (archive_of archive.now) (archive_symbol_read answer.entry))
        × (whole ≡ is_whole_symbol (reported_symbol_faults reported)) × Appends (O.contents out.old) (O.contents out.new) (symbol_line reported)) }
{
    match answer {
        Ok(symbol) => print_symbol(archive, &symbol, out),
        Err(error) => print_refused("symbol refused", &error, out),
    }
}

// Prints a line for each of the symbols, in order, up to the first fault, and for that fault, no more than `left`. Returns
// whether none of them has a fault, how many lines are left, and whether there are more.
fn print_items<O: io::Write>(
    archive: &Archive<'_>,
    symbols: ArchiveSymbols<'_>,
    left: usize,
    out: &mut O,
) -> io::Result<ListProgress>
    ensures { IfOk result (λ t. WritesAs (λ text t. AreItemLines reported_symbol_faults symbol_line is_whole_symbol left
        (map (symbol_item (archive_of archive.now)) (archive_symbols_left symbols.entry)) text t) t (O.contents out.old) (O.contents out.new)) }
{
    let mut whole = true;
    let mut number = 0;
    'symbols: for answer in symbols {
        if number == left {
            return Ok(ListProgress {
                left: 0,
                whole,
                more: true,
            });
        }
        whole &= print_answer(archive, answer, out)?;
        number += 1;
    }
    Ok(ListProgress {
        left: left - number,
        whole,
        more: false,
    })
}

/// Prints a line for each symbol of an archive's index, in order, up to the first fault, and for that fault, no more than `left`;
/// nothing, if the archive has no index; or a line with the error of the index. Returns whether no line has a fault, how many
/// lines are left, and whether there are more.
pub fn print_symbols<O: io::Write>(
    archive: &Archive<'_>,
    left: usize,
    out: &mut O,
) -> io::Result<ListProgress>
    ensures { IfOk result (λ t. WritesAs (AreIndexLines (archive_of archive.now) left) t (O.contents out.old) (O.contents out.new)) }
{
    let whole = match archive.symbols() {
        Ok(Some(symbols)) => return print_items(archive, symbols, left, out),
        Ok(None) => true,
        Err(error) => print_refused("symbols refused", &error, out)?,
    };
    Ok(ListProgress {
        left,
        whole,
        more: false,
    })
}
