//! The lines of an archive.

ghost use Rattle.std.specs.Prelude.{◌≡◌, false, IfOk, OnOk};
ghost use Rattle.std.specs.Io.KnownBytes.{Appends};
ghost use Rattle.mach_archive.specs.ArchiveViews.{archive_of};
ghost use Rattle.machfat.specs.ArchiveLines.{AreArchiveLines};
ghost use Rattle.machfat.specs.Names.{name_tail, refused_line};
ghost use Rattle.machfat.specs.Written.{WritesAs};

pub mod member;
pub mod symbol;

use crate::archive::member::print_members;
use crate::archive::symbol::print_symbols;
use mach_archive::Archive;
use mach_base::{Error, describe};
use mach_cli::{Escaped, Outcome, print_cut};
use std::io;
use std::io::Write;

/// Prints the line of what is refused, with its error. Returns that it is not whole.
pub fn print_refused<O: Write>(what: &str, error: &Error, out: &mut O) -> io::Result<bool>
    ensures { IfOk result (λ whole. (whole ≡ false) × Appends (O.contents out.old) (O.contents out.new) (refused_line what.now error.now)) }
{
    let words = describe(error);
    writeln!(out, "{what}: {words}")?;
    Ok(false)
}

/// Prints a name and the end of its line.
pub fn print_name_end<O: Write>(name: &str, out: &mut O) -> io::Result<()>
    ensures { OnOk result (Appends (O.contents out.old) (O.contents out.new) (name_tail name.now)) }
{
    let name = Escaped(name);
    writeln!(out, "{name}")
}

/// Prints the lines of an archive: of its members, then of the symbols of its index, no more than `left`; if there are more, a
/// line says that `limit` are printed. Returns whether there are no more and no line has a fault, and how many lines are left.
pub fn print_archive<O: Write>(
    archive: &Archive<'_>,
    limit: usize,
    left: usize,
    out: &mut O,
) -> io::Result<Outcome>
    ensures { IfOk result (λ outcome. WritesAs (AreArchiveLines limit left (archive_of archive.now)) outcome (O.contents out.old) (O.contents out.new)) }
{
    let members = print_members(archive, left, out)?;
    let symbols = print_symbols(archive, members.left, out)?;
    let more = members.more | symbols.more;
    print_cut(limit, more, out)?;
    Ok(Outcome {
        whole: members.whole & symbols.whole & !more,
        left: symbols.left,
    })
}
