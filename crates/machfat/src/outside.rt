//! Why the entries of a file are refused; of an entry that is out of the file also where both end.

ghost use Rattle.std.specs.Prelude.{◌≡◌};
ghost use Rattle.machfat.specs.Outside.{outside_entry, outside_in, refused_entries, refused_entries_words};

use goblin_mach::fat::{FAT_MAGIC, FatArch};
use goblin_mach::{FAT_MAGIC_64, peek};
use mach_cli::entries::{OutOfFile, outside_at};
use mach_fat_writer::EntryRefusal;
use mach_parts::FatArch64;
use std::fmt;
use std::fmt::{Display, Formatter, Write};

/// Why the entries of a file are refused.
#[derive(Drop)]
pub struct RefusedEntries {
    pub why: EntryRefusal,
    /// If it is an entry that is out of the file: where both end.
    pub outside: Option<OutOfFile>,
}

impl Display for RefusedEntries {
    ghost use Rattle.std.specs.Prelude.{Some};

    ghost output = { λ refused. Some (refused_entries_words refused) };

    fn fmt<W: Write>(&self, f: &mut Formatter<W>) -> fmt::Result {
        match &self.outside {
            Some(outside) => write!(f, "{outside}"),
            None => {
                let why = &self.why;
                write!(f, "{why}")
            }
        }
    }
}

/// Returns why the entries of a file with these bytes are refused.
pub fn refused_entries(bytes: &[u8], why: EntryRefusal) -> RefusedEntries
    ensures { result ≡ refused_entries bytes.now why }
{
    let outside = outside_in(bytes, &why);
    RefusedEntries { why, outside }
}

// Returns where an entry and its file end, if it is refused as out of the file.
fn outside_in(bytes: &[u8], why: &EntryRefusal) -> Option<OutOfFile>
    ensures { result ≡ outside_in bytes.now why.now }
{
    match why {
        EntryRefusal::OutOfFile(index) => outside_entry(bytes, *index),
        _ => None,
    }
}

// Returns where the entry at an index and the file end, if it is out of the file.
fn outside_entry(bytes: &[u8], index: usize) -> Option<OutOfFile>
    ensures { result ≡ outside_entry bytes.now index }
{
    match peek(bytes, 0) {
        Ok(FAT_MAGIC) => outside_at::<FatArch>(bytes, Some(index)),
        Ok(FAT_MAGIC_64) => outside_at::<FatArch64>(bytes, Some(index)),
        _ => None,
    }
}
