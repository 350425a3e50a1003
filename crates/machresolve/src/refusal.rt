//! The words for a refused file.

ghost use Rattle.std.specs.Prelude.{◌≡◌};
ghost use Rattle.machresolve.specs.Refusals.{has_table, kind_reported};

use goblin_mach::fat::{FatHeader, SIZEOF_FAT_ARCH, SIZEOF_FAT_HEADER};
use goblin_mach::{Error, Foreign, describe};
use mach_cli::{Escaped, refused_kind};
use mach_resolve::Given;
use std::fmt;
use std::fmt::{Display, Formatter, Write};

// Whether the bytes hold all records that their header counts, if they are a fat file.
fn has_table(bytes: &[u8]) -> bool
    ensures { result ≡ has_table bytes.now }
{
    match FatHeader::parse(bytes) {
        Ok(header) => {
            let records = SIZEOF_FAT_ARCH as u64 * u64::from(header.nfat_arch);
            SIZEOF_FAT_HEADER as u64 + records <= bytes.len() as u64
        }
        Err(_) => false,
    }
}

// Returns the kind of a file that is refused for this error, if it is not Mach-O.
fn kind_reported(bytes: &[u8], error: &Error) -> Option<Foreign>
    ensures { result ≡ kind_reported bytes.now error.now }
{
    match refused_kind(bytes, error) {
        Some(Foreign::JavaClass) if has_table(bytes) => None,
        kind => kind,
    }
}

/// The words for a refused file.
#[derive(Clone, Copy)]
pub struct RefusalText<'a, 'b> {
    pub file: Given<'a>,
    pub error: &'b Error,
}

impl Display for RefusalText<'_, '_> {
    ghost use Rattle.std.specs.Prelude.{Some};
    ghost use Rattle.machresolve.specs.Lines.{refusal_text};
    ghost use Rattle.mach_resolve.specs.Opened.{given_view};

    ghost output = { λ t. Some (refusal_text (given_view t.file) t.error.now) };

    fn fmt<W: Write>(&self, f: &mut Formatter<W>) -> fmt::Result {
        let Given { path, bytes } = self.file;
        let path = Escaped(path);
        match kind_reported(bytes, self.error) {
            Some(kind) => write!(f, "{path}: {kind}"),
            None => {
                let words = describe(self.error);
                write!(f, "{path}: {words}")
            }
        }
    }
}
