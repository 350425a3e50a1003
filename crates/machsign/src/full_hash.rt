//! All bytes of a directory's hash.

ghost use Rattle.std.specs.Prelude.{OnOk};
ghost use Rattle.std.specs.Io.KnownBytes.{Appends};
ghost use Rattle.mach_cli.specs.SignatureNames.{bytes_text};
ghost use Rattle.mach_signature.specs.Directories.{full_cdhash_of};
ghost use Rattle.mach_signature.specs.DirectoryViews.{directory_view};

use mach_cli::print_bytes;
use mach_signature::CodeDirectory;
use std::io;
use std::io::Write;

/// Prints the whole hash of a directory.
pub fn print_full_hash<O: Write>(directory: &CodeDirectory<'_>, out: &mut O) -> io::Result<()>
    ensures { OnOk result (Appends (O.contents out.old) (O.contents out.new) (bytes_text (full_cdhash_of (directory_view directory.now)))) }
{
    let hash = directory.full_cdhash();
    print_bytes(hash.as_slice(), out)
}
