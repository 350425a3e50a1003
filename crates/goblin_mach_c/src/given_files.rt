//! The files that are given to be resolved: parts of one buffer.

ghost use Rattle.std.specs.Prelude.{◌≡◌, map, IfOk, IfErr};
ghost use Rattle.mach_base.specs.Answer.{Reads};
ghost use Rattle.mach_resolve.specs.Failures.{IsFailure};
ghost use Rattle.mach_resolve.specs.Opened.{given_view};
ghost use Rattle.goblin_mach_c.specs.GivenFiles as defined;
ghost use Rattle.goblin_mach_c.specs.GivenFiles.{AreGiven, PartFault};

use mach_base::{Error, bytes_at};
use mach_resolve::{Given, ResolveFailure};
use std::alloc::Allocator;

/// A file as it is given: its bytes and its path are parts of one buffer.
#[derive(Clone, Copy)]
#[repr(C)]
pub struct gm_given_file {
    /// The place of its first byte in the buffer, and how many bytes it has.
    pub offset: usize,
    pub len: usize,
    /// The place of its path in the buffer, and the length of the path: its name, if it has no name of its own.
    pub path: usize,
    pub path_len: usize,
}

// Returns the file that is given as a part of these bytes.
fn given_at<'a>(bytes: &'a [u8], file: &gm_given_file) -> Result<Given<'a>, Error>
    ensures { Reads given_view result (defined.given_at bytes.now file.now) }
{
    let own = bytes_at(bytes, file.offset, file.len)?;
    let path = bytes_at(bytes, file.path, file.path_len)?;
    match str::from_utf8(path) {
        Ok(path) => Ok(Given { path, bytes: own }),
        Err(_) => Err(Error::Malformed("a path is not UTF-8")),
    }
}

/// Returns the files that are given as parts of these bytes, in order. A failure has the number of the first file that isn't in the
/// bytes, or whose path isn't.
pub fn all_given<'a, A: Allocator + Copy>(
    alloc: A,
    bytes: &'a [u8],
    files: &[gm_given_file],
) -> Result<Vec<Given<'a>, A>, ResolveFailure>
    ensures given { IfOk result (λ v. AreGiven bytes.now files.now (map given_view v.items)) }
    ensures refused { IfErr result (IsFailure (PartFault bytes.now files.now)) }
{
    let mut all = Vec::new(alloc);
    for number in 0..files.len() {
        match given_at(bytes, &files[number]) {
            Ok(given) => all.push(given)?,
            Err(why) => return Err(ResolveFailure::refused(number, why)),
        }
    }
    Ok(all)
}
