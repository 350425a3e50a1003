//! Writes bytes as a file of their own.

ghost use Rattle.std.specs.Prelude.{◌≡◌, Option, MatchOption, IfOk, IfErr};
ghost use Rattle.machfat.specs.Entry.{Took, TookInAll, as_created, as_written};
ghost use Rattle.machfat.specs.Refusals.{IsRefusal, IsWant};
ghost use Rattle.machfat.specs.Same.{is_one_file, is_one_node, AreOther, IsSame};

use crate::created::{NewFile, WholeFile, create, fill};
use crate::permissions::NewMode;
use crate::refusal::WriteFailure;
use std::alloc::Global;
use std::io::ErrorKind;
use std::os::unix::fs::MetadataExt;
use std::rt::Files;
use std::{fs, io};

// How many names are tried for a temporary file.
const NAMES: usize = 100;

/// How the system identifies a file: the number of its device, and its inode there.
#[derive(Clone, Copy)]
pub struct Node {
    dev: u64,
    ino: u64,
}

/// Whether two paths lead to one file: exactly if they are one text, or the system knows them as one file.
pub fn is_same_file<R: Files>(files: &R, one: &str, other: &str) -> bool
    ensures { (here : Option Node) × (there : Option Node) × (result ≡ is_one_file one.now other.now here there) }
{
    let here = node_of(files, one);
    let there = node_of(files, other);
    is_one_file(one, other, here, there)
}

/// Returns the first of some paths that leads to the file of another, if there is one.
pub fn first_same<'a, R: Files>(files: &R, paths: &[&'a str], other: &str) -> Option<&'a str>
    ensures { MatchOption result (AreOther paths.now other.now) (λ path. IsSame path.now other.now) }
{
    'paths: for path in paths {
        if is_same_file(files, path, other) {
            return Some(path);
        }
    }
    None
}

// Returns how the system identifies the file of a path, if it does.
fn node_of<R: Files>(files: &R, path: &str) -> Option<Node> {
    match fs::metadata(files, path) {
        Ok(there) => Some(Node {
            dev: there.dev(),
            ino: there.ino(),
        }),
        Err(_) => None,
    }
}

// Whether two paths are one text, or lead to one file.
fn is_one_file(one: &str, other: &str, here: Option<Node>, there: Option<Node>) -> bool
    ensures { result ≡ is_one_file one.now other.now here there }
{
    one == other || is_one_node(here, there)
}

// Whether both are there, and are the same.
fn is_one_node(here: Option<Node>, there: Option<Node>) -> bool
    ensures { result ≡ is_one_node here there }
{
    match (here, there) {
        (Some(here), Some(there)) => here.dev == there.dev && here.ino == there.ino,
        _ => false,
    }
}

/// Writes bytes under another name beside the target, with some permissions, and renames that file once it is whole. Returns the
/// file.
///
/// Until then the target is unchanged. If a step fails, it stays unchanged and nothing is left beside it. Nothing is written if
/// something other than a plain file has the target's name.
pub fn place_file<R: Files>(
    files: &R,
    alloc: Global,
    mode: NewMode,
    bytes: &[u8],
    target: &str,
) -> Result<WholeFile<R::File>, WriteFailure>
    ensures written { IfOk result (λ whole. TookInAll R.File.contents whole bytes.now) }
    ensures refused { IfErr result (IsRefusal IsWant) }
{
    if !is_free(files, target) {
        return Err(taken());
    }
    let (name, new) = new_file(files, alloc, mode, target)?;
    match complete(files, mode, bytes, new, name.as_str(), target) {
        Ok(whole) => Ok(whole),
        Err(failure) => {
            let _ = fs::remove_file(files, name.as_str());
            Err(failure)
        }
    }
}

// Whether a file may take this name: nothing has it, or a plain file.
fn is_free<R: Files>(files: &R, path: &str) -> bool {
    match fs::symlink_metadata(files, path) {
        Ok(there) => there.is_file(),
        Err(error) => error.kind() == ErrorKind::NotFound,
    }
}

// Creates a file with some permissions, and a new name beside a path.
fn new_file<R: Files>(
    files: &R,
    alloc: Global,
    mode: NewMode,
    path: &str,
) -> Result<(String, NewFile<R::File>), WriteFailure>
    ensures { IfErr result (IsRefusal IsWant) }
{
    for number in 0..NAMES {
        let name = format!(in alloc; "{path}.{number}.part")?;
        match create(files, mode, name.as_str()) {
            Ok(new) => return Ok((name, new)),
            Err(error) if error.kind() == ErrorKind::AlreadyExists => {}
            Err(error) => return Err(WriteFailure::Unwritten(error)),
        }
    }
    Err(taken())
}

// Returns the failure if a name is taken.
fn taken() -> WriteFailure
    ensures { IsRefusal IsWant result }
{
    WriteFailure::Unwritten(io::Error::from(ErrorKind::AlreadyExists))
}

// Gives a new file its permissions, writes bytes to it, and nothing else, and gives it the name of the target. Returns the file.
fn complete<R: Files>(
    files: &R,
    mode: NewMode,
    bytes: &[u8],
    new: NewFile<R::File>,
    name: &str,
    target: &str,
) -> Result<WholeFile<R::File>, WriteFailure>
    ensures written { IfOk result (λ whole. Took R.File.contents (as_created new) (as_written whole) bytes.now) }
    ensures refused { IfErr result (IsRefusal IsWant) }
{
    let whole = fill(new, mode, bytes)?;
    fs::rename(files, name, target)?;
    Ok(whole)
}
