//! The permissions of a file that is written.

ghost use Rattle.std.specs.Prelude.{◌≡◌};
ghost use Rattle.machfat.specs.Permissions.{is_executable, mode_of_any, mode_as};

use std::fs::{OpenFile, OpenOptions, Permissions};
use std::os::unix::fs::{MetadataExt, OpenOptionsExt, PermissionsExt};
use std::rt::Files;
use std::{fs, io};

// The name of the standard input, which is no file.
const STANDARD_INPUT: &str = "-";

/// The permission bits of a file that is written.
#[derive(Clone, Copy)]
pub enum NewMode {
    /// These bits, less those of the process's umask.
    Created(u32),
    /// These bits.
    Exactly(u32),
}

impl NewMode {
    /// Returns the permissions of a file that is made of some files: it is executable if one of them is.
    pub fn of_any<R: Files>(files: &R, names: &[&str]) -> NewMode {
        let mut any = false;
        for name in names {
            any |= is_executable(mode_of(files, name));
        }
        NewMode::of_executable(any)
    }

    /// Returns the permissions of a file that is made of one: those that it has.
    pub fn as_file<R: Files>(files: &R, name: &str) -> NewMode {
        NewMode::as_mode(mode_of(files, name))
    }

    /// Returns the permissions of a file that is made of the first of some files: those that it has.
    pub fn as_first<R: Files>(files: &R, names: &[&str]) -> NewMode {
        match names.first() {
            Some(name) => NewMode::as_file(files, name),
            None => NewMode::as_mode(None),
        }
    }

    // Returns the permissions of an executable, or of another file.
    fn of_executable(is_executable: bool) -> NewMode
        ensures { result ≡ mode_of_any is_executable }
    {
        if is_executable {
            NewMode::Created(0o777)
        } else {
            NewMode::Created(0o666)
        }
    }

    // Returns the permissions of a file like one that has these, if they are known: without the bits that change the user.
    fn as_mode(mode: Option<u32>) -> NewMode
        ensures { result ≡ mode_as mode }
    {
        match mode {
            Some(mode) => NewMode::Exactly(mode & 0o777),
            None => NewMode::Created(0o666),
        }
    }

    /// Creates a file with these permissions, if nothing has its name.
    pub fn create<R: Files>(self, files: &R, path: &str) -> io::Result<R::File> {
        let (NewMode::Created(bits) | NewMode::Exactly(bits)) = self;
        let mut options = OpenOptions::new();
        options.write(true).create_new(true).mode(bits);
        options.open(files, path)
    }

    /// Gives a created file these permissions.
    pub fn set<F: OpenFile>(self, file: &F) -> io::Result<()> {
        match self {
            NewMode::Created(_) => Ok(()),
            NewMode::Exactly(bits) => file.set_permissions(Permissions::from_mode(bits)),
        }
    }
}

// Whether anybody may execute a file with this mode, if it is known.
fn is_executable(mode: Option<u32>) -> bool
    ensures { result ≡ is_executable mode }
{
    match mode {
        Some(mode) => mode & 0o111 != 0,
        None => false,
    }
}

// Returns the mode of a plain file, if there is one.
fn mode_of<R: Files>(files: &R, path: &str) -> Option<u32> {
    if path == STANDARD_INPUT {
        return None;
    }
    match fs::metadata(files, path) {
        Ok(there) if there.is_file() => Some(there.mode()),
        _ => None,
    }
}
