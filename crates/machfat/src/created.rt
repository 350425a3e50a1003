//! A file that is created, and then takes some bytes and no others.

ghost use Rattle.std.specs.Prelude.{IfErr, IfOk, OnOk};
ghost use Rattle.machfat.specs.Entry.{Took, as_created, as_written};
ghost use Rattle.machfat.specs.Refusals.{IsRefusal, IsWant};

use crate::permissions::NewMode;
use crate::refusal::WriteFailure;
use std::fs::OpenFile;
use std::io;
use std::io::Write;
use std::rt::Files;

/// A file as it was created. All that can be done with it is to fill it, once.
#[derive(Drop)]
pub struct NewFile<F> {
    file: F,
}

/// A file that was filled. Nothing more can be written to it.
#[derive(Drop)]
pub struct WholeFile<F> {
    file: F,
}

/// Creates a file with some permissions, if nothing has its name.
pub fn create<R: Files>(files: &R, mode: NewMode, path: &str) -> io::Result<NewFile<R::File>> {
    match mode.create(files, path) {
        Ok(file) => Ok(NewFile { file }),
        Err(error) => Err(error),
    }
}

/// Gives a new file its permissions, and writes bytes to it and nothing else.
pub fn fill<F: Write + OpenFile + Drop>(
    new: NewFile<F>,
    mode: NewMode,
    bytes: &[u8],
) -> Result<WholeFile<F>, WriteFailure>
    ensures written { IfOk result (λ whole. Took F.contents (as_created new) (as_written whole) bytes.now) }
    ensures refused { IfErr result (IsRefusal IsWant) }
{
    let NewFile { mut file } = new;
    mode.set(&file)?;
    write_synced(bytes, &mut file)?;
    Ok(WholeFile { file })
}

// Writes bytes to a file, and syncs it to the disk.
fn write_synced<F: Write + OpenFile>(bytes: &[u8], file: &mut F) -> Result<(), WriteFailure>
    ensures written { OnOk result (Took F.contents file.old file.new bytes.now) }
    ensures refused { IfErr result (IsRefusal IsWant) }
{
    file.write_all(bytes)?;
    file.flush()?;
    file.sync_all()?;
    Ok(())
}
