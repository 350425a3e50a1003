//! Fat files that are created from files.

ghost use Rattle.std.specs.Prelude.{◌≡◌, ◌≤◌, ◌∷◌, [], List, ℕ};
ghost use Rattle.std.specs.Io.KnownBytes.{Appends};
ghost use Rattle.mach_base.specs.Answer.{ErrorMeets};
ghost use Rattle.mach_base.specs.declared.error.Error.{Error};
ghost use Rattle.mach_fat_writer.specs.Changes.{IsReplaced, IsWithout, RefusesReplace, RefusesRemove};
ghost use Rattle.mach_fat_writer.specs.Creates.{IsCreated, RefusesCreate, texts_now};
ghost use Rattle.mach_fat_writer.specs.FatTables.{form_of};
ghost use Rattle.mach_fat_writer.specs.declared.refusal.MakeRefusal.{MakeRefusal};
ghost use Rattle.mach_cli.specs.Statuses.{IsStatus};
ghost use Rattle.machfat.specs.Entry.{WasWritten};
ghost use Rattle.machfat.specs.Made.{given_text, make_line};
ghost use Rattle.machfat.specs.Refusals.{refusal_line};
ghost use Rattle.machfat.specs.Same.{AreOther};
ghost use Rattle.machfat.specs.declared.refusal.Refusal.TheVariants.{Refused};

use crate::commands::{NAME, refused, status};
use crate::new_file::{first_same, place_file};
use crate::outside::refused_entries;
use crate::permissions::NewMode;
use crate::refusal::Refusal;
use mach_cli::Escaped;
use mach_fat_writer::{FileRefusal, Form, MakeRefusal, create, remove, replace};
use std::alloc::Global;
use std::io::Write;
use std::rt::Files;

/// Writes the fat file that consists of some files.
///
/// Returns the exit status. It is 0 if the file was written. It is 1 if one of the files, the fat file or an allocation is
/// refused, and then `err` has a line that says why. It is 2 if one of the files is the target. It is 2 or 141 if the file can't
/// be written. The target is written whole, or unchanged.
pub fn run_create<R: Files, E: Write>(
    files: &R,
    alloc: Global,
    form: Form,
    names: &[&str],
    inputs: &[&[u8]],
    target: &str,
    err: &mut E,
) -> u8
    ensures status { IsStatus result }
    ensures created { result ≡ 0 → (made : List ℕ) × IsCreated (form_of form) (texts_now inputs.now) made × WasWritten R.File.contents made }
    ensures apart { result ≡ 0 → AreOther names.now target.now }
    ensures refused { result ≡ 1 → (refusal : MakeRefusal) × RefusesCreate (form_of form) (texts_now inputs.now) refusal
        × Appends (E.contents err.old) (E.contents err.new) (make_line names.now inputs.now target.now refusal) }
{
    if let Some(name) = first_same(files, names, target) {
        return one_file(name, target, err);
    }
    match create(&alloc, form, inputs) {
        Ok(made) => {
            let mode = NewMode::of_any(files, names);
            place_made(files, alloc, mode, made.as_slice(), target, err)
        }
        Err(refusal) => refuse(names, inputs, target, refusal, err),
    }
}

/// Writes a fat file in which another file replaces each entry for its cpu, and returns the exit status as `run_create` does.
/// `both` are the names of the fat file and of the other one.
pub fn run_replace<R: Files, E: Write>(
    files: &R,
    alloc: Global,
    both: &[&str],
    bytes: &[u8],
    new: &[u8],
    target: &str,
    err: &mut E,
) -> u8
    ensures status { IsStatus result }
    ensures replaced { result ≡ 0 → (made : List ℕ) × IsReplaced bytes.now new.now made × WasWritten R.File.contents made }
    ensures apart { result ≡ 0 → AreOther both.now target.now }
    ensures refused { result ≡ 1 → (refusal : MakeRefusal) × RefusesReplace bytes.now new.now refusal
        × Appends (E.contents err.old) (E.contents err.new) (make_line both.now (bytes.entry ∷ new.entry ∷ []) target.now refusal) }
{
    if let Some(name) = first_same(files, both, target) {
        return one_file(name, target, err);
    }
    match replace(&alloc, bytes, new) {
        Ok(made) => {
            let mode = NewMode::as_first(files, both);
            place_made(files, alloc, mode, made.as_slice(), target, err)
        }
        Err(refusal) => refuse(both, &[bytes, new], target, refusal, err),
    }
}

/// Writes a fat file without the entry with an index, and returns the exit status as `run_create` does. `only` has the name of
/// the fat file.
pub fn run_remove<R: Files, E: Write>(
    files: &R,
    alloc: Global,
    only: &[&str],
    bytes: &[u8],
    index: usize,
    target: &str,
    err: &mut E,
) -> u8
    ensures status { IsStatus result }
    ensures removed { result ≡ 0 → (made : List ℕ) × IsWithout bytes.now index made × WasWritten R.File.contents made }
    ensures apart { result ≡ 0 → AreOther only.now target.now }
    ensures refused { result ≡ 1 → (refusal : MakeRefusal) × RefusesRemove bytes.now index refusal
        × Appends (E.contents err.old) (E.contents err.new) (make_line only.now (bytes.entry ∷ []) target.now refusal) }
{
    if let Some(name) = first_same(files, only, target) {
        return one_file(name, target, err);
    }
    match remove(&alloc, bytes, index) {
        Ok(made) => {
            let mode = NewMode::as_first(files, only);
            place_made(files, alloc, mode, made.as_slice(), target, err)
        }
        Err(refusal) => refuse(only, &[bytes], target, refusal, err),
    }
}

// Writes a created file with some permissions, and returns the exit status.
fn place_made<R: Files, E: Write>(
    files: &R,
    alloc: Global,
    mode: NewMode,
    made: &[u8],
    target: &str,
    err: &mut E,
) -> u8
    ensures status { IsStatus result }
    ensures written { result ≡ 0 → WasWritten R.File.contents made.now }
    ensures wanting { result ≡ 1 → (e : Error) × ErrorMeets (λ f. ⊥) e
        × Appends (E.contents err.old) (E.contents err.new) (refusal_line target.now (Refused e)) }
{
    status(
        place_file(files, alloc, mode, made, target),
        target,
        target,
        err,
    )
}

// Reports a refusal of files with these names and bytes, with the name of the file that is refused or else of the target, and
// returns the status.
fn refuse<E: Write>(
    names: &[&str],
    inputs: &[&[u8]],
    target: &str,
    refusal: MakeRefusal,
    err: &mut E,
) -> u8
    ensures status { IsStatus result }
    ensures not_zero { 1 ≤ result }
    ensures reported { result ≡ 1 → Appends (E.contents err.old) (E.contents err.new) (make_line names.now inputs.now target.now refusal) }
{
    match refusal {
        MakeRefusal::OfFile(FileRefusal { file, why }) => {
            let why = refused_entries(given_bytes(inputs, file), why);
            refused(given_name(names, file), &Refusal::Entries(why), err)
        }
        MakeRefusal::OfAll(error) => refused(target, &Refusal::Refused(error), err),
    }
}

// Returns the name of a file, by its index among the given ones.
fn given_name<'a>(names: &[&'a str], index: usize) -> &'a str
    ensures { result.now ≡ given_text names.now index }
{
    match names.get(index) {
        Some(name) => name,
        None => "",
    }
}

// Returns the bytes of a file, by its index among the given ones.
fn given_bytes<'a>(inputs: &[&'a [u8]], index: usize) -> &'a [u8]
    ensures { result.now ≡ given_text inputs.now index }
{
    match inputs.get(index) {
        Some(bytes) => bytes,
        None => &[],
    }
}

/// Reports that a file that is read is the one to write, and returns the status.
pub fn one_file<E: Write>(file: &str, target: &str, err: &mut E) -> u8
    ensures { result ≡ 2 }
{
    let (file, target) = (Escaped(file), Escaped(target));
    let _ = writeln!(err, "{NAME}: {file} and {target} are one file");
    2
}
