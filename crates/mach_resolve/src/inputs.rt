//! Opens the given files.

ghost use Rattle.std.specs.Prelude.{◌≡◌, ℕ, List, None, map, IfOk, IfErr, IfSome, IfNone};
ghost use Rattle.mach_base.specs.Text.{texts};
ghost use Rattle.goblin_mach.specs.Libraries.{libraries_in};
ghost use Rattle.goblin_mach.specs.OpenImage.{IsImage, bytes_view, commands_view, ctx_view};
ghost use Rattle.goblin_mach.specs.FatFile.{file_view};
ghost use Rattle.mach_resolve.specs.Failures.{IsFailure};
ghost use Rattle.mach_base.specs.declared.error.Error.TheVariants as errors;
ghost use Rattle.mach_resolve.specs.Cpu.{HasFor, HasTable, fat_table_view};
ghost use Rattle.mach_resolve.specs.Given.{IsFile, IsLibrary, only, Adds, AddsLibrary, GathersFor, reexported, may_be_absent};
ghost use Rattle.mach_resolve.specs.Given.{NumberedFault, OpenFault, LibraryFault, FaultFor};
ghost use Rattle.mach_resolve.specs.ResolveViews.{input_view, gathered_view};
ghost use Rattle.mach_resolve.specs.Opened.{given_view};

use crate::failure::ResolveFailure;
use crate::file::{File, Files};
use crate::note::Note;
use goblin_mach::header::MH_EXECUTE;
use goblin_mach::{ArchRecord, Error, FatTable, Input, MachO, laws};
use indexmap::IndexSet;
use std::alloc::{AllocError, Allocator};

/// A file as it is given.
#[derive(Clone, Copy)]
pub struct Given<'a> {
    /// Its path: its name, if it has no name of its own.
    pub path: &'a str,
    /// Its bytes.
    pub bytes: &'a [u8],
}

// Returns the libraries that an image re-exports as a whole, in order.
fn reexports_of<'a, A: Allocator + Copy>(
    alloc: A,
    image: &MachO<'a, A>,
) -> Result<Vec<&'a str, A>, AllocError>
    ensures { IfOk result (λ v. texts v.items ≡ reexported (libraries_in (ctx_view image.now).le (bytes_view image.now) (commands_view image.now))) }
{
    let mut names = Vec::new(alloc);
    'libraries: for library in image.libraries() {
        if library.attributes.is_reexport {
            names.push(library.name)?;
        }
    }
    Ok(names)
}

/// Returns whether each library of an image may be absent, by ordinal, the image itself first.
pub fn absences_of<'a, A: Allocator + Copy>(
    alloc: A,
    image: &MachO<'a, A>,
) -> Result<Vec<bool, A>, AllocError>
    ensures { IfOk result (λ v. v.items ≡ may_be_absent (libraries_in (ctx_view image.now).le (bytes_view image.now) (commands_view image.now))) }
{
    let mut absences = Vec::new(alloc);
    absences.push(false)?;
    'libraries: for library in image.libraries() {
        absences.push(library.attributes.is_weak)?;
    }
    Ok(absences)
}

// Returns the file of an opened image.
fn file_of<'a, A: Allocator + Copy>(
    alloc: A,
    number: usize,
    path: &'a str,
    image: MachO<'a, A>,
) -> Result<File<'a, A>, AllocError>
    ensures { (bytes : List ℕ) → IsImage bytes 0 image.entry → IfOk result (λ f. IsFile number (record { path = path.now; bytes = bytes }) (input_view f)) }
{
    laws::libraries_by_kind_of_image(&image);
    Ok(File {
        number,
        name: image.name.unwrap_or(path),
        is_main: image.header.filetype == MH_EXECUTE,
        reexports: reexports_of(alloc, &image)?,
        image,
    })
}

/// Returns the error of an archive: its first four bytes are no Mach-O magic.
pub fn archive_error() -> Error
    ensures { result ≡ errors.BadMagic 0x213c_6172 }
{
    Error::BadMagic(0x213c_6172)
}

// Opens the file with a number.
fn open<'a, A: Allocator + Copy>(
    alloc: A,
    number: usize,
    given: Given<'a>,
) -> Result<File<'a, A>, ResolveFailure>
    ensures opened { IfOk result (λ f. IsFile number (given_view given.entry) (input_view f)) }
    ensures refused { IfErr result (IsFailure (OpenFault number (given_view given.entry))) }
{
    match MachO::parse(alloc, given.bytes, 0) {
        Ok(image) => Ok(file_of(alloc, number, given.path, image)?),
        Err(error) => Err(ResolveFailure::refused(number, error)),
    }
}

// Opens what the fat library with a number has for a cpu: its first entry for the cpu, or nothing.
fn open_entry<'a, R: ArchRecord, A: Allocator + Copy>(
    alloc: A,
    cputype: u32,
    number: usize,
    given: Given<'a>,
    container: &FatTable<'a, R, A>,
) -> Result<Option<File<'a, A>>, ResolveFailure>
    ensures opened { HasTable given.entry.bytes.now (fat_table_view R.arch_form given.entry.bytes.now (file_view container.now))
        → IfOk result (λ o. IfSome o (λ f. IsLibrary cputype number (given_view given.entry) (input_view f))) }
    ensures none { HasTable given.entry.bytes.now (fat_table_view R.arch_form given.entry.bytes.now (file_view container.now))
        → IfOk result (λ o. IfNone o (HasFor given.entry.bytes.now cputype None)) }
    ensures refused { HasTable given.entry.bytes.now (fat_table_view R.arch_form given.entry.bytes.now (file_view container.now))
        → IfErr result (IsFailure (NumberedFault number (LibraryFault cputype (given_view given.entry)))) }
{
    let Given { path, bytes } = given;
    match container.find_cputype(cputype) {
        Ok(Some(arch)) => {
            let bytes = arch.entry_slice(bytes);
            match open(alloc, number, Given { path, bytes }) {
                Ok(file) => Ok(Some(file)),
                Err(failure) => Err(failure),
            }
        }
        Ok(None) => Ok(None),
        Err(error) => Err(ResolveFailure::refused(number, error)),
    }
}

// Opens what the library with a number has for a cpu: the image, if it is for the cpu; of a fat file the first entry for the cpu;
// or nothing.
fn open_library<'a, A: Allocator + Copy>(
    alloc: A,
    cputype: u32,
    number: usize,
    given: Given<'a>,
) -> Result<Option<File<'a, A>>, ResolveFailure>
    ensures opened { IfOk result (λ o. IfSome o (λ f. IsLibrary cputype number (given_view given.entry) (input_view f))) }
    ensures none { IfOk result (λ o. IfNone o (HasFor given.entry.bytes.now cputype None)) }
    ensures refused { IfErr result (IsFailure (NumberedFault number (LibraryFault cputype (given_view given.entry)))) }
{
    match Input::parse(alloc, given.bytes) {
        Ok(Input::Image(image)) => {
            if image.header.cputype == cputype {
                Ok(Some(file_of(alloc, number, given.path, image)?))
            } else {
                Ok(None)
            }
        }
        Ok(Input::Fat(container)) => open_entry(alloc, cputype, number, given, &container),
        Ok(Input::Fat64(container)) => open_entry(alloc, cputype, number, given, &container),
        Ok(Input::Archive(_)) => Err(ResolveFailure::refused(number, archive_error())),
        Err(error) => Err(ResolveFailure::refused(number, error)),
    }
}

/// The files that are used, in order, and notes about the others.
#[derive(Drop)]
pub struct Gathered<'a, A: Allocator> {
    pub files: Files<'a, A>,
    pub notes: Vec<Note<'a>, A>,
}

// Adds a file; if there is one with its name already, notes that instead.
fn add<'a, A: Allocator + Copy>(
    gathered: Gathered<'a, A>,
    file: File<'a, A>,
) -> Result<Gathered<'a, A>, AllocError>
    ensures { IfOk result (λ g. Adds (gathered_view gathered.entry) (input_view file.entry) (gathered_view g)) }
{
    let Gathered { files, mut notes } = gathered;
    let Files {
        mut items,
        mut names,
        ..
    } = files;
    if names.insert(file.name)? {
        items.push(file)?;
    } else {
        notes.push(Note::GivenBefore {
            library: file.number,
            name: file.name,
        })?;
    }
    let files = Files { items, names };
    Ok(Gathered { files, notes })
}

// Returns one file alone.
fn only<'a, A: Allocator + Copy>(alloc: A, file: File<'a, A>) -> Result<Gathered<'a, A>, AllocError>
    ensures { IfOk result (λ g. gathered_view g ≡ only (input_view file.entry)) }
{
    let mut names = IndexSet::new(alloc);
    let mut items = Vec::new(alloc);
    names.insert(file.name)?;
    items.push(file)?;
    Ok(Gathered {
        files: Files { items, names },
        notes: Vec::new(alloc),
    })
}

// Adds what the library with a number has for a cpu; if it has nothing, notes that.
fn add_library<'a, A: Allocator + Copy>(
    alloc: A,
    cputype: u32,
    number: usize,
    given: Given<'a>,
    gathered: Gathered<'a, A>,
) -> Result<Gathered<'a, A>, ResolveFailure>
    ensures added { IfOk result (λ g. AddsLibrary cputype number (given_view given.entry) (gathered_view gathered.entry) (gathered_view g)) }
    ensures refused { IfErr result (IsFailure (NumberedFault number (LibraryFault cputype (given_view given.entry)))) }
{
    match open_library(alloc, cputype, number, given) {
        Ok(Some(file)) => Ok(add(gathered, file)?),
        Ok(None) => {
            let Gathered { files, mut notes } = gathered;
            notes.push(Note::NothingFor {
                library: number,
                cputype,
            })?;
            Ok(Gathered { files, notes })
        }
        Err(failure) => Err(failure),
    }
}

/// Opens the program, which is an image for a cpu, and what the libraries have for the cpu, in order. Of several files with one
/// name the first is used.
pub fn gather<'a, A: Allocator + Copy>(
    alloc: A,
    cputype: u32,
    program: Given<'a>,
    libraries: &[Given<'a>],
) -> Result<Gathered<'a, A>, ResolveFailure>
    ensures gathered { IfOk result (λ g. GathersFor cputype (given_view program.entry) (map given_view libraries.now) (gathered_view g)) }
    ensures refused { IfErr result (IsFailure (FaultFor cputype (given_view program.entry) (map given_view libraries.now))) }
{
    let file = match open(alloc, 0, program) {
        Ok(file) => file,
        Err(failure) => return Err(failure),
    };
    let mut gathered = only(alloc, file)?;
    for index in 0..libraries.len() {
        gathered = match add_library(alloc, cputype, index + 1, libraries[index], gathered) {
            Ok(more) => more,
            Err(failure) => return Err(failure),
        };
    }
    Ok(gathered)
}
