//! A fat file as a whole.

ghost use Rattle.std.specs.Prelude.{◌≡◌, ◌<◌, ◌^◌, length};
ghost use Rattle.mach_base.specs.Answer.{Reads};
ghost use Rattle.goblin_mach.specs.FatFile.{fat_file_in, archs_in, IsAbout, file_view, archs_left_in};
ghost use Rattle.goblin_mach.specs.FatEntry.{OpensEntry, arch_entry_in};

use crate::fat_file::arches::ArchIterator;
use crate::fat_file::entry::SingleArch;
use mach_base::{ByteCount, Error, Result};
use mach_parts::fat::{FatArch, FatHeader};
use mach_parts::{ArchRecord, FatArch64, has_room_for, read_arch};
use std::alloc::{AllocError, Allocator, Global};
use std::fmt;
use std::fmt::{Debug, Formatter, Write};
use std::marker::PhantomData;

/// A fat file with records of type `R`: images and archives for several cpus.
#[derive(Drop)]
pub struct FatTable<'a, R, A: Allocator = Global> {
    /// The number of entries that the header states.
    pub narches: usize,
    bytes: &'a [u8],
    alloc: A,
    rows: PhantomData<R>,
}

/// A fat file: images and archives for several cpus (`mach-o/fat.h`).
pub type MultiArch<'a, A = Global> = FatTable<'a, FatArch, A>;

/// A fat file of 64 bits: like `MultiArch`, but offsets and sizes have 64 bits.
pub type MultiArch64<'a, A = Global> = FatTable<'a, FatArch64, A>;

// Reads the record of an entry. An error is converted to another type.
fn about<R: ArchRecord, E: From<Error>>(bytes: &[u8], index: usize) -> std::result::Result<R, E>
    ensures { IsAbout R.arch_form E.from_gives bytes.now index result }
{
    Ok(read_arch::<R>(bytes, index)?)
}

impl<'a, R: ArchRecord, A: Allocator> FatTable<'a, R, A> {
    /// Returns the fat file in these bytes, which must be at least 8. Its magic is not tested. It keeps the allocator for
    /// the images that it opens.
    pub fn new(alloc: A, bytes: &'a [u8]) -> Result<FatTable<'a, R, A>>
        ensures { Reads file_view result (fat_file_in bytes.now) }
    {
        let header = FatHeader::parse(bytes)?;
        Ok(FatTable {
            narches: header.nfat_arch as usize,
            bytes,
            alloc,
            rows: PhantomData,
        })
    }

    /// Returns the bytes of the file.
    pub fn bytes(&self) -> &'a [u8]
        ensures { result.now ≡ (file_view self.now).bytes }
    {
        self.bytes
    }

    /// Returns the records of all entries in order, each one or its error.
    pub fn iter_arches(&self) -> ArchIterator<'a, R>
        ensures items { archs_left_in R.arch_form result ≡ archs_in R.arch_form (file_view self.now) }
        ensures bounded { length (archs_left_in R.arch_form result) < 2 ^ 64 }
    {
        ArchIterator::new(self.bytes, self.narches)
    }

    ghost use Rattle.goblin_mach.specs.FatFile.{first_arch_of_cpu};

    /// Finds the first record of a cpu. Returns None if there is none, or the error of an unreadable record before it.
    pub fn find_cputype(&self, cputype: u32) -> Result<Option<R>>
        ensures { Reads (λ found. found) result (first_arch_of_cpu R.arch_form cputype (archs_in R.arch_form (file_view self.now))) }
    {
        'arches: for arch in self.iter_arches() {
            let arch = arch?;
            if arch.entry_cpu() == cputype {
                return Ok(Some(arch));
            }
        }
        Ok(None)
    }
}

impl<'a, R: ArchRecord, A: Allocator + Clone> FatTable<'a, R, A> {
    /// Opens the entry at an index. An image is opened strictly. The error is `Malformed` if there is no such entry, or if
    /// it is neither an archive nor an image.
    pub fn get(&self, index: usize) -> Result<SingleArch<'a, A>>
        ensures { OpensEntry (arch_entry_in R.arch_form (file_view self.now) index) result }
    {
        if index >= self.narches {
            return Err(Error::Malformed("no entry has this index"));
        }
        let arch = read_arch::<R>(self.bytes, index)?;
        SingleArch::open(&self.alloc, arch.entry_slice(self.bytes))
    }

    ghost use Rattle.std.specs.Prelude.{IfSome, IfNone, ℕ};
    ghost use Rattle.goblin_mach.specs.FatFile.{IsFirstTaken, NoneTaken, MaySelect, arch_table_in};

    /// Opens the first entry for which `f` returns true. `f` is given each record, or the error of reading it, in order.
    /// Returns None if there is none. The closure states the type of that error, an `Error` or one that is made from it, as
    /// in `|found: Result<FatArch>| ..`.
    pub fn find<E: From<Error> + Drop, F: Fn(std::result::Result<R, E>) -> bool>(
        &self,
        f: F,
    ) -> Option<Result<SingleArch<'a, A>>>
        requires { MaySelect R.arch_form E.from_gives (F.pre f) (file_view self.now) }
        ensures found { IfSome result (λ answer. (i : ℕ) × IsFirstTaken R.arch_form E.from_gives (F.post f) (file_view self.now) i
            × OpensEntry (arch_entry_in R.arch_form (file_view self.now) i) answer) }
        ensures none { IfNone result (NoneTaken R.arch_form E.from_gives (F.post f) (file_view self.now)) }
    {
        'entries: for index in 0..self.narches {
            if f(about::<R, E>(self.bytes, index)) {
                return Some(self.get(index));
            }
        }
        None
    }

    ghost use Rattle.mach_base.specs.Answer.{Gives};

    /// Returns the records of all entries, in order. The error is `BufferTooShort` if there are more entries than the bytes
    /// could hold, else that of the first unreadable record.
    pub fn arches(&self) -> Result<Vec<R, A>>
        ensures { Gives (λ v. v.items) result (arch_table_in R.arch_form (file_view self.now)) }
    {
        if !has_room_for::<R>(self.bytes, self.narches) {
            return Err(Error::BufferTooShort(self.narches, "arches"));
        }
        let mut arches = Vec::new(self.alloc.clone()?);
        'arches: for arch in self.iter_arches() {
            arches.push(arch?)?;
        }
        Ok(arches)
    }
}

impl<'a, 'b, R: ArchRecord, A: Allocator + Clone> IntoIterator for &'b FatTable<'a, R, A> {
    type Item = Result<SingleArch<'a, A>>;

    type IntoIter = EntryIterator<'a, 'b, R, A>;

    ghost use Rattle.goblin_mach.specs.FatEntry.{entries_in, entries_left_in};

    ghost into_iter_gives = { λ file it. entries_left_in R.arch_form it ≡ entries_in R.arch_form (file_view file.now) };

    fn into_iter(self) -> EntryIterator<'a, 'b, R, A> {
        EntryIterator {
            file: self,
            index: 0,
        }
    }
}

/// An iterator over the entries of a fat file, each opened as by `get`. If memory runs out, that error is an item like any
/// other, and the next item is the next entry.
#[derive(Drop)]
pub struct EntryIterator<'a, 'b, R, A: Allocator = Global> {
    file: &'b FatTable<'a, R, A>,
    index: usize,
}

/// The entries of a fat file.
pub type SingleArchIterator<'a, 'b, A = Global> = EntryIterator<'a, 'b, FatArch, A>;

/// The entries of a fat file of 64 bits.
pub type SingleArch64Iterator<'a, 'b, A = Global> = EntryIterator<'a, 'b, FatArch64, A>;

impl<'a, 'b, R: ArchRecord, A: Allocator + Clone> Iterator for EntryIterator<'a, 'b, R, A> {
    type Item = Result<SingleArch<'a, A>>;

    ghost use Rattle.std.specs.Prelude.{Some, IfSome};
    ghost use Rattle.std.specs.Iterator.{UpTo, item_count};
    ghost use Rattle.std.specs.Iterator.SizeHint.{IsWithinCount};
    ghost use Rattle.goblin_mach.specs.FatEntry.{entries_left_in, GivesEntry};

    ghost next_gives = { GivesEntry R.arch_form };

    ghost remaining = { item_count (entries_left_in R.arch_form) };

    fn next(&mut self) -> Option<Result<SingleArch<'a, A>>> {
        if self.index >= self.file.narches {
            return None;
        }
        let item = self.file.get(self.index);
        self.index += 1;
        Some(item)
    }

    /// Returns the exact number of entries left.
    fn size_hint(&self) -> (usize, Option<usize>)
        ensures lower { IsWithinCount result.0 (item_count (entries_left_in R.arch_form) self.now) }
        ensures upper { IfSome result.1 (UpTo (item_count (entries_left_in R.arch_form) self.now)) }
        ensures exact { result ≡ (length (entries_left_in R.arch_form self.now), Some (length (entries_left_in R.arch_form self.now))) }
    {
        let left = self.len();
        (left, Some(left))
    }
}

impl<'a, 'b, R: ArchRecord, A: Allocator + Clone> ExactSizeIterator
    for EntryIterator<'a, 'b, R, A> {
    /// Returns the number of entries left.
    fn len(&self) -> usize {
        self.file.narches.saturating_sub(self.index)
    }
}

impl<'a, 'b, R, A: Allocator> Clone for EntryIterator<'a, 'b, R, A> {
    ghost is_clone = { λ it copy. copy ≡ it };

    ghost is_infallible = { λ _. Unit {0} };

    /// Returns an iterator over the same entries. It allocates nothing.
    fn clone(&self) -> std::result::Result<Self, AllocError> {
        Ok(EntryIterator {
            file: self.file,
            index: self.index,
        })
    }
}

impl<'a, R, A: Allocator> FatTable<'a, R, A> {
    // Formats it under a name.
    fn fmt_as<W: Write>(&self, name: &'static str, f: &mut Formatter<W>) -> fmt::Result {
        f.debug_struct(name)
            .field("narches", &self.narches)
            .field("bytes", &ByteCount(self.bytes))
            .finish()
    }
}

impl<'a, A: Allocator> Debug for FatTable<'a, FatArch, A> {
    /// Formats the number of its entries and, of the bytes, only their number.
    fn fmt<W: Write>(&self, f: &mut Formatter<W>) -> fmt::Result {
        self.fmt_as("MultiArch", f)
    }
}

impl<'a, A: Allocator> Debug for FatTable<'a, FatArch64, A> {
    /// Formats the number of its entries and, of the bytes, only their number.
    fn fmt<W: Write>(&self, f: &mut Formatter<W>) -> fmt::Result {
        self.fmt_as("MultiArch64", f)
    }
}
