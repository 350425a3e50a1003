//! The two forms of fat files: their tables have numbers of 32 or of 64 bits.

ghost use Rattle.std.specs.Prelude.{◌≡◌, ◌<◌, ◌^◌, Ok, MatchResult, option_map};
ghost use Rattle.mach_base.specs.Answer.{Reads, Gives};
ghost use Rattle.mach_base.specs.Record.{size};
ghost use Rattle.mach_fat_writer.specs.Entries.{entry_views};
ghost use Rattle.mach_fat_writer.specs.FatWrites.{fat_file_of, RefusesFat};
ghost use Rattle.mach_fat_writer.specs.Changes.{fat_form_in};
ghost use Rattle.mach_fat_writer.specs.FatTables.{form_of, form_in, fat_record_in, fat_table_in};
ghost use Rattle.mach_fat_writer.specs.Unfit.{AnswersAs};

use crate::entry::FatEntry;
use crate::entry_record::EntryRecord;
use crate::refusal::EntryRefusal;
use crate::write::{write_fat, write_fat64};
use mach_base::{Error, Result};
use mach_parts::fat::{FAT_MAGIC, FatArch, FatHeader, SIZEOF_FAT_ARCH, SIZEOF_FAT_HEADER};
use mach_parts::magic::{parse_magic_and_ctx, peek};
use mach_parts::{FAT_MAGIC_64, FatArch64, SIZEOF_FAT_ARCH_64};
use std::alloc::Allocator;

/// How many bits the offsets and lengths in a fat file's table have.
#[derive(Clone, Copy, Debug, PartialEq)]
pub enum Form {
    /// 32 bits.
    Bits32,
    /// 64 bits.
    Bits64,
}

impl Form {
    /// Returns the form of a fat file, by its magic; none if the bytes are no fat file.
    pub fn of(bytes: &[u8]) -> Option<Form>
        ensures { option_map form_of result ≡ form_in bytes.now }
    {
        match peek(bytes, 0) {
            Ok(FAT_MAGIC) => Some(Form::Bits32),
            Ok(FAT_MAGIC_64) => Some(Form::Bits64),
            _ => None,
        }
    }

    /// Returns the form of a fat file. Other bytes are refused as one image, or as `BadMagic` with their first four bytes.
    pub fn of_fat(bytes: &[u8]) -> std::result::Result<Form, EntryRefusal>
        ensures { AnswersAs form_of result (fat_form_in bytes.now) }
    {
        if let Some(form) = Form::of(bytes) {
            return Ok(form);
        }
        match parse_magic_and_ctx(bytes, 0)? {
            (_, Some(_)) => Err(EntryRefusal::NotFat),
            (magic, None) => Err(EntryRefusal::Unread(Error::BadMagic(u64::from(magic)))),
        }
    }

    // Returns how many bytes a record has.
    fn record_size(self) -> usize
        ensures { result ≡ size (form_of self).fields }
    {
        match self {
            Form::Bits32 => SIZEOF_FAT_ARCH,
            Form::Bits64 => SIZEOF_FAT_ARCH_64,
        }
    }

    // Returns the record at an index.
    fn record_at(self, bytes: &[u8], index: usize) -> Result<EntryRecord>
        requires { index < 2 ^ 32 }
        ensures { Reads (λ r. r) result (fat_record_in (form_of self) bytes.now index) }
    {
        let place = SIZEOF_FAT_HEADER + self.record_size() * index;
        match self {
            Form::Bits32 => Ok(EntryRecord::of_32(FatArch::parse(bytes, place)?)),
            Form::Bits64 => Ok(EntryRecord::of_64(FatArch64::parse(bytes, place)?)),
        }
    }

    /// Returns the records of a fat file of this form, in order. A count of more records than the bytes could hold is
    /// `BufferTooShort`. Else the error is that of the first record that isn't there.
    pub fn records<A: Allocator>(self, alloc: A, bytes: &[u8]) -> Result<Vec<EntryRecord, A>>
        ensures { Gives (λ records. records.items) result (fat_table_in (form_of self) bytes.now) }
    {
        let header = FatHeader::parse(bytes)?;
        let count = header.nfat_arch as usize;
        if count > bytes.len() / self.record_size() {
            return Err(Error::BufferTooShort(count, "arches"));
        }
        let mut records = Vec::with_capacity(alloc, count)?;
        for index in 0..count {
            records.push(self.record_at(bytes, index)?)?;
        }
        Ok(records)
    }

    /// Writes a fat file of this form with the given entries, in their order.
    pub fn write<A: Allocator>(self, alloc: A, entries: &[FatEntry<'_>]) -> Result<Vec<u8, A>>
        ensures { MatchResult result (λ file. fat_file_of (form_of self) (entry_views entries.now) ≡ Ok file.items)
            (λ e. RefusesFat e (fat_file_of (form_of self) (entry_views entries.now))) }
    {
        match self {
            Form::Bits32 => write_fat(alloc, entries),
            Form::Bits64 => write_fat64(alloc, entries),
        }
    }
}
