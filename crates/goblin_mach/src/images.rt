//! The images and other items in a file, one after the other.

ghost use Rattle.std.specs.Prelude.{◌≡◌, ◌∷◌, ◌++◌, ◌/◌, [], ℕ, List, Ok, Err, None, MatchOption, length, nat_le, true, false};
ghost use Rattle.mach_archive.specs.ArchiveViews.{archive_of, member_read};
ghost use Rattle.goblin_mach.specs.FatFile.{file_view};
ghost use Rattle.goblin_mach.specs.Inputs.{IsInput};
ghost use Rattle.mach_base.specs.Fault.{fault_of};
ghost use Rattle.goblin_mach.specs.Items.{items_in, item_at, member_content, items_of_archive, items_of_whole};
ghost use Rattle.goblin_mach.specs.ItemsLeft.{input_item_read, input_items_left, items_of_started, items_of_table, entries_items, whole_items};

use crate::fat_file::table::FatTable;
use crate::input::{Input, begins_archive};
use crate::item::{Content, EntryCpu, InputItem, ItemPlace};
use mach_archive::{Archive, Member, Members};
use mach_base::{Error, Result};
use mach_parts::fat::FatArch;
use mach_parts::{ArchRecord, FatArch64, has_room_for, read_arch};
use std::alloc::Allocator;

// The entries of a fat file from an index on.
#[derive(Clone, Copy)]
struct Table<'a> {
    bytes: &'a [u8],
    index: usize,
    narches: usize,
}

// The rest of a file, apart from the members of the current archive.
#[derive(Clone, Copy)]
enum Entries<'a> {
    None,
    Image(&'a [u8]),
    Archive(Archive<'a>),
    Narrow(Table<'a>),
    Wide(Table<'a>),
    // A fat file with more entries than its bytes could hold.
    TooMany(usize),
}

// The bytes of a file or of an entry, or the archive that they are.
#[derive(Drop)]
enum Whole<'a> {
    Bytes(&'a [u8]),
    Archive(Archive<'a>),
    Refused(Error),
}

/// An iterator over the items in a file. It allocates nothing. An entry of a fat file is one item; if it is an archive, each
/// member is an item. It goes on to the end of the file: what can't be read is an item with the error. In an archive such an
/// item is the last one.
#[derive(Clone, Copy)]
pub struct Images<'a> {
    entries: Entries<'a>,
    // The place of the archive whose members are left.
    place: ItemPlace,
    members: Option<Members<'a>>,
}

// The place of a whole file.
const ALONE: ItemPlace = ItemPlace {
    entry: None,
    cpu: None,
    offset: 0,
};

impl<'a> Images<'a> {
    // Returns the items of a file, from the first on.
    fn of(entries: Entries<'a>) -> Images<'a>
        ensures { input_items_left result ≡ entries_items entries.entry }
    {
        Images {
            entries,
            place: ALONE,
            members: None,
        }
    }

    // Returns the next member of the current archive.
    fn next_member(&mut self) -> Option<InputItem<'a>>
        ensures given { MatchOption result (items_of_started self.old ≡ []) (λ item. items_of_started self.old
            ≡ input_item_read item ∷ items_of_started self.new) }
        ensures kept { self.new.entries ≡ self.old.entries }
    {
        match &mut self.members {
            Some(members) => Some(member_item(self.place, members.next()?)),
            None => None,
        }
    }

    // Returns the first item at a place, and keeps the members after it.
    fn begin(&mut self, place: ItemPlace, whole: Whole<'a>) -> InputItem<'a>
        requires { self.old.members ≡ None }
        ensures given { whole_items place whole.entry ≡ input_item_read result ∷ items_of_started self.new }
        ensures kept { self.new.entries ≡ self.old.entries }
    {
        match whole {
            Whole::Refused(error) => refused(place, error),
            Whole::Archive(archive) => self.begin_archive(place, archive),
            Whole::Bytes(bytes) => self.begin_bytes(place, bytes),
        }
    }

    // Returns the first item of bytes that are not a fat file.
    fn begin_bytes(&mut self, place: ItemPlace, bytes: &'a [u8]) -> InputItem<'a>
        requires { self.old.members ≡ None }
        ensures given { items_of_whole place bytes.now ≡ input_item_read result ∷ items_of_started self.new }
        ensures kept { self.new.entries ≡ self.old.entries }
    {
        if !begins_archive(bytes) {
            return InputItem {
                place,
                content: Ok(Content::File(bytes)),
            };
        }
        match Archive::parse(bytes) {
            Ok(archive) => self.begin_archive(place, archive),
            Err(error) => refused(place, error),
        }
    }

    // Returns the first item of an archive.
    fn begin_archive(&mut self, place: ItemPlace, archive: Archive<'a>) -> InputItem<'a>
        ensures given { items_of_archive place (Ok (archive_of archive.entry)) ≡ input_item_read result ∷ items_of_started self.new }
        ensures kept { self.new.entries ≡ self.old.entries }
    {
        let mut members = archive.members();
        let first = members.next();
        self.place = place;
        self.members = Some(members);
        match first {
            Some(member) => member_item(place, member),
            None => InputItem {
                place,
                content: Ok(Content::NoMember),
            },
        }
    }
}

// Returns the item for what can't be read.
fn refused<'a>(place: ItemPlace, error: Error) -> InputItem<'a>
    ensures { input_item_read result ≡ item_at place (Err (fault_of error)) }
{
    InputItem {
        place,
        content: Err(error),
    }
}

// Returns the item of a member of the archive at a place.
fn member_item<'a>(place: ItemPlace, member: Result<Member<'a>>) -> InputItem<'a>
    ensures { input_item_read result ≡ item_at place (member_content (member_read member.entry)) }
{
    InputItem {
        place,
        content: match member {
            Ok(member) => Ok(Content::Member(member)),
            Err(error) => Err(error),
        },
    }
}

impl<'a> Table<'a> {
    // Returns the next entry, with its place.
    fn next<R: ArchRecord>(&mut self) -> Option<(ItemPlace, Whole<'a>)>
        ensures { MatchOption result ((items_of_table R.arch_form self.old ≡ []) × (items_of_table R.arch_form self.new ≡ []))
            (λ found. items_of_table R.arch_form self.old ≡ whole_items found.0 found.1 ++ items_of_table R.arch_form self.new) }
    {
        if self.index >= self.narches {
            return None;
        }
        let index = self.index;
        self.index += 1;
        match read_arch::<R>(self.bytes, index) {
            Ok(arch) => {
                let place = ItemPlace {
                    entry: Some(index),
                    cpu: Some(EntryCpu {
                        cputype: arch.entry_cpu(),
                        cpusubtype: arch.entry_cpu_kind(),
                    }),
                    offset: arch.entry_offset(),
                };
                Some((place, Whole::Bytes(arch.entry_slice(self.bytes))))
            }
            Err(error) => {
                let place = ItemPlace {
                    entry: Some(index),
                    cpu: None,
                    offset: 0,
                };
                Some((place, Whole::Refused(error)))
            }
        }
    }
}

impl<'a> Entries<'a> {
    // Returns the next part, with its place.
    fn next(&mut self) -> Option<(ItemPlace, Whole<'a>)>
        ensures { MatchOption result ((entries_items self.old ≡ []) × (entries_items self.new ≡ []))
            (λ found. entries_items self.old ≡ whole_items found.0 found.1 ++ entries_items self.new) }
    {
        match self {
            Entries::None => None,
            Entries::Narrow(table) => table.next::<FatArch>(),
            Entries::Wide(table) => table.next::<FatArch64>(),
            Entries::Image(bytes) => {
                let whole = Whole::Bytes(bytes);
                *self = Entries::None;
                Some((ALONE, whole))
            }
            Entries::Archive(archive) => {
                let whole = Whole::Archive(*archive);
                *self = Entries::None;
                Some((ALONE, whole))
            }
            Entries::TooMany(count) => {
                let whole = Whole::Refused(Error::BufferTooShort(*count, "arches"));
                *self = Entries::None;
                Some((ALONE, whole))
            }
        }
    }
}

// Returns the entries of a fat file; None if there are more than its bytes could hold.
fn table_of<'a, R: ArchRecord, A: Allocator>(file: &FatTable<'a, R, A>) -> Option<Table<'a>>
    ensures { let f = file_view file.now in MatchOption result (nat_le f.narches (length f.bytes / R.arch_form.stride) ≡ false)
        (λ table. (nat_le f.narches (length f.bytes / R.arch_form.stride) ≡ true)
        × (table.bytes.now ≡ f.bytes) × (table.index ≡ 0) × (table.narches ≡ f.narches)) }
{
    if has_room_for::<R>(file.bytes(), file.narches) {
        Some(Table {
            bytes: file.bytes(),
            index: 0,
            narches: file.narches,
        })
    } else {
        None
    }
}

impl<'a, A: Allocator> Input<'a, A> {
    /// Returns the items in the file, one after the other.
    pub fn images(&self) -> Images<'a>
        ensures { (bytes : List ℕ) → IsInput bytes self.now → input_items_left result ≡ items_in bytes }
    {
        Images::of(match self {
            Input::Image(image) => Entries::Image(image.bytes()),
            Input::Archive(archive) => Entries::Archive(*archive),
            Input::Fat(file) => match table_of(file) {
                Some(table) => Entries::Narrow(table),
                None => Entries::TooMany(file.narches),
            },
            Input::Fat64(file) => match table_of(file) {
                Some(table) => Entries::Wide(table),
                None => Entries::TooMany(file.narches),
            },
        })
    }
}

impl<'a> Iterator for Images<'a> {
    type Item = InputItem<'a>;

    ghost use Rattle.std.specs.Iterator.{YieldsFirstBy, item_count};

    ghost next_gives = { YieldsFirstBy input_item_read input_items_left };

    ghost remaining = { item_count input_items_left };

    fn next(&mut self) -> Option<InputItem<'a>> {
        if let Some(item) = self.next_member() {
            return Some(item);
        }
        self.members = None;
        let (place, whole) = self.entries.next()?;
        Some(self.begin(place, whole))
    }
}
