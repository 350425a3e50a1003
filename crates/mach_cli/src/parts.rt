//! The parts of a file that are shown as files of their own.

ghost use Rattle.std.specs.Prelude.{◌≡◌, ◌∷◌, [], MatchOption};
ghost use Rattle.goblin_mach.specs.Items.{items_in};
ghost use Rattle.goblin_mach.specs.ItemsLeft.{input_item_read, input_items_left};
ghost use Rattle.mach_cli.specs.PartsOf.{images_left, images_shown, is_entry_before, itself, items_before, parts_in, parts_left, shown_items};
ghost use Rattle.mach_cli.specs.PartsOf.{parts_left_out, shown_parts, IsDivided};

pub(crate) mod name;
pub(crate) mod selection;
pub(crate) mod shown;

use crate::first_bytes::{divided, entry_counts, wide_counts};
use goblin_mach::{Content, Images, InputItem, ItemPlace};
use std::alloc::{Allocator, Global};

/// The parts of a file that are shown as files of their own, one after the other:
/// - an archive: its members;
/// - a fat file of 64 bits: its entries, and the members of an archive among them, as long as the entries have no more bytes together
///   than the file;
/// - any other file: the file itself.
///
/// It allocates nothing.
#[derive(Clone, Copy)]
pub struct Parts<'a> {
    // The file itself, if it is shown and still to come.
    itself: Option<&'a [u8]>,
    // The items of a divided file.
    images: Option<Images<'a>>,
    // How many of the first entries are shown.
    most: usize,
}

impl<'a> Parts<'a> {
    /// Returns the items of a fat file up to the first of an entry from `most` on.
    pub(crate) fn within(images: Images<'a>, most: usize) -> Parts<'a>
        ensures { parts_left result ≡ items_before most (input_items_left images.entry) }
    {
        Parts {
            itself: None,
            images: Some(images),
            most,
        }
    }

    // Returns the next item of a divided file.
    fn next_image(&mut self) -> Option<InputItem<'a>>
        ensures given { MatchOption result ((images_left self.old.images ≡ []) × (images_left self.new.images ≡ []))
            (λ item. images_left self.old.images ≡ input_item_read item ∷ images_left self.new.images) }
        ensures kept { (self.new.itself ≡ self.old.itself) × (self.new.most ≡ self.old.most) }
    {
        match &mut self.images {
            Some(images) => images.next(),
            None => None,
        }
    }

    // Returns the next item of a divided file that is shown.
    fn next_item(&mut self) -> Option<InputItem<'a>>
        ensures given { MatchOption result ((images_shown self.old ≡ []) × (images_shown self.new ≡ []))
            (λ item. images_shown self.old ≡ input_item_read item ∷ images_shown self.new) }
        ensures kept { self.new.itself ≡ self.old.itself }
    {
        let Some(item) = self.next_image() else {
            return None;
        };
        if is_entry_before(self.most, item.place.entry) {
            return Some(item);
        }
        self.images = None;
        None
    }
}

// Whether something is one of the first entries, or no entry.
fn is_entry_before(most: usize, entry: Option<usize>) -> bool
    ensures { result ≡ is_entry_before most entry }
{
    match entry {
        Some(index) => index < most,
        None => true,
    }
}

impl<'a> Iterator for Parts<'a> {
    type Item = InputItem<'a>;

    ghost use Rattle.std.specs.Iterator.{YieldsFirstBy, item_count};

    ghost next_gives = { YieldsFirstBy input_item_read parts_left };

    ghost remaining = { item_count parts_left };

    fn next(&mut self) -> Option<InputItem<'a>> {
        match self.itself {
            Some(bytes) => {
                self.itself = None;
                let place = ItemPlace {
                    entry: None,
                    cpu: None,
                    offset: 0,
                };
                Some(InputItem {
                    place,
                    content: Ok(Content::File(bytes)),
                })
            }
            None => self.next_item(),
        }
    }
}

// Returns the parts of a file up to the first of an entry from `most` on.
fn parts_before(alloc: Global, bytes: &[u8], most: usize) -> Parts<'_>
    ensures { parts_left result ≡ items_before most (parts_in bytes.now) }
{
    match divided(alloc, bytes) {
        Some(input) => Parts {
            itself: None,
            images: Some(input.images()),
            most,
        },
        None => Parts {
            itself: Some(bytes),
            images: None,
            most,
        },
    }
}

/// Returns the parts of a file that are shown.
pub fn parts_of(alloc: Global, bytes: &[u8]) -> Parts<'_>
    ensures { parts_left result ≡ shown_parts bytes.now }
{
    parts_before(alloc, bytes, wide_counts(alloc, bytes).shown)
}

/// Returns how many entries of a file aren't shown, since they overlap.
pub fn parts_left_out(alloc: Global, bytes: &[u8]) -> usize
    ensures { result ≡ parts_left_out bytes.now }
{
    wide_counts(alloc, bytes).left_out
}

/// Returns the items of an opened file that are shown: those of its first entries, and all that is no entry.
pub fn items_shown<'a, A: Allocator>(alloc: A, bytes: &[u8], images: Images<'a>) -> Parts<'a>
    ensures { input_items_left images.entry ≡ items_in bytes.now → parts_left result ≡ shown_items bytes.now }
{
    Parts::within(images, entry_counts(alloc, bytes).shown)
}
