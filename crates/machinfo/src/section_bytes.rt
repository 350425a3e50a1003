//! The bytes of a section of an image, as rows of 16.

ghost use Rattle.std.specs.Prelude.{◌≡◌, ◌≤◌, drop, length, map, take, OnOk};
ghost use Rattle.std.specs.Io.KnownBytes.{Appends};
ghost use Rattle.std.specs.Iterator.{YieldsFirstBy};
ghost use Rattle.mach_base.specs.Answer.{Reads};
ghost use Rattle.goblin_mach.specs.ImageFacts.{facts_view};
ghost use Rattle.mach_cli.specs.Fields.{field_view};
ghost use Rattle.machinfo.specs.RowFields.{fields_read};
ghost use Rattle.machinfo.specs.SectionBytes as defined;
ghost use Rattle.machinfo.specs.SectionBytes.{byte_row_fields, byte_row_read, byte_row_view, byte_rows_left, listed_bytes, name_of_16};

use goblin_mach::segment::{NumberedSection, ReadableSections};
use goblin_mach::{Error, MachO, Result};
use mach_cli::{Field, FieldsForm, ItemList, Value};
use std::alloc::Allocator;
use std::io;
use std::io::Write;

/// The names of a section: its segment's and its own, padded with zeros as a section has them.
#[derive(Clone, Copy, PartialEq)]
pub struct SectionName {
    pub segment: [u8; 16],
    pub section: [u8; 16],
}

/// Up to 16 bytes, and the address of the first.
#[derive(Clone, Copy)]
pub struct ByteRow<'a> {
    pub address: u64,
    pub bytes: &'a [u8],
}

/// The bytes of a section from row `index` on, or why there are none.
#[derive(Drop)]
pub struct ByteRows<'a> {
    pub refusal: Option<Error>,
    pub address: u64,
    pub held: &'a [u8],
    pub index: usize,
}

/// Returns a name padded with zeros, if it has 16 bytes at most.
pub fn padded(name: &str) -> Option<[u8; 16]>
    ensures { result ≡ name_of_16 name.now }
{
    let bytes = name.as_bytes();
    let mut field = [0; 16];
    if bytes.len() > field.len() {
        return None;
    }
    field[..bytes.len()].copy_from_slice(bytes);
    Some(field)
}

impl SectionName {
    // Whether a section has these names of its own.
    fn is_of(&self, found: &NumberedSection) -> bool
        ensures { result ≡ defined.has_both_names self.now found.now }
    {
        found.section.segname == self.segment && found.section.sectname == self.section
    }
}

// Returns the first section with these names.
fn section_with<A: Allocator>(image: &MachO<'_, A>, name: &SectionName) -> Option<NumberedSection>
    ensures { result ≡ defined.section_so_named name.now (facts_view image.now) }
{
    'sections: for found in ReadableSections::new(image.segments.as_slice()) {
        if name.is_of(&found) {
            return Some(found);
        }
    }
    None
}

/// Returns the bytes of the first section with these names, and the address of the first byte.
pub fn held_by<'a, A: Allocator>(
    image: &MachO<'a, A>,
    name: &SectionName,
) -> Result<(u64, &'a [u8])>
    ensures { Reads (λ found. (found.0, found.1.now)) result (defined.bytes_held name.now (facts_view image.now)) }
{
    let Some(section) = section_with(image, name) else {
        return Err(Error::Malformed("no section has these names"));
    };
    Ok((section.section.addr, image.section_data(&section)?))
}

// Returns 16 bytes from a place on, or those that there are.
fn row_at(held: &[u8], place: usize) -> &[u8]
    requires { place ≤ length held.now }
    ensures { result.now ≡ take 16 (drop place held.now) }
{
    let rest = &held[place..];
    &rest[..rest.len().min(16)]
}

impl<'a> ByteRows<'a> {
    /// Returns the bytes of the first section with these names.
    pub fn of<A: Allocator>(image: &MachO<'a, A>, name: &SectionName) -> Self
        ensures { byte_rows_left result ≡ listed_bytes (defined.bytes_held name.now (facts_view image.now)) }
    {
        let (refusal, address, held): (Option<Error>, u64, &'a [u8]) = match held_by(image, name) {
            Ok((address, held)) => (None, address, held),
            Err(e) => (Some(e), 0, &[]),
        };
        ByteRows {
            refusal,
            address,
            held,
            index: 0,
        }
    }

    // Returns the next row, or why there are none.
    fn take_next(&mut self) -> Option<Result<ByteRow<'a>>>
        ensures { YieldsFirstBy byte_row_read byte_rows_left self.old result self.new }
    {
        if let Some(error) = self.refusal.take() {
            return Some(Err(error));
        }
        if self.index >= self.held.len().div_ceil(16) {
            return None;
        }
        let place = self.index * 16;
        self.index += 1;
        let bytes = row_at(self.held, place);
        let address = self.address.wrapping_add(place as u64);
        Some(Ok(ByteRow { address, bytes }))
    }
}

impl<'a> ItemList for ByteRows<'a> {
    type Item = ByteRow<'a>;

    ghost fields = { λ row. byte_row_fields (byte_row_view row) };

    ghost items_left = { λ s. fields_read byte_row_fields (byte_rows_left s) };

    #[tactic(auto, using(crate::proofs::ListRows::next_fields))]
    fn next_item(&mut self) -> Option<Result<ByteRow<'a>>> {
        self.take_next()
    }

    fn write_item<F: FieldsForm, O: Write>(row: &ByteRow<'a>, out: &mut O) -> io::Result<()>
        ensures { OnOk result (Appends (O.contents out.old) (O.contents out.new) (F.fields_text (byte_row_fields (byte_row_view row.now)))) }
    {
        F::write(&byte_row_fields(*row), out)
    }
}

// Returns the address of a row, its bytes, and these as a text.
fn byte_row_fields<'a>(row: ByteRow<'a>) -> [Field<'a>; 3]
    ensures { map field_view result ≡ byte_row_fields (byte_row_view row.entry) }
{
    [
        Field::new("address", Value::Hex(row.address), 1).wide(11),
        Field::new("hex", Value::Digits(row.bytes), 2).wide(32),
        Field::of_line(Value::Bytes(row.bytes), 3),
    ]
}
