//! The strings of the sections of an image, as rows.

ghost use Rattle.std.specs.Prelude.{◌≡◌, ◌∷◌, ◌+◌, [], Ok, IfOk, MatchOption, map, length};
ghost use Rattle.std.specs.Iterator.{YieldsFirstBy};
ghost use Rattle.mach_base.specs.Answer.{Reads};
ghost use Rattle.mach_dyld.specs.Exports.{text_in};
ghost use Rattle.goblin_mach.specs.ImageFacts.{facts_view};
ghost use Rattle.mach_cli.specs.Fields.{field_view};
ghost use Rattle.machinfo.specs.RowFields.{fields_read};
ghost use Rattle.machinfo.specs.SectionContents as defined;
ghost use Rattle.machinfo.specs.SectionContents.{open_strings_left, located_fields, string_fields, string_row_read, string_row_view, string_rows_left};

use crate::part_fields::text_or_dash;
use goblin_mach::constants::SECTION_TYPE;
use goblin_mach::segment::{NumberedSection, ReadableSections};
use goblin_mach::{Error, MachO, Result, SectionString, StringIterator};
use mach_cli::{Field, FieldsForm, ItemList, Value, name_in_field};
use std::alloc::Allocator;
use std::io;
use std::io::Write;

// The type of a section with strings.
const S_CSTRING_LITERALS: u32 = 0x2;

/// A string of a section.
#[derive(Clone, Copy)]
pub struct StringRow<'a> {
    /// The section.
    pub section: NumberedSection,
    /// The string, with its place there.
    pub string: SectionString<'a>,
}

/// The strings that are left of a section.
#[derive(Clone, Copy)]
pub struct OpenStrings<'a> {
    pub section: NumberedSection,
    pub strings: StringIterator<'a>,
}

/// The strings of an image: those that are left of a section, and those of the sections after it.
#[derive(Clone, Copy)]
pub struct StringRows<'a, 'b> {
    pub bytes: &'a [u8],
    pub current: Option<OpenStrings<'a>>,
    pub sections: ReadableSections<'a, 'b>,
    /// Where the earlier sections with strings end in the file.
    pub end: u64,
}

// Returns the bytes of a section, if it doesn't begin before the end of the earlier ones.
fn bytes_after<'a>(end: u64, bytes: &'a [u8], section: &NumberedSection) -> Result<&'a [u8]>
    ensures { Reads (λ held. held.now) result (defined.bytes_after end bytes.now section.now.section) }
{
    if u64::from(section.section.offset) < end {
        return Err(Error::Malformed("strings overlap those of an earlier section"));
    }
    section.data_in(bytes)
}

impl<'a, 'b> StringRows<'a, 'b> {
    /// Returns the strings of an image.
    pub fn of<A: Allocator>(image: &'b MachO<'a, A>) -> Self
        ensures { string_rows_left result ≡ defined.image_strings (facts_view image.now) }
    {
        StringRows {
            bytes: image.bytes(),
            current: None,
            sections: ReadableSections::new(image.segments.as_slice()),
            end: 0,
        }
    }

    // Returns the next string of the current section.
    fn next_of_current(&mut self) -> Option<StringRow<'a>>
        ensures row { MatchOption result ((open_strings_left self.old.current ≡ []) × (open_strings_left self.new.current ≡ []))
            (λ row. open_strings_left self.old.current ≡ Ok (string_row_view row) ∷ open_strings_left self.new.current) }
        ensures bytes { self.new.bytes ≡ self.old.bytes }
        ensures sections { self.new.sections ≡ self.old.sections }
        ensures end { self.new.end ≡ self.old.end }
    {
        match &mut self.current {
            None => None,
            Some(current) => {
                let string = current.strings.next()?;
                let section = current.section;
                Some(StringRow { section, string })
            }
        }
    }

    // Returns the next string, or the error of a section.
    fn take_next(&mut self) -> Option<Result<StringRow<'a>>>
        ensures { YieldsFirstBy string_row_read string_rows_left self.old result self.new }
    {
        'sections: loop {
            if let Some(row) = self.next_of_current() {
                return Some(Ok(row));
            }
            let section = self.sections.next()?;
            if section.section.flags & SECTION_TYPE != S_CSTRING_LITERALS {
                continue;
            }
            let held = match bytes_after(self.end, self.bytes, &section) {
                Ok(held) => held,
                Err(e) => return Some(Err(e)),
            };
            self.end = u64::from(section.section.offset) + held.len() as u64;
            let strings = StringIterator::over(held);
            self.current = Some(OpenStrings { section, strings });
        }
    }
}

impl<'a, 'b> ItemList for StringRows<'a, 'b> {
    type Item = StringRow<'a>;

    ghost fields = { λ row. string_fields (string_row_view row) };

    ghost items_left = { λ s. fields_read string_fields (string_rows_left s) };

    #[tactic(auto, using(crate::proofs::ListRows::next_fields))]
    fn next_item(&mut self) -> Option<Result<StringRow<'a>>> {
        self.take_next()
    }

    fn write_item<F: FieldsForm, O: Write>(row: &StringRow<'a>, out: &mut O) -> io::Result<()> {
        let bytes = row.string.bytes;
        let address = row
            .section
            .section
            .addr
            .wrapping_add(row.string.place as u64);
        let text = [
            Field::new("hex", Value::Bytes(bytes), 3),
            Field::alone("text", Value::OptionalText(text_of(bytes))),
        ];
        F::write_both(&located_fields(address, &row.section), &text, out)
    }
}

// Returns bytes as a text, if they are UTF-8.
fn text_of(bytes: &[u8]) -> Option<&str>
    ensures { text_in result ≡ defined.text_if_utf8 bytes.now }
{
    match str::from_utf8(bytes) {
        Ok(text) => Some(text),
        Err(_) => None,
    }
}

/// Returns an address as a field, and the names of the segment and the section that hold it.
pub fn located_fields<'x>(address: u64, section: &'x NumberedSection) -> [Field<'x>; 4]
    ensures { map field_view result ≡ located_fields address section.now }
{
    let record = &section.section;
    let name = name_in_field(&record.sectname);
    let segment = name_in_field(&record.segname);
    [
        Field::new("address", Value::Hex(address), 1).wide(11),
        Field::alone("section", Value::OptionalText(name)),
        Field::of_line(Value::Text(text_or_dash(name)), 2).wide(16),
        Field::alone("segment", Value::OptionalText(segment)),
    ]
}
