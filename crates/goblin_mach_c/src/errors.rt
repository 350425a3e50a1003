//! Errors: a code and a text.

ghost use Rattle.std.specs.Prelude.{◌≡◌, ◌≢◌, [], Some, codes, slice_get, IsOk, OnErr, OnOk};
ghost use Rattle.mach_base.specs.Fault.{fault_of};
ghost use Rattle.mach_base.specs.Words.{words_of};
ghost use Rattle.goblin_mach_c.specs.Codes.{code_of_fault, error_text, HasShortRule, HasErrorWords, outside_entry_words};

use crate::outside::Outside;
use arrayvec::ArrayString;
use mach_base::{Error, describe};
use std::fmt::{self, Write};

/// Everything went well.
pub const GM_OK: u32 = 0;

/// The bytes break a rule of the format.
pub const GM_MALFORMED: u32 = 1;

/// The magic number is not one of those that are read.
pub const GM_BAD_MAGIC: u32 = 2;

/// A read goes past the end of the bytes.
pub const GM_SHORT: u32 = 3;

/// A count is larger than the bytes could hold.
pub const GM_TOO_MANY: u32 = 4;

/// Memory ran out.
pub const GM_NO_MEMORY: u32 = 5;

/// The array given to a call has no room for a row.
pub const GM_NO_ROWS: u32 = 6;

/// The output is larger than the room for it.
pub const GM_NO_SPACE: u32 = 7;

/// The file has no image for the cpu.
pub const GM_NO_IMAGE: u32 = 8;

/// Returns the code of an error.
pub fn code_of(error: &Error) -> u32
    ensures code { result ≡ code_of_fault (fault_of error.now) }
    ensures some { result ≢ 0 }
{
    match error {
        Error::Malformed(_) => GM_MALFORMED,
        Error::BadMagic(_) => GM_BAD_MAGIC,
        Error::Scroll(_) => GM_SHORT,
        Error::BufferTooShort(..) => GM_TOO_MANY,
        Error::Memory(_) => GM_NO_MEMORY,
    }
}

/// Why a call was refused.
#[derive(Clone, Copy)]
#[repr(C)]
pub struct gm_error {
    pub code: u32,
    /// The text, padded with zero bytes.
    pub text: [u8; 124],
}

// Returns words as a text of 124 bytes, of which the last is 0.
fn text_of(words: &[u8]) -> [u8; 124]
    ensures ended { slice_get result 123 ≡ Some 0 }
    ensures words { result ≡ error_text words.now }
{
    let end = words.len().min(123);
    let mut text = [0; 124];
    text[..end].copy_from_slice(&words[..end]);
    text
}

// Returns what was written as a text; none if it didn't fit.
fn text_if(wrote: fmt::Result, words: &ArrayString<123>) -> [u8; 124]
    ensures ended { slice_get result 123 ≡ Some 0 }
    ensures words { OnOk wrote (result ≡ error_text words.now.bytes) }
    ensures none { OnErr wrote (result ≡ error_text []) }
{
    match wrote {
        Ok(()) => text_of(words.as_str().as_bytes()),
        Err(_) => text_of(&[]),
    }
}

/// Reports an error, and returns its code.
#[cold]
#[inline(never)]
pub fn refuse(error: &Error, out: &mut gm_error) -> u32
    ensures code { result ≡ code_of_fault (fault_of error.now) }
    ensures some { result ≢ 0 }
    ensures reported { out.new.code ≡ result }
    ensures ended { slice_get out.new.text 123 ≡ Some 0 }
    ensures words { HasErrorWords (words_of error.now) out.new.text }
    ensures rule { HasShortRule error.now → out.new.text ≡ error_text (words_of error.now) }
{
    let code = code_of(error);
    let text = words_text(error);
    *out = gm_error { code, text };
    code
}

// Writes the text of an error into an empty string. That of a broken rule which fits is always written.
fn write_words(error: &Error, words: &mut ArrayString<123>) -> fmt::Result
    requires { words.old.bytes ≡ [] }
    ensures written { OnOk result (words.new.bytes ≡ words_of error.now) }
    ensures rule { HasShortRule error.now → IsOk result }
{
    match error {
        Error::Malformed(rule) => {
            words.write_str("malformed: ")?;
            words.write_str(rule)
        }
        _ => write!(words, "{}", describe(error)),
    }
}

// Returns the text of an error; none if it doesn't fit.
fn words_text(error: &Error) -> [u8; 124]
    ensures ended { slice_get result 123 ≡ Some 0 }
    ensures words { HasErrorWords (words_of error.now) result }
    ensures rule { HasShortRule error.now → result ≡ error_text (words_of error.now) }
{
    let mut words: ArrayString<123> = ArrayString::new();
    let wrote = write_words(error, &mut words);
    text_if(wrote, &words)
}

/// Reports that an array has no room for a row.
#[cold]
#[inline(never)]
pub fn refuse_no_rows(out: &mut gm_error) -> u32
    ensures code { result ≡ 6 }
    ensures reported { out.new.code ≡ 6 }
    ensures ended { slice_get out.new.text 123 ≡ Some 0 }
    ensures words { out.new.text ≡ error_text (codes "the array has room for no row") }
{
    *out = gm_error {
        code: GM_NO_ROWS,
        text: text_of(b"the array has room for no row"),
    };
    GM_NO_ROWS
}

/// Reports that there is too little room for the output.
#[cold]
#[inline(never)]
pub fn refuse_no_space(out: &mut gm_error) -> u32
    ensures code { result ≡ 7 }
    ensures reported { out.new.code ≡ 7 }
    ensures ended { slice_get out.new.text 123 ≡ Some 0 }
    ensures words { out.new.text ≡ error_text (codes "there is too little room for the file") }
{
    *out = gm_error {
        code: GM_NO_SPACE,
        text: text_of(b"there is too little room for the file"),
    };
    GM_NO_SPACE
}

/// Reports that there is too little room for a text.
#[cold]
#[inline(never)]
pub fn refuse_no_text_room(out: &mut gm_error) -> u32
    ensures code { result ≡ 7 }
    ensures reported { out.new.code ≡ 7 }
    ensures ended { slice_get out.new.text 123 ≡ Some 0 }
    ensures words { out.new.text ≡ error_text (codes "there is too little room for the text") }
{
    *out = gm_error {
        code: GM_NO_SPACE,
        text: text_of(b"there is too little room for the text"),
    };
    GM_NO_SPACE
}

/// Reports that a file has no image for a cpu.
#[cold]
#[inline(never)]
pub fn refuse_no_image(out: &mut gm_error) -> u32
    ensures code { result ≡ 8 }
    ensures reported { out.new.code ≡ 8 }
    ensures ended { slice_get out.new.text 123 ≡ Some 0 }
    ensures words { out.new.text ≡ error_text (codes "the file has no image for this cpu") }
{
    *out = gm_error {
        code: GM_NO_IMAGE,
        text: text_of(b"the file has no image for this cpu"),
    };
    GM_NO_IMAGE
}

// Writes why an entry isn't in the file into an empty string.
fn write_outside(outside: &Outside, words: &mut ArrayString<123>) -> fmt::Result
    requires { words.old.bytes ≡ [] }
    ensures { OnOk result (words.new.bytes ≡ outside_entry_words outside.now) }
{
    if outside.end > outside.len as u64 {
        write!(words, "{outside}")
    } else {
        write!(
            words,
            "the file ends in the record of entry {}",
            outside.index
        )
    }
}

// Returns the text of an entry that isn't in the file; none if it doesn't fit.
fn outside_text(outside: &Outside) -> [u8; 124]
    ensures ended { slice_get result 123 ≡ Some 0 }
    ensures words { HasErrorWords (outside_entry_words outside.now) result }
{
    let mut words: ArrayString<123> = ArrayString::new();
    let wrote = write_outside(outside, &mut words);
    text_if(wrote, &words)
}

/// Reports that an entry isn't in the file, by the code of its row.
#[cold]
#[inline(never)]
pub fn refuse_outside(code: u32, outside: &Outside, out: &mut gm_error) -> u32
    ensures code { result ≡ code }
    ensures reported { out.new.code ≡ code }
    ensures ended { slice_get out.new.text 123 ≡ Some 0 }
    ensures words { HasErrorWords (outside_entry_words outside.now) out.new.text }
{
    let text = outside_text(outside);
    *out = gm_error { code, text };
    code
}

/// Reports an earlier refusal again, by its code.
#[cold]
#[inline(never)]
pub fn refuse_again(code: u32, out: &mut gm_error) -> u32
    ensures code { result ≡ code }
    ensures reported { out.new.code ≡ code }
    ensures ended { slice_get out.new.text 123 ≡ Some 0 }
    ensures words { out.new.text ≡ error_text (codes "it was refused before") }
{
    *out = gm_error {
        code,
        text: text_of(b"it was refused before"),
    };
    code
}
