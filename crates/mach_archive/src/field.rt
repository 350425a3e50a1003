//! The fields of a member's header: texts that are padded with spaces.

ghost use Rattle.std.specs.Prelude.{◌≡◌, ◌<◌, ◌≤◌, ◌^◌, length, IfSome, true};
ghost use Rattle.std.specs.List.{before_first, list_all};
ghost use Rattle.std.specs.Str.Parse.{digits_value};
ghost use Rattle.memchr.specs.Find.{is_byte};
ghost use Rattle.mach_archive.specs.Fields.{numeral, field_number, without_end, word_of};

use memchr::memchr;

/// Returns the bytes before the first that equals `end`, or all of them.
#[inline(always)]
pub(crate) fn up_to(bytes: &[u8], end: u8) -> &[u8]
    ensures run { result.now ≡ before_first (is_byte end) bytes.now }
    ensures within { length result.now ≤ length bytes.now }
{
    &bytes[..memchr(end, bytes).unwrap_or(bytes.len())]
}

/// Returns a field up to its first space.
pub(crate) fn word(field: &[u8]) -> &[u8]
    ensures word { result.now ≡ word_of field.now }
    ensures within { length result.now ≤ length field.now }
{
    up_to(field, b' ')
}

/// Returns the bytes without those at their end that equal `filler`.
pub(crate) fn trimmed(bytes: &[u8], filler: u8) -> &[u8]
    ensures front { result.now ≡ without_end (is_byte filler) bytes.now }
    ensures within { length result.now ≤ length bytes.now }
{
    let mut len = bytes.len();
    while len > 0 && bytes[len - 1] == filler {
        len -= 1;
    }
    &bytes[..len]
}

/// Returns the number of a text of at most 16 bytes. The text must be digits only, in a base of at most 10.
pub(crate) fn number_of(text: &[u8], base: u8) -> Option<u64>
    requires base { base ≤ 10 }
    requires short { length text.now ≤ 16 }
    ensures number { result ≡ numeral base text.now }
    ensures small { IfSome result (λ n. n < 10 ^ 16) }
{
    if text.is_empty() || !are_digits(text, base) {
        return None;
    }
    Some(value_of(text, base))
}

// Whether all bytes are digits in a base of at most 10.
fn are_digits(text: &[u8], base: u8) -> bool
    requires { base ≤ 10 }
    ensures { result ≡ list_all (λ c. is_digit c base) text.now }
{
    text.iter().all(|c| is_digit(*c, base))
}

// Returns the number of some digits.
fn value_of(text: &[u8], base: u8) -> u64
    requires base { base ≤ 10 }
    requires short { length text.now ≤ 16 }
    requires digits { list_all (λ c. is_digit c base) text.now ≡ true }
    ensures value { result ≡ digits_value base text.now }
    ensures small { result < 10 ^ 16 }
{
    let mut number = 0;
    for c in text {
        number = number * u64::from(base) + u64::from(*c - b'0');
    }
    number
}

/// Returns the number in a field of at most 16 bytes. Trailing spaces are ignored.
pub(crate) fn number_in(field: &[u8], base: u8) -> Option<u64>
    requires base { base ≤ 10 }
    requires short { length field.now ≤ 16 }
    ensures number { result ≡ field_number base field.now }
    ensures small { IfSome result (λ n. n < 10 ^ 16) }
{
    number_of(trimmed(field, b' '), base)
}

// Whether a byte is a digit in a base of at most 10.
#[inline(always)]
fn is_digit(c: u8, base: u8) -> bool
    requires { base ≤ 10 }
    ensures { result ≡ is_digit c base }
{
    c >= b'0' && c - b'0' < base
}

ghost use Rattle.std.specs.Char.{is_digit};
