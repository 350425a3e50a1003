//! The texts of entitlements, as they are written.

ghost use Rattle.std.specs.Prelude.{◌≡◌, [], ◌∷◌, ◌++◌, ◌<◌, ◌≤◌, length, MatchOption, IfSome, Some, None, if◌then◌else◌, drop, ◌+◌};
ghost use Rattle.std.specs.Char.{encode_utf8};
ghost use Rattle.std.specs.List.{list_all, position_or_len};
ghost use Rattle.std.specs.Option.{IsSome};
ghost use Rattle.std.specs.Str.{bytes_eq, chars};
ghost use Rattle.memchr.specs.Find.{is_byte};
ghost use Rattle.mach_base.specs.Answer.{Reads};
ghost use Rattle.mach_signature.specs.EntitlementSpans.{spelled_text};
ghost use Rattle.mach_signature.specs.EntitlementTexts as defined;
ghost use Rattle.mach_signature.specs.EntitlementViews.{seen_span, spelled_left};

use crate::entitlements::digits::{Digits, number_in};
use crate::entitlements::parts::{Notation, Span};
use mach_base::{Error, Result};
use memchr::memchr;

/// Whether a name is a word.
pub fn is_word(name: &[u8], word: &str) -> bool
    ensures { result ≡ bytes_eq name.now word.now }
{
    name == word.as_bytes()
}

/// Whether bytes begin with a text.
pub fn has_front(bytes: &[u8], front: &str) -> bool
    ensures { result ≡ defined.has_front bytes.now front.now }
{
    bytes.starts_with(front.as_bytes())
}

/// Returns the bytes from a place on.
pub fn from_place(bytes: &[u8], place: usize) -> &[u8]
    ensures { result.now ≡ drop place bytes.now }
{
    bytes.get(place..).unwrap_or(&[])
}

// Whether a number is that of a character that XML allows.
fn is_xml_code(code: u64) -> bool
    ensures { result ≡ defined.is_xml_char code }
{
    code == 9
        || code == 10
        || code == 13
        || code >= 0x20 && code <= 0xd7ff
        || code >= 0xe000 && code <= 0xfffd
        || code >= 0x1_0000 && code <= 0x10_ffff
}

// Whether XML allows all characters of a text.
fn has_xml_chars(text: &str) -> bool
    ensures { result ≡ list_all defined.is_xml_char (chars text.now) }
{
    text.chars()
        .all(|character| is_xml_code(u64::from(u32::from(character))))
}

/// Whether bytes are a text in UTF-8 of characters that XML allows.
pub fn is_xml_text(bytes: &[u8]) -> bool
    ensures { result ≡ defined.is_xml_text bytes.now }
{
    match str::from_utf8(bytes) {
        Ok(text) => has_xml_chars(text),
        Err(_) => false,
    }
}

/// Returns the place of the first byte of a kind, or the number of bytes.
pub fn place_of(byte: u8, bytes: &[u8]) -> usize
    ensures place { result ≡ position_or_len (is_byte byte) bytes.now }
    ensures within { result ≤ length bytes.now }
{
    memchr(byte, bytes).unwrap_or(bytes.len())
}

// Returns the number of a reference, by what is between its `&` and its `;`.
fn reference_number(name: &[u8]) -> Result<u64>
    ensures { Reads (λ n. n) result (defined.reference_number name.now) }
{
    if has_front(name, "#x") {
        return number_in(Digits::Hexadecimal, from_place(name, 2));
    }
    if has_front(name, "#") {
        return number_in(Digits::Decimal, from_place(name, 1));
    }
    Err(Error::Malformed("an entity is unknown"))
}

// Returns the character of a number, if XML allows it.
fn xml_char(code: u64) -> Option<char>
    ensures { result ≡ (if defined.is_xml_char code then Some code else None) }
{
    if !is_xml_code(code) {
        return None;
    }
    char::from_u32(u32::try_from(code).ok()?)
}

// Returns the character of a reference after its `&`, and how many bytes there are with the `;`.
#[tactic(auto, unfolding(crate::specs::EntitlementTexts::reference_at))]
fn reference_at(bytes: &[u8]) -> Option<(char, usize)>
    ensures { result ≡ defined.reference_at bytes.now }
{
    let at = place_of(b';', bytes);
    if at >= bytes.len() {
        return None;
    }
    match reference_number(&bytes[..at]) {
        Ok(code) => Some((xml_char(code)?, at + 1)),
        Err(_) => None,
    }
}

// Returns the character of an entity or a reference after its `&`, and how many bytes its name has with the `;`.
fn entity_at(bytes: &[u8]) -> Option<(char, usize)>
    ensures { result ≡ defined.entity_at bytes.now }
{
    if has_front(bytes, "lt;") {
        return Some(('<', 3));
    }
    if has_front(bytes, "gt;") {
        return Some(('>', 3));
    }
    if has_front(bytes, "amp;") {
        return Some(('&', 4));
    }
    if has_front(bytes, "quot;") {
        return Some(('"', 5));
    }
    if has_front(bytes, "apos;") {
        return Some(('\'', 5));
    }
    reference_at(bytes)
}

// Whether a byte of a text in XML can be read, by the bytes after it.
fn is_plain_byte(byte: u8, rest: &[u8]) -> bool
    ensures { result ≡ defined.is_plain_byte byte rest.now }
{
    if byte == b'&' {
        entity_at(rest).is_some()
    } else {
        byte != b'\r'
    }
}

/// Whether a text in XML can be read.
pub fn is_plain_text(text: &[u8]) -> bool
    ensures { result ≡ defined.is_plain_text text.now }
{
    let mut left = text;
    'bytes: while let [byte, rest @ ..] = left {
        if !is_plain_byte(*byte, rest) {
            return false;
        }
        left = rest;
    }
    true
}

/// What is left of a text: the bytes of a character after the first of them, and then the rest.
#[derive(Clone, Copy)]
pub struct Spelled<'a> {
    /// The character.
    pub character: char,
    /// How many of its bytes were taken.
    pub taken: usize,
    /// The rest.
    pub text: Span<'a>,
}

/// Returns all of a text.
pub fn whole_text<'a>(text: Span<'a>) -> Spelled<'a>
    ensures { spelled_left result ≡ spelled_text (seen_span text.entry) }
{
    Spelled {
        character: '\0',
        taken: 1,
        text,
    }
}

// Returns a byte of a character in UTF-8.
fn byte_of(character: char, place: usize) -> Option<u8>
    ensures byte { MatchOption result (drop place (encode_utf8 character) ≡ [])
        (λ byte. drop place (encode_utf8 character) ≡ byte ∷ drop (place + 1) (encode_utf8 character)) }
    ensures within { IfSome result (λ byte. place < 4) }
    ensures first { place ≡ 0 → IsSome result }
{
    let mut room = [0; 4];
    character
        .encode_utf8(&mut room)
        .as_bytes()
        .get(place)
        .copied()
}

// Returns the first byte of a character, and what is left of it and of a text.
fn first_of_character<'a>(character: char, text: Span<'a>) -> (u8, Spelled<'a>)
    ensures { encode_utf8 character ++ spelled_text (seen_span text.entry) ≡ result.0 ∷ spelled_left result.1 }
{
    let byte = byte_of(character, 0).unwrap_or(0);
    let left = Spelled {
        character,
        taken: 1,
        text,
    };
    (byte, left)
}

// Returns the first byte of a text in XML that isn't empty, and what is left.
#[tactic(auto, using(crate::proofs::Unescaped::unescaped_after))]
fn first_of_xml<'a>(byte: u8, rest: &'a [u8]) -> (u8, Spelled<'a>)
    ensures { defined.without_entities 0 (byte ∷ rest.now) ≡ result.0 ∷ spelled_left result.1 }
{
    let plain = Span {
        notation: Notation::Xml,
        bytes: rest,
    };
    if byte != b'&' {
        return (byte, whole_text(plain));
    }
    match entity_at(rest) {
        Some((character, len)) => {
            let after = Span {
                notation: Notation::Xml,
                bytes: from_place(rest, len),
            };
            first_of_character(character, after)
        }
        None => (byte, whole_text(plain)),
    }
}

// Returns the first byte of a text, and what is left.
fn first_of_text<'a>(text: Span<'a>) -> Option<(u8, Spelled<'a>)>
    ensures { MatchOption result (spelled_text (seen_span text.entry) ≡ []) (λ x. spelled_text (seen_span text.entry) ≡ x.0 ∷ spelled_left x.1) }
{
    let [byte, rest @ ..] = text.bytes else {
        return None;
    };
    Some(match text.notation {
        Notation::Xml => first_of_xml(*byte, rest),
        Notation::Der => {
            let bytes = Span {
                notation: Notation::Der,
                bytes: rest,
            };
            (*byte, whole_text(bytes))
        }
    })
}

/// Returns the first byte of what is left of a text, and what is left then.
pub fn next_byte<'a>(left: Spelled<'a>) -> Option<(u8, Spelled<'a>)>
    ensures { MatchOption result (spelled_left left.entry ≡ []) (λ x. spelled_left left.entry ≡ x.0 ∷ spelled_left x.1) }
{
    match byte_of(left.character, left.taken) {
        Some(byte) => {
            let taken = left.taken + 1;
            Some((byte, Spelled { taken, ..left }))
        }
        None => first_of_text(left.text),
    }
}

/// Whether two texts are the same, however they are written.
pub fn same_text(first: Span<'_>, second: Span<'_>) -> bool
    ensures { result ≡ bytes_eq (spelled_text (seen_span first.entry)) (spelled_text (seen_span second.entry)) }
{
    let mut left = whole_text(first);
    let mut other_left = whole_text(second);
    'bytes: while let Some((byte, rest)) = next_byte(left) {
        match next_byte(other_left) {
            Some((other, others)) if byte == other => {
                left = rest;
                other_left = others;
            }
            _ => return false,
        }
    }
    next_byte(other_left).is_none()
}
