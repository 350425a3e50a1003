//! The texts of conditions, as `csreq` prints them.

ghost use Rattle.std.specs.Prelude.{◌≡◌, Some, MatchOption};
ghost use Rattle.std.specs.List.{list_all};
ghost use Rattle.std.specs.Str.{IsUtf8};
ghost use Rattle.std.specs.Option.{option_map};
ghost use Rattle.mach_signature.specs.RequirementTexts as defined;
ghost use Rattle.mach_signature.specs.RequirementViews.{match_view, term_view};

use crate::requirements::term::{Holder, KeyKind, Match, Operator, Term};
use std::fmt;
use std::fmt::{Display, Formatter, Write};

/// How a text has quotation marks.
#[derive(Clone, Copy, Debug)]
pub enum Quotes {
    /// As they are.
    Plain,
    /// As a string of JSON has them: with a backslash before each.
    Escaped,
}

/// Bytes, two digits each.
#[derive(Clone, Copy)]
pub struct HexText<'a>(pub &'a [u8]);

impl Display for HexText<'_> {
    ghost output = { λ t. Some (defined.hexadecimal_text t.0.now) };

    fn fmt<W: Write>(&self, f: &mut Formatter<W>) -> fmt::Result {
        'bytes: for byte in self.0 {
            write!(f, "{byte:02x}")?;
        }
        Ok(())
    }
}

// A quotation mark, which a string of JSON escapes.
fn quote(quotes: Quotes) -> &'static str
    ensures { result.now ≡ defined.quote quotes }
{
    match quotes {
        Quotes::Plain => "\"",
        Quotes::Escaped => "\\\"",
    }
}

// Whether a byte is shown between quotation marks.
fn is_quotable(byte: u8) -> bool
    ensures { result ≡ defined.is_quotable byte }
{
    0x20 <= byte && byte <= 0x7e && byte != b'"' && byte != b'\\'
}

// Whether all bytes are shown between quotation marks.
fn are_plain(bytes: &[u8]) -> bool
    ensures { result ≡ list_all defined.is_quotable bytes.now }
{
    bytes.iter().all(|byte| is_quotable(*byte))
}

// Returns bytes as a text, if they are UTF-8.
fn text_of(bytes: &[u8]) -> Option<&str>
    ensures { MatchOption result (¬ (IsUtf8 bytes.now)) (λ text. text.now ≡ bytes.now) }
{
    match str::from_utf8(bytes) {
        Ok(text) => Some(text),
        Err(_) => None,
    }
}

// Returns bytes as a text, if they may be between quotation marks.
#[tactic(auto, using(crate::proofs::Plain::plain_found))]
fn plain_text(bytes: &[u8]) -> Option<&str>
    ensures { option_map (λ text. text.now) result ≡ defined.plain_text bytes.now }
{
    if !are_plain(bytes) {
        return None;
    }
    text_of(bytes)
}

// A value: between quotation marks, or in hexadecimal digits.
#[derive(Clone, Copy)]
struct ValueText<'a> {
    quotes: Quotes,
    bytes: &'a [u8],
}

impl Display for ValueText<'_> {
    ghost output = { λ t. Some (defined.quoted_text t.quotes t.bytes.now) };

    fn fmt<W: Write>(&self, f: &mut Formatter<W>) -> fmt::Result {
        let Some(text) = plain_text(self.bytes) else {
            let digits = HexText(self.bytes);
            return write!(f, "0x{digits}");
        };
        let quote = quote(self.quotes);
        write!(f, "{quote}{text}{quote}")
    }
}

// A hash.
#[derive(Clone, Copy)]
struct HashText<'a> {
    quotes: Quotes,
    bytes: &'a [u8],
}

impl Display for HashText<'_> {
    ghost output = { λ t. Some (defined.hash_text t.quotes t.bytes.now) };

    fn fmt<W: Write>(&self, f: &mut Formatter<W>) -> fmt::Result {
        let (quote, digits) = (quote(self.quotes), HexText(self.bytes));
        write!(f, "H{quote}{digits}{quote}")
    }
}

// The number of a certificate.
#[derive(Clone, Copy)]
struct SlotText(u32);

impl Display for SlotText {
    ghost output = { λ t. Some (defined.slot_text t.0) };

    fn fmt<W: Write>(&self, f: &mut Formatter<W>) -> fmt::Result {
        match self.0 {
            0 => f.write_str("leaf"),
            0xffff_ffff => f.write_str("root"),
            slot if slot < 0x8000_0000 => write!(f, "{slot}"),
            slot => {
                let below = u32::MAX - slot + 1;
                write!(f, "-{below}")
            }
        }
    }
}

// Whether a byte may be in a key without quotation marks: a letter, a digit or a dot.
fn is_of_key(byte: u8) -> bool
    ensures { result ≡ defined.is_of_key byte }
{
    byte == b'.' || is_digit(byte) || is_letter(byte)
}

// Whether a byte is a digit.
fn is_digit(byte: u8) -> bool
    ensures { result ≡ defined.is_digit byte }
{
    b'0' <= byte && byte <= b'9'
}

// Whether a byte is a letter.
fn is_letter(byte: u8) -> bool
    ensures { result ≡ defined.is_letter byte }
{
    b'A' <= byte && byte <= b'Z' || b'a' <= byte && byte <= b'z'
}

// Whether all bytes are so.
fn are_of_key(bytes: &[u8]) -> bool
    ensures { result ≡ list_all defined.is_of_key bytes.now }
{
    bytes.iter().all(|byte| is_of_key(*byte))
}

// Returns a key that needs no quotation marks.
fn simple_key(bytes: &[u8]) -> Option<&str>
    ensures { option_map (λ text. text.now) result ≡ defined.simple_key bytes.now }
{
    if bytes.is_empty() {
        return None;
    }
    if !are_of_key(bytes) {
        return None;
    }
    plain_text(bytes)
}

// The name of a field.
#[derive(Clone, Copy)]
struct NameText<'a> {
    quotes: Quotes,
    bytes: &'a [u8],
}

impl Display for NameText<'_> {
    ghost output = { λ t. Some (defined.name_key_text t.quotes t.bytes.now) };

    fn fmt<W: Write>(&self, f: &mut Formatter<W>) -> fmt::Result {
        let Some(text) = simple_key(self.bytes) else {
            let value = ValueText {
                quotes: self.quotes,
                bytes: self.bytes,
            };
            return write!(f, "{value}");
        };
        f.write_str(text)
    }
}

// Whether a byte is a number of an object identifier alone.
fn is_one_byte(byte: u8) -> bool
    ensures { result ≡ defined.is_one_byte byte }
{
    byte < 128
}

// Whether all bytes are so.
fn are_alone(bytes: &[u8]) -> bool
    ensures { result ≡ list_all defined.is_one_byte bytes.now }
{
    bytes.iter().all(|byte| is_one_byte(*byte))
}

// The bytes of 1.2.840.113635.100, below which Apple's identifiers are.
const APPLE_ARC: [u8; 7] = [0x2a, 0x86, 0x48, 0x86, 0xf7, 0x63, 0x64];

// Returns what follows these bytes, if each number there is a byte.
fn below_apple(bytes: &[u8]) -> Option<&[u8]>
    ensures { option_map (λ rest. rest.now) result ≡ defined.below_apple bytes.now }
{
    if bytes.len() < 7 {
        return None;
    }
    let (front, rest) = bytes.split_at(7);
    if front == APPLE_ARC.as_slice() && are_alone(rest) {
        Some(rest)
    } else {
        None
    }
}

// Numbers of a byte each, with a dot before each.
#[derive(Clone, Copy)]
struct DottedText<'a>(&'a [u8]);

impl Display for DottedText<'_> {
    ghost output = { λ t. Some (defined.dotted_text t.0.now) };

    fn fmt<W: Write>(&self, f: &mut Formatter<W>) -> fmt::Result {
        'bytes: for byte in self.0 {
            write!(f, ".{byte}")?;
        }
        Ok(())
    }
}

// An object identifier.
#[derive(Clone, Copy)]
struct OidText<'a>(&'a [u8]);

impl Display for OidText<'_> {
    ghost output = { λ t. Some (defined.oid_text t.0.now) };

    fn fmt<W: Write>(&self, f: &mut Formatter<W>) -> fmt::Result {
        let Some(rest) = below_apple(self.0) else {
            let digits = HexText(self.0);
            return write!(f, "0x{digits}");
        };
        let dotted = DottedText(rest);
        write!(f, "1.2.840.113635.100{dotted}")
    }
}

// A key.
#[derive(Clone, Copy)]
struct KeyText<'a> {
    quotes: Quotes,
    kind: KeyKind,
    bytes: &'a [u8],
}

impl Display for KeyText<'_> {
    ghost output = { λ t. Some (defined.field_key_text t.quotes t.kind t.bytes.now) };

    fn fmt<W: Write>(&self, f: &mut Formatter<W>) -> fmt::Result {
        let identifier = OidText(self.bytes);
        match self.kind {
            KeyKind::Name => {
                let name = NameText {
                    quotes: self.quotes,
                    bytes: self.bytes,
                };
                write!(f, "{name}")
            }
            KeyKind::Extension => write!(f, "field.{identifier}"),
            KeyKind::Policy => write!(f, "policy.{identifier}"),
        }
    }
}

// Of what a field is one.
#[derive(Clone, Copy)]
struct HolderText(Holder);

impl Display for HolderText {
    ghost output = { λ t. Some (defined.field_holder_text t.0) };

    fn fmt<W: Write>(&self, f: &mut Formatter<W>) -> fmt::Result {
        match self.0 {
            Holder::Info => f.write_str("info"),
            Holder::Entitlements => f.write_str("entitlement"),
            Holder::Certificate(slot) => {
                let slot = SlotText(slot);
                write!(f, "certificate {slot}")
            }
        }
    }
}

// What is required of a value.
#[derive(Clone, Copy)]
struct MatchText<'a> {
    quotes: Quotes,
    matched: Match<'a>,
}

impl Display for MatchText<'_> {
    ghost output = { λ t. Some (defined.match_text t.quotes (match_view t.matched)) };

    fn fmt<W: Write>(&self, f: &mut Formatter<W>) -> fmt::Result {
        match self.matched {
            Match::Exists => f.write_str(" exists"),
            Match::Absent => f.write_str(" absent"),
            Match::Compared {
                before,
                value,
                after,
            } => {
                let value = ValueText {
                    quotes: self.quotes,
                    bytes: value,
                };
                write!(f, "{before}{value}{after}")
            }
        }
    }
}

/// A condition, with such quotation marks.
#[derive(Clone, Copy)]
pub struct TermText<'a> {
    pub quotes: Quotes,
    pub term: Term<'a>,
}

impl Display for TermText<'_> {
    ghost output = { λ t. Some (defined.term_text t.quotes (term_view t.term)) };

    fn fmt<W: Write>(&self, f: &mut Formatter<W>) -> fmt::Result {
        let quotes = self.quotes;
        match self.term {
            Term::Words(words) => f.write_str(words),
            Term::Identifier(bytes) => {
                let name = ValueText { quotes, bytes };
                write!(f, "identifier {name}")
            }
            Term::CodeHash(bytes) => {
                let hash = HashText { quotes, bytes };
                write!(f, "cdhash {hash}")
            }
            Term::CertificateHash(slot, bytes) => {
                let (slot, hash) = (SlotText(slot), HashText { quotes, bytes });
                write!(f, "certificate {slot} = {hash}")
            }
            Term::TrustedCertificate(slot) => {
                let slot = SlotText(slot);
                write!(f, "certificate {slot} trusted")
            }
            Term::Field {
                holder,
                kind,
                key,
                matched,
            } => {
                let holder = HolderText(holder);
                let key = KeyText {
                    quotes,
                    kind,
                    bytes: key,
                };
                let matched = MatchText { quotes, matched };
                write!(f, "{holder}[{key}]{matched}")
            }
        }
    }
}

/// Returns the word between two operands.
pub fn operator_words(operator: Operator) -> &'static str
    ensures { result.now ≡ defined.operator_words operator }
{
    match operator {
        Operator::And => " and ",
        Operator::Or => " or ",
    }
}

/// Whether joined operands are between brackets: as the operand of `!`, and an `or` as that of an `and`.
pub fn needs_brackets(around: Option<Operator>, operator: Operator) -> bool
    ensures { result ≡ defined.needs_brackets around operator }
{
    match (around, operator) {
        (None, _) => true,
        (Some(Operator::And), Operator::Or) => true,
        (Some(Operator::And), Operator::And) => false,
        (Some(Operator::Or), _) => false,
    }
}
