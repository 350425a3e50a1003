//! Requirements: conditions on code, as expressions of words of 4 bytes (`requirement.h` of Apple's Security).

ghost use Rattle.std.specs.Prelude.{◌≡◌};
ghost use Rattle.mach_base.specs.Answer.{Reads};
ghost use Rattle.mach_signature.specs.Requirements as defined;
ghost use Rattle.mach_signature.specs.RequirementViews.{bytes_read, match_read, term_read, comparison_read};

use mach_base::{BE, Error, Result, read_u32};

/// Of what a field is one.
#[derive(Clone, Copy)]
pub enum Holder {
    /// The Info.plist.
    Info,
    /// The entitlements.
    Entitlements,
    /// A certificate of the chain of who signed. Its number counts from the leaf, or with the highest numbers from the root.
    Certificate(u32),
}

/// What the key of a field is.
#[derive(Clone, Copy)]
pub enum KeyKind {
    /// A name.
    Name,
    /// The object identifier of an extension.
    Extension,
    /// The object identifier of a policy.
    Policy,
}

/// What is required of a value.
#[derive(Clone, Copy)]
pub enum Match<'a> {
    /// It is there.
    Exists,
    /// It isn't there.
    Absent,
    /// It compares with another value.
    Compared {
        /// The words before that.
        before: &'static str,
        value: &'a [u8],
        /// The words after it.
        after: &'static str,
    },
}

/// One condition.
#[derive(Clone, Copy)]
pub enum Term<'a> {
    /// One without operands, in its words.
    Words(&'static str),
    /// The code has this identifier.
    Identifier(&'a [u8]),
    /// The code has this hash.
    CodeHash(&'a [u8]),
    /// A certificate has a hash.
    CertificateHash(u32, &'a [u8]),
    /// A certificate is trusted.
    TrustedCertificate(u32),
    /// A field has such a value.
    Field {
        holder: Holder,
        kind: KeyKind,
        key: &'a [u8],
        matched: Match<'a>,
    },
}

/// What joins two expressions.
#[derive(Clone, Copy)]
pub enum Operator {
    And,
    Or,
}

// Returns `n` bytes at a place.
fn part_at(bytes: &[u8], place: usize, n: usize) -> Result<&[u8]>
    ensures { Reads (λ found. found.now) result (defined.part_at bytes.now place n) }
{
    match bytes.get(place..) {
        Some(rest) if n <= rest.len() => Ok(&rest[..n]),
        _ => Err(Error::Malformed("a requirement isn't simple")),
    }
}

// Reads data. Returns its bytes, and the place after it.
#[tactic(auto, unfolding(crate::specs::Requirements::data_at))]
fn data_at(bytes: &[u8], place: usize) -> Result<(&[u8], usize)>
    ensures { Reads bytes_read result (defined.data_at bytes.now place) }
{
    let len = read_u32(bytes, place, BE)? as usize;
    let padded = (len + 3) / 4 * 4;
    let part = part_at(bytes, place + 4, padded)?;
    Ok((&part[..len], place + 4 + padded))
}

// Returns the words before and after the value of a comparison.
fn comparison_words(code: u32) -> Result<(&'static str, &'static str)>
    ensures { Reads comparison_read result (defined.comparison_words code) }
{
    match code {
        1 => Ok((" = ", "")),
        2 => Ok((" ~ ", "")),
        3 => Ok((" = ", "*")),
        4 => Ok((" = *", "")),
        5 => Ok((" < ", "")),
        6 => Ok((" > ", "")),
        7 => Ok((" <= ", "")),
        8 => Ok((" >= ", "")),
        _ => Err(Error::Malformed("a requirement isn't simple")),
    }
}

// Reads a comparison: the words of its operation, and the value after that.
fn compared_at(bytes: &[u8], code: u32, place: usize) -> Result<(Match<'_>, usize)>
    ensures { Reads match_read result (defined.compared_by bytes.now code place) }
{
    let (before, after) = comparison_words(code)?;
    let (value, end) = data_at(bytes, place)?;
    let matched = Match::Compared {
        before,
        value,
        after,
    };
    Ok((matched, end))
}

// Reads what is required of a value.
#[tactic(auto, unfolding(crate::specs::Requirements::match_at))]
fn match_at(bytes: &[u8], place: usize) -> Result<(Match<'_>, usize)>
    ensures { Reads match_read result (defined.match_at bytes.now place) }
{
    match read_u32(bytes, place, BE)? {
        0 => Ok((Match::Exists, place + 4)),
        14 => Ok((Match::Absent, place + 4)),
        code => compared_at(bytes, code, place + 4),
    }
}

// Reads a field.
#[tactic(auto, unfolding(crate::specs::Requirements::field_at))]
fn field_at(bytes: &[u8], holder: Holder, kind: KeyKind, place: usize) -> Result<(Term<'_>, usize)>
    ensures { Reads term_read result (defined.field_at bytes.now holder kind place) }
{
    let (key, place) = data_at(bytes, place)?;
    let (matched, end) = match_at(bytes, place)?;
    let field = Term::Field {
        holder,
        kind,
        key,
        matched,
    };
    Ok((field, end))
}

// Reads a field of a certificate.
#[tactic(auto, unfolding(crate::specs::Requirements::certificate_field_at))]
fn certificate_field_at(bytes: &[u8], kind: KeyKind, place: usize) -> Result<(Term<'_>, usize)>
    ensures { Reads term_read result (defined.certificate_field_at bytes.now kind place) }
{
    let slot = read_u32(bytes, place, BE)?;
    field_at(bytes, Holder::Certificate(slot), kind, place + 4)
}

// Reads the hash of a certificate.
#[tactic(auto, unfolding(crate::specs::Requirements::certificate_hash_at))]
fn certificate_hash_at(bytes: &[u8], place: usize) -> Result<(Term<'_>, usize)>
    ensures { Reads term_read result (defined.certificate_hash_at bytes.now place) }
{
    let slot = read_u32(bytes, place, BE)?;
    let (hash, end) = data_at(bytes, place + 4)?;
    Ok((Term::CertificateHash(slot, hash), end))
}

// Returns the words of a condition without operands.
fn condition_words(code: u32) -> Result<&'static str>
    ensures { Reads (λ words. words.now) result (defined.condition_words code) }
{
    match code {
        0 => Ok("never"),
        1 => Ok("always"),
        3 => Ok("anchor apple"),
        13 => Ok("anchor trusted"),
        15 => Ok("anchor apple generic"),
        21 => Ok("notarized"),
        23 => Ok("legacy"),
        _ => Err(Error::Malformed("a requirement isn't simple")),
    }
}

// Reads a condition of an operation that has one text or one number.
#[tactic(auto, unfolding(crate::specs::Requirements::small_term_by))]
fn small_term_at(bytes: &[u8], code: u32, place: usize) -> Result<(Term<'_>, usize)>
    ensures { Reads term_read result (defined.small_term_by bytes.now code place) }
{
    match code {
        2 => {
            let (name, end) = data_at(bytes, place)?;
            Ok((Term::Identifier(name), end))
        }
        8 => {
            let (hash, end) = data_at(bytes, place)?;
            Ok((Term::CodeHash(hash), end))
        }
        12 => {
            let slot = read_u32(bytes, place, BE)?;
            Ok((Term::TrustedCertificate(slot), place + 4))
        }
        _ => {
            let words = condition_words(code)?;
            Ok((Term::Words(words), place))
        }
    }
}

// Reads a condition, by its operation.
#[tactic(auto, unfolding(crate::specs::Requirements::term_by))]
pub fn term_at(bytes: &[u8], code: u32, place: usize) -> Result<(Term<'_>, usize)>
    ensures { Reads term_read result (defined.term_by bytes.now code place) }
{
    match code {
        4 => certificate_hash_at(bytes, place),
        10 => field_at(bytes, Holder::Info, KeyKind::Name, place),
        11 => certificate_field_at(bytes, KeyKind::Name, place),
        14 => certificate_field_at(bytes, KeyKind::Extension, place),
        16 => field_at(bytes, Holder::Entitlements, KeyKind::Name, place),
        17 => certificate_field_at(bytes, KeyKind::Policy, place),
        _ => small_term_at(bytes, code, place),
    }
}

/// Whether an operation joins two operands.
pub fn is_joining(code: u32) -> bool
    ensures { result ≡ defined.is_joining code }
{
    code == 6 || code == 7
}

/// Returns how such an operation joins them.
pub fn operator_of(code: u32) -> Operator
    ensures { result ≡ defined.operator_of code }
{
    if code == 6 {
        Operator::And
    } else {
        Operator::Or
    }
}

/// Returns the place after the expression at a place, if it is simple and has at most this depth.
pub fn end_of(bytes: &[u8], depth: usize, place: usize) -> Result<usize>
    ensures { Reads (λ end. end) result (defined.end_at depth bytes.now place) }
{
    let Some(depth) = depth.checked_sub(1) else {
        return Err(Error::Malformed("a requirement isn't simple"));
    };
    match read_u32(bytes, place, BE)? {
        6 | 7 => {
            let middle = end_of(bytes, depth, place + 4)?;
            end_of(bytes, depth, middle)
        }
        9 => end_of(bytes, depth, place + 4),
        code => {
            let (_, end) = term_at(bytes, code, place + 4)?;
            Ok(end)
        }
    }
}

/// The most depth that a simple expression has.
pub const MOST_DEPTH: usize = 1000;

/// Returns the end of a whole requirement, if it is simple.
#[tactic(auto, unfolding(crate::specs::Requirements::simple_end))]
pub fn simple_end(bytes: &[u8]) -> Result<usize>
    ensures { Reads (λ end. end) result (defined.simple_end bytes.now) }
{
    let magic = read_u32(bytes, 0, BE)?;
    let kind = read_u32(bytes, 8, BE)?;
    let end = end_of(bytes, MOST_DEPTH, 12)?;
    if magic == 0xfade_0c00 && kind == 1 && end == bytes.len() {
        Ok(end)
    } else {
        Err(Error::Malformed("a requirement isn't simple"))
    }
}
