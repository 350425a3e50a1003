//! Entitlements in DER.

ghost use Rattle.std.specs.Prelude.{◌≡◌};
ghost use Rattle.mach_base.specs.Answer.{Reads};
ghost use Rattle.mach_base.specs.Fault.{fault_of, malformed};
ghost use Rattle.mach_signature.specs.EntitlementViews.{front_view, plain_view, seen_span, seen_value};
ghost use Rattle.mach_signature.specs.EntitlementMarks.{dictionary_read};
ghost use Rattle.mach_signature.specs.EntitlementItems.{item_view, length_read};
ghost use Rattle.mach_signature.specs.EntitlementDer as defined;

use crate::entitlements::digits::{Digits, below_zero, number_by_form, number_in};
use crate::entitlements::parts::{
    Entry, Front, Group, Notation, NumberKind, Plain, Span, Value, nowhere,
};
use crate::entitlements::spelling::from_place;
use mach_base::{Error, Result};

/// An item: a tag, and as many bytes as its length says.
#[derive(Clone, Copy)]
pub struct Item<'a> {
    pub tag: u8,
    pub content: &'a [u8],
    /// The bytes after it.
    pub rest: &'a [u8],
}

// Returns the error of entitlements in DER that can't be read.
fn refused() -> Error
    ensures { fault_of result ≡ malformed }
{
    Error::Malformed("the entitlements in DER can't be read")
}

// Returns bytes in DER.
fn in_der<'a>(bytes: &'a [u8]) -> Span<'a>
    ensures { seen_span result ≡ defined.der_at bytes.now }
{
    Span {
        notation: Notation::Der,
        bytes,
    }
}

// Returns a length of one byte after the number of its bytes, and what follows.
fn short_length(bytes: &[u8]) -> Result<(usize, &[u8])>
    ensures { Reads length_read result (defined.short_length bytes.now) }
{
    match bytes {
        [a, rest @ ..] if *a >= 128 => Ok((usize::from(*a), rest)),
        _ => Err(refused()),
    }
}

// Returns a length of two bytes.
fn middle_length(bytes: &[u8]) -> Result<(usize, &[u8])>
    ensures { Reads length_read result (defined.middle_length bytes.now) }
{
    match bytes {
        [a, b, rest @ ..] if *a > 0 => Ok((usize::from(*a) * 256 + usize::from(*b), rest)),
        _ => Err(refused()),
    }
}

// Returns a length of three bytes.
fn long_length(bytes: &[u8]) -> Result<(usize, &[u8])>
    ensures { Reads length_read result (defined.long_length bytes.now) }
{
    match bytes {
        [a, b, c, rest @ ..] if *a > 0 => {
            let length = usize::from(*a) * 65536 + usize::from(*b) * 256 + usize::from(*c);
            Ok((length, rest))
        }
        _ => Err(refused()),
    }
}

// Returns a length by its first byte, and what follows.
fn length_by(first: u8, rest: &[u8]) -> Result<(usize, &[u8])>
    ensures { Reads length_read result (defined.length_by first rest.now) }
{
    match first {
        0..=127 => Ok((usize::from(first), rest)),
        129 => short_length(rest),
        130 => middle_length(rest),
        131 => long_length(rest),
        _ => Err(refused()),
    }
}

// Returns the item with a tag and a length.
fn item_of<'a>(tag: u8, length: usize, bytes: &'a [u8]) -> Result<Item<'a>>
    ensures { Reads item_view result (defined.item_of tag (length, bytes.now)) }
{
    if length > bytes.len() {
        return Err(refused());
    }
    Ok(Item {
        tag,
        content: &bytes[..length],
        rest: &bytes[length..],
    })
}

// Returns the first item of some bytes.
#[tactic(auto, unfolding(crate::specs::EntitlementDer::der_item_at))]
fn item_at(bytes: &[u8]) -> Result<Item<'_>>
    ensures { Reads item_view result (defined.der_item_at bytes.now) }
{
    let [tag, first, rest @ ..] = bytes else {
        return Err(refused());
    };
    let (length, rest) = length_by(*first, rest)?;
    item_of(*tag, length, rest)
}

// Returns a boolean.
fn boolean_in<'a>(content: &[u8]) -> Result<Plain<'a>>
    ensures { Reads plain_view result (defined.boolean_in content.now) }
{
    let [byte] = content else {
        return Err(refused());
    };
    match *byte {
        0 => Ok(Plain::Boolean(false)),
        255 => Ok(Plain::Boolean(true)),
        _ => Err(refused()),
    }
}

// Whether a number has the fewest bytes.
fn is_shortest(content: &[u8]) -> bool
    ensures { result ≡ defined.is_shortest content.now }
{
    match content {
        [] => false,
        [_] => true,
        [a, b, ..] => !(*a == 0 && *b < 128) && !(*a == 255 && *b >= 128),
    }
}

// Whether the first bit of a number is set, which is its sign.
fn has_sign_bit(content: &[u8]) -> bool
    ensures { result ≡ defined.has_sign_bit content.now }
{
    match content {
        [] => false,
        [a, ..] => *a >= 128,
    }
}

// Returns an integer in two's complement.
fn integer_in<'a>(content: &[u8]) -> Result<Plain<'a>>
    ensures { Reads plain_view result (defined.integer_in content.now) }
{
    if !is_shortest(content) {
        return Err(refused());
    }
    if has_sign_bit(content) {
        let number = number_in(Digits::Turned, content)?;
        return below_zero(number);
    }
    let number = number_in(Digits::Bytes, content)?;
    Ok(Plain::Number(NumberKind::Natural, number))
}

// Returns a date up to seconds, in universal time.
fn generalized_time<'a>(content: &[u8]) -> Result<Plain<'a>>
    ensures { Reads plain_view result (defined.generalized_time content.now) }
{
    let number = number_by_form("00000000000000Z", content)?;
    Ok(Plain::Number(NumberKind::Date, number))
}

// Whether a tag is that of a dictionary.
fn is_dictionary_tag(tag: u8) -> bool
    ensures { result ≡ defined.is_dictionary_tag tag }
{
    tag == 0xb0 || tag == 0x31
}

// Returns the value of an item.
#[tactic(auto, unfolding(crate::specs::EntitlementDer::item_value))]
fn item_value<'a>(item: Item<'a>) -> Result<Value<'a>>
    ensures { Reads seen_value result (defined.item_value (item_view item.entry)) }
{
    if item.tag == 1 {
        let plain = boolean_in(item.content)?;
        return Ok(Value::Plain(plain));
    }
    if item.tag == 2 {
        let plain = integer_in(item.content)?;
        return Ok(Value::Plain(plain));
    }
    if item.tag == 12 {
        return Ok(Value::Plain(Plain::Text(in_der(item.content))));
    }
    if item.tag == 24 {
        let plain = generalized_time(item.content)?;
        return Ok(Value::Plain(plain));
    }
    if item.tag == 0x30 {
        return Ok(Value::Group(Group::Array, in_der(item.content)));
    }
    if is_dictionary_tag(item.tag) {
        return Ok(Value::Group(Group::Dictionary, in_der(item.content)));
    }
    Err(refused())
}

// Returns the item of bytes that has nothing after it.
#[tactic(auto, unfolding(crate::specs::EntitlementDer::lone_item))]
fn lone_item(bytes: &[u8]) -> Result<Item<'_>>
    ensures { Reads item_view result (defined.lone_item bytes.now) }
{
    let item = item_at(bytes)?;
    if item.rest.is_empty() {
        Ok(item)
    } else {
        Err(refused())
    }
}

// Returns an item if it has a tag.
fn if_tagged<'a>(tag: u8, item: Item<'a>) -> Result<Item<'a>>
    ensures { Reads item_view result (defined.if_tagged tag (item_view item.entry)) }
{
    if item.tag == tag {
        Ok(item)
    } else {
        Err(refused())
    }
}

// Returns the first item of bytes if it has a tag.
#[tactic(auto, unfolding(crate::specs::EntitlementDer::tagged_item))]
fn tagged_item(tag: u8, bytes: &[u8]) -> Result<Item<'_>>
    ensures { Reads item_view result (defined.tagged_item tag bytes.now) }
{
    let item = item_at(bytes)?;
    if_tagged(tag, item)
}

// Returns the first value of an array.
#[tactic(auto, unfolding(crate::specs::EntitlementDer::element_at))]
fn element_at(bytes: &[u8]) -> Result<Front<'_>>
    ensures { Reads front_view result (defined.element_at bytes.now) }
{
    let item = item_at(bytes)?;
    let value = item_value(item)?;
    Ok(Front::Entry(Entry {
        key: nowhere(),
        value,
        rest: Some(in_der(item.rest)),
    }))
}

// Returns the first pair of a dictionary: a sequence of a text and a value.
#[tactic(auto, unfolding(crate::specs::EntitlementDer::pair_at))]
fn pair_at(bytes: &[u8]) -> Result<Front<'_>>
    ensures { Reads front_view result (defined.pair_at bytes.now) }
{
    let pair = tagged_item(0x30, bytes)?;
    let key = tagged_item(12, pair.content)?;
    let item = lone_item(key.rest)?;
    let value = item_value(item)?;
    Ok(Front::Entry(Entry {
        key: in_der(key.content),
        value,
        rest: Some(in_der(pair.rest)),
    }))
}

/// Returns what comes first in a group.
#[tactic(auto, unfolding(crate::specs::EntitlementDer::der_front))]
pub fn der_front(group: Group, bytes: &[u8]) -> Result<Front<'_>>
    ensures { Reads front_view result (defined.der_front group bytes.now) }
{
    if bytes.is_empty() {
        return Ok(Front::End(nowhere()));
    }
    match group {
        Group::Array => element_at(bytes),
        Group::Dictionary => pair_at(bytes),
    }
}

// Returns the dictionary after the number of the version.
fn versioned(content: &[u8]) -> Result<Item<'_>>
    ensures { Reads item_view result (defined.versioned content.now) }
{
    if !content.starts_with(&[2, 1, 1]) {
        return Err(refused());
    }
    let item = lone_item(from_place(content, 3))?;
    if_tagged(0xb0, item)
}

// Returns the outer dictionary.
#[tactic(auto, unfolding(crate::specs::EntitlementDer::outer_dictionary))]
fn outer_dictionary<'a>(item: Item<'a>) -> Result<Item<'a>>
    ensures { Reads item_view result (defined.outer_dictionary (item_view item.entry)) }
{
    if item.tag == 0x70 {
        return versioned(item.content);
    }
    if_tagged(0x31, item)
}

/// Returns the values of the outer dictionary, with what follows it: nothing.
#[tactic(auto, unfolding(crate::specs::EntitlementDer::der_start))]
pub fn der_start(bytes: &[u8]) -> Result<(Span<'_>, Option<Span<'_>>)>
    ensures { Reads dictionary_read result (defined.der_start bytes.now) }
{
    let outer = lone_item(bytes)?;
    let dictionary = outer_dictionary(outer)?;
    Ok((in_der(dictionary.content), Some(nowhere())))
}
