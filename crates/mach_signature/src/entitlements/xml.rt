//! Entitlements in XML: a property list.

ghost use Rattle.std.specs.Prelude.{◌≡◌, ◌≤◌, length};
ghost use Rattle.std.specs.List.{position_or_len};
ghost use Rattle.memchr.specs.Find.{is_byte};
ghost use Rattle.mach_base.specs.Answer.{Reads};
ghost use Rattle.mach_signature.specs.EntitlementViews.{cut_read, plain_view, seen_span, seen_value, front_view};
ghost use Rattle.mach_signature.specs.EntitlementMarks.{mark_view, mark_read, element_text_read, value_read, dictionary_read};
ghost use Rattle.mach_signature.specs.EntitlementXml as defined;
ghost use Rattle.mach_base.specs.Fault.{fault_of, malformed};
ghost use Rattle.std.specs.Option.{option_map};

use crate::entitlements::digits::{Digits, minus, number_by_form, number_in};
use crate::entitlements::parts::{
    Entry, Front, Group, Notation, NumberKind, Plain, Span, Value, nowhere,
};
use crate::entitlements::spelling::{
    from_place, has_front, is_plain_text, is_word, is_xml_text, place_of,
};
use mach_base::{Error, Result};

/// There are no more comments than this between two tags, and no more steps to a value.
pub const MOST_STEPS: usize = 2000;

/// The first element of some bytes.
#[derive(Clone, Copy)]
pub enum Mark<'a> {
    Key(Span<'a>),
    Plain(Plain<'a>),
    /// The start of a group.
    Opening(Group),
    /// A group without values.
    Empty(Group),
    /// The end of a group.
    Closing(Group),
}

// Returns the error of entitlements in XML that can't be read.
fn refused() -> Error
    ensures { fault_of result ≡ malformed }
{
    Error::Malformed("the entitlements in XML can't be read")
}

// Returns bytes in XML.
fn in_xml<'a>(bytes: &'a [u8]) -> Span<'a>
    ensures { seen_span result ≡ defined.xml_at bytes.now }
{
    Span {
        notation: Notation::Xml,
        bytes,
    }
}

// Whether a byte is white space.
fn is_blank(byte: u8) -> bool
    ensures { result ≡ defined.is_xml_space byte }
{
    byte == b' ' || byte == b'\t' || byte == b'\n' || byte == b'\r'
}

// Returns what follows white space.
fn after_blanks(bytes: &[u8]) -> &[u8]
    ensures { result.now ≡ defined.after_blanks bytes.now }
{
    let mut left = bytes;
    'bytes: while let [byte, rest @ ..] = left {
        if !is_blank(*byte) {
            return left;
        }
        left = rest;
    }
    left
}

// Returns what follows a comment, after the first `--` in it.
fn comment_end(bytes: &[u8]) -> Result<&[u8]>
    ensures { Reads (λ rest. rest.now) result (defined.comment_end bytes.now) }
{
    if has_front(bytes, ">") {
        Ok(from_place(bytes, 1))
    } else {
        Err(refused())
    }
}

// Returns what follows a comment, after its `<!--`.
fn after_comment(bytes: &[u8]) -> Result<&[u8]>
    ensures { Reads (λ rest. rest.now) result (defined.after_comment bytes.now) }
{
    let mut left = bytes;
    'bytes: while let [byte, rest @ ..] = left {
        if *byte == b'-' && has_front(rest, "-") {
            return comment_end(from_place(rest, 1));
        }
        left = rest;
    }
    Err(refused())
}

// Returns what follows white space and comments, fewer than so many.
fn after_gap(most: usize, bytes: &[u8]) -> Result<&[u8]>
    ensures { Reads (λ rest. rest.now) result (defined.after_gap most bytes.now) }
{
    let Some(fewer) = most.checked_sub(1) else {
        return Err(refused());
    };
    let rest = after_blanks(bytes);
    if has_front(rest, "<!--") {
        let following = after_comment(from_place(rest, 4))?;
        return after_gap(fewer, following);
    }
    Ok(rest)
}

// Returns what is before and after the first byte of a kind.
#[tactic(auto, unfolding(crate::specs::EntitlementXml::cut_at))]
fn cut_at(byte: u8, bytes: &[u8]) -> Result<(&[u8], &[u8])>
    ensures { Reads cut_read result (defined.cut_at byte bytes.now) }
{
    let at = place_of(byte, bytes);
    if at < bytes.len() {
        Ok((&bytes[..at], &bytes[at + 1..]))
    } else {
        Err(refused())
    }
}

// Returns what a tag has between `<` and the first `>`, and what follows.
#[tactic(auto, unfolding(crate::specs::EntitlementXml::tag_at))]
fn tag_at(bytes: &[u8]) -> Result<(&[u8], &[u8])>
    ensures { Reads cut_read result (defined.tag_at bytes.now) }
{
    if has_front(bytes, "<") {
        cut_at(b'>', from_place(bytes, 1))
    } else {
        Err(refused())
    }
}

// Returns what an element has up to its closing tag, and what follows.
#[tactic(auto, unfolding(crate::specs::EntitlementXml::content_at))]
fn content_at<'a>(closing: &str, bytes: &'a [u8]) -> Result<(&'a [u8], &'a [u8])>
    ensures { Reads cut_read result (defined.content_at closing.now bytes.now) }
{
    let (content, rest) = cut_at(b'<', bytes)?;
    if has_front(rest, closing) {
        Ok((content, from_place(rest, closing.len())))
    } else {
        Err(refused())
    }
}

// Returns the text of an element, and what follows.
#[tactic(auto, unfolding(crate::specs::EntitlementXml::element_text_at))]
fn text_at<'a>(closing: &str, bytes: &'a [u8]) -> Result<(Span<'a>, &'a [u8])>
    ensures { Reads element_text_read result (defined.element_text_at closing.now bytes.now) }
{
    let (text, rest) = content_at(closing, bytes)?;
    if is_plain_text(text) {
        Ok((in_xml(text), rest))
    } else {
        Err(refused())
    }
}

// Returns the integer of an element: decimal digits, and before them a minus sign if it is negative.
#[tactic(auto, unfolding(crate::specs::EntitlementXml::decimal_in))]
fn decimal_in<'a>(content: &[u8]) -> Result<Plain<'a>>
    ensures { Reads plain_view result (defined.decimal_in content.now) }
{
    if has_front(content, "-") {
        let number = number_in(Digits::Decimal, from_place(content, 1))?;
        return minus(number);
    }
    let number = number_in(Digits::Decimal, content)?;
    Ok(Plain::Number(NumberKind::Natural, number))
}

// Returns the date of an element, up to seconds.
fn date_in<'a>(content: &[u8]) -> Result<Plain<'a>>
    ensures { Reads plain_view result (defined.date_in content.now) }
{
    let number = number_by_form("0000-00-00T00:00:00Z", content)?;
    Ok(Plain::Number(NumberKind::Date, number))
}

// Whether a name is a word, or the same with a space before its `/`.
fn is_named(name: &[u8], word: &str, spaced: &str) -> bool
    ensures { result ≡ defined.is_tag_named name.now word.now spaced.now }
{
    is_word(name, word) || is_word(name, spaced)
}

// Returns the mark of a tag without content.
fn lone_mark<'a>(name: &[u8]) -> Result<Mark<'a>>
    ensures { Reads mark_view result (defined.lone_mark name.now) }
{
    if is_named(name, "true/", "true /") {
        return Ok(Mark::Plain(Plain::Boolean(true)));
    }
    if is_named(name, "false/", "false /") {
        return Ok(Mark::Plain(Plain::Boolean(false)));
    }
    if is_named(name, "string/", "string /") {
        return Ok(Mark::Plain(Plain::Text(in_xml(&[]))));
    }
    if is_named(name, "array/", "array /") {
        return Ok(Mark::Empty(Group::Array));
    }
    if is_named(name, "dict/", "dict /") {
        return Ok(Mark::Empty(Group::Dictionary));
    }
    group_mark(name)
}

// Returns the mark of a tag at the start or the end of a group.
fn group_mark<'a>(name: &[u8]) -> Result<Mark<'a>>
    ensures { Reads mark_view result (defined.group_mark name.now) }
{
    if is_word(name, "array") {
        return Ok(Mark::Opening(Group::Array));
    }
    if is_word(name, "dict") {
        return Ok(Mark::Opening(Group::Dictionary));
    }
    if is_word(name, "/array") {
        return Ok(Mark::Closing(Group::Array));
    }
    if is_word(name, "/dict") {
        return Ok(Mark::Closing(Group::Dictionary));
    }
    Err(refused())
}

// Returns the mark of a tag whose content is no text, and what follows its element.
#[tactic(auto, unfolding(crate::specs::EntitlementXml::content_mark))]
fn content_mark<'a>(name: &[u8], rest: &'a [u8]) -> Result<(Mark<'a>, &'a [u8])>
    ensures { Reads mark_read result (defined.content_mark name.now rest.now) }
{
    if is_word(name, "integer") {
        let (content, rest) = content_at("/integer>", rest)?;
        let number = decimal_in(content)?;
        return Ok((Mark::Plain(number), rest));
    }
    if is_word(name, "date") {
        let (content, rest) = content_at("/date>", rest)?;
        let date = date_in(content)?;
        return Ok((Mark::Plain(date), rest));
    }
    if is_word(name, "real") {
        let (_, rest) = content_at("/real>", rest)?;
        return Ok((Mark::Plain(Plain::Unlike), rest));
    }
    let mark = lone_mark(name)?;
    Ok((mark, rest))
}

// Returns the mark of a tag, and what follows its element.
#[tactic(auto, unfolding(crate::specs::EntitlementXml::mark_by))]
fn mark_by<'a>(name: &[u8], rest: &'a [u8]) -> Result<(Mark<'a>, &'a [u8])>
    ensures { Reads mark_read result (defined.mark_by name.now rest.now) }
{
    if is_word(name, "key") {
        let (text, rest) = text_at("/key>", rest)?;
        return Ok((Mark::Key(text), rest));
    }
    if is_word(name, "string") {
        let (text, rest) = text_at("/string>", rest)?;
        return Ok((Mark::Plain(Plain::Text(text)), rest));
    }
    content_mark(name, rest)
}

// Returns the first element after white space and comments, and what follows it.
#[tactic(auto, unfolding(crate::specs::EntitlementXml::mark_at))]
fn mark_at(bytes: &[u8]) -> Result<(Mark<'_>, &[u8])>
    ensures { Reads mark_read result (defined.mark_at bytes.now) }
{
    let rest = after_gap(MOST_STEPS, bytes)?;
    let (name, rest) = tag_at(rest)?;
    mark_by(name, rest)
}

// Returns the value that begins with a mark, and what follows it if that is known.
fn marked_value<'a>(mark: Mark<'a>, rest: &'a [u8]) -> Result<(Value<'a>, Option<Span<'a>>)>
    ensures { Reads value_read result (defined.marked_value (mark_view mark.entry, rest.now)) }
{
    match mark {
        Mark::Plain(plain) => Ok((Value::Plain(plain), Some(in_xml(rest)))),
        Mark::Opening(group) => Ok((Value::Group(group, in_xml(rest)), None)),
        Mark::Empty(group) => Ok((Value::Group(group, nowhere()), Some(in_xml(rest)))),
        Mark::Key(_) | Mark::Closing(_) => Err(refused()),
    }
}

// Returns what comes first in an array, after its mark.
fn array_front<'a>(mark: Mark<'a>, rest: &'a [u8]) -> Result<Front<'a>>
    ensures { Reads front_view result (defined.array_front (mark_view mark.entry, rest.now)) }
{
    if let Mark::Closing(Group::Array) = mark {
        return Ok(Front::End(in_xml(rest)));
    }
    let (value, rest) = marked_value(mark, rest)?;
    Ok(Front::Entry(Entry {
        key: nowhere(),
        value,
        rest,
    }))
}

// Returns what comes first in a dictionary, after its mark.
fn dictionary_front<'a>(mark: Mark<'a>, rest: &'a [u8]) -> Result<Front<'a>>
    ensures { Reads front_view result (defined.dictionary_front (mark_view mark.entry, rest.now)) }
{
    match mark {
        Mark::Closing(Group::Dictionary) => Ok(Front::End(in_xml(rest))),
        Mark::Key(key) => {
            let (mark, rest) = mark_at(rest)?;
            let (value, rest) = marked_value(mark, rest)?;
            Ok(Front::Entry(Entry { key, value, rest }))
        }
        _ => Err(refused()),
    }
}

/// Returns what comes first in a group.
#[tactic(auto, unfolding(crate::specs::EntitlementXml::xml_front))]
pub fn xml_front(group: Group, bytes: &[u8]) -> Result<Front<'_>>
    ensures { Reads front_view result (defined.xml_front group bytes.now) }
{
    let (mark, rest) = mark_at(bytes)?;
    match group {
        Group::Array => array_front(mark, rest),
        Group::Dictionary => dictionary_front(mark, rest),
    }
}

// Returns what follows an XML declaration, if there is one.
#[tactic(auto, unfolding(crate::specs::EntitlementXml::after_declaration))]
fn after_declaration(bytes: &[u8]) -> Result<&[u8]>
    ensures { Reads (λ rest. rest.now) result (defined.after_declaration bytes.now) }
{
    if !has_front(bytes, "<?") {
        return Ok(bytes);
    }
    let (name, rest) = tag_at(bytes)?;
    if is_declaration(name) {
        Ok(rest)
    } else {
        Err(refused())
    }
}

// Whether a tag is an XML declaration in UTF-8.
fn is_declaration(name: &[u8]) -> bool
    ensures { result ≡ defined.is_declaration name.now }
{
    is_word(name, "?xml version=\"1.0\" encoding=\"UTF-8\"?")
        || is_word(name, "?xml version=\"1.0\" encoding=\"utf-8\"?")
        || is_word(name, "?xml version=\"1.0\"?")
}

// Returns what follows a document type, if there is one.
#[tactic(auto, unfolding(crate::specs::EntitlementXml::after_doctype))]
fn after_doctype(bytes: &[u8]) -> Result<&[u8]>
    ensures { Reads (λ rest. rest.now) result (defined.after_doctype bytes.now) }
{
    if !has_front(bytes, "<!") {
        return Ok(bytes);
    }
    let (name, rest) = tag_at(bytes)?;
    if is_doctype(name) {
        Ok(rest)
    } else {
        Err(refused())
    }
}

// Whether a tag is a document type without declarations in brackets.
fn is_doctype(name: &[u8]) -> bool
    ensures { result ≡ defined.is_doctype name.now }
{
    has_front(name, "!DOCTYPE plist") && !name.contains(&b'[')
}

// Returns what follows the tag of a property list, after white space and comments.
#[tactic(auto, unfolding(crate::specs::EntitlementXml::after_named))]
fn after_plist(bytes: &[u8]) -> Result<&[u8]>
    ensures { Reads (λ rest. rest.now) result (defined.after_named defined.is_plist bytes.now) }
{
    let rest = after_gap(MOST_STEPS, bytes)?;
    let (name, rest) = tag_at(rest)?;
    if is_word(name, "plist version=\"1.0\"") || is_word(name, "plist") {
        Ok(rest)
    } else {
        Err(refused())
    }
}

// Returns what follows the closing tag of a property list, after white space and comments.
#[tactic(auto, unfolding(crate::specs::EntitlementXml::after_named))]
fn after_plist_end(bytes: &[u8]) -> Result<&[u8]>
    ensures { Reads (λ rest. rest.now) result (defined.after_named defined.is_plist_end bytes.now) }
{
    let rest = after_gap(MOST_STEPS, bytes)?;
    let (name, rest) = tag_at(rest)?;
    if is_word(name, "/plist") {
        Ok(rest)
    } else {
        Err(refused())
    }
}

// Returns what follows the start of a property list.
#[tactic(auto, unfolding(crate::specs::EntitlementXml::after_prolog))]
fn after_prolog(bytes: &[u8]) -> Result<&[u8]>
    ensures { Reads (λ rest. rest.now) result (defined.after_prolog bytes.now) }
{
    let first = after_declaration(bytes)?;
    let second = after_gap(MOST_STEPS, first)?;
    let third = after_doctype(second)?;
    after_plist(third)
}

// Returns the values of a dictionary, with what follows it if that is known.
fn if_dictionary<'a>(
    value: Value<'a>,
    rest: Option<Span<'a>>,
) -> Result<(Span<'a>, Option<Span<'a>>)>
    ensures { Reads dictionary_read result (defined.if_dictionary (seen_value value.entry, option_map seen_span rest.entry)) }
{
    match value {
        Value::Group(Group::Dictionary, values) => Ok((values, rest)),
        _ => Err(refused()),
    }
}

// Returns all bytes, if they are a text that XML allows.
fn if_xml_text(bytes: &[u8]) -> Result<&[u8]>
    ensures { Reads (λ rest. rest.now) result (defined.if_xml_text bytes.now) }
{
    if is_xml_text(bytes) {
        Ok(bytes)
    } else {
        Err(refused())
    }
}

/// Returns the values of the dictionary of a property list, with what follows it if that is known.
#[tactic(auto, unfolding(crate::specs::EntitlementXml::xml_start))]
pub fn xml_start(bytes: &[u8]) -> Result<(Span<'_>, Option<Span<'_>>)>
    ensures { Reads dictionary_read result (defined.xml_start bytes.now) }
{
    let whole = if_xml_text(bytes)?;
    let rest = after_prolog(whole)?;
    let (mark, rest) = mark_at(rest)?;
    let (value, rest) = marked_value(mark, rest)?;
    if_dictionary(value, rest)
}

/// Reads the end of a property list, with nothing after it.
#[tactic(auto, unfolding(crate::specs::EntitlementXml::xml_finish))]
pub fn xml_finish(bytes: &[u8]) -> Result<&[u8]>
    ensures { Reads (λ rest. rest.now) result (defined.xml_finish bytes.now) }
{
    let rest = after_plist_end(bytes)?;
    let last = after_gap(MOST_STEPS, rest)?;
    if last.is_empty() {
        Ok(last)
    } else {
        Err(refused())
    }
}
