//! The values of entitlements as rows, with their texts.

ghost use Rattle.std.specs.Prelude.{◌≡◌, ◌≤◌, ◌+◌, ◌∷◌, ◌++◌, [], Ok, IfSome};
ghost use Rattle.mach_signature.specs.EntitlementReads.{entries_at, value_at};
ghost use Rattle.mach_signature.specs.EntitlementSpans.{SpanView, no_bytes, spelled_text};
ghost use Rattle.mach_signature.specs.EntitlementValues.{Entitled, Entitlement, group};
ghost use Rattle.mach_signature.specs.EntitlementViews.{plain_view, seen_span, seen_value};
ghost use Rattle.mach_signature.specs.EntitlementXml.{most_steps};
ghost use Rattle.mach_signature.specs.declared.entitlements.parts.Group.TheVariants.{Dictionary};
ghost use Rattle.goblin_mach_c.specs.EntitlementRows as defined;
ghost use Rattle.goblin_mach_c.specs.EntitlementRows.{AddsRows, rows_of, rows_under, texts_of, texts_place, texts_under};
ghost use Rattle.goblin_mach_c.specs.EntitlementRows.{unread_entitlement_row, unread_text};

use mach_signature::entitlements::{
    Front, Group, MOST_STEPS, Notation, NumberKind, Plain, Span, Value, front_at, next_byte,
    rest_or, whole_text,
};

/// A boolean.
pub const GM_ENTITLEMENT_BOOLEAN: u32 = 1;

/// A natural number.
pub const GM_ENTITLEMENT_NATURAL: u32 = 2;

/// An integer below zero.
pub const GM_ENTITLEMENT_NEGATIVE: u32 = 3;

/// A date.
pub const GM_ENTITLEMENT_DATE: u32 = 4;

/// A text.
pub const GM_ENTITLEMENT_TEXT: u32 = 5;

/// A real, whose number isn't read.
pub const GM_ENTITLEMENT_REAL: u32 = 6;

/// Values in an order.
pub const GM_ENTITLEMENT_ARRAY: u32 = 7;

/// Values under keys.
pub const GM_ENTITLEMENT_DICTIONARY: u32 = 8;

/// A value of entitlements.
#[derive(Clone, Copy)]
#[repr(C)]
pub struct gm_entitlement_item {
    /// The place of its key in the texts, and how many bytes it has: none in an array.
    pub key: usize,
    pub key_len: usize,
    /// The place of its text in the texts, and how many bytes it has: none if it is no text.
    pub text: usize,
    pub text_len: usize,
    /// Its number, 0 or 1 for a boolean, and 0 for what is neither.
    pub number: u64,
    /// Its kind, as a number.
    pub kind: u32,
    /// In how many groups it is.
    pub depth: u32,
}

/// The rows of values, and their texts.
#[derive(Drop)]
pub struct Gathered {
    pub items: Vec<gm_entitlement_item>,
    pub texts: Vec<u8>,
}

// Returns the kind of a number.
fn number_kind(kind: NumberKind) -> u32
    ensures { result ≡ defined.number_kind kind }
{
    match kind {
        NumberKind::Natural => GM_ENTITLEMENT_NATURAL,
        NumberKind::BelowZero => GM_ENTITLEMENT_NEGATIVE,
        NumberKind::Date => GM_ENTITLEMENT_DATE,
    }
}

// Returns the kind of a plain value.
fn plain_kind(plain: Plain<'_>) -> u32
    ensures { result ≡ defined.plain_kind (plain_view plain.entry) }
{
    match plain {
        Plain::Boolean(_) => GM_ENTITLEMENT_BOOLEAN,
        Plain::Number(kind, _) => number_kind(kind),
        Plain::Text(_) => GM_ENTITLEMENT_TEXT,
        Plain::Unlike => GM_ENTITLEMENT_REAL,
    }
}

// Returns the kind of a group.
fn group_kind(group: Group) -> u32
    ensures { result ≡ defined.group_kind group }
{
    match group {
        Group::Array => GM_ENTITLEMENT_ARRAY,
        Group::Dictionary => GM_ENTITLEMENT_DICTIONARY,
    }
}

// Returns the bits of a number.
fn number_bits(kind: NumberKind, number: u64) -> u64
    ensures { result ≡ defined.number_bits kind number }
{
    match kind {
        NumberKind::BelowZero => u64::MAX - number,
        NumberKind::Natural | NumberKind::Date => number,
    }
}

// Returns the number of a plain value.
fn plain_number(plain: Plain<'_>) -> u64
    ensures { result ≡ defined.plain_number (plain_view plain.entry) }
{
    match plain {
        Plain::Boolean(is_so) => u64::from(is_so),
        Plain::Number(kind, number) => number_bits(kind, number),
        Plain::Text(_) | Plain::Unlike => 0,
    }
}

// Returns no text.
fn no_text<'a>() -> Span<'a>
    ensures { seen_span result ≡ no_bytes }
{
    Span {
        notation: Notation::Der,
        bytes: &[],
    }
}

// Returns the kind of a value.
fn kind_of(value: Value<'_>) -> u32
    ensures { result ≡ defined.unread_kind (seen_value value.entry) }
{
    match value {
        Value::Plain(plain) => plain_kind(plain),
        Value::Group(group, _) => group_kind(group),
    }
}

// Returns the number of a value.
fn number_of(value: Value<'_>) -> u64
    ensures { result ≡ defined.unread_number (seen_value value.entry) }
{
    match value {
        Value::Plain(plain) => plain_number(plain),
        Value::Group(..) => 0,
    }
}

// Returns the text of a value; none if it is no text.
fn text_of<'a>(value: Value<'a>) -> Span<'a>
    ensures { spelled_text (seen_span result) ≡ defined.unread_text (seen_value value.entry) }
{
    match value {
        Value::Plain(Plain::Text(text)) => text,
        _ => no_text(),
    }
}

// Adds a text to others.
fn add_text(text: Span<'_>, texts: &mut Vec<u8>) -> Option<()>
    ensures { IfSome result (λ _. texts.new.items ≡ texts.old.items ++ spelled_text (seen_span text.entry)) }
{
    let mut left = whole_text(text);
    'bytes: while let Some((byte, rest)) = next_byte(left) {
        texts.push(byte).ok()?;
        left = rest;
    }
    Some(())
}

// Adds the row of a value, its key and its text.
fn add_row(depth: u32, key: Span<'_>, value: Value<'_>, out: &mut Gathered) -> Option<()>
    ensures { let name = spelled_text (seen_span key.entry) in let v = seen_value value.entry in
        IfSome result (λ _. AddsRows (unread_entitlement_row depth (texts_place out.old) name v ∷ []) (name ++ unread_text v) out.old out.new) }
{
    let at = out.texts.len();
    add_text(key, &mut out.texts)?;
    let text = out.texts.len();
    add_text(text_of(value), &mut out.texts)?;
    let row = gm_entitlement_item {
        key: at,
        key_len: text - at,
        text,
        text_len: out.texts.len() - text,
        number: number_of(value),
        kind: kind_of(value),
        depth,
    };
    out.items.push(row).ok()
}

// Adds a value that can be read, with all that it contains, and returns what follows it if it is a group.
#[cycle(values)]
fn add_value<'a>(
    steps: usize,
    depth: u32,
    key: Span<'_>,
    value: Value<'a>,
    out: &mut Gathered,
) -> Option<Span<'a>>
    requires { depth + steps ≤ 2000 }
    ensures { let name = spelled_text (seen_span key.entry) in (v : Entitlement × SpanView) → value_at steps (seen_value value.entry) ≡ Ok v
        → IfSome result (λ end. (seen_span end ≡ v.1)
        × AddsRows (rows_under depth (texts_place out.old) name v.0) (texts_under name v.0) out.old out.new) }
{
    add_row(depth, key, value, out)?;
    match value {
        Value::Plain(_) => Some(no_text()),
        Value::Group(group, values) => add_values(steps, depth + 1, group, values, out),
    }
}

// Adds the values of a group that can be read, and returns what follows them.
#[cycle(values)]
fn add_values<'a>(
    steps: usize,
    depth: u32,
    group: Group,
    values: Span<'a>,
    out: &mut Gathered,
) -> Option<Span<'a>>
    requires { depth + steps ≤ 2001 }
    ensures { (x : Entitled × SpanView) → entries_at steps group (seen_span values.entry) ≡ Ok x
        → IfSome result (λ end. (seen_span end ≡ x.1) × AddsRows (rows_of depth (texts_place out.old) x.0) (texts_of x.0) out.old out.new) }
{
    let less = steps.checked_sub(1)?;
    let Ok(front) = front_at(group, values) else {
        return None;
    };
    match front {
        Front::End(rest) => Some(rest),
        Front::Entry(entry) => {
            let end = add_value(less, depth, entry.key, entry.value, out)?;
            add_values(less, depth, group, rest_or(entry.rest, end), out)
        }
    }
}

/// Adds the row of a dictionary that can be read, and those of all that it contains. It is none if memory ran out.
pub fn add_dictionary(values: Span<'_>, out: &mut Gathered) -> Option<()>
    ensures { (x : Entitled × SpanView) → entries_at most_steps Dictionary (seen_span values.entry) ≡ Ok x
        → IfSome result (λ _. AddsRows (rows_under 0 (texts_place out.old) [] (group Dictionary x.0)) (texts_of x.0) out.old out.new) }
{
    let whole = Value::Group(Group::Dictionary, values);
    add_value(MOST_STEPS, 0, no_text(), whole, out)?;
    Some(())
}
