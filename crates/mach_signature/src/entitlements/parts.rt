//! Entitlements as they are read from bytes, one value at a time.

ghost use Rattle.std.specs.Prelude.{◌≡◌};
ghost use Rattle.mach_signature.specs.EntitlementSpans.{no_bytes};
ghost use Rattle.mach_signature.specs.EntitlementViews.{seen_span};

/// How entitlements are written.
#[derive(Clone, Copy)]
pub enum Notation {
    /// A property list in XML.
    Xml,
    /// Their encoding in DER.
    Der,
}

/// What contains values.
#[derive(Clone, Copy)]
pub enum Group {
    /// Values in an order.
    Array,
    /// Values under keys.
    Dictionary,
}

/// Bytes in a notation: a text, or values of a group up to its end.
#[derive(Clone, Copy)]
pub struct Span<'a> {
    /// The notation.
    pub notation: Notation,
    /// The bytes.
    pub bytes: &'a [u8],
}

/// Returns no bytes.
pub fn nowhere<'a>() -> Span<'a>
    ensures { seen_span result ≡ no_bytes }
{
    Span {
        notation: Notation::Der,
        bytes: &[],
    }
}

/// What a number n stands for.
#[derive(Clone, Copy)]
pub enum NumberKind {
    /// The integer n.
    Natural,
    /// The integer -1 - n.
    BelowZero,
    /// The date whose 14 digits it has.
    Date,
}

/// A value that contains no other.
#[derive(Clone, Copy)]
pub enum Plain<'a> {
    /// A boolean.
    Boolean(bool),
    /// What a number stands for.
    Number(NumberKind, u64),
    /// A text, as it is written.
    Text(Span<'a>),
    /// A real, which no value in DER is like.
    Unlike,
}

/// A value. The values of a group are still to be read.
#[derive(Clone, Copy)]
pub enum Value<'a> {
    /// A value that contains no other.
    Plain(Plain<'a>),
    /// A group, and its values up to its end.
    Group(Group, Span<'a>),
}

/// A value of a group.
#[derive(Clone, Copy)]
pub struct Entry<'a> {
    /// Its key; empty in an array.
    pub key: Span<'a>,
    /// The value.
    pub value: Value<'a>,
    /// What follows it, unless that is known only when the value was read to its end.
    pub rest: Option<Span<'a>>,
}

/// What comes first among the values of a group.
#[derive(Clone, Copy)]
pub enum Front<'a> {
    /// The end of the group, and what follows it.
    End(Span<'a>),
    /// A value.
    Entry(Entry<'a>),
}
