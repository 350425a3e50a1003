//! Whether entitlements say the same, however they are written.

ghost use Rattle.std.specs.Prelude.{◌≡◌, Ok, ◌≤◌, Some};
ghost use Rattle.mach_base.specs.Answer.{Reads};
ghost use Rattle.mach_signature.specs.EntitlementReads as defined;
ghost use Rattle.mach_signature.specs.EntitlementSpans.{SpanView, spelled_text};
ghost use Rattle.mach_signature.specs.EntitlementValues.{Entitlement, Entitled, entry_count, same_groups, same_in_order, same_kind, same_plain};
ghost use Rattle.mach_signature.specs.EntitlementValues.{same_under_keys, says_same, value_under};
ghost use Rattle.mach_signature.specs.EntitlementViews.{plain_view, seen_span, seen_value};
ghost use Rattle.mach_signature.specs.declared.entitlements.parts.Group.TheVariants.{Array, Dictionary};
ghost use Rattle.std.specs.Option.{option_map};

use crate::entitlements::front::front_at;
use crate::entitlements::parts::{Entry, Front, Group, NumberKind, Plain, Span, Value, nowhere};
use crate::entitlements::spelling::same_text;
use mach_base::{Error, Result};

/// Returns what follows the values of a group, if they can be read in so many steps.
#[cycle(ends)]
pub fn values_end<'a>(steps: usize, group: Group, values: Span<'a>) -> Result<Span<'a>>
    ensures { Reads seen_span result (defined.end_in (defined.entries_at steps group (seen_span values.entry))) }
{
    let Some(less) = steps.checked_sub(1) else {
        return Err(Error::Malformed("entitlements have too many values"));
    };
    let front = front_at(group, values)?;
    match front {
        Front::End(rest) => Ok(rest),
        Front::Entry(entry) => {
            let end = value_end(less, entry.value)?;
            values_end(less, group, rest_or(entry.rest, end))
        }
    }
}

// Returns what follows a value, if it is a group that can be read.
#[cycle(ends)]
fn value_end<'a>(steps: usize, value: Value<'a>) -> Result<Span<'a>>
    ensures { Reads seen_span result (defined.end_in (defined.value_at steps (seen_value value.entry))) }
{
    match value {
        Value::Plain(_) => Ok(nowhere()),
        Value::Group(group, values) => values_end(steps, group, values),
    }
}

/// Returns what follows a value: the place that is known, or its end.
pub fn rest_or<'a>(rest: Option<Span<'a>>, end: Span<'a>) -> Span<'a>
    ensures { seen_span result ≡ defined.rest_or (option_map seen_span rest.entry) (seen_span end.entry) }
{
    rest.unwrap_or(end)
}

/// Returns what follows a value that can be read.
pub fn after_entry<'a>(steps: usize, entry: Entry<'a>) -> Span<'a>
    ensures { (x : Entitlement × SpanView) → defined.value_at steps (seen_value entry.entry.value) ≡ Ok x
        → seen_span result ≡ defined.rest_or (option_map seen_span entry.entry.rest) x.1 }
{
    match entry.rest {
        Some(rest) => rest,
        None => value_end(steps, entry.value).unwrap_or(nowhere()),
    }
}

// Returns how many values a dictionary has that can be read.
fn count(steps: usize, values: Span<'_>) -> usize
    ensures count { (x : Entitled × SpanView) → defined.entries_at steps Dictionary (seen_span values.entry) ≡ Ok x → result ≡ entry_count x.0 }
    ensures within { result ≤ steps }
{
    let Some(less) = steps.checked_sub(1) else {
        return 0;
    };
    let Ok(front) = front_at(Group::Dictionary, values) else {
        return 0;
    };
    match front {
        Front::End(_) => 0,
        Front::Entry(entry) => 1 + count(less, after_entry(less, entry)),
    }
}

// Returns the first value under a key in a dictionary that can be read.
fn find<'a>(steps: usize, key: Span<'_>, values: Span<'a>) -> Option<Value<'a>>
    ensures { (x : Entitled × SpanView) → defined.entries_at steps Dictionary (seen_span values.entry) ≡ Ok x
        → defined.IsEntryFound steps (option_map seen_value result) (value_under (spelled_text (seen_span key.entry)) x.0) }
{
    let less = steps.checked_sub(1)?;
    let Ok(front) = front_at(Group::Dictionary, values) else {
        return None;
    };
    match front {
        Front::End(_) => None,
        Front::Entry(entry) => {
            if same_text(entry.key, key) {
                return Some(entry.value);
            }
            find(less, key, after_entry(less, entry))
        }
    }
}

// Whether two numbers stand for the same kind of value.
fn same_kind(first: NumberKind, second: NumberKind) -> bool
    ensures { result ≡ same_kind first second }
{
    match first {
        NumberKind::Natural => matches!(second, NumberKind::Natural),
        NumberKind::BelowZero => matches!(second, NumberKind::BelowZero),
        NumberKind::Date => matches!(second, NumberKind::Date),
    }
}

// Whether two plain values say the same.
fn same_plain(first: Plain<'_>, second: Plain<'_>) -> bool
    ensures { result ≡ same_plain (plain_view first.entry) (plain_view second.entry) }
{
    match (first, second) {
        (Plain::Boolean(first), Plain::Boolean(second)) => { if first { second } else { !second } }
        (Plain::Number(kind, first), Plain::Number(other, second)) => same_kind(kind, other)
            && first == second,
        (Plain::Text(first), Plain::Text(second)) => same_text(first, second),
        _ => false,
    }
}

// Whether two values that can be read say the same.
#[cycle(comparison)]
fn same_value(first_steps: usize, steps: usize, first: Value<'_>, second: Value<'_>) -> bool
    ensures { (x y : Entitlement × SpanView) → defined.value_at first_steps (seen_value first.entry) ≡ Ok x
        → defined.value_at steps (seen_value second.entry) ≡ Ok y → result ≡ says_same (Some x.0) y.0 }
{
    match (first, second) {
        (Value::Plain(first), Value::Plain(second)) => same_plain(first, second),
        (Value::Group(Group::Array, first), Value::Group(Group::Array, second)) => {
            same_in_order(first_steps, steps, first, second)
        }
        (Value::Group(Group::Dictionary, first), Value::Group(Group::Dictionary, second)) => {
            same_dictionary(first_steps, steps, first, second)
        }
        _ => false,
    }
}

/// Whether two dictionaries that can be read say the same.
#[cycle(comparison)]
pub fn same_dictionary(first_steps: usize, steps: usize, first: Span<'_>, second: Span<'_>) -> bool
    ensures { (x y : Entitled × SpanView) → defined.entries_at first_steps Dictionary (seen_span first.entry) ≡ Ok x
        → defined.entries_at steps Dictionary (seen_span second.entry) ≡ Ok y → result ≡ same_groups Dictionary x.0 y.0 }
{
    count(first_steps, first) == count(steps, second)
        && same_under_keys(first_steps, steps, first, second)
}

// Whether two arrays that can be read say the same.
#[cycle(comparison)]
fn same_in_order(first_steps: usize, steps: usize, first: Span<'_>, second: Span<'_>) -> bool
    ensures { (x y : Entitled × SpanView) → defined.entries_at first_steps Array (seen_span first.entry) ≡ Ok x
        → defined.entries_at steps Array (seen_span second.entry) ≡ Ok y → result ≡ same_in_order x.0 y.0 }
{
    let Some(first_less) = first_steps.checked_sub(1) else {
        return false;
    };
    let Some(less) = steps.checked_sub(1) else {
        return false;
    };
    let Ok(first_front) = front_at(Group::Array, first) else {
        return false;
    };
    let Ok(front) = front_at(Group::Array, second) else {
        return false;
    };
    match first_front {
        Front::End(_) => match front {
            Front::End(_) => true,
            Front::Entry(_) => false,
        },
        Front::Entry(first) => {
            let Front::Entry(second) = front else {
                return false;
            };
            let others = after_entry(first_less, first);
            let following = after_entry(less, second);
            if !same_value(first_less, less, first.value, second.value) {
                return false;
            }
            same_in_order(first_less, less, others, following)
        }
    }
}

// Whether each key of the second dictionary is there once, and its values in both say the same.
#[cycle(comparison)]
fn same_under_keys(first_steps: usize, steps: usize, first: Span<'_>, second: Span<'_>) -> bool
    ensures { (x y : Entitled × SpanView) → defined.entries_at first_steps Dictionary (seen_span first.entry) ≡ Ok x
        → defined.entries_at steps Dictionary (seen_span second.entry) ≡ Ok y → result ≡ same_under_keys x.0 y.0 }
{
    let Some(less) = steps.checked_sub(1) else {
        return false;
    };
    let Ok(front) = front_at(Group::Dictionary, second) else {
        return false;
    };
    match front {
        Front::End(_) => true,
        Front::Entry(entry) => {
            let others = after_entry(less, entry);
            if !same_under_key(first_steps, less, first, entry) {
                return false;
            }
            if find(less, entry.key, others).is_some() {
                return false;
            }
            same_under_keys(first_steps, less, first, others)
        }
    }
}

// Whether a dictionary that can be read has a value under the key of an entry, and both say the same.
#[cycle(comparison)]
fn same_under_key(first_steps: usize, steps: usize, first: Span<'_>, entry: Entry<'_>) -> bool
    ensures { (x : Entitled × SpanView) (y : Entitlement × SpanView) → defined.entries_at first_steps Dictionary (seen_span first.entry) ≡ Ok x
        → defined.value_at steps (seen_value entry.entry.value) ≡ Ok y
        → result ≡ says_same (value_under (spelled_text (seen_span entry.entry.key)) x.0) y.0 }
{
    match find(first_steps, entry.key, first) {
        Some(value) => same_value(first_steps, steps, value, entry.value),
        None => false,
    }
}
