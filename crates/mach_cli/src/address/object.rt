//! What an image has at an address, as an object.

ghost use Rattle.std.specs.Prelude.{◌≡◌, option_map, Some};
ghost use Rattle.mach_dyld.specs.Exports.{text_in};
ghost use Rattle.mach_cli.specs.AddressObjects.{at_object, function_members, holder_members, number_or_null};

use crate::json::text::{StringOrNull, name_in_field};
use goblin_mach::segment::NumberedSection;
use goblin_mach::{FoundAt, Function};
use std::fmt;
use std::fmt::{Display, Formatter, Write};

/// The object of an address.
#[derive(Clone, Copy)]
pub struct AtObject<'t, 'a> {
    /// The address.
    pub address: u64,
    /// What the image has there.
    pub found: &'t FoundAt<'a>,
}

impl Display for AtObject<'_, '_> {
    ghost output = { λ t. Some (at_object t.address t.found.now) };

    fn fmt<W: Write>(&self, f: &mut Formatter<W>) -> fmt::Result {
        let AtObject { address, found } = *self;
        let distance = NumberOrNull(distance(found));
        let function = FunctionMembers(found.function);
        let holder = HolderMembers(found.section);
        let symbol = StringOrNull(symbol_name(found));
        write!(
            f,
            "{{\"address\":{address},\"distance\":{distance},{function},{holder},\"symbol\":{symbol}}}"
        )
    }
}

// The addresses of a function, if there is one.
#[derive(Clone, Copy)]
struct FunctionMembers(Option<Function>);

impl Display for FunctionMembers {
    ghost output = { λ t. Some (function_members t.0) };

    fn fmt<W: Write>(&self, f: &mut Formatter<W>) -> fmt::Result {
        match self.0 {
            Some(Function { start, end }) => {
                write!(f, "\"function_end\":{end},\"function_start\":{start}")
            }
            None => f.write_str("\"function_end\":null,\"function_start\":null"),
        }
    }
}

// The names of a section and of its segment, if there is one.
#[derive(Clone, Copy)]
struct HolderMembers(Option<NumberedSection>);

impl Display for HolderMembers {
    ghost output = { λ t. Some (holder_members t.0) };

    fn fmt<W: Write>(&self, f: &mut Formatter<W>) -> fmt::Result {
        let Some(holder) = &self.0 else {
            return f.write_str("\"section\":null,\"segment\":null");
        };
        let section = StringOrNull(name_in_field(&holder.section.sectname));
        let segment = StringOrNull(name_in_field(&holder.section.segname));
        write!(f, "\"section\":{section},\"segment\":{segment}")
    }
}

// A number, `null` if there is none.
#[derive(Clone, Copy)]
struct NumberOrNull(Option<u64>);

impl Display for NumberOrNull {
    ghost output = { λ t. Some (number_or_null t.0) };

    fn fmt<W: Write>(&self, f: &mut Formatter<W>) -> fmt::Result {
        match self.0 {
            Some(number) => write!(f, "{number}"),
            None => f.write_str("null"),
        }
    }
}

// Returns the name of the symbol that was found, if there is one.
fn symbol_name<'t>(found: &'t FoundAt<'_>) -> Option<&'t str>
    ensures { text_in result ≡ option_map (λ s. s.name.now) found.now.symbol }
{
    match &found.symbol {
        Some(symbol) => Some(symbol.name),
        None => None,
    }
}

// Returns how far the address is above the symbol that was found, if there is one.
fn distance(found: &FoundAt<'_>) -> Option<u64>
    ensures { result ≡ option_map (λ s. s.distance) found.now.symbol }
{
    match &found.symbol {
        Some(symbol) => Some(symbol.distance),
        None => None,
    }
}
