//! What is shown of a row, field by field.

ghost use Rattle.std.specs.Prelude.{◌≡◌, ◌-◌, ◌++◌, [], false, length, map, OnOk};
ghost use Rattle.std.specs.Str.{chars};
ghost use Rattle.std.specs.Io.KnownBytes.{Appends};
ghost use Rattle.mach_parts.specs.PointerSigning.{auth_option_view};
ghost use Rattle.mach_cli.specs.Fields.{field_view, fields_line, value_view};
ghost use Rattle.mach_dyld.specs.Exports.{text_in};
ghost use Rattle.machfixups.specs.RowFields.{addend_field, address_field, bind_fields, bind_flags, dash_field, from_field, kind_field, name_or_dash};
ghost use Rattle.machfixups.specs.RowFields.{rebase_fields, rebase_word, section_field, segment_field, signed_flags, strong_fields, value_fields};
ghost use Rattle.machfixups.specs.RowFields.{bind_ending, bind_name_text, bind_text, distance_field, ending_fields, from_text, pointer_fields, pointer_line};
ghost use Rattle.machfixups.specs.RowFields.{raw_field, raw_member, rebase_target_text, rebase_text, row_place_text, symbol_field};
ghost use Rattle.machfixups.specs.RowFields.{symbol_text, target_section, target_segment, weak_fields};
ghost use Rattle.machfixups.specs.Rows.{bind_view, place_view, row_view};
ghost use Rattle.machfixups.specs.TargetSymbols.{target_symbol_option_view};

use crate::row::{Action, Bind, Location, Row};
use crate::target_symbols::TargetSymbol;
use goblin_mach::RebaseKind;
use goblin_mach::chained_fixups::PointerAuth;
use mach_cli::{
    Field, FieldsForm, Line, Value, diverse_by, diversity_by, has_auth, key_by, print_escaped,
    print_hexadecimal, print_signed, print_wide_escaped, print_wide_hexadecimal, rebase_type,
};
use std::io;
use std::io::Write;

// Returns the field for the addend of a bind; no line has it if it is 0.
fn addend_field(addend: i128) -> Field<'static>
    ensures { field_view result ≡ addend_field addend }
{
    let column = if addend == 0 { 0 } else { 7 };
    Field::new("addend", Value::Signed(addend), column)
}

// Returns the field of a line for the flags of a bind; if there are none, no line has it.
fn bind_flags(bind: &Bind<'_>) -> Field<'static>
    ensures { field_view result ≡ bind_flags (bind_view bind.now) }
{
    let column = if bind.is_weak || bind.is_lazy || has_auth(bind.auth) {
        8
    } else {
        0
    };
    Field::of_line(
        Value::Flags {
            is_weak: bind.is_weak,
            is_lazy: bind.is_lazy,
            auth: bind.auth,
        },
        column,
    )
}

// Returns the field for the image from which a bind takes its symbol: its short name; if there is none, only a line has it, with
// the ordinal.
fn from_field<'a>(bind: &Bind<'a>) -> Field<'a>
    ensures { let seen = bind_view bind.now in field_view result ≡ from_field seen.from seen.ordinal }
{
    match bind.from {
        Some(name) => Field::new("from", Value::Text(name), 5).wide(20),
        None => Field::of_line(Value::Signed(bind.ordinal), 5),
    }
}

// Returns the field of a line for what a rebase adjusts; for a pointer no line has it.
fn rebase_word(kind: RebaseKind) -> Field<'static>
    ensures { field_view result ≡ rebase_word kind }
{
    match kind {
        RebaseKind::Pointer => Field::of_line(Value::Text(""), 0),
        RebaseKind::TextAbsolute32 => Field::of_line(Value::Text("text-absolute"), 7),
        RebaseKind::TextRelative32 => Field::of_line(Value::Text("text-relative"), 7),
    }
}

// Returns the field of a line for how a pointer is signed; if it isn't, no line has it.
fn signed_flags(auth: Option<PointerAuth>) -> Field<'static>
    ensures { field_view result ≡ signed_flags (auth_option_view auth) }
{
    let column = if has_auth(auth) { 8 } else { 0 };
    Field::of_line(
        Value::Flags {
            is_weak: false,
            is_lazy: false,
            auth,
        },
        column,
    )
}

// Returns a printed name, `-` if there is none.
fn name_or_dash<'a>(name: Option<&'a str>) -> &'a str
    ensures { result.now ≡ name_or_dash (text_in name.entry) }
{
    name.unwrap_or("-")
}

// Returns the field for an address.
fn address_field<'a>(place: &Location<'a>) -> Field<'a>
    ensures { field_view result ≡ address_field (place_view place.now) }
{
    Field::new("address", Value::Hex(place.address), 1).wide(11)
}

// Returns the field for the name of a segment.
fn segment_field<'a>(place: &Location<'a>) -> Field<'a>
    ensures { field_view result ≡ segment_field (place_view place.now) }
{
    Field::new("segment", Value::Text(name_or_dash(place.segment)), 2).wide(12)
}

// Returns the field for the name of a section.
fn section_field<'a>(place: &Location<'a>) -> Field<'a>
    ensures { field_view result ≡ section_field (place_view place.now) }
{
    Field::new("section", Value::Text(name_or_dash(place.section)), 3).wide(16)
}

// Returns the field of a line for the name of a target's segment.
fn target_segment<'a>(target: &Location<'a>) -> Field<'a>
    ensures { field_view result ≡ target_segment (place_view target.now) }
{
    Field::of_line(Value::Text(name_or_dash(target.segment)), 5)
}

// Returns how many characters a text has.
fn char_len(text: &str) -> usize
    ensures { result ≡ length (chars text.now) }
{
    text.chars().count()
}

// Returns how many characters a name and a space after it leave of a column of 20.
fn width_after(name: &str) -> usize
    ensures { result ≡ 19 - length (chars name.now) }
{
    19usize.saturating_sub(char_len(name))
}

// Returns the field of a line for the name of a target's section. Both names have 20 characters together, if they aren't longer.
fn target_section<'a>(target: &Location<'a>) -> Field<'a>
    ensures { field_view result ≡ target_section (place_view target.now) }
{
    let width = width_after(name_or_dash(target.segment));
    Field::of_line(Value::Text(name_or_dash(target.section)), 5).wide(width)
}

// Returns the field for what a row is; without a name only a line has it.
fn kind_field(name: &'static str, word: &'static str) -> Field<'static>
    ensures { field_view result ≡ kind_field name.now word.now }
{
    Field::new(name, Value::Text(word), 4).wide(6)
}

// Returns a dash in a column of this width.
fn dash_field(column: usize, width: usize) -> Field<'static>
    ensures { field_view result ≡ dash_field column width }
{
    Field::of_line(Value::Text("-"), column).wide(width)
}

// Returns the field for the pointer of a chain as it is stored, if it is shown.
fn raw_field(raw: Option<u64>) -> Field<'static>
    ensures { field_view result ≡ raw_field raw }
{
    match raw {
        Some(raw) => Field::new("raw", Value::Hex(raw), 9),
        None => Field::of_line(Value::Text(""), 0),
    }
}

// Returns the same field for an object alone.
fn raw_member(raw: Option<u64>) -> Field<'static>
    ensures { field_view result ≡ raw_member raw }
{
    match raw {
        Some(raw) => Field::of_object("raw", Value::Hex(raw)),
        None => Field::of_line(Value::Text(""), 0),
    }
}

// Returns the field for how far a target is above its symbol, null if it has none.
fn distance_field(symbol: &Option<TargetSymbol<'_>>) -> Field<'static>
    ensures { field_view result ≡ distance_field (target_symbol_option_view symbol.now) }
{
    match symbol {
        Some(symbol) => Field::of_object("target_distance", Value::Number(symbol.distance)),
        None => Field::of_object("target_distance", Value::OptionalText(None)),
    }
}

// Returns the field for the name of a target's symbol, null if it has none.
fn symbol_field<'a>(symbol: &Option<TargetSymbol<'a>>) -> Field<'a>
    ensures { field_view result ≡ symbol_field (target_symbol_option_view symbol.now) }
{
    match symbol {
        Some(symbol) => Field::of_object("target_symbol", Value::OptionalText(Some(symbol.name))),
        None => Field::of_object("target_symbol", Value::OptionalText(None)),
    }
}

// Returns the fields of a bind.
fn bind_fields<'a>(place: &Location<'a>, bind: &Bind<'a>, raw: Option<u64>) -> [Field<'a>; 16]
    ensures { map field_view result ≡ bind_fields (place_view place.now) (bind_view bind.now) raw }
{
    let auth = bind.auth;
    [
        addend_field(bind.addend),
        address_field(place),
        Field::of_object("diversity", Value::Number(u64::from(diversity_by(auth)))),
        from_field(bind),
        Field::whether("is_address_diverse", diverse_by(auth)),
        Field::whether("is_lazy", bind.is_lazy),
        Field::whether("is_signed", has_auth(auth)),
        Field::whether("is_weak", bind.is_weak),
        Field::of_object("key", Value::Number(u64::from(key_by(auth)))),
        kind_field("kind", "bind"),
        Field::of_object("library", Value::Signed(bind.ordinal)),
        Field::new("name", Value::Text(bind.name), 6),
        raw_field(raw),
        section_field(place),
        segment_field(place),
        bind_flags(bind),
    ]
}

// Returns the fields of a weak bind.
fn weak_fields<'a>(place: &Location<'a>, bind: &Bind<'a>) -> [Field<'a>; 11]
    ensures { map field_view result ≡ weak_fields (place_view place.now) (bind_view bind.now) }
{
    [
        addend_field(bind.addend),
        address_field(place),
        Field::whether("is_strong", false),
        Field::whether("is_weak", bind.is_weak),
        Field::of_object("kind", Value::Text("weak bind")),
        Field::new("name", Value::Text(bind.name), 6),
        section_field(place),
        segment_field(place),
        kind_field("", "weak"),
        dash_field(5, 20),
        bind_flags(bind),
    ]
}

// Returns the fields of a rebase: all that an object has, and those of a line up to the target.
fn rebase_fields<'a>(
    place: &Location<'a>,
    target: &Location<'a>,
    symbol: &Option<TargetSymbol<'a>>,
    kind: RebaseKind,
    auth: Option<PointerAuth>,
    raw: Option<u64>,
) -> [Field<'a>; 17]
    ensures { map field_view result ≡ rebase_fields (place_view place.now) (place_view target.now) (target_symbol_option_view symbol.now) kind
        (auth_option_view auth) raw }
{
    [
        address_field(place),
        Field::of_object("diversity", Value::Number(u64::from(diversity_by(auth)))),
        Field::whether("is_address_diverse", diverse_by(auth)),
        Field::whether("is_signed", has_auth(auth)),
        Field::of_object("key", Value::Number(u64::from(key_by(auth)))),
        kind_field("kind", "rebase"),
        raw_member(raw),
        section_field(place),
        segment_field(place),
        Field::new("target", Value::Hex(target.address), 6),
        distance_field(symbol),
        Field::of_object("target_section", Value::OptionalText(target.section)),
        Field::of_object("target_segment", Value::OptionalText(target.segment)),
        symbol_field(symbol),
        Field::of_object("type", Value::Text(rebase_type(kind))),
        target_segment(target),
        target_section(target),
    ]
}

// Returns the fields of a rebase that a line has after the symbol.
fn ending_fields(
    kind: RebaseKind,
    auth: Option<PointerAuth>,
    raw: Option<u64>,
) -> [Field<'static>; 3]
    ensures { map field_view result ≡ ending_fields kind (auth_option_view auth) raw }
{
    [rebase_word(kind), signed_flags(auth), raw_field(raw)]
}

// Returns the fields of a number.
fn value_fields<'a>(place: &Location<'a>, number: u32, raw: Option<u64>) -> [Field<'a>; 8]
    ensures { map field_view result ≡ value_fields (place_view place.now) number raw }
{
    [
        address_field(place),
        Field::of_object("kind", Value::Text("number")),
        raw_field(raw),
        section_field(place),
        segment_field(place),
        Field::new("target", Value::Hex(u64::from(number)), 6),
        kind_field("", "value"),
        dash_field(5, 20),
    ]
}

// Returns the fields of a strong definition of this name.
fn strong_fields(name: &str) -> [Field<'_>; 8]
    ensures { map field_view result ≡ strong_fields name.now }
{
    [
        Field::whether("is_strong", true),
        Field::of_object("kind", Value::Text("weak bind")),
        Field::new("name", Value::Text(name), 6),
        dash_field(1, 11),
        dash_field(2, 12),
        dash_field(3, 16),
        kind_field("", "strong"),
        dash_field(5, 20),
    ]
}

/// Writes the fields of a row in a form.
pub fn write_row<F: FieldsForm, O: Write>(row: &Row<'_, '_>, out: &mut O) -> io::Result<()>
    ensures { OnOk result (Appends (O.contents out.old) (O.contents out.new) (F.fields_text (pointer_fields (row_view row.now)))) }
{
    match row {
        Row::At { place, action, raw } => match action {
            Action::Bind(bind) => F::write(&bind_fields(place, bind, *raw), out),
            Action::Weak(bind) => F::write(&weak_fields(place, bind), out),
            Action::Rebase {
                target,
                symbol,
                kind,
                auth,
            } => {
                let fields = rebase_fields(place, target, symbol, *kind, *auth, *raw);
                F::write(&fields, out)
            }
            Action::Value(number) => F::write(&value_fields(place, *number, *raw), out),
        },
        Row::Strong(name) => F::write(&strong_fields(name), out),
    }
}

// Writes the place of a row.
fn write_place<O: Write>(place: &Location<'_>, out: &mut O) -> io::Result<()>
    ensures { OnOk result (Appends (O.contents out.old) (O.contents out.new) (row_place_text (place_view place.now))) }
{
    print_wide_hexadecimal(place.address, 11, out)?;
    out.write_all(b" ")?;
    print_wide_escaped(name_or_dash(place.segment), 12, out)?;
    out.write_all(b" ")?;
    print_wide_escaped(name_or_dash(place.section), 16, out)
}

// Writes the target of a rebase. Both names have 20 characters together, if they aren't longer.
fn write_target<O: Write>(target: &Location<'_>, out: &mut O) -> io::Result<()>
    ensures { OnOk result (Appends (O.contents out.old) (O.contents out.new) (rebase_target_text (place_view target.now))) }
{
    let segment = name_or_dash(target.segment);
    let width = width_after(segment);
    print_wide_escaped(segment, 0, out)?;
    out.write_all(b" ")?;
    print_wide_escaped(name_or_dash(target.section), width, out)?;
    out.write_all(b" ")?;
    print_wide_hexadecimal(target.address, 0, out)
}

// Writes the line of a rebase up to the target.
fn write_rebase_front<O: Write>(
    place: &Location<'_>,
    target: &Location<'_>,
    out: &mut O,
) -> io::Result<()>
    ensures { OnOk result (Appends (O.contents out.old) (O.contents out.new) (rebase_text (place_view place.now) (place_view target.now))) }
{
    write_place(place, out)?;
    out.write_all(b" rebase ")?;
    write_target(target, out)
}

// Writes the image from which a bind takes its symbol.
fn write_from<O: Write>(bind: &Bind<'_>, out: &mut O) -> io::Result<()>
    ensures { let seen = bind_view bind.now in OnOk result (Appends (O.contents out.old) (O.contents out.new) (from_text seen.from seen.ordinal)) }
{
    match bind.from {
        Some(name) => print_wide_escaped(name, 20, out),
        None => print_signed(bind.ordinal, out),
    }
}

// Returns the fields of a bind that a line has after the name.
fn bind_ending(bind: &Bind<'_>, raw: Option<u64>) -> [Field<'static>; 3]
    ensures { map field_view result ≡ bind_ending (bind_view bind.now) raw }
{
    [addend_field(bind.addend), bind_flags(bind), raw_field(raw)]
}

// Whether a line of a bind has a field after the name.
fn has_bind_ending(bind: &Bind<'_>, raw: Option<u64>) -> bool
    ensures { result ≡ false → fields_line (bind_ending (bind_view bind.now) raw) ≡ [] }
{
    bind.addend != 0 || bind.is_weak || bind.is_lazy || has_auth(bind.auth) || raw.is_some()
}

// Writes what a line has after the name of a bind.
fn write_bind_ending<O: Write>(bind: &Bind<'_>, raw: Option<u64>, out: &mut O) -> io::Result<()>
    ensures { OnOk result (Appends (O.contents out.old) (O.contents out.new) (fields_line (bind_ending (bind_view bind.now) raw))) }
{
    if !has_bind_ending(bind, raw) {
        return Ok(());
    }
    Line::write(&bind_ending(bind, raw), out)
}

// Writes the symbol at a target and how far the target is above it, after a space, if there is one.
fn write_symbol<O: Write>(symbol: &Option<TargetSymbol<'_>>, out: &mut O) -> io::Result<()>
    ensures { OnOk result (Appends (O.contents out.old) (O.contents out.new) (symbol_text (target_symbol_option_view symbol.now))) }
{
    match symbol {
        Some(symbol) => {
            out.write_all(b" ")?;
            print_escaped(symbol.name, out)?;
            out.write_all(b"+")?;
            print_hexadecimal(symbol.distance, out)
        }
        None => Ok(()),
    }
}

// Whether a line of a rebase has a field after the symbol.
fn has_ending(kind: RebaseKind, auth: Option<PointerAuth>, raw: Option<u64>) -> bool
    ensures { result ≡ false → fields_line (ending_fields kind (auth_option_view auth) raw) ≡ [] }
{
    match kind {
        RebaseKind::Pointer => auth.is_some() || raw.is_some(),
        RebaseKind::TextAbsolute32 => true,
        RebaseKind::TextRelative32 => true,
    }
}

// Writes what a line of a rebase has after the target: the symbol there, and the fields after it.
fn write_rebase_ending<O: Write>(
    symbol: &Option<TargetSymbol<'_>>,
    kind: RebaseKind,
    auth: Option<PointerAuth>,
    raw: Option<u64>,
    out: &mut O,
) -> io::Result<()>
    ensures { OnOk result (Appends (O.contents out.old) (O.contents out.new) (symbol_text (target_symbol_option_view symbol.now)
        ++ fields_line (ending_fields kind (auth_option_view auth) raw))) }
{
    write_symbol(symbol, out)?;
    if !has_ending(kind, auth, raw) {
        return Ok(());
    }
    Line::write(&ending_fields(kind, auth, raw), out)
}

// Writes the line of a rebase.
fn write_rebase<O: Write>(
    place: &Location<'_>,
    target: &Location<'_>,
    symbol: &Option<TargetSymbol<'_>>,
    kind: RebaseKind,
    auth: Option<PointerAuth>,
    raw: Option<u64>,
    out: &mut O,
) -> io::Result<()>
    ensures { let seen = target_symbol_option_view symbol.now in OnOk result (Appends (O.contents out.old) (O.contents out.new)
        (fields_line (rebase_fields (place_view place.now) (place_view target.now) seen kind (auth_option_view auth) raw)
        ++ (symbol_text seen ++ fields_line (ending_fields kind (auth_option_view auth) raw)))) }
{
    write_rebase_front(place, target, out)?;
    write_rebase_ending(symbol, kind, auth, raw, out)
}

// Writes the name of a bind, with the image before it, and what a line has after it.
fn write_bind_name<O: Write>(bind: &Bind<'_>, raw: Option<u64>, out: &mut O) -> io::Result<()>
    ensures { OnOk result (Appends (O.contents out.old) (O.contents out.new) (bind_name_text (bind_view bind.now) raw)) }
{
    write_from(bind, out)?;
    out.write_all(b" ")?;
    print_wide_escaped(bind.name, 0, out)?;
    write_bind_ending(bind, raw, out)
}

// Writes the line of a bind.
fn write_bind<O: Write>(
    place: &Location<'_>,
    bind: &Bind<'_>,
    raw: Option<u64>,
    out: &mut O,
) -> io::Result<()>
    ensures { OnOk result (Appends (O.contents out.old) (O.contents out.new) (bind_text (place_view place.now) (bind_view bind.now) raw)) }
{
    write_place(place, out)?;
    out.write_all(b" bind   ")?;
    write_bind_name(bind, raw, out)
}

/// Writes the line of a row, without its end.
pub fn write_line<O: Write>(row: &Row<'_, '_>, out: &mut O) -> io::Result<()>
    ensures { OnOk result (Appends (O.contents out.old) (O.contents out.new) (pointer_line (row_view row.now))) }
{
    match row {
        Row::At { place, action, raw } => match action {
            Action::Rebase {
                target,
                symbol,
                kind,
                auth,
            } => write_rebase(place, target, symbol, *kind, *auth, *raw, out),
            Action::Bind(bind) => write_bind(place, bind, *raw, out),
            Action::Weak(_) => write_row::<Line, O>(row, out),
            Action::Value(_) => write_row::<Line, O>(row, out),
        },
        Row::Strong(_) => write_row::<Line, O>(row, out),
    }
}
