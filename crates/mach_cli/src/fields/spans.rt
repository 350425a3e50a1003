//! Where the fields of each column of a line are, so that a line is written without a look at all fields for each column.

ghost use Rattle.std.specs.Prelude.{◌≡◌, ◌≤◌, ◌<◌, ◌==◌, if◌then◌else◌, map};
ghost use Rattle.mach_cli.specs.Fields.{AreSpans, column_of, column_text, field_view};

use crate::fields::Field;

// As many as there are columns from 0 to 9, and one for all fields that no line has.
const SLOTS: usize = 11;

// Where the fields of each column are: from its start on, and before its end. The end is 0 if there is none.
#[derive(Clone, Copy)]
pub(crate) struct Spans {
    starts: [usize; SLOTS],
    ends: [usize; SLOTS],
}

// Returns the slot of a column.
fn slot_of(column: usize) -> usize
    ensures within { result < 11 }
    ensures column { column < 10 → result ≡ column }
    ensures alone { 10 ≤ column → result ≡ 10 }
{
    if column < 10 { column } else { 10 }
}

// Returns the start of a column with one more field, at this index.
fn start_with(start: usize, end: usize, index: usize) -> usize
    ensures { result ≡ if end == 0 then index else start }
{
    if end == 0 { index } else { start }
}

// Returns where the fields of each column are.
#[inline(always)]
pub(crate) fn spans_of(fields: &[Field<'_>]) -> Spans
    ensures { AreSpans (map column_of fields.now) result.starts result.ends }
{
    let mut starts = [0; SLOTS];
    let mut ends = [0; SLOTS];
    let count = fields.len();
    'fields: for index in 0..count {
        let slot = slot_of(fields[index].column);
        starts[slot] = start_with(starts[slot], ends[slot], index);
        ends[slot] = index + 1;
    }
    Spans { starts, ends }
}

// Returns the fields among which all of a column are.
#[inline(always)]
pub(crate) fn fields_in<'a, 'b>(
    spans: &Spans,
    fields: &'b [Field<'a>],
    column: usize,
) -> &'b [Field<'a>]
    requires { AreSpans (map column_of fields.now) spans.now.starts spans.now.ends }
    ensures { column_text (map field_view result.now) column ≡ column_text (map field_view fields.now) column }
{
    if column >= 10 {
        return fields;
    }
    let end = spans.ends[column];
    if end == 0 {
        return &fields[..0];
    }
    let part = fields.get(spans.starts[column]..end);
    part.unwrap_or(fields)
}
