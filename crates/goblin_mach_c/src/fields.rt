//! The fields of a load command, read in place.

ghost use Rattle.std.specs.Prelude.{◌≡◌, ◌≤◌, drop};
ghost use Rattle.mach_command_fields.specs.FieldRows.{field_seen};
ghost use Rattle.goblin_mach_c.specs.CommandFieldRows.{command_field_row, command_field_rows, field_kind_number, field_rows_left};
ghost use Rattle.goblin_mach_c.specs.Fill.{Fills};

use crate::commands::gm_command;
use crate::images::{ctx_of, gm_image};
use crate::open::flag;
use crate::rows::{Rows, fill, skip};
use mach_command_fields::{CommandField, CommandFields, FieldKind};

/// A field of a load command's record. If `has_bytes`, its name, its text or its UUID is `len` bytes at `place`; if not, both are 0.
#[derive(Clone, Copy)]
#[repr(C)]
pub struct gm_command_field {
    /// Its name in the format, padded with zero bytes.
    pub name: [u8; 24],
    /// Its number: that of a text is its offset in the command, and that of a name or a UUID is 0.
    pub number: u64,
    pub place: usize,
    pub len: usize,
    /// The number of how it is read.
    pub kind: u32,
    /// How many bytes it has in the record.
    pub width: u32,
    /// 0 or 1.
    pub has_bytes: u32,
    pub reserved: u32,
}

// Returns the number of how a field is read.
fn kind_number(kind: FieldKind) -> u32
    ensures { result ≡ field_kind_number kind }
{
    match kind {
        FieldKind::Number => 0,
        FieldKind::Hexadecimal => 1,
        FieldKind::Version => 2,
        FieldKind::SourceVersion => 3,
        FieldKind::Platform => 4,
        FieldKind::Protection => 5,
        FieldKind::Name => 6,
        FieldKind::Text => 7,
        FieldKind::Uuid => 8,
    }
}

// Returns a field as C sees it.
fn row_of(field: &CommandField) -> gm_command_field
    ensures { result ≡ command_field_row (field_seen field.now) }
{
    let (place, len) = field.bytes.unwrap_or((0, 0));
    gm_command_field {
        name: field.padded_name(),
        number: field.number,
        place,
        len,
        kind: kind_number(field.kind),
        width: field.width,
        has_bytes: flag(field.bytes.is_some()),
        reserved: 0,
    }
}

// The fields that are left.
#[derive(Clone, Copy)]
struct FieldRows<'a> {
    fields: CommandFields<'a>,
}

impl<'a> Rows for FieldRows<'a> {
    type Row = gm_command_field;

    ghost left = { field_rows_left };

    fn next(&mut self) -> Option<gm_command_field> {
        let field = self.fields.next_field()?;
        Some(row_of(&field))
    }
}

/// Writes the fields of a command of an image from index `first` on, as many as there are and fit, and returns how many, which are
/// 18 at most. They are those of its number's record after cmd and cmdsize, up to the first that its bytes don't hold.
#[unsafe(no_mangle)]
pub extern "C" fn gmr_command_fields(
    bytes: &[u8],
    image: &gm_image,
    command: &gm_command,
    first: usize,
    out: &mut [gm_command_field],
) -> usize
    ensures written { Fills (drop first (command_field_rows bytes.now image.now command.now)) out.old out.new result }
    ensures most { result ≤ 18 }
{
    let mut rows = FieldRows {
        fields: CommandFields::of(
            bytes,
            ctx_of(image).le,
            command.offset,
            command.size,
            command.cmd,
        ),
    };
    skip(&mut rows, first);
    fill(&mut rows, out)
}
