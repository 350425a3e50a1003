//! What is shown of a part, and under which name.

ghost use Rattle.std.specs.Prelude.{◌≡◌, IfOk, string_bytes};
ghost use Rattle.mach_base.specs.Answer.{Gives};
ghost use Rattle.goblin_mach.specs.Items.{content_view};
ghost use Rattle.goblin_mach.specs.ItemsLeft.{input_item_read};
ghost use Rattle.mach_cli.specs.PartNames.{part_name};
ghost use Rattle.mach_cli.specs.ShownParts.{shown_part_view, shown_in};

use crate::parts::name::PartName;
use goblin_mach::{Content, InputItem};
use mach_base::Result;
use std::alloc::{AllocError, Global};

/// What is shown of a part.
#[derive(Drop)]
pub enum ShownPart<'a> {
    /// Nothing: an archive without members.
    Nothing,
    /// The file itself, by its bytes.
    Itself(&'a [u8]),
    /// An entry or a member: its name and its bytes.
    Within(String, &'a [u8]),
}

// Returns the name of a part that isn't the file itself.
fn name_of(
    alloc: Global,
    file: &str,
    entry: Option<usize>,
    content: Content<'_>,
) -> std::result::Result<String, AllocError>
    ensures { IfOk result (λ name. string_bytes name ≡ part_name file.now entry (content_view content.entry)) }
{
    let name = PartName {
        file,
        entry,
        content,
    };
    format!(in alloc; "{name}")
}

/// Returns what is shown of a part of a file of this name: the file itself, or a part with its own name. The error says why the
/// part can't be read, or that memory ran out.
pub fn shown_part<'a>(alloc: Global, file: &str, part: InputItem<'a>) -> Result<ShownPart<'a>>
    ensures { let x = input_item_read part.entry in Gives shown_part_view result (shown_in file.now x.place.entry x.content) }
{
    let entry = part.place.entry;
    match part.content? {
        Content::NoMember => Ok(ShownPart::Nothing),
        Content::File(bytes) if entry.is_none() => Ok(ShownPart::Itself(bytes)),
        content => {
            let name = name_of(alloc, file, entry, content)?;
            Ok(ShownPart::Within(name, content.bytes()))
        }
    }
}
