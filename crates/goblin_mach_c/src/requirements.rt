//! The texts of the requirements of an image's signature.

ghost use Rattle.std.specs.Prelude.{◌≡◌, ◌≢◌, ◌++◌, length, IfSome, MatchOption};
ghost use Rattle.std.specs.Option.{option_map};
ghost use Rattle.mach_base.specs.Answer.{Reads};
ghost use Rattle.goblin_mach.specs.OpenImage.{bytes_view, commands_view};
ghost use Rattle.mach_signature.specs.RequirementTexts.{requirement_words};
ghost use Rattle.mach_signature.specs.RequirementTypes.{requirement_view, type_number};
ghost use Rattle.mach_signature.specs.SignedImages.{image_signature};
ghost use Rattle.goblin_mach_c.specs.Codes.{IsRefusalCode};
ghost use Rattle.goblin_mach_c.specs.RequirementWrites as defined;
ghost use Rattle.goblin_mach_c.specs.RequirementWrites.{IsNoType, LacksRequirementRoom, LacksTextRoom, RequirementFaultIn, WritesRequirement, WritesText};

use crate::errors::{GM_OK, gm_error, refuse, refuse_no_text_room};
use crate::images::gm_image;
use crate::open::open;
use goblin_mach::MachO;
use mach_base::{Error, Result};
use mach_signature::image::code_signature;
use mach_signature::laws::signature_of_image;
use mach_signature::requirements::{Requirement, RequirementType};
use std::alloc::{AllocError, Global};
use std::fmt;
use std::fmt::Write;

// Returns the type of a number.
fn type_of(kind: u32) -> Option<RequirementType>
    ensures { MatchOption result (IsNoType kind) (λ found. type_number found ≡ kind) }
{
    match kind {
        1 => Some(RequirementType::Host),
        2 => Some(RequirementType::Guest),
        3 => Some(RequirementType::Designated),
        4 => Some(RequirementType::Library),
        5 => Some(RequirementType::Plugin),
        _ => None,
    }
}

// Returns the first requirement of a type of an image's signature, if there is one.
fn image_requirement<'a>(
    image: &MachO<'a, Global>,
    kind: RequirementType,
) -> Result<Option<Requirement<'a>>>
    ensures { Reads (option_map requirement_view) result
        (defined.requirement_in (type_number kind) (image_signature (bytes_view image.now) (commands_view image.now))) }
{
    let Some(signature) = code_signature(image)? else {
        return Ok(None);
    };
    let Some(requirements) = signature.requirements()? else {
        return Ok(None);
    };
    requirements.get(kind)
}

// A text that grows.
#[derive(Drop)]
struct Grown {
    bytes: Vec<u8>,
}

impl Write for Grown {
    ghost write_str_gives = { λ before text after. after.bytes.items ≡ before.bytes.items ++ text };

    fn write_str(&mut self, text: &str) -> fmt::Result {
        match self.bytes.extend_from_slice(text.as_bytes()) {
            Ok(()) => Ok(()),
            Err(_) => Err(fmt::Error),
        }
    }
}

// Returns the text of a requirement. It is none if memory ran out.
fn text_of(alloc: Global, requirement: Requirement<'_>) -> Option<Grown>
    ensures { IfSome result (λ text. text.bytes.items ≡ requirement_words (requirement_view requirement.entry)) }
{
    let mut text = Grown {
        bytes: Vec::new(alloc),
    };
    match write!(text, "{requirement}") {
        Ok(()) => Some(text),
        Err(_) => None,
    }
}

// Writes a text to the start of an array if it fits, and how long it is to `needed`.
fn write_text(text: &[u8], out: &mut [u8], needed: &mut usize, error: &mut gm_error) -> u32
    ensures written { result ≡ 0 → WritesText text.now out.old out.new needed.new }
    ensures no_room { result ≢ 0 → (result ≡ 7) × LacksTextRoom text.now (length out.old) needed.new }
    ensures kept { result ≢ 0 → out.new ≡ out.old }
    ensures reported { result ≢ 0 → error.new.code ≡ result }
    ensures quiet { result ≡ 0 → error.new ≡ error.old }
{
    *needed = text.len();
    if text.len() > out.len() {
        return refuse_no_text_room(error);
    }
    out[..text.len()].copy_from_slice(text);
    GM_OK
}

/// Writes the text of the first requirement of a type to the start of `out`, and how many bytes it has to `needed`, which is 0 if
/// there is no such requirement. It opens the image again, and allocates memory for its commands and for the text while it runs. It
/// is refused if the signature, the index of its requirements or the requirement can't be read, as malformed for a number of no
/// type, and if `out` is too small, and then `needed` is written. A refused call leaves `out` unchanged, and `needed` except in the
/// last case.
#[unsafe(no_mangle)]
pub extern "C" fn gmr_requirement_text(
    alloc: Global,
    bytes: &[u8],
    image: &gm_image,
    kind: u32,
    out: &mut [u8],
    needed: &mut usize,
    error: &mut gm_error,
) -> u32
    ensures written { result ≡ 0 → WritesRequirement bytes.now image.now.offset kind out.old out.new needed.new }
    ensures no_room { result ≡ 7 → LacksRequirementRoom bytes.now image.now.offset kind (length out.old) needed.new }
    ensures refused { result ≢ 0 → result ≢ 7 → IsRefusalCode (RequirementFaultIn bytes.now image.now kind) result }
    ensures kept { result ≢ 0 → out.new ≡ out.old }
    ensures needed { result ≢ 0 → result ≢ 7 → needed.new ≡ needed.old }
    ensures reported { result ≢ 0 → error.new.code ≡ result }
    ensures quiet { result ≡ 0 → error.new ≡ error.old }
{
    let Some(kind) = type_of(kind) else {
        return refuse(
            &Error::Malformed("requirements have no type of this number"),
            error,
        );
    };
    match open(alloc, bytes, image.offset, image.is_lossy != 0) {
        Ok(found) => {
            signature_of_image(&found);
            match image_requirement(&found, kind) {
                Ok(Some(requirement)) => match text_of(alloc, requirement) {
                    Some(text) => write_text(text.bytes.as_slice(), out, needed, error),
                    None => refuse(&Error::Memory(AllocError), error),
                },
                Ok(None) => {
                    *needed = 0;
                    GM_OK
                }
                Err(why) => refuse(&why, error),
            }
        }
        Err(why) => refuse(&why, error),
    }
}
