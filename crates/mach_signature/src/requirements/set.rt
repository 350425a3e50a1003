//! The requirements of a signature, by their types.

ghost use Rattle.std.specs.Prelude.{◌≡◌, ◌≤◌, ◌+◌, ◌*◌, length};
ghost use Rattle.std.specs.Option.{option_map};
ghost use Rattle.mach_base.specs.Answer.{Reads};
ghost use Rattle.mach_base.specs.Items.{read_as};
ghost use Rattle.mach_signature.specs.RequirementTypes as defined;
ghost use Rattle.mach_signature.specs.RequirementTypes.{requirement_view, requirements_view};
ghost use Rattle.mach_signature.specs.SignViews.{blob_view, signature_view};

use crate::requirements::requirement::Requirement;
use crate::signature::{Blob, CodeSignature};
use crate::slots::SLOT_REQUIREMENTS;
use mach_base::{BE, Error, Result, read_u32};

/// What a requirement is about.
#[derive(Clone, Copy, Debug)]
pub enum RequirementType {
    /// The code that hosts this one.
    Host,
    /// The code that this one hosts.
    Guest,
    /// This code: another version of it meets its designated requirement too.
    Designated,
    /// The libraries that this code is linked to.
    Library,
    /// The plug-ins that this code loads.
    Plugin,
}

impl RequirementType {
    /// Returns its number (`SecRequirementType`).
    pub fn number(self) -> u32
        ensures { result ≡ defined.type_number self }
    {
        match self {
            RequirementType::Host => 1,
            RequirementType::Guest => 2,
            RequirementType::Designated => 3,
            RequirementType::Library => 4,
            RequirementType::Plugin => 5,
        }
    }
}

/// The requirements of a signature, by their types.
#[derive(Clone, Copy)]
pub struct Requirements<'a> {
    // Their index, which has the form of a signature's, with types in place of slots.
    index: CodeSignature<'a>,
}

impl<'a> Requirements<'a> {
    /// Returns the first requirement of a type, if there is one.
    #[tactic(auto, unfolding(crate::specs::RequirementTypes::requirement_of))]
    pub fn get(&self, kind: RequirementType) -> Result<Option<Requirement<'a>>>
        ensures { Reads (option_map requirement_view) result (defined.requirement_of (requirements_view self.now) (defined.type_number kind)) }
    {
        match self.index.blob(kind.number())? {
            Some(blob) => Ok(Some(Requirement::new(blob.bytes))),
            None => Ok(None),
        }
    }

    // Whether the first requirements of the five types can be read.
    fn are_readable(&self) -> bool
        ensures { result ≡ defined.has_readable_types (requirements_view self.now) }
    {
        let index = &self.index;
        is_readable_blob(&index.blob(1))
            && is_readable_blob(&index.blob(2))
            && is_readable_blob(&index.blob(3))
            && is_readable_blob(&index.blob(4))
            && is_readable_blob(&index.blob(5))
    }
}

// Whether what was looked up can be read, or isn't there.
fn is_readable_blob(found: &Result<Option<Blob<'_>>>) -> bool
    ensures { result ≡ defined.is_readable_blob (read_as (option_map blob_view) found.now) }
{
    found.is_ok()
}

// Returns the index in a blob of requirements: it has the form of a signature's, with types in place of slots.
#[tactic(auto, unfolding(crate::specs::RequirementTypes::requirements_index))]
fn requirements_index<'a>(blob: Blob<'a>) -> Result<CodeSignature<'a>>
    ensures { Reads signature_view result (defined.requirements_index (blob_view blob.entry)) }
{
    let count = read_u32(blob.bytes, 8, BE)?;
    if blob.magic != 0xfade_0c01 || blob.bytes.len() < 12 + 8 * count as usize {
        return Err(Error::Malformed("the index of requirements can't be read"));
    }
    Ok(CodeSignature {
        bytes: blob.bytes,
        count,
    })
}

impl<'a> CodeSignature<'a> {
    /// Returns the requirements by their types, if there are any. They are `Malformed` if their index can't be read.
    #[tactic(auto, unfolding(crate::specs::RequirementTypes::requirements_of))]
    pub fn requirements(&self) -> Result<Option<Requirements<'a>>>
        ensures { Reads (option_map requirements_view) result (defined.requirements_of (signature_view self.now)) }
    {
        match self.blob(SLOT_REQUIREMENTS)? {
            Some(blob) => {
                let index = requirements_index(blob)?;
                Ok(Some(Requirements { index }))
            }
            None => Ok(None),
        }
    }

    /// Whether the requirements can be read, if there are any: their index, and the first of each type.
    pub fn has_readable_requirements(&self) -> bool
        ensures { result ≡ defined.has_readable_requirements (signature_view self.now) }
    {
        match self.requirements() {
            Ok(Some(requirements)) => requirements.are_readable(),
            Ok(None) => true,
            Err(_) => false,
        }
    }
}
