//! The offsets of names and entitlements.

ghost use Rattle.std.specs.Prelude.{◌≡◌, ◌<◌, ◌+◌, ◌*◌, IfSome, drop};
ghost use Rattle.mach_base.specs.Answer.{Reads};
ghost use Rattle.mach_signature.specs.Chosen.{directory_in};
ghost use Rattle.mach_signature.specs.DirectoryViews.{directory_view};
ghost use Rattle.mach_signature.specs.SignViews.{signature_view};
ghost use Rattle.mach_signature.specs.SuperBlob.{blob_place};
ghost use Rattle.mach_c_places.specs.SignaturePlaces as defined;
ghost use Rattle.mach_c_places.specs.SignaturePlaces.{signed_directory_view};

use crate::signature::SignedDirectory;
use mach_base::{BE, Result};
use mach_signature::{CodeDirectory, CodeSignature, is_directory_slot};

// Reads the blob of a number as a code directory.
#[tactic(auto, unfolding(mach_signature::specs::Chosen::directory_in))]
fn directory_at<'a>(signature: &CodeSignature<'a>, index: u32) -> Result<CodeDirectory<'a>>
    requires { index < signature.now.count }
    ensures { Reads directory_view result (directory_in (signature_view signature.now) index) }
{
    let blob = signature.blob_at(index)?;
    CodeDirectory::parse(blob.bytes)
}

// Whether the blob of a number is a code directory of this hash type.
fn is_directory_of(signature: &CodeSignature<'_>, index: u32, hash_type: u8) -> bool
    requires { index < signature.now.count }
    ensures { result ≡ defined.is_directory_of hash_type (signature_view signature.now) index }
{
    if !is_directory_slot(signature.slot(index)) {
        return false;
    }
    match directory_at(signature, index) {
        Ok(directory) => directory.head.hash_type == hash_type,
        Err(_) => false,
    }
}

// Returns the number of the first code directory of this hash type.
#[tactic(auto, using(mach_signature::proofs::NumberedLists::found_first, mach_signature::proofs::NumberedLists::found_none))]
fn first_directory(signature: &CodeSignature<'_>, hash_type: u8) -> Option<u32>
    ensures first { result ≡ defined.first_directory_of hash_type (signature_view signature.now) }
    ensures within { IfSome result (λ index. index < signature.now.count) }
{
    for index in 0..signature.count {
        if is_directory_of(signature, index, hash_type) {
            return Some(index);
        }
    }
    None
}

// Returns the offset of a blob, from the index.
fn blob_place(signature: &CodeSignature<'_>, index: u32) -> usize
    requires { index < signature.now.count }
    ensures { result ≡ blob_place (signature_view signature.now) index }
{
    BE.u32_at(signature.bytes, 16 + 8 * index as usize) as usize
}

impl<'a> SignedDirectory<'a> {
    /// Returns the offset of the directory in the image.
    pub fn start(&self) -> usize
        ensures { result ≡ defined.directory_start (signed_directory_view self.now) }
    {
        let offset = match first_directory(&self.signature, self.directory.head.hash_type) {
            Some(index) => blob_place(&self.signature, index),
            None => 0,
        };
        (self.dataoff as usize).saturating_add(offset)
    }

    /// Returns the offset of the identifier in the image, and its length; none if it has none. Errors are those of
    /// `CodeDirectory::identifier`.
    pub fn identifier_place(&self) -> Result<Option<(usize, usize)>>
        ensures { Reads (λ found. found) result (defined.identifier_place (signed_directory_view self.now)) }
    {
        match self.directory.identifier()? {
            Some(name) => {
                let at = self.directory.head.ident_offset as usize;
                Ok(Some((self.start().saturating_add(at), name.len())))
            }
            None => Ok(None),
        }
    }

    /// The same for the name of the team.
    pub fn team_place(&self) -> Result<Option<(usize, usize)>>
        ensures { Reads (λ found. found) result (defined.team_place (signed_directory_view self.now)) }
    {
        match self.directory.team()? {
            Some(name) => {
                let at = self.directory.team_offset.unwrap_or(0) as usize;
                Ok(Some((self.start().saturating_add(at), name.len())))
            }
            None => Ok(None),
        }
    }

    /// The same for the entitlements in XML, after the head of their blob.
    pub fn entitlements_place(&self) -> Result<Option<(usize, usize)>>
        ensures { Reads (λ found. found) result (defined.entitlements_place (signed_directory_view self.now)) }
    {
        match self.signature.blob(5)? {
            Some(blob) => {
                let start = (self.dataoff as usize).saturating_add(blob.offset);
                Ok(Some((start.saturating_add(8), blob.bytes.len().saturating_sub(8))))
            }
            None => Ok(None),
        }
    }
}
