//! A signature: blobs by slots, after an index (`cs_blobs.h`, struct __SC_SuperBlob).

ghost use Rattle.std.specs.Prelude.{◌≡◌, ◌≤◌, ◌<◌, ◌+◌, ◌*◌, length, drop};
ghost use Rattle.mach_base.specs.declared.context.Endian.TheVariants.{Big};
ghost use Rattle.mach_base.specs.Answer.{Reads};
ghost use Rattle.mach_base.specs.Number.{number};

use crate::records::{BlobHead, SuperBlobHead};
use crate::slots::{
    MAGIC_SIGNATURE, SLOT_CMS, SLOT_DER_ENTITLEMENTS, SLOT_ENTITLEMENTS, SLOT_REQUIREMENTS,
};
use mach_base::{BE, Error, Record, Result, ScrollError, bytes_at};

/// A signature: its bytes, cut at the length that it gives, and how many blobs its index names.
#[derive(Clone, Copy)]
pub struct CodeSignature<'a> {
    /// The bytes of the signature.
    pub bytes: &'a [u8],
    /// The number of its blobs.
    pub count: u32,
    ghost indexed: { 12 + 8 * count ≤ length bytes.now },
}

/// A blob of a signature.
#[derive(Clone, Copy)]
pub struct Blob<'a> {
    /// The slot, which says what the blob is for.
    pub slot: u32,
    /// Its offset in the signature.
    pub offset: usize,
    /// Its magic number.
    pub magic: u32,
    /// Its bytes. The first 8 are its magic and its length.
    pub bytes: &'a [u8],
}

impl<'a> CodeSignature<'a> {
    ghost use Rattle.mach_signature.specs.SuperBlob.{signature_at, blob_at, blobs_of, slot_at, first_blob_of, blob_of, content_of};
    ghost use Rattle.mach_signature.specs.SignViews.{signature_view, blob_view, blobs_left};

    /// Reads the signature at the start of the bytes. Bytes past its length are ignored.
    ///
    /// It is `BadMagic` if the bytes begin with another magic, `Malformed` if its length is below 12, and `BufferTooShort` if the
    /// index doesn't lie in the length.
    #[tactic(auto, unfolding(crate::specs::SuperBlob::signature_at))]
    pub fn parse(bytes: &'a [u8]) -> Result<CodeSignature<'a>>
        ensures { Reads signature_view result (signature_at bytes.now) }
    {
        let head = SuperBlobHead::read(bytes, 0, BE)?;
        if head.magic != MAGIC_SIGNATURE {
            return Err(Error::BadMagic(u64::from(head.magic)));
        }
        let length = head.length as usize;
        if length < 12 {
            return Err(Error::Malformed("a signature is shorter than its header"));
        }
        if length > bytes.len() {
            return Err(Error::Scroll(ScrollError::TooBig {
                size: length,
                len: bytes.len(),
            }));
        }
        if length < 12 + 8 * head.count as usize {
            return Err(Error::BufferTooShort(head.count as usize, "blobs"));
        }
        Ok(CodeSignature {
            bytes: &bytes[..length],
            count: head.count,
        })
    }

    /// Returns the slot of a blob.
    pub fn slot(&self, index: u32) -> u32
        requires { index < self.now.count }
        ensures { result ≡ slot_at (signature_view self.now) index }
    {
        BE.u32_at(self.bytes, 12 + 8 * index as usize)
    }

    /// Returns a blob. It is `Malformed` if its length is below 8.
    #[tactic(auto, unfolding(crate::specs::SuperBlob::blob_at))]
    pub fn blob_at(&self, index: u32) -> Result<Blob<'a>>
        requires { index < self.now.count }
        ensures { Reads blob_view result (blob_at (signature_view self.now) index) }
    {
        let offset = BE.u32_at(self.bytes, 16 + 8 * index as usize) as usize;
        let head = BlobHead::read(self.bytes, offset, BE)?;
        if head.length < 8 {
            return Err(Error::Malformed("a blob is shorter than its header"));
        }
        let bytes = bytes_at(self.bytes, offset, head.length as usize)?;
        Ok(Blob {
            slot: self.slot(index),
            offset,
            magic: head.magic,
            bytes,
        })
    }

    /// Returns the blobs in the order of the index, exactly as many as it names. A blob that can't be read is an item with its error.
    pub fn blobs(&self) -> Blobs<'a>
        ensures { blobs_left result ≡ blobs_of (signature_view self.now) }
    {
        Blobs {
            signature: *self,
            index: 0,
        }
    }

    // Returns the number of the first blob of a slot.
    #[tactic(auto, using(crate::proofs::NumberedLists::found_first, crate::proofs::NumberedLists::found_none))]
    fn first_of(&self, slot: u32) -> Option<u32>
        ensures first { result ≡ first_blob_of (signature_view self.now) slot }
        ensures within { IfSome result (λ index. index < self.now.count) }
    {
        for index in 0..self.count {
            if self.slot(index) == slot {
                return Some(index);
            }
        }
        None
    }

    /// Returns the first blob of a slot.
    #[tactic(auto, unfolding(crate::specs::SuperBlob::blob_of))]
    pub fn blob(&self, slot: u32) -> Result<Option<Blob<'a>>>
        ensures { Reads (option_map blob_view) result (blob_of (signature_view self.now) slot) }
    {
        match self.first_of(slot) {
            Some(index) => Ok(Some(self.blob_at(index)?)),
            None => Ok(None),
        }
    }

    // Returns the content of the first blob of a slot: the bytes after its head.
    #[tactic(auto, unfolding(crate::specs::SuperBlob::content_of))]
    fn content(&self, slot: u32) -> Result<Option<&'a [u8]>>
        ensures { Reads (option_map (λ content. content.now)) result (content_of (signature_view self.now) slot) }
    {
        match self.blob(slot)? {
            Some(blob) => Ok(Some(after_head(blob.bytes))),
            None => Ok(None),
        }
    }

    /// Returns the entitlements in XML, if there are any: the bytes after the head of their blob.
    pub fn entitlements(&self) -> Result<Option<&'a [u8]>>
        ensures { Reads (option_map (λ content. content.now)) result (content_of (signature_view self.now) 5) }
    {
        self.content(SLOT_ENTITLEMENTS)
    }

    /// Returns the entitlements in DER, if there are any.
    pub fn der_entitlements(&self) -> Result<Option<&'a [u8]>>
        ensures { Reads (option_map (λ content. content.now)) result (content_of (signature_view self.now) 7) }
    {
        self.content(SLOT_DER_ENTITLEMENTS)
    }

    /// Returns the bytes of the requirements after the head of their blob, if there are any.
    pub fn requirement_bytes(&self) -> Result<Option<&'a [u8]>>
        ensures { Reads (option_map (λ content. content.now)) result (content_of (signature_view self.now) 2) }
    {
        self.content(SLOT_REQUIREMENTS)
    }

    /// Returns the CMS message, if there is one. It says who signed, and isn't verified. An ad hoc signature has none, or an empty one.
    pub fn cms(&self) -> Result<Option<&'a [u8]>>
        ensures { Reads (option_map (λ content. content.now)) result (content_of (signature_view self.now) 0x10000) }
    {
        self.content(SLOT_CMS)
    }
}

// Returns the bytes after a head of 8 bytes.
fn after_head(bytes: &[u8]) -> &[u8]
    ensures { result.now ≡ drop 8 bytes.now }
{
    bytes.get(8..).unwrap_or(&[])
}

ghost use Rattle.std.specs.Prelude.{IfSome};
ghost use Rattle.std.specs.Option.{option_map};

/// An iterator over the blobs of a signature.
#[derive(Clone, Drop)]
pub struct Blobs<'a> {
    signature: CodeSignature<'a>,
    index: u32,
}

impl<'a> Iterator for Blobs<'a> {
    type Item = Result<Blob<'a>>;

    ghost use Rattle.std.specs.Prelude.{Some};
    ghost use Rattle.std.specs.Iterator.{YieldsFirstBy, UpTo, item_count};
    ghost use Rattle.std.specs.Iterator.SizeHint.{IsWithinCount};
    ghost use Rattle.mach_signature.specs.SignViews.{blob_read, blobs_left};

    ghost next_gives = { YieldsFirstBy blob_read blobs_left };

    ghost remaining = { item_count blobs_left };

    fn next(&mut self) -> Option<Result<Blob<'a>>> {
        if self.index >= self.signature.count {
            return None;
        }
        let item = self.signature.blob_at(self.index);
        self.index += 1;
        Some(item)
    }

    /// Returns how many items are left, exactly.
    fn size_hint(&self) -> (usize, Option<usize>)
        ensures lower { IsWithinCount result.0 (item_count blobs_left self.now) }
        ensures upper { IfSome result.1 (UpTo (item_count blobs_left self.now)) }
        ensures exact { result ≡ (length (blobs_left self.now), Some (length (blobs_left self.now))) }
    {
        let left = self.len();
        (left, Some(left))
    }
}

impl<'a> ExactSizeIterator for Blobs<'a> {
    /// Returns how many items are left.
    fn len(&self) -> usize {
        self.signature.count.saturating_sub(self.index) as usize
    }
}
