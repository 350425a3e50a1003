//! The blobs of a signature that are no code directories.

ghost use Rattle.std.specs.Prelude.{◌≡◌, Some, OnOk};
ghost use Rattle.std.specs.Io.KnownBytes.{Appends};
ghost use Rattle.std.specs.Iterator.{YieldsFirst};
ghost use Rattle.mach_signature.specs.SignViews.{blob_read, signature_view};
ghost use Rattle.machsign.specs.Blobs.{blob_reported, other_blob, other_blobs_of};
ghost use Rattle.machsign.specs.BlobsLeft.{blob_row_text, blob_rows_left, blobs_yet};

use crate::form::Form;
use mach_base::Result;
use mach_cli::Listing;
use mach_signature::{Blob, Blobs, CodeSignature, SlotName, is_directory_slot};
use std::fmt::{Display, Formatter};
use std::io::Write;
use std::{fmt, io};

/// A blob that is no directory: its slot, and the number of its bytes after its header.
#[derive(Clone, Copy, Drop)]
pub struct OtherBlob {
    pub slot: u32,
    pub len: usize,
}

/// A blob, and the form in which it is written.
#[derive(Clone, Copy, Drop)]
pub struct BlobRow {
    form: Form,
    blob: OtherBlob,
}

impl Display for BlobRow {
    ghost output = { λ row. Some (blob_reported row.form row.blob) };

    fn fmt<W: fmt::Write>(&self, f: &mut Formatter<W>) -> fmt::Result {
        let OtherBlob { slot, len } = self.blob;
        let name = SlotName(slot);
        match self.form {
            Form::Lines => {
                if slot == 0x10000 {
                    write!(f, "{name}: {len} bytes, not verified")
                } else {
                    write!(f, "{name}: {len} bytes")
                }
            }
            Form::Objects => write!(f, "{{\"bytes\":{len},\"name\":\"{name}\",\"slot\":{slot}}}"),
        }
    }
}

// Returns a blob that can be read and is no directory.
fn if_other(answer: &Result<Blob<'_>>) -> Option<OtherBlob>
    ensures { result ≡ other_blob (blob_read answer.now) }
{
    let Ok(blob) = answer else {
        return None;
    };
    if is_directory_slot(blob.slot) {
        return None;
    }
    Some(OtherBlob {
        slot: blob.slot,
        len: blob.bytes.len().saturating_sub(8),
    })
}

/// The blobs of a signature that can be read and are no directories, in the order of the index, one at a time.
#[derive(Clone, Drop)]
pub struct OtherBlobs<'a> {
    form: Form,
    blobs: Blobs<'a>,
}

impl<'a> OtherBlobs<'a> {
    /// Returns the blobs of a signature.
    pub fn of(signature: &CodeSignature<'a>, form: Form) -> Self
        ensures blobs { blobs_yet result ≡ other_blobs_of (signature_view signature.now) }
        ensures form { result.form ≡ form }
    {
        OtherBlobs {
            form,
            blobs: signature.blobs(),
        }
    }

    // Returns the next blob.
    fn take_next(&mut self) -> Option<OtherBlob>
        ensures blob { YieldsFirst blobs_yet self.old result self.new }
        ensures form { self.new.form ≡ self.old.form }
    {
        'blobs: while let Some(blob) = self.blobs.next() {
            if let Some(other) = if_other(&blob) {
                return Some(other);
            }
        }
        None
    }
}

impl Listing for OtherBlobs<'_> {
    type Row = BlobRow;

    ghost text = { blob_row_text };

    ghost left = { blob_rows_left };

    fn next_row(&mut self) -> Option<Result<BlobRow>> {
        let form = self.form;
        match self.take_next() {
            Some(blob) => Some(Ok(BlobRow { form, blob })),
            None => None,
        }
    }

    fn past(&self) -> usize {
        0
    }

    fn past_name(&self) -> &'static str {
        ""
    }

    fn write_row<O: Write>(row: &BlobRow, out: &mut O) -> io::Result<()>
        ensures { OnOk result (Appends (O.contents out.old) (O.contents out.new) (blob_row_text row.now)) }
    {
        write!(out, "{row}")
    }
}
