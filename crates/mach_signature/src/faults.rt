//! All faults of a signature, in order.

ghost use Rattle.std.specs.Prelude.{◌≡◌, Option};
ghost use Rattle.std.specs.Option.{option_map};
ghost use Rattle.std.specs.Iterator.{YieldsFirstBy};
ghost use Rattle.mach_base.specs.Answer.{Reads};
ghost use Rattle.mach_base.specs.Fault.{fault_of};
ghost use Rattle.mach_signature.specs.AsSigned as defined;
ghost use Rattle.mach_signature.specs.DirectoryViews.{directory_view, slot_read};
ghost use Rattle.mach_signature.specs.SignViews.{signature_view};
ghost use Rattle.mach_signature.specs.FaultViews.{directory_fault_view, signature_fault_view, signed_view};
ghost use Rattle.mach_signature.specs.FaultViews.{directory_faults_left, signature_faults_left, current_left};
ghost use Rattle.mach_signature.specs.ChosenViews.{slot_directory_read};

use crate::code_faults::CodeFaults;
use crate::directories::Directories;
use crate::directory::CodeDirectory;
use crate::fault::{DirectoryFault, SignatureFault};
use crate::numbered::{Numbered, NumberedFaults};
use crate::signature::CodeSignature;
use crate::slots::has_magic;
use crate::special_faults::SpecialFaults;
use mach_base::{Error, Result, bytes_at};

/// Reads the signature at the place that a command gives: `datasize` bytes at `dataoff` of the image. Errors are those of
/// `CodeSignature::parse`, and of a bounded read if the range isn't in the image.
#[tactic(auto, unfolding(crate::specs::AsSigned::signature_in))]
pub fn code_signature(image: &[u8], dataoff: u32, datasize: u32) -> Result<CodeSignature<'_>>
    ensures { Reads signature_view result (defined.signature_in image.now dataoff datasize) }
{
    if datasize == 0 {
        return CodeSignature::parse(&[]);
    }
    let bytes = bytes_at(image, dataoff as usize, datasize as usize)?;
    CodeSignature::parse(bytes)
}

/// An image with its signature.
#[derive(Clone, Copy)]
pub struct SignedBytes<'a> {
    /// The bytes of the image.
    pub image: &'a [u8],
    /// The offset of the signature in the image.
    pub dataoff: u32,
    /// The signature.
    pub signature: CodeSignature<'a>,
    /// The section `__info_plist` of `__TEXT`, if the image has one.
    pub plist: Option<&'a [u8]>,
}

// The blobs of a signature, each checked against its slot.
#[derive(Clone, Copy, Drop)]
pub struct BlobTests<'a> {
    pub signature: CodeSignature<'a>,
}

impl<'a> Numbered for BlobTests<'a> {
    type Item = SignatureFault;

    ghost use Rattle.mach_signature.specs.AsSigned.{SignatureFaultView};
    ghost use Rattle.mach_signature.specs.FaultViews.{blobs_tested, blob_tested};

    ghost View = { SignatureFaultView };

    ghost view = { signature_fault_view };

    ghost count = { blobs_tested };

    ghost reports = { blob_tested };

    fn count(&self) -> u32 {
        self.signature.count
    }

    #[tactic(auto, unfolding(crate::specs::AsSigned::blob_fault))]
    fn report(&self, number: u32) -> Option<SignatureFault> {
        match self.signature.blob_at(number) {
            Err(error) => Some(SignatureFault::Blob {
                index: number,
                error,
            }),
            Ok(blob) => {
                if has_magic(blob.slot, blob.magic) {
                    return None;
                }
                Some(SignatureFault::Magic {
                    index: number,
                    slot: blob.slot,
                    magic: blob.magic,
                })
            }
        }
    }
}

// An iterator over the faults of a directory, in order.
#[derive(Drop)]
pub struct DirectoryFaults<'a> {
    pub identifier: Option<Error>,
    pub team: Option<Error>,
    pub short: Option<DirectoryFault>,
    pub code: CodeFaults<'a>,
    pub special: SpecialFaults<'a>,
}

impl<'a> DirectoryFaults<'a> {
    #[tactic(auto, unfolding(crate::specs::FaultViews::directory_faults_left))]
    fn take_next(&mut self) -> Option<DirectoryFault>
        ensures { YieldsFirstBy directory_fault_view directory_faults_left self.old result self.new }
    {
        if let Some(e) = self.identifier.take() {
            return Some(DirectoryFault::Identifier(e));
        }
        if let Some(e) = self.team.take() {
            return Some(DirectoryFault::Team(e));
        }
        if let Some(fault) = self.short.take() {
            return Some(fault);
        }
        if let Some(fault) = self.code.next() {
            return Some(DirectoryFault::Code(fault));
        }
        match self.special.next() {
            Some(fault) => Some(DirectoryFault::Special(fault)),
            None => None,
        }
    }
}

impl<'a> SignedBytes<'a> {
    // Returns a fault if fewer bytes are covered than the image has before its signature.
    fn short_fault(&self, directory: &CodeDirectory<'a>) -> Option<DirectoryFault>
        ensures { option_map directory_fault_view result ≡ defined.short_fault (signed_view self.now) (directory_view directory.now) }
    {
        let limit = directory.code_limit();
        if limit < u64::from(self.dataoff) && directory.scatter_offset.unwrap_or(0) == 0 {
            return Some(DirectoryFault::Short {
                limit,
                dataoff: self.dataoff,
            });
        }
        None
    }

    // Returns the faults of a directory.
    #[tactic(auto, unfolding(crate::specs::FaultViews::directory_faults_left, crate::specs::AsSigned::directory_faults_of))]
    fn faults_of(&self, directory: &CodeDirectory<'a>) -> DirectoryFaults<'a>
        ensures { directory_faults_left result ≡ defined.directory_faults_of (signed_view self.now) (directory_view directory.now) }
    {
        DirectoryFaults {
            identifier: directory.identifier().err(),
            team: directory.team().err(),
            short: self.short_fault(directory),
            code: directory.code_faults(self.image),
            special: directory.special_faults(&self.signature, self.plist),
        }
    }
}

// Returns a fault of the directory at `slot`.
fn of_slot(slot: u32, fault: DirectoryFault) -> SignatureFault
    ensures { signature_fault_view result ≡ defined.of_slot slot (directory_fault_view fault) }
{
    if slot == 0 {
        return SignatureFault::First(fault);
    }
    SignatureFault::Alternate { slot, fault }
}

// An iterator over the faults of the directory at a slot, if one is being judged.
#[derive(Drop)]
pub struct Current<'a> {
    pub slot: u32,
    pub faults: Option<DirectoryFaults<'a>>,
}

impl<'a> Current<'a> {
    #[tactic(auto, unfolding(crate::specs::FaultViews::current_left))]
    fn take_next(&mut self) -> Option<SignatureFault>
        ensures { YieldsFirstBy signature_fault_view current_left self.old result self.new }
    {
        let slot = self.slot;
        let Some(faults) = &mut self.faults else {
            return None;
        };
        match faults.take_next() {
            Some(fault) => Some(of_slot(slot, fault)),
            None => None,
        }
    }
}

impl<'a> SignedBytes<'a> {
    // Returns the faults of the directory at a slot. A directory that can't be read has none here: that was reported before.
    #[tactic(auto, unfolding(crate::specs::FaultViews::current_left))]
    fn current(&self, slot: u32, directory: Result<CodeDirectory<'a>>) -> Current<'a>
        ensures { current_left result ≡ defined.slot_faults_of (signed_view self.now) (slot_directory_read (slot, directory.entry)) }
    {
        let faults = match directory {
            Ok(directory) => Some(self.faults_of(&directory)),
            Err(_) => None,
        };
        Current { slot, faults }
    }

    /// Returns all faults of the signature, in order.
    #[tactic(auto, unfolding(crate::specs::FaultViews::signature_faults_left, crate::specs::FaultViews::current_left))]
    pub fn faults(&self) -> SignatureFaults<'a>
        ensures { signature_faults_left result ≡ defined.signature_faults_of (signed_view self.now) }
    {
        let (refused, directories) = match self.signature.directory() {
            Ok(_) => (None, self.signature.directories()),
            Err(e) => (Some(e), Directories::none(self.signature)),
        };
        SignatureFaults {
            signed: *self,
            blobs: NumberedFaults::of(BlobTests {
                signature: self.signature,
            }),
            refused,
            current: Current {
                slot: 0,
                faults: None,
            },
            directories,
        }
    }
}

/// An iterator over the faults of a signature, in order: those of its blobs, then those of each code directory. If no directory
/// counts, only that is reported after the faults of the blobs.
#[derive(Drop)]
pub struct SignatureFaults<'a> {
    pub(crate) signed: SignedBytes<'a>,
    pub(crate) blobs: NumberedFaults<BlobTests<'a>>,
    pub(crate) refused: Option<Error>,
    // The directory that is being judged; `directories` are those after it.
    pub(crate) current: Current<'a>,
    pub(crate) directories: Directories<'a>,
}

impl<'a> Iterator for SignatureFaults<'a> {
    type Item = SignatureFault;

    ghost use Rattle.std.specs.Iterator.{item_count};

    ghost next_gives = { YieldsFirstBy signature_fault_view signature_faults_left };

    ghost remaining = { item_count signature_faults_left };

    #[tactic(auto, unfolding(crate::specs::FaultViews::signature_faults_left))]
    fn next(&mut self) -> Option<SignatureFault> {
        if let Some(fault) = self.blobs.take_next() {
            return Some(fault);
        }
        if let Some(e) = self.refused.take() {
            return Some(SignatureFault::Refused(e));
        }
        'directories: loop {
            if let Some(fault) = self.current.take_next() {
                return Some(fault);
            }
            let Some((slot, directory)) = self.directories.next() else {
                return None;
            };
            self.current = self.signed.current(slot, directory);
        }
    }
}

/// Returns the faults of the signature that a command places, in order. Errors are those of `code_signature`. `plist` is the
/// section `__info_plist` of `__TEXT`, if the image has one. There are none exactly when everything is as signed.
#[tactic(auto, unfolding(crate::specs::FaultViews::signature_faults_left))]
pub fn signature_faults<'a>(
    image: &'a [u8],
    dataoff: u32,
    datasize: u32,
    plist: Option<&'a [u8]>,
) -> Result<SignatureFaults<'a>>
    ensures { Reads signature_faults_left result (defined.faults_in image.now dataoff datasize (slot_read plist.entry)) }
{
    let signature = code_signature(image, dataoff, datasize)?;
    let signed = SignedBytes {
        image,
        dataoff,
        signature,
        plist,
    };
    Ok(signed.faults())
}
