//! The code signature of an image: the code directory that counts, and the faults of the signature.

ghost use Rattle.std.specs.Prelude.{◌≡◌, ◌≢◌, ◌<◌, drop, length};
ghost use Rattle.std.specs.Option.{option_map};
ghost use Rattle.mach_base.specs.Items.{read_as};
ghost use Rattle.mach_signature.specs.FaultViews.{directory_fault_view, signature_fault_view};
ghost use Rattle.mach_c_places.specs.SignaturePlaces.{signed_directory_view};
ghost use Rattle.goblin_mach_c.specs.Codes.{IsRefusalCode};
ghost use Rattle.goblin_mach_c.specs.Fill.{Fills};
ghost use Rattle.goblin_mach_c.specs.SignatureRows as rows;
ghost use Rattle.goblin_mach_c.specs.SignatureRows.{SaysAsSigned, SignatureFaultIn, WritesSignatureRow, WritesSignatureFaults};

use crate::errors::{GM_OK, code_of, gm_error, refuse, refuse_no_rows};
use crate::images::gm_image;
use crate::open::{flag, open};
use crate::rows::{Rows, fill, skip};
use mach_base::Result;
use mach_c_places::laws::signed_directory_of_image;
use mach_c_places::{SignedDirectory, signed_directory};
use mach_signature::image::{is_as_signed, signature_faults};
use mach_signature::laws::{as_signed_of_image, signature_faults_of_image};
use mach_signature::{CodeFault, DirectoryFault, SignatureFault, SignatureFaults, SpecialFault};
use std::alloc::Global;

/// The code directory that counts in a signature. A text has its offset in the bytes and its length, both 0 if there is none, and
/// a code, which isn't `GM_OK` if it can't be read. If `is_signed` is 0 there is no signature, and everything is 0.
#[derive(Clone, Copy)]
#[repr(C)]
pub struct gm_signature {
    /// How many bytes of the image are covered, and how many pages they have.
    pub limit: u64,
    pub pages: u64,
    pub identifier: usize,
    pub identifier_len: usize,
    pub team: usize,
    pub team_len: usize,
    /// The entitlements in XML.
    pub entitlements: usize,
    pub entitlements_len: usize,
    pub version: u32,
    pub flags: u32,
    pub hash_type: u32,
    /// The size of a page as a power of 2; 0 if all covered bytes are one page.
    pub page_size: u32,
    pub identifier_code: u32,
    pub team_code: u32,
    pub entitlements_code: u32,
    /// 0 or 1.
    pub is_signed: u32,
    /// The first 20 bytes of the directory's hash, by its own hash type.
    pub cdhash: [u8; 20],
    pub reserved: u32,
}

// Returns the offset of a text, its length, and its code.
fn text_numbers(found: Result<Option<(usize, usize)>>) -> (usize, usize, u32)
    ensures { result ≡ rows.text_numbers (read_as (λ place. place) found) }
{
    match found {
        Ok(Some((place, len))) => (place, len, GM_OK),
        Ok(None) => (0, 0, GM_OK),
        Err(why) => (0, 0, code_of(&why)),
    }
}

// Returns a code directory as C sees it.
fn row_of(it: &SignedDirectory<'_>) -> gm_signature
    ensures { result ≡ rows.directory_row (signed_directory_view it.now) }
{
    let (identifier, identifier_len, identifier_code) = text_numbers(it.identifier_place());
    let (team, team_len, team_code) = text_numbers(it.team_place());
    let (entitlements, entitlements_len, entitlements_code) = text_numbers(it.entitlements_place());
    let head = &it.directory.head;
    gm_signature {
        limit: it.directory.code_limit(),
        pages: it.directory.page_count(),
        identifier,
        identifier_len,
        team,
        team_len,
        entitlements,
        entitlements_len,
        version: head.version,
        flags: head.flags,
        hash_type: u32::from(head.hash_type),
        page_size: u32::from(head.page_size),
        identifier_code,
        team_code,
        entitlements_code,
        is_signed: 1,
        cdhash: it.directory.cdhash(),
        reserved: 0,
    }
}

// Returns the row for no signature.
fn no_signature() -> gm_signature
    ensures { result ≡ rows.no_signature }
{
    gm_signature {
        limit: 0,
        pages: 0,
        identifier: 0,
        identifier_len: 0,
        team: 0,
        team_len: 0,
        entitlements: 0,
        entitlements_len: 0,
        version: 0,
        flags: 0,
        hash_type: 0,
        page_size: 0,
        identifier_code: 0,
        team_code: 0,
        entitlements_code: 0,
        is_signed: 0,
        cdhash: [0; 20],
        reserved: 0,
    }
}

// Returns a signature as C sees it, if there is one.
fn signature_row(found: &Option<SignedDirectory<'_>>) -> gm_signature
    ensures { result ≡ rows.signature_row (option_map signed_directory_view found.now) }
{
    match found {
        Some(it) => row_of(it),
        None => no_signature(),
    }
}

/// Writes the code directory that counts in an image to `signature`, or that there is none if no command places a signature. It
/// opens the image again, and allocates memory for its commands while it runs. It is also refused if the signature or one of its
/// directories can't be read, if two directories have the same hash type, or if there is none. A refused call leaves `signature`
/// unchanged.
#[unsafe(no_mangle)]
pub extern "C" fn gmr_code_signature(
    alloc: Global,
    bytes: &[u8],
    image: &gm_image,
    signature: &mut gm_signature,
    error: &mut gm_error,
) -> u32
    ensures found { result ≡ 0 → WritesSignatureRow bytes.now image.now.offset signature.new }
    ensures refused { result ≢ 0 → IsRefusalCode (rows.DirectoryFaultIn bytes.now image.now) result }
    ensures kept { result ≢ 0 → signature.new ≡ signature.old }
    ensures reported { result ≢ 0 → error.new.code ≡ result }
    ensures quiet { result ≡ 0 → error.new ≡ error.old }
{
    match open(alloc, bytes, image.offset, image.is_lossy != 0) {
        Ok(found) => {
            signed_directory_of_image(&found);
            match signed_directory(&found) {
                Ok(here) => {
                    *signature = signature_row(&here);
                    GM_OK
                }
                Err(why) => refuse(&why, error),
            }
        }
        Err(why) => refuse(&why, error),
    }
}

/// Something that isn't as it was signed.
#[derive(Clone, Copy)]
#[repr(C)]
pub struct gm_signature_fault {
    /// What is there, and what was expected, in the meaning of the kind.
    pub found: u64,
    pub limit: u64,
    pub kind: u32,
    /// The slot of the directory at fault, or of a blob with a wrong magic; 0 for a blob that can't be read.
    pub slot: u32,
    /// The number of the blob or the page, or the special slot; 0 for other faults.
    pub index: u32,
    /// Why something can't be read; `GM_OK` for other kinds.
    pub code: u32,
}

/// Returns a fault of a kind, for the directory at a slot, without numbers.
pub fn fault_row(kind: u32, slot: u32) -> gm_signature_fault
    ensures { result ≡ rows.fault_row kind slot }
{
    gm_signature_fault {
        found: 0,
        limit: 0,
        kind,
        slot,
        index: 0,
        code: GM_OK,
    }
}

// Returns a fault of the code that the directory at a slot covers.
fn code_row(slot: u32, fault: &CodeFault) -> gm_signature_fault
    ensures { result ≡ rows.code_row slot fault.now }
{
    match fault {
        CodeFault::Scattered { place } => gm_signature_fault {
            found: u64::from(*place),
            ..fault_row(7, slot)
        },
        CodeFault::Limit { limit, len } => gm_signature_fault {
            found: *limit,
            limit: *len,
            ..fault_row(8, slot)
        },
        CodeFault::Slots { slots, pages } => gm_signature_fault {
            found: u64::from(*slots),
            limit: *pages,
            ..fault_row(9, slot)
        },
        CodeFault::Page { index, start, end } => gm_signature_fault {
            found: *start,
            limit: *end,
            index: *index,
            ..fault_row(10, slot)
        },
    }
}

// Returns a fault of a special slot, for the directory at a slot.
fn special_row(slot: u32, fault: &SpecialFault) -> gm_signature_fault
    ensures { result ≡ rows.special_row slot fault.now }
{
    let (kind, index) = match fault {
        SpecialFault::Unknown { slot } => (11, *slot),
        SpecialFault::Unsealed { slot } => (12, *slot),
        SpecialFault::Changed { slot } => (13, *slot),
        SpecialFault::Absent { slot } => (14, *slot),
    };
    gm_signature_fault {
        index,
        ..fault_row(kind, slot)
    }
}

// Returns a fault of the directory at a slot.
fn directory_row(slot: u32, fault: &DirectoryFault) -> gm_signature_fault
    ensures { result ≡ rows.directory_fault_row slot (directory_fault_view fault.now) }
{
    match fault {
        DirectoryFault::Identifier(why) => gm_signature_fault {
            code: code_of(why),
            ..fault_row(4, slot)
        },
        DirectoryFault::Team(why) => gm_signature_fault {
            code: code_of(why),
            ..fault_row(5, slot)
        },
        DirectoryFault::Short { limit, dataoff } => gm_signature_fault {
            found: *limit,
            limit: u64::from(*dataoff),
            ..fault_row(6, slot)
        },
        DirectoryFault::Code(fault) => code_row(slot, fault),
        DirectoryFault::Special(fault) => special_row(slot, fault),
    }
}

/// Returns a fault as C sees it.
pub fn row_of_fault(fault: &SignatureFault) -> gm_signature_fault
    ensures { result ≡ rows.signature_fault_row (signature_fault_view fault.now) }
{
    match fault {
        SignatureFault::Blob { index, error } => gm_signature_fault {
            index: *index,
            code: code_of(error),
            ..fault_row(1, 0)
        },
        SignatureFault::Magic { index, slot, magic } => gm_signature_fault {
            found: u64::from(*magic),
            index: *index,
            ..fault_row(2, *slot)
        },
        SignatureFault::Refused(why) => gm_signature_fault {
            code: code_of(why),
            ..fault_row(3, 0)
        },
        SignatureFault::First(fault) => directory_row(0, fault),
        SignatureFault::Alternate { slot, fault } => directory_row(*slot, fault),
    }
}

// The faults of a signature that are left, if there is one.
#[derive(Drop)]
struct SignatureRows<'a> {
    faults: Option<SignatureFaults<'a>>,
}

impl<'a> Rows for SignatureRows<'a> {
    type Row = gm_signature_fault;

    ghost left = { rows.signature_rows_left };

    fn next(&mut self) -> Option<gm_signature_fault> {
        let faults = self.faults.as_mut()?;
        let fault = faults.next()?;
        Some(row_of_fault(&fault))
    }
}

// Writes faults from index `first` on, and returns how many.
fn write_from(
    faults: Option<SignatureFaults<'_>>,
    first: usize,
    out: &mut [gm_signature_fault],
) -> usize
    ensures { Fills (drop first (rows.fault_rows_by faults.entry)) out.old out.new result }
{
    let mut rows = SignatureRows { faults };
    skip(&mut rows, first);
    fill(&mut rows, out)
}

/// Writes the faults of an image's signature from index `first` on, as many as there are and fit, and how many to `count`; none
/// if no command places a signature. It opens the image again, allocates memory for its commands while it runs, and hashes the
/// covered bytes from the first page on. It is also refused if the signature can't be read. A refused call leaves the array and
/// the count unchanged.
#[unsafe(no_mangle)]
pub extern "C" fn gmr_signature_faults(
    alloc: Global,
    bytes: &[u8],
    image: &gm_image,
    first: usize,
    out: &mut [gm_signature_fault],
    count: &mut usize,
    error: &mut gm_error,
) -> u32
    ensures written { result ≡ 0 → WritesSignatureFaults bytes.now image.now.offset first out.old out.new count.new }
    ensures refused { result ≢ 0 → 0 < length out.old → IsRefusalCode (SignatureFaultIn bytes.now image.now) result }
    ensures no_rows { length out.old ≡ 0 → result ≡ 6 }
    ensures array { result ≢ 0 → out.new ≡ out.old }
    ensures count { result ≢ 0 → count.new ≡ count.old }
    ensures reported { result ≢ 0 → error.new.code ≡ result }
    ensures quiet { result ≡ 0 → error.new ≡ error.old }
{
    if out.is_empty() {
        return refuse_no_rows(error);
    }
    match open(alloc, bytes, image.offset, image.is_lossy != 0) {
        Ok(found) => {
            signature_faults_of_image(&found);
            match signature_faults(&found) {
                Ok(faults) => {
                    *count = write_from(faults, first, out);
                    GM_OK
                }
                Err(why) => refuse(&why, error),
            }
        }
        Err(why) => refuse(&why, error),
    }
}

/// Writes 1 to `as_signed` if an image has a signature and is as it was signed, else 0. It opens the image again, allocates
/// memory for its commands while it runs, and hashes the covered bytes. It is also refused if the signature can't be read. A
/// refused call leaves `as_signed` unchanged.
#[unsafe(no_mangle)]
pub extern "C" fn gmr_is_as_signed(
    alloc: Global,
    bytes: &[u8],
    image: &gm_image,
    as_signed: &mut u32,
    error: &mut gm_error,
) -> u32
    ensures said { result ≡ 0 → SaysAsSigned bytes.now image.now.offset as_signed.new }
    ensures refused { result ≢ 0 → IsRefusalCode (SignatureFaultIn bytes.now image.now) result }
    ensures kept { result ≢ 0 → as_signed.new ≡ as_signed.old }
    ensures reported { result ≢ 0 → error.new.code ≡ result }
    ensures quiet { result ≡ 0 → error.new ≡ error.old }
{
    match open(alloc, bytes, image.offset, image.is_lossy != 0) {
        Ok(found) => {
            as_signed_of_image(&found);
            match is_as_signed(&found) {
                Ok(yes) => {
                    *as_signed = flag(yes);
                    GM_OK
                }
                Err(why) => refuse(&why, error),
            }
        }
        Err(why) => refuse(&why, error),
    }
}
