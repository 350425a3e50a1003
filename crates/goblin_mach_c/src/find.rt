//! The export of a name from an image.

ghost use Rattle.std.specs.Prelude.{◌≡◌, ◌≢◌, ◌⊎◌, IfOk, IfErr, List, Option, Some, length, option_map};
ghost use Rattle.std.specs.Str.{IsUtf8};
ghost use Rattle.mach_base.specs.Answer.{IsOkUnlessMemory, ErrorMeets};
ghost use Rattle.mach_dyld.specs.Exports.{info_of};
ghost use Rattle.mach_dyld.specs.LookUp.{IsFirstOf};
ghost use Rattle.mach_dyld.specs.Trie as trie;
ghost use Rattle.goblin_mach.specs.Facts.{HasExportOf, HasExports};
ghost use Rattle.goblin_mach_c.specs.Codes.{IsRefusalCode};
ghost use Rattle.goblin_mach_c.specs.ExportRows.{FindFault, HasNameFault, IsFound, IsPut, export_flags, export_kind, export_row, library_text, target_text};
ghost use Rattle.goblin_mach_c.specs.Opened.{FaultIn, OpensIn, lossy_mode};

use crate::errors::{GM_OK, gm_error, refuse};
use crate::images::gm_image;
use crate::open::open;
use goblin_mach::exports::ExportInfo;
use goblin_mach::laws::{exports_of_image, found_export_of_image};
use mach_base::{Error, Result};
use std::alloc::Global;

/// The export of a name. `kind` is 0 for none, 1 for an address, 2 for a symbol of another library, 3 for a stub with its
/// resolver.
#[derive(Clone, Copy)]
#[repr(C)]
pub struct gm_export {
    /// The address in memory, before sliding; 0 for a re-export.
    pub address: u64,
    /// The number that the trie has for it; of a stub that of the stub; 0 for a re-export.
    pub offset: u64,
    /// The address of the resolver of a stub, or 0.
    pub resolver: u64,
    pub flags: u64,
    /// The lengths of the other library's name, and of the name there; the latter is 0 if it is the same name.
    pub library_len: usize,
    pub target_len: usize,
    pub kind: u32,
    pub reserved: u32,
}

// Finds the export of a name in the image at a place.
fn find<'a>(
    alloc: Global,
    bytes: &'a [u8],
    offset: usize,
    lossy: bool,
    name: &str,
) -> Result<Option<ExportInfo<'a>>>
    ensures found { IfOk result (λ o. HasExportOf bytes.now offset name.now (option_map info_of o)) }
    ensures first { (list : List (trie.Entry)) → HasExports bytes.now offset list → IfOk result (λ o. IsFirstOf name.now list (option_map info_of o)) }
    ensures only { OpensIn lossy bytes.now offset → (list : List (trie.Entry)) → HasExports bytes.now offset list → IsOkUnlessMemory result }
    ensures refused { IfErr result (ErrorMeets (λ f. FaultIn lossy bytes.now offset f ⊎ HasNameFault bytes.now offset name.now f)) }
{
    let image = open(alloc.clone()?, bytes, offset, lossy)?;
    found_export_of_image(&image);
    exports_of_image(&image);
    image.find_export(alloc, name)
}

// Returns the number of an export's kind.
fn kind_of(info: &ExportInfo<'_>) -> u32
    ensures { result ≡ export_kind (info_of info.now) }
{
    match info {
        ExportInfo::Regular { .. } => 1,
        ExportInfo::Reexport { .. } => 2,
        ExportInfo::Stub { .. } => 3,
    }
}

// Returns the flags of an export.
fn flags_of(info: &ExportInfo<'_>) -> u64
    ensures { result ≡ export_flags (info_of info.now) }
{
    match info {
        ExportInfo::Regular { flags, .. }
        | ExportInfo::Reexport { flags, .. }
        | ExportInfo::Stub { flags, .. } => *flags,
    }
}

// Returns the lengths of the name of a re-export's library, and of the name there if it is another one; else 0.
fn lengths_of(info: &ExportInfo<'_>) -> (usize, usize)
    ensures library { result.0 ≡ length (library_text (Some (info_of info.now))) }
    ensures target { result.1 ≡ length (target_text (Some (info_of info.now))) }
{
    match info {
        ExportInfo::Reexport {
            lib,
            lib_symbol_name,
            ..
        } => (lib.len(), lib_symbol_name.unwrap_or("").len()),
        ExportInfo::Regular { .. } | ExportInfo::Stub { .. } => (0, 0),
    }
}

/// Returns the numbers of an export of an image whose first byte has the address `base`.
pub fn row_of_export(info: &ExportInfo<'_>, base: u64) -> gm_export
    ensures { result ≡ export_row base (Some (info_of info.now)) }
{
    let (library_len, target_len) = lengths_of(info);
    gm_export {
        address: info.address(base).unwrap_or(0),
        offset: info.offset().unwrap_or(0),
        resolver: info.resolver_address(base).unwrap_or(0),
        flags: flags_of(info),
        library_len,
        target_len,
        kind: kind_of(info),
        reserved: 0,
    }
}

// Returns the numbers of an answer.
fn row_of(found: &Option<ExportInfo<'_>>, base: u64) -> gm_export
    ensures { result ≡ export_row base (option_map info_of found.now) }
{
    match found {
        None => gm_export {
            address: 0,
            offset: 0,
            resolver: 0,
            flags: 0,
            library_len: 0,
            target_len: 0,
            kind: 0,
            reserved: 0,
        },
        Some(info) => row_of_export(info, base),
    }
}

// Returns the name of a re-export's library; else an empty text.
fn library_of<'a>(found: &Option<ExportInfo<'a>>) -> &'a str
    ensures { result.now ≡ library_text (option_map info_of found.now) }
{
    match found {
        Some(ExportInfo::Reexport { lib, .. }) => *lib,
        _ => "",
    }
}

// Returns the name that a re-export has there, if it is another one; else an empty text.
fn target_of<'a>(found: &Option<ExportInfo<'a>>) -> &'a str
    ensures { result.now ≡ target_text (option_map info_of found.now) }
{
    match found {
        Some(
            ExportInfo::Reexport {
                lib_symbol_name: Some(name),
                ..
            },
        ) => *name,
        _ => "",
    }
}

// Copies a text to the start of an array, as much of it as fits.
fn put(text: &str, out: &mut [u8])
    ensures { IsPut text.now out.old out.new }
{
    let text = text.as_bytes();
    let count = if text.len() < out.len() {
        text.len()
    } else {
        out.len()
    };
    out[..count].copy_from_slice(&text[..count]);
}

/// Finds the first export of a name in an image, by its trie. It reads only the nodes on the path of the name. If the image opens
/// and its exports are a list, a name that is UTF-8 is refused only if memory runs out.
/// For a re-export it writes the name of the library to `library`, and the name there to `target`, as much as fits.
/// It opens the image again, and allocates memory for its commands while it runs. A refused call leaves everything but the error unchanged.
#[unsafe(no_mangle)]
pub extern "C" fn gmr_find_export(
    alloc: Global,
    bytes: &[u8],
    image: &gm_image,
    name: &[u8],
    export: &mut gm_export,
    library: &mut [u8],
    target: &mut [u8],
    error: &mut gm_error,
) -> u32
    ensures found { result ≡ 0 → (found : Option (trie.Info)) × IsFound bytes.now image.now.offset name.now found
        × (export.new ≡ export_row image.now.base found) × IsPut (library_text found) library.old library.new
        × IsPut (target_text found) target.old target.new }
    ensures only { IsUtf8 name.now → OpensIn (lossy_mode image.now.is_lossy) bytes.now image.now.offset → (list : List (trie.Entry))
        → HasExports bytes.now image.now.offset list → (result ≡ 0) ⊎ (result ≡ 5) }
    ensures refused { result ≢ 0 → IsRefusalCode (FindFault (lossy_mode image.now.is_lossy) bytes.now image.now.offset name.now) result }
    ensures kept { result ≢ 0 → export.new ≡ export.old }
    ensures library { result ≢ 0 → library.new ≡ library.old }
    ensures target { result ≢ 0 → target.new ≡ target.old }
    ensures reported { result ≢ 0 → error.new.code ≡ result }
    ensures quiet { result ≡ 0 → error.new ≡ error.old }
{
    let Ok(name) = str::from_utf8(name) else {
        return refuse(&Error::Malformed("a name is not UTF-8"), error);
    };
    match find(alloc, bytes, image.offset, image.is_lossy != 0, name) {
        Ok(found) => {
            *export = row_of(&found, image.base);
            put(library_of(&found), library);
            put(target_of(&found), target);
            GM_OK
        }
        Err(why) => refuse(&why, error),
    }
}
