//! Opening an image.

ghost use Rattle.std.specs.Prelude.{◌≡◌, ◌≢◌, ◌⊎◌, ◌<◌, ◌≤◌, ◌+◌, length, IfOk, IfErr, false, option_map};
ghost use Rattle.mach_base.specs.Answer.{ErrorMeets, IsOkUnlessMemory};
ghost use Rattle.mach_parts.specs.Header.{header_size};
ghost use Rattle.mach_parts.specs.SymbolViews.{table_of};
ghost use Rattle.goblin_mach.specs.OpenImage.{IsImage, IsLossyImage};
ghost use Rattle.goblin_mach_c.specs.Codes.{IsRefusalCode};
ghost use Rattle.goblin_mach_c.specs.Opened.{AreTableNumbers, FaultIn, HoldsNumbers, IsOpened, FaultByMode, OpensIn, flag, lossy_mode, width_of};

use crate::errors::{GM_OK, gm_error, refuse};
use crate::images::gm_image;
use goblin_mach::MachO;
use goblin_mach::laws::{strict_image_is_lossy, strict_opens_lossily};
use mach_base::{Container, Ctx, Endian, Error, Result, SizeWith};
use mach_parts::header::Header;
use mach_parts::symbols::Symbols;
use std::alloc::Global;

// Opens in a mode.
pub fn open(alloc: Global, bytes: &[u8], offset: usize, lossy: bool) -> Result<MachO<'_, Global>>
    ensures opened { IfOk result (IsLossyImage bytes.now offset) }
    ensures strict { lossy ≡ false → IfOk result (IsImage bytes.now offset) }
    ensures only { OpensIn lossy bytes.now offset → IsOkUnlessMemory result }
    ensures refused { IfErr result (ErrorMeets (FaultIn lossy bytes.now offset)) }
{
    if lossy {
        MachO::parse_lossy(alloc, bytes, offset)
    } else {
        let image = MachO::parse(alloc, bytes, offset)?;
        strict_image_is_lossy(&image);
        Ok(image)
    }
}

// Returns 1 for yes and 0 for no.
pub fn flag(yes: bool) -> u32
    ensures { result ≡ flag yes }
{
    if yes { 1 } else { 0 }
}

// Returns the offset of an image's first command.
fn first_command(bytes: &[u8], offset: usize, is_64: bool) -> usize
    requires { offset + 32 ≤ length bytes.now }
    ensures { result ≡ offset + header_size (width_of is_64) }
{
    let container = if is_64 {
        Container::Big
    } else {
        Container::Little
    };
    offset + Header::size_with(&Ctx::new(container, Endian::Little))
}

// Returns the offset of the symbols, how many they are, and the offset of their names.
fn table_numbers(symbols: &Option<Symbols<'_>>) -> (usize, usize, usize)
    ensures { AreTableNumbers (option_map table_of symbols.now) result.0 result.1 result.2 }
{
    match symbols {
        Some(table) => (table.start(), table.len(), table.strtab()),
        None => (0, 0, 0),
    }
}

// Returns the numbers of an image that was opened at a place.
fn numbers(bytes: &[u8], image: &MachO<'_, Global>, offset: usize, lossy: bool) -> gm_image
    requires { offset + 32 ≤ length bytes.now }
    ensures { HoldsNumbers image.now offset lossy result }
{
    let (symbols_at, symbols, names_at) = table_numbers(&image.symbols);
    gm_image {
        offset,
        entry: image.entry,
        base: image.base(),
        first_command: first_command(bytes, offset, image.is_64),
        commands: image.load_commands.as_slice().len(),
        segments: image.segments.as_slice().len(),
        libraries: image.libs.as_slice().len().saturating_sub(1),
        run_paths: image.rpaths.as_slice().len(),
        symbols,
        symbols_at,
        names_at,
        magic: image.header.magic,
        cputype: image.header.cputype,
        cpusubtype: image.header.cpusubtype,
        filetype: image.header.filetype,
        flags: image.header.flags,
        is_lossy: flag(lossy),
        is_old_style_entry: flag(image.old_style_entry),
        is_little_endian: flag(image.little_endian),
        is_64: flag(image.is_64),
        reserved: 0,
    }
}

// The mode that skips what can't be read. 0 is the strict mode, and there is no other.
const GM_LOSSY: u32 = 1;

/// Opens the image at a place of the bytes: strictly if `mode` is 0, in lossy mode if it is 1. It allocates memory for the
/// commands while it runs. A refused call leaves the image unchanged.
#[unsafe(no_mangle)]
pub extern "C" fn gmr_open(
    alloc: Global,
    bytes: &[u8],
    offset: usize,
    mode: u32,
    image: &mut gm_image,
    error: &mut gm_error,
) -> u32
    ensures opened { result ≡ 0 → IsOpened bytes.now offset image.new }
    ensures mode { result ≡ 0 → image.new.is_lossy ≡ flag (lossy_mode mode) }
    ensures unknown { 1 < mode → result ≡ 1 }
    ensures only { mode ≤ 1 → OpensIn (lossy_mode mode) bytes.now offset → (result ≡ 0) ⊎ (result ≡ 5) }
    ensures refused { result ≢ 0 → IsRefusalCode (FaultByMode mode bytes.now offset) result }
    ensures reported { result ≢ 0 → error.new.code ≡ result }
    ensures kept { result ≢ 0 → image.new ≡ image.old }
    ensures quiet { result ≡ 0 → error.new ≡ error.old }
{
    if mode > GM_LOSSY {
        return refuse(
            &Error::Malformed("the mode is neither strict nor lossy"),
            error,
        );
    }
    let lossy = mode != 0;
    match open(alloc, bytes, offset, lossy) {
        Ok(found) => {
            *image = numbers(bytes, &found, offset, lossy);
            GM_OK
        }
        Err(why) => refuse(&why, error),
    }
}
