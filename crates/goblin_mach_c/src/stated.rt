//! What single commands say of an image, read in place.

ghost use Rattle.std.specs.Prelude.{◌≡◌, drop, option_map};
ghost use Rattle.goblin_mach.specs.Readings.{first_of};
ghost use Rattle.goblin_mach.specs.Said.{encryption_said, source_version_said, uuid_said};
ghost use Rattle.goblin_mach_c.specs.CommandRows.{gm_commands_view, readable_commands_left};
ghost use Rattle.goblin_mach_c.specs.Fill.{Fills, WritesFound};
ghost use Rattle.goblin_mach_c.specs.PartRows.{rows_of};
ghost use Rattle.goblin_mach_c.specs.SaidRows.{build_version_row_by, build_version_rows, dyld_environment_rows, dyld_setting_row_by, dylinker_row_by};
ghost use Rattle.goblin_mach_c.specs.SaidRows.{encryption_row, fileset_entry_row_by, fileset_entry_rows, text_row_at, uuid_row};

use crate::commands::Commands;
use crate::errors::{GM_OK, code_of};
use crate::images::gm_image;
use crate::picked::{Pick, Picked};
use crate::rows::{Rows, fill, put_found, skip};
use goblin_mach::said::{BuildVersions, CommandReader};
use mach_base::read_text;
use mach_load::{CommandVariant, LoadCommand};

// Returns the rows of an image's commands.
fn rows_by<'a, P: Pick + Drop>(bytes: &'a [u8], image: &gm_image, what: P) -> Picked<'a, P>
    ensures { rows_of (P.picked result.what) (readable_commands_left result.commands) ≡ rows_of (P.picked what) (gm_commands_view bytes.now image.now) }
{
    Picked {
        commands: Commands::of(bytes, image),
        what,
    }
}

/// The UUID of an image (`LC_UUID`).
#[derive(Clone, Copy)]
#[repr(C)]
pub struct gm_image_uuid {
    pub bytes: [u8; 16],
}

// The commands with a UUID.
#[derive(Clone, Copy)]
struct Uuids;

impl Pick for Uuids {
    type Row = gm_image_uuid;

    ghost picked = { λ _ c. option_map uuid_row (uuid_said c) };

    #[inline(always)]
    fn pick(&self, command: &LoadCommand) -> Option<gm_image_uuid> {
        match &command.command {
            CommandVariant::Uuid(c) => Some(gm_image_uuid { bytes: c.uuid }),
            _ => None,
        }
    }
}

/// Writes the UUID of an image to `found`, and returns 1. If no command has one, it returns 0 and leaves `found` unchanged. Of
/// several the first counts.
#[unsafe(no_mangle)]
pub extern "C" fn gmr_uuid(bytes: &[u8], image: &gm_image, found: &mut gm_image_uuid) -> u32
    ensures { WritesFound (first_of (rows_of (λ c. option_map uuid_row (uuid_said c)) (gm_commands_view bytes.now image.now))) found.old found.new result }
{
    let mut rows = rows_by(bytes, image, Uuids);
    put_found(rows.next(), found)
}

// The commands with a version of the sources.
#[derive(Clone, Copy)]
struct SourceVersions;

impl Pick for SourceVersions {
    type Row = u64;

    ghost picked = { λ _. source_version_said };

    #[inline(always)]
    fn pick(&self, command: &LoadCommand) -> Option<u64> {
        match &command.command {
            CommandVariant::SourceVersion(c) => Some(c.version),
            _ => None,
        }
    }
}

/// Writes the version of an image's sources to `found`, and returns 1. If no command has one, it returns 0 and leaves `found`
/// unchanged. Of several the first counts.
#[unsafe(no_mangle)]
pub extern "C" fn gmr_source_version(bytes: &[u8], image: &gm_image, found: &mut u64) -> u32
    ensures { WritesFound (first_of (rows_of source_version_said (gm_commands_view bytes.now image.now))) found.old found.new result }
{
    let mut rows = rows_by(bytes, image, SourceVersions);
    put_found(rows.next(), found)
}

/// The encrypted part of an image: `size` bytes at `offset`, counted from the image's first byte.
#[derive(Clone, Copy)]
#[repr(C)]
pub struct gm_encrypted_part {
    pub offset: u32,
    pub size: u32,
    /// 0 if they are not encrypted yet.
    pub id: u32,
}

// The commands that state an encrypted part.
#[derive(Clone, Copy)]
struct Encryptions;

impl Pick for Encryptions {
    type Row = gm_encrypted_part;

    ghost picked = { λ _ c. option_map encryption_row (encryption_said c) };

    #[inline(always)]
    fn pick(&self, command: &LoadCommand) -> Option<gm_encrypted_part> {
        let (offset, size, id) = match &command.command {
            CommandVariant::EncryptionInfo32(c) => (c.cryptoff, c.cryptsize, c.cryptid),
            CommandVariant::EncryptionInfo64(c) => (c.cryptoff, c.cryptsize, c.cryptid),
            _ => return None,
        };
        Some(gm_encrypted_part { offset, size, id })
    }
}

/// Writes the encrypted part of an image to `found`, and returns 1. If no command states one, it returns 0 and leaves `found`
/// unchanged. Of several the first counts.
#[unsafe(no_mangle)]
pub extern "C" fn gmr_encryption(
    bytes: &[u8],
    image: &gm_image,
    found: &mut gm_encrypted_part,
) -> u32
    ensures { WritesFound (first_of (rows_of (λ c. option_map encryption_row (encryption_said c)) (gm_commands_view bytes.now image.now)))
        found.old found.new result }
{
    let mut rows = rows_by(bytes, image, Encryptions);
    put_found(rows.next(), found)
}

/// A system that an image was built for. Its command is at `command`.
#[derive(Clone, Copy)]
#[repr(C)]
pub struct gm_build_version {
    pub command: usize,
    pub platform: u32,
    pub minos: u32,
    pub sdk: u32,
    pub reserved: u32,
}

// The commands that name a system, of an image for a cpu.
#[derive(Clone, Copy)]
struct Systems {
    cputype: u32,
}

impl Pick for Systems {
    type Row = gm_build_version;

    ghost picked = { λ s. build_version_row_by s.cputype };

    fn pick(&self, command: &LoadCommand) -> Option<gm_build_version> {
        let mut reader = BuildVersions {
            cputype: self.cputype,
        };
        match reader.read(command) {
            Some(said) => Some(gm_build_version {
                command: command.offset,
                platform: said.platform,
                minos: said.minos,
                sdk: said.sdk,
                reserved: 0,
            }),
            None => None,
        }
    }
}

/// Writes the systems that an image was built for from index `first` on, as many as there are and fit, and returns how many.
#[unsafe(no_mangle)]
pub extern "C" fn gmr_build_versions(
    bytes: &[u8],
    image: &gm_image,
    first: usize,
    out: &mut [gm_build_version],
) -> usize
    ensures { Fills (drop first (build_version_rows bytes.now image.now)) out.old out.new result }
{
    let systems = Systems {
        cputype: image.cputype,
    };
    let mut rows = rows_by(bytes, image, systems);
    skip(&mut rows, first);
    fill(&mut rows, out)
}

/// A text in a command: `text_len` bytes at `text`. If `code` isn't `GM_OK` it can't be read, and both numbers are 0.
#[derive(Clone, Copy)]
#[repr(C)]
pub struct gm_command_text {
    /// The offset of its command.
    pub command: usize,
    pub text: usize,
    pub text_len: usize,
    pub code: u32,
    pub reserved: u32,
}

// Returns the row of a text at a place, in the command at another.
fn text_row(bytes: &[u8], command: usize, text: usize) -> gm_command_text
    ensures { result ≡ text_row_at bytes.now command text }
{
    match read_text(bytes, text) {
        Ok(found) => gm_command_text {
            command,
            text,
            text_len: found.len(),
            code: GM_OK,
            reserved: 0,
        },
        Err(why) => gm_command_text {
            command,
            text: 0,
            text_len: 0,
            code: code_of(&why),
            reserved: 0,
        },
    }
}

// The commands that name a dynamic linker, in some bytes.
#[derive(Clone, Copy)]
struct Dylinkers<'a> {
    bytes: &'a [u8],
}

impl<'a> Pick for Dylinkers<'a> {
    type Row = gm_command_text;

    ghost picked = { λ s. dylinker_row_by s.bytes.now };

    #[inline(always)]
    fn pick(&self, command: &LoadCommand) -> Option<gm_command_text> {
        let CommandVariant::LoadDylinker(c) = &command.command else {
            return None;
        };
        let text = command.offset.saturating_add(c.name as usize);
        Some(text_row(self.bytes, command.offset, text))
    }
}

/// Writes the path of an image's dynamic linker to `found`, and returns 1. If no command names one, it returns 0 and leaves
/// `found` unchanged. Of several the first counts.
#[unsafe(no_mangle)]
pub extern "C" fn gmr_dylinker(bytes: &[u8], image: &gm_image, found: &mut gm_command_text) -> u32
    ensures { WritesFound (first_of (rows_of (dylinker_row_by bytes.now) (gm_commands_view bytes.now image.now))) found.old found.new result }
{
    let mut rows = rows_by(bytes, image, Dylinkers { bytes });
    put_found(rows.next(), found)
}

// The settings for the dynamic linker, in some bytes.
#[derive(Clone, Copy)]
struct DyldSettings<'a> {
    bytes: &'a [u8],
}

impl<'a> Pick for DyldSettings<'a> {
    type Row = gm_command_text;

    ghost picked = { λ s. dyld_setting_row_by s.bytes.now };

    #[inline(always)]
    fn pick(&self, command: &LoadCommand) -> Option<gm_command_text> {
        let CommandVariant::DyldEnvironment(c) = &command.command else {
            return None;
        };
        let text = command.offset.saturating_add(c.name as usize);
        Some(text_row(self.bytes, command.offset, text))
    }
}

/// Writes an image's settings for the dynamic linker from index `first` on, as many as there are and fit, and returns how many.
#[unsafe(no_mangle)]
pub extern "C" fn gmr_dyld_environment(
    bytes: &[u8],
    image: &gm_image,
    first: usize,
    out: &mut [gm_command_text],
) -> usize
    ensures { Fills (drop first (dyld_environment_rows bytes.now image.now)) out.old out.new result }
{
    let mut rows = rows_by(bytes, image, DyldSettings { bytes });
    skip(&mut rows, first);
    fill(&mut rows, out)
}

/// An image of a file set: its name is `name_len` bytes at `name`. If `code` isn't `GM_OK` the name can't be read, and both
/// numbers are 0.
#[derive(Clone, Copy)]
#[repr(C)]
pub struct gm_fileset_entry {
    pub address: u64,
    pub offset: u64,
    pub name: usize,
    pub name_len: usize,
    pub code: u32,
    pub reserved: u32,
}

// The entries of a file set, in some bytes.
#[derive(Clone, Copy)]
struct FilesetEntries<'a> {
    bytes: &'a [u8],
}

impl<'a> Pick for FilesetEntries<'a> {
    type Row = gm_fileset_entry;

    ghost picked = { λ s. fileset_entry_row_by s.bytes.now };

    fn pick(&self, command: &LoadCommand) -> Option<gm_fileset_entry> {
        let CommandVariant::FilesetEntry(c) = &command.command else {
            return None;
        };
        let place = command.offset.saturating_add(c.entry_id as usize);
        let name = text_row(self.bytes, command.offset, place);
        Some(gm_fileset_entry {
            address: c.vmaddr,
            offset: c.fileoff,
            name: name.text,
            name_len: name.text_len,
            code: name.code,
            reserved: 0,
        })
    }
}

/// Writes the images of a file set from index `first` on, as many as there are and fit, and returns how many.
#[unsafe(no_mangle)]
pub extern "C" fn gmr_fileset_entries(
    bytes: &[u8],
    image: &gm_image,
    first: usize,
    out: &mut [gm_fileset_entry],
) -> usize
    ensures { Fills (drop first (fileset_entry_rows bytes.now image.now)) out.old out.new result }
{
    let mut rows = rows_by(bytes, image, FilesetEntries { bytes });
    skip(&mut rows, first);
    fill(&mut rows, out)
}
