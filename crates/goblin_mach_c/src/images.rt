//! An image as C holds it: numbers, which belong to the bytes that it was opened in.

ghost use Rattle.std.specs.Prelude.{◌≡◌};
ghost use Rattle.goblin_mach_c.specs.CViews.{gm_ctx_view};

use mach_base::{Container, Ctx, Endian};

/// An opened image: numbers of its header and its commands.
#[derive(Clone, Copy)]
#[repr(C)]
pub struct gm_image {
    /// The offset of its header in the bytes.
    pub offset: usize,
    /// The address of its entry point, or 0.
    pub entry: u64,
    /// The address of its first byte in memory, or 0.
    pub base: u64,
    /// The offset of its first command.
    pub first_command: usize,
    pub commands: usize,
    /// How many segments, libraries, run paths and symbols it has.
    pub segments: usize,
    pub libraries: usize,
    pub run_paths: usize,
    pub symbols: usize,
    /// The offsets of its symbols and of their names.
    pub symbols_at: usize,
    pub names_at: usize,
    pub magic: u32,
    pub cputype: u32,
    pub cpusubtype: u32,
    pub filetype: u32,
    pub flags: u32,
    /// 0 or 1 each.
    pub is_lossy: u32,
    pub is_old_style_entry: u32,
    pub is_little_endian: u32,
    pub is_64: u32,
    pub reserved: u32,
}

/// Returns the width and the byte order of an image.
pub fn ctx_of(image: &gm_image) -> Ctx
    ensures { result ≡ gm_ctx_view image.now }
{
    let container = if image.is_64 == 0 {
        Container::Little
    } else {
        Container::Big
    };
    let le = if image.is_little_endian == 0 {
        Endian::Big
    } else {
        Endian::Little
    };
    Ctx::new(container, le)
}

/// Returns the version of the interface, which is that of the matching header.
#[unsafe(no_mangle)]
pub extern "C" fn gmr_version() -> u32
    ensures { result ≡ 1 }
{
    1
}
