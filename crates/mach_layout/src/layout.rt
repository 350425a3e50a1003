//! What the rules read of an image.

ghost use Rattle.std.specs.Prelude.{◌≡◌, ◌^◌, ◌-◌, min, map, length};
ghost use Rattle.mach_base.specs.Number.{place_after};
ghost use Rattle.mach_layout.specs.Laid as defined;
ghost use Rattle.mach_layout.specs.Laid.{laid_of};
ghost use Rattle.mach_layout.specs.Claims.{claims_of};
ghost use Rattle.mach_layout.specs.ClaimsLeft.{claims_left};
ghost use Rattle.mach_layout.specs.PartsLeft.{placed_segments_left, placed_sections_left};

use crate::claiming::ClaimIterator;
use crate::placed_sections::{SectionIterator, SegmentIterator};
use mach_base::{Container, Ctx};
use mach_load::LoadCommand;
use mach_parts::header::{
    Header, MH_BUNDLE, MH_DSYM, MH_DYLIB, MH_DYLIB_STUB, MH_DYLINKER, MH_EXECUTE, MH_OBJECT,
    SIZEOF_HEADER_32, SIZEOF_HEADER_64,
};
use mach_records::cputype::{CPU_TYPE_ARM64, CPU_TYPE_ARM64_32};

/// What the rules read of an image: the bytes and the context in which it was opened, its header and its commands.
#[derive(Clone, Copy)]
pub struct Layout<'a, 'b> {
    /// The bytes.
    pub bytes: &'a [u8],
    /// The width and the byte order.
    pub ctx: Ctx,
    /// The header.
    pub header: Header,
    /// The load commands, in order.
    pub commands: &'b [LoadCommand],
}

impl<'a, 'b> Layout<'a, 'b> {
    /// Returns the number of bytes in the file.
    pub fn size(&self) -> u64
        ensures { result ≡ defined.file_size (laid_of self.now) }
    {
        self.bytes.len() as u64
    }

    /// Returns the number of bytes in the header.
    pub fn header_len(&self) -> u64
        ensures { result ≡ defined.header_len (laid_of self.now) }
    {
        match self.ctx.container {
            Container::Little => SIZEOF_HEADER_32 as u64,
            Container::Big => SIZEOF_HEADER_64 as u64,
        }
    }

    /// Returns the place where the commands end, by the header.
    pub fn declared_end(&self) -> u64
        ensures { result ≡ defined.declared_end (laid_of self.now) }
    {
        self.header_len() + u64::from(self.header.sizeofcmds)
    }

    /// Returns the place where the last command ends, or the header if there is none; at most the last number of 64 bits.
    pub fn chain_end(&self) -> u64
        ensures { result ≡ min (defined.commands_end (laid_of self.now)) (2 ^ 64 - 1) }
    {
        match self.commands.last() {
            Some(command) => (command.offset as u64).saturating_add(
                command.command.cmdsize() as u64,
            ),
            None => self.header_len(),
        }
    }

    /// Returns the place where the header and the commands end: at most where the header states.
    pub fn used_end(&self) -> u64
        ensures { result ≡ defined.used_end (laid_of self.now) }
    {
        self.chain_end().min(self.declared_end())
    }

    /// Whether dyld or the kernel maps files of this kind.
    pub fn is_final(&self) -> bool
        ensures { result ≡ defined.is_final (laid_of self.now) }
    {
        let kind = self.header.filetype;
        kind == MH_EXECUTE || kind == MH_DYLIB || kind == MH_DYLINKER || kind == MH_BUNDLE
    }

    /// Whether the file is an object file.
    pub fn is_object(&self) -> bool
        ensures { result ≡ defined.is_object (laid_of self.now) }
    {
        self.header.filetype == MH_OBJECT
    }

    /// Whether the file is a stub library (`MH_DYLIB_STUB`).
    pub fn is_stub(&self) -> bool
        ensures { result ≡ defined.is_stub (laid_of self.now) }
    {
        self.header.filetype == MH_DYLIB_STUB
    }

    /// Whether the file is a companion file with debugging symbols (`MH_DSYM`).
    pub fn is_dsym(&self) -> bool
        ensures { result ≡ defined.is_dsym (laid_of self.now) }
    {
        self.header.filetype == MH_DSYM
    }

    /// Whether rules are defined for files of this kind.
    pub fn is_judged(&self) -> bool
        ensures { result ≡ defined.is_judged (laid_of self.now) }
    {
        self.is_final() || self.is_object() || self.is_stub() || self.is_dsym()
    }

    /// Returns the number of bytes in a page.
    pub fn page(&self) -> u64
        ensures { result ≡ defined.page_of (laid_of self.now) }
    {
        let cpu = self.header.cputype;
        if cpu == CPU_TYPE_ARM64 || cpu == CPU_TYPE_ARM64_32 {
            16384
        } else {
            4096
        }
    }

    /// Returns the segments, in the order of their commands.
    pub fn segments(&self) -> SegmentIterator<'b>
        ensures { placed_segments_left result ≡ defined.segments_of (laid_of self.now) }
    {
        SegmentIterator::new(self.commands)
    }

    /// Returns the sections whose record lies in their segment's command and in the bytes, in order.
    pub fn sections(&self) -> SectionIterator<'a, 'b>
        ensures { placed_sections_left result ≡ defined.placed_sections_of (laid_of self.now) }
    {
        SectionIterator::new(self.bytes, self.ctx, self.commands)
    }

    /// Returns the ranges of the file that the parts claim.
    pub fn claims(&self) -> ClaimIterator<'a, 'b>
        ensures { claims_left result ≡ claims_of (laid_of self.now) }
    {
        ClaimIterator::new(self)
    }
}

/// Whether `len` bytes from a start on end past a limit.
pub fn ends_past(limit: u64, start: u64, len: u64) -> bool
    ensures { result ≡ defined.ends_past limit start len }
{
    match start.checked_add(len) {
        Some(end) => end > limit,
        None => true,
    }
}

/// Returns the place where `len` bytes from a start on end; at most the last number of 64 bits.
pub fn range_end(start: u64, len: u64) -> u64
    ensures { result ≡ place_after start len }
{
    start.saturating_add(len)
}
