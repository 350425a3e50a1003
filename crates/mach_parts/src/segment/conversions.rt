//! Conversions of a segment to the command of either width.

ghost use Rattle.std.specs.Prelude.{◌≡◌, ◌<◌};
ghost use Rattle.mach_parts.specs.Section.{command_size};
ghost use Rattle.mach_parts.specs.Segment.{widened};

use crate::segment::Segment;
use mach_base::{Container, Ctx, IntoCtx, Record, Result, SizeWith, TryIntoCtx, low_bits};
use mach_records::{SegmentCommand32, SegmentCommand64};

// Returns the size of a segment's command in bytes.
pub(crate) fn command_len(container: Container) -> usize
    ensures { result ≡ command_size container }
{
    match container {
        Container::Little => SegmentCommand32::SIZE,
        Container::Big => SegmentCommand64::SIZE,
    }
}

// Converts the command of a 32-bit image to the 64-bit form.
pub(crate) fn widen(segment: &SegmentCommand32) -> SegmentCommand64
    ensures { result ≡ widened segment.now }
{
    SegmentCommand64 {
        cmd: segment.cmd,
        cmdsize: segment.cmdsize,
        segname: segment.segname,
        vmaddr: u64::from(segment.vmaddr),
        vmsize: u64::from(segment.vmsize),
        fileoff: u64::from(segment.fileoff),
        filesize: u64::from(segment.filesize),
        maxprot: segment.maxprot,
        initprot: segment.initprot,
        nsects: segment.nsects,
        flags: segment.flags,
    }
}

impl<'a> From<Segment<'a>> for SegmentCommand32 {
    ghost use Rattle.mach_parts.specs.Segment.{segment_command_of, narrowed};

    ghost from_gives = { λ s command. command ≡ narrowed (segment_command_of s) };

    /// Keeps the low 32 bits of addresses, places and sizes.
    fn from(segment: Segment<'a>) -> SegmentCommand32 {
        let segname = segment.segname;
        SegmentCommand32 {
            cmd: segment.cmd,
            cmdsize: segment.cmdsize,
            segname,
            vmaddr: low_bits(segment.vmaddr),
            vmsize: low_bits(segment.vmsize),
            fileoff: low_bits(segment.fileoff),
            filesize: low_bits(segment.filesize),
            maxprot: segment.maxprot,
            initprot: segment.initprot,
            nsects: segment.nsects,
            flags: segment.flags,
        }
    }
}

impl<'a> From<Segment<'a>> for SegmentCommand64 {
    ghost use Rattle.mach_parts.specs.Segment.{segment_command_of};

    ghost from_gives = { λ s command. command ≡ segment_command_of s };

    fn from(segment: Segment<'a>) -> SegmentCommand64 {
        let segname = segment.segname;
        SegmentCommand64 {
            cmd: segment.cmd,
            cmdsize: segment.cmdsize,
            segname,
            vmaddr: segment.vmaddr,
            vmsize: segment.vmsize,
            fileoff: segment.fileoff,
            filesize: segment.filesize,
            maxprot: segment.maxprot,
            initprot: segment.initprot,
            nsects: segment.nsects,
            flags: segment.flags,
        }
    }
}

impl<'a> TryIntoCtx<Ctx> for Segment<'a> {
    ghost use Rattle.mach_parts.specs.Segment.{command_bytes, segment_command_of};
    ghost use Rattle.std.proofs.Common.{zero-lt-suc};
    ghost use Rattle.mach_base.specs.declared.context.Container.TheVariants.{Little, Big};

    ghost spelled = { λ ctx s. command_bytes ctx.container ctx.le (segment_command_of s) };

    ghost width = { λ ctx _. command_size ctx.container };

    ghost not_empty = { λ ctx _. elim ctx.container as (λ w. 0 < command_size w) [ Little ↦ zero-lt-suc _ | Big ↦ zero-lt-suc _ ] };

    /// Writes the command alone, in the context's width.
    fn try_into_ctx(self, bytes: &mut [u8], ctx: Ctx) -> Result<usize> {
        match ctx.container {
            Container::Little => SegmentCommand32::from(self).try_into_ctx(bytes, ctx.le),
            Container::Big => SegmentCommand64::from(self).try_into_ctx(bytes, ctx.le),
        }
    }
}

impl<'a> IntoCtx<Ctx> for Segment<'a> {}

impl<'a> SizeWith<Ctx> for Segment<'a> {
    ghost size = { λ ctx. command_size ctx.container };

    /// Returns 56 or 72, by the context's width.
    fn size_with(ctx: &Ctx) -> usize
        ensures { result ≡ command_size ctx.now.container }
    {
        command_len(ctx.container)
    }
}
