//! Conversions of headers between the two widths, and how they are read and written.

ghost use Rattle.std.specs.Prelude.{◌≡◌, ◌<◌};

use crate::header::{Header, Header32, Header64, SIZEOF_HEADER_32, SIZEOF_HEADER_64};
use mach_base::{
    Container, Ctx, Error, IntoCtx, Record, Result, SizeWith, TryFromCtx, TryIntoCtx, low_bits,
};

impl From<Header32> for Header {
    ghost use Rattle.mach_parts.specs.Header.{header_of_32};

    ghost from_gives = { λ header wide. wide ≡ header_of_32 header };

    fn from(header: Header32) -> Header {
        Header {
            magic: header.magic,
            cputype: header.cputype,
            cpusubtype: header.cpusubtype,
            filetype: header.filetype,
            ncmds: header.ncmds as usize,
            sizeofcmds: header.sizeofcmds,
            flags: header.flags,
            reserved: 0,
        }
    }
}

impl From<Header64> for Header {
    ghost use Rattle.mach_parts.specs.Header.{held};

    ghost from_gives = { λ header wide. wide ≡ held header };

    fn from(header: Header64) -> Header {
        Header {
            magic: header.magic,
            cputype: header.cputype,
            cpusubtype: header.cpusubtype,
            filetype: header.filetype,
            ncmds: header.ncmds as usize,
            sizeofcmds: header.sizeofcmds,
            flags: header.flags,
            reserved: header.reserved,
        }
    }
}

impl From<Header> for Header32 {
    ghost use Rattle.mach_parts.specs.Header.{narrowed32};

    ghost from_gives = { λ header narrow. narrow ≡ narrowed32 header };

    /// Keeps the low 32 bits of `ncmds` and drops `reserved`.
    fn from(header: Header) -> Header32 {
        Header32 {
            magic: header.magic,
            cputype: header.cputype,
            cpusubtype: header.cpusubtype,
            filetype: header.filetype,
            ncmds: low_bits(header.ncmds as u64),
            sizeofcmds: header.sizeofcmds,
            flags: header.flags,
        }
    }
}

impl From<Header> for Header64 {
    ghost use Rattle.mach_parts.specs.Header.{narrowed64};

    ghost from_gives = { λ header narrow. narrow ≡ narrowed64 header };

    /// Keeps the low 32 bits of `ncmds`.
    fn from(header: Header) -> Header64 {
        Header64 {
            magic: header.magic,
            cputype: header.cputype,
            cpusubtype: header.cpusubtype,
            filetype: header.filetype,
            ncmds: low_bits(header.ncmds as u64),
            sizeofcmds: header.sizeofcmds,
            flags: header.flags,
            reserved: header.reserved,
        }
    }
}

impl<'a> TryFromCtx<'a, Ctx> for Header {
    type Error = Error;

    ghost use Rattle.mach_base.specs.Fault.{fault_of};
    ghost use Rattle.mach_base.specs.Front.{same_fault};
    ghost use Rattle.mach_parts.specs.declared.header.Header as declared;
    ghost use Rattle.mach_parts.specs.Header.{header_front};

    ghost fault = { fault_of };

    ghost keeps_fault = { same_fault };

    ghost View = { declared.Header };

    ghost view = { λ header. header };

    ghost front = { header_front };

    /// Reads the header at the start of at least 32 bytes. This also holds for a 32-bit image, whose header has 28.
    fn try_from_ctx(bytes: &'a [u8], ctx: Ctx) -> Result<(Header, usize)> {
        if bytes.len() < SIZEOF_HEADER_64 {
            return Err(Error::Malformed("the file ends in its header"));
        }
        match ctx.container {
            Container::Little => Ok((
                Header::from(Header32::load(bytes, ctx.le)),
                SIZEOF_HEADER_32,
            )),
            Container::Big => Ok((
                Header::from(Header64::load(bytes, ctx.le)),
                SIZEOF_HEADER_64,
            )),
        }
    }
}

impl TryIntoCtx<Ctx> for Header {
    ghost use Rattle.std.proofs.Common.{zero-lt-suc};
    ghost use Rattle.mach_parts.specs.Header.{header_size, header_spelling};
    ghost use Rattle.mach_base.specs.declared.context.Container.TheVariants.{Little, Big};

    ghost spelled = { λ ctx header. header_spelling ctx.container ctx.le header };

    ghost width = { λ ctx _. header_size ctx.container };

    ghost not_empty = { λ ctx _. elim ctx.container as (λ w. 0 < header_size w) [ Little ↦ zero-lt-suc _ | Big ↦ zero-lt-suc _ ] };

    /// Writes the header in the width of the context. Its magic is written unchanged.
    fn try_into_ctx(self, bytes: &mut [u8], ctx: Ctx) -> Result<usize> {
        match ctx.container {
            Container::Little => Header32::from(self).write(bytes, 0, ctx.le),
            Container::Big => Header64::from(self).write(bytes, 0, ctx.le),
        }
    }
}

impl IntoCtx<Ctx> for Header {}

impl SizeWith<Ctx> for Header {
    ghost use Rattle.mach_parts.specs.Header.{header_size};

    ghost size = { λ ctx. header_size ctx.container };

    fn size_with(ctx: &Ctx) -> usize {
        Header::size_with(&ctx.container)
    }
}

impl SizeWith<Container> for Header {
    ghost use Rattle.mach_parts.specs.Header.{header_size};

    ghost size = { header_size };

    fn size_with(container: &Container) -> usize {
        match container {
            Container::Little => SIZEOF_HEADER_32,
            Container::Big => SIZEOF_HEADER_64,
        }
    }
}
