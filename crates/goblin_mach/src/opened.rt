//! What strict and lossy mode read in the same way: the header, the commands and the entry.

ghost use Rattle.std.specs.Prelude.{◌≡◌, Ok, IfOk, IfErr};
ghost use Rattle.mach_base.specs.Answer.{ErrorMeets};
ghost use Rattle.mach_parts.specs.Header.{IsHeader};
ghost use Rattle.goblin_mach.specs.EntryPoint.{entry_point_in};
ghost use Rattle.goblin_mach.specs.Image.{HasHeader, CountsFit, LossyOpensAs, LossyFault};
ghost use Rattle.mach_parts.specs.Magic.{cputype_at, ncmds_at};

use crate::commands::read_commands;
use crate::entry::entry;
use mach_base::{Ctx, Error, Result, SizeWith, pread_with};
use mach_load::LoadCommand;
use mach_parts::header::Header;
use mach_parts::magic::parse_magic_and_ctx;
use std::alloc::Allocator;

/// What strict and lossy mode read in the same way.
#[derive(Drop)]
pub struct Opened<A: Allocator> {
    pub ctx: Ctx,
    pub header: Header,
    pub load_commands: Vec<LoadCommand, A>,
    /// The address at which the image begins, as `entry` returns it.
    pub address: u64,
    pub old_style_entry: bool,
}

// Returns the context and the header of the image at a place, if its counts can be those of an image.
fn read_header(bytes: &[u8], offset: usize) -> Result<(Ctx, Header)>
    ensures found { IfOk result (λ found. HasHeader bytes.now offset found.0) }
    ensures counts { IfOk result (λ found. CountsFit bytes.now offset found.0) }
    ensures header { IfOk result (λ found. IsHeader found.0 bytes.now offset found.1) }
    ensures ncmds { IfOk result (λ found. found.1.ncmds ≡ ncmds_at found.0 bytes.now offset) }
    ensures cputype { IfOk result (λ found. found.1.cputype ≡ cputype_at found.0 bytes.now offset) }
    ensures refused { IfErr result (ErrorMeets (LossyFault bytes.now offset)) }
{
    let (magic, ctx) = parse_magic_and_ctx(bytes, offset)?;
    let Some(ctx) = ctx else {
        return Err(Error::BadMagic(u64::from(magic)));
    };
    let header: Header = pread_with(bytes, offset, ctx)?;
    let size = header.sizeofcmds as usize;
    if header.ncmds > size / 8 || size > bytes.len() {
        return Err(Error::BufferTooShort(header.ncmds, "load commands"));
    }
    Ok((ctx, header))
}

impl<A: Allocator> Opened<A> {
    ghost use Rattle.goblin_mach.specs.OpenImage.{commands_of};

    /// Reads them at a place.
    pub fn read(alloc: A, bytes: &[u8], offset: usize) -> Result<Opened<A>>
        ensures opened { IfOk result (λ x. LossyOpensAs bytes.now offset x.ctx (commands_of x)) }
        ensures header { IfOk result (λ x. IsHeader x.ctx bytes.now offset x.header) }
        ensures entry { IfOk result (λ x. entry_point_in (cputype_at x.ctx bytes.now offset) (commands_of x)
            ≡ Ok (record { address = x.address; old_style = x.old_style_entry })) }
        ensures refused { IfErr result (ErrorMeets (LossyFault bytes.now offset)) }
    {
        let (ctx, header) = read_header(bytes, offset)?;
        let first = offset + Header::size_with(&ctx);
        let load_commands = read_commands(alloc, bytes, first, header.ncmds, ctx.le)?;
        let (address, old_style_entry) = entry(&load_commands, header.cputype)?;
        Ok(Opened {
            ctx,
            header,
            load_commands,
            address,
            old_style_entry,
        })
    }
}
