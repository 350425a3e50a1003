//! Reads load commands, one after another.

ghost use Rattle.std.specs.Prelude.{◌≡◌, ◌+◌, Ok, IfOk, IfErr, IfSome, IfNone};
ghost use Rattle.mach_base.specs.Answer.{Reads};
ghost use Rattle.mach_load.specs.Command.{command_at, cmdsize_of, IsThread, IsThreadOrRefused};
ghost use Rattle.mach_load.specs.Variants.{command_of};

use crate::variant::{CommandVariant, record};
use mach_base::{Endian, Error, Record, Result, TryFromCtx, rest_at};
use mach_records::{LC_THREAD, LC_UNIXTHREAD, LoadCommandHeader};

/// A load command and its place.
#[derive(Clone, Copy, Debug)]
pub struct LoadCommand {
    /// The offset of its first byte, counted from byte 0.
    pub offset: usize,
    /// Its record.
    pub command: CommandVariant,
}

impl LoadCommand {
    /// Reads the load command at `offset` and moves the offset by its `cmdsize`. On an error the offset is unchanged.
    pub fn parse(bytes: &[u8], offset: &mut usize, le: Endian) -> Result<LoadCommand>
        ensures found { Reads command_of result (command_at le bytes.now offset.old) }
        ensures offset { IfOk result (λ c. c.offset ≡ offset.old) }
        ensures moved { IfOk result (λ c. offset.new ≡ offset.old + cmdsize_of (command_of c)) }
        ensures stays { IfErr result (λ _. offset.new ≡ offset.old) }
    {
        let start = *offset;
        let header = LoadCommandHeader::read(bytes, start, le)?;
        let size = header.cmdsize as usize;
        if size > bytes.len() - start {
            return Err(Error::Malformed("a load command passes the end"));
        }
        let command = CommandVariant::read(bytes, start, le, header)?;
        *offset += size;
        Ok(LoadCommand {
            offset: start,
            command,
        })
    }

    /// Does the same as `parse` for a command that can be read and is no thread. Otherwise returns `None` and leaves the offset unchanged.
    #[inline(always)]
    pub fn quick(bytes: &[u8], offset: &mut usize, le: Endian) -> Option<LoadCommand>
        ensures found { IfSome result (λ c. command_at le bytes.now offset.old ≡ Ok (command_of c)) }
        ensures moved { IfSome result (λ c. offset.new ≡ offset.old + cmdsize_of (command_of c)) }
        ensures no_thread { IfSome result (λ c. ¬ IsThread (command_of c)) }
        ensures none { IfNone result (IsThreadOrRefused (command_at le bytes.now offset.old)) }
        ensures stays { IfNone result (offset.new ≡ offset.old) }
    {
        let place = *offset;
        if place >= bytes.len() {
            return None;
        }
        let rest = rest_at(bytes, place);
        let mut lacking = 0;
        let Some(header) = record::<LoadCommandHeader>(rest, le, &mut lacking) else {
            return None;
        };
        if header.cmd == LC_THREAD || header.cmd == LC_UNIXTHREAD {
            return None;
        }
        if header.cmdsize as usize > rest.len() {
            return None;
        }
        let Some(command) = CommandVariant::quick(rest, le, header, &mut lacking) else {
            return None;
        };
        *offset = place + header.cmdsize as usize;
        Some(LoadCommand {
            offset: place,
            command,
        })
    }
}

impl<'a> TryFromCtx<'a, Endian> for CommandVariant {
    type Error = Error;

    ghost use Rattle.mach_base.specs.Fault.{fault_of};
    ghost use Rattle.mach_base.specs.Front.{same_fault};
    ghost use Rattle.mach_load.specs.Command.{Command, command_front};

    ghost fault = { fault_of };

    ghost keeps_fault = { same_fault };

    ghost View = { Command };

    ghost view = { λ v. command_of (record { offset = 0; command = v }) };

    ghost front = { command_front };

    /// Reads the load command at the start of the bytes. Its width is its `cmdsize`.
    fn try_from_ctx(bytes: &'a [u8], le: Endian) -> Result<(Self, usize)> {
        let mut width = 0;
        let command = LoadCommand::parse(bytes, &mut width, le)?;
        Ok((command.command, width))
    }
}
