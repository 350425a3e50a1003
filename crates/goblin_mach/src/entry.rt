//! The address at which an image begins to run.

ghost use Rattle.std.specs.Prelude.{◌≡◌, ℕ, Some, None, Ok, if◌then◌else◌, IfOk, IfErr, map};
ghost use Rattle.mach_base.specs.Answer.{Reads, ErrorMeets};
ghost use Rattle.mach_load.specs.Variants.{command_of};
ghost use Rattle.goblin_mach.specs.EntryPoint.{address_in, main_address, main_by, pointer_by, is_text_name, text_by, entry_point_in, EntryPointFault};
ghost use Rattle.goblin_mach.specs.Readings.{AllRead};

use crate::readings::{Subject, first_read, first_readable};
use mach_base::{Error, Result, read_text};
use mach_load::{CommandVariant, LoadCommand};

/// The address and the place in the file of a segment.
#[derive(Clone, Copy)]
pub struct Mapping {
    /// Its address in memory.
    pub vmaddr: u64,
    /// Its file offset.
    pub fileoff: u64,
}

impl Mapping {
    // Returns the address of a place in the file.
    fn address(self, place: u64) -> Result<u64>
        ensures { Reads (λ address. address) result (address_in self place) }
    {
        let sum = u128::from(place) + u128::from(self.vmaddr);
        match sum.checked_sub(u128::from(self.fileoff)) {
            Some(address) if address <= u128::from(u64::MAX) => Ok(address as u64),
            _ => Err(Error::Malformed("the entry point's address does not fit in 64 bits")),
        }
    }
}

/// Whether the name field of a segment holds `__TEXT`: the text up to the first zero byte.
pub fn is_text(segname: &[u8; 16]) -> bool
    ensures { result ≡ is_text_name segname.now }
{
    match read_text(segname, 0) {
        Ok(name) => name == "__TEXT",
        Err(_) => false,
    }
}

// Returns the mapping of a segment, if it is the one of the program's text.
fn text_mapping(segname: &[u8; 16], vmaddr: u64, fileoff: u64) -> Option<Mapping>
    ensures { result ≡ (if is_text_name segname.now then Some (record { vmaddr = vmaddr; fileoff = fileoff }) else None) }
{
    if is_text(segname) {
        Some(Mapping { vmaddr, fileoff })
    } else {
        None
    }
}

/// The segments of the program's text.
#[derive(Clone, Copy)]
pub struct Texts;

impl Subject for Texts {
    type Value = Mapping;

    ghost use Rattle.goblin_mach.specs.declared.entry.Mapping.{Mapping};

    ghost Seen = { Mapping };

    ghost seen = { λ mapping. mapping };

    ghost reading = { λ _. text_by };

    fn read(&self, command: &LoadCommand) -> Option<Result<Mapping>> {
        let text = match &command.command {
            CommandVariant::Segment32(c) => {
                text_mapping(&c.segname, u64::from(c.vmaddr), u64::from(c.fileoff))
            }
            CommandVariant::Segment64(c) => text_mapping(&c.segname, c.vmaddr, c.fileoff),
            _ => None,
        };
        Some(Ok(text?))
    }
}

/// The commands that name the main program: its place in the file.
#[derive(Clone, Copy)]
pub struct Mains;

impl Subject for Mains {
    type Value = u64;

    ghost Seen = { ℕ };

    ghost seen = { λ entryoff. entryoff };

    ghost reading = { λ _. main_by };

    fn read(&self, command: &LoadCommand) -> Option<Result<u64>> {
        match &command.command {
            CommandVariant::Main(c) => Some(Ok(c.entryoff)),
            _ => None,
        }
    }
}

/// The thread states with which an image begins: their instruction pointers, by the cpu.
#[derive(Clone, Copy)]
pub struct Pointers {
    /// The cpu: one of the `CPU_TYPE_` constants.
    pub cputype: u32,
}

impl Subject for Pointers {
    type Value = u64;

    ghost Seen = { ℕ };

    ghost seen = { λ pointer. pointer };

    ghost reading = { λ s. pointer_by s.cputype };

    fn read(&self, command: &LoadCommand) -> Option<Result<u64>> {
        match &command.command {
            CommandVariant::Unixthread(c) => Some(c.instruction_pointer(self.cputype)),
            _ => None,
        }
    }
}

// Returns the address of the main program, by the segment of its text.
fn address_of_main(text: Option<Mapping>, entryoff: u64) -> Result<u64>
    ensures { Reads (λ address. address) result (main_address text entryoff) }
{
    match text {
        Some(text) => text.address(entryoff),
        None => Err(Error::Malformed("the main command has no __TEXT segment")),
    }
}

/// Returns the address at which an image begins, and whether a thread's state holds it. It is that of the first main
/// program, else of the first thread, else 0.
pub fn entry(commands: &[LoadCommand], cputype: u32) -> Result<(u64, bool)>
    ensures found { IfOk result (λ e. entry_point_in cputype (map command_of commands.now) ≡ Ok (record { address = e.0; old_style = e.1 })) }
    ensures threads { IfOk result (λ _. AllRead (pointer_by cputype) (map command_of commands.now)) }
    ensures refused { IfErr result (ErrorMeets (EntryPointFault cputype (map command_of commands.now))) }
{
    let pointer = first_read(&Pointers { cputype }, commands)?;
    match first_readable(&Mains, commands) {
        Some(entryoff) => {
            let address = address_of_main(first_readable(&Texts, commands), entryoff)?;
            Ok((address, false))
        }
        None => Ok((pointer.unwrap_or(0), pointer.is_some())),
    }
}
