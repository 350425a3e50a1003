//! The state of a thread.

ghost use Rattle.std.specs.Prelude.{◌≡◌, ◌≤◌, ◌+◌, ◌*◌, ◌^◌, length};
ghost use Rattle.mach_base.specs.Answer.{Reads};
ghost use Rattle.mach_load.specs.ThreadState.{thread_at, thread_values, state_at, pointer_in};

use mach_base::{Endian, Error, Record, RecordBytes, Result, TryFromCtx};
use mach_records::cputype::{
    CPU_TYPE_ARM, CPU_TYPE_ARM64, CPU_TYPE_ARM64_32, CPU_TYPE_POWERPC, CPU_TYPE_X86,
    CPU_TYPE_X86_64,
};

/// The state of a thread: at most 70 words, and zeros after the first `count` (struct thread_command).
#[derive(Clone, Copy, Debug)]
pub struct ThreadCommand {
    /// Its number: one of the `LC_` constants.
    pub cmd: u32,
    /// Its size in bytes.
    pub cmdsize: u32,
    /// Which registers the words are. Its meaning depends on the CPU.
    pub flavor: u32,
    /// How many words are in the file.
    pub count: u32,
    /// The registers, of one or two words each.
    pub thread_state: [u32; 70],
}

// The fields before the words.
#[derive(Clone, Copy, Debug)]
struct ThreadHead {
    cmd: u32,
    cmdsize: u32,
    flavor: u32,
    count: u32,
}

impl Record for ThreadHead {
    const SIZE: usize = 16;

    ghost SIZE = { 16 };

    ghost use Rattle.std.specs.Prelude.{[], ◌∷◌};
    ghost use Rattle.std.proofs.Common.{rules};
    ghost use Rattle.mach_base.specs.Record.{number_is, number_among};
    ghost use Rattle.mach_load.specs.ThreadState.{thread_fields};

    ghost fields = { thread_fields };

    ghost values = { λ r. number_is r.cmd ∷ number_is r.cmdsize ∷ number_is r.flavor ∷ number_is r.count ∷ [] };

    ghost lawful = { Prim.search rules };

    fn load(bytes: &[u8], le: Endian) -> Self {
        ThreadHead {
            cmd: le.u32_at(bytes, 0),
            cmdsize: le.u32_at(bytes, 4),
            flavor: le.u32_at(bytes, 8),
            count: le.u32_at(bytes, 12),
        }
    }

    fn store(self, le: Endian) -> RecordBytes {
        RecordBytes::new()
            .u32(le, self.cmd)
            .u32(le, self.cmdsize)
            .u32(le, self.flavor)
            .u32(le, self.count)
    }
}

// Reads `count` words from `place` on, and fills the rest with zeros.
fn state(bytes: &[u8], place: usize, count: usize, le: Endian) -> [u32; 70]
    requires held { count ≤ 70 }
    requires there { place + 4 * count ≤ length bytes.now }
    ensures { result ≡ state_at le bytes.now place count }
{
    let mut state = [0; 70];
    for i in 0..count {
        state[i] = le.u32_at(bytes, place + 4 * i);
    }
    state
}

impl ThreadCommand {
    /// Reads the thread command at `offset`.
    #[tactic(auto, unfolding(crate::specs::ThreadState::thread_at))]
    #[inline(never)]
    pub(crate) fn read(bytes: &[u8], offset: usize, le: Endian) -> Result<Self>
        ensures { Reads thread_values result (thread_at le bytes.now offset) }
    {
        let head = ThreadHead::read(bytes, offset, le)?;
        let count = head.count as usize;
        if count > 70 {
            return Err(Error::Malformed("a thread has more than 70 words"));
        }
        if bytes.len() - offset - 16 < 4 * count {
            return Err(Error::Malformed("the words of a thread pass the end"));
        }
        Ok(ThreadCommand {
            cmd: head.cmd,
            cmdsize: head.cmdsize,
            flavor: head.flavor,
            count: head.count,
            thread_state: state(bytes, offset + 16, count, le),
        })
    }

    /// Returns the address at which the thread continues, for the given CPU type. `flavor` and `count` are not tested.
    pub fn instruction_pointer(&self, cputype: u32) -> Result<u64>
        ensures { Reads (λ pointer. pointer) result (pointer_in self.now.thread_state cputype) }
    {
        let words = &self.thread_state;
        match cputype {
            CPU_TYPE_X86 => Ok(u64::from(words[10])),
            CPU_TYPE_X86_64 => Ok(joined(words[32], words[33])),
            CPU_TYPE_ARM => Ok(u64::from(words[15])),
            CPU_TYPE_ARM64 | CPU_TYPE_ARM64_32 => Ok(joined(words[64], words[65])),
            CPU_TYPE_POWERPC => Ok(u64::from(words[0])),
            _ => Err(Error::Malformed("the registers of this cpu aren't known")),
        }
    }
}

impl<'a> TryFromCtx<'a, Endian> for ThreadCommand {
    type Error = Error;

    ghost use Rattle.std.specs.Prelude.{List};
    ghost use Rattle.mach_base.specs.Fault.{fault_of};
    ghost use Rattle.mach_base.specs.Front.{same_fault};
    ghost use Rattle.mach_base.specs.Record.{Value};
    ghost use Rattle.mach_load.specs.ThreadState.{thread_front};

    ghost fault = { fault_of };

    ghost keeps_fault = { same_fault };

    ghost View = { List Value };

    ghost view = { thread_values };

    ghost front = { thread_front };

    /// Reads the thread command at the start of the bytes. Its width is its `cmdsize`.
    fn try_from_ctx(bytes: &'a [u8], le: Endian) -> Result<(Self, usize)> {
        let thread = ThreadCommand::read(bytes, 0, le)?;
        Ok((thread, thread.cmdsize as usize))
    }
}

// Joins two words to one number, the low word first.
fn joined(low: u32, high: u32) -> u64
    ensures { result ≡ low + 2 ^ 32 * high }
{
    u64::from(low) + (u64::from(high) << 32)
}
