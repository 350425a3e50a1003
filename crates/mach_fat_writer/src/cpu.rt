//! The cpu of a file, from its headers.

ghost use Rattle.std.specs.Prelude.{◌≡◌, ◌≤◌, length, IsTrue};
ghost use Rattle.mach_base.specs.Answer.{Reads};
ghost use Rattle.mach_parts.specs.Magic.{magic_at};
ghost use Rattle.mach_archive.specs.ArchiveViews.{archive_of, member_read, members_left};
ghost use Rattle.mach_fat_writer.specs.CreatedEntries.{cpu_view, cpu_in, cpu_of_image, cpu_by_magic, cpu_of_member, if_cpu_of_all, cpu_of_members};
ghost use Rattle.mach_fat_writer.specs.CreatedEntries.{cpu_of_archive};
ghost use Rattle.mach_fat_writer.specs.CreatedEntries.{align_of_image, align_of_archive, is_same_cpu, members_of_archive};

use mach_archive::{Archive, Member, Members};
use mach_base::{Ctx, Error, Result, bytes_at};
use mach_parts::magic::parse_magic_and_ctx;
use mach_records::cputype::{CPU_TYPE_POWERPC, CPU_TYPE_X86, CPU_TYPE_X86_64};

/// How many bytes of a header are read: the part that headers of 32 and 64 bits share.
const HEADER_SIZE: usize = 28;

/// A PowerPC with addresses of 64 bits.
const CPU_TYPE_POWERPC64: u32 = 0x0100_0012;

/// A cpu: its type, and its kind with its capabilities.
#[derive(Clone, Copy)]
pub(crate) struct Cpu {
    pub(crate) cputype: u32,
    pub(crate) cpusubtype: u32,
}

impl Cpu {
    /// Returns the cpu in an image's header.
    pub(crate) fn of_image(bytes: &[u8], ctx: Ctx) -> Result<Cpu>
        ensures { Reads cpu_view result (cpu_of_image ctx bytes.now) }
    {
        let header = bytes_at(bytes, 0, HEADER_SIZE)?;
        Ok(Cpu {
            cputype: ctx.le.u32_at(header, 4),
            cpusubtype: ctx.le.u32_at(header, 8),
        })
    }

    // Returns the cpu of an archive member, which must be an image.
    fn of_member(bytes: &[u8]) -> Result<Cpu>
        ensures { Reads cpu_view result (cpu_by_magic (magic_at bytes.now 0) bytes.now) }
    {
        match parse_magic_and_ctx(bytes, 0) {
            Ok((_, Some(ctx))) => Cpu::of_image(bytes, ctx),
            _ => Err(Error::Malformed("a member is not an image")),
        }
    }

    // Returns the cpu of a member that was read, or the error of reading it.
    fn of_item(item: Result<Member<'_>>) -> Result<Cpu>
        ensures { Reads cpu_view result (cpu_of_member (member_read item.entry)) }
    {
        let member = item?;
        Cpu::of_member(member.bytes)
    }

    // Whether two cpus have the same type, kind and capabilities.
    fn is(self, other: Cpu) -> bool
        ensures { result ≡ is_same_cpu (cpu_view self) (cpu_view other) }
    {
        self.cputype == other.cputype && self.cpusubtype == other.cpusubtype
    }

    // Returns this cpu if each of the members has it.
    fn if_of_all(self, mut members: Members<'_>) -> Result<Cpu>
        ensures { Reads cpu_view result (if_cpu_of_all (cpu_view self) (members_left members.entry)) }
    {
        'members: loop {
            match members.next() {
                None => return Ok(self),
                Some(item) => {
                    if !Cpu::of_item(item)?.is(self) {
                        return Err(Error::Malformed("members are for different cpus"));
                    }
                }
            }
        }
    }

    // Returns the cpu of all members. There must be at least one.
    fn of_members(mut members: Members<'_>) -> Result<Cpu>
        ensures { Reads cpu_view result (cpu_of_members (members_left members.entry)) }
    {
        match members.next() {
            None => Err(Error::Malformed("the archive has no member")),
            Some(item) => Cpu::of_item(item)?.if_of_all(members),
        }
    }

    /// Returns the cpu of all members of an archive.
    pub(crate) fn of_archive(bytes: &[u8]) -> Result<Cpu>
        ensures { Reads cpu_view result (cpu_of_archive bytes.now) }
    {
        let archive = Archive::parse(bytes)?;
        Cpu::of_members(archive.members())
    }

    /// Returns the power of two that an image of this cpu is aligned to.
    pub(crate) fn image_align(self) -> u32
        ensures { result ≡ align_of_image self.cputype }
    {
        match self.cputype {
            CPU_TYPE_X86 | CPU_TYPE_X86_64 | CPU_TYPE_POWERPC | CPU_TYPE_POWERPC64 => 12,
            _ => 14,
        }
    }

    /// Returns the power of two that an archive for this cpu is aligned to. Bit 24 (CPU_ARCH_ABI64) decides.
    pub(crate) fn archive_align(self) -> u32
        ensures { result ≡ align_of_archive self.cputype }
    {
        if (self.cputype >> 24) % 2 == 1 { 3 } else { 2 }
    }
}
