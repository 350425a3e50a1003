//! What single commands say of an image, subject by subject, and one iterator for all subjects.

ghost use Rattle.std.specs.Prelude.{◌≡◌, ℕ, List, Option, Result, filter_map, map, option_map};
ghost use Rattle.mach_base.specs.Fault.{Fault};
ghost use Rattle.mach_load.specs.Command.{Command};
ghost use Rattle.mach_load.specs.Variants.{command_of};
ghost use Rattle.goblin_mach.specs.Readings.{first_of};
ghost use Rattle.goblin_mach.specs.Said as defined;
ghost use Rattle.goblin_mach.specs.Said.{FilesetEntryView, uuid_said, build_version_said, source_version_said, encryption_said};
ghost use Rattle.goblin_mach.specs.Said.{dylinker_said, dyld_setting_said, fileset_entry_at, fileset_entry_said};
ghost use Rattle.goblin_mach.specs.SaidLeft.{fileset_entry_read, said_left, said_text};

use crate::named_bytes::NamedBytes;
use crate::subjects::place_of;
use mach_base::Result;
use mach_load::{CommandVariant, LoadCommand};
use mach_records::cputype::{CPU_TYPE_X86, CPU_TYPE_X86_64};
use mach_records::{
    PLATFORM_IOS, PLATFORM_IOSSIMULATOR, PLATFORM_MACOS, PLATFORM_TVOS, PLATFORM_TVOSSIMULATOR,
    PLATFORM_WATCHOS, PLATFORM_WATCHOSSIMULATOR, VersionMinCommand,
};
use std::fmt;
use std::fmt::{Debug, Formatter, Write};
use std::slice::Iter;

/// A system that an image was built for (struct build_version_command, struct version_min_command).
#[derive(Clone, Copy, Debug, PartialEq)]
pub struct BuildVersion {
    /// The system: one of the `PLATFORM_` constants.
    pub platform: u32,
    /// The oldest version of the system, X.Y.Z in 16, 8 and 8 bits.
    pub minos: u32,
    /// The version of the SDK it was built with, X.Y.Z in 16, 8 and 8 bits.
    pub sdk: u32,
}

/// The encrypted bytes of an image (struct encryption_info_command, struct encryption_info_command_64).
#[derive(Clone, Copy, Debug, PartialEq)]
pub struct Encryption {
    /// Their offset in the image.
    pub offset: u32,
    /// Their number.
    pub size: u32,
    /// The method of encryption; 0 if they are not encrypted yet.
    pub id: u32,
}

/// An image within a file set, such as a kernel extension (struct fileset_entry_command).
#[derive(Clone, Copy, Debug)]
pub struct FilesetEntry<'a> {
    /// Its name: a slice of the bytes.
    pub name: &'a str,
    /// Its address in memory.
    pub address: u64,
    /// Its offset in the file.
    pub offset: u64,
}

/// Reads what commands say on one subject.
pub trait CommandReader: Drop {
    /// What a command says.
    type Item: Drop;

    // What contracts see of it.
    ghost Seen: { Type 0 };

    ghost seen: { Self.Item → Seen };

    // What each command says, if it concerns the subject.
    ghost said: { Self → Command → Option Seen };

    /// Reads a command, if it concerns the subject.
    fn read(&mut self, command: &LoadCommand) -> Option<Self::Item>
        ensures item { option_map seen result ≡ said self.old (command_of command.now) }
        ensures same { said self.new ≡ said self.old };
}

/// An iterator over what some commands say on one subject, in their order. It allocates nothing.
#[derive(Clone, Drop)]
pub struct SubjectIterator<'b, R> {
    reader: R,
    commands: Iter<'b, LoadCommand>,
}

impl<'b, R: CommandReader> SubjectIterator<'b, R> {
    // Returns what these commands say, by a reader.
    pub(crate) fn new(reader: R, commands: &'b [LoadCommand]) -> Self
        ensures { said_left R.said result ≡ filter_map (R.said reader) (map command_of commands.now) }
    {
        SubjectIterator {
            reader,
            commands: commands.iter(),
        }
    }
}

impl<'b, R: CommandReader> Iterator for SubjectIterator<'b, R> {
    type Item = R::Item;

    ghost use Rattle.std.specs.Iterator.{YieldsFirstBy, item_count};

    ghost next_gives = { YieldsFirstBy R.seen (said_left R.said) };

    ghost remaining = { item_count (said_left R.said) };

    fn next(&mut self) -> Option<R::Item> {
        'commands: loop {
            match self.commands.next() {
                None => return None,
                Some(command) => {
                    if let Some(item) = self.reader.read(command) {
                        return Some(item);
                    }
                }
            }
        }
    }
}

impl<R> Debug for SubjectIterator<'_, R> {
    /// Formats only the number of commands left.
    fn fmt<W: Write>(&self, f: &mut Formatter<W>) -> fmt::Result {
        f.debug_struct("SubjectIterator")
            .field("commands", &self.commands.len())
            .finish()
    }
}

/// Returns what the first command that concerns a subject says on it.
pub(crate) fn first_said<R: CommandReader>(reader: R, commands: &[LoadCommand]) -> Option<R::Item>
    ensures { option_map R.seen result ≡ first_of (filter_map (R.said reader) (map command_of commands.now)) }
{
    SubjectIterator::new(reader, commands).next()
}

/// Reads the UUIDs of images.
#[derive(Clone, Copy)]
pub struct Uuids;

impl CommandReader for Uuids {
    type Item = [u8; 16];

    ghost Seen = { List ℕ };

    ghost seen = { λ uuid. uuid };

    ghost said = { λ _. uuid_said };

    fn read(&mut self, command: &LoadCommand) -> Option<[u8; 16]> {
        match &command.command {
            CommandVariant::Uuid(c) => Some(c.uuid),
            _ => None,
        }
    }
}

/// Reads the systems that an image was built for.
#[derive(Clone, Copy)]
pub struct BuildVersions {
    /// The cpu of the image: one of the `CPU_TYPE_` constants.
    pub cputype: u32,
}

/// The systems that an image was built for.
pub type BuildVersionIterator<'b> = SubjectIterator<'b, BuildVersions>;

// Returns a system with the versions of its command.
fn version_of(platform: u32, minos: u32, sdk: u32) -> Option<BuildVersion>
    ensures { result ≡ Some (record { platform = platform; minos = minos; sdk = sdk }) }
{
    Some(BuildVersion {
        platform,
        minos,
        sdk,
    })
}

impl BuildVersions {
    // Returns the system of a `LC_VERSION_MIN_` command, or its simulator on x86.
    fn or_simulator(
        &self,
        system: u32,
        simulator: u32,
        versions: &VersionMinCommand,
    ) -> Option<BuildVersion>
        ensures { result ≡ Some (record {
          platform = defined.system_or_simulator self.now.cputype system simulator;
          minos = versions.now.version;
          sdk = versions.now.sdk;
        }) }
    {
        let is_x86 = self.cputype == CPU_TYPE_X86 || self.cputype == CPU_TYPE_X86_64;
        let platform = if is_x86 { simulator } else { system };
        version_of(platform, versions.version, versions.sdk)
    }
}

impl CommandReader for BuildVersions {
    type Item = BuildVersion;

    ghost use Rattle.goblin_mach.specs.declared.said.BuildVersion.{BuildVersion};

    ghost Seen = { BuildVersion };

    ghost seen = { λ version. version };

    ghost said = { λ s. build_version_said s.cputype };

    fn read(&mut self, command: &LoadCommand) -> Option<BuildVersion> {
        match &command.command {
            CommandVariant::BuildVersion(c) => version_of(c.platform, c.minos, c.sdk),
            CommandVariant::VersionMinMacosx(c) => version_of(PLATFORM_MACOS, c.version, c.sdk),
            CommandVariant::VersionMinIphoneos(c) => {
                self.or_simulator(PLATFORM_IOS, PLATFORM_IOSSIMULATOR, c)
            }
            CommandVariant::VersionMinTvos(c) => {
                self.or_simulator(PLATFORM_TVOS, PLATFORM_TVOSSIMULATOR, c)
            }
            CommandVariant::VersionMinWatchos(c) => {
                self.or_simulator(PLATFORM_WATCHOS, PLATFORM_WATCHOSSIMULATOR, c)
            }
            _ => None,
        }
    }
}

/// Reads the versions of sources.
#[derive(Clone, Copy)]
pub struct SourceVersions;

impl CommandReader for SourceVersions {
    type Item = u64;

    ghost Seen = { ℕ };

    ghost seen = { λ version. version };

    ghost said = { λ _. source_version_said };

    fn read(&mut self, command: &LoadCommand) -> Option<u64> {
        match &command.command {
            CommandVariant::SourceVersion(c) => Some(c.version),
            _ => None,
        }
    }
}

/// Reads which bytes are encrypted.
#[derive(Clone, Copy)]
pub struct Encryptions;

// Returns a range of encrypted bytes.
fn encrypted(offset: u32, size: u32, id: u32) -> Option<Encryption>
    ensures { result ≡ Some (record { offset = offset; size = size; id = id }) }
{
    Some(Encryption { offset, size, id })
}

impl CommandReader for Encryptions {
    type Item = Encryption;

    ghost use Rattle.goblin_mach.specs.declared.said.Encryption.{Encryption};

    ghost Seen = { Encryption };

    ghost seen = { λ range. range };

    ghost said = { λ _. encryption_said };

    fn read(&mut self, command: &LoadCommand) -> Option<Encryption> {
        match &command.command {
            CommandVariant::EncryptionInfo32(c) => encrypted(c.cryptoff, c.cryptsize, c.cryptid),
            CommandVariant::EncryptionInfo64(c) => encrypted(c.cryptoff, c.cryptsize, c.cryptid),
            _ => None,
        }
    }
}

/// Reads the names of dynamic linkers that images require.
#[derive(Clone, Copy)]
pub struct Dylinkers<'a> {
    pub(crate) source: NamedBytes<'a>,
}

impl<'a> CommandReader for Dylinkers<'a> {
    type Item = Result<&'a str>;

    ghost Seen = { Result (List ℕ) Fault };

    ghost seen = { said_text };

    ghost said = { λ s. dylinker_said s.source.bytes.now };

    fn read(&mut self, command: &LoadCommand) -> Option<Result<&'a str>> {
        match &command.command {
            CommandVariant::LoadDylinker(c) => {
                Some(self.source.read(place_of(command.offset, c.name)))
            }
            _ => None,
        }
    }
}

/// Reads the settings for the dynamic linker.
#[derive(Clone, Copy)]
pub struct DyldSettings<'a> {
    pub(crate) source: NamedBytes<'a>,
}

/// The settings for the dynamic linker that are in an image, or their errors.
pub type DyldEnvironmentIterator<'a, 'b> = SubjectIterator<'b, DyldSettings<'a>>;

impl<'a> CommandReader for DyldSettings<'a> {
    type Item = Result<&'a str>;

    ghost Seen = { Result (List ℕ) Fault };

    ghost seen = { said_text };

    ghost said = { λ s. dyld_setting_said s.source.bytes.now };

    fn read(&mut self, command: &LoadCommand) -> Option<Result<&'a str>> {
        match &command.command {
            CommandVariant::DyldEnvironment(c) => {
                Some(self.source.read(place_of(command.offset, c.name)))
            }
            _ => None,
        }
    }
}

/// Reads the entries of a file set.
#[derive(Clone, Copy)]
pub struct FilesetEntries<'a> {
    pub(crate) source: NamedBytes<'a>,
}

/// The images of a file set, or the errors of their names.
pub type FilesetEntryIterator<'a, 'b> = SubjectIterator<'b, FilesetEntries<'a>>;

impl<'a> FilesetEntries<'a> {
    // Reads the entry whose name has a place.
    fn entry(&mut self, place: usize, address: u64, offset: u64) -> Result<FilesetEntry<'a>>
        ensures entry { fileset_entry_read result ≡ fileset_entry_at self.old.source.bytes.now place address offset }
        ensures bytes { self.new.source.bytes ≡ self.old.source.bytes }
    {
        let name = self.source.read(place)?;
        Ok(FilesetEntry {
            name,
            address,
            offset,
        })
    }
}

impl<'a> CommandReader for FilesetEntries<'a> {
    type Item = Result<FilesetEntry<'a>>;

    ghost Seen = { Result FilesetEntryView Fault };

    ghost seen = { fileset_entry_read };

    ghost said = { λ s. fileset_entry_said s.source.bytes.now };

    fn read(&mut self, command: &LoadCommand) -> Option<Result<FilesetEntry<'a>>> {
        match &command.command {
            CommandVariant::FilesetEntry(c) => {
                let place = place_of(command.offset, c.entry_id);
                Some(self.entry(place, c.vmaddr, c.fileoff))
            }
            _ => None,
        }
    }
}
