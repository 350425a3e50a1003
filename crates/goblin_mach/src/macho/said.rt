//! What single commands say of an image.

ghost use Rattle.std.specs.Prelude.{◌≡◌, option_map};
ghost use Rattle.goblin_mach.specs.OpenImage.{bytes_view, commands_view};
ghost use Rattle.goblin_mach.specs.Readings.{first_of};
ghost use Rattle.goblin_mach.specs.Said.{uuid_in, build_version_said, build_versions_in, source_version_in, encryption_in, dylinker_in};
ghost use Rattle.goblin_mach.specs.Said.{dyld_environment_in, dyld_setting_said, fileset_entries_in, fileset_entry_said};
ghost use Rattle.goblin_mach.specs.SaidLeft.{said_left, said_text};

use crate::macho::MachO;
use crate::named_bytes::NamedBytes;
use crate::said::{
    BuildVersion, BuildVersionIterator, BuildVersions, DyldEnvironmentIterator, DyldSettings,
    Dylinkers, Encryption, Encryptions, FilesetEntries, FilesetEntryIterator, SourceVersions,
    SubjectIterator, Uuids, first_said,
};
use mach_base::{KeptText, Result};
use std::alloc::Allocator;

impl<'a, A: Allocator> MachO<'a, A> {
    // Returns the image's bytes, to read texts in them.
    fn named_bytes(&self) -> NamedBytes<'a>
        ensures { result.bytes.now ≡ bytes_view self.now }
    {
        NamedBytes {
            bytes: self.bytes,
            names: KeptText::new(self.bytes),
        }
    }

    /// Returns the UUID of the image: that of the first `LC_UUID` among the load commands that it holds, as dyld.
    pub fn uuid(&self) -> Option<[u8; 16]>
        ensures { result ≡ uuid_in (commands_view self.now) }
    {
        first_said(Uuids, self.load_commands.as_slice())
    }

    /// Returns the systems that the image was built for, with the versions of each, by the `LC_BUILD_VERSION` and
    /// `LC_VERSION_MIN_` commands that it holds, in their order. As dyld reads them, `LC_VERSION_MIN_IPHONEOS`, `_TVOS` and
    /// `_WATCHOS` of an image for x86 or x86-64 mean the simulators of these systems. `build_tools` has the tools. It
    /// allocates nothing.
    pub fn build_versions<'b>(&'b self) -> BuildVersionIterator<'b>
        ensures { said_left (λ s. build_version_said s.cputype) result ≡ build_versions_in self.now.header.cputype (commands_view self.now) }
    {
        SubjectIterator::new(
            BuildVersions {
                cputype: self.header.cputype,
            },
            self.load_commands.as_slice(),
        )
    }

    /// Returns the first of the systems that the image was built for, in the order of `build_versions`.
    pub fn build_version(&self) -> Option<BuildVersion>
        ensures { result ≡ first_of (build_versions_in self.now.header.cputype (commands_view self.now)) }
    {
        self.build_versions().next()
    }

    /// Returns the version of the image's sources, A.B.C.D.E in 24, 10, 10, 10 and 10 bits: that of the first
    /// `LC_SOURCE_VERSION` among the load commands that it holds.
    pub fn source_version(&self) -> Option<u64>
        ensures { result ≡ source_version_in (commands_view self.now) }
    {
        first_said(SourceVersions, self.load_commands.as_slice())
    }

    /// Returns which bytes of the image are encrypted: those of the first `LC_ENCRYPTION_INFO` or `LC_ENCRYPTION_INFO_64`
    /// among the load commands that it holds, as dyld. It doesn't test whether they are in the bytes.
    pub fn encryption(&self) -> Option<Encryption>
        ensures { result ≡ encryption_in (commands_view self.now) }
    {
        first_said(Encryptions, self.load_commands.as_slice())
    }

    /// Returns the name of the dynamic linker that the image requires: that of the first `LC_LOAD_DYLINKER` among the load
    /// commands that it holds, as the kernel, or the error of this name.
    pub fn dylinker(&self) -> Option<Result<&'a str>>
        ensures { option_map said_text result ≡ dylinker_in (bytes_view self.now) (commands_view self.now) }
    {
        first_said(
            Dylinkers {
                source: self.named_bytes(),
            },
            self.load_commands.as_slice(),
        )
    }

    /// Returns the settings for the dynamic linker in the `LC_DYLD_ENVIRONMENT` commands that the image holds, in their
    /// order, each as `NAME=value`. A setting that can't be read is its error. It allocates nothing.
    pub fn dyld_environment<'b>(&'b self) -> DyldEnvironmentIterator<'a, 'b>
        ensures { said_left (λ s. dyld_setting_said s.source.bytes.now) result ≡ dyld_environment_in (bytes_view self.now) (commands_view self.now) }
    {
        SubjectIterator::new(
            DyldSettings {
                source: self.named_bytes(),
            },
            self.load_commands.as_slice(),
        )
    }

    /// Returns the images of a file set, such as a kernel with its extensions, by the `LC_FILESET_ENTRY` commands that the
    /// image holds, in their order. An entry whose name can't be read is its error. `parse` opens an entry at its offset. It
    /// allocates nothing.
    pub fn fileset_entries<'b>(&'b self) -> FilesetEntryIterator<'a, 'b>
        ensures { said_left (λ s. fileset_entry_said s.source.bytes.now) result ≡ fileset_entries_in (bytes_view self.now) (commands_view self.now) }
    {
        SubjectIterator::new(
            FilesetEntries {
                source: self.named_bytes(),
            },
            self.load_commands.as_slice(),
        )
    }
}
