//! The platform, the tools and the sources of an image (`mach-o/loader.h`).

ghost use Rattle.std.specs.Prelude.{◌≡◌};

use crate::command_names::{
    LC_VERSION_MIN_IPHONEOS, LC_VERSION_MIN_MACOSX, LC_VERSION_MIN_TVOS, LC_VERSION_MIN_WATCHOS,
};
use mach_base::{Endian, Error, Record, RecordBytes};

/// A system that the number of a `LC_VERSION_MIN_` command names.
#[derive(Clone, Copy, Debug)]
pub enum Platform {
    /// macOS.
    Macos = LC_VERSION_MIN_MACOSX as isize,
    /// iOS.
    Iphoneos = LC_VERSION_MIN_IPHONEOS as isize,
    /// tvOS.
    Tvos = LC_VERSION_MIN_TVOS as isize,
    /// watchOS.
    Watchos = LC_VERSION_MIN_WATCHOS as isize,
}

impl TryFrom<u32> for Platform {
    type Error = Error;

    ghost use Rattle.mach_records.specs.Platform.{GivesPlatform};

    ghost try_from_gives = { GivesPlatform };

    /// Returns the platform that a command number names.
    fn try_from(cmd: u32) -> Result<Platform, Error> {
        match cmd {
            LC_VERSION_MIN_MACOSX => Ok(Platform::Macos),
            LC_VERSION_MIN_IPHONEOS => Ok(Platform::Iphoneos),
            LC_VERSION_MIN_TVOS => Ok(Platform::Tvos),
            LC_VERSION_MIN_WATCHOS => Ok(Platform::Watchos),
            _ => Err(Error::Malformed("the command names no platform")),
        }
    }
}

/// The oldest system that the image runs on (struct version_min_command, the four `LC_VERSION_MIN_` commands).
#[derive(Clone, Copy, Debug)]
pub struct VersionMinCommand {
    /// Its number: one of the `LC_` constants.
    pub cmd: u32,
    /// Its size in bytes.
    pub cmdsize: u32,
    /// The version of the system, X.Y.Z in 16, 8 and 8 bits.
    pub version: u32,
    /// The version of the SDK it was built with, X.Y.Z in 16, 8 and 8 bits.
    pub sdk: u32,
}

/// The size of a `VersionMinCommand` in bytes.
pub const SIZEOF_VERSION_MIN_COMMAND: usize = 16;

impl Record for VersionMinCommand {
    const SIZE: usize = SIZEOF_VERSION_MIN_COMMAND;

    ghost SIZE = { 16 };

    ghost use Rattle.mach_records.specs.Versions.{version_min_command_fields, version_min_command_values};
    ghost use Rattle.std.proofs.Common.{rules};

    ghost fields = { version_min_command_fields };

    ghost values = { version_min_command_values };

    ghost lawful = { Prim.search rules };

    fn load(bytes: &[u8], le: Endian) -> Self {
        VersionMinCommand {
            cmd: le.u32_at(bytes, 0),
            cmdsize: le.u32_at(bytes, 4),
            version: le.u32_at(bytes, 8),
            sdk: le.u32_at(bytes, 12),
        }
    }

    fn store(self, le: Endian) -> RecordBytes {
        RecordBytes::new()
            .u32(le, self.cmd)
            .u32(le, self.cmdsize)
            .u32(le, self.version)
            .u32(le, self.sdk)
    }
}

impl VersionMinCommand {
    ghost use Rattle.mach_records.specs.Platform.{IsPlatformCmd, platform_cmd};

    /// Builds the command that names a platform. Its versions are 0.
    pub fn new(platform: Platform) -> Self
        ensures { result ≡ record { cmd = platform_cmd platform; cmdsize = SIZEOF_VERSION_MIN_COMMAND; version = 0; sdk = 0 } }
    {
        VersionMinCommand {
            cmd: platform as u32,
            cmdsize: SIZEOF_VERSION_MIN_COMMAND as u32,
            version: 0,
            sdk: 0,
        }
    }

    /// Returns the platform that the command names. `Platform::try_from` tests whether `cmd` names one.
    pub fn platform(&self) -> Platform
        requires { IsPlatformCmd self.now.cmd }
        ensures { self.now.cmd ≡ platform_cmd result }
    {
        Platform::try_from(self.cmd).unwrap()
    }
}

/// The platform that the image was built for (struct build_version_command, `LC_BUILD_VERSION`).
#[derive(Clone, Copy, Debug)]
pub struct BuildVersionCommand {
    /// Its number: one of the `LC_` constants.
    pub cmd: u32,
    /// Its size in bytes.
    pub cmdsize: u32,
    /// One of the `PLATFORM_` constants.
    pub platform: u32,
    /// The oldest version of the system, X.Y.Z in 16, 8 and 8 bits.
    pub minos: u32,
    /// The version of the SDK it was built with, X.Y.Z in 16, 8 and 8 bits.
    pub sdk: u32,
    /// How many records of tools follow this one.
    pub ntools: u32,
}

impl Record for BuildVersionCommand {
    const SIZE: usize = 24;

    ghost SIZE = { 24 };

    ghost use Rattle.mach_records.specs.Versions.{build_version_command_fields, build_version_command_values};
    ghost use Rattle.std.proofs.Common.{rules};

    ghost fields = { build_version_command_fields };

    ghost values = { build_version_command_values };

    ghost lawful = { Prim.search rules };

    fn load(bytes: &[u8], le: Endian) -> Self {
        BuildVersionCommand {
            cmd: le.u32_at(bytes, 0),
            cmdsize: le.u32_at(bytes, 4),
            platform: le.u32_at(bytes, 8),
            minos: le.u32_at(bytes, 12),
            sdk: le.u32_at(bytes, 16),
            ntools: le.u32_at(bytes, 20),
        }
    }

    fn store(self, le: Endian) -> RecordBytes {
        RecordBytes::new()
            .u32(le, self.cmd)
            .u32(le, self.cmdsize)
            .u32(le, self.platform)
            .u32(le, self.minos)
            .u32(le, self.sdk)
            .u32(le, self.ntools)
    }
}

/// macOS.
pub const PLATFORM_MACOS: u32 = 1;

/// iOS.
pub const PLATFORM_IOS: u32 = 2;

/// tvOS.
pub const PLATFORM_TVOS: u32 = 3;

/// watchOS.
pub const PLATFORM_WATCHOS: u32 = 4;

/// bridgeOS.
pub const PLATFORM_BRIDGEOS: u32 = 5;

/// iOS on macOS.
pub const PLATFORM_MACCATALYST: u32 = 6;

/// The simulator of iOS.
pub const PLATFORM_IOSSIMULATOR: u32 = 7;

/// The simulator of tvOS.
pub const PLATFORM_TVOSSIMULATOR: u32 = 8;

/// The simulator of watchOS.
pub const PLATFORM_WATCHOSSIMULATOR: u32 = 9;

/// Drivers of macOS.
pub const PLATFORM_DRIVERKIT: u32 = 10;

/// visionOS.
pub const PLATFORM_VISIONOS: u32 = 11;

/// The simulator of visionOS.
pub const PLATFORM_VISIONOSSIMULATOR: u32 = 12;

/// A tool that the image was built with (struct build_tool_version).
#[derive(Clone, Copy, Debug)]
pub struct BuildToolVersion {
    /// One of the `TOOL_` constants.
    pub tool: u32,
    /// Its version, X.Y.Z in 16, 8 and 8 bits.
    pub version: u32,
}

impl Record for BuildToolVersion {
    const SIZE: usize = 8;

    ghost SIZE = { 8 };

    ghost use Rattle.mach_records.specs.Versions.{build_tool_version_fields, build_tool_version_values};
    ghost use Rattle.std.proofs.Common.{rules};

    ghost fields = { build_tool_version_fields };

    ghost values = { build_tool_version_values };

    ghost lawful = { Prim.search rules };

    fn load(bytes: &[u8], le: Endian) -> Self {
        BuildToolVersion {
            tool: le.u32_at(bytes, 0),
            version: le.u32_at(bytes, 4),
        }
    }

    fn store(self, le: Endian) -> RecordBytes {
        RecordBytes::new().u32(le, self.tool).u32(le, self.version)
    }
}

/// The compiler clang.
pub const TOOL_CLANG: u32 = 1;

/// The compiler of Swift.
pub const TOOL_SWIFT: u32 = 2;

/// The linker ld.
pub const TOOL_LD: u32 = 3;

/// The linker lld.
pub const TOOL_LLD: u32 = 4;

/// The version of the sources that the image was built from (struct source_version_command, `LC_SOURCE_VERSION`).
#[derive(Clone, Copy, Debug)]
pub struct SourceVersionCommand {
    /// Its number: one of the `LC_` constants.
    pub cmd: u32,
    /// Its size in bytes.
    pub cmdsize: u32,
    /// A.B.C.D.E in 24, 10, 10, 10 and 10 bits.
    pub version: u64,
}

impl Record for SourceVersionCommand {
    const SIZE: usize = 16;

    ghost SIZE = { 16 };

    ghost use Rattle.mach_records.specs.Versions.{source_version_command_fields, source_version_command_values};
    ghost use Rattle.std.proofs.Common.{rules};

    ghost fields = { source_version_command_fields };

    ghost values = { source_version_command_values };

    ghost lawful = { Prim.search rules };

    fn load(bytes: &[u8], le: Endian) -> Self {
        SourceVersionCommand {
            cmd: le.u32_at(bytes, 0),
            cmdsize: le.u32_at(bytes, 4),
            version: le.u64_at(bytes, 8),
        }
    }

    fn store(self, le: Endian) -> RecordBytes {
        RecordBytes::new()
            .u32(le, self.cmd)
            .u32(le, self.cmdsize)
            .u64(le, self.version)
    }
}
