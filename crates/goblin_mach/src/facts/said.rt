//! Laws between an opened image and the facts on its bytes: on what single commands say of it.

ghost use Rattle.goblin_mach.specs.Modes.{HoldsAs};
ghost use Rattle.goblin_mach.specs.OpenImage.{bytes_view, commands_view};
ghost use Rattle.goblin_mach.specs.Said.{uuid_in, build_versions_in, source_version_in, encryption_in, dylinker_in, dyld_environment_in, fileset_entries_in};
ghost use Rattle.goblin_mach.specs.SaidFacts.{HasUuid, HasBuildVersions, HasSourceVersion, HasEncryption, HasDylinker, HasDyldEnvironment};
ghost use Rattle.goblin_mach.specs.SaidFacts.{HasFilesetEntries};

use crate::macho::MachO;
use std::alloc::Allocator;

/// The UUID that `MachO::uuid` returns is that of the bytes.
pub fn uuid_of_image<A: Allocator>(image: &MachO<'_, A>)
    ensures { HoldsAs image.now HasUuid (uuid_in (commands_view image.now)) }
{}

/// The systems that `MachO::build_versions` returns are those of the bytes, and `MachO::build_version` returns the first.
pub fn build_versions_of_image<A: Allocator>(image: &MachO<'_, A>)
    ensures { HoldsAs image.now HasBuildVersions (build_versions_in image.now.header.cputype (commands_view image.now)) }
{}

/// The version that `MachO::source_version` returns is that of the bytes.
pub fn source_version_of_image<A: Allocator>(image: &MachO<'_, A>)
    ensures { HoldsAs image.now HasSourceVersion (source_version_in (commands_view image.now)) }
{}

/// The range that `MachO::encryption` returns is that of the bytes.
pub fn encryption_of_image<A: Allocator>(image: &MachO<'_, A>)
    ensures { HoldsAs image.now HasEncryption (encryption_in (commands_view image.now)) }
{}

/// The name that `MachO::dylinker` returns, or its fault, is that of the bytes.
pub fn dylinker_of_image<A: Allocator>(image: &MachO<'_, A>)
    ensures { HoldsAs image.now HasDylinker (dylinker_in (bytes_view image.now) (commands_view image.now)) }
{}

/// The settings that `MachO::dyld_environment` returns are those of the bytes.
pub fn dyld_environment_of_image<A: Allocator>(image: &MachO<'_, A>)
    ensures { HoldsAs image.now HasDyldEnvironment (dyld_environment_in (bytes_view image.now) (commands_view image.now)) }
{}

/// The entries that `MachO::fileset_entries` returns are those of the bytes.
pub fn fileset_entries_of_image<A: Allocator>(image: &MachO<'_, A>)
    ensures { HoldsAs image.now HasFilesetEntries (fileset_entries_in (bytes_view image.now) (commands_view image.now)) }
{}
