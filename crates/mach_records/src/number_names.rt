//! The names of platforms, tools and protections (`mach-o/loader.h`, `mach/vm_prot.h`).

ghost use Rattle.std.specs.Prelude.{◌≡◌, option_map};
ghost use Rattle.mach_records.specs.NumberNames.{platform_name, rights_text, tool_name};

use crate::versions::{
    PLATFORM_BRIDGEOS, PLATFORM_DRIVERKIT, PLATFORM_IOS, PLATFORM_IOSSIMULATOR,
    PLATFORM_MACCATALYST, PLATFORM_MACOS, PLATFORM_TVOS, PLATFORM_TVOSSIMULATOR, PLATFORM_VISIONOS,
    PLATFORM_VISIONOSSIMULATOR, PLATFORM_WATCHOS, PLATFORM_WATCHOSSIMULATOR, TOOL_CLANG, TOOL_LD,
    TOOL_LLD, TOOL_SWIFT,
};

/// Returns the name of a platform by its number (`PLATFORM_`), if it has one.
pub fn platform_name(number: u32) -> Option<&'static str>
    ensures { option_map (λ name. name.now) result ≡ platform_name number }
{
    Some(match number {
        PLATFORM_MACOS => "macos",
        PLATFORM_IOS => "ios",
        PLATFORM_TVOS => "tvos",
        PLATFORM_WATCHOS => "watchos",
        PLATFORM_BRIDGEOS => "bridgeos",
        PLATFORM_MACCATALYST => "maccatalyst",
        PLATFORM_IOSSIMULATOR => "ios-simulator",
        PLATFORM_TVOSSIMULATOR => "tvos-simulator",
        PLATFORM_WATCHOSSIMULATOR => "watchos-simulator",
        PLATFORM_DRIVERKIT => "driverkit",
        PLATFORM_VISIONOS => "visionos",
        PLATFORM_VISIONOSSIMULATOR => "visionos-simulator",
        _ => return None,
    })
}

/// Returns the name of a tool by its number (`TOOL_`), if it has one.
pub fn tool_name(number: u32) -> Option<&'static str>
    ensures { option_map (λ name. name.now) result ≡ tool_name number }
{
    Some(match number {
        TOOL_CLANG => "clang",
        TOOL_SWIFT => "swift",
        TOOL_LD => "ld",
        TOOL_LLD => "lld",
        1024 => "metal",
        1025 => "airlld",
        1026 => "airnt",
        1027 => "airnt-plugin",
        1028 => "airpack",
        1031 => "gpuarchiver",
        1032 => "metal-framework",
        _ => return None,
    })
}

/// Returns the letters of a protection (`VM_PROT_`), for example `r-x`.
pub fn rights_name(protection: u32) -> &'static str
    ensures { result.now ≡ rights_text protection }
{
    match (
        protection & 1 != 0,
        protection & 2 != 0,
        protection & 4 != 0,
    ) {
        (false, false, false) => "---",
        (true, false, false) => "r--",
        (false, true, false) => "-w-",
        (true, true, false) => "rw-",
        (false, false, true) => "--x",
        (true, false, true) => "r-x",
        (false, true, true) => "-wx",
        (true, true, true) => "rwx",
    }
}
