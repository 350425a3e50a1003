//! What an image is, in words.

ghost use Rattle.std.specs.Prelude.{◌≡◌};
ghost use Rattle.mach_cli.specs.ImageKinds.{image_kind};

use goblin_mach::header::{
    MH_BUNDLE, MH_CORE, MH_DSYM, MH_DYLIB, MH_DYLIB_STUB, MH_DYLINKER, MH_EXECUTE, MH_FILESET,
    MH_FVMLIB, MH_GPU_DYLIB, MH_GPU_EXECUTE, MH_KEXT_BUNDLE, MH_OBJECT, MH_PRELOAD,
};

/// Returns the kind of an image in words, by the number of its header.
pub fn image_kind(filetype: u32) -> &'static str
    ensures { result.now ≡ image_kind filetype }
{
    match filetype {
        MH_OBJECT => "object",
        MH_EXECUTE => "executable",
        MH_FVMLIB => "fixed library",
        MH_CORE => "core",
        MH_PRELOAD => "preloaded executable",
        MH_DYLIB => "dynamic library",
        MH_DYLINKER => "dynamic linker",
        MH_BUNDLE => "bundle",
        MH_DYLIB_STUB => "library stub",
        MH_DSYM => "dsym",
        MH_KEXT_BUNDLE => "kext bundle",
        MH_FILESET => "file set",
        MH_GPU_EXECUTE => "GPU executable",
        MH_GPU_DYLIB => "GPU library",
        _ => "image",
    }
}
