//! The names of the flags of code signatures (`cs_blobs.h`).

ghost use Rattle.std.specs.Prelude.{◌≡◌, map};
ghost use Rattle.mach_records.specs.FlagNames.{flag_named};
ghost use Rattle.mach_records.specs.FlagNames as defined;

/// A bit of a number, and its name.
#[derive(Clone, Copy, Debug)]
pub struct FlagName {
    /// The bit.
    pub bit: u64,
    /// Its name.
    pub name: &'static str,
}

/// Returns the flags of a code directory (`CS_`) that have names, by their bits, the lowest first.
pub fn code_flags() -> [FlagName; 10]
    ensures { map flag_named result ≡ defined.code_flags }
{
    [
        FlagName {
            bit: 0x1,
            name: "host",
        },
        FlagName {
            bit: 0x2,
            name: "adhoc",
        },
        FlagName {
            bit: 0x100,
            name: "force-hard",
        },
        FlagName {
            bit: 0x200,
            name: "force-kill",
        },
        FlagName {
            bit: 0x400,
            name: "force-expiration",
        },
        FlagName {
            bit: 0x800,
            name: "restrict",
        },
        FlagName {
            bit: 0x1000,
            name: "enforcement",
        },
        FlagName {
            bit: 0x2000,
            name: "library-validation",
        },
        FlagName {
            bit: 0x10000,
            name: "runtime",
        },
        FlagName {
            bit: 0x20000,
            name: "linker-signed",
        },
    ]
}

/// Returns the flags of the executable segment of a code directory (`CS_EXECSEG_`) that have names, by their bits, the lowest first.
pub fn executable_flags() -> [FlagName; 7]
    ensures { map flag_named result ≡ defined.executable_flags }
{
    [
        FlagName {
            bit: 0x1,
            name: "main-binary",
        },
        FlagName {
            bit: 0x10,
            name: "allow-unsigned",
        },
        FlagName {
            bit: 0x20,
            name: "debugger",
        },
        FlagName {
            bit: 0x40,
            name: "jit",
        },
        FlagName {
            bit: 0x80,
            name: "skip-library-validation",
        },
        FlagName {
            bit: 0x100,
            name: "can-load-cdhash",
        },
        FlagName {
            bit: 0x200,
            name: "can-exec-cdhash",
        },
    ]
}
