//! The options that only this program has.

ghost use Rattle.std.specs.Prelude.{◌≡◌};
ghost use Rattle.machinfo.specs.InfoOptions.{no_info_options};

use mach_cli::OwnOptions;

/// What a call's own options say.
#[derive(Clone, Copy, Drop)]
pub struct InfoOptions {
    /// The lines of a list follow a heading.
    pub has_headings: bool,
    /// The line of a verdict says what turns it on.
    pub is_explained: bool,
    /// The bytes of a section are written as they are.
    pub is_raw: bool,
}

impl InfoOptions {
    /// Returns none of these options.
    pub fn none() -> InfoOptions
        ensures { result ≡ no_info_options }
    {
        InfoOptions {
            has_headings: false,
            is_explained: false,
            is_raw: false,
        }
    }
}

impl OwnOptions for InfoOptions {
    ghost use Rattle.machinfo.specs.InfoOptions.{info_option_taken};

    ghost taken = { info_option_taken };

    fn take(&mut self, argument: &str) -> bool {
        match argument {
            "--headings" => self.has_headings = true,
            "--explain" => self.is_explained = true,
            "--raw" => self.is_raw = true,
            _ => return false,
        }
        true
    }
}
