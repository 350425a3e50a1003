//! When the lines of a program are coloured.

ghost use Rattle.std.specs.Prelude.{◌≡◌, false, true};
ghost use Rattle.mach_cli.specs.Calls.{is_json};
ghost use Rattle.mach_cli.specs.Colors.{color_named, is_coloured};

use crate::options::Format;
use std::env::{Env, FillError};
use std::io::IsTerminal;

/// When output is coloured.
#[derive(Clone, Copy, Debug)]
pub enum Color {
    /// If it goes to a terminal, and the environment's `NO_COLOR` is not set, or empty.
    Auto,
    /// Always.
    Always,
    /// Never.
    Never,
}

impl Color {
    /// Returns the setting of a name.
    pub fn named(word: &str) -> Option<Color>
        ensures { result ≡ color_named word.now }
    {
        match word {
            "auto" => Some(Color::Auto),
            "always" => Some(Color::Always),
            "never" => Some(Color::Never),
            _ => None,
        }
    }

    /// Whether output is coloured that goes to a terminal or not, if the environment refuses colours or not.
    pub fn is_on(self, is_terminal: bool, is_refused: bool) -> bool
        ensures { result ≡ is_coloured self is_terminal is_refused }
    {
        match self {
            Color::Auto => is_terminal && !is_refused,
            Color::Always => true,
            Color::Never => false,
        }
    }

    /// Whether the standard output of a call is coloured, if it has this form. JSON never is.
    pub fn is_for(self, rt: &HostRuntime, format: Format) -> bool
        ensures json { is_json format ≡ true → result ≡ false }
        ensures never { self ≡ Color.Never → result ≡ false }
        ensures always { self ≡ Color.Always → is_json format ≡ false → result ≡ true }
    {
        !format.is_json() && self.is_on(rt.stdout().is_terminal(), refuses_colors(rt))
    }
}

// Whether the environment's `NO_COLOR` is set and not empty.
fn refuses_colors(rt: &HostRuntime) -> bool {
    match rt.var("NO_COLOR", &mut [0u8; 1]) {
        Ok(len) => len > 0,
        Err(FillError::TooLong) => true,
        Err(FillError::NotPresent) => false,
    }
}
