//! What the summary says of an image's platforms and tools.

ghost use Rattle.std.specs.Prelude.{◌≡◌, Some};
ghost use Rattle.machinfo.specs.FactTexts.{platform_object, platform_text, sdk_object, sdk_text};
ghost use Rattle.machinfo.specs.Platforms.{platform_word};
ghost use Rattle.machinfo.specs.Tools.{tool_text, tool_word};

use goblin_mach::names;
use goblin_mach::names::VersionText;
use mach_audit::PlatformFact;
use std::fmt;
use std::fmt::{Display, Formatter, Write};

/// Returns the name of a platform by its number.
pub fn platform_word(number: u32) -> &'static str
    ensures { result.now ≡ platform_word number }
{
    names::platform_name(number).unwrap_or("unknown")
}

/// Returns the name of a tool by its number; none if it is not known.
pub fn tool_word(number: u32) -> &'static str
    ensures { result.now ≡ tool_word number }
{
    names::tool_name(number).unwrap_or("")
}

/// The name of a tool, or its number if that is not known.
#[derive(Clone, Copy)]
pub struct ToolText(pub u32);

impl Display for ToolText {
    ghost output = { λ t. Some (tool_text t.0) };

    fn fmt<W: Write>(&self, f: &mut Formatter<W>) -> fmt::Result {
        match names::tool_name(self.0) {
            Some(name) => f.write_str(name),
            None => {
                let number = self.0;
                write!(f, "{number}")
            }
        }
    }
}

// The version of the SDK, if it is given.
#[derive(Clone, Copy)]
struct SdkText(u32);

impl Display for SdkText {
    ghost output = { λ t. Some (sdk_text t.0) };

    fn fmt<W: Write>(&self, f: &mut Formatter<W>) -> fmt::Result {
        if self.0 == 0 {
            return Ok(());
        }
        let sdk = VersionText(self.0);
        write!(f, ", sdk {sdk}")
    }
}

/// A platform, its oldest system version, and the version of the SDK.
#[derive(Clone, Copy)]
pub struct PlatformText(pub PlatformFact);

impl Display for PlatformText {
    ghost output = { λ t. Some (platform_text t.0) };

    fn fmt<W: Write>(&self, f: &mut Formatter<W>) -> fmt::Result {
        let name = platform_word(self.0.platform);
        let (least, sdk) = (VersionText(self.0.least), SdkText(self.0.sdk));
        write!(f, "platform: {name} {least}{sdk}")
    }
}

// The version of the SDK as a value of JSON, `null` if it isn't given.
#[derive(Clone, Copy)]
struct SdkObject(u32);

impl Display for SdkObject {
    ghost output = { λ t. Some (sdk_object t.0) };

    fn fmt<W: Write>(&self, f: &mut Formatter<W>) -> fmt::Result {
        if self.0 == 0 {
            return f.write_str("null");
        }
        let sdk = VersionText(self.0);
        write!(f, "\"{sdk}\"")
    }
}

/// A platform as an object, with its versions as texts.
#[derive(Clone, Copy)]
pub struct PlatformObject(pub PlatformFact);

impl Display for PlatformObject {
    ghost output = { λ t. Some (platform_object t.0) };

    fn fmt<W: Write>(&self, f: &mut Formatter<W>) -> fmt::Result {
        let name = platform_word(self.0.platform);
        let sdk = SdkObject(self.0.sdk);
        let least = VersionText(self.0.least);
        write!(
            f,
            "{{\"name\":\"{name}\",\"sdk\":{sdk},\"version\":\"{least}\"}}"
        )
    }
}
