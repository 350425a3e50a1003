//! What single commands give for an image: its UUID, and its platforms.

ghost use Rattle.std.specs.Prelude.{◌≡◌, option_map};
ghost use Rattle.std.specs.Iterator.{YieldsFirstBy};
ghost use Rattle.goblin_mach.specs.OpenImage.{commands_view};
ghost use Rattle.mach_load.specs.Variants.{command_of};
ghost use Rattle.mach_audit.specs.FactRows.{fact_view, platform_by, facts_within, facts_left};
ghost use Rattle.mach_audit.specs.FactRows as defined;

use crate::fact::Fact;
use goblin_mach::MachO;
use goblin_mach::load_command::{
    CommandVariant, LoadCommand, PLATFORM_IOS, PLATFORM_MACOS, PLATFORM_TVOS, PLATFORM_WATCHOS,
};
use std::alloc::Allocator;

/// A platform that a command names, its oldest system version, and the version of the SDK that the image was built with.
#[derive(Clone, Copy)]
pub struct PlatformFact {
    /// The number of the platform (`mach-o/loader.h`, `PLATFORM_`).
    pub platform: u32,
    /// The oldest system version that the image supports.
    pub least: u32,
    /// The version of the SDK, or 0.
    pub sdk: u32,
}

/// A question to each command.
#[derive(Clone, Copy)]
pub enum Question {
    /// What is the UUID of the image?
    Uuid,
    /// Which platform does it name?
    Platform,
}

// Returns a platform with the versions of a command.
fn platform_of(platform: u32, least: u32, sdk: u32) -> Option<PlatformFact>
    ensures { result ≡ Some (record { platform = platform; least = least; sdk = sdk }) }
{
    Some(PlatformFact {
        platform,
        least,
        sdk,
    })
}

// Returns the platform that a command names, if it names one.
fn platform_by(command: &LoadCommand) -> Option<PlatformFact>
    ensures { result ≡ platform_by (command_of command.now) }
{
    match &command.command {
        CommandVariant::BuildVersion(c) => platform_of(c.platform, c.minos, c.sdk),
        CommandVariant::VersionMinMacosx(c) => platform_of(PLATFORM_MACOS, c.version, c.sdk),
        CommandVariant::VersionMinIphoneos(c) => platform_of(PLATFORM_IOS, c.version, c.sdk),
        CommandVariant::VersionMinTvos(c) => platform_of(PLATFORM_TVOS, c.version, c.sdk),
        CommandVariant::VersionMinWatchos(c) => platform_of(PLATFORM_WATCHOS, c.version, c.sdk),
        _ => None,
    }
}

/// Returns the UUID that a command gives, if it gives one.
pub fn uuid_by(command: &LoadCommand) -> Option<[u8; 16]>
    ensures { result ≡ defined.uuid_by (command_of command.now) }
{
    match &command.command {
        CommandVariant::Uuid(c) => Some(c.uuid),
        _ => None,
    }
}

// Returns the answer of a command to a question, if it has one.
fn fact_of<'a>(question: Question, command: &LoadCommand) -> Option<Fact<'a>>
    ensures { option_map fact_view result ≡ defined.fact_of question (command_of command.now) }
{
    match question {
        Question::Uuid => Some(Fact::Uuid(uuid_by(command)?)),
        Question::Platform => Some(Fact::Platform(platform_by(command)?)),
    }
}

/// The answers of the commands from a number on.
#[derive(Clone, Copy)]
pub struct CommandFacts<'b> {
    /// The question.
    pub question: Question,
    /// The commands.
    pub commands: &'b [LoadCommand],
    /// The number of the next one.
    pub number: usize,
}

impl<'b> CommandFacts<'b> {
    /// Returns the answers of an image's commands.
    pub fn of<A: Allocator>(question: Question, image: &'b MachO<'_, A>) -> Self
        ensures { facts_left result ≡ facts_within question (commands_view image.now) }
    {
        CommandFacts {
            question,
            commands: image.load_commands.as_slice(),
            number: 0,
        }
    }

    /// Returns the next answer.
    pub fn take_next<'a>(&mut self) -> Option<Fact<'a>>
        ensures { YieldsFirstBy fact_view facts_left self.old result self.new }
    {
        'commands: while let Some(command) = self.commands.get(self.number) {
            self.number += 1;
            if let Some(fact) = fact_of(self.question, command) {
                return Some(fact);
            }
        }
        None
    }
}
