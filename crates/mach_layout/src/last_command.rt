//! The last command of a kind.

ghost use Rattle.std.specs.Prelude.{◌≡◌, Option, None, filter_map, map};
ghost use Rattle.std.specs.List.{last_or};
ghost use Rattle.mach_load.specs.Command.{Command};
ghost use Rattle.mach_load.specs.Variants.{command_of};

use mach_load::LoadCommand;

/// What a command of a kind says, with its place.
pub trait Wanted: Copy {
    // What each command says, if it is of the kind.
    ghost wanted: { Command → Option Self };

    /// Returns what a command says, if it is of the kind.
    fn of(command: &LoadCommand) -> Option<Self>
        ensures { result ≡ wanted (command_of command.now) };
}

/// Returns what the last command of a kind says.
pub fn last_wanted<W: Wanted>(commands: &[LoadCommand]) -> Option<W>
    ensures { result ≡ last_or None (filter_map W.wanted (map command_of commands.now)) }
{
    let mut last = None;
    for command in commands {
        if let Some(found) = W::of(command) {
            last = Some(found);
        }
    }
    last
}
