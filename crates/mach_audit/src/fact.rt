//! Facts of an image, in lists: UUIDs, platforms, tools, libraries and run paths.

ghost use Rattle.std.specs.Iterator.{YieldsFirstBy};
ghost use Rattle.mach_audit.specs.FactRows.{fact_read, fact_rows_left};

use crate::command_facts::{CommandFacts, PlatformFact};
use goblin_mach::load_command::BuildToolVersion;
use goblin_mach::{BuildToolIterator, Library, LibraryIterator, Result};
use std::slice::Iter;

/// A fact of an image, in a list.
#[derive(Clone, Copy)]
pub enum Fact<'a> {
    /// A UUID.
    Uuid([u8; 16]),
    /// A platform.
    Platform(PlatformFact),
    /// A tool that built the image.
    Tool(BuildToolVersion),
    /// A library that the image loads.
    Library(Library<'a>),
    /// A run path.
    RunPath(&'a str),
}

/// What is left of a list of facts.
#[derive(Drop)]
pub enum FactList<'a, 'b> {
    /// What single commands give: UUIDs or platforms.
    Commands(CommandFacts<'b>),
    /// Tools.
    Tools(BuildToolIterator<'a, 'b>),
    /// Libraries.
    Libraries(LibraryIterator<'a, 'b>),
    /// Run paths.
    Paths(Iter<'b, &'a str>),
}

impl<'a> FactList<'a, '_> {
    /// Returns the next fact, or the error if it can't be read.
    pub fn take_next(&mut self) -> Option<Result<Fact<'a>>>
        ensures { YieldsFirstBy fact_read fact_rows_left self.old result self.new }
    {
        match self {
            FactList::Commands(list) => Some(Ok(list.take_next()?)),
            FactList::Tools(list) => match list.next()? {
                Ok((_, tool)) => Some(Ok(Fact::Tool(tool))),
                Err(error) => Some(Err(error)),
            },
            FactList::Libraries(list) => Some(Ok(Fact::Library(list.next()?))),
            FactList::Paths(list) => Some(Ok(Fact::RunPath(*list.next()?))),
        }
    }
}
