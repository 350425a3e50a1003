//! The rows of the summary's lists, as lines and as objects of JSON.

ghost use Rattle.std.specs.Prelude.{OnOk};
ghost use Rattle.std.specs.Io.KnownBytes.{Appends};
ghost use Rattle.goblin_mach.specs.Libraries.{library_view};
ghost use Rattle.machinfo.specs.FactTexts.{fact_lines_left, fact_object_shown, fact_objects_left, fact_shown, library_fact_text, versions_text};

use crate::lists::write_library;
use crate::text::{PlatformObject, PlatformText, ToolText};
use goblin_mach::names::{UuidText, VersionText};
use goblin_mach::{Library, Result};
use mach_audit::{Fact, FactList};
use mach_cli::{Escaped, FieldsForm, JsonString, Line, Listing, Object};
use std::io;
use std::io::Write;

/// The rows of a list as lines.
#[derive(Drop)]
pub struct FactLines<'a, 'b>(pub FactList<'a, 'b>);

impl<'a> Listing for FactLines<'a, '_> {
    type Row = Fact<'a>;

    ghost text = { fact_shown };

    ghost left = { fact_lines_left };

    fn next_row(&mut self) -> Option<Result<Fact<'a>>> {
        match self.0.take_next()? {
            Ok(fact) => Some(Ok(fact)),
            Err(error) => Some(Err(error)),
        }
    }

    fn past(&self) -> usize {
        0
    }

    fn past_name(&self) -> &'static str {
        ""
    }

    fn write_row<O: Write>(fact: &Fact<'a>, out: &mut O) -> io::Result<()> {
        match *fact {
            Fact::Uuid(uuid) => {
                let uuid = UuidText(&uuid);
                write!(out, "uuid: {uuid}")
            }
            Fact::Platform(platform) => {
                let platform = PlatformText(platform);
                write!(out, "{platform}")
            }
            Fact::Tool(tool) => {
                let (name, version) = (ToolText(tool.tool), VersionText(tool.version));
                write!(out, "tool: {name} {version}")
            }
            Fact::Library(library) => print_library::<Line, O>(library, out),
            Fact::RunPath(path) => {
                let path = Escaped(path);
                write!(out, "run path: {path}")
            }
        }
    }
}

// Prints the fields of a library in a form, and its versions.
fn print_library<F: FieldsForm, O: Write>(library: Library<'_>, out: &mut O) -> io::Result<()>
    ensures { OnOk result (Appends (O.contents out.old) (O.contents out.new) (library_fact_text F.fields_text (library_view library.entry))) }
{
    write!(out, "library: ")?;
    write_library::<F, O>(library, out)?;
    print_versions(library.current_version, library.compatibility_version, out)
}

// Prints the version of a library, and the oldest one that the image accepts.
fn print_versions<O: Write>(current: u32, least: u32, out: &mut O) -> io::Result<()>
    ensures { OnOk result (Appends (O.contents out.old) (O.contents out.new) (versions_text current least)) }
{
    let (current, least) = (VersionText(current), VersionText(least));
    write!(out, " {current}, at least {least}")
}

/// The rows of a list as objects.
#[derive(Drop)]
pub struct FactObjects<'a, 'b>(pub FactList<'a, 'b>);

impl<'a> Listing for FactObjects<'a, '_> {
    type Row = Fact<'a>;

    ghost text = { fact_object_shown };

    ghost left = { fact_objects_left };

    fn next_row(&mut self) -> Option<Result<Fact<'a>>> {
        match self.0.take_next()? {
            Ok(fact) => Some(Ok(fact)),
            Err(error) => Some(Err(error)),
        }
    }

    fn past(&self) -> usize {
        0
    }

    fn past_name(&self) -> &'static str {
        ""
    }

    fn write_row<O: Write>(fact: &Fact<'a>, out: &mut O) -> io::Result<()> {
        match *fact {
            Fact::Uuid(uuid) => {
                let uuid = UuidText(&uuid);
                write!(out, "\"{uuid}\"")
            }
            Fact::Platform(platform) => {
                let platform = PlatformObject(platform);
                write!(out, "{platform}")
            }
            Fact::Tool(tool) => {
                let (number, version) = (tool.tool, VersionText(tool.version));
                write!(out, "{{\"tool\":{number},\"version\":\"{version}\"}}")
            }
            Fact::Library(library) => write_library::<Object, O>(library, out),
            Fact::RunPath(path) => {
                let path = JsonString(path);
                write!(out, "{path}")
            }
        }
    }
}
