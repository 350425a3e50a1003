//! The names that load commands give an image as a library.

ghost use Rattle.std.specs.Prelude.{◌≡◌, map, option_map, OnOk};
ghost use Rattle.std.specs.Io.KnownBytes.{Appends};
ghost use Rattle.std.specs.Iterator.{YieldsFirstBy};
ghost use Rattle.std.specs.List.{filter_map};
ghost use Rattle.mach_load.specs.Variants.{command_of};
ghost use Rattle.goblin_mach.specs.OpenImage.{bytes_view, commands_view};
ghost use Rattle.mach_cli.specs.Fields.{field_view};
ghost use Rattle.machinfo.specs.OwnNames.{own_name_by, own_name_fields, own_name_members, own_name_read, own_name_view, own_names_left, version_columns};
ghost use Rattle.machinfo.specs.RowFields.{fields_read};

use goblin_mach::load_command::{CommandVariant, Dylib, LoadCommand};
use goblin_mach::{MachO, Result, id_place, read_text};
use mach_cli::{Field, FieldsForm, ItemList, Value};
use std::alloc::Allocator;
use std::io;
use std::io::Write;

/// The name that a command gives an image as a library, and its versions.
#[derive(Clone, Copy)]
pub struct OwnName<'a> {
    /// The name.
    pub name: &'a str,
    /// What else the command has: its versions.
    pub dylib: Dylib,
}

/// The names that the commands from a number on give an image as a library.
#[derive(Clone, Copy)]
pub struct OwnNames<'a, 'b> {
    /// The bytes that hold the names.
    pub bytes: &'a [u8],
    /// The commands.
    pub commands: &'b [LoadCommand],
    /// The number of the next one.
    pub number: usize,
}

// Returns the name that a command gives the image, or why it can't be read.
fn own_name_by<'a>(bytes: &'a [u8], command: &LoadCommand) -> Option<Result<OwnName<'a>>>
    ensures { option_map own_name_read result ≡ own_name_by bytes.now (command_of command.now) }
{
    let CommandVariant::IdDylib(id) = &command.command else {
        return None;
    };
    let dylib = id.dylib;
    match read_text(bytes, id_place(command)?) {
        Ok(name) => Some(Ok(OwnName { name, dylib })),
        Err(error) => Some(Err(error)),
    }
}

impl<'a, 'b> OwnNames<'a, 'b> {
    /// Returns the names of an image.
    pub fn of<A: Allocator>(image: &'b MachO<'a, A>) -> Self
        ensures { own_names_left result ≡ filter_map (own_name_by (bytes_view image.now)) (commands_view image.now) }
    {
        OwnNames {
            bytes: image.bytes(),
            commands: image.load_commands.as_slice(),
            number: 0,
        }
    }

    // Returns the next name, or why it can't be read.
    fn take_next(&mut self) -> Option<Result<OwnName<'a>>>
        ensures { YieldsFirstBy own_name_read own_names_left self.old result self.new }
    {
        'commands: while let Some(command) = self.commands.get(self.number) {
            self.number += 1;
            if let Some(name) = own_name_by(self.bytes, command) {
                return Some(name);
            }
        }
        None
    }
}

impl<'a, 'b> ItemList for OwnNames<'a, 'b> {
    type Item = OwnName<'a>;

    ghost fields = { λ item. own_name_fields (own_name_view item) };

    ghost items_left = { λ s. fields_read own_name_fields (own_names_left s) };

    #[tactic(auto, using(crate::proofs::ListRows::next_fields))]
    fn next_item(&mut self) -> Option<Result<OwnName<'a>>> {
        self.take_next()
    }

    fn write_item<F: FieldsForm, O: Write>(name: &OwnName<'a>, out: &mut O) -> io::Result<()>
        ensures { OnOk result (Appends (O.contents out.old) (O.contents out.new) (F.fields_text (own_name_fields (own_name_view name.now)))) }
    {
        let Dylib {
            current_version,
            compatibility_version,
            ..
        } = name.dylib;
        let versions = version_columns(current_version, compatibility_version);
        F::write_both(&own_name_members(*name), &versions, out)
    }
}

// Returns the name and the versions as an object has them.
fn own_name_members<'a>(name: OwnName<'a>) -> [Field<'a>; 3]
    ensures { map field_view result ≡ own_name_members (own_name_view name.entry) }
{
    let least = Value::Number(u64::from(name.dylib.compatibility_version));
    let current = Value::Number(u64::from(name.dylib.current_version));
    [
        Field::new("name", Value::Text(name.name), 1),
        Field::of_object("compatibility_version", least),
        Field::of_object("current_version", current),
    ]
}

/// Returns the columns of the current version and of the oldest compatible one.
pub fn version_columns(current: u32, compatible: u32) -> [Field<'static>; 2]
    ensures { map field_view result ≡ version_columns current compatible }
{
    [
        Field::of_line(Value::Version(current), 2),
        Field::of_line(Value::Version(compatible), 3),
    ]
}
