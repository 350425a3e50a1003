//! The libraries of an image, each with the way the image loads it.

ghost use Rattle.std.specs.Prelude.{◌≡◌, ◌+◌, ◌∷◌, [], ℕ, List, map, option_map, unwrap_or, codes, slice_get, Some};
ghost use Rattle.mach_base.specs.Text.{texts};
ghost use Rattle.mach_load.specs.Command.{Command};
ghost use Rattle.mach_load.specs.Variants.{command_of};
ghost use Rattle.goblin_mach.specs.Libraries.{LibraryView, library_kind, dylib_of_values, named_by, of_ordinal, library_view, libraries_in, libraries_left};
ghost use Rattle.goblin_mach.specs.Libraries.{attributes_of_flags, attributes_of_kind, has_use_flags, library_attributes};
ghost use Rattle.mach_base.specs.declared.context.Endian.{Endian};
ghost use Rattle.goblin_mach.specs.Modes.{InBothModes};
ghost use Rattle.goblin_mach.specs.OpenImage.{bytes_view, commands_view, ctx_view};
ghost use Rattle.goblin_mach.specs.Readings.{values_read, first_of};
ghost use Rattle.goblin_mach.specs.Subjects.{libs_in, own_name_in};

use crate::macho::MachO;
use crate::named_bytes::NamedBytes;
use mach_base::{ByteCount, Endian, KeptText, read_u32};
use mach_load::{CommandVariant, LoadCommand};
use mach_records::Dylib;
use std::alloc::Allocator;
use std::fmt;
use std::fmt::{Debug, Formatter, Write};
use std::slice::Iter;

/// The way an image loads a library: which of the five library commands it uses (`mach-o/loader.h`).
#[derive(Clone, Copy, Debug, PartialEq)]
pub enum LibraryKind {
    /// `LC_LOAD_DYLIB`: the image needs it.
    Required,
    /// `LC_LOAD_WEAK_DYLIB`: it may be missing.
    Weak,
    /// `LC_REEXPORT_DYLIB`: the image re-exports what it exports.
    Reexport,
    /// `LC_LOAD_UPWARD_DYLIB`: it may need the image in turn.
    Upward,
    /// `LC_LAZY_LOAD_DYLIB`: it is loaded when it is first used.
    Lazy,
}

/// How a library is used (struct dylib_use_command): by the flags of its command if it has any, else by the command's number.
#[derive(Clone, Copy, Debug, PartialEq)]
pub struct LibraryAttributes {
    /// It may be missing.
    pub is_weak: bool,
    /// The image re-exports what it exports.
    pub is_reexport: bool,
    /// It may need the image in turn.
    pub is_upward: bool,
    /// It is initialized when it is first used.
    pub is_delayed: bool,
}

impl LibraryAttributes {
    // Returns the attributes in the flags of a command.
    fn of_flags(flags: u32) -> LibraryAttributes
        ensures { result ≡ attributes_of_flags flags }
    {
        LibraryAttributes {
            is_weak: flags & 1 != 0,
            is_reexport: flags & 2 != 0,
            is_upward: flags & 4 != 0,
            is_delayed: flags & 8 != 0,
        }
    }

    // Returns the attributes that a kind of command means.
    fn of_kind(kind: LibraryKind) -> LibraryAttributes
        ensures { result ≡ attributes_of_kind kind }
    {
        LibraryAttributes {
            is_weak: kind == LibraryKind::Weak,
            is_reexport: kind == LibraryKind::Reexport,
            is_upward: kind == LibraryKind::Upward,
            is_delayed: false,
        }
    }

    /// Returns how the library of a command of this kind is used: by the four bytes at 24, if the command has the marker of
    /// a struct dylib_use_command, else by the kind.
    pub fn of(
        bytes: &[u8],
        le: Endian,
        command: &LoadCommand,
        kind: LibraryKind,
    ) -> LibraryAttributes
        ensures { result ≡ library_attributes le bytes.now (command_of command.now) kind }
    {
        if has_use_flags(command) {
            match read_u32(bytes, command.offset.saturating_add(24), le) {
                Ok(flags) => LibraryAttributes::of_flags(flags),
                Err(_) => LibraryAttributes::of_kind(kind),
            }
        } else {
            LibraryAttributes::of_kind(kind)
        }
    }
}

/// A library that an image loads (struct dylib).
#[derive(Clone, Copy, Debug)]
pub struct Library<'a> {
    /// Its place in the image's `libs`, by which imports and re-exports name it: 1 for the first.
    pub ordinal: usize,
    /// Its name: a slice of the image's bytes.
    pub name: &'a str,
    /// The way the image loads it, by the number of its command only.
    pub kind: LibraryKind,
    /// When it was built, in seconds since 1970.
    pub timestamp: u32,
    /// Its version when the image was linked, X.Y.Z in 16, 8 and 8 bits.
    pub current_version: u32,
    /// The oldest version that the image accepts, X.Y.Z in 16, 8 and 8 bits.
    pub compatibility_version: u32,
    /// How it is used.
    pub attributes: LibraryAttributes,
}

/// Returns the way a command loads a library, with its struct dylib, if it loads one.
#[inline(always)]
pub fn brought(command: &LoadCommand) -> Option<(LibraryKind, Dylib)>
    ensures { let c = command_of command.now in result ≡ option_map (λ kind. (kind, dylib_of_values c.values)) (library_kind c.kind) }
{
    match &command.command {
        CommandVariant::LoadDylib(c) => Some((LibraryKind::Required, c.dylib)),
        CommandVariant::LoadWeakDylib(c) => Some((LibraryKind::Weak, c.dylib)),
        CommandVariant::ReexportDylib(c) => Some((LibraryKind::Reexport, c.dylib)),
        CommandVariant::LoadUpwardDylib(c) => Some((LibraryKind::Upward, c.dylib)),
        CommandVariant::LazyLoadDylib(c) => Some((LibraryKind::Lazy, c.dylib)),
        _ => None,
    }
}

// The timestamp of a command that has flags after its record.
const DYLIB_USE_MARKER: u32 = 0x1a74_1800;

// Whether a command has flags that state how its library is used.
fn has_use_flags(command: &LoadCommand) -> bool
    ensures { result ≡ has_use_flags (command_of command.now) }
{
    match &command.command {
        CommandVariant::LoadDylib(c) | CommandVariant::LoadWeakDylib(c) => {
            c.cmdsize >= 28 && c.dylib.name == 28 && c.dylib.timestamp == DYLIB_USE_MARKER
        }
        _ => false,
    }
}

/// An iterator over the libraries of an image, by ordinal. It scans the load commands once and allocates nothing.
#[derive(Clone, Drop)]
pub struct LibraryIterator<'a, 'b> {
    source: NamedBytes<'a>,
    le: Endian,
    commands: Iter<'b, LoadCommand>,
    ordinal: usize,
}

impl<'a, 'b> LibraryIterator<'a, 'b> {
    // Returns the libraries that these commands load, from ordinal 1 on.
    pub(crate) fn new(bytes: &'a [u8], le: Endian, commands: &'b [LoadCommand]) -> Self
        ensures { libraries_left result ≡ libraries_in le bytes.now (map command_of commands.now) }
    {
        LibraryIterator {
            source: NamedBytes {
                bytes,
                names: KeptText::new(bytes),
            },
            le,
            commands: commands.iter(),
            ordinal: 1,
        }
    }

    // Returns the library that a command loads, with the current ordinal, if its name can be read.
    #[inline(always)]
    fn library(&mut self, command: &LoadCommand) -> Option<Library<'a>>
        ensures library { option_map library_view result ≡ option_map (of_ordinal self.old.ordinal)
            (first_of (values_read (named_by self.old.le self.old.source.bytes.now (command_of command.now)))) }
        ensures bytes { self.new.source.bytes ≡ self.old.source.bytes }
        ensures le { self.new.le ≡ self.old.le }
        ensures commands { self.new.commands ≡ self.old.commands }
        ensures ordinal { self.new.ordinal ≡ self.old.ordinal }
    {
        let (kind, dylib) = brought(command)?;
        let place = command.offset.saturating_add(dylib.name as usize);
        let Ok(name) = self.source.read(place) else {
            return None;
        };
        let bytes = self.source.bytes;
        Some(Library {
            ordinal: self.ordinal,
            name,
            kind,
            timestamp: dylib.timestamp,
            current_version: dylib.current_version,
            compatibility_version: dylib.compatibility_version,
            attributes: LibraryAttributes::of(bytes, self.le, command, kind),
        })
    }
}

impl<'a, 'b> Default for LibraryIterator<'a, 'b> {
    ghost is_default = { λ it. libraries_left it ≡ [] };

    /// Returns an iterator without libraries.
    fn default() -> Self {
        LibraryIterator {
            source: NamedBytes {
                bytes: &[],
                names: KeptText::new(&[]),
            },
            le: Endian::Little,
            commands: [].iter(),
            ordinal: 1,
        }
    }
}

impl<'a, 'b> Iterator for LibraryIterator<'a, 'b> {
    type Item = Library<'a>;

    ghost use Rattle.std.specs.Iterator.{YieldsFirstBy, item_count};

    ghost next_gives = { YieldsFirstBy library_view libraries_left };

    ghost remaining = { item_count libraries_left };

    fn next(&mut self) -> Option<Library<'a>> {
        'commands: loop {
            match self.commands.next() {
                None => return None,
                Some(command) => {
                    if let Some(library) = self.library(command) {
                        self.ordinal = self.ordinal.saturating_add(1);
                        return Some(library);
                    }
                }
            }
        }
    }
}

impl Debug for LibraryIterator<'_, '_> {
    /// Formats the number of commands left, the next ordinal and, of the bytes, only their number.
    fn fmt<W: Write>(&self, f: &mut Formatter<W>) -> fmt::Result {
        f.debug_struct("LibraryIterator")
            .field("bytes", &ByteCount(self.source.bytes))
            .field("commands", &self.commands.len())
            .field("ordinal", &self.ordinal)
            .finish()
    }
}

/// The libraries with their kinds are those of `libs`: the names are the same, in the same order, and each library's ordinal
/// is its place there.
pub fn libraries_by_ordinal()
    ensures names { (le : Endian) (bytes : List ℕ) (cs : List Command)
        → libs_in bytes cs ≡ unwrap_or (own_name_in bytes cs) (codes "self") ∷ map (λ l. l.name) (libraries_in le bytes cs) }
    ensures ordinals { (le : Endian) (bytes : List ℕ) (cs : List Command) (k : ℕ) (l : LibraryView)
        → slice_get (libraries_in le bytes cs) k ≡ Some l → l.ordinal ≡ k + 1 }
{}

/// The name that an opened image holds in `libs` at the ordinal of a library is that library's name.
pub fn libraries_in_libs<A: Allocator>(image: &MachO<'_, A>)
    ensures { InBothModes image.now (λ bytes o. (k : ℕ) (l : LibraryView)
        → slice_get (libraries_in (ctx_view image.now).le (bytes_view image.now) (commands_view image.now)) k ≡ Some l
        → slice_get (texts image.now.libs.items) l.ordinal ≡ Some l.name) }
{}
