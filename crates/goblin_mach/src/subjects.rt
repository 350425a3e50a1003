//! The subjects of an image's commands: segments, libraries, its own name, run paths, symbols, the export trie and the binds.

ghost use Rattle.std.specs.Prelude.{◌≡◌, List, ℕ, Some, None, if◌then◌else◌};
ghost use Rattle.mach_base.specs.Number.{place_after};
ghost use Rattle.mach_load.specs.Variants.{command_of};
ghost use Rattle.mach_load.specs.Subjects.{is_library};
ghost use Rattle.goblin_mach.specs.Subjects.{is_run_path, name_place, library_by, id_by, run_path_by, table_by};
ghost use Rattle.mach_load.specs.Commands.{is_id};

use crate::readings::{Subject, TextSubject};
use mach_base::{Ctx, Result};
use mach_dyld::exports::ExportTrie;
use mach_dyld::imports::BindInterpreter;
use mach_load::{CommandVariant, LoadCommand};
use mach_parts::segment::Segment;
use mach_parts::symbols::Symbols;

/// Returns the place `offset` bytes after another, or the last place there is.
pub(crate) fn place_of(start: usize, offset: u32) -> usize
    ensures { result ≡ place_after start offset }
{
    start.saturating_add(offset as usize)
}

/// Returns the place of the library name in the bytes, if the command loads a library.
pub fn library_place(command: &LoadCommand) -> Option<usize>
    ensures { let c = command_of command.now in result ≡ (if is_library c.kind then Some (name_place c) else None) }
{
    match &command.command {
        CommandVariant::LoadDylib(c)
        | CommandVariant::LoadUpwardDylib(c)
        | CommandVariant::ReexportDylib(c)
        | CommandVariant::LoadWeakDylib(c)
        | CommandVariant::LazyLoadDylib(c) => Some(place_of(command.offset, c.dylib.name)),
        _ => None,
    }
}

/// Returns the place of the image's own name in the bytes, if the command gives one.
pub fn id_place(command: &LoadCommand) -> Option<usize>
    ensures { let c = command_of command.now in result ≡ (if is_id c.kind then Some (name_place c) else None) }
{
    match &command.command {
        CommandVariant::IdDylib(c) => Some(place_of(command.offset, c.dylib.name)),
        _ => None,
    }
}

/// Returns the place of the path on which libraries are searched, if the command gives one.
pub fn run_path_place(command: &LoadCommand) -> Option<usize>
    ensures { let c = command_of command.now in result ≡ (if is_run_path c.kind then Some (name_place c) else None) }
{
    match &command.command {
        CommandVariant::Rpath(c) => Some(place_of(command.offset, c.path)),
        _ => None,
    }
}

/// The libraries that the image needs, by name.
#[derive(Clone, Copy)]
pub struct Libraries<'a> {
    pub bytes: &'a [u8],
}

impl<'a> TextSubject for Libraries<'a> {
    ghost bytes = { λ s. s.bytes.now };

    ghost reading = { λ s. library_by s.bytes.now };

    #[inline(always)]
    fn place(&self, command: &LoadCommand) -> Option<usize> {
        library_place(command)
    }
}

/// The name of the image itself.
#[derive(Clone, Copy)]
pub struct Ids<'a> {
    pub bytes: &'a [u8],
}

impl<'a> TextSubject for Ids<'a> {
    ghost bytes = { λ s. s.bytes.now };

    ghost reading = { λ s. id_by s.bytes.now };

    fn place(&self, command: &LoadCommand) -> Option<usize> {
        id_place(command)
    }
}

/// The paths on which the image's libraries are searched.
#[derive(Clone, Copy)]
pub struct RunPaths<'a> {
    pub bytes: &'a [u8],
}

impl<'a> TextSubject for RunPaths<'a> {
    ghost bytes = { λ s. s.bytes.now };

    ghost reading = { λ s. run_path_by s.bytes.now };

    #[inline(always)]
    fn place(&self, command: &LoadCommand) -> Option<usize> {
        run_path_place(command)
    }
}

/// The segments of the image, with their data.
#[derive(Clone, Copy)]
pub struct SegmentData<'a> {
    pub bytes: &'a [u8],
    pub ctx: Ctx,
}

impl<'a> Subject for SegmentData<'a> {
    type Value = Segment<'a>;

    ghost use Rattle.mach_parts.specs.Segment.{SegmentView, segment_view};
    ghost use Rattle.goblin_mach.specs.Subjects.{segment_by};

    ghost Seen = { SegmentView };

    ghost seen = { segment_view };

    ghost reading = { λ s. segment_by s.ctx s.bytes.now };

    #[inline(always)]
    fn read(&self, command: &LoadCommand) -> Option<Result<Segment<'a>>> {
        let offset = command.offset;
        match &command.command {
            CommandVariant::Segment32(c) => {
                Some(Segment::from_32(self.bytes, c, offset, self.ctx))
            }
            CommandVariant::Segment64(c) => {
                Some(Segment::from_64(self.bytes, c, offset, self.ctx))
            }
            _ => None,
        }
    }
}

/// The segments of the image. Data that aren't in the bytes are empty.
#[derive(Clone, Copy)]
pub struct LossySegmentData<'a> {
    pub bytes: &'a [u8],
    pub ctx: Ctx,
}

impl<'a> Subject for LossySegmentData<'a> {
    type Value = Segment<'a>;

    ghost use Rattle.mach_parts.specs.Segment.{SegmentView, segment_view};
    ghost use Rattle.goblin_mach.specs.Subjects.{lossy_segment_by};

    ghost Seen = { SegmentView };

    ghost seen = { segment_view };

    ghost reading = { λ s. lossy_segment_by s.ctx s.bytes.now };

    /// Reads the command. It never fails.
    fn read(&self, command: &LoadCommand) -> Option<Result<Segment<'a>>> {
        let offset = command.offset;
        match &command.command {
            CommandVariant::Segment32(c) => {
                Some(Segment::from_32_lossy(self.bytes, c, offset, self.ctx))
            }
            CommandVariant::Segment64(c) => {
                Some(Segment::from_64_lossy(self.bytes, c, offset, self.ctx))
            }
            _ => None,
        }
    }
}

/// The symbols of the image.
#[derive(Clone, Copy)]
pub struct SymbolTables<'a> {
    pub bytes: &'a [u8],
    pub ctx: Ctx,
}

impl<'a> Subject for SymbolTables<'a> {
    type Value = Symbols<'a>;

    ghost use Rattle.mach_parts.specs.Symbols.{SymbolTable};
    ghost use Rattle.mach_parts.specs.SymbolViews.{table_of};

    ghost Seen = { SymbolTable };

    ghost seen = { table_of };

    ghost reading = { λ s. table_by s.ctx s.bytes.now };

    fn read(&self, command: &LoadCommand) -> Option<Result<Symbols<'a>>> {
        match &command.command {
            CommandVariant::Symtab(c) => Some(Symbols::parse(self.bytes, c, self.ctx)),
            _ => None,
        }
    }
}

/// The export trie of the image.
#[derive(Clone, Copy)]
pub struct Tries<'a> {
    pub bytes: &'a [u8],
}

impl<'a> Subject for Tries<'a> {
    type Value = ExportTrie<'a>;

    ghost use Rattle.mach_dyld.specs.TrieRange.{TrieRange};
    ghost use Rattle.goblin_mach.specs.Subjects.{trie_by};

    ghost Seen = { TrieRange };

    ghost seen = { λ trie. trie };

    ghost reading = { λ s. trie_by s.bytes.now };

    /// Reads the command. It never fails.
    fn read(&self, command: &LoadCommand) -> Option<Result<ExportTrie<'a>>> {
        match &command.command {
            CommandVariant::DyldInfo(c) | CommandVariant::DyldInfoOnly(c) => {
                Some(Ok(ExportTrie::new(self.bytes, c)))
            }
            CommandVariant::DyldExportsTrie(c) => Some(Ok(
                ExportTrie::new_from_linkedit_data_command(self.bytes, c),
            )),
            _ => None,
        }
    }
}

/// The binds of the image.
#[derive(Clone, Copy)]
pub struct Binds<'a> {
    pub bytes: &'a [u8],
}

impl<'a> Subject for Binds<'a> {
    type Value = BindInterpreter<'a>;

    ghost use Rattle.mach_dyld.specs.Imports.{BindRanges};
    ghost use Rattle.goblin_mach.specs.Subjects.{binds_by};

    ghost Seen = { BindRanges };

    ghost seen = { λ binds. binds };

    ghost reading = { λ s. binds_by s.bytes.now };

    /// Reads the command. It never fails.
    fn read(&self, command: &LoadCommand) -> Option<Result<BindInterpreter<'a>>> {
        match &command.command {
            CommandVariant::DyldInfo(c) | CommandVariant::DyldInfoOnly(c) => {
                Some(Ok(BindInterpreter::new(self.bytes, c)))
            }
            _ => None,
        }
    }
}
