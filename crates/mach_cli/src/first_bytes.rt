//! What a file is by its first bytes: whether it is divided into parts, what an entry or a member is, and the kind of a refused one.

ghost use Rattle.std.specs.Prelude.{◌≡◌, ◌∷◌, [], MatchOption};
ghost use Rattle.mach_cli.specs.FirstMagic.{begins_fat};
ghost use Rattle.mach_cli.specs.Foreigners.{refused_kind};
ghost use Rattle.mach_cli.specs.PartsOf.{entry_counts, itself, parts_in, wide_counts, IsDivided};
ghost use Rattle.mach_cli.specs.Kinds.{entry_kind};
ghost use Rattle.mach_parts.specs.Magic.{begins_archive};

use crate::entries::{EntryCounts, NO_ENTRIES, counts_in};
use goblin_mach::fat::{FAT_MAGIC, FatArch};
use goblin_mach::first_bytes::foreign_kind;
use goblin_mach::{
    Error, FAT_MAGIC_64, Foreign, Hint, Input, MultiArch64, begins_archive, peek, peek_bytes,
    take_hint_bytes,
};
use mach_archive::Archive;
use mach_parts::FatArch64;
use std::alloc::{Allocator, Global};

/// Returns the kind of a file that is refused for this error, if it isn't Mach-O. If memory ran out, any file has none.
pub fn refused_kind(bytes: &[u8], error: &Error) -> Option<Foreign>
    ensures { result ≡ refused_kind bytes.now error.now }
{
    match error {
        Error::Memory(_) => None,
        _ => foreign_kind(bytes),
    }
}

/// Returns the archive or the fat file of 64 bits that the bytes are, if they are one. Its parts are shown as files of their own.
pub fn divided(alloc: Global, bytes: &[u8]) -> Option<Input<'_>>
    ensures { MatchOption result (parts_in bytes.now ≡ itself bytes.now ∷ []) (IsDivided bytes.now) }
{
    if begins_archive(bytes) {
        return match Archive::parse(bytes) {
            Ok(archive) => Some(Input::Archive(archive)),
            Err(_) => None,
        };
    }
    match peek(bytes, 0) {
        Ok(FAT_MAGIC_64) => match MultiArch64::new(alloc, bytes) {
            Ok(file) => Some(Input::Fat64(file)),
            Err(_) => None,
        },
        _ => None,
    }
}

/// Returns how many entries of a file are shown, and how many aren't. Of what is no fat file there are none.
pub fn entry_counts<A: Allocator>(alloc: A, bytes: &[u8]) -> EntryCounts
    ensures { result ≡ entry_counts bytes.now }
{
    let is_archive = begins_archive(bytes);
    if is_archive {
        return NO_ENTRIES;
    }
    match peek(bytes, 0) {
        Ok(FAT_MAGIC_64) => counts_in::<FatArch64, A>(alloc, bytes),
        Ok(FAT_MAGIC) => counts_in::<FatArch, A>(alloc, bytes),
        _ => NO_ENTRIES,
    }
}

/// Returns the same of a fat file of 64 bits. Of one of 32 bits there are none, since it isn't divided.
pub fn wide_counts(alloc: Global, bytes: &[u8]) -> EntryCounts
    ensures { result ≡ wide_counts bytes.now }
{
    if begins_fat(bytes) {
        NO_ENTRIES
    } else {
        entry_counts(alloc, bytes)
    }
}

/// Whether bytes begin as a fat file of 32 bits does.
pub(crate) fn begins_fat(bytes: &[u8]) -> bool
    ensures { result ≡ begins_fat bytes.now }
{
    match peek(bytes, 0) {
        Ok(magic) => magic == FAT_MAGIC,
        Err(_) => false,
    }
}

/// Returns the kind of a member or an entry, by its first 16 bytes.
pub fn entry_kind(entry: &[u8]) -> &'static str
    ensures { result.now ≡ entry_kind entry.now }
{
    let Some(front) = take_hint_bytes(entry) else {
        return "too short";
    };
    match peek_bytes(front) {
        Ok(Hint::Archive) => "archive",
        Ok(Hint::Mach(_)) => "image",
        Ok(Hint::MachFat(_)) => "fat file",
        Ok(Hint::Unknown(_)) | Err(_) => "unknown",
    }
}

/// Whether bytes begin as an archive does that has its members in it.
pub fn begins_whole_archive(bytes: &[u8]) -> bool
    ensures { result ≡ begins_archive bytes.now }
{
    bytes.starts_with(b"!<arch>\n")
}
